//! What matches the empty text.
ghost use Rattle.std.specs.Prelude.{◌≡◌, Bool, IsTrue};
ghost use Rattle.fancy_syntax.specs.Tree.{trees_of};
ghost use Rattle.fancy_syntax.specs.View.{view, view_absent, views};
ghost use Rattle.pattern_matches.specs.Defined.{IsDefined};
ghost use Rattle.patterns_lint.specs.Empty as spec;
ghost use Rattle.patterns_lint.specs.Empty.{IsDecided};

use fancy_syntax::expr::{Absent, Expr};

/// Whether the absent form takes no text.
fn takes_nothing(absent: &Absent) -> bool
    ensures only { result ≡ spec.matches_only_empty (view_absent absent.now) }
    ensures can { result ≡ spec.can_match_empty (view_absent absent.now) }
{
    match absent {
        Absent::Stopper(_) => true,
        Absent::Clear => true,
        Absent::Repeater(_) => false,
        Absent::Expression { .. } => false,
    }
}

/// Whether the tree matches nothing but the empty text, as far as its form says.
#[tactic(auto, using(crate::proofs::NodeLemmas::node_steps))]
#[cycle(only_empty)]
pub(crate) fn matches_only_empty(tree: &Expr) -> bool
    ensures { result ≡ spec.matches_only_empty (view tree.now) }
{
    match tree {
        Expr::Empty
        | Expr::Assertion(_)
        | Expr::LookAround(..)
        | Expr::KeepOut
        | Expr::ContinueFromPreviousMatchEnd
        | Expr::BackrefExistsCondition { .. }
        | Expr::BacktrackingControlVerb(_)
        | Expr::DefineGroup { .. } => true,
        Expr::Absent(absent) => takes_nothing(absent),
        Expr::Concat(trees) => all_match_only_empty(trees),
        Expr::Alt(trees) => all_match_only_empty(trees),
        Expr::Group(child) => matches_only_empty(child),
        Expr::AtomicGroup(child) => matches_only_empty(child),
        Expr::Repeat { child, .. } => matches_only_empty(child),
        Expr::Conditional {
            condition,
            true_branch,
            false_branch,
        } => {
            matches_only_empty(condition)
                && matches_only_empty(true_branch)
                && matches_only_empty(false_branch)
        }
        Expr::Any { .. }
        | Expr::GeneralNewline { .. }
        | Expr::Literal { .. }
        | Expr::LiteralBytes { .. }
        | Expr::Delegate { .. }
        | Expr::Backref { .. }
        | Expr::BackrefWithRelativeRecursionLevel { .. }
        | Expr::SubroutineCall(_) => false,
        Expr::AstNode(..) => false,
    }
}

/// Whether each of the trees matches nothing but the empty text.
#[cycle(only_empty)]
fn all_match_only_empty(trees: &[Expr]) -> bool
    ensures { result ≡ spec.all_match_only_empty (trees_of (views trees.now)) }
{
    for tree in trees {
        if !matches_only_empty(tree) {
            return false;
        }
    }
    true
}

/// Whether the tree can match the empty text, as far as its form says. Of a reference, a call or a verb it does not.
#[tactic(auto, using(crate::proofs::NodeLemmas::node_steps))]
#[cycle(can_be_empty)]
pub(crate) fn can_match_empty(tree: &Expr) -> bool
    ensures { result ≡ spec.can_match_empty (view tree.now) }
{
    match tree {
        Expr::Empty
        | Expr::Assertion(_)
        | Expr::LookAround(..)
        | Expr::KeepOut
        | Expr::ContinueFromPreviousMatchEnd
        | Expr::BackrefExistsCondition { .. }
        | Expr::DefineGroup { .. } => true,
        Expr::Absent(absent) => takes_nothing(absent),
        Expr::Concat(trees) => all_can_match_empty(trees),
        Expr::Alt(trees) => any_can_match_empty(trees),
        Expr::Group(child) => can_match_empty(child),
        Expr::AtomicGroup(child) => can_match_empty(child),
        Expr::Repeat { child, lo, .. } => *lo == 0 || can_match_empty(child),
        Expr::Conditional {
            condition,
            true_branch,
            false_branch,
        } => {
            can_match_empty(condition)
                && can_match_empty(true_branch)
                && can_match_empty(false_branch)
        }
        Expr::Any { .. }
        | Expr::GeneralNewline { .. }
        | Expr::Literal { .. }
        | Expr::LiteralBytes { .. }
        | Expr::Delegate { .. }
        | Expr::Backref { .. }
        | Expr::BackrefWithRelativeRecursionLevel { .. }
        | Expr::BacktrackingControlVerb(_)
        | Expr::SubroutineCall(_) => false,
        Expr::AstNode(..) => false,
    }
}

/// Whether each of the trees can match the empty text.
#[cycle(can_be_empty)]
fn all_can_match_empty(trees: &[Expr]) -> bool
    ensures { result ≡ spec.all_can_match_empty (trees_of (views trees.now)) }
{
    for tree in trees {
        if !can_match_empty(tree) {
            return false;
        }
    }
    true
}

/// Whether one of the trees can match the empty text.
#[cycle(can_be_empty)]
fn any_can_match_empty(trees: &[Expr]) -> bool
    ensures { result ≡ spec.any_can_match_empty (trees_of (views trees.now)) }
{
    for tree in trees {
        if can_match_empty(tree) {
            return true;
        }
    }
    false
}

/// Whether the absent form matches at every position: none is known to.
fn absent_matches_everywhere(absent: &Absent) -> bool
    ensures { result ≡ spec.matches_everywhere (view_absent absent.now) }
{
    match absent {
        Absent::Stopper(_) | Absent::Clear | Absent::Repeater(_) => false,
        Absent::Expression { .. } => false,
    }
}

/// Whether the tree matches the empty text at every position, as far as its form says.
#[tactic(auto, using(crate::proofs::NodeLemmas::node_steps))]
#[cycle(everywhere)]
pub(crate) fn matches_everywhere(tree: &Expr) -> bool
    ensures { result ≡ spec.matches_everywhere (view tree.now) }
{
    match tree {
        Expr::Empty => true,
        Expr::Absent(absent) => absent_matches_everywhere(absent),
        Expr::Concat(trees) => all_match_everywhere(trees),
        Expr::Alt(trees) => any_matches_everywhere(trees),
        Expr::Group(child) => matches_everywhere(child),
        Expr::AtomicGroup(child) => matches_everywhere(child),
        Expr::Repeat { child, lo, .. } => *lo == 0 || matches_everywhere(child),
        Expr::Assertion(_)
        | Expr::LookAround(..)
        | Expr::KeepOut
        | Expr::ContinueFromPreviousMatchEnd
        | Expr::BackrefExistsCondition { .. }
        | Expr::DefineGroup { .. }
        | Expr::Conditional { .. }
        | Expr::Any { .. }
        | Expr::GeneralNewline { .. }
        | Expr::Literal { .. }
        | Expr::LiteralBytes { .. }
        | Expr::Delegate { .. }
        | Expr::Backref { .. }
        | Expr::BackrefWithRelativeRecursionLevel { .. }
        | Expr::BacktrackingControlVerb(_)
        | Expr::SubroutineCall(_) => false,
        Expr::AstNode(..) => false,
    }
}

/// Whether each of the trees matches the empty text at every position.
#[cycle(everywhere)]
fn all_match_everywhere(trees: &[Expr]) -> bool
    ensures { result ≡ spec.all_match_everywhere (trees_of (views trees.now)) }
{
    for tree in trees {
        if !matches_everywhere(tree) {
            return false;
        }
    }
    true
}

/// Whether one of the trees matches the empty text at every position.
#[cycle(everywhere)]
fn any_matches_everywhere(trees: &[Expr]) -> bool
    ensures { result ≡ spec.any_matches_everywhere (trees_of (views trees.now)) }
{
    for tree in trees {
        if matches_everywhere(tree) {
            return true;
        }
    }
    false
}

/// Whether it is a look-around whose contents match everywhere. One with a capturing group may be there for the group, and
/// one with no contents is meant: `(?!)` never matches.
pub(crate) fn is_useless_look_around(tree: &Expr) -> bool
    ensures form { result ≡ spec.is_useless_look_around (view tree.now) }
    ensures matches { (unicode : Bool) → IsTrue result → IsDefined unicode (view tree.now) →
        IsDecided unicode (view tree.now) }
{
    let Expr::LookAround(child, _) = tree else {
        return false;
    };
    matches_everywhere(child) && !has_group(child) && !is_empty(child)
}

/// Whether it is the empty pattern.
fn is_empty(tree: &Expr) -> bool
    ensures { result ≡ spec.is_empty (view tree.now) }
{
    matches!(tree, Expr::Empty)
}

/// Whether the tree holds a capturing group.
#[tactic(auto, using(crate::proofs::NodeLemmas::node_steps))]
#[cycle(has_group)]
pub(crate) fn has_group(tree: &Expr) -> bool
    ensures { result ≡ spec.has_group (view tree.now) }
{
    match tree {
        Expr::Group(_) => true,
        Expr::Concat(trees) => any_has_group(trees),
        Expr::Alt(trees) => any_has_group(trees),
        Expr::LookAround(child, _) => has_group(child),
        Expr::Repeat { child, .. } => has_group(child),
        Expr::AtomicGroup(child) => has_group(child),
        Expr::DefineGroup { definitions } => has_group(definitions),
        Expr::Absent(absent) => absent_has_group(absent),
        Expr::Conditional {
            condition,
            true_branch,
            false_branch,
        } => has_group(condition) || has_group(true_branch) || has_group(false_branch),
        Expr::Empty
        | Expr::Any { .. }
        | Expr::Assertion(_)
        | Expr::GeneralNewline { .. }
        | Expr::Literal { .. }
        | Expr::LiteralBytes { .. }
        | Expr::Delegate { .. }
        | Expr::Backref { .. }
        | Expr::BackrefWithRelativeRecursionLevel { .. }
        | Expr::KeepOut
        | Expr::ContinueFromPreviousMatchEnd
        | Expr::BackrefExistsCondition { .. }
        | Expr::BacktrackingControlVerb(_)
        | Expr::SubroutineCall(_) => false,
        Expr::AstNode(..) => false,
    }
}

/// Whether the absent form holds a capturing group.
#[cycle(has_group)]
fn absent_has_group(absent: &Absent) -> bool
    ensures { result ≡ spec.has_group (view_absent absent.now) }
{
    match absent {
        Absent::Repeater(child) => has_group(child),
        Absent::Expression { absent, exp } => has_group(absent) || has_group(exp),
        Absent::Stopper(child) => has_group(child),
        Absent::Clear => false,
    }
}

/// Whether one of the trees holds a capturing group.
#[cycle(has_group)]
fn any_has_group(trees: &[Expr]) -> bool
    ensures { result ≡ spec.any_has_group (trees_of (views trees.now)) }
{
    for tree in trees {
        if has_group(tree) {
            return true;
        }
    }
    false
}
