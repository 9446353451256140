//! Equality of trees: the same variant and the same fields.
ghost use Rattle.std.specs.Prelude.{chars, ◌≡◌, ◌↔◌, IsTrue, nat_eq, option_map};
ghost use Rattle.std.specs.Cmp.{on_per, on_equiv, partial_equiv_from_equiv};
ghost use Rattle.fancy_grammar.specs.Positioned.{position_if, positioned, positioned_all};
ghost use Rattle.fancy_grammar.specs.ReadAs.{unpositioned};
ghost use Rattle.fancy_grammar.specs.Same.{same, same_all, same_name};
ghost use Rattle.fancy_grammar.proofs.SameLaws.{same-equiv};
ghost use Rattle.fancy_grammar.specs.Tree.{trees_of};
ghost use Rattle.fancy_syntax.specs.View.{view, views, view_ast, view_absent};

use super::{Absent, AstNode, Expr};
use fancy_lex::text::is_same_text;

impl PartialEq for AstNode {
    ghost eq = { λ a b. same (view_ast a 0) (view_ast b 0) };

    ghost laws = { on_per (λ a. view_ast a 0) (partial_equiv_from_equiv same-equiv) };

    fn eq(&self, other: &AstNode) -> bool
        ensures value { result ≡ same (view_ast self.now 0) (view_ast other.now 0) }
        ensures decides { IsTrue result ↔ (view_ast self.now 0 ≡ view_ast other.now 0) }
    {
        is_same_node(self, 0, other, 0, true)
    }
}

impl Eq for AstNode {
    ghost laws = { on_equiv (λ a. view_ast a 0) same-equiv };
}

impl PartialEq for Absent {
    ghost eq = { λ a b. same (view_absent a) (view_absent b) };

    ghost laws = { on_per view_absent (partial_equiv_from_equiv same-equiv) };

    fn eq(&self, other: &Absent) -> bool
        ensures value { result ≡ same (view_absent self.now) (view_absent other.now) }
        ensures decides { IsTrue result ↔ (view_absent self.now ≡ view_absent other.now) }
    {
        is_same_absent(self, other, true)
    }
}

impl Eq for Absent {
    ghost laws = { on_equiv view_absent same-equiv };
}

impl PartialEq for Expr {
    ghost eq = { λ a b. same (view a) (view b) };

    ghost laws = { on_per view (partial_equiv_from_equiv same-equiv) };

    fn eq(&self, other: &Expr) -> bool
        ensures value { result ≡ same (view self.now) (view other.now) }
        ensures decides { IsTrue result ↔ (view self.now ≡ view other.now) }
    {
        is_same(self, other, true)
    }
}

impl Eq for Expr {
    ghost laws = { on_equiv view same-equiv };
}

impl Expr {
    /// Returns whether the trees are equal, with the positions in `AstNode`s left out.
    pub fn is_same_but_for_positions(&self, other: &Expr) -> bool
        ensures { IsTrue result ↔ (unpositioned (view self.now) ≡ unpositioned (view other.now)) }
    {
        is_same(self, other, false)
    }
}

/// Whether the positions are equal, if they are compared; else true.
fn is_same_position(position: usize, other: usize, with_positions: bool) -> bool
    ensures { result ≡ nat_eq (position_if with_positions position) (position_if with_positions other) }
{
    !with_positions || position == other
}

/// Whether the nodes are equal.
#[cycle(same)]
fn is_same_node(
    node: &AstNode,
    position: usize,
    other: &AstNode,
    other_position: usize,
    with_positions: bool,
) -> bool
    ensures { result ≡ same (positioned with_positions (view_ast node.now position))
        (positioned with_positions (view_ast other.now other_position)) }
{
    match node {
        AstNode::AstGroup { name, inner } => match other {
            AstNode::AstGroup {
                name: other_name,
                inner: other_inner,
            } => is_same_name(name.as_deref(), other_name.as_deref())
                && is_same_position(position, other_position, with_positions)
                && is_same_child(inner, other_inner, with_positions),
            AstNode::Backref { .. }
            | AstNode::SubroutineCall(_)
            | AstNode::BackrefExistsCondition { .. } => false,
        },
        AstNode::Backref {
            target,
            casei,
            relative_recursion_level,
        } => match other {
            AstNode::Backref {
                target: other_target,
                casei: other_casei,
                relative_recursion_level: other_level,
            } => *target == *other_target
                && *casei == *other_casei
                && *relative_recursion_level == *other_level
                && is_same_position(position, other_position, with_positions),
            AstNode::AstGroup { .. }
            | AstNode::SubroutineCall(_)
            | AstNode::BackrefExistsCondition { .. } => false,
        },
        AstNode::SubroutineCall(target) => match other {
            AstNode::SubroutineCall(other_target) => *target == *other_target
                && is_same_position(position, other_position, with_positions),
            AstNode::AstGroup { .. }
            | AstNode::Backref { .. }
            | AstNode::BackrefExistsCondition { .. } => false,
        },
        AstNode::BackrefExistsCondition {
            target,
            relative_recursion_level,
        } => match other {
            AstNode::BackrefExistsCondition {
                target: other_target,
                relative_recursion_level: other_level,
            } => *target == *other_target
                && *relative_recursion_level == *other_level
                && is_same_position(position, other_position, with_positions),
            AstNode::AstGroup { .. } | AstNode::Backref { .. } | AstNode::SubroutineCall(_) =>
                false,
        },
    }
}

/// Whether the absent forms are equal.
#[cycle(same)]
fn is_same_absent(absent: &Absent, other: &Absent, with_positions: bool) -> bool
    ensures { result ≡ same (positioned with_positions (view_absent absent.now)) (positioned with_positions (view_absent other.now)) }
{
    match absent {
        Absent::Repeater(child) => match other {
            Absent::Repeater(other_child) => is_same_child(child, other_child, with_positions),
            Absent::Expression { .. } | Absent::Stopper(_) | Absent::Clear => false,
        },
        Absent::Expression { absent, exp } => match other {
            Absent::Expression {
                absent: other_absent,
                exp: other_exp,
            } => is_same_child(absent, other_absent, with_positions)
                && is_same_child(exp, other_exp, with_positions),
            Absent::Repeater(_) | Absent::Stopper(_) | Absent::Clear => false,
        },
        Absent::Stopper(child) => match other {
            Absent::Stopper(other_child) => is_same_child(child, other_child, with_positions),
            Absent::Repeater(_) | Absent::Expression { .. } | Absent::Clear => false,
        },
        Absent::Clear => matches!(other, Absent::Clear),
    }
}

/// Whether the trees are equal.
#[cycle(same)]
fn is_same(tree: &Expr, other: &Expr, with_positions: bool) -> bool
    ensures { result ≡ same (positioned with_positions (view tree.now)) (positioned with_positions (view other.now)) }
{
    match tree {
        Expr::Empty => matches!(other, Expr::Empty),
        Expr::Any { newline, crlf } => match other {
            Expr::Any {
                newline: other_newline,
                crlf: other_crlf,
            } => *newline == *other_newline && *crlf == *other_crlf,
            _ => false,
        },
        Expr::Assertion(assertion) => match other {
            Expr::Assertion(other_assertion) => *assertion == *other_assertion,
            _ => false,
        },
        Expr::GeneralNewline { unicode } => match other {
            Expr::GeneralNewline {
                unicode: other_unicode,
            } => *unicode == *other_unicode,
            _ => false,
        },
        Expr::Literal { val, casei } => match other {
            Expr::Literal {
                val: other_val,
                casei: other_casei,
            } => is_same_text(val.as_str(), other_val.as_str()) && *casei == *other_casei,
            _ => false,
        },
        Expr::LiteralBytes { bytes } => match other {
            Expr::LiteralBytes { bytes: other_bytes } => *bytes == *other_bytes,
            _ => false,
        },
        Expr::Concat(parts) => match other {
            Expr::Concat(other_parts) => is_same_list(parts, other_parts, with_positions),
            _ => false,
        },
        Expr::Alt(branches) => match other {
            Expr::Alt(other_branches) => is_same_list(branches, other_branches, with_positions),
            _ => false,
        },
        Expr::Group(child) => match other {
            Expr::Group(other_child) => is_same_child(child, other_child, with_positions),
            _ => false,
        },
        Expr::LookAround(child, look) => match other {
            Expr::LookAround(other_child, other_look) => *look == *other_look
                && is_same_child(child, other_child, with_positions),
            _ => false,
        },
        Expr::Repeat {
            child,
            lo,
            hi,
            greedy,
        } => match other {
            Expr::Repeat {
                child: other_child,
                lo: other_lo,
                hi: other_hi,
                greedy: other_greedy,
            } => *lo == *other_lo
                && *hi == *other_hi
                && *greedy == *other_greedy
                && is_same_child(child, other_child, with_positions),
            _ => false,
        },
        Expr::Delegate { inner, casei } => match other {
            Expr::Delegate {
                inner: other_inner,
                casei: other_casei,
            } => is_same_text(inner.as_str(), other_inner.as_str()) && *casei == *other_casei,
            _ => false,
        },
        Expr::Backref { group, casei } => match other {
            Expr::Backref {
                group: other_group,
                casei: other_casei,
            } => *group == *other_group && *casei == *other_casei,
            _ => false,
        },
        Expr::BackrefWithRelativeRecursionLevel {
            group,
            relative_level,
            casei,
        } => match other {
            Expr::BackrefWithRelativeRecursionLevel {
                group: other_group,
                relative_level: other_level,
                casei: other_casei,
            } => *group == *other_group
                && *relative_level == *other_level
                && *casei == *other_casei,
            _ => false,
        },
        Expr::AtomicGroup(child) => match other {
            Expr::AtomicGroup(other_child) => is_same_child(child, other_child, with_positions),
            _ => false,
        },
        Expr::KeepOut => matches!(other, Expr::KeepOut),
        Expr::ContinueFromPreviousMatchEnd => matches!(other, Expr::ContinueFromPreviousMatchEnd),
        Expr::BackrefExistsCondition {
            group,
            relative_recursion_level,
        } => match other {
            Expr::BackrefExistsCondition {
                group: other_group,
                relative_recursion_level: other_level,
            } => *group == *other_group && *relative_recursion_level == *other_level,
            _ => false,
        },
        Expr::Conditional {
            condition,
            true_branch,
            false_branch,
        } => match other {
            Expr::Conditional {
                condition: other_condition,
                true_branch: other_true_branch,
                false_branch: other_false_branch,
            } => is_same_child(condition, other_condition, with_positions)
                && is_same_child(true_branch, other_true_branch, with_positions)
                && is_same_child(false_branch, other_false_branch, with_positions),
            _ => false,
        },
        Expr::SubroutineCall(group) => match other {
            Expr::SubroutineCall(other_group) => *group == *other_group,
            _ => false,
        },
        Expr::BacktrackingControlVerb(verb) => match other {
            Expr::BacktrackingControlVerb(other_verb) => *verb == *other_verb,
            _ => false,
        },
        Expr::Absent(absent) => match other {
            Expr::Absent(other_absent) => is_same_absent(absent, other_absent, with_positions),
            _ => false,
        },
        Expr::DefineGroup { definitions } => match other {
            Expr::DefineGroup {
                definitions: other_definitions,
            } => is_same_child(definitions, other_definitions, with_positions),
            _ => false,
        },
        Expr::AstNode(node, position) => match other {
            Expr::AstNode(other_node, other_position) => is_same_node(
                node,
                *position,
                other_node,
                *other_position,
                with_positions,
            ),
            _ => false,
        },
    }
}

/// Whether both have the same name, or neither has one.
fn is_same_name(name: Option<&str>, other: Option<&str>) -> bool
    ensures { let text = option_map (λ t. chars t.now) in result ≡ same_name (text name.entry) (text other.entry) }
{
    match name {
        None => other.is_none(),
        Some(name) => match other {
            None => false,
            Some(other) => is_same_text(name, other),
        },
    }
}

/// Whether the trees in the boxes are equal.
#[cycle(same)]
fn is_same_child(child: &Box<Expr>, other: &Box<Expr>, with_positions: bool) -> bool
    ensures { result ≡ same (positioned with_positions (view child.now.value)) (positioned with_positions (view other.now.value)) }
{
    is_same(child, other, with_positions)
}

/// Whether the lists hold equal trees, one by one.
#[cycle(same)]
fn is_same_list(trees: &[Expr], others: &[Expr], with_positions: bool) -> bool
    ensures { result ≡ same_all (positioned_all with_positions (trees_of (views trees.now)))
        (positioned_all with_positions (trees_of (views others.now))) }
{
    if trees.len() != others.len() {
        return false;
    }
    for i in 0..trees.len() {
        if !is_same_piece(&trees[i], &others[i], with_positions) {
            return false;
        }
    }
    true
}

/// Whether the trees are equal. Most are Literals: this saves a call for each.
#[cycle(same)]
#[inline(always)]
fn is_same_piece(tree: &Expr, other: &Expr, with_positions: bool) -> bool
    ensures { result ≡ same (positioned with_positions (view tree.now)) (positioned with_positions (view other.now)) }
{
    if let Expr::Literal { val, casei } = tree
        && let Expr::Literal {
            val: other_val,
            casei: other_casei,
        } = other
    {
        return is_same_text(val.as_str(), other_val.as_str()) && *casei == *other_casei;
    }
    is_same(tree, other, with_positions)
}
