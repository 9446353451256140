//! References to groups that are not there.
ghost use Rattle.std.specs.Prelude.{◌≡◌, if◌then◌else◌, nat_lt, Some, None, OnSome};
ghost use Rattle.fancy_syntax.specs.View.{view};
ghost use Rattle.patterns_lint.specs.Targets as spec;

use fancy_syntax::expr::Expr;
use lint_rules::problem::is_of_digits;

/// What comes before the number of a call.
static CALL_OPENINGS: [&str; 4] = [r"\g", r"\g<", r"\g'", "(?P>"];

/// The number, if it is above the number of groups.
pub(crate) fn above(total: usize, group: usize) -> Option<usize>
    ensures { result ≡ spec.above total group }
{
    if total < group { Some(group) } else { None }
}

/// The group of the back reference, if the pattern does not have it.
pub(crate) fn missing_group(tree: &Expr, total: usize) -> Option<usize>
    ensures { result ≡ spec.missing_group total (view tree.now) }
{
    if let Expr::Backref { group, .. }
    | Expr::BackrefWithRelativeRecursionLevel { group, .. } = tree
    {
        above(total, *group)
    } else {
        None
    }
}

/// The group of the condition, if the pattern does not have it.
pub(crate) fn missing_condition_group(tree: &Expr, total: usize) -> Option<usize>
    ensures { result ≡ spec.missing_condition_group total (view tree.now) }
{
    let Expr::BackrefExistsCondition { group, .. } = tree else {
        return None;
    };
    above(total, *group)
}

/// Whether the text of a call has the group's number: not its name, and not how many groups it is away.
fn is_call_by_number(text: &str) -> bool {
    let call = text.trim_end_matches(['>', '\'', ')']);
    let opening = call.trim_end_matches(|c: char| c.is_ascii_digit());
    opening.len() < call.len() && CALL_OPENINGS.contains(&opening)
}

/// Whether the node, which has this text, refers to a group by a number: a call, or a back reference that is a backslash
/// and digits.
pub(crate) fn is_numbered_reference(tree: &Expr, text: &str) -> bool {
    (matches!(tree, Expr::Backref { .. }) && is_of_digits(text))
        || (matches!(tree, Expr::SubroutineCall(_)) && is_call_by_number(text))
}

/// The group of the back reference, which has this text, if it is a backslash and digits, and `begin` has fewer groups.
pub(crate) fn missing_begin_group(tree: &Expr, text: &str, total: usize) -> Option<usize>
    ensures { OnSome result (result ≡ spec.missing_group total (view tree.now)) }
{
    if is_of_digits(text) {
        missing_group(tree, total)
    } else {
        None
    }
}

/// Whether the node is a call that refers to no group. No other node of a returned tree is an `AstNode`.
#[tactic(auto, using(crate::proofs::NodeLemmas::node_steps))]
pub(crate) fn is_unresolved_call(tree: &Expr, total: usize) -> bool
    ensures { result ≡ spec.is_unresolved_call total (view tree.now) }
{
    match tree {
        Expr::SubroutineCall(group) => total < *group,
        Expr::AstNode(..) => true,
        Expr::Empty
        | Expr::Any { .. }
        | Expr::Assertion(_)
        | Expr::GeneralNewline { .. }
        | Expr::Literal { .. }
        | Expr::LiteralBytes { .. }
        | Expr::Concat(_)
        | Expr::Alt(_)
        | Expr::Group(_)
        | Expr::LookAround(..)
        | Expr::Repeat { .. }
        | Expr::Delegate { .. }
        | Expr::Backref { .. }
        | Expr::BackrefWithRelativeRecursionLevel { .. }
        | Expr::AtomicGroup(_)
        | Expr::KeepOut
        | Expr::ContinueFromPreviousMatchEnd
        | Expr::BackrefExistsCondition { .. }
        | Expr::Conditional { .. }
        | Expr::BacktrackingControlVerb(_)
        | Expr::DefineGroup { .. }
        | Expr::Absent(_) => false,
    }
}
