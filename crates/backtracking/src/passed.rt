//! Nodes that a way passes.
ghost use Rattle.std.specs.Prelude.{◌≡◌};
ghost use Rattle.fancy_syntax.specs.View.{view};
ghost use Rattle.backtracking.specs.Passed.{is_passed};

use fancy_syntax::expr::Expr;

/// Whether the node is passed: a look-around, an assertion, a reference to a group, a condition or a conditional.
pub(crate) fn may_be_passed(node: &Expr) -> bool
    ensures { result ≡ is_passed (view node.now) }
{
    matches!(
        node,
        Expr::Assertion(_)
            | Expr::Backref { .. }
            | Expr::BackrefWithRelativeRecursionLevel { .. }
            | Expr::KeepOut
            | Expr::ContinueFromPreviousMatchEnd
            | Expr::BackrefExistsCondition { .. }
            | Expr::LookAround(..)
            | Expr::Conditional { .. }
    )
}
