//! Which nodes a quantifier may follow.
ghost use Rattle.std.specs.Prelude.{◌≡◌};
ghost use Rattle.fancy_grammar.specs.Quantified as spec;
ghost use Rattle.fancy_syntax.specs.View.{view};

use crate::expr::Expr;
use fancy_lex::flags::Flags;

/// Returns whether a quantifier may follow the node: `Expr::Repeat` of it is read as that. None may follow an `Empty`, a
/// look-around, `\K`, `\G` or a verb, and under `FLAG_ONIGURUMA_MODE` an assertion.
pub fn is_repeatable(flags: Flags, tree: &Expr) -> bool
    ensures { result ≡ spec.is_repeatable flags (view tree.now) }
{
    match tree {
        Expr::Empty
        | Expr::LookAround(_, _)
        | Expr::KeepOut
        | Expr::ContinueFromPreviousMatchEnd
        | Expr::BacktrackingControlVerb(_) => false,
        Expr::Assertion(_) => !flags.oniguruma_mode,
        Expr::Any { .. }
        | Expr::GeneralNewline { .. }
        | Expr::Literal { .. }
        | Expr::LiteralBytes { .. }
        | Expr::Concat(_)
        | Expr::Alt(_)
        | Expr::Group(_)
        | Expr::Repeat { .. }
        | Expr::Delegate { .. }
        | Expr::Backref { .. }
        | Expr::BackrefWithRelativeRecursionLevel { .. }
        | Expr::AtomicGroup(_)
        | Expr::BackrefExistsCondition { .. }
        | Expr::Conditional { .. }
        | Expr::SubroutineCall(_)
        | Expr::Absent(_)
        | Expr::DefineGroup { .. }
        | Expr::AstNode(_, _) => true,
    }
}
