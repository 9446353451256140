//! What is allowed at a precedence, and what needs a group there.
ghost use Rattle.std.specs.Prelude.{◌≡◌, not, ◌&&◌, List, nat_lt};
ghost use Rattle.fancy_grammar.specs.Pattern as spec;
ghost use Rattle.fancy_grammar.specs.PatternQuantifier as spec_quantifier;
ghost use Rattle.fancy_grammar.specs.Quantified as spec_quantified;
ghost use Rattle.fancy_grammar.specs.declared.needs.Needs.{Needs};
ghost use Rattle.fancy_pattern.specs.ContextViews.{Known, IsContext};
ghost use Rattle.fancy_syntax.specs.View.{view};

use crate::context::Context;
use crate::quantifier::{is_quantified, most_quantifiers};
use fancy_grammar::precedence::Precedence;
use fancy_lex::flags::Flags;
use fancy_syntax::expr::Expr;
use fancy_syntax::expr::repeatable::is_repeatable;

/// Whether several pieces are allowed at this precedence.
pub(crate) fn takes_pieces(precedence: Precedence) -> bool
    ensures { result ≡ spec.takes_pieces precedence }
{
    matches!(precedence, Precedence::Whole | Precedence::Branch)
}

/// Whether several branches are allowed at this precedence.
pub(crate) fn takes_branches(precedence: Precedence) -> bool
    ensures { result ≡ spec.takes_branches precedence }
{
    matches!(precedence, Precedence::Whole)
}

/// Whether a quantifier follows.
pub(crate) fn is_operand(precedence: Precedence) -> bool
    ensures { result ≡ spec.is_operand precedence }
{
    matches!(precedence, Precedence::Operand(_))
}

/// Whether a quantifier follows, and no other is allowed before it.
pub(crate) fn is_last_operand(precedence: Precedence) -> bool
    ensures { result ≡ spec.is_last_operand precedence }
{
    matches!(precedence, Precedence::Operand(0))
}

/// How many quantifiers are allowed before the quantifier of a tree at this precedence.
pub(crate) fn allowed(precedence: Precedence, context: &Context) -> usize
    ensures { (k : Known) (h : spec.Context) (l : List Needs) → IsContext k context.now h l →
        result ≡ spec.allowed precedence h }
{
    match precedence {
        Precedence::Operand(allowed) if allowed > 0 => allowed - 1,
        _ => most_quantifiers(context.flags, context.left).saturating_sub(1),
    }
}

/// Whether a quantifier follows that the tree cannot take.
pub(crate) fn needs_group(tree: &Expr, precedence: Precedence, flags: Flags) -> bool
    ensures { result ≡ (spec.is_operand precedence && not (spec_quantified.is_repeatable flags (view tree.now))) }
{
    is_operand(precedence) && !is_repeatable(flags, tree)
}

/// Whether the quantifier directly follows another, that of the child.
pub(crate) fn is_adjacent(allowed: usize, child: &Expr, flags: Flags) -> bool
    ensures { result ≡ (nat_lt 0 allowed && spec_quantifier.is_quantified flags (view child.now)) }
{
    allowed > 0 && is_quantified(child, flags)
}
