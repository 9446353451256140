//! Quantifiers.
ghost use Rattle.std.specs.Prelude.{◌≡◌, ◌-◌, ℕ, ◌++◌, codes, decimal, OnOk};
ghost use Rattle.fancy_grammar.specs.Quote.{counts_as};
ghost use Rattle.fancy_grammar.specs.Depth.{max_depth};
ghost use Rattle.fancy_grammar.specs.PatternQuantifier as spec;
ghost use Rattle.fancy_grammar.specs.Tree.{atomic_group};
ghost use Rattle.fancy_pattern.specs.TextOutput.{Added};
ghost use Rattle.fancy_syntax.specs.View.{view};

use crate::output::{TextOutput, put_if};
use fancy_grammar::depth::MAX_ADJACENT;
use fancy_lex::flags::Flags;
use fancy_syntax::expr::Expr;
use fancy_syntax::print::quote::operator;
use std::alloc::AllocError;

/// The counts of a Repeat, whether it is greedy, and whether it is possessive.
#[derive(Clone, Copy)]
pub(crate) struct Quantifier {
    pub(crate) lo: usize,
    pub(crate) hi: usize,
    pub(crate) greedy: bool,
    pub(crate) possessive: bool,
}

/// Whether a possessive quantifier, or in Oniguruma mode one with swapped counts, is read as an atomic group of a
/// Repeat with these counts.
pub(crate) fn is_possessive(lo: usize, hi: usize, flags: Flags) -> bool
    ensures { result ≡ spec.is_possessive flags lo hi }
{
    !flags.oniguruma_mode || lo < hi
}

/// Whether an atomic group of the tree is written as a possessive quantifier.
fn is_possessive_repeat(tree: &Expr, flags: Flags) -> bool
    ensures { result ≡ spec.is_quantified flags (atomic_group (view tree.now)) }
{
    let Expr::Repeat { lo, hi, .. } = tree else {
        return false;
    };
    is_possessive(*lo, *hi, flags)
}

/// Whether the tree's text ends with a quantifier of its own.
pub(crate) fn is_quantified(tree: &Expr, flags: Flags) -> bool
    ensures { result ≡ spec.is_quantified flags (view tree.now) }
{
    if let Expr::AtomicGroup(child) = tree {
        return is_possessive_repeat(child, flags);
    }
    matches!(tree, Expr::Repeat { .. })
}

/// How many quantifiers may follow one another if `left` levels are left.
pub(crate) fn most_quantifiers(flags: Flags, left: usize) -> usize
    ensures { (d : ℕ) → left ≡ max_depth - d → result ≡ spec.most_quantifiers flags d }
{
    if flags.oniguruma_mode {
        left.min(MAX_ADJACENT + 1)
    } else {
        1
    }
}

/// The operator that remains for the counts if the quantifier is adjacent to another: `?` and `+` would belong to that
/// one.
fn operator_left(adjacent: bool, operator: Option<char>) -> Option<char>
    ensures { spec.operator_left adjacent operator ≡ result }
{
    match operator {
        Some(c) if adjacent && c != '*' => None,
        _ => operator,
    }
}

/// Writes the operator, or the counts in braces if there is none.
fn put_counts(
    out: &mut TextOutput,
    lo: usize,
    hi: usize,
    operator: Option<char>,
) -> Result<(), AllocError>
    ensures { OnOk result (Added out.old out.new (counts_as lo hi operator)) }
{
    match operator {
        Some(c) => out.put(c),
        None => {
            out.put('{')?;
            out.put_range(lo, hi)?;
            out.put('}')
        }
    }
}

/// Writes the counts in braces, swapped.
fn put_swapped(out: &mut TextOutput, lo: usize, hi: usize) -> Result<(), AllocError>
    ensures { OnOk result (Added out.old out.new
        (codes "{" ++ (decimal hi ++ (codes "," ++ (decimal lo ++ codes "}"))))) }
{
    out.put('{')?;
    out.put_number(hi)?;
    out.put(',')?;
    out.put_number(lo)?;
    out.put('}')
}

/// Writes `?` if the quantifier is not greedy, or under SWAP_GREED if it is.
fn put_lazy(out: &mut TextOutput, greedy: bool, flags: Flags) -> Result<(), AllocError>
    ensures { OnOk result (Added out.old out.new (spec.lazy_operator flags greedy)) }
{
    put_if(out, greedy == flags.swap_greed, '?')
}

/// Writes `+` if the quantifier is possessive.
fn put_possessive(out: &mut TextOutput, possessive: bool) -> Result<(), AllocError>
    ensures { OnOk result (Added out.old out.new (spec.possessive_operator possessive)) }
{
    put_if(out, possessive, '+')
}

/// Writes a quantifier, which may be adjacent to another.
pub(crate) fn put_quantifier(
    out: &mut TextOutput,
    quantifier: Quantifier,
    adjacent: bool,
    flags: Flags,
) -> Result<(), AllocError>
    ensures { OnOk result (Added out.old out.new
        (spec.quantifier_text flags quantifier.possessive adjacent quantifier.lo quantifier.hi quantifier.greedy)) }
{
    let Quantifier {
        lo,
        hi,
        greedy,
        possessive,
    } = quantifier;
    let operator = operator_left(adjacent, operator(lo, hi));
    if flags.oniguruma_mode && possessive && operator.is_none() {
        put_swapped(out, lo, hi)?;
        return put_lazy(out, greedy, flags);
    }
    put_counts(out, lo, hi, operator)?;
    put_lazy(out, greedy, flags)?;
    put_possessive(out, possessive)
}
