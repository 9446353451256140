//! A tree under the quantifiers that follow it.
ghost use Rattle.std.specs.Prelude.{◌≡◌, ◌≤◌, ◌<◌, ◌+◌, true, false, length, chars, Some, if◌then◌else◌, IfOk, OnOk};
ghost use Rattle.fancy_grammar.specs.Depth.{max_depth};
ghost use Rattle.fancy_grammar.specs.Join.{is_empty};
ghost use Rattle.fancy_grammar.specs.Quantified as spec;
ghost use Rattle.fancy_grammar.specs.State.{done};
ghost use Rattle.fancy_grammar.specs.Tree.{repeat, atomic_group};
ghost use Rattle.fancy_syntax.specs.Log.{Log, layout_passed};
ghost use Rattle.fancy_syntax.specs.Recording.{adjacent_recorded, counted_recorded, quant_recorded, quantifier_dropped};
ghost use Rattle.fancy_syntax.specs.Recording.{quants_recorded};
ghost use Rattle.fancy_syntax.specs.Parsed.{state, suffix_of, Turns, GivesSuffix};
ghost use Rattle.fancy_syntax.specs.View.{view};

use crate::expr::Expr;
use crate::expr::repeatable::is_repeatable;
use crate::grammar::spanning::Spanning;
use crate::grammar::state::{State, skip_layout};
use crate::grammar::trees::is_empty;
use fancy_grammar::depth::{MAX_ADJACENT, MAX_DEPTH};
use fancy_lex::counts::Counts;
use fancy_lex::error::{ParseError, ReadError};
use fancy_lex::flags::Flags;
use fancy_lex::group_starts::counts;
use fancy_lex::text::{after, byte_len, reach, reach_before};
use std::alloc::{AllocError, Global};
use std::mem;

/// What follows the counts of a quantifier: the lazy and the possessive operator.
#[derive(Clone, Copy)]
pub(crate) struct Suffix {
    pub(crate) lazy: bool,
    pub(crate) possessive: bool,
}

/// Whether an Empty is kept without its quantifier. In Oniguruma mode it is, if the quantifier's operator or closing
/// brace, which the text follows, is after the start; `left` bytes were left at the start.
fn is_dropped(flags: Flags, left: usize, tree: &Expr, text: &str) -> bool
    ensures { result ≡ spec.is_dropped flags left (view tree.now) (chars text.now) }
{
    flags.oniguruma_mode && is_empty(tree) && left > 0 && byte_len(text) < left - 1
}

/// A quantifier is greedy without the lazy operator; if greediness is swapped, with it.
fn is_greedy(flags: Flags, lazy: bool) -> bool
    ensures { result ≡ spec.is_greedy flags lazy }
{
    if flags.swap_greed { lazy } else { !lazy }
}

/// Reads the quantifiers of the tree, before which `left` bytes were left, and puts the tree under them.
#[inline]
pub(crate) fn quantify<S: Spanning>(
    alloc: Global,
    tree: &mut Expr,
    current: &mut State,
    left: usize,
    depth: usize,
    spans: &mut S,
) -> Result<(), ReadError>
    requires depth { depth < max_depth }
    ensures value { Turns result (view tree.new) (state current.new)
        (spec.quants depth left (view tree.old) (state current.old)) }
    ensures within { length current.new.rest.now ≤ length current.old.rest.now }
    ensures spans { (l : Log) → S.records spans.old l →
        OnOk result (S.records spans.new (quants_recorded left (done (view tree.old) (state current.old)) l)) }
{
    quantify_once(alloc, tree, current, left, spans)?;
    if current.flags.oniguruma_mode {
        quantify_adjacent(alloc, tree, current, depth, spans)?;
    }
    Ok(())
}

/// Reads the quantifiers that are adjacent to an earlier one. RecursionExceeded after a fifth, or at depth 64.
fn quantify_adjacent<S: Spanning>(
    alloc: Global,
    tree: &mut Expr,
    current: &mut State,
    depth: usize,
    spans: &mut S,
) -> Result<(), ReadError>
    requires depth { depth < max_depth }
    ensures value { Turns result (view tree.new) (state current.new)
        (spec.adjacent spec.max_adjacent depth (view tree.old) (state current.old)) }
    ensures within { length current.new.rest.now ≤ length current.old.rest.now }
    ensures spans { (l : Log) → S.records spans.old l →
        OnOk result (S.records spans.new (adjacent_recorded spec.max_adjacent (view tree.old) (state current.old) l)) }
{
    let mut depth = depth;
    let mut more = MAX_ADJACENT;
    loop {
        let before = byte_len(current.rest);
        quantify_once(alloc, tree, current, before, spans)?;
        if byte_len(current.rest) == before {
            return Ok(());
        }
        if !may_count(more, depth) {
            let past = reach(current.rest);
            return Err(ReadError::At(past, ParseError::RecursionExceeded));
        }
        more -= 1;
        depth += 1;
    }
}

/// Whether one more adjacent quantifier is allowed at the depth.
fn may_count(more: usize, depth: usize) -> bool
    requires { depth < max_depth }
    ensures { result ≡ spec.may_count more depth }
{
    more > 0 && depth + 1 < MAX_DEPTH
}

/// Reads layout and the quantifier that follows the tree, if one does, and puts the tree under it.
#[inline(always)]
#[tactic(auto, unfolding(fancy_grammar::specs::Quantified::quant))]
fn quantify_once<S: Spanning>(
    alloc: Global,
    tree: &mut Expr,
    current: &mut State,
    left: usize,
    spans: &mut S,
) -> Result<(), ReadError>
    ensures value { Turns result (view tree.new) (state current.new)
        (spec.quant left (view tree.old) (state current.old)) }
    ensures within { length current.new.rest.now ≤ length current.old.rest.now }
    ensures spans { (l : Log) → S.records spans.old l →
        OnOk result (S.records spans.new (quant_recorded (view tree.old) (state current.old) l)) }
{
    let rest = skip_layout(*current)?;
    spans.pass_layout(*current, rest)?;
    current.rest = rest;
    let start = rest;
    let Some((counts, rest)) = counts(current.rest, current.flags.ignore_space) else {
        return Ok(());
    };
    current.rest = rest;
    repeat(alloc, tree, counts, start, current, left, spans)
}

/// Puts the tree under a quantifier with these counts, which begin at `start`, and reads what follows them.
///
/// TargetNotRepeatable at the operator or the closing brace, if the tree takes no quantifier.
#[inline(always)]
fn repeat<S: Spanning>(
    alloc: Global,
    tree: &mut Expr,
    counts: Counts,
    start: &str,
    current: &mut State,
    left: usize,
    spans: &mut S,
) -> Result<(), ReadError>
    ensures value { Turns result (view tree.new) (state current.new)
        (spec.with_counts left (view tree.old) (state current.old) (Some (counts, chars current.old.rest.now))) }
    ensures within { length current.new.rest.now ≤ length current.old.rest.now }
    ensures spans { (l : Log) → S.records spans.old l → OnOk result (S.records spans.new
        (counted_recorded (chars start.now) (view tree.old) (state current.old) l (counts, chars current.old.rest.now))) }
{
    if is_repeatable(current.flags, tree) {
        spans.pass_counts(counts, start, current.rest)?;
        let after_counts = reach(current.rest);
        let suffix = read_suffix(current, counts, spans)?;
        put_under(alloc, tree, current.flags, counts, suffix)?;
        // Layout after the counts belongs to the quantifier only if an operator follows it.
        let end = if suffix.lazy || suffix.possessive {
            reach(current.rest)
        } else {
            after_counts
        };
        spans.wrap(end, is_swapped(current.flags, counts) || suffix.possessive)?;
        return Ok(());
    }
    if is_dropped(current.flags, left, tree, current.rest) {
        drop_quantifier(counts, start, current, spans)?;
        return Ok(());
    }
    let operator = reach_before(current.rest);
    Err(ReadError::At(operator, ParseError::TargetNotRepeatable))
}

/// Reads what follows the counts of a quantifier that leaves nothing in the tree. The counts begin at `start`.
fn drop_quantifier<S: Spanning>(
    counts: Counts,
    start: &str,
    current: &mut State,
    spans: &mut S,
) -> Result<Suffix, ReadError>
    ensures value { GivesSuffix result (state current.new) (spec.suffix (state current.old) counts) }
    ensures within { length current.new.rest.now ≤ length current.old.rest.now }
    ensures spans { (l : Log) → S.records spans.old l →
        OnOk result (S.records spans.new (quantifier_dropped (chars start.now) (state current.old) counts l)) }
{
    spans.drop_text(reach(start), reach(current.rest))?;
    spans.pass_counts(counts, start, current.rest)?;
    let operators = reach(skip_layout(*current)?);
    let suffix = read_suffix(current, counts, spans)?;
    spans.drop_text(operators, reach(current.rest))?;
    Ok(suffix)
}

/// Reads layout and the operators after the counts of a quantifier: the lazy one, and directly the possessive one.
#[inline(always)]
fn read_suffix<S: Spanning>(
    current: &mut State,
    counts: Counts,
    spans: &mut S,
) -> Result<Suffix, ReadError>
    ensures spans { (l : Log) → S.records spans.old l →
        OnOk result (S.records spans.new (layout_passed (state current.old) l)) }
    ensures value { GivesSuffix result (state current.new) (spec.suffix (state current.old) counts) }
    ensures flags { current.new.flags ≡ current.old.flags }
    ensures within { length current.new.rest.now ≤ length current.old.rest.now }
{
    let rest = skip_layout(*current)?;
    spans.pass_layout(*current, rest)?;
    current.rest = rest;
    let mut lazy = false;
    if let Some(rest) = after(current.rest, '?') {
        lazy = true;
        current.rest = rest;
    }
    if may_be_possessive(current.flags, counts)
        && let Some(rest) = after(current.rest, '+')
    {
        current.rest = rest;
        return Ok(Suffix {
            lazy,
            possessive: true,
        });
    }
    Ok(Suffix {
        lazy,
        possessive: false,
    })
}

/// Whether a possessive operator may follow the counts: in Oniguruma mode it may not follow braces.
fn may_be_possessive(flags: Flags, counts: Counts) -> bool
    ensures { result ≡ spec.may_be_possessive flags counts }
{
    !(flags.oniguruma_mode && counts.braces)
}

/// Puts the tree under a quantifier with these counts and operators.
#[inline(never)]
fn put_under(
    alloc: Global,
    tree: &mut Expr,
    flags: Flags,
    counts: Counts,
    suffix: Suffix,
) -> Result<(), AllocError>
    ensures { IfOk result (λ _. view tree.new ≡ spec.quantified flags counts (suffix_of suffix) (view tree.old)) }
{
    let child = Box::new(alloc, mem::replace(tree, Expr::Empty))?;
    // The replaced tree is Empty, which owns nothing.
    mem::forget(mem::replace(tree, repeated(child, flags, counts, suffix.lazy)));
    if is_swapped(flags, counts) || suffix.possessive {
        make_atomic(alloc, tree)?;
    }
    Ok(())
}

/// The child repeated between the counts.
fn repeated(child: Box<Expr>, flags: Flags, counts: Counts, lazy: bool) -> Expr
    ensures { let greedy = spec.is_greedy flags lazy in view result ≡ (if spec.is_swapped flags counts
        then repeat (view child.value) counts.high counts.low greedy
        else repeat (view child.value) counts.low counts.high greedy) }
{
    let (lo, hi) = if is_swapped(flags, counts) {
        (counts.high, counts.low)
    } else {
        (counts.low, counts.high)
    };
    let greedy = is_greedy(flags, lazy);
    Expr::Repeat {
        child,
        lo,
        hi,
        greedy,
    }
}

/// Puts the tree in an atomic group.
fn make_atomic(alloc: Global, tree: &mut Expr) -> Result<(), AllocError>
    ensures { OnOk result (view tree.new ≡ atomic_group (view tree.old)) }
{
    let child = Box::new(alloc, mem::replace(tree, Expr::Empty))?;
    mem::forget(mem::replace(tree, Expr::AtomicGroup(child)));
    Ok(())
}

/// Whether the counts are swapped: in Oniguruma mode they are if the maximum is below the minimum.
fn is_swapped(flags: Flags, counts: Counts) -> bool
    ensures { result ≡ spec.is_swapped flags counts }
{
    flags.oniguruma_mode && counts.high < counts.low
}
