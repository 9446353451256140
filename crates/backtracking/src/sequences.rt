//! The concatenations of a pattern that can match a text in polynomially many ways.
ghost use Rattle.std.specs.Prelude.{◌≡◌, ◌+◌, ◌++◌, map, slice_get, Bool, List, IfOk, IfSome, IsSomeAnd, OnOk};
ghost use Rattle.std.specs.List.{AllByRecursion};
ghost use Rattle.fancy_syntax.specs.Spanned.{Spanned, spanned_of, spanned_of_tree, first_span, IsNodeOf, spanned_children};
ghost use Rattle.fancy_grammar.specs.Tree.{Tree, concat, trees_of};
ghost use Rattle.fancy_syntax.specs.View.{view, views};
ghost use Rattle.fancy_syntax.specs.declared.span.Span.{Span};
ghost use Rattle.backtracking.specs.Chain.{Chain, links};
ghost use Rattle.backtracking.specs.ManySplits.{HasManySplits};
ghost use Rattle.backtracking.specs.SlowSequences.{IsRepeatOf, IsCut, IsSpanAcross, IsChain, IsSlowAcross, IsSlowSequenceIn};
ghost use Rattle.backtracking.specs.ThreeWays.{AreThreeWays};

use crate::attack::{Attack, Surroundings, Target, enclosing_of, find_attack};
use crate::cut::{Cut, SequenceWays, SequenceWitness};
use crate::growth::Growth;
use crate::known_sets::ClassSets;
use crate::pieces::{Piece, Reach, pieces_of};
use crate::regular_shape::{RegularShape, regular_shape};
use crate::repeats::{SMALL_LIMIT, SearchOptions, is_left_alone};
use crate::sequence::ways_of_cut;
use fancy_syntax::expr::Expr;
use fancy_syntax::span::Span;
use fancy_syntax::spanned::{SpannedNode, SpannedTree};
use std::alloc::{AllocError, Global};

/// The most trees after a repeat that are looked at.
const MOST_LATER: usize = 500;

/// The most pairs of repeats of a pattern that are searched.
const MOST_SEARCHES: usize = 100;

/// Two repeats of a concatenation that can match a text in polynomially many ways.
#[derive(Drop)]
pub struct SlowSequence {
    /// The part of the pattern from the first repeat through the last one, in byte offsets.
    pub span: Span,
    /// The word, of which n repetitions have n ways, and what these are made of.
    pub witness: SequenceWitness,
    /// What to put around the repeated word.
    pub attack: Attack,
    /// How many repeats a chain has that ends with these two, where each and the next one can share the word. With degree d
    /// there are m^(d-1) ways over m * (d-1) repetitions.
    pub degree: usize,
    /// The index of the last repeat in the concatenation.
    pub(crate) last: usize,
}

/// The pairs of repeats of a pattern that are slow, and those that are not known to be slow or not.
#[derive(Drop)]
pub struct SlowSequences {
    pub slow: Vec<SlowSequence>,
    /// Those that have too much to look at, from the first repeat on, in byte offsets.
    pub not_searched: Vec<Span>,
}

/// A concatenation: its trees, and their spans.
#[derive(Clone, Copy)]
pub(crate) struct Row<'a, 's> {
    pub(crate) trees: &'a [Expr],
    pub(crate) spans: &'s [Span],
}

/// What the tree repeats more than 20 times more than it must, if it is such a repeat, or a group of one.
pub(crate) fn repeated_part(tree: &Expr) -> Option<&Expr>
    ensures { IfSome result (λ part. IsRepeatOf (view part.now) (view tree.now)) }
{
    match regular_shape(tree) {
        RegularShape::Group(child) => repeated_part(child),
        RegularShape::Repeat { child, lo, hi } => {
            if hi.saturating_sub(lo) > SMALL_LIMIT {
                Some(child)
            } else {
                None
            }
        }
        RegularShape::Empty
        | RegularShape::Character
        | RegularShape::Passed
        | RegularShape::Possessive { .. }
        | RegularShape::Concat(_)
        | RegularShape::Alt(_)
        | RegularShape::Irregular => None,
    }
}

/// The cut at the trees with these indices, if both are repeats.
fn cut_at(trees: &[Expr], first: usize, last: usize) -> Option<Cut<'_>>
    ensures { IfSome result (λ cut. IsCut (views trees.now) first last (view cut.first.now) (views cut.between.now)
        (view cut.last.now)) }
{
    Some(Cut {
        first: repeated_part(trees.get(first)?)?,
        between: trees.get(first.checked_add(1)?..last)?,
        last: repeated_part(trees.get(last)?)?,
    })
}

/// The span from the one at an index through the one at another.
pub(crate) fn span_across(spans: &[Span], first: usize, last: usize) -> Option<Span>
    ensures { IfSome result (IsSpanAcross spans.now first last) }
{
    let start = spans.get(first)?.start;
    let end = spans.get(last)?.end;
    Some(Span { start, end })
}

/// How many repeats a chain over the word has that ends with the repeat at the index; 1 if no pair ends there.
fn chain_to(pairs: &[SlowSequence], index: usize, word: &[char]) -> usize
    ensures { (unicode : Bool) → (trees : List Tree) → (spans : List Span) → (part : Tree) →
        IsSomeAnd (slice_get trees index) (IsRepeatOf part) →
        AllByRecursion (IsSlowAcross unicode trees spans) pairs.now →
        (c : Chain) × IsChain unicode trees word.now c index × (result ≡ links c + 1) }
{
    let mut longest = 1;
    for pair in pairs {
        if pair.last == index && pair.degree > longest && *pair.witness.word == *word {
            longest = pair.degree;
        }
    }
    longest
}

/// Searches for three ways over the cut, which has this span. Nothing is found after too many searches.
pub(crate) fn witness_across<'a>(
    cut: Cut<'a>,
    span: Span,
    options: SearchOptions,
    surroundings: &mut Surroundings<'a, '_>,
) -> Result<Option<SequenceWitness>, AllocError>
    ensures three { IfOk result (λ o. IfSome o (λ w. AreThreeWays options.unicode (view cut.entry.first.now)
        (views cut.entry.between.now) (view cut.entry.last.now) w.word.items w.first.items w.across.items w.last.items)) }
    ensures many { IfOk result (λ o. IfSome o (λ w. HasManySplits options.unicode (view cut.entry.first.now)
        (views cut.entry.between.now) (view cut.entry.last.now) w.word.items w.first.items w.across.items w.last.items)) }
{
    if surroundings.searches >= MOST_SEARCHES {
        surroundings.not_searched.push(span)?;
        return Ok(None);
    }
    surroundings.searches = surroundings.searches.saturating_add(1);
    match ways_of_cut(options.alloc, cut, options.unicode, &mut surroundings.sets)? {
        SequenceWays::Polynomial(witness) => Ok(Some(witness)),
        SequenceWays::NoneFound | SequenceWays::Irregular => Ok(None),
        SequenceWays::TooLarge => {
            surroundings.not_searched.push(span)?;
            Ok(None)
        }
    }
}

/// Searches for three ways from one repeat of the concatenation to another, and for what to put around the word. `pairs` are
/// those that are slow from earlier repeats on.
fn look_at_cut<'a>(
    row: Row<'a, '_>,
    first: usize,
    last: usize,
    pairs: &[SlowSequence],
    options: SearchOptions,
    surroundings: &mut Surroundings<'a, '_>,
) -> Result<Option<SlowSequence>, AllocError>
    ensures { AllByRecursion (IsSlowAcross options.unicode (views row.entry.trees.now) row.entry.spans.now) pairs.entry.now →
        IfOk result (λ o. IfSome o (IsSlowAcross options.unicode (views row.entry.trees.now) row.entry.spans.now)) }
{
    let Some(cut) = cut_at(row.trees, first, last) else {
        return Ok(None);
    };
    let Some(span) = span_across(row.spans, first, last) else {
        return Ok(None);
    };
    let Some(witness) = witness_across(cut, span, options, surroundings)? else {
        return Ok(None);
    };
    let target = Target::Sequence {
        trees: row.trees,
        first,
        last,
    };
    let growth = Growth::Polynomial;
    let Some(attack) = find_attack(options.alloc, target, growth, &witness.word, surroundings)?
    else {
        return Ok(None);
    };
    let Some(degree) = chain_to(pairs, first, &witness.word).checked_add(1) else {
        return Ok(None);
    };
    Ok(Some(SlowSequence {
        span,
        witness,
        attack,
        degree,
        last,
    }))
}

/// What the characters of a repeat say of a later tree, by their indices. No tree that is not a repeat reaches another.
fn reach_at(pieces: &[Piece], first: usize, last: usize) -> Reach {
    let Some(repeat) = pieces.get(first).and_then(|piece| piece.as_repeat()) else {
        return Reach::Blocked;
    };
    let Some(piece) = pieces.get(last) else {
        return Reach::Blocked;
    };
    if last.saturating_sub(first) > MOST_LATER {
        return Reach::TooLarge;
    }
    piece.reach(repeat)
}

/// Adds that there is too much to look at from one tree to another.
pub(crate) fn add_too_large(
    row: Row<'_, '_>,
    first: usize,
    last: usize,
    surroundings: &mut Surroundings<'_, '_>,
) -> Result<(), AllocError> {
    if let Some(span) = span_across(row.spans, first, last) {
        surroundings.not_searched.push(span)?;
    }
    Ok(())
}

/// Searches for a slow pair: the tree at the index, and the nearest later one. `pairs` are those from earlier trees on.
fn look_from<'a>(
    row: Row<'a, '_>,
    pieces: &[Piece],
    first: usize,
    pairs: &[SlowSequence],
    options: SearchOptions,
    surroundings: &mut Surroundings<'a, '_>,
) -> Result<Option<SlowSequence>, AllocError>
    ensures { AllByRecursion (IsSlowAcross options.unicode (views row.entry.trees.now) row.entry.spans.now) pairs.entry.now →
        IfOk result (λ o. IfSome o (IsSlowAcross options.unicode (views row.entry.trees.now) row.entry.spans.now)) }
{
    for last in first.saturating_add(1)..row.trees.len() {
        match reach_at(pieces, first, last) {
            Reach::Across => {}
            Reach::Blocked => break,
            Reach::TooLarge => {
                add_too_large(row, first, last, surroundings)?;
                break;
            }
            Reach::Repeat => {
                if let Some(slow) = look_at_cut(row, first, last, pairs, options, surroundings)? {
                    return Ok(Some(slow));
                }
            }
        }
    }
    Ok(None)
}

/// The spans of the children of a node.
pub(crate) fn child_spans(alloc: Global, node: SpannedNode<'_>) -> Result<Vec<Span>, AllocError>
    ensures { IfOk result (λ v. v.items ≡ map (λ c. first_span c.spans) (spanned_children (spanned_of node.entry))) }
{
    let mut spans = Vec::new(alloc);
    for child in node.children() {
        spans.push(child.span())?;
    }
    Ok(spans)
}

/// How many of the trees are repeats that are looked at.
fn count_repeats(trees: &[Expr]) -> usize {
    trees
        .iter()
        .filter(|tree| repeated_part(tree).is_some())
        .count()
}

/// The slow pairs of repeats of a concatenation.
fn pairs_of<'a>(
    row: Row<'a, '_>,
    options: SearchOptions,
    surroundings: &mut Surroundings<'a, '_>,
) -> Result<Vec<SlowSequence>, AllocError>
    ensures { IfOk result (λ pairs.
        AllByRecursion (IsSlowAcross options.unicode (views row.entry.trees.now) row.entry.spans.now) pairs.items) }
{
    let pieces = pieces_of(options.alloc, row.trees, &mut surroundings.sets)?;
    let mut pairs = Vec::new(options.alloc);
    for first in 0..row.trees.len() {
        if let Some(pair) = look_from(row, &pieces, first, &pairs, options, surroundings)? {
            pairs.push(pair)?;
        }
    }
    Ok(pairs)
}

/// Adds the pairs.
fn add_pairs(pairs: Vec<SlowSequence>, found: &mut Vec<SlowSequence>) -> Result<(), AllocError>
    ensures { OnOk result (found.new.items ≡ found.old.items ++ pairs.items) }
{
    for pair in pairs {
        found.push(pair)?;
    }
    Ok(())
}

/// Adds the slow pairs of repeats of the concatenation that the node is.
fn add_slow<'a>(
    node: SpannedNode<'a>,
    trees: &'a [Expr],
    options: SearchOptions,
    surroundings: &mut Surroundings<'a, '_>,
    found: &mut Vec<SlowSequence>,
) -> Result<(), AllocError>
    ensures { OnOk result ((root : Spanned) → IsNodeOf (spanned_of node.entry) root →
        view (spanned_of node.entry).expr ≡ concat (trees_of (views trees.now)) →
        AllByRecursion (IsSlowSequenceIn options.unicode root) found.old.items →
        AllByRecursion (IsSlowSequenceIn options.unicode root) found.new.items) }
{
    let spans = child_spans(options.alloc, node)?;
    let row = Row {
        trees,
        spans: &spans,
    };
    let pairs = pairs_of(row, options, surroundings)?;
    add_pairs(pairs, found)?;
    Ok(())
}

/// Adds the slow pairs of repeats of the node, if it is a concatenation.
fn look_at<'a>(
    node: SpannedNode<'a>,
    options: SearchOptions,
    surroundings: &mut Surroundings<'a, '_>,
    found: &mut Vec<SlowSequence>,
) -> Result<(), AllocError>
    ensures { OnOk result ((root : Spanned) → IsNodeOf (spanned_of node.entry) root →
        AllByRecursion (IsSlowSequenceIn options.unicode root) found.old.items →
        AllByRecursion (IsSlowSequenceIn options.unicode root) found.new.items) }
{
    let Expr::Concat(trees) = node.expr() else {
        return Ok(());
    };
    if count_repeats(trees) < 2 {
        return Ok(());
    }
    add_slow(node, trees, options, surroundings, found)?;
    Ok(())
}

/// Adds the slow pairs of repeats in the node and in those below it.
fn look<'a>(
    node: SpannedNode<'a>,
    options: SearchOptions,
    surroundings: &mut Surroundings<'a, '_>,
    found: &mut Vec<SlowSequence>,
) -> Result<(), AllocError>
    ensures { OnOk result ((root : Spanned) → IsNodeOf (spanned_of node.entry) root →
        AllByRecursion (IsSlowSequenceIn options.unicode root) found.old.items →
        AllByRecursion (IsSlowSequenceIn options.unicode root) found.new.items) }
{
    if is_left_alone(node.expr()) {
        return Ok(());
    }
    look_at(node, options, surroundings, found)?;
    let depth = surroundings.around.len();
    let mut index = 0usize;
    for child in node.children() {
        surroundings.around.push(enclosing_of(node.expr(), index))?;
        look(child, options, surroundings, found)?;
        surroundings.around.truncate(depth);
        index = index.saturating_add(1);
    }
    Ok(())
}

/// The pairs of repeats of a concatenation of the pattern that can match a text in polynomially many ways, where what
/// follows can fail. For each first repeat there is at most one: the one with the nearest last repeat. `classes` has the
/// characters of classes of the run's patterns.
pub fn slow_sequences(
    alloc: Global,
    parsed: &SpannedTree,
    classes: &mut ClassSets,
) -> Result<SlowSequences, AllocError>
    ensures witnessed { IfOk result (λ r.
        AllByRecursion (IsSlowSequenceIn classes.old.unicode (spanned_of_tree parsed.now)) r.slow.items) }
{
    let unicode = classes.unicode;
    let mut surroundings = Surroundings::new(alloc, parsed, classes);
    let mut found = Vec::new(alloc);
    look(
        parsed.root(),
        SearchOptions { alloc, unicode },
        &mut surroundings,
        &mut found,
    )?;
    Ok(SlowSequences {
        slow: found,
        not_searched: surroundings.not_searched,
    })
}
