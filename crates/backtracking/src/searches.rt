//! The repeats that a search for a pattern goes through again from each start.
ghost use Rattle.std.specs.Prelude.{◌≡◌, true, take, slice_get, IfOk, IfSome, IsSomeAnd, IsTrue, OnOk};
ghost use Rattle.std.specs.List.{AllByRecursion};
ghost use Rattle.fancy_grammar.specs.Tree.{concat, trees_of};
ghost use Rattle.fancy_syntax.specs.Spanned.{Spanned, spanned_of, spanned_of_tree};
ghost use Rattle.fancy_syntax.specs.View.{view, views};
ghost use Rattle.backtracking.specs.SlowSearches.{any_character, has_branches, IsBranchOf, IsSlowFrom, IsSlowSearchIn};
ghost use Rattle.backtracking.specs.SlowSequences.{IsRepeatOf};

use crate::attack::{Attack, Surroundings, Target, find_attack_from_each_start};
use crate::cut::{Cut, SequenceWitness};
use crate::known_sets::ClassSets;
use crate::pieces::{Piece, Reach, pieces_of};
use crate::repeats::SearchOptions;
use crate::sequences::{
    Row, add_too_large, child_spans, repeated_part, span_across, witness_across,
};
use fancy_syntax::expr::Expr;
use fancy_syntax::span::Span;
use fancy_syntax::spanned::{SpannedNode, SpannedTree};
use std::alloc::{AllocError, Global};

/// A repeat that a search goes through again from each start.
#[derive(Drop)]
pub struct SlowSearch {
    /// The part of the pattern from the start of the branch through the repeat, in byte offsets.
    pub span: Span,
    /// The word, of which n repetitions have n starts, and what shows that the repeat goes through the rest from each.
    pub witness: SequenceWitness,
    /// What to put around the repeated word.
    pub attack: Attack,
}

/// The repeats of a pattern that a search goes through again from each start.
#[derive(Drop)]
pub struct SlowSearches {
    /// At most one for each branch of the pattern.
    pub slow: Vec<SlowSearch>,
    /// Branches that have too much to look at, through the repeat, in byte offsets.
    pub not_searched: Vec<Span>,
}

/// What is known of the pattern, and a dot that matches each character.
#[derive(Clone, Copy)]
struct Searching<'a> {
    options: SearchOptions,
    any: &'a Expr,
}

/// The cut at the repeat at the index of a branch, before which a search passes over any characters.
fn cut_at<'a>(any: &'a Expr, trees: &'a [Expr], index: usize) -> Option<Cut<'a>>
    ensures any { IfSome result (λ cut. view cut.first.now ≡ view any.now) }
    ensures between { IfSome result (λ cut. views cut.between.now ≡ take index (views trees.now)) }
    ensures last { IfSome result (λ cut. IsSomeAnd (slice_get (views trees.now) index) (IsRepeatOf (view cut.last.now))) }
{
    Some(Cut {
        first: any,
        between: trees.get(..index)?,
        last: repeated_part(trees.get(index)?)?,
    })
}

/// Searches for a word over which a search goes through the repeat at the index of the branch again from each start, and for
/// what to put around it.
fn look_at_repeat<'a>(
    row: Row<'a, '_>,
    index: usize,
    searching: Searching<'a>,
    surroundings: &mut Surroundings<'a, '_>,
) -> Result<Option<SlowSearch>, AllocError>
    ensures { view searching.entry.any.now ≡ any_character →
        IfOk result (λ o. IfSome o (IsSlowFrom searching.entry.options.unicode (views row.entry.trees.now) row.entry.spans.now)) }
{
    let Some(cut) = cut_at(searching.any, row.trees, index) else {
        return Ok(None);
    };
    let Some(span) = span_across(row.spans, 0, index) else {
        return Ok(None);
    };
    let options = searching.options;
    let Some(witness) = witness_across(cut, span, options, surroundings)? else {
        return Ok(None);
    };
    let target = Target::Sequence {
        trees: row.trees,
        first: 0,
        last: index,
    };
    let Some(attack) = find_attack_from_each_start(
        options.alloc,
        target,
        &witness.word,
        surroundings,
    )?
    else {
        return Ok(None);
    };
    Ok(Some(SlowSearch {
        span,
        witness,
        attack,
    }))
}

/// Whether a text of the repeat at the index may go across each tree before it: then the repeat is reached.
fn reach_before(pieces: &[Piece], index: usize) -> Reach {
    let Some(repeat) = pieces.get(index).and_then(|piece| piece.as_repeat()) else {
        return Reach::Blocked;
    };
    for piece in pieces.iter().take(index) {
        match piece.reach(repeat) {
            Reach::Repeat | Reach::Across => {}
            Reach::Blocked => return Reach::Blocked,
            Reach::TooLarge => return Reach::TooLarge,
        }
    }
    Reach::Repeat
}

/// Searches for the first repeat of the branch that a search goes through again from each start.
fn look_at_branch<'a>(
    row: Row<'a, '_>,
    searching: Searching<'a>,
    surroundings: &mut Surroundings<'a, '_>,
) -> Result<Option<SlowSearch>, AllocError>
    ensures { view searching.entry.any.now ≡ any_character →
        IfOk result (λ o. IfSome o (IsSlowFrom searching.entry.options.unicode (views row.entry.trees.now) row.entry.spans.now)) }
{
    let pieces = pieces_of(searching.options.alloc, row.trees, &mut surroundings.sets)?;
    for index in 0..row.trees.len() {
        match reach_before(&pieces, index) {
            Reach::Across | Reach::Blocked => {}
            Reach::TooLarge => {
                add_too_large(row, 0, index, surroundings)?;
                break;
            }
            Reach::Repeat => {
                if let Some(slow) = look_at_repeat(row, index, searching, surroundings)? {
                    return Ok(Some(slow));
                }
            }
        }
    }
    Ok(None)
}

/// Adds the slow repeat of the branch that the node is, if it has one.
fn add_slow<'a>(
    node: SpannedNode<'a>,
    trees: &'a [Expr],
    searching: Searching<'a>,
    surroundings: &mut Surroundings<'a, '_>,
    found: &mut Vec<SlowSearch>,
) -> Result<(), AllocError>
    ensures { OnOk result ((pattern : Spanned) → IsBranchOf pattern (spanned_of node.entry) →
        view (spanned_of node.entry).expr ≡ concat (trees_of (views trees.now)) →
        view searching.entry.any.now ≡ any_character →
        AllByRecursion (IsSlowSearchIn searching.entry.options.unicode pattern) found.old.items →
        AllByRecursion (IsSlowSearchIn searching.entry.options.unicode pattern) found.new.items) }
{
    let spans = child_spans(searching.options.alloc, node)?;
    let row = Row {
        trees,
        spans: &spans,
    };
    let Some(slow) = look_at_branch(row, searching, surroundings)? else {
        return Ok(());
    };
    found.push(slow)?;
    Ok(())
}

/// Whether what is below the node are branches of the pattern if it is one.
fn is_around_branches(tree: &Expr) -> bool
    ensures { IsTrue result → has_branches (view tree.now) ≡ true }
{
    matches!(tree, Expr::Group(_) | Expr::Alt(_))
}

/// Adds the slow repeats of the branches that the node is or has.
fn look<'a>(
    node: SpannedNode<'a>,
    searching: Searching<'a>,
    surroundings: &mut Surroundings<'a, '_>,
    found: &mut Vec<SlowSearch>,
) -> Result<(), AllocError>
    ensures { OnOk result ((pattern : Spanned) → IsBranchOf pattern (spanned_of node.entry) →
        view searching.entry.any.now ≡ any_character →
        AllByRecursion (IsSlowSearchIn searching.entry.options.unicode pattern) found.old.items →
        AllByRecursion (IsSlowSearchIn searching.entry.options.unicode pattern) found.new.items) }
{
    if let Expr::Concat(trees) = node.expr() {
        add_slow(node, trees, searching, surroundings, found)?;
        return Ok(());
    }
    if !is_around_branches(node.expr()) {
        return Ok(());
    }
    for child in node.children() {
        look(child, searching, surroundings, found)?;
    }
    Ok(())
}

/// The repeats that a search for the pattern goes through again from each start, where what follows can fail. `classes` has the
/// characters of classes of the run's patterns.
pub fn slow_searches(
    alloc: Global,
    parsed: &SpannedTree,
    classes: &mut ClassSets,
) -> Result<SlowSearches, AllocError>
    ensures witnessed { IfOk result (λ r.
        AllByRecursion (IsSlowSearchIn classes.old.unicode (spanned_of_tree parsed.now)) r.slow.items) }
{
    let unicode = classes.unicode;
    let any = Expr::Any {
        newline: true,
        crlf: false,
    };
    let searching = Searching {
        options: SearchOptions { alloc, unicode },
        any: &any,
    };
    let mut surroundings = Surroundings::new(alloc, parsed, classes);
    let mut found = Vec::new(alloc);
    look(parsed.root(), searching, &mut surroundings, &mut found)?;
    Ok(SlowSearches {
        slow: found,
        not_searched: surroundings.not_searched,
    })
}
