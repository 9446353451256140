//! Whether decisions lead from one repeat of a concatenation to another over a text.
ghost use Rattle.std.specs.Prelude.{IfOk, IsTrue};
ghost use Rattle.fancy_syntax.specs.View.{view, views};
ghost use Rattle.backtracking.specs.ThreeWays.{IsWayAcross, AreThreeWays};

use crate::checker::{Remaining, do_part, go_over_all, is_way, take_turns};
use crate::cut::{Cut, SequenceWitness};
use crate::decision::Decision;
use std::alloc::{AllocError, Global};

/// Whether the decisions are a way of matching all of the text across the cut.
fn is_way_across(
    alloc: Global,
    cut: Cut<'_>,
    unicode: bool,
    text: &[char],
    decisions: &[Decision],
) -> Result<bool, AllocError>
    ensures { IfOk result (λ b. IsTrue b → IsWayAcross unicode (view cut.entry.first.now) (views cut.entry.between.now)
        (view cut.entry.last.now) text.now decisions.now) }
{
    let from = Remaining { decisions, text };
    let Some(turned) = take_turns(alloc, cut.first, unicode, usize::MAX, from)? else {
        return Ok(false);
    };
    let Some((Decision::Done, decisions)) = turned.rest.decisions.split_first() else {
        return Ok(false);
    };
    let left = Remaining {
        decisions,
        text: turned.rest.text,
    };
    let Some(crossed) = go_over_all(alloc, cut.between, unicode, left)? else {
        return Ok(false);
    };
    is_way(alloc, cut.last, unicode, crossed.text, crossed.decisions)
}

/// Whether the witness has three ways of matching its word, by turns of the first repeat, across, and by turns of the
/// last one, of which the first two are different.
pub(crate) fn are_three_ways(
    alloc: Global,
    cut: Cut<'_>,
    unicode: bool,
    witness: &SequenceWitness,
) -> Result<bool, AllocError>
    ensures { IfOk result (λ b. IsTrue b → AreThreeWays unicode (view cut.entry.first.now) (views cut.entry.between.now)
        (view cut.entry.last.now) witness.now.word.items witness.now.first.items witness.now.across.items
        witness.now.last.items) }
{
    let word = witness.word.as_slice();
    Ok(
        do_part(&witness.first, &witness.across)
            && is_way(alloc, cut.first, unicode, word, &witness.first)?
            && is_way_across(alloc, cut, unicode, word, &witness.across)?
            && is_way(alloc, cut.last, unicode, word, &witness.last)?,
    )
}
