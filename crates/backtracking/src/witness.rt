//! A word that shows that a repeat can match a text in exponentially many ways.
ghost use Rattle.std.specs.Prelude.{IfOk};
ghost use Rattle.fancy_syntax.specs.View.{view};
ghost use Rattle.backtracking.specs.Witnessed.{IsWitnessed, IsExponential};

use crate::automaton::{Automaton, NotBuilt};
use crate::checker::are_two_ways;
use crate::decision::Decision;
use crate::known_sets::{ClassSets, KnownSets};
use crate::pairs::{Pairs, Searched};
use crate::routes::all_routes;
use fancy_syntax::expr::Expr;
use std::alloc::{AllocError, Global};

/// A word, and two different ways of matching it by turns of a repeat. Each repetition of the word doubles the ways.
#[derive(Drop)]
pub struct Witness {
    /// The word, which may be repeated.
    pub word: Vec<char>,
    /// The decisions on one way.
    pub first: Vec<Decision>,
    /// Those on another way.
    pub second: Vec<Decision>,
}

/// What is known about the ways of a repeat.
#[derive(Drop)]
pub enum RepeatWays {
    /// There is a word that its turns can match in two ways.
    Exponential(Witness),
    /// No such word was found.
    NoneFound,
    /// It holds an atomic group, a call or the like.
    Irregular,
    /// There is too much to look at.
    TooLarge,
}

/// Searches for a word that turns of the tree can match in two ways, after so many others. What it finds is still to be
/// checked.
fn search<'a>(
    alloc: Global,
    tree: &'a Expr,
    others: usize,
    sets: &mut KnownSets<'a, '_>,
) -> Result<Searched, AllocError> {
    let automaton = match Automaton::of(alloc, tree, sets) {
        Ok(automaton) => automaton,
        Err(NotBuilt::Memory(error)) => return Err(error),
        Err(NotBuilt::Irregular) => return Ok(Searched::Irregular),
        Err(NotBuilt::TooLarge) => return Ok(Searched::TooLarge),
    };
    let Some(routes) = all_routes(alloc, &automaton)? else {
        return Ok(Searched::TooLarge);
    };
    Pairs::new(alloc, &automaton, &routes)?.search(others)
}

/// Searches for a word that turns of the tree can match in two ways, as `ways_of_repeat` does, after so many others, with
/// what is known of the nodes of the pattern.
pub(crate) fn ways_of_turns<'a>(
    alloc: Global,
    tree: &'a Expr,
    unicode: bool,
    others: usize,
    sets: &mut KnownSets<'a, '_>,
) -> Result<RepeatWays, AllocError>
    ensures witnessed { IfOk result (IsWitnessed unicode (view tree.entry.now)) }
    ensures exponential { IfOk result (IsExponential unicode (view tree.entry.now)) }
{
    let witness = match search(alloc, tree, others, sets)? {
        Searched::Found(witness) => witness,
        Searched::Nothing => return Ok(RepeatWays::NoneFound),
        Searched::Irregular => return Ok(RepeatWays::Irregular),
        Searched::TooLarge => return Ok(RepeatWays::TooLarge),
    };
    if are_two_ways(
        alloc,
        tree,
        unicode,
        &witness.word,
        &witness.first,
        &witness.second,
    )? {
        Ok(RepeatWays::Exponential(witness))
    } else {
        Ok(RepeatWays::NoneFound)
    }
}

/// Searches for a word that turns of the tree, the part that a quantifier repeats, can match in two ways. `unicode` says
/// whether the pattern is one for text with Unicode, as under `FLAG_UNICODE`.
///
/// A witness is returned only if the two ways were checked.
pub fn ways_of_repeat(alloc: Global, tree: &Expr, unicode: bool) -> Result<RepeatWays, AllocError>
    ensures witnessed { IfOk result (IsWitnessed unicode (view tree.now)) }
    ensures exponential { IfOk result (IsExponential unicode (view tree.now)) }
{
    let mut classes = ClassSets::new(alloc, unicode);
    let mut sets = KnownSets::new(alloc, &mut classes);
    ways_of_turns(alloc, tree, unicode, 0, &mut sets)
}
