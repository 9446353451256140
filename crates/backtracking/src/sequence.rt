//! A word that shows that two repeats of a concatenation can match a text in polynomially many ways.
ghost use Rattle.std.specs.Prelude.{IfOk};
ghost use Rattle.fancy_syntax.specs.View.{view, views};
ghost use Rattle.backtracking.specs.Across.{IsAcross, IsPolynomial};

use crate::automaton::{Automaton, NotBuilt};
use crate::crossing::are_three_ways;
use crate::cut::{Cut, SequenceWays};
use crate::known_sets::{ClassSets, KnownSets};
use crate::routes::all_routes;
use crate::triples::{Crossed, Triples};
use std::alloc::{AllocError, Global};

/// Searches for a word with three ways. What it finds is still to be checked.
fn search<'a>(
    alloc: Global,
    cut: Cut<'a>,
    sets: &mut KnownSets<'a, '_>,
) -> Result<Crossed, AllocError> {
    let across = match Automaton::across(alloc, cut, sets) {
        Ok(across) => across,
        Err(NotBuilt::Memory(error)) => return Err(error),
        Err(NotBuilt::Irregular) => return Ok(Crossed::Irregular),
        Err(NotBuilt::TooLarge) => return Ok(Crossed::TooLarge),
    };
    let Some(routes) = all_routes(alloc, &across.automaton)? else {
        return Ok(Crossed::TooLarge);
    };
    match Triples::new(alloc, &across, &routes)? {
        Some(triples) => triples.search(),
        None => Ok(Crossed::TooLarge),
    }
}

/// Searches for a word with three ways, as `ways_of_sequence` does, with what is known of the nodes of the pattern.
pub(crate) fn ways_of_cut<'a>(
    alloc: Global,
    cut: Cut<'a>,
    unicode: bool,
    sets: &mut KnownSets<'a, '_>,
) -> Result<SequenceWays, AllocError>
    ensures witnessed { IfOk result (IsAcross unicode (view cut.entry.first.now) (views cut.entry.between.now)
        (view cut.entry.last.now)) }
    ensures polynomial { IfOk result (IsPolynomial unicode (view cut.entry.first.now) (views cut.entry.between.now)
        (view cut.entry.last.now)) }
{
    let witness = match search(alloc, cut, sets)? {
        Crossed::Found(witness) => witness,
        Crossed::Nothing => return Ok(SequenceWays::NoneFound),
        Crossed::Irregular => return Ok(SequenceWays::Irregular),
        Crossed::TooLarge => return Ok(SequenceWays::TooLarge),
    };
    if are_three_ways(alloc, cut, unicode, &witness)? {
        Ok(SequenceWays::Polynomial(witness))
    } else {
        Ok(SequenceWays::NoneFound)
    }
}

/// Searches for a word that is matched by turns of the first repeat, by turns of the last one, and across: by turns of
/// the first, the trees between, and turns of the last. `unicode` says whether the pattern is one for text with
/// Unicode, as under `FLAG_UNICODE`.
///
/// A witness is returned only if the three ways were checked.
pub fn ways_of_sequence(
    alloc: Global,
    cut: Cut<'_>,
    unicode: bool,
) -> Result<SequenceWays, AllocError>
    ensures witnessed { IfOk result (IsAcross unicode (view cut.entry.first.now) (views cut.entry.between.now)
        (view cut.entry.last.now)) }
    ensures polynomial { IfOk result (IsPolynomial unicode (view cut.entry.first.now) (views cut.entry.between.now)
        (view cut.entry.last.now)) }
{
    let mut classes = ClassSets::new(alloc, unicode);
    let mut sets = KnownSets::new(alloc, &mut classes);
    ways_of_cut(alloc, cut, unicode, &mut sets)
}
