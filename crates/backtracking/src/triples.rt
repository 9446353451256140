//! The search for a text that goes from one repeat of a concatenation to another in many ways.
use crate::automaton::AcrossAutomaton;
use crate::checker::do_part;
use crate::common::some_common;
use crate::cut::SequenceWitness;
use crate::decision::Decision;
use crate::routes::Route;
use class_meaning::CharacterSet;
use std::alloc::{AllocError, Global};

/// The most triples that are looked at.
const MOST_TRIPLES: usize = 20_000;

/// The most triples of routes that are tried.
const MOST_TRIES: usize = 50_000;

/// The most triples of positions that there may be.
const MOST_COMBINATIONS: usize = 1_000_000;

/// The position before a turn of the first repeat, and the one before a turn of the last one.
const FIRST_START: usize = 0;

const LAST_START: usize = 1;

/// Three positions that are reached over the same text: by turns of the first repeat, across, and by turns of the last
/// one.
#[derive(Clone, Copy)]
struct Triple {
    by_first: usize,
    across: usize,
    by_last: usize,
    /// Whether the decisions of the first two differ.
    differ: bool,
    /// A character that all three positions match.
    character: Option<char>,
    /// The index of the triple before it, and those of the routes from there.
    before: usize,
    first_route: usize,
    across_route: usize,
    last_route: usize,
}

/// What a search has come to.
#[derive(Drop)]
pub(crate) enum Crossed {
    Found(SequenceWitness),
    Nothing,
    Irregular,
    TooLarge,
}

/// A search among triples of positions.
#[derive(Drop)]
pub(crate) struct Triples<'a> {
    alloc: Global,
    across: &'a AcrossAutomaton,
    /// The routes from each position.
    routes: &'a [Vec<Route>],
    triples: Vec<Triple>,
    /// Whether a triple was seen.
    seen: Vec<bool>,
    tries: usize,
}

impl Triple {
    /// Whether one of the positions is before a turn.
    fn is_at_start(self) -> bool {
        self.by_first == FIRST_START || self.across <= LAST_START || self.by_last == LAST_START
    }

    /// Whether the three ways end here.
    fn is_end(self) -> bool {
        self.differ
            && self.by_first == FIRST_START
            && self.across == LAST_START
            && self.by_last == LAST_START
    }
}

impl<'a> Triples<'a> {
    /// The search that begins before turns. Returns `None` if it would be too large.
    pub(crate) fn new(
        alloc: Global,
        across: &'a AcrossAutomaton,
        routes: &'a [Vec<Route>],
    ) -> Result<Option<Triples<'a>>, AllocError> {
        let of_repeat = across.last_end;
        let count = of_repeat
            .saturating_mul(of_repeat)
            .saturating_mul(routes.len().saturating_add(1));
        if count > MOST_COMBINATIONS {
            return Ok(None);
        }
        let mut triples = Vec::new(alloc);
        triples.push(Triple {
            by_first: FIRST_START,
            across: FIRST_START,
            by_last: LAST_START,
            differ: false,
            character: None,
            before: 0,
            first_route: 0,
            across_route: 0,
            last_route: 0,
        })?;
        Ok(Some(Triples {
            alloc,
            across,
            routes,
            triples,
            seen: vec![in alloc; false; count]?,
            tries: 0,
        }))
    }

    /// Searches for a shortest text with three ways.
    pub(crate) fn search(mut self) -> Result<Crossed, AllocError> {
        for at in 0..MOST_TRIPLES {
            let Some(triple) = self.triples.get(at) else {
                return Ok(Crossed::Nothing);
            };
            let from = Triple {
                before: at,
                ..*triple
            };
            if self.look(from)? {
                return Ok(Crossed::Found(self.witness()?));
            }
            if self.tries > MOST_TRIES {
                return Ok(Crossed::TooLarge);
            }
        }
        Ok(Crossed::TooLarge)
    }

    /// The routes from a position.
    fn routes_from(&self, position: usize) -> &'a [Route] {
        match self.routes.get(position) {
            Some(routes) => routes,
            None => &[],
        }
    }

    /// Tries each route by turns of the first repeat. Says whether the three ways have come to their ends.
    fn look(&mut self, from: Triple) -> Result<bool, AllocError> {
        for (i, route) in self.routes_from(from.by_first).iter().enumerate() {
            let next = Triple {
                by_first: route.to,
                first_route: i,
                character: None,
                ..from
            };
            if self.look_across(from, next, route)? {
                return Ok(true);
            }
        }
        Ok(false)
    }

    /// Tries each route across beside it.
    fn look_across(
        &mut self,
        from: Triple,
        along: Triple,
        first: &Route,
    ) -> Result<bool, AllocError> {
        for (i, route) in self.routes_from(from.across).iter().enumerate() {
            let next = Triple {
                across: route.to,
                across_route: i,
                differ: from.differ || do_part(&first.decisions, &route.decisions),
                ..along
            };
            if self.look_last(from, next)? {
                return Ok(true);
            }
        }
        Ok(false)
    }

    /// Tries each route by turns of the last repeat beside these.
    fn look_last(&mut self, from: Triple, along: Triple) -> Result<bool, AllocError> {
        for (i, route) in self.routes_from(from.by_last).iter().enumerate() {
            self.tries = self.tries.saturating_add(1);
            let next = Triple {
                by_last: route.to,
                last_route: i,
                ..along
            };
            if self.arrive(next)? {
                return Ok(true);
            }
        }
        Ok(false)
    }

    /// Adds the triple, if some character leads there. Says whether the three ways have come to their ends.
    fn arrive(&mut self, next: Triple) -> Result<bool, AllocError> {
        if next.is_at_start() {
            if next.is_end() {
                self.triples.push(next)?;
            }
            return Ok(next.is_end());
        }
        let at = self.index(next);
        let Some(is_seen) = self.seen.get_mut(at) else {
            return Ok(false);
        };
        if *is_seen {
            return Ok(false);
        }
        *is_seen = true;
        let character = self.common_character(next);
        if character.is_some() {
            self.triples.push(Triple { character, ..next })?;
        }
        Ok(false)
    }

    /// The index of what is recorded of the triple.
    fn index(&self, triple: Triple) -> usize {
        let across = if triple.differ {
            triple.across.saturating_add(1)
        } else {
            0
        };
        let of_repeat = self.across.last_end;
        across
            .saturating_mul(of_repeat)
            .saturating_add(triple.by_first)
            .saturating_mul(of_repeat)
            .saturating_add(triple.by_last)
    }

    /// The characters of a position.
    fn characters(&self, position: usize) -> Option<&'a CharacterSet> {
        let automaton = &self.across.automaton;
        let set = automaton.positions.get(position)?.set;
        automaton.sets.get(set)
    }

    /// A character that all three positions match.
    fn common_character(&self, triple: Triple) -> Option<char> {
        let first = self.characters(triple.by_first)?;
        let across = self.characters(triple.across)?;
        let last = self.characters(triple.by_last)?;
        some_common(&[first, across, last])
    }

    /// The triples from the first one to the last one, by their indices.
    fn chain(&self) -> Result<Vec<usize>, AllocError> {
        let mut chain = Vec::new(self.alloc);
        let mut at = self.triples.len().saturating_sub(1);
        for _ in 0..self.triples.len() {
            if at == 0 {
                break;
            }
            let Some(triple) = self.triples.get(at) else {
                break;
            };
            chain.push(at)?;
            at = triple.before;
        }
        chain.reverse();
        Ok(chain)
    }

    /// The decisions of a route.
    fn decisions(&self, from: usize, route: usize) -> &'a [Decision] {
        match self.routes_from(from).get(route) {
            Some(route) => &route.decisions,
            None => &[],
        }
    }

    /// The text up to the last triple, and the three ways.
    fn witness(&self) -> Result<SequenceWitness, AllocError> {
        let mut witness = SequenceWitness {
            word: Vec::new(self.alloc),
            first: Vec::new(self.alloc),
            across: Vec::new(self.alloc),
            last: Vec::new(self.alloc),
        };
        for at in &self.chain()? {
            let Some(triple) = self.triples.get(*at) else {
                break;
            };
            let Some(from) = self.triples.get(triple.before) else {
                break;
            };
            let first = self.decisions(from.by_first, triple.first_route);
            witness.first.extend_from_slice(first)?;
            let across = self.decisions(from.across, triple.across_route);
            witness.across.extend_from_slice(across)?;
            let last = self.decisions(from.by_last, triple.last_route);
            witness.last.extend_from_slice(last)?;
            if let Some(c) = triple.character {
                witness.word.push(c)?;
            }
        }
        Ok(witness)
    }
}
