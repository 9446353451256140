//! The search for two routes through an automaton that match the same text.
use crate::automaton::Automaton;
use crate::common::some_common;
use crate::decision::Decision;
use crate::routes::Route;
use crate::witness::Witness;
use std::alloc::{AllocError, Global};

/// The most pairs that are looked at.
const MOST_PAIRS: usize = 20_000;

/// The most pairs of routes that are tried.
const MOST_TRIES: usize = 250_000;

/// Two positions that are reached over the same text.
#[derive(Clone, Copy)]
struct Pair {
    first: usize,
    second: usize,
    /// Whether the decisions on the two ways differ.
    differ: bool,
    /// The index of the pair before it, and those of the routes from there.
    before: usize,
    first_route: usize,
    second_route: usize,
}

/// What a search has come to.
#[derive(Drop)]
pub(crate) enum Searched {
    Found(Witness),
    Nothing,
    Irregular,
    TooLarge,
}

/// A search among pairs of positions.
#[derive(Drop)]
pub(crate) struct Pairs<'a> {
    alloc: Global,
    automaton: &'a Automaton,
    /// The routes from each position.
    routes: &'a [Vec<Route>],
    pairs: Vec<Pair>,
    /// Whether a pair was seen, with and without a difference.
    seen: Vec<bool>,
    /// Of each two sets a character that both have, once it was looked for.
    common: Vec<Option<Option<char>>>,
    tries: usize,
    /// How many texts are still to be passed over.
    others: usize,
}

impl<'a> Pairs<'a> {
    /// The search that begins before a turn.
    pub(crate) fn new(
        alloc: Global,
        automaton: &'a Automaton,
        routes: &'a [Vec<Route>],
    ) -> Result<Pairs<'a>, AllocError> {
        let positions = routes.len();
        let sets = automaton.sets.len();
        let mut pairs = Vec::new(alloc);
        pairs.push(Pair {
            first: 0,
            second: 0,
            differ: false,
            before: 0,
            first_route: 0,
            second_route: 0,
        })?;
        Ok(Pairs {
            alloc,
            automaton,
            routes,
            pairs,
            seen: vec![in alloc; false; positions.saturating_mul(positions.saturating_add(1))]?,
            common: vec![in alloc; None; sets.saturating_mul(sets)]?,
            tries: 0,
            others: 0,
        })
    }

    /// Searches for a shortest text that two ways match, after so many others.
    pub(crate) fn search(mut self, others: usize) -> Result<Searched, AllocError> {
        self.others = others;
        for at in 0..MOST_PAIRS {
            let Some(pair) = self.pairs.get(at) else {
                return Ok(Searched::Nothing);
            };
            let pair = *pair;
            if self.look(at, pair)? {
                return Ok(Searched::Found(self.witness()?));
            }
            if self.tries > MOST_TRIES {
                return Ok(Searched::TooLarge);
            }
        }
        Ok(Searched::TooLarge)
    }

    /// Tries each two routes from the pair. Says whether two ways have come back to the start of a turn.
    fn look(&mut self, at: usize, pair: Pair) -> Result<bool, AllocError> {
        let routes = self.routes;
        let Some(firsts) = routes.get(pair.first) else {
            return Ok(false);
        };
        for (i, route) in firsts.iter().enumerate() {
            let next = Pair {
                first: route.to,
                before: at,
                first_route: i,
                ..pair
            };
            if self.look_along(pair, next)? {
                return Ok(true);
            }
        }
        Ok(false)
    }

    /// Tries each second route beside a first one.
    fn look_along(&mut self, pair: Pair, along: Pair) -> Result<bool, AllocError> {
        let routes = self.routes;
        let Some(seconds) = routes.get(pair.second) else {
            return Ok(false);
        };
        for (j, route) in seconds.iter().enumerate() {
            self.tries = self.tries.saturating_add(1);
            let next = Pair {
                second: route.to,
                second_route: j,
                differ: pair.differ || along.first_route != j,
                ..along
            };
            if self.arrive(next)? {
                return Ok(true);
            }
        }
        Ok(false)
    }

    /// Adds the pair, if some character leads there. Says whether two ways have come back to the start of a turn.
    fn arrive(&mut self, next: Pair) -> Result<bool, AllocError> {
        if next.first == 0 || next.second == 0 {
            if !next.differ || next.first != next.second {
                return Ok(false);
            }
            if self.others > 0 {
                self.others = self.others.saturating_sub(1);
                return Ok(false);
            }
            self.pairs.push(next)?;
            return Ok(true);
        }
        let at = self.index(next);
        let Some(false) = self.seen.get(at).copied() else {
            return Ok(false);
        };
        if self.common_character(next).is_none() {
            return Ok(false);
        }
        if let Some(is_seen) = self.seen.get_mut(at) {
            *is_seen = true;
        }
        self.pairs.push(next)?;
        Ok(false)
    }

    /// The index of what is recorded of the pair.
    fn index(&self, pair: Pair) -> usize {
        if !pair.differ {
            return pair.first;
        }
        let count = self.routes.len();
        pair.first
            .saturating_add(1)
            .saturating_mul(count)
            .saturating_add(pair.second)
    }

    /// A character that both positions match.
    fn common_character(&mut self, pair: Pair) -> Option<char> {
        let positions = &self.automaton.positions;
        let (Some(first), Some(second)) = (positions.get(pair.first), positions.get(pair.second))
        else {
            return None;
        };
        let sets = &self.automaton.sets;
        let at = first
            .set
            .saturating_mul(sets.len())
            .saturating_add(second.set);
        if let Some(Some(found)) = self.common.get(at) {
            return *found;
        }
        let (Some(one), Some(other)) = (sets.get(first.set), sets.get(second.set)) else {
            return None;
        };
        let found = some_common(&[one, other]);
        if let Some(entry) = self.common.get_mut(at) {
            *entry = Some(found);
        }
        found
    }

    /// The pairs from the first one to the last one, by their indices.
    fn chain(&self) -> Result<Vec<usize>, AllocError> {
        let mut chain = Vec::new(self.alloc);
        let mut at = self.pairs.len().saturating_sub(1);
        for _ in 0..self.pairs.len() {
            let Some(pair) = self.pairs.get(at) else {
                break;
            };
            if at == 0 {
                break;
            }
            chain.push(at)?;
            at = pair.before;
        }
        chain.reverse();
        Ok(chain)
    }

    /// The decisions of a route.
    fn decisions(&self, from: usize, route: usize) -> &'a [Decision] {
        match self.routes.get(from).and_then(|all| all.get(route)) {
            Some(route) => &route.decisions,
            None => &[],
        }
    }

    /// The text up to the last pair, and the two ways.
    fn witness(&mut self) -> Result<Witness, AllocError> {
        let mut witness = Witness {
            word: Vec::new(self.alloc),
            first: Vec::new(self.alloc),
            second: Vec::new(self.alloc),
        };
        let chain = self.chain()?;
        for at in &chain {
            let Some(pair) = self.pairs.get(*at).copied() else {
                break;
            };
            let Some(from) = self.pairs.get(pair.before).copied() else {
                break;
            };
            let first = self.decisions(from.first, pair.first_route);
            witness.first.extend_from_slice(first)?;
            let second = self.decisions(from.second, pair.second_route);
            witness.second.extend_from_slice(second)?;
            if let Some(c) = self.common_character(pair)
                && pair.first != 0
            {
                witness.word.push(c)?;
            }
        }
        Ok(witness)
    }
}
