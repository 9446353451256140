//! How an automaton gets from one position to the next.
use crate::automaton::{Action, Automaton, Exit};
use crate::common::have_common;
use crate::decision::Decision;
use std::alloc::{AllocError, Global};

/// The most steps that are looked at from one position.
const MOST_LOOKS: usize = 5000;

/// The decisions from a position to the next one.
#[derive(Drop)]
pub(crate) struct Route {
    pub(crate) to: usize,
    pub(crate) decisions: Vec<Decision>,
}

/// A decision at a step, and the one before it.
#[derive(Clone, Copy)]
struct Link {
    step: usize,
    decision: Decision,
    before: Option<usize>,
}

/// The end of a possessive repeat: no character of the set at the index follows. And the one before it.
#[derive(Clone, Copy)]
struct Ended {
    set: usize,
    before: Option<usize>,
}

/// A step that is still to be looked at.
#[derive(Clone, Copy)]
struct Next {
    step: usize,
    /// The last decision before it.
    last: Option<usize>,
    /// The last end of a possessive repeat before it.
    ended: Option<usize>,
}

/// A walk from a position along the steps that match no character.
#[derive(Drop)]
struct RouteWalk<'a> {
    alloc: Global,
    automaton: &'a Automaton,
    links: Vec<Link>,
    ends: Vec<Ended>,
    todo: Vec<Next>,
    routes: Vec<Route>,
    /// Of each position how many routes lead to it. More than two are not needed.
    counts: Vec<u8>,
}

impl RouteWalk<'_> {
    /// Whether a turn that began at the step is open since the walk began, so that it has matched no character.
    fn is_open(&self, last: Option<usize>, start: usize) -> bool {
        let mut at = last;
        for _ in 0..self.links.len() {
            let Some(link) = at.and_then(|i| self.links.get(i)) else {
                return false;
            };
            if link.step == start && link.decision == Decision::Again {
                return true;
            }
            at = link.before;
        }
        false
    }

    /// The decisions up to this one.
    fn decisions(&self, last: Option<usize>) -> Result<Vec<Decision>, AllocError> {
        let mut decisions = Vec::new(self.alloc);
        let mut at = last;
        for _ in 0..self.links.len() {
            let Some(link) = at.and_then(|i| self.links.get(i)) else {
                break;
            };
            decisions.push(link.decision)?;
            at = link.before;
        }
        decisions.reverse();
        Ok(decisions)
    }

    /// Whether a character of the position may follow the possessive repeats that have ended.
    fn may_follow(&self, to: usize, ended: Option<usize>) -> bool {
        let sets = &self.automaton.sets;
        let Some(next) = self
            .automaton
            .positions
            .get(to)
            .and_then(|it| sets.get(it.set))
        else {
            return false;
        };
        let mut at = ended;
        for _ in 0..self.ends.len() {
            let Some(end) = at.and_then(|i| self.ends.get(i)) else {
                return true;
            };
            let Some(set) = sets.get(end.set) else {
                return false;
            };
            if have_common(&[set, next]) {
                return false;
            }
            at = end.before;
        }
        true
    }

    /// Adds a route to a position where a character is matched.
    fn arrive_at_match(&mut self, to: usize, next: Next) -> Result<(), AllocError> {
        if self.may_follow(to, next.ended) {
            self.arrive(to, next.last)?;
        }
        Ok(())
    }

    /// Adds a route to the start of a turn, unless it is not known which character follows there.
    fn arrive_at_start(&mut self, to: usize, next: Next) -> Result<(), AllocError> {
        if next.ended.is_none() {
            self.arrive(to, next.last)?;
        }
        Ok(())
    }

    /// Adds a route to the position, unless two lead there already.
    fn arrive(&mut self, to: usize, last: Option<usize>) -> Result<(), AllocError> {
        let Some(count) = self.counts.get_mut(to) else {
            return Ok(());
        };
        if *count >= 2 {
            return Ok(());
        }
        *count = count.saturating_add(1);
        let decisions = self.decisions(last)?;
        self.routes.push(Route { to, decisions })?;
        Ok(())
    }

    /// Takes each of the decisions at a step.
    fn decide(&mut self, exits: &[Exit], at: Next) -> Result<(), AllocError> {
        for exit in exits {
            let link = self.links.len();
            self.links.push(Link {
                step: at.step,
                decision: exit.decision,
                before: at.last,
            })?;
            self.todo.push(Next {
                step: exit.next,
                last: Some(link),
                ..at
            })?;
        }
        Ok(())
    }

    /// Goes on at each of the steps.
    fn fork(&mut self, steps: &[usize], at: Next) -> Result<(), AllocError> {
        for step in steps {
            self.todo.push(Next { step: *step, ..at })?;
        }
        Ok(())
    }

    /// Ends a possessive repeat of a character of the set.
    fn end_possessive(&mut self, set: usize, step: usize, at: Next) -> Result<(), AllocError> {
        let end = self.ends.len();
        self.ends.push(Ended {
            set,
            before: at.ended,
        })?;
        self.todo.push(Next {
            step,
            ended: Some(end),
            ..at
        })?;
        Ok(())
    }

    /// Looks at a step on the way from the position.
    fn look(&mut self, position: usize, at: Next) -> Result<(), AllocError> {
        let automaton = self.automaton;
        match automaton.steps.get(at.step) {
            Some(Action::Match { position }) => self.arrive_at_match(*position, at),
            Some(Action::EndTurn { start, next }) => {
                if self.is_open(at.last, *start) {
                    Ok(())
                } else {
                    self.fork(&[*next], at)
                }
            }
            Some(Action::Fork(steps)) => self.fork(steps, at),
            Some(Action::EndPossessive { set, next }) => self.end_possessive(*set, *next, at),
            Some(Action::Decide(exits)) => {
                if position >= automaton.starts
                    && let Some(start) = automaton.start_at(at.step)
                {
                    self.arrive_at_start(start, at)?;
                }
                self.decide(exits, at)
            }
            None => Ok(()),
        }
    }
}

/// The routes from the position, at most two to each position. Returns `None` if there is too much to look at.
pub(crate) fn routes_from(
    alloc: Global,
    automaton: &Automaton,
    position: usize,
) -> Result<Option<Vec<Route>>, AllocError> {
    let mut walk = RouteWalk {
        alloc,
        automaton,
        links: Vec::new(alloc),
        ends: Vec::new(alloc),
        todo: Vec::new(alloc),
        routes: Vec::new(alloc),
        counts: vec![in alloc; 0u8; automaton.positions.len()]?,
    };
    if let Some(start) = automaton.positions.get(position) {
        walk.todo.push(Next {
            step: start.next,
            last: None,
            ended: None,
        })?;
    }
    for _ in 0..MOST_LOOKS {
        let Some(at) = walk.todo.pop() else {
            return Ok(Some(walk.routes));
        };
        walk.look(position, at)?;
    }
    Ok(None)
}

/// The routes from each position. Returns `None` if there is too much to look at.
pub(crate) fn all_routes(
    alloc: Global,
    automaton: &Automaton,
) -> Result<Option<Vec<Vec<Route>>>, AllocError> {
    let mut all = Vec::new(alloc);
    for position in 0..automaton.positions.len() {
        let Some(routes) = routes_from(alloc, automaton, position)? else {
            return Ok(None);
        };
        all.push(routes)?;
    }
    Ok(Some(all))
}
