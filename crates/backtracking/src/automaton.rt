//! The steps that an engine takes through turns of a part of a pattern.
use crate::cut::Cut;
use crate::decision::Decision;
use crate::known_sets::KnownSets;
use crate::regular_shape::{RegularShape, regular_shape};
use class_meaning::CharacterSet;
use fancy_syntax::expr::Expr;
use std::alloc::{AllocError, Global};
use thiserror::Error;

/// The most positions of an automaton.
const MOST_POSITIONS: usize = 500;

/// The most steps of an automaton.
const MOST_STEPS: usize = 4000;

/// Why there is no automaton of a part of a pattern.
#[derive(Debug, Drop, Error)]
pub(crate) enum NotBuilt {
    /// Out of memory.
    #[error("out of memory")]
    Memory(#[from(alloc)] AllocError),
    /// The part holds what has no ways of its own, as an atomic group.
    #[error("a part without ways")]
    Irregular,
    /// The automaton would be too large.
    #[error("too large")]
    TooLarge,
}

/// A decision, and the step after it.
#[derive(Clone, Copy)]
pub(crate) struct Exit {
    pub(crate) decision: Decision,
    pub(crate) next: usize,
}

/// What is done at a step. Steps and positions are given by their indices.
#[derive(Drop)]
pub(crate) enum Action {
    /// Matches a character.
    Match { position: usize },
    /// Takes one of these decisions.
    Decide(Vec<Exit>),
    /// Goes on at any of these steps.
    Fork(Vec<usize>),
    /// Ends a possessive repeat of a character: no character of the set at the index follows.
    EndPossessive { set: usize, next: usize },
    /// Ends a turn that began with a decision at `start`.
    EndTurn { start: usize, next: usize },
}

/// Where a character is matched. The first positions are those of the starts of turns, which match none.
#[derive(Clone, Copy)]
pub(crate) struct Position {
    /// The index of the set of characters.
    pub(crate) set: usize,
    /// The step after it.
    pub(crate) next: usize,
}

/// The steps of turns of a repeat, or across a concatenation from turns of one repeat to turns of another.
#[derive(Drop)]
pub(crate) struct Automaton {
    alloc: Global,
    pub(crate) steps: Vec<Action>,
    pub(crate) positions: Vec<Position>,
    /// The different sets of characters.
    pub(crate) sets: Vec<CharacterSet>,
    /// How many of the positions are starts of turns.
    pub(crate) starts: usize,
}

/// The automaton across a concatenation: first the positions of the first repeat, then those of the last one, then
/// those between.
#[derive(Drop)]
pub(crate) struct AcrossAutomaton {
    pub(crate) automaton: Automaton,
    /// The number of positions up to those of the last repeat.
    pub(crate) last_end: usize,
}

impl Automaton {
    /// An automaton without steps.
    fn new(alloc: Global) -> Automaton {
        Automaton {
            alloc,
            steps: Vec::new(alloc),
            positions: Vec::new(alloc),
            sets: Vec::new(alloc),
            starts: 0,
        }
    }

    /// The automaton of turns of the tree. It begins and ends at the first step, before a turn.
    pub(crate) fn of<'a>(
        alloc: Global,
        tree: &'a Expr,
        sets: &mut KnownSets<'a, '_>,
    ) -> Result<Automaton, NotBuilt> {
        let mut automaton = Automaton::new(alloc);
        let at = automaton.add_start()?;
        let turn = automaton.add_turn(sets, tree, at, at)?;
        automaton.set_exits(at, turn, None)?;
        Ok(automaton)
    }

    /// The automaton across the cut. It begins before a turn of the first repeat, and ends before a turn of the last
    /// one.
    pub(crate) fn across<'a>(
        alloc: Global,
        cut: Cut<'a>,
        sets: &mut KnownSets<'a, '_>,
    ) -> Result<AcrossAutomaton, NotBuilt> {
        let mut automaton = Automaton::new(alloc);
        let first = automaton.add_start()?;
        let last = automaton.add_start()?;
        let first_turn = automaton.add_turn(sets, cut.first, first, first)?;
        let last_turn = automaton.add_turn(sets, cut.last, last, last)?;
        let last_end = automaton.positions.len();
        let between = automaton.add_all(sets, cut.between, last)?;
        automaton.set_exits(first, first_turn, Some(between))?;
        automaton.set_exits(last, last_turn, None)?;
        Ok(AcrossAutomaton {
            automaton,
            last_end,
        })
    }

    /// Adds a step before turns, and its position.
    fn add_start(&mut self) -> Result<usize, AllocError> {
        let at = self.add(Action::Decide(Vec::new(self.alloc)))?;
        self.positions.push(Position { set: 0, next: at })?;
        self.starts = self.positions.len();
        Ok(at)
    }

    /// The position of the step, if turns start there.
    pub(crate) fn start_at(&self, step: usize) -> Option<usize> {
        for (i, position) in self.positions.iter().take(self.starts).enumerate() {
            if position.next == step {
                return Some(i);
            }
        }
        None
    }

    /// Adds a step.
    fn add(&mut self, action: Action) -> Result<usize, AllocError> {
        let at = self.steps.len();
        self.steps.push(action)?;
        Ok(at)
    }

    /// Sets the decisions at a step of a repeat: one more turn, and no more, if there is a step after that.
    fn set_exits(&mut self, at: usize, turn: usize, done: Option<usize>) -> Result<(), AllocError> {
        let mut exits = Vec::new(self.alloc);
        exits.push(Exit {
            decision: Decision::Again,
            next: turn,
        })?;
        if let Some(next) = done {
            exits.push(Exit {
                decision: Decision::Done,
                next,
            })?;
        }
        if let Some(step) = self.steps.get_mut(at) {
            *step = Action::Decide(exits);
        }
        Ok(())
    }

    /// Adds the steps of the tree, after which `next` follows. Returns the first of them.
    #[cycle(add_tree)]
    fn add_tree<'a>(
        &mut self,
        sets: &mut KnownSets<'a, '_>,
        tree: &'a Expr,
        next: usize,
    ) -> Result<usize, NotBuilt> {
        match regular_shape(tree) {
            RegularShape::Empty | RegularShape::Passed => Ok(next),
            RegularShape::Character => self.add_position(sets, tree, next),
            RegularShape::Group(child) => self.add_tree(sets, child, next),
            RegularShape::Repeat { child, lo, hi } => self.add_repeat(sets, child, lo, hi, next),
            RegularShape::Possessive { child, lo, hi } => {
                self.add_possessive(sets, child, lo, hi, next)
            }
            RegularShape::Concat(trees) => self.add_all(sets, trees, next),
            RegularShape::Alt(branches) => self.add_branches(sets, branches, next),
            RegularShape::Irregular => Err(NotBuilt::Irregular),
        }
    }

    /// Adds the steps of the trees, one after another.
    #[cycle(add_tree)]
    fn add_all<'a>(
        &mut self,
        sets: &mut KnownSets<'a, '_>,
        trees: &'a [Expr],
        next: usize,
    ) -> Result<usize, NotBuilt> {
        let mut at = next;
        for i in (0..trees.len()).rev() {
            if let Some(tree) = trees.get(i) {
                at = self.add_tree(sets, tree, at)?;
            }
        }
        Ok(at)
    }

    /// Adds the steps of the branches, and a decision for one of them.
    #[cycle(add_tree)]
    fn add_branches<'a>(
        &mut self,
        sets: &mut KnownSets<'a, '_>,
        branches: &'a [Expr],
        next: usize,
    ) -> Result<usize, NotBuilt> {
        let mut exits = Vec::new(self.alloc);
        for (i, branch) in branches.iter().enumerate() {
            let at = self.add_tree(sets, branch, next)?;
            exits.push(Exit {
                decision: Decision::Branch(i),
                next: at,
            })?;
        }
        Ok(self.add(Action::Decide(exits))?)
    }

    /// Adds a turn of the tree, which began with a decision at `start`.
    #[cycle(add_tree)]
    fn add_turn<'a>(
        &mut self,
        sets: &mut KnownSets<'a, '_>,
        tree: &'a Expr,
        start: usize,
        next: usize,
    ) -> Result<usize, NotBuilt> {
        let end = self.add(Action::EndTurn { start, next })?;
        self.add_tree(sets, tree, end)
    }

    /// Adds a repeat of the tree: a loop if it has no limit, and a copy of the tree for each other turn.
    #[cycle(add_tree)]
    fn add_repeat<'a>(
        &mut self,
        sets: &mut KnownSets<'a, '_>,
        tree: &'a Expr,
        lo: usize,
        hi: usize,
        next: usize,
    ) -> Result<usize, NotBuilt> {
        let mut after = self.add(Action::Decide(Vec::new(self.alloc)))?;
        let mut copies = hi;
        if hi == usize::MAX {
            let turn = self.add_turn(sets, tree, after, after)?;
            self.set_exits(after, turn, Some(next))?;
            copies = lo;
        } else {
            self.set_end(after, next)?;
        }
        for i in (0..copies).rev() {
            let done = if i < lo { None } else { Some(next) };
            let at = self.add(Action::Decide(Vec::new(self.alloc)))?;
            let turn = self.add_turn(sets, tree, at, after)?;
            self.set_exits(at, turn, done)?;
            after = at;
            if self.steps.len() > MOST_STEPS {
                return Err(NotBuilt::TooLarge);
            }
        }
        Ok(after)
    }

    /// Adds a possessive repeat of a node that matches one character: a loop if it has no limit, and a copy of the node for each
    /// other turn.
    fn add_possessive<'a>(
        &mut self,
        sets: &mut KnownSets<'a, '_>,
        tree: &'a Expr,
        lo: usize,
        hi: usize,
        next: usize,
    ) -> Result<usize, NotBuilt> {
        let set = self.set_of(sets, tree)?;
        let end = self.add(Action::EndPossessive { set, next })?;
        let mut after = end;
        let mut copies = hi;
        if hi == usize::MAX {
            after = self.add(Action::Fork(Vec::new(self.alloc)))?;
            let turn = self.add_position(sets, tree, after)?;
            self.set_fork(after, turn, end)?;
            copies = lo;
        }
        for i in (0..copies).rev() {
            let turn = self.add_position(sets, tree, after)?;
            after = turn;
            if i >= lo {
                after = self.add(Action::Fork(Vec::new(self.alloc)))?;
                self.set_fork(after, turn, end)?;
            }
        }
        Ok(after)
    }

    /// Sets the steps at a fork.
    fn set_fork(&mut self, at: usize, turn: usize, end: usize) -> Result<(), AllocError> {
        let mut nexts = Vec::new(self.alloc);
        nexts.push(turn)?;
        nexts.push(end)?;
        if let Some(step) = self.steps.get_mut(at) {
            *step = Action::Fork(nexts);
        }
        Ok(())
    }

    /// Sets the decision at a step where the last turn has ended.
    fn set_end(&mut self, at: usize, next: usize) -> Result<(), AllocError> {
        let mut exits = Vec::new(self.alloc);
        exits.push(Exit {
            decision: Decision::Done,
            next,
        })?;
        if let Some(step) = self.steps.get_mut(at) {
            *step = Action::Decide(exits);
        }
        Ok(())
    }

    /// Adds a node that matches one character.
    fn add_position<'a>(
        &mut self,
        sets: &mut KnownSets<'a, '_>,
        tree: &'a Expr,
        next: usize,
    ) -> Result<usize, NotBuilt> {
        if self.positions.len() > MOST_POSITIONS {
            return Err(NotBuilt::TooLarge);
        }
        let set = self.set_of(sets, tree)?;
        let position = self.positions.len();
        self.positions.push(Position { set, next })?;
        Ok(self.add(Action::Match { position })?)
    }

    /// The index of the set of a node that matches one character. It is irregular if its characters are not known.
    fn set_of<'a>(
        &mut self,
        sets: &mut KnownSets<'a, '_>,
        tree: &'a Expr,
    ) -> Result<usize, NotBuilt> {
        let Some(set) = sets.of(tree)? else {
            return Err(NotBuilt::Irregular);
        };
        Ok(self.add_set(set)?)
    }

    /// The index of the set, a copy of which is added if there is no equal one.
    fn add_set(&mut self, set: &CharacterSet) -> Result<usize, AllocError> {
        for (i, other) in self.sets.iter().enumerate() {
            if set.ranges() == other.ranges() {
                return Ok(i);
            }
        }
        let at = self.sets.len();
        self.sets.push(set.clone()?)?;
        Ok(at)
    }
}
