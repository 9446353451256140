//! A text that leads through a part of a pattern.
use crate::common::some_character;
use crate::known_sets::KnownSets;
use fancy_syntax::expr::Expr;
use std::alloc::{AllocError, Global};

/// The most characters of a text.
const MOST_CHARACTERS: usize = 1000;

/// A text that grows.
#[derive(Drop)]
pub(crate) struct Sample<'s, 'a, 'k> {
    sets: &'s mut KnownSets<'a, 'k>,
    pub(crate) text: Vec<char>,
}

impl<'s, 'a, 'k> Sample<'s, 'a, 'k> {
    /// The empty text.
    pub(crate) fn new(alloc: Global, sets: &'s mut KnownSets<'a, 'k>) -> Sample<'s, 'a, 'k> {
        Sample {
            sets,
            text: Vec::new(alloc),
        }
    }

    /// Adds a text that the tree matches, and says whether one was found. Assertions and look-around are taken to hold.
    #[cycle(add_text)]
    pub(crate) fn add_text(&mut self, tree: &'a Expr) -> Result<bool, AllocError> {
        if self.text.len() > MOST_CHARACTERS {
            return Ok(false);
        }
        match tree {
            Expr::Empty
            | Expr::Assertion(_)
            | Expr::LookAround(..)
            | Expr::KeepOut
            | Expr::ContinueFromPreviousMatchEnd
            | Expr::BackrefExistsCondition { .. }
            | Expr::DefineGroup { .. } => Ok(true),
            Expr::Any { .. } | Expr::Literal { .. } | Expr::Delegate { .. } => {
                self.add_character(tree)
            }
            Expr::GeneralNewline { .. } => {
                self.text.push('\n')?;
                Ok(true)
            }
            Expr::Group(child) | Expr::AtomicGroup(child) => self.add_text(child),
            Expr::Concat(trees) => self.add_texts(trees),
            Expr::Alt(branches) => self.add_branch(branches),
            Expr::Repeat { child, lo, .. } => self.add_turns(child, *lo),
            Expr::LiteralBytes { .. }
            | Expr::Backref { .. }
            | Expr::BackrefWithRelativeRecursionLevel { .. }
            | Expr::Conditional { .. }
            | Expr::SubroutineCall(_)
            | Expr::BacktrackingControlVerb(_)
            | Expr::Absent(_)
            | Expr::AstNode(..) => Ok(false),
        }
    }

    /// Adds a text for each of the trees.
    #[cycle(add_text)]
    pub(crate) fn add_texts(&mut self, trees: &'a [Expr]) -> Result<bool, AllocError> {
        for tree in trees {
            if !self.add_text(tree)? {
                return Ok(false);
            }
        }
        Ok(true)
    }

    /// Adds a text for the first branch that has one.
    #[cycle(add_text)]
    fn add_branch(&mut self, branches: &'a [Expr]) -> Result<bool, AllocError> {
        for branch in branches {
            let length = self.text.len();
            if self.add_text(branch)? {
                return Ok(true);
            }
            self.text.truncate(length);
        }
        Ok(false)
    }

    /// Adds a text for each of so many turns.
    #[cycle(add_text)]
    pub(crate) fn add_turns(&mut self, tree: &'a Expr, count: usize) -> Result<bool, AllocError> {
        for _ in 0..count.min(MOST_CHARACTERS) {
            if !self.add_text(tree)? {
                return Ok(false);
            }
        }
        Ok(true)
    }

    /// Adds a character that the node matches.
    fn add_character(&mut self, tree: &'a Expr) -> Result<bool, AllocError> {
        let Some(set) = self.sets.of(tree)? else {
            return Ok(false);
        };
        let Some(c) = some_character(set) else {
            return Ok(false);
        };
        self.text.push(c)?;
        Ok(true)
    }
}
