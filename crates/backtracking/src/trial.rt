//! Which positions of a text a part of a pattern may lead to.
use crate::known_sets::KnownSets;
use fancy_syntax::expr::{Assertion, BacktrackingControlVerb, Expr, LookAround};
use std::alloc::{AllocError, Global};

/// The most nodes that are tried.
const MOST_TRIALS: usize = 1000;

/// The most turns that a repeat has to take.
const MOST_TURNS: usize = 100;

/// A trial of parts of a pattern on a text. Sets of positions have a bool for each position.
#[derive(Drop)]
pub(crate) struct Trial<'t, 'a, 'k> {
    alloc: Global,
    text: &'t [char],
    sets: &'t mut KnownSets<'a, 'k>,
    trials: usize,
}

/// Whether some position is in the set.
pub(crate) fn is_any(set: &[bool]) -> bool {
    set.contains(&true)
}

/// Adds the positions, and says whether one is new.
pub(crate) fn add_positions(set: &mut [bool], more: &[bool]) -> bool {
    let mut is_new = false;
    for (has, is_more) in set.iter_mut().zip(more) {
        if *is_more && !*has {
            *has = true;
            is_new = true;
        }
    }
    is_new
}

/// Whether it is a character of a word.
fn is_word(c: Option<char>) -> bool {
    c.is_some_and(|c| c.is_alphanumeric() || c == '_')
}

/// Whether the assertion holds at the position of the text.
pub(crate) fn holds_at(text: &[char], assertion: Assertion, at: usize) -> bool {
    let before = at.checked_sub(1).and_then(|i| text.get(i)).copied();
    let next = text.get(at).copied();
    match assertion {
        Assertion::StartText => before.is_none(),
        Assertion::EndText => next.is_none(),
        Assertion::EndTextIgnoreTrailingNewlines { .. } => {
            text.get(at..).unwrap_or(&[]).iter().all(|c| *c == '\n')
        }
        Assertion::StartLine { .. } | Assertion::StartLineOniguruma { .. } => {
            before.is_none_or(|c| c == '\n')
        }
        Assertion::EndLine { .. } => next.is_none_or(|c| c == '\n'),
        Assertion::LeftWordBoundary => !is_word(before) && is_word(next),
        Assertion::LeftWordHalfBoundary => !is_word(before),
        Assertion::RightWordBoundary => is_word(before) && !is_word(next),
        Assertion::RightWordHalfBoundary => !is_word(next),
        Assertion::WordBoundary => is_word(before) != is_word(next),
        Assertion::NotWordBoundary => is_word(before) == is_word(next),
    }
}

impl<'t, 'a, 'k> Trial<'t, 'a, 'k> {
    /// A trial on the text.
    pub(crate) fn new(
        alloc: Global,
        text: &'t [char],
        sets: &'t mut KnownSets<'a, 'k>,
    ) -> Trial<'t, 'a, 'k> {
        Trial {
            alloc,
            text,
            sets,
            trials: 0,
        }
    }

    /// How many nodes were tried.
    pub(crate) fn count(&self) -> usize {
        self.trials
    }

    /// All positions, or none.
    fn all(&self, has: bool) -> Result<Vec<bool>, AllocError> {
        vec![in self.alloc; has; self.text.len().saturating_add(1)]
    }

    /// This position alone.
    pub(crate) fn only(&self, at: usize) -> Result<Vec<bool>, AllocError> {
        let mut set = self.all(false)?;
        if let Some(has) = set.get_mut(at) {
            *has = true;
        }
        Ok(set)
    }

    /// The same positions.
    pub(crate) fn copy(&self, starts: &[bool]) -> Result<Vec<bool>, AllocError> {
        let mut set = Vec::new(self.alloc);
        set.extend_from_slice(starts)?;
        Ok(set)
    }

    /// The positions that the tree may lead to from these. It leads to none where it fails; a back reference is taken to fail. What
    /// is not known is taken to lead to each.
    #[cycle(ends)]
    pub(crate) fn ends(
        &mut self,
        tree: &'a Expr,
        starts: &[bool],
    ) -> Result<Vec<bool>, AllocError> {
        self.trials = self.trials.saturating_add(1);
        if self.trials > MOST_TRIALS {
            return self.all(true);
        }
        match tree {
            Expr::Empty
            | Expr::KeepOut
            | Expr::BackrefExistsCondition { .. }
            | Expr::DefineGroup { .. } => self.copy(starts),
            Expr::Assertion(assertion) => self.where_holds(*assertion, starts),
            Expr::Any { .. } | Expr::Literal { .. } | Expr::Delegate { .. } => {
                self.after_character(tree, starts)
            }
            Expr::Group(child) | Expr::AtomicGroup(child) => self.ends(child, starts),
            Expr::Concat(trees) => self.after_each(trees, starts),
            Expr::Alt(branches) => self.after_any(branches, starts),
            Expr::Repeat { child, lo, hi, .. } => self.after_turns(child, *lo, *hi, starts),
            Expr::LookAround(child, kind) => self.where_seen(child, *kind, starts),
            Expr::BacktrackingControlVerb(BacktrackingControlVerb::Fail)
            | Expr::Backref { .. }
            | Expr::BackrefWithRelativeRecursionLevel { .. }
            | Expr::LiteralBytes { .. }
            | Expr::ContinueFromPreviousMatchEnd => self.all(false),
            Expr::GeneralNewline { .. }
            | Expr::Conditional { .. }
            | Expr::SubroutineCall(_)
            | Expr::BacktrackingControlVerb(_)
            | Expr::Absent(_)
            | Expr::AstNode(..) => self.all(true),
        }
    }

    /// The positions after the trees, one after another.
    #[cycle(ends)]
    pub(crate) fn after_each(
        &mut self,
        trees: &'a [Expr],
        starts: &[bool],
    ) -> Result<Vec<bool>, AllocError> {
        let mut now = self.copy(starts)?;
        for tree in trees {
            if !is_any(&now) {
                break;
            }
            now = self.ends(tree, &now)?;
        }
        Ok(now)
    }

    /// The positions after any of the branches.
    #[cycle(ends)]
    fn after_any(
        &mut self,
        branches: &'a [Expr],
        starts: &[bool],
    ) -> Result<Vec<bool>, AllocError> {
        let mut set = self.all(false)?;
        for branch in branches {
            let ends = self.ends(branch, starts)?;
            add_positions(&mut set, &ends);
        }
        Ok(set)
    }

    /// The positions after turns of the tree.
    #[cycle(ends)]
    pub(crate) fn after_turns(
        &mut self,
        tree: &'a Expr,
        lo: usize,
        hi: usize,
        starts: &[bool],
    ) -> Result<Vec<bool>, AllocError> {
        let least = lo.min(MOST_TURNS);
        let most = hi.min(least.saturating_add(self.text.len()).saturating_add(1));
        let mut now = self.copy(starts)?;
        let mut set = if least == 0 {
            self.copy(starts)?
        } else {
            self.all(false)?
        };
        for before in 0..most {
            now = self.ends(tree, &now)?;
            let is_new = before.saturating_add(1) >= least && add_positions(&mut set, &now);
            if !is_any(&now) || (before >= least && !is_new) {
                break;
            }
        }
        Ok(set)
    }

    /// The positions where the look-around holds. One that looks back is taken to hold.
    #[cycle(ends)]
    fn where_seen(
        &mut self,
        tree: &'a Expr,
        kind: LookAround,
        starts: &[bool],
    ) -> Result<Vec<bool>, AllocError> {
        let is_negative = match kind {
            LookAround::LookAhead => false,
            LookAround::LookAheadNeg => true,
            LookAround::LookBehind | LookAround::LookBehindNeg => return self.copy(starts),
        };
        let mut set = self.all(false)?;
        for (at, is_start) in starts.iter().enumerate() {
            if *is_start {
                let one = self.only(at)?;
                let ends = self.ends(tree, &one)?;
                if let Some(has) = set.get_mut(at) {
                    *has = is_any(&ends) != is_negative;
                }
            }
        }
        Ok(set)
    }

    /// The positions after a character that the node matches.
    fn after_character(
        &mut self,
        tree: &'a Expr,
        starts: &[bool],
    ) -> Result<Vec<bool>, AllocError> {
        let mut set = self.all(false)?;
        let Some(characters) = self.sets.of(tree)? else {
            return Ok(set);
        };
        for (at, c) in self.text.iter().enumerate() {
            if starts.get(at).copied().unwrap_or(false)
                && characters.contains(*c)
                && let Some(has) = set.get_mut(at.saturating_add(1))
            {
                *has = true;
            }
        }
        Ok(set)
    }

    /// The positions where the assertion holds.
    fn where_holds(&self, assertion: Assertion, starts: &[bool]) -> Result<Vec<bool>, AllocError> {
        let mut set = self.all(false)?;
        for (at, is_start) in starts.iter().enumerate() {
            if *is_start
                && holds_at(self.text, assertion, at)
                && let Some(has) = set.get_mut(at)
            {
                *has = true;
            }
        }
        Ok(set)
    }
}
