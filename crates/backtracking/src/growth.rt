//! Whether a text takes a backtracking engine long.
use crate::engine::{Outcome, search};
use crate::program::Program;
use std::alloc::{AllocError, Global};

/// The most steps of a search.
const MOST_STEPS: usize = 300_000;

/// So many steps are many for a short text.
const MANY_STEPS: usize = 200_000;

/// How the steps of a search grow with the repetitions of a word.
#[derive(Clone, Copy)]
pub(crate) enum Growth {
    /// Those from one position, exponentially.
    Exponential,
    /// Those from one position, polynomially.
    Polynomial,
    /// Those from many positions, of which each alone takes few.
    Search,
}

/// A text in which a word is repeated.
#[derive(Clone, Copy)]
pub(crate) struct RepeatedText<'t> {
    pub(crate) before: &'t [char],
    pub(crate) word: &'t [char],
    pub(crate) after: &'t [char],
}

impl Growth {
    /// How often the word is repeated in one search and the next ones.
    fn counts(self) -> [usize; 3] {
        match self {
            Growth::Exponential => [5, 8, 11],
            Growth::Polynomial => [20, 40, 80],
            // The turns of most repeats with a limit are fewer.
            Growth::Search => [80, 160, 320],
        }
    }

    /// How many times as many steps the next search takes, at least.
    fn factor(self) -> usize {
        match self {
            Growth::Exponential => 6,
            Growth::Polynomial | Growth::Search => 3,
        }
    }

    /// The steps that grow.
    fn steps(self, outcome: Outcome) -> usize {
        match self {
            Growth::Exponential | Growth::Polynomial => outcome.longest,
            Growth::Search => outcome.steps.saturating_sub(outcome.longest),
        }
    }
}

impl RepeatedText<'_> {
    /// The text with so many repetitions.
    fn repeated(self, alloc: Global, count: usize) -> Result<Vec<char>, AllocError> {
        let mut text = Vec::new(alloc);
        text.extend_from_slice(self.before)?;
        for _ in 0..count {
            text.extend_from_slice(self.word)?;
        }
        text.extend_from_slice(self.after)?;
        Ok(text)
    }
}

/// Whether a search for the program in the text takes a number of steps that grows so. Adds the steps to `steps`.
pub(crate) fn grows(
    alloc: Global,
    program: &Program,
    text: RepeatedText<'_>,
    growth: Growth,
    steps: &mut usize,
) -> Result<bool, AllocError> {
    let mut least = MANY_STEPS;
    for count in growth.counts() {
        let searched = text.repeated(alloc, count)?;
        let outcome = search(alloc, program, &searched, MOST_STEPS)?;
        *steps = steps.saturating_add(outcome.steps);
        let taken = growth.steps(outcome);
        if taken >= least {
            return Ok(true);
        }
        if outcome.is_stopped {
            return Ok(false);
        }
        // A search that fails takes a step from each position, even if a shorter text matched at the first.
        let least_taken = taken.max(searched.len());
        least = least_taken.saturating_mul(growth.factor()).min(MANY_STEPS);
    }
    Ok(false)
}
