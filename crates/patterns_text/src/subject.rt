//! Patterns that are reported on.
ghost use Rattle.std.specs.Prelude.{◌≡◌, chars, IfOk, OnOk, OnErr};
ghost use Rattle.fancy_lex.specs.Flags.{flags_of};
ghost use Rattle.fancy_syntax.specs.InfoViews.{HasTree, HasError};
ghost use Rattle.patterns_text.specs.Subject.{IsAccepted, IsRefused, IsParsedAs, HasTrivia};

use crate::error::RunError;
use crate::excerpt::{Related, write_refusal};
use crate::hints::{Hint, hint_for};
use crate::opening::{Opening, opening_of};
use crate::position::{FilePosition, Location, PatternPosition, Spot};
use fancy_lex::error::ParseError;
use fancy_syntax::error::Error;
use fancy_syntax::spanned::SpannedTree;
use std::alloc::{AllocError, Global};
use std::io::Write;

/// A pattern, where it is, and what is needed to parse it and to report on it.
#[derive(Clone, Copy)]
pub struct Subject<'a> {
    pub alloc: Global,
    /// The flags that it is parsed under.
    pub flags: u32,
    pub at: Location<'a>,
    pub pattern: &'a str,
}

/// Why a pattern is invalid.
#[derive(Drop)]
pub struct Refusal {
    /// The position of the error, as a byte offset.
    pub position: usize,
    pub kind: ParseError,
}

/// What helps with an error.
#[derive(Clone, Copy)]
pub struct Advice {
    /// Where the delimiter is that is not closed.
    pub related: Option<Related>,
    /// What to do.
    pub hint: Option<Hint>,
}

impl Refusal {
    /// What helps with the error, as far as it is known.
    pub fn advice(&self, subject: Subject<'_>) -> Result<Advice, RunError> {
        let opened = opening_of(subject, self)?;
        Ok(Advice {
            related: opened.map(Opening::related),
            hint: hint_for(&self.kind, subject.pattern, self.position, opened),
        })
    }

    /// Writes where and why the pattern is invalid, its line at the position, a caret under the position, and what helps.
    pub fn write(&self, out: &mut Vec<u8>, subject: Subject<'_>) -> Result<(), RunError> {
        let Advice { related, hint } = self.advice(subject)?;
        let message = format!(in subject.alloc; "{}", self.kind)?;
        let subject = subject.part(self.position);
        write_refusal(out, subject, self.position, message.as_str(), related)?;
        if let Some(hint) = hint {
            writeln!(out, "help: {hint}")?;
        }
        Ok(())
    }
}

/// The file name that reports have for a pattern that is an argument of the program.
pub const ARGUMENT: &str = "PATTERN";

impl<'a> Subject<'a> {
    /// The pattern that is an argument of the program.
    pub fn of_argument(alloc: Global, flags: u32, pattern: &'a str) -> Subject<'a>
        ensures flags { result.flags ≡ flags }
        ensures pattern { result.pattern ≡ pattern.entry }
        ensures accepted { IsAccepted result → HasTree (flags_of flags) (chars pattern.now) }
        ensures refused { IsRefused result → HasError (flags_of flags) (chars pattern.now) }
    {
        Subject {
            alloc,
            flags,
            at: Location::at(ARGUMENT, Spot::Line(1)),
            pattern,
        }
    }

    /// The pattern for a report that begins at the byte offset. One that was extracted is then where that is in its source.
    pub fn part(self, offset: usize) -> Subject<'a> {
        Subject {
            at: self.at.part(self.pattern, offset),
            ..self
        }
    }

    /// Where the byte offset is: of the character that it falls into, or of the end where it is past that.
    pub fn position(self, offset: usize) -> PatternPosition<'a> {
        PatternPosition {
            at: self.at,
            position: FilePosition::of(self.pattern, offset),
        }
    }

    /// The tree of the pattern with its group information and its spans, or why the pattern is invalid. Any other error
    /// is that memory ran out.
    pub fn parse(self) -> Result<Result<SpannedTree, Refusal>, RunError>
        ensures read { IfOk result (λ parsed. OnOk parsed (IsAccepted self.entry)) }
        ensures tree { IfOk result (λ parsed. IfOk parsed (λ t. IsParsedAs self.entry t.tree)) }
        ensures trivia { IfOk result (λ parsed. IfOk parsed (λ t. HasTrivia self.entry t.trivia)) }
        ensures refused { IfOk result (λ parsed. OnErr parsed (IsRefused self.entry)) }
    {
        match SpannedTree::parse(self.alloc, self.pattern, self.flags) {
            Ok(parsed) => Ok(Ok(parsed)),
            Err(Error::ParseError(position, kind)) => Ok(Err(Refusal { position, kind })),
            Err(Error::OutOfMemory) => Err(RunError::Memory(AllocError)),
        }
    }
}
