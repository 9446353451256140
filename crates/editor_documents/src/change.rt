//! Changes of texts.
ghost use Rattle.std.specs.Prelude.{◌≡◌, ◌++◌, chars, string_bytes, Some, None, IfOk, IfSome, IsErrOf, if◌then◌else◌, MatchOption};
ghost use Rattle.editor_documents.specs.Change as spec;
ghost use Rattle.editor_documents.specs.Change.{EndsWith};
ghost use Rattle.editor_documents.specs.Position.{from_position, is_after};
ghost use Rattle.editor_documents.specs.declared.change.ChangeError.{ChangeError};

use crate::position::{Encoding, Position, from_position};
use std::alloc::{AllocError, Global};

/// A part of a text.
#[derive(Debug, Clone, Copy, PartialEq, Eq)]
pub struct Range {
    pub start: Position,
    /// Past its last character.
    pub end: Position,
}

/// A change of a text.
#[derive(Debug, Clone, Copy)]
pub enum Change<'a> {
    /// The text becomes this one.
    Whole(&'a str),
    /// The part becomes this text.
    Part(Range, &'a str),
}

/// Why changes are not made.
#[derive(Debug, Drop)]
pub enum ChangeError {
    /// The text does not have the position of one, or its range ends before it starts.
    Position,
    /// Memory ran out.
    Memory(AllocError),
}

impl From<AllocError> for ChangeError {
    ghost use Rattle.editor_documents.specs.declared.change.ChangeError.TheVariants.{Memory};
    ghost use Rattle.std.specs.Prelude.{◌≡◌};

    ghost from_gives = { λ a e. e ≡ Memory a };

    fn from(error: AllocError) -> ChangeError {
        ChangeError::Memory(error)
    }
}

/// The text before the rest, with which it ends.
fn before<'a>(text: &'a str, rest: &str) -> &'a str
    requires { EndsWith (chars text.now) (chars rest.now) }
    ensures { chars result.now ≡ spec.before (chars text.now) (chars rest.now) }
{
    &text[..text.len() - rest.len()]
}

/// The three texts, one after another.
fn joined(alloc: Global, first: &str, second: &str, third: &str) -> Result<String, AllocError>
    ensures { IfOk result (λ s. chars (string_bytes s) ≡ chars first.now ++ (chars second.now ++ chars third.now)) }
{
    let mut joined = String::from_str(alloc, first)?;
    joined.push_str(second)?;
    joined.push_str(third)?;
    Ok(joined)
}

/// The text with the new one in the place of the range.
fn with_part(
    alloc: Global,
    encoding: Encoding,
    text: &str,
    range: Range,
    new: &str,
) -> Result<String, ChangeError>
    ensures ok { IfOk result (λ s. spec.with_part encoding range (chars new.now) (chars text.now)
        ≡ Some (chars (string_bytes s))) }
    ensures position { IsErrOf result ChangeError.Position
        → spec.with_part encoding range (chars new.now) (chars text.now) ≡ None }
{
    if range.start.is_after(range.end) {
        return Err(ChangeError::Position);
    }
    let Some(from_start) = from_position(encoding, text, range.start) else {
        return Err(ChangeError::Position);
    };
    let Some(from_end) = from_position(encoding, text, range.end) else {
        return Err(ChangeError::Position);
    };
    Ok(joined(alloc, before(text, from_start), new, from_end)?)
}

/// The text with the change made.
#[tactic(auto, unfolding(crate::specs::Change::with_change))]
fn with_change(
    alloc: Global,
    encoding: Encoding,
    text: &str,
    change: Change<'_>,
) -> Result<String, ChangeError>
    ensures ok { IfOk result (λ s. spec.with_change encoding (chars text.now) change.entry
        ≡ Some (chars (string_bytes s))) }
    ensures position { IsErrOf result ChangeError.Position
        → spec.with_change encoding (chars text.now) change.entry ≡ None }
{
    match change {
        Change::Whole(new) => Ok(String::from_str(alloc, new)?),
        Change::Part(range, new) => with_part(alloc, encoding, text, range, new),
    }
}

/// The text with the changes made, each in the text that those before it leave.
pub fn with_changes(
    alloc: Global,
    encoding: Encoding,
    text: &str,
    changes: &[Change<'_>],
) -> Result<String, ChangeError>
    ensures ok { IfOk result (λ s. spec.with_changes encoding (chars text.now) changes.now
        ≡ Some (chars (string_bytes s))) }
    ensures position { IsErrOf result ChangeError.Position
        → spec.with_changes encoding (chars text.now) changes.now ≡ None }
{
    let Some((first, later)) = changes.split_first() else {
        return Ok(String::from_str(alloc, text)?);
    };
    let mut changed = with_change(alloc, encoding, text, *first)?;
    for change in later {
        changed = with_change(alloc, encoding, changed.as_str(), *change)?;
    }
    Ok(changed)
}
