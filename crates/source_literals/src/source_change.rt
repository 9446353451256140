//! Patterns that change in their sources. Only the bytes of a literal are changed, and only if the literals of the pattern are
//! then read as its new text.
use crate::literal::{SpelledCharacter, read_literal};
use crate::replaced::{Replacement, replaced};
use crate::source_syntax::SourceSyntax;
use fancy_syntax::span::Span;
use std::alloc::{AllocError, Global};
use std::str;

/// What becomes of a character of a pattern.
#[derive(Debug, Clone, Copy, PartialEq, Eq)]
pub struct CharacterChange {
    pub is_kept: bool,
    /// The byte of ASCII that the text has before it, or instead of it.
    pub added: Option<u8>,
}

/// How a source spells a pattern: by these literals, one after another.
#[derive(Clone, Drop)]
pub struct Spelling {
    pub syntax: SourceSyntax,
    pub literals: Vec<Span>,
}

/// A pattern of a source that changes.
#[derive(Drop)]
pub struct SourceChange {
    /// The name of the source.
    pub file: String,
    /// Where the pattern begins in it.
    pub line: u64,
    pub column: u64,
    /// The line of the pattern's record.
    pub record: u64,
    /// The pattern as it is.
    pub pattern: String,
    /// The pattern as it becomes.
    pub text: String,
    /// What becomes of each of its characters.
    pub changes: Vec<CharacterChange>,
    pub spelling: Spelling,
    /// Whether its literals, with the changes, are read as the text. If not, they stay as they are.
    pub is_read_back: bool,
}

/// A literal of a source, and what is in its place.
#[derive(Drop)]
struct ChangedLiteral {
    /// Which change it is of.
    change: usize,
    span: Span,
    spelling: String,
}

/// The characters of the literal of a source. None if it is not read, or ends elsewhere.
fn characters_of(
    alloc: Global,
    syntax: SourceSyntax,
    source: &str,
    span: Span,
) -> Result<Option<Vec<SpelledCharacter>>, AllocError> {
    let read = read_literal(alloc, syntax, source, span.start)?;
    Ok(
        read.filter(|literal| literal.end == span.end)
            .map(|literal| literal.characters),
    )
}

/// Adds a part of a source to the spelling of a literal.
fn push_part(
    spelling: &mut String,
    source: &str,
    start: usize,
    end: usize,
) -> Result<(), AllocError> {
    spelling.push_str(source.get(start..end).unwrap_or(""))
}

/// What the literal with these characters becomes, by the change of each.
fn changed_spelling(
    alloc: Global,
    source: &str,
    span: Span,
    characters: &[SpelledCharacter],
    changes: &[CharacterChange],
) -> Result<String, AllocError> {
    let mut spelling = String::with_capacity(alloc, span.end.saturating_sub(span.start))?;
    let mut done = span.start;
    for (one, change) in characters.iter().zip(changes) {
        push_part(&mut spelling, source, done, one.start)?;
        if let Some(byte) = change.added {
            spelling.push(char::from(byte))?;
        }
        done = if change.is_kept { one.start } else { one.end };
    }
    push_part(&mut spelling, source, done, span.end)?;
    Ok(spelling)
}

/// The rest of a text after the characters, if it begins with them.
fn after_characters<'t>(text: &'t str, characters: &[SpelledCharacter]) -> Option<&'t str> {
    let mut rest = text;
    for one in characters {
        rest = rest.strip_prefix(one.character)?;
    }
    Some(rest)
}

/// Adds the literals of a change, each with what it becomes. Returns whether they spell the pattern.
fn add_literals(
    alloc: Global,
    source: &str,
    number: usize,
    change: &SourceChange,
    literals: &mut Vec<ChangedLiteral>,
) -> Result<bool, AllocError> {
    let mut pattern = change.pattern.as_str();
    let mut changes = change.changes.as_slice();
    for span in &change.spelling.literals {
        let syntax = change.spelling.syntax;
        let Some(characters) = characters_of(alloc, syntax, source, *span)? else {
            return Ok(false);
        };
        let Some(rest) = after_characters(pattern, &characters) else {
            return Ok(false);
        };
        let (of_literal, left) = changes
            .split_at_checked(characters.len())
            .unwrap_or((changes, &[]));
        literals.push(ChangedLiteral {
            change: number,
            span: *span,
            spelling: changed_spelling(alloc, source, *span, &characters, of_literal)?,
        })?;
        pattern = rest;
        changes = left;
    }
    Ok(pattern.is_empty())
}

/// A source with changes made in it.
#[derive(Drop)]
pub struct ChangedSource {
    /// The literals that change, in their order, and what is in their place.
    pub parts: Vec<Replacement>,
    /// The source with these.
    pub text: String,
}

/// The source with what its literals become; those of changes that are not read back stay. None if two of the others have a
/// part in common.
fn assembled(
    alloc: Global,
    source: &str,
    changes: &[SourceChange],
    literals: &[ChangedLiteral],
) -> Result<Option<ChangedSource>, AllocError> {
    let mut parts = Vec::with_capacity(alloc, literals.len())?;
    for one in literals {
        if changes
            .get(one.change)
            .is_some_and(|change| change.is_read_back)
        {
            parts.push(Replacement {
                span: one.span,
                text: one.spelling.clone()?,
            })?;
        }
    }
    let new = replaced(alloc, source.as_bytes(), &parts)?;
    let text = new.and_then(|bytes| String::from_utf8(bytes).ok());
    Ok(text.map(|text| ChangedSource { parts, text }))
}

/// The offset in the text of the change up to which it is read, if it is read up to `done`, and the literal as the part from
/// there on.
fn read_part(
    alloc: Global,
    new: &str,
    change: &SourceChange,
    span: Span,
    done: Option<usize>,
) -> Result<Option<usize>, AllocError> {
    let (Some(done), text) = (done, change.text.as_str()) else {
        return Ok(None);
    };
    let Some(characters) = characters_of(alloc, change.spelling.syntax, new, span)? else {
        return Ok(None);
    };
    let rest = text
        .get(done..)
        .and_then(|left| after_characters(left, &characters));
    Ok(rest.map(|rest| text.len().saturating_sub(rest.len())))
}

/// Reads the literals of the changes again that are made in the new source: how far each change is read as its text, if all
/// of its literals are.
fn read_parts(
    alloc: Global,
    new: &str,
    changes: &[SourceChange],
    literals: &[ChangedLiteral],
) -> Result<Vec<Option<usize>>, AllocError> {
    let mut read = Vec::with_capacity(alloc, changes.len())?;
    for _ in changes {
        read.push(Some(0usize))?;
    }
    let (mut added, mut gone) = (0usize, 0usize);
    for one in literals {
        let (Some(change), Some(done)) = (changes.get(one.change), read.get_mut(one.change)) else {
            continue;
        };
        if !change.is_read_back {
            continue;
        }
        let start = one.span.start.saturating_add(added).saturating_sub(gone);
        let end = start.saturating_add(one.spelling.len());
        *done = read_part(alloc, new, change, Span { start, end }, *done)?;
        added = added.saturating_add(one.spelling.len());
        gone = gone.saturating_add(one.span.end.saturating_sub(one.span.start));
    }
    Ok(read)
}

/// Reads the literals of the changes again that are made in the new source, and returns whether all are read as their texts.
fn read_again(
    alloc: Global,
    new: &str,
    changes: &mut [SourceChange],
    literals: &[ChangedLiteral],
) -> Result<bool, AllocError> {
    let read = read_parts(alloc, new, changes, literals)?;
    let mut are_read = true;
    for (change, done) in changes.iter_mut().zip(&read) {
        let is_read = *done == Some(change.text.len());
        are_read = are_read && (is_read || !change.is_read_back);
        change.is_read_back = change.is_read_back && is_read;
    }
    Ok(are_read)
}

/// The literals of the changes, in the order of the source. None if the source does not have the patterns in their literals.
fn literals_of(
    alloc: Global,
    source: &str,
    changes: &[SourceChange],
) -> Result<Option<Vec<ChangedLiteral>>, AllocError> {
    let mut literals = Vec::new(alloc);
    for (number, change) in changes.iter().enumerate() {
        if !add_literals(alloc, source, number, change, &mut literals)? {
            return Ok(None);
        }
    }
    literals.sort_unstable_by_key(|one| one.span.start);
    Ok(Some(literals))
}

/// A source with the changes of its patterns. A change after which the literals would not be read as its text is left out, and
/// `is_read_back` is false then. None if the source is no UTF-8, does not have the patterns where their literals are, or two
/// patterns have a literal in common.
pub fn changed_source(
    alloc: Global,
    source: &[u8],
    changes: &mut [SourceChange],
) -> Result<Option<ChangedSource>, AllocError> {
    let Ok(source) = str::from_utf8(source) else {
        return Ok(None);
    };
    let Some(literals) = literals_of(alloc, source, changes)? else {
        return Ok(None);
    };
    for change in changes.iter_mut() {
        change.is_read_back = true;
    }
    for _ in 0..2 {
        let Some(new) = assembled(alloc, source, changes, &literals)? else {
            return Ok(None);
        };
        if read_again(alloc, new.text.as_str(), changes, &literals)? {
            return Ok(Some(new));
        }
    }
    Ok(None)
}
