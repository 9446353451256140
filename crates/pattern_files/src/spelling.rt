//! What a pattern that is fixed or formatted is written as in its file.
ghost use Rattle.std.specs.Bool.{OnTrue};
ghost use Rattle.std.specs.Prelude.{◌≡◌, ◌≤◌, ◌∷◌, ◌++◌, [], length, IfOk, IfSome, string_bytes};
ghost use Rattle.pattern_files.specs.Spelled as spec;
ghost use Rattle.pattern_files.specs.Spelled.{IsJsonOf, IsSpelled};

use crate::lines::{BOM, breaks_line};
use json::{Reader, Scratch, Token};
use patterns_text::shown::is_hidden;
use source_literals::source_change::CharacterChange;
use std::alloc::{AllocError, Global};

/// Whether the text begins with a byte order mark, and the pattern does not.
fn begins_with_bom(text: &str, pattern: &str) -> bool
    ensures { result ≡ spec.begins_with_bom text.now pattern.now }
{
    text.as_bytes().starts_with(BOM) && !pattern.as_bytes().starts_with(BOM)
}

/// How many bytes the character takes that the contents of a string of JSON begin with.
fn spelled_len(contents: &str, c: char) -> usize {
    if contents.starts_with("\\u") {
        c.len_utf16().saturating_mul(6)
    } else if contents.starts_with('\\') {
        2
    } else {
        c.len_utf8()
    }
}

/// Whether a text that goes on with the character has it instead of what the rest of the pattern begins with: an
/// operator for counts, or a space for another blank.
fn is_new(rest: &str, c: char) -> bool {
    match c {
        '?' | '*' | '+' => rest.starts_with('{'),
        ' ' => rest.starts_with(|first: char| matches!(first, '\t' | '\n' | '\r')),
        _ => false,
    }
}

/// Whether a part of a pattern has letters or digits that are no counts in braces.
fn has_text(part: &str) -> bool {
    let (before, braced) = part.split_once('{').unwrap_or((part, ""));
    let (_, after) = braced.split_once('}').unwrap_or(("", braced));
    [before, after]
        .iter()
        .any(|text| text.contains(|c: char| c.is_alphanumeric()))
}

/// How many bytes of a pattern are searched for a character that its text goes on with.
const MAX_SKIPPED: usize = 1 << 12;

/// How many bytes of the rest of the pattern are before the character that its text goes on with; none if that is new. A
/// blank is new if it is not the next one of the pattern.
fn skipped(rest: &str, c: char) -> Option<usize> {
    if is_new(rest, c) {
        return None;
    }
    let near = rest.get(..rest.floor_char_boundary(MAX_SKIPPED))?;
    let bytes = near.find(c)?;
    if matches!(c, ' ' | '\n') && has_text(near.get(..bytes)?) {
        return None;
    }
    Some(bytes)
}

/// The byte of a character that a text may have and its pattern not, which every source spells as itself.
fn plain(c: char) -> Option<u8> {
    match c {
        '?' => Some(b'?'),
        '*' => Some(b'*'),
        '+' => Some(b'+'),
        ' ' => Some(b' '),
        _ => None,
    }
}

/// The changes of the characters of a pattern up to those of its rest.
#[derive(Drop)]
struct Changes<'p> {
    changes: Vec<CharacterChange>,
    rest: &'p str,
    /// The byte that the text has before the rest, and the pattern not.
    added: Option<u8>,
}

impl Changes<'_> {
    /// Passes over so many bytes of the rest, which go.
    fn skip(&mut self, bytes: usize) -> Result<(), AllocError> {
        let (gone, rest) = self.rest.split_at_checked(bytes).unwrap_or(("", self.rest));
        for _ in gone.chars() {
            let added = self.added;
            self.added = None;
            self.changes.push(CharacterChange {
                is_kept: false,
                added,
            })?;
        }
        self.rest = rest;
        Ok(())
    }

    /// Passes over the first character of the rest, which stays.
    fn keep(&mut self) -> Result<(), AllocError> {
        let mut left = self.rest.chars();
        left.next();
        self.rest = left.as_str();
        let added = self.added;
        self.added = None;
        self.changes.push(CharacterChange {
            is_kept: true,
            added,
        })?;
        Ok(())
    }

    /// Goes on to the next character of the text. Returns false if the text has one there that cannot be added.
    fn go_on(&mut self, c: char) -> Result<bool, AllocError> {
        if let Some(bytes) = skipped(self.rest, c) {
            self.skip(bytes)?;
            self.keep()?;
            return Ok(true);
        }
        let can_add = self.added.is_none() && !self.rest.is_empty();
        self.added = plain(c);
        Ok(can_add && self.added.is_some())
    }
}

/// What becomes of each character of the pattern, which becomes the text. None if the text has characters that not every
/// source spells as themselves, or several at one position.
pub fn changes_of(
    alloc: Global,
    pattern: &str,
    text: &str,
) -> Result<Option<Vec<CharacterChange>>, AllocError> {
    let mut found = Changes {
        changes: Vec::with_capacity(alloc, pattern.len())?,
        rest: pattern,
        added: None,
    };
    for c in text.chars() {
        if !found.go_on(c)? {
            return Ok(None);
        }
    }
    let rest = found.rest;
    found.skip(rest.len())?;
    Ok(Some(found.changes))
}

/// A part of a pattern, and what spells it in a string of JSON.
#[derive(Clone, Copy)]
struct SpelledPart<'a> {
    pattern: &'a str,
    contents: &'a str,
}

impl<'a> SpelledPart<'a> {
    /// Passes over the first character, and returns its spelling.
    fn pass(&mut self) -> &'a str {
        let mut left = self.pattern.chars();
        let Some(c) = left.next() else {
            return "";
        };
        self.pattern = left.as_str();
        let contents = self.contents;
        let (spelling, rest) = contents
            .split_at_checked(spelled_len(contents, c))
            .unwrap_or((contents, ""));
        self.contents = rest;
        spelling
    }

    /// Passes over the characters up to the one that its text goes on with, and over that one, and returns its spelling.
    /// None if it is new.
    fn take(&mut self, c: char) -> Option<&'a str> {
        let bytes = skipped(self.pattern, c)?;
        let (gone, _) = self.pattern.split_at_checked(bytes)?;
        for _ in gone.chars() {
            self.pass();
        }
        Some(self.pass())
    }
}

/// How many bytes of the contents of a string of JSON spell so many bytes of the pattern.
fn json_offset(contents: &str, pattern: &str, offset: usize) -> usize
    ensures within { result ≤ length contents.now }
{
    let mut part = SpelledPart { pattern, contents };
    let left = pattern.len().saturating_sub(offset);
    for _ in 0..pattern.len() {
        if part.pattern.len() <= left {
            break;
        }
        part.pass();
    }
    contents.len().saturating_sub(part.contents.len())
}

/// How many bytes of the pattern are spelled by so many bytes of the contents of a string of JSON; an escape counts once it is
/// whole.
fn offset_of_json(contents: &str, pattern: &str, offset: usize) -> usize
    ensures within { result ≤ length pattern.now }
{
    let mut part = SpelledPart { pattern, contents };
    let left = contents.len().saturating_sub(offset);
    for _ in 0..pattern.len() {
        let before = part.pattern;
        part.pass();
        if part.contents.len() < left {
            return pattern.len().saturating_sub(before.len());
        }
    }
    pattern.len()
}

/// How many bytes of a pattern are before the byte offset in its contents.
pub fn offset_in_pattern(form: SpelledIn, contents: &str, pattern: &str, offset: usize) -> usize
    ensures within { result ≤ length pattern.now }
{
    match form {
        SpelledIn::Line | SpelledIn::Lines => offset.min(pattern.len()),
        SpelledIn::Json => offset_of_json(contents, pattern, offset),
    }
}

/// How many bytes of the contents of a pattern are before the byte offset in the pattern.
pub fn offset_in_contents(form: SpelledIn, contents: &str, pattern: &str, offset: usize) -> usize
    ensures within { result ≤ length contents.now }
{
    match form {
        SpelledIn::Line | SpelledIn::Lines => offset.min(contents.len()),
        SpelledIn::Json => json_offset(contents, pattern, offset),
    }
}

/// Whether a string of JSON has the character as an escape: it is hidden, or a space other than that of ASCII, so nobody would
/// see what it is.
fn is_escaped(c: char) -> bool {
    is_hidden(c) || (!c.is_ascii() && c.is_whitespace())
}

/// Writes the escapes of a character, one for each of its units in UTF-16.
fn push_escapes(alloc: Global, spelled: &mut String, c: char) -> Result<(), AllocError> {
    let mut units = [0; 2];
    for unit in c.encode_utf16(&mut units).iter() {
        spelled.push_str(format!(in alloc; "\\u{unit:04x}")?.as_str())?;
    }
    Ok(())
}

/// Writes a character of a string of JSON that its pattern does not spell.
fn push_spelled(alloc: Global, spelled: &mut String, c: char) -> Result<(), AllocError> {
    match c {
        '"' => spelled.push_str("\\\"")?,
        '\\' => spelled.push_str("\\\\")?,
        '\n' => spelled.push_str("\\n")?,
        '\r' => spelled.push_str("\\r")?,
        '\t' => spelled.push_str("\\t")?,
        c if is_escaped(c) => push_escapes(alloc, spelled, c)?,
        c => spelled.push(c)?,
    }
    Ok(())
}

/// The text as the contents of a string of JSON. Each of its characters that the pattern has is spelled as in the contents of
/// the pattern's string.
fn respelled(
    alloc: Global,
    contents: &str,
    pattern: &str,
    text: &str,
) -> Result<String, AllocError> {
    let mut spelled = String::with_capacity(alloc, contents.len())?;
    let mut part = SpelledPart { pattern, contents };
    for c in text.chars() {
        match part.take(c) {
            Some(spelling) => spelled.push_str(spelling)?,
            None => push_spelled(alloc, &mut spelled, c)?,
        }
    }
    Ok(spelled)
}

/// The string of JSON with these contents.
fn quoted(alloc: Global, contents: &str) -> Result<String, AllocError>
    ensures { IfOk result (λ json. string_bytes json ≡ 34 ∷ contents.now ++ 34 ∷ []) }
{
    let mut json = String::with_capacity(alloc, contents.len().saturating_add(2))?;
    json.push_str("\"")?;
    json.push_str(contents)?;
    json.push_str("\"")?;
    Ok(json)
}

/// Whether a string of JSON with these contents is read as the text.
fn is_read_as(alloc: Global, contents: &str, text: &str) -> Result<bool, AllocError>
    ensures { IfOk result (λ is_read. OnTrue is_read (IsJsonOf contents.now text.now)) }
{
    let json = quoted(alloc, contents)?;
    let mut scratch = Scratch::new(alloc);
    let mut reader = Reader::new(json.as_str(), &mut scratch)?;
    match reader.next() {
        Some(Token::String(read)) if read == text => Ok(reader.next().is_none()),
        _ => Ok(false),
    }
}

/// In what a pattern is spelled.
#[derive(Clone, Copy, PartialEq, Eq)]
pub enum SpelledIn {
    /// A line or a record. The text has no line end that the pattern does not have.
    Line,
    /// A line or a record, of which the text may make several lines.
    Lines,
    /// A string of JSON.
    Json,
}

/// Whether the text can be written in the place of the pattern: in a line, without a line end or a byte order mark at the start
/// that the pattern does not have.
pub fn fits(form: SpelledIn, text: &str, pattern: &str) -> bool {
    match form {
        SpelledIn::Line => !begins_with_bom(text, pattern) && !breaks_line(text, pattern),
        SpelledIn::Lines => !begins_with_bom(text, pattern),
        SpelledIn::Json => true,
    }
}

/// How the text is spelled in the place of a pattern that has these contents there. None if it would be read as another:
/// in a line, with a line end or a byte order mark at the start that the pattern does not have.
pub fn spelled(
    alloc: Global,
    form: SpelledIn,
    contents: &str,
    pattern: &str,
    text: &str,
) -> Result<Option<String>, AllocError>
    ensures { IfOk result (λ found. IfSome found (λ spelling.
        IsSpelled form pattern.now text.now (string_bytes spelling))) }
{
    match form {
        SpelledIn::Json => {
            let spelling = respelled(alloc, contents, pattern, text)?;
            let is_read = is_read_as(alloc, spelling.as_str(), text)?;
            Ok(is_read.then_some(spelling))
        }
        SpelledIn::Line | SpelledIn::Lines if begins_with_bom(text, pattern) => Ok(None),
        SpelledIn::Line if breaks_line(text, pattern) => Ok(None),
        SpelledIn::Line | SpelledIn::Lines => Ok(Some(String::from_str(alloc, text)?)),
    }
}
