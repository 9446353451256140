//! What no node of a pattern's tree has, as an array.
ghost use Rattle.std.specs.Prelude.{◌≡◌, ◌≢◌, ◌<◌, ◌≤◌, ◌⊎◌, List, length, map};
ghost use Rattle.fancy_lex.specs.Flags.{flags_of};
ghost use Rattle.fancy_grammar.specs.Trivia as grammar;
ghost use Rattle.fancy_syntax.specs.TriviaViews.{trivium_of};
ghost use Rattle.fancy_c.specs.Buffer.{put_at, Fills};
ghost use Rattle.fancy_c.specs.CallFlags.{AreFlags};
ghost use Rattle.fancy_c.specs.Calls.{RefusesPattern, TakesOnly};
ghost use Rattle.fancy_c.specs.TriviumRows as spec;
ghost use Rattle.fancy_c.specs.TriviumRows.{AreTriviaOfBytes};

use crate::call_flags::are_flags;
use crate::call_result::{
    CallResult, ERROR_NONE, STATUS_BUFFER_TOO_SHORT, STATUS_OK, STATUS_UNKNOWN_FLAG,
};
use crate::read::read_trivia;
use fancy_syntax::span::Span;
use fancy_syntax::trivium::{Trivium, TriviumKind};
use std::alloc::Global;

/// A comment, `(?#..)`.
pub const TRIVIUM_COMMENT: u32 = 1;
/// A comment from `#` through the end of its line.
pub const TRIVIUM_LINE_COMMENT: u32 = 2;
/// Inline flags, `(?i)`.
pub const TRIVIUM_INLINE_FLAGS: u32 = 3;
/// The opening of a flag group, such as `(?:` or `(?i:`.
pub const TRIVIUM_OPENING: u32 = 4;
/// The closing parenthesis of such a group.
pub const TRIVIUM_CLOSING: u32 = 5;
/// A part that leaves nothing in the tree, such as a quantifier that an Empty ignores.
pub const TRIVIUM_DROPPED: u32 = 6;
/// A comment inside a token, `(?#..)`.
pub const TRIVIUM_INNER_COMMENT: u32 = 7;
/// A comment inside a token, from `#` through the end of its line.
pub const TRIVIUM_INNER_LINE_COMMENT: u32 = 8;

// Callers in C compare with these numbers.
const _: () = prove!(
    TRIVIUM_COMMENT == 1 && TRIVIUM_LINE_COMMENT == 2 && TRIVIUM_INLINE_FLAGS == 3
);

const _: () = prove!(TRIVIUM_OPENING == 4 && TRIVIUM_CLOSING == 5 && TRIVIUM_DROPPED == 6);

const _: () = prove!(TRIVIUM_INNER_COMMENT == 7 && TRIVIUM_INNER_LINE_COMMENT == 8);

/// A part of a pattern that no node of its tree has.
#[repr(C)]
#[derive(Clone, Copy)]
pub struct TriviumRow {
    /// Where it starts, as a byte offset.
    pub start: usize,
    /// One past the offset of its last byte.
    pub stop: usize,
    /// `TRIVIUM_COMMENT` to `TRIVIUM_INNER_LINE_COMMENT`.
    pub kind: u32,
    /// The bits of the flags that hold before inline flags, or around a flag group; else 0.
    pub flags_before: u32,
    /// The bits of the flags that hold after inline flags, or in a flag group; else 0.
    pub flags_after: u32,
}

/// A row without flags.
fn bare_row(span: Span, kind: u32) -> TriviumRow
    ensures { result ≡ spec.bare_row span kind }
{
    TriviumRow {
        start: span.start,
        stop: span.end,
        kind,
        flags_before: 0,
        flags_after: 0,
    }
}

/// The row of a part that no node has.
fn row(trivium: &Trivium) -> TriviumRow
    ensures { result ≡ spec.row (trivium_of trivium.now) }
{
    match trivium.kind {
        TriviumKind::Comment => bare_row(trivium.span, TRIVIUM_COMMENT),
        TriviumKind::LineComment => bare_row(trivium.span, TRIVIUM_LINE_COMMENT),
        TriviumKind::InlineFlags { before, after } => TriviumRow {
            flags_before: before.to_bits(),
            flags_after: after.to_bits(),
            ..bare_row(trivium.span, TRIVIUM_INLINE_FLAGS)
        },
        TriviumKind::Opening { around, inside } => TriviumRow {
            flags_before: around.to_bits(),
            flags_after: inside.to_bits(),
            ..bare_row(trivium.span, TRIVIUM_OPENING)
        },
        TriviumKind::Closing => bare_row(trivium.span, TRIVIUM_CLOSING),
        TriviumKind::Dropped => bare_row(trivium.span, TRIVIUM_DROPPED),
        TriviumKind::InnerComment => bare_row(trivium.span, TRIVIUM_INNER_COMMENT),
        TriviumKind::InnerLineComment => bare_row(trivium.span, TRIVIUM_INNER_LINE_COMMENT),
    }
}

/// Writes the rows at the front of the buffer.
pub(crate) fn put_rows(rows: &mut [TriviumRow], trivia: &[Trivium])
    requires { length trivia.now ≤ length rows.old }
    ensures { rows.new ≡ put_at rows.old 0 (map spec.row (map trivium_of trivia.now)) }
{
    for (i, trivium) in trivia.iter().enumerate() {
        rows[i] = row(trivium);
    }
}

/// Sets the count, and writes the rows at the front of the buffer if all of them fit.
fn write_rows(rows: &mut [TriviumRow], count: &mut usize, trivia: &[Trivium]) -> CallResult
    ensures read { result.status ≡ STATUS_OK → Fills rows.old rows.new (map spec.row (map trivium_of trivia.now)) }
    ensures short { result.status ≡ STATUS_BUFFER_TOO_SHORT → length rows.old < count.new }
    ensures count { count.new ≡ length (map trivium_of trivia.now) }
    ensures kept { result.status ≢ STATUS_OK → rows.new ≡ rows.old }
    ensures status { (result.status ≡ STATUS_OK) ⊎ (result.status ≡ STATUS_BUFFER_TOO_SHORT) }
    ensures no_kind { result.kind ≡ ERROR_NONE }
    ensures no_position { result.position ≡ 0 }
    ensures no_size { result.size ≡ 0 }
{
    *count = trivia.len();
    let status = if rows.len() < trivia.len() {
        STATUS_BUFFER_TOO_SHORT
    } else {
        put_rows(rows, trivia);
        STATUS_OK
    };
    CallResult {
        status,
        kind: ERROR_NONE,
        position: 0,
        size: 0,
    }
}

/// Parses a pattern as `fancy_check_nonnull` does, and sets `count` to the number of its parts that no node of its tree
/// has: comments, inline flags, the parentheses of flag groups, and what leaves nothing in the tree. If all of them fit,
/// returns `STATUS_OK`, and their rows are at the front of `trivia`, in the order of the pattern. If they do not fit, returns
/// `STATUS_BUFFER_TOO_SHORT`, and `trivia` is not written. For a pattern without a tree it returns what
/// `fancy_check_nonnull` returns, and nothing is written.
#[unsafe(no_mangle)]
pub extern "C" fn fancy_trivia_nonnull(
    alloc: Global,
    pattern: &[u8],
    flags: u32,
    trivia: &mut [TriviumRow],
    count: &mut usize,
) -> CallResult
    ensures read { result.status ≡ STATUS_OK → (l : List grammar.Trivium)
        × AreTriviaOfBytes (flags_of flags) pattern.now l × (count.new ≡ length l)
        × Fills trivia.old trivia.new (map spec.row l) }
    ensures short { result.status ≡ STATUS_BUFFER_TOO_SHORT → (l : List grammar.Trivium)
        × AreTriviaOfBytes (flags_of flags) pattern.now l × (count.new ≡ length l)
        × (length trivia.old < count.new) }
    ensures refusal { RefusesPattern (flags_of flags) pattern.now result }
    ensures kept { result.status ≢ STATUS_OK → trivia.new ≡ trivia.old }
    ensures count_kept { result.status ≢ STATUS_OK → result.status ≢ STATUS_BUFFER_TOO_SHORT → count.new ≡ count.old }
    ensures flags { TakesOnly (AreFlags flags) STATUS_UNKNOWN_FLAG result }
    ensures status { (result.status ≤ STATUS_BUFFER_TOO_SHORT) ⊎ (result.status ≡ STATUS_UNKNOWN_FLAG) }
    ensures no_size { result.size ≡ 0 }
{
    if !are_flags(flags) {
        return CallResult::of_status(STATUS_UNKNOWN_FLAG);
    }
    match read_trivia(alloc, pattern, flags) {
        Ok(found) => write_rows(trivia, count, &found),
        Err(refusal) => refusal.call_result(),
    }
}
