//! The message of an error.
ghost use Rattle.std.specs.Prelude.{◌≡◌, ◌≢◌, ◌<◌, ◌≤◌, ◌⊎◌, [], IfOk, length, string_bytes};
ghost use Rattle.fancy_lex.specs.Located.{kind_text};
ghost use Rattle.fancy_lex.specs.ErrorViews.{kind_of};
ghost use Rattle.fancy_lex.specs.Flags.{flags_of};
ghost use Rattle.fancy_grammar.specs.GroupInfo.{GroupInfo};
ghost use Rattle.fancy_grammar.specs.Tree.{Tree};
ghost use Rattle.fancy_c.specs.CallFlags.{AreFlags};
ghost use Rattle.fancy_c.specs.CallResult.{number_of_kind, IsReported, IsTreeOfBytes};
ghost use Rattle.fancy_c.specs.Buffer.{Fills};
ghost use Rattle.fancy_c.specs.Calls.{RefusesNothing, TakesOnly, WritesMessage, WritesText};
ghost use Rattle.fancy_c.specs.WrittenText.{carried, NamesKind, IsErrorText};

use crate::buffer::{fill, write};
use crate::call_flags::are_flags;
use crate::call_result::{
    CallResult, ERROR_CHANGING_UNICODE_MODE_UNSUPPORTED, ERROR_GENERAL_PARSE_ERROR,
    ERROR_INVALID_BACKREF, ERROR_INVALID_CLASS, ERROR_INVALID_CODEPOINT_VALUE,
    ERROR_INVALID_ESCAPE, ERROR_INVALID_GROUP_NAME, ERROR_INVALID_GROUP_NAME_BACKREF,
    ERROR_INVALID_HEX, ERROR_INVALID_REPEAT, ERROR_NONE, ERROR_RECURSION_EXCEEDED,
    ERROR_TARGET_NOT_REPEATABLE, ERROR_TRAILING_BACKSLASH, ERROR_UNCLOSED_OPEN_PAREN,
    ERROR_UNCLOSED_UNICODE_NAME, ERROR_UNKNOWN_FLAG, STATUS_BUFFER_TOO_SHORT, STATUS_NOT_UTF8,
    STATUS_OK, STATUS_OUT_OF_MEMORY, STATUS_REFUSED, STATUS_UNKNOWN_FLAG, kind_number,
};
use crate::read::{BytesRefusal, read};
use fancy_syntax::error::{Error, ParseError};
use std::alloc::{AllocError, Global};

/// The message of a kind of error, with the text that it carries.
fn words(alloc: Global, kind: &ParseError) -> Result<String, AllocError>
    ensures { IfOk result (λ s. string_bytes s ≡ kind_text (kind_of kind.now)) }
{
    format!(in alloc; "{kind}")
}

/// Writes the message of the error at the front of the buffer if it fits: the status is then `STATUS_REFUSED`, else
/// `STATUS_BUFFER_TOO_SHORT`.
pub(crate) fn report(
    alloc: Global,
    offset: usize,
    kind: &ParseError,
    buffer: &mut [u8],
) -> CallResult
    ensures reported { result.status ≢ STATUS_OUT_OF_MEMORY → IsReported result offset (kind_of kind.now) }
    ensures refused { result.status ≡ STATUS_REFUSED → Fills buffer.old buffer.new (kind_text (kind_of kind.now)) }
    ensures short { result.status ≡ STATUS_BUFFER_TOO_SHORT → length buffer.old < result.size }
    ensures kept { result.status ≢ STATUS_REFUSED → buffer.new ≡ buffer.old }
    ensures error { (result.status ≢ STATUS_OK) × (result.status ≢ STATUS_NOT_UTF8) }
    ensures status { result.status ≤ STATUS_BUFFER_TOO_SHORT }
    ensures no_kind { result.status ≡ STATUS_OUT_OF_MEMORY → result.kind ≡ ERROR_NONE }
    ensures no_position { result.status ≡ STATUS_OUT_OF_MEMORY → result.position ≡ 0 }
    ensures no_size { result.status ≡ STATUS_OUT_OF_MEMORY → result.size ≡ 0 }
{
    let Ok(words) = words(alloc, kind) else {
        return CallResult {
            status: STATUS_OUT_OF_MEMORY,
            kind: ERROR_NONE,
            position: 0,
            size: 0,
        };
    };
    let status = if fill(buffer, words.as_bytes()) {
        STATUS_REFUSED
    } else {
        STATUS_BUFFER_TOO_SHORT
    };
    CallResult {
        status,
        kind: kind_number(kind),
        position: offset,
        size: words.len(),
    }
}

/// Parses a pattern as `fancy_check_nonnull` does, and if it is invalid, writes the message of its error to the front
/// of `buffer`, without its position. Returns what `fancy_check_nonnull` returns, with the size of the message in
/// bytes, but `STATUS_BUFFER_TOO_SHORT` if the message does not fit: then too with the kind, the position and the size.
/// Unless it returns `STATUS_REFUSED`, nothing is written.
#[unsafe(no_mangle)]
pub extern "C" fn fancy_message_nonnull(
    alloc: Global,
    pattern: &[u8],
    flags: u32,
    buffer: &mut [u8],
) -> CallResult
    ensures read { result.status ≡ STATUS_OK → (t : Tree) × (m : GroupInfo)
        × IsTreeOfBytes (flags_of flags) pattern.now t m }
    ensures message { WritesMessage (flags_of flags) pattern.now buffer.old buffer.new result }
    ensures short { result.status ≡ STATUS_BUFFER_TOO_SHORT → result.kind ≢ ERROR_NONE }
    ensures kept { result.status ≢ STATUS_REFUSED → buffer.new ≡ buffer.old }
    ensures flags { TakesOnly (AreFlags flags) STATUS_UNKNOWN_FLAG result }
    ensures status { (result.status ≤ STATUS_BUFFER_TOO_SHORT) ⊎ (result.status ≡ STATUS_UNKNOWN_FLAG) }
{
    if !are_flags(flags) {
        return CallResult::of_status(STATUS_UNKNOWN_FLAG);
    }
    match read(alloc, pattern, flags) {
        Ok(_) => CallResult {
            status: STATUS_OK,
            kind: ERROR_NONE,
            position: 0,
            size: 0,
        },
        Err(BytesRefusal::Parse(Error::ParseError(offset, kind))) => report(
            alloc, offset, &kind, buffer,
        ),
        Err(BytesRefusal::Parse(Error::OutOfMemory)) => CallResult {
            status: STATUS_OUT_OF_MEMORY,
            kind: ERROR_NONE,
            position: 0,
            size: 0,
        },
        Err(BytesRefusal::NoUtf8(offset)) => CallResult {
            status: STATUS_NOT_UTF8,
            kind: ERROR_NONE,
            position: offset,
            size: 0,
        },
    }
}

/// The kind with this number, without a text.
fn kind_of_number(alloc: Global, number: u32) -> ParseError
    requires { NamesKind number }
    ensures number { number_of_kind (kind_of result) ≡ number }
    ensures bare { carried (kind_of result) ≡ [] }
{
    match number {
        ERROR_GENERAL_PARSE_ERROR => ParseError::GeneralParseError(String::new(alloc)),
        ERROR_UNCLOSED_OPEN_PAREN => ParseError::UnclosedOpenParen,
        ERROR_INVALID_REPEAT => ParseError::InvalidRepeat,
        ERROR_RECURSION_EXCEEDED => ParseError::RecursionExceeded,
        ERROR_TRAILING_BACKSLASH => ParseError::TrailingBackslash,
        ERROR_INVALID_ESCAPE => ParseError::InvalidEscape(String::new(alloc)),
        ERROR_UNCLOSED_UNICODE_NAME => ParseError::UnclosedUnicodeName,
        ERROR_INVALID_HEX => ParseError::InvalidHex,
        ERROR_INVALID_CODEPOINT_VALUE => ParseError::InvalidCodepointValue,
        ERROR_INVALID_CLASS => ParseError::InvalidClass,
        ERROR_UNKNOWN_FLAG => ParseError::UnknownFlag(String::new(alloc)),
        ERROR_CHANGING_UNICODE_MODE_UNSUPPORTED => ParseError::ChangingUnicodeModeUnsupported,
        ERROR_INVALID_BACKREF => ParseError::InvalidBackref,
        ERROR_TARGET_NOT_REPEATABLE => ParseError::TargetNotRepeatable,
        ERROR_INVALID_GROUP_NAME => ParseError::InvalidGroupName,
        _ => ParseError::InvalidGroupNameBackref(String::new(alloc)),
    }
}

/// Writes the message of a kind of error to the front of `buffer`, without reading a pattern. The messages of
/// `ERROR_GENERAL_PARSE_ERROR`, `ERROR_INVALID_ESCAPE`, `ERROR_UNKNOWN_FLAG` and `ERROR_INVALID_GROUP_NAME_BACKREF` end
/// with a text that depends on the pattern; for these it writes what comes before that text. For a number that no kind
/// has, it writes an empty text. Returns `STATUS_OK` with the size of the text in bytes; `STATUS_BUFFER_TOO_SHORT` with
/// that size if it does not fit; or `STATUS_OUT_OF_MEMORY`. Unless it returns `STATUS_OK`, nothing is written.
#[unsafe(no_mangle)]
pub extern "C" fn fancy_error_text_nonnull(
    alloc: Global,
    kind: u32,
    buffer: &mut [u8],
) -> CallResult
    ensures text { WritesText (IsErrorText kind) buffer.old buffer.new result }
    ensures status { result.status ≤ STATUS_BUFFER_TOO_SHORT }
    ensures refusal { RefusesNothing result }
{
    if kind == ERROR_NONE || kind > ERROR_INVALID_GROUP_NAME_BACKREF {
        return write(buffer, &[]);
    }
    match words(alloc, &kind_of_number(alloc, kind)) {
        Ok(words) => write(buffer, words.as_bytes()),
        Err(AllocError) => CallResult {
            status: STATUS_OUT_OF_MEMORY,
            kind: ERROR_NONE,
            position: 0,
            size: 0,
        },
    }
}
