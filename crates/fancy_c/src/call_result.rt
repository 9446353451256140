//! What a call returns. The numbers never change.
ghost use Rattle.std.specs.Prelude.{◌≡◌};
ghost use Rattle.fancy_lex.specs.ErrorViews.{kind_of};
ghost use Rattle.fancy_c.specs.CallResult.{number_of_kind, result_of_status};

use fancy_lex::error::ParseError;

/// The pattern is valid, and what was asked for is written.
pub const STATUS_OK: u32 = 0;
/// The pattern is invalid: the kind and the position of its error are set.
pub const STATUS_REFUSED: u32 = 1;
/// The pattern is not UTF-8: the position is the length of its valid UTF-8 prefix.
pub const STATUS_NOT_UTF8: u32 = 2;
/// Out of memory. It says nothing about the pattern.
pub const STATUS_OUT_OF_MEMORY: u32 = 3;
/// A buffer is too short. No buffer was written.
pub const STATUS_BUFFER_TOO_SHORT: u32 = 4;
/// The pattern is valid, and its tree is not printable.
pub const STATUS_NOT_PRINTABLE: u32 = 5;
/// The text that is written for a tree does not parse back as the tree: never that of a pattern, but maybe one of rows.
pub const STATUS_NO_PATTERN: u32 = 6;
/// The rows are no tree.
pub const STATUS_NO_TREE: u32 = 7;
/// No style of formatting has this number.
pub const STATUS_UNKNOWN_STYLE: u32 = 8;
/// A bit is set that is no flag, or none that the call takes.
pub const STATUS_UNKNOWN_FLAG: u32 = 9;
/// No precedence has this number.
pub const STATUS_UNKNOWN_PRECEDENCE: u32 = 10;
/// The pattern is valid, and a reference in it refers to a group that the pattern does not have.
pub const STATUS_UNRESOLVED: u32 = 11;
/// The text or the node does not match exactly one character.
pub const STATUS_NOT_ONE_CHARACTER: u32 = 12;

// Callers in C compare with these numbers.
const _: () = prove!(STATUS_OK == 0 && STATUS_REFUSED == 1 && STATUS_NOT_UTF8 == 2);

const _: () = prove!(STATUS_OUT_OF_MEMORY == 3 && STATUS_BUFFER_TOO_SHORT == 4);

const _: () = prove!(STATUS_NOT_PRINTABLE == 5 && STATUS_NO_PATTERN == 6 && STATUS_NO_TREE == 7);

const _: () = prove!(
    STATUS_UNKNOWN_STYLE == 8 && STATUS_UNKNOWN_FLAG == 9 && STATUS_UNKNOWN_PRECEDENCE == 10
);

const _: () = prove!(STATUS_UNRESOLVED == 11 && STATUS_NOT_ONE_CHARACTER == 12);

/// No error.
pub const ERROR_NONE: u32 = 0;

pub const ERROR_GENERAL_PARSE_ERROR: u32 = 1;

pub const ERROR_UNCLOSED_OPEN_PAREN: u32 = 2;

pub const ERROR_INVALID_REPEAT: u32 = 3;

pub const ERROR_RECURSION_EXCEEDED: u32 = 4;

pub const ERROR_TRAILING_BACKSLASH: u32 = 5;

pub const ERROR_INVALID_ESCAPE: u32 = 6;

pub const ERROR_UNCLOSED_UNICODE_NAME: u32 = 7;

pub const ERROR_INVALID_HEX: u32 = 8;

pub const ERROR_INVALID_CODEPOINT_VALUE: u32 = 9;

pub const ERROR_INVALID_CLASS: u32 = 10;

pub const ERROR_UNKNOWN_FLAG: u32 = 11;

pub const ERROR_CHANGING_UNICODE_MODE_UNSUPPORTED: u32 = 12;

pub const ERROR_INVALID_BACKREF: u32 = 13;

pub const ERROR_TARGET_NOT_REPEATABLE: u32 = 14;

pub const ERROR_INVALID_GROUP_NAME: u32 = 15;

pub const ERROR_INVALID_GROUP_NAME_BACKREF: u32 = 16;

const _: () = prove!(
    ERROR_NONE == 0 && ERROR_GENERAL_PARSE_ERROR == 1 && ERROR_UNCLOSED_OPEN_PAREN == 2
);

const _: () = prove!(
    ERROR_INVALID_REPEAT == 3 && ERROR_RECURSION_EXCEEDED == 4 && ERROR_TRAILING_BACKSLASH == 5
);

const _: () = prove!(
    ERROR_INVALID_ESCAPE == 6 && ERROR_UNCLOSED_UNICODE_NAME == 7 && ERROR_INVALID_HEX == 8
);

const _: () = prove!(
    ERROR_INVALID_CODEPOINT_VALUE == 9 && ERROR_INVALID_CLASS == 10 && ERROR_UNKNOWN_FLAG == 11
);

const _: () = prove!(ERROR_CHANGING_UNICODE_MODE_UNSUPPORTED == 12 && ERROR_INVALID_BACKREF == 13);

const _: () = prove!(ERROR_TARGET_NOT_REPEATABLE == 14 && ERROR_INVALID_GROUP_NAME == 15);

const _: () = prove!(ERROR_INVALID_GROUP_NAME_BACKREF == 16);

/// What a call returns.
#[repr(C)]
#[derive(Clone, Copy)]
pub struct CallResult {
    /// `STATUS_OK` to `STATUS_NOT_ONE_CHARACTER`.
    pub status: u32,
    /// The kind of the error, `ERROR_NONE` if none is reported.
    pub kind: u32,
    /// The position of the error, or the length of the valid UTF-8 prefix, as a byte offset; else 0.
    pub position: usize,
    /// The size in bytes of the text that was to be written, if there is one; else 0.
    pub size: usize,
}

impl CallResult {
    /// A status, with no error and no text.
    pub(crate) fn of_status(status: u32) -> CallResult
        ensures { result ≡ result_of_status status }
    {
        CallResult {
            status,
            kind: ERROR_NONE,
            position: 0,
            size: 0,
        }
    }
}

/// The number of a kind of error.
pub(crate) fn kind_number(kind: &ParseError) -> u32
    ensures { result ≡ number_of_kind (kind_of kind.now) }
{
    match kind {
        ParseError::GeneralParseError(_) => ERROR_GENERAL_PARSE_ERROR,
        ParseError::UnclosedOpenParen => ERROR_UNCLOSED_OPEN_PAREN,
        ParseError::InvalidRepeat => ERROR_INVALID_REPEAT,
        ParseError::RecursionExceeded => ERROR_RECURSION_EXCEEDED,
        ParseError::TrailingBackslash => ERROR_TRAILING_BACKSLASH,
        ParseError::InvalidEscape(_) => ERROR_INVALID_ESCAPE,
        ParseError::UnclosedUnicodeName => ERROR_UNCLOSED_UNICODE_NAME,
        ParseError::InvalidHex => ERROR_INVALID_HEX,
        ParseError::InvalidCodepointValue => ERROR_INVALID_CODEPOINT_VALUE,
        ParseError::InvalidClass => ERROR_INVALID_CLASS,
        ParseError::UnknownFlag(_) => ERROR_UNKNOWN_FLAG,
        ParseError::ChangingUnicodeModeUnsupported => ERROR_CHANGING_UNICODE_MODE_UNSUPPORTED,
        ParseError::InvalidBackref => ERROR_INVALID_BACKREF,
        ParseError::TargetNotRepeatable => ERROR_TARGET_NOT_REPEATABLE,
        ParseError::InvalidGroupName => ERROR_INVALID_GROUP_NAME,
        ParseError::InvalidGroupNameBackref(_) => ERROR_INVALID_GROUP_NAME_BACKREF,
    }
}
