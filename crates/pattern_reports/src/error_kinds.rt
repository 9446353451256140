//! The kinds of errors by name, and what each says.
ghost use Rattle.std.specs.Prelude.{◌≡◌};
ghost use Rattle.fancy_lex.specs.ErrorViews.{kind_of};
ghost use Rattle.pattern_reports.specs.Codes.{code_of};

use fancy_lex::error::ParseError;

/// The kinds, in the order of `ParseError`: the name of each, as that has it, and what it says.
pub(crate) static ERROR_KINDS: [(&str, &str); 16] = [
    (
        "GeneralParseError",
        "the pattern does not end where it should",
    ),
    ("UnclosedOpenParen", "an opening parenthesis is not closed"),
    ("InvalidRepeat", "a quantifier is invalid"),
    ("RecursionExceeded", "the pattern nests too deep"),
    ("TrailingBackslash", "the pattern ends with a backslash"),
    ("InvalidEscape", "an escape is invalid"),
    (
        "UnclosedUnicodeName",
        "the name of a property is not closed",
    ),
    ("InvalidHex", "a hexadecimal escape is invalid"),
    (
        "InvalidCodepointValue",
        "no character has the value of an escape",
    ),
    ("InvalidClass", "a class is invalid"),
    ("UnknownFlag", "a group begins with what is no flag"),
    (
        "ChangingUnicodeModeUnsupported",
        "a flag group changes the flag u",
    ),
    (
        "InvalidBackref",
        "a reference is to a group that the pattern does not have",
    ),
    (
        "TargetNotRepeatable",
        "a quantifier has no operand, or one that cannot be repeated",
    ),
    ("InvalidGroupName", "the name of a group is invalid"),
    (
        "InvalidGroupNameBackref",
        "a reference comes before the group of its name",
    ),
];

/// The name of the kind.
pub(crate) fn code(kind: &ParseError) -> &'static str
    ensures { result.now ≡ code_of (kind_of kind.now) }
{
    match kind {
        ParseError::GeneralParseError(_) => ERROR_KINDS[0].0,
        ParseError::UnclosedOpenParen => ERROR_KINDS[1].0,
        ParseError::InvalidRepeat => ERROR_KINDS[2].0,
        ParseError::RecursionExceeded => ERROR_KINDS[3].0,
        ParseError::TrailingBackslash => ERROR_KINDS[4].0,
        ParseError::InvalidEscape(_) => ERROR_KINDS[5].0,
        ParseError::UnclosedUnicodeName => ERROR_KINDS[6].0,
        ParseError::InvalidHex => ERROR_KINDS[7].0,
        ParseError::InvalidCodepointValue => ERROR_KINDS[8].0,
        ParseError::InvalidClass => ERROR_KINDS[9].0,
        ParseError::UnknownFlag(_) => ERROR_KINDS[10].0,
        ParseError::ChangingUnicodeModeUnsupported => ERROR_KINDS[11].0,
        ParseError::InvalidBackref => ERROR_KINDS[12].0,
        ParseError::TargetNotRepeatable => ERROR_KINDS[13].0,
        ParseError::InvalidGroupName => ERROR_KINDS[14].0,
        ParseError::InvalidGroupNameBackref(_) => ERROR_KINDS[15].0,
    }
}
