//! A pattern formatted, with its spelling and its comments kept.
ghost use Rattle.std.specs.Prelude.{◌≡◌, ◌≢◌, ◌≤◌, ◌⊎◌, IfOk, IfErr, MatchOption, string_bytes};
ghost use Rattle.fancy_lex.specs.Flags.{flags_of};
ghost use Rattle.fancy_c.specs.CallFlags.{AreFlags};
ghost use Rattle.fancy_c.specs.CallResult.{IsRefusalOf};
ghost use Rattle.fancy_c.specs.Calls.{RefusesPattern, TakesOnly, WritesText};
ghost use Rattle.pattern_format.specs.declared.style.Style.{Style};
ghost use Rattle.fancy_c.specs.FormattedText.{NamesStyle, IsStyleOf, IsFormattedOfBytes};

use crate::buffer::write;
use crate::call_flags::are_flags;
use crate::call_result::{
    CallResult, STATUS_BUFFER_TOO_SHORT, STATUS_UNKNOWN_FLAG, STATUS_UNKNOWN_STYLE,
};
use crate::read::{BytesRefusal, text_of};
use pattern_format::format::{Formatted, format_pattern};
use pattern_format::style::Style;
use std::alloc::Global;

/// The lines of the pattern stay, with their indentation.
pub const STYLE_KEPT: u32 = 0;
/// The pattern is laid out over several lines.
pub const STYLE_VERBOSE: u32 = 1;
/// The pattern is in one line, without ignored whitespace.
pub const STYLE_COMPACT: u32 = 2;

// Callers in C pass these numbers.
const _: () = prove!(STYLE_KEPT == 0 && STYLE_VERBOSE == 1 && STYLE_COMPACT == 2);

/// The style with a number and a width; None if no style has the number.
fn style_of(number: u32, width: usize) -> Option<Style>
    ensures { MatchOption result (NamesStyle number → ⊥) (IsStyleOf number width) }
{
    match number {
        STYLE_KEPT => Some(Style::Kept),
        STYLE_VERBOSE => Some(Style::Verbose { width }),
        STYLE_COMPACT => Some(Style::Compact),
        _ => None,
    }
}

/// Reads bytes as a pattern, and formats it.
fn formatted(
    alloc: Global,
    pattern: &[u8],
    flags: u32,
    style: Style,
) -> Result<Formatted, BytesRefusal>
    ensures text { IfOk result (λ r. IsFormattedOfBytes style (flags_of flags) pattern.now (string_bytes r.text)) }
    ensures refusal { IfErr result (λ r. IsRefusalOf r (flags_of flags) pattern.now) }
{
    let text = text_of(pattern)?;
    match format_pattern(alloc, text, flags, style) {
        Ok(formatted) => Ok(formatted),
        Err(error) => Err(BytesRefusal::Parse(error)),
    }
}

/// Parses a pattern as `fancy_check_nonnull` does, formats it as `format_pattern` does, and writes it to the front of
/// `buffer`. It is parsed, under the same flags, as the same tree with the same group information, where only the position
/// of an unresolved call may differ, and has the same comments except `(?#)`. The style is `STYLE_KEPT`, `STYLE_VERBOSE` or
/// `STYLE_COMPACT`, and `width` is that of the lines for `STYLE_VERBOSE`. Returns `STATUS_OK` with the size of the text in
/// bytes; `STATUS_BUFFER_TOO_SHORT` with that size if the text does not fit; `STATUS_UNKNOWN_STYLE` for another style,
/// whatever the pattern is; else what `fancy_check_nonnull` returns. Unless it returns `STATUS_OK`, nothing is written.
#[unsafe(no_mangle)]
pub extern "C" fn fancy_format_nonnull(
    alloc: Global,
    pattern: &[u8],
    flags: u32,
    style: u32,
    width: usize,
    buffer: &mut [u8],
) -> CallResult
    ensures text { WritesText (λ w. (s : Style) × IsStyleOf style width s
        × IsFormattedOfBytes s (flags_of flags) pattern.now w) buffer.old buffer.new result }
    ensures style { TakesOnly (NamesStyle style) STATUS_UNKNOWN_STYLE result }
    ensures known_flags { AreFlags flags → result.status ≢ STATUS_UNKNOWN_FLAG }
    ensures unknown_flag { NamesStyle style → (AreFlags flags → ⊥) → result.status ≡ STATUS_UNKNOWN_FLAG }
    ensures refusal { RefusesPattern (flags_of flags) pattern.now result }
    ensures status { (result.status ≤ STATUS_BUFFER_TOO_SHORT) ⊎ ((result.status ≡ STATUS_UNKNOWN_STYLE)
        ⊎ (result.status ≡ STATUS_UNKNOWN_FLAG)) }
{
    let Some(style) = style_of(style, width) else {
        return CallResult::of_status(STATUS_UNKNOWN_STYLE);
    };
    if !are_flags(flags) {
        return CallResult::of_status(STATUS_UNKNOWN_FLAG);
    }
    match formatted(alloc, pattern, flags, style) {
        Ok(formatted) => write(buffer, formatted.text.as_bytes()),
        Err(refusal) => refusal.call_result(),
    }
}
