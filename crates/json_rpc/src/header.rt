//! The lines of a header.
ghost use Rattle.std.specs.Prelude.{◌≡◌, ℕ, ◌<◌, ◌^◌, []};
ghost use Rattle.json_rpc.specs.Header.{length_field};
ghost use Rattle.json_rpc.specs.declared.header.HeaderLine.TheVariants.{End, Length};

use std::str;

/// What a line of a header says.
#[derive(Debug, Clone, Copy, PartialEq, Eq)]
pub(crate) enum HeaderLine {
    /// It is empty: the header ends.
    End,
    /// The message has so many bytes.
    Length(usize),
    /// Something else.
    Other,
    /// It is no field, or its length is no number of bytes.
    Invalid,
}

/// What a line says, which is given without its end.
pub(crate) fn header_line(line: &[u8]) -> HeaderLine
    ensures end { line.now ≡ [] → result ≡ End }
    ensures length { (n : ℕ) → n < 2 ^ 64 → line.now ≡ length_field n → result ≡ Length n }
{
    if line.is_empty() {
        return HeaderLine::End;
    }
    let Ok(text) = str::from_utf8(line) else {
        return HeaderLine::Invalid;
    };
    let Some((name, value)) = text.split_once(':') else {
        return HeaderLine::Invalid;
    };
    if !name.eq_ignore_ascii_case("Content-Length") {
        return HeaderLine::Other;
    }
    match value.trim().parse() {
        Ok(length) => HeaderLine::Length(length),
        Err(_) => HeaderLine::Invalid,
    }
}
