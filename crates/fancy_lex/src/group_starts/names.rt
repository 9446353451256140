//! The name in the opening of a group.
ghost use Rattle.std.specs.Prelude.{◌≡◌, ◌<◌, length, chars, IfOk};
ghost use Rattle.fancy_lex.specs.Reading.{Reads};
ghost use Rattle.fancy_lex.specs.GroupName as spec;
ghost use Rattle.fancy_lex.specs.NameDelimiter.{delimiter_of};

use crate::error::{ParseError, ReadError};
use crate::name::delimited::name_before;
use crate::text::reach_before;

/// The closing delimiter of a group's name.
#[derive(Clone, Copy)]
pub enum ClosingDelimiter {
    /// `>`, after a name that `<` opens.
    Angle,
    /// `'`, after a name that `'` opens.
    Quote,
}

impl ClosingDelimiter {
    fn character(self) -> char
        ensures value { result ≡ delimiter_of self }
        ensures ascii { result < 128 }
    {
        match self {
            ClosingDelimiter::Angle => '>',
            ClosingDelimiter::Quote => '\'',
        }
    }
}

/// Parses the name of a group after its opening delimiter: one or more characters, taken literally, and the closing
/// delimiter. `opening` is the text after the question mark of the group. The error is InvalidGroupName at that
/// question mark, if there is no name or no closing delimiter.
#[tactic(auto, unfolding(crate::specs::GroupName::group_name))]
pub fn group_name<'a>(
    opening: &str,
    delimiter: ClosingDelimiter,
    text: &'a str,
) -> Result<(&'a str, &'a str), ReadError>
    ensures value { Reads (λ s. chars s.now) result (spec.group_name (delimiter_of delimiter) (chars opening.now) (chars text.now)) }
    ensures shorter { IfOk result (λ p. length p.1.now < length text.now) }
{
    match name_before(text, delimiter.character()) {
        Some(read) => Ok(read),
        None => Err(ReadError::At(reach_before(opening), ParseError::InvalidGroupName)),
    }
}
