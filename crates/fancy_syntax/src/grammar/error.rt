//! The error kind that carries a message.
ghost use Rattle.std.specs.Prelude.{chars};
ghost use Rattle.fancy_lex.specs.Located as spec;
ghost use Rattle.fancy_grammar.specs.Errors.{IsThisError};

use fancy_lex::error::{ParseError, ReadError};
use fancy_lex::text::Reach;
use std::alloc::Global;

/// The general error with this message, or out of memory.
pub(crate) fn general(alloc: Global, message: &str, reach: Reach) -> ReadError
    ensures { IsThisError result (record { reach = reach; kind = spec.general_parse_error (chars message.now) }) }
{
    match String::from_str(alloc, message) {
        Ok(message) => ReadError::At(reach, ParseError::GeneralParseError(message)),
        Err(refused) => ReadError::from(refused),
    }
}
