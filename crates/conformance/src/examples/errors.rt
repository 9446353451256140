//! Every kind of error.
use fancy_syntax::{Error, Expr, FLAG_ONIGURUMA_MODE, FLAG_UNICODE, ParseError};
use std::alloc::Global;

/// A pattern or more for each kind, with the flags that it is parsed under; and two whose positions are no columns.
pub static INVALID: [(&str, u32); 19] = [
    ("a)", FLAG_UNICODE),
    ("(?(a))", FLAG_UNICODE),
    ("(?~|a|b|c)", FLAG_UNICODE),
    ("(a", FLAG_UNICODE),
    ("a******", FLAG_ONIGURUMA_MODE),
    (r"a\", FLAG_UNICODE),
    (r"\q", FLAG_UNICODE),
    (r"\p{L", FLAG_UNICODE),
    (r"\xg", FLAG_UNICODE),
    (r"\u{D800}", FLAG_UNICODE),
    ("[a", FLAG_UNICODE),
    ("(?q)", FLAG_UNICODE),
    ("(?u)", 0),
    (r"\k<n>", FLAG_UNICODE),
    ("a**", FLAG_UNICODE),
    ("(?<a", FLAG_UNICODE),
    (r"\k<n>(?<n>a)", FLAG_UNICODE),
    ("\u{e9})", FLAG_UNICODE),
    (r"(?#\", FLAG_UNICODE),
];

/// The position and the kind of the pattern's error; `None` if it has a tree.
pub fn first_error(
    alloc: Global,
    pattern: &str,
    flags: u32,
) -> Result<Option<(usize, ParseError)>, Error> {
    match Expr::parse_tree_with_flags(alloc, pattern, flags) {
        Ok(_) => Ok(None),
        Err(Error::ParseError(position, kind)) => Ok(Some((position, kind))),
        Err(Error::OutOfMemory) => Err(Error::OutOfMemory),
    }
}
