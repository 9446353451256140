//! Text for a part of a pattern.
use fancy_syntax::{Expr, PIECE};
use std::alloc::{AllocError, Global};

/// The text of the two trees in a row; `None` if one of them is not printable.
pub fn in_a_row(alloc: Global, first: &Expr, second: &Expr) -> Result<Option<String>, AllocError> {
    let Some(mut text) = first.print(alloc, PIECE)? else {
        return Ok(None);
    };
    if !second.is_printable(alloc)? {
        return Ok(None);
    }
    second.to_str(&mut text, PIECE)?;
    Ok(Some(text))
}
