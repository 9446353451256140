//! Bytes of a file with parts of them replaced.
ghost use Rattle.std.specs.Prelude.{◌≡◌, ◌↔◌, IsTrue, IfOk, IfSome, IfNone, length};
ghost use Rattle.source_literals.specs.Replaced as spec;
ghost use Rattle.source_literals.specs.Replaced.{AreInOrder};

use fancy_syntax::span::Span;
use std::alloc::{AllocError, Global};

/// A part of a file, and what is in its place.
#[derive(Drop)]
pub struct Replacement {
    pub span: Span,
    pub text: String,
}

/// Whether the parts follow one another up to the offset.
fn are_in_order(parts: &[Replacement], end: usize) -> bool
    ensures { IsTrue result ↔ AreInOrder 0 parts.now end }
{
    let mut done = 0usize;
    for part in parts {
        let span = part.span;
        if span.start < done || span.end < span.start {
            return false;
        }
        done = span.end;
    }
    done <= end
}

/// The bytes with the parts replaced; none if the parts do not follow one another, or are not in the bytes.
pub fn replaced(
    alloc: Global,
    bytes: &[u8],
    parts: &[Replacement],
) -> Result<Option<Vec<u8>>, AllocError>
    ensures some { IfOk result (λ new. IfSome new (λ v. v.items ≡ spec.replaced bytes.now parts.now)) }
    ensures ordered { IfOk result (λ new. IfSome new (λ _. AreInOrder 0 parts.now (length bytes.now))) }
    ensures none { IfOk result (λ new. IfNone new (AreInOrder 0 parts.now (length bytes.now) → ⊥)) }
{
    if !are_in_order(parts, bytes.len()) {
        return Ok(None);
    }
    let mut new = Vec::with_capacity(alloc, bytes.len())?;
    let mut done = 0usize;
    for part in parts {
        new.extend_from_slice(&bytes[done..part.span.start])?;
        new.extend_from_slice(part.text.as_bytes())?;
        done = part.span.end;
    }
    new.extend_from_slice(&bytes[done..])?;
    Ok(Some(new))
}
