//! Several edits of a pattern's text, put together.
ghost use Rattle.std.specs.Prelude.{◌≡◌, string_bytes, IfOk, IfSome};
ghost use Rattle.pattern_fixes.specs.Edits.{with_edit};

use crate::edit::Edit;
use std::alloc::{AllocError, Global};

/// The edits in the order of the text, without those that overlap an earlier one.
pub(crate) fn apart<'p>(
    alloc: Global,
    mut edits: Vec<Edit<'p>>,
) -> Result<Vec<Edit<'p>>, AllocError> {
    edits.sort_by_key(|edit| edit.span.start)?;
    let mut kept: Vec<Edit<'p>> = Vec::new(alloc);
    let mut end = 0usize;
    for edit in &edits {
        if edit.span.start >= end {
            end = edit.span.end;
            kept.push(*edit)?;
        }
    }
    Ok(kept)
}

/// The text with the edit made; none if the edit is not on a part of the text.
pub(crate) fn with_edit(
    alloc: Global,
    text: &str,
    edit: Edit<'_>,
) -> Result<Option<String>, AllocError>
    ensures value { IfOk result (λ o. IfSome o (λ s. string_bytes s ≡ with_edit text.now edit.entry)) }
{
    let Some(before) = text.get(..edit.span.start) else {
        return Ok(None);
    };
    let Some(after) = text.get(edit.span.end..) else {
        return Ok(None);
    };
    let mut edited = String::from_str(alloc, before)?;
    edited.push_str(edit.text)?;
    edited.push_str(after)?;
    Ok(Some(edited))
}

/// The pattern with the edits made, which are in the order of the text and do not overlap; none if one is not on a part
/// of the pattern. The last one is made first, so that the others stay where they are.
pub(crate) fn with_edits(
    alloc: Global,
    pattern: &str,
    edits: &[Edit<'_>],
) -> Result<Option<String>, AllocError> {
    let mut text = String::from_str(alloc, pattern)?;
    for edit in edits.iter().rev() {
        let Some(edited) = with_edit(alloc, text.as_str(), *edit)? else {
            return Ok(None);
        };
        text = edited;
    }
    Ok(Some(text))
}
