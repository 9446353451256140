//! Ranges from one kind of character to another.
ghost use Rattle.std.specs.Prelude.{◌≡◌, [], ◌∷◌, IfOk, IfSome, IsTrue, OnOk};
ghost use Rattle.class_rules.specs.ClassProblems.{AreOfSeveralKinds, IsBetween, IsRangeAt, IsMixedRange, IsPlainRange, IsWideRange, KeepsProblems};

use crate::class_items::ClassItem;
use crate::class_problem::{CharacterKind, ClassFinding, ClassProblem};
use crate::class_source::{ClassSource, characters_of_source, in_brackets};
use fancy_lex::text::next;
use fancy_syntax::span::Span;
use regex_class::ClassRange;
use std::alloc::AllocError;

/// Whether the only range is that from the one character to the other.
fn is_only(ranges: &[ClassRange], first: char, last: char) -> bool
    ensures { IsTrue result → ranges.now ≡ (first, last) ∷ [] }
{
    let Some((range, rest)) = ranges.split_first() else {
        return false;
    };
    if !rest.is_empty() || range.0 != first as u32 {
        return false;
    }
    range.1 == last as u32
}

/// Whether the part at the span is a range from the one character to the other.
fn is_range_at(
    class: ClassSource<'_>,
    span: Span,
    first: char,
    last: char,
) -> Result<bool, AllocError>
    ensures { IfOk result (λ b. IsTrue b → IsRangeAt class.entry.flags class.entry.source.now span first last) }
{
    let ClassSource {
        alloc,
        source,
        flags,
        ..
    } = class;
    let Some(alone) = in_brackets(alloc, source, span)? else {
        return Ok(false);
    };
    let Some(set) = characters_of_source(alloc, alone.as_str(), false, flags)? else {
        return Ok(false);
    };
    Ok(is_only(set.ranges(), first, last))
}

/// Whether the range has as many bytes as its ends and a hyphen, so that no end is written as an escape.
fn is_plain(span: Span, start: char, end: char) -> bool {
    let ends = start.len_utf8().saturating_add(end.len_utf8());
    span.end.saturating_sub(span.start) == ends.saturating_add(1)
}

/// The ends of the range that the text is, if no end is written as an escape.
pub(crate) fn plain_range(text: &str) -> Option<(char, char)>
    ensures { IfSome result (λ ends. IsPlainRange text.now ends.0 ends.1) }
{
    let (start, rest) = next(text)?;
    let (hyphen, rest) = next(rest)?;
    let (end, rest) = next(rest)?;
    if hyphen == '-' && rest.is_empty() {
        Some((start, end))
    } else {
        None
    }
}

/// Whether the character is between the two, and neither of them.
pub(crate) fn is_between(c: char, start: char, end: char) -> bool
    ensures { IsTrue result → IsBetween start end c }
{
    start < c && c < end
}

/// Whether from the one character to the other are characters of several kinds.
pub(crate) fn are_of_several_kinds(start: char, end: char) -> bool
    ensures { IsTrue result → AreOfSeveralKinds start end }
{
    if CharacterKind::of(start) != CharacterKind::of(end) {
        return true;
    }
    is_between('0', start, end) || is_between('A', start, end) || is_between('a', start, end)
}

/// Whether the part at the span is a range over several kinds of characters, no end of which is written as an escape.
pub(crate) fn is_wide(source: &str, span: Span) -> bool
    ensures { IsTrue result → IsWideRange source.now span }
{
    let Some(text) = span.text(source) else {
        return false;
    };
    match plain_range(text) {
        Some((start, end)) => are_of_several_kinds(start, end),
        None => false,
    }
}

/// The kinds of the ends of the item, if it is a range between characters of different kinds, neither of which is
/// written as an escape.
fn mixed_kinds(
    class: ClassSource<'_>,
    item: ClassItem,
) -> Result<Option<(CharacterKind, CharacterKind)>, AllocError>
    ensures { IfOk result (λ o. IfSome o (λ kinds.
        IsMixedRange class.entry.flags class.entry.source.now item.span kinds.0 kinds.1)) }
{
    let Some((start, end)) = item.ends else {
        return Ok(None);
    };
    let first = CharacterKind::of(start);
    let last = CharacterKind::of(end);
    if !is_plain(item.span, start, end)
        || first == last
        || !is_range_at(class, item.span, start, end)?
    {
        return Ok(None);
    }
    Ok(Some((first, last)))
}

/// Adds the ranges from one kind of character to another.
pub(crate) fn add_mixed(
    class: ClassSource<'_>,
    items: &[ClassItem],
    found: &mut Vec<ClassFinding>,
) -> Result<(), AllocError>
    ensures { OnOk result (KeepsProblems class.entry.flags class.entry.casei class.entry.source.now
        found.old.items found.new.items) }
{
    for item in items {
        let Some((first, last)) = mixed_kinds(class, *item)? else {
            continue;
        };
        found.push(ClassFinding {
            span: item.span,
            problem: ClassProblem::SuspiciousRange { first, last },
        })?;
    }
    Ok(())
}
