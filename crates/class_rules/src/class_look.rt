//! What a class with needless items is likely meant as.
ghost use Rattle.std.specs.Prelude.{◌≤◌, codes, IfOk, IfSome, IsTrue};
ghost use Rattle.class_rules.specs.ClassProblems.{BeginsAsChoice, HasBar, HasNeedless, HasTwoBackslashes, IsAfterCaret, IsBetweenColons, IsCharacterAt, IsChoiceCharacter, IsWideRange, ShowsLook};
ghost use Rattle.class_rules.specs.ClassSource.{IsAll, IsTextAt};
ghost use Rattle.class_rules.specs.declared.class_problem.ClassLook.TheVariants.{Alternatives, Word};

use crate::class_items::{ClassItem, items_of, push_ranges};
use crate::class_problem::{CharacterKind, ClassFinding, ClassLook, ClassProblem};
use crate::class_source::ClassSource;
use crate::mixed_range::is_wide;
use fancy_lex::text::next;
use fancy_syntax::span::Span;
use regex_class::ClassRange;
use std::alloc::{AllocError, Global};

/// What is likely meant by a class, and the part of the class that shows it.
#[derive(Clone, Copy)]
pub(crate) struct LookAt {
    pub(crate) span: Span,
    pub(crate) look: ClassLook,
}

/// Whether the part at the span is this text.
pub(crate) fn is_text_at(source: &str, span: Span, text: &str) -> bool
    ensures { IsTrue result → IsTextAt source.now span text.now }
{
    let Some(part) = span.text(source) else {
        return false;
    };
    part == text
}

/// The span of all of the text.
fn all_of(source: &str) -> Span
    ensures { IsAll source.now result }
{
    Span {
        start: 0,
        end: source.len(),
    }
}

/// The character that the item is, if it is written as itself.
pub(crate) fn plain_character(source: &str, item: ClassItem) -> Option<char>
    ensures { IfSome result (IsCharacterAt source.now item.span) }
{
    let (c, rest) = next(item.span.text(source)?)?;
    if rest.is_empty() { Some(c) } else { None }
}

/// The text after a caret, if it begins with one, and otherwise the text.
fn after_caret(text: &str) -> &str
    ensures { IsAfterCaret text.now result.now }
{
    match text.strip_prefix("^") {
        Some(rest) => rest,
        None => text,
    }
}

/// Whether the class begins with a colon, which may follow a caret, and ends with one.
fn is_between_colons(source: &str) -> bool
    ensures { IsTrue result → IsBetweenColons source.now }
{
    let Some(text) = source.strip_prefix("[") else {
        return false;
    };
    let Some(rest) = after_caret(text).strip_prefix(":") else {
        return false;
    };
    rest.ends_with(":]")
}

/// Whether a bar is one of the items.
fn has_bar(source: &str, items: &[ClassItem]) -> bool
    ensures { IsTrue result → HasBar source.now }
{
    for item in items {
        if let Some(c) = plain_character(source, *item)
            && c == '|'
        {
            return true;
        }
    }
    false
}

/// Whether the character is a digit or a letter of ASCII, or a bar.
fn is_choice_character(c: char) -> bool
    ensures { IsTrue result → IsChoiceCharacter c }
{
    if CharacterKind::of(c) != CharacterKind::Other {
        return true;
    }
    c == '|'
}

/// Whether the part at the span begins with such a character.
fn begins_as_choice(source: &str, span: Span) -> bool
    ensures { IsTrue result → BeginsAsChoice source.now span }
{
    let Some(text) = span.text(source) else {
        return false;
    };
    match next(text) {
        Some((c, _)) => is_choice_character(c),
        None => false,
    }
}

/// Whether an item can be left out that begins with a bar, a digit or a letter.
fn has_needless_choice(source: &str, findings: &[ClassFinding]) -> bool
    ensures { IsTrue result → HasNeedless Alternatives source.now findings.now }
{
    for one in findings {
        if matches!(one.problem, ClassProblem::DuplicateCharacters)
            && begins_as_choice(source, one.span)
        {
            return true;
        }
    }
    false
}

/// The first escaped backslash of the items from this position on.
fn backslash_from(source: &str, items: &[ClassItem], position: usize) -> Option<Span>
    ensures { IfSome result (λ span. (position ≤ span.start) × IsTextAt source.now span (codes "\\\\")) }
{
    for item in items {
        if position <= item.span.start && is_text_at(source, item.span, r"\\") {
            return Some(item.span);
        }
    }
    None
}

/// Whether an escaped backslash is two of the items.
fn has_two_backslashes(source: &str, items: &[ClassItem]) -> bool
    ensures { IsTrue result → HasTwoBackslashes source.now }
{
    let Some(one) = backslash_from(source, items, 0) else {
        return false;
    };
    let Some(_) = backslash_from(source, items, one.end) else {
        return false;
    };
    true
}

/// Whether a letter or a digit is two of the items.
fn has_twice(alloc: Global, source: &str, items: &[ClassItem]) -> Result<bool, AllocError> {
    let mut characters = Vec::new(alloc);
    for item in items {
        if let Some(c) = plain_character(source, *item)
            && c.is_alphanumeric()
        {
            characters.push(c)?;
        }
    }
    characters.sort_unstable();
    let after = characters.iter().skip(1);
    Ok(
        characters
            .iter()
            .zip(after)
            .any(|(one, other)| one == other),
    )
}

/// The first range over several kinds of characters that has some of these characters.
fn wide_range(source: &str, items: &[ClassItem], ranges: &[ClassRange]) -> Option<Span>
    ensures { IfSome result (IsWideRange source.now) }
{
    for item in items {
        if let Some((start, end)) = item.ends
            && is_wide(source, item.span)
            && ranges
                .iter()
                .any(|range| range.0 <= end as u32 && start as u32 <= range.1)
        {
            return Some(item.span);
        }
    }
    None
}

/// Where the items begin that can be left out, in order.
fn needless_starts(alloc: Global, findings: &[ClassFinding]) -> Result<Vec<usize>, AllocError> {
    let mut starts = Vec::new(alloc);
    for one in findings {
        if one.problem == ClassProblem::DuplicateCharacters {
            starts.push(one.span.start)?;
        }
    }
    starts.sort_unstable();
    Ok(starts)
}

/// The ranges of the characters of the items that can be left out.
fn needless_ranges(
    class: ClassSource<'_>,
    items: &[ClassItem],
    findings: &[ClassFinding],
) -> Result<Vec<ClassRange>, AllocError> {
    let starts = needless_starts(class.alloc, findings)?;
    let mut ranges = Vec::new(class.alloc);
    for item in items {
        if starts.binary_search(&item.span.start).is_ok() {
            push_ranges(class, *item, &mut ranges)?;
        }
    }
    Ok(ranges)
}

/// Whether a range of the class is likely meant as a hyphen.
pub(crate) fn has_hyphen_range(findings: &[ClassFinding]) -> bool {
    for one in findings {
        if one.problem == ClassProblem::HyphenRange {
            return true;
        }
    }
    false
}

/// Whether an item can be left out.
fn has_needless(source: &str, findings: &[ClassFinding]) -> bool
    ensures { IsTrue result → HasNeedless Word source.now findings.now }
{
    for one in findings {
        if matches!(one.problem, ClassProblem::DuplicateCharacters) {
            return true;
        }
    }
    false
}

/// What the class is likely meant as, which has these findings. None if none of its items can be left out, or it seems to
/// be meant as it is, or one of its ranges is reported.
pub(crate) fn class_look(
    class: ClassSource<'_>,
    findings: &[ClassFinding],
) -> Result<Option<LookAt>, AllocError>
    ensures needless { IfOk result (λ o. IfSome o (λ found. HasNeedless found.look class.entry.source.now findings.now)) }
    ensures shows { IfOk result (λ o. IfSome o (λ found. ShowsLook class.entry.source.now found.span found.look)) }
{
    if !has_needless(class.source, findings) || has_hyphen_range(findings) {
        return Ok(None);
    }
    let Some(items) = items_of(class)? else {
        return Ok(None);
    };
    let span = all_of(class.source);
    if is_between_colons(class.source) {
        let look = ClassLook::PosixClass;
        return Ok(Some(LookAt { span, look }));
    }
    if has_two_backslashes(class.source, &items) {
        let look = ClassLook::DoubledBackslashes;
        return Ok(Some(LookAt { span, look }));
    }
    if has_bar(class.source, &items) && has_needless_choice(class.source, findings) {
        let look = ClassLook::Alternatives;
        return Ok(Some(LookAt { span, look }));
    }
    let ranges = needless_ranges(class, &items, findings)?;
    if let Some(span) = wide_range(class.source, &items, &ranges) {
        let look = ClassLook::WideRange;
        return Ok(Some(LookAt { span, look }));
    }
    if has_twice(class.alloc, class.source, &items)? {
        let look = ClassLook::Word;
        return Ok(Some(LookAt { span, look }));
    }
    Ok(None)
}
