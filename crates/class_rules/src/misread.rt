//! Bars and hyphens in a class that are likely meant otherwise.
ghost use Rattle.std.specs.Prelude.{◌≡◌, codes, IfSome, IsTrue, OnOk};
ghost use Rattle.fancy_syntax.specs.declared.span.Span.{Span};
ghost use Rattle.class_rules.specs.ClassProblems.{IsBarBetween, IsCharacterAt, IsEscapeAt, IsHyphenRange, IsMeantAsHyphen, IsOverHyphen, IsOverWord, KeepsProblems};
ghost use Rattle.class_rules.specs.ClassSource.{IsTextAt};

use crate::class_items::ClassItem;
use crate::class_look::{is_text_at, plain_character};
use crate::class_problem::{CharacterKind, ClassFinding, ClassProblem};
use crate::class_source::ClassSource;
use crate::mixed_range::{are_of_several_kinds, is_between, plain_range};
use fancy_lex::text::next;
use fancy_syntax::span::Span;
use std::alloc::AllocError;

/// Whether the part at the span begins with a backslash.
fn is_escape(source: &str, span: Span) -> bool
    ensures { IsTrue result → IsEscapeAt source.now span }
{
    let Some(text) = span.text(source) else {
        return false;
    };
    match next(text) {
        Some((c, _)) => c == '\\',
        None => false,
    }
}

/// Whether the item is a bar.
fn is_bar(source: &str, item: ClassItem) -> bool
    ensures { IsTrue result → IsCharacterAt source.now item.span 124 }
{
    match plain_character(source, item) {
        Some(c) => c == '|',
        None => false,
    }
}

/// Whether the second item is a bar, directly between two escapes.
fn is_bar_between(source: &str, one: ClassItem, bar: ClassItem, other: ClassItem) -> bool
    ensures { IsTrue result → IsBarBetween source.now bar.span }
{
    one.span.end == bar.span.start
        && bar.span.end == other.span.start
        && is_bar(source, bar)
        && is_escape(source, one.span)
        && is_escape(source, other.span)
}

/// Whether the item is no range.
fn is_no_range(item: ClassItem) -> bool {
    match item.ends {
        Some((first, last)) => first == last,
        None => true,
    }
}

/// The bar of a class that consists of an escape, a bar and an escape.
fn bar_between(source: &str, items: &[ClassItem]) -> Option<Span>
    ensures { IfSome result (IsBarBetween source.now) }
{
    let [one, bar, other] = items else {
        return None;
    };
    let (one, bar, other) = (*one, *bar, *other);
    if is_no_range(one) && is_no_range(other) && is_bar_between(source, one, bar, other) {
        Some(bar.span)
    } else {
        None
    }
}

/// Adds the bar of a class that seems to be a choice between two escapes.
pub(crate) fn add_bar(
    class: ClassSource<'_>,
    items: &[ClassItem],
    found: &mut Vec<ClassFinding>,
) -> Result<(), AllocError>
    ensures { OnOk result (KeepsProblems class.entry.flags class.entry.casei class.entry.source.now
        found.old.items found.new.items) }
{
    let Some(span) = bar_between(class.source, items) else {
        return Ok(());
    };
    found.push(ClassFinding {
        span,
        problem: ClassProblem::BarBetweenEscapes,
    })?;
    Ok(())
}

/// Whether the range has four to seven characters of punctuation, one of which is the hyphen.
fn is_over_hyphen(start: char, end: char) -> bool
    ensures { IsTrue result → IsOverHyphen start end }
{
    let (first, last) = (start as u32, end as u32);
    is_between('-', start, end) && ')' <= start && end <= '/' && last - first > 2
}

/// Whether `\w` is one of the items.
fn has_word_escape(source: &str, items: &[ClassItem]) -> bool
    ensures { IsTrue result → (span : Span) × IsTextAt source.now span (codes "\\w") }
{
    for item in items {
        if is_text_at(source, item.span, r"\w") {
            return true;
        }
    }
    false
}

/// Whether the range is from punctuation to punctuation, over digits or letters, in a class with `\w`.
fn is_over_word(source: &str, items: &[ClassItem], start: char, end: char) -> bool
    ensures { IsTrue result → IsOverWord source.now start end }
{
    CharacterKind::of(start) == CharacterKind::Other
        && CharacterKind::of(end) == CharacterKind::Other
        && end < '~'
        && are_of_several_kinds(start, end)
        && has_word_escape(source, items)
}

/// Whether the range is likely meant as a hyphen between two characters.
fn is_meant_as_hyphen(source: &str, items: &[ClassItem], start: char, end: char) -> bool
    ensures { IsTrue result → IsMeantAsHyphen source.now start end }
{
    is_over_hyphen(start, end) || is_over_word(source, items, start, end)
}

/// Whether the part at the span is a range between punctuation that is likely meant as a hyphen.
fn is_hyphen_range(source: &str, items: &[ClassItem], span: Span) -> bool
    ensures { IsTrue result → IsHyphenRange source.now span }
{
    let Some(text) = span.text(source) else {
        return false;
    };
    match plain_range(text) {
        Some((start, end)) => is_meant_as_hyphen(source, items, start, end),
        None => false,
    }
}

/// Adds the ranges between punctuation that are likely meant as a hyphen.
pub(crate) fn add_hyphens(
    class: ClassSource<'_>,
    items: &[ClassItem],
    found: &mut Vec<ClassFinding>,
) -> Result<(), AllocError>
    ensures { OnOk result (KeepsProblems class.entry.flags class.entry.casei class.entry.source.now
        found.old.items found.new.items) }
{
    for item in items {
        if !is_hyphen_range(class.source, items, item.span) {
            continue;
        }
        found.push(ClassFinding {
            span: item.span,
            problem: ClassProblem::HyphenRange,
        })?;
    }
    Ok(())
}
