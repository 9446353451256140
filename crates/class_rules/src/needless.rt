//! Items of a class that the others contain.
ghost use Rattle.std.specs.Prelude.{IfOk, IsTrue, OnOk};
ghost use Rattle.class_rules.specs.ClassProblems.{IsNeedless, KeepsProblems};

use crate::class_items::{ClassItem, push_ranges};
use crate::class_problem::{ClassFinding, ClassProblem};
use crate::class_source::{ClassSource, characters_of_source, without};
use crate::covered::{RangeSets, covered_sets};
use fancy_syntax::span::Span;
use std::alloc::AllocError;

/// How many items of a class are reported.
const MAX_ITEMS: usize = 8;

/// The last of the control characters of ASCII that are beside each other.
const LAST_CONTROL: char = '\x1F';

/// Whether the class has the same characters without the part at the span.
fn is_needless(class: ClassSource<'_>, span: Span) -> Result<bool, AllocError>
    ensures { IfOk result (λ b. IsTrue b → IsNeedless class.entry.flags class.entry.casei class.entry.source.now span) }
{
    let ClassSource {
        alloc,
        source,
        casei,
        flags,
    } = class;
    let Some(kept) = without(alloc, source, span)? else {
        return Ok(false);
    };
    let Some(set) = characters_of_source(alloc, source, casei, flags)? else {
        return Ok(false);
    };
    let Some(other) = characters_of_source(alloc, kept.as_str(), casei, flags)? else {
        return Ok(false);
    };
    if !set.is_subset_of(&other)? {
        return Ok(false);
    }
    let is_within = other.is_subset_of(&set)?;
    Ok(is_within)
}

/// Whether the item is an escape for a control character by its name.
fn is_named_escape(text: &str) -> bool {
    matches!(
        text,
        r"\a" | r"\b" | r"\e" | r"\f" | r"\n" | r"\r" | r"\t" | r"\v"
    )
}

/// Whether the item is a range that ends with the last control character, and contains this one.
fn is_control_range(item: ClassItem, c: char) -> bool {
    match item.ends {
        Some((first, last)) => last == LAST_CONTROL && first <= c,
        None => false,
    }
}

/// Whether the item names a control character that a range of all control characters has, so that it is there for the reader.
fn is_for_the_reader(source: &str, item: ClassItem, items: &[ClassItem]) -> bool {
    let Some((c, _)) = item.ends else {
        return false;
    };
    if !is_named_escape(item.span.text(source).unwrap_or("")) {
        return false;
    }
    for range in items {
        if is_control_range(*range, c) {
            return true;
        }
    }
    false
}

/// The spans of items that seem to be needless, in order.
fn candidates(class: ClassSource<'_>, items: &[ClassItem]) -> Result<Vec<Span>, AllocError> {
    let alloc = class.alloc;
    let mut sets = RangeSets {
        ranges: Vec::new(alloc),
        ends: Vec::new(alloc),
    };
    for item in items {
        push_ranges(class, *item, &mut sets.ranges)?;
        sets.ends.push(sets.ranges.len())?;
    }
    let mut spans = Vec::new(alloc);
    for index in &covered_sets(alloc, &sets)? {
        if spans.len() == MAX_ITEMS {
            break;
        }
        if let Some(item) = items.get(*index)
            && !is_for_the_reader(class.source, *item, items)
        {
            spans.push(item.span)?;
        }
    }
    spans.reverse();
    Ok(spans)
}

/// Adds the items that can be left out: the class has the same characters without any one of them. These are the items
/// that the others contain; of two with the same characters the later one.
pub(crate) fn add_needless(
    class: ClassSource<'_>,
    items: &[ClassItem],
    found: &mut Vec<ClassFinding>,
) -> Result<(), AllocError>
    ensures { OnOk result (KeepsProblems class.entry.flags class.entry.casei class.entry.source.now
        found.old.items found.new.items) }
{
    for span in candidates(class, items)? {
        if !is_needless(class, span)? {
            continue;
        }
        found.push(ClassFinding {
            span,
            problem: ClassProblem::DuplicateCharacters,
        })?;
    }
    Ok(())
}
