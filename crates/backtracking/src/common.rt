//! Characters that several sets have in common.
use class_meaning::CharacterSet;

/// The characters that are taken first for a text.
const FIRST_CHARACTERS: &str =
    "abcdefghijklmnopqrstuvwxyz0123456789 .,;:-_/ABCDEFGHIJKLMNOPQRSTUVWXYZ";

/// The first code point of the set from this one on.
fn next_of(set: &CharacterSet, least: u32) -> Option<u32> {
    let ranges = set.ranges();
    let index = ranges.partition_point(|range| range.1 < least);
    let (start, _) = ranges.get(index)?;
    Some(least.max(*start))
}

/// A code point, from this one on, below which no code point is in all of the sets. It is this one if that is in all.
fn next_of_all(sets: &[&CharacterSet], least: u32) -> Option<u32> {
    let mut next = least;
    for set in sets {
        next = next_of(set, next)?;
    }
    Some(next)
}

/// How many ranges the sets have.
fn count_ranges(sets: &[&CharacterSet]) -> usize {
    let mut count = 0usize;
    for set in sets {
        count = count.saturating_add(set.ranges().len());
    }
    count
}

/// The first code point that is in all of the sets.
fn first_common(sets: &[&CharacterSet]) -> Option<u32> {
    let mut least = 0;
    for _ in 0..=count_ranges(sets) {
        let next = next_of_all(sets, least)?;
        if next == least {
            return Some(next);
        }
        least = next;
    }
    None
}

/// Whether some character is in all of the sets.
pub(crate) fn have_common(sets: &[&CharacterSet]) -> bool {
    first_common(sets).is_some()
}

/// A character that is in all of the sets.
pub(crate) fn some_common(sets: &[&CharacterSet]) -> Option<char> {
    let first = first_common(sets)?;
    for c in FIRST_CHARACTERS.chars() {
        if sets.iter().all(|set| set.contains(c)) {
            return Some(c);
        }
    }
    char::from_u32(first)
}

/// The first code point that is not in the set.
fn first_other(set: &CharacterSet) -> u32 {
    match set.ranges().first() {
        Some((0, end)) => end.saturating_add(1),
        Some(_) | None => 0,
    }
}

/// A character that is not in the set.
pub(crate) fn some_other(set: &CharacterSet) -> Option<char> {
    for c in FIRST_CHARACTERS.chars() {
        if !set.contains(c) {
            return Some(c);
        }
    }
    char::from_u32(first_other(set))
}

/// A character of the set.
pub(crate) fn some_character(set: &CharacterSet) -> Option<char> {
    some_common(&[set])
}
