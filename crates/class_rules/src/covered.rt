//! Which sets of a list the others contain.
use regex_class::ClassRange;
use std::alloc::{AllocError, Global};
use std::ops::Range;

/// Sets of characters, each as some ranges.
#[derive(Drop)]
pub(crate) struct RangeSets {
    /// The ranges of all of them, one set after another.
    pub(crate) ranges: Vec<ClassRange>,
    /// For each set where its ranges end among these.
    pub(crate) ends: Vec<usize>,
}

impl RangeSets {
    /// The ranges of the set of this index.
    fn ranges_of(&self, index: usize) -> &[ClassRange] {
        let end = self.ends.get(index).copied().unwrap_or(0);
        let start = match index.checked_sub(1) {
            Some(before) => self.ends.get(before).copied().unwrap_or(0),
            None => 0,
        };
        self.ranges.get(start..end).unwrap_or(&[])
    }
}

/// The characters at which a range begins, or after which one ends: they cut the characters into pieces, each of which
/// is in a range as a whole or not at all.
fn borders(alloc: Global, ranges: &[ClassRange]) -> Result<Vec<u32>, AllocError> {
    let mut borders = Vec::new(alloc);
    for (start, end) in ranges {
        borders.push(*start)?;
        borders.push(end.saturating_add(1))?;
    }
    borders.sort_unstable();
    borders.dedup();
    Ok(borders)
}

/// How many of the sets each piece is in.
#[derive(Drop)]
struct PieceCounts {
    borders: Vec<u32>,
    counts: Vec<usize>,
}

impl PieceCounts {
    /// The index of the piece that begins with this character.
    fn piece(&self, start: u32) -> usize {
        self.borders.partition_point(|border| *border < start)
    }

    /// The pieces of the range.
    fn pieces_of(&self, range: ClassRange) -> Range<usize> {
        self.piece(range.0)..self.piece(range.1.saturating_add(1))
    }

    /// Counts a set that has the range.
    fn add_range(&mut self, range: ClassRange) {
        for piece in self.pieces_of(range) {
            if let Some(count) = self.counts.get_mut(piece) {
                *count = count.saturating_add(1);
            }
        }
    }

    /// Counts it no longer.
    fn remove_range(&mut self, range: ClassRange) {
        for piece in self.pieces_of(range) {
            if let Some(count) = self.counts.get_mut(piece) {
                *count = count.saturating_sub(1);
            }
        }
    }

    /// Whether each piece of the range, which a set has that is counted, is in another set too.
    fn is_in_others(&self, range: ClassRange) -> bool {
        for piece in self.pieces_of(range) {
            if self.counts.get(piece).copied().unwrap_or(0) < 2 {
                return false;
            }
        }
        true
    }

    /// Whether each of the ranges, which are those of a set that is counted, is in other sets too.
    fn are_in_others(&self, ranges: &[ClassRange]) -> bool {
        for range in ranges {
            if !self.is_in_others(*range) {
                return false;
            }
        }
        true
    }

    /// Counts all the ranges.
    fn add(&mut self, ranges: &[ClassRange]) {
        for range in ranges {
            self.add_range(*range);
        }
    }

    /// Counts them no longer.
    fn remove(&mut self, ranges: &[ClassRange]) {
        for range in ranges {
            self.remove_range(*range);
        }
    }
}

/// The indexes of sets that the others contain without them, from the last one to the first.
pub(crate) fn covered_sets(alloc: Global, sets: &RangeSets) -> Result<Vec<usize>, AllocError> {
    let borders = borders(alloc, &sets.ranges)?;
    let counts = vec![in alloc; 0usize; borders.len()]?;
    let mut pieces = PieceCounts { borders, counts };
    pieces.add(&sets.ranges);
    let mut covered = Vec::new(alloc);
    for index in (0..sets.ends.len()).rev() {
        let ranges = sets.ranges_of(index);
        if !ranges.is_empty() && pieces.are_in_others(ranges) {
            pieces.remove(ranges);
            covered.push(index)?;
        }
    }
    Ok(covered)
}
