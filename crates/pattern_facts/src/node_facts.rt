//! What is known of the matches of one node.
ghost use Rattle.std.specs.Prelude.{◌≡◌, ℕ, ◌*◌, ◌&&◌, true, false, nat_lt, Option, Some};
ghost use Rattle.std.specs.Char.{len_utf8};
ghost use Rattle.class_meaning.specs.CharacterSet.{has_character};
ghost use Rattle.fancy_syntax.specs.View.{view};
ghost use Rattle.pattern_facts.specs.Anchors.{front, back, is_none_anchored, is_row_anchored, is_side, touches};
ghost use Rattle.pattern_facts.specs.Bytes.{AreBytesOfOne};
ghost use Rattle.pattern_facts.specs.Lengths.{ArePut, AreLengths, row_of};
ghost use Rattle.pattern_matches.specs.Lengths.{turns_most};

use crate::lengths::{Lengths, ListKind};
use class_meaning::CharacterSet;
use fancy_syntax::expr::{Assertion, Expr, LookAround};

/// What is known of the matches of a node.
#[derive(Debug, Clone, Copy, PartialEq, Eq)]
pub struct Facts {
    /// How many characters they have.
    pub characters: Lengths,
    /// How many bytes they have in UTF-8.
    pub bytes: Lengths,
    /// Whether each of them begins at the start of the text, because an assertion says so.
    pub is_anchored_at_start: bool,
    /// Whether each of them ends at the end of the text, because an assertion says so.
    pub is_anchored_at_end: bool,
}

/// How many bytes a character has in UTF-8, by its code.
fn bytes_of_code(code: u32) -> usize
    ensures { result ≡ len_utf8 code }
{
    if code < 0x80 {
        1
    } else if code < 0x800 {
        2
    } else if code < 0x1_0000 {
        3
    } else {
        4
    }
}

/// How many bytes a character of the set has at least, and how many at most. One byte stands for those of no character.
fn bytes_of_set(set: &CharacterSet) -> (usize, usize)
    ensures { AreBytesOfOne (λ c. has_character set.now c ≡ true) result.0 result.1 }
{
    match set.class.bounds() {
        Some((first, last)) => (bytes_of_code(first), bytes_of_code(last)),
        None => (1, 1),
    }
}

/// Whether a list of trees is anchored of which some are, or not, and the next one is, or not.
fn both_anchored(kind: ListKind, before: bool, next: bool) -> bool
    ensures { result ≡ is_row_anchored (row_of kind) before next }
{
    match kind {
        ListKind::Concat => before || next,
        ListKind::Alt => before && next,
    }
}

/// Whether a list of no trees is anchored: an alternation without branches is.
pub(crate) fn no_branch(kind: ListKind) -> bool
    ensures { result ≡ is_none_anchored (row_of kind) }
{
    match kind {
        ListKind::Concat => false,
        ListKind::Alt => true,
    }
}

/// Whether the node is the assertion of a text's start.
pub(crate) fn is_text_start(node: &Expr) -> bool
    ensures { result ≡ is_side front (view node.now) }
{
    matches!(node, Expr::Assertion(Assertion::StartText))
}

/// Whether the node is the assertion of a text's end.
pub(crate) fn is_text_end(node: &Expr) -> bool
    ensures { result ≡ is_side back (view node.now) }
{
    matches!(node, Expr::Assertion(Assertion::EndText))
}

/// Whether a repeat is anchored that takes at least `lo` turns, each of which is, or not.
fn turns_anchored(lo: usize, each: bool) -> bool
    ensures { result ≡ (nat_lt 0 lo && each) }
{
    0 < lo && each
}

/// Whether the look-around sees a match that begins where it stands.
fn sees_start(kind: LookAround) -> bool
    ensures { result ≡ touches front kind }
{
    matches!(kind, LookAround::LookAhead)
}

/// Whether the look-around sees a match that ends where it stands.
fn sees_end(kind: LookAround) -> bool
    ensures { result ≡ touches back kind }
{
    matches!(kind, LookAround::LookBehind)
}

impl Facts {
    /// Those of a node of which each match is empty.
    pub(crate) fn empty(is_anchored_at_start: bool, is_anchored_at_end: bool) -> Facts
        ensures characters { AreLengths 0 (Some 0) result.characters }
        ensures bytes { AreLengths 0 (Some 0) result.bytes }
        ensures start { result.is_anchored_at_start ≡ is_anchored_at_start }
        ensures end { result.is_anchored_at_end ≡ is_anchored_at_end }
    {
        Facts {
            characters: Lengths::exactly(0),
            bytes: Lengths::exactly(0),
            is_anchored_at_start,
            is_anchored_at_end,
        }
    }

    /// Those of a node of which each match is a character of the set.
    pub(crate) fn one_of(set: &CharacterSet) -> Facts
        ensures characters { AreLengths 1 (Some 1) result.characters }
        ensures bytes { (n : ℕ) × (m : ℕ) × AreBytesOfOne (λ c. has_character set.now c ≡ true) n m
            × AreLengths n (Some m) result.bytes }
        ensures start { result.is_anchored_at_start ≡ false }
        ensures end { result.is_anchored_at_end ≡ false }
    {
        let (least, greatest) = bytes_of_set(set);
        Facts {
            characters: Lengths::exactly(1),
            bytes: Lengths::between(least, greatest),
            is_anchored_at_start: false,
            is_anchored_at_end: false,
        }
    }

    /// Those of a node of which each match is this character.
    pub(crate) fn of_character(c: char) -> Facts
        ensures characters { AreLengths 1 (Some 1) result.characters }
        ensures bytes { AreLengths (len_utf8 c) (Some (len_utf8 c)) result.bytes }
        ensures start { result.is_anchored_at_start ≡ false }
        ensures end { result.is_anchored_at_end ≡ false }
    {
        Facts {
            characters: Lengths::exactly(1),
            bytes: Lengths::exactly(c.len_utf8()),
            is_anchored_at_start: false,
            is_anchored_at_end: false,
        }
    }

    /// Those of a node of which each match is a character of at least, and at most, so many bytes.
    pub(crate) fn of_bytes(least: usize, greatest: usize) -> Facts
        ensures characters { AreLengths 1 (Some 1) result.characters }
        ensures bytes { AreLengths least (Some greatest) result.bytes }
        ensures start { result.is_anchored_at_start ≡ false }
        ensures end { result.is_anchored_at_end ≡ false }
    {
        Facts {
            characters: Lengths::exactly(1),
            bytes: Lengths::between(least, greatest),
            is_anchored_at_start: false,
            is_anchored_at_end: false,
        }
    }

    /// Those of a look-around for a node with these facts.
    pub(crate) fn looked_for(self, kind: LookAround) -> Facts
        ensures characters { AreLengths 0 (Some 0) result.characters }
        ensures bytes { AreLengths 0 (Some 0) result.bytes }
        ensures start { result.is_anchored_at_start ≡ (touches front kind && self.is_anchored_at_start) }
        ensures end { result.is_anchored_at_end ≡ (touches back kind && self.is_anchored_at_end) }
    {
        Facts::empty(
            sees_start(kind) && self.is_anchored_at_start,
            sees_end(kind) && self.is_anchored_at_end,
        )
    }

    /// Those of at least `lo` and at most `hi` turns of a node with these facts.
    pub(crate) fn repeated(self, lo: usize, hi: usize) -> Facts
        ensures characters { (a : ℕ) (m : Option ℕ) → AreLengths a m self.characters →
            AreLengths (lo * a) (turns_most hi m) result.characters }
        ensures bytes { (a : ℕ) (m : Option ℕ) → AreLengths a m self.bytes →
            AreLengths (lo * a) (turns_most hi m) result.bytes }
        ensures start { result.is_anchored_at_start ≡ (nat_lt 0 lo && self.is_anchored_at_start) }
        ensures end { result.is_anchored_at_end ≡ (nat_lt 0 lo && self.is_anchored_at_end) }
    {
        Facts {
            characters: self.characters.repeated(lo, hi),
            bytes: self.bytes.repeated(lo, hi),
            is_anchored_at_start: turns_anchored(lo, self.is_anchored_at_start),
            is_anchored_at_end: turns_anchored(lo, self.is_anchored_at_end),
        }
    }

    /// Those of a node with these facts, and of one with the other ones after or beside it.
    pub(crate) fn with(self, kind: ListKind, other: Facts) -> Facts
        ensures characters { ArePut kind self.characters other.characters result.characters }
        ensures bytes { ArePut kind self.bytes other.bytes result.bytes }
        ensures start { result.is_anchored_at_start
            ≡ is_row_anchored (row_of kind) self.is_anchored_at_start other.is_anchored_at_start }
        ensures end { result.is_anchored_at_end
            ≡ is_row_anchored (row_of kind) self.is_anchored_at_end other.is_anchored_at_end }
    {
        Facts {
            characters: self.characters.with(kind, other.characters),
            bytes: self.bytes.with(kind, other.bytes),
            is_anchored_at_start: both_anchored(
                kind,
                self.is_anchored_at_start,
                other.is_anchored_at_start,
            ),
            is_anchored_at_end: both_anchored(
                kind,
                self.is_anchored_at_end,
                other.is_anchored_at_end,
            ),
        }
    }
}
