//! Where a node is in its pattern.
ghost use Rattle.std.specs.Str.Pattern.{GetsRange};

/// The part of a pattern that a node was parsed from, in byte offsets.
#[derive(Debug, Clone, Copy, PartialEq, Eq)]
pub struct Span {
    /// The offset of the first byte.
    pub start: usize,
    /// One past the offset of the last byte.
    pub end: usize,
}

impl Span {
    /// Returns the part of the pattern at this span, or `None` if `start` is after `end`, or one of the two is after the
    /// end of the pattern or within a character.
    pub fn text<'p>(&self, pattern: &'p str) -> Option<&'p str>
        ensures { GetsRange pattern.now self.now.start self.now.end result }
    {
        pattern.get(self.start..self.end)
    }
}
