//! How large the parts of a picture are, in pixels.

/// The width of a column of the font of texts.
pub(crate) const COLUMN: usize = 9;
/// The width of a column of the font of words.
pub(crate) const WORD_COLUMN: usize = 7;
/// The height of a line of text.
pub(crate) const LINE: usize = 24;
/// The height of a line of words.
pub(crate) const WORD_LINE: usize = 16;
/// Between boxes, and between a box and what is in it.
pub(crate) const GAP: usize = 12;
/// What the rails round a loop, or of a fork, take at either side.
pub(crate) const SIDE: usize = 20;
/// From a box to the rail that passes it.
pub(crate) const PASS: usize = 8;
/// Between two lines of a row, where the rail runs back.
pub(crate) const RETURN: usize = 2 * PASS;
/// The least width that is left for the children of a node.
const NARROWEST: usize = 240;
/// What is written before a part of a conditional.
pub(crate) const ROLE: usize = 60;

/// A width without so much at its sides, but not too narrow.
pub(crate) fn narrowed(width: usize, sides: usize) -> usize {
    width.saturating_sub(sides).max(NARROWEST)
}

/// The size of a part.
#[derive(Clone, Copy)]
pub(crate) struct Size {
    pub(crate) width: usize,
    pub(crate) height: usize,
    /// From its top to the rail that runs through it.
    pub(crate) rail: usize,
}

impl Size {
    /// A part without content.
    pub(crate) const EMPTY: Size = Size {
        width: 0,
        height: 0,
        rail: 0,
    };

    /// A line of text of so many columns, with so much at either side.
    pub(crate) fn of_text(columns: usize, padding: usize) -> Size {
        let width = columns.max(1).saturating_mul(COLUMN);
        Size {
            width: width.saturating_add(padding.saturating_mul(2)),
            height: LINE,
            rail: LINE / 2,
        }
    }

    /// As wide as words of so many columns, with a gap at either side.
    pub(crate) fn widened(self, columns: usize) -> Size {
        let words = columns.saturating_mul(WORD_COLUMN);
        Size {
            width: self.width.max(words.saturating_add(GAP)),
            ..self
        }
    }

    /// With a line of words below.
    pub(crate) fn captioned(self, columns: usize) -> Size {
        if columns == 0 {
            return self;
        }
        self.widened(columns).within(0, 0, WORD_LINE)
    }

    /// With so much at either side, above and below.
    pub(crate) fn within(self, side: usize, above: usize, below: usize) -> Size {
        Size {
            width: self.width.saturating_add(side.saturating_mul(2)),
            height: self.height.saturating_add(above).saturating_add(below),
            rail: self.rail.saturating_add(above),
        }
    }

    /// With another to its right, on the same rail.
    pub(crate) fn beside(self, gap: usize, other: Size) -> Size {
        let rail = self.rail.max(other.rail);
        let below = self.height.saturating_sub(self.rail);
        let other_below = other.height.saturating_sub(other.rail);
        Size {
            width: self.width.saturating_add(gap).saturating_add(other.width),
            height: rail.saturating_add(below.max(other_below)),
            rail,
        }
    }

    /// With another below it.
    pub(crate) fn above(self, gap: usize, other: Size) -> Size {
        Size {
            width: self.width.max(other.width),
            height: self.height.saturating_add(gap).saturating_add(other.height),
            rail: self.rail,
        }
    }
}
