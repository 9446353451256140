//! What the children of a node take together.
use crate::figure::Figure;
use crate::size::{RETURN, SIDE, Size};

/// The children of a node, as far as they are measured. Those of a row are in lines.
#[derive(Clone, Copy)]
pub(crate) struct Content {
    figure: Figure,
    /// How wide a child, or a line, may be.
    pub(crate) limit: usize,
    /// The lines before the last one, one above another.
    lines: Option<Size>,
    /// The index of the first child of the last line.
    pub(crate) first: usize,
    /// The last line of a row; for any other figure all children.
    line: Size,
    last: Option<Figure>,
}

impl Content {
    /// That of a node which may be so wide, before its first child, which has this index.
    pub(crate) fn new(figure: Figure, width: usize, first: usize) -> Content {
        Content {
            figure,
            limit: figure.inside(width),
            lines: None,
            first,
            line: Size::EMPTY,
            last: None,
        }
    }

    /// Whether a row has several lines.
    pub(crate) fn is_wrapped(&self) -> bool {
        self.lines.is_some()
    }

    /// The size of the last line of a row.
    pub(crate) fn last_line(&self) -> Option<Size> {
        (self.figure == Figure::Row).then_some(self.line)
    }

    /// Whether the last line of a row ends before a child. Characters stay together in a line up to a quarter wider.
    pub(crate) fn is_full(&self, next: (Figure, Size)) -> bool {
        let Some(last) = self.last else {
            return false;
        };
        let gap = last.gap(next.0);
        let limit = if gap == 0 {
            self.limit.saturating_add(self.limit / 4)
        } else {
            self.limit
        };
        self.figure == Figure::Row && self.line.beside(gap, next.1).width > limit
    }

    /// Begins a line of a row, with the child at this index.
    pub(crate) fn begin_line(&mut self, first: usize) {
        self.lines = Some(match self.lines {
            Some(lines) => lines.above(RETURN, self.line),
            None => self.line,
        });
        self.line = Size::EMPTY;
        self.first = first;
        self.last = None;
    }

    /// Adds a child to the last line.
    pub(crate) fn add(&mut self, next: (Figure, Size)) {
        self.line = self.figure.joined(self.line, self.last, next);
        self.last = Some(next.0);
    }

    /// The size of all, with the rails between lines.
    pub(crate) fn size(&self) -> Size {
        let Some(lines) = self.lines else {
            return self.line;
        };
        let all = lines.above(RETURN, self.line);
        Size {
            width: all.width.saturating_add(3 * SIDE),
            ..all
        }
    }
}
