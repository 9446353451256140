//! The pattern below the picture, in lines and columns.
use crate::size::{COLUMN, LINE};
use crate::text::{Xml, columns_of_char, is_plain};
use fancy_syntax::span::Span;
use std::alloc::{AllocError, Global};
use std::io::Write;
use std::{fmt, io};

/// Where a character is.
#[derive(Clone, Copy, PartialEq, Eq)]
struct Cell {
    line: usize,
    column: usize,
}

/// Where each character of the pattern is, and where the first one is in the picture.
#[derive(Drop)]
pub(crate) struct Grid<'a> {
    pattern: &'a str,
    /// For each byte that of its character, and one for the end.
    cells: Vec<Cell>,
    /// That of the next character.
    next: Cell,
    /// The columns of the longest line.
    columns: usize,
    left: usize,
    top: usize,
}

/// What a node's text covers.
#[derive(Clone, Copy)]
pub(crate) struct Area {
    from: (usize, usize),
    to: (usize, usize),
    left: usize,
    right: usize,
}

impl<'a> Grid<'a> {
    /// The pattern in lines of so many columns, which end at each line feed too.
    pub(crate) fn of(
        alloc: Global,
        pattern: &'a str,
        limit: usize,
        left: usize,
        top: usize,
    ) -> Result<Grid<'a>, AllocError> {
        let mut grid = Grid {
            pattern,
            cells: Vec::with_capacity(alloc, pattern.len().saturating_add(1))?,
            next: Cell { line: 0, column: 0 },
            columns: 0,
            left,
            top,
        };
        for c in pattern.chars() {
            grid.push(c, limit)?;
        }
        let end = grid.next;
        grid.cells.push(end)?;
        Ok(grid)
    }

    /// Begins a line.
    fn end_line(&mut self) {
        self.next = Cell {
            line: self.next.line.saturating_add(1),
            column: 0,
        };
    }

    /// Adds a character.
    fn push(&mut self, c: char, limit: usize) -> Result<(), AllocError> {
        let end = self.next.column.saturating_add(columns_of_char(c));
        if end > limit && self.next.column > 0 {
            self.end_line();
        }
        let bytes = self.cells.len().saturating_add(c.len_utf8());
        let cell = self.next;
        self.cells.resize(bytes, cell)?;
        self.next.column = self.next.column.saturating_add(columns_of_char(c));
        self.columns = self.columns.max(self.next.column);
        if c == '\n' {
            self.end_line();
        }
        Ok(())
    }

    /// Where the character at the byte offset is.
    fn cell(&self, byte: usize) -> Cell {
        self.cells.get(byte).copied().unwrap_or(self.next)
    }

    /// The top left corner of the character at the byte offset, in the picture.
    fn corner(&self, byte: usize) -> (usize, usize) {
        let cell = self.cell(byte);
        let left = cell.column.saturating_mul(COLUMN);
        let top = cell.line.saturating_mul(LINE);
        (self.left.saturating_add(left), self.top.saturating_add(top))
    }

    pub(crate) fn right(&self) -> usize {
        self.left
            .saturating_add(self.columns.saturating_mul(COLUMN))
    }

    pub(crate) fn bottom(&self) -> usize {
        let lines = self.next.line.saturating_add(1);
        self.top.saturating_add(lines.saturating_mul(LINE))
    }

    /// What the text at the span covers.
    pub(crate) fn area(&self, span: Span) -> Area {
        Area {
            from: self.corner(span.start),
            to: self.corner(span.end),
            left: self.left,
            right: self.right(),
        }
    }

    /// Whether what is written at once ends with the character that begins at the byte offset.
    fn ends(&self, start: usize, c: char) -> bool {
        let end = start.saturating_add(c.len_utf8());
        let rest = self.pattern.get(end..).unwrap_or("");
        let is_cut = |next| !is_plain(c) || !is_plain(next);
        rest.chars().next().is_none_or(is_cut) || self.cell(start).line != self.cell(end).line
    }

    /// Writes characters of one line. The first one begins at the byte offset.
    fn write_run<O: Write>(&self, out: &mut O, start: usize, text: &str) -> io::Result<()> {
        let (left, top) = self.corner(start);
        let base = top.saturating_add(17);
        write!(out, "<text class=\"pattern\" x=\"{left}\" y=\"{base}\"")?;
        if text.len() > 1 && text.starts_with(is_plain) {
            let width = text.len().saturating_mul(COLUMN);
            write!(out, " textLength=\"{width}\"")?;
        }
        writeln!(out, ">{}</text>", Xml(text))
    }

    /// Writes the pattern.
    pub(crate) fn write<O: Write>(&self, out: &mut O) -> io::Result<()> {
        let mut start = 0;
        for (i, c) in self.pattern.char_indices() {
            if self.ends(i, c) {
                let end = i.saturating_add(c.len_utf8());
                let text = self.pattern.get(start..end).unwrap_or("");
                self.write_run(out, start, text)?;
                start = end;
            }
        }
        Ok(())
    }
}

/// As the commands of a path.
impl fmt::Display for Area {
    fn fmt<W: fmt::Write>(&self, f: &mut fmt::Formatter<W>) -> fmt::Result {
        let ((from_left, from_top), (to_left, to_top)) = (self.from, self.to);
        let from_bottom = from_top.saturating_add(LINE);
        let to_bottom = to_top.saturating_add(LINE);
        if from_top == to_top {
            return write!(
                f,
                "M{from_left} {from_top}H{to_left}V{to_bottom}H{from_left}z"
            );
        }
        let (left, right) = (self.left, self.right);
        write!(f, "M{from_left} {from_top}H{right}V{to_top}H{to_left}")?;
        write!(f, "V{to_bottom}H{left}V{from_bottom}H{from_left}z")
    }
}
