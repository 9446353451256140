//! Pieces of a pattern written over several lines.
use crate::items::Item;
use crate::pieces::{Blanks, Piece, PieceKind};
use crate::sheet::Sheet;
use std::alloc::{AllocError, Global};

/// How many spaces the contents of a group are indented by, and the first of several branches, whose bars are before the
/// others.
const INDENTATION: usize = 2;

/// What is written before the next piece.
#[derive(Clone, Copy, PartialEq, Eq, Debug)]
enum Gap {
    Nothing,
    Space,
    Line,
    BlankLine,
}

/// A group around a position, or the pattern.
#[derive(Clone, Copy)]
struct Level {
    /// How many spaces its lines begin with.
    indent: usize,
    /// Whether it is in one line.
    is_flat: bool,
    /// Whether its lines have as many branches as fit there.
    is_filled: bool,
    /// Whether a line ended in it before.
    has_own_lines: bool,
}

impl Level {
    /// That of a group, or a pattern, which is the item, where its contents are indented by so many spaces.
    fn of(item: Item, indent: usize, is_flat: bool, width: usize) -> Level {
        let inside = indent_in(indent, item.has_branches);
        let rows = item
            .rows
            .filter(|(_, longest)| inside.saturating_add(*longest) <= width);
        let is_one_row = item.has_line_end && rows.is_some_and(|(count, _)| count == 1);
        Level {
            indent: if is_one_row { indent } else { inside },
            is_flat,
            is_filled: item.is_list || item.has_line_end && rows.is_some(),
            has_own_lines: item.has_line_end,
        }
    }
}

/// The lines of a pattern.
#[derive(Drop)]
pub(crate) struct Lines {
    sheet: Sheet,
    /// How many characters the last line has.
    column: usize,
    gap: Gap,
    /// What the last piece is.
    last: Option<PieceKind>,
    /// Whether the last piece is a literal character or its quantifier.
    is_in_word: bool,
    /// The author's blanks before the next piece.
    blanks: Blanks,
    /// How many characters a line may have.
    width: usize,
    levels: Vec<Level>,
    level: Level,
}

/// The indentation of what holds branches, if there are several, or one sequence.
fn indent_in(indent: usize, has_branches: bool) -> usize {
    if has_branches {
        indent.saturating_add(INDENTATION)
    } else {
        indent
    }
}

impl Lines {
    /// Those of a pattern, which is the item, that begins with these flags, or with none.
    pub(crate) fn new(
        alloc: Global,
        flags: &str,
        whole: Item,
        width: usize,
    ) -> Result<Lines, AllocError> {
        Ok(Lines {
            sheet: Sheet::new(alloc, flags)?,
            column: 0,
            gap: Gap::Line,
            last: None,
            is_in_word: false,
            blanks: Blanks::Nothing,
            width,
            levels: Vec::new(alloc),
            level: Level::of(whole, 0, false, width),
        })
    }

    /// Begins a line with so many spaces, after a blank line if that is the gap. A space that ends the line before it is written
    /// otherwise, since it is lost easily.
    fn begin_line(&mut self, indent: usize) -> Result<(), AllocError> {
        if self.sheet.text.ends_with("\\ ") {
            self.sheet.text.pop();
            self.sheet.text.push_str("x20")?;
        }
        if !self.sheet.text.is_empty() && !self.sheet.text.ends_with('\n') {
            self.sheet.text.push('\n')?;
        }
        if self.gap == Gap::BlankLine {
            self.sheet.text.push('\n')?;
        }
        for _ in 0..indent {
            self.sheet.text.push(' ')?;
        }
        self.column = indent;
        Ok(())
    }

    /// Writes what comes before the next piece.
    fn write_gap(&mut self) -> Result<(), AllocError> {
        match self.gap {
            Gap::Nothing => self.write_blanks()?,
            Gap::Space => self.write(" ")?,
            Gap::Line | Gap::BlankLine => self.begin_line(self.level.indent)?,
        }
        self.gap = Gap::Nothing;
        Ok(())
    }

    /// Writes the author's blanks before the next piece.
    fn write_blanks(&mut self) -> Result<(), AllocError> {
        self.column = self.column.saturating_add(self.blanks.width());
        match self.blanks {
            Blanks::Nothing => Ok(()),
            Blanks::Space => Ok(self.sheet.text.push(' ')?),
            Blanks::Column(column) => self.sheet.begin(column, ""),
        }
    }

    /// Writes a text without what comes before it.
    fn write(&mut self, text: &str) -> Result<(), AllocError> {
        self.sheet.text.push_str(text)?;
        self.column = self.column.saturating_add(text.chars().count());
        Ok(())
    }

    /// Whether so many characters fit in the line after the first ones.
    fn fits(&self, column: usize, width: usize) -> bool {
        column.saturating_add(width) <= self.width
    }

    /// Begins a line if so many characters do not fit in this one.
    fn break_before(&mut self, width: usize) {
        let is_open = !self.level.is_flat && self.gap == Gap::Nothing;
        let is_inside = self.column > self.level.indent;
        if is_open
            && is_inside
            && !self.fits(self.column, self.blanks.width().saturating_add(width))
        {
            self.gap = Gap::Line;
        }
    }

    /// Writes a literal character, in a word or not. No word is broken.
    fn push_literal(&mut self, text: &str, item: Item) -> Result<(), AllocError> {
        if !self.is_in_word || self.blanks != Blanks::Nothing {
            self.break_before(item.width);
        }
        self.is_in_word = true;
        self.write_gap()?;
        self.write(text)
    }

    /// Writes a piece that nothing is in.
    fn push_atom(&mut self, text: &str, item: Item) -> Result<(), AllocError> {
        self.break_before(item.width);
        self.write_gap()?;
        self.write(text)
    }

    /// Writes a comment through the end of its line.
    fn push_line_comment(&mut self, text: &str, is_alone: bool) -> Result<(), AllocError> {
        match self.blanks {
            Blanks::Column(column) if is_alone => {
                self.gap = Gap::Line;
                self.begin_line(0)?;
                self.sheet.begin(column, "")?;
            }
            Blanks::Nothing | Blanks::Space | Blanks::Column(_) if is_alone => self.write_gap()?,
            Blanks::Nothing | Blanks::Space | Blanks::Column(_) => self.write_blanks()?,
        }
        self.write(text)?;
        self.gap = Gap::Line;
        Ok(())
    }

    /// Ends a line, if something is in it, after a piece of this kind. Of blank lines one stays, except at the beginning of a
    /// pattern or group.
    fn end_line(&mut self, has_blank_line: bool, last: Option<PieceKind>) {
        if self.gap == Gap::Nothing && self.column > self.level.indent {
            self.gap = Gap::Line;
        }
        let is_begun = !self.sheet.text.is_empty()
            && !matches!(last, Some(PieceKind::Opening { .. }));
        if has_blank_line && is_begun && self.gap == Gap::Line {
            self.gap = Gap::BlankLine;
        }
    }

    /// Writes the opening of a group, which stays in one line if it fits there. Returns false if it can be in no line.
    fn push_opening(
        &mut self,
        piece: &Piece,
        item: Item,
        can_break: bool,
    ) -> Result<bool, AllocError> {
        if !item.has_line_end {
            self.break_before(item.width);
        }
        self.write_gap()?;
        let is_short = self.fits(self.column, item.width) || !can_break;
        let is_flat = self.level.is_flat || is_short && !item.has_line_end;
        self.write(piece.text.as_str())?;
        let inside = self.level.indent.saturating_add(INDENTATION);
        self.levels.push(self.level)?;
        self.level = Level::of(item, inside, is_flat, self.width);
        if !is_flat {
            self.gap = Gap::Line;
        }
        Ok(can_break || !item.has_line_end)
    }

    /// Writes the parenthesis that closes a group.
    fn push_closing(&mut self) -> Result<(), AllocError> {
        let closed = self.level;
        if let Some(level) = self.levels.pop() {
            self.level = level;
        }
        if !closed.is_flat {
            self.gap = Gap::Line;
        }
        self.write_gap()?;
        self.write(")")?;
        if !closed.is_flat && !closed.has_own_lines {
            self.gap = Gap::Line;
        }
        Ok(())
    }

    /// Whether a bar is in the line of the branch before it, with the branch after it, which has so many characters.
    fn is_in_row(&self, width: usize) -> bool {
        let end = self
            .column
            .saturating_add(self.blanks.width())
            .saturating_add(1);
        self.level.is_flat
            || self.level.is_filled && self.gap == Gap::Nothing && self.fits(end, width)
    }

    /// Writes the bar between two branches.
    fn push_bar(&mut self, item: Item) -> Result<(), AllocError> {
        if self.is_in_row(item.width) {
            self.write_gap()?;
            return self.write("|");
        }
        self.begin_line(self.level.indent.saturating_sub(INDENTATION))?;
        self.write("|")?;
        self.gap = Gap::Space;
        Ok(())
    }

    /// Writes a quantifier. It follows what it repeats, also after a comment.
    fn push_quantifier(&mut self, text: &str) -> Result<(), AllocError> {
        if self.sheet.text.ends_with('\n') {
            self.write_gap()?;
        } else {
            self.write_blanks()?;
        }
        self.write(text)
    }

    /// Writes a piece, with which the item begins. Returns false if the pattern cannot be written.
    pub(crate) fn push(&mut self, piece: &Piece, item: Item) -> Result<bool, AllocError> {
        let text = piece.text.as_str();
        let last = self.last;
        self.last = Some(piece.kind);
        self.blanks = piece.blanks;
        self.is_in_word = self.is_in_word
            && matches!(piece.kind, PieceKind::Literal | PieceKind::Quantifier);
        match piece.kind {
            PieceKind::Literal => self.push_literal(text, item)?,
            PieceKind::Atom | PieceKind::Flags | PieceKind::Comment => self.push_atom(text, item)?,
            PieceKind::Opening { can_break } => return self.push_opening(piece, item, can_break),
            PieceKind::Closing => self.push_closing()?,
            PieceKind::Bar => self.push_bar(item)?,
            PieceKind::Quantifier => self.push_quantifier(text)?,
            PieceKind::LineComment { is_alone } => self.push_line_comment(text, is_alone)?,
            PieceKind::LineEnd { has_blank_line } => self.end_line(has_blank_line, last),
        }
        Ok(true)
    }

    /// The whole text. It ends with a line if the pattern does.
    pub(crate) fn end(mut self) -> Result<String, AllocError> {
        if matches!(self.last, Some(PieceKind::LineEnd { .. })) && !self.sheet.text.is_empty() {
            self.gap = Gap::Line;
            self.begin_line(0)?;
        }
        self.sheet.end()
    }
}
