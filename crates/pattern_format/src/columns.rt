//! The columns that an author aligned tokens in.
use crate::spelling::has_operator;
use crate::tab_stops::column_after;
use crate::token::{Column, Token, TokenKind};
use std::alloc::{AllocError, Global};

/// How many characters a comment may be beside the column that it is meant to be in.
const MAX_SLIP: usize = 2;

/// A token with blanks before it in its line.
#[derive(Clone, Copy)]
struct Cell {
    /// The index of the token.
    token: usize,
    /// Its line, from 1 on.
    line: usize,
    column: Column,
    /// Whether the tokens of its column are aligned if one is so.
    is_wide: bool,
    /// Whether it stays in its column, even if no other token is in it.
    is_fixed: bool,
}

/// The cells of a pattern up to a token.
#[derive(Drop)]
struct Walk {
    alloc: Global,
    /// Whether a line ends in the pattern.
    has_lines: bool,
    cells: Vec<Cell>,
    comments: Vec<Cell>,
    /// The counts of quantifiers, each of which is wide if no operator has them.
    counts: Vec<Cell>,
    line: usize,
    /// How many characters are before in the line.
    column: usize,
    /// How many of them are blanks right before.
    blanks: usize,
    /// The first of the lines without a blank one between.
    first_line: usize,
    /// Whether nothing but blanks is before in the line.
    is_line_start: bool,
    /// Whether nothing but a bar is before in the line, and blanks.
    is_after_first_bar: bool,
    /// The line of the last comment through the end of its line, after a token or below such a one, and its column.
    comment: Option<(usize, usize)>,
    /// The column of the last comment of these lines that is in another column.
    other: Option<usize>,
    /// The first line with a token that stays, and the last one.
    lines: Option<(usize, usize)>,
}

impl Walk {
    /// Nothing is passed yet of a pattern over several lines, or in one.
    fn new(alloc: Global, has_lines: bool) -> Walk {
        Walk {
            alloc,
            has_lines,
            cells: Vec::new(alloc),
            comments: Vec::new(alloc),
            counts: Vec::new(alloc),
            line: 1,
            column: 0,
            blanks: 0,
            first_line: 1,
            is_line_start: true,
            is_after_first_bar: false,
            comment: None,
            other: None,
            lines: None,
        }
    }

    /// Passes blanks.
    fn pass_blanks(&mut self, text: &str) {
        let start = self.column;
        let breaks = text.matches('\n').count();
        self.column = column_after(start, text);
        self.line = self.line.saturating_add(breaks);
        if breaks > 1 || breaks == 1 && self.is_line_start {
            self.first_line = self.line;
            self.other = None;
        }
        self.is_line_start = self.is_line_start || breaks > 0;
        self.blanks = self
            .column
            .saturating_sub(if breaks > 0 { 0 } else { start });
    }

    /// Whether a comment that is alone in its line belongs to the one above it: it begins in its column, or in another one of
    /// comments before.
    fn is_below_comment(&self) -> bool {
        match self.comment {
            Some((line, column)) => line.saturating_add(1) == self.line
                && (column == self.column || self.other == Some(self.column)),
            None => false,
        }
    }

    /// Adds a comment through the end of its line.
    fn add_comment(&mut self, token: usize) -> Result<(), AllocError> {
        let start = self.column;
        let is_aligned = !self.is_line_start || self.is_below_comment();
        if let Some((_, column)) = self.comment
            && column != start
        {
            self.other = Some(column);
        }
        self.comment = is_aligned.then_some((self.line, start));
        if self.blanks > 0 && is_aligned {
            let column = Column {
                start,
                number: self.first_line,
                blanks: self.blanks,
            };
            self.comments.push(Cell {
                token,
                line: self.line,
                column,
                is_wide: true,
                is_fixed: true,
            })?;
        }
        Ok(())
    }

    /// Adds what is no comment through the end of its line.
    fn add_cell(&mut self, token: usize) -> Result<(), AllocError> {
        if self.blanks > 0 && !self.is_line_start {
            let column = Column {
                start: self.column,
                number: 0,
                blanks: self.blanks,
            };
            let is_fixed = self.is_after_first_bar;
            self.cells.push(Cell {
                token,
                line: self.line,
                column,
                is_wide: self.blanks > 1,
                is_fixed,
            })?;
        }
        Ok(())
    }

    /// Adds a quantifier, if it has counts.
    fn add_counts(&mut self, token: usize, text: &str) -> Result<(), AllocError> {
        let Some(has_operator) = has_operator(self.alloc, text)? else {
            return Ok(());
        };
        let column = Column {
            start: self.column,
            number: 0,
            blanks: 0,
        };
        self.counts.push(Cell {
            token,
            line: self.line,
            column,
            is_wide: !has_operator,
            is_fixed: false,
        })?;
        Ok(())
    }

    /// Passes a token with the index.
    fn pass(&mut self, index: usize, token: Token<'_>) -> Result<(), AllocError> {
        let text = token.text;
        if let TokenKind::Blank = token.kind {
            self.pass_blanks(text);
            return Ok(());
        }
        if !token.is_needless {
            let first = self.lines.map_or(self.line, |(first, _)| first);
            self.lines = Some((first, self.line));
        }
        if let TokenKind::LineComment = token.kind {
            self.add_comment(index)?;
        } else if !token.is_needless {
            self.add_cell(index)?;
        }
        if self.has_lines && matches!(token.kind, TokenKind::Quantifier { .. }) {
            self.add_counts(index, text)?;
        }
        self.is_after_first_bar = self.is_line_start && text == "|";
        self.is_line_start = text.ends_with('\n');
        self.blanks = 0;
        self.column = column_after(self.column, text);
        self.line = self.line.saturating_add(text.matches('\n').count());
        Ok(())
    }
}

/// How many of the cells, in the order of the text, are before the column in the line.
fn count_before(cells: &[Cell], line: usize, start: usize) -> usize {
    let mut count = 0usize;
    for cell in cells {
        if (cell.line, cell.column.start) >= (line, start) {
            break;
        }
        count = count.saturating_add(1);
    }
    count
}

/// Numbers the columns of cells. Tokens of lines one after another that begin in the same column are aligned. Returns for each
/// column whether one of its cells is wide.
fn number_columns(alloc: Global, cells: &mut Vec<Cell>) -> Result<Vec<bool>, AllocError> {
    let mut are_wide: Vec<bool> = Vec::new(alloc);
    let mut numbered: Vec<Cell> = Vec::with_capacity(alloc, cells.len())?;
    let mut above = 0usize;
    for cell in cells.iter() {
        let mut cell = *cell;
        let start = cell.column.start;
        let line = cell.line.saturating_sub(1);
        above = above.saturating_add(count_before(
            numbered.get(above..).unwrap_or(&[]),
            line,
            start,
        ));
        cell.column.number = match numbered.get(above) {
            Some(other) if other.line < cell.line && other.column.start == start => other
                .column
                .number,
            _ => {
                are_wide.push(false)?;
                are_wide.len().saturating_sub(1)
            }
        };
        if let Some(is_wide) = are_wide.get_mut(cell.column.number) {
            *is_wide = *is_wide || cell.is_wide;
        }
        numbered.push(cell)?;
    }
    *cells = numbered;
    Ok(are_wide)
}

/// Whether the cell stays in its column.
fn is_aligned(cell: Cell, are_wide: &[bool]) -> bool {
    cell.is_fixed
        || are_wide
            .get(cell.column.number)
            .is_some_and(|is_wide| *is_wide)
}

/// Sets the column of the token of a cell.
fn set_column(tokens: &mut [Token<'_>], cell: Cell) {
    if let Some(token) = tokens.get_mut(cell.token) {
        token.column = Some(cell.column);
    }
}

/// Lets the counts stay that are in a column with some that no operator has.
fn keep_counts(
    alloc: Global,
    tokens: &mut [Token<'_>],
    counts: Vec<Cell>,
) -> Result<(), AllocError> {
    let mut counts = counts;
    let are_wide = number_columns(alloc, &mut counts)?;
    for cell in counts.iter() {
        if is_aligned(*cell, &are_wide)
            && let Some(token) = tokens.get_mut(cell.token)
        {
            token.kind = TokenKind::Quantifier { keeps_counts: true };
        }
    }
    Ok(())
}

/// Whether a comment is in the column of another one, or so near it that it is meant to be there. Unless it is in it, they have not
/// as many blanks before them. `joined` is where the column of the other one begins.
fn is_near(column: Column, other: Column, joined: usize) -> bool {
    column.number == other.number
        && column.start.abs_diff(joined) <= MAX_SLIP
        && (column.start == other.start || column.blanks != other.blanks)
}

/// Joins the columns of comments that are near each other.
pub(crate) fn join_columns(tokens: &mut [Token<'_>]) {
    let mut last: Option<(Column, usize)> = None;
    for token in tokens.iter_mut() {
        if let (TokenKind::LineComment, Some(column)) = (token.kind, token.column) {
            let start = match last {
                Some((other, joined)) if is_near(column, other, joined) => joined,
                Some(_) | None => column.start,
            };
            last = Some((column, start));
            token.column = Some(Column { start, ..column });
        }
    }
}

/// Sets the columns of the tokens of a pattern: those of comments at the ends of lines, and those that tokens are aligned in.
pub(crate) fn set_columns(alloc: Global, tokens: &mut [Token<'_>]) -> Result<(), AllocError> {
    let has_lines = tokens.iter().any(|token| token.text.contains('\n'));
    let mut walk = Walk::new(alloc, has_lines);
    for (i, token) in tokens.iter().enumerate() {
        walk.pass(i, *token)?;
    }
    let Walk {
        mut cells,
        comments,
        counts,
        lines,
        ..
    } = walk;
    if lines.is_some_and(|(first, last)| first == last) {
        cells.clear();
    }
    let are_wide = number_columns(alloc, &mut cells)?;
    for cell in cells.iter() {
        if is_aligned(*cell, &are_wide) {
            set_column(tokens, *cell);
        }
    }
    for cell in comments.iter() {
        set_column(tokens, *cell);
    }
    keep_counts(alloc, tokens, counts)
}
