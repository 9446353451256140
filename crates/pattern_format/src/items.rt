//! How wide the parts of a pattern are that is laid out anew.
use crate::pieces::{Piece, PieceKind};
use std::alloc::{AllocError, Global};

/// From how many branches on words are a list that fills lines.
const MIN_LIST: usize = 6;

/// How many characters a branch of a list may have.
const MAX_WORD: usize = 24;

/// What begins with a piece: a group with all that it holds, or the piece alone, and the quantifiers after it.
#[derive(Clone, Copy, PartialEq, Eq, Debug)]
pub(crate) struct Item {
    /// How many characters it has, without blanks before it. A literal character has the word that begins with it, and a bar
    /// the branch after it.
    pub(crate) width: usize,
    /// Whether a line ends in it.
    pub(crate) has_line_end: bool,
    /// Whether it is a group with several branches.
    pub(crate) has_branches: bool,
    /// Whether these are many short words.
    pub(crate) is_list: bool,
    /// How many lines the branches are in, and how many characters the longest has; None if a branch is in several ones.
    pub(crate) rows: Option<(usize, usize)>,
}

const EMPTY: Item = Item {
    width: 0,
    has_line_end: false,
    has_branches: false,
    is_list: false,
    rows: None,
};

impl Item {
    /// The piece alone.
    fn of(piece: &Piece) -> Item {
        Item {
            width: piece.text.chars().count(),
            has_line_end: matches!(
                piece.kind,
                PieceKind::LineComment { .. } | PieceKind::LineEnd { .. }
            ),
            ..EMPTY
        }
    }

    /// The item with another one after it, or in it.
    fn with(self, other: Item) -> Item {
        Item {
            width: self.width.saturating_add(other.width),
            has_line_end: self.has_line_end || other.has_line_end,
            ..self
        }
    }

    /// The item after so many blanks.
    fn after(self, blanks: usize) -> Item {
        Item {
            width: self.width.saturating_add(blanks),
            ..self
        }
    }
}

/// A group, or the pattern, from a piece on.
#[derive(Clone, Copy)]
struct Part {
    item: Item,
    bars: usize,
    /// How many characters the branch has that the piece is in.
    branch: usize,
    /// How many characters the line has that the piece is in.
    row: usize,
    /// The lines after it that are not empty.
    rows: usize,
    /// How many characters the longest of these has.
    longest_row: usize,
    /// Whether a branch is in several lines.
    is_over_lines: bool,
    /// Whether the next piece is in a branch.
    is_before_text: bool,
    /// Whether a line ends here before a piece that is in a branch.
    is_broken: bool,
    /// Whether its branches are short words.
    has_words: bool,
}

impl Part {
    /// One that begins with the item, from its end.
    fn of(item: Item) -> Part {
        Part {
            item,
            bars: 0,
            branch: 0,
            row: 0,
            rows: 0,
            longest_row: 0,
            is_over_lines: false,
            is_before_text: false,
            is_broken: false,
            has_words: true,
        }
    }

    /// Ends the line before the pieces that were added.
    fn end_row(&mut self) {
        if self.row > 0 {
            self.rows = self.rows.saturating_add(1);
            self.longest_row = self.longest_row.max(self.row);
        }
        self.row = 0;
        self.is_broken = self.is_broken || self.is_before_text;
    }

    /// Adds an item of a branch, before the others.
    fn add_text(&mut self, item: Item, is_word: bool) {
        self.is_over_lines = self.is_over_lines || self.is_broken || item.has_line_end;
        self.row = self.row.saturating_add(item.width);
        self.branch = self.branch.saturating_add(item.width);
        self.has_words = self.has_words && is_word && self.branch <= MAX_WORD;
        self.is_before_text = true;
    }

    /// Adds inline flags, before the others. They may have a line of their own.
    fn add_flags(&mut self, item: Item) {
        let is_broken = self.is_broken;
        self.is_broken = false;
        self.add_text(item, true);
        self.is_broken = is_broken;
    }

    /// Adds a bar with the blanks before it. Returns how many characters the branch after it has.
    fn add_bar(&mut self, width: usize) -> usize {
        let branch = self.branch;
        self.is_over_lines = self.is_over_lines || self.is_broken;
        self.row = self.row.saturating_add(width);
        self.branch = 0;
        self.bars = self.bars.saturating_add(1);
        self.is_before_text = false;
        branch
    }

    /// The whole.
    fn end(mut self) -> Item {
        self.is_before_text = false;
        self.end_row();
        let is_whole = !self.is_over_lines;
        Item {
            has_branches: self.bars > 0,
            is_list: is_whole && self.has_words && self.bars.saturating_add(1) >= MIN_LIST,
            rows: is_whole.then_some((self.rows, self.longest_row)),
            ..self.item
        }
    }
}

/// The items of a pattern from a piece on.
#[derive(Drop)]
struct Items {
    /// Those that begin at the pieces, from the last one.
    items: Vec<Item>,
    /// The groups around the piece, as far as they are after it.
    open: Vec<Part>,
    /// The quantifiers after the piece.
    quantifiers: Item,
    /// How many characters the word has that begins after the piece: literal characters with their quantifiers.
    word: usize,
    /// The pattern.
    whole: Part,
}

impl Items {
    /// The innermost group around, or the pattern.
    fn around(&mut self) -> &mut Part {
        match self.open.last_mut() {
            Some(group) => group,
            None => &mut self.whole,
        }
    }

    /// Adds an item of a branch to what is around it, after so many blanks.
    fn push(&mut self, item: Item, blanks: usize, is_word: bool) -> Result<(), AllocError> {
        let around = self.around();
        around.item = around.item.with(item.after(blanks));
        around.add_text(item.after(blanks), is_word);
        self.items.push(item)?;
        Ok(())
    }

    /// Adds a literal character with its quantifiers, before a word.
    fn push_literal(&mut self, item: Item, blanks: usize, word: usize) -> Result<(), AllocError> {
        self.push(item, blanks, true)?;
        let width = item.width.saturating_add(word);
        if let Some(last) = self.items.last_mut() {
            last.width = width;
        }
        self.word = if blanks > 0 { 0 } else { width };
        Ok(())
    }

    /// Adds the end of a line.
    fn push_line_end(&mut self, item: Item) -> Result<(), AllocError> {
        let around = self.around();
        around.item = around.item.with(item);
        around.end_row();
        self.items.push(item)?;
        Ok(())
    }

    /// Adds a bar.
    fn push_bar(&mut self, item: Item, blanks: usize) -> Result<(), AllocError> {
        let around = self.around();
        around.item = around.item.with(item.after(blanks));
        let width = around.add_bar(item.width.saturating_add(blanks));
        self.items.push(Item { width, ..item })?;
        Ok(())
    }

    /// Adds the piece, which is before the others. Returns false if it opens a group that nothing closes.
    fn add(&mut self, piece: &Piece) -> Result<bool, AllocError> {
        let item = Item::of(piece);
        let blanks = piece.blanks.width();
        let quantifiers = self.quantifiers;
        let word = self.word;
        self.quantifiers = EMPTY;
        self.word = 0;
        match piece.kind {
            PieceKind::Quantifier => {
                self.word = word;
                self.quantifiers = item.after(blanks).with(quantifiers);
                self.items.push(item)?;
            }
            PieceKind::Closing => {
                self.open
                    .push(Part::of(item.after(blanks).with(quantifiers)))?;
                self.items.push(item)?;
            }
            PieceKind::Opening { .. } => {
                let Some(group) = self.open.pop() else {
                    return Ok(false);
                };
                self.push(group.end().with(item), blanks, false)?;
            }
            PieceKind::Bar => self.push_bar(item, blanks)?,
            PieceKind::Literal => self.push_literal(item.with(quantifiers), blanks, word)?,
            PieceKind::Atom => self.push(item.with(quantifiers), blanks, true)?,
            PieceKind::Comment => self.push(item.with(quantifiers), blanks, false)?,
            PieceKind::Flags => {
                let around = self.around();
                around.item = around.item.with(item.after(blanks));
                around.add_flags(item.after(blanks));
                self.items.push(item)?;
            }
            PieceKind::LineComment { .. } | PieceKind::LineEnd { .. } => self.push_line_end(item)?,
        }
        Ok(true)
    }
}

/// The items that begin at the pieces, and then the whole pattern. None if not each group is closed.
pub(crate) fn items_of(
    alloc: Global,
    pieces: &[Piece],
) -> Result<Option<(Vec<Item>, Item)>, AllocError> {
    let mut found = Items {
        items: Vec::with_capacity(alloc, pieces.len())?,
        open: Vec::new(alloc),
        quantifiers: EMPTY,
        word: 0,
        whole: Part::of(EMPTY),
    };
    for piece in pieces.iter().rev() {
        if !found.add(piece)? {
            return Ok(None);
        }
    }
    if !found.open.is_empty() {
        return Ok(None);
    }
    found.items.reverse();
    Ok(Some((found.items, found.whole.end())))
}
