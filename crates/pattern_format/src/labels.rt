//! What the comments of a pattern are about: the lines that they are in, or that are below them.
use crate::token::{Token, TokenKind, contents, is_layout};
use std::alloc::{AllocError, Global};

/// What is in a line up to a token, or in a group that is opened there.
#[derive(Clone, Copy)]
struct Items {
    /// How many there are, without literal characters and anchors.
    count: usize,
    /// Whether a branch begins with them.
    begins_branch: bool,
    /// Whether anything is there but a bar before it.
    has_text: bool,
    /// Whether a bar is after them.
    ends_branch: bool,
    /// Whether they are in several branches.
    is_over_branches: bool,
}

impl Items {
    /// Nothing, at the beginning of a branch or not.
    fn new(begins_branch: bool) -> Items {
        Items {
            count: 0,
            begins_branch,
            has_text: false,
            ends_branch: false,
            is_over_branches: false,
        }
    }

    /// Adds a part of a branch, which counts or not.
    fn add(&mut self, counts: bool) {
        self.is_over_branches = self.is_over_branches || self.ends_branch;
        self.ends_branch = false;
        self.has_text = true;
        self.count = self.count.saturating_add(counts as usize);
    }

    /// Adds a bar.
    fn add_bar(&mut self) {
        self.ends_branch = self.has_text;
        self.begins_branch = self.begins_branch || !self.has_text;
    }

    /// Whether a comment after them, before these tokens, would be about the last one alone if its line did not end.
    fn are_several(self, after: &[Token<'_>]) -> bool {
        self.is_over_branches
            || self.count > 1
                && !(self.begins_branch && (self.ends_branch || begins_with_branch_end(after)))
    }
}

/// Whether a branch ends before the tokens.
fn begins_with_branch_end(tokens: &[Token<'_>]) -> bool {
    match tokens.iter().find(|token| !is_layout(**token)) {
        Some(next) => matches!(next.kind, TokenKind::Other)
            && next.text.starts_with(|c: char| matches!(c, '|' | ')')),
        None => true,
    }
}

/// Whether the text of a leaf is more than a literal character or an anchor.
fn is_item(text: &str) -> bool {
    match text.strip_prefix('\\') {
        Some(rest) => rest.starts_with(|c: char| c.is_ascii_alphanumeric())
            && !matches!(rest, "A" | "z" | "Z" | "b" | "B" | "G"),
        None => text == "." || text.chars().count() > 1,
    }
}

/// The line of a pattern up to a token.
#[derive(Drop)]
struct Line {
    /// What is before the groups that are open.
    around: Vec<Items>,
    items: Items,
    /// Whether a branch begins after the token.
    is_branch_start: bool,
}

impl Line {
    /// Opens groups, closes them, and adds bars.
    fn pass_between(&mut self, text: &str) -> Result<(), AllocError> {
        for c in text.chars() {
            match c {
                '(' => {
                    self.around.push(self.items)?;
                    self.items = Items::new(true);
                }
                ')' => {
                    self.items = self.around.pop().unwrap_or(Items::new(false));
                    self.items.add(true);
                }
                '|' => self.items.add_bar(),
                _ => {}
            }
        }
        self.is_branch_start = !text.ends_with(')');
        Ok(())
    }

    /// Begins a line.
    fn begin(&mut self) {
        self.around.clear();
        self.items = Items::new(self.is_branch_start);
    }

    /// Passes what is no layout.
    fn pass(&mut self, token: Token<'_>) -> Result<(), AllocError> {
        match token.kind {
            TokenKind::Blank | TokenKind::LineComment | TokenKind::Comment => {}
            TokenKind::Quantifier { .. } => self.is_branch_start = false,
            TokenKind::Leaf { .. } => {
                self.items.add(is_item(token.text));
                self.is_branch_start = false;
            }
            TokenKind::Flags { .. } if token.text.ends_with(')') => {}
            TokenKind::Flags { .. } | TokenKind::Other => self.pass_between(token.text)?,
        }
        Ok(())
    }
}

/// Whether a comment at the end of a line is about several parts of it, and would be about the last one if the line did not end.
pub(crate) fn needs_line_ends(alloc: Global, tokens: &[Token<'_>]) -> Result<bool, AllocError> {
    let mut line = Line {
        around: Vec::new(alloc),
        items: Items::new(true),
        is_branch_start: true,
    };
    for (i, token) in tokens.iter().enumerate() {
        let is_comment = matches!(token.kind, TokenKind::LineComment)
            && contents(token.text) != Some("");
        let after = tokens.get(i.saturating_add(1)..).unwrap_or(&[]);
        if is_comment && line.items.are_several(after) {
            return Ok(true);
        }
        if is_layout(*token) && token.text.contains('\n') {
            line.begin();
        } else if !token.is_needless {
            line.pass(*token)?;
        }
    }
    Ok(false)
}

/// What is in a line of a pattern.
#[derive(Clone, Copy)]
struct Labelled {
    /// Whether a comment is in it, or above it.
    is_labelled: bool,
    has_text: bool,
    /// The index of the blank that ends the line above, and whether that line is labelled.
    above: Option<(usize, bool)>,
}

/// For each of the tokens whether a line that ends in it, without a comment, stays: it or the next one has a comment, or is below
/// one. None ends before a quantifier.
pub(crate) fn kept_line_ends(alloc: Global, tokens: &[Token<'_>]) -> Result<Vec<bool>, AllocError> {
    let mut kept = vec![in alloc; false; tokens.len()]?;
    let mut line = Labelled {
        is_labelled: false,
        has_text: false,
        above: None,
    };
    for (i, token) in tokens.iter().enumerate() {
        let is_comment = matches!(token.kind, TokenKind::LineComment | TokenKind::Comment)
            && contents(token.text) != Some("");
        if !line.has_text && matches!(token.kind, TokenKind::Quantifier { .. }) {
            line.above = None;
        }
        line.is_labelled = line.is_labelled || is_comment;
        line.has_text = line.has_text || !is_layout(*token);
        let ends_line = is_layout(*token) && token.text.contains('\n');
        let is_end = ends_line || i.saturating_add(1) == tokens.len();
        if is_end && (line.is_labelled || line.has_text) {
            if let Some((index, is_labelled)) = line.above
                && let Some(is_kept) = kept.get_mut(index)
            {
                *is_kept = is_labelled || line.is_labelled;
            }
            line = Labelled {
                is_labelled: line.is_labelled && !line.has_text,
                has_text: false,
                above: Some((i, line.is_labelled)),
            };
        }
    }
    Ok(kept)
}
