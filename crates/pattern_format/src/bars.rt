//! Bars that begin lines, in one line with the comments above them.
use crate::token::{Token, TokenKind, begins_with_line_end};
use std::alloc::{AllocError, Global};

/// The tokens of a pattern up to one of them.
#[derive(Drop)]
struct Moved<'p> {
    tokens: Vec<Token<'p>>,
    /// Whether nothing but blanks is before in the line.
    is_line_start: bool,
    /// How many tokens are before the lines above that have nothing but comments; None if there are no such lines.
    before_comments: Option<usize>,
}

impl<'p> Moved<'p> {
    /// Adds a comment, which may be the last token of its line. One that is alone there is about what is below it, unless it goes on
    /// in the column of one above.
    fn push_comment(&mut self, comment: Token<'p>, ends_line: bool) -> Result<(), AllocError> {
        let is_above = self.is_line_start && ends_line && comment.column.is_none();
        self.before_comments = if is_above {
            self.before_comments.or(Some(self.tokens.len()))
        } else {
            None
        };
        self.is_line_start = comment.text.ends_with('\n');
        self.tokens.push(comment)?;
        Ok(())
    }

    /// Adds what is neither blank nor a comment. A bar that begins a line comes before the comments above it.
    fn push_other(&mut self, token: Token<'p>) -> Result<(), AllocError> {
        let is_first_bar = self.is_line_start && token.text == "|";
        let index = self.before_comments.filter(|_| is_first_bar);
        self.is_line_start = token.text.ends_with('\n');
        self.before_comments = None;
        match index {
            Some(index) if index <= self.tokens.len() => self.tokens.insert(index, token)?,
            Some(_) | None => self.tokens.push(token)?,
        }
        Ok(())
    }

    /// Adds a token, which may be the last one of its line.
    fn push(&mut self, token: Token<'p>, ends_line: bool) -> Result<(), AllocError> {
        match token.kind {
            TokenKind::Blank => {
                self.is_line_start = self.is_line_start || token.text.contains('\n');
                self.tokens.push(token)?;
                Ok(())
            }
            TokenKind::LineComment | TokenKind::Comment => self.push_comment(token, ends_line),
            TokenKind::Leaf { .. }
            | TokenKind::Quantifier { .. }
            | TokenKind::Flags { .. }
            | TokenKind::Other => self.push_other(token),
        }
    }
}

/// The tokens with each bar that begins a line before the comments above it, which are about the branch after it.
pub(crate) fn with_bars_first<'p>(
    alloc: Global,
    tokens: &[Token<'p>],
) -> Result<Vec<Token<'p>>, AllocError> {
    let mut moved = Moved {
        tokens: Vec::with_capacity(alloc, tokens.len())?,
        is_line_start: true,
        before_comments: None,
    };
    for (i, token) in tokens.iter().enumerate() {
        let after = tokens.get(i.saturating_add(1)..).unwrap_or(&[]);
        let ends_line = token.text.ends_with('\n') || begins_with_line_end(after);
        moved.push(*token, ends_line)?;
    }
    Ok(moved.tokens)
}
