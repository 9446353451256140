//! Tokens without those that are needless. The lines that have nothing else go too.
use crate::token::{Column, Token, TokenKind};
use std::alloc::{AllocError, Global};

/// The blank that is put before a comment.
const SPACE: Token<'static> = Token {
    text: " ",
    kind: TokenKind::Blank,
    is_needless: false,
    column: None,
};

/// The blank and the comment of the line of an opening that goes.
#[derive(Clone, Copy)]
struct Held<'p> {
    blank: Option<Token<'p>>,
    comment: Token<'p>,
}

fn is_blank(token: Token<'_>) -> bool {
    matches!(token.kind, TokenKind::Blank)
}

fn is_line_comment(token: Token<'_>) -> bool {
    matches!(token.kind, TokenKind::LineComment)
}

/// Whether the token ends a line, and is blank.
fn is_line_end(token: Token<'_>) -> bool {
    is_blank(token) && token.text.contains('\n')
}

/// How many bytes the indentation has that the blank ends with.
fn indentation(blank: Token<'_>) -> usize {
    match blank.text.rsplit_once('\n') {
        Some((_, indentation)) => indentation.len(),
        None => blank.text.len(),
    }
}

/// The blank with so many fewer bytes of indentation, as far as there are.
fn dedented(blank: Token<'_>, less: usize) -> Token<'_> {
    let less = less.min(indentation(blank));
    let end = blank.text.len().saturating_sub(less);
    Token {
        text: blank.text.get(..end).unwrap_or(blank.text),
        ..blank
    }
}

/// Whether the first of the lines of tokens has a comment, or a token that goes over its end.
fn has_comment(tokens: &[Token<'_>]) -> bool {
    for token in tokens {
        match token.kind {
            TokenKind::Blank if token.text.contains('\n') => return false,
            TokenKind::Blank => {}
            TokenKind::Comment | TokenKind::LineComment => return true,
            TokenKind::Quantifier { .. }
            | TokenKind::Flags { .. }
            | TokenKind::Leaf { .. }
            | TokenKind::Other => {
                if token.text.contains('\n') || token.text.contains('#') {
                    return true;
                }
            }
        }
    }
    false
}

/// The blank after the end of the first of its lines.
fn after_line_end(blank: Token<'_>) -> Token<'_> {
    match blank.text.split_once('\n') {
        Some((_, text)) => Token { text, ..blank },
        None => blank,
    }
}

/// How many of the tokens are blanks before the end of the line.
fn count_blanks(tokens: &[Token<'_>]) -> usize {
    tokens
        .iter()
        .take_while(|token| is_blank(**token) && !is_line_end(**token))
        .count()
}

/// The tokens that stay, up to one of the pattern.
#[derive(Drop)]
struct Kept<'p> {
    kept: Vec<Token<'p>>,
    /// By how many bytes the contents of each open group that goes are indented in addition.
    less: Vec<usize>,
    /// The sum of these.
    all_less: usize,
    /// What comes at the end of the line.
    held: Option<Held<'p>>,
    /// Whether the line has ended already.
    is_ended: bool,
    /// Whether the next token is a comment that is alone in its line, since what was before it went. It keeps its column only below
    /// a comment that is in it.
    is_alone: bool,
}

impl<'p> Kept<'p> {
    /// Whether nothing but blanks is before in the line.
    fn is_line_start(&self) -> bool {
        let Some((last, before)) = self.kept.split_last() else {
            return true;
        };
        if !is_blank(*last) {
            return is_line_comment(*last);
        }
        last.text.contains('\n') || before.last().is_none_or(|other| is_line_comment(*other))
    }

    /// Whether the line above ends with a comment in the column.
    fn is_below_comment(&self, column: Column) -> bool {
        let Some((last, before)) = self.kept.split_last() else {
            return false;
        };
        let above = match before.last() {
            Some(other) if is_blank(*last) && !is_line_end(*last) => *other,
            Some(_) | None => *last,
        };
        is_line_comment(above) && above.column.is_some_and(|other| other.is_same(column))
    }

    /// Adds a comment after blanks.
    fn push_held(&mut self, held: Held<'p>) -> Result<(), AllocError> {
        self.kept.push(held.blank.unwrap_or(SPACE))?;
        self.kept.push(held.comment)?;
        Ok(())
    }

    /// Adds a blank, before the parenthesis that closes a group that goes or not.
    fn push_blank(&mut self, blank: Token<'p>, is_before_closing: bool) -> Result<(), AllocError> {
        let is_end = is_line_end(blank);
        let inside = if is_before_closing {
            self.less.last().copied()
        } else {
            None
        };
        let less = self.all_less.saturating_sub(inside.unwrap_or(0));
        let mut blank = if is_end || self.is_line_start() {
            dedented(blank, less)
        } else {
            blank
        };
        if is_end && (self.held.is_some() || self.is_ended) {
            blank = after_line_end(blank);
        }
        if let Some(held) = self.held
            && is_end
        {
            self.held = None;
            self.push_held(held)?;
        }
        self.is_ended = self.is_ended && !is_end;
        self.kept.push(blank)?;
        Ok(())
    }

    /// How many bytes are before in the line, in which nothing but blanks is.
    fn line_indentation(&self) -> usize {
        match self.kept.last() {
            Some(last) if is_blank(*last) => indentation(*last),
            Some(_) | None => 0,
        }
    }

    /// Passes the opening of a group that goes, before the tokens. Returns how many of them go with it: if it is alone in its line
    /// they end that line, with its comment, which comes after the first line of the contents, or before it if that has another one.
    fn open(&mut self, after: &[Token<'p>]) -> Result<usize, AllocError> {
        let blanks = count_blanks(after);
        let next = after.get(blanks).copied();
        let comment = next.filter(|token| is_line_comment(*token));
        let is_alone = comment.is_some() || next.is_some_and(|token| is_line_end(token));
        if !is_alone || !self.is_line_start() {
            self.less.push(0)?;
            return Ok(if self.is_line_start() { blanks } else { 0 });
        }
        let end = blanks.saturating_add(comment.is_some() as usize);
        let lines = after.get(end).copied().filter(|token| is_blank(*token));
        let inside = lines.map_or(0, |token| indentation(token));
        let less = inside.saturating_sub(self.line_indentation().saturating_add(self.all_less));
        self.less.push(less)?;
        self.all_less = self.all_less.saturating_add(less);
        let passed = end.saturating_add(lines.is_some() as usize);
        let Some(comment) = comment else {
            return Ok(passed);
        };
        if self.held.is_some() || has_comment(after.get(passed..).unwrap_or(&[])) {
            self.kept.push(Token {
                column: None,
                ..comment
            })?;
            return Ok(end);
        }
        let blank = if blanks > 0 {
            after.first().copied()
        } else {
            None
        };
        self.held = Some(Held { blank, comment });
        Ok(passed)
    }

    /// Passes the parenthesis that closes a group that goes, before the tokens. Returns how many of them go with it.
    fn close(&mut self, after: &[Token<'p>]) -> usize {
        let less = self.less.pop().unwrap_or(0);
        self.all_less = self.all_less.saturating_sub(less);
        self.pass_needless(after)
    }

    /// Passes a token that goes, before the tokens. Returns how many of them go with it. If it is alone in its line, that line goes.
    fn pass_needless(&mut self, after: &[Token<'p>]) -> usize {
        let blanks = count_blanks(after);
        let next = after.get(blanks).copied();
        let is_alone = next.is_none_or(|token| is_line_end(token) || is_line_comment(token));
        if !is_alone || !self.is_line_start() {
            return 0;
        }
        if self.kept.last().is_some_and(|last| is_line_end(*last)) {
            self.kept.pop();
            return 0;
        }
        if next.is_some_and(|token| is_line_end(token)) {
            self.is_ended = true;
        }
        self.is_alone = next.is_some_and(|token| is_line_comment(token));
        blanks
    }

    /// Passes a token before others. Returns how many of them go with it.
    fn pass(&mut self, token: Token<'p>, after: &[Token<'p>]) -> Result<usize, AllocError> {
        if !token.is_needless {
            if is_blank(token) {
                let is_before_closing = after
                    .first()
                    .is_some_and(|next| next.is_needless && next.text == ")");
                self.push_blank(token, is_before_closing)?;
            } else {
                let column = token
                    .column
                    .filter(|column| !self.is_alone || self.is_below_comment(*column));
                self.is_alone = false;
                self.kept.push(Token { column, ..token })?;
            }
            return Ok(0);
        }
        if token.text == ")" {
            return Ok(self.close(after));
        }
        if token.text.starts_with('(') && !token.text.ends_with(')') {
            return self.open(after);
        }
        Ok(self.pass_needless(after))
    }
}

/// Whether a token is needless.
pub(crate) fn has_needless(tokens: &[Token<'_>]) -> bool {
    tokens.iter().any(|token| token.is_needless)
}

/// The tokens that are not needless.
pub(crate) fn without_needless<'p>(
    alloc: Global,
    tokens: &[Token<'p>],
) -> Result<Vec<Token<'p>>, AllocError> {
    let mut kept = Kept {
        kept: Vec::with_capacity(alloc, tokens.len())?,
        less: Vec::new(alloc),
        all_less: 0,
        held: None,
        is_ended: false,
        is_alone: false,
    };
    let mut rest = 0usize;
    for (i, token) in tokens.iter().enumerate() {
        if i >= rest {
            let after = i.saturating_add(1);
            let passed = kept.pass(*token, tokens.get(after..).unwrap_or(&[]))?;
            rest = after.saturating_add(passed);
        }
    }
    if let Some(held) = kept.held {
        kept.push_held(held)?;
    }
    Ok(kept.kept)
}
