//! The pieces of a pattern that is laid out anew.
use crate::spelling::{push_flags, push_quantifier};
use crate::token::{Column, Token, TokenKind, begins_with_line_end};
use std::alloc::{AllocError, Global};

/// What a piece of a pattern is.
#[derive(Clone, Copy, PartialEq, Eq, Debug)]
pub(crate) enum PieceKind {
    /// What no line is broken in.
    Atom,
    /// Inline flags.
    Flags,
    /// A literal character that is written as itself. No line is broken between two of them.
    Literal,
    /// The opening of a group, which may hold several lines or not.
    Opening { can_break: bool },
    /// The parenthesis that closes a group.
    Closing,
    /// The bar between two branches.
    Bar,
    Quantifier,
    /// A comment in parentheses.
    Comment,
    /// A comment through the end of its line, which is alone in that line or not.
    LineComment { is_alone: bool },
    /// The end of a line, after which blank lines are or not.
    LineEnd { has_blank_line: bool },
}

/// The author's blanks before a piece in its line.
#[derive(Clone, Copy, PartialEq, Eq, Debug)]
pub(crate) enum Blanks {
    Nothing,
    Space,
    /// Those before a column.
    Column(Column),
}

impl Blanks {
    /// How many characters they have.
    pub(crate) fn width(self) -> usize {
        match self {
            Blanks::Nothing => 0,
            Blanks::Space => 1,
            Blanks::Column(column) => column.blanks,
        }
    }
}

/// A piece of a pattern.
#[derive(Debug, Drop)]
pub(crate) struct Piece {
    pub(crate) text: String,
    pub(crate) kind: PieceKind,
    /// What is before it in the author's line.
    pub(crate) blanks: Blanks,
}

/// The text of a token that is one character, as it is written where whitespace is ignored. An escape of its letter does not
/// ignore case, and its code does.
fn escaped(text: &str, ignores_case: bool) -> Option<&'static str> {
    let (letter, code) = match text {
        " " => ("\\ ", "\\x20"),
        "\n" => ("\\n", "\\x0A"),
        "\r" => ("\\r", "\\x0D"),
        "\t" => ("\\t", "\\x09"),
        "#" => ("\\#", "\\x23"),
        _ => return None,
    };
    Some(if ignores_case { code } else { letter })
}

/// Whether the text of a leaf is a literal character that is written as itself.
fn is_plain(text: &str) -> bool {
    text.chars().count() == 1 && !matches!(text, "." | "^" | "$")
}

/// How many more parentheses the text opens than it closes.
fn opened(text: &str) -> usize {
    let closed = text.matches(')').count();
    text.matches('(').count().saturating_sub(closed)
}

/// The pieces of tokens.
#[derive(Drop)]
struct Pieces {
    alloc: Global,
    pieces: Vec<Piece>,
    oniguruma_mode: bool,
    /// Whether nothing but blanks is before in the line.
    is_line_start: bool,
    /// The blanks after the last piece.
    blanks: Blanks,
    /// The blanks before a bar that is to be added, after the end of the line and comments.
    held_bar: Option<Blanks>,
    /// How many lines have ended.
    lines: usize,
    /// How many lines had ended at the openings of the groups around.
    open: Vec<usize>,
    /// The index of the first of the last pieces, if they close groups over several lines, after other pieces in their line.
    ends: Option<usize>,
    /// Whether the last pieces close groups over several lines, and begin their line.
    is_own_end: bool,
}

impl Pieces {
    /// Counts the lines before a piece of this kind, and in the groups around it.
    fn count_lines(&mut self, kind: PieceKind) -> Result<(), AllocError> {
        let (ends, is_own_end) = (self.ends, self.is_own_end);
        self.ends = None;
        self.is_own_end = false;
        match kind {
            PieceKind::Opening { .. } => self.open.push(self.lines)?,
            PieceKind::Closing => {
                let has_lines = self.open.pop().is_some_and(|lines| lines < self.lines);
                self.is_own_end = has_lines && (is_own_end || self.is_after_line_end());
                if has_lines && !self.is_own_end {
                    self.ends = ends.or(Some(self.pieces.len()));
                }
            }
            PieceKind::Quantifier => {
                self.ends = ends;
                self.is_own_end = is_own_end;
            }
            PieceKind::LineEnd { .. } | PieceKind::LineComment { .. } => {
                self.lines = self.lines.saturating_add(1);
            }
            PieceKind::Atom
            | PieceKind::Flags
            | PieceKind::Literal
            | PieceKind::Bar
            | PieceKind::Comment => {}
        }
        Ok(())
    }

    /// Whether a line ends after the last piece.
    fn is_after_line_end(&self) -> bool {
        self.pieces.last().is_some_and(|last| matches!(
            last.kind,
            PieceKind::LineEnd { .. } | PieceKind::LineComment { .. }
        ))
    }

    /// Adds a piece with this text.
    fn push_owned(&mut self, text: String, kind: PieceKind) -> Result<(), AllocError> {
        self.count_lines(kind)?;
        let blanks = self.blanks;
        self.blanks = Blanks::Nothing;
        self.pieces.push(Piece { text, kind, blanks })?;
        Ok(())
    }

    /// Adds a piece.
    fn push(&mut self, text: &str, kind: PieceKind) -> Result<(), AllocError> {
        self.push_owned(String::from_str(self.alloc, text)?, kind)
    }

    /// Adds the opening of a group, or of a conditional with the parenthesis of its condition. Returns false if it is
    /// neither.
    fn push_opening(&mut self, text: &str) -> Result<bool, AllocError> {
        let can_break = !text.starts_with("(?~");
        match opened(text) {
            1 => self.push(text, PieceKind::Opening { can_break })?,
            2 => {
                let kind = PieceKind::Opening { can_break: false };
                let condition = text.strip_suffix('(');
                self.push(condition.unwrap_or(text), kind)?;
                self.push("(", kind)?;
                return Ok(condition.is_some());
            }
            _ => return Ok(false),
        }
        Ok(true)
    }

    /// Whether the last piece is in this line, and a branch may end with it.
    fn is_in_branch(&self) -> bool {
        match self.pieces.last() {
            Some(last) => match last.kind {
                PieceKind::Atom
                | PieceKind::Flags
                | PieceKind::Literal
                | PieceKind::Closing
                | PieceKind::Quantifier
                | PieceKind::Comment => true,
                PieceKind::Opening { .. }
                | PieceKind::Bar
                | PieceKind::LineComment { .. }
                | PieceKind::LineEnd { .. } => false,
            },
            None => false,
        }
    }

    /// Adds the bar that is held, if there is one.
    fn push_held_bar(&mut self) -> Result<(), AllocError> {
        let Some(blanks) = self.held_bar else {
            return Ok(());
        };
        self.held_bar = None;
        self.ends = None;
        self.pieces.push(Piece {
            text: String::from_str(self.alloc, "|")?,
            kind: PieceKind::Bar,
            blanks,
        })?;
        Ok(())
    }

    /// Adds a bar. After a branch in the same line it is held, since a comment at the end of that line is about the branch.
    fn push_bar(&mut self) -> Result<(), AllocError> {
        self.push_held_bar()?;
        if self.is_in_branch() {
            self.held_bar = Some(self.blanks);
            self.blanks = Blanks::Nothing;
            return Ok(());
        }
        self.push("|", PieceKind::Bar)
    }

    /// Adds parentheses that close, and bars. Returns false if there is something else.
    fn push_ends(&mut self, text: &str) -> Result<bool, AllocError> {
        for c in text.chars() {
            match c {
                ')' => {
                    self.push_held_bar()?;
                    self.push(")", PieceKind::Closing)?;
                }
                '|' => self.push_bar()?,
                _ => return Ok(false),
            }
        }
        Ok(true)
    }

    /// Adds what is between leaves and trivia. Returns false if that is not known.
    fn push_between(&mut self, text: &str) -> Result<bool, AllocError> {
        if text.contains('#') {
            Ok(false)
        } else if text.starts_with('(') {
            self.push_opening(text)
        } else {
            self.push_ends(text)
        }
    }

    /// Adds the token of flags.
    fn push_flags(&mut self, token: Token<'_>) -> Result<bool, AllocError> {
        let TokenKind::Flags { before, after } = token.kind else {
            return Ok(false);
        };
        if token.text.contains('#') || before.ignore_space && !after.ignore_space {
            return Ok(false);
        }
        let mut text = String::new(self.alloc);
        push_flags(self.alloc, &mut text, token.text, before, after)?;
        let kind = if text.ends_with(')') {
            PieceKind::Flags
        } else {
            PieceKind::Opening { can_break: true }
        };
        self.push_owned(text, kind)?;
        Ok(true)
    }

    /// Adds the token of a quantifier, which keeps its counts or not.
    fn push_quantifier(
        &mut self,
        token: Token<'_>,
        keeps_counts: bool,
    ) -> Result<bool, AllocError> {
        let mut text = String::new(self.alloc);
        let allows_operator = !self.oniguruma_mode && !keeps_counts;
        push_quantifier(self.alloc, &mut text, token.text, allows_operator)?;
        self.push_owned(text, PieceKind::Quantifier)?;
        Ok(!token.text.contains('#'))
    }

    /// Adds blanks.
    fn push_blanks(&mut self, blanks: &str) -> Result<(), AllocError> {
        if !self.is_line_start {
            self.blanks = Blanks::Space;
        }
        if let Some((_, rest)) = blanks.split_once('\n') {
            let has_blank_line = rest.contains('\n') || self.is_line_start;
            self.is_line_start = true;
            self.blanks = Blanks::Nothing;
            self.push("", PieceKind::LineEnd { has_blank_line })?;
        }
        Ok(())
    }

    /// Adds a comment through the end of its line.
    fn push_line_comment(&mut self, comment: &str) -> Result<(), AllocError> {
        if !comment.ends_with('\n') {
            self.push_held_bar()?;
        }
        let is_alone = self.is_line_start;
        if !is_alone && self.blanks == Blanks::Nothing {
            self.blanks = Blanks::Space;
        }
        self.is_line_start = true;
        let ends = self.ends.filter(|_| comment.ends_with('\n'));
        let Some(ends) = ends else {
            return self.push(comment, PieceKind::LineComment { is_alone });
        };
        let closings = self.take_from(ends)?;
        self.push(comment, PieceKind::LineComment { is_alone })?;
        self.put_back(closings)?;
        self.push(
            "",
            PieceKind::LineEnd {
                has_blank_line: false,
            },
        )
    }

    /// Takes the pieces from the index on, the last one first.
    fn take_from(&mut self, index: usize) -> Result<Vec<Piece>, AllocError> {
        let mut taken = Vec::new(self.alloc);
        for _ in index..self.pieces.len() {
            if let Some(piece) = self.pieces.pop() {
                taken.push(piece)?;
            }
        }
        Ok(taken)
    }

    /// Puts back pieces, of which the last one comes first.
    fn put_back(&mut self, pieces: Vec<Piece>) -> Result<(), AllocError> {
        let mut rest = pieces;
        for _ in 0..rest.len() {
            if let Some(piece) = rest.pop() {
                self.pieces.push(piece)?;
            }
        }
        Ok(())
    }

    /// Adds a token that is not blank. Returns false if it cannot be laid out anew.
    fn push_text(&mut self, token: Token<'_>) -> Result<bool, AllocError> {
        self.is_line_start = false;
        let text = token.text;
        match token.kind {
            TokenKind::Blank | TokenKind::LineComment => {}
            TokenKind::Comment => self.push(text, PieceKind::Comment)?,
            TokenKind::Leaf { ignores_case } => {
                let text = escaped(text, ignores_case).unwrap_or(text);
                let kind = if is_plain(text) {
                    PieceKind::Literal
                } else {
                    PieceKind::Atom
                };
                self.push(text, kind)?;
            }
            TokenKind::Quantifier { keeps_counts } => {
                return self.push_quantifier(token, keeps_counts);
            }
            TokenKind::Flags { .. } => return self.push_flags(token),
            TokenKind::Other => return self.push_between(text),
        }
        Ok(true)
    }

    /// Adds a token, which may be the last one of its line. Returns false if it cannot be laid out anew.
    fn push_token(&mut self, token: Token<'_>, ends_line: bool) -> Result<bool, AllocError> {
        if let TokenKind::Blank = token.kind {
            self.push_blanks(token.text)?;
            return Ok(true);
        }
        if let Some(column) = token.column {
            self.blanks = Blanks::Column(column);
        }
        if let TokenKind::LineComment = token.kind {
            self.push_line_comment(token.text)?;
            return Ok(true);
        }
        if !(ends_line && matches!(token.kind, TokenKind::Comment)) {
            self.push_held_bar()?;
        }
        self.push_text(token)
    }
}

/// The pieces of the tokens, of which none is needless. None if the pattern cannot be laid out anew: it has a part that is not
/// known, or one where whitespace is not ignored.
pub(crate) fn pieces_of(
    alloc: Global,
    tokens: &[Token<'_>],
    oniguruma_mode: bool,
) -> Result<Option<Vec<Piece>>, AllocError> {
    let mut found = Pieces {
        alloc,
        pieces: Vec::with_capacity(alloc, tokens.len())?,
        oniguruma_mode,
        is_line_start: true,
        blanks: Blanks::Nothing,
        held_bar: None,
        lines: 0,
        open: Vec::new(alloc),
        ends: None,
        is_own_end: false,
    };
    for (i, token) in tokens.iter().enumerate() {
        let ends_line = begins_with_line_end(tokens.get(i.saturating_add(1)..).unwrap_or(&[]));
        if !found.push_token(*token, ends_line)? {
            return Ok(None);
        }
    }
    found.push_held_bar()?;
    Ok(Some(found.pieces))
}
