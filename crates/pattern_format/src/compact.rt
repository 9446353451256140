//! Patterns in one line, without the layout that they have.
use crate::all_comments::{Comment, all_comments};
use crate::bars::with_bars_first;
use crate::columns::join_columns;
use crate::comments::comments_of;
use crate::cut::tokens_of;
use crate::labels::{kept_line_ends, needs_line_ends};
use crate::read_back::{reads_back_as, tree_of};
use crate::sheet::Sheet;
use crate::spelling::{push_flags, push_quantifier, without_blanks};
use crate::style::Style;
use crate::token::{Column, Token, TokenKind, begins_with_line_end, contents, is_blank, is_letter};
use fancy_lex::error::Error;
use fancy_lex::flags::Flags;
use fancy_syntax::spanned::SpannedTree;
use std::alloc::{AllocError, Global};

/// How often a pattern is written in one line, until that changes nothing.
const MAX_ROUNDS: usize = 4;

/// A space as it is escaped at the end of a line.
const SPACE_AT_END: &str = "\\x20";

/// How much of its layout a pattern loses. If the text does not read back as the pattern, less is tried.
#[derive(Clone, Copy, PartialEq, Eq, Debug)]
enum Loss {
    /// Blanks, `(?x)` at the beginning, and the escapes that are needed only after it.
    Escapes,
    /// Blanks, and `(?x)` at the beginning.
    Flag,
    /// Blanks.
    Blanks,
    /// Blanks, of which one stays. Nothing else is left out, and quantifiers and flags are as they were.
    MoreBlanks,
}

/// What is before a token in its line.
#[derive(Clone, Copy, PartialEq, Eq, Debug)]
enum Before {
    /// Nothing but blanks.
    Nothing,
    /// What no branch ends with.
    NoBranch,
    /// What a branch may end with.
    Branch,
    /// A branch with the bar after it.
    BranchAndBar,
}

/// What is before the next token in its line, after parentheses, bars or flags.
fn after_other(before: Before, text: &str) -> Before {
    if text.ends_with(')') {
        return Before::Branch;
    }
    match text.strip_suffix('|') {
        Some("") if before == Before::Branch => Before::BranchAndBar,
        Some(ends) if ends.ends_with(')') => Before::BranchAndBar,
        Some(_) | None => Before::NoBranch,
    }
}

/// What is before the next token in its line, after a token that ends the line if it is blank.
fn after_token(before: Before, token: Token<'_>) -> Before {
    match token.kind {
        TokenKind::Leaf { .. } | TokenKind::Quantifier { .. } | TokenKind::Comment =>
            Before::Branch,
        TokenKind::Blank | TokenKind::LineComment => Before::Nothing,
        TokenKind::Flags { .. } | TokenKind::Other => after_other(before, token.text),
    }
}

/// The text of a token that is one character without the escape that it needs where whitespace is ignored.
fn unescaped(text: &str, ignores_case: bool) -> &str {
    match text {
        "\\ " => " ",
        "\\#" => "#",
        "\\x20" if ignores_case => " ",
        "\\x23" if ignores_case => "#",
        _ => text,
    }
}

/// Whether the texts would be read as one token, as those of `\1 2` and `\b {start}`.
fn are_one(text: &str, next: &str) -> bool {
    let has_digits = text.starts_with('\\')
        && text.ends_with(|c: char| c.is_ascii_digit())
        && next.starts_with(|c: char| c.is_ascii_digit());
    has_digits || text == "\\b" && next.starts_with('{')
}

/// Whether a comment through the end of its line is among these of the pattern that cannot be in parentheses.
fn needs_lines(pattern: &str, comments: &[Comment]) -> bool {
    comments.iter().any(|comment| {
        comment.is_line && comment.span.text(pattern).and_then(contents).is_none()
    })
}

/// A pattern that is written in one line, or with the lines that comments need.
#[derive(Drop)]
struct Line<'p> {
    alloc: Global,
    sheet: Sheet,
    /// The last token as it is written, if it is one of a node.
    last: &'p str,
    /// Whether blanks are after it.
    has_gap: bool,
    /// How many letters are before, without blanks between.
    letters: usize,
    /// What is before in the line of the pattern.
    before: Before,
    loss: Loss,
    /// Whether comments through the ends of their lines stay so.
    keeps_lines: bool,
    /// The column of such a comment right before.
    above: Option<Column>,
    oniguruma_mode: bool,
    pattern: &'p str,
    /// Where the next token begins in the pattern.
    position: usize,
    /// The comments of the pattern from there on.
    comments: &'p [Comment],
}

impl<'p> Line<'p> {
    /// Whether nothing but a bar is before in the line.
    fn is_after_first_bar(&self) -> bool {
        let text = self.sheet.text.as_str();
        text == "|" || text.ends_with("\n|")
    }

    /// Passes blanks, or an empty comment, in which the line may end that is written. A space before the end of a line needs no other
    /// escape than any space.
    fn pass_blanks(&mut self, blanks: &str, keeps_line_end: bool) -> Result<(), AllocError> {
        self.has_gap = true;
        if blanks.contains('\n') {
            self.before = Before::Nothing;
        }
        if keeps_line_end && !self.is_after_first_bar() {
            self.end_line()?;
        }
        if self.loss == Loss::Escapes && self.last == SPACE_AT_END && blanks.contains('\n') {
            for _ in 0..SPACE_AT_END.len() {
                self.sheet.text.pop();
            }
            self.sheet.text.push(' ')?;
            self.last = "";
        }
        Ok(())
    }

    /// Writes the blank that stays between the last token and the next one, with which a word may begin.
    fn push_gap(&mut self, next: &str, is_word: bool) -> Result<(), AllocError> {
        let has_gap = self.has_gap
            && !self.sheet.text.is_empty()
            && !self.sheet.text.ends_with('\n');
        let are_words = is_word && self.letters > 1;
        if self.has_gap {
            self.letters = 0;
        }
        self.has_gap = false;
        if has_gap && (self.loss == Loss::MoreBlanks || are_words || are_one(self.last, next)) {
            self.sheet.text.push(' ')?;
        }
        Ok(())
    }

    /// Writes a comment through the end of its line in parentheses, or with its line. One that is empty goes.
    fn push_line_comment(&mut self, comment: &str) -> Result<(), AllocError> {
        match contents(comment) {
            Some("") => {}
            Some(text) if !self.keeps_lines => {
                self.sheet.text.push_str("(?#")?;
                self.sheet.text.push_str(text)?;
                self.sheet.text.push(')')?;
            }
            Some(_) | None => self.sheet.text.push_str(comment)?,
        }
        Ok(())
    }

    /// Ends the line, if something is in it.
    fn end_line(&mut self) -> Result<(), AllocError> {
        if !self.sheet.text.is_empty() && !self.sheet.text.ends_with('\n') {
            self.sheet.text.push('\n')?;
        }
        Ok(())
    }

    /// Writes a part of a token, without its blanks but those in the name of a group.
    fn push_part(&mut self, part: &str) -> Result<(), AllocError> {
        let name = part.find('?').and_then(|at| part.get(at..)).unwrap_or("");
        let has_name = ["?<", "?'", "?P"]
            .iter()
            .any(|start| name.starts_with(*start));
        let (opening, name) = if has_name {
            (
                part.strip_suffix(name).unwrap_or(part),
                name.trim_end_matches(is_blank),
            )
        } else {
            (part, "")
        };
        let opening = without_blanks(self.alloc, opening)?;
        self.sheet.text.push_str(opening.as_str())?;
        self.sheet.text.push_str(name)?;
        Ok(())
    }

    /// Writes a part of a token before a comment. A blank stays after the question mark of flags, since `(?#` and `(?(` are
    /// something else.
    fn push_before_comment(&mut self, part: &str, is_line: bool) -> Result<(), AllocError> {
        self.push_part(part)?;
        let is_verbose = is_line || part.ends_with(is_blank);
        if is_verbose && part.trim_end_matches(is_blank).ends_with('?') {
            self.sheet.text.push(' ')?;
        }
        Ok(())
    }

    /// Writes a token with comments in it. Each stays, if it is not empty.
    fn push_commented(&mut self, text: &str) -> Result<(), AllocError> {
        if self.loss == Loss::MoreBlanks {
            return Ok(self.sheet.text.push_str(text)?);
        }
        let pattern = self.pattern;
        let end = self.position.saturating_add(text.len());
        let mut position = self.position;
        for Comment { span, is_line } in self.comments {
            if span.start >= end {
                break;
            }
            self.push_before_comment(pattern.get(position..span.start).unwrap_or(""), *is_line)?;
            let comment = span.text(pattern).unwrap_or("");
            if *is_line {
                self.push_line_comment(comment)?;
            } else {
                self.sheet.text.push_str(comment)?;
            }
            position = span.end;
        }
        self.push_part(pattern.get(position..end).unwrap_or(""))
    }

    /// Writes inline flags that are the first token. From them on whitespace is ignored no more if that is a loss.
    fn push_first_flags(
        &mut self,
        text: &str,
        before: Flags,
        after: Flags,
    ) -> Result<(), AllocError> {
        let after = match self.loss {
            Loss::Escapes | Loss::Flag => Flags {
                ignore_space: before.ignore_space,
                ..after
            },
            Loss::Blanks | Loss::MoreBlanks => after,
        };
        if before != after {
            push_flags(self.alloc, &mut self.sheet.text, text, before, after)?;
        }
        Ok(())
    }

    /// Writes a text with one space for blanks.
    fn push_spaced(&mut self, text: &str) -> Result<(), AllocError> {
        for part in text.split_inclusive(is_blank) {
            let word = part.trim_end_matches(is_blank);
            self.sheet.text.push_str(word)?;
            if word.len() < part.len() && !self.sheet.text.ends_with(' ') {
                self.sheet.text.push(' ')?;
            }
        }
        Ok(())
    }

    /// Writes what is neither a leaf nor a comment, and has no comment in it.
    fn push_other(&mut self, token: Token<'p>, is_first: bool) -> Result<(), AllocError> {
        let text = token.text;
        if self.loss == Loss::MoreBlanks {
            return self.push_spaced(text);
        }
        let written = &mut self.sheet.text;
        match token.kind {
            TokenKind::Flags { before, after } if is_first && text.ends_with(')') => {
                self.push_first_flags(text, before, after)
            }
            TokenKind::Flags { before, after } => {
                push_flags(self.alloc, written, text, before, after)
            }
            TokenKind::Quantifier { .. } => {
                push_quantifier(self.alloc, written, text, !self.oniguruma_mode)
            }
            TokenKind::Blank
            | TokenKind::LineComment
            | TokenKind::Leaf { .. }
            | TokenKind::Comment
            | TokenKind::Other => {
                let text = without_blanks(self.alloc, text)?;
                Ok(written.push_str(text.as_str())?)
            }
        }
    }

    /// Writes a comment with its line, after one space or in its column. It is alone if it was, and then keeps the column of one above.
    fn push_kept_comment(&mut self, comment: Token<'p>) -> Result<(), AllocError> {
        if self.before == Before::Nothing {
            self.end_line()?;
        }
        let is_alone = self.sheet.text.is_empty() || self.sheet.text.ends_with('\n');
        let above = self.above;
        let column = comment.column.filter(|column| !is_alone
            || above.is_some_and(|above| above.is_same(*column)));
        self.above = column;
        match column {
            Some(column) => self.sheet.begin(
                Column {
                    blanks: 1,
                    ..column
                },
                "",
            )?,
            None if !is_alone => self.sheet.text.push(' ')?,
            None => {}
        }
        self.sheet.text.push_str(comment.text)?;
        Ok(())
    }

    /// Writes a comment that is not inside a token. If its line ends after it, and a branch with its bar is before it, it is about
    /// that branch, and comes before the bar.
    fn push_comment(&mut self, token: Token<'p>, ends_line: bool) -> Result<(), AllocError> {
        let is_after_bar = self.before == Before::BranchAndBar
            && ends_line
            && !self.keeps_lines
            && self.sheet.text.ends_with('|');
        if is_after_bar {
            self.sheet.text.pop();
        }
        if let TokenKind::Comment = token.kind {
            self.sheet.text.push_str(token.text)?;
        } else {
            self.push_line_comment(token.text)?;
        }
        if is_after_bar {
            self.sheet.text.push('|')?;
        }
        Ok(())
    }

    /// Writes a token that is neither blank nor an empty comment, and may be the first one, or the last one of its line.
    fn push_text(
        &mut self,
        token: Token<'p>,
        is_first: bool,
        ends_line: bool,
    ) -> Result<(), AllocError> {
        let text = token.text;
        match token.kind {
            TokenKind::Comment | TokenKind::LineComment => self.push_comment(token, ends_line),
            TokenKind::Leaf { ignores_case } if self.loss == Loss::Escapes => {
                self.last = unescaped(text, ignores_case);
                Ok(self.sheet.text.push_str(self.last)?)
            }
            TokenKind::Leaf { .. } => Ok(self.sheet.text.push_str(text)?),
            TokenKind::Blank
            | TokenKind::Flags { .. }
            | TokenKind::Quantifier { .. }
            | TokenKind::Other => {
                if text.contains('#') {
                    self.push_commented(text)
                } else {
                    self.push_other(token, is_first)
                }
            }
        }
    }

    /// Counts the letters before the next token.
    fn count_letters(&mut self, token: Token<'_>) {
        match token.kind {
            TokenKind::Leaf { .. } if is_letter(token) => {
                self.letters = self.letters.saturating_add(1);
            }
            TokenKind::Blank | TokenKind::Quantifier { .. } => {}
            TokenKind::Leaf { .. }
            | TokenKind::LineComment
            | TokenKind::Comment
            | TokenKind::Flags { .. }
            | TokenKind::Other => self.letters = 0,
        }
    }

    /// Writes a token before others, which may be the first one. The line that is written may end in it.
    fn push(
        &mut self,
        token: Token<'p>,
        after: &[Token<'p>],
        is_first: bool,
        keeps_line_end: bool,
    ) -> Result<(), AllocError> {
        let text = token.text;
        match token.kind {
            TokenKind::Blank => return self.pass_blanks(text, keeps_line_end),
            TokenKind::LineComment if contents(text) == Some("") => {
                return self.pass_blanks(text, keeps_line_end);
            }
            TokenKind::LineComment if self.keeps_lines => {
                self.has_gap = false;
                self.push_kept_comment(token)?;
            }
            TokenKind::LineComment
            | TokenKind::Comment
            | TokenKind::Leaf { .. }
            | TokenKind::Flags { .. }
            | TokenKind::Quantifier { .. }
            | TokenKind::Other => {
                let next = after.first().copied();
                let is_word = is_letter(token) && next.is_some_and(is_letter);
                self.push_gap(text, is_word)?;
                self.above = None;
                self.last = text;
                let ends_line = text.ends_with('\n') || begins_with_line_end(after);
                self.push_text(token, is_first, ends_line)?;
            }
        }
        self.count_letters(token);
        self.before = after_token(self.before, token);
        Ok(())
    }

    /// Passes the text of a token in the pattern, and the comments in it.
    fn pass(&mut self, text: &str) {
        self.position = self.position.saturating_add(text.len());
        for comment in self.comments {
            if comment.span.start >= self.position {
                break;
            }
            self.comments = self.comments.get(1..).unwrap_or(&[]);
        }
    }
}

/// The tokens of a pattern with these comments in one line, without those that are needless; or, if these are given, with the lines
/// that end in some of the tokens.
fn in_one_line(
    alloc: Global,
    pattern: &str,
    tokens: &[Token<'_>],
    comments: &[Comment],
    line_ends: Option<&[bool]>,
    loss: Loss,
    oniguruma_mode: bool,
) -> Result<String, AllocError> {
    let mut line = Line {
        alloc,
        sheet: Sheet::new(alloc, "")?,
        last: "",
        has_gap: false,
        letters: 0,
        before: Before::Nothing,
        loss,
        keeps_lines: line_ends.is_some(),
        above: None,
        oniguruma_mode,
        pattern,
        position: 0,
        comments,
    };
    for (i, token) in tokens.iter().enumerate() {
        if !token.is_needless || loss == Loss::MoreBlanks {
            let after = tokens.get(i.saturating_add(1)..).unwrap_or(&[]);
            let kept = line_ends.and_then(|ends| ends.get(i)).copied();
            line.push(*token, after, i == 0, kept.unwrap_or(false))?;
        }
        line.pass(token.text);
    }
    line.sheet.end()
}

/// Whether the token is inline flags from which on whitespace is ignored.
fn sets_ignore_space(token: Token<'_>) -> bool {
    match token.kind {
        TokenKind::Flags { before, after } => after.ignore_space
            && !before.ignore_space
            && token.text.ends_with(')'),
        TokenKind::Blank
        | TokenKind::LineComment
        | TokenKind::Comment
        | TokenKind::Leaf { .. }
        | TokenKind::Quantifier { .. }
        | TokenKind::Other => false,
    }
}

/// The losses that are tried.
fn losses(tokens: &[Token<'_>]) -> &'static [Loss] {
    match tokens.first() {
        Some(first) if sets_ignore_space(*first) => &[
            Loss::Escapes,
            Loss::Flag,
            Loss::Blanks,
            Loss::MoreBlanks,
        ],
        _ => &[Loss::Blanks, Loss::MoreBlanks],
    }
}

/// In which of the tokens a line ends that stays, if comments have to stay with their lines; None if they need not.
fn kept_lines(
    alloc: Global,
    pattern: &str,
    tokens: &mut [Token<'_>],
    comments: &[Comment],
) -> Result<Option<Vec<bool>>, AllocError> {
    if !needs_lines(pattern, comments) && !needs_line_ends(alloc, tokens)? {
        return Ok(None);
    }
    join_columns(tokens);
    Ok(Some(kept_line_ends(alloc, tokens)?))
}

/// The pattern with the least layout with which it reads back. None if it is invalid, or there is no such text.
fn in_line_once(alloc: Global, pattern: &str, flags: u32) -> Result<Option<String>, AllocError> {
    let parsed = match SpannedTree::parse(alloc, pattern, flags) {
        Ok(parsed) => parsed,
        Err(Error::ParseError(..)) => return Ok(None),
        Err(Error::OutOfMemory) => return Err(AllocError),
    };
    let mut tokens = tokens_of(alloc, pattern, &parsed, false)?;
    let comments = all_comments(alloc, &parsed.trivia)?;
    let line_ends = kept_lines(alloc, pattern, &mut tokens, &comments)?;
    if line_ends.is_none() && !comments.is_empty() {
        tokens = with_bars_first(alloc, &tokens)?;
    }
    let line_ends = line_ends.as_deref();
    let Some(texts) = comments_of(alloc, pattern, &parsed.trivia, Style::Compact)? else {
        return Ok(None);
    };
    let tree = tree_of(parsed);
    let oniguruma_mode = Flags::from_bits(flags).oniguruma_mode;
    for loss in losses(&tokens) {
        let text = in_one_line(
            alloc,
            pattern,
            &tokens,
            &comments,
            line_ends,
            *loss,
            oniguruma_mode,
        )?;
        if reads_back_as(alloc, &tree, &texts, text.as_str(), flags, Style::Compact)? {
            return Ok(Some(text));
        }
    }
    Ok(None)
}

/// The pattern in one line, but for comments that need their lines. None if it cannot be so that it stays so.
pub(crate) fn in_line(
    alloc: Global,
    pattern: &str,
    flags: u32,
) -> Result<Option<String>, AllocError> {
    let Some(mut text) = in_line_once(alloc, pattern, flags)? else {
        return Ok(None);
    };
    if text.as_str() == pattern {
        return Ok(Some(text));
    }
    for _ in 0..MAX_ROUNDS {
        let Some(again) = in_line_once(alloc, text.as_str(), flags)? else {
            return Ok(None);
        };
        if again.as_str() == text.as_str() {
            return Ok(Some(text));
        }
        text = again;
    }
    Ok(None)
}
