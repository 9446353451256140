//! Layout: the comments and blanks between the parts of a pattern.
ghost use Rattle.std.specs.Prelude.{◌≡◌, ℕ, ◌<◌, ◌≤◌, Bool, List, length, chars, MatchResult, IfOk, IfErr, IfSome};
ghost use Rattle.std.specs.Prelude.{option_map, true, false, [], ◌∷◌, MatchOption, Some};
ghost use Rattle.fancy_lex.specs.Text.{Text, EndsWith};
ghost use Rattle.fancy_lex.specs.CommentViews.{comment_of};
ghost use Rattle.fancy_lex.specs.Comments.{Comment, closed_before, comments, comments_from, line_before};
ghost use Rattle.fancy_lex.specs.Layout as relation;
ghost use Rattle.fancy_lex.specs.LayoutSteps as spec;
ghost use Rattle.fancy_lex.specs.LayoutSteps.{rest, failed};
ghost use Rattle.fancy_lex.specs.LayoutSteps.{after_comment_start};
ghost use Rattle.fancy_lex.specs.TokenComments.{begins_comment, class_comments, if_inside, token_comments};
ghost use Rattle.fancy_lex.specs.TokenComments.{token_comments_from};
ghost use Rattle.fancy_lex.specs.TokenComments as tokens;
ghost use Rattle.fancy_lex.specs.declared.flags.Flags.{Flags};
ghost use Rattle.fancy_lex.specs.Views.{Skips, skipped_of};
ghost use Rattle.fancy_lex.specs.Reading.{layout_reading, ReadsRest};

use crate::error::{ParseError, ReadError};
use crate::text::{AT_END, PAST_END, Reach, after, next, reach};

/// Reads a comment after its `(?#`: the text after it, or the reach of its error.
#[tactic(auto, using(crate::proofs::LayoutLemmas::layout_steps, crate::proofs::CommentLemmas::comment_steps, crate::proofs::TokenCommentLemmas::token_steps))]
fn comment(text: &str) -> Result<&str, usize>
    ensures value { (x : Bool) →
        MatchResult result
        (λ r. spec.layout_from x spec.comment (chars text.now) ≡ spec.layout_from x spec.between (chars r.now))
        (λ p. spec.layout_from x spec.comment (chars text.now) ≡ failed p) }
    ensures comments { (x : Bool) (start : ℕ) →
        MatchResult result
        (λ r. comments_from x spec.comment start (chars text.now) ≡
        closed_before start (chars r.now) ∷ comments x (chars r.now))
        (λ _. comments_from x spec.comment start (chars text.now) ≡ []) }
    ensures in_token { (end start : ℕ) →
        MatchResult result
        (λ r. token_comments_from end spec.comment start (chars text.now) ≡
        if_inside end (closed_before start (chars r.now)) (token_comments (chars r.now) end))
        (λ _. token_comments_from end spec.comment start (chars text.now) ≡ []) }
    ensures cut { IfOk result (λ r. EndsWith (chars text.now) (chars r.now)) }
    ensures shorter { IfOk result (λ r. length r.now < length text.now) }
    ensures position { IfErr result (λ p. p ≤ 1) }
{
    let mut rest = text;
    while let Some((c, after)) = next(rest) {
        if c == ')' {
            return Ok(after);
        }
        rest = after;
        if c == '\\' {
            let Some((_, pair)) = next(rest) else {
                return Err(PAST_END);
            };
            rest = pair;
        }
    }
    Err(AT_END)
}

/// Reads a line comment after its `#`: the text after it.
#[tactic(auto, using(crate::proofs::LayoutLemmas::layout_steps, crate::proofs::CommentLemmas::comment_steps, crate::proofs::TokenCommentLemmas::token_steps))]
fn line(text: &str) -> &str
    ensures value { (x : Bool) →
        spec.layout_from x spec.line (chars text.now) ≡ spec.layout_from x spec.between (chars result.now) }
    ensures comments { (x : Bool) (start : ℕ) →
        comments_from x spec.line start (chars text.now) ≡
        line_before start (chars result.now) ∷ comments x (chars result.now) }
    ensures in_token { (end start : ℕ) →
        token_comments_from end spec.line start (chars text.now) ≡
        if_inside end (line_before start (chars result.now)) (token_comments (chars result.now) end) }
    ensures cut { EndsWith (chars text.now) (chars result.now) }
    ensures within { length result.now ≤ length text.now }
{
    let mut rest = text;
    while let Some((c, after)) = next(rest) {
        if c == '\n' {
            return after;
        }
        rest = after;
    }
    rest
}

/// Whether the character is layout under IGNORE_SPACE.
fn is_blank(c: char) -> bool
    ensures { result ≡ relation.is_blank c }
{
    c == ' ' || c == '\r' || c == '\n' || c == '\t'
}

/// Whether the character is whitespace that is ignored, or begins a comment to the end of the line, if `ignore_space`
/// is set.
#[inline]
pub fn is_layout(ignore_space: bool, c: char) -> bool
    ensures { result ≡ spec.is_layout ignore_space c }
{
    ignore_space && (c == '#' || is_blank(c))
}

/// The text after `(?#`, if the text begins with it.
#[inline(always)]
fn after_comment_start(text: &str) -> Option<&str>
    ensures value { spec.after_comment_start (chars text.now) ≡ option_map (λ r. chars r.now) result }
    ensures shorter { IfSome result (λ r. length r.now < length text.now) }
{
    let paren = after(text, '(')?;
    let question = after(paren, '?')?;
    after(question, '#')
}

/// Reads the layout at the front, one unit after another.
#[inline(never)]
#[tactic(auto, using(crate::proofs::LayoutLemmas::layout_steps))]
fn read_units(text: &str, ignore_space: bool) -> Result<&str, usize>
    ensures value { spec.layout ignore_space (chars text.now) ≡ skipped_of result }
    ensures within { IfOk result (λ r. length r.now ≤ length text.now) }
    ensures position { IfErr result (λ p. p ≤ 1) }
{
    let mut rest = text;
    loop {
        if let Some(inside) = after_comment_start(rest) {
            rest = comment(inside)?;
            continue;
        }
        if !ignore_space {
            return Ok(rest);
        }
        let Some((c, after)) = next(rest) else {
            return Ok(rest);
        };
        if c == '#' {
            rest = line(after);
        } else if is_blank(c) {
            rest = after;
        } else {
            return Ok(rest);
        }
    }
}

/// Whether layout may begin here, judging by the first character.
#[inline(always)]
pub(crate) fn begins_layout(text: &str, ignore_space: bool) -> bool
    ensures { result ≡ false → spec.layout ignore_space (chars text.now) ≡ rest (chars text.now) }
{
    let Some((c, _)) = next(text) else {
        return false;
    };
    c == '(' || is_layout(ignore_space, c)
}

/// Reads the layout at the front, if any begins there.
#[inline(always)]
fn read_layout(text: &str, ignore_space: bool) -> Result<&str, usize>
    ensures value { spec.layout ignore_space (chars text.now) ≡ skipped_of result }
    ensures within { IfOk result (λ r. length r.now ≤ length text.now) }
    ensures position { IfErr result (λ p. p ≤ 1) }
{
    if begins_layout(text, ignore_space) {
        read_units(text, ignore_space)
    } else {
        Ok(text)
    }
}

/// Skips the whitespace and the comments, called layout, at the front of `text`, a suffix of the pattern, and returns
/// the text after them. If a comment is not closed, the error is the reach of that error: `AT_END`, or `PAST_END` if
/// the pattern ends with a backslash that escapes nothing.
#[inline(always)]
pub fn layout(text: &str, ignore_space: bool) -> Result<&str, usize>
    ensures value { spec.layout ignore_space (chars text.now) ≡ skipped_of result }
    ensures derives { MatchResult result
        (λ r. relation.Before ignore_space (chars text.now) (chars r.now))
        (λ p. relation.Unclosed ignore_space (chars text.now) p) }
    ensures only { (v : Text) → relation.Before ignore_space (chars text.now) v → skipped_of result ≡ rest v }
    ensures only_error { (p : ℕ) → relation.Unclosed ignore_space (chars text.now) p → skipped_of result ≡ failed p }
    ensures within { IfOk result (λ r. length r.now ≤ length text.now) }
    ensures position { IfErr result (λ p. p ≤ 1) }
{
    read_layout(text, ignore_space)
}

/// The text after the layout at the front, if every comment in the layout is closed.
#[inline]
pub fn past_layout(text: &str, ignore_space: bool) -> Option<&str>
    ensures value { spec.past_layout ignore_space (chars text.now) ≡ option_map (λ r. chars r.now) result }
    ensures within { IfSome result (λ r. length r.now ≤ length text.now) }
{
    layout(text, ignore_space).ok()
}

/// Skips the layout at the front, as `layout` does, with its error as a `ReadError`: UnclosedOpenParen at its reach.
#[inline(always)]
pub fn skip(text: &str, ignore_space: bool) -> Result<&str, ReadError>
    ensures value { ReadsRest result (layout_reading (spec.layout ignore_space (chars text.now))) }
    ensures skips { Skips result (spec.layout ignore_space (chars text.now)) }
    ensures cut { IfOk result (λ r. EndsWith (chars text.now) (chars r.now)) }
    ensures within { IfOk result (λ r. length r.now ≤ length text.now) }
{
    match layout(text, ignore_space) {
        Ok(rest) => Ok(rest),
        Err(reach) => Err(ReadError::At(reach, ParseError::UnclosedOpenParen)),
    }
}

/// A comment in layout.
#[derive(Clone, Copy)]
pub struct LayoutComment<'a> {
    /// The text from the comment on.
    pub start: &'a str,
    /// The text after the comment.
    pub rest: &'a str,
    /// Whether it begins with `#` and ends with its line.
    pub is_line: bool,
}

/// The first comment in the layout at the front of `text`, if there is one and it is closed.
#[tactic(auto, using(crate::proofs::CommentLemmas::comment_steps))]
pub fn first_comment(text: &str, ignore_space: bool) -> Option<LayoutComment<'_>>
    ensures value { MatchOption result (comments ignore_space (chars text.now) ≡ [])
        (λ c. comments ignore_space (chars text.now) ≡ comment_of c ∷ comments ignore_space (chars c.rest.now)) }
    ensures begins { IfSome result (λ c. EndsWith (chars text.now) (chars c.start.now)) }
    ensures cut { IfSome result (λ c. EndsWith (chars c.start.now) (chars c.rest.now)) }
    ensures shorter { IfSome result (λ c. length c.rest.now < length text.now) }
{
    let mut rest = text;
    loop {
        if let Some(inside) = after_comment_start(rest) {
            let Ok(past) = comment(inside) else {
                return None;
            };
            return Some(LayoutComment {
                start: rest,
                rest: past,
                is_line: false,
            });
        }
        if !ignore_space {
            return None;
        }
        let Some((c, after)) = next(rest) else {
            return None;
        };
        if c == '#' {
            return Some(LayoutComment {
                start: rest,
                rest: line(after),
                is_line: true,
            });
        }
        if !is_blank(c) {
            return None;
        }
        rest = after;
    }
}

/// The text after `(?#`, if the text begins with it and `end` is not before that.
fn comment_in_token(text: &str, end: Reach) -> Option<&str>
    ensures value { MatchOption result (begins_comment end (chars text.now) ≡ false)
        (λ r. (after_comment_start (chars text.now) ≡ Some (chars r.now)) × (begins_comment end (chars text.now) ≡ true)) }
    ensures shorter { IfSome result (λ r. length r.now < length text.now) }
{
    let inside = after_comment_start(text)?;
    if end <= reach(inside) {
        Some(inside)
    } else {
        None
    }
}

/// Whether a token at the front of `text` that ends at the reach may have a comment: it has a `#`.
pub fn has_hash(text: &str, end: Reach) -> bool
    ensures token { result ≡ false → token_comments (chars text.now) end ≡ [] }
    ensures class { (f : Flags) → result ≡ false → class_comments f (chars text.now) end ≡ [] }
{
    let after = end.saturating_sub(1);
    let length = text.len().saturating_sub(after);
    text.as_bytes()[..length].contains(&b'#')
}

/// The comment, if it ends at the reach or before it.
fn in_token(comment: LayoutComment<'_>, end: Reach) -> Option<LayoutComment<'_>>
    ensures value { (l : List Comment) →
        MatchOption result (if_inside end (comment_of comment.entry) l ≡ [])
        (λ c. if_inside end (comment_of comment.entry) l ≡ comment_of c ∷ l) }
    ensures same { IfSome result (λ c. c ≡ comment.entry) }
{
    if end <= reach(comment.rest) {
        Some(comment)
    } else {
        None
    }
}

/// Whether the character begins what may be a name. In a name a `#` is a character like others.
fn begins_name(c: char) -> bool
    ensures { result ≡ tokens.begins_name c }
{
    matches!(c, '<' | '\'' | 'P')
}

/// The first comment in the token at the front of `text` that ends at the reach; none if it has no comment. In the token each
/// `#` begins a comment, or is in one, but in a name.
pub fn first_in_token(text: &str, end: Reach) -> Option<LayoutComment<'_>>
    ensures value { MatchOption result (token_comments (chars text.now) end ≡ [])
        (λ c. token_comments (chars text.now) end ≡ comment_of c ∷ token_comments (chars c.rest.now) end) }
    ensures shorter { IfSome result (λ c. length c.rest.now < length text.now) }
{
    let mut rest = text;
    while end < reach(rest) {
        if let Some(opened) = comment_in_token(rest, end) {
            let Ok(past) = comment(opened) else {
                return None;
            };
            let found = LayoutComment {
                start: rest,
                rest: past,
                is_line: false,
            };
            return in_token(found, end);
        }
        let Some((c, after)) = next(rest) else {
            return None;
        };
        if c == '#' {
            let found = LayoutComment {
                start: rest,
                rest: line(after),
                is_line: true,
            };
            return in_token(found, end);
        }
        if begins_name(c) {
            return None;
        }
        rest = after;
    }
    None
}
