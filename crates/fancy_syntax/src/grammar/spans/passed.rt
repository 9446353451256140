//! What no node has, as it is recorded: comments, inline flags, parentheses, and text that leaves nothing in the tree.
ghost use Rattle.std.specs.Prelude.{◌≡◌, ◌+◌, false, [], ◌∷◌, chars, map, OnOk};
ghost use Rattle.fancy_lex.specs.CommentViews.{comment_of};
ghost use Rattle.fancy_lex.specs.Text.{reach_of};
ghost use Rattle.fancy_lex.specs.TokenComments.{class_comments, escape_comments, token_comments};
ghost use Rattle.fancy_grammar.specs.Trivia.{closing, dropped, inner_at, of_comment, of_inner, opening_of, part};
ghost use Rattle.fancy_syntax.specs.Log as spec;
ghost use Rattle.fancy_syntax.specs.Log.{layout_passed};
ghost use Rattle.fancy_syntax.specs.LogViews.{log_of};
ghost use Rattle.fancy_syntax.specs.Parsed.{group_kind, state};
ghost use Rattle.fancy_syntax.specs.TriviaViews.{kind_of, recorded_part};

use super::Spans;
use crate::grammar::group::kind::GroupKind;
use crate::grammar::recorded::RecordedTrivium;
use crate::grammar::spanning::Spanning;
use crate::grammar::state::State;
use crate::trivium::TriviumKind;
use fancy_lex::class::next_escape;
use fancy_lex::escape::after_layout_letter;
use fancy_lex::flags::Flags;
use fancy_lex::layout::{LayoutComment, first_comment, first_in_token, has_hash};
use fancy_lex::text::{Reach, next, reach, reach_before};
use std::alloc::{AllocError, Global};

/// The first capacity of the list of what no node has: more than most patterns have.
const PARTS: usize = 16;

impl Spans {
    /// Records the comments in the layout at the front.
    #[inline(never)]
    pub(super) fn pass_comments(&mut self, current: State) -> Result<(), AllocError>
        ensures { OnOk result (log_of self.new ≡ layout_passed (state current.entry) (log_of self.old)) }
    {
        let mut rest = current.rest;
        while let Some(comment) = first_comment(rest, current.flags.ignore_space) {
            self.passed.push(trivium_of_comment(comment))?;
            rest = comment.rest;
        }
        Ok(())
    }

    /// Records the comments in the token at the front of `text` that ends at the reach.
    #[inline(never)]
    pub(super) fn pass_token(&mut self, text: &str, end: Reach) -> Result<(), AllocError>
        ensures { OnOk result (log_of self.new ≡
            spec.pass (map of_inner (token_comments (chars text.now) end)) (log_of self.old)) }
    {
        // Usually there is no `#`, and so no comment.
        if !has_hash(text, end) {
            return Ok(());
        }
        let mut rest = text;
        while let Some(comment) = first_in_token(rest, end) {
            self.passed.push(inner_trivium(comment))?;
            rest = comment.rest;
        }
        Ok(())
    }

    /// Records the comments in an escape that ends at the reach. `text` is what follows its backslash.
    fn pass_escape(&mut self, text: &str, end: Reach) -> Result<(), AllocError>
        ensures { OnOk result (log_of self.new ≡
            spec.pass (map of_inner (escape_comments (chars text.now) end)) (log_of self.old)) }
    {
        match after_layout_letter(text) {
            Some(rest) => self.pass_token(rest, end),
            None => Ok(()),
        }
    }

    /// Records the comments in a class that ends at the reach. `text` is what follows its bracket.
    #[inline(never)]
    fn pass_class(
        &mut self,
        alloc: Global,
        text: &str,
        end: Reach,
        flags: Flags,
    ) -> Result<(), AllocError>
        ensures { OnOk result (log_of self.new ≡
            spec.pass (map of_inner (class_comments flags (chars text.now) end)) (log_of self.old)) }
    {
        // Usually there is no `#`, and so no comment.
        if !has_hash(text, end) {
            return Ok(());
        }
        let mut rest = text;
        while let Some((inside, after)) = next_escape(alloc, rest, end, flags) {
            self.pass_escape(inside, reach(after))?;
            rest = after;
        }
        Ok(())
    }

    /// Records the comments in the token that begins the atom at `start`, and that ends at the reach.
    pub(super) fn pass_start(
        &mut self,
        alloc: Global,
        start: State,
        end: Reach,
    ) -> Result<(), AllocError>
        ensures { OnOk result (log_of self.new ≡ spec.pass (inner_at (state start.entry) end) (log_of self.old)) }
    {
        let Some((c, rest)) = next(start.rest) else {
            return Ok(());
        };
        match c {
            '(' => self.pass_token(rest, end),
            '\\' => self.pass_escape(rest, end),
            '[' => self.pass_class(alloc, rest, end, start.flags),
            _ => Ok(()),
        }
    }

    /// Records a part of the pattern that has no node, or may have none.
    pub(super) fn pass(&mut self, part: RecordedTrivium) -> Result<(), AllocError>
        ensures { OnOk result (log_of self.new ≡ spec.pass (recorded_part part ∷ []) (log_of self.old)) }
    {
        if self.passed.is_empty() {
            self.passed.reserve(PARTS)?;
        }
        Ok(self.passed.push(part)?)
    }

    /// Records the opening of a group of this kind if the group has no node, or may have none.
    #[inline(always)]
    pub(super) fn pass_opening(
        &mut self,
        kind: GroupKind,
        start: State,
        inside: State,
    ) -> Result<(), AllocError>
        ensures { OnOk result (log_of self.new ≡
            spec.pass (opening_of (group_kind kind.entry) (state start.entry) (state inside.entry)) (log_of self.old)) }
    {
        let opening = TriviumKind::Opening {
            around: start.flags,
            inside: inside.flags,
        };
        match kind {
            GroupKind::FlagGroup => self.pass(part_between(start, inside, opening, false)),
            GroupKind::Capture(None) | GroupKind::Undecided => {
                self.pass(part_between(start, inside, opening, true))
            }
            GroupKind::Capture(Some(_))
            | GroupKind::Look(_)
            | GroupKind::Atomic
            | GroupKind::Define
            | GroupKind::Repeater => Ok(()),
        }
    }

    /// Adds all text between the reaches: these parts, and what is before, between and after them.
    pub(super) fn fill(
        &mut self,
        start: usize,
        end: usize,
        parts: &[RecordedTrivium],
    ) -> Result<(), AllocError>
        ensures { OnOk result (log_of self.new ≡ spec.text_filled start end (map recorded_part parts.now) (log_of self.old)) }
    {
        let mut from = start;
        for part in parts {
            // A part that begins before the end of the last one lies in it.
            if part.start > from {
                self.pass(*part)?;
                continue;
            }
            self.drop_text(from, part.start)?;
            self.pass(*part)?;
            from = part.end;
        }
        self.drop_text(from, end)
    }

    /// Inserts the text between the reaches, unless it is empty, after that many parts.
    pub(super) fn insert_dropped(
        &mut self,
        height: usize,
        start: usize,
        end: usize,
    ) -> Result<(), AllocError>
        ensures { OnOk result (log_of self.new ≡ spec.text_inserted height start end (log_of self.old)) }
    {
        if start == end {
            return Ok(());
        }
        let height = height.min(self.passed.len());
        Ok(self.passed.insert(height, dropped(start, end))?)
    }
}

/// The part of the pattern from one state to another.
pub(super) fn part_between(
    start: State,
    end: State,
    kind: TriviumKind,
    unnamed: bool,
) -> RecordedTrivium
    ensures { recorded_part result ≡ part (reach_of (chars start.entry.rest.now)) (reach_of (chars end.entry.rest.now))
        (kind_of kind) unnamed }
{
    RecordedTrivium {
        start: reach(start.rest),
        end: reach(end.rest),
        kind,
        unnamed,
    }
}

/// The closing parenthesis that `rest` follows.
pub(super) fn closing_before(rest: &str, unnamed: bool) -> RecordedTrivium
    ensures { let end = reach_of (chars rest.now) in
        recorded_part result ≡ part (end + 1) end closing unnamed }
{
    RecordedTrivium {
        start: reach_before(rest),
        end: reach(rest),
        kind: TriviumKind::Closing,
        unnamed,
    }
}

/// A part that leaves nothing in the tree.
pub(super) fn dropped(start: usize, end: usize) -> RecordedTrivium
    ensures { recorded_part result ≡ part start end dropped false }
{
    RecordedTrivium {
        start,
        end,
        kind: TriviumKind::Dropped,
        unnamed: false,
    }
}

/// A comment, as it is recorded.
fn trivium_of_comment(comment: LayoutComment<'_>) -> RecordedTrivium
    ensures { recorded_part result ≡ of_comment (comment_of comment.entry) }
{
    let kind = if comment.is_line {
        TriviumKind::LineComment
    } else {
        TriviumKind::Comment
    };
    RecordedTrivium {
        start: reach(comment.start),
        end: reach(comment.rest),
        kind,
        unnamed: false,
    }
}

/// A comment in a token, as it is recorded.
fn inner_trivium(comment: LayoutComment<'_>) -> RecordedTrivium
    ensures { recorded_part result ≡ of_inner (comment_of comment.entry) }
{
    RecordedTrivium {
        kind: if comment.is_line {
            TriviumKind::InnerLineComment
        } else {
            TriviumKind::InnerComment
        },
        ..trivium_of_comment(comment)
    }
}
