//! Patterns with their reports fixed.
ghost use Rattle.std.specs.Prelude.{◌≡◌, chars, map, string_bytes, IfOk, IfSome, IsTrue};
ghost use Rattle.fancy_lex.specs.Flags.{flags_of};
ghost use Rattle.fancy_syntax.specs.InfoViews.{info_of};
ghost use Rattle.fancy_syntax.specs.View.{view};
ghost use Rattle.fancy_grammar.specs.Trivia.{comment_texts};
ghost use Rattle.fancy_syntax.specs.TriviaViews.{trivium_of};
ghost use Rattle.pattern_fixes.specs.Edits as spec;
ghost use Rattle.pattern_fixes.specs.Fixed.{IsFixedText};
ghost use Rattle.pattern_fixes.specs.KeepsMatches.{KeepsMatches};

use crate::comments::has_same_comments;
use crate::edit::{Edit, FixableReport, edit_of};
use crate::edits::{apart, with_edit, with_edits};
use crate::groups::has_same_groups;
use crate::tree::is_fixed;
use fancy_lex::flags::Flags;
use fancy_syntax::error::Error;
use fancy_syntax::expr::Expr;
use fancy_syntax::tree::ExprTree;
use fancy_syntax::trivium::Trivium;
use std::alloc::{AllocError, Global};

/// How many reports of a pattern are fixed at once.
pub const MAX_FIXES: usize = 64;

/// A pattern, the flags that it is parsed under, and its tree.
#[derive(Clone, Copy)]
pub struct ParsedPattern<'p, 't> {
    pub alloc: Global,
    pub flags: u32,
    pub pattern: &'p str,
    pub tree: &'t ExprTree,
    /// What no node of the tree has.
    pub trivia: &'t [Trivium],
}

impl<'p> ParsedPattern<'p, '_> {
    /// Whether the text is parsed, with the same group information, to the tree of the pattern with some reports fixed.
    fn is_fixed_as(&self, text: &str) -> Result<bool, AllocError>
        ensures fixed { IfOk result (λ b. IsTrue b → IsFixedText (flags_of self.now.flags) text.now
            (view self.now.tree.now.expr) (info_of self.now.tree.now)
            (comment_texts self.now.pattern.now (map trivium_of self.now.trivia.now))) }
        ensures matches { IfOk result (λ b. IsTrue b → KeepsMatches (flags_of self.now.flags) (chars text.now)
            (view self.now.tree.now.expr) (info_of self.now.tree.now)) }
    {
        let (new, _, trivia) = match Expr::parse_tree_with_trivia(self.alloc, text, self.flags) {
            Ok(new) => new,
            Err(Error::ParseError(..)) => return Ok(false),
            Err(Error::OutOfMemory) => return Err(AllocError),
        };
        if !has_same_groups(&new, self.tree) {
            return Ok(false);
        }
        if !has_same_comments(self.alloc, self.pattern, self.trivia, text, &trivia)? {
            return Ok(false);
        }
        let unicode = Flags::from_bits(self.flags).unicode;
        is_fixed(self.alloc, &self.tree.expr, &new.expr, unicode)
    }

    /// The pattern with the edits made, if that fixes reports and changes nothing else.
    fn fixed_by(&self, edits: &[Edit<'_>]) -> Result<Option<String>, AllocError>
        ensures fixed { IfOk result (λ o. IfSome o (λ text. IsFixedText (flags_of self.now.flags) (string_bytes text)
            (view self.now.tree.now.expr) (info_of self.now.tree.now)
            (comment_texts self.now.pattern.now (map trivium_of self.now.trivia.now)))) }
        ensures matches { IfOk result (λ o. IfSome o (λ text. KeepsMatches (flags_of self.now.flags)
            (chars (string_bytes text)) (view self.now.tree.now.expr) (info_of self.now.tree.now))) }
    {
        let Some(text) = with_edits(self.alloc, self.pattern, edits)? else {
            return Ok(None);
        };
        if self.is_fixed_as(text.as_str())? {
            Ok(Some(text))
        } else {
            Ok(None)
        }
    }

    /// The edit that fixes the report, one of these on the pattern, and changes nothing else; none if there is none.
    pub fn fix(
        &self,
        report: FixableReport,
        reports: &[FixableReport],
    ) -> Result<Option<Edit<'p>>, AllocError>
        ensures fixed { IfOk result (λ o. IfSome o (λ edit. IsFixedText (flags_of self.now.flags)
            (spec.with_edit self.now.pattern.now edit) (view self.now.tree.now.expr) (info_of self.now.tree.now)
            (comment_texts self.now.pattern.now (map trivium_of self.now.trivia.now)))) }
        ensures matches { IfOk result (λ o. IfSome o (λ edit. KeepsMatches (flags_of self.now.flags)
            (chars (spec.with_edit self.now.pattern.now edit)) (view self.now.tree.now.expr) (info_of self.now.tree.now))) }
    {
        let Some(edit) = edit_of(self.pattern, report, reports) else {
            return Ok(None);
        };
        let Some(text) = with_edit(self.alloc, self.pattern, edit)? else {
            return Ok(None);
        };
        if self.is_fixed_as(text.as_str())? {
            Ok(Some(edit))
        } else {
            Ok(None)
        }
    }

    /// The edits that may fix the first of the reports, in the order of the text and apart from each other.
    pub fn edits(&self, reports: &[FixableReport]) -> Result<Vec<Edit<'p>>, AllocError> {
        let mut edits = Vec::new(self.alloc);
        for report in reports.iter().take(MAX_FIXES) {
            if let Some(edit) = edit_of(self.pattern, *report, reports) {
                edits.push(edit)?;
            }
        }
        apart(self.alloc, edits)
    }

    /// Those of the edits that fix a report, each by itself, and change nothing else.
    fn fixing(&self, edits: &[Edit<'p>]) -> Result<Vec<Edit<'p>>, AllocError> {
        let mut fixing = Vec::new(self.alloc);
        for edit in edits {
            if self.fixed_by(&[*edit])?.is_some() {
                fixing.push(*edit)?;
            }
        }
        Ok(fixing)
    }

    /// The pattern with reports fixed, and nothing else changed; none if none of them can be fixed. Of reports that
    /// overlap the first is fixed, and no more than `MAX_FIXES` are.
    pub fn fixed(&self, reports: &[FixableReport]) -> Result<Option<String>, AllocError>
        ensures fixed { IfOk result (λ o. IfSome o (λ text. IsFixedText (flags_of self.now.flags) (string_bytes text)
            (view self.now.tree.now.expr) (info_of self.now.tree.now)
            (comment_texts self.now.pattern.now (map trivium_of self.now.trivia.now)))) }
        ensures matches { IfOk result (λ o. IfSome o (λ text. KeepsMatches (flags_of self.now.flags)
            (chars (string_bytes text)) (view self.now.tree.now.expr) (info_of self.now.tree.now))) }
    {
        let edits = self.edits(reports)?;
        if edits.is_empty() {
            return Ok(None);
        }
        if let Some(text) = self.fixed_by(&edits)? {
            return Ok(Some(text));
        }
        let fixing = self.fixing(&edits)?;
        if fixing.is_empty() {
            return Ok(None);
        }
        if let Some(text) = self.fixed_by(&fixing)? {
            return Ok(Some(text));
        }
        self.fixed_by(fixing.get(..1).unwrap_or(&[]))
    }
}
