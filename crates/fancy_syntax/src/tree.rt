//! Parsing a pattern.
ghost use Rattle.std.specs.Prelude.{◌≡◌, chars, IfOk, IfErr};
ghost use Rattle.fancy_lex.specs.ErrorViews.{error_in};
ghost use Rattle.fancy_lex.specs.Flags.{flags_of, unicode_alone};
ghost use Rattle.fancy_lex.specs.Text.{reach_of};
ghost use Rattle.fancy_grammar.specs.ParseResult.{IsTreeOf};
ghost use Rattle.fancy_grammar.specs.Promises.{IsParsed, AreParsedSpans, AreParsedTrivia, IsParseError};
ghost use Rattle.fancy_grammar.specs.Spans.{AreSpansOf};
ghost use Rattle.fancy_grammar.specs.Trivia.{IsTriviaOf};
ghost use Rattle.fancy_syntax.specs.InfoViews.{info_of};
ghost use Rattle.fancy_syntax.specs.Log.{Log, started};
ghost use Rattle.fancy_syntax.specs.LogViews.{log_of, returned_spans, returned_trivia};
ghost use Rattle.fancy_syntax.specs.SpanViews.{spans_of};
ghost use Rattle.fancy_syntax.specs.TriviaViews.{trivia_of};
ghost use Rattle.fancy_syntax.specs.View.{view};

mod equality;
mod resolved;

use crate::expr::Expr;
use crate::grammar::parse;
use crate::grammar::spanning::{NoSpans, Spanning};
use crate::grammar::spans::Spans;
use crate::resolve::resolve;
use crate::span::Span;
use crate::trivium::Trivium;
use fancy_lex::error::{ReadError, Result};
use fancy_lex::flags::{FLAG_UNICODE, Flags};
use fancy_lex::text::reach;
use std::alloc::{AllocError, Global};
use std::collections::{BTreeMap, BTreeSet};

/// The tree of a pattern with its group information. For `(?<a>x)(?<b>y)(?<a>z)`, `named_groups` maps `a` to 1 and 3
/// and `b` to 2, and `total_groups` is 3.
#[derive(Debug, Drop)]
pub struct ExprTree {
    /// The tree. Its k-th `Group` in preorder is the group with the number k.
    pub expr: Expr,
    /// The group numbers of back references, such as 1 in `(a)\1`, up to `total_groups`. A relative reference to group
    /// 0, such as `\k<-1>` before the first group, counts too. Conditions and subroutine calls do not.
    pub backrefs: BTreeSet<usize>,
    /// The group numbers of each name, ascending.
    pub named_groups: BTreeMap<String, Vec<usize>>,
    /// Whether the pattern has a back reference in digits, such as `\1`, or a subroutine call by number, such as
    /// `\g<1>`.
    pub numeric_capture_group_references: bool,
    /// Whether the pattern has a subroutine call, such as `\g<n>`, even one that cannot be resolved.
    pub contains_subroutines: bool,
    /// Whether the pattern calls itself by number, `\g<0>`.
    pub self_recursive: bool,
    /// The number of groups that have a number.
    pub total_groups: usize,
    /// The number of the first back reference above `total_groups`, such as 12 in `\12`. Such a reference is not an
    /// error.
    pub out_of_range_backref: Option<usize>,
    /// Whether groups without a name have no number: `FLAG_IGNORE_NUMBERED_GROUPS_WHEN_NAMED_GROUPS_EXIST` is set, and
    /// some group has a name.
    pub numbered_groups_ignored: bool,
}

impl ExprTree {
    /// Returns an equal tree with equal group information, or `AllocError` if out of memory.
    pub fn clone(&self, alloc: Global) -> std::result::Result<Self, AllocError>
        ensures tree { IfOk result (λ t. view t.expr ≡ view self.now.expr) }
        ensures group_info { IfOk result (λ t. info_of t ≡ info_of self.now) }
    {
        Ok(ExprTree {
            backrefs: self.backrefs.clone()?,
            named_groups: self.named_groups.clone()?,
            numeric_capture_group_references: self.numeric_capture_group_references,
            contains_subroutines: self.contains_subroutines,
            self_recursive: self.self_recursive,
            total_groups: self.total_groups,
            out_of_range_backref: self.out_of_range_backref,
            numbered_groups_ignored: self.numbered_groups_ignored,
            expr: self.expr.clone(alloc)?,
        })
    }
}

impl Expr {
    /// Parses the pattern under the flags whose bits are set; other bits are ignored. The tree of a pattern of n bytes
    /// has at most 2 n + 1 nodes and at most 832 levels.
    ///
    /// Returns `ParseError` with the position and the kind of the first error; the position is a byte offset, at most
    /// one past the end. A reference that cannot be resolved is reported only if the whole pattern could be parsed.
    /// Returns `OutOfMemory` if out of memory.
    ///
    /// ```rust
    /// let tree = Expr::parse_tree_with_flags(alloc, "(a|b)c*", FLAG_CASEI | FLAG_UNICODE)?;
    /// let groups = tree.total_groups; // 1
    /// ```
    pub fn parse_tree_with_flags(alloc: Global, re: &str, flags: u32) -> Result<ExprTree>
        ensures tree { IfOk result (λ t. IsParsed (flags_of flags) re.now (view t.expr) (info_of t)) }
        ensures error { IfErr result (λ e. IsParseError (flags_of flags) re.now e) }
    {
        let flags = Flags::from_bits(flags);
        match read(alloc, re, flags, &mut NoSpans) {
            Ok(tree) => Ok(tree),
            Err(error) => Err(error.in_pattern(re)),
        }
    }

    /// Parses the pattern as `parse_tree_with_flags` does, with the same tree and the same errors, and also returns the
    /// span of each node of the tree, in preorder. A quantified node starts where its operand does and ends after the
    /// quantifier. A group that has no node, such as `(?:a)`, is only in the span of its parent.
    ///
    /// ```rust
    /// let (tree, spans) = Expr::parse_tree_with_spans(alloc, "(a|b)c*", FLAG_UNICODE)?;
    /// let group = spans[1]; // Span { start: 0, end: 5 }
    /// ```
    pub fn parse_tree_with_spans(
        alloc: Global,
        re: &str,
        flags: u32,
    ) -> Result<(ExprTree, Vec<Span>)>
        ensures tree { IfOk result (λ p. IsParsed (flags_of flags) re.now (view p.0.expr) (info_of p.0)) }
        ensures spans { IfOk result (λ p. AreParsedSpans (flags_of flags) re.now (view p.0.expr) (spans_of p.1)) }
        ensures error { IfErr result (λ e. IsParseError (flags_of flags) re.now e) }
    {
        let flags = Flags::from_bits(flags);
        match read_with_spans(alloc, re, flags) {
            Ok(found) => Ok(found),
            Err(error) => Err(error.in_pattern(re)),
        }
    }

    /// Parses the pattern as `parse_tree_with_spans` does, with the same tree, spans and errors, and also returns what no
    /// node has, in the order of the pattern: comments; inline flags; the parentheses of groups that make no node, which are
    /// flag groups, such as `(?:` or `(?i:`, and groups that have no number because only those with a name have one; a
    /// quantifier that has no effect; and all of a conditional without branches but its condition. A comment inside a token,
    /// such as one in the braces of a quantifier or after the parenthesis of a group, is part of the token.
    ///
    /// ```rust
    /// let (tree, spans, trivia) = Expr::parse_tree_with_trivia(alloc, "a(?#b)", FLAG_UNICODE)?;
    /// let comment = trivia[0].span; // Span { start: 1, end: 6 }
    /// ```
    pub fn parse_tree_with_trivia(
        alloc: Global,
        re: &str,
        flags: u32,
    ) -> Result<(ExprTree, Vec<Span>, Vec<Trivium>)>
        ensures tree { IfOk result (λ p. IsParsed (flags_of flags) re.now (view p.0.expr) (info_of p.0)) }
        ensures spans { IfOk result (λ p. AreParsedSpans (flags_of flags) re.now (view p.0.expr) (spans_of p.1)) }
        ensures trivia { IfOk result (λ p. AreParsedTrivia (flags_of flags) re.now (trivia_of p.2)) }
        ensures error { IfErr result (λ e. IsParseError (flags_of flags) re.now e) }
    {
        let flags = Flags::from_bits(flags);
        match read_with_trivia(alloc, re, flags) {
            Ok(found) => Ok(found),
            Err(error) => Err(error.in_pattern(re)),
        }
    }

    /// Parses the pattern under only `FLAG_UNICODE`, with the errors of `parse_tree_with_flags`.
    ///
    /// ```rust
    /// let tree = Expr::parse_tree(alloc, "(?<year>\\d{4})-\\k<year>")?;
    /// let has_year = tree.named_groups.contains_key("year"); // true
    /// ```
    pub fn parse_tree(alloc: Global, re: &str) -> Result<ExprTree>
        ensures tree { IfOk result (λ t. IsParsed unicode_alone re.now (view t.expr) (info_of t)) }
        ensures error { IfErr result (λ e. IsParseError unicode_alone re.now e) }
    {
        Expr::parse_tree_with_flags(alloc, re, FLAG_UNICODE)
    }
}

/// Reads the pattern: its tree, or its error with a reach.
#[inline]
fn read<S: Spanning>(
    alloc: Global,
    re: &str,
    flags: Flags,
    spans: &mut S,
) -> std::result::Result<ExprTree, ReadError>
    ensures found { IfOk result (λ t. IsTreeOf flags (chars re.now) (view t.expr) (info_of t)) }
    ensures error { IfErr result (λ e. IsParseError flags re.now (error_in (chars re.now) e)) }
    ensures spans { (l : Log) → l ≡ started (reach_of (chars re.now)) → S.records spans.old l →
        IfOk result (λ t. (m : Log) × S.records spans.new m × AreSpansOf flags (chars re.now)
        (returned_spans (chars re.now) (info_of t).numbered_groups_ignored m)
        × IsTriviaOf flags (chars re.now) (returned_trivia (chars re.now) (info_of t).numbered_groups_ignored m)) }
{
    let raw = parse(alloc, re, flags, spans)?;
    resolve(alloc, raw, re)
}

/// Reads the pattern: its tree with the spans of its nodes, or its error with a reach.
fn read_with_spans(
    alloc: Global,
    re: &str,
    flags: Flags,
) -> std::result::Result<(ExprTree, Vec<Span>), ReadError>
    ensures found { IfOk result (λ p. IsTreeOf flags (chars re.now) (view p.0.expr) (info_of p.0)) }
    ensures error { IfErr result (λ e. IsParseError flags re.now (error_in (chars re.now) e)) }
    ensures spans { IfOk result (λ p. AreSpansOf flags (chars re.now) (spans_of p.1)) }
{
    let (tree, recorded) = read_recorded(alloc, re, flags)?;
    let spans = recorded.returned(alloc, re, tree.numbered_groups_ignored)?;
    Ok((tree, spans))
}

/// Reads the pattern: its tree with the spans of its nodes and what no node has, or its error with a reach.
fn read_with_trivia(
    alloc: Global,
    re: &str,
    flags: Flags,
) -> std::result::Result<(ExprTree, Vec<Span>, Vec<Trivium>), ReadError>
    ensures found { IfOk result (λ p. IsTreeOf flags (chars re.now) (view p.0.expr) (info_of p.0)) }
    ensures error { IfErr result (λ e. IsParseError flags re.now (error_in (chars re.now) e)) }
    ensures spans { IfOk result (λ p. AreSpansOf flags (chars re.now) (spans_of p.1)) }
    ensures trivia { IfOk result (λ p. IsTriviaOf flags (chars re.now) (trivia_of p.2)) }
{
    let (tree, recorded) = read_recorded(alloc, re, flags)?;
    let spans = recorded.returned(alloc, re, tree.numbered_groups_ignored)?;
    let trivia = recorded.returned_trivia(alloc, re, tree.numbered_groups_ignored)?;
    Ok((tree, spans, trivia))
}

/// Reads the pattern: its tree with what was recorded, or its error with a reach.
fn read_recorded(
    alloc: Global,
    re: &str,
    flags: Flags,
) -> std::result::Result<(ExprTree, Spans), ReadError>
    ensures found { IfOk result (λ p. IsTreeOf flags (chars re.now) (view p.0.expr) (info_of p.0)) }
    ensures error { IfErr result (λ e. IsParseError flags re.now (error_in (chars re.now) e)) }
    ensures spans { IfOk result (λ p. AreSpansOf flags (chars re.now)
        (returned_spans (chars re.now) (info_of p.0).numbered_groups_ignored (log_of p.1))) }
    ensures trivia { IfOk result (λ p. IsTriviaOf flags (chars re.now)
        (returned_trivia (chars re.now) (info_of p.0).numbered_groups_ignored (log_of p.1))) }
{
    let mut recorded = Spans::new(alloc, reach(re))?;
    let tree = read(alloc, re, flags, &mut recorded)?;
    Ok((tree, recorded))
}
