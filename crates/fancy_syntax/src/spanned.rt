//! A tree with the spans of its nodes, and what no node has.
ghost use Rattle.std.specs.Prelude.{◌≡◌, ◌++◌, drop, map, take, IfErr, IfOk, OnOk};
ghost use Rattle.std.specs.Iterator.{YieldsFirstBy, item_count};
ghost use Rattle.std.specs.List.{AllByRecursion, flat_map};
ghost use Rattle.std.specs.Str.Pattern.{GetsRange};
ghost use Rattle.fancy_lex.specs.Flags.{flags_of};
ghost use Rattle.fancy_grammar.specs.Promises.{IsParsed, AreParsedSpans, AreParsedTrivia, IsParseError};
ghost use Rattle.fancy_grammar.specs.Tree.{children};
ghost use Rattle.fancy_syntax.specs.InfoViews.{info_of};
ghost use Rattle.fancy_syntax.specs.Children.{children_of};
ghost use Rattle.fancy_syntax.specs.Spanned as spec;
ghost use Rattle.fancy_syntax.specs.Spanned.{IsWhole, spanned_of, spanned_of_tree, remaining_spanned, side_by_side};
ghost use Rattle.fancy_syntax.specs.SpanViews.{spans_of};
ghost use Rattle.fancy_syntax.specs.TriviaViews.{trivia_of};
ghost use Rattle.fancy_syntax.specs.View.{view, views};

use crate::expr::{Expr, ExprChildrenIter};
use crate::span::Span;
use crate::tree::ExprTree;
use crate::trivium::Trivium;
use fancy_lex::error::Result;
use std::alloc::{AllocError, Global};

/// The tree of a pattern with its group information, the span of each of its nodes, and what no node has.
#[derive(Debug, Drop)]
pub struct SpannedTree {
    /// The tree with its group information.
    pub tree: ExprTree,
    /// The span of each node of the tree, in preorder.
    pub spans: Vec<Span>,
    /// What no node has, in the order of the pattern: comments, inline flags, the parentheses of groups that make no node, and
    /// what leaves nothing in the tree.
    pub trivia: Vec<Trivium>,
    /// How many nodes each node has, including itself, in preorder.
    sizes: Vec<usize>,
}

impl SpannedTree {
    /// Parses the pattern as `Expr::parse_tree_with_trivia` does: with the same tree, spans, trivia and errors.
    ///
    /// ```rust
    /// let parsed = SpannedTree::parse(alloc, "(a|b)c*", FLAG_UNICODE)?;
    /// for child in parsed.root().children() {
    ///     println!(rt; "{}..{}", child.span().start, child.span().end)?; // 0..5, then 5..7
    /// }
    /// ```
    pub fn parse(alloc: Global, re: &str, flags: u32) -> Result<SpannedTree>
        ensures tree { IfOk result (λ t. IsParsed (flags_of flags) re.now (view t.tree.expr) (info_of t.tree)) }
        ensures spans { IfOk result (λ t. AreParsedSpans (flags_of flags) re.now (view t.tree.expr) (spans_of t.spans)) }
        ensures trivia { IfOk result (λ t. AreParsedTrivia (flags_of flags) re.now (trivia_of t.trivia)) }
        ensures sized { IfOk result (λ t. (spanned_of_tree t).sizes ≡ spec.sizes (view t.tree.expr)) }
        ensures whole { IfOk result (λ t. IsWhole (spanned_of_tree t)) }
        ensures error { IfErr result (λ e. IsParseError (flags_of flags) re.now e) }
    {
        let (tree, spans, trivia) = Expr::parse_tree_with_trivia(alloc, re, flags)?;
        let sizes = all_sizes(alloc, &tree.expr, spans.len())?;
        Ok(SpannedTree {
            tree,
            spans,
            trivia,
            sizes,
        })
    }

    /// Returns the root of the tree. If `tree` was changed after parsing, the nodes are the changed ones. Each has the
    /// span of the parsed node that the same steps from the root lead to, or 0 to 0 if there is no such node.
    pub fn root(&self) -> SpannedNode<'_>
        ensures { spanned_of result ≡ spanned_of_tree self.now }
    {
        SpannedNode {
            expr: &self.tree.expr,
            spans: &self.spans,
            sizes: &self.sizes,
        }
    }
}

/// A node of a `SpannedTree`. It borrows from the tree, and is cheap to copy.
#[derive(Debug, Clone, Copy)]
pub struct SpannedNode<'a> {
    expr: &'a Expr,
    /// The spans of the node and of its descendants, in preorder.
    spans: &'a [Span],
    /// How many nodes each of them has, including itself.
    sizes: &'a [usize],
}

impl<'a> SpannedNode<'a> {
    /// Returns the node itself.
    pub fn expr(&self) -> &'a Expr
        ensures { result.now ≡ (spanned_of self.now).expr }
    {
        self.expr
    }

    /// Returns the part of the pattern that the node was parsed from, in byte offsets.
    pub fn span(&self) -> Span
        ensures { result ≡ spec.first_span (spanned_of self.now).spans }
    {
        match self.spans.first() {
            Some(span) => *span,
            None => Span { start: 0, end: 0 },
        }
    }

    /// Returns the text of the node, which is the part of the pattern at its span. Pass the pattern that was parsed. Given
    /// another text, it may return `None`, as `Span::text` does.
    pub fn text<'p>(&self, pattern: &'p str) -> Option<&'p str>
        ensures { let span = spec.first_span (spanned_of self.now).spans in
            GetsRange pattern.now span.start span.end result }
    {
        self.span().text(pattern)
    }

    /// Returns an iterator over the immediate children, in the order of `Expr::children_iter`. Each step takes constant
    /// time, and nothing is allocated.
    pub fn children(&self) -> SpannedChildren<'a>
        ensures trees { views (map (λ p. p.expr) (remaining_spanned result)) ≡ children (view (spanned_of self.now).expr) }
        ensures exprs { map (λ p. p.expr) (remaining_spanned result) ≡ children_of (spanned_of self.now).expr }
        ensures values { remaining_spanned result ≡ side_by_side (children_of (spanned_of self.now).expr)
            (drop 1 (spanned_of self.now).spans) (drop 1 (spanned_of self.now).sizes) }
        ensures whole { IsWhole (spanned_of self.now) → AllByRecursion IsWhole (remaining_spanned result) }
        ensures spans { IsWhole (spanned_of self.now) → flat_map (λ p. p.spans) (remaining_spanned result) ≡
            drop 1 (spanned_of self.now).spans }
    {
        SpannedChildren {
            exprs: self.expr.children_iter(),
            spans: past_first(self.spans),
            sizes: past_first(self.sizes),
        }
    }
}

/// An iterator over the immediate children of a `SpannedNode`, in the order of the pattern.
#[derive(Drop)]
pub struct SpannedChildren<'a> {
    exprs: ExprChildrenIter<'a>,
    /// The spans of the children that are still to come, and of their descendants.
    spans: &'a [Span],
    /// How many nodes each of these has.
    sizes: &'a [usize],
}

impl<'a> Iterator for SpannedChildren<'a> {
    type Item = SpannedNode<'a>;

    ghost next_gives = { YieldsFirstBy spanned_of remaining_spanned };

    ghost remaining = { item_count remaining_spanned };

    fn next(&mut self) -> Option<SpannedNode<'a>> {
        let expr = self.exprs.next()?;
        let size = first_size(self.sizes);
        let (spans, more_spans) = split(self.spans, size);
        let (sizes, more_sizes) = split(self.sizes, size);
        self.spans = more_spans;
        self.sizes = more_sizes;
        Some(SpannedNode { expr, spans, sizes })
    }
}

/// How many nodes the first tree has; 0 if there is none.
fn first_size(sizes: &[usize]) -> usize
    ensures { result ≡ spec.first_size sizes.now }
{
    match sizes.first() {
        Some(size) => *size,
        None => 0,
    }
}

/// What follows the first item.
fn past_first<T>(items: &[T]) -> &[T]
    ensures { result.now ≡ drop 1 items.now }
{
    match items.split_first() {
        Some((_, rest)) => rest,
        None => &[],
    }
}

/// The first `count` items, or all if there are fewer, and the others.
fn split<T>(items: &[T], count: usize) -> (&[T], &[T])
    ensures front { result.0.now ≡ take count items.now }
    ensures others { result.1.now ≡ drop count items.now }
{
    items.split_at(count.min(items.len()))
}

/// How many nodes each node of the tree has, including itself, in preorder. `nodes` is about how many there are.
fn all_sizes(
    alloc: Global,
    tree: &Expr,
    nodes: usize,
) -> std::result::Result<Vec<usize>, AllocError>
    ensures { IfOk result (λ v. v.items ≡ spec.sizes (view tree.now)) }
{
    let mut sizes = Vec::with_capacity(alloc, nodes)?;
    push_sizes(&mut sizes, tree)?;
    Ok(sizes)
}

/// Adds how many nodes each node of the tree has.
fn push_sizes(sizes: &mut Vec<usize>, tree: &Expr) -> std::result::Result<(), AllocError>
    ensures { OnOk result (sizes.new.items ≡ sizes.old.items ++ spec.sizes (view tree.now)) }
{
    let at = sizes.len();
    sizes.push(0)?;
    let mut children = tree.children_iter();
    while let Some(child) = children.next() {
        push_sizes(sizes, child)?;
    }
    let end = sizes.len();
    if let Some(size) = sizes.get_mut(at) {
        *size = end.saturating_sub(at);
    }
    Ok(())
}
