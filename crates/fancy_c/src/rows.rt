//! The nodes of a tree written into an array.
ghost use Rattle.std.specs.Prelude.{◌≡◌, ◌+◌, ◌≤◌, [], length};
ghost use Rattle.fancy_syntax.specs.Capacity.{in_word};
ghost use Rattle.fancy_grammar.specs.Tree.{children};
ghost use Rattle.fancy_syntax.specs.View.{view};
ghost use Rattle.fancy_c.specs.Buffer.{put_at};
ghost use Rattle.fancy_c.specs.Node as spec;
ghost use Rattle.fancy_c.specs.Node.{listed, listed_each, rows, span_at, texts};

use crate::node::{Node, NodeLocation, carried};
use fancy_syntax::expr::Expr;
use fancy_syntax::span::Span;

/// The number of rows, and the number of bytes of their texts.
#[derive(Clone, Copy)]
pub(crate) struct RowCounts {
    pub(crate) rows: usize,
    pub(crate) text: usize,
}

/// The span of the node with this index in preorder; 0 to 0 if there is no such node.
fn span_at(spans: &[Span], i: usize) -> Span
    ensures { result ≡ span_at spans.now i }
{
    match spans.get(i) {
        Some(span) => *span,
        None => Span { start: 0, end: 0 },
    }
}

/// The counts after a node without those below it, given those before it, each `usize::MAX` if it is above that.
#[inline(always)]
fn count_node(node: &Expr, before: RowCounts) -> RowCounts
    ensures nodes { result.rows ≡ in_word (before.rows + 1) }
    ensures text { result.text ≡ in_word (before.text + length (spec.carried (view node.now))) }
{
    RowCounts {
        rows: before.rows.saturating_add(1),
        text: before.text.saturating_add(carried(node).len()),
    }
}

/// The counts after a tree, given those before it, each `usize::MAX` if it is above that.
#[cycle(count)]
pub(crate) fn count(tree: &Expr, before: RowCounts) -> RowCounts
    ensures nodes { result.rows ≡ in_word (before.rows + length (listed (view tree.now))) }
    ensures text { result.text ≡ in_word (before.text + length (texts (listed (view tree.now)))) }
{
    let mut after = count_node(tree, before);
    let mut children = tree.children_iter();
    while let Some(child) = children.next() {
        after = count_child(child, after);
    }
    after
}

/// Counts a tree in the same way. Most have no children, and take no call.
#[inline(always)]
#[cycle(count)]
fn count_child(tree: &Expr, before: RowCounts) -> RowCounts
    ensures nodes { result.rows ≡ in_word (before.rows + length (listed (view tree.now))) }
    ensures text { result.text ≡ in_word (before.text + length (texts (listed (view tree.now)))) }
{
    if tree.is_leaf_node() {
        return count_node(tree, before);
    }
    count(tree, before)
}

/// Writes a text into the buffer from a position on, and returns the position after it.
pub(crate) fn put_text(bytes: &mut [u8], offset: usize, text: &[u8]) -> usize
    requires { offset + length text.now ≤ length bytes.old }
    ensures after { result ≡ offset + length text.now }
    ensures put { bytes.new ≡ put_at bytes.old offset text.now }
{
    match text {
        [] => offset,
        // as most texts are
        [byte] => {
            bytes[offset] = *byte;
            offset + 1
        }
        _ => {
            let after = offset + text.len();
            bytes[offset..after].copy_from_slice(text);
            after
        }
    }
}

/// Where a text begins that is put at a position; 0 if there is none.
fn start_of_text(offset: usize, text: &[u8]) -> usize
    ensures { result ≡ spec.start_of_text offset text.now }
{
    match text {
        [] => 0,
        _ => offset,
    }
}

/// Writes the row and the text of a node without children, after what is counted, and returns the counts after them.
#[inline(always)]
fn put_leaf(
    nodes: &mut [Node],
    bytes: &mut [u8],
    leaf: &Expr,
    spans: &[Span],
    before: RowCounts,
) -> RowCounts
    requires childless { children (view leaf.now) ≡ [] }
    requires nodes_capacity { before.rows + length (listed (view leaf.now)) ≤ length nodes.old }
    requires bytes_capacity { before.text + length (texts (listed (view leaf.now))) ≤ length bytes.old }
    ensures after { result.rows ≡ before.rows + length (listed (view leaf.now)) }
    ensures text_after { result.text ≡ before.text + length (texts (listed (view leaf.now))) }
    ensures nodes { nodes.new ≡ put_at nodes.old before.rows
        (rows (span_at spans.now) before.rows before.text (listed (view leaf.now))) }
    ensures bytes { bytes.new ≡ put_at bytes.old before.text (texts (listed (view leaf.now))) }
{
    let text = carried(leaf);
    let span = span_at(spans, before.rows);
    let after = RowCounts {
        rows: before.rows + 1,
        text: put_text(bytes, before.text, text),
    };
    let location = NodeLocation {
        end: after.rows,
        text: start_of_text(before.text, text),
        span,
    };
    nodes[before.rows] = location.row(leaf);
    after
}

/// Writes the rows of a tree's nodes, and their texts, after what is counted, and returns the counts after them.
#[cycle(put)]
pub(crate) fn put_tree(
    nodes: &mut [Node],
    bytes: &mut [u8],
    tree: &Expr,
    spans: &[Span],
    before: RowCounts,
) -> RowCounts
    requires nodes_capacity { before.rows + length (listed (view tree.now)) ≤ length nodes.old }
    requires bytes_capacity { before.text + length (texts (listed (view tree.now))) ≤ length bytes.old }
    ensures after { result.rows ≡ before.rows + length (listed (view tree.now)) }
    ensures text_after { result.text ≡ before.text + length (texts (listed (view tree.now))) }
    ensures nodes { nodes.new ≡ put_at nodes.old before.rows
        (rows (span_at spans.now) before.rows before.text (listed (view tree.now))) }
    ensures bytes { bytes.new ≡ put_at bytes.old before.text (texts (listed (view tree.now))) }
{
    let text = carried(tree);
    let first = RowCounts {
        rows: before.rows + 1,
        text: put_text(bytes, before.text, text),
    };
    let after = put_children(nodes, bytes, tree, spans, first);
    let location = NodeLocation {
        end: after.rows,
        text: start_of_text(before.text, text),
        span: span_at(spans, before.rows),
    };
    nodes[before.rows] = location.row(tree);
    after
}

/// Writes the rows of the children of a node in the same way.
#[cycle(put)]
fn put_children(
    nodes: &mut [Node],
    bytes: &mut [u8],
    tree: &Expr,
    spans: &[Span],
    before: RowCounts,
) -> RowCounts
    requires nodes_capacity { before.rows + length (listed_each (children (view tree.now))) ≤ length nodes.old }
    requires bytes_capacity { before.text + length (texts (listed_each (children (view tree.now)))) ≤ length bytes.old }
    ensures after { result.rows ≡ before.rows + length (listed_each (children (view tree.now))) }
    ensures text_after { result.text ≡ before.text + length (texts (listed_each (children (view tree.now)))) }
    ensures nodes { nodes.new ≡ put_at nodes.old before.rows
        (rows (span_at spans.now) before.rows before.text
        (listed_each (children (view tree.now)))) }
    ensures bytes { bytes.new ≡ put_at bytes.old before.text (texts (listed_each (children (view tree.now)))) }
{
    let mut after = before;
    let mut children = tree.children_iter();
    while let Some(child) = children.next() {
        after = put_child(nodes, bytes, child, spans, after);
    }
    after
}

/// Writes the rows of a tree in the same way. Most trees have no children, and take no call.
#[inline(always)]
#[cycle(put)]
fn put_child(
    nodes: &mut [Node],
    bytes: &mut [u8],
    tree: &Expr,
    spans: &[Span],
    before: RowCounts,
) -> RowCounts
    requires nodes_capacity { before.rows + length (listed (view tree.now)) ≤ length nodes.old }
    requires bytes_capacity { before.text + length (texts (listed (view tree.now))) ≤ length bytes.old }
    ensures after { result.rows ≡ before.rows + length (listed (view tree.now)) }
    ensures text_after { result.text ≡ before.text + length (texts (listed (view tree.now))) }
    ensures nodes { nodes.new ≡ put_at nodes.old before.rows
        (rows (span_at spans.now) before.rows before.text (listed (view tree.now))) }
    ensures bytes { bytes.new ≡ put_at bytes.old before.text (texts (listed (view tree.now))) }
{
    if tree.is_leaf_node() {
        return put_leaf(nodes, bytes, tree, spans, before);
    }
    put_tree(nodes, bytes, tree, spans, before)
}
