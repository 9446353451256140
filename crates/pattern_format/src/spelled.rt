//! Texts of trees in the spelling of patterns that have the same trees.
ghost use Rattle.std.specs.Prelude.{◌≡◌, ℕ, List, ◌++◌, map, option_map, string_bytes, chars, Decides, IfOk, OnOk};
ghost use Rattle.fancy_lex.specs.Flags.{flags_of};
ghost use Rattle.fancy_grammar.specs.ReadAs.{IsReadAs};
ghost use Rattle.fancy_syntax.specs.InfoViews.{info_of};
ghost use Rattle.fancy_syntax.specs.SpanViews.{span_of, spans_of};
ghost use Rattle.fancy_syntax.specs.View.{view};
ghost use Rattle.pattern_format.specs.Spelled as spec;
ghost use Rattle.pattern_format.specs.SpelledViews.{change_of};

use fancy_lex::error::Error;
use fancy_syntax::expr::{Absent, AstNode, Expr};
use fancy_syntax::span::Span;
use fancy_syntax::spanned::SpannedTree;
use fancy_syntax::tree::ExprTree;
use std::alloc::{AllocError, Global};

/// What is kept of how a pattern spells a node.
#[derive(Clone, Copy, PartialEq, Eq, Debug)]
pub(crate) enum Kept {
    /// The text of a leaf that is neither a literal nor empty.
    Text,
    /// The `P` in the opening `(?P<name>` of a capturing group.
    Letter,
    Nothing,
}

/// What is kept of the node.
fn kept_of(node: &Expr) -> Kept
    ensures { result ≡ spec.kept_of (view node.now) }
{
    match node {
        Expr::Any { .. }
        | Expr::Assertion(_)
        | Expr::GeneralNewline { .. }
        | Expr::Delegate { .. }
        | Expr::Backref { .. }
        | Expr::BackrefWithRelativeRecursionLevel { .. }
        | Expr::KeepOut
        | Expr::ContinueFromPreviousMatchEnd
        | Expr::BackrefExistsCondition { .. }
        | Expr::SubroutineCall(_)
        | Expr::BacktrackingControlVerb(_)
        | Expr::Absent(Absent::Clear)
        | Expr::AstNode(
            AstNode::Backref { .. }
            | AstNode::SubroutineCall(_)
            | AstNode::BackrefExistsCondition { .. },
            _,
        ) => Kept::Text,
        Expr::Group(_) => Kept::Letter,
        Expr::Empty
        | Expr::Literal { .. }
        | Expr::LiteralBytes { .. }
        | Expr::Concat(_)
        | Expr::Alt(_)
        | Expr::LookAround(..)
        | Expr::Repeat { .. }
        | Expr::AtomicGroup(_)
        | Expr::Conditional { .. }
        | Expr::Absent(Absent::Repeater(_))
        | Expr::Absent(Absent::Expression { .. })
        | Expr::Absent(Absent::Stopper(_))
        | Expr::DefineGroup { .. }
        | Expr::AstNode(AstNode::AstGroup { .. }, _) => Kept::Nothing,
    }
}

/// Adds what is kept of each node of the tree, in preorder.
fn push_kept(kept: &mut Vec<Kept>, tree: &Expr) -> Result<(), AllocError>
    ensures { OnOk result (kept.new.items ≡ kept.old.items ++ spec.all_kept (view tree.now)) }
{
    kept.push(kept_of(tree))?;
    let mut children = tree.children_iter();
    while let Some(child) = children.next() {
        push_kept(kept, child)?;
    }
    Ok(())
}

/// The bytes from one position up to another; none if they are not in the text in this order.
fn part(text: &[u8], start: usize, end: usize) -> &[u8]
    ensures { result.now ≡ spec.part text.now start end }
{
    match text.get(start..end) {
        Some(part) => part,
        None => &[],
    }
}

/// Whether the text of a leaf is kept: it is an escape, a class or in parentheses, and has no `#`, with which a comment may
/// begin.
fn is_own(text: &[u8]) -> bool
    ensures { result ≡ spec.is_own text.now }
{
    let is_closed = text.starts_with(b"\\") || text.starts_with(b"[") || text.starts_with(b"(");
    is_closed && !text.contains(&b'#')
}

/// A part of a text, and what is written there.
#[derive(Clone, Copy)]
struct Change<'p> {
    start: usize,
    end: usize,
    text: &'p [u8],
}

/// The change of a node that is here in the text, and there in the pattern.
fn change_at<'p>(
    text: &[u8],
    pattern: &'p [u8],
    kept: Kept,
    here: Span,
    there: Span,
) -> Option<Change<'p>>
    ensures { option_map change_of result ≡ spec.change_at text.now pattern.now kept (span_of here) (span_of there) }
{
    let spelling = part(pattern, there.start, there.end);
    match kept {
        Kept::Text => is_own(spelling).then_some(Change {
            start: here.start,
            end: here.end,
            text: spelling,
        }),
        Kept::Letter => {
            let start = here.start.checked_add(2)?;
            let is_named = part(text, here.start, here.end).starts_with(b"(?<");
            (is_named && spelling.starts_with(b"(?P<")).then_some(Change {
                start,
                end: start,
                text: b"P",
            })
        }
        Kept::Nothing => None,
    }
}

/// Writes the text from a position up to the change, and the change, if there is one. Returns the position after it.
fn push_change(
    written: &mut Vec<u8>,
    text: &[u8],
    position: usize,
    change: Option<Change<'_>>,
) -> Result<usize, AllocError>
    ensures { IfOk result (λ next. (rest : ℕ → List ℕ) → written.new.items ++ rest next ≡
        written.old.items ++ spec.changed text.now position (option_map change_of change.entry) rest) }
{
    let Some(change) = change else {
        return Ok(position);
    };
    written.extend_from_slice(part(text, position, change.start))?;
    written.extend_from_slice(change.text)?;
    Ok(change.end)
}

/// The text of a tree, the spans of the nodes in it, and what is kept of how a pattern spells each of them.
#[derive(Clone, Copy)]
struct Plain<'a> {
    text: &'a [u8],
    spans: &'a [Span],
    kept: &'a [Kept],
}

/// The text with the changes of its nodes, which are there in the pattern, in preorder.
fn respelled(
    alloc: Global,
    plain: Plain<'_>,
    pattern: &[u8],
    there: &[Span],
) -> Result<Vec<u8>, AllocError>
    ensures { IfOk result (λ written. written.items ≡ spec.respelled plain.entry.text.now pattern.now plain.entry.kept.now
        (map span_of plain.entry.spans.now) (map span_of there.now) 0) }
{
    let text = plain.text;
    let mut written = Vec::with_capacity(alloc, text.len())?;
    let mut position = 0usize;
    let mut rest = (plain.kept, plain.spans, there);
    while let Some((kept, more_kept)) = rest.0.split_first() {
        let Some((here, more_here)) = rest.1.split_first() else {
            break;
        };
        let Some((there, more_there)) = rest.2.split_first() else {
            break;
        };
        let change = change_at(text, pattern, *kept, *here, *there);
        position = push_change(&mut written, text, position, change)?;
        rest = (more_kept, more_here, more_there);
    }
    written.extend_from_slice(part(text, position, text.len()))?;
    Ok(written)
}

/// What is kept of how each node of the tree is spelled, in preorder.
fn all_kept(alloc: Global, tree: &Expr, nodes: usize) -> Result<Vec<Kept>, AllocError>
    ensures { IfOk result (λ kept. kept.items ≡ spec.all_kept (view tree.now)) }
{
    let mut kept = Vec::with_capacity(alloc, nodes)?;
    push_kept(&mut kept, tree)?;
    Ok(kept)
}

/// Whether what is written is read as the tree, except for positions, and the text in its spelling is it again.
fn is_settled(
    alloc: Global,
    plain: Plain<'_>,
    written: &str,
    flags: u32,
    tree: &ExprTree,
) -> Result<bool, AllocError>
    ensures { IfOk result (λ b. Decides b
        (IsReadAs (flags_of flags) (chars written.now) (view tree.now.expr) (info_of tree.now)
        × spec.HasOwnSpelling (flags_of flags) plain.entry.text.now plain.entry.kept.now (map span_of plain.entry.spans.now) written.now)) }
{
    let read = match SpannedTree::parse(alloc, written, flags) {
        Ok(read) => read,
        Err(Error::ParseError(..)) => return Ok(false),
        Err(Error::OutOfMemory) => return Err(AllocError),
    };
    if !read.tree.is_same_but_for_positions(tree) {
        return Ok(false);
    }
    let again = respelled(alloc, plain, written.as_bytes(), &read.spans)?;
    Ok(again.as_slice() == written.as_bytes())
}

/// A text of the tree of a pattern, which is given parsed, in the spelling of the pattern: leaves that are neither
/// literals nor `.`, `^` and `$` have their texts in the pattern, if no `#` is in them, and `(?<name>` is `(?P<name>` if
/// it is there. If that would not be read as this tree, or would be spelled otherwise again, the text stays. Returns
/// `AllocError` if out of memory.
pub fn in_spelling_of(
    alloc: Global,
    pattern: &str,
    parsed: &SpannedTree,
    text: String,
    flags: u32,
) -> Result<String, AllocError>
    ensures spelled { IfOk result (λ written. spec.IsSpelledAs (flags_of flags) pattern.now (view parsed.now.tree.expr)
        (info_of parsed.now.tree) (spans_of parsed.now.spans) (string_bytes text) (string_bytes written)) }
    ensures read { IfOk result (λ written.
        IsReadAs (flags_of flags) (chars (string_bytes text)) (view parsed.now.tree.expr) (info_of parsed.now.tree) →
        IsReadAs (flags_of flags) (chars (string_bytes written)) (view parsed.now.tree.expr) (info_of parsed.now.tree)) }
    ensures again { IfOk result (λ written. spec.StaysSpelled (flags_of flags) (view parsed.now.tree.expr)
        (info_of parsed.now.tree) (string_bytes text) (string_bytes written)) }
{
    if text.as_str() == pattern {
        return Ok(text);
    }
    let own = match SpannedTree::parse(alloc, text.as_str(), flags) {
        Ok(own) => own,
        Err(Error::ParseError(..)) => return Ok(text),
        Err(Error::OutOfMemory) => return Err(AllocError),
    };
    let kept = all_kept(alloc, &parsed.tree.expr, parsed.spans.len())?;
    let plain = Plain {
        text: text.as_bytes(),
        spans: &own.spans,
        kept: &kept,
    };
    let bytes = respelled(alloc, plain, pattern.as_bytes(), &parsed.spans)?;
    if bytes.as_slice() == text.as_bytes() {
        return Ok(text);
    }
    let Ok(written) = String::from_utf8(bytes) else {
        return Ok(text);
    };
    if is_settled(alloc, plain, written.as_str(), flags, &parsed.tree)? {
        Ok(written)
    } else {
        Ok(text)
    }
}
