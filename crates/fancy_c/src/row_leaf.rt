//! A node without children, from its row. The row may have been changed, so all of it is tested.
ghost use Rattle.std.specs.Prelude.{◌≡◌, ◌+◌, ◌≤◌, IfOk, [], length, take, drop, encode_utf8_all};
ghost use Rattle.fancy_lex.specs.Text.{text_of as chars_of};
ghost use Rattle.fancy_lex.specs.NameViews.{view_target};
ghost use Rattle.fancy_grammar.specs.Tree.{children};
ghost use Rattle.fancy_syntax.specs.View.{view};
ghost use Rattle.fancy_c.specs.Node as spec;
ghost use Rattle.fancy_c.specs.RowTree.{HasText, HasTarget, HasCrlf, IsRowOf};

use crate::built::RowsError;
use crate::node::{
    ABSENT_CLEAR, ASSERTION_END_LINE, ASSERTION_END_TEXT,
    ASSERTION_END_TEXT_IGNORE_TRAILING_NEWLINES, ASSERTION_LEFT_WORD_BOUNDARY,
    ASSERTION_LEFT_WORD_HALF_BOUNDARY, ASSERTION_NOT_WORD_BOUNDARY, ASSERTION_RIGHT_WORD_BOUNDARY,
    ASSERTION_RIGHT_WORD_HALF_BOUNDARY, ASSERTION_START_LINE, ASSERTION_START_LINE_ONIGURUMA,
    ASSERTION_START_TEXT, ASSERTION_WORD_BOUNDARY, NODE_ABSENT, NODE_ALT, NODE_ANY, NODE_ASSERTION,
    NODE_AST_NODE, NODE_ATOMIC_GROUP, NODE_BACKREF, NODE_BACKREF_AT_LEVEL,
    NODE_BACKREF_EXISTS_CONDITION, NODE_CONCAT, NODE_CONDITIONAL,
    NODE_CONTINUE_FROM_PREVIOUS_MATCH_END, NODE_DEFINE_GROUP, NODE_DELEGATE, NODE_EMPTY,
    NODE_GENERAL_NEWLINE, NODE_GROUP, NODE_KEEP_OUT, NODE_LITERAL, NODE_LITERAL_BYTES,
    NODE_LOOK_AROUND, NODE_REPEAT, NODE_SUBROUTINE_CALL, NODE_VERB, Node, TARGET_BY_NAME,
    TARGET_BY_NUMBER, TARGET_RELATIVE, VERB_ACCEPT, VERB_COMMIT, VERB_FAIL, VERB_PRUNE, VERB_SKIP,
};
use fancy_syntax::expr::{
    Absent, Assertion, AstNode, BacktrackingControlVerb, CaptureGroupTarget, Expr,
};
use std::alloc::Global;
use std::str;

/// The bytes of this size from an offset on.
pub(crate) fn bytes_at(texts: &[u8], start: usize, size: usize) -> Result<&[u8], RowsError>
    ensures inside { IfOk result (λ bytes. start + size ≤ length texts.now) }
    ensures bytes { IfOk result (λ bytes. bytes.now ≡ take size (drop start texts.now)) }
{
    let Some(end) = start.checked_add(size) else {
        return Err(RowsError::NoTree);
    };
    match texts.get(start..end) {
        Some(bytes) => Ok(bytes),
        None => Err(RowsError::NoTree),
    }
}

/// The text of this size from an offset on.
pub(crate) fn text_at(texts: &[u8], start: usize, size: usize) -> Result<&str, RowsError>
    ensures inside { IfOk result (λ text. start + size ≤ length texts.now) }
    ensures text { IfOk result (λ text. text.now ≡ take size (drop start texts.now)) }
{
    match str::from_utf8(bytes_at(texts, start, size)?) {
        Ok(text) => Ok(text),
        Err(_) => Err(RowsError::NoTree),
    }
}

/// The text of a node, in memory of its own.
#[tactic(auto, using(crate::proofs::NodeLemmas::string_text))]
fn owned_text(alloc: Global, row: &Node, texts: &[u8]) -> Result<String, RowsError>
    ensures { IfOk result (λ text. HasText texts.now row.now (encode_utf8_all (chars_of text))) }
{
    Ok(String::from_str(alloc, text_at(texts, row.text, row.text_size)?)?)
}

/// The assertion with this number.
fn assertion(number: u32, crlf: bool) -> Result<Assertion, RowsError>
    ensures number { IfOk result (λ a. number ≡ spec.assertion_number a) }
    ensures crlf { IfOk result (λ a. HasCrlf crlf a) }
{
    Ok(match number {
        ASSERTION_START_TEXT => Assertion::StartText,
        ASSERTION_END_TEXT => Assertion::EndText,
        ASSERTION_END_TEXT_IGNORE_TRAILING_NEWLINES => {
            Assertion::EndTextIgnoreTrailingNewlines { crlf }
        }
        ASSERTION_START_LINE => Assertion::StartLine { crlf },
        ASSERTION_START_LINE_ONIGURUMA => Assertion::StartLineOniguruma { crlf },
        ASSERTION_END_LINE => Assertion::EndLine { crlf },
        ASSERTION_LEFT_WORD_BOUNDARY => Assertion::LeftWordBoundary,
        ASSERTION_LEFT_WORD_HALF_BOUNDARY => Assertion::LeftWordHalfBoundary,
        ASSERTION_RIGHT_WORD_BOUNDARY => Assertion::RightWordBoundary,
        ASSERTION_RIGHT_WORD_HALF_BOUNDARY => Assertion::RightWordHalfBoundary,
        ASSERTION_WORD_BOUNDARY => Assertion::WordBoundary,
        ASSERTION_NOT_WORD_BOUNDARY => Assertion::NotWordBoundary,
        _ => return Err(RowsError::NoTree),
    })
}

/// The verb with this number.
fn verb(number: u32) -> Result<BacktrackingControlVerb, RowsError>
    ensures { IfOk result (λ v. number ≡ spec.verb_number v) }
{
    Ok(match number {
        VERB_FAIL => BacktrackingControlVerb::Fail,
        VERB_ACCEPT => BacktrackingControlVerb::Accept,
        VERB_COMMIT => BacktrackingControlVerb::Commit,
        VERB_SKIP => BacktrackingControlVerb::Skip,
        VERB_PRUNE => BacktrackingControlVerb::Prune,
        _ => return Err(RowsError::NoTree),
    })
}

/// What an unresolved call names.
fn target(alloc: Global, row: &Node, texts: &[u8]) -> Result<CaptureGroupTarget, RowsError>
    ensures { IfOk result (λ t. HasTarget texts.now row.now (view_target t)) }
{
    Ok(match row.which {
        TARGET_BY_NUMBER => CaptureGroupTarget::ByNumber(row.group),
        TARGET_BY_NAME => CaptureGroupTarget::ByName(owned_text(alloc, row, texts)?),
        TARGET_RELATIVE => CaptureGroupTarget::Relative(row.level),
        _ => return Err(RowsError::NoTree),
    })
}

/// A node that refers to a group.
fn reference(alloc: Global, row: &Node, texts: &[u8]) -> Result<Expr, RowsError>
    ensures row { IfOk result (λ e. IsRowOf texts.now row.now (view e)) }
    ensures alone { IfOk result (λ e. children (view e) ≡ []) }
{
    let group = row.group;
    let casei = row.casei;
    Ok(match row.kind {
        NODE_BACKREF => Expr::Backref { group, casei },
        NODE_BACKREF_AT_LEVEL => Expr::BackrefWithRelativeRecursionLevel {
            group,
            relative_level: row.level,
            casei,
        },
        NODE_BACKREF_EXISTS_CONDITION => Expr::BackrefExistsCondition {
            group,
            relative_recursion_level: if row.has_level { Some(row.level) } else { None },
        },
        NODE_SUBROUTINE_CALL => Expr::SubroutineCall(group),
        NODE_AST_NODE => Expr::AstNode(
            AstNode::SubroutineCall(target(alloc, row, texts)?),
            row.position,
        ),
        _ => return Err(RowsError::NoTree),
    })
}

/// The node of a row that has no rows below it.
pub(crate) fn leaf(alloc: Global, row: &Node, texts: &[u8]) -> Result<Expr, RowsError>
    ensures row { IfOk result (λ e. IsRowOf texts.now row.now (view e)) }
    ensures alone { IfOk result (λ e. children (view e) ≡ []) }
{
    let casei = row.casei;
    Ok(match row.kind {
        NODE_EMPTY => Expr::Empty,
        NODE_ANY => Expr::Any {
            newline: row.newline,
            crlf: row.crlf,
        },
        NODE_ASSERTION => Expr::Assertion(assertion(row.which, row.crlf)?),
        NODE_GENERAL_NEWLINE => Expr::GeneralNewline {
            unicode: row.unicode,
        },
        NODE_LITERAL => Expr::Literal {
            val: owned_text(alloc, row, texts)?,
            casei,
        },
        NODE_LITERAL_BYTES => Expr::LiteralBytes {
            bytes: Vec::from_slice(alloc, bytes_at(texts, row.text, row.text_size)?)?,
        },
        NODE_DELEGATE => Expr::Delegate {
            inner: owned_text(alloc, row, texts)?,
            casei,
        },
        NODE_KEEP_OUT => Expr::KeepOut,
        NODE_CONTINUE_FROM_PREVIOUS_MATCH_END => Expr::ContinueFromPreviousMatchEnd,
        NODE_VERB => Expr::BacktrackingControlVerb(verb(row.which)?),
        NODE_ABSENT if row.which == ABSENT_CLEAR => Expr::Absent(Absent::Clear),
        NODE_BACKREF
        | NODE_BACKREF_AT_LEVEL
        | NODE_BACKREF_EXISTS_CONDITION
        | NODE_SUBROUTINE_CALL
        | NODE_AST_NODE => reference(alloc, row, texts)?,
        // these have children
        NODE_CONCAT
        | NODE_ALT
        | NODE_GROUP
        | NODE_LOOK_AROUND
        | NODE_REPEAT
        | NODE_ATOMIC_GROUP
        | NODE_CONDITIONAL
        | NODE_ABSENT
        | NODE_DEFINE_GROUP => return Err(RowsError::NoTree),
        // no node has such a number
        _ => return Err(RowsError::NoTree),
    })
}
