//! Bytes parsed as a pattern.
ghost use Rattle.std.specs.Prelude.{◌≡◌, ◌≤◌, ◌⊎◌, IfOk, IfErr};
ghost use Rattle.std.specs.Str.{IsUtf8};
ghost use Rattle.fancy_lex.specs.Flags.{flags_of};
ghost use Rattle.fancy_lex.specs.declared.flags.Flags.{Flags};
ghost use Rattle.fancy_grammar.specs.GroupInfo.{GroupInfo};
ghost use Rattle.fancy_grammar.specs.Tree.{Tree};
ghost use Rattle.fancy_syntax.specs.InfoViews.{info_of};
ghost use Rattle.fancy_syntax.specs.TriviaViews.{trivia_of};
ghost use Rattle.fancy_syntax.specs.View.{view};
ghost use Rattle.fancy_c.specs.CallFlags.{AreFlags};
ghost use Rattle.fancy_c.specs.CallResult.{IsTreeOfBytes, IsRefusalOf};
ghost use Rattle.fancy_c.specs.CallResult.{result_of};
ghost use Rattle.fancy_c.specs.Calls.{RefusesPattern, TakesOnly};
ghost use Rattle.fancy_c.specs.InfoRows.{AreSpansOfBytes, AreSpansAsked};
ghost use Rattle.fancy_c.specs.TriviumRows.{AreTriviaOfBytes};

use crate::call_flags::{FLAG_WITHOUT_SPANS, are_flags};
use crate::call_result::{
    CallResult, ERROR_NONE, STATUS_NOT_UTF8, STATUS_OK, STATUS_OUT_OF_MEMORY, STATUS_REFUSED,
    STATUS_UNKNOWN_FLAG, kind_number,
};
use fancy_syntax::error::Error;
use fancy_syntax::expr::Expr;
use fancy_syntax::span::Span;
use fancy_syntax::tree::ExprTree;
use fancy_syntax::trivium::Trivium;
use std::alloc::Global;
use std::str;

/// Why there is no tree for the bytes.
#[derive(Drop)]
pub(crate) enum BytesRefusal {
    /// They are not UTF-8 from this position on.
    NoUtf8(usize),
    /// They are a pattern with an error, or memory ran out.
    Parse(Error),
}

impl BytesRefusal {
    /// The result for the caller in C.
    pub(crate) fn call_result(&self) -> CallResult
        ensures { result ≡ result_of self.now }
    {
        match self {
            BytesRefusal::NoUtf8(offset) => CallResult {
                status: STATUS_NOT_UTF8,
                kind: ERROR_NONE,
                position: *offset,
                size: 0,
            },
            BytesRefusal::Parse(Error::ParseError(offset, kind)) => CallResult {
                status: STATUS_REFUSED,
                kind: kind_number(kind),
                position: *offset,
                size: 0,
            },
            BytesRefusal::Parse(Error::OutOfMemory) => CallResult {
                status: STATUS_OUT_OF_MEMORY,
                kind: ERROR_NONE,
                position: 0,
                size: 0,
            },
        }
    }
}

/// The text that the bytes encode in UTF-8.
pub(crate) fn text_of(pattern: &[u8]) -> Result<&str, BytesRefusal>
    ensures text { IfOk result (λ text. (text.now ≡ pattern.now) × IsUtf8 pattern.now) }
    ensures refusal { IfErr result (λ r. (f : Flags) → IsRefusalOf r f pattern.now) }
{
    match str::from_utf8(pattern) {
        Ok(text) => Ok(text),
        Err(error) => Err(BytesRefusal::NoUtf8(error.valid_up_to())),
    }
}

/// Reads bytes as a pattern under the flags whose bits are set.
pub(crate) fn read(alloc: Global, pattern: &[u8], flags: u32) -> Result<ExprTree, BytesRefusal>
    ensures tree { IfOk result (λ t. IsTreeOfBytes (flags_of flags) pattern.now (view t.expr) (info_of t)) }
    ensures refusal { IfErr result (λ r. IsRefusalOf r (flags_of flags) pattern.now) }
{
    let text = text_of(pattern)?;
    match Expr::parse_tree_with_flags(alloc, text, flags) {
        Ok(tree) => Ok(tree),
        Err(error) => Err(BytesRefusal::Parse(error)),
    }
}

/// A parsed tree with the spans of its nodes, in preorder.
#[derive(Drop)]
pub(crate) struct Parsed {
    pub(crate) tree: ExprTree,
    pub(crate) spans: Vec<Span>,
}

/// The same, with the spans of the tree's nodes.
pub(crate) fn read_with_spans(
    alloc: Global,
    pattern: &[u8],
    flags: u32,
) -> Result<Parsed, BytesRefusal>
    ensures tree { IfOk result (λ p. IsTreeOfBytes (flags_of flags) pattern.now (view p.tree.expr) (info_of p.tree)) }
    ensures spans { IfOk result (λ p. AreSpansOfBytes (flags_of flags) pattern.now (view p.tree.expr) p.spans.items) }
    ensures refusal { IfErr result (λ r. IsRefusalOf r (flags_of flags) pattern.now) }
{
    let text = text_of(pattern)?;
    match Expr::parse_tree_with_spans(alloc, text, flags) {
        Ok((tree, spans)) => Ok(Parsed { tree, spans }),
        Err(error) => Err(BytesRefusal::Parse(error)),
    }
}

/// Reads bytes as a pattern, with the spans of its nodes if they are asked for; else there are none.
pub(crate) fn read_as_asked(
    alloc: Global,
    pattern: &[u8],
    flags: u32,
) -> Result<Parsed, BytesRefusal>
    ensures tree { IfOk result (λ p. IsTreeOfBytes (flags_of flags) pattern.now (view p.tree.expr) (info_of p.tree)) }
    ensures spans { IfOk result (λ p. AreSpansAsked flags pattern.now (view p.tree.expr) p.spans.items) }
    ensures refusal { IfErr result (λ r. IsRefusalOf r (flags_of flags) pattern.now) }
{
    if flags & FLAG_WITHOUT_SPANS == 0 {
        return read_with_spans(alloc, pattern, flags);
    }
    Ok(Parsed {
        tree: read(alloc, pattern, flags)?,
        spans: Vec::new(alloc),
    })
}

/// A parsed tree with the spans of its nodes, and what no node has.
#[derive(Drop)]
pub(crate) struct ParsedWithTrivia {
    pub(crate) parsed: Parsed,
    pub(crate) trivia: Vec<Trivium>,
}

/// The same, with what no node of the tree has.
pub(crate) fn read_all(
    alloc: Global,
    pattern: &[u8],
    flags: u32,
) -> Result<ParsedWithTrivia, BytesRefusal>
    ensures tree { IfOk result (λ p. IsTreeOfBytes (flags_of flags) pattern.now (view p.parsed.tree.expr)
        (info_of p.parsed.tree)) }
    ensures spans { IfOk result (λ p. AreSpansOfBytes (flags_of flags) pattern.now (view p.parsed.tree.expr)
        p.parsed.spans.items) }
    ensures trivia { IfOk result (λ p. AreTriviaOfBytes (flags_of flags) pattern.now (trivia_of p.trivia)) }
    ensures refusal { IfErr result (λ r. IsRefusalOf r (flags_of flags) pattern.now) }
{
    let text = text_of(pattern)?;
    match Expr::parse_tree_with_trivia(alloc, text, flags) {
        Ok((tree, spans, trivia)) => Ok(ParsedWithTrivia {
            parsed: Parsed { tree, spans },
            trivia,
        }),
        Err(error) => Err(BytesRefusal::Parse(error)),
    }
}

/// What no node of the tree has.
pub(crate) fn read_trivia(
    alloc: Global,
    pattern: &[u8],
    flags: u32,
) -> Result<Vec<Trivium>, BytesRefusal>
    ensures trivia { IfOk result (λ l. AreTriviaOfBytes (flags_of flags) pattern.now (trivia_of l)) }
    ensures refusal { IfErr result (λ r. IsRefusalOf r (flags_of flags) pattern.now) }
{
    let text = text_of(pattern)?;
    match Expr::parse_tree_with_trivia(alloc, text, flags) {
        Ok((_, _, trivia)) => Ok(trivia),
        Err(error) => Err(BytesRefusal::Parse(error)),
    }
}

/// Checks whether the bytes at `pattern` are a valid pattern under the flags whose bits are set. Returns `STATUS_OK`;
/// `STATUS_REFUSED`, with the kind and the position of the pattern's only error; `STATUS_NOT_UTF8`, with the length of
/// the valid UTF-8 prefix; or `STATUS_OUT_OF_MEMORY`. If another bit is set, it returns `STATUS_UNKNOWN_FLAG`, whatever
/// the bytes are. The size is 0.
#[unsafe(no_mangle)]
pub extern "C" fn fancy_check_nonnull(alloc: Global, pattern: &[u8], flags: u32) -> CallResult
    ensures read { result.status ≡ STATUS_OK → (t : Tree) × (m : GroupInfo)
        × IsTreeOfBytes (flags_of flags) pattern.now t m }
    ensures refusal { RefusesPattern (flags_of flags) pattern.now result }
    ensures flags { TakesOnly (AreFlags flags) STATUS_UNKNOWN_FLAG result }
    ensures status { (result.status ≤ STATUS_OUT_OF_MEMORY) ⊎ (result.status ≡ STATUS_UNKNOWN_FLAG) }
    ensures no_size { result.size ≡ 0 }
{
    if !are_flags(flags) {
        return CallResult::of_status(STATUS_UNKNOWN_FLAG);
    }
    match read(alloc, pattern, flags) {
        Ok(_) => CallResult {
            status: STATUS_OK,
            kind: ERROR_NONE,
            position: 0,
            size: 0,
        },
        Err(refusal) => refusal.call_result(),
    }
}
