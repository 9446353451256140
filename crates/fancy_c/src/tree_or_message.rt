//! A pattern's tree, or the message of its error, in one call.
ghost use Rattle.std.specs.Prelude.{◌≡◌, ◌≢◌, ◌<◌, ◌≤◌, ◌⊎◌, List, length};
ghost use Rattle.fancy_lex.specs.Flags.{flags_of};
ghost use Rattle.fancy_grammar.specs.GroupInfo.{GroupInfo};
ghost use Rattle.fancy_grammar.specs.Tree.{Tree};
ghost use Rattle.fancy_syntax.specs.declared.span.Span.{Span};
ghost use Rattle.fancy_c.specs.CallFlags.{AreTreeFlags};
ghost use Rattle.fancy_c.specs.Calls.{TakesOnly, WritesMessage};
ghost use Rattle.fancy_c.specs.InfoRows.{AreEnough, AreWritten, AreSpansAsked, IsSummaryOf};
ghost use Rattle.fancy_c.specs.Node.{span_at};

use crate::call_flags::are_tree_flags;
use crate::call_result::{
    CallResult, ERROR_NONE, STATUS_BUFFER_TOO_SHORT, STATUS_NOT_UTF8, STATUS_OK,
    STATUS_OUT_OF_MEMORY, STATUS_REFUSED, STATUS_UNKNOWN_FLAG,
};
use crate::info_rows::{Name, TreeInfo};
use crate::message::report;
use crate::node::Node;
use crate::nodes::write_tree;
use crate::read::{BytesRefusal, read_as_asked};
use fancy_syntax::error::Error;
use std::alloc::Global;

/// Parses a pattern, and writes its tree and its group information as `fancy_parse_nonnull` does. If the pattern is
/// invalid, returns `STATUS_REFUSED` with the kind and the position of its error, and writes the message of the error to
/// the front of `texts`, with its size in bytes as the result's size. If the message does not fit, returns
/// `STATUS_BUFFER_TOO_SHORT` with the kind, the position and the size. Else it returns what `fancy_parse_nonnull` returns.
#[unsafe(no_mangle)]
pub extern "C" fn fancy_tree_nonnull(
    alloc: Global,
    pattern: &[u8],
    flags: u32,
    nodes: &mut [Node],
    texts: &mut [u8],
    names: &mut [Name],
    backrefs: &mut [usize],
    info: &mut TreeInfo,
) -> CallResult
    ensures read { result.status ≡ STATUS_OK → (t : Tree) × (m : GroupInfo) × (spans : List Span)
        × IsSummaryOf info.new (flags_of flags) pattern.now t m × AreSpansAsked flags pattern.now t spans
        × AreWritten t m (span_at spans) nodes.old nodes.new texts.old texts.new names.old names.new backrefs.old backrefs.new }
    ensures short { result.status ≡ STATUS_BUFFER_TOO_SHORT → result.kind ≡ ERROR_NONE →
        (t : Tree) × (m : GroupInfo) × IsSummaryOf info.new (flags_of flags) pattern.now t m
        × ((length nodes.old < info.new.node_count) ⊎ ((length texts.old < info.new.texts_size)
        ⊎ ((length names.old < info.new.name_count) ⊎ (length backrefs.old < info.new.backref_count)))) }
    ensures enough { AreEnough (length pattern.now) (length nodes.old) (length texts.old) (length names.old)
        (length backrefs.old) →
        result.status ≡ STATUS_BUFFER_TOO_SHORT → result.kind ≢ ERROR_NONE }
    ensures message { WritesMessage (flags_of flags) pattern.now texts.old texts.new result }
    ensures nodes_kept { result.status ≢ STATUS_OK → nodes.new ≡ nodes.old }
    ensures names_kept { result.status ≢ STATUS_OK → names.new ≡ names.old }
    ensures backrefs_kept { result.status ≢ STATUS_OK → backrefs.new ≡ backrefs.old }
    ensures info_kept { result.status ≢ STATUS_OK → result.status ≢ STATUS_BUFFER_TOO_SHORT → info.new ≡ info.old }
    ensures texts_kept { result.status ≢ STATUS_OK → result.status ≢ STATUS_REFUSED → texts.new ≡ texts.old }
    ensures info_without_tree { result.kind ≢ ERROR_NONE → info.new ≡ info.old }
    ensures flags { TakesOnly (AreTreeFlags flags) STATUS_UNKNOWN_FLAG result }
    ensures status { (result.status ≤ STATUS_BUFFER_TOO_SHORT) ⊎ (result.status ≡ STATUS_UNKNOWN_FLAG) }
{
    if !are_tree_flags(flags) {
        return CallResult::of_status(STATUS_UNKNOWN_FLAG);
    }
    match read_as_asked(alloc, pattern, flags) {
        Ok(parsed) => write_tree(nodes, texts, names, backrefs, info, &parsed),
        Err(BytesRefusal::Parse(Error::ParseError(offset, kind))) => report(
            alloc, offset, &kind, texts,
        ),
        Err(BytesRefusal::Parse(Error::OutOfMemory)) => CallResult {
            status: STATUS_OUT_OF_MEMORY,
            kind: ERROR_NONE,
            position: 0,
            size: 0,
        },
        Err(BytesRefusal::NoUtf8(offset)) => CallResult {
            status: STATUS_NOT_UTF8,
            kind: ERROR_NONE,
            position: offset,
            size: 0,
        },
    }
}
