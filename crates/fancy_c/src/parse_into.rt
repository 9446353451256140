//! A pattern's tree and what no node of it has, or the message of its error, in one call.
ghost use Rattle.std.specs.Prelude.{◌≡◌, ◌≢◌, ◌<◌, ◌≤◌, ◌⊎◌, List, length, map};
ghost use Rattle.fancy_lex.specs.Flags.{flags_of};
ghost use Rattle.fancy_grammar.specs.GroupInfo.{GroupInfo};
ghost use Rattle.fancy_grammar.specs.Tree.{Tree};
ghost use Rattle.fancy_grammar.specs.Trivia as grammar;
ghost use Rattle.fancy_syntax.specs.InfoViews.{info_of};
ghost use Rattle.fancy_syntax.specs.TriviaViews.{trivium_of};
ghost use Rattle.fancy_syntax.specs.View.{view};
ghost use Rattle.fancy_syntax.specs.declared.span.Span.{Span};
ghost use Rattle.fancy_c.specs.Buffer.{Fills};
ghost use Rattle.fancy_c.specs.CallFlags.{AreFlags};
ghost use Rattle.fancy_c.specs.Calls.{TakesOnly, WritesMessage};
ghost use Rattle.fancy_c.specs.InfoRows.{summary, AreEnough, AreWritten, AreSpansOfBytes, IsSummaryOf};
ghost use Rattle.fancy_c.specs.Node.{span_at};
ghost use Rattle.fancy_c.specs.TriviumRows as spec;
ghost use Rattle.fancy_c.specs.TriviumRows.{AreTriviaOfBytes};

use crate::call_flags::are_flags;
use crate::call_result::{
    CallResult, ERROR_NONE, STATUS_BUFFER_TOO_SHORT, STATUS_NOT_UTF8, STATUS_OK,
    STATUS_OUT_OF_MEMORY, STATUS_REFUSED, STATUS_UNKNOWN_FLAG,
};
use crate::info_rows::{Name, TreeInfo};
use crate::message::report;
use crate::node::Node;
use crate::nodes::{summary_of, write_tree};
use crate::read::{BytesRefusal, ParsedWithTrivia, read_all};
use crate::trivia::{TriviumRow, put_rows};
use fancy_syntax::error::Error;
use std::alloc::Global;

/// Sets the info and the count, and writes all of it at the front of the buffers if it fits.
fn write_all(
    nodes: &mut [Node],
    texts: &mut [u8],
    names: &mut [Name],
    backrefs: &mut [usize],
    trivia: &mut [TriviumRow],
    info: &mut TreeInfo,
    count: &mut usize,
    found: &ParsedWithTrivia,
) -> CallResult
    ensures read { result.status ≡ STATUS_OK → AreWritten (view found.now.parsed.tree.expr) (info_of found.now.parsed.tree)
        (span_at found.now.parsed.spans.items) nodes.old nodes.new
        texts.old texts.new names.old names.new backrefs.old backrefs.new }
    ensures trivia { result.status ≡ STATUS_OK →
        Fills trivia.old trivia.new (map spec.row (map trivium_of found.now.trivia.items)) }
    ensures short { result.status ≡ STATUS_BUFFER_TOO_SHORT → (length nodes.old < info.new.node_count)
        ⊎ ((length texts.old < info.new.texts_size) ⊎ ((length names.old < info.new.name_count)
        ⊎ ((length backrefs.old < info.new.backref_count) ⊎ (length trivia.old < count.new)))) }
    ensures info { info.new ≡ summary (view found.now.parsed.tree.expr) (info_of found.now.parsed.tree) }
    ensures count { count.new ≡ length (map trivium_of found.now.trivia.items) }
    ensures nodes_kept { result.status ≢ STATUS_OK → nodes.new ≡ nodes.old }
    ensures texts_kept { result.status ≢ STATUS_OK → texts.new ≡ texts.old }
    ensures names_kept { result.status ≢ STATUS_OK → names.new ≡ names.old }
    ensures backrefs_kept { result.status ≢ STATUS_OK → backrefs.new ≡ backrefs.old }
    ensures trivia_kept { result.status ≢ STATUS_OK → trivia.new ≡ trivia.old }
    ensures status { (result.status ≡ STATUS_OK) ⊎ (result.status ≡ STATUS_BUFFER_TOO_SHORT) }
    ensures no_kind { result.kind ≡ ERROR_NONE }
    ensures no_position { result.position ≡ 0 }
    ensures no_size { result.size ≡ 0 }
{
    *count = found.trivia.len();
    if trivia.len() < found.trivia.len() {
        *info = summary_of(&found.parsed.tree);
        return CallResult::of_status(STATUS_BUFFER_TOO_SHORT);
    }
    let result = write_tree(nodes, texts, names, backrefs, info, &found.parsed);
    if result.status == STATUS_OK {
        put_rows(trivia, &found.trivia);
    }
    result
}

/// Parses a pattern once, and writes all that it gives: its tree with spans and its group information, as
/// `fancy_parse_nonnull` does, and its parts that no node has, as `fancy_trivia_nonnull` does; or the message of its error, as
/// `fancy_tree_nonnull` does. If a buffer is too short, it returns `STATUS_BUFFER_TOO_SHORT`, and none is written. Then `info`
/// and `count` say what is needed; if the kind is not `ERROR_NONE`, it is the message that does not fit into `texts`, and they
/// are unchanged. It takes only flags of a pattern.
#[unsafe(no_mangle)]
pub extern "C" fn fancy_parse_into_nonnull(
    alloc: Global,
    pattern: &[u8],
    flags: u32,
    nodes: &mut [Node],
    texts: &mut [u8],
    names: &mut [Name],
    backrefs: &mut [usize],
    trivia: &mut [TriviumRow],
    info: &mut TreeInfo,
    count: &mut usize,
) -> CallResult
    ensures read { result.status ≡ STATUS_OK → (t : Tree) × (m : GroupInfo) × (spans : List Span)
        × IsSummaryOf info.new (flags_of flags) pattern.now t m × AreSpansOfBytes (flags_of flags) pattern.now t spans
        × AreWritten t m (span_at spans) nodes.old nodes.new texts.old texts.new names.old names.new backrefs.old backrefs.new }
    ensures trivia { result.status ≡ STATUS_OK → (l : List grammar.Trivium)
        × AreTriviaOfBytes (flags_of flags) pattern.now l × (count.new ≡ length l)
        × Fills trivia.old trivia.new (map spec.row l) }
    ensures short { result.status ≡ STATUS_BUFFER_TOO_SHORT → result.kind ≡ ERROR_NONE →
        (t : Tree) × (m : GroupInfo) × IsSummaryOf info.new (flags_of flags) pattern.now t m
        × ((length nodes.old < info.new.node_count) ⊎ ((length texts.old < info.new.texts_size)
        ⊎ ((length names.old < info.new.name_count) ⊎ ((length backrefs.old < info.new.backref_count)
        ⊎ (length trivia.old < count.new))))) }
    ensures short_count { result.status ≡ STATUS_BUFFER_TOO_SHORT → result.kind ≡ ERROR_NONE →
        (l : List grammar.Trivium) × AreTriviaOfBytes (flags_of flags) pattern.now l × (count.new ≡ length l) }
    ensures enough { AreEnough (length pattern.now) (length nodes.old) (length texts.old) (length names.old)
        (length backrefs.old) →
        result.status ≡ STATUS_BUFFER_TOO_SHORT → result.kind ≡ ERROR_NONE → length trivia.old < count.new }
    ensures message { WritesMessage (flags_of flags) pattern.now texts.old texts.new result }
    ensures nodes_kept { result.status ≢ STATUS_OK → nodes.new ≡ nodes.old }
    ensures names_kept { result.status ≢ STATUS_OK → names.new ≡ names.old }
    ensures backrefs_kept { result.status ≢ STATUS_OK → backrefs.new ≡ backrefs.old }
    ensures info_kept { result.status ≢ STATUS_OK → result.status ≢ STATUS_BUFFER_TOO_SHORT → info.new ≡ info.old }
    ensures texts_kept { result.status ≢ STATUS_OK → result.status ≢ STATUS_REFUSED → texts.new ≡ texts.old }
    ensures trivia_kept { result.status ≢ STATUS_OK → trivia.new ≡ trivia.old }
    ensures count_kept { result.status ≢ STATUS_OK → result.status ≢ STATUS_BUFFER_TOO_SHORT → count.new ≡ count.old }
    ensures info_without_tree { result.kind ≢ ERROR_NONE → info.new ≡ info.old }
    ensures count_without_tree { result.kind ≢ ERROR_NONE → count.new ≡ count.old }
    ensures flags { TakesOnly (AreFlags flags) STATUS_UNKNOWN_FLAG result }
    ensures status { (result.status ≤ STATUS_BUFFER_TOO_SHORT) ⊎ (result.status ≡ STATUS_UNKNOWN_FLAG) }
{
    if !are_flags(flags) {
        return CallResult::of_status(STATUS_UNKNOWN_FLAG);
    }
    match read_all(alloc, pattern, flags) {
        Ok(found) => write_all(nodes, texts, names, backrefs, trivia, info, count, &found),
        Err(BytesRefusal::Parse(Error::ParseError(offset, kind))) => report(
            alloc, offset, &kind, texts,
        ),
        Err(BytesRefusal::Parse(Error::OutOfMemory)) => CallResult::of_status(STATUS_OUT_OF_MEMORY),
        Err(BytesRefusal::NoUtf8(offset)) => CallResult {
            status: STATUS_NOT_UTF8,
            kind: ERROR_NONE,
            position: offset,
            size: 0,
        },
    }
}
