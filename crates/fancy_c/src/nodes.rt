//! A pattern's tree as an array, with its group information.
ghost use Rattle.std.specs.Prelude.{◌≡◌, ◌≢◌, ◌<◌, ◌≤◌, ◌⊎◌, List, length, true, false};
ghost use Rattle.fancy_lex.specs.Flags.{flags_of};
ghost use Rattle.fancy_grammar.specs.GroupInfo.{GroupInfo};
ghost use Rattle.fancy_grammar.specs.Tree.{Tree};
ghost use Rattle.fancy_syntax.specs.InfoViews.{info_of};
ghost use Rattle.fancy_syntax.specs.View.{view};
ghost use Rattle.fancy_syntax.specs.declared.span.Span.{Span};
ghost use Rattle.fancy_c.specs.CallFlags.{AreTreeFlags};
ghost use Rattle.fancy_c.specs.Calls.{RefusesPattern, TakesOnly};
ghost use Rattle.fancy_c.specs.InfoRows.{summary, all_texts, name_rows, AreEnough, AreWritten, AreSpansAsked, IsSummaryOf};
ghost use Rattle.fancy_c.specs.Node.{listed, span_at};

use crate::call_flags::are_tree_flags;
use crate::call_result::{
    CallResult, ERROR_NONE, STATUS_BUFFER_TOO_SHORT, STATUS_OK, STATUS_UNKNOWN_FLAG,
};
use crate::group_numbers::number_groups;
use crate::info_rows::{Name, TreeInfo, count_names, put_backrefs, put_names};
use crate::node::Node;
use crate::read::{Parsed, read_as_asked};
use crate::rows::{RowCounts, count, put_tree};
use fancy_syntax::span::Span;
use fancy_syntax::tree::ExprTree;
use std::alloc::Global;

/// The sizes of the tree, and its group information.
pub(crate) fn summary_of(tree: &ExprTree) -> TreeInfo
    ensures { result ≡ summary (view tree.now.expr) (info_of tree.now) }
{
    let nodes = count(&tree.expr, RowCounts { rows: 0, text: 0 });
    let before = RowCounts {
        rows: 0,
        text: nodes.text,
    };
    let names = count_names(&tree.named_groups, before);
    TreeInfo {
        node_count: nodes.rows,
        texts_size: names.text,
        name_count: names.rows,
        backref_count: tree.backrefs.len(),
        total_groups: tree.total_groups,
        out_of_range_backref: tree.out_of_range_backref.unwrap_or(0),
        has_out_of_range_backref: tree.out_of_range_backref.is_some(),
        numeric_capture_group_references: tree.numeric_capture_group_references,
        contains_subroutines: tree.contains_subroutines,
        self_recursive: tree.self_recursive,
        numbered_groups_ignored: tree.numbered_groups_ignored,
    }
}

/// Writes all of it at the front of the buffers.
fn put_all(
    nodes: &mut [Node],
    texts: &mut [u8],
    names: &mut [Name],
    backrefs: &mut [usize],
    tree: &ExprTree,
    spans: &[Span],
)
    requires nodes_capacity { length (listed (view tree.now.expr)) ≤ length nodes.old }
    requires texts_capacity { length (all_texts (view tree.now.expr) (info_of tree.now)) ≤ length texts.old }
    requires names_capacity { length (name_rows 0 (info_of tree.now).named_groups) ≤ length names.old }
    requires backrefs_capacity { length tree.now.backrefs.keys ≤ length backrefs.old }
    ensures { AreWritten (view tree.now.expr) (info_of tree.now) (span_at spans.now)
        nodes.old nodes.new texts.old texts.new names.old names.new backrefs.old backrefs.new }
{
    let after = put_tree(
        nodes,
        texts,
        &tree.expr,
        spans,
        RowCounts { rows: 0, text: 0 },
    );
    let before = RowCounts {
        rows: 0,
        text: after.text,
    };
    number_groups(nodes, after.rows);
    put_names(names, texts, &tree.named_groups, before);
    put_backrefs(backrefs, &tree.backrefs);
}

/// Whether buffers of these lengths are long enough.
fn fits(summary: TreeInfo, nodes: usize, texts: usize, names: usize, backrefs: usize) -> bool
    ensures capacity { result ≡ true → (summary.node_count ≤ nodes) × (summary.texts_size ≤ texts) × (summary.name_count ≤ names)
        × (summary.backref_count ≤ backrefs) }
    ensures short { result ≡ false → (nodes < summary.node_count) ⊎ ((texts < summary.texts_size) ⊎ ((names < summary.name_count)
        ⊎ (backrefs < summary.backref_count))) }
{
    if nodes < summary.node_count {
        return false;
    }
    if texts < summary.texts_size {
        return false;
    }
    if names < summary.name_count {
        return false;
    }
    summary.backref_count <= backrefs
}

/// Sets the info of the tree, and writes it at the front of the buffers if all of it fits.
pub(crate) fn write_tree(
    nodes: &mut [Node],
    texts: &mut [u8],
    names: &mut [Name],
    backrefs: &mut [usize],
    info: &mut TreeInfo,
    parsed: &Parsed,
) -> CallResult
    ensures read { result.status ≡ STATUS_OK → AreWritten (view parsed.now.tree.expr) (info_of parsed.now.tree)
        (span_at parsed.now.spans.items) nodes.old nodes.new
        texts.old texts.new names.old names.new backrefs.old backrefs.new }
    ensures short { result.status ≡ STATUS_BUFFER_TOO_SHORT → (length nodes.old < info.new.node_count)
        ⊎ ((length texts.old < info.new.texts_size)
        ⊎ ((length names.old < info.new.name_count) ⊎ (length backrefs.old < info.new.backref_count))) }
    ensures info { info.new ≡ summary (view parsed.now.tree.expr) (info_of parsed.now.tree) }
    ensures nodes_kept { result.status ≢ STATUS_OK → nodes.new ≡ nodes.old }
    ensures texts_kept { result.status ≢ STATUS_OK → texts.new ≡ texts.old }
    ensures names_kept { result.status ≢ STATUS_OK → names.new ≡ names.old }
    ensures backrefs_kept { result.status ≢ STATUS_OK → backrefs.new ≡ backrefs.old }
    ensures status { (result.status ≡ STATUS_OK) ⊎ (result.status ≡ STATUS_BUFFER_TOO_SHORT) }
    ensures no_kind { result.kind ≡ ERROR_NONE }
    ensures no_position { result.position ≡ 0 }
    ensures no_size { result.size ≡ 0 }
{
    let summary = summary_of(&parsed.tree);
    *info = summary;
    if !fits(
        summary,
        nodes.len(),
        texts.len(),
        names.len(),
        backrefs.len(),
    ) {
        return CallResult {
            status: STATUS_BUFFER_TOO_SHORT,
            kind: ERROR_NONE,
            position: 0,
            size: 0,
        };
    }
    put_all(nodes, texts, names, backrefs, &parsed.tree, &parsed.spans);
    CallResult {
        status: STATUS_OK,
        kind: ERROR_NONE,
        position: 0,
        size: 0,
    }
}

/// Parses a pattern as `fancy_check_nonnull` does, and sets `info` to the sizes of its tree and to its group
/// information. If all of it fits, returns `STATUS_OK`, and the buffers hold, from their front: the nodes of the tree
/// in preorder, each with its span in the pattern, and each group with its number; the texts of the nodes, and after
/// them the names of groups; for each name in byte order its group numbers, ascending; and the numbers of the back
/// references, ascending. If something does not fit, returns `STATUS_BUFFER_TOO_SHORT`, and no buffer is written. A
/// pattern of n bytes has at most 2 n + 1 nodes and as many back references, 6 n bytes of texts, and n rows of names. For
/// a pattern without a tree it returns what `fancy_check_nonnull` returns, and nothing is written. A bit beside the flags
/// of a pattern, `FLAG_WITHOUT_SPANS`, leaves the spans out: then each starts and stops at 0.
#[unsafe(no_mangle)]
pub extern "C" fn fancy_parse_nonnull(
    alloc: Global,
    pattern: &[u8],
    flags: u32,
    nodes: &mut [Node],
    texts: &mut [u8],
    names: &mut [Name],
    backrefs: &mut [usize],
    info: &mut TreeInfo,
) -> CallResult
    ensures read { result.status ≡ STATUS_OK → (t : Tree) × (m : GroupInfo) × (spans : List Span)
        × IsSummaryOf info.new (flags_of flags) pattern.now t m × AreSpansAsked flags pattern.now t spans
        × AreWritten t m (span_at spans) nodes.old nodes.new texts.old texts.new names.old names.new backrefs.old backrefs.new }
    ensures short { result.status ≡ STATUS_BUFFER_TOO_SHORT →
        (t : Tree) × (m : GroupInfo) × IsSummaryOf info.new (flags_of flags) pattern.now t m
        × ((length nodes.old < info.new.node_count) ⊎ ((length texts.old < info.new.texts_size)
        ⊎ ((length names.old < info.new.name_count) ⊎ (length backrefs.old < info.new.backref_count)))) }
    ensures enough { AreEnough (length pattern.now) (length nodes.old) (length texts.old) (length names.old)
        (length backrefs.old) →
        result.status ≢ STATUS_BUFFER_TOO_SHORT }
    ensures refusal { RefusesPattern (flags_of flags) pattern.now result }
    ensures nodes_kept { result.status ≢ STATUS_OK → nodes.new ≡ nodes.old }
    ensures names_kept { result.status ≢ STATUS_OK → names.new ≡ names.old }
    ensures backrefs_kept { result.status ≢ STATUS_OK → backrefs.new ≡ backrefs.old }
    ensures info_kept { result.status ≢ STATUS_OK → result.status ≢ STATUS_BUFFER_TOO_SHORT → info.new ≡ info.old }
    ensures texts_kept { result.status ≢ STATUS_OK → texts.new ≡ texts.old }
    ensures flags { TakesOnly (AreTreeFlags flags) STATUS_UNKNOWN_FLAG result }
    ensures status { (result.status ≤ STATUS_BUFFER_TOO_SHORT) ⊎ (result.status ≡ STATUS_UNKNOWN_FLAG) }
    ensures no_size { result.size ≡ 0 }
{
    if !are_tree_flags(flags) {
        return CallResult::of_status(STATUS_UNKNOWN_FLAG);
    }
    match read_as_asked(alloc, pattern, flags) {
        Ok(parsed) => write_tree(nodes, texts, names, backrefs, info, &parsed),
        Err(refusal) => refusal.call_result(),
    }
}
