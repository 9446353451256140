//! The pattern for a tree that is given by its rows.
ghost use Rattle.std.specs.Prelude.{◌≡◌, ◌≢◌, ◌≤◌, ◌⊎◌, IfOk};
ghost use Rattle.fancy_lex.specs.Flags.{flags_of};
ghost use Rattle.fancy_grammar.specs.GroupInfo.{GroupInfo};
ghost use Rattle.fancy_grammar.specs.OfPattern.{IsOfPattern};
ghost use Rattle.fancy_grammar.specs.Tree.{Tree};
ghost use Rattle.fancy_syntax.specs.View.{view};
ghost use Rattle.fancy_c.specs.CallFlags.{AreFlags};
ghost use Rattle.fancy_c.specs.Calls.{RefusesNothing, TakesOnly, WritesText};
ghost use Rattle.fancy_c.specs.RowTree.{AreRowsOfTree};
ghost use Rattle.fancy_c.specs.WrittenText.{IsPatternText};

use crate::built::{RowsError, rows_below, tree_at};
use crate::call_flags::are_flags;
use crate::call_result::{
    CallResult, STATUS_NO_PATTERN, STATUS_NO_TREE, STATUS_NOT_PRINTABLE, STATUS_UNKNOWN_FLAG,
};
use crate::group_rows::{names_from, with_groups};
use crate::info_rows::{Name, TreeInfo};
use crate::node::Node;
use crate::pattern::put_pattern;
use fancy_syntax::tree::ExprTree;
use std::alloc::Global;

/// What a caller in C says of the groups of a tree.
#[derive(Clone, Copy)]
struct GivenGroups<'a> {
    names: &'a [Name],
    info: &'a TreeInfo,
    /// The bits of the flags that the pattern is for.
    flags: u32,
}

/// The tree of the rows from an index on, with its group information.
fn tree_with_groups(
    alloc: Global,
    nodes: &[Node],
    texts: &[u8],
    index: usize,
    groups: GivenGroups<'_>,
) -> Result<ExprTree, RowsError>
    ensures { IfOk result (λ t. AreRowsOfTree texts.now nodes.now index (view t.expr)) }
{
    let expr = tree_at(alloc, nodes, texts, index)?;
    let named = names_from(alloc, nodes, index, texts, groups.names)?;
    let rows = rows_below(nodes, index);
    Ok(with_groups(alloc, expr, rows, named, groups.info, groups.flags)?)
}

/// Builds the tree of the rows that `fancy_parse_nonnull` wrote, from the one with an index on, with the names of its
/// groups, and writes to the front of `buffer` a pattern that is parsed, under the flags, as this tree with these names.
/// The rows, texts and names may have been changed. Spans are not read, and neither are the numbers of groups: the k-th
/// group of all rows has the number k, and a name that has no group among the rows is left out. Of `info` it reads only
/// `numeric_capture_group_references` and `self_recursive`, which say whether references and calls of the whole pattern
/// are written by numbers. Returns `STATUS_OK` with the size of the text in bytes; `STATUS_BUFFER_TOO_SHORT` with that
/// size if the text does not fit; `STATUS_NO_TREE` if the rows are no tree, or have more than 832 levels;
/// `STATUS_NO_PATTERN` if the text for the tree is not parsed as the tree; `STATUS_UNKNOWN_FLAG` if a bit is set that is no
/// flag of a pattern, whatever the rows are; or `STATUS_OUT_OF_MEMORY`. Unless it returns `STATUS_OK`, nothing is written.
#[unsafe(no_mangle)]
pub extern "C" fn fancy_to_pattern_nodes_nonnull(
    alloc: Global,
    nodes: &[Node],
    texts: &[u8],
    index: usize,
    names: &[Name],
    info: &TreeInfo,
    flags: u32,
    buffer: &mut [u8],
) -> CallResult
    ensures text { WritesText (λ w. (t : Tree) × (m : GroupInfo)
        × AreRowsOfTree texts.now nodes.now index t × IsPatternText (flags_of flags) t m w) buffer.old buffer.new result }
    ensures unwritten { result.status ≡ STATUS_NO_PATTERN → (t : Tree) × (m : GroupInfo)
        × AreRowsOfTree texts.now nodes.now index t × (IsOfPattern (flags_of flags) t m → ⊥) }
    ensures refusal { RefusesNothing result }
    ensures printed { result.status ≢ STATUS_NOT_PRINTABLE }
    ensures flags { TakesOnly (AreFlags flags) STATUS_UNKNOWN_FLAG result }
    ensures status { (result.status ≤ STATUS_NO_TREE) ⊎ (result.status ≡ STATUS_UNKNOWN_FLAG) }
{
    if !are_flags(flags) {
        return CallResult::of_status(STATUS_UNKNOWN_FLAG);
    }
    let groups = GivenGroups { names, info, flags };
    match tree_with_groups(alloc, nodes, texts, index, groups) {
        Ok(tree) => put_pattern(alloc, &tree, flags, buffer),
        Err(error) => error.call_result(),
    }
}
