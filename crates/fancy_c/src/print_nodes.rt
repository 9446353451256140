//! The text of a tree that is given by its rows.
ghost use Rattle.std.specs.Prelude.{◌≡◌, ◌≢◌, ◌≤◌, ◌⊎◌, false};
ghost use Rattle.fancy_grammar.specs.Printable.{printable};
ghost use Rattle.fancy_grammar.specs.Tree.{Tree};
ghost use Rattle.fancy_c.specs.RowTree.{AreRowsOfTree};
ghost use Rattle.fancy_c.specs.WrittenText.{IsText, NamesPrecedence};
ghost use Rattle.fancy_c.specs.Calls.{RefusesNothing, TakesOnly, WritesText};

use crate::built::tree_at;
use crate::call_result::{
    CallResult, STATUS_NO_PATTERN, STATUS_NO_TREE, STATUS_NOT_PRINTABLE, STATUS_UNKNOWN_PRECEDENCE,
};
use crate::node::Node;
use crate::print::{is_precedence, print};
use std::alloc::Global;

/// Builds the tree of the rows that `fancy_parse_nonnull` wrote, from the one with an index on, and prints it at a
/// precedence to the front of `buffer`, as `fancy_print_nonnull` does. The rows and texts may have been changed. Spans are
/// not read. Returns what `fancy_print_nonnull` returns for a valid pattern, `STATUS_UNKNOWN_PRECEDENCE` whatever the rows
/// are, but `STATUS_NO_TREE` if they are no tree, or have more than 832 levels. Unless it returns `STATUS_OK`, nothing is
/// written.
#[unsafe(no_mangle)]
pub extern "C" fn fancy_print_nodes_nonnull(
    alloc: Global,
    nodes: &[Node],
    texts: &[u8],
    index: usize,
    precedence: u32,
    buffer: &mut [u8],
) -> CallResult
    ensures text { WritesText (λ w. (t : Tree) × AreRowsOfTree texts.now nodes.now index t × IsText t precedence w)
        buffer.old buffer.new result }
    ensures not_printable { result.status ≡ STATUS_NOT_PRINTABLE → (t : Tree)
        × AreRowsOfTree texts.now nodes.now index t × (printable t ≡ false) }
    ensures no_pattern { result.status ≢ STATUS_NO_PATTERN }
    ensures precedence { TakesOnly (NamesPrecedence precedence) STATUS_UNKNOWN_PRECEDENCE result }
    ensures status { (result.status ≤ STATUS_NO_TREE) ⊎ (result.status ≡ STATUS_UNKNOWN_PRECEDENCE) }
    ensures refusal { RefusesNothing result }
{
    if !is_precedence(precedence) {
        return CallResult::of_status(STATUS_UNKNOWN_PRECEDENCE);
    }
    match tree_at(alloc, nodes, texts, index) {
        Ok(tree) => print(alloc, &tree, precedence as u8, buffer),
        Err(error) => error.call_result(),
    }
}
