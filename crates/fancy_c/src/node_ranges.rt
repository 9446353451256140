//! The characters of a node as ranges.
ghost use Rattle.std.specs.Prelude.{◌≡◌, ◌≢◌, ◌<◌, ◌≤◌, ◌⊎◌, List, false, length, map};
ghost use Rattle.fancy_lex.specs.Flags.{flags_of};
ghost use Rattle.regex_class.specs.Ranges.{Range};
ghost use Rattle.fancy_c.specs.Buffer.{Fills};
ghost use Rattle.fancy_c.specs.CallFlags.{AreFlags};
ghost use Rattle.fancy_c.specs.ClassRanges as spec;
ghost use Rattle.fancy_c.specs.ClassRanges.{AreRangesOf, IsRefused, IsGiven, IsRead};

use crate::call_flags::are_flags;
use crate::call_result::{
    CallResult, ERROR_INVALID_CLASS, ERROR_NONE, STATUS_BUFFER_TOO_SHORT, STATUS_NO_TREE,
    STATUS_NOT_ONE_CHARACTER, STATUS_NOT_UTF8, STATUS_OK, STATUS_OUT_OF_MEMORY, STATUS_REFUSED,
    STATUS_UNKNOWN_FLAG,
};
use crate::class_ranges::{CharacterRange, write_meaning};
use crate::node::{NODE_ANY, NODE_DELEGATE, NODE_LITERAL, Node};
use crate::row_leaf::leaf;
use class_meaning::characters_of;
use fancy_lex::flags::Flags;
use std::alloc::{AllocError, Global};

/// Whether a node with this number may match one character.
fn may_match_one(kind: u32) -> bool
    ensures { result ≡ spec.may_match_one kind }
{
    kind == NODE_ANY || kind == NODE_LITERAL || kind == NODE_DELEGATE
}

/// Does what `fancy_class_ranges_nonnull` does, for a node by its row: an Any, a Literal or a Delegate. The row has `casei`,
/// so that of the flags only that for Unicode matters. Returns what that call returns for the pattern that the engine is
/// given for the node; but the position is 0, and the status is `STATUS_NOT_ONE_CHARACTER` for another kind, and
/// `STATUS_NO_TREE` if the text of the row is not in `texts`, or not UTF-8.
#[unsafe(no_mangle)]
pub extern "C" fn fancy_node_ranges_nonnull(
    alloc: Global,
    node: &Node,
    texts: &[u8],
    flags: u32,
    ranges: &mut [CharacterRange],
    count: &mut usize,
) -> CallResult
    ensures read { result.status ≡ STATUS_OK → (rs : List Range)
        × IsGiven (flags_of flags) texts.now node.now (λ config text. AreRangesOf config text rs)
        × (count.new ≡ length rs) × Fills ranges.old ranges.new (map spec.row rs) }
    ensures short { result.status ≡ STATUS_BUFFER_TOO_SHORT → (rs : List Range)
        × IsGiven (flags_of flags) texts.now node.now (λ config text. AreRangesOf config text rs)
        × (count.new ≡ length rs) × (length ranges.old < count.new) }
    ensures refused { result.status ≡ STATUS_REFUSED → (result.kind ≡ ERROR_INVALID_CLASS)
        × IsGiven (flags_of flags) texts.now node.now IsRefused }
    ensures several { result.status ≡ STATUS_NOT_ONE_CHARACTER → (spec.may_match_one node.now.kind ≡ false)
        ⊎ IsRead (flags_of flags) texts.now node.now }
    ensures other { AreFlags flags → spec.may_match_one node.now.kind ≡ false → result.status ≡ STATUS_NOT_ONE_CHARACTER }
    ensures utf8 { result.status ≢ STATUS_NOT_UTF8 }
    ensures kept { result.status ≢ STATUS_OK → ranges.new ≡ ranges.old }
    ensures count_kept { result.status ≢ STATUS_OK → result.status ≢ STATUS_BUFFER_TOO_SHORT → count.new ≡ count.old }
    ensures known_flags { AreFlags flags → result.status ≢ STATUS_UNKNOWN_FLAG }
    ensures unknown_flag { (AreFlags flags → ⊥) → result.status ≡ STATUS_UNKNOWN_FLAG }
    ensures status { (result.status ≤ STATUS_BUFFER_TOO_SHORT) ⊎ ((result.status ≡ STATUS_NO_TREE)
        ⊎ ((result.status ≡ STATUS_UNKNOWN_FLAG) ⊎ (result.status ≡ STATUS_NOT_ONE_CHARACTER))) }
    ensures no_kind { result.status ≢ STATUS_REFUSED → result.kind ≡ ERROR_NONE }
    ensures no_position { result.position ≡ 0 }
    ensures no_size { result.size ≡ 0 }
{
    if !are_flags(flags) {
        return CallResult::of_status(STATUS_UNKNOWN_FLAG);
    }
    if !may_match_one(node.kind) {
        return CallResult::of_status(STATUS_NOT_ONE_CHARACTER);
    }
    let node = match leaf(alloc, node, texts) {
        Ok(node) => node,
        Err(error) => return error.call_result(),
    };
    match characters_of(alloc, &node, Flags::from_bits(flags).unicode) {
        Ok(meaning) => CallResult {
            position: 0,
            ..write_meaning(ranges, count, &meaning)
        },
        Err(AllocError) => CallResult::of_status(STATUS_OUT_OF_MEMORY),
    }
}
