//! Whether the references of a pattern refer to groups that it has.
ghost use Rattle.std.specs.Prelude.{◌≡◌, ◌≤◌, ◌⊎◌, true, false};
ghost use Rattle.fancy_lex.specs.Flags.{flags_of};
ghost use Rattle.fancy_grammar.specs.GroupInfo.{GroupInfo};
ghost use Rattle.fancy_grammar.specs.References.{are_resolved};
ghost use Rattle.fancy_grammar.specs.Tree.{Tree};
ghost use Rattle.fancy_c.specs.CallFlags.{AreFlags};
ghost use Rattle.fancy_c.specs.CallResult.{IsTreeOfBytes};
ghost use Rattle.fancy_c.specs.Calls.{RefusesPattern, TakesOnly};

use crate::call_flags::are_flags;
use crate::call_result::{
    CallResult, STATUS_OK, STATUS_OUT_OF_MEMORY, STATUS_UNKNOWN_FLAG, STATUS_UNRESOLVED,
};
use crate::read::read;
use std::alloc::Global;

/// Parses a pattern as `fancy_check_nonnull` does, and looks whether each reference refers to a group that the pattern has,
/// or to the whole pattern. Returns `STATUS_OK` if so. Returns `STATUS_UNRESOLVED` if a back reference, a condition or a call
/// has a number that no group has, or if a call refers to no group or by a name to several. Else it returns what
/// `fancy_check_nonnull` returns. The size is 0.
#[unsafe(no_mangle)]
pub extern "C" fn fancy_is_resolved_nonnull(alloc: Global, pattern: &[u8], flags: u32) -> CallResult
    ensures read { result.status ≡ STATUS_OK → (t : Tree) × (m : GroupInfo)
        × IsTreeOfBytes (flags_of flags) pattern.now t m × (are_resolved m.total_groups t ≡ true) }
    ensures unresolved { result.status ≡ STATUS_UNRESOLVED → (t : Tree) × (m : GroupInfo)
        × IsTreeOfBytes (flags_of flags) pattern.now t m × (are_resolved m.total_groups t ≡ false) }
    ensures refusal { RefusesPattern (flags_of flags) pattern.now result }
    ensures flags { TakesOnly (AreFlags flags) STATUS_UNKNOWN_FLAG result }
    ensures status { (result.status ≤ STATUS_OUT_OF_MEMORY) ⊎ ((result.status ≡ STATUS_UNKNOWN_FLAG)
        ⊎ (result.status ≡ STATUS_UNRESOLVED)) }
    ensures no_size { result.size ≡ 0 }
{
    if !are_flags(flags) {
        return CallResult::of_status(STATUS_UNKNOWN_FLAG);
    }
    let tree = match read(alloc, pattern, flags) {
        Ok(tree) => tree,
        Err(refusal) => return refusal.call_result(),
    };
    if tree.is_resolved() {
        CallResult::of_status(STATUS_OK)
    } else {
        CallResult::of_status(STATUS_UNRESOLVED)
    }
}
