//! The text of any pattern's tree, for the flags that the pattern was parsed under.
ghost use Rattle.std.specs.Prelude.{◌≡◌, ◌≢◌, ◌<◌, ◌≤◌, ◌⊎◌, ℕ, List, IfOk, MatchOption, length, string_bytes};
ghost use Rattle.fancy_lex.specs.Flags.{flags_of};
ghost use Rattle.fancy_grammar.specs.OfPattern.{IsOfPattern};
ghost use Rattle.fancy_syntax.specs.InfoViews.{info_of};
ghost use Rattle.fancy_syntax.specs.View.{view};
ghost use Rattle.fancy_c.specs.CallFlags.{AreFlags};
ghost use Rattle.fancy_c.specs.Buffer.{Fills};
ghost use Rattle.fancy_c.specs.Calls.{RefusesPattern, TakesOnly, WritesText};
ghost use Rattle.fancy_c.specs.WrittenText.{IsPatternText, IsPatternTextOfBytes};

use crate::buffer::write;
use crate::call_flags::are_flags;
use crate::call_result::{
    CallResult, ERROR_NONE, STATUS_BUFFER_TOO_SHORT, STATUS_NO_PATTERN, STATUS_NOT_PRINTABLE,
    STATUS_NOT_UTF8, STATUS_OK, STATUS_OUT_OF_MEMORY, STATUS_REFUSED, STATUS_UNKNOWN_FLAG,
};
use crate::read::read;
use fancy_pattern::to_pattern;
use fancy_syntax::tree::ExprTree;
use std::alloc::{AllocError, Global};

/// The text that is written for the tree, if it is read as the tree.
fn pattern_of(alloc: Global, tree: &ExprTree, flags: u32) -> Result<Option<String>, AllocError>
    ensures { IfOk result (λ text. MatchOption text
        (IsOfPattern (flags_of flags) (view tree.now.expr) (info_of tree.now) → ⊥)
        (λ s. IsPatternText (flags_of flags) (view tree.now.expr) (info_of tree.now) (string_bytes s))) }
{
    to_pattern(alloc, tree, flags)
}

/// Writes that text at the front of the buffer, if there is one and it fits.
pub(crate) fn put_pattern(
    alloc: Global,
    tree: &ExprTree,
    flags: u32,
    buffer: &mut [u8],
) -> CallResult
    ensures read { result.status ≡ STATUS_OK → (w : List ℕ)
        × IsPatternText (flags_of flags) (view tree.now.expr) (info_of tree.now) w × (result.size ≡ length w)
        × Fills buffer.old buffer.new w }
    ensures short { result.status ≡ STATUS_BUFFER_TOO_SHORT → (w : List ℕ)
        × IsPatternText (flags_of flags) (view tree.now.expr) (info_of tree.now) w × (result.size ≡ length w)
        × (length buffer.old < length w) }
    ensures no_pattern { result.status ≡ STATUS_NO_PATTERN →
        IsOfPattern (flags_of flags) (view tree.now.expr) (info_of tree.now) → ⊥ }
    ensures kept { result.status ≢ STATUS_OK → buffer.new ≡ buffer.old }
    ensures error { (result.status ≢ STATUS_REFUSED) × (result.status ≢ STATUS_NOT_UTF8) }
    ensures printed { result.status ≢ STATUS_NOT_PRINTABLE }
    ensures status { result.status ≤ STATUS_NO_PATTERN }
    ensures no_kind { result.kind ≡ ERROR_NONE }
    ensures no_position { result.position ≡ 0 }
    ensures no_size { result.status ≢ STATUS_OK → result.status ≢ STATUS_BUFFER_TOO_SHORT → result.size ≡ 0 }
{
    match pattern_of(alloc, tree, flags) {
        Ok(Some(text)) => write(buffer, text.as_bytes()),
        Ok(None) => CallResult {
            status: STATUS_NO_PATTERN,
            kind: ERROR_NONE,
            position: 0,
            size: 0,
        },
        Err(AllocError) => CallResult {
            status: STATUS_OUT_OF_MEMORY,
            kind: ERROR_NONE,
            position: 0,
            size: 0,
        },
    }
}

/// Parses a pattern as `fancy_check_nonnull` does, and writes to the front of `buffer` a pattern that is parsed, under
/// the same flags, as the same tree with the same group information; only the position of an unresolved call may
/// differ. Every node and every name is written; comments and ignored whitespace are not. Returns `STATUS_OK` with the
/// size of the text in bytes; `STATUS_BUFFER_TOO_SHORT` with that size if the text does not fit; else what
/// `fancy_check_nonnull` returns. It never returns `STATUS_NO_PATTERN`. Unless it returns `STATUS_OK`, nothing is
/// written.
#[unsafe(no_mangle)]
pub extern "C" fn fancy_to_pattern_nonnull(
    alloc: Global,
    pattern: &[u8],
    flags: u32,
    buffer: &mut [u8],
) -> CallResult
    ensures text { WritesText (IsPatternTextOfBytes (flags_of flags) pattern.now) buffer.old buffer.new result }
    ensures never { result.status ≢ STATUS_NO_PATTERN }
    ensures refusal { RefusesPattern (flags_of flags) pattern.now result }
    ensures printed { result.status ≢ STATUS_NOT_PRINTABLE }
    ensures flags { TakesOnly (AreFlags flags) STATUS_UNKNOWN_FLAG result }
    ensures status { (result.status ≤ STATUS_NO_PATTERN) ⊎ (result.status ≡ STATUS_UNKNOWN_FLAG) }
{
    if !are_flags(flags) {
        return CallResult::of_status(STATUS_UNKNOWN_FLAG);
    }
    match read(alloc, pattern, flags) {
        Ok(tree) => put_pattern(alloc, &tree, flags, buffer),
        Err(refusal) => refusal.call_result(),
    }
}
