//! The text of a pattern's tree.
ghost use Rattle.std.specs.Prelude.{◌≡◌, ◌≢◌, ◌<◌, ◌≤◌, ◌⊎◌, ℕ, List, IfOk, MatchOption, length, string_bytes, true, false};
ghost use Rattle.fancy_lex.specs.Flags.{flags_of};
ghost use Rattle.fancy_grammar.specs.GroupInfo.{GroupInfo};
ghost use Rattle.fancy_grammar.specs.Printable.{printable};
ghost use Rattle.fancy_grammar.specs.Tree.{Tree};
ghost use Rattle.fancy_syntax.specs.View.{view};
ghost use Rattle.fancy_c.specs.CallFlags.{AreFlags};
ghost use Rattle.fancy_c.specs.CallResult.{IsTreeOfBytes};
ghost use Rattle.fancy_c.specs.Buffer.{Fills};
ghost use Rattle.fancy_c.specs.Calls.{RefusesPattern, TakesOnly, WritesText};
ghost use Rattle.fancy_c.specs.WrittenText.{IsText, IsTextOfBytes, NamesPrecedence};

use crate::buffer::write;
use crate::call_flags::are_flags;
use crate::call_result::{
    CallResult, ERROR_NONE, STATUS_BUFFER_TOO_SHORT, STATUS_NOT_PRINTABLE, STATUS_NOT_UTF8,
    STATUS_OK, STATUS_OUT_OF_MEMORY, STATUS_REFUSED, STATUS_UNKNOWN_FLAG,
    STATUS_UNKNOWN_PRECEDENCE,
};
use crate::read::read;
use fancy_syntax::expr::Expr;
use fancy_syntax::print::OPERAND;
use std::alloc::{AllocError, Global};

/// Whether the number is that of a precedence.
pub(crate) fn is_precedence(number: u32) -> bool
    ensures known { result ≡ true → NamesPrecedence number }
    ensures unknown { result ≡ false → NamesPrecedence number → ⊥ }
{
    number <= OPERAND as u32
}

/// The tree's text, if it is printable.
fn printed_text(alloc: Global, tree: &Expr, precedence: u8) -> Result<Option<String>, AllocError>
    ensures { IfOk result (λ text. MatchOption text (printable (view tree.now) ≡ false)
        (λ s. IsText (view tree.now) precedence (string_bytes s))) }
{
    tree.print(alloc, precedence)
}

/// Writes the tree's text at the front of the buffer, if it has one and it fits.
pub(crate) fn print(alloc: Global, tree: &Expr, precedence: u8, buffer: &mut [u8]) -> CallResult
    ensures read { result.status ≡ STATUS_OK → (w : List ℕ) × IsText (view tree.now) precedence w
        × (result.size ≡ length w) × Fills buffer.old buffer.new w }
    ensures short { result.status ≡ STATUS_BUFFER_TOO_SHORT →
        (w : List ℕ) × IsText (view tree.now) precedence w × (result.size ≡ length w)
        × (length buffer.old < length w) }
    ensures not_printable { result.status ≡ STATUS_NOT_PRINTABLE → printable (view tree.now) ≡ false }
    ensures kept { result.status ≢ STATUS_OK → buffer.new ≡ buffer.old }
    ensures error { (result.status ≢ STATUS_REFUSED) × (result.status ≢ STATUS_NOT_UTF8) }
    ensures status { result.status ≤ STATUS_NOT_PRINTABLE }
    ensures no_kind { result.kind ≡ ERROR_NONE }
    ensures no_position { result.position ≡ 0 }
    ensures no_size { result.status ≢ STATUS_OK → result.status ≢ STATUS_BUFFER_TOO_SHORT → result.size ≡ 0 }
{
    match printed_text(alloc, tree, precedence) {
        Ok(Some(text)) => write(buffer, text.as_bytes()),
        Ok(None) => CallResult {
            status: STATUS_NOT_PRINTABLE,
            kind: ERROR_NONE,
            position: 0,
            size: 0,
        },
        Err(AllocError) => CallResult {
            status: STATUS_OUT_OF_MEMORY,
            kind: ERROR_NONE,
            position: 0,
            size: 0,
        },
    }
}

/// Parses a pattern as `fancy_check_nonnull` does, and prints its tree at a precedence to the front of `buffer`.
/// Returns `STATUS_OK` with the size of the text in bytes; `STATUS_BUFFER_TOO_SHORT` with that size if the text does
/// not fit; `STATUS_NOT_PRINTABLE` if the tree is not printable; `STATUS_UNKNOWN_PRECEDENCE` if no precedence has the
/// number, whatever the pattern is; else what `fancy_check_nonnull` returns. Unless it returns `STATUS_OK`, nothing is
/// written. Above precedence 0 an `Alt`, above 1 a `Concat` and above 2 a `Repeat` is put into a group.
#[unsafe(no_mangle)]
pub extern "C" fn fancy_print_nonnull(
    alloc: Global,
    pattern: &[u8],
    flags: u32,
    precedence: u32,
    buffer: &mut [u8],
) -> CallResult
    ensures text { WritesText (IsTextOfBytes (flags_of flags) pattern.now precedence) buffer.old buffer.new result }
    ensures not_printable { result.status ≡ STATUS_NOT_PRINTABLE → (t : Tree) × (m : GroupInfo)
        × IsTreeOfBytes (flags_of flags) pattern.now t m × (printable t ≡ false) }
    ensures refusal { RefusesPattern (flags_of flags) pattern.now result }
    ensures precedence { TakesOnly (NamesPrecedence precedence) STATUS_UNKNOWN_PRECEDENCE result }
    ensures known_flags { AreFlags flags → result.status ≢ STATUS_UNKNOWN_FLAG }
    ensures unknown_flag { NamesPrecedence precedence → (AreFlags flags → ⊥) → result.status ≡ STATUS_UNKNOWN_FLAG }
    ensures status { (result.status ≤ STATUS_NOT_PRINTABLE) ⊎ ((result.status ≡ STATUS_UNKNOWN_FLAG)
        ⊎ (result.status ≡ STATUS_UNKNOWN_PRECEDENCE)) }
{
    if !is_precedence(precedence) {
        return CallResult::of_status(STATUS_UNKNOWN_PRECEDENCE);
    }
    if !are_flags(flags) {
        return CallResult::of_status(STATUS_UNKNOWN_FLAG);
    }
    match read(alloc, pattern, flags) {
        Ok(tree) => print(alloc, &tree.expr, precedence as u8, buffer),
        Err(refusal) => refusal.call_result(),
    }
}
