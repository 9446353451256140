//! What a text begins with: an id or a number, as templates of replacements have them.
ghost use Rattle.std.specs.Prelude.{◌≡◌, ◌≢◌, ◌+◌, ◌≤◌, ◌⊎◌, chars, length};
ghost use Rattle.std.specs.Str.{IsUtf8};
ghost use Rattle.fancy_lex.specs.Text.{bytes};
ghost use Rattle.fancy_c.specs.Calls.{RefusesBytes};
ghost use Rattle.fancy_c.specs.TextStart as spec;
ghost use Rattle.fancy_c.specs.TextStart.{IsDecimalOf};

use crate::call_result::{CallResult, ERROR_NONE, STATUS_NOT_UTF8, STATUS_OK};
use crate::utf8::utf8_of;
use fancy_lex::name::id::id;
use fancy_lex::name::number::number;
use fancy_lex::text::byte_len;

/// The size in bytes of the id that the text begins with; 0 if it begins with no id.
fn id_size(text: &str) -> usize
    ensures { result ≡ spec.id_size (chars text.now) }
{
    match id(text) {
        Some((id, _)) => byte_len(id),
        None => 0,
    }
}

/// The size in bytes of a text before the rest of it.
fn size_before(text: &str, rest: &str) -> usize
    requires { length rest.now ≤ length text.now }
    ensures { result + bytes (chars rest.now) ≡ bytes (chars text.now) }
{
    text.len() - rest.len()
}

/// Sets the value to the number that the text begins with, and returns its size in bytes; 0 if the text begins with no
/// number, or with one that does not fit.
fn read_decimal(text: &str, value: &mut usize) -> usize
    ensures { IsDecimalOf (chars text.now) result value.old value.new }
{
    match number(text) {
        Some((Some(number), rest)) => {
            *value = number;
            size_before(text, rest)
        }
        Some((None, _)) => 0,
        None => 0,
    }
}

/// The result of a text that was read, with this size.
fn of_size(size: usize) -> CallResult
    ensures size { result.size ≡ size }
    ensures status { result.status ≡ STATUS_OK }
    ensures no_kind { result.kind ≡ ERROR_NONE }
    ensures no_position { result.position ≡ 0 }
{
    CallResult {
        status: STATUS_OK,
        kind: ERROR_NONE,
        position: 0,
        size,
    }
}

/// Reads the id at the front of a text: all the letters and numbers, in any script, and `_` there. Returns `STATUS_OK` with
/// the size of the id in bytes, which is 0 if the text begins with no id; or `STATUS_NOT_UTF8` if the text is not UTF-8,
/// with the length of the valid UTF-8 prefix.
#[unsafe(no_mangle)]
pub extern "C" fn fancy_parse_id_nonnull(text: &[u8]) -> CallResult
    ensures read { result.status ≡ STATUS_OK → IsUtf8 text.now × (result.size ≡ spec.id_size (chars text.now)) }
    ensures refusal { RefusesBytes text.now result }
    ensures status { (result.status ≡ STATUS_OK) ⊎ (result.status ≡ STATUS_NOT_UTF8) }
    ensures no_size { result.status ≢ STATUS_OK → result.size ≡ 0 }
{
    match utf8_of(text) {
        Ok(text) => of_size(id_size(text)),
        Err(refusal) => refusal,
    }
}

/// Reads the number at the front of a text, which is all the ASCII digits there, and sets `value` to it. Returns `STATUS_OK`
/// with the size of the digits in bytes. The size is 0 if there is no digit, or if the number does not fit in a `usize`:
/// then `value` is not set. Returns `STATUS_NOT_UTF8` if the text is not UTF-8, with the length of the valid UTF-8 prefix.
#[unsafe(no_mangle)]
pub extern "C" fn fancy_parse_decimal_nonnull(text: &[u8], value: &mut usize) -> CallResult
    ensures read { result.status ≡ STATUS_OK → IsUtf8 text.now
        × IsDecimalOf (chars text.now) result.size value.old value.new }
    ensures refusal { RefusesBytes text.now result }
    ensures kept { result.status ≢ STATUS_OK → value.new ≡ value.old }
    ensures status { (result.status ≡ STATUS_OK) ⊎ (result.status ≡ STATUS_NOT_UTF8) }
    ensures no_size { result.status ≢ STATUS_OK → result.size ≡ 0 }
{
    match utf8_of(text) {
        Ok(text) => of_size(read_decimal(text, value)),
        Err(refusal) => refusal,
    }
}
