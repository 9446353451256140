//! Writing into a buffer of the caller.
ghost use Rattle.std.specs.Prelude.{◌≡◌, ◌≢◌, ◌<◌, ◌⊎◌, length, true, false};
ghost use Rattle.fancy_c.specs.Buffer.{Fills};

use crate::call_result::{CallResult, ERROR_NONE, STATUS_BUFFER_TOO_SHORT, STATUS_OK};

/// Writes the text at the front of the buffer if it fits, and returns whether it does.
pub(crate) fn fill(buffer: &mut [u8], text: &[u8]) -> bool
    ensures filled { result ≡ true → Fills buffer.old buffer.new text.now }
    ensures kept { result ≡ false → buffer.new ≡ buffer.old }
    ensures short { result ≡ false → length buffer.old < length text.now }
{
    let size = text.len();
    if buffer.len() < size {
        return false;
    }
    buffer[..size].copy_from_slice(text);
    true
}

/// Writes the text at the front of the buffer if it fits, and returns the result for the caller.
pub(crate) fn write(buffer: &mut [u8], text: &[u8]) -> CallResult
    ensures read { result.status ≡ STATUS_OK → Fills buffer.old buffer.new text.now }
    ensures short { result.status ≡ STATUS_BUFFER_TOO_SHORT → length buffer.old < length text.now }
    ensures kept { result.status ≢ STATUS_OK → buffer.new ≡ buffer.old }
    ensures status { (result.status ≡ STATUS_OK) ⊎ (result.status ≡ STATUS_BUFFER_TOO_SHORT) }
    ensures size { result.size ≡ length text.now }
    ensures no_kind { result.kind ≡ ERROR_NONE }
    ensures no_position { result.position ≡ 0 }
{
    let status = if fill(buffer, text) {
        STATUS_OK
    } else {
        STATUS_BUFFER_TOO_SHORT
    };
    CallResult {
        status,
        kind: ERROR_NONE,
        position: 0,
        size: text.len(),
    }
}
