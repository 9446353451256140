//! Bytes of the caller as a text.
ghost use Rattle.std.specs.Prelude.{◌≡◌, IfOk, IfErr};
ghost use Rattle.std.specs.Str.{IsUtf8};
ghost use Rattle.fancy_c.specs.CallResult.{IsNoUtf8, result_of};
ghost use Rattle.fancy_c.specs.declared.read.BytesRefusal.TheVariants.{NoUtf8};

use crate::call_result::{CallResult, ERROR_NONE, STATUS_NOT_UTF8};
use std::str;

/// The text that the bytes encode in UTF-8, or the result for the caller.
pub(crate) fn utf8_of(bytes: &[u8]) -> Result<&str, CallResult>
    ensures text { IfOk result (λ text. (text.now ≡ bytes.now) × IsUtf8 bytes.now) }
    ensures refusal { IfErr result (λ r. IsNoUtf8 bytes.now r.position × (r ≡ result_of (NoUtf8 r.position))) }
{
    match str::from_utf8(bytes) {
        Ok(text) => Ok(text),
        Err(error) => Err(CallResult {
            status: STATUS_NOT_UTF8,
            kind: ERROR_NONE,
            position: error.valid_up_to(),
            size: 0,
        }),
    }
}
