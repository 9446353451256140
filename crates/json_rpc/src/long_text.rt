//! The long text of a message, which is unescaped in the message's own memory, so that it is in memory once.
ghost use Rattle.std.specs.Prelude.{◌≡◌, ℕ, List, ◌+◌, ◌++◌, ◌≤◌, ◌<◌, take, drop, length, codes, slice_range, string_bytes, IfOk, IfSome};
ghost use Rattle.json_rpc.specs.LongText.{SpellsText, SpellsInParts};

use json::{Scratch, Value};
use std::alloc::{AllocError, Global};

/// How many bytes a text has at least that is long, as its message spells it.
const LONG: usize = 1 << 20;

/// How many bytes of a long text are unescaped at once.
const PIECE: usize = 1 << 16;

/// The text that a message has in the place of its long one.
pub const PLACEHOLDER: &str = "\0";

/// That text as JSON spells it, which is in one way only.
const SPELLED: &[u8] = b"\\u0000";

/// A text of a message without its quotation marks, in byte offsets.
#[derive(Debug, Clone, Copy, PartialEq, Eq)]
pub struct TextSpan {
    pub start: usize,
    pub end: usize,
}

/// A message with the placeholder in the place of its long text.
#[derive(Debug, Drop)]
pub struct Shortened {
    /// Where the message has the long text.
    pub text: TextSpan,
    pub rest: Vec<u8>,
}

/// Where the text ends that begins at the offset: at its quotation mark.
fn text_end(message: &[u8], start: usize) -> Option<usize> {
    let mut is_escaped = false;
    for (offset, byte) in message.get(start..)?.iter().enumerate() {
        match byte {
            _ if is_escaped => is_escaped = false,
            b'\\' => is_escaped = true,
            b'"' => return Some(start.saturating_add(offset)),
            _ => {}
        }
    }
    None
}

/// The next text from the offset on.
fn next_text(message: &[u8], offset: usize) -> Option<TextSpan> {
    let before = message
        .get(offset..)?
        .iter()
        .position(|byte| *byte == b'"')?;
    let start = offset.saturating_add(before).saturating_add(1);
    let end = text_end(message, start)?;
    Some(TextSpan { start, end })
}

/// The first long text.
fn long_text(message: &[u8]) -> Option<TextSpan> {
    let mut offset = 0usize;
    for _ in LONG..message.len() {
        let text = next_text(message, offset)?;
        if text.end.saturating_sub(text.start) >= LONG {
            return Some(text);
        }
        offset = text.end.saturating_add(1);
    }
    None
}

/// The message with the placeholder in the place of its long text. None if it has no long text, or U+0000 elsewhere.
pub fn without_long_text(alloc: Global, message: &[u8]) -> Result<Option<Shortened>, AllocError>
    ensures rest { IfOk result (λ found. IfSome found (λ short. short.rest.items
        ≡ take short.text.start message.now ++ (codes "\\u0000" ++ drop short.text.end message.now))) }
{
    let Some(text) = long_text(message) else {
        return Ok(None);
    };
    let (Some(before), Some(after)) = (message.get(..text.start), message.get(text.end..)) else {
        return Ok(None);
    };
    if has_placeholder(before) || has_placeholder(after) {
        return Ok(None);
    }
    let mut rest = Vec::from_slice(alloc, before)?;
    rest.extend_from_slice(SPELLED)?;
    rest.extend_from_slice(after)?;
    Ok(Some(Shortened { text, rest }))
}

/// Whether a part of a message may spell the placeholder.
fn has_placeholder(part: &[u8]) -> bool {
    part.windows(SPELLED.len()).any(|bytes| bytes == SPELLED)
}

/// How many bytes spell the first character of a text; of half of a surrogate pair, those of the pair.
fn spelled_length(text: &[u8]) -> usize
    ensures { 0 < result }
{
    match text {
        [
            b'\\',
            b'u',
            b'd' | b'D',
            b'8' | b'9' | b'a' | b'A' | b'b' | b'B',
            ..
        ] => 12,
        [b'\\', b'u', ..] => 6,
        [b'\\', ..] => 2,
        _ => 1,
    }
}

/// Whether the byte at the offset is inside a character.
fn is_inside(message: &[u8], offset: usize) -> bool {
    message
        .get(offset)
        .is_some_and(|byte| matches!(byte, 0x80..=0xbf))
}

/// Where the next piece of a text ends, which is at this span: after whole characters.
fn piece_end(message: &[u8], text: TextSpan) -> usize
    ensures later { text.start < text.end → text.start < result }
    ensures within { result ≤ text.end }
{
    let mut end = text.start;
    while end < text.end {
        let spelled = spelled_length(message.get(end..).unwrap_or(&[]));
        end = end.saturating_add(spelled).min(text.end);
        if end.saturating_sub(text.start) >= PIECE && !is_inside(message, end) {
            return end;
        }
    }
    text.end
}

/// Writes the piece, unescaped, to the message at the offset, and returns how many bytes it has then, which end before the rest
/// of the message; None if it is no text of JSON.
fn move_piece(
    alloc: Global,
    message: &mut Vec<u8>,
    piece: TextSpan,
    offset: usize,
) -> Result<Option<usize>, AllocError>
    ensures moved { IfOk result (λ found. IfSome found (λ n. (text : List ℕ)
        × SpellsText (slice_range message.old.items piece.start piece.end) text
        × (take (offset + n) message.new.items ≡ take offset message.old.items ++ text))) }
    ensures within { IfOk result (λ found. IfSome found (λ n. offset + n ≤ piece.end)) }
    ensures rest { drop piece.end message.new.items ≡ drop piece.end message.old.items }
{
    let Some(part) = message.get(piece.start..piece.end) else {
        return Ok(None);
    };
    let mut spelled = Vec::from_slice(alloc, b"\"")?;
    spelled.extend_from_slice(part)?;
    spelled.extend_from_slice(b"\"")?;
    let mut scratch = Scratch::new(alloc);
    match Value::from_slice(alloc, &spelled, &mut scratch) {
        Ok(Value::String(text)) => Ok(write_at(message, offset, text.as_bytes(), piece.end)),
        Err(json::Error::OutOfMemory) => Err(AllocError),
        _ => Ok(None),
    }
}

/// Writes the bytes to the message at the offset, and returns how many; None if they would end after the limit.
fn write_at(message: &mut Vec<u8>, offset: usize, bytes: &[u8], limit: usize) -> Option<usize>
    ensures written { IfSome result (λ n. take (offset + n) message.new.items
        ≡ take offset message.old.items ++ bytes.now) }
    ensures within { IfSome result (λ n. offset + n ≤ limit) }
    ensures rest { drop limit message.new.items ≡ drop limit message.old.items }
{
    let length = bytes.len();
    let end = offset.checked_add(length)?;
    if limit.min(message.len()) < end {
        return None;
    }
    message[offset..end].copy_from_slice(bytes);
    Some(length)
}

/// The text of the message at this span, unescaped, in the message's memory; None if it is no text of JSON.
pub fn unescaped(
    alloc: Global,
    mut message: Vec<u8>,
    text: TextSpan,
) -> Result<Option<String>, AllocError>
    ensures { IfOk result (λ found. IfSome found (λ unescaped. SpellsInParts
        (slice_range message.items text.start text.end) (string_bytes unescaped))) }
{
    let (mut start, mut length) = (text.start, 0usize);
    while start < text.end {
        let end = piece_end(&message, TextSpan { start, ..text });
        let piece = TextSpan { start, end };
        let Some(written) = move_piece(alloc, &mut message, piece, length)? else {
            return Ok(None);
        };
        length = length.saturating_add(written);
        start = end;
    }
    message.truncate(length);
    let Ok(mut unescaped) = String::from_utf8(message) else {
        return Ok(None);
    };
    unescaped.shrink_to_fit();
    Ok(Some(unescaped))
}
