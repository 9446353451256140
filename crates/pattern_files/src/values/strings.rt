//! Why a text after a quote is no string of JSON.

/// What is wrong with a string.
#[derive(Clone, Copy)]
pub(super) enum StringError {
    /// Its line or the text ends before it does.
    Unclosed,
    /// It has a control character as it is.
    Control,
    /// It has a backslash that begins no escape.
    Escape,
    /// It has one half of a surrogate pair, without the other.
    Surrogate,
}

/// The number that an escape of the form `\u` and four digits at the start of the text gives.
fn code_unit(text: &str) -> Option<u16> {
    let digits = text.strip_prefix("\\u")?.get(..4)?;
    if !digits.bytes().all(|byte| byte.is_ascii_hexdigit()) {
        return None;
    }
    u16::from_str_radix(digits, 16).ok()
}

/// How many bytes the escape of this form takes, or the two for a surrogate pair.
fn unicode_length(escape: &str) -> Result<usize, StringError> {
    match code_unit(escape) {
        None => Err(StringError::Escape),
        Some(0xD800..=0xDBFF) => match escape.get(6..).and_then(code_unit) {
            Some(0xDC00..=0xDFFF) => Ok(12),
            _ => Err(StringError::Surrogate),
        },
        Some(0xDC00..=0xDFFF) => Err(StringError::Surrogate),
        Some(_) => Ok(6),
    }
}

/// How many bytes an escape takes, or what is wrong with it.
fn escape_length(escape: &str) -> Result<usize, StringError> {
    match escape.as_bytes().get(1) {
        Some(b'"' | b'\\' | b'/' | b'b' | b'f' | b'n' | b'r' | b't') => Ok(2),
        Some(b'u') => unicode_length(escape),
        _ => Err(StringError::Escape),
    }
}

/// What is wrong with a string of which this is the text from past its quote on, and at which byte offset; none if nothing
/// is.
pub(super) fn string_error(text: &str) -> Option<(usize, StringError)> {
    let mut next = 0usize;
    for (at, c) in text.char_indices() {
        if at < next {
            continue;
        }
        match c {
            '"' => return None,
            '\n' | '\r' => return Some((0, StringError::Unclosed)),
            '\\' => match escape_length(text.get(at..).unwrap_or("")) {
                Ok(length) => next = at.saturating_add(length),
                Err(error) => return Some((at, error)),
            },
            _ if c < ' ' => return Some((at, StringError::Control)),
            _ => {}
        }
    }
    Some((0, StringError::Unclosed))
}
