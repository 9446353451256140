//! The items of classes. A class is one node, so its text is read again.
use crate::difference::Difference;
use fancy_syntax::span::Span;
use std::alloc::{AllocError, Global};

/// An item of a class that other dialects read otherwise.
#[derive(Clone, Copy)]
pub(crate) struct ClassItem {
    /// Its offset in the class.
    start: usize,
    len: usize,
    pub(crate) difference: Difference,
}

impl ClassItem {
    /// The offset of its end in the class.
    fn end(self) -> usize {
        self.start.saturating_add(self.len)
    }

    /// Its span, if the class begins there.
    pub(crate) fn span_from(self, class: usize) -> Span {
        Span {
            start: class.saturating_add(self.start),
            end: class.saturating_add(self.end()),
        }
    }
}

/// The digits of a hexadecimal escape have no layout before or after them: `rest` is what follows its letter.
fn has_no_layout(rest: &str) -> bool {
    let digits = match rest.strip_prefix('{') {
        Some(braces) => braces.split_once('}').map_or("", |parts| parts.0),
        None => rest.get(..1).unwrap_or(""),
    };
    !digits.is_empty() && digits.bytes().all(|byte| byte.is_ascii_hexdigit())
}

/// What an escape in a class is, by the character after the backslash.
fn of_escape(c: char) -> Option<Difference> {
    match c {
        'h' | 'H' => Some(Difference::HexadecimalDigit),
        'v' => Some(Difference::VerticalTab),
        'a' | 'e' => Some(Difference::EscapedLetter),
        _ => None,
    }
}

/// What begins with a character that is not escaped; `rest` is what follows it, and `is_inside` says that it does not open
/// the class.
fn of_character(c: char, rest: &str, is_inside: bool) -> Option<Difference> {
    match c {
        '[' if is_inside && !rest.starts_with(':') => Some(Difference::NestedClass),
        '&' if rest.starts_with('&') => Some(Difference::Intersection),
        _ => None,
    }
}

/// A closing bracket that is the first character of the class.
fn closing_bracket(class: &str) -> Option<ClassItem> {
    let items = class.strip_prefix('[')?;
    let items = items.strip_prefix('^').unwrap_or(items);
    if !items.starts_with(']') {
        return None;
    }
    Some(ClassItem {
        start: class.len().saturating_sub(items.len()),
        len: 1,
        difference: Difference::ClosingBracket,
    })
}

/// The item whose character is at the offset, with its backslash if it is escaped; `rest` is what follows it.
fn item_at(i: usize, c: char, rest: &str, is_escaped: bool) -> Option<ClassItem> {
    if is_escaped {
        return Some(ClassItem {
            start: i.saturating_sub(1),
            len: 2,
            difference: of_escape(c)?,
        });
    }
    let difference = of_character(c, rest, i > 0)?;
    let len = if difference == Difference::Intersection {
        2
    } else {
        1
    };
    Some(ClassItem {
        start: i,
        len,
        difference,
    })
}

/// The items of the class that other dialects read otherwise, in the order of its text. After a hexadecimal escape with layout
/// none is looked for.
pub(crate) fn items_in(alloc: Global, class: &str) -> Result<Vec<ClassItem>, AllocError> {
    let mut items = Vec::new(alloc);
    if let Some(item) = closing_bracket(class) {
        items.push(item)?;
    }
    let (mut is_escaped, mut end) = (false, 0usize);
    for (i, c) in class.char_indices() {
        let rest = class.get(i.saturating_add(c.len_utf8())..).unwrap_or("");
        if is_escaped && matches!(c, 'x' | 'u' | 'U') && !has_no_layout(rest) {
            break;
        }
        if i >= end
            && let Some(item) = item_at(i, c, rest, is_escaped)
        {
            end = item.end();
            items.push(item)?;
        }
        is_escaped = c == '\\' && !is_escaped;
    }
    Ok(items)
}
