//! Characters in a class that an escape in it contains already, or that it has in the other case.
ghost use Rattle.std.specs.Prelude.{◌≡◌};
ghost use Rattle.patterns_lint.specs.Escapes as spec;

use fancy_lex::text::next;
use fancy_syntax::expr::Expr;
use fancy_syntax::span::Span;
use fancy_syntax::spanned::SpannedNode;

/// The most characters of a range that are looked at.
const MOST_CHARACTERS: u32 = 1000;
/// The most bytes of a class in which a range is looked for.
const MOST_BYTES: usize = 1000;

/// Whether a backslash with this letter contains the character, which is one of ASCII.
fn is_of_escape(letter: char, c: char) -> bool
    ensures { result ≡ spec.is_of_escape letter c }
{
    match letter {
        'd' => matches!(c, '0'..='9'),
        'w' => matches!(c, '0'..='9' | 'A'..='Z' | 'a'..='z' | '_'),
        's' => matches!(c, '\t'..='\r' | ' '),
        _ => false,
    }
}

/// The character that the item is by `\x` and two hexadecimal digits.
fn of_code(item: &str) -> Option<char> {
    let digits = item.strip_prefix(r"\x")?;
    if digits.len() != 2 {
        return None;
    }
    let code = u8::from_str_radix(digits, 16).ok()?;
    Some(char::from(code))
}

/// Both ends of the item if it is a range of characters written as themselves, and twice the character if it is one that is
/// written as itself or by its code.
fn ends(item: &str) -> Option<(char, char)> {
    if let Some(c) = of_code(item) {
        return Some((c, c));
    }
    let (first, rest) = next(item)?;
    match next(rest) {
        None => Some((first, first)),
        Some(('-', rest)) => {
            let (last, rest) = next(rest)?;
            rest.is_empty().then_some((first, last))
        }
        Some(_) => None,
    }
}

/// Whether all characters from `first` to `last` are letters, none of them of ASCII, so that `\w` contains them.
fn are_other_letters(first: char, last: char) -> bool {
    if first.is_ascii() || last as u32 > (first as u32).saturating_add(MOST_CHARACTERS) {
        return false;
    }
    for code in first as u32..=last as u32 {
        match char::from_u32(code) {
            Some(c) if c.is_alphabetic() => {}
            Some(_) | None => return false,
        }
    }
    true
}

/// Whether a backslash with this letter contains the item of a class, as far as its text says.
fn is_within(letter: char, item: &str) -> bool {
    match (letter, item) {
        ('w', r"\d") => true,
        ('s', r"\t" | r"\n" | r"\v" | r"\f" | r"\r" | r"\x85" | r"\xa0" | r"\xA0") => true,
        _ => match ends(item) {
            Some((first, last)) => {
                (is_of_escape(letter, first) && is_of_escape(letter, last))
                    || (letter == 'w' && are_other_letters(first, last))
            }
            None => false,
        },
    }
}

/// The letter of the first escape in the class that contains the item.
fn escape_in(class: &str, item: &str) -> Option<char> {
    let mut is_escaped = false;
    for c in class.chars() {
        if is_escaped && is_within(c, item) {
            return Some(c);
        }
        is_escaped = c == '\\' && !is_escaped;
    }
    None
}

/// Whether the item is a range between two letters of ASCII.
fn is_letter_range(item: &str) -> bool {
    match ends(item) {
        Some((first, last)) => {
            first != last && first.is_ascii_alphabetic() && last.is_ascii_alphabetic()
        }
        None => false,
    }
}

/// Whether the class has the item once, and also in the other case.
fn has_in_other_case(class: &str, item: &str) -> bool {
    let mut count = 0usize;
    let mut has_other = false;
    for start in 0..class.len() {
        let end = start.saturating_add(item.len());
        if let Some(part) = class.get(start..end)
            && part.eq_ignore_ascii_case(item)
        {
            if part == item {
                count = count.saturating_add(1);
            } else {
                has_other = true;
            }
        }
    }
    has_other && count == 1
}

/// The class around the item at the span. `nodes` are those of the pattern, in preorder: it is the last one that begins
/// before the item.
pub(crate) fn class_around<'n, 'a>(
    item: Span,
    nodes: &'n [SpannedNode<'a>],
) -> Option<&'n SpannedNode<'a>> {
    let following = nodes.partition_point(|node| node.span().start <= item.start);
    nodes.get(following.checked_sub(1)?)
}

/// The letter of an escape in the class around the item at the span, if it contains that item. `nodes` are those of the
/// pattern, in preorder.
pub(crate) fn containing_escape(
    item: Span,
    pattern: &str,
    nodes: &[SpannedNode<'_>],
) -> Option<char> {
    let class = class_around(item, nodes)?;
    escape_in(class.text(pattern)?, item.text(pattern)?)
}

/// Whether the item at the span is a range of letters that the class around it, which ignores case, has in the other case
/// too, as `A-Z` in `[a-zA-Z]`. `nodes` are those of the pattern, in preorder.
pub(crate) fn is_of_other_case(item: Span, pattern: &str, nodes: &[SpannedNode<'_>]) -> bool {
    let Some(class) = class_around(item, nodes) else {
        return false;
    };
    let (Some(source), Some(part)) = (class.text(pattern), item.text(pattern)) else {
        return false;
    };
    matches!(class.expr(), Expr::Delegate { casei: true, .. })
        && source.len() <= MOST_BYTES
        && is_letter_range(part)
        && has_in_other_case(source, part)
}

/// Whether the item at the span is a character from U+0080 to U+00FF in a class that ignores case, which has it once: what
/// bytes contain it only by its case. `nodes` are those of the pattern, in preorder.
pub(crate) fn is_byte_by_case(item: Span, pattern: &str, nodes: &[SpannedNode<'_>]) -> bool {
    let Some(class) = class_around(item, nodes) else {
        return false;
    };
    let (Some(source), Some(part)) = (class.text(pattern), item.text(pattern)) else {
        return false;
    };
    let is_byte = ends(part).is_some_and(|(first, _)| matches!(first, '\u{80}'..='\u{FF}'));
    is_byte
        && matches!(class.expr(), Expr::Delegate { casei: true, .. })
        && source.matches(part).count() == 1
}
