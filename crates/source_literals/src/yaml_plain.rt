//! Plain scalars of YAML, which have no delimiters: where one ends follows from its text.
use crate::yaml::is_break;

/// Words that are no text, but null, a boolean, a number or a key of YAML itself, in lower case.
static WORDS: [&str; 17] = [
    "~", "null", "true", "false", "yes", "no", "on", "off", "y", "n", "=", "<<", ".inf", "+.inf",
    "-.inf", ".nan", "---",
];

/// Whether a scalar with this text may be read as a number or a time, and not as a text.
fn may_be_number(text: &str) -> bool {
    let begins = text.starts_with(|c: char| c.is_ascii_digit() || matches!(c, '+' | '-' | '.'));
    let is_of_number = |c: char| c.is_ascii_hexdigit() || "_+-.:oOxXtTzZ ".contains(c);
    begins && text.contains(|c: char| c.is_ascii_digit()) && text.chars().all(is_of_number)
}

/// Whether a plain scalar with this text is read as a text.
fn is_text(text: &str) -> bool {
    !may_be_number(text) && !WORDS.iter().any(|word| text.eq_ignore_ascii_case(word))
}

/// Whether the character is a delimiter inside braces and brackets.
fn is_flow_delimiter(c: char) -> bool {
    matches!(c, ',' | '?' | '[' | ']' | '{' | '}')
}

/// Whether a plain scalar can go on with what is at the front: not at the end of a line or at a tab, not with a comment
/// after a space, and not with a colon that ends a key.
fn goes_on(rest: &str, is_after_space: bool, is_flow: bool) -> bool {
    let mut characters = rest.chars();
    let Some(first) = characters.next() else {
        return false;
    };
    if is_break(first) || first == '\t' || (is_flow && is_flow_delimiter(first)) {
        return false;
    }
    match (first, characters.next()) {
        ('#', _) => !is_after_space,
        (':', None) => false,
        (':', Some(next)) => {
            !is_break(next) && !matches!(next, ' ' | '\t') && !(is_flow && is_flow_delimiter(next))
        }
        _ => true,
    }
}

/// Whether a plain scalar can begin so.
fn can_begin(rest: &str) -> bool {
    let mut characters = rest.chars();
    match characters.next() {
        None => false,
        Some('-' | '?' | ':') => characters
            .next()
            .is_some_and(|next| !is_break(next) && !matches!(next, ' ' | '\t')),
        Some(first) => {
            !is_break(first) && !first.is_whitespace() && !",[]{}#&*!|>'\"%@`".contains(first)
        }
    }
}

/// How many bytes the plain scalar takes that the rest of a source begins with; none if that is no text of one line.
pub(crate) fn plain_len(rest: &str, is_flow: bool) -> Option<usize> {
    let mut end = 0usize;
    let mut is_after_space = true;
    for (i, c) in rest.char_indices() {
        if !goes_on(rest.get(i..)?, is_after_space, is_flow) {
            break;
        }
        is_after_space = c == ' ';
        if !is_after_space {
            end = i.saturating_add(c.len_utf8());
        }
    }
    let text = rest.get(..end)?;
    (can_begin(rest) && !text.is_empty() && is_text(text)).then_some(end)
}
