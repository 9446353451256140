//! Texts that get an empty comment before them, since they would be read together with what is before them.
ghost use Rattle.std.specs.Prelude.{◌≡◌, true, nat_lt, chars};
ghost use Rattle.std.specs.List.{list_all};
ghost use Rattle.std.specs.Str.{bytes_eq};
ghost use Rattle.fancy_lex.specs.Number.{at_digit};
ghost use Rattle.fancy_pattern.specs.TextOutput.{needs_separator};

use fancy_lex::group_starts::references::begins_target;
use fancy_lex::text::{after, is_same_text, next};

/// What is before a text.
#[derive(Clone, Copy)]
pub(crate) enum Separator {
    /// A number, which a digit would continue.
    Number,
    /// `(?(`, after which a target or `DEFINE` would be read.
    Condition,
    /// `(?~`, which a bar would continue.
    Absent,
}

impl Separator {
    /// Whether the text must be separated from what is before it.
    pub(crate) fn is_needed(self, text: &str) -> bool
        ensures { result ≡ needs_separator self (chars text.now) }
    {
        match self {
            Separator::Number => begins_with_digit(text),
            Separator::Condition => begins_target(text) || is_text(text, "DEFINE"),
            Separator::Absent => after(text, '|').is_some(),
        }
    }
}

/// Whether the text is the word, which has only ASCII characters.
pub(crate) fn is_text(text: &str, word: &str) -> bool
    requires { list_all (λ b. nat_lt b 128) word.now ≡ true }
    ensures { result ≡ bytes_eq (chars text.now) word.now }
{
    is_same_text(text, word)
}

/// Whether the text begins with an ASCII digit.
fn begins_with_digit(text: &str) -> bool
    ensures { result ≡ at_digit (chars text.now) }
{
    match next(text) {
        Some((c, _)) => c.is_ascii_digit(),
        None => false,
    }
}
