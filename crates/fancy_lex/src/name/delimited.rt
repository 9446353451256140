//! Names: the text before the first closing delimiter.
ghost use Rattle.std.specs.Prelude.{◌≡◌, ◌<◌, length, chars, IfSome};
ghost use Rattle.fancy_lex.specs.Delimited as spec;
ghost use Rattle.fancy_lex.specs.Views.{parts};

use crate::text::{next, split_at};

/// Parses a name, which is one or more characters up to the first closing delimiter, an ASCII character: the name, and
/// the text after the delimiter. None if there is no character before it, or no closing delimiter.
#[tactic(auto, unfolding(crate::specs::Delimited::name_before))]
pub fn name_before(text: &str, delimiter: char) -> Option<(&str, &str)>
    requires ascii { delimiter < 128 }
    ensures value { spec.name_before delimiter (chars text.now) ≡ parts result }
    ensures shorter { IfSome result (λ p. length p.1.now < length text.now) }
{
    let (name, rest) = split_at(text, delimiter)?;
    if next(name).is_none() {
        return None;
    }
    Some((name, rest))
}

/// Parses a name between `<` and `>`, or between two `'`: the name, and the text after the closing delimiter. None if
/// there is no opening delimiter at the front, or no name with a closing delimiter after it.
#[tactic(auto, unfolding(crate::specs::Delimited::delimited_name))]
pub fn delimited_name(text: &str) -> Option<(&str, &str)>
    ensures value { spec.delimited_name (chars text.now) ≡ parts result }
    ensures shorter { IfSome result (λ p. length p.1.now < length text.now) }
{
    let (delimiter, rest) = next(text)?;
    if delimiter == '<' {
        name_before(rest, '>')
    } else if delimiter == '\'' {
        name_before(rest, '\'')
    } else {
        None
    }
}
