//! Which characters a class contains.
use class_meaning::{ClassMeaning, characters_of};
use fancy_syntax::{Error, Expr};
use std::alloc::Global;

/// The characters that the pattern matches, or why the engine refuses it; `None` if it does not match one character.
pub fn members(alloc: Global, pattern: &str) -> Result<Option<String>, Error> {
    let tree = Expr::parse_tree(alloc, pattern)?;
    match characters_of(alloc, &tree.expr, true)? {
        ClassMeaning::Characters(set) => {
            let mut text = String::new(alloc);
            for (first, last) in set.ranges() {
                text.push_str(&format!(in alloc; " {first:04X}-{last:04X}")?)?;
            }
            Ok(Some(text))
        }
        ClassMeaning::Refused(error) => Ok(Some(format!(in alloc; " {}", error.kind.message())?)),
        ClassMeaning::NotOneCharacter => Ok(None),
    }
}

/// Whether some character is one that both patterns match; `None` if one of them does not match one character.
pub fn have_common(alloc: Global, first: &str, second: &str) -> Result<Option<bool>, Error> {
    let first = Expr::parse_tree(alloc, first)?;
    let second = Expr::parse_tree(alloc, second)?;
    let ClassMeaning::Characters(first) = characters_of(alloc, &first.expr, true)? else {
        return Ok(None);
    };
    let ClassMeaning::Characters(second) = characters_of(alloc, &second.expr, true)? else {
        return Ok(None);
    };
    Ok(Some(first.intersects(&second)?))
}
