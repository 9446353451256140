//! Words that a repeat, or two of them, can match in many ways.
use backtracking::cut::{Cut, SequenceWays};
use backtracking::sequence::ways_of_sequence;
use backtracking::witness::{RepeatWays, ways_of_repeat};
use fancy_syntax::{Error, Expr};
use std::alloc::{AllocError, Global};

/// The text of these characters.
fn text_of(alloc: Global, word: &[char]) -> Result<String, AllocError> {
    let mut text = String::new(alloc);
    for c in word {
        text.push(*c)?;
    }
    Ok(text)
}

/// A word that turns of the pattern can match in two ways, if one is found.
pub fn word_of_two_ways(alloc: Global, pattern: &str) -> Result<Option<String>, Error> {
    let tree = Expr::parse_tree(alloc, pattern)?;
    match ways_of_repeat(alloc, &tree.expr, true)? {
        RepeatWays::Exponential(witness) => Ok(Some(text_of(alloc, &witness.word)?)),
        RepeatWays::NoneFound | RepeatWays::Irregular | RepeatWays::TooLarge => Ok(None),
    }
}

/// A word that turns of the pattern can match, of which each repetition can be where one repeat of the pattern ends and
/// the next one begins, if one is found.
pub fn word_across(alloc: Global, pattern: &str) -> Result<Option<String>, Error> {
    let tree = Expr::parse_tree(alloc, pattern)?;
    let cut = Cut {
        first: &tree.expr,
        between: &[],
        last: &tree.expr,
    };
    match ways_of_sequence(alloc, cut, true)? {
        SequenceWays::Polynomial(witness) => Ok(Some(text_of(alloc, &witness.word)?)),
        SequenceWays::NoneFound | SequenceWays::Irregular | SequenceWays::TooLarge => Ok(None),
    }
}
