//! Two repeats of a concatenation, and a word over which they have many ways.
use crate::decision::Decision;
use fancy_syntax::expr::Expr;

/// What two repeats of a concatenation repeat, and the trees between the repeats.
#[derive(Clone, Copy)]
pub struct Cut<'a> {
    pub first: &'a Expr,
    pub between: &'a [Expr],
    pub last: &'a Expr,
}

/// A word, and three ways of matching it. Over n repetitions of it each may be the one that is matched across, the ones
/// before it by the first repeat and the ones after it by the last: n ways.
#[derive(Drop)]
pub struct SequenceWitness {
    /// The word, which may be repeated.
    pub word: Vec<char>,
    /// The decisions by turns of the first repeat.
    pub first: Vec<Decision>,
    /// Those by turns of the first repeat, the trees between, and turns of the last repeat.
    pub across: Vec<Decision>,
    /// Those by turns of the last repeat.
    pub last: Vec<Decision>,
}

/// What is known about the ways of two repeats.
#[derive(Drop)]
pub enum SequenceWays {
    /// There is a word of which n repetitions have n ways.
    Polynomial(SequenceWitness),
    /// No such word was found.
    NoneFound,
    /// There is an atomic group, a call or the like in them or between them.
    Irregular,
    /// There is too much to look at.
    TooLarge,
}
