//! The start of an atom.
use crate::expr::Expr;
use crate::grammar::group::kind::GroupKind;
use fancy_lex::text::Reach;

/// The start of an atom, which decides how the atom is read.
#[derive(Drop)]
pub(crate) enum AtomStart<'a> {
    /// No atom: the piece is Empty and takes no character.
    Nothing,
    /// An atom without branches, which has been read.
    Read(Expr),
    /// A group that holds one alternation.
    Group(GroupKind<'a>),
    /// A conditional whose condition is an alternation.
    Condition,
    /// A conditional whose condition is this tree, which begins at the reach.
    Body { condition: Box<Expr>, start: Reach },
    /// `(?~|`, which begins an absent expression, a stopper or a clear.
    AbsentBranch,
}
