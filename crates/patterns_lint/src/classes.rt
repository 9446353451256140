//! Classes that are likely mistakes.
ghost use Rattle.std.specs.Prelude.{◌≡◌, ◌++◌, ◌∷◌, chars, codes, IfSome};

use fancy_lex::text::{after, next};
use fancy_syntax::expr::{Expr, Shape, Wrap};

/// The one letter or digit of a class.
#[tactic(auto, using(fancy_lex::proofs::TextLemmas::strip_is))]
fn only_character(class: &str) -> Option<char>
    ensures { IfSome result (λ c. chars class.now ≡ codes "[" ++ (c ∷ codes "]")) }
{
    let inside = after(class, '[')?;
    let (c, rest) = next(inside)?;
    let end = after(rest, ']')?;
    if !c.is_alphanumeric() || next(end).is_some() {
        return None;
    }
    Some(c)
}

/// Whether the node, which has this text, is a class of one letter or digit that is written as itself, and needs no brackets.
/// A digit after another needs them: without, the two would be one number.
pub(crate) fn is_single_character_class(tree: &Expr, text: &str, before: &str) -> bool {
    let Expr::Delegate { .. } = tree else {
        return false;
    };
    match only_character(text) {
        Some(c) => !(c.is_ascii_digit() && before.ends_with(|d: char| d.is_ascii_digit())),
        None => false,
    }
}

/// The counts of a quantifier.
#[derive(Clone, Copy, PartialEq, Eq)]
struct Counts {
    lo: usize,
    hi: usize,
}

/// The form of a node: its quantifier, and what is beside it.
#[derive(Clone, Copy)]
pub(crate) struct Form<'t> {
    /// The quantifier, if there is one, but for groups around it.
    counts: Option<Counts>,
    /// The pieces before and after it, if it is one, but for groups and a quantifier around it.
    beside: (Option<&'t Expr>, Option<&'t Expr>),
}

/// Whether the node is a class in brackets.
fn is_in_brackets(tree: &Expr) -> bool {
    let Expr::Delegate { inner, .. } = tree else {
        return false;
    };
    inner.as_str().starts_with('[')
}

/// Whether the piece is a class in brackets with this quantifier, or a choice of which one branch is a class in brackets.
fn is_such_a_class(piece: &Expr, counts: Option<Counts>) -> bool {
    let tree = if let Expr::Group(inside) = piece {
        inside
    } else {
        piece
    };
    if let Expr::Repeat { child, lo, hi, .. } = tree {
        let (lo, hi) = (*lo, *hi);
        return counts == Some(Counts { lo, hi }) && is_in_brackets(child);
    }
    if let Expr::Alt(branches) = tree {
        return branches.iter().any(is_in_brackets);
    }
    false
}

impl<'t> Form<'t> {
    /// That of a node without a quantifier, and with nothing beside it.
    pub(crate) fn alone() -> Form<'t> {
        Form {
            counts: None,
            beside: (None, None),
        }
    }

    /// That of the child of the tree, which has this form, at this index.
    pub(crate) fn of_child(self, tree: &'t Expr, index: usize) -> Form<'t> {
        match tree.shape() {
            Shape::Around(Wrap::Group, _) => self,
            Shape::Around(Wrap::Repeat { lo, hi, .. }, _) => Form {
                counts: Some(Counts { lo, hi }),
                beside: self.beside,
            },
            Shape::Concat(pieces) => Form {
                counts: None,
                beside: (
                    index.checked_sub(1).and_then(|before| pieces.get(before)),
                    pieces.get(index.saturating_add(1)),
                ),
            },
            Shape::Leaf
            | Shape::Around(
                Wrap::LookAround(_)
                | Wrap::AtomicGroup
                | Wrap::DefineGroup
                | Wrap::Repeater
                | Wrap::Stopper,
                _,
            )
            | Shape::Alt(_)
            | Shape::Conditional { .. }
            | Shape::Expression { .. } => Form::alone(),
        }
    }

    /// Whether a class in brackets is beside it, with the same quantifier or as a branch.
    pub(crate) fn is_like_the_next_one(self) -> bool {
        let (before, after) = self.beside;
        before.is_some_and(|piece| is_such_a_class(piece, self.counts))
            || after.is_some_and(|piece| is_such_a_class(piece, self.counts))
    }
}
