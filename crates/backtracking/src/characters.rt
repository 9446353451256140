//! What a node that matches one character may match.
ghost use Rattle.std.specs.Prelude.{◌≡◌, IfOk, IfSome};
ghost use Rattle.fancy_syntax.specs.View.{view};
ghost use Rattle.backtracking.specs.OneCharacter.{MatchesIf, is_character};

use class_meaning::{ClassMeaning, characters_of};
use fancy_syntax::expr::Expr;
use std::alloc::{AllocError, Global};

/// Whether the node is of a kind that matches one character: a dot, a literal or a class.
pub(crate) fn is_one_character(node: &Expr) -> bool
    ensures { result ≡ is_character (view node.now) }
{
    matches!(
        node,
        Expr::Any { .. } | Expr::Literal { .. } | Expr::Delegate { .. }
    )
}

/// Whether the node, which matches one character, may match this one; `None` if it does not match just one.
pub(crate) fn may_match(
    alloc: Global,
    tree: &Expr,
    unicode: bool,
    c: char,
) -> Result<Option<bool>, AllocError>
    ensures { IfOk result (λ o. IfSome o (λ is_in. MatchesIf unicode (view tree.now) c is_in)) }
{
    match characters_of(alloc, tree, unicode)? {
        ClassMeaning::Characters(set) => Ok(Some(set.contains(c))),
        ClassMeaning::Refused(_) | ClassMeaning::NotOneCharacter => Ok(None),
    }
}
