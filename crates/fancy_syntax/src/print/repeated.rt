//! Which operands of a quantifier are put in a group of their own.
ghost use Rattle.std.specs.Prelude.{◌≡◌, false, chars};
ghost use Rattle.fancy_grammar.specs.Printed as spec;
ghost use Rattle.fancy_grammar.specs.Tree.{literal};
ghost use Rattle.fancy_syntax.specs.View.{view};

use crate::expr::Expr;
use fancy_lex::text::next;

/// Whether a quantifier would apply only to the last character of the tree's text.
#[inline]
pub(super) fn is_long(tree: &Expr) -> bool
    ensures { result ≡ spec.is_long (view tree.now) }
{
    match tree {
        Expr::Literal { val, casei: false } => has_several(val.as_str()),
        _ => false,
    }
}

/// Whether the text has two characters or more.
#[inline]
fn has_several(text: &str) -> bool
    ensures { result ≡ spec.is_long (literal (chars text.now) false) }
{
    // In the tree of a pattern a literal is one character, and usually one byte.
    if text.len() < 2 {
        return false;
    }
    let Some((_, rest)) = next(text) else {
        return false;
    };
    next(rest).is_some()
}
