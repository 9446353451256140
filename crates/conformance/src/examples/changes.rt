//! A tree that is changed.
ghost use Rattle.std.specs.Prelude.{chars, string_bytes, IfOk, IfSome};
ghost use Rattle.fancy_lex.specs.Flags.{flags_of};
ghost use Rattle.conformance.specs.Forms.{HasInfoOf};

use fancy_pattern::to_pattern;
use fancy_syntax::{Error, Expr, FLAG_UNICODE};
use std::alloc::Global;

/// Replaces the child i by a tree, and returns whether there is such a child.
pub fn replace_child(tree: &mut Expr, i: usize, new: Expr) -> bool {
    match tree.child_mut(i) {
        Some(child) => {
            *child = new;
            true
        }
        None => false,
    }
}

/// The pattern with the child i of its tree replaced; `None` if there is no such child, or if the group information would
/// change.
pub fn with_child(
    alloc: Global,
    pattern: &str,
    i: usize,
    new: Expr,
) -> Result<Option<String>, Error>
    ensures group_info { IfOk result (λ text. IfSome text (λ s.
        HasInfoOf (flags_of FLAG_UNICODE) (chars pattern.now) (chars (string_bytes s)))) }
{
    let mut tree = Expr::parse_tree_with_flags(alloc, pattern, FLAG_UNICODE)?;
    if !replace_child(&mut tree.expr, i, new) {
        return Ok(None);
    }
    Ok(to_pattern(alloc, &tree, FLAG_UNICODE)?)
}
