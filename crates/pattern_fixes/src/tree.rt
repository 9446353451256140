//! Whether a tree is another one with reports fixed, and nothing else changed.
ghost use Rattle.std.specs.Prelude.{[], IfOk, IfSome, IsTrue, Contains};
ghost use Rattle.fancy_grammar.specs.Tree.{alt, conditional, over, trees_of};
ghost use Rattle.fancy_syntax.specs.Shape.{label_of};
ghost use Rattle.fancy_syntax.specs.View.{view, views};
ghost use Rattle.pattern_fixes.specs.Fixed.{MatchesOne, HasSameCharacters, IsFixed, AreFixed, AreBranches};

use class_meaning::{CharacterSet, ClassMeaning, characters_of};
use fancy_syntax::expr::{Expr, Shape, Wrap};
use std::alloc::{AllocError, Global};
use std::slice;

/// The characters that the node matches; none if it does not match one character.
fn characters_of_node(
    alloc: Global,
    node: &Expr,
    unicode: bool,
) -> Result<Option<CharacterSet>, AllocError>
    ensures { IfOk result (λ o. IfSome o (MatchesOne unicode (view node.now))) }
{
    match characters_of(alloc, node, unicode)? {
        ClassMeaning::Characters(set) => Ok(Some(set)),
        ClassMeaning::Refused(_) | ClassMeaning::NotOneCharacter => Ok(None),
    }
}

/// Whether each of the two matches one character, and both match the same ones.
fn has_same_characters(
    alloc: Global,
    old: &Expr,
    new: &Expr,
    unicode: bool,
) -> Result<bool, AllocError>
    ensures { IfOk result (λ b. IsTrue b → HasSameCharacters unicode (view old.now) (view new.now)) }
{
    let Some(set) = characters_of_node(alloc, old, unicode)? else {
        return Ok(false);
    };
    let Some(other) = characters_of_node(alloc, new, unicode)? else {
        return Ok(false);
    };
    if !set.is_subset_of(&other)? {
        return Ok(false);
    }
    let is_within = other.is_subset_of(&set)?;
    Ok(is_within)
}

/// Whether the leaf is the other node, or is a class or a literal, and both match one character, and the same ones.
fn is_fixed_leaf(alloc: Global, old: &Expr, new: &Expr, unicode: bool) -> Result<bool, AllocError>
    ensures { IfOk result (λ b. IsTrue b → IsFixed unicode (view old.now) (view new.now)) }
{
    if old.is_same_but_for_positions(new) {
        return Ok(true);
    }
    if !matches!(old, Expr::Delegate { .. } | Expr::Literal { .. }) {
        return Ok(false);
    }
    has_same_characters(alloc, old, new, unicode)
}

/// Whether the tree is one of these.
fn contains(trees: &[Expr], tree: &Expr) -> bool
    ensures { IsTrue result → Contains (views trees.now) (view tree.now) }
{
    for one in trees {
        if *one == *tree {
            return true;
        }
    }
    false
}

/// Whether the new branches are the old ones, each fixed, but for some that are equal to earlier ones.
#[cycle(is_fixed)]
fn are_branches(
    alloc: Global,
    old: &[Expr],
    new: &[Expr],
    unicode: bool,
) -> Result<bool, AllocError>
    ensures { IfOk result (λ b. IsTrue b → AreBranches unicode [] (views old.now) (views new.now)) }
{
    let mut rest = new;
    for i in 0..old.len() {
        let branch = &old[i];
        if let Some((first, more)) = rest.split_first()
            && is_fixed(alloc, branch, first, unicode)?
        {
            rest = more;
            continue;
        }
        if !contains(&old[..i], branch) {
            return Ok(false);
        }
    }
    Ok(rest.is_empty())
}

/// Whether the tree is an alternation of these branches, each fixed, but for some that are equal to earlier ones.
#[cycle(is_fixed)]
fn is_fixed_alternation(
    alloc: Global,
    old: &[Expr],
    new: &Expr,
    unicode: bool,
) -> Result<bool, AllocError>
    ensures { IfOk result (λ b. IsTrue b → IsFixed unicode (alt (trees_of (views old.now))) (view new.now)) }
{
    if let Expr::Alt(branches) = new {
        return are_branches(alloc, old, branches, unicode);
    }
    are_branches(alloc, old, slice::from_ref(new), unicode)
}

/// Whether there are as many trees, each fixed.
#[cycle(is_fixed)]
fn are_fixed(alloc: Global, old: &[Expr], new: &[Expr], unicode: bool) -> Result<bool, AllocError>
    ensures { IfOk result (λ b. IsTrue b → AreFixed unicode (trees_of (views old.now)) (trees_of (views new.now))) }
{
    let mut rest = new;
    for tree in old {
        let Some((first, more)) = rest.split_first() else {
            return Ok(false);
        };
        if !is_fixed(alloc, tree, first, unicode)? {
            return Ok(false);
        }
        rest = more;
    }
    Ok(rest.is_empty())
}

/// Whether the node around this child is the other one with reports fixed: the same around the child, which is fixed, or
/// a quantifier that repeats exactly once, which is left out.
#[cycle(is_fixed)]
fn is_fixed_around(
    alloc: Global,
    wrap: Wrap,
    child: &Expr,
    new: &Expr,
    unicode: bool,
) -> Result<bool, AllocError>
    ensures { IfOk result (λ b. IsTrue b → IsFixed unicode (over (label_of wrap) (view child.now)) (view new.now)) }
{
    if let Shape::Around(other_wrap, other) = new.shape()
        && wrap == other_wrap
    {
        return is_fixed(alloc, child, other, unicode);
    }
    if let Wrap::Repeat { lo: 1, hi: 1, .. } = wrap {
        return is_fixed(alloc, child, new, unicode);
    }
    Ok(false)
}

/// Whether the tree is a conditional of these parts, each fixed.
#[cycle(is_fixed)]
fn is_fixed_conditional(
    alloc: Global,
    condition: &Expr,
    true_branch: &Expr,
    false_branch: &Expr,
    new: &Expr,
    unicode: bool,
) -> Result<bool, AllocError>
    ensures { IfOk result (λ b. IsTrue b → IsFixed unicode
        (conditional (view condition.now) (view true_branch.now) (view false_branch.now)) (view new.now)) }
{
    let Shape::Conditional {
        condition: other,
        true_branch: other_true,
        false_branch: other_false,
    } = new.shape()
    else {
        return Ok(false);
    };
    if !is_fixed(alloc, condition, other, unicode)? {
        return Ok(false);
    }
    if !is_fixed(alloc, true_branch, other_true, unicode)? {
        return Ok(false);
    }
    is_fixed(alloc, false_branch, other_false, unicode)
}

/// Whether the tree is the other one with reports fixed: a quantifier that repeats exactly once is left out, or a branch
/// that is equal to an earlier one, or a class has another text, or a literal in its place, but the same characters.
#[cycle(is_fixed)]
pub fn is_fixed(alloc: Global, old: &Expr, new: &Expr, unicode: bool) -> Result<bool, AllocError>
    ensures { IfOk result (λ b. IsTrue b → IsFixed unicode (view old.now) (view new.now)) }
{
    match old.shape() {
        Shape::Leaf => is_fixed_leaf(alloc, old, new, unicode),
        Shape::Around(wrap, child) => is_fixed_around(alloc, wrap, child, new, unicode),
        Shape::Alt(branches) => is_fixed_alternation(alloc, branches, new, unicode),
        Shape::Concat(pieces) => {
            let Shape::Concat(others) = new.shape() else {
                return Ok(false);
            };
            are_fixed(alloc, pieces, others, unicode)
        }
        Shape::Expression { absent, exp } => {
            let Shape::Expression {
                absent: other,
                exp: other_exp,
            } = new.shape()
            else {
                return Ok(false);
            };
            if !is_fixed(alloc, absent, other, unicode)? {
                return Ok(false);
            }
            is_fixed(alloc, exp, other_exp, unicode)
        }
        Shape::Conditional {
            condition,
            true_branch,
            false_branch,
        } => is_fixed_conditional(alloc, condition, true_branch, false_branch, new, unicode),
    }
}
