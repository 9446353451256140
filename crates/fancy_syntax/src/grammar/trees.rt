//! The trees that have been read and are in no other tree yet: those of all open groups, one above the other.
ghost use Rattle.std.specs.Prelude.{◌≡◌, ◌≤◌, ◌<◌, List, [], ◌∷◌, ◌++◌, take, drop, length, vec_len, IfOk, OnOk};
ghost use Rattle.fancy_grammar.specs.Join as spec;
ghost use Rattle.fancy_grammar.specs.Join.{solid, one_or};
ghost use Rattle.fancy_grammar.specs.Tree.{Tree, concat};
ghost use Rattle.fancy_syntax.specs.Log.{Log, branch_ended};
ghost use Rattle.fancy_syntax.specs.Recording.{added};
ghost use Rattle.fancy_syntax.specs.View.{view, views};

use crate::expr::Expr;
use crate::grammar::spanning::Spanning;
use fancy_lex::text::Reach;
use std::alloc::{AllocError, Global};
use std::mem;

/// Leaves the last tree out if it is Empty.
#[inline(always)]
pub(crate) fn leave_out_empty<S: Spanning>(trees: &mut Vec<Expr>, spans: &mut S)
    requires some { 0 < vec_len trees.old }
    ensures trees { (below : List Tree) (tree : Tree) → views trees.old.items ≡ below ++ tree ∷ [] →
        views trees.new.items ≡ below ++ solid (tree ∷ []) }
    ensures spans { (below : List Tree) (tree : Tree) (l : Log) → views trees.old.items ≡ below ++ tree ∷ [] →
        S.records spans.old l → S.records spans.new (added tree l) }
{
    if is_empty(&trees[trees.len() - 1]) {
        // An Empty owns nothing.
        mem::forget(trees.take_last());
        spans.leave_out();
    }
}

/// Adds a tree.
#[inline]
pub(crate) fn push(trees: &mut Vec<Expr>, tree: Expr) -> Result<(), AllocError>
    ensures { OnOk result (views trees.new.items ≡ views trees.old.items ++ view tree ∷ []) }
{
    if let Err(refused) = trees.reserve(1) {
        drop(tree);
        return Err(AllocError::from(refused));
    }
    trees.push_reserved(tree);
    Ok(())
}

/// Takes the trees above that many others, the pieces of a branch that ends at the reach, and returns the tree of the
/// branch.
#[inline(always)]
pub(crate) fn take_branch<S: Spanning>(
    alloc: Global,
    trees: &mut Vec<Expr>,
    height: usize,
    reach: Reach,
    spans: &mut S,
) -> Result<Expr, AllocError>
    requires { height ≤ vec_len trees.old }
    ensures tree { IfOk result (λ e. view e ≡ one_or concat (drop height (views trees.old.items))) }
    ensures below { OnOk result (views trees.new.items ≡ take height (views trees.old.items)) }
    ensures spans { (l : Log) → S.records spans.old l → OnOk result
        (S.records spans.new (branch_ended (length (drop height (views trees.old.items))) reach l)) }
{
    let pieces = trees.len() - height;
    spans.end_branch(pieces, reach)?;
    match pieces {
        0 => Ok(Expr::Empty),
        1 => Ok(trees.take_last()),
        _ => Ok(Expr::Concat(take_above(alloc, trees, height)?)),
    }
}

/// Makes the trees above that many others, the pieces of a branch that ends at the reach, one tree: that of the branch.
#[inline(always)]
pub(crate) fn join_branch<S: Spanning>(
    alloc: Global,
    trees: &mut Vec<Expr>,
    height: usize,
    reach: Reach,
    spans: &mut S,
) -> Result<(), AllocError>
    requires { height ≤ vec_len trees.old }
    ensures trees { OnOk result (views trees.new.items ≡
        take height (views trees.old.items) ++ one_or concat (drop height (views trees.old.items)) ∷ []) }
    ensures spans { (l : Log) → S.records spans.old l → OnOk result
        (S.records spans.new (branch_ended (length (drop height (views trees.old.items))) reach l)) }
{
    if trees.len() - height == 1 {
        // Its tree is the piece, which stays where it is.
        spans.end_branch(1, reach)?;
        return Ok(());
    }
    let branch = take_branch(alloc, trees, height, reach, spans)?;
    push(trees, branch)
}

/// From this many trees on, the list is handed on even if others are below; those are copied.
const MANY: usize = 32;

/// Takes the trees above that many others, as a list of their own.
///
/// If they fill more than half of the list, it is handed on as it is: a copy would double the memory of a long branch.
/// A few trees are copied if others are below.
pub(crate) fn take_above(
    alloc: Global,
    trees: &mut Vec<Expr>,
    height: usize,
) -> Result<Vec<Expr>, AllocError>
    requires { height ≤ vec_len trees.old }
    ensures above { IfOk result (λ v. v.items ≡ drop height trees.old.items) }
    ensures below { OnOk result (trees.new.items ≡ take height trees.old.items) }
{
    let above = trees.len() - height;
    if above <= trees.capacity() / 2 {
        return trees.split_off(height);
    }
    if height == 0 {
        return Ok(mem::replace(trees, Vec::new(alloc)));
    }
    if above < MANY {
        return trees.split_off(height);
    }
    take_list(trees, height)
}

/// Takes the list, and leaves a copy of it up to the height.
#[inline(never)]
fn take_list(trees: &mut Vec<Expr>, height: usize) -> Result<Vec<Expr>, AllocError>
    requires { height ≤ vec_len trees.old }
    ensures above { IfOk result (λ v. v.items ≡ drop height trees.old.items) }
    ensures below { OnOk result (trees.new.items ≡ take height trees.old.items) }
{
    let above = trees.len() - height;
    trees.rotate_left(height);
    let below = trees.split_off(above)?;
    Ok(mem::replace(trees, below))
}

/// Whether the tree is Empty.
pub(crate) fn is_empty(tree: &Expr) -> bool
    ensures { result ≡ spec.is_empty (view tree.now) }
{
    matches!(tree, Expr::Empty)
}
