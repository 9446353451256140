//! Whether decisions lead through a part of a pattern over a text.
ghost use Rattle.std.specs.Prelude.{◌≡◌, ◌≤◌, ◌↔◌, Bool, true, IfOk, IfSome, IsTrue, drop};
ghost use Rattle.fancy_syntax.specs.Tree.{trees_of, alt, repeat, atomic_group};
ghost use Rattle.fancy_syntax.specs.View.{view, views};
ghost use Rattle.backtracking.specs.TwoWays.{Goes, GoesAll, Turns, IsLongest, Part, IsWay, AreTwoWays};
ghost use Rattle.backtracking.specs.Remains.{rest_of};

use crate::characters::may_match;
use crate::decision::Decision;
use crate::regular_shape::{RegularShape, regular_shape};
use fancy_syntax::expr::Expr;
use std::alloc::{AllocError, Global};

/// The decisions that are still to be taken, and the characters that are still to be matched.
#[derive(Clone, Copy)]
pub(crate) struct Remaining<'a> {
    pub(crate) decisions: &'a [Decision],
    pub(crate) text: &'a [char],
}

/// Turns of a repeat, and what remains after them.
#[derive(Clone, Copy)]
pub(crate) struct Turned<'a> {
    pub(crate) count: usize,
    pub(crate) rest: Remaining<'a>,
}

/// What remains after the node has matched one character. None if it does not match the next one.
fn go_over_character<'a>(
    alloc: Global,
    tree: &Expr,
    unicode: bool,
    from: Remaining<'a>,
) -> Result<Option<Remaining<'a>>, AllocError>
    ensures { IfOk result (λ o. IfSome o (λ u. Goes unicode (view tree.now) (rest_of from.entry) (rest_of u))) }
{
    let Some((c, text)) = from.text.split_first() else {
        return Ok(None);
    };
    let Some(true) = may_match(alloc, tree, unicode, *c)? else {
        return Ok(None);
    };
    Ok(Some(Remaining {
        decisions: from.decisions,
        text,
    }))
}

/// How many characters of the text the tree matches one after another, up to one that it does not match. None if it is not
/// known where they end.
fn count_matched(
    alloc: Global,
    tree: &Expr,
    unicode: bool,
    text: &[char],
) -> Result<Option<usize>, AllocError>
    ensures { IfOk result (λ o. IfSome o (λ n. IsLongest unicode (view tree.now) n text.now (drop n text.now))) }
{
    for (count, c) in text.iter().enumerate() {
        match may_match(alloc, tree, unicode, *c)? {
            Some(true) => {}
            Some(false) => return Ok(Some(count)),
            None => return Ok(None),
        }
    }
    Ok(None)
}

/// What remains after a possessive repeat of the tree, from `lo` to `hi` times.
fn go_over_possessive<'a>(
    alloc: Global,
    tree: &Expr,
    unicode: bool,
    lo: usize,
    hi: usize,
    from: Remaining<'a>,
) -> Result<Option<Remaining<'a>>, AllocError>
    ensures { IfOk result (λ o. IfSome o (λ u.
        Goes unicode (atomic_group (repeat (view tree.now) lo hi true)) (rest_of from.entry) (rest_of u))) }
{
    let Some(count) = count_matched(alloc, tree, unicode, from.text)? else {
        return Ok(None);
    };
    if count < lo || count > hi {
        return Ok(None);
    }
    let Some(text) = from.text.get(count..) else {
        return Ok(None);
    };
    Ok(Some(Remaining {
        decisions: from.decisions,
        text,
    }))
}

/// What remains after the tree has gone over its decisions and its characters, if they lead through it. Look-around,
/// references and conditionals are passed; calls and other atomic groups than possessive repeats of a character have no ways.
#[cycle(go_over)]
fn go_over<'a>(
    alloc: Global,
    tree: &Expr,
    unicode: bool,
    from: Remaining<'a>,
) -> Result<Option<Remaining<'a>>, AllocError>
    ensures { IfOk result (λ o. IfSome o (λ u. Goes unicode (view tree.now) (rest_of from.entry) (rest_of u))) }
{
    match regular_shape(tree) {
        RegularShape::Empty => Ok(Some(from)),
        RegularShape::Passed => Ok(Some(from)),
        RegularShape::Character => go_over_character(alloc, tree, unicode, from),
        RegularShape::Group(child) => go_over(alloc, child, unicode, from),
        RegularShape::Repeat { child, lo, hi } => {
            go_over_repeat(alloc, child, unicode, lo, hi, from)
        }
        RegularShape::Possessive { child, lo, hi } => {
            go_over_possessive(alloc, child, unicode, lo, hi, from)
        }
        RegularShape::Concat(trees) => go_over_all(alloc, trees, unicode, from),
        RegularShape::Alt(branches) => go_over_branch(alloc, branches, unicode, from),
        RegularShape::Irregular => Ok(None),
    }
}

/// What remains after the trees have gone one after another.
#[cycle(go_over)]
pub(crate) fn go_over_all<'a>(
    alloc: Global,
    trees: &[Expr],
    unicode: bool,
    from: Remaining<'a>,
) -> Result<Option<Remaining<'a>>, AllocError>
    ensures { IfOk result (λ o. IfSome o (λ u. GoesAll unicode (trees_of (views trees.now)) (rest_of from.entry) (rest_of u))) }
{
    let mut now = from;
    for tree in trees {
        let Some(next) = go_over(alloc, tree, unicode, now)? else {
            return Ok(None);
        };
        now = next;
    }
    Ok(Some(now))
}

/// What remains after one of the branches.
#[cycle(go_over)]
fn go_over_branch<'a>(
    alloc: Global,
    branches: &[Expr],
    unicode: bool,
    from: Remaining<'a>,
) -> Result<Option<Remaining<'a>>, AllocError>
    ensures { IfOk result (λ o. IfSome o (λ u.
        Goes unicode (alt (trees_of (views branches.now))) (rest_of from.entry) (rest_of u))) }
{
    let Some((Decision::Branch(index), decisions)) = from.decisions.split_first() else {
        return Ok(None);
    };
    let Some(branch) = branches.get(*index) else {
        return Ok(None);
    };
    let inside = Remaining {
        decisions,
        text: from.text,
    };
    go_over(alloc, branch, unicode, inside)
}

/// Turns of the tree, at most so many, while the decision is to take one more. Each has to match a character.
#[cycle(go_over)]
pub(crate) fn take_turns<'a>(
    alloc: Global,
    tree: &Expr,
    unicode: bool,
    most: usize,
    from: Remaining<'a>,
) -> Result<Option<Turned<'a>>, AllocError>
    ensures turns { IfOk result (λ o. IfSome o (λ u.
        Turns unicode (view tree.now) u.count (rest_of from.entry) (rest_of u.rest))) }
    ensures most { IfOk result (λ o. IfSome o (λ u. u.count ≤ most)) }
{
    let mut count = 0usize;
    let mut now = from;
    while count < most {
        let Some((Decision::Again, decisions)) = now.decisions.split_first() else {
            break;
        };
        let inside = Remaining {
            decisions,
            text: now.text,
        };
        let Some(next) = go_over(alloc, tree, unicode, inside)? else {
            return Ok(None);
        };
        if next.text.len() >= now.text.len() {
            return Ok(None);
        }
        count += 1;
        now = next;
    }
    Ok(Some(Turned { count, rest: now }))
}

/// What remains after a repeat of the tree, from `lo` to `hi` times.
#[cycle(go_over)]
fn go_over_repeat<'a>(
    alloc: Global,
    tree: &Expr,
    unicode: bool,
    lo: usize,
    hi: usize,
    from: Remaining<'a>,
) -> Result<Option<Remaining<'a>>, AllocError>
    ensures { IfOk result (λ o. IfSome o (λ u. (greedy : Bool) →
        Goes unicode (repeat (view tree.now) lo hi greedy) (rest_of from.entry) (rest_of u))) }
{
    let Some(turned) = take_turns(alloc, tree, unicode, hi, from)? else {
        return Ok(None);
    };
    if turned.count < lo {
        return Ok(None);
    }
    let Some((Decision::Done, decisions)) = turned.rest.decisions.split_first() else {
        return Ok(None);
    };
    Ok(Some(Remaining {
        decisions,
        text: turned.rest.text,
    }))
}

/// Whether the decisions are a way of matching all of the text by turns of the tree.
pub(crate) fn is_way(
    alloc: Global,
    tree: &Expr,
    unicode: bool,
    text: &[char],
    decisions: &[Decision],
) -> Result<bool, AllocError>
    ensures { IfOk result (λ b. IsTrue b → IsWay unicode (view tree.now) text.now decisions.now) }
{
    let from = Remaining { decisions, text };
    let Some(turned) = take_turns(alloc, tree, unicode, usize::MAX, from)? else {
        return Ok(false);
    };
    Ok(turned.rest.decisions.is_empty() && turned.rest.text.is_empty())
}

/// Whether the decisions are the same.
fn is_same(one: Decision, other: Decision) -> bool
    ensures { IsTrue result ↔ (one ≡ other) }
{
    one == other
}

/// Whether the lists are the same up to a point where each goes on with another decision.
pub(crate) fn do_part(first: &[Decision], second: &[Decision]) -> bool
    ensures { IsTrue result → Part first.now second.now }
{
    let mut rest = second;
    for one in first {
        let Some((other, more)) = rest.split_first() else {
            return false;
        };
        if !is_same(*one, *other) {
            return true;
        }
        rest = more;
    }
    false
}

/// Whether both lists of decisions are ways of matching all of the text by turns of the tree, and the two are different.
pub fn are_two_ways(
    alloc: Global,
    tree: &Expr,
    unicode: bool,
    text: &[char],
    first: &[Decision],
    second: &[Decision],
) -> Result<bool, AllocError>
    ensures { IfOk result (λ b. IsTrue b → AreTwoWays unicode (view tree.now) text.now first.now second.now) }
{
    Ok(
        do_part(first, second)
            && is_way(alloc, tree, unicode, text, first)?
            && is_way(alloc, tree, unicode, text, second)?,
    )
}
