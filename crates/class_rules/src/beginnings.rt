//! Branches that begin with what another one matches.
ghost use Rattle.std.specs.Prelude.{◌≡◌, ◌==◌, ◌<◌, ◌≤◌, true, IfOk, IsTrue};
ghost use Rattle.fancy_syntax.specs.Spanned.{spanned_of};
ghost use Rattle.fancy_lex.specs.Flags.{flags_of};
ghost use Rattle.fancy_syntax.specs.View.{view, views};
ghost use Rattle.class_rules.specs.Beginnings as spec;
ghost use Rattle.class_rules.specs.Beginnings.{BeginsWithin, StartsWithin, RepeatAlike};

use crate::known_classes::KnownClasses;
use crate::subsumed::{is_one_character, is_subsumed, may_contain};
use fancy_syntax::expr::Expr;
use fancy_syntax::spanned::{SpannedChildren, SpannedNode};
use std::alloc::{AllocError, Global};
use std::slice;

/// The pieces of a branch.
pub fn pieces(branch: &Expr) -> &[Expr]
    ensures { views result.now ≡ spec.pieces (view branch.now) }
{
    let Expr::Concat(trees) = branch else {
        return slice::from_ref(branch);
    };
    trees
}

/// What the tree repeats; any other tree itself.
pub fn operand(tree: &Expr) -> &Expr
    ensures { view result.now ≡ spec.operand (view tree.now) }
{
    let Expr::Repeat { child, .. } = tree else {
        return tree;
    };
    child
}

/// How often the tree repeats it at least: once if it is no repeat.
fn least(tree: &Expr) -> usize
    ensures { result ≡ spec.least (view tree.now) }
{
    let Expr::Repeat { lo, .. } = tree else {
        return 1;
    };
    *lo
}

/// How often the tree repeats it at most.
fn most(tree: &Expr) -> usize
    ensures { result ≡ spec.most (view tree.now) }
{
    let Expr::Repeat { hi, .. } = tree else {
        return 1;
    };
    *hi
}

/// Whether the tree may be repeated no times.
fn is_optional(tree: &Expr) -> bool
    ensures { IsTrue result → (spec.least (view tree.now) == 0) ≡ true }
{
    least(tree) == 0
}

/// Whether each of the trees may be repeated no times.
fn are_optional(trees: &[Expr]) -> bool
    ensures { IsTrue result → spec.are_optional (views trees.now) ≡ true }
{
    for tree in trees {
        if !is_optional(tree) {
            return false;
        }
    }
    true
}

/// Whether the earlier tree repeats at least once, and the later one at least as often.
fn fits_count(later: &Expr, earlier: &Expr) -> bool
    ensures counted { IsTrue result → 0 < spec.least (view earlier.now) }
    ensures fits { IsTrue result → spec.least (view earlier.now) ≤ spec.least (view later.now) }
{
    let needed = least(earlier);
    needed > 0 && needed <= least(later)
}

/// Whether the earlier tree repeats one character, and the later one a character of it, at least as often.
fn starts_within(
    alloc: Global,
    later: &Expr,
    earlier: &Expr,
    unicode: bool,
) -> Result<bool, AllocError>
    ensures { IfOk result (λ b. IsTrue b → StartsWithin unicode (view later.now) (view earlier.now)) }
{
    if !fits_count(later, earlier) {
        return Ok(false);
    }
    let within = is_subsumed(alloc, operand(later), operand(earlier), unicode)?;
    Ok(within)
}

/// Whether both repeat always, and equally often.
fn repeat_alike(later: &Expr, earlier: &Expr) -> bool
    ensures { IsTrue result → RepeatAlike (view later.now) (view earlier.now) }
{
    let count = least(earlier);
    least(later) == count && most(later) == count && most(earlier) == count
}

/// Whether the pieces of a later branch begin with what those of an earlier one match.
fn pieces_begin_within(
    alloc: Global,
    later: &[Expr],
    earlier: &[Expr],
    unicode: bool,
) -> Result<bool, AllocError>
    ensures { IfOk result (λ b. IsTrue b → BeginsWithin unicode (views later.now) (views earlier.now)) }
{
    let mut rest = later;
    let mut needed = earlier;
    for _ in 0..earlier.len() {
        let Some((first, more)) = rest.split_first() else {
            return Ok(false);
        };
        let Some((piece, others)) = needed.split_first() else {
            return Ok(false);
        };
        if !starts_within(alloc, first, piece, unicode)? {
            return Ok(false);
        }
        if are_optional(others) {
            return Ok(true);
        }
        if !repeat_alike(first, piece) {
            return Ok(false);
        }
        rest = more;
        needed = others;
    }
    Ok(false)
}

/// The pieces of a branch as nodes, which are read one by one.
#[derive(Drop)]
enum PieceNodes<'a> {
    /// The branch itself, until it is read.
    Alone(Option<SpannedNode<'a>>),
    Several(SpannedChildren<'a>),
}

impl<'a> PieceNodes<'a> {
    /// Those of the branch.
    fn of(branch: SpannedNode<'a>) -> PieceNodes<'a> {
        if let Expr::Concat(_) = branch.expr() {
            PieceNodes::Several(branch.children())
        } else {
            PieceNodes::Alone(Some(branch))
        }
    }

    /// The next piece.
    fn next(&mut self) -> Option<SpannedNode<'a>> {
        match self {
            PieceNodes::Alone(branch) => branch.take(),
            PieceNodes::Several(children) => children.next(),
        }
    }
}

/// What the node repeats; any other node itself.
fn operand_node(node: SpannedNode<'_>) -> SpannedNode<'_> {
    let Expr::Repeat { .. } = node.expr() else {
        return node;
    };
    match node.children().next() {
        Some(child) => child,
        None => node,
    }
}

/// Whether `starts_within` may be true of the nodes, as far as is known without much work.
fn may_start_within(
    known: &mut KnownClasses,
    pattern: &str,
    later: SpannedNode<'_>,
    earlier: SpannedNode<'_>,
) -> Result<bool, AllocError> {
    if !fits_count(later.expr(), earlier.expr()) {
        return Ok(false);
    }
    let (character, containing) = (operand_node(later), operand_node(earlier));
    if !is_one_character(character) || !is_one_character(containing) {
        return Ok(false);
    }
    may_contain(known, pattern, character, containing)
}

/// Whether `begins_within` may be true of the branches, as far as is known without much work.
fn may_begin_within(
    known: &mut KnownClasses,
    pattern: &str,
    later: SpannedNode<'_>,
    earlier: SpannedNode<'_>,
) -> Result<bool, AllocError> {
    let mut rest = PieceNodes::of(later);
    let mut needed = PieceNodes::of(earlier);
    for index in 0..pieces(earlier.expr()).len() {
        let (Some(first), Some(piece)) = (rest.next(), needed.next()) else {
            return Ok(false);
        };
        if index > 0 && is_optional(piece.expr()) {
            return Ok(true);
        }
        if !may_start_within(known, pattern, first, piece)? {
            return Ok(false);
        }
        if !repeat_alike(first.expr(), piece.expr()) {
            return Ok(true);
        }
    }
    Ok(true)
}

/// Whether the later branch begins with what the earlier one matches: whether the earlier one matches wherever the
/// later one does, as far as sets of characters say. The earlier one consists of characters, classes and dots, each of them
/// repeated or not, and of what is optional after these. `known` has the classes of the run's patterns, of which
/// `pattern` is the one of the branches.
///
/// Returns `AllocError` if memory runs out.
pub fn begins_within(
    alloc: Global,
    known: &mut KnownClasses,
    pattern: &str,
    later: SpannedNode<'_>,
    earlier: SpannedNode<'_>,
) -> Result<bool, AllocError>
    ensures { IfOk result (λ b. IsTrue b → BeginsWithin (flags_of known.old.flags).unicode
        (spec.pieces (view (spanned_of later.entry).expr)) (spec.pieces (view (spanned_of earlier.entry).expr))) }
{
    let unicode = known.is_unicode();
    if !may_begin_within(known, pattern, later, earlier)? {
        return Ok(false);
    }
    pieces_begin_within(alloc, pieces(later.expr()), pieces(earlier.expr()), unicode)
}
