//! The repeats of a pattern that can match a text in exponentially many ways.
ghost use Rattle.std.specs.Prelude.{Bool, IfOk, IfSome, OnOk};
ghost use Rattle.std.specs.List.{AllByRecursion};
ghost use Rattle.fancy_syntax.specs.Spanned.{Spanned, spanned_of, spanned_of_tree, IsNodeOf};
ghost use Rattle.backtracking.specs.SlowRepeats.{IsSlowIn, IsLooked};

use crate::attack::{Attack, Surroundings, Target, enclosing_of, find_attack};
use crate::growth::Growth;
use crate::known_sets::ClassSets;
use crate::part_kind::{PartKind, kind_of};
use crate::witness::{RepeatWays, Witness, ways_of_turns};
use fancy_syntax::expr::{Expr, LookAround};
use fancy_syntax::span::Span;
use fancy_syntax::spanned::{SpannedNode, SpannedTree};
use std::alloc::{AllocError, Global};

/// A repeat is looked at if it has no limit, or one above this.
pub(crate) const SMALL_LIMIT: usize = 20;

/// How many words of a repeat are tried.
const MOST_WORDS: usize = 8;

/// A repeat that can match a text in exponentially many ways.
#[derive(Drop)]
pub struct SlowRepeat {
    /// The part of the pattern with its quantifier, in byte offsets.
    pub span: Span,
    /// The word, each repetition of which doubles the ways, and two of these ways.
    pub witness: Witness,
    /// What to put around the repeated word.
    pub attack: Attack,
}

/// The repeats of a pattern that are slow, and those that are not known to be slow or not.
#[derive(Drop)]
pub struct SlowRepeats {
    pub slow: Vec<SlowRepeat>,
    /// Those that were not searched: they have too much to look at, a call, an atomic group or the like. In byte offsets.
    pub not_searched: Vec<Span>,
}

/// What is known of the pattern.
#[derive(Clone, Copy)]
pub(crate) struct SearchOptions {
    pub(crate) alloc: Global,
    pub(crate) unicode: bool,
}

/// What has come of a look at a node.
#[derive(Drop)]
enum Looked {
    Slow(SlowRepeat),
    /// Nor are the repeats below it slow.
    Fast,
    /// What is below it is to be looked at.
    Unknown,
}

/// Whether the node has something below it that a search passes, or is an atomic group, after which a search may miss a way.
fn hides_nodes(node: &Expr) -> bool {
    matches!(
        node,
        Expr::LookAround(..) | Expr::Conditional { .. } | Expr::AtomicGroup(_)
    )
}

/// What has come of a look at a repeat of the tree that is not slow.
fn looked_at_fast(tree: &Expr) -> Looked
    ensures { (unicode : Bool) → (p : Spanned) → IsLooked unicode p result }
{
    if hides_nodes(tree) || tree.has_descendant(hides_nodes) {
        Looked::Unknown
    } else {
        Looked::Fast
    }
}

/// Searches for two ways through the repeat that the node is, over a word after so many others, and for what to put around
/// it. Returns `None` if there is nothing to put around it.
fn look_for_word<'a>(
    node: SpannedNode<'a>,
    options: SearchOptions,
    others: usize,
    surroundings: &mut Surroundings<'a, '_>,
) -> Result<Option<Looked>, AllocError>
    ensures { IfOk result (λ looked. IfSome looked (IsLooked options.unicode (spanned_of node.entry))) }
{
    let SearchOptions { alloc, unicode } = options;
    let Expr::Repeat { child, hi, .. } = node.expr() else {
        return Ok(Some(Looked::Unknown));
    };
    if *hi <= SMALL_LIMIT {
        return Ok(Some(Looked::Unknown));
    }
    let witness = match ways_of_turns(alloc, child, unicode, others, &mut surroundings.sets)? {
        RepeatWays::Exponential(witness) => witness,
        RepeatWays::NoneFound if others == 0 => return Ok(Some(looked_at_fast(child))),
        RepeatWays::Irregular | RepeatWays::TooLarge if others == 0 => {
            surroundings.not_searched.push(node.span())?;
            return Ok(Some(Looked::Unknown));
        }
        RepeatWays::NoneFound | RepeatWays::Irregular | RepeatWays::TooLarge => {
            return Ok(Some(Looked::Unknown));
        }
    };
    let target = Target::Repeat(node.expr());
    match find_attack(
        alloc,
        target,
        Growth::Exponential,
        &witness.word,
        surroundings,
    )? {
        Some(attack) => Ok(Some(Looked::Slow(SlowRepeat {
            span: node.span(),
            witness,
            attack,
        }))),
        None => Ok(None),
    }
}

/// Searches for two ways through the repeat that the node is, and for what to put around the word.
fn look_at<'a>(
    node: SpannedNode<'a>,
    options: SearchOptions,
    surroundings: &mut Surroundings<'a, '_>,
) -> Result<Looked, AllocError>
    ensures { IfOk result (IsLooked options.unicode (spanned_of node.entry)) }
{
    let Expr::Repeat { child, hi, .. } = node.expr() else {
        return Ok(Looked::Unknown);
    };
    if *hi <= SMALL_LIMIT {
        return Ok(Looked::Unknown);
    }
    match kind_of(child) {
        PartKind::OneWay => return Ok(looked_at_fast(child)),
        PartKind::Irregular | PartKind::TooLarge => {
            surroundings.not_searched.push(node.span())?;
            return Ok(Looked::Unknown);
        }
        PartKind::Choices => {}
    }
    surroundings.begin_repeat();
    for others in 0..MOST_WORDS {
        if others > 0 && surroundings.is_exhausted() {
            break;
        }
        if let Some(looked) = look_for_word(node, options, others, surroundings)? {
            return Ok(looked);
        }
    }
    Ok(Looked::Unknown)
}

/// Whether repeats below the node are left alone: it looks back, or what follows them is not known.
pub(crate) fn is_left_alone(tree: &Expr) -> bool {
    matches!(
        tree,
        Expr::LookAround(_, LookAround::LookBehind | LookAround::LookBehindNeg)
            | Expr::Absent(_)
            | Expr::DefineGroup { .. }
            | Expr::AstNode(..)
    )
}

/// Adds the slow repeats among the node and those below it. One inside another is not added.
fn look<'a>(
    node: SpannedNode<'a>,
    options: SearchOptions,
    surroundings: &mut Surroundings<'a, '_>,
    found: &mut Vec<SlowRepeat>,
) -> Result<(), AllocError>
    ensures { OnOk result ((root : Spanned) → IsNodeOf (spanned_of node.entry) root →
        AllByRecursion (IsSlowIn options.unicode root) found.old.items →
        AllByRecursion (IsSlowIn options.unicode root) found.new.items) }
{
    match look_at(node, options, surroundings)? {
        Looked::Slow(repeat) => {
            found.push(repeat)?;
            return Ok(());
        }
        Looked::Fast => return Ok(()),
        Looked::Unknown => {}
    }
    if is_left_alone(node.expr()) {
        return Ok(());
    }
    let depth = surroundings.around.len();
    let mut index = 0usize;
    for child in node.children() {
        surroundings.around.push(enclosing_of(node.expr(), index))?;
        look(child, options, surroundings, found)?;
        surroundings.around.truncate(depth);
        index = index.saturating_add(1);
    }
    Ok(())
}

/// The repeats of the pattern that can match a text in exponentially many ways, where what follows can fail. `classes` has
/// the characters of classes of the run's patterns.
pub fn slow_repeats(
    alloc: Global,
    parsed: &SpannedTree,
    classes: &mut ClassSets,
) -> Result<SlowRepeats, AllocError>
    ensures witnessed { IfOk result (λ r.
        AllByRecursion (IsSlowIn classes.old.unicode (spanned_of_tree parsed.now)) r.slow.items) }
{
    let unicode = classes.unicode;
    let mut surroundings = Surroundings::new(alloc, parsed, classes);
    let mut found = Vec::new(alloc);
    look(
        parsed.root(),
        SearchOptions { alloc, unicode },
        &mut surroundings,
        &mut found,
    )?;
    Ok(SlowRepeats {
        slow: found,
        not_searched: surroundings.not_searched,
    })
}
