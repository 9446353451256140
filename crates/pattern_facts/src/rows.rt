//! The walk over a tree that finds the facts of each of its nodes.
ghost use Rattle.std.specs.Prelude.{◌≡◌, true, Bool, IfOk, OnOk};
ghost use Rattle.std.specs.List.{AllZip};
ghost use Rattle.fancy_grammar.specs.Tree.{Tree, Trees, is_leaf, more_trees, over, row, trees_of};
ghost use Rattle.fancy_syntax.specs.Shape.{label_of};
ghost use Rattle.fancy_syntax.specs.View.{view, views};
ghost use Rattle.pattern_facts.specs.Lengths.{row_of};
ghost use Rattle.pattern_facts.specs.Known as spec;
ghost use Rattle.pattern_facts.specs.Known.{Adds, IsFactsOf, IsRowOf};
ghost use Rattle.pattern_facts.specs.Lists.{IsTaken};
ghost use Rattle.pattern_facts.specs.Nodes.{nodes_of, nodes_below, nodes_of_all};

use crate::lengths::ListKind;
use crate::node_facts::{Facts, is_text_end, is_text_start, no_branch};
use crate::plain::{escape_facts, plain_facts};
use class_meaning::{ClassMeaning, characters_of};
use fancy_syntax::expr::{Expr, Shape, Wrap};
use std::alloc::{AllocError, Global};

/// Whether the leaf matches only empty parts.
pub(crate) fn is_empty_leaf(node: &Expr) -> bool
    ensures { result ≡ spec.is_empty_leaf (view node.now) }
{
    matches!(node, Expr::Empty | Expr::Assertion(_))
}

/// The facts of a leaf. A class, a literal or a dot is known if the engine reads it as one character.
fn leaf_facts(alloc: Global, node: &Expr, unicode: bool) -> Result<Option<Facts>, AllocError>
    requires { is_leaf (view node.now) ≡ true }
    ensures { IfOk result (IsFactsOf unicode (view node.now)) }
{
    if is_empty_leaf(node) {
        return Ok(Some(Facts::empty(is_text_start(node), is_text_end(node))));
    }
    if let Some(facts) = plain_facts(node) {
        return Ok(Some(facts));
    }
    if let Some(facts) = escape_facts(node, unicode) {
        return Ok(Some(facts));
    }
    match characters_of(alloc, node, unicode)? {
        ClassMeaning::Characters(set) => Ok(Some(Facts::one_of(&set))),
        ClassMeaning::Refused(_) | ClassMeaning::NotOneCharacter => Ok(None),
    }
}

/// The facts of a node over one child.
fn facts_around(wrap: Wrap, child: Option<Facts>) -> Option<Facts>
    ensures { (unicode : Bool) (t : Tree) → IsFactsOf unicode t child →
        IsFactsOf unicode (over (label_of wrap) t) result }
{
    let Some(child) = child else {
        return None;
    };
    match wrap {
        Wrap::Group => Some(child),
        Wrap::LookAround(kind) => Some(child.looked_for(kind)),
        Wrap::Repeat { lo, hi, .. } if lo <= hi => Some(child.repeated(lo, hi)),
        Wrap::Repeat { .. }
        | Wrap::AtomicGroup
        | Wrap::DefineGroup
        | Wrap::Repeater
        | Wrap::Stopper => None,
    }
}

/// The facts of some trees of a list and the next one, after or beside one another.
fn with_next(kind: ListKind, before: Option<Facts>, next: Option<Facts>) -> Option<Facts>
    ensures { (unicode : Bool) (all rest : Trees) (t : Tree) → IsTaken unicode kind all (more_trees t rest) before →
        IsFactsOf unicode t next → IsTaken unicode kind all rest result }
{
    match before {
        Some(before) => match next {
            Some(next) => Some(before.with(kind, next)),
            None => None,
        },
        None => None,
    }
}

/// Adds the rows of the trees, and returns the facts of a list of them.
#[cycle(facts)]
fn add_list(
    alloc: Global,
    rows: &mut Vec<Option<Facts>>,
    kind: ListKind,
    trees: &[Expr],
    unicode: bool,
) -> Result<Option<Facts>, AllocError>
    ensures rows { OnOk result (Adds unicode (nodes_of_all (trees_of (views trees.now)))
        rows.old.items rows.new.items) }
    ensures facts { IfOk result (IsFactsOf unicode (row (row_of kind) (trees_of (views trees.now)))) }
{
    let Some((first, more)) = trees.split_first() else {
        return Ok(Some(Facts::empty(no_branch(kind), no_branch(kind))));
    };
    let mut all = add_node(alloc, rows, first, unicode)?;
    for tree in more {
        let one = add_node(alloc, rows, tree, unicode)?;
        all = with_next(kind, all, one);
    }
    Ok(all)
}

/// Adds the rows of the nodes below a node, and returns its own facts.
#[cycle(facts)]
fn add_below(
    alloc: Global,
    rows: &mut Vec<Option<Facts>>,
    tree: &Expr,
    unicode: bool,
) -> Result<Option<Facts>, AllocError>
    ensures rows { OnOk result (Adds unicode (nodes_below (view tree.now)) rows.old.items rows.new.items) }
    ensures facts { IfOk result (IsFactsOf unicode (view tree.now)) }
{
    match tree.shape() {
        Shape::Leaf => leaf_facts(alloc, tree, unicode),
        Shape::Around(wrap, child) => {
            let below = add_node(alloc, rows, child, unicode)?;
            Ok(facts_around(wrap, below))
        }
        Shape::Concat(pieces) => add_list(alloc, rows, ListKind::Concat, pieces, unicode),
        Shape::Alt(branches) => add_list(alloc, rows, ListKind::Alt, branches, unicode),
        Shape::Conditional {
            condition,
            true_branch,
            false_branch,
        } => {
            add_node(alloc, rows, condition, unicode)?;
            add_node(alloc, rows, true_branch, unicode)?;
            add_node(alloc, rows, false_branch, unicode)?;
            Ok(None)
        }
        Shape::Expression { absent, exp } => {
            add_node(alloc, rows, absent, unicode)?;
            add_node(alloc, rows, exp, unicode)?;
            Ok(None)
        }
    }
}

/// Adds the rows of a tree, and returns the facts of its root.
#[cycle(facts)]
fn add_node(
    alloc: Global,
    rows: &mut Vec<Option<Facts>>,
    tree: &Expr,
    unicode: bool,
) -> Result<Option<Facts>, AllocError>
    ensures rows { OnOk result (Adds unicode (nodes_of (view tree.now)) rows.old.items rows.new.items) }
    ensures facts { IfOk result (IsFactsOf unicode (view tree.now)) }
{
    let index = rows.len();
    rows.push(None)?;
    let facts = add_below(alloc, rows, tree, unicode)?;
    if let Some(row) = rows.get_mut(index) {
        *row = facts;
    }
    Ok(facts)
}

/// Returns what is known of the matches of each node, in preorder, as spans are listed. `None` where nothing is known,
/// because of the node or of one below it: a reference or a call, an atomic group, a conditional, an absent form, `\R`,
/// `\K`, `\G`, a byte, a verb, or a class that the engine does not read as one character. `unicode` says whether it reads
/// with Unicode, as under `FLAG_UNICODE`. Most classes are read, and literals that ignore case. Fails if memory
/// runs out.
///
/// ```rust
/// let rows = facts(alloc, &tree.expr, true)?; // for `a|bc*` of the alternation, `a`, the concatenation, `b`, ..
/// ```
pub fn facts(alloc: Global, tree: &Expr, unicode: bool) -> Result<Vec<Option<Facts>>, AllocError>
    ensures { IfOk result (λ rows. AllZip (IsRowOf unicode) (nodes_of (view tree.now)) rows.items) }
{
    let mut rows = Vec::new(alloc);
    add_node(alloc, &mut rows, tree, unicode)?;
    Ok(rows)
}
