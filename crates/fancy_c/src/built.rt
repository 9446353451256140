//! A tree built from the rows of its nodes. They may have been changed, so that they are a tree is tested.
ghost use Rattle.std.specs.Prelude.{◌≡◌, ◌+◌, ◌<◌, ℕ, IfOk, List, [], ◌∷◌, length};
ghost use Rattle.fancy_grammar.specs.Tree.{children as children_of};
ghost use Rattle.fancy_syntax.specs.View.{view, views};
ghost use Rattle.fancy_c.specs.CallResult.{result_of_rows};
ghost use Rattle.fancy_c.specs.Node as spec;
ghost use Rattle.fancy_c.specs.RowTree.{IsRowOf, AreRowsOfTree, AreBuiltFrom, AreTreesOf};
ghost use Rattle.fancy_c.specs.declared.node.Node as row_type;

use crate::call_result::{CallResult, ERROR_NONE, STATUS_NO_TREE, STATUS_OUT_OF_MEMORY};
use crate::node::{
    ABSENT_EXPRESSION, ABSENT_REPEATER, ABSENT_STOPPER, LOOK_AHEAD, LOOK_AHEAD_NEG, LOOK_BEHIND,
    LOOK_BEHIND_NEG, NODE_ABSENT, NODE_ALT, NODE_ATOMIC_GROUP, NODE_CONCAT, NODE_CONDITIONAL,
    NODE_DEFINE_GROUP, NODE_GROUP, NODE_LOOK_AROUND, NODE_REPEAT, Node,
};
use crate::row_leaf::leaf;
use fancy_syntax::expr::{Absent, Expr, LookAround};
use std::alloc::{AllocError, AllocFailed, Global};

/// A tree that is built has at most so many levels, as the tree of a pattern has: functions on trees are recursive.
const MAX_LEVELS: usize = 832;

/// Why no tree is built.
#[derive(Drop)]
pub(crate) enum RowsError {
    /// The rows are no tree.
    NoTree,
    /// Memory ran out.
    OutOfMemory,
}

impl From<AllocError> for RowsError {
    ghost use Rattle.fancy_c.specs.declared.built.RowsError.TheVariants.{OutOfMemory};
    ghost use Rattle.std.specs.Prelude.{◌≡◌};

    ghost from_gives = { λ _ e. e ≡ OutOfMemory };

    fn from(_refused: AllocError) -> RowsError {
        RowsError::OutOfMemory
    }
}

impl<T: Drop> From<AllocFailed<T>> for RowsError {
    ghost use Rattle.fancy_c.specs.declared.built.RowsError.TheVariants.{OutOfMemory};
    ghost use Rattle.std.specs.Prelude.{◌≡◌};

    ghost from_gives = { λ _ e. e ≡ OutOfMemory };

    fn from(_refused: AllocFailed<T>) -> RowsError {
        RowsError::OutOfMemory
    }
}

impl RowsError {
    /// The result for the caller in C.
    pub(crate) fn call_result(&self) -> CallResult
        ensures { result ≡ result_of_rows self.now }
    {
        CallResult {
            status: match self {
                RowsError::NoTree => STATUS_NO_TREE,
                RowsError::OutOfMemory => STATUS_OUT_OF_MEMORY,
            },
            kind: ERROR_NONE,
            position: 0,
            size: 0,
        }
    }
}

/// The look-around with this number.
fn look_around(number: u32) -> Result<LookAround, RowsError>
    ensures { IfOk result (λ l. number ≡ spec.look_around_number l) }
{
    Ok(match number {
        LOOK_AHEAD => LookAround::LookAhead,
        LOOK_AHEAD_NEG => LookAround::LookAheadNeg,
        LOOK_BEHIND => LookAround::LookBehind,
        LOOK_BEHIND_NEG => LookAround::LookBehindNeg,
        _ => return Err(RowsError::NoTree),
    })
}

/// The node of a row with this child.
fn over_one(alloc: Global, row: &Node, child: Expr) -> Result<Expr, RowsError>
    ensures row { (texts : List ℕ) → IfOk result (λ e. IsRowOf texts row.now (view e)) }
    ensures child { IfOk result (λ e. children_of (view e) ≡ view child ∷ []) }
{
    let child = Box::new(alloc, child)?;
    Ok(match row.kind {
        NODE_GROUP => Expr::Group(child),
        NODE_LOOK_AROUND => Expr::LookAround(child, look_around(row.which)?),
        NODE_REPEAT => Expr::Repeat {
            child,
            lo: row.lo,
            hi: row.hi,
            greedy: row.greedy,
        },
        NODE_ATOMIC_GROUP => Expr::AtomicGroup(child),
        NODE_ABSENT if row.which == ABSENT_REPEATER => Expr::Absent(Absent::Repeater(child)),
        NODE_ABSENT if row.which == ABSENT_STOPPER => Expr::Absent(Absent::Stopper(child)),
        NODE_DEFINE_GROUP => Expr::DefineGroup { definitions: child },
        _ => return Err(RowsError::NoTree),
    })
}

/// The node of a row with these two children.
fn over_two(alloc: Global, row: &Node, first: Expr, second: Expr) -> Result<Expr, RowsError>
    ensures row { (texts : List ℕ) → IfOk result (λ e. IsRowOf texts row.now (view e)) }
    ensures children { IfOk result (λ e. children_of (view e) ≡ view first ∷ view second ∷ []) }
{
    if row.kind != NODE_ABSENT || row.which != ABSENT_EXPRESSION {
        return Err(RowsError::NoTree);
    }
    Ok(Expr::Absent(Absent::Expression {
        absent: Box::new(alloc, first)?,
        exp: Box::new(alloc, second)?,
    }))
}

/// The node of a row with these three children.
fn over_three(
    alloc: Global,
    row: &Node,
    first: Expr,
    second: Expr,
    third: Expr,
) -> Result<Expr, RowsError>
    ensures row { (texts : List ℕ) → IfOk result (λ e. IsRowOf texts row.now (view e)) }
    ensures children { IfOk result (λ e. children_of (view e) ≡ view first ∷ view second ∷ view third ∷ []) }
{
    if row.kind != NODE_CONDITIONAL {
        return Err(RowsError::NoTree);
    }
    Ok(Expr::Conditional {
        condition: Box::new(alloc, first)?,
        true_branch: Box::new(alloc, second)?,
        false_branch: Box::new(alloc, third)?,
    })
}

/// The node of a row with these children.
fn node(alloc: Global, row: &Node, texts: &[u8], children: Vec<Expr>) -> Result<Expr, RowsError>
    ensures row { IfOk result (λ e. IsRowOf texts.now row.now (view e)) }
    ensures children { IfOk result (λ e. children_of (view e) ≡ views children.items) }
{
    if row.kind == NODE_CONCAT {
        return Ok(Expr::Concat(children));
    }
    if row.kind == NODE_ALT {
        return Ok(Expr::Alt(children));
    }
    let mut children = children.into_iter();
    let Some(first) = children.next() else {
        return leaf(alloc, row, texts);
    };
    let Some(second) = children.next() else {
        return over_one(alloc, row, first);
    };
    let Some(third) = children.next() else {
        return over_two(alloc, row, first, second);
    };
    if children.next().is_some() {
        return Err(RowsError::NoTree);
    }
    over_three(alloc, row, first, second, third)
}

/// A tree that is built, until it is put below its parent.
#[derive(Drop)]
struct Built {
    tree: Expr,
    levels: usize,
    /// One past the index of its last row.
    end: usize,
}

/// The children of a node.
#[derive(Drop)]
struct ChildTrees {
    trees: Vec<Expr>,
    /// The most levels of one of them.
    levels: usize,
}

/// Takes the trees from the top that end at most at a row, which follow one another from another row on.
fn take_children(
    alloc: Global,
    built: &mut Vec<Built>,
    first: usize,
    end: usize,
) -> Result<ChildTrees, RowsError>
    ensures trees { (texts : List ℕ) (nodes : List row_type.Node) → AreBuiltFrom texts nodes first built.old.items →
        IfOk result (λ c. AreTreesOf texts nodes first end (views c.trees.items)) }
    ensures left { (texts : List ℕ) (nodes : List row_type.Node) → AreBuiltFrom texts nodes first built.old.items →
        IfOk result (λ _. AreBuiltFrom texts nodes end built.new.items) }
{
    let mut children = ChildTrees {
        trees: Vec::new(alloc),
        levels: 0,
    };
    let mut next = first;
    for _ in 0..built.len() {
        if next >= end {
            break;
        }
        let Some(child) = built.pop() else {
            break;
        };
        next = child.end;
        children.levels = children.levels.max(child.levels);
        children.trees.push(child.tree)?;
    }
    if next != end || children.levels >= MAX_LEVELS {
        return Err(RowsError::NoTree);
    }
    Ok(children)
}

/// Builds the tree of the row with an index, after those of the rows below it, and puts it on top.
fn build(
    alloc: Global,
    built: &mut Vec<Built>,
    nodes: &[Node],
    texts: &[u8],
    index: usize,
) -> Result<(), RowsError>
    requires index { index < length nodes.now }
    requires below { AreBuiltFrom texts.now nodes.now (index + 1) built.old.items }
    ensures { IfOk result (λ _. AreBuiltFrom texts.now nodes.now index built.new.items) }
{
    let row = nodes[index];
    let children = take_children(alloc, built, index + 1, row.end)?;
    let levels = children.levels.saturating_add(1);
    let tree = node(alloc, &row, texts, children.trees)?;
    built.push(Built {
        tree,
        levels,
        end: row.end,
    })?;
    Ok(())
}

/// The rows of the node with an index and of its descendants; none if there are no such rows.
pub(crate) fn rows_below(nodes: &[Node], index: usize) -> &[Node] {
    match nodes.get(index) {
        Some(root) => nodes.get(index..root.end).unwrap_or(&[]),
        None => &[],
    }
}

/// The tree of the rows from an index on, built from the last row to the first: so the children of a node are on top
/// when its row is reached.
pub(crate) fn tree_at(
    alloc: Global,
    nodes: &[Node],
    texts: &[u8],
    index: usize,
) -> Result<Expr, RowsError>
    ensures { IfOk result (λ e. AreRowsOfTree texts.now nodes.now index (view e)) }
{
    let end = match nodes.get(index) {
        Some(root) => root.end,
        None => return Err(RowsError::NoTree),
    };
    if end <= index || nodes.len() < end {
        return Err(RowsError::NoTree);
    }
    let mut built = Vec::new(alloc);
    for done in 0..end - index {
        build(alloc, &mut built, nodes, texts, end - 1 - done)?;
    }
    match built.pop() {
        Some(root) => Ok(root.tree),
        None => Err(RowsError::NoTree),
    }
}
