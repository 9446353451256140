//! Conditionals and absent nodes, made of the trees that were read inside them.
ghost use Rattle.std.specs.Prelude.{◌≡◌, ◌&&◌, IfOk};
ghost use Rattle.fancy_grammar.specs.Grammar as spec;
ghost use Rattle.fancy_grammar.specs.Join as join;
ghost use Rattle.fancy_grammar.specs.Tree.{alt, trees_of, conditional as conditional_node};
ghost use Rattle.fancy_syntax.specs.View.{view, view_ast, views};

use crate::expr::{Absent, AstNode, Expr};
use crate::grammar::trees::is_empty;
use std::alloc::{AllocError, Global};

/// Whether the tree is a condition on a group.
pub(crate) fn is_condition(tree: &Expr) -> bool
    ensures { result ≡ spec.is_condition (view tree.now) }
{
    match tree {
        Expr::AstNode(node, _) => is_condition_node(node),
        _ => false,
    }
}

/// Whether the node is a condition on a group.
fn is_condition_node(node: &AstNode) -> bool
    ensures { result ≡ spec.is_condition (view_ast node.now 0) }
{
    match node {
        AstNode::BackrefExistsCondition { .. } => true,
        AstNode::AstGroup { .. } => false,
        AstNode::Backref { .. } => false,
        AstNode::SubroutineCall(_) => false,
    }
}

/// Whether both branches of a conditional's body are Empty.
pub(crate) fn has_empty_branches(body: &Expr) -> bool
    ensures { let branches = spec.branches_of (view body.now) in
        result ≡ (join.is_empty branches.0 && join.is_empty branches.1) }
{
    let Expr::Alt(branches) = body else {
        return is_empty(body);
    };
    match branches.as_slice() {
        [branch] => is_empty(branch),
        [branch, other] => is_empty(branch) && is_empty(other),
        // The choice among several others is an Alt.
        _ => false,
    }
}

/// The branches of a conditional's body. If it is an Alt, they are its first branch and the choice among the others.
fn branches_of(body: Expr) -> (Expr, Expr)
    ensures first { view result.0 ≡ (spec.branches_of (view body)).0 }
    ensures others { view result.1 ≡ (spec.branches_of (view body)).1 }
{
    match body {
        Expr::Alt(branches) => first_and_others(branches),
        body => (body, Expr::Empty),
    }
}

/// The first branch, and the choice among the others.
fn first_and_others(branches: Vec<Expr>) -> (Expr, Expr)
    ensures first { view result.0 ≡ (spec.branches_of (alt (trees_of (views branches.items)))).0 }
    ensures others { view result.1 ≡ (spec.branches_of (alt (trees_of (views branches.items)))).1 }
{
    let mut branches = branches;
    if branches.is_empty() {
        return (Expr::Alt(branches), Expr::Empty);
    }
    let first = branches.remove(0);
    (first, choice(branches))
}

/// A choice among the branches.
fn choice(branches: Vec<Expr>) -> Expr
    ensures { view result ≡ join.choice (views branches.items) }
{
    let mut branches = branches;
    if branches.len() > 1 {
        return Expr::Alt(branches);
    }
    match branches.pop() {
        Some(branch) => branch,
        None => Expr::Empty,
    }
}

/// The conditional with this body. If both branches are Empty, it is only the condition.
pub(crate) fn conditional(
    alloc: Global,
    condition: Box<Expr>,
    body: Expr,
) -> Result<Expr, AllocError>
    ensures { let branches = spec.branches_of (view body) in
        IfOk result (λ e. view e ≡ spec.conditional_of (view condition.value) branches.0 branches.1) }
{
    if has_empty_branches(&body) {
        drop(body);
        return Ok(Box::into_inner(condition));
    }
    let (true_branch, false_branch) = branches_of(body);
    decide(alloc, condition, true_branch, false_branch)
}

/// The node of a conditional.
fn decide(
    alloc: Global,
    condition: Box<Expr>,
    true_branch: Expr,
    false_branch: Expr,
) -> Result<Expr, AllocError>
    ensures { IfOk result (λ e. view e ≡
        conditional_node (view condition.value) (view true_branch) (view false_branch)) }
{
    let true_branch = match Box::new(alloc, true_branch) {
        Ok(true_branch) => true_branch,
        Err(refused) => {
            drop(false_branch);
            return Err(AllocError::from(refused));
        }
    };
    let false_branch = Box::new(alloc, false_branch)?;
    Ok(Expr::Conditional {
        condition,
        true_branch,
        false_branch,
    })
}

/// A branch after `(?~|` that no other branch follows: a clear if it is Empty, else a stopper.
pub(crate) fn clear_or_stopper(alloc: Global, branch: Expr) -> Result<Expr, AllocError>
    ensures { IfOk result (λ e. view e ≡ spec.clear_or_stopper (view branch)) }
{
    if is_empty(&branch) {
        drop(branch);
        return Ok(Expr::Absent(Absent::Clear));
    }
    Ok(Expr::Absent(Absent::Stopper(Box::new(alloc, branch)?)))
}
