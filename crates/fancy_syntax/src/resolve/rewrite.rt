//! The walk: each reference becomes the node with its number, and each group that was undecided becomes a `Group` or its
//! contents. It stops at the first error.
ghost use Rattle.std.specs.Prelude.{◌≡◌, ℕ, ◌+◌, ◌<◌, [], false, chars, length, option_map};
ghost use Rattle.fancy_lex.specs.IdReference.{amount_bound};
ghost use Rattle.fancy_lex.specs.Target.{Target};
ghost use Rattle.fancy_lex.specs.Text.{text_of};
ghost use Rattle.fancy_grammar.specs.Items.{items, items_all, openings_in};
ghost use Rattle.fancy_syntax.specs.Regrouped.{raw, regrouped, regrouped_all};
ghost use Rattle.fancy_syntax.specs.WalkViews.{Walks, scope_of, progress_of};
ghost use Rattle.fancy_grammar.specs.Resolved.{reference_node};
ghost use Rattle.fancy_grammar.specs.Tree.{trees_of, ast_group};
ghost use Rattle.fancy_grammar.specs.Meaning.{number};
ghost use Rattle.fancy_grammar.specs.Ranks.{is_counted};
ghost use Rattle.fancy_grammar.specs.Label.{ast_backref};
ghost use Rattle.fancy_syntax.specs.View.{view, view_absent, view_ast, views};
ghost use Rattle.fancy_grammar.specs.Walk.{resolved_by, all_resolved_by};

use crate::expr::{Absent, AstNode, Expr};
use crate::resolve::progress::{Progress, Scope, Stopped, refer};
use fancy_grammar::ranks::Role;
use fancy_lex::name::CaptureGroupTarget;
use fancy_lex::text::{Reach, position_at};
use std::mem;

/// Resolves the tree in place, or returns the first error of its references.
#[cycle(rewrite)]
#[inline(always)]
pub(super) fn rewrite(
    tree: &mut Expr,
    scope: &Scope,
    progress: &mut Progress,
) -> Result<(), Stopped>
    requires { progress.old.passed + length (openings_in (items (raw tree.old))) < amount_bound }
    ensures { Walks result (scope_of scope.now) (progress_of progress.old) (items (raw tree.old))
        progress.new
        (λ _. view tree.new ≡ resolved_by (scope_of scope.now) progress.old.passed (raw tree.old)) }
{
    match tree {
        Expr::Concat(parts) => rewrite_all(parts, scope, progress),
        Expr::Alt(branches) => rewrite_all(branches, scope, progress),
        Expr::Group(contents) => {
            progress.passed += 1;
            rewrite_child(contents, scope, progress)
        }
        Expr::LookAround(child, _) => rewrite_child(child, scope, progress),
        Expr::Repeat { child, .. } => rewrite_child(child, scope, progress),
        Expr::AtomicGroup(child) => rewrite_child(child, scope, progress),
        Expr::DefineGroup { definitions } => rewrite_child(definitions, scope, progress),
        Expr::Conditional {
            condition,
            true_branch,
            false_branch,
        } => {
            rewrite_child(condition, scope, progress)?;
            rewrite_child(true_branch, scope, progress)?;
            rewrite_child(false_branch, scope, progress)
        }
        Expr::Absent(absent) => rewrite_absent(absent, scope, progress),
        Expr::AstNode(node, reach) => {
            let resolved = resolve_node(node, *reach, scope, progress)?;
            // The node that was in its place owns no memory any more.
            mem::forget(mem::replace(tree, resolved));
            Ok(())
        }
        Expr::Empty
        | Expr::Any { .. }
        | Expr::Assertion(_)
        | Expr::GeneralNewline { .. }
        | Expr::Literal { .. }
        | Expr::LiteralBytes { .. }
        | Expr::Delegate { .. }
        | Expr::Backref { .. }
        | Expr::BackrefWithRelativeRecursionLevel { .. }
        | Expr::KeepOut
        | Expr::ContinueFromPreviousMatchEnd
        | Expr::BackrefExistsCondition { .. }
        | Expr::SubroutineCall(_)
        | Expr::BacktrackingControlVerb(_) => Ok(()),
    }
}

// The functions for nodes that hold trees are not inlined, so that the call for a leaf saves no registers.

/// What the node that is read at the reach is resolved to. What is left in its place owns no memory.
#[cycle(rewrite)]
#[inline(never)]
fn resolve_node(
    node: &mut AstNode,
    reach: Reach,
    scope: &Scope,
    progress: &mut Progress,
) -> Result<Expr, Stopped>
    requires { progress.old.passed + length (openings_in (items (regrouped (view_ast node.old reach)))) < amount_bound }
    ensures { Walks result (scope_of scope.now) (progress_of progress.old) (items (regrouped (view_ast node.old reach)))
        progress.new
        (λ e. view e ≡ resolved_by (scope_of scope.now) progress.old.passed (regrouped (view_ast node.old reach))) }
{
    let node = mem::replace(
        node,
        AstNode::SubroutineCall(CaptureGroupTarget::ByNumber(0)),
    );
    let position = position_at(scope.pattern, reach);
    match node {
        AstNode::AstGroup { name, inner } => resolve_group(name, inner, scope, progress),
        AstNode::Backref {
            target,
            casei,
            relative_recursion_level,
        } => match refer(scope, progress, reach, Role::BackReference, &target)? {
            Some(group) => Ok(backref(group, casei, relative_recursion_level)),
            None => Ok(Expr::AstNode(
                AstNode::Backref {
                    target,
                    casei,
                    relative_recursion_level,
                },
                position,
            )),
        },
        AstNode::SubroutineCall(target) => match refer(
            scope,
            progress,
            reach,
            Role::Call,
            &target,
        )? {
            Some(group) => Ok(Expr::SubroutineCall(group)),
            None => Ok(Expr::AstNode(AstNode::SubroutineCall(target), position)),
        },
        AstNode::BackrefExistsCondition {
            target,
            relative_recursion_level,
        } => match refer(scope, progress, reach, Role::Condition, &target)? {
            Some(group) => Ok(Expr::BackrefExistsCondition {
                group,
                relative_recursion_level,
            }),
            None => Ok(Expr::AstNode(
                AstNode::BackrefExistsCondition {
                    target,
                    relative_recursion_level,
                },
                position,
            )),
        },
    }
}

/// What the capturing group with this name and these contents is resolved to.
#[cycle(rewrite)]
fn resolve_group(
    name: Option<String>,
    contents: Box<Expr>,
    scope: &Scope,
    progress: &mut Progress,
) -> Result<Expr, Stopped>
    requires { progress.old.passed + 1 + length (openings_in (items (raw contents.value))) < amount_bound }
    ensures { (reach : ℕ) → let group = ast_group (option_map text_of name) reach (raw contents.value) in
        Walks result (scope_of scope.now) (progress_of progress.old) (items group) progress.new
        (λ e. view e ≡ resolved_by (scope_of scope.now) progress.old.passed group) }
{
    let mut inner = contents;
    if is_counted_name(scope.named, name.as_deref()) {
        progress.passed += 1;
        rewrite_child(&mut inner, scope, progress)?;
        Ok(Expr::Group(inner))
    } else {
        rewrite_child(&mut inner, scope, progress)?;
        Ok(mem::replace(&mut *inner, Expr::Empty))
    }
}

/// The back reference to the group, with its recursion level if it has one.
fn backref(group: usize, casei: bool, relative_recursion_level: Option<isize>) -> Expr
    ensures { (m : ℕ) (target : Target) (reach : ℕ) → view result ≡
        reference_node m (number group) (ast_backref target casei relative_recursion_level) reach }
{
    match relative_recursion_level {
        Some(relative_level) => Expr::BackrefWithRelativeRecursionLevel {
            group,
            relative_level,
            casei,
        },
        None => Expr::Backref { group, casei },
    }
}

/// Resolves the trees in the node.
#[cycle(rewrite)]
#[inline(never)]
fn rewrite_absent(
    absent: &mut Absent,
    scope: &Scope,
    progress: &mut Progress,
) -> Result<(), Stopped>
    requires { progress.old.passed + length (openings_in (items (regrouped (view_absent absent.old)))) < amount_bound }
    ensures { Walks result (scope_of scope.now) (progress_of progress.old) (items (regrouped (view_absent absent.old)))
        progress.new
        (λ _. view_absent absent.new
        ≡ resolved_by (scope_of scope.now) progress.old.passed (regrouped (view_absent absent.old))) }
{
    match absent {
        Absent::Repeater(child) => rewrite_child(child, scope, progress),
        Absent::Stopper(child) => rewrite_child(child, scope, progress),
        Absent::Expression { absent, exp } => {
            rewrite_child(absent, scope, progress)?;
            rewrite_child(exp, scope, progress)
        }
        Absent::Clear => Ok(()),
    }
}

/// Resolves the tree in its box.
#[cycle(rewrite)]
#[inline(never)]
fn rewrite_child(
    child: &mut Box<Expr>,
    scope: &Scope,
    progress: &mut Progress,
) -> Result<(), Stopped>
    requires { progress.old.passed + length (openings_in (items (raw child.old.value))) < amount_bound }
    ensures { Walks result (scope_of scope.now) (progress_of progress.old) (items (raw child.old.value))
        progress.new
        (λ _. view child.new.value ≡ resolved_by (scope_of scope.now) progress.old.passed (raw child.old.value)) }
{
    rewrite(&mut **child, scope, progress)
}

/// Resolves the trees in place, from the first on.
#[cycle(rewrite)]
#[inline(never)]
fn rewrite_all(trees: &mut Vec<Expr>, scope: &Scope, progress: &mut Progress) -> Result<(), Stopped>
    requires { progress.old.passed + length (openings_in (items_all (regrouped_all (trees_of (views trees.old.items))))) < amount_bound }
    ensures { Walks result (scope_of scope.now) (progress_of progress.old)
        (items_all (regrouped_all (trees_of (views trees.old.items)))) progress.new
        (λ _. trees_of (views trees.new.items)
        ≡ all_resolved_by (scope_of scope.now) progress.old.passed (regrouped_all (trees_of (views trees.old.items)))) }
{
    for i in 0..trees.len() {
        if may_hold_items(&trees[i]) {
            rewrite(&mut trees[i], scope, progress)?;
        }
    }
    Ok(())
}

/// Whether a group with that name has a number.
fn is_counted_name(named: bool, name: Option<&str>) -> bool
    ensures { result ≡ is_counted named (option_map (λ t. chars t.now) name.entry) }
{
    !named || name.is_some()
}

/// Whether the tree can contain a capturing group or a reference. Most trees are leaves, which need no walk.
#[inline(always)]
fn may_hold_items(tree: &Expr) -> bool
    ensures { result ≡ false → items (raw tree.now) ≡ [] }
{
    matches!(
        tree,
        Expr::Concat(_)
            | Expr::Alt(_)
            | Expr::Group(_)
            | Expr::LookAround(..)
            | Expr::Repeat { .. }
            | Expr::AtomicGroup(_)
            | Expr::Conditional { .. }
            | Expr::Absent(_)
            | Expr::DefineGroup { .. }
            | Expr::AstNode(..)
    )
}
