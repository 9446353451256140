//! From a raw tree to the resolved tree: references get the numbers that they refer to, and what is undecided is decided.
ghost use Rattle.std.specs.Prelude.{◌≡◌, ◌<◌, false, true, chars, length, IfOk, IfErr, None};
ghost use Rattle.fancy_lex.specs.IdReference.{amount_bound};
ghost use Rattle.fancy_lex.specs.Text.{bytes};
ghost use Rattle.fancy_lex.specs.declared.flags.Flags.{Flags};
ghost use Rattle.fancy_grammar.specs.Groups.{groups_of};
ghost use Rattle.fancy_grammar.specs.Grammar.{DerivesTree};
ghost use Rattle.fancy_grammar.specs.Items.{items, openings};
ghost use Rattle.fancy_grammar.specs.GroupInfo.{group_info};
ghost use Rattle.fancy_grammar.specs.Errors.{IsErrorIn};
ghost use Rattle.fancy_grammar.specs.Tree.{Tree};
ghost use Rattle.fancy_syntax.specs.InfoViews.{info_of};
ghost use Rattle.fancy_syntax.specs.Reads.{IsRawTree};
ghost use Rattle.fancy_syntax.specs.WalkViews.{scope_of, progress_of, info_found};
ghost use Rattle.fancy_syntax.specs.Regrouped.{raw, is_settled};
ghost use Rattle.fancy_grammar.specs.Resolved.{resolved, error_of};
ghost use Rattle.fancy_grammar.specs.Walk.{progress_after, nothing_recorded, resolved_by};
ghost use Rattle.fancy_syntax.specs.View.{view};

mod progress;
mod rewrite;

use crate::expr::Expr;
use crate::raw_tree::RawTree;
use crate::resolve::progress::{Progress, Scope};
use crate::resolve::rewrite::rewrite;
use crate::tree::ExprTree;
use fancy_grammar::ranks::Groups;
use fancy_lex::error::ReadError;
use std::alloc::Global;

/// The raw tree of the pattern resolved in place, with its group information, or the first error of its references.
#[inline(always)]
pub(crate) fn resolve(alloc: Global, raw: RawTree, pattern: &str) -> Result<ExprTree, ReadError>
    requires { (f : Flags) × (r : Tree) × DerivesTree f (chars pattern.now) r × IsRawTree f raw r }
    ensures tree { (f : Flags) (r : Tree) → DerivesTree f (chars pattern.now) r → IsRawTree f raw r →
        IfOk result (λ t. view t.expr ≡ resolved f (bytes (chars pattern.now)) r) }
    ensures group_info { (f : Flags) (r : Tree) → DerivesTree f (chars pattern.now) r → IsRawTree f raw r →
        IfOk result (λ t. info_of t ≡ group_info f (chars pattern.now) r) }
    ensures no_error { (f : Flags) (r : Tree) → DerivesTree f (chars pattern.now) r → IsRawTree f raw r →
        IfOk result (λ _. error_of f r ≡ None) }
    ensures error { (f : Flags) (r : Tree) → DerivesTree f (chars pattern.now) r → IsRawTree f raw r →
        IfErr result (λ e. IsErrorIn e (error_of f r)) }
{
    let RawTree {
        expr,
        groups,
        named,
        unresolved,
    } = raw;
    let scope = Scope {
        pattern,
        named,
        groups,
    };
    let mut expr = expr;
    let progress = match walk(alloc, &mut expr, &scope, unresolved) {
        Ok(progress) => progress,
        Err(error) => {
            drop(scope);
            drop(expr);
            return Err(error);
        }
    };
    Ok(tree_with_info(expr, scope.named, scope.groups, progress))
}

/// The resolved tree with its group information.
#[inline(always)]
fn tree_with_info(expr: Expr, named: bool, groups: Groups, progress: Progress) -> ExprTree
    ensures tree { result.expr ≡ expr }
    ensures group_info { info_of result ≡ info_found named (groups_of groups) (progress_of progress) }
{
    let Progress {
        backrefs,
        out_of_range,
        numeric,
        calls,
        self_recursive,
        ..
    } = progress;
    let Groups { total, names } = groups;
    ExprTree {
        expr,
        backrefs,
        named_groups: names,
        numeric_capture_group_references: numeric,
        contains_subroutines: calls,
        self_recursive,
        total_groups: total,
        out_of_range_backref: out_of_range,
        numbered_groups_ignored: named,
    }
}

/// Resolves the tree in place, and returns what was recorded, or the first error. If there is nothing to resolve, the
/// tree is not walked.
#[inline(always)]
fn walk(
    alloc: Global,
    tree: &mut Expr,
    scope: &Scope,
    unresolved: bool,
) -> Result<Progress, ReadError>
    requires bound { length (openings (raw tree.old)) < amount_bound }
    requires settled { unresolved ≡ false → is_settled (view tree.old) ≡ true }
    ensures tree { IfOk result (λ _. view tree.new ≡ resolved_by (scope_of scope.now) 0 (raw tree.old)) }
    ensures group_info { IfOk result (λ p. let named = scope.now.named in let groups = groups_of scope.now.groups in
        info_found named groups (progress_of p)
        ≡ info_found named groups (progress_after (scope_of scope.now) nothing_recorded (items (raw tree.old)))) }
    ensures no_error { IfOk result
        (λ _. (progress_after (scope_of scope.now) nothing_recorded (items (raw tree.old))).error ≡ None) }
    ensures error { IfErr result
        (λ e. IsErrorIn e (progress_after (scope_of scope.now) nothing_recorded (items (raw tree.old))).error) }
{
    let mut progress = Progress::new(alloc);
    if unresolved {
        let Ok(()) = rewrite(tree, scope, &mut progress) else {
            return Err(progress.into_error());
        };
    }
    Ok(progress)
}
