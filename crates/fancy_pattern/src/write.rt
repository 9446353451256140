//! The walk that writes a tree's text.
ghost use Rattle.std.specs.Prelude.{◌≡◌, ◌+◌, ◌++◌, not, ◌&&◌, ◌||◌, [], codes, nat_lt, true, false, if◌then◌else◌};
ghost use Rattle.std.specs.Prelude.{OnOk};
ghost use Rattle.std.specs.List.{list_all};
ghost use Rattle.fancy_lex.specs.Number.{at_digit};
ghost use Rattle.fancy_lex.specs.declared.flags.Flags.{Flags};
ghost use Rattle.fancy_grammar.specs.Join.{is_empty};
ghost use Rattle.fancy_grammar.specs.GroupInfo.{GroupInfo};
ghost use Rattle.fancy_grammar.specs.Pattern as spec;
ghost use Rattle.fancy_grammar.specs.PatternNeeds as needs;
ghost use Rattle.fancy_grammar.specs.PatternNeeds.{with_needs};
ghost use Rattle.fancy_grammar.specs.PatternQuantifier as spec_quantifier;
ghost use Rattle.fancy_grammar.specs.PatternReference.{group_opening};
ghost use Rattle.fancy_grammar.specs.PatternWalk.{needs_listed, all_listed, after_all};
ghost use Rattle.fancy_grammar.specs.Tree.{concat, alt, look_around, atomic_group, conditional, expression, trees_of};
ghost use Rattle.fancy_grammar.specs.declared.precedence.Precedence.{Precedence};
ghost use Rattle.fancy_grammar.specs.declared.precedence.Precedence.TheVariants.{Whole, Branch, Piece};
ghost use Rattle.fancy_pattern.specs.TextOutput.{Added, Changed};
ghost use Rattle.fancy_syntax.specs.View.{view, views};
ghost use Rattle.fancy_pattern.specs.ContextViews.{Known, IsContext, AreGroupNames, leaf_text_of};
ghost use Rattle.fancy_pattern.specs.Writers.{Writes, WritesTree, WritesSettled, WritesChoice, takes_inline_flags};

use crate::context::Context;
use crate::flags::{open_flag_group, put_inline_flags, settle};
use crate::group_text::{close, look_opening, open};
use crate::leaf::{put_leaf, put_verb_text};
use crate::letters::put_literal;
use crate::names::GroupNames;
use crate::output::{TextOutput, put_ascii, put_if};
use crate::precedence::{
    allowed, is_adjacent, is_last_operand, is_operand, needs_group, takes_branches, takes_pieces,
};
use crate::quantifier::{Quantifier, is_possessive, put_quantifier};
use crate::reference::{put_group_opening, put_target};
use crate::separator::Separator;
use fancy_grammar::needs::Needs;
use fancy_grammar::precedence::Precedence;
use fancy_lex::flags::Flags;
use fancy_syntax::expr::{Absent, Expr, LookAround};
use std::alloc::AllocError;

/// Writes the whole text: first the flags that all leaves need (`agreed`), then the tree.
pub(crate) fn put_pattern(
    out: &mut TextOutput,
    names: &GroupNames,
    tree: &Expr,
    agreed: Needs,
    context: Context,
) -> Result<(), AllocError>
    ensures { (m : GroupInfo) (f : Flags) (k : Known) → AreGroupNames names.now m →
        with_needs f agreed ≡ needs.agreed f (view tree.now) →
        IsContext k context.entry (record { flags = f; opened = 0; depth = 0 }) (needs_listed f.oniguruma_mode (view tree.now)) →
        OnOk result (Added out.old out.new (spec.pattern_text f (view tree.now) m)) }
{
    let mut context = context;
    put_inline_flags(out, agreed, &mut context)?;
    put_tree(out, names, tree, Precedence::Whole, &mut context)
}

/// Writes a tree's text in its context, which then becomes the context of what follows. Most nodes are Literals: this
/// saves a call for each.
#[cycle(write)]
#[inline(always)]
fn put_tree(
    out: &mut TextOutput,
    names: &GroupNames,
    tree: &Expr,
    precedence: Precedence,
    context: &mut Context,
) -> Result<(), AllocError>
    ensures { (m : GroupInfo) → AreGroupNames names.now m → OnOk result
        (WritesTree out.old out.new context.old context.new m (view tree.now) precedence) }
{
    if let Expr::Literal { val, casei } = tree {
        settle(out, context)?;
        return put_literal(out, val.as_str(), *casei, context.flags);
    }
    put_node(out, names, tree, precedence, context)
}

/// Writes the text of any tree.
#[cycle(write)]
#[inline(never)]
fn put_node(
    out: &mut TextOutput,
    names: &GroupNames,
    tree: &Expr,
    precedence: Precedence,
    context: &mut Context,
) -> Result<(), AllocError>
    ensures { (m : GroupInfo) → AreGroupNames names.now m → OnOk result
        (WritesTree out.old out.new context.old context.new m (view tree.now) precedence) }
{
    match tree {
        Expr::Empty => {
            context.pass_node();
            put_empty(out, precedence)
        }
        Expr::Concat(pieces) => put_concat(out, names, pieces, precedence, context),
        Expr::Alt(branches) => put_alt(out, names, branches, precedence, context),
        Expr::Any { .. }
        | Expr::Assertion(_)
        | Expr::GeneralNewline { .. }
        | Expr::Literal { .. }
        | Expr::LiteralBytes { .. }
        | Expr::Group(_)
        | Expr::LookAround(..)
        | Expr::Repeat { .. }
        | Expr::Delegate { .. }
        | Expr::Backref { .. }
        | Expr::BackrefWithRelativeRecursionLevel { .. }
        | Expr::AtomicGroup(_)
        | Expr::KeepOut
        | Expr::ContinueFromPreviousMatchEnd
        | Expr::BackrefExistsCondition { .. }
        | Expr::Conditional { .. }
        | Expr::SubroutineCall(_)
        | Expr::BacktrackingControlVerb(_)
        | Expr::Absent(_)
        | Expr::DefineGroup { .. }
        | Expr::AstNode(..) => {
            settle(out, context)?;
            put_settled(out, names, tree, precedence, context)
        }
    }
}

/// Writes an Empty: nothing, or `()` if several pieces are not allowed there.
#[tactic(auto, using(crate::proofs::OutputLemmas::added_steps))]
fn put_empty(out: &mut TextOutput, precedence: Precedence) -> Result<(), AllocError>
    ensures { OnOk result (Added out.old out.new (if spec.takes_pieces precedence then [] else codes "()")) }
{
    if takes_pieces(precedence) {
        Ok(())
    } else {
        put_ascii(out, "()")
    }
}

/// Writes a Concat, in a group of its own if several pieces are not allowed there.
#[cycle(write)]
fn put_concat(
    out: &mut TextOutput,
    names: &GroupNames,
    pieces: &[Expr],
    precedence: Precedence,
    context: &mut Context,
) -> Result<(), AllocError>
    ensures { (m : GroupInfo) → AreGroupNames names.now m → OnOk result
        (WritesTree out.old out.new context.old context.new m (concat (trees_of (views pieces.now))) precedence) }
{
    if takes_pieces(precedence) {
        context.pass_node();
        return put_pieces(out, names, pieces, context);
    }
    let outside = *context;
    open_flag_group(out, context)?;
    put_pieces(out, names, pieces, context)?;
    close(out, &outside, context)
}

/// Writes trees one after the other. A text that begins with a digit is separated from a reference in digits before it.
#[cycle(write)]
fn put_pieces(
    out: &mut TextOutput,
    names: &GroupNames,
    pieces: &[Expr],
    context: &mut Context,
) -> Result<(), AllocError>
    ensures { (m : GroupInfo) → AreGroupNames names.now m → OnOk result (Writes out.old out.new context.old context.new
        (λ o. all_listed o (trees_of (views pieces.now))) (spec.written_all m false (trees_of (views pieces.now)))
        (after_all (trees_of (views pieces.now)) Piece)) }
{
    let mut after_digits = false;
    for piece in pieces {
        let position = out.len();
        put_tree(out, names, piece, Precedence::Piece, context)?;
        separate_after_digits(out, position, after_digits)?;
        after_digits = is_in_digits(names, piece);
    }
    Ok(())
}

/// If a reference in digits is before the position, and a digit follows, inserts a separator at the position.
fn separate_after_digits(
    out: &mut TextOutput,
    position: usize,
    after_digits: bool,
) -> Result<(), AllocError>
    ensures { OnOk result (Changed out.old out.new position (λ u. spec.separated_if (after_digits && at_digit u) u)) }
{
    if after_digits {
        out.separate(position, Separator::Number)
    } else {
        Ok(())
    }
}

/// Whether the tree is a reference in digits.
fn is_in_digits(names: &GroupNames, tree: &Expr) -> bool
    ensures { (m : GroupInfo) → AreGroupNames names.now m → result ≡ spec.is_in_digits m (view tree.now) }
{
    names.is_numeric && matches!(tree, Expr::Backref { .. })
}

/// Writes an Alt, in a group of its own if several branches are not allowed there.
#[cycle(write)]
fn put_alt(
    out: &mut TextOutput,
    names: &GroupNames,
    branches: &[Expr],
    precedence: Precedence,
    context: &mut Context,
) -> Result<(), AllocError>
    ensures { (m : GroupInfo) → AreGroupNames names.now m → OnOk result
        (WritesTree out.old out.new context.old context.new m (alt (trees_of (views branches.now))) precedence) }
{
    if takes_branches(precedence) {
        context.pass_node();
        return put_branches(out, names, branches, context);
    }
    let outside = *context;
    open_flag_group(out, context)?;
    put_branches(out, names, branches, context)?;
    close(out, &outside, context)
}

/// Writes trees with bars between them.
#[cycle(write)]
fn put_branches(
    out: &mut TextOutput,
    names: &GroupNames,
    branches: &[Expr],
    context: &mut Context,
) -> Result<(), AllocError>
    ensures { (m : GroupInfo) → AreGroupNames names.now m → OnOk result (Writes out.old out.new context.old context.new
        (λ o. all_listed o (trees_of (views branches.now))) (spec.written_branches m (trees_of (views branches.now)))
        (after_all (trees_of (views branches.now)) Branch)) }
{
    let [first, others @ ..] = branches else {
        return Ok(());
    };
    put_tree(out, names, first, Precedence::Branch, context)?;
    for branch in others {
        out.put('|')?;
        put_tree(out, names, branch, Precedence::Branch, context)?;
    }
    Ok(())
}

/// Writes a tree that is no Empty, Concat or Alt. The flags that it needs are set already.
#[cycle(write)]
fn put_settled(
    out: &mut TextOutput,
    names: &GroupNames,
    tree: &Expr,
    precedence: Precedence,
    context: &mut Context,
) -> Result<(), AllocError>
    requires { takes_inline_flags (view tree.now) ≡ true }
    ensures { (m : GroupInfo) → AreGroupNames names.now m → OnOk result
        (WritesSettled out.old out.new context.old context.new m (view tree.now) precedence) }
{
    match tree {
        Expr::Group(child) => put_group(out, names, child, context),
        Expr::LookAround(child, look) => put_look_around(
            out, names, child, *look, precedence, context,
        ),
        Expr::Repeat {
            child,
            lo,
            hi,
            greedy,
        } => {
            let quantifier = Quantifier {
                lo: *lo,
                hi: *hi,
                greedy: *greedy,
                possessive: false,
            };
            put_repeat(out, names, child, quantifier, precedence, context)
        }
        Expr::AtomicGroup(child) => put_atomic(out, names, child, precedence, context),
        Expr::DefineGroup { definitions } => put_in_group(
            out,
            names,
            "?(DEFINE)",
            definitions,
            context,
        ),
        Expr::Conditional {
            condition,
            true_branch,
            false_branch,
        } => put_conditional(out, names, condition, true_branch, false_branch, context),
        Expr::Absent(Absent::Repeater(child)) => put_repeater(out, names, child, context),
        Expr::Absent(Absent::Expression { absent, exp }) => put_expression(
            out, names, absent, exp, context,
        ),
        Expr::Absent(Absent::Stopper(child)) => put_stopper(out, names, child, context),
        Expr::Any { .. }
        | Expr::Assertion(_)
        | Expr::GeneralNewline { .. }
        | Expr::Literal { .. }
        | Expr::LiteralBytes { .. }
        | Expr::Delegate { .. }
        | Expr::Backref { .. }
        | Expr::BackrefWithRelativeRecursionLevel { .. }
        | Expr::KeepOut
        | Expr::ContinueFromPreviousMatchEnd
        | Expr::BackrefExistsCondition { .. }
        | Expr::SubroutineCall(_)
        | Expr::BacktrackingControlVerb(_)
        | Expr::Absent(Absent::Clear)
        | Expr::AstNode(..)
        | Expr::Empty
        | Expr::Concat(_)
        | Expr::Alt(_) => put_leaf_at(out, names, tree, precedence, context),
    }
}

/// Writes a leaf, in a group if a quantifier follows that the leaf cannot take.
fn put_leaf_at(
    out: &mut TextOutput,
    names: &GroupNames,
    leaf: &Expr,
    precedence: Precedence,
    context: &mut Context,
) -> Result<(), AllocError>
    ensures { (m : GroupInfo) → AreGroupNames names.now m → OnOk result (Writes out.old out.new context.old context.new (λ o. [])
        (spec.as_atom (view leaf.now) precedence (leaf_text_of m (view leaf.now))) (λ h. h)) }
{
    if needs_group(leaf, precedence, context.flags) {
        let outside = *context;
        open(out, "", context)?;
        put_leaf(out, names, leaf, context)?;
        return close(out, &outside, context);
    }
    put_leaf(out, names, leaf, context)
}

/// Writes a tree in a group with this opening.
#[cycle(write)]
fn put_in_group(
    out: &mut TextOutput,
    names: &GroupNames,
    opening: &str,
    child: &Expr,
    context: &mut Context,
) -> Result<(), AllocError>
    requires { list_all (λ b. nat_lt b 128) opening.now ≡ true }
    ensures { (m : GroupInfo) → AreGroupNames names.now m → OnOk result (Writes out.old out.new context.old context.new
        (λ o. needs_listed o (view child.now)) (spec.in_parens opening.now (spec.written m (view child.now) Whole))
        (spec.past_groups (spec.group_count (view child.now)))) }
{
    let outside = *context;
    open(out, opening, context)?;
    put_tree(out, names, child, Precedence::Whole, context)?;
    close(out, &outside, context)
}

/// Writes a look-around, in a group if a quantifier follows.
#[cycle(write)]
fn put_look_around(
    out: &mut TextOutput,
    names: &GroupNames,
    child: &Expr,
    look: LookAround,
    precedence: Precedence,
    context: &mut Context,
) -> Result<(), AllocError>
    ensures { (m : GroupInfo) → AreGroupNames names.now m → OnOk result (Writes out.old out.new context.old context.new
        (λ o. needs_listed o (view child.now))
        (spec.as_atom (look_around (view child.now) look) precedence
        (spec.in_parens (spec.look_opening look) (spec.written m (view child.now) Whole)))
        (spec.past_groups (spec.group_count (view child.now)))) }
{
    if is_operand(precedence) {
        let outside = *context;
        open(out, "", context)?;
        put_in_group(out, names, look_opening(look), child, context)?;
        return close(out, &outside, context);
    }
    put_in_group(out, names, look_opening(look), child, context)
}

/// Writes a capturing group.
#[cycle(write)]
fn put_group(
    out: &mut TextOutput,
    names: &GroupNames,
    child: &Expr,
    context: &mut Context,
) -> Result<(), AllocError>
    ensures { (m : GroupInfo) → AreGroupNames names.now m → OnOk result (Writes out.old out.new context.old context.new
        (λ o. needs_listed o (view child.now))
        (λ h. spec.in_parens (group_opening m (h.opened + 1)) (spec.written m (view child.now) Whole) (spec.past_groups 1 h))
        (spec.past_groups (spec.group_count (view child.now) + 1))) }
{
    let outside = *context;
    open(out, "", context)?;
    context.count_opening()?;
    put_group_opening(out, names, context.opened)?;
    put_tree(out, names, child, Precedence::Whole, context)?;
    close(out, &outside, context)
}

/// Writes a Repeat, in a group if a quantifier follows before which no other is allowed.
#[cycle(write)]
fn put_repeat(
    out: &mut TextOutput,
    names: &GroupNames,
    child: &Expr,
    quantifier: Quantifier,
    precedence: Precedence,
    context: &mut Context,
) -> Result<(), AllocError>
    ensures { (m : GroupInfo) → AreGroupNames names.now m → OnOk result (Writes out.old out.new context.old context.new
        (λ o. needs_listed o (view child.now))
        (spec.in_parens_if (spec.is_last_operand precedence) (codes "?:")
        (spec.repeated quantifier.possessive (view child.now) quantifier.lo quantifier.hi quantifier.greedy
        (spec.written m (view child.now))) precedence)
        (spec.past_groups (spec.group_count (view child.now)))) }
{
    if is_last_operand(precedence) {
        return put_quantified_in_group(out, names, "?:", child, quantifier, context);
    }
    put_quantified(out, names, child, quantifier, precedence, context)
}

/// Whether an atomic group of a Repeat with these counts is written as a group: no possessive quantifier parses as it,
/// or a quantifier follows before which no other is allowed.
fn needs_atomic_group(lo: usize, hi: usize, precedence: Precedence, flags: Flags) -> bool
    ensures { result ≡ (spec.is_last_operand precedence || not (spec_quantifier.is_possessive flags lo hi)) }
{
    is_last_operand(precedence) || !is_possessive(lo, hi, flags)
}

/// Writes an AtomicGroup. That of a Repeat is written as a possessive quantifier, if one parses as it.
#[cycle(write)]
fn put_atomic(
    out: &mut TextOutput,
    names: &GroupNames,
    child: &Expr,
    precedence: Precedence,
    context: &mut Context,
) -> Result<(), AllocError>
    ensures { (m : GroupInfo) → AreGroupNames names.now m → OnOk result
        (WritesSettled out.old out.new context.old context.new m (atomic_group (view child.now)) precedence) }
{
    let Expr::Repeat {
        child: repeated,
        lo,
        hi,
        greedy,
    } = child
    else {
        return put_in_group(out, names, "?>", child, context);
    };
    let grouped = needs_atomic_group(*lo, *hi, precedence, context.flags);
    context.pass_node();
    let mut quantifier = Quantifier {
        lo: *lo,
        hi: *hi,
        greedy: *greedy,
        possessive: true,
    };
    if grouped {
        quantifier.possessive = false;
        return put_quantified_in_group(out, names, "?>", repeated, quantifier, context);
    }
    put_quantified(out, names, repeated, quantifier, precedence, context)
}

/// Writes a tree and the quantifier after it, in a group with this opening.
#[cycle(write)]
fn put_quantified_in_group(
    out: &mut TextOutput,
    names: &GroupNames,
    opening: &str,
    child: &Expr,
    quantifier: Quantifier,
    context: &mut Context,
) -> Result<(), AllocError>
    requires { list_all (λ b. nat_lt b 128) opening.now ≡ true }
    ensures { (m : GroupInfo) → AreGroupNames names.now m → OnOk result (Writes out.old out.new context.old context.new
        (λ o. needs_listed o (view child.now))
        (spec.in_parens opening.now (spec.repeated quantifier.possessive (view child.now) quantifier.lo quantifier.hi quantifier.greedy
        (spec.written m (view child.now)) Whole))
        (spec.past_groups (spec.group_count (view child.now)))) }
{
    let outside = *context;
    open(out, opening, context)?;
    put_quantified(out, names, child, quantifier, Precedence::Whole, context)?;
    close(out, &outside, context)
}

/// Writes a tree and the quantifier after it.
#[cycle(write)]
fn put_quantified(
    out: &mut TextOutput,
    names: &GroupNames,
    child: &Expr,
    quantifier: Quantifier,
    precedence: Precedence,
    context: &mut Context,
) -> Result<(), AllocError>
    ensures { (m : GroupInfo) → AreGroupNames names.now m → OnOk result (Writes out.old out.new context.old context.new
        (λ o. needs_listed o (view child.now)) (spec.repeated quantifier.possessive (view child.now) quantifier.lo quantifier.hi quantifier.greedy
        (spec.written m (view child.now)) precedence)
        (spec.past_groups (spec.group_count (view child.now)))) }
{
    let outside = *context;
    let allowed = allowed(precedence, &outside);
    let adjacent = is_adjacent(allowed, child, outside.flags);
    put_tree(out, names, child, Precedence::Operand(allowed), context)?;
    context.leave(&outside);
    put_quantifier(out, quantifier, adjacent, outside.flags)
}

/// Writes a Conditional.
#[cycle(write)]
fn put_conditional(
    out: &mut TextOutput,
    names: &GroupNames,
    condition: &Expr,
    true_branch: &Expr,
    false_branch: &Expr,
    context: &mut Context,
) -> Result<(), AllocError>
    ensures { (m : GroupInfo) (p : Precedence) → AreGroupNames names.now m → OnOk result
        (WritesSettled out.old out.new context.old context.new m
        (conditional (view condition.now) (view true_branch.now) (view false_branch.now)) p) }
{
    let outside = *context;
    open(out, "?(", context)?;
    put_condition(out, names, condition, context)?;
    out.put(')')?;
    put_choice(out, names, true_branch, false_branch, context)?;
    close(out, &outside, context)
}

/// Writes a condition.
#[cycle(write)]
fn put_condition(
    out: &mut TextOutput,
    names: &GroupNames,
    condition: &Expr,
    context: &mut Context,
) -> Result<(), AllocError>
    ensures { (m : GroupInfo) → AreGroupNames names.now m → OnOk result (Writes out.old out.new context.old context.new
        (λ o. needs_listed o (view condition.now))
        (λ h. spec.condition_text m (view condition.now) (spec.written m (view condition.now) Whole h))
        (spec.after (view condition.now) Whole)) }
{
    match condition {
        Expr::BackrefExistsCondition {
            group,
            relative_recursion_level,
        } => {
            context.pass_node();
            put_target(out, names, *group, *relative_recursion_level)
        }
        Expr::BacktrackingControlVerb(verb) => {
            context.pass_node();
            put_verb_text(out, *verb)
        }
        Expr::Empty
        | Expr::Any { .. }
        | Expr::Assertion(_)
        | Expr::GeneralNewline { .. }
        | Expr::Literal { .. }
        | Expr::LiteralBytes { .. }
        | Expr::Concat(_)
        | Expr::Alt(_)
        | Expr::Group(_)
        | Expr::LookAround(..)
        | Expr::Repeat { .. }
        | Expr::Delegate { .. }
        | Expr::Backref { .. }
        | Expr::BackrefWithRelativeRecursionLevel { .. }
        | Expr::AtomicGroup(_)
        | Expr::KeepOut
        | Expr::ContinueFromPreviousMatchEnd
        | Expr::Conditional { .. }
        | Expr::SubroutineCall(_)
        | Expr::Absent(_)
        | Expr::DefineGroup { .. }
        | Expr::AstNode(..) => {
            let position = out.len();
            put_tree(out, names, condition, Precedence::Whole, context)?;
            out.separate(position, Separator::Condition)
        }
    }
}

/// Writes `()` if both branches of a Conditional are empty: a condition alone would be parsed as another node.
fn put_empty_choice(
    out: &mut TextOutput,
    true_branch: &Expr,
    false_branch: &Expr,
) -> Result<(), AllocError>
    ensures { OnOk result (Added out.old out.new
        (if is_empty (view true_branch.now) && is_empty (view false_branch.now) then codes "()" else [])) }
{
    if matches!(true_branch, Expr::Empty) && matches!(false_branch, Expr::Empty) {
        put_ascii(out, "()")
    } else {
        Ok(())
    }
}

/// Whether a bar follows the first branch of a Conditional. Without it, an Alt there would be parsed as both branches.
fn needs_bar(true_branch: &Expr, false_branch: &Expr) -> bool
    ensures { result ≡ (not (is_empty (view false_branch.now)) || spec.is_alt (view true_branch.now)) }
{
    !matches!(false_branch, Expr::Empty) || matches!(true_branch, Expr::Alt(_))
}

/// Writes the branches of a Conditional. An empty one adds no text.
#[cycle(write)]
fn put_choice(
    out: &mut TextOutput,
    names: &GroupNames,
    true_branch: &Expr,
    false_branch: &Expr,
    context: &mut Context,
) -> Result<(), AllocError>
    ensures { (m : GroupInfo) → AreGroupNames names.now m → OnOk result
        (WritesChoice out.old out.new context.old context.new m (view true_branch.now) (view false_branch.now)) }
{
    put_empty_choice(out, true_branch, false_branch)?;
    put_tree(out, names, true_branch, Precedence::Branch, context)?;
    put_if(out, needs_bar(true_branch, false_branch), '|')?;
    put_tree(out, names, false_branch, Precedence::Whole, context)
}

/// Writes an absent repeater. A bar right after the `(?~` would make it another absent form, and so it is separated.
#[cycle(write)]
fn put_repeater(
    out: &mut TextOutput,
    names: &GroupNames,
    child: &Expr,
    context: &mut Context,
) -> Result<(), AllocError>
    ensures { (m : GroupInfo) → AreGroupNames names.now m → OnOk result (Writes out.old out.new context.old context.new
        (λ o. needs_listed o (view child.now))
        (spec.in_parens (codes "?~") (λ h. spec.repeater_text (spec.written m (view child.now) Whole h)))
        (spec.past_groups (spec.group_count (view child.now)))) }
{
    let outside = *context;
    open(out, "?~", context)?;
    let position = out.len();
    put_tree(out, names, child, Precedence::Whole, context)?;
    out.separate(position, Separator::Absent)?;
    close(out, &outside, context)
}

/// Writes an absent expression of two parts.
#[cycle(write)]
fn put_expression(
    out: &mut TextOutput,
    names: &GroupNames,
    absent: &Expr,
    exp: &Expr,
    context: &mut Context,
) -> Result<(), AllocError>
    ensures { (m : GroupInfo) (p : Precedence) → AreGroupNames names.now m → OnOk result
        (WritesSettled out.old out.new context.old context.new m (expression (view absent.now) (view exp.now)) p) }
{
    let outside = *context;
    open(out, "?~|", context)?;
    put_tree(out, names, absent, Precedence::Branch, context)?;
    out.put('|')?;
    put_tree(out, names, exp, Precedence::Branch, context)?;
    close(out, &outside, context)
}

/// Writes an empty group, if nothing was written from the position on.
fn fill(out: &mut TextOutput, position: usize) -> Result<(), AllocError>
    ensures { OnOk result (Changed out.old out.new position spec.stopper_text) }
{
    if out.len() == position {
        put_ascii(out, "()")
    } else {
        Ok(())
    }
}

/// Writes an absent stopper. If its child has no text, `()` is written, since the stopper would be a clear otherwise.
#[cycle(write)]
fn put_stopper(
    out: &mut TextOutput,
    names: &GroupNames,
    child: &Expr,
    context: &mut Context,
) -> Result<(), AllocError>
    ensures { (m : GroupInfo) → AreGroupNames names.now m → OnOk result (Writes out.old out.new context.old context.new
        (λ o. needs_listed o (view child.now))
        (spec.in_parens (codes "?~|") (λ h. spec.stopper_text (spec.written m (view child.now) Branch h)))
        (spec.past_groups (spec.group_count (view child.now)))) }
{
    let outside = *context;
    open(out, "?~|", context)?;
    let position = out.len();
    put_tree(out, names, child, Precedence::Branch, context)?;
    fill(out, position)?;
    close(out, &outside, context)
}
