//! Trees that hold no other trees.
ghost use Rattle.std.specs.Prelude.{◌≡◌, List, ◌++◌, codes, nat_lt, true, OnOk};
ghost use Rattle.std.specs.List.{list_all};
ghost use Rattle.fancy_grammar.specs.GroupInfo.{GroupInfo};
ghost use Rattle.fancy_grammar.specs.Pattern as spec;
ghost use Rattle.fancy_grammar.specs.PatternLetters as letters;
ghost use Rattle.fancy_grammar.specs.PatternReference as reference;
ghost use Rattle.fancy_grammar.specs.declared.needs.Needs.{Needs};
ghost use Rattle.fancy_pattern.specs.TextOutput.{Added};
ghost use Rattle.fancy_syntax.specs.View.{view};
ghost use Rattle.fancy_pattern.specs.ContextViews.{Known, IsContext, AreGroupNames, leaf_text_of};

use crate::context::Context;
use crate::letters::{put_bytes, put_literal};
use crate::names::GroupNames;
use crate::output::{TextOutput, put_ascii};
use crate::reference::{put_backref, put_backref_at_level, put_call, put_target, put_unresolved};
use crate::source::put_delegate;
use fancy_lex::flags::Flags;
use fancy_syntax::expr::{Absent, Assertion, BacktrackingControlVerb, Expr};
use std::alloc::AllocError;

/// The text of any character.
fn any_text(newline: bool, crlf: bool, flags: Flags) -> &'static str
    ensures text { letters.any_text flags newline crlf ≡ result.now }
    ensures ascii { list_all (λ b. nat_lt b 128) result.now ≡ true }
{
    if newline == flags.dotnl && crlf == flags.crlf {
        "."
    } else if newline {
        r"\O"
    } else {
        r"\N"
    }
}

/// The text of an assertion.
fn assertion_text(assertion: Assertion, flags: Flags) -> &'static str
    ensures text { letters.assertion_text flags assertion ≡ result.now }
    ensures ascii { list_all (λ b. nat_lt b 128) result.now ≡ true }
{
    match assertion {
        Assertion::StartText => if flags.multi { r"\A" } else { "^" },
        Assertion::EndText => if flags.multi { r"\z" } else { "$" },
        Assertion::EndTextIgnoreTrailingNewlines { .. } => r"\Z",
        Assertion::StartLine { .. } => "^",
        Assertion::StartLineOniguruma { .. } => "^",
        Assertion::EndLine { .. } => "$",
        Assertion::WordBoundary => r"\b",
        Assertion::NotWordBoundary => r"\B",
        Assertion::LeftWordBoundary => if flags.oniguruma_mode {
            r"\b{start}"
        } else {
            r"\<"
        },
        Assertion::RightWordBoundary => if flags.oniguruma_mode {
            r"\b{end}"
        } else {
            r"\>"
        },
        Assertion::LeftWordHalfBoundary => r"\b{start-half}",
        Assertion::RightWordHalfBoundary => r"\b{end-half}",
    }
}

/// Writes any character.
#[tactic(auto, using(crate::proofs::OutputLemmas::added_steps))]
fn put_any(out: &mut TextOutput, newline: bool, crlf: bool, flags: Flags) -> Result<(), AllocError>
    ensures { OnOk result (Added out.old out.new (letters.any_text flags newline crlf)) }
{
    put_ascii(out, any_text(newline, crlf, flags))
}

/// Writes an assertion.
#[tactic(auto, using(crate::proofs::OutputLemmas::added_steps))]
fn put_assertion(out: &mut TextOutput, assertion: Assertion, flags: Flags) -> Result<(), AllocError>
    ensures { OnOk result (Added out.old out.new (letters.assertion_text flags assertion)) }
{
    put_ascii(out, assertion_text(assertion, flags))
}

/// Writes a verb without its parentheses.
#[tactic(auto, using(crate::proofs::OutputLemmas::added_steps))]
pub(crate) fn put_verb_text(
    out: &mut TextOutput,
    verb: BacktrackingControlVerb,
) -> Result<(), AllocError>
    ensures { OnOk result (Added out.old out.new (spec.verb_text verb)) }
{
    out.put('*')?;
    put_ascii(out, verb.word())
}

/// Writes a verb.
#[tactic(auto, using(crate::proofs::OutputLemmas::added_steps))]
fn put_verb(out: &mut TextOutput, verb: BacktrackingControlVerb) -> Result<(), AllocError>
    ensures { OnOk result (Added out.old out.new (spec.parenthesized (spec.verb_text verb))) }
{
    out.put('(')?;
    put_verb_text(out, verb)?;
    out.put(')')
}

/// Writes a condition on a group that is not the condition of a Conditional.
#[tactic(auto, using(crate::proofs::OutputLemmas::added_steps))]
fn put_condition_alone(
    out: &mut TextOutput,
    names: &GroupNames,
    group: usize,
    level: Option<isize>,
) -> Result<(), AllocError>
    ensures { (m : GroupInfo) → AreGroupNames names.now m → OnOk result (Added out.old out.new
        (codes "(?" ++ (spec.parenthesized (reference.target_text m group level) ++ codes ")"))) }
{
    put_ascii(out, "(?(")?;
    put_target(out, names, group, level)?;
    put_ascii(out, "))")
}

/// Writes a leaf once its flags are set, and nothing for a tree that holds others.
#[tactic(auto, using(crate::proofs::OutputLemmas::added_steps))]
pub(crate) fn put_leaf(
    out: &mut TextOutput,
    names: &GroupNames,
    leaf: &Expr,
    context: &Context,
) -> Result<(), AllocError>
    ensures { (m : GroupInfo) (k : Known) (h : spec.Context) (l : List Needs) → AreGroupNames names.now m →
        IsContext k context.now h l → OnOk result (Added out.old out.new (leaf_text_of m (view leaf.now) h)) }
{
    match leaf {
        Expr::Any { newline, crlf } => put_any(out, *newline, *crlf, context.flags),
        Expr::Assertion(assertion) => put_assertion(out, *assertion, context.flags),
        Expr::GeneralNewline { .. } => put_ascii(out, r"\R"),
        Expr::Literal { val, casei } => put_literal(out, val.as_str(), *casei, context.flags),
        Expr::LiteralBytes { bytes } => put_bytes(out, bytes.as_slice()),
        Expr::Delegate { inner, casei } => put_delegate(out, inner.as_str(), *casei, context.flags),
        Expr::KeepOut => put_ascii(out, r"\K"),
        Expr::ContinueFromPreviousMatchEnd => put_ascii(out, r"\G"),
        Expr::BacktrackingControlVerb(verb) => put_verb(out, *verb),
        Expr::Absent(Absent::Clear) => put_ascii(out, "(?~|)"),
        Expr::Backref { group, .. } => put_backref(out, names, *group, context.opened),
        Expr::BackrefWithRelativeRecursionLevel {
            group,
            relative_level,
            ..
        } => put_backref_at_level(out, names, *group, *relative_level, context.opened),
        Expr::BackrefExistsCondition {
            group,
            relative_recursion_level,
        } => put_condition_alone(out, names, *group, *relative_recursion_level),
        Expr::SubroutineCall(group) => put_call(out, names, *group, context.opened),
        Expr::AstNode(node, _) => put_unresolved(out, node),
        Expr::Empty
        | Expr::Concat(_)
        | Expr::Alt(_)
        | Expr::Group(_)
        | Expr::LookAround(..)
        | Expr::Repeat { .. }
        | Expr::AtomicGroup(_)
        | Expr::Conditional { .. }
        | Expr::Absent(Absent::Repeater(_))
        | Expr::Absent(Absent::Expression { .. })
        | Expr::Absent(Absent::Stopper(_))
        | Expr::DefineGroup { .. } => Ok(()),
    }
}
