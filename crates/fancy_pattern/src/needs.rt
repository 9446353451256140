//! What a tree needs of the flags that a text sets.
ghost use Rattle.std.specs.Prelude.{◌≡◌, Bool, chars, ◌++◌, Decides, IfOk, OnOk};
ghost use Rattle.std.specs.List.{list_all};
ghost use Rattle.fancy_grammar.specs.Label.{any, literal, delegate};
ghost use Rattle.fancy_grammar.specs.PatternNeeds as spec;
ghost use Rattle.fancy_grammar.specs.PatternWalk.{needs_alone, needs_listed, all_listed};
ghost use Rattle.fancy_grammar.specs.Tree.{trees_of};
ghost use Rattle.fancy_syntax.specs.View.{view, views};
ghost use Rattle.fancy_pattern.specs.ContextViews.{AreMet};

use crate::separator::is_text;
use fancy_grammar::needs::{Need, Needs};
use fancy_lex::flags::Flags;
use fancy_lex::text::next;
use fancy_syntax::expr::{Assertion, Expr};
use std::alloc::AllocError;

/// No needs.
pub(crate) fn no_needs() -> Needs
    ensures { result ≡ spec.no_needs }
{
    Needs {
        casei: Need::Free,
        multi: Need::Free,
        dotnl: Need::Free,
        crlf: Need::Free,
    }
}

/// The case flag with this value.
fn needs_case(casei: bool) -> Needs
    ensures { result ≡ spec.needs_case casei }
{
    Needs {
        casei: Need::Fixed(casei),
        ..no_needs()
    }
}

/// Multi-line mode, with this CRLF flag.
fn needs_line(crlf: bool) -> Needs
    ensures { result ≡ spec.needs_line crlf }
{
    Needs {
        multi: Need::Fixed(true),
        crlf: Need::Fixed(crlf),
        ..no_needs()
    }
}

/// Whether each character represents itself after a backslash, with its case kept, whatever the flags.
fn are_kept_by_backslash(text: &str, oniguruma_mode: bool) -> bool
    ensures { result ≡ list_all (spec.is_kept_by_backslash oniguruma_mode) (chars text.now) }
{
    let mut rest = text;
    while let Some((c, after)) = next(rest) {
        if c.is_ascii_alphanumeric() || !oniguruma_mode && (c == '<' || c == '>') {
            return false;
        }
        rest = after;
    }
    true
}

/// Whether the text is the class that `\h` or `\H` is read as.
fn is_hex_class(text: &str) -> bool
    ensures { result ≡ spec.is_hex_class (chars text.now) }
{
    is_text(text, "[0-9A-Fa-f]") || is_text(text, "[^0-9A-Fa-f]")
}

/// What an assertion needs.
fn assertion_needs(assertion: Assertion) -> Needs
    ensures { result ≡ spec.assertion_needs assertion }
{
    if let Assertion::StartLine { crlf }
    | Assertion::StartLineOniguruma { crlf }
    | Assertion::EndLine { crlf } = assertion
    {
        return needs_line(crlf);
    }
    if let Assertion::EndTextIgnoreTrailingNewlines { crlf } = assertion {
        return Needs {
            crlf: Need::Fixed(crlf),
            ..no_needs()
        };
    }
    no_needs()
}

/// The flags of a dot with these fields.
fn needs_dot(newline: bool, crlf: bool) -> Needs
    ensures { result ≡ spec.needs_dot newline crlf }
{
    Needs {
        dotnl: Need::Fixed(newline),
        crlf: Need::Fixed(crlf),
        ..no_needs()
    }
}

/// What an Any needs.
fn any_needs(newline: bool, crlf: bool) -> Needs
    ensures { (o : Bool) → result ≡ spec.leaf_needs o (any newline crlf) }
{
    if newline == crlf {
        no_needs()
    } else {
        needs_dot(newline, crlf)
    }
}

/// What a Literal needs.
fn literal_needs(text: &str, casei: bool, oniguruma_mode: bool) -> Needs
    ensures { result ≡ spec.leaf_needs oniguruma_mode (literal (chars text.now) casei) }
{
    if !casei && are_kept_by_backslash(text, oniguruma_mode) {
        no_needs()
    } else {
        needs_case(casei)
    }
}

/// What a Delegate needs.
fn delegate_needs(text: &str, casei: bool) -> Needs
    ensures { (o : Bool) → result ≡ spec.leaf_needs o (delegate (chars text.now) casei) }
{
    if !casei && is_hex_class(text) {
        no_needs()
    } else {
        needs_case(casei)
    }
}

/// What a leaf needs; nothing for a tree that holds others.
fn leaf_needs(tree: &Expr, oniguruma_mode: bool) -> Needs
    ensures { result ≡ needs_alone oniguruma_mode (view tree.now) }
{
    if let Expr::Literal { val, casei } = tree {
        return literal_needs(val.as_str(), *casei, oniguruma_mode);
    }
    if let Expr::Delegate { inner, casei } = tree {
        return delegate_needs(inner.as_str(), *casei);
    }
    if let Expr::Backref { casei, .. }
    | Expr::BackrefWithRelativeRecursionLevel { casei, .. } = tree
    {
        return needs_case(*casei);
    }
    if let Expr::Any { newline, crlf } = tree {
        return any_needs(*newline, *crlf);
    }
    if let Expr::Assertion(assertion) = tree {
        return assertion_needs(*assertion);
    }
    no_needs()
}

/// The first of the two needs that is not free.
fn first(one: Need, other: Need) -> Need
    ensures { result ≡ spec.first one other }
{
    match one {
        Need::Free => other,
        _ => one,
    }
}

/// Adds the other need, which follows: the first of the two that is not free.
#[inline(always)]
#[tactic(auto, using(crate::proofs::NeedsWalk::first_free))]
fn join_first(one: &mut Need, other: Need)
    ensures { one.new ≡ spec.first one.old other }
{
    match other {
        Need::Free => {}
        _ => *one = first(*one, other),
    }
}

/// The same for each flag.
fn join_first_needs(one: &mut Needs, other: &Needs)
    ensures { one.new ≡ spec.joined spec.first one.old other.now }
{
    join_first(&mut one.casei, other.casei);
    join_first(&mut one.multi, other.multi);
    join_first(&mut one.dotnl, other.dotnl);
    join_first(&mut one.crlf, other.crlf);
}

/// What both need together.
fn both(one: Need, other: Need) -> Need
    ensures { result ≡ spec.both one other }
{
    match (one, other) {
        (Need::Free, _) => other,
        (_, Need::Free) => one,
        (Need::Fixed(a), Need::Fixed(b)) if a == b => one,
        _ => Need::Torn,
    }
}

/// Adds the other need: what both need together.
#[inline(always)]
#[tactic(auto, using(crate::proofs::NeedsWalk::both_free))]
fn join_both(one: &mut Need, other: Need)
    ensures { one.new ≡ spec.both one.old other }
{
    match other {
        Need::Free => {}
        _ => *one = both(*one, other),
    }
}

/// The same for each flag.
fn join_both_needs(one: &mut Needs, other: &Needs)
    ensures { one.new ≡ spec.joined spec.both one.old other.now }
{
    join_both(&mut one.casei, other.casei);
    join_both(&mut one.multi, other.multi);
    join_both(&mut one.dotnl, other.dotnl);
    join_both(&mut one.crlf, other.crlf);
}

/// What a tree needs.
#[derive(Clone, Copy)]
pub(crate) struct TreeNeeds {
    /// For each flag, the first need of its leaves that is not free.
    pub(crate) first: Needs,
    /// What all leaves in it need together.
    pub(crate) common: Needs,
}

impl TreeNeeds {
    /// Adds what a following tree needs. It is borrowed, and the call is not inlined, so that its bytes are not moved
    /// one by one.
    #[inline(never)]
    fn join(&mut self, below: &TreeNeeds)
        ensures first { self.new.first ≡ spec.joined spec.first self.old.first below.now.first }
        ensures common { self.new.common ≡ spec.joined spec.both self.old.common below.now.common }
    {
        join_first_needs(&mut self.first, &below.first);
        join_both_needs(&mut self.common, &below.common);
    }
}

/// Adds the needs of each node of the tree, in preorder: for each flag, the first need of its leaves that is not free.
/// Returns what the tree needs.
pub(crate) fn push_needs(
    list: &mut Vec<Needs>,
    tree: &Expr,
    oniguruma_mode: bool,
) -> Result<TreeNeeds, AllocError>
    ensures first { IfOk result (λ n. n.first ≡ spec.needs spec.first oniguruma_mode (view tree.now)) }
    ensures common { IfOk result (λ n. n.common ≡ spec.needs spec.both oniguruma_mode (view tree.now)) }
    ensures list { OnOk result (list.new.items ≡ list.old.items ++ needs_listed oniguruma_mode (view tree.now)) }
{
    let at = list.len();
    let alone = leaf_needs(tree, oniguruma_mode);
    list.push(alone)?;
    let mut needs = TreeNeeds {
        first: alone,
        common: alone,
    };
    if tree.is_leaf_node() {
        return Ok(needs);
    }
    let mut children = tree.children_iter();
    while let Some(child) = children.next() {
        let below = push_needs(list, child, oniguruma_mode)?;
        needs.join(&below);
    }
    if let Some(slot) = list.get_mut(at) {
        *slot = needs.first;
    }
    Ok(needs)
}

/// The flag with the value that is needed, or else as it is.
fn fixed_or(flag: bool, need: Need) -> bool
    ensures { result ≡ spec.fixed_or flag need }
{
    match need {
        Need::Fixed(on) => on,
        _ => flag,
    }
}

/// Whether the flag has the value that is needed.
fn is_met(flag: bool, need: Need) -> bool
    ensures { Decides result (spec.fixed_or flag need ≡ flag) }
{
    match need {
        Need::Fixed(on) => on == flag,
        _ => true,
    }
}

/// Whether the flags have the values that are needed.
pub(crate) fn are_met(flags: Flags, needs: Needs) -> bool
    ensures { Decides result (spec.with_needs flags needs ≡ flags) }
{
    is_met(flags.casei, needs.casei)
        && is_met(flags.multi, needs.multi)
        && is_met(flags.dotnl, needs.dotnl)
        && is_met(flags.crlf, needs.crlf)
}

/// Whether the flags have the values that each leaf of the tree needs. Most leaves need only the case flag: this saves a
/// call for each that needs it as it is.
#[cycle(are_met)]
#[inline(always)]
pub(crate) fn are_met_by_leaves(tree: &Expr, flags: &Flags) -> bool
    ensures { Decides result (AreMet flags.now (needs_listed flags.now.oniguruma_mode (view tree.now))) }
{
    match tree {
        Expr::Literal { casei, .. } if *casei == flags.casei => true,
        Expr::Delegate { casei, .. } if *casei == flags.casei => true,
        _ => are_met_by_any(tree, flags),
    }
}

/// The same, without the shortcut. The flags are borrowed, so that their bytes are not moved one by one.
#[cycle(are_met)]
#[inline(never)]
fn are_met_by_any(tree: &Expr, flags: &Flags) -> bool
    ensures { Decides result (AreMet flags.now (needs_listed flags.now.oniguruma_mode (view tree.now))) }
{
    if let Expr::Repeat { child, .. } = tree {
        return are_met_by_leaves(child, flags);
    }
    if let Expr::Group(child) = tree {
        return are_met_by_leaves(child, flags);
    }
    if tree.is_leaf_node() {
        return are_met(*flags, leaf_needs(tree, flags.oniguruma_mode));
    }
    if let Expr::Concat(pieces) = tree {
        return are_met_by_all(pieces, flags);
    }
    let mut children = tree.children_iter();
    while let Some(child) = children.next() {
        if !are_met_by_leaves(child, flags) {
            return false;
        }
    }
    true
}

/// The same, for each tree of a list.
#[cycle(are_met)]
#[inline(always)]
fn are_met_by_all(trees: &[Expr], flags: &Flags) -> bool
    ensures { Decides result (AreMet flags.now (all_listed flags.now.oniguruma_mode (trees_of (views trees.now)))) }
{
    for tree in trees {
        if !are_met_by_leaves(tree, flags) {
            return false;
        }
    }
    true
}

/// The flags with the values that are needed.
pub(crate) fn with_needs(flags: Flags, needs: Needs) -> Flags
    ensures { result ≡ spec.with_needs flags needs }
{
    Flags {
        casei: fixed_or(flags.casei, needs.casei),
        multi: fixed_or(flags.multi, needs.multi),
        dotnl: fixed_or(flags.dotnl, needs.dotnl),
        crlf: fixed_or(flags.crlf, needs.crlf),
        ..flags
    }
}
