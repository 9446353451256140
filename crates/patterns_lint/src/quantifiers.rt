//! Quantifiers that are likely mistakes.
ghost use Rattle.std.specs.Prelude.{◌≡◌, ℕ, Bool, false, Some, None};
ghost use Rattle.fancy_grammar.specs.Tree.{Tree, repeat};
ghost use Rattle.fancy_syntax.specs.View.{view};
ghost use Rattle.lint_rules.specs.declared.problem.Problem.TheVariants as reported;
ghost use Rattle.lint_rules.specs.declared.rule.Rule.TheVariants as rule;
ghost use Rattle.pattern_matches.specs.Defined.{IsDefined};
ghost use Rattle.patterns_lint.specs.Empty.{HasEachEmptyMatch, HasNoEmptyMatch, HasOnlyEmptyMatches};
ghost use Rattle.patterns_lint.specs.Quantifiers as spec;

use crate::empty::{can_match_empty, has_group, matches_only_empty};
use crate::neighbours::is_optional;
use fancy_syntax::expr::Expr;
use lint_rules::problem::Problem;
use lint_rules::rule::Rule;

/// What the rules on quantifiers know of a node from what is around it.
#[derive(Clone, Copy)]
pub(crate) struct Surroundings {
    /// Whether the pattern has calls, so that a group may also be matched where it is called.
    pub(crate) has_calls: bool,
    /// Whether the node is a branch beside one that differs from it in the count alone, or a piece beside one with a fixed count
    /// above 1.
    pub(crate) has_other_count: bool,
    /// Whether the node is all of an atomic group, as if its quantifier is possessive.
    pub(crate) is_atomic: bool,
    /// Whether nothing follows the node in the pattern, or in a group that is left at its first match.
    pub(crate) is_at_end: bool,
}

/// Whether what is repeated matches nothing but the empty text. An optional one that holds a group is no such case:
/// a condition may test later whether the group matched.
fn is_quantified_assertion(tree: &Expr) -> bool
    ensures { result ≡ spec.is_quantified_assertion (view tree.now) }
{
    let Expr::Repeat { child, hi, .. } = tree else {
        return false;
    };
    matches_only_empty(child) && !(*hi == 1 && has_group(child))
}

/// Whether it repeats without a limit what can match the empty text, and more. A possessive one is no such case: it tries
/// no other way.
fn is_empty_loop(tree: &Expr, around: Surroundings) -> bool
    ensures { result ≡ spec.is_empty_loop around (view tree.now) }
{
    let Expr::Repeat { child, hi, .. } = tree else {
        return false;
    };
    *hi == usize::MAX && can_match_empty(child) && !matches_only_empty(child) && !around.is_atomic
}

/// Whether it is lazy, and nothing follows it, so that it repeats only its minimum.
fn is_lazy_at_end(tree: &Expr, around: Surroundings) -> bool
    ensures { result ≡ spec.is_lazy_at_end around (view tree.now) }
{
    let Expr::Repeat { lo, hi, greedy, .. } = tree else {
        return false;
    };
    !*greedy && *lo < *hi && around.is_at_end && !around.has_calls
}

/// Whether it is lazy and may repeat zero times, and nothing follows it, so that it matches nothing.
fn is_empty_at_end(tree: &Expr, around: Surroundings) -> bool
    ensures { result ≡ spec.is_empty_at_end around (view tree.now) }
{
    is_lazy_at_end(tree, around) && is_optional(tree)
}

/// Whether its minimum is above its maximum.
fn is_invalid_quantifier(tree: &Expr) -> bool
    ensures { result ≡ spec.is_invalid_quantifier (view tree.now) }
{
    let Expr::Repeat { lo, hi, .. } = tree else {
        return false;
    };
    *hi < *lo
}

/// Whether it repeats exactly once. Beside another count it is no mistake.
fn is_useless_quantifier(tree: &Expr, around: Surroundings) -> bool
    ensures { result ≡ spec.is_useless_quantifier around (view tree.now) }
{
    let Expr::Repeat { lo: 1, hi: 1, .. } = tree else {
        return false;
    };
    !around.has_other_count
}

/// Whether one of the pieces is repeated a fixed number of times, more than once.
pub(crate) fn has_count_above_one(pieces: &[Expr]) -> bool {
    for piece in pieces {
        if let Expr::Repeat { lo, hi, .. } = piece
            && *lo == *hi
            && *lo > 1
        {
            return true;
        }
    }
    false
}

/// Whether it repeats zero times. Where there are calls, one on a group is none: it may define the group for them.
fn is_zero_quantifier(tree: &Expr, around: Surroundings) -> bool
    ensures { result ≡ spec.is_zero_quantifier around (view tree.now) }
{
    let Expr::Repeat {
        child,
        lo: 0,
        hi: 0,
        ..
    } = tree
    else {
        return false;
    };
    !(around.has_calls && has_group(child))
}

/// What is wrong with the node's quantifier.
pub(crate) fn quantifier_problem(tree: &Expr, around: Surroundings) -> Option<Problem<'static>>
    ensures form { result ≡ spec.quantifier_problem around (view tree.now) }
    ensures assertion { (unicode : Bool) → result ≡ Some (reported.Plain rule.QuantifiedAssertion) →
        IsDefined unicode (view tree.now) → HasOnlyEmptyMatches unicode (view tree.now) }
    ensures empty { (unicode : Bool) → result ≡ Some reported.EmptyAtEnd → HasEachEmptyMatch unicode (view tree.now) }
    ensures no_loop { (unicode : Bool) (t : Tree) (lo : ℕ) (greedy : Bool) → result ≡ None →
        view tree.now ≡ repeat t lo spec.no_limit greedy → around.is_atomic ≡ false → IsDefined unicode t →
        HasNoEmptyMatch unicode t }
{
    if is_invalid_quantifier(tree) {
        Some(Problem::Plain(Rule::InvalidQuantifier))
    } else if is_zero_quantifier(tree, around) {
        Some(Problem::Plain(Rule::ZeroQuantifier))
    } else if is_useless_quantifier(tree, around) {
        Some(Problem::Plain(Rule::UselessQuantifier))
    } else if is_quantified_assertion(tree) {
        Some(Problem::Plain(Rule::QuantifiedAssertion))
    } else if is_empty_loop(tree, around) {
        Some(Problem::Plain(Rule::EmptyLoop))
    } else if is_empty_at_end(tree, around) {
        Some(Problem::EmptyAtEnd)
    } else if is_lazy_at_end(tree, around) {
        Some(Problem::Plain(Rule::LazyAtEnd))
    } else {
        None
    }
}
