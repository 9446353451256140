//! The walk over a tree that gives its text to a sink.
#![tactic(auto, using(crate::proofs::PrintLemmas::sink_steps))]

ghost use Rattle.std.specs.Prelude.{◌≡◌, ◌++◌, codes, if◌then◌else◌, [], nat_lt, true, chars};
ghost use Rattle.std.specs.List.{list_all};
ghost use Rattle.fancy_grammar.specs.Quote.{quotes, quantifier};
ghost use Rattle.fancy_syntax.specs.Sinks.{CanTake, Takes};
ghost use Rattle.fancy_grammar.specs.Printed.{printed, operand_text, printed_all, printed_branches, grouped, caseless};
ghost use Rattle.fancy_grammar.specs.Tree.{trees_of};
ghost use Rattle.fancy_syntax.specs.View.{view, views};

use crate::expr::Expr;
use crate::print::fixed::{any_text, assertion_text};
use crate::print::repeated::is_long;
use crate::print::sink::Sink;
use crate::print::{BRANCH, OPERAND, PIECE, WHOLE};

/// Puts a text of ASCII characters, if asked for.
#[inline]
fn put_if<S: Sink>(sink: &mut S, asked: bool, text: &str)
    requires ascii { list_all (λ b. nat_lt b 128) text.now ≡ true }
    requires reserved { CanTake S.limit sink.old (if asked then text.now else []) }
    ensures { Takes S.holds S.limit sink.old sink.new (if asked then text.now else []) }
{
    if asked {
        sink.put_ascii(text);
    }
}

// Only the calls for rare nodes and for nodes that hold trees save registers: none of them is inlined into the call for
// a leaf.

/// Puts a Literal, in a group of flags if it ignores case.
#[inline(never)]
fn put_literal<S: Sink>(sink: &mut S, val: &str, casei: bool)
    requires { CanTake S.limit sink.old (caseless casei (quotes (chars val.now))) }
    ensures { Takes S.holds S.limit sink.old sink.new (caseless casei (quotes (chars val.now))) }
{
    put_if(sink, casei, "(?i:");
    sink.put_quotes(val);
    put_if(sink, casei, ")");
}

/// Puts a Delegate, in a group of flags if it ignores case.
#[inline(never)]
fn put_delegate<S: Sink>(sink: &mut S, inner: &str, casei: bool)
    requires { CanTake S.limit sink.old (caseless casei (chars inner.now)) }
    ensures { Takes S.holds S.limit sink.old sink.new (caseless casei (chars inner.now)) }
{
    put_if(sink, casei, "(?i:");
    sink.put_text(inner);
    put_if(sink, casei, ")");
}

/// Puts a tree's text.
#[cycle(write)]
#[inline(always)]
pub(super) fn put_tree<S: Sink>(sink: &mut S, tree: &Expr, precedence: u8)
    requires { CanTake S.limit sink.old (printed (view tree.now) precedence) }
    ensures { Takes S.holds S.limit sink.old sink.new (printed (view tree.now) precedence) }
{
    match tree {
        Expr::Literal { val, casei: false } => sink.put_quotes(val.as_str()),
        _ => put_node(sink, tree, precedence),
    }
}

/// Puts the text of any node.
#[cycle(write)]
#[inline(never)]
fn put_node<S: Sink>(sink: &mut S, tree: &Expr, precedence: u8)
    requires { CanTake S.limit sink.old (printed (view tree.now) precedence) }
    ensures { Takes S.holds S.limit sink.old sink.new (printed (view tree.now) precedence) }
{
    match tree {
        Expr::Any { newline, crlf } => sink.put_fixed(any_text(*newline, *crlf)),
        Expr::Assertion(assertion) => sink.put_fixed(assertion_text(*assertion)),
        Expr::Literal { val, casei } => put_literal(sink, val.as_str(), *casei),
        Expr::Delegate { inner, casei } => put_delegate(sink, inner.as_str(), *casei),
        Expr::Concat(children) => put_concat(sink, children, precedence > BRANCH),
        Expr::Alt(children) => put_alt(sink, children, precedence > WHOLE),
        Expr::Group(child) => put_group(sink, child),
        Expr::Repeat {
            child,
            lo,
            hi,
            greedy,
        } => put_repeat(sink, child, *lo, *hi, *greedy, precedence > PIECE),
        Expr::Empty
        | Expr::GeneralNewline { .. }
        | Expr::LiteralBytes { .. }
        | Expr::LookAround(..)
        | Expr::Backref { .. }
        | Expr::BackrefWithRelativeRecursionLevel { .. }
        | Expr::AtomicGroup(_)
        | Expr::KeepOut
        | Expr::ContinueFromPreviousMatchEnd
        | Expr::BackrefExistsCondition { .. }
        | Expr::Conditional { .. }
        | Expr::SubroutineCall(_)
        | Expr::BacktrackingControlVerb(_)
        | Expr::Absent(_)
        | Expr::DefineGroup { .. }
        | Expr::AstNode(..) => sink.put_fixed(""),
    }
}

/// Puts a Concat, with the group around it if it needs one.
#[cycle(write)]
#[inline(never)]
fn put_concat<S: Sink>(sink: &mut S, trees: &[Expr], is_grouped: bool)
    requires { CanTake S.limit sink.old (grouped is_grouped (printed_all (trees_of (views trees.now)))) }
    ensures { Takes S.holds S.limit sink.old sink.new (grouped is_grouped (printed_all (trees_of (views trees.now)))) }
{
    put_if(sink, is_grouped, "(?:");
    put_all(sink, trees);
    put_if(sink, is_grouped, ")");
}

/// Puts the pieces of a Concat.
#[cycle(write)]
fn put_all<S: Sink>(sink: &mut S, trees: &[Expr])
    requires { CanTake S.limit sink.old (printed_all (trees_of (views trees.now))) }
    ensures { Takes S.holds S.limit sink.old sink.new (printed_all (trees_of (views trees.now))) }
{
    for tree in trees {
        put_tree(sink, tree, PIECE);
    }
}

/// Puts an Alt, with the group around it if it needs one.
#[cycle(write)]
#[inline(never)]
fn put_alt<S: Sink>(sink: &mut S, trees: &[Expr], is_grouped: bool)
    requires { CanTake S.limit sink.old (grouped is_grouped (printed_branches (trees_of (views trees.now)))) }
    ensures { Takes S.holds S.limit sink.old sink.new
        (grouped is_grouped (printed_branches (trees_of (views trees.now)))) }
{
    put_if(sink, is_grouped, "(?:");
    put_branches(sink, trees);
    put_if(sink, is_grouped, ")");
}

/// Puts the branches of an Alt, with a bar between two.
#[cycle(write)]
fn put_branches<S: Sink>(sink: &mut S, trees: &[Expr])
    requires { CanTake S.limit sink.old (printed_branches (trees_of (views trees.now))) }
    ensures { Takes S.holds S.limit sink.old sink.new (printed_branches (trees_of (views trees.now))) }
{
    for (i, tree) in trees.iter().enumerate() {
        put_branch(sink, i > 0, tree);
    }
}

/// Puts a branch, after a bar if asked for.
#[cycle(write)]
#[inline(always)]
fn put_branch<S: Sink>(sink: &mut S, has_bar: bool, tree: &Expr)
    requires { CanTake S.limit sink.old ((if has_bar then codes "|" else []) ++ printed (view tree.now) 1) }
    ensures { Takes S.holds S.limit sink.old sink.new
        ((if has_bar then codes "|" else []) ++ printed (view tree.now) 1) }
{
    put_if(sink, has_bar, "|");
    put_tree(sink, tree, BRANCH);
}

/// Puts a tree in the parentheses of a capturing group.
#[cycle(write)]
#[inline(never)]
fn put_group<S: Sink>(sink: &mut S, tree: &Expr)
    requires { CanTake S.limit sink.old (codes "(" ++ (printed (view tree.now) 0 ++ codes ")")) }
    ensures { Takes S.holds S.limit sink.old sink.new (codes "(" ++ (printed (view tree.now) 0 ++ codes ")")) }
{
    sink.put('(');
    put_tree(sink, tree, WHOLE);
    sink.put(')');
}

/// Puts a Repeat, with the group around it if it needs one.
#[cycle(write)]
#[inline(never)]
fn put_repeat<S: Sink>(
    sink: &mut S,
    child: &Expr,
    lo: usize,
    hi: usize,
    greedy: bool,
    is_grouped: bool,
)
    requires { CanTake S.limit sink.old
        (grouped is_grouped (operand_text (view child.now) ++ quantifier lo hi greedy)) }
    ensures { Takes S.holds S.limit sink.old sink.new
        (grouped is_grouped (operand_text (view child.now) ++ quantifier lo hi greedy)) }
{
    put_if(sink, is_grouped, "(?:");
    put_quantified(sink, child, lo, hi, greedy);
    put_if(sink, is_grouped, ")");
}

/// Puts the operand of a quantifier, and the quantifier.
#[cycle(write)]
#[inline]
fn put_quantified<S: Sink>(sink: &mut S, child: &Expr, lo: usize, hi: usize, greedy: bool)
    requires { CanTake S.limit sink.old (operand_text (view child.now) ++ quantifier lo hi greedy) }
    ensures { Takes S.holds S.limit sink.old sink.new (operand_text (view child.now) ++ quantifier lo hi greedy) }
{
    put_repeated(sink, child);
    sink.put_quantifier(lo, hi, greedy);
}

/// Puts the operand of a quantifier.
#[cycle(write)]
#[inline]
fn put_repeated<S: Sink>(sink: &mut S, tree: &Expr)
    requires { CanTake S.limit sink.old (operand_text (view tree.now)) }
    ensures { Takes S.holds S.limit sink.old sink.new (operand_text (view tree.now)) }
{
    let is_grouped = is_long(tree);
    put_if(sink, is_grouped, "(?:");
    put_tree(sink, tree, OPERAND);
    put_if(sink, is_grouped, ")");
}
