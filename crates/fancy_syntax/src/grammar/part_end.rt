//! The end of a part: its closing parenthesis, and the tree that its contents become.
ghost use Rattle.std.specs.Prelude.{◌≡◌, ◌<◌, true, length, chars, IfOk, OnOk, MatchResult, None};
ghost use Rattle.fancy_lex.specs.Characters.{code};
ghost use Rattle.fancy_lex.specs.Text.{reach_of, strip};
ghost use Rattle.fancy_grammar.specs.State.{ends};
ghost use Rattle.fancy_grammar.specs.Grammar as spec;
ghost use Rattle.fancy_syntax.specs.Log.{Log};
ghost use Rattle.fancy_syntax.specs.Machine as machine;
ghost use Rattle.fancy_syntax.specs.Machine.{ended_with, part_of, part_recorded};
ghost use Rattle.fancy_syntax.specs.Parsed.{state, Turns};
ghost use Rattle.fancy_grammar.specs.Errors.{IsErrorAmong};
ghost use Rattle.fancy_grammar.specs.State as states;
ghost use Rattle.fancy_grammar.specs.Tree.{Tree};
ghost use Rattle.fancy_syntax.specs.View.{view};

use crate::expr::{Absent, Expr};
use crate::grammar::conditional::{clear_or_stopper, conditional, is_condition};
use crate::grammar::error::general;
use crate::grammar::frame::OpenPart;
use crate::grammar::group::kind::enclose;
use crate::grammar::spanning::Spanning;
use crate::grammar::state::State;
use fancy_lex::error::{ParseError, ReadError};
use fancy_lex::text::{AT_END, byte_len, next, reach};
use std::alloc::{AllocError, Global};
use std::mem;

/// Reads the closing parenthesis of the part, and turns the tree of its contents into that of the part.
///
/// The error is GeneralParseError if a conditional lacks a body that it needs; otherwise that of `close_paren`.
pub(crate) fn end_part<S: Spanning>(
    alloc: Global,
    open_part: OpenPart,
    tree: &mut Expr,
    current: &mut State,
    spans: &mut S,
) -> Result<(), ReadError>
    requires last { ends (chars current.old.rest.now) ≡ true }
    requires no_bar { strip (code "|") (chars current.old.rest.now) ≡ None }
    ensures value { Turns result (view tree.new) (state current.new)
        (ended_with open_part.entry (view tree.old) (state current.old)) }
    ensures shorter { IfOk result (λ _. length current.new.rest.now < length current.old.rest.now) }
    ensures spans { (l : Log) → S.records spans.old l → OnOk result (S.records spans.new (part_recorded
        (part_of open_part.entry) (view tree.old) (reach_of (chars current.old.rest.now))
        (reach_of (chars current.new.rest.now)) l)) }
{
    let paren = reach(current.rest);
    read_end(alloc, &open_part, current)?;
    spans.end_part(&open_part, tree, paren, current.rest)?;
    Ok(node_of_part(alloc, open_part, tree)?)
}

/// Reads the closing parenthesis of the open part, whatever its tree is. The errors are those of `end_part`.
fn read_end(alloc: Global, open_part: &OpenPart, current: &mut State) -> Result<(), ReadError>
    requires last { ends (chars current.old.rest.now) ≡ true }
    requires no_bar { strip (code "|") (chars current.old.rest.now) ≡ None }
    ensures value { (r : Tree) → MatchResult result
        (λ _. ended_with open_part.now r (state current.old) ≡
        states.done (machine.made_of open_part.now r) (state current.new))
        (λ e. IsErrorAmong e (λ o. ended_with open_part.now r (state current.old) ≡ o)) }
    ensures shorter { IfOk result (λ _. length current.new.rest.now < length current.old.rest.now) }
{
    if lacks_body(open_part, current.rest) {
        return Err(general(alloc, NO_BODY, reach(current.rest)));
    }
    close_paren(current)
}

/// Whether the open part is the body of a conditional, has no byte before `text`, and may not be empty, since its
/// condition is not on a group.
fn lacks_body(open_part: &OpenPart, text: &str) -> bool
    ensures { (s : states.State) → s.rest ≡ chars text.now → result ≡ machine.lacks_body (part_of open_part.now) s }
{
    match open_part {
        OpenPart::Body { condition, left } => byte_len(text) == *left && !is_condition(condition),
        _ => false,
    }
}

/// Turns the tree of the contents of the part into that of the part. Most parts are groups: this saves each of them the
/// locals of the others.
#[inline(always)]
fn node_of_part(alloc: Global, open_part: OpenPart, tree: &mut Expr) -> Result<(), AllocError>
    ensures { OnOk result (view tree.new ≡ machine.made_of open_part.entry (view tree.old)) }
{
    match open_part {
        OpenPart::Group { kind, reach } => enclose(alloc, kind, reach, tree),
        other => node_of_any_part(alloc, other, tree),
    }
}

/// The same without the shortcut.
#[inline(never)]
fn node_of_any_part(alloc: Global, open_part: OpenPart, tree: &mut Expr) -> Result<(), AllocError>
    ensures { OnOk result (view tree.new ≡ machine.made_of open_part.entry (view tree.old)) }
{
    match open_part {
        OpenPart::Top | OpenPart::Condition => Ok(()),
        OpenPart::Group { kind, reach } => enclose(alloc, kind, reach, tree),
        OpenPart::Body { condition, .. } => {
            let body = mem::replace(tree, Expr::Empty);
            *tree = conditional(alloc, condition, body)?;
            Ok(())
        }
        OpenPart::First => {
            let branch = mem::replace(tree, Expr::Empty);
            *tree = clear_or_stopper(alloc, branch)?;
            Ok(())
        }
        OpenPart::Second(absent) => {
            let exp = Box::new(alloc, mem::replace(tree, Expr::Empty))?;
            *tree = Expr::Absent(Absent::Expression { absent, exp });
            Ok(())
        }
    }
}

/// The message of a conditional without a body.
const NO_BODY: &str =
    "expected conditional to be a backreference or at least an expression for when the condition is true";

/// Reads the closing parenthesis, where neither a piece nor a bar follows. UnclosedOpenParen at the end of the text.
fn close_paren(current: &mut State) -> Result<(), ReadError>
    requires last { ends (chars current.old.rest.now) ≡ true }
    requires no_bar { strip (code "|") (chars current.old.rest.now) ≡ None }
    ensures value { (r : Tree) → MatchResult result (λ _. spec.closed r (state current.old) ≡
        states.done r (state current.new)) (λ e. IsErrorAmong e (λ o. spec.closed r (state current.old) ≡ o)) }
    ensures shorter { IfOk result (λ _. length current.new.rest.now < length current.old.rest.now) }
{
    let Some((_, rest)) = next(current.rest) else {
        return Err(ReadError::At(AT_END, ParseError::UnclosedOpenParen));
    };
    current.rest = rest;
    Ok(())
}
