//! The start of an atom: a leaf, or the opening of a group.
ghost use Rattle.std.specs.Prelude.{◌≡◌, false, ◌+◌, ◌<◌, ◌≤◌, ◌^◌, ◌∷◌, [], length, chars, string_bytes, Some, IfOk};
ghost use Rattle.fancy_lex.specs.Characters.{code};
ghost use Rattle.fancy_lex.specs.Class as classes;
ghost use Rattle.fancy_lex.specs.Escape as escapes;
ghost use Rattle.fancy_lex.specs.EscapeViews.{escape_of};
ghost use Rattle.fancy_grammar.specs.AtomStart as spec;
ghost use Rattle.fancy_lex.specs.Text.{Text, reach_of};
ghost use Rattle.fancy_grammar.specs.Depth.{max_depth};
ghost use Rattle.fancy_grammar.specs.Spans.{condition_text};
ghost use Rattle.fancy_grammar.specs.Tree.{delegate, literal};
ghost use Rattle.fancy_syntax.specs.Parsed.{state, GivesTree, Sees, IsBelow, StaysAtNothing, TakesBytes, IsSomething};
ghost use Rattle.fancy_syntax.specs.Parsed.{HasConditionAt};
ghost use Rattle.fancy_syntax.specs.View.{view};

use crate::expr::Expr;
use crate::grammar::atom_start::AtomStart;
use crate::grammar::group::after_paren;
use crate::grammar::reference::{backref, subroutine_call};
use crate::grammar::state::State;
use fancy_grammar::depth::MAX_DEPTH;
use fancy_lex::class::{class, push_delegate};
use fancy_lex::error::{ParseError, ReadError};
use fancy_lex::escape::{Assertion, Escaped, escape};
use fancy_lex::flags::Flags;
use fancy_lex::text::{next, reach};
use std::alloc::{AllocError, Global};

/// Reads the start of an atom: a whole leaf, or a group up to the start of its first part.
#[tactic(auto, unfolding(fancy_grammar::specs::AtomStart::atom_start))]
pub(crate) fn read_atom_start<'a>(
    alloc: Global,
    current: &mut State<'a>,
    depth: usize,
) -> Result<AtomStart<'a>, ReadError>
    requires depth { depth < max_depth }
    ensures value { Sees result (state current.new) (spec.atom_start depth (state current.old)) }
    ensures stays { IfOk result (λ a. StaysAtNothing a current.old current.new) }
    ensures shorter { IfOk result (λ a. TakesBytes a current.old.rest.now current.new.rest.now) }
    ensures below { IfOk result (λ a. IsBelow a depth) }
    ensures start { (t : Text) → condition_text (state current.old) ≡ Some t → IfOk result (λ a. HasConditionAt a (reach_of t)) }
{
    let Some((c, rest)) = next(current.rest) else {
        return Ok(AtomStart::Nothing);
    };
    if c == '(' {
        return read_opening(alloc, current, rest, depth);
    }
    if begins_no_atom(c) {
        return Ok(AtomStart::Nothing);
    }
    Ok(AtomStart::Read(leaf(alloc, c, current, rest)?))
}

/// Reads the opening of a group, from the parenthesis at the front, which `rest` follows, up to the start of its first
/// part.
#[tactic(auto, unfolding(fancy_grammar::specs::AtomStart::atom_start))]
fn read_opening<'a>(
    alloc: Global,
    current: &mut State<'a>,
    rest: &'a str,
    depth: usize,
) -> Result<AtomStart<'a>, ReadError>
    requires depth { depth < max_depth }
    requires front { chars current.old.rest.now ≡ code "(" ∷ chars rest.now }
    requires shorter { length rest.now < length current.old.rest.now }
    ensures value { Sees result (state current.new) (spec.atom_start depth (state current.old)) }
    ensures within { IfOk result (λ _. length current.new.rest.now < length current.old.rest.now) }
    ensures something { IfOk result (λ a. IsSomething a) }
    ensures below { IfOk result (λ _. depth + 1 < max_depth) }
    ensures start { (t : Text) → condition_text (state current.old) ≡ Some t → IfOk result (λ a. HasConditionAt a (reach_of t)) }
{
    if depth >= MAX_DEPTH - 1 {
        let paren = reach(current.rest);
        return Err(ReadError::At(paren, ParseError::RecursionExceeded));
    }
    current.rest = rest;
    after_paren(alloc, current)
}

/// Reads an atom of one character, which `rest` follows, an escape or a class.
fn leaf<'a>(
    alloc: Global,
    c: char,
    current: &mut State<'a>,
    rest: &'a str,
) -> Result<Expr, ReadError>
    requires front { chars current.old.rest.now ≡ c ∷ chars rest.now }
    requires shorter { length rest.now < length current.old.rest.now }
    ensures value { GivesTree result (state current.new) (spec.leaf_of (state current.old) c (chars rest.now)) }
    ensures within { IfOk result (λ _. length current.new.rest.now ≤ length rest.now) }
{
    current.rest = rest;
    let flags = current.flags;
    match c {
        '.' => Ok(Expr::Any {
            newline: flags.dotnl,
            crlf: flags.crlf,
        }),
        '^' => Ok(Expr::Assertion(start_anchor(flags))),
        '$' => Ok(Expr::Assertion(end_anchor(flags))),
        '\\' => escape_leaf(alloc, current),
        '[' => class_leaf(alloc, current),
        _ => Ok(literal(alloc, c, flags.casei)?),
    }
}

/// Reads an escape after its backslash.
fn escape_leaf(alloc: Global, current: &mut State) -> Result<Expr, ReadError>
    ensures value { GivesTree result (state current.new) (spec.leaf_outcome spec.leaf_node (state current.old)
        (escapes.escape current.old.flags false (chars current.old.rest.now))) }
    ensures within { IfOk result (λ _. length current.new.rest.now ≤ length current.old.rest.now) }
{
    let (escaped, rest) = escape(alloc, current.rest, current.flags, false)?;
    current.rest = rest;
    Ok(leaf_node(alloc, escaped)?)
}

/// Reads a class after its bracket.
fn class_leaf(alloc: Global, current: &mut State) -> Result<Expr, ReadError>
    ensures value { GivesTree result (state current.new) (spec.leaf_outcome (λ w. delegate w current.old.flags.casei)
        (state current.old) (classes.class current.old.flags (chars current.old.rest.now))) }
    ensures within { IfOk result (λ _. length current.new.rest.now ≤ length current.old.rest.now) }
{
    let (inner, rest) = class(alloc, current.rest, current.flags)?;
    current.rest = rest;
    let casei = current.flags.casei;
    Ok(Expr::Delegate { inner, casei })
}

/// The node of an escape's leaf.
#[inline(always)]
pub(crate) fn leaf_node(alloc: Global, leaf: Escaped) -> Result<Expr, AllocError>
    ensures { IfOk result (λ e. view e ≡ spec.leaf_node (escape_of leaf.entry)) }
{
    match leaf {
        Escaped::Literal { val, casei } => literal(alloc, val, casei),
        Escaped::LiteralBytes { byte } => Ok(Expr::LiteralBytes {
            bytes: vec![in alloc; byte]?,
        }),
        Escaped::Any { newline, crlf } => Ok(Expr::Any { newline, crlf }),
        Escaped::Assertion(assertion) => Ok(Expr::Assertion(assertion)),
        Escaped::GeneralNewline { unicode } => Ok(Expr::GeneralNewline { unicode }),
        Escaped::KeepOut => Ok(Expr::KeepOut),
        Escaped::ContinueFromPreviousMatchEnd => Ok(Expr::ContinueFromPreviousMatchEnd),
        Escaped::Delegate { inner: text, casei } => {
            // This capacity is enough for all but long names of properties.
            let mut inner = String::with_capacity(alloc, 16)?;
            push_delegate(&mut inner, text)?;
            Ok(Expr::Delegate { inner, casei })
        }
        Escaped::Backref { reference, casei } => backref(alloc, reference, casei),
        Escaped::SubroutineCall(call) => subroutine_call(alloc, call),
    }
}

/// The assertion that `^` represents: the start of the text, or of each line.
fn start_anchor(flags: Flags) -> Assertion
    ensures { result ≡ spec.start_anchor flags }
{
    let crlf = flags.crlf;
    if !flags.multi {
        Assertion::StartText
    } else if flags.oniguruma_mode {
        Assertion::StartLineOniguruma { crlf }
    } else {
        Assertion::StartLine { crlf }
    }
}

/// The assertion that `$` represents: the end of the text, or of each line.
fn end_anchor(flags: Flags) -> Assertion
    ensures { result ≡ spec.end_anchor flags }
{
    if flags.multi {
        Assertion::EndLine { crlf: flags.crlf }
    } else {
        Assertion::EndText
    }
}

/// Whether the character cannot begin an atom, so that the piece before it is Empty.
fn begins_no_atom(c: char) -> bool
    ensures { result ≡ spec.begins_no_atom c }
{
    c == '+' || c == '*' || c == '?' || c == '|' || c == ')'
}

/// The character as a literal.
#[inline]
pub(crate) fn literal(alloc: Global, c: char, casei: bool) -> Result<Expr, AllocError>
    ensures { IfOk result (λ e. view e ≡ literal (c ∷ []) casei) }
{
    let mut bytes = [0; 4];
    let val = copied(alloc, c.encode_utf8(&mut bytes))?;
    Ok(Expr::Literal { val, casei })
}

/// A copy of the text. Usually it is one byte, which is copied without a call if its length is known.
#[inline(always)]
fn copied(alloc: Global, text: &str) -> Result<String, AllocError>
    ensures ok { IfOk result (λ s. string_bytes s ≡ text.now) }
{
    if text.len() == 1 {
        return String::from_str(alloc, text);
    }
    String::from_str(alloc, text)
}
