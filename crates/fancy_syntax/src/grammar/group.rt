//! The openings of groups: what follows a parenthesis and a question mark or an asterisk.
ghost use Rattle.std.specs.Prelude.{◌≡◌, ◌∷◌, ◌<◌, ◌≤◌, length, chars, codes, ◌++◌, Some, None, IfOk, IfSome, option_map};
ghost use Rattle.std.specs.Prelude.{MatchResult};
ghost use Rattle.fancy_lex.specs.ErrorTable.{unknown_verb};
ghost use Rattle.fancy_lex.specs.Characters.{code};
ghost use Rattle.fancy_lex.specs.LayoutSteps.{past_layout};
ghost use Rattle.fancy_lex.specs.Text.{Text, reach_of, strip_word};
ghost use Rattle.std.specs.Option.{option_and_then};
ghost use Rattle.fancy_lex.specs.LetterSteps.{letters};
ghost use Rattle.fancy_lex.specs.GroupName as names;
ghost use Rattle.fancy_lex.specs.NameDelimiter.{delimiter_of};
ghost use Rattle.fancy_lex.specs.GroupReference as references;
ghost use Rattle.fancy_grammar.specs.AtomStart.{read, of_kind};
ghost use Rattle.fancy_grammar.specs.GroupKind as kind;
ghost use Rattle.fancy_grammar.specs.State.{at, skipped, after_skipped};
ghost use Rattle.fancy_grammar.specs.AtomStart as spec;
ghost use Rattle.fancy_syntax.specs.Parsed.{state, Sees, IsSomething, HasConditionAt};
ghost use Rattle.fancy_grammar.specs.Errors.{IsThisError};
ghost use Rattle.fancy_grammar.specs.Verb as verbs;

pub(crate) mod kind;

use crate::expr::{BacktrackingControlVerb, Expr, LookAround};
use crate::grammar::atom_start::AtomStart;
use crate::grammar::group::kind::GroupKind;
use crate::grammar::reference::{backref, condition, subroutine_call};
use crate::grammar::state::{State, skip_layout};
use fancy_lex::error::{ParseError, ReadError};
use fancy_lex::group_starts::names::{ClosingDelimiter, group_name};
use fancy_lex::group_starts::references::{
    begins_target, condition_target, named_call, named_reference,
};
use fancy_lex::group_starts::{Letters, flag_letters};
use fancy_lex::text::{AT_END, after, after_word, next, reach};
use std::alloc::Global;

/// Reads what follows a parenthesis: the kind of the group, if it is written there.
pub(crate) fn after_paren<'a>(
    alloc: Global,
    current: &mut State<'a>,
) -> Result<AtomStart<'a>, ReadError>
    ensures value { Sees result (state current.new) (after_skipped (skipped (state current.old))
        (spec.group_start (state current.old)) spec.error_start) }
    ensures within { length current.new.rest.now ≤ length current.old.rest.now }
    ensures something { IfOk result (λ a. IsSomething a) }
    ensures start { (t : Text) → option_and_then (strip_word (codes "?("))
        (past_layout current.old.flags.ignore_space (chars current.old.rest.now)) ≡ Some t → IfOk result (λ a. HasConditionAt a (reach_of t)) }
{
    current.rest = skip_layout(*current)?;
    let Some((c, rest)) = next(current.rest) else {
        return Ok(AtomStart::Group(GroupKind::Capture(None)));
    };
    if c == '?' {
        current.rest = rest;
        after_question(alloc, current)
    } else if c == '*' {
        let verb = read_verb(current, rest)?;
        Ok(AtomStart::Read(Expr::BacktrackingControlVerb(verb)))
    } else {
        Ok(AtomStart::Group(GroupKind::Capture(None)))
    }
}

/// Reads what follows a parenthesis and a question mark.
fn after_question<'a>(alloc: Global, current: &mut State<'a>) -> Result<AtomStart<'a>, ReadError>
    ensures value { Sees result (state current.new) (spec.after_question (state current.old) (chars current.old.rest.now)) }
    ensures within { length current.new.rest.now ≤ length current.old.rest.now }
    ensures something { IfOk result (λ a. IsSomething a) }
    ensures start { (t : Text) → chars current.old.rest.now ≡ code "(" ∷ t → IfOk result (λ a. HasConditionAt a (reach_of t)) }
{
    let Some((c, rest)) = next(current.rest) else {
        return read_flags(alloc, current);
    };
    match c {
        ':' => Ok(open_bare(current, rest)),
        '=' => Ok(open_look_around(current, rest, LookAround::LookAhead)),
        '!' => Ok(open_look_around(current, rest, LookAround::LookAheadNeg)),
        '<' => after_less(current, rest),
        '\'' => read_name(current, rest, ClosingDelimiter::Quote),
        'P' => after_p(alloc, current, rest),
        '~' => {
            current.rest = rest;
            after_tilde(current)
        }
        '>' => {
            current.rest = rest;
            Ok(AtomStart::Group(GroupKind::Atomic))
        }
        '(' => {
            current.rest = rest;
            read_condition(alloc, current)
        }
        _ => read_flags(alloc, current),
    }
}

/// The flag group without letters whose contents begin at the text: the most frequent kind of group.
fn open_bare<'a>(current: &mut State<'a>, inside: &'a str) -> AtomStart<'a>
    requires shorter { length inside.now ≤ length current.old.rest.now }
    requires colon { chars current.old.rest.now ≡ codes ":" ++ chars inside.now }
    ensures value { Sees (Ok result) (state current.new) (spec.after_question (state current.old) (chars current.old.rest.now)) }
    ensures within { length current.new.rest.now ≤ length current.old.rest.now }
    ensures something { IsSomething result }
{
    current.rest = inside;
    AtomStart::Group(GroupKind::FlagGroup)
}

/// The look-around whose contents begin at the text.
fn open_look_around<'a>(current: &mut State<'a>, inside: &'a str, look: LookAround) -> AtomStart<'a>
    requires { length inside.now ≤ length current.old.rest.now }
    ensures value { Sees (Ok result) (state current.new)
        (of_kind (kind.look look) (at (state current.old) (chars inside.now))) }
    ensures within { length current.new.rest.now ≤ length current.old.rest.now }
    ensures something { IsSomething result }
{
    current.rest = inside;
    AtomStart::Group(GroupKind::Look(look))
}

/// Reads what follows `(?<`: a look-behind, or a name.
fn after_less<'a>(current: &mut State<'a>, rest: &'a str) -> Result<AtomStart<'a>, ReadError>
    requires shorter { length rest.now ≤ length current.old.rest.now }
    requires less { chars current.old.rest.now ≡ codes "<" ++ chars rest.now }
    ensures value { Sees result (state current.new) (spec.after_question (state current.old) (chars current.old.rest.now)) }
    ensures within { length current.new.rest.now ≤ length current.old.rest.now }
    ensures something { IfOk result (λ a. IsSomething a) }
{
    if let Some(inside) = after(rest, '=') {
        return Ok(open_look_around(current, inside, LookAround::LookBehind));
    }
    if let Some(inside) = after(rest, '!') {
        return Ok(open_look_around(current, inside, LookAround::LookBehindNeg));
    }
    read_name(current, rest, ClosingDelimiter::Angle)
}

/// Reads the name of a group, which begins at the text, up to the closing delimiter.
fn read_name<'a>(
    current: &mut State<'a>,
    name: &'a str,
    delimiter: ClosingDelimiter,
) -> Result<AtomStart<'a>, ReadError>
    requires shorter { length name.now ≤ length current.old.rest.now }
    ensures value { Sees result (state current.new) (spec.named_start (state current.old)
        (names.group_name (delimiter_of delimiter) (chars current.old.rest.now) (chars name.now))) }
    ensures within { length current.new.rest.now ≤ length current.old.rest.now }
    ensures something { IfOk result (λ a. IsSomething a) }
{
    let (name, inside) = group_name(current.rest, delimiter, name)?;
    current.rest = inside;
    Ok(AtomStart::Group(GroupKind::Capture(Some(name))))
}

/// Reads what follows `(?P`: a name, a reference, a call, or flag letters, none of which is `P`.
fn after_p<'a>(
    alloc: Global,
    current: &mut State<'a>,
    rest: &'a str,
) -> Result<AtomStart<'a>, ReadError>
    requires shorter { length rest.now ≤ length current.old.rest.now }
    requires letter { chars current.old.rest.now ≡ codes "P" ++ chars rest.now }
    ensures value { Sees result (state current.new) (spec.after_question (state current.old) (chars current.old.rest.now)) }
    ensures within { length current.new.rest.now ≤ length current.old.rest.now }
    ensures something { IfOk result (λ a. IsSomething a) }
{
    let Some((c, tail)) = next(rest) else {
        return read_flags(alloc, current);
    };
    match c {
        '<' => read_name(current, tail, ClosingDelimiter::Angle),
        '=' => read_reference(alloc, current, tail),
        '>' => read_call(alloc, current, tail),
        _ => read_flags(alloc, current),
    }
}

/// Reads a back reference, whose id begins at the text.
fn read_reference<'a>(
    alloc: Global,
    current: &mut State<'a>,
    id: &'a str,
) -> Result<AtomStart<'a>, ReadError>
    requires shorter { length id.now ≤ length current.old.rest.now }
    ensures value { Sees result (state current.new) (read (spec.leaf_outcome (spec.backref_node current.old.flags.casei)
        (state current.old) (references.named_reference (chars id.now)))) }
    ensures within { length current.new.rest.now ≤ length current.old.rest.now }
    ensures something { IfOk result (λ a. IsSomething a) }
{
    let (reference, rest) = named_reference(id)?;
    current.rest = rest;
    Ok(AtomStart::Read(backref(alloc, reference, current.flags.casei)?))
}

/// Reads a call, whose name begins at the text.
fn read_call<'a>(
    alloc: Global,
    current: &mut State<'a>,
    name: &'a str,
) -> Result<AtomStart<'a>, ReadError>
    requires shorter { length name.now ≤ length current.old.rest.now }
    ensures value { Sees result (state current.new) (read (spec.leaf_outcome spec.call_node
        (state current.old) (references.named_call (chars name.now)))) }
    ensures within { length current.new.rest.now ≤ length current.old.rest.now }
    ensures something { IfOk result (λ a. IsSomething a) }
{
    let (call, rest) = named_call(name)?;
    current.rest = rest;
    Ok(AtomStart::Read(subroutine_call(alloc, call)?))
}

/// Reads the letters of a flag group.
fn read_flags<'a>(alloc: Global, current: &mut State<'a>) -> Result<AtomStart<'a>, ReadError>
    ensures value { Sees result (state current.new)
        (spec.flags_start (letters current.old.flags (chars current.old.rest.now))) }
    ensures within { length current.new.rest.now ≤ length current.old.rest.now }
    ensures something { IfOk result (λ a. IsSomething a) }
{
    match flag_letters(alloc, current.rest, current.flags)? {
        (Letters::InlineFlags(flags), rest) => {
            *current = State { flags, rest };
            Ok(AtomStart::Read(Expr::Empty))
        }
        (Letters::FlagGroup(flags), rest) => {
            *current = State { flags, rest };
            Ok(AtomStart::Group(GroupKind::FlagGroup))
        }
    }
}

/// Reads what follows `(?~`: a bar, or nothing. UnclosedOpenParen at the end of the text.
fn after_tilde<'a>(current: &mut State<'a>) -> Result<AtomStart<'a>, ReadError>
    ensures value { Sees result (state current.new)
        (spec.after_question (state current.old) (codes "~" ++ chars current.old.rest.now)) }
    ensures within { length current.new.rest.now ≤ length current.old.rest.now }
    ensures something { IfOk result (λ a. IsSomething a) }
{
    let Some((c, rest)) = next(current.rest) else {
        return Err(ReadError::At(AT_END, ParseError::UnclosedOpenParen));
    };
    if c == '|' {
        current.rest = rest;
        Ok(AtomStart::AbsentBranch)
    } else {
        Ok(AtomStart::Group(GroupKind::Repeater))
    }
}

/// Reads what follows `(?(`: the word DEFINE, a target, a verb, or nothing.
///
/// UnclosedOpenParen at the end of the text; TargetNotRepeatable at an asterisk that begins no verb; the errors of
/// `condition_target`.
fn read_condition<'a>(alloc: Global, current: &mut State<'a>) -> Result<AtomStart<'a>, ReadError>
    ensures value { Sees result (state current.new)
        (spec.after_question (state current.old) (codes "(" ++ chars current.old.rest.now)) }
    ensures within { length current.new.rest.now ≤ length current.old.rest.now }
    ensures something { IfOk result (λ a. IsSomething a) }
    ensures start { IfOk result (λ a. HasConditionAt a (reach_of (chars current.old.rest.now))) }
{
    let Some((c, rest)) = next(current.rest) else {
        return Err(ReadError::At(AT_END, ParseError::UnclosedOpenParen));
    };
    if let Some(definitions) = after_word(current.rest, "DEFINE)") {
        current.rest = definitions;
        return Ok(AtomStart::Group(GroupKind::Define));
    }
    if begins_target(current.rest) {
        return read_target(alloc, current);
    }
    if c == '*' {
        return read_verb_condition(alloc, current, rest);
    }
    Ok(AtomStart::Condition)
}

/// Reads a verb as a condition, after the asterisk at the front, which `rest` follows.
fn read_verb_condition<'a>(
    alloc: Global,
    current: &mut State<'a>,
    rest: &'a str,
) -> Result<AtomStart<'a>, ReadError>
    requires shorter { length rest.now ≤ length current.old.rest.now }
    requires asterisk { chars current.old.rest.now ≡ codes "*" ++ chars rest.now }
    ensures value { Sees result (state current.new) (spec.verb_start spec.body (state current.old) (chars rest.now)) }
    ensures within { length current.new.rest.now ≤ length current.old.rest.now }
    ensures something { IfOk result (λ a. IsSomething a) }
    ensures start { IfOk result (λ a. HasConditionAt a (reach_of (chars current.old.rest.now))) }
{
    let start = reach(current.rest);
    let verb = read_verb(current, rest)?;
    let condition = Box::new(alloc, Expr::BacktrackingControlVerb(verb))?;
    Ok(AtomStart::Body { condition, start })
}

/// Reads the target of a condition.
fn read_target<'a>(alloc: Global, current: &mut State<'a>) -> Result<AtomStart<'a>, ReadError>
    ensures value { Sees result (state current.new)
        (spec.target_start (state current.old) (references.condition_target (chars current.old.rest.now))) }
    ensures within { length current.new.rest.now ≤ length current.old.rest.now }
    ensures something { IfOk result (λ a. IsSomething a) }
    ensures start { IfOk result (λ a. HasConditionAt a (reach_of (chars current.old.rest.now))) }
{
    let start = reach(current.rest);
    let (target, rest) = condition_target(current.rest)?;
    current.rest = rest;
    let condition = condition(alloc, target)?;
    Ok(AtomStart::Body { condition, start })
}

/// Reads the verb after the asterisk at the front, which `rest` follows. TargetNotRepeatable at an asterisk that begins
/// no verb.
fn read_verb<'a>(
    current: &mut State<'a>,
    rest: &'a str,
) -> Result<BacktrackingControlVerb, ReadError>
    requires shorter { length rest.now ≤ length current.old.rest.now }
    ensures value { MatchResult result (λ v. verbs.verb_at (chars rest.now) ≡ Some (v, chars current.new.rest.now))
        (λ e. (verbs.verb_at (chars rest.now) ≡ None) × IsThisError e (unknown_verb (chars current.old.rest.now))) }
    ensures flags { current.new.flags ≡ current.old.flags }
    ensures within { length current.new.rest.now ≤ length current.old.rest.now }
{
    let Some((verb, tail)) = verb_at(rest) else {
        let asterisk = reach(current.rest);
        return Err(ReadError::At(asterisk, ParseError::TargetNotRepeatable));
    };
    current.rest = tail;
    Ok(verb)
}

/// The verb whose word and closing parenthesis are at the front, and what follows them.
#[tactic(auto, unfolding(fancy_grammar::specs::Verb::verb_at))]
fn verb_at(text: &str) -> Option<(BacktrackingControlVerb, &str)>
    ensures value { verbs.verb_at (chars text.now) ≡ option_map (λ p. (p.0, chars p.1.now)) result }
    ensures within { IfSome result (λ p. length p.1.now ≤ length text.now) }
{
    if let Some(rest) = after_word(text, "F)") {
        return Some((BacktrackingControlVerb::Fail, rest));
    }
    for verb in BacktrackingControlVerb::ALL {
        if let Some(rest) = after_verb(text, verb) {
            return Some((verb, rest));
        }
    }
    None
}

/// What follows the verb's word and a closing parenthesis, if they are at the front.
fn after_verb(text: &str, verb: BacktrackingControlVerb) -> Option<&str>
    ensures value { strip_word (verbs.word verb ++ codes ")") (chars text.now) ≡ option_map (λ r. chars r.now) result }
    ensures within { IfSome result (λ r. length r.now ≤ length text.now) }
{
    after_word(after_word(text, verb.word())?, ")")
}
