//! Groups that set flags.
ghost use Rattle.std.specs.Prelude.{◌≡◌, ◌∷◌, [], ◌++◌, codes, OnOk, if◌then◌else◌};
ghost use Rattle.fancy_grammar.specs.Pattern as pattern;
ghost use Rattle.fancy_grammar.specs.PatternNeeds as spec;
ghost use Rattle.fancy_pattern.specs.TextOutput.{Added};
ghost use Rattle.fancy_pattern.specs.Writers.{Sets, WritesFlags};

use crate::context::Context;
use crate::needs::are_met;
use crate::output::{TextOutput, put_ascii, put_if};
use fancy_grammar::needs::Needs;
use fancy_lex::flags::{Flag, Flags};
use std::alloc::AllocError;

/// Writes the letters of the flags that are set in `to` and not in `from`.
fn put_letters_on(out: &mut TextOutput, from: Flags, to: Flags) -> Result<(), AllocError>
    ensures { OnOk result (Added out.old out.new (spec.letters_on from to)) }
{
    put_if(out, to.casei && !from.casei, Flag::Casei.letter())?;
    put_if(out, to.multi && !from.multi, Flag::Multi.letter())?;
    put_if(out, to.dotnl && !from.dotnl, Flag::Dotnl.letter())?;
    put_if(out, to.crlf && !from.crlf, Flag::Crlf.letter())
}

/// Whether a flag is set in `to` and not in `from`.
fn turns_on(from: Flags, to: Flags) -> bool
    ensures { result ≡ spec.turns_on from to }
{
    to.casei && !from.casei
        || to.multi && !from.multi
        || to.dotnl && !from.dotnl
        || to.crlf && !from.crlf
}

/// Writes the letters that make the flags `from` the flags `to`.
fn put_letters(out: &mut TextOutput, from: Flags, to: Flags) -> Result<(), AllocError>
    ensures { OnOk result (Added out.old out.new (spec.letters_between from to)) }
{
    put_letters_on(out, from, to)?;
    put_if(out, turns_on(to, from), '-')?;
    put_letters_on(out, to, from)
}

/// Writes a group that changes the flags `from` to the flags `to` from there on, if they differ.
fn put_flag_change(out: &mut TextOutput, from: Flags, to: Flags) -> Result<(), AllocError>
    ensures { OnOk result (Added out.old out.new (spec.inline_flags from to)) }
{
    if !turns_on(from, to) && !turns_on(to, from) {
        return Ok(());
    }
    put_ascii(out, "(?")?;
    put_letters(out, from, to)?;
    out.put(')')
}

/// Sets the flags that are needed from here on, if they are not set.
#[inline(always)]
pub(crate) fn put_inline_flags(
    out: &mut TextOutput,
    needs: Needs,
    context: &mut Context,
) -> Result<(), AllocError>
    ensures { OnOk result (Added out.old out.new
        (spec.inline_flags context.old.flags (spec.with_needs context.old.flags needs))
        × Sets context.old context.new needs (λ h. h)) }
{
    if are_met(context.flags, needs) {
        return Ok(());
    }
    put_new_flags(out, needs, context)
}

/// Passes the next node, and sets the flags that it needs, if they are not set.
#[inline(always)]
pub(crate) fn settle(out: &mut TextOutput, context: &mut Context) -> Result<(), AllocError>
    ensures { OnOk result (WritesFlags out.old out.new context.old context.new spec.inline_flags (λ h. h)) }
{
    match context.next_listed() {
        Some(needs) => put_inline_flags(out, *needs, context),
        None => Ok(()),
    }
}

/// Sets the flags that are needed from here on.
#[inline(never)]
fn put_new_flags(
    out: &mut TextOutput,
    needs: Needs,
    context: &mut Context,
) -> Result<(), AllocError>
    ensures { OnOk result (Added out.old out.new
        (spec.inline_flags context.old.flags (spec.with_needs context.old.flags needs))
        × Sets context.old context.new needs (λ h. h)) }
{
    let from = context.flags;
    context.set(needs);
    put_flag_change(out, from, context.flags)
}

/// Writes the opening of a group that changes the flags `from` to the flags `to`.
fn put_flag_group_opening(out: &mut TextOutput, from: Flags, to: Flags) -> Result<(), AllocError>
    ensures { OnOk result (Added out.old out.new (codes "(?" ++ (spec.letters_between from to ++ codes ":"))) }
{
    put_ascii(out, "(?")?;
    put_letters(out, from, to)?;
    out.put(':')
}

/// Passes the next node, opens a group in which the flags that it needs are set, and enters the group.
pub(crate) fn open_flag_group(out: &mut TextOutput, context: &mut Context) -> Result<(), AllocError>
    ensures { OnOk result (WritesFlags out.old out.new context.old context.new
        (λ f g. codes "(?" ++ (spec.letters_between f g ++ codes ":")) pattern.deeper) }
{
    let needs = context.next_node();
    let from = context.flags;
    context.set(needs);
    put_flag_group_opening(out, from, context.flags)?;
    context.enter();
    Ok(())
}
