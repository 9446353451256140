//! A text as a pattern that matches it.
ghost use Rattle.std.specs.Prelude.{◌≡◌, ◌≤◌, ◌⊎◌, IfOk, chars, map, string_bytes};
ghost use Rattle.fancy_lex.specs.Flags.{flags_of};
ghost use Rattle.fancy_grammar.specs.ReadBack.{info_of_groups};
ghost use Rattle.fancy_syntax.specs.InfoViews.{info_of};
ghost use Rattle.fancy_syntax.specs.View.{view, views};
ghost use Rattle.fancy_c.specs.CallFlags.{AreFlags};
ghost use Rattle.fancy_c.specs.Calls.{RefusesBytes, TakesOnly, WritesText};
ghost use Rattle.fancy_c.specs.EscapedText as spec;
ghost use Rattle.fancy_c.specs.EscapedText.{literal_of, IsEscapeOf, IsEscapeOfBytes};

use crate::buffer::write;
use crate::call_flags::are_flags;
use crate::call_result::{
    CallResult, STATUS_BUFFER_TOO_SHORT, STATUS_OUT_OF_MEMORY, STATUS_UNKNOWN_FLAG,
};
use crate::utf8::utf8_of;
use fancy_lex::escape::letter_of;
use fancy_lex::flags::Flags;
use fancy_lex::text::{next, push};
use fancy_pattern::letters::{is_printable_layout, needs_backslash};
use fancy_pattern::to_pattern;
use fancy_syntax::expr::Expr;
use fancy_syntax::tree::ExprTree;
use std::alloc::{AllocError, Global};
use std::collections::{BTreeMap, BTreeSet};

/// Whether the character is written after a backslash.
fn is_escaped(c: char, flags: Flags) -> bool
    ensures { result ≡ spec.is_escaped flags c }
{
    needs_backslash(c) || letter_of(c).is_some() || is_printable_layout(c, flags)
}

/// Whether the case of the character is ignored.
fn is_caseless(c: char, flags: Flags) -> bool
    ensures { result ≡ spec.is_caseless flags c }
{
    flags.casei && !is_escaped(c, flags)
}

/// The Literal of a character.
fn literal(alloc: Global, c: char, flags: Flags) -> Result<Expr, AllocError>
    ensures { IfOk result (λ e. view e ≡ literal_of flags c) }
{
    let mut val = String::new(alloc);
    push(&mut val, c)?;
    Ok(Expr::Literal {
        val,
        casei: is_caseless(c, flags),
    })
}

/// The Literals of the characters of a text.
fn literals(alloc: Global, text: &str, flags: Flags) -> Result<Vec<Expr>, AllocError>
    ensures { IfOk result (λ es. views es.items ≡ map (literal_of flags) (chars text.now)) }
{
    let mut literals = Vec::new(alloc);
    let mut rest = text;
    while let Some((c, after)) = next(rest) {
        literals.push(literal(alloc, c, flags)?)?;
        rest = after;
    }
    Ok(literals)
}

/// The tree that matches the text.
fn tree_of_text(alloc: Global, text: &str, flags: Flags) -> Result<Expr, AllocError>
    ensures { IfOk result (λ e. view e ≡ spec.tree_of_text flags (chars text.now)) }
{
    let Some((c, rest)) = next(text) else {
        return Ok(Expr::Empty);
    };
    if next(rest).is_none() {
        return literal(alloc, c, flags);
    }
    Ok(Expr::Concat(literals(alloc, text, flags)?))
}

/// The tree, as one without groups and references.
fn without_groups(alloc: Global, expr: Expr) -> ExprTree
    ensures tree { result.expr ≡ expr }
    ensures group_info { info_of result ≡ info_of_groups 0 }
{
    ExprTree {
        expr,
        backrefs: BTreeSet::new(alloc),
        named_groups: BTreeMap::new(alloc),
        numeric_capture_group_references: false,
        contains_subroutines: false,
        self_recursive: false,
        total_groups: 0,
        out_of_range_backref: None,
        numbered_groups_ignored: false,
    }
}

/// The pattern that matches the text. Each text has one.
fn escaped(alloc: Global, text: &str, flags: u32) -> Result<String, AllocError>
    ensures { IfOk result (λ s. IsEscapeOf (flags_of flags) (chars text.now) (string_bytes s)) }
{
    let tree = without_groups(alloc, tree_of_text(alloc, text, Flags::from_bits(flags))?);
    match to_pattern(alloc, &tree, flags)? {
        Some(pattern) => Ok(pattern),
        None => unreachable!(),
    }
}

/// Writes to the front of `buffer` a pattern that matches the text: under the flags it is parsed as a Literal for each
/// character, in order. What is written for a character is the same whatever stands beside it: a character with a meaning
/// of its own is after a backslash, and an invisible one is its letter or its code. Returns `STATUS_OK` with the size of the
/// pattern in bytes; `STATUS_BUFFER_TOO_SHORT` with that size if it does not fit; `STATUS_NOT_UTF8` if the text is not
/// UTF-8, with the length of the valid UTF-8 prefix; `STATUS_UNKNOWN_FLAG` if a bit is set that is no flag of a pattern,
/// whatever the text is; or `STATUS_OUT_OF_MEMORY`. Unless it returns `STATUS_OK`, nothing is written.
#[unsafe(no_mangle)]
pub extern "C" fn fancy_escape_nonnull(
    alloc: Global,
    text: &[u8],
    flags: u32,
    buffer: &mut [u8],
) -> CallResult
    ensures text { WritesText (IsEscapeOfBytes (flags_of flags) text.now) buffer.old buffer.new result }
    ensures refusal { RefusesBytes text.now result }
    ensures flags { TakesOnly (AreFlags flags) STATUS_UNKNOWN_FLAG result }
    ensures status { (result.status ≤ STATUS_BUFFER_TOO_SHORT) ⊎ (result.status ≡ STATUS_UNKNOWN_FLAG) }
{
    if !are_flags(flags) {
        return CallResult::of_status(STATUS_UNKNOWN_FLAG);
    }
    let text = match utf8_of(text) {
        Ok(text) => text,
        Err(refusal) => return refusal,
    };
    match escaped(alloc, text, flags) {
        Ok(pattern) => write(buffer, pattern.as_bytes()),
        Err(AllocError) => CallResult::of_status(STATUS_OUT_OF_MEMORY),
    }
}
