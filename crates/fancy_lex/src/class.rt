//! Classes: the text after an opening bracket, and the text that is written for the class.
ghost use Rattle.std.specs.Prelude.{◌≡◌, ◌+◌, ◌/◌, ◌%◌, ◌^◌, ◌<◌, ◌≤◌, ◌||◌, ◌++◌, length, chars, IfErr, IfOk, OnOk};
ghost use Rattle.std.specs.Prelude.{IfSome, MatchOption, []};
ghost use Rattle.fancy_lex.specs.Class as spec;
ghost use Rattle.fancy_lex.specs.EscapeViews.{escape_of, delegate_text};
ghost use Rattle.fancy_lex.specs.Property.{is_negated_set};
ghost use Rattle.fancy_lex.specs.Reading.{Reading, Derives, gives};
ghost use Rattle.fancy_lex.specs.ErrorViews.{LiesWithin};
ghost use Rattle.fancy_lex.specs.Text.{Text, text_of, BeginsWith, EndsWith, reach_of};
ghost use Rattle.fancy_lex.specs.TokenComments.{class_comments, escape_comments};

use crate::error::{ParseError, ReadError};
use crate::escape::{DelegateText, Escaped, escape, is_metacharacter};
use crate::flags::Flags;
use crate::property::{is_negated, push_property};
use crate::text::{AT_END, Reach, after, append, next, push, reach};
use std::alloc::{AllocError, Global};

/// Whether the character needs a backslash in a class.
fn needs_backslash_in_class(c: char) -> bool
    ensures { result ≡ spec.needs_backslash_in_class c }
{
    is_metacharacter(c) || matches!(c, ']' | '}' | '#' | '&' | '-' | '~')
}

/// Adds the character, with a backslash before it if it is a metacharacter.
fn push_quoted(out: &mut String, c: char) -> Result<(), AllocError>
    ensures { OnOk result (text_of out.new ≡ text_of out.old ++ spec.char_text c) }
{
    if needs_backslash_in_class(c) {
        push(out, '\\')?;
    }
    push(out, c)
}

/// The character of a hex digit, in upper case.
pub fn upper_hex_digit(digit: u8) -> char
    requires { digit < 16 }
    ensures { result ≡ spec.upper_hex_digit digit }
{
    let code = if digit < 10 {
        b'0' + digit
    } else {
        b'A' + (digit - 10)
    };
    code as char
}

/// Adds `\x` and the two digits of the byte.
pub fn push_byte(out: &mut String, byte: u8) -> Result<(), AllocError>
    ensures { OnOk result (text_of out.new ≡ text_of out.old ++ spec.byte_text byte) }
{
    append(out, r"\x")?;
    push(out, upper_hex_digit(byte / 16))?;
    push(out, upper_hex_digit(byte % 16))
}

/// Adds the delegate's text. If memory runs out, the string begins with what it held, and some of the text may follow.
pub fn push_delegate(out: &mut String, text: DelegateText) -> Result<(), AllocError>
    ensures grown { OnOk result (text_of out.new ≡ text_of out.old ++ delegate_text text.entry) }
    ensures kept { BeginsWith (text_of out.new) (text_of out.old) }
{
    match text {
        DelegateText::Letter(c) => {
            push(out, '\\')?;
            push(out, c)
        }
        DelegateText::HexDigit => append(out, "[0-9A-Fa-f]"),
        DelegateText::NotHexDigit => append(out, "[^0-9A-Fa-f]"),
        DelegateText::Property {
            property,
            unicode,
            inside,
        } => { push_property(out, property, unicode, inside) }
    }
}

/// Whether the text of a delegate in a class is a negated set that names properties or other classes.
fn is_negated_text(text: DelegateText) -> bool
    ensures { result ≡ is_negated_set (delegate_text text.entry) }
{
    match text {
        DelegateText::Property {
            property,
            unicode,
            ..
        } => is_negated(property, unicode),
        _ => false,
    }
}

/// Adds the `&&` before the next negated set, if one is needed.
fn push_joint(out: &mut String, needed: bool) -> Result<(), AllocError>
    ensures { OnOk result (text_of out.new ≡ text_of out.old ++ spec.joint needed) }
{
    if needed { append(out, "&&") } else { Ok(()) }
}

/// Adds the text that is written for an escape in a class. `seen` says whether a negated set was added before. Returns
/// whether one was added by now.
fn push_escape(out: &mut String, escaped: Escaped, seen: bool) -> Result<bool, AllocError>
    ensures grown { OnOk result
        (text_of out.new ≡ text_of out.old ++ spec.escape_in_class seen (escape_of escaped.entry)) }
    ensures seen { IfOk result (λ now. now ≡ (seen || spec.is_negated (escape_of escaped.entry))) }
{
    match escaped {
        Escaped::Literal { val, .. } => {
            push_quoted(out, val)?;
            Ok(seen)
        }
        Escaped::LiteralBytes { byte } => {
            push_byte(out, byte)?;
            Ok(seen)
        }
        Escaped::Delegate { inner, .. } => {
            let negated = is_negated_text(inner);
            push_joint(out, seen && negated)?;
            push_delegate(out, inner)?;
            Ok(seen || negated)
        }
        _ => Ok(seen),
    }
}

/// Adds the symbol and returns the text after it, if the text begins with it; otherwise returns the text.
fn push_symbol<'a>(out: &mut String, text: &'a str, symbol: char) -> Result<&'a str, AllocError>
    ensures value { IfOk result
        (λ r. spec.with_symbol symbol (text_of out.old, chars text.now) ≡ (text_of out.new, chars r.now)) }
    ensures within { IfOk result (λ r. length r.now ≤ length text.now) }
{
    let Some(rest) = after(text, symbol) else {
        return Ok(text);
    };
    push(out, symbol)?;
    Ok(rest)
}

/// Adds the opening of a class: the bracket, a caret, and a closing bracket, which is a plain character there.
#[tactic(auto, unfolding(crate::specs::Class::class_start))]
fn push_start<'a>(out: &mut String, text: &'a str) -> Result<&'a str, AllocError>
    ensures value { IfOk result
        (λ r. spec.class_start (text_of out.old) (chars text.now) ≡ (text_of out.new, chars r.now)) }
    ensures within { IfOk result (λ r. length r.now ≤ length text.now) }
{
    push(out, '[')?;
    let text = push_symbol(out, text, '^')?;
    push_symbol(out, text, ']')
}

/// The initial capacity of a class's text, in bytes, which few classes exceed.
const CLASS_CAPACITY: usize = 24;

/// Reads a class and those nested in it through its last bracket: the text that is written, and the rest of the text.
fn read_class(alloc: Global, text: &str, flags: Flags) -> Result<(String, &str), ReadError>
    ensures value { Derives text_of result (λ o. spec.class flags (chars text.now) ≡ o) }
    ensures shorter { IfOk result (λ p. length p.1.now < length text.now) }
{
    let mut out = String::with_capacity(alloc, CLASS_CAPACITY)?;
    let mut rest = push_start(&mut out, text)?;
    let mut outer = 0usize;
    let mut seen = false;
    while let Some((c, tail)) = next(rest) {
        if c == '\\' {
            let (escaped, after) = escape(alloc, tail, flags, true)?;
            seen = push_escape(&mut out, escaped, seen)?;
            rest = after;
            continue;
        }
        if c == '[' {
            rest = push_start(&mut out, tail)?;
            outer += 1;
            continue;
        }
        push(&mut out, c)?;
        rest = tail;
        if c == ']' {
            if outer == 0 {
                return Ok((out, rest));
            }
            outer -= 1;
        }
    }
    Err(ReadError::At(AT_END, ParseError::InvalidClass))
}

/// Parses a class after its opening bracket, in `text`, a suffix of the pattern: the text that is written for it, and
/// the rest of the text. If the pattern ends in the class, the error is `InvalidClass` at its end; otherwise it is the
/// error of the first escape that cannot be parsed. It does not depend on the text after the class.
pub fn class(alloc: Global, text: &str, flags: Flags) -> Result<(String, &str), ReadError>
    ensures value { Derives text_of result (λ o. spec.class flags (chars text.now) ≡ o) }
    ensures derives { Derives text_of result (spec.OuterClass flags (chars text.now)) }
    ensures only { (o : Reading Text) → spec.OuterClass flags (chars text.now) o → Derives text_of result (λ q. o ≡ q) }
    ensures follows { (s : Text) →
        IfOk result (λ p. spec.class flags (chars text.now ++ s) ≡ gives (text_of p.0) (chars p.1.now ++ s)) }
    ensures cut { IfOk result (λ p. EndsWith (chars text.now) (chars p.1.now)) }
    ensures position { IfErr result (λ e. LiesWithin (length text.now + 1) e) }
    ensures shorter { IfOk result (λ p. length p.1.now < length text.now) }
{
    read_class(alloc, text, flags)
}

/// The next escape in a class that was parsed, after its backslash, and the text after it. `text` is the rest of the class,
/// which ends at the reach.
pub fn next_escape(alloc: Global, text: &str, end: Reach, flags: Flags) -> Option<(&str, &str)>
    ensures value { MatchOption result (class_comments flags (chars text.now) end ≡ [])
        (λ p. class_comments flags (chars text.now) end ≡
        escape_comments (chars p.0.now) (reach_of (chars p.1.now)) ++ class_comments flags (chars p.1.now) end) }
    ensures shorter { IfSome result (λ p. length p.1.now < length text.now) }
{
    let mut rest = text;
    while end < reach(rest) {
        let Some((c, tail)) = next(rest) else {
            return None;
        };
        if c == '\\' {
            let Ok((_, after)) = escape(alloc, tail, flags, true) else {
                return None;
            };
            // Each escape of a class ends in it.
            if reach(after) < end {
                return None;
            }
            return Some((tail, after));
        }
        rest = tail;
    }
    None
}
