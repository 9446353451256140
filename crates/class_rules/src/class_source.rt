//! Classes as a pattern has them, from their opening bracket through their last one.
ghost use Rattle.std.specs.Prelude.{◌≡◌, chars, string_bytes, IfOk, IfSome};
ghost use Rattle.fancy_lex.specs.Text.{text_of};
ghost use Rattle.class_rules.specs.ClassSource.{IsWrittenAs, HasCharacters, IsCutAt, LeavesOut, IsInBrackets};

use class_meaning::{CharacterSet, ClassMeaning, characters_of_class};
use fancy_lex::class::class;
use fancy_lex::error::ReadError;
use fancy_lex::flags::Flags;
use fancy_lex::text::{after, next};
use fancy_syntax::span::Span;
use std::alloc::{AllocError, Global};

/// A class in a pattern.
#[derive(Clone, Copy)]
pub(crate) struct ClassSource<'a> {
    pub(crate) alloc: Global,
    /// Its text in the pattern.
    pub(crate) source: &'a str,
    /// Whether it ignores case.
    pub(crate) casei: bool,
    /// The flags that the pattern is parsed under.
    pub(crate) flags: Flags,
}

/// The text that the parser writes for the class. Returns `None` if the source is not a class.
#[tactic(auto, using(fancy_lex::proofs::TextLemmas::strip_is))]
fn written(alloc: Global, source: &str, flags: Flags) -> Result<Option<String>, AllocError>
    ensures { IfOk result (λ o. IfSome o (λ text. IsWrittenAs flags (chars source.now) (text_of text))) }
{
    let Some(inside) = after(source, '[') else {
        return Ok(None);
    };
    match class(alloc, inside, flags) {
        Ok((text, rest)) => match next(rest) {
            Some(_) => Ok(None),
            None => Ok(Some(text)),
        },
        Err(ReadError::At(..)) => Ok(None),
        Err(ReadError::OutOfMemory) => Err(AllocError),
    }
}

/// The characters of the class. Returns `None` if the source is not a class, or the engine refuses it.
pub(crate) fn characters_of_source(
    alloc: Global,
    source: &str,
    casei: bool,
    flags: Flags,
) -> Result<Option<CharacterSet>, AllocError>
    ensures { IfOk result (λ o. IfSome o (HasCharacters flags casei (chars source.now))) }
{
    let Some(text) = written(alloc, source, flags)? else {
        return Ok(None);
    };
    match characters_of_class(alloc, text.as_str(), casei, flags.unicode)? {
        ClassMeaning::Characters(set) => Ok(Some(set)),
        ClassMeaning::Refused(_) | ClassMeaning::NotOneCharacter => Ok(None),
    }
}

/// A text in three parts, the second of which is at a span.
#[derive(Clone, Copy)]
struct TextParts<'a> {
    before: &'a str,
    part: &'a str,
    after: &'a str,
}

/// The text in three parts, the second of which is at the span.
fn cut(text: &str, span: Span) -> Option<TextParts<'_>>
    ensures { IfSome result (λ parts. IsCutAt span text.now parts.before.now parts.part.now parts.after.now) }
{
    let (front, after) = text.split_at_checked(span.end)?;
    let (before, part) = front.split_at_checked(span.start)?;
    Some(TextParts {
        before,
        part,
        after,
    })
}

/// The text without the part at the span.
pub(crate) fn without(alloc: Global, text: &str, span: Span) -> Result<Option<String>, AllocError>
    ensures { IfOk result (λ o. IfSome o (λ kept. LeavesOut text.now span (string_bytes kept))) }
{
    let Some(parts) = cut(text, span) else {
        return Ok(None);
    };
    let mut kept = String::from_str(alloc, parts.before)?;
    kept.push_str(parts.after)?;
    Ok(Some(kept))
}

/// The part of the text at the span, in brackets of its own.
pub(crate) fn in_brackets(
    alloc: Global,
    text: &str,
    span: Span,
) -> Result<Option<String>, AllocError>
    ensures { IfOk result (λ o. IfSome o (λ alone. IsInBrackets text.now span (string_bytes alone))) }
{
    let Some(parts) = cut(text, span) else {
        return Ok(None);
    };
    let mut alone = String::from_str(alloc, "[")?;
    alone.push_str(parts.part)?;
    alone.push_str("]")?;
    Ok(Some(alone))
}
