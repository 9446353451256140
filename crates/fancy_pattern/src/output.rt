//! The output that a text is written to.
ghost use Rattle.std.specs.Prelude.{◌≡◌, ◌∷◌, [], true, nat_lt, chars, decimal, IfOk, OnOk, if◌then◌else◌};
ghost use Rattle.std.specs.List.{list_all};
ghost use Rattle.fancy_lex.specs.Class.{byte_text};
ghost use Rattle.fancy_lex.specs.Text.{bytes, text_of};
ghost use Rattle.fancy_grammar.specs.Quote.{range};
ghost use Rattle.fancy_pattern.specs.TextOutput.{Added, Changed, separated};

use crate::separator::Separator;
use fancy_lex::class::push_byte;
use fancy_lex::text::{append, byte_len, push};
use fancy_syntax::print::quote::{number_len, put_number, put_range, range_len};
use std::alloc::{AllocError, Global};

/// The output that a text is written to, piece by piece.
#[derive(Drop)]
pub(crate) struct TextOutput {
    /// What was written.
    text: String,
}

impl TextOutput {
    /// An empty output with this initial capacity in bytes.
    pub(crate) fn with_capacity(alloc: Global, capacity: usize) -> Result<TextOutput, AllocError>
        ensures { IfOk result (λ out. text_of out.text ≡ []) }
    {
        let text = String::with_capacity(alloc, capacity)?;
        Ok(TextOutput { text })
    }

    /// What was written, as a string.
    pub(crate) fn into_string(self) -> String
        ensures { result ≡ self.text }
    {
        let TextOutput { text } = self;
        text
    }

    /// Writes a character.
    pub(crate) fn put(&mut self, c: char) -> Result<(), AllocError>
        ensures { OnOk result (Added self.old self.new (c ∷ [])) }
    {
        push(&mut self.text, c)
    }

    /// Writes a text.
    pub(crate) fn put_text(&mut self, text: &str) -> Result<(), AllocError>
        ensures { OnOk result (Added self.old self.new (chars text.now)) }
    {
        append(&mut self.text, text)
    }

    /// Writes a number in decimal digits.
    pub(crate) fn put_number(&mut self, n: usize) -> Result<(), AllocError>
        ensures { OnOk result (Added self.old self.new (decimal n)) }
    {
        self.text.reserve(number_len(n))?;
        put_number(&mut self.text, n);
        Ok(())
    }

    /// Writes the contents of the braces of a quantifier.
    pub(crate) fn put_range(&mut self, lo: usize, hi: usize) -> Result<(), AllocError>
        ensures { OnOk result (Added self.old self.new (range lo hi)) }
    {
        self.text.reserve(range_len(lo, hi))?;
        put_range(&mut self.text, lo, hi);
        Ok(())
    }

    /// Writes a byte by its code.
    pub(crate) fn put_byte(&mut self, byte: u8) -> Result<(), AllocError>
        ensures { OnOk result (Added self.old self.new (byte_text byte)) }
    {
        push_byte(&mut self.text, byte)
    }

    /// How many bytes were written.
    pub(crate) fn len(&self) -> usize
        ensures { result ≡ bytes (text_of self.now.text) }
    {
        byte_len(self.text.as_str())
    }

    /// Separates what was written from the position on from what is before it, if they would be read together.
    pub(crate) fn separate(
        &mut self,
        position: usize,
        separator: Separator,
    ) -> Result<(), AllocError>
        ensures { OnOk result (Changed self.old self.new position (separated separator)) }
    {
        // Every caller passes a position where the output ended before, so that a character begins there.
        let Some((_, text)) = self.text.as_str().split_at_checked(position) else {
            return Err(AllocError);
        };
        if !separator.is_needed(text) {
            return Ok(());
        }
        self.text.insert_str(position, "(?#)")
    }
}

/// Writes a text of ASCII characters.
pub(crate) fn put_ascii(out: &mut TextOutput, text: &str) -> Result<(), AllocError>
    requires { list_all (λ b. nat_lt b 128) text.now ≡ true }
    ensures { OnOk result (Added out.old out.new text.now) }
{
    out.put_text(text)
}

/// Writes the character, if asked for.
#[tactic(auto, using(crate::proofs::OutputLemmas::added_steps))]
pub(crate) fn put_if(out: &mut TextOutput, asked: bool, c: char) -> Result<(), AllocError>
    ensures { OnOk result (Added out.old out.new (if asked then c ∷ [] else [])) }
{
    if asked { out.put(c) } else { Ok(()) }
}
