//! What takes a text piece by piece: a count of its bytes, and a string that has the capacity for it.
#![tactic(auto, using(crate::proofs::SinkLemmas::sink_steps))]

ghost use Rattle.std.specs.Prelude.{◌≡◌, ℕ, ◌+◌, ◌∷◌, [], Option, nat_lt, true, chars};
ghost use Rattle.std.specs.List.{list_all};
ghost use Rattle.fancy_lex.specs.Text.{Text};
ghost use Rattle.fancy_grammar.specs.Quote.{quotes, quantifier};
ghost use Rattle.fancy_syntax.specs.Capacity.{in_word};
ghost use Rattle.fancy_syntax.specs.Sinks.{CanTake, Takes};

use crate::print::quote::{quantifier_len, quotes_len};
use crate::print::{quote, reserved};
use fancy_lex::text::byte_len;

/// A sink: it takes a text piece by piece. Functions over it are compiled once for each sink.
pub(super) trait Sink {
    /// That it holds this text.
    ghost holds: { Self → Text → Type 0 };

    /// How many bytes it can still take, if that is limited: a number and no predicate, so that what can take a text can
    /// take its front.
    ghost limit: { Self → Option ℕ };

    /// Takes a character.
    fn put(&mut self, c: char)
        requires { CanTake limit self.old (c ∷ []) }
        ensures { Takes holds limit self.old self.new (c ∷ []) };

    /// Takes a text.
    fn put_text(&mut self, text: &str)
        requires { CanTake limit self.old (chars text.now) }
        ensures { Takes holds limit self.old self.new (chars text.now) };

    /// Takes a text of ASCII characters.
    #[inline(always)]
    fn put_ascii(&mut self, text: &str)
        requires ascii { list_all (λ b. nat_lt b 128) text.now ≡ true }
        requires reserved { CanTake limit self.old text.now }
        ensures { Takes holds limit self.old self.new text.now }
    {
        self.put_text(text);
    }

    /// Takes a text of ASCII characters that does not depend on what a tree holds.
    #[inline(always)]
    fn put_fixed(&mut self, text: &str)
        requires ascii { list_all (λ b. nat_lt b 128) text.now ≡ true }
        requires reserved { CanTake limit self.old text.now }
        ensures { Takes holds limit self.old self.new text.now }
    {
        self.put_ascii(text);
    }

    /// Takes a text with a backslash before each character that needs one.
    fn put_quotes(&mut self, text: &str)
        requires { CanTake limit self.old (quotes (chars text.now)) }
        ensures { Takes holds limit self.old self.new (quotes (chars text.now)) };

    /// Takes a quantifier.
    fn put_quantifier(&mut self, lo: usize, hi: usize, greedy: bool)
        requires { CanTake limit self.old (quantifier lo hi greedy) }
        ensures { Takes holds limit self.old self.new (quantifier lo hi greedy) };
}

/// The number of bytes of a text, or `usize::MAX` if a word cannot hold it.
#[derive(Drop)]
pub(super) struct Length {
    pub(super) len: usize,
}

impl Length {
    /// Adds so many bytes.
    #[inline(always)]
    fn add(&mut self, len: usize)
        ensures { self.new.len ≡ in_word (self.old.len + len) }
    {
        self.len = self.len.saturating_add(len);
    }
}

impl Sink for Length {
    ghost use Rattle.fancy_syntax.specs.Sinks.{counts, unlimited};

    ghost holds = { counts };

    ghost limit = { unlimited };

    #[inline(always)]
    fn put(&mut self, c: char) {
        self.add(c.len_utf8());
    }

    #[inline(always)]
    fn put_text(&mut self, text: &str) {
        self.add(byte_len(text));
    }

    #[inline(always)]
    fn put_quotes(&mut self, text: &str) {
        self.add(quotes_len(text));
    }

    #[inline(always)]
    fn put_quantifier(&mut self, lo: usize, hi: usize, greedy: bool) {
        self.add(quantifier_len(lo, hi, greedy));
    }
}

impl Sink for String {
    ghost use Rattle.fancy_syntax.specs.Sinks.{contains, capacity_left};

    ghost holds = { contains };

    ghost limit = { capacity_left };

    #[inline(always)]
    fn put(&mut self, c: char) {
        reserved::put(self, c);
    }

    #[inline(never)]
    fn put_fixed(&mut self, text: &str) {
        // Most such texts are one character, for which a push is shorter than a copy.
        if let [byte] = text.as_bytes() {
            self.put(char::from(*byte));
        } else {
            self.put_ascii(text);
        }
    }

    #[inline(always)]
    fn put_text(&mut self, text: &str) {
        reserved::put_text(self, text);
    }

    #[inline(always)]
    fn put_quotes(&mut self, text: &str) {
        quote::put_quotes(self, text);
    }

    #[inline(always)]
    fn put_quantifier(&mut self, lo: usize, hi: usize, greedy: bool) {
        quote::put_quantifier(self, lo, hi, greedy);
    }
}
