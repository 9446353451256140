//! The word that names flags.
ghost use Rattle.std.specs.Prelude.{◌≡◌, true, false, chars, MatchOption};
ghost use Rattle.std.specs.List.{list_all};
ghost use Rattle.fancy_lex.specs.Flags.{flags_of};
ghost use Rattle.fancy_lex.specs.FlagWord.{is_letter, NamesFlags, named_flags};

use crate::flags::{Flag, Flags};
use crate::text::next;

/// What a word that names flags is, in words.
pub const FLAG_WORD: &str = "letters of imsUxuRon, or - for none";

/// The flags that the letters name, if each of them names one.
#[tactic(auto, using(crate::proofs::FlagWordLemmas::letters_start, crate::proofs::FlagWordLemmas::letters_next, crate::proofs::FlagWordLemmas::letters_end, crate::proofs::FlagWordLemmas::letters_fail))]
fn letters(word: &str) -> Option<Flags>
    ensures { MatchOption result (list_all is_letter (chars word.now) ≡ false)
        (λ flags. (list_all is_letter (chars word.now) ≡ true) × (flags ≡ named_flags (chars word.now))) }
{
    let mut flags = Flags::from_bits(0);
    let mut rest = word;
    while let Some((letter, after)) = next(rest) {
        flags = flags.with(Flag::from_letter(letter)?, true);
        rest = after;
    }
    Some(flags)
}

/// The flags that a word names: `-` for none, or a letter for each. `None` if it is empty or has another
/// character.
#[tactic(auto, using(crate::proofs::FlagWordLemmas::names_none, crate::proofs::FlagWordLemmas::names_dash, crate::proofs::FlagWordLemmas::names_letters, crate::proofs::FlagWordLemmas::names_other))]
pub fn flags_named(word: &str) -> Option<u32>
    ensures { MatchOption result (NamesFlags (chars word.now) → ⊥) (λ bits. NamesFlags (chars word.now) ×
        (flags_of bits ≡ named_flags (chars word.now))) }
{
    let (first, after) = next(word)?;
    if first == '-' && next(after).is_none() {
        return Some(0);
    }
    Some(letters(word)?.to_bits())
}
