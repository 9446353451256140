//! Flags as letters.
use fancy_lex::flags::{Flag, Flags};
use std::fmt;

/// The letters of flags, as `--flags` takes them: `-` for none.
#[derive(Clone, Copy)]
pub struct FlagLetters(pub Flags);

impl fmt::Display for FlagLetters {
    fn fmt<W: fmt::Write>(&self, f: &mut fmt::Formatter<W>) -> fmt::Result {
        let FlagLetters(flags) = *self;
        let mut has_some = false;
        for flag in Flag::ALL {
            if flags.get(flag) {
                f.write_char(flag.letter())?;
                has_some = true;
            }
        }
        if has_some { Ok(()) } else { f.write_char('-') }
    }
}
