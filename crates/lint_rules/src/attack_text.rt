//! Texts on which a pattern is slow, in words.
use patterns_text::shown::{Code, is_hidden};
use std::fmt;

/// Characters in quotes. Each hidden one is written as its escape, and a quote or a backslash after a backslash.
#[derive(Clone, Copy)]
struct QuotedCharacters<'a>(&'a [char]);

impl fmt::Display for QuotedCharacters<'_> {
    fn fmt<W: fmt::Write>(&self, f: &mut fmt::Formatter<W>) -> fmt::Result {
        f.write_char('"')?;
        for c in self.0 {
            if is_hidden(*c) {
                write!(f, "{}", Code(*c))?;
            } else if matches!(*c, '"' | '\\') {
                write!(f, "\\{c}")?;
            } else {
                f.write_char(*c)?;
            }
        }
        f.write_char('"')
    }
}

/// A text on which an engine tries all ways.
#[derive(Clone, Copy)]
pub struct AttackText<'a> {
    /// What leads to the repeat, if it was found.
    pub before: Option<&'a [char]>,
    /// What is repeated.
    pub word: &'a [char],
    /// What makes the engine try all ways.
    pub after: &'a [char],
    /// Whether fancy-regex hands the part on to the crate regex, which never backtracks.
    pub is_handed_on: bool,
}

impl fmt::Display for AttackText<'_> {
    fn fmt<W: fmt::Write>(&self, f: &mut fmt::Formatter<W>) -> fmt::Result {
        if let Some(before) = self.before
            && !before.is_empty()
        {
            write!(f, "{}, then ", QuotedCharacters(before))?;
        }
        write!(f, "{} repeated", QuotedCharacters(self.word))?;
        if !self.after.is_empty() {
            write!(f, ", then {}", QuotedCharacters(self.after))?;
        }
        if self.is_handed_on {
            f.write_str(" (not in fancy-regex)")?;
        }
        Ok(())
    }
}
