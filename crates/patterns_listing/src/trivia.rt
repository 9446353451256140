//! What no node of a pattern's tree has, a line each.
use fancy_syntax::trivium::{Trivium, TriviumKind};
use patterns_text::flag_letters::FlagLetters;
use patterns_text::words::Visible;
use std::io::Write;
use std::{fmt, io};

/// What a part of a pattern is that no node has, described.
#[derive(Clone, Copy)]
struct KindWords(TriviumKind);

impl fmt::Display for KindWords {
    fn fmt<W: fmt::Write>(&self, f: &mut fmt::Formatter<W>) -> fmt::Result {
        let (name, changed, before, after) = match self.0 {
            TriviumKind::Comment => return f.write_str("comment"),
            TriviumKind::LineComment => return f.write_str("comment to the end of the line"),
            TriviumKind::Closing => return f.write_str("closing parenthesis"),
            TriviumKind::Dropped => return f.write_str("without effect"),
            TriviumKind::InnerComment => return f.write_str("comment in a token"),
            TriviumKind::InnerLineComment => {
                return f.write_str("comment to the end of the line, in a token");
            }
            TriviumKind::InlineFlags { before, after } => ("flags", "flags", before, after),
            TriviumKind::Opening { around, inside } => {
                ("opening", "opening, flags", around, inside)
            }
        };
        if before == after {
            return f.write_str(name);
        }
        write!(
            f,
            "{changed} from {} to {}",
            FlagLetters(before),
            FlagLetters(after)
        )
    }
}

/// Writes what no node has, in the order of the text, a line each: what it is, its span, and its text.
pub(crate) fn write_trivia(out: &mut Vec<u8>, pattern: &str, trivia: &[Trivium]) -> io::Result<()> {
    for Trivium { span, kind } in trivia {
        writeln!(
            out,
            "{} at {}..{}: {}",
            KindWords(*kind),
            span.start,
            span.end,
            Visible(span.text(pattern).unwrap_or(""))
        )?;
    }
    Ok(())
}
