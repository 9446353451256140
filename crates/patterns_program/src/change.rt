//! How a change of a pattern is shown, and how a pattern is written.
use patterns_text::paint::Ink;
use patterns_text::shown::{Shown, ShownLines};
use patterns_text::subject::Subject;
use std::alloc::AllocError;
use std::io::Write;
use std::{fmt, io};

/// How many characters of a line are shown before its first difference, and from there on.
const BEFORE: usize = 40;

const AFTER: usize = 60;

/// Writes that the pattern would change, what it is, and what it would be.
pub(crate) fn write_change(out: &mut Vec<u8>, subject: Subject<'_>, text: &str) -> io::Result<()> {
    let Subject { at, pattern, .. } = subject;
    let (bold, red, green, end) = (
        at.listed.begin(Ink::Position),
        at.listed.begin(Ink::Removed),
        at.listed.begin(Ink::Added),
        at.listed.end(),
    );
    writeln!(out, "{bold}{at}:{end} would change")?;
    writeln!(out, "{red}-{}{end}", ShownLines(pattern))?;
    writeln!(out, "{green}+{}{end}", ShownLines(text))
}

/// Where two texts begin to differ, as a byte offset: the start of a character of both, or the end of one.
fn first_difference(one: &str, other: &str) -> usize {
    let same = one
        .bytes()
        .zip(other.bytes())
        .take_while(|(first, second)| first == second)
        .count();
    one.floor_char_boundary(same)
}

/// The line of a text that an offset is in, around that.
#[derive(Clone, Copy)]
struct Around<'a> {
    before: &'a str,
    after: &'a str,
}

impl<'a> Around<'a> {
    /// The line that has the offset.
    fn of(text: &'a str, offset: usize) -> Around<'a> {
        let (front, rest) = text.split_at(text.floor_char_boundary(offset));
        Around {
            before: front.rsplit_once('\n').map_or(front, |parts| parts.1),
            after: rest.split_once('\n').map_or(rest, |parts| parts.0),
        }
    }
}

impl fmt::Display for Around<'_> {
    fn fmt<W: fmt::Write>(&self, f: &mut fmt::Formatter<W>) -> fmt::Result {
        let Around { before, after } = *self;
        let start = before
            .char_indices()
            .rev()
            .nth(BEFORE.saturating_sub(1))
            .map_or(0, |(start, _)| start);
        let end = after.char_indices().nth(AFTER);
        if start > 0 {
            f.write_char('…')?;
        }
        write!(f, "{}", Shown(before.get(start..).unwrap_or("")))?;
        match end {
            Some((end, _)) => write!(f, "{}…", Shown(after.get(..end).unwrap_or(""))),
            None => write!(f, "{}", Shown(after)),
        }
    }
}

/// Writes where the pattern would change first, and the line there, as it is and as it would be.
pub(crate) fn write_difference(
    out: &mut Vec<u8>,
    subject: Subject<'_>,
    text: &str,
) -> io::Result<()> {
    let offset = first_difference(subject.pattern, text);
    let position = subject.part(offset).position(offset);
    let paint = subject.at.listed;
    let (bold, red, green, end) = (
        paint.begin(Ink::Position),
        paint.begin(Ink::Removed),
        paint.begin(Ink::Added),
        paint.end(),
    );
    writeln!(out, "{bold}{position}:{end} would change")?;
    writeln!(out, "{red}-{}{end}", Around::of(subject.pattern, offset))?;
    writeln!(out, "{green}+{}{end}", Around::of(text, offset))
}

/// Writes the text, and what it ends with.
pub(crate) fn write_ended(out: &mut Vec<u8>, text: &str, end: &[u8]) -> Result<(), AllocError> {
    out.extend_from_slice(text.as_bytes())?;
    out.extend_from_slice(end)
}
