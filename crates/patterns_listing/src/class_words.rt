//! What a class contains.
use class_meaning::ClassMeaning;
use patterns_text::shown::Code;
use std::fmt;

/// How many ranges of a class are written.
const MAX_RANGES: usize = 8;

/// A character of a class, by its code: as it is, if it is a letter, a digit or punctuation of ASCII, and otherwise as an escape.
#[derive(Clone, Copy)]
struct Member(u32);

impl fmt::Display for Member {
    fn fmt<W: fmt::Write>(&self, f: &mut fmt::Formatter<W>) -> fmt::Result {
        match char::from_u32(self.0) {
            Some(c) if c.is_ascii_graphic() => f.write_char(c),
            Some(c) => write!(f, "{}", Code(c)),
            None => Ok(()),
        }
    }
}

/// The characters from one code to another.
#[derive(Clone, Copy)]
struct Members(u32, u32);

impl fmt::Display for Members {
    fn fmt<W: fmt::Write>(&self, f: &mut fmt::Formatter<W>) -> fmt::Result {
        let Members(first, last) = *self;
        write!(f, "{}", Member(first))?;
        if first == last {
            return Ok(());
        }
        write!(f, "-{}", Member(last))
    }
}

/// The first ranges of a class, and how many more it has; or why the engine refuses it.
#[derive(Clone, Copy)]
pub struct ClassWords<'a>(pub &'a ClassMeaning);

impl fmt::Display for ClassWords<'_> {
    fn fmt<W: fmt::Write>(&self, f: &mut fmt::Formatter<W>) -> fmt::Result {
        match self.0 {
            ClassMeaning::Characters(set) => write!(f, "{}", FirstRanges(set.ranges())),
            ClassMeaning::Refused(error) => write!(f, "refused: {}", error.kind.message()),
            ClassMeaning::NotOneCharacter => f.write_str("not one character"),
        }
    }
}

/// The first of these ranges, and how many more there are.
#[derive(Clone, Copy)]
struct FirstRanges<'a>(&'a [(u32, u32)]);

impl fmt::Display for FirstRanges<'_> {
    fn fmt<W: fmt::Write>(&self, f: &mut fmt::Formatter<W>) -> fmt::Result {
        let ranges = self.0;
        if ranges.is_empty() {
            return f.write_str("no character");
        }
        for (i, (first, last)) in ranges.iter().take(MAX_RANGES).enumerate() {
            if i > 0 {
                f.write_char(' ')?;
            }
            write!(f, "{}", Members(*first, *last))?;
        }
        match ranges.len().saturating_sub(MAX_RANGES) {
            0 => Ok(()),
            1 => f.write_str(" and 1 more range"),
            more => write!(f, " and {more} more ranges"),
        }
    }
}
