//! Texts as they are shown in a picture.
use patterns_text::shown::is_hidden;
use std::fmt;
use unicode_width::UnicodeWidthChar;

/// How a character is shown.
#[derive(Clone, Copy)]
enum Appearance {
    Itself(char),
    /// As its escape.
    Escape(&'static str),
    /// By its code.
    Code(u32),
}

impl Appearance {
    fn of(c: char) -> Appearance {
        match c {
            '\n' => Appearance::Itself('\u{21B5}'),
            '\r' => Appearance::Escape(r"\r"),
            '\t' => Appearance::Escape(r"\t"),
            _ if is_hidden(c) => Appearance::Code(u32::from(c)),
            _ => Appearance::Itself(c),
        }
    }

    /// How many columns it takes.
    fn columns(self) -> usize {
        match self {
            Appearance::Itself(c) => c.width().unwrap_or(0),
            Appearance::Escape(_) => 2,
            Appearance::Code(0..=0xFF) => 6,
            Appearance::Code(0x100..=0xFFFF) => 8,
            Appearance::Code(_) => 10,
        }
    }
}

/// In XML, and with as many digits as `columns` says.
impl fmt::Display for Appearance {
    fn fmt<W: fmt::Write>(&self, f: &mut fmt::Formatter<W>) -> fmt::Result {
        match *self {
            Appearance::Itself('<') => f.write_str("&lt;"),
            Appearance::Itself('>') => f.write_str("&gt;"),
            Appearance::Itself('&') => f.write_str("&amp;"),
            Appearance::Itself('"') => f.write_str("&quot;"),
            Appearance::Itself(c) => f.write_char(c),
            Appearance::Escape(escape) => f.write_str(escape),
            Appearance::Code(code @ 0..=0xFF) => write!(f, r"\u{{{code:02x}}}"),
            Appearance::Code(code @ 0x100..=0xFFFF) => write!(f, r"\u{{{code:04x}}}"),
            Appearance::Code(code) => write!(f, r"\u{{{code:06x}}}"),
        }
    }
}

/// Whether the character is shown as itself, in one column.
pub(crate) fn is_plain(c: char) -> bool {
    matches!(c, ' '..='~')
}

/// How many columns the character takes.
pub(crate) fn columns_of_char(c: char) -> usize {
    Appearance::of(c).columns()
}

/// How many columns the text takes.
pub(crate) fn columns(text: &str) -> usize {
    let mut columns: usize = 0;
    for c in text.chars() {
        columns = columns.saturating_add(columns_of_char(c));
    }
    columns
}

/// A text in XML, with nothing in it that XML takes for its own.
#[derive(Clone, Copy)]
pub(crate) struct Xml<'a>(pub(crate) &'a str);

impl fmt::Display for Xml<'_> {
    fn fmt<W: fmt::Write>(&self, f: &mut fmt::Formatter<W>) -> fmt::Result {
        for c in self.0.chars() {
            write!(f, "{}", Appearance::of(c))?;
        }
        Ok(())
    }
}

/// Lines of text in XML.
#[derive(Clone, Copy)]
pub(crate) struct XmlLines<'a>(pub(crate) &'a str);

impl fmt::Display for XmlLines<'_> {
    fn fmt<W: fmt::Write>(&self, f: &mut fmt::Formatter<W>) -> fmt::Result {
        for line in self.0.split_terminator('\n') {
            writeln!(f, "{}", Xml(line))?;
        }
        Ok(())
    }
}
