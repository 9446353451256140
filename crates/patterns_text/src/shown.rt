//! Texts as people are shown them. What has no shape of its own is written as an escape: raw, it would change the
//! terminal, or the order of what is around it.
ghost use Rattle.std.specs.Prelude.{◌≡◌};
ghost use Rattle.patterns_text.specs.Shown as spec;

use std::fmt;
use unicode::properties::GeneralCategory;
use unicode_width::{UnicodeWidthChar, UnicodeWidthStr};

/// Whether the category is that of control or format characters, of separators of lines or paragraphs, or of what Unicode
/// does not assign.
fn is_hidden_category(category: GeneralCategory) -> bool
    ensures { result ≡ spec.is_hidden_category category }
{
    matches!(
        category,
        GeneralCategory::Control
            | GeneralCategory::Format
            | GeneralCategory::Unassigned
            | GeneralCategory::LineSeparator
            | GeneralCategory::ParagraphSeparator
    )
}

/// Whether the character is a control character, a format character, a separator of lines or paragraphs, or not assigned by
/// Unicode. Each character that may not be in XML is hidden.
pub fn is_hidden(c: char) -> bool
    ensures { result ≡ spec.is_hidden c }
{
    is_hidden_category(GeneralCategory::for_char(c))
}

/// A character as its escape: `\x` and two digits in ASCII, and otherwise `\u` with its code in braces.
#[derive(Clone, Copy)]
pub struct Code(pub char);

impl Code {
    /// How many columns it takes.
    fn width(self) -> usize {
        match u32::from(self.0) {
            ..0x80 => 4,
            ..0x100 => 6,
            ..0x1000 => 7,
            ..0x10000 => 8,
            ..0x10_0000 => 9,
            _ => 10,
        }
    }
}

impl fmt::Display for Code {
    fn fmt<W: fmt::Write>(&self, f: &mut fmt::Formatter<W>) -> fmt::Result {
        let code = u32::from(self.0);
        if self.0.is_ascii() {
            write!(f, r"\x{code:02x}")
        } else {
            write!(f, r"\u{{{code:x}}}")
        }
    }
}

/// Whether `Shown` writes the character as its escape.
fn is_escaped(c: char) -> bool {
    c != '\t' && is_hidden(c)
}

/// A text with each hidden character but the tab as its escape.
#[derive(Clone, Copy)]
pub struct Shown<'a>(pub &'a str);

impl fmt::Display for Shown<'_> {
    fn fmt<W: fmt::Write>(&self, f: &mut fmt::Formatter<W>) -> fmt::Result {
        for c in self.0.chars() {
            if is_escaped(c) {
                write!(f, "{}", Code(c))?;
            } else {
                f.write_char(c)?;
            }
        }
        Ok(())
    }
}

/// How many columns `Shown` takes of the character; of a tab one.
pub(crate) fn char_width(c: char) -> usize {
    if is_escaped(c) {
        Code(c).width()
    } else {
        c.width().unwrap_or(1)
    }
}

/// How many columns `Shown` takes of the text; of a tab one.
pub(crate) fn shown_width(text: &str) -> usize {
    let mut width = 0usize;
    let mut start = 0usize;
    for (i, c) in text.char_indices() {
        if is_escaped(c) {
            let before = text.get(start..i).unwrap_or("").width();
            width = width.saturating_add(before).saturating_add(Code(c).width());
            start = i.saturating_add(c.len_utf8());
        }
    }
    width.saturating_add(text.get(start..).unwrap_or("").width())
}

/// Several lines, each as `Shown` writes it.
#[derive(Clone, Copy)]
pub struct ShownLines<'a>(pub &'a str);

impl fmt::Display for ShownLines<'_> {
    fn fmt<W: fmt::Write>(&self, f: &mut fmt::Formatter<W>) -> fmt::Result {
        for (i, line) in self.0.split('\n').enumerate() {
            if i > 0 {
                f.write_char('\n')?;
            }
            write!(f, "{}", Shown(line))?;
        }
        Ok(())
    }
}

/// As many blanks as `Shown` takes columns. A tab stays a tab, so that it takes what it takes in the text.
#[derive(Clone, Copy)]
pub struct Blank<'a>(pub &'a str);

impl fmt::Display for Blank<'_> {
    fn fmt<W: fmt::Write>(&self, f: &mut fmt::Formatter<W>) -> fmt::Result {
        for (i, part) in self.0.split('\t').enumerate() {
            if i > 0 {
                f.write_char('\t')?;
            }
            for _ in 0..shown_width(part) {
                f.write_char(' ')?;
            }
        }
        Ok(())
    }
}
