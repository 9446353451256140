//! What is in an element of XML that has no other elements.
use crate::pieces::{Inside, Opened, Piece, line_break};

/// What begins a section whose text has no markup, and what ends it.
const CDATA: &str = "<![CDATA[";

const CDATA_END: &str = "]]>";

/// Inside an element.
#[derive(Clone, Copy)]
pub(crate) enum XmlText {
    /// In text, which may have entities.
    Text,
    /// In a CDATA section.
    Cdata,
}

/// The character of an entity by its name.
fn named(name: &str) -> Option<char> {
    match name {
        "lt" => Some('<'),
        "gt" => Some('>'),
        "amp" => Some('&'),
        "quot" => Some('"'),
        "apos" => Some('\''),
        _ => None,
    }
}

/// The character of an entity by its number, in decimal or in hexadecimal after an x.
fn numbered(number: &str) -> Option<char> {
    let (digits, radix) = match number.strip_prefix('x') {
        Some(digits) => (digits, 16),
        None => (number, 10),
    };
    if digits.starts_with('+') {
        return None;
    }
    char::from_u32(u32::from_str_radix(digits, radix).ok()?)
}

/// How many bytes the markup takes that begins with the first text and ends with the second.
fn markup(rest: &str, begins: &str, ends: &str) -> Option<usize> {
    let inside = rest.strip_prefix(begins)?;
    let length = inside.find(ends)?;
    Some(
        begins
            .len()
            .saturating_add(length)
            .saturating_add(ends.len()),
    )
}

impl XmlText {
    /// The contents of an element.
    pub(crate) fn open() -> Opened<XmlText> {
        Opened {
            bytes: 0,
            inside: XmlText::Text,
        }
    }

    /// The character that the rest begins with. A line ends with a line feed, however it ends in the source.
    fn plain(self, rest: &str) -> Option<Piece<XmlText>> {
        let broken = line_break(rest);
        if broken > 0 {
            return Some(Piece::character('\n', broken, self));
        }
        let first = rest.chars().next()?;
        Some(Piece::character(first, first.len_utf8(), self))
    }

    /// The entity that the rest begins with.
    fn entity(self, rest: &str) -> Option<Piece<XmlText>> {
        let (name, _) = rest.strip_prefix('&')?.split_once(';')?;
        let character = match name.strip_prefix('#') {
            Some(number) => numbered(number)?,
            None => named(name)?,
        };
        Some(Piece::character(character, name.len().saturating_add(2), self))
    }

    /// The markup that the rest begins with: the end of the element, a section, a comment or a processing instruction.
    fn tag(self, rest: &str) -> Option<Piece<XmlText>> {
        if rest.starts_with("</") {
            return Some(Piece::end(0));
        }
        if rest.starts_with(CDATA) {
            return Some(Piece::nothing(CDATA.len(), XmlText::Cdata));
        }
        let bytes = markup(rest, "<!--", "-->").or(markup(rest, "<?", "?>"))?;
        Some(Piece::nothing(bytes, self))
    }
}

impl Inside for XmlText {
    fn piece(self, rest: &str) -> Option<Piece<XmlText>> {
        match self {
            XmlText::Cdata if rest.starts_with(CDATA_END) => {
                Some(Piece::nothing(CDATA_END.len(), XmlText::Text))
            }
            XmlText::Cdata => self.plain(rest),
            XmlText::Text if rest.starts_with('<') => self.tag(rest),
            XmlText::Text if rest.starts_with('&') => self.entity(rest),
            XmlText::Text if rest.starts_with(CDATA_END) => None,
            XmlText::Text => self.plain(rest),
        }
    }
}
