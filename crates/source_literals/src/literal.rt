//! A literal of a source, read as the characters of its text.
use crate::json::JsonString;
use crate::pieces::{Inside, Opened};
use crate::python::PythonString;
use crate::rust::RustString;
use crate::source_syntax::SourceSyntax;
use crate::xml::XmlText;
use crate::yaml::YamlScalar;
use std::alloc::{AllocError, Global};

/// A character of a text, and the bytes of its source that spell it.
#[derive(Debug, Clone, Copy, PartialEq, Eq)]
pub(crate) struct SpelledCharacter {
    /// The byte offset in the source at which its spelling begins.
    pub(crate) start: usize,
    /// The byte offset after its spelling.
    pub(crate) end: usize,
    pub(crate) character: char,
}

/// A literal of a source.
#[derive(Drop)]
pub(crate) struct Literal {
    /// The characters of its text, in order.
    pub(crate) characters: Vec<SpelledCharacter>,
    /// The byte offset after the literal.
    pub(crate) end: usize,
}

/// Reads the pieces of a literal, which begins at the byte offset of its source; `rest` is the source from there on.
fn read_pieces<I: Inside>(
    alloc: Global,
    rest: &str,
    start: usize,
    opened: Option<Opened<I>>,
) -> Result<Option<Literal>, AllocError> {
    let Some(Opened { bytes, mut inside }) = opened else {
        return Ok(None);
    };
    let mut characters = Vec::new(alloc);
    let mut done = bytes;
    for _ in 0..=rest.len() {
        let Some(piece) = rest.get(done..).and_then(|left| inside.piece(left)) else {
            return Ok(None);
        };
        let next = done.saturating_add(piece.bytes);
        let end = start.saturating_add(next);
        if let Some(character) = piece.character {
            characters.push(SpelledCharacter {
                start: start.saturating_add(done),
                end,
                character,
            })?;
        }
        let Some(after) = piece.after else {
            return Ok(Some(Literal { characters, end }));
        };
        done = next;
        inside = after;
    }
    Ok(None)
}

/// Reads the literal that begins at the byte offset of a source: for XML the contents of an element, and otherwise a literal
/// with its delimiters. None if no literal begins there, it is not closed, or it has an escape or a form that is not read
/// here: a character by its name in Python, an entity of XML that is declared, and in YAML what takes several lines, but for
/// a literal block without an indentation indicator, and what is no text if it is plain.
pub(crate) fn read_literal(
    alloc: Global,
    syntax: SourceSyntax,
    source: &str,
    start: usize,
) -> Result<Option<Literal>, AllocError> {
    let Some(rest) = source.get(start..) else {
        return Ok(None);
    };
    match syntax {
        SourceSyntax::Python => read_pieces(alloc, rest, start, PythonString::open(rest)),
        SourceSyntax::Rust => read_pieces(alloc, rest, start, RustString::open(rest)),
        SourceSyntax::Json => read_pieces(alloc, rest, start, JsonString::open(rest)),
        SourceSyntax::Xml => read_pieces(alloc, rest, start, Some(XmlText::open())),
        SourceSyntax::Yaml => read_pieces(alloc, rest, start, YamlScalar::open(rest, false)),
        SourceSyntax::YamlFlow => read_pieces(alloc, rest, start, YamlScalar::open(rest, true)),
    }
}
