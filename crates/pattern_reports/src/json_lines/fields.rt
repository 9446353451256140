//! The fields of objects of JSON, each of which is written as a line.
use fancy_syntax::span::Span;
use json::Writer;
use patterns_text::error::RunError;
use patterns_text::excerpt::Related;
use patterns_text::position::{CharacterTable, FilePosition, Spot};
use patterns_text::subject::Subject;
use std::alloc::{AllocError, Global};
use std::io::Write;

/// Writes a field that is a text.
pub fn write_text(writer: &mut Writer, name: &str, text: &str) -> Result<(), AllocError> {
    writer.key(name)?;
    writer.string(text)
}

/// Writes a field that is a number.
pub fn write_number(writer: &mut Writer, name: &str, number: u64) -> Result<(), AllocError> {
    writer.key(name)?;
    writer.u64(number)
}

/// Writes a field that is true or false.
pub fn write_bool(writer: &mut Writer, name: &str, is_so: bool) -> Result<(), AllocError> {
    writer.key(name)?;
    writer.boolean(is_so)
}

/// Writes the fields of the path of a value of JSON, and of the position of the value.
fn write_path(writer: &mut Writer, position: FilePosition, path: &str) -> Result<(), AllocError> {
    write_text(writer, "path", path)?;
    write_number(writer, "file_line", position.line)?;
    write_number(writer, "file_column", position.column)
}

/// Writes the fields that say where in its file a pattern is. That of a source is where its part is that begins at the byte
/// offset.
fn write_spot(writer: &mut Writer, subject: Subject<'_>, offset: usize) -> Result<(), AllocError> {
    match subject.part(offset).at.spot {
        Spot::Line(line) => write_number(writer, "line", line),
        Spot::Path { position, path } => write_path(writer, position, path),
        Spot::Value { position, path, .. } => {
            write_path(
                writer,
                position,
                format!(in subject.alloc; "{path}")?.as_str(),
            )
        }
        Spot::Source(_) => Ok(()),
    }
}

/// Begins an object of this type on a pattern, or on its part that begins at the byte offset.
pub(crate) fn begin(subject: Subject<'_>, kind: &str, offset: usize) -> Result<Writer, AllocError> {
    let mut writer = Writer::new(Vec::new(subject.alloc));
    writer.begin_object()?;
    write_text(&mut writer, "type", kind)?;
    write_text(&mut writer, "file", subject.at.file)?;
    write_spot(&mut writer, subject, offset)?;
    write_text(&mut writer, "pattern", subject.pattern)?;
    Ok(writer)
}

/// Writes the fields of a span: in bytes, and in characters.
pub(crate) fn write_span(
    writer: &mut Writer,
    characters: &CharacterTable,
    span: Span,
) -> Result<(), AllocError> {
    write_number(writer, "start", span.start as u64)?;
    write_number(writer, "end", span.end as u64)?;
    write_number(writer, "start_character", characters.index(span.start))?;
    write_number(writer, "end_character", characters.index(span.end))
}

/// Writes the field of a related part, if there is one.
pub(crate) fn write_related(
    alloc: Global,
    writer: &mut Writer,
    characters: &CharacterTable,
    related: Option<Related>,
) -> Result<(), AllocError> {
    let Some(Related { span, label }) = related else {
        return Ok(());
    };
    writer.key("related")?;
    writer.begin_object()?;
    write_span(writer, characters, span)?;
    write_text(writer, "label", format!(in alloc; "{label}")?.as_str())?;
    writer.end_object()
}

/// Ends the object, and writes it.
pub(crate) fn finish(mut writer: Writer, out: &mut Vec<u8>) -> Result<(), RunError> {
    writer.end_object()?;
    out.write_all(&writer.into_inner())?;
    out.write_all(b"\n")?;
    Ok(())
}
