//! Documents and parts of them, formatted.
use crate::document::{OpenDocument, Settings};
use crate::ranges::{Locator, touches};
use fancy_syntax::span::Span;
use json::Writer;
use pattern_files::entry::{Entry, Visitor};
use pattern_reports::json_lines::fields::write_text;
use patterns_program::edited::EditedPatterns;
use patterns_program::rewriting::{PatternForm, form_of};
use patterns_text::error::RunError;

/// Writes the edits that format the patterns of a part of a document.
#[derive(Drop)]
struct FormatWalk<'d> {
    locator: Locator<'d>,
    patterns: &'d EditedPatterns,
    form: PatternForm,
    /// The part, in byte offsets; None for all.
    part: Option<Span>,
    writer: &'d mut Writer,
}

impl Visitor for FormatWalk<'_> {
    fn pattern(&mut self, entry: Entry<'_>) -> Result<(), RunError> {
        let located = self.locator.locate(entry);
        if self.part.is_some_and(|part| !touches(part, entry.span)) {
            return Ok(());
        }
        let Some(part) = self.patterns.formatted(entry, self.form)? else {
            return Ok(());
        };
        self.writer.begin_object()?;
        self.writer.key("range")?;
        located.write_whole(self.writer)?;
        write_text(self.writer, "newText", part.text.as_str())?;
        self.writer.end_object()?;
        Ok(())
    }
}

/// Writes the edits that format the patterns of a document, or of a part of it, as a list.
pub fn write_formatted(
    given: Settings<'_>,
    document: &OpenDocument,
    part: Option<Span>,
    writer: &mut Writer,
) -> Result<(), RunError> {
    let settings = document.source.format(given)?;
    let has_lines = document.source.has_several_lines(given)?;
    writer.begin_array()?;
    let mut walk = FormatWalk {
        locator: Locator::new(given.encoding, document.source.text()),
        patterns: &document.patterns,
        form: form_of(settings, has_lines),
        part,
        writer,
    };
    document
        .source
        .visit(given, document.patterns.flags, &mut walk)?;
    walk.writer.end_array()?;
    Ok(())
}
