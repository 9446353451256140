//! The groups of a document's patterns that have several lines, which an editor folds.
use fancy_syntax::expr::Expr;
use fancy_syntax::span::Span;
use json::Writer;
use pattern_documents::document::{OpenDocument, Settings};
use pattern_documents::ranges::{Located, Locator};
use pattern_files::entry::{Entry, Visitor};
use pattern_reports::json_lines::fields::write_number;
use patterns_program::edited::EditedPatterns;
use patterns_text::error::RunError;
use patterns_text::nodes::nodes_of;
use std::alloc::{AllocError, Global};

/// Writes the lines of groups.
#[derive(Drop)]
struct FoldWalk<'d> {
    alloc: Global,
    locator: Locator<'d>,
    patterns: &'d EditedPatterns,
    writer: &'d mut Writer,
}

impl FoldWalk<'_> {
    /// Writes the lines of a part of a pattern, if it has several.
    fn write(&mut self, located: Located<'_, '_>, span: Span) -> Result<(), AllocError> {
        let (start, end) = located.positions(span);
        if start.line == end.line {
            return Ok(());
        }
        self.writer.begin_object()?;
        write_number(self.writer, "startLine", start.line as u64)?;
        write_number(self.writer, "endLine", end.line as u64)?;
        self.writer.end_object()
    }
}

impl Visitor for FoldWalk<'_> {
    fn pattern(&mut self, entry: Entry<'_>) -> Result<(), RunError> {
        let located = self.locator.locate(entry);
        if !entry.contents.contains('\n') {
            return Ok(());
        }
        let Ok(parsed) = self.patterns.subject(entry).parse()? else {
            return Ok(());
        };
        for node in &nodes_of(self.alloc, &parsed)? {
            if let Expr::Group(_) = node.expr() {
                self.write(located, node.span())?;
            }
        }
        Ok(())
    }
}

/// Writes the lines of each group of a valid pattern that has several lines, as a list.
pub(crate) fn write_folds(
    given: Settings<'_>,
    document: &OpenDocument,
    writer: &mut Writer,
) -> Result<(), RunError> {
    writer.begin_array()?;
    let mut walk = FoldWalk {
        alloc: given.alloc,
        locator: Locator::new(given.encoding, document.source.text()),
        patterns: &document.patterns,
        writer,
    };
    document
        .source
        .visit(given, document.patterns.flags, &mut walk)?;
    walk.writer.end_array()?;
    Ok(())
}
