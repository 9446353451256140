//! The groups of a document's patterns, as an outline.
use crate::query::write_location;
use fancy_syntax::expr::Expr;
use fancy_syntax::span::Span;
use fancy_syntax::spanned::SpannedTree;
use json::Writer;
use pattern_documents::document::{OpenDocument, Settings};
use pattern_documents::ranges::{Located, Locator};
use pattern_files::entry::{Entry, Visitor};
use pattern_reports::json_lines::fields::{write_number, write_text};
use patterns_program::edited::EditedPatterns;
use patterns_text::error::RunError;
use patterns_text::names::Names;
use patterns_text::nodes::nodes_of;
use patterns_text::shown::Shown;
use std::alloc::{AllocError, Global};

/// How many characters of a pattern its symbol has.
const MAX_CHARACTERS: usize = 60;

/// How many symbols of a document are sent, and those of one pattern more.
const MAX_SYMBOLS: usize = 20_000;

/// The numbers that the protocol has for a constant, and for a key.
const CONSTANT: u64 = 14;

const KEY: u64 = 20;

/// The start of a pattern, without characters that have no shape of their own.
fn symbol_name(alloc: Global, pattern: &str) -> Result<String, AllocError> {
    let mut start = String::new(alloc);
    for c in pattern.chars().take(MAX_CHARACTERS) {
        start.push(c)?;
    }
    let more = if start.len() < pattern.len() { "…" } else { "" };
    format!(in alloc; "{}{more}", Shown(start.as_str()))
}

/// Writes the name and the kind of a symbol.
fn write_named(writer: &mut Writer, name: &str, kind: u64) -> Result<(), AllocError> {
    write_text(writer, "name", name)?;
    write_number(writer, "kind", kind)
}

/// Writes the symbols of patterns.
#[derive(Drop)]
struct OutlineWalk<'d> {
    alloc: Global,
    uri: &'d str,
    /// Whether the symbols of groups are in those of what is around them. Else they follow these.
    is_nested: bool,
    locator: Locator<'d>,
    patterns: &'d EditedPatterns,
    /// How many symbols are written.
    count: usize,
    writer: &'d mut Writer,
}

impl OutlineWalk<'_> {
    /// Writes the symbol of a part of a pattern, whose end is to be written after the symbols in it.
    fn begin(
        &mut self,
        located: Located<'_, '_>,
        name: &str,
        kind: u64,
        span: Span,
    ) -> Result<(), AllocError> {
        self.count = self.count.saturating_add(1);
        self.writer.begin_object()?;
        write_named(self.writer, name, kind)?;
        if !self.is_nested {
            self.writer.key("location")?;
            write_location(self.writer, self.uri, located, span)?;
            return self.writer.end_object();
        }
        for key in ["range", "selectionRange"] {
            self.writer.key(key)?;
            located.write_range(self.writer, span)?;
        }
        self.writer.key("children")?;
        self.writer.begin_array()
    }

    /// Writes the end of a symbol.
    fn end(&mut self) -> Result<(), AllocError> {
        if self.is_nested {
            self.writer.end_array()?;
            self.writer.end_object()?;
        }
        Ok(())
    }

    /// Writes the ends of the symbols whose parts end before the byte offset. Those of the parts that are begun are given.
    fn end_before(&mut self, ends: &mut Vec<usize>, offset: usize) -> Result<(), AllocError> {
        for _ in 0..ends.len() {
            if ends.last().is_some_and(|end| offset < *end) {
                break;
            }
            ends.pop();
            self.end()?;
        }
        Ok(())
    }

    /// Writes the symbols of a pattern and of its groups.
    fn write(&mut self, located: Located<'_, '_>, parsed: &SpannedTree) -> Result<(), AllocError> {
        let (alloc, pattern) = (self.alloc, located.entry.pattern);
        let end = pattern.len();
        let name = symbol_name(alloc, pattern)?;
        self.begin(located, name.as_str(), CONSTANT, Span { start: 0, end })?;
        let mut ends = vec![in alloc; end]?;
        let names = Names::of(alloc, &parsed.tree)?;
        let mut number = 0usize;
        for node in &nodes_of(alloc, parsed)? {
            if let Expr::Group(_) = node.expr() {
                let span = node.span();
                self.end_before(&mut ends, span.start)?;
                number = number.saturating_add(1);
                let group = format!(in alloc; "{}", names.group(number))?;
                self.begin(located, group.as_str(), KEY, span)?;
                ends.push(span.end)?;
            }
        }
        self.end_before(&mut ends, usize::MAX)
    }
}

impl Visitor for OutlineWalk<'_> {
    fn pattern(&mut self, entry: Entry<'_>) -> Result<(), RunError> {
        let located = self.locator.locate(entry);
        // The name of a symbol may not be blank.
        if entry.pattern.trim().is_empty() {
            return Ok(());
        }
        if let Ok(parsed) = self.patterns.subject(entry).parse()? {
            self.write(located, &parsed)?;
        }
        Ok(())
    }

    fn is_done(&self) -> bool {
        self.count >= MAX_SYMBOLS
    }
}

/// Writes a symbol for each valid pattern of a document that is not blank, and for each of its groups: in the symbols of what
/// is around them if `is_nested` says so, else one after another.
pub(crate) fn write_symbols(
    given: Settings<'_>,
    uri: &str,
    document: &OpenDocument,
    is_nested: bool,
    writer: &mut Writer,
) -> Result<(), RunError> {
    writer.begin_array()?;
    let mut walk = OutlineWalk {
        alloc: given.alloc,
        uri,
        is_nested,
        locator: Locator::new(given.encoding, document.source.text()),
        patterns: &document.patterns,
        count: 0,
        writer,
    };
    document
        .source
        .visit(given, document.patterns.flags, &mut walk)?;
    walk.writer.end_array()?;
    Ok(())
}
