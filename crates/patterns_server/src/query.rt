//! What is asked about the part of a pattern at a position.
use crate::asked::Refused;
use crate::named::{NO_NAME, write_name, write_renamed};
use class_meaning::characters_of;
use editor_documents::cursor::Cursor;
use fancy_lex::flags::Flags;
use fancy_syntax::expr::Expr;
use fancy_syntax::span::Span;
use fancy_syntax::spanned::{SpannedNode, SpannedTree};
use json::Writer;
use pattern_documents::document::{OpenDocument, Settings};
use pattern_documents::ranges::{Located, Locator, write_range};
use pattern_files::entry::{Entry, Visitor};
use pattern_reports::json_lines::fields::{write_number, write_text};
use patterns_listing::class_words::ClassWords;
use patterns_listing::fact_words::{FactRows, FactWords};
use patterns_program::edited::EditedPatterns;
use patterns_text::columns::ColumnTable;
use patterns_text::error::RunError;
use patterns_text::names::Names;
use patterns_text::nodes::nodes_of;
use patterns_text::subject::Subject;
use patterns_text::words::{Held, is_reference, write_reference};
use std::alloc::{AllocError, Global};
use std::io::Write;
use std::str;

/// What is asked.
#[derive(Clone, Copy)]
pub(crate) enum Query<'a> {
    /// What is there, in words.
    Hover,
    /// The group that is referred to.
    Definition,
    /// The references to the group, and the group itself, if so.
    References { has_group: bool },
    /// The group with its references, in this document.
    Highlight,
    /// The parts around the position, the smallest one first.
    Selection,
    /// The part that a rename replaces: the name of the group.
    Name,
    /// The edits by which the group gets this name.
    Rename(&'a str),
}

/// A pattern with its tree.
#[derive(Clone, Copy)]
pub(crate) struct ReadPattern<'d, 's, 't> {
    pub(crate) located: Located<'d, 's>,
    pub(crate) subject: Subject<'s>,
    pub(crate) parsed: &'t SpannedTree,
    pub(crate) nodes: &'t [SpannedNode<'t>],
}

/// The number of the group that a reference refers to, if it refers to one.
fn referred(node: &Expr) -> Option<usize> {
    if let Expr::Backref { group, .. }
    | Expr::BackrefWithRelativeRecursionLevel { group, .. }
    | Expr::BackrefExistsCondition { group, .. }
    | Expr::SubroutineCall(group) = node
    {
        return Some(*group);
    }
    None
}

impl<'t> ReadPattern<'_, '_, 't> {
    /// The number of the group that is this node; None if it is no group.
    fn number(self, node: SpannedNode<'t>) -> Option<usize> {
        let mut number = 0usize;
        for other in self.nodes {
            if let Expr::Group(_) = other.expr() {
                number = number.saturating_add(1);
                if other.span() == node.span() {
                    return Some(number);
                }
            }
        }
        None
    }

    /// The span of the group of this number; of the group 0 that of the whole pattern.
    pub(crate) fn group(self, number: usize) -> Option<Span> {
        if number == 0 {
            return Some(Span {
                start: 0,
                end: self.subject.pattern.len(),
            });
        }
        Some(self.group_node(number)?.span())
    }

    /// The group of this number, which is at least 1.
    pub(crate) fn group_node(self, number: usize) -> Option<SpannedNode<'t>> {
        let groups = self
            .nodes
            .iter()
            .filter(|node| matches!(node.expr(), Expr::Group(_)));
        groups.skip(number.saturating_sub(1)).next().copied()
    }

    /// The group that is meant at a node: the group itself, or the one that a reference refers to.
    pub(crate) fn meant(self, node: SpannedNode<'t>) -> Option<usize> {
        if let Expr::Group(_) = node.expr() {
            return self.number(node);
        }
        referred(node.expr())
    }

    /// The spans of the references to the group of this number.
    pub(crate) fn references(self, alloc: Global, number: usize) -> Result<Vec<Span>, AllocError> {
        let mut spans = Vec::new(alloc);
        for node in self.nodes {
            if referred(node.expr()) == Some(number) {
                spans.push(node.span())?;
            }
        }
        Ok(spans)
    }

    /// The smallest node at the byte offset, and those around it, the largest one first, each with its index.
    fn path(
        self,
        alloc: Global,
        offset: usize,
    ) -> Result<Vec<(usize, SpannedNode<'t>)>, AllocError> {
        let mut path = Vec::new(alloc);
        for (index, node) in self.nodes.iter().enumerate() {
            let Span { start, end } = node.span();
            let is_last = end == self.subject.pattern.len() && offset == end;
            if start <= offset && (offset < end || is_last) {
                path.push((index, *node))?;
            }
        }
        Ok(path)
    }

    /// The number of the innermost group around the smallest node of the path.
    fn group_around(self, path: &[(usize, SpannedNode<'t>)]) -> Option<usize> {
        let (_, around) = path.split_last()?;
        let is_group = |node: &SpannedNode<'_>| matches!(node.expr(), Expr::Group(_));
        let (_, group) = around.iter().rfind(|(_, node)| is_group(node))?;
        self.number(*group)
    }

    /// What is known of the matches of the node of this index.
    fn facts(self, index: usize) -> Result<FactWords, AllocError> {
        let rows = FactRows::of(self.subject, true, self.parsed)?;
        Ok(FactWords(rows.row(index)))
    }
}

/// Describes a node that is no group.
fn describe(
    pattern: ReadPattern<'_, '_, '_>,
    node: SpannedNode<'_>,
    names: &Names<'_>,
    words: &mut Vec<u8>,
) -> Result<(), RunError> {
    let Subject { alloc, flags, .. } = pattern.subject;
    if is_reference(node.expr()) {
        let columns = ColumnTable::of(alloc, pattern.subject.pattern, pattern.nodes)?;
        write_reference(words, node.expr(), names, &columns)?;
        return Ok(());
    }
    write!(words, "{}", Held(node.expr()))?;
    if let Expr::Delegate { .. } = node.expr() {
        let meaning = characters_of(alloc, node.expr(), Flags::from_bits(flags).unicode)?;
        write!(words, ": {}", ClassWords(&meaning))?;
    }
    Ok(())
}

/// What is at the smallest node of the path, which has this index, in words: how long its matches are, if that is known, and
/// which group is around it, if one is.
fn hover_words(
    pattern: ReadPattern<'_, '_, '_>,
    path: &[(usize, SpannedNode<'_>)],
    index: usize,
    node: SpannedNode<'_>,
) -> Result<Vec<u8>, RunError> {
    let alloc = pattern.subject.alloc;
    let names = Names::of(alloc, &pattern.parsed.tree)?;
    let mut words = Vec::new(alloc);
    match pattern.number(node) {
        Some(number) if matches!(node.expr(), Expr::Group(_)) => {
            write!(words, "{}", names.group(number))?;
        }
        _ => describe(pattern, node, &names, &mut words)?,
    }
    let facts = pattern.facts(index)?;
    if facts.0.is_some() {
        write!(words, "\nmatches: {facts}")?;
    }
    if let Some(number) = pattern.group_around(path) {
        write!(words, "\nin {}", names.group(number))?;
    }
    Ok(words)
}

/// Writes what is at the smallest node of the path, which has this index.
fn write_hover(
    pattern: ReadPattern<'_, '_, '_>,
    path: &[(usize, SpannedNode<'_>)],
    index: usize,
    node: SpannedNode<'_>,
    writer: &mut Writer,
) -> Result<(), RunError> {
    let words = hover_words(pattern, path, index, node)?;
    writer.begin_object()?;
    writer.key("contents")?;
    writer.begin_object()?;
    write_text(writer, "kind", "plaintext")?;
    write_text(writer, "value", str::from_utf8(&words).unwrap_or(""))?;
    writer.end_object()?;
    writer.key("range")?;
    pattern.located.write_range(writer, node.span())?;
    writer.end_object()?;
    Ok(())
}

/// Writes where a part of a pattern is, with its document.
pub(crate) fn write_location(
    writer: &mut Writer,
    uri: &str,
    located: Located<'_, '_>,
    span: Span,
) -> Result<(), AllocError> {
    writer.begin_object()?;
    write_text(writer, "uri", uri)?;
    writer.key("range")?;
    located.write_range(writer, span)?;
    writer.end_object()
}

/// Writes the group that is referred to.
fn write_definition(
    pattern: ReadPattern<'_, '_, '_>,
    uri: &str,
    node: SpannedNode<'_>,
    writer: &mut Writer,
) -> Result<(), AllocError> {
    match pattern.meant(node).and_then(|number| pattern.group(number)) {
        Some(span) => write_location(writer, uri, pattern.located, span),
        None => writer.null(),
    }
}

/// Writes the references to the group that is meant, and the group, if so.
fn write_references(
    pattern: ReadPattern<'_, '_, '_>,
    uri: &str,
    node: SpannedNode<'_>,
    has_group: bool,
    writer: &mut Writer,
) -> Result<(), AllocError> {
    writer.begin_array()?;
    if let Some(number) = pattern.meant(node) {
        if let Some(span) = pattern.group(number)
            && has_group
        {
            write_location(writer, uri, pattern.located, span)?;
        }
        for span in &pattern.references(pattern.subject.alloc, number)? {
            write_location(writer, uri, pattern.located, *span)?;
        }
    }
    writer.end_array()
}

/// Writes the parts of the document that belong to the group that is meant.
fn write_highlights(
    pattern: ReadPattern<'_, '_, '_>,
    node: SpannedNode<'_>,
    writer: &mut Writer,
) -> Result<(), AllocError> {
    writer.begin_array()?;
    if let Some(number) = pattern.meant(node) {
        let mut spans = pattern.references(pattern.subject.alloc, number)?;
        if let Some(span) = pattern.group(number) {
            spans.push(span)?;
        }
        for span in &spans {
            writer.begin_object()?;
            writer.key("range")?;
            pattern.located.write_range(writer, *span)?;
            write_number(writer, "kind", 1)?;
            writer.end_object()?;
        }
    }
    writer.end_array()
}

/// Writes the parts around a position, the smallest one outermost, with those around it as its parents.
fn write_selection(
    pattern: ReadPattern<'_, '_, '_>,
    path: &[(usize, SpannedNode<'_>)],
    writer: &mut Writer,
) -> Result<(), AllocError> {
    writer.begin_object()?;
    for (count, (_, node)) in path.iter().rev().enumerate() {
        if count > 0 {
            writer.key("parent")?;
            writer.begin_object()?;
        }
        writer.key("range")?;
        pattern.located.write_range(writer, node.span())?;
    }
    for _ in path {
        writer.end_object()?;
    }
    Ok(())
}

/// Answers a query about the pattern at a position.
#[derive(Drop)]
struct QueryWalk<'q, 'd> {
    alloc: Global,
    query: Query<'q>,
    uri: &'q str,
    /// The position, as a byte offset of the document.
    offset: usize,
    locator: Locator<'d>,
    patterns: &'d EditedPatterns,
    is_answered: bool,
    /// Why it is refused, if it is.
    refused: Option<Refused>,
    writer: &'d mut Writer,
}

impl QueryWalk<'_, '_> {
    /// Answers it about the pattern, whose part at the byte offset is asked about.
    fn answer(&mut self, pattern: ReadPattern<'_, '_, '_>, offset: usize) -> Result<(), RunError> {
        let path = pattern.path(self.alloc, offset)?;
        let Some((index, node)) = path.last().copied() else {
            return Ok(());
        };
        let (query, uri, writer) = (self.query, self.uri, &mut *self.writer);
        match query {
            Query::Hover => write_hover(pattern, &path, index, node, writer)?,
            Query::Definition => write_definition(pattern, uri, node, writer)?,
            Query::References { has_group } => {
                write_references(pattern, uri, node, has_group, writer)?;
            }
            Query::Highlight => write_highlights(pattern, node, writer)?,
            Query::Selection => write_selection(pattern, &path, writer)?,
            Query::Name => write_name(pattern, node, writer)?,
            Query::Rename(name) => {
                let renamed = write_renamed(pattern, uri, node, name, self.patterns, writer)?;
                self.refused = renamed.err();
            }
        }
        self.is_answered = true;
        Ok(())
    }
}

impl Visitor for QueryWalk<'_, '_> {
    fn pattern(&mut self, entry: Entry<'_>) -> Result<(), RunError> {
        let located = self.locator.locate(entry);
        if self.offset < entry.span.start || entry.span.end < self.offset {
            return Ok(());
        }
        let subject = self.patterns.subject(entry);
        let Ok(parsed) = subject.parse()? else {
            return Ok(());
        };
        let nodes = nodes_of(self.alloc, &parsed)?;
        let pattern = ReadPattern {
            located,
            subject,
            parsed: &parsed,
            nodes: &nodes,
        };
        self.answer(pattern, located.offset(self.offset))
    }

    fn is_done(&self) -> bool {
        self.is_answered
    }
}

/// Writes the answer where there is no part of a valid pattern: null, or the position as a part.
fn write_nothing(
    given: Settings<'_>,
    text: &str,
    offset: usize,
    query: Query<'_>,
    writer: &mut Writer,
) -> Result<(), AllocError> {
    let Query::Selection = query else {
        return writer.null();
    };
    let position = Cursor::start(given.encoding, text).after(offset).position();
    writer.begin_object()?;
    writer.key("range")?;
    write_range(writer, position, position)?;
    writer.end_object()
}

/// Writes the answer to a query about what is at the byte offset of a document, or says why there is none.
pub(crate) fn write_answer<'q>(
    given: Settings<'_>,
    uri: &'q str,
    document: &OpenDocument,
    offset: usize,
    query: Query<'q>,
    writer: &mut Writer,
) -> Result<Result<(), Refused>, RunError> {
    let mut walk = QueryWalk {
        alloc: given.alloc,
        query,
        uri,
        offset,
        locator: Locator::new(given.encoding, document.source.text()),
        patterns: &document.patterns,
        is_answered: false,
        refused: None,
        writer,
    };
    document
        .source
        .visit(given, document.patterns.flags, &mut walk)?;
    if !walk.is_answered {
        if let Query::Rename(_) = query {
            return Ok(Err(NO_NAME));
        }
        write_nothing(given, document.source.text(), offset, query, walk.writer)?;
    }
    match walk.refused {
        Some(refused) => Ok(Err(refused)),
        None => Ok(Ok(())),
    }
}
