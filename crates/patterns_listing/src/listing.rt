//! A pattern's groups, and what its references and calls refer to, a line each.
use crate::class_words::ClassWords;
use class_meaning::characters_of;
use fancy_lex::flags::Flags;
use fancy_syntax::expr::Expr;
use fancy_syntax::span::Span;
use fancy_syntax::spanned::SpannedNode;
use patterns_text::columns::ColumnTable;
use patterns_text::error::RunError;
use patterns_text::names::Names;
use patterns_text::paint::Ink;
use patterns_text::position::Location;
use patterns_text::subject::Subject;
use patterns_text::words::{Held, is_reference, write_reference};
use std::io;
use std::io::Write;

/// Begins a line on the whole pattern with its file and line.
pub fn write_at(out: &mut Vec<u8>, at: Location<'_>) -> io::Result<()> {
    let (bold, end) = (at.listed.begin(Ink::Position), at.listed.end());
    write!(out, "{bold}{at}:{end} ")
}

/// What the line of a group or a reference begins with.
#[derive(Clone, Copy)]
pub enum Lead<'a> {
    /// Blanks.
    Indent,
    /// The pattern's file and line, and the columns of the part.
    At(Location<'a>, &'a ColumnTable),
}

impl Lead<'_> {
    /// Begins the line of what has the span.
    fn write(self, out: &mut Vec<u8>, span: Span) -> io::Result<()> {
        match self {
            Lead::Indent => out.write_all(b"  "),
            Lead::At(at, columns) => {
                let (bold, end) = (at.listed.begin(Ink::Position), at.listed.end());
                write!(out, "{bold}{at}:{}:{end} ", columns.of_span(span))
            }
        }
    }

    /// Begins a line on the whole pattern.
    fn write_whole(self, out: &mut Vec<u8>) -> io::Result<()> {
        match self {
            Lead::Indent => out.write_all(b"  "),
            Lead::At(at, _) => write_at(out, at),
        }
    }
}

/// Writes the groups that have a number, a line each.
pub fn write_numbered(
    out: &mut Vec<u8>,
    lead: Lead<'_>,
    nodes: &[SpannedNode<'_>],
    names: &Names<'_>,
) -> io::Result<()> {
    let mut number = 0usize;
    for node in nodes {
        if let Expr::Group(_) = node.expr() {
            number = number.saturating_add(1);
            lead.write(out, node.span())?;
            writeln!(out, "{}", names.group(number))?;
        }
    }
    if number == 0 {
        lead.write_whole(out)?;
        writeln!(out, "no numbered groups")?;
    }
    Ok(())
}

/// Writes the references and calls in the order of the text, a line each. The table has the columns of the nodes.
pub fn write_references(
    out: &mut Vec<u8>,
    lead: Lead<'_>,
    columns: &ColumnTable,
    nodes: &[SpannedNode<'_>],
    names: &Names<'_>,
) -> io::Result<()> {
    for node in nodes {
        if is_reference(node.expr()) {
            lead.write(out, node.span())?;
            write_reference(out, node.expr(), names, columns)?;
            out.write_all(b"\n")?;
        }
    }
    Ok(())
}

/// Writes the classes in the order of the text, a line each: what each is, and what it contains.
pub fn write_classes(
    out: &mut Vec<u8>,
    lead: Lead<'_>,
    subject: Subject<'_>,
    nodes: &[SpannedNode<'_>],
) -> Result<(), RunError> {
    let flags = Flags::from_bits(subject.flags);
    for node in nodes {
        if let Expr::Delegate { .. } = node.expr() {
            let meaning = characters_of(subject.alloc, node.expr(), flags.unicode)?;
            lead.write(out, node.span())?;
            writeln!(out, "{}: {}", Held(node.expr()), ClassWords(&meaning))?;
        }
    }
    Ok(())
}
