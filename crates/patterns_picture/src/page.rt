//! The picture in a page of HTML, with the drawn tree and what is known of the groups.
use crate::svg::write_picture;
use crate::text::{Xml, XmlLines};
use fancy_syntax::expr::Expr;
use fancy_syntax::span::Span;
use fancy_syntax::spanned::{SpannedNode, SpannedTree};
use patterns_listing::drawing::{Look, Style, write_tree};
use patterns_listing::listing::{Lead, write_references};
use patterns_text::columns::ColumnTable;
use patterns_text::error::RunError;
use patterns_text::names::Names;
use patterns_text::nodes::nodes_of;
use patterns_text::subject::Subject;
use std::io::Write;
use std::{io, str};

const PAGE_STYLE: &str = "<style>
body { font: 16px system-ui, sans-serif; margin: 24px; color: #1f2328; background: #fff }
pre { font: 14px ui-monospace, Menlo, 'DejaVu Sans Mono', 'Liberation Mono', monospace; overflow-x: auto }
h2 { font-size: 18px }
table { border-collapse: collapse }
th, td { border: 1px solid #8c959f; padding: 4px 8px; text-align: left }
code { font: 14px ui-monospace, Menlo, 'DejaVu Sans Mono', 'Liberation Mono', monospace; white-space: pre-wrap }
.wide { overflow-x: auto }
@media (prefers-color-scheme: dark) { body { color: #e6edf3; background: #0d1117 } }
</style>
";

/// Writes lines of text under a heading.
fn write_section<O: Write>(out: &mut O, heading: &str, text: &[u8]) -> io::Result<()> {
    let lines = XmlLines(str::from_utf8(text).unwrap_or(""));
    writeln!(out, "<h2>{heading}</h2>\n<pre>{lines}</pre>")
}

/// Writes the row of a group that has a number: the number, the name, the span and the text.
fn write_group<O: Write>(
    out: &mut O,
    number: usize,
    name: Option<&str>,
    node: &SpannedNode<'_>,
    pattern: &str,
) -> io::Result<()> {
    let Span { start, end } = node.span();
    let name = Xml(name.unwrap_or(""));
    let text = Xml(node.text(pattern).unwrap_or(""));
    write!(out, "<tr><td><a href=\"#group{number}\">{number}</a></td>")?;
    writeln!(
        out,
        "<td>{name}</td><td>{start}..{end}</td><td><code>{text}</code></td></tr>"
    )
}

/// Writes the groups that have a number, in a table.
fn write_groups<O: Write>(
    out: &mut O,
    pattern: &str,
    nodes: &[SpannedNode<'_>],
    names: &Names<'_>,
) -> io::Result<()> {
    out.write_all(b"<h2>Groups</h2>\n<table>\n")?;
    out.write_all(b"<tr><th>Number</th><th>Name</th><th>Span</th><th>Text</th></tr>\n")?;
    let mut number = 0usize;
    for node in nodes {
        if let Expr::Group(_) = node.expr() {
            number = number.saturating_add(1);
            write_group(out, number, names.name(number), node, pattern)?;
        }
    }
    out.write_all(b"</table>\n")
}

/// Writes the groups that have a number, and what the references and calls refer to.
fn write_groups_and_references<O: Write>(
    subject: Subject<'_>,
    parsed: &SpannedTree,
    out: &mut O,
) -> Result<(), RunError> {
    let Subject { alloc, pattern, .. } = subject;
    let names = Names::of(alloc, &parsed.tree)?;
    let nodes = nodes_of(alloc, parsed)?;
    if parsed.tree.total_groups > 0 {
        write_groups(out, pattern, &nodes, &names)?;
    }
    let columns = ColumnTable::of(alloc, pattern, &nodes)?;
    let mut text = Vec::new(alloc);
    write_references(&mut text, Lead::Indent, &columns, &nodes, &names)?;
    if !text.is_empty() {
        write_section(out, "References", &text)?;
    }
    Ok(())
}

/// Writes the tree, and what is known of it.
fn write_drawn_tree<O: Write>(
    subject: Subject<'_>,
    parsed: &SpannedTree,
    out: &mut O,
) -> Result<(), RunError> {
    let look = Look {
        style: Style::Lines,
        has_spans: false,
        has_each_literal: false,
        has_facts: false,
        has_classes: false,
        has_trivia: false,
    };
    let mut text = Vec::new(subject.alloc);
    write_tree(subject, look, parsed, &mut text)?;
    write_section(out, "Tree", &text)?;
    Ok(())
}

/// Writes a page with the picture of the tree.
pub(crate) fn write_page<O: Write>(
    subject: Subject<'_>,
    parsed: &SpannedTree,
    width: usize,
    out: &mut O,
) -> Result<(), RunError> {
    out.write_all(
        b"<!DOCTYPE html>\n<html xmlns=\"http://www.w3.org/1999/xhtml\" lang=\"en\">\n<head>\n",
    )?;
    out.write_all(b"<meta charset=\"utf-8\"/>\n")?;
    writeln!(out, "<title>{}</title>", Xml(subject.pattern))?;
    out.write_all(PAGE_STYLE.as_bytes())?;
    out.write_all(b"</head>\n<body>\n<div class=\"wide\">\n")?;
    write_picture(subject, parsed, width, out)?;
    out.write_all(b"</div>\n")?;
    write_drawn_tree(subject, parsed, out)?;
    write_groups_and_references(subject, parsed, out)?;
    out.write_all(b"</body>\n</html>\n")?;
    Ok(())
}
