//! The groups and references of a pattern, and what no node of its tree has, as JSON.
use crate::json_lines::fields::{write_bool, write_number, write_span, write_text};
use crate::json_lines::node::{write_own, write_some_number};
use fancy_lex::flags::Flags;
use fancy_syntax::expr::Expr;
use fancy_syntax::span::Span;
use fancy_syntax::spanned::SpannedNode;
use fancy_syntax::tree::ExprTree;
use fancy_syntax::trivium::{Trivium, TriviumKind};
use json::Writer;
use patterns_text::flag_letters::FlagLetters;
use patterns_text::names::Names;
use patterns_text::position::CharacterTable;
use patterns_text::subject::Subject;
use patterns_text::words::is_reference;
use std::alloc::{AllocError, Global};

/// Writes a field that is a text or nothing.
fn write_some_text(writer: &mut Writer, name: &str, text: Option<&str>) -> Result<(), AllocError> {
    writer.key(name)?;
    match text {
        Some(text) => writer.string(text),
        None => writer.null(),
    }
}

/// Writes a group as an object.
fn write_group(
    writer: &mut Writer,
    characters: &CharacterTable,
    number: usize,
    name: Option<&str>,
    span: Span,
) -> Result<(), AllocError> {
    writer.begin_object()?;
    write_number(writer, "number", number as u64)?;
    write_some_text(writer, "name", name)?;
    write_span(writer, characters, span)?;
    writer.end_object()
}

/// Writes the groups that have a number.
pub(super) fn write_groups(
    alloc: Global,
    writer: &mut Writer,
    characters: &CharacterTable,
    nodes: &[SpannedNode<'_>],
    tree: &ExprTree,
) -> Result<(), AllocError> {
    let names = Names::of(alloc, tree)?;
    writer.key("groups")?;
    writer.begin_array()?;
    let mut number = 0usize;
    for node in nodes {
        if let Expr::Group(_) = node.expr() {
            number = number.saturating_add(1);
            write_group(writer, characters, number, names.name(number), node.span())?;
        }
    }
    writer.end_array()
}

/// Writes the references and calls, in the order of the text.
pub(super) fn write_references(
    writer: &mut Writer,
    characters: &CharacterTable,
    nodes: &[SpannedNode<'_>],
) -> Result<(), AllocError> {
    writer.key("references")?;
    writer.begin_array()?;
    for node in nodes {
        if is_reference(node.expr()) {
            writer.begin_object()?;
            write_own(writer, characters, *node)?;
            writer.end_object()?;
        }
    }
    writer.end_array()
}

/// Writes the groups that back references refer to.
fn write_backrefs(writer: &mut Writer, tree: &ExprTree) -> Result<(), AllocError> {
    writer.key("backrefs")?;
    writer.begin_array()?;
    for number in tree.backrefs.iter() {
        writer.u64(*number as u64)?;
    }
    writer.end_array()
}

/// Writes the other fields of an `ExprTree`, under the names that they have there.
pub(super) fn write_group_info(writer: &mut Writer, tree: &ExprTree) -> Result<(), AllocError> {
    write_number(writer, "total_groups", tree.total_groups as u64)?;
    write_backrefs(writer, tree)?;
    write_bool(
        writer,
        "numeric_capture_group_references",
        tree.numeric_capture_group_references,
    )?;
    write_bool(writer, "contains_subroutines", tree.contains_subroutines)?;
    write_bool(writer, "self_recursive", tree.self_recursive)?;
    write_some_number(writer, "out_of_range_backref", tree.out_of_range_backref)?;
    write_bool(
        writer,
        "numbered_groups_ignored",
        tree.numbered_groups_ignored,
    )
}

/// The name of the kind, as `TriviumKind` has it.
fn kind_name(kind: TriviumKind) -> &'static str {
    match kind {
        TriviumKind::Comment => "Comment",
        TriviumKind::LineComment => "LineComment",
        TriviumKind::InlineFlags { .. } => "InlineFlags",
        TriviumKind::Opening { .. } => "Opening",
        TriviumKind::Closing => "Closing",
        TriviumKind::Dropped => "Dropped",
        TriviumKind::InnerComment => "InnerComment",
        TriviumKind::InnerLineComment => "InnerLineComment",
    }
}

/// Writes a field that is flags, as letters.
fn write_flags(
    alloc: Global,
    writer: &mut Writer,
    name: &str,
    flags: Flags,
) -> Result<(), AllocError> {
    let letters = format!(in alloc; "{}", FlagLetters(flags))?;
    write_text(writer, name, letters.as_str())
}

/// Writes the fields that the kind has.
fn write_kind(alloc: Global, writer: &mut Writer, kind: TriviumKind) -> Result<(), AllocError> {
    match kind {
        TriviumKind::InlineFlags { before, after } => {
            write_flags(alloc, writer, "before", before)?;
            write_flags(alloc, writer, "after", after)
        }
        TriviumKind::Opening { around, inside } => {
            write_flags(alloc, writer, "around", around)?;
            write_flags(alloc, writer, "inside", inside)
        }
        TriviumKind::Comment
        | TriviumKind::LineComment
        | TriviumKind::Closing
        | TriviumKind::Dropped
        | TriviumKind::InnerComment
        | TriviumKind::InnerLineComment => Ok(()),
    }
}

/// Writes the field of what no node has, in the order of the text.
pub(super) fn write_trivia(
    writer: &mut Writer,
    characters: &CharacterTable,
    subject: Subject<'_>,
    trivia: &[Trivium],
) -> Result<(), AllocError> {
    writer.key("trivia")?;
    writer.begin_array()?;
    for Trivium { span, kind } in trivia {
        writer.begin_object()?;
        write_text(writer, "kind", kind_name(*kind))?;
        write_span(writer, characters, *span)?;
        write_text(writer, "text", span.text(subject.pattern).unwrap_or(""))?;
        write_kind(subject.alloc, writer, *kind)?;
        writer.end_object()?;
    }
    writer.end_array()
}
