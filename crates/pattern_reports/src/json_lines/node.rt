//! The nodes of a tree, as JSON.
use crate::json_lines::fields::{write_bool, write_number, write_span, write_text};
use fancy_lex::escape::Assertion;
use fancy_lex::name::CaptureGroupTarget;
use fancy_syntax::expr::{Absent, AstNode, Expr};
use fancy_syntax::spanned::SpannedNode;
use json::Writer;
use pattern_facts::{Facts, Lengths, MaxLength};
use patterns_listing::fact_words::FactRows;
use patterns_text::position::CharacterTable;
use std::alloc::AllocError;

/// Writes a field that is a number or nothing.
pub(super) fn write_some_number(
    writer: &mut Writer,
    name: &str,
    number: Option<usize>,
) -> Result<(), AllocError> {
    writer.key(name)?;
    match number {
        Some(number) => writer.u64(number as u64),
        None => writer.null(),
    }
}

/// Writes a field that is a recursion level or nothing.
fn write_level(writer: &mut Writer, name: &str, level: Option<isize>) -> Result<(), AllocError> {
    writer.key(name)?;
    match level {
        Some(level) => writer.i64(level as i64),
        None => writer.null(),
    }
}

/// Writes the fields of an assertion.
fn write_assertion(writer: &mut Writer, assertion: Assertion) -> Result<(), AllocError> {
    write_text(writer, "assertion", assertion.name())?;
    match assertion.crlf() {
        Some(crlf) => write_bool(writer, "crlf", crlf),
        None => Ok(()),
    }
}

/// Writes the bytes of a literal.
fn write_bytes(writer: &mut Writer, bytes: &[u8]) -> Result<(), AllocError> {
    writer.key("bytes")?;
    writer.begin_array()?;
    for byte in bytes {
        writer.u64(*byte as u64)?;
    }
    writer.end_array()
}

/// Writes what a call refers to that is not resolved.
fn write_target(writer: &mut Writer, target: &CaptureGroupTarget) -> Result<(), AllocError> {
    writer.key("target")?;
    writer.begin_object()?;
    match target {
        CaptureGroupTarget::ByNumber(number) => write_number(writer, "ByNumber", *number as u64),
        CaptureGroupTarget::ByName(name) => write_text(writer, "ByName", name.as_str()),
        CaptureGroupTarget::Relative(amount) => write_level(writer, "Relative", Some(*amount)),
    }?;
    writer.end_object()
}

/// Writes the fields of a call that is not resolved.
fn write_unresolved_call(
    writer: &mut Writer,
    target: &CaptureGroupTarget,
    position: usize,
) -> Result<(), AllocError> {
    write_text(writer, "node", "SubroutineCall")?;
    write_target(writer, target)?;
    write_number(writer, "position", position as u64)
}

/// Writes the fields of a back reference, which may have a recursion level.
fn write_backref(
    writer: &mut Writer,
    group: usize,
    level: Option<isize>,
    casei: bool,
) -> Result<(), AllocError> {
    write_number(writer, "group", group as u64)?;
    if level.is_some() {
        write_level(writer, "relative_level", level)?;
    }
    write_bool(writer, "casei", casei)
}

/// Writes the fields of a condition that is true if a group has matched.
fn write_exists_condition(
    writer: &mut Writer,
    group: usize,
    level: Option<isize>,
) -> Result<(), AllocError> {
    write_number(writer, "group", group as u64)?;
    write_level(writer, "relative_recursion_level", level)
}

/// Writes the fields of a dot.
fn write_dot(writer: &mut Writer, newline: bool, crlf: bool) -> Result<(), AllocError> {
    write_bool(writer, "newline", newline)?;
    write_bool(writer, "crlf", crlf)
}

/// Writes a field that is a text, and whether the node is case-insensitive.
fn write_text_and_case(
    writer: &mut Writer,
    name: &str,
    text: &str,
    casei: bool,
) -> Result<(), AllocError> {
    write_text(writer, name, text)?;
    write_bool(writer, "casei", casei)
}

/// Writes the limits of a repeat; the upper one is null where there is none.
fn write_repeat(writer: &mut Writer, lo: usize, hi: usize, greedy: bool) -> Result<(), AllocError> {
    write_number(writer, "lo", lo as u64)?;
    write_some_number(writer, "hi", if hi == usize::MAX { None } else { Some(hi) })?;
    write_bool(writer, "greedy", greedy)
}

/// Writes the fields of a node, without its children.
fn write_fields(writer: &mut Writer, node: &Expr) -> Result<(), AllocError> {
    match node {
        Expr::Any { newline, crlf } => write_dot(writer, *newline, *crlf),
        Expr::Assertion(assertion) => write_assertion(writer, *assertion),
        Expr::GeneralNewline { unicode } => write_bool(writer, "unicode", *unicode),
        Expr::Literal { val, casei } => write_text_and_case(writer, "val", val.as_str(), *casei),
        Expr::LiteralBytes { bytes } => write_bytes(writer, bytes),
        Expr::LookAround(_, look_around) => write_text(writer, "look_around", look_around.name()),
        Expr::Repeat { lo, hi, greedy, .. } => write_repeat(writer, *lo, *hi, *greedy),
        Expr::Delegate { inner, casei } => {
            write_text_and_case(writer, "inner", inner.as_str(), *casei)
        }
        Expr::Backref { group, casei } => write_backref(writer, *group, None, *casei),
        Expr::BackrefWithRelativeRecursionLevel {
            group,
            relative_level,
            casei,
        } => write_backref(writer, *group, Some(*relative_level), *casei),
        Expr::BackrefExistsCondition {
            group,
            relative_recursion_level,
        } => write_exists_condition(writer, *group, *relative_recursion_level),
        Expr::SubroutineCall(group) => write_number(writer, "group", *group as u64),
        Expr::BacktrackingControlVerb(verb) => write_text(writer, "verb", verb.name()),
        Expr::Absent(absent) => write_text(writer, "form", absent.name()),
        Expr::AstNode(AstNode::SubroutineCall(target), position) => {
            write_unresolved_call(writer, target, *position)
        }
        Expr::Empty
        | Expr::Concat(_)
        | Expr::Alt(_)
        | Expr::Group(_)
        | Expr::AtomicGroup(_)
        | Expr::KeepOut
        | Expr::ContinueFromPreviousMatchEnd
        | Expr::Conditional { .. }
        | Expr::DefineGroup { .. }
        | Expr::AstNode(..) => Ok(()),
    }
}

/// Writes the fields of a node: its kind, its span, and those that `Expr` has, without its children.
pub(super) fn write_own(
    writer: &mut Writer,
    characters: &CharacterTable,
    node: SpannedNode<'_>,
) -> Result<(), AllocError> {
    write_text(writer, "kind", node.expr().kind_name())?;
    write_span(writer, characters, node.span())?;
    write_fields(writer, node.expr())
}

/// Writes a field that is lengths; `max` is null without a limit.
fn write_lengths(writer: &mut Writer, name: &str, lengths: Lengths) -> Result<(), AllocError> {
    let max = match lengths.max {
        MaxLength::AtMost(max) => Some(max),
        MaxLength::Unlimited => None,
    };
    writer.key(name)?;
    writer.begin_object()?;
    write_number(writer, "min", lengths.min as u64)?;
    write_some_number(writer, "max", max)?;
    writer.end_object()
}

/// Writes what is known of a node's matches, or null.
fn write_known(writer: &mut Writer, facts: Option<Facts>) -> Result<(), AllocError> {
    let Some(facts) = facts else {
        return writer.null();
    };
    writer.begin_object()?;
    write_lengths(writer, "characters", facts.characters)?;
    write_lengths(writer, "bytes", facts.bytes)?;
    write_bool(writer, "is_anchored_at_start", facts.is_anchored_at_start)?;
    write_bool(writer, "is_anchored_at_end", facts.is_anchored_at_end)?;
    writer.end_object()
}

/// Writes the field of what is known of the next node's matches, if it is written.
fn write_facts(writer: &mut Writer, facts: &mut FactRows) -> Result<(), AllocError> {
    let Some(row) = facts.take() else {
        return Ok(());
    };
    writer.key("facts")?;
    write_known(writer, row)
}

/// Whether the children of the node are a list.
fn is_row(node: &Expr) -> bool {
    matches!(node, Expr::Concat(_) | Expr::Alt(_))
}

/// The field of a child, where the children are no list.
fn child_name(parent: &Expr, index: usize) -> &'static str {
    match (parent, index) {
        (Expr::Conditional { .. }, 0) => "condition",
        (Expr::Conditional { .. }, 1) => "true_branch",
        (Expr::Conditional { .. }, _) => "false_branch",
        (Expr::Absent(Absent::Expression { .. }), 0) => "absent",
        (Expr::Absent(Absent::Expression { .. }), _) => "exp",
        (Expr::DefineGroup { .. }, _) => "definitions",
        _ => "child",
    }
}

/// Begins the list of the children, if they are one.
fn begin_children(writer: &mut Writer, parent: &Expr) -> Result<(), AllocError> {
    if !is_row(parent) {
        return Ok(());
    }
    writer.key("children")?;
    writer.begin_array()
}

/// Begins the field of a child, if it has one.
fn begin_child(writer: &mut Writer, parent: &Expr, index: usize) -> Result<(), AllocError> {
    if is_row(parent) {
        return Ok(());
    }
    writer.key(child_name(parent, index))
}

/// Ends the list of the children, if they are one.
fn end_children(writer: &mut Writer, parent: &Expr) -> Result<(), AllocError> {
    if !is_row(parent) {
        return Ok(());
    }
    writer.end_array()
}

/// Writes the node as an object, and those below it in it.
pub(super) fn write_node(
    writer: &mut Writer,
    characters: &CharacterTable,
    facts: &mut FactRows,
    node: SpannedNode<'_>,
) -> Result<(), AllocError> {
    writer.begin_object()?;
    write_own(writer, characters, node)?;
    write_facts(writer, facts)?;
    begin_children(writer, node.expr())?;
    let mut index = 0usize;
    for child in node.children() {
        begin_child(writer, node.expr(), index)?;
        write_node(writer, characters, facts, child)?;
        index = index.saturating_add(1);
    }
    end_children(writer, node.expr())?;
    writer.end_object()
}
