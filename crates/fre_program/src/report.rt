//! The lines that show what a pattern is read as. Each ends with LF.
use crate::hex::Hex;
use fancy_lex::escape::Assertion;
use fancy_lex::name::CaptureGroupTarget;
use fancy_syntax::expr::{AstNode, Expr};
use fancy_syntax::tree::ExprTree;
use std::collections::{BTreeMap, BTreeSet};
use std::io::Write;
use std::{fmt, io};

/// A value, or `none`.
#[derive(Clone, Copy)]
struct OrNone<T>(Option<T>);

impl<T: fmt::Display> fmt::Display for OrNone<T> {
    fn fmt<W: fmt::Write>(&self, f: &mut fmt::Formatter<W>) -> fmt::Result {
        match &self.0 {
            Some(value) => write!(f, "{value}"),
            None => f.write_str("none"),
        }
    }
}

/// Numbers separated by commas, `-` if there are none.
#[derive(Clone, Copy)]
struct Numbers<'a>(&'a [usize]);

impl fmt::Display for Numbers<'_> {
    fn fmt<W: fmt::Write>(&self, f: &mut fmt::Formatter<W>) -> fmt::Result {
        let Some((first, others)) = self.0.split_first() else {
            return f.write_str("-");
        };
        write!(f, "{first}")?;
        for number in others {
            write!(f, ",{number}")?;
        }
        Ok(())
    }
}

/// The same of a set, in ascending order.
#[derive(Clone, Copy)]
struct NumberSet<'a>(&'a BTreeSet<usize>);

impl fmt::Display for NumberSet<'_> {
    fn fmt<W: fmt::Write>(&self, f: &mut fmt::Formatter<W>) -> fmt::Result {
        let mut numbers = self.0.iter();
        let Some(first) = numbers.next() else {
            return f.write_str("-");
        };
        write!(f, "{first}")?;
        for number in numbers {
            write!(f, ",{number}")?;
        }
        Ok(())
    }
}

/// Each name with its numbers, in byte order and separated by semicolons, `-` if there are none.
#[derive(Clone, Copy)]
struct NamedGroups<'a>(&'a BTreeMap<String, Vec<usize>>);

impl fmt::Display for NamedGroups<'_> {
    fn fmt<W: fmt::Write>(&self, f: &mut fmt::Formatter<W>) -> fmt::Result {
        let mut groups = self.0.iter();
        let Some((name, numbers)) = groups.next() else {
            return f.write_str("-");
        };
        write!(f, "{}:{}", Hex(name.as_bytes()), Numbers(numbers))?;
        for (name, numbers) in groups {
            write!(f, ";{}:{}", Hex(name.as_bytes()), Numbers(numbers))?;
        }
        Ok(())
    }
}

/// The target of a reference.
#[derive(Clone, Copy)]
struct ShownTarget<'a>(&'a CaptureGroupTarget);

impl fmt::Display for ShownTarget<'_> {
    fn fmt<W: fmt::Write>(&self, f: &mut fmt::Formatter<W>) -> fmt::Result {
        match self.0 {
            CaptureGroupTarget::ByNumber(number) => write!(f, "number:{number}"),
            CaptureGroupTarget::ByName(name) => write!(f, "name:{}", Hex(name.as_bytes())),
            CaptureGroupTarget::Relative(amount) => write!(f, "relative:{amount}"),
        }
    }
}

/// Writes an assertion's name, and its field if it has one.
fn write_assertion<W: fmt::Write>(f: &mut fmt::Formatter<W>, assertion: Assertion) -> fmt::Result {
    write!(f, " {}", assertion.name())?;
    match assertion.crlf() {
        Some(crlf) => write!(f, " crlf={crlf}"),
        None => Ok(()),
    }
}

/// Writes the fields of a text, in hexadecimal.
fn write_text_fields<W: fmt::Write>(
    f: &mut fmt::Formatter<W>,
    text: &str,
    casei: bool,
) -> fmt::Result {
    write!(f, " {} casei={casei}", Hex(text.as_bytes()))
}

/// A node's fields after its name, without its children.
#[derive(Clone, Copy)]
struct Fields<'a>(&'a Expr);

impl fmt::Display for Fields<'_> {
    fn fmt<W: fmt::Write>(&self, f: &mut fmt::Formatter<W>) -> fmt::Result {
        match self.0 {
            Expr::Any { newline, crlf } => write!(f, " newline={newline} crlf={crlf}"),
            Expr::Assertion(assertion) => write_assertion(f, *assertion),
            Expr::GeneralNewline { unicode } => write!(f, " unicode={unicode}"),
            Expr::Literal { val, casei } => write_text_fields(f, val, *casei),
            Expr::LiteralBytes { bytes } => write!(f, " {}", Hex(bytes)),
            Expr::LookAround(_, look_around) => write!(f, " {}", look_around.name()),
            Expr::Repeat { lo, hi, greedy, .. } => write!(f, " {lo} {hi} greedy={greedy}"),
            Expr::Delegate { inner, casei } => write_text_fields(f, inner, *casei),
            Expr::Backref { group, casei } => write!(f, " {group} casei={casei}"),
            Expr::BackrefWithRelativeRecursionLevel {
                group,
                relative_level,
                casei,
            } => { write!(f, " {group} {relative_level} casei={casei}") }
            Expr::BackrefExistsCondition {
                group,
                relative_recursion_level,
            } => { write!(f, " {group} {}", OrNone(*relative_recursion_level)) }
            Expr::SubroutineCall(group) => write!(f, " {group}"),
            Expr::BacktrackingControlVerb(verb) => write!(f, " {}", verb.name()),
            Expr::Absent(absent) => write!(f, " {}", absent.name()),
            Expr::AstNode(AstNode::SubroutineCall(target), position) => {
                write!(f, " SubroutineCall {} {position}", ShownTarget(target))
            }
            Expr::Empty
            | Expr::Concat(_)
            | Expr::Alt(_)
            | Expr::Group(_)
            | Expr::AtomicGroup(_)
            | Expr::KeepOut
            | Expr::ContinueFromPreviousMatchEnd
            | Expr::Conditional { .. }
            | Expr::DefineGroup { .. }
            | Expr::AstNode(..) => Ok(()),
        }
    }
}

/// Writes the line of a node, indented by two spaces a level.
fn write_node<O: Write>(out: &mut O, node: &Expr, level: usize) -> io::Result<()> {
    for _ in 0..level {
        out.write_all(b"  ")?;
    }
    writeln!(out, "{}{}", node.kind_name(), Fields(node))
}

/// Writes a line for each node of the tree in preorder, indented by its level.
pub(crate) fn write_nodes<O: Write>(out: &mut O, tree: &Expr, level: usize) -> io::Result<()> {
    write_node(out, tree, level)?;
    for child in tree.children_iter() {
        write_nodes(out, child, level.saturating_add(1))?;
    }
    Ok(())
}

/// Writes the line of the tree's group information.
pub(crate) fn write_group_info<O: Write>(out: &mut O, tree: &ExprTree) -> io::Result<()> {
    write!(
        out,
        "marks groups={} backrefs={}",
        tree.total_groups,
        NumberSet(&tree.backrefs)
    )?;
    write!(out, " named={}", NamedGroups(&tree.named_groups))?;
    write!(out, " numeric={}", tree.numeric_capture_group_references)?;
    write!(
        out,
        " calls={} self={}",
        tree.contains_subroutines, tree.self_recursive
    )?;
    write!(out, " out_of_range={}", OrNone(tree.out_of_range_backref))?;
    writeln!(out, " ignored={}", tree.numbered_groups_ignored)
}

/// Writes the line of the tree's text, or that it has none.
pub(crate) fn write_text<O: Write>(out: &mut O, text: Option<&str>) -> io::Result<()> {
    match text {
        Some(text) => writeln!(out, "text {}", Hex(text.as_bytes())),
        None => writeln!(out, "text none"),
    }
}
