//! The words on the boxes.
use fancy_syntax::expr::Expr;
use fancy_syntax::spanned::SpannedTree;
use patterns_text::columns::ColumnTable;
use patterns_text::names::Names;
use patterns_text::nodes::nodes_of;
use patterns_text::words::{Held, is_reference, write_reference};
use std::alloc::{AllocError, Global};
use std::io::Write;
use std::{io, str};

/// What the nodes of a pattern are, in words.
#[derive(Drop)]
pub(crate) struct Words<'a> {
    names: Names<'a>,
    columns: ColumnTable,
    /// Those of one node.
    buffer: Vec<u8>,
}

/// What characters a class has.
fn class_words(class: &str) -> &'static str {
    match class {
        r"\d" => "digit",
        r"\D" => "not a digit",
        r"\s" => "whitespace",
        r"\S" => "not whitespace",
        r"\w" => "word character",
        r"\W" => "not a word character",
        "[0-9A-Fa-f]" => "hexadecimal digit",
        "[^0-9A-Fa-f]" => "not a hexadecimal digit",
        _ if class.starts_with("[^") => "none of these",
        _ if class.starts_with('[') => "one of these",
        _ => "property",
    }
}

/// What characters `.` has.
fn any_words(newline: bool, crlf: bool) -> &'static str {
    match (newline, crlf) {
        (true, _) => "any character",
        (false, false) => "any but LF",
        (false, true) => "any but CR, LF",
    }
}

/// The words of a leaf without what is before a colon, and from a comma on.
fn shortened(words: &str) -> &str {
    let words = words.split_once(": ").map_or(words, |parts| parts.1);
    words.split_once(", ").map_or(words, |parts| parts.0)
}

/// The words of a node, shortened if it is a leaf.
fn shortened_leaf<'w>(node: &Expr, words: &'w str) -> &'w str {
    if node.is_leaf_node() {
        shortened(words)
    } else {
        words
    }
}

/// How often a node is repeated. That it is greedy is left out, and so is what the rail past an optional one shows.
fn of_repeat(words: &str) -> &str {
    let words = words.strip_prefix("repeat ").unwrap_or(words);
    let words = words.strip_suffix(", greedy").unwrap_or(words);
    match words.strip_prefix("0 to 1 times") {
        Some(mode) => mode.strip_prefix(", ").unwrap_or(mode),
        None => words,
    }
}

impl<'a> Words<'a> {
    /// Those of the nodes of the pattern's tree.
    pub(crate) fn new(
        alloc: Global,
        pattern: &str,
        parsed: &'a SpannedTree,
    ) -> Result<Words<'a>, AllocError> {
        let nodes = nodes_of(alloc, parsed)?;
        Ok(Words {
            names: Names::of(alloc, &parsed.tree)?,
            columns: ColumnTable::of(alloc, pattern, &nodes)?,
            buffer: Vec::new(alloc),
        })
    }

    /// Writes what the node is. The number is that of the last group that has opened.
    fn write(&mut self, node: &Expr, groups: usize) -> io::Result<()> {
        self.buffer.clear();
        if is_reference(node) {
            return write_reference(&mut self.buffer, node, &self.names, &self.columns);
        }
        if let Expr::Group(_) = node {
            return write!(self.buffer, "{}", self.names.group(groups));
        }
        write!(self.buffer, "{}", Held(node))
    }

    /// What the node is. The number is that of the last group that has opened, the node itself counted.
    pub(crate) fn of(&mut self, node: &Expr, groups: usize) -> io::Result<&str> {
        self.write(node, groups)?;
        Ok(str::from_utf8(&self.buffer).unwrap_or("").trim_end())
    }

    /// What is written on the node's box; nothing for a node without a box.
    pub(crate) fn on_box(&mut self, node: &Expr, groups: usize) -> io::Result<&str> {
        if matches!(
            node,
            Expr::Empty | Expr::Literal { .. } | Expr::Concat(_) | Expr::Alt(_)
        ) {
            return Ok("");
        }
        if let Expr::Any { newline, crlf } = node {
            return Ok(any_words(*newline, *crlf));
        }
        if let Expr::Delegate { inner, .. } = node {
            return Ok(class_words(inner.as_str()));
        }
        let words = self.of(node, groups)?;
        if let Expr::Repeat { .. } = node {
            return Ok(of_repeat(words));
        }
        Ok(shortened_leaf(node, words))
    }
}
