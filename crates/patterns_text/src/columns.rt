//! The columns of the parts of a pattern that are listed, counted in one pass over the pattern.
use crate::position::FilePosition;
use crate::words::is_reference;
use fancy_syntax::expr::Expr;
use fancy_syntax::span::Span;
use fancy_syntax::spanned::SpannedNode;
use std::alloc::{AllocError, Global};
use std::fmt;

/// The columns of a part of a pattern, from the first one to the last one.
#[derive(Clone, Copy)]
pub struct Columns {
    first: u64,
    last: u64,
}

impl fmt::Display for Columns {
    fn fmt<W: fmt::Write>(&self, f: &mut fmt::Formatter<W>) -> fmt::Result {
        write!(f, "{}-{}", self.first, self.last)
    }
}

/// The positions of some byte offsets.
#[derive(Drop)]
pub struct ColumnTable {
    /// The offsets, in order.
    offsets: Vec<usize>,
    /// The position of each of them.
    positions: Vec<FilePosition>,
}

/// Whether the node has a line in a list: a group, a reference or a class.
fn is_listed(node: &Expr) -> bool {
    matches!(node, Expr::Group(_) | Expr::Delegate { .. }) || is_reference(node)
}

/// Where the nodes that are listed begin and end, and the offsets of unresolved calls, in the order of the text.
fn offsets_of(alloc: Global, nodes: &[SpannedNode<'_>]) -> Result<Vec<usize>, AllocError> {
    let mut offsets = Vec::new(alloc);
    for node in nodes {
        if is_listed(node.expr()) {
            let Span { start, end } = node.span();
            offsets.push(start)?;
            offsets.push(end)?;
        }
        if let Expr::AstNode(_, offset) = node.expr() {
            offsets.push(*offset)?;
        }
    }
    offsets.sort()?;
    Ok(offsets)
}

impl ColumnTable {
    /// That of the starts and the ends of the groups, references and classes among the nodes, which are those of the
    /// pattern.
    pub fn of(
        alloc: Global,
        pattern: &str,
        nodes: &[SpannedNode<'_>],
    ) -> Result<ColumnTable, AllocError> {
        let offsets = offsets_of(alloc, nodes)?;
        let mut positions = Vec::with_capacity(alloc, offsets.len())?;
        let mut counted = 0usize;
        let mut position = FilePosition::START;
        for offset in offsets.iter() {
            position = position.after(pattern.get(counted..*offset).unwrap_or(""));
            counted = *offset;
            positions.push(position)?;
        }
        Ok(ColumnTable { offsets, positions })
    }

    /// The position of the offset, which is one of the table.
    pub(crate) fn position(&self, offset: usize) -> FilePosition {
        let index = self.offsets.partition_point(|other| *other < offset);
        self.positions
            .get(index)
            .copied()
            .unwrap_or(FilePosition::START)
    }

    /// Those of a part, whose start and end are in the table, each in its line.
    pub fn of_span(&self, span: Span) -> Columns {
        Columns {
            first: self.position(span.start).column,
            last: self.position(span.end).column.saturating_sub(1),
        }
    }
}
