//! The nodes of a tree in a row.
use fancy_syntax::spanned::{SpannedNode, SpannedTree};
use std::alloc::{AllocError, Global};

/// Adds the node and those below it, in preorder.
fn push_nodes<'a>(
    nodes: &mut Vec<SpannedNode<'a>>,
    node: SpannedNode<'a>,
) -> Result<(), AllocError> {
    nodes.push(node)?;
    for child in node.children() {
        push_nodes(nodes, child)?;
    }
    Ok(())
}

/// The nodes of a tree in preorder.
pub fn nodes_of<'a>(
    alloc: Global,
    parsed: &'a SpannedTree,
) -> Result<Vec<SpannedNode<'a>>, AllocError> {
    let mut nodes = Vec::with_capacity(alloc, parsed.spans.len())?;
    push_nodes(&mut nodes, parsed.root())?;
    Ok(nodes)
}
