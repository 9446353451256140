//! The flag groups that the tree does not need.
use crate::nodes::Node;
use std::alloc::{AllocError, Global};

/// A flag group that is open.
#[derive(Clone, Copy)]
struct OpenGroup {
    /// The index of its opening among the tokens.
    opening: usize,
    /// How many nodes there are from its contents on.
    nodes: usize,
    needs_group: bool,
    /// Whether its contents are one of several branches.
    is_branch: bool,
    /// Whether it stays, needed or not.
    is_fixed: bool,
}

/// The flag groups around a position.
#[derive(Drop)]
pub(crate) struct FlagGroups {
    open: Vec<OpenGroup>,
    /// How many nodes there are from the contents on of the last group that was closed and stays.
    kept: usize,
}

impl FlagGroups {
    /// No group is open.
    pub(crate) fn new(alloc: Global) -> FlagGroups {
        FlagGroups {
            open: Vec::new(alloc),
            kept: 0,
        }
    }

    /// Whether the innermost group stays and has the same contents, from which on these are the nodes.
    fn has_kept_around(&self, nodes: &[Node]) -> bool {
        match self.open.last() {
            Some(group) => group.nodes == nodes.len() && (group.is_fixed || !group.needs_group),
            None => false,
        }
    }

    /// Opens a group at the token with the index, before these nodes.
    pub(crate) fn open(
        &mut self,
        opening: usize,
        is_fixed: bool,
        nodes: &[Node],
    ) -> Result<(), AllocError> {
        let needs_group = match nodes.first() {
            Some(node) => node.needs_group && !self.has_kept_around(nodes),
            None => true,
        };
        self.open.push(OpenGroup {
            opening,
            nodes: nodes.len(),
            needs_group,
            is_branch: nodes.first().is_some_and(|node| node.is_branch),
            is_fixed,
        })?;
        Ok(())
    }

    /// The index of the opening of the innermost group.
    pub(crate) fn opening(&self) -> Option<usize> {
        self.open.last().map(|group| group.opening)
    }

    /// Whether the contents of the innermost group are one of several branches.
    pub(crate) fn is_branch(&self) -> bool {
        self.open.last().is_some_and(|group| group.is_branch)
    }

    /// All groups that are open stay, since flags are set in them.
    pub(crate) fn fix_all(&mut self) {
        for group in &mut self.open {
            group.is_fixed = true;
        }
    }

    /// Closes the innermost group, before as many nodes. Returns the index of its opening if the tree does not need it. A
    /// group with no node stays.
    pub(crate) fn close(&mut self, nodes: usize, is_fixed: bool) -> Option<usize> {
        let group = self.open.pop()?;
        if group.nodes == nodes {
            return None;
        }
        let is_needed = group.needs_group && self.kept != group.nodes;
        if is_needed || is_fixed || group.is_fixed {
            self.kept = group.nodes;
            return None;
        }
        Some(group.opening)
    }
}
