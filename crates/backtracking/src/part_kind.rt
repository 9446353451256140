//! Which parts of a pattern are searched for two ways.
use crate::regular_shape::{RegularShape, regular_shape};
use fancy_syntax::expr::Expr;

/// The most nodes that are looked at.
const MOST_NODES: usize = 2000;

/// What is known of a tree from its nodes.
#[derive(Clone, Copy)]
struct PartFacts {
    nodes: usize,
    /// Whether each node has ways, as a class or a group has.
    is_regular: bool,
    /// Whether a node has several ways: an alternation, or a repeat that may end sooner or later.
    has_choice: bool,
}

/// Whether two ways through the tree are searched for.
#[derive(Clone, Copy, PartialEq, Eq)]
pub(crate) enum PartKind {
    /// A turn may have several ways.
    Choices,
    /// Each turn has one way.
    OneWay,
    /// It holds an atomic group, a call or the like.
    Irregular,
    /// It has too many nodes.
    TooLarge,
}

impl PartFacts {
    /// Adds the nodes of a tree.
    #[cycle(add)]
    fn add(&mut self, tree: &Expr) {
        self.nodes = self.nodes.saturating_add(1);
        if !self.is_regular || self.nodes > MOST_NODES {
            return;
        }
        match regular_shape(tree) {
            RegularShape::Empty | RegularShape::Character | RegularShape::Passed => {}
            RegularShape::Group(child) | RegularShape::Possessive { child, .. } => self.add(child),
            RegularShape::Repeat { child, lo, hi } => {
                self.has_choice = self.has_choice || lo < hi;
                self.add(child);
            }
            RegularShape::Concat(trees) => self.add_all(trees),
            RegularShape::Alt(branches) => {
                self.has_choice = true;
                self.add_all(branches);
            }
            RegularShape::Irregular => self.is_regular = false,
        }
    }

    /// Adds the nodes of the trees.
    #[cycle(add)]
    fn add_all(&mut self, trees: &[Expr]) {
        for tree in trees {
            self.add(tree);
        }
    }
}

/// Whether two ways through the tree are searched for.
pub(crate) fn kind_of(tree: &Expr) -> PartKind {
    let mut facts = PartFacts {
        nodes: 0,
        is_regular: true,
        has_choice: false,
    };
    facts.add(tree);
    if !facts.is_regular {
        PartKind::Irregular
    } else if facts.nodes > MOST_NODES {
        PartKind::TooLarge
    } else if facts.has_choice {
        PartKind::Choices
    } else {
        PartKind::OneWay
    }
}
