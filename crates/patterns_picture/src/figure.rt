//! How each kind of node is drawn.
use crate::size::{GAP, LINE, PASS, ROLE, SIDE, Size, WORD_LINE, narrowed};
use fancy_syntax::expr::{Expr, Shape, Wrap};

/// How a node is drawn.
#[derive(Clone, Copy, PartialEq, Eq)]
pub(crate) enum Figure {
    /// As only a rail.
    Nothing,
    /// As a text without a border, so that characters in a row look as one.
    Character,
    /// As a box with its text and some words.
    Leaf,
    /// As its children from left to right, in several lines if they are wide.
    Row,
    /// As its children one below another, with rails that fork to them.
    Fork,
    /// As its child with rails round it.
    Loop {
        /// Whether a rail leads back.
        repeats: bool,
        /// Whether a rail passes it.
        skips: bool,
    },
    /// As a box with words round its child.
    Frame,
    /// As a box with words round its children one below another, each with its own rail.
    Parts,
}

impl Figure {
    /// That of the node.
    pub(crate) fn of(node: &Expr) -> Figure {
        match node.shape() {
            Shape::Leaf if matches!(node, Expr::Empty) => Figure::Nothing,
            Shape::Leaf if matches!(node, Expr::Literal { .. }) => Figure::Character,
            Shape::Leaf => Figure::Leaf,
            Shape::Concat(_) => Figure::Row,
            Shape::Alt(_) => Figure::Fork,
            Shape::Around(Wrap::Repeat { lo, hi, .. }, _) => Figure::Loop {
                repeats: hi > 1,
                skips: lo == 0,
            },
            Shape::Around(
                Wrap::Group
                | Wrap::LookAround(_)
                | Wrap::AtomicGroup
                | Wrap::Repeater
                | Wrap::Stopper,
                _,
            ) => Figure::Frame,
            Shape::Around(Wrap::DefineGroup, _)
            | Shape::Conditional { .. }
            | Shape::Expression { .. } => Figure::Parts,
        }
    }

    /// What is left between two neighbours of these figures in a row.
    pub(crate) fn gap(self, next: Figure) -> usize {
        match (self, next) {
            (Figure::Character, Figure::Character) => 0,
            _ => GAP,
        }
    }

    /// What the children take together, where the first ones take so much and the next is so large. The last one has the
    /// figure `last`.
    pub(crate) fn joined(self, so_far: Size, last: Option<Figure>, next: (Figure, Size)) -> Size {
        let Some(last) = last else {
            return next.1;
        };
        match self {
            Figure::Fork | Figure::Parts => so_far.above(GAP, next.1),
            _ => so_far.beside(last.gap(next.0), next.1),
        }
    }

    /// How wide a child, or a line, of a node of this figure may be, where the node may be so wide.
    pub(crate) fn inside(self, width: usize) -> usize {
        match self {
            Figure::Row => narrowed(width, 3 * SIDE),
            Figure::Fork | Figure::Loop { .. } => narrowed(width, 2 * SIDE),
            Figure::Frame => narrowed(width, 2 * GAP),
            Figure::Parts => narrowed(width, 2 * GAP + ROLE),
            Figure::Nothing | Figure::Character | Figure::Leaf => width,
        }
    }

    /// The size of a node of this figure, whose content is so large, and which has words of so many columns.
    pub(crate) fn round(self, content: Size, words: usize) -> Size {
        match self {
            Figure::Nothing => Size {
                width: 2 * GAP,
                height: LINE,
                rail: LINE / 2,
            },
            Figure::Character | Figure::Row => content,
            Figure::Leaf => content.within(GAP / 2, 0, 0).captioned(words),
            Figure::Fork => content.within(SIDE, 0, 0),
            Figure::Loop { repeats, skips } => {
                let label = if words > 0 { WORD_LINE } else { 0 };
                let above = if repeats { WORD_LINE + PASS } else { label };
                let below = if skips { PASS } else { 0 };
                content.within(SIDE, above, below).widened(words)
            }
            Figure::Frame => content.within(GAP, WORD_LINE, PASS).widened(words),
            Figure::Parts => Size {
                width: content.width.saturating_add(ROLE),
                ..content
            }
            .within(GAP, WORD_LINE, PASS)
            .widened(words),
        }
    }
}
