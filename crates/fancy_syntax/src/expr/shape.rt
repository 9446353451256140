//! What a node has below it.
ghost use Rattle.std.specs.Prelude.{◌≡◌};
ghost use Rattle.fancy_syntax.specs.Children.{children_of};
ghost use Rattle.fancy_syntax.specs.Shape.{HasShape, children_in};
ghost use Rattle.fancy_syntax.specs.View.{view};

use super::{Absent, Expr, LookAround};

/// What a node has below it. A walk that treats no kind of node for its own sake needs no more.
#[derive(Clone, Copy)]
pub enum Shape<'a> {
    /// Nothing: the node is of a kind that never has children, as every `AstNode` is.
    Leaf,
    /// One child, and what is around it.
    Around(Wrap, &'a Expr),
    /// The pieces of a `Concat`.
    Concat(&'a [Expr]),
    /// The branches of an `Alt`.
    Alt(&'a [Expr]),
    /// The parts of a `Conditional`, in fields of the same names.
    Conditional {
        /// The condition.
        condition: &'a Expr,
        /// What must match if the condition is true.
        true_branch: &'a Expr,
        /// What must match if it is false.
        false_branch: &'a Expr,
    },
    /// The parts of an `Absent::Expression`, in fields of the same names.
    Expression {
        /// What the text must not contain.
        absent: &'a Expr,
        /// What the text must match.
        exp: &'a Expr,
    },
}

/// A node with one child, without the child: the fields that it has beside it.
#[derive(Debug, Clone, Copy, PartialEq, Eq)]
pub enum Wrap {
    /// That of an `Expr::Group`.
    Group,
    /// That of an `Expr::LookAround`.
    LookAround(LookAround),
    /// That of an `Expr::Repeat`.
    Repeat {
        /// The minimum number of repetitions.
        lo: usize,
        /// The maximum number of repetitions.
        hi: usize,
        /// Whether it is greedy.
        greedy: bool,
    },
    /// That of an `Expr::AtomicGroup`.
    AtomicGroup,
    /// That of an `Expr::DefineGroup`.
    DefineGroup,
    /// That of an `Absent::Repeater`.
    Repeater,
    /// That of an `Absent::Stopper`.
    Stopper,
}

impl Expr {
    /// Returns what the node has below it.
    #[inline(always)]
    #[tactic(auto, using(crate::proofs::ChildrenLemmas::view_Concat, crate::proofs::ChildrenLemmas::view_Alt))]
    pub fn shape(&self) -> Shape<'_>
        ensures node { HasShape result (view self.now) }
        ensures values { children_in result ≡ children_of self.now }
    {
        match self {
            Expr::Concat(pieces) => Shape::Concat(pieces),
            Expr::Alt(branches) => Shape::Alt(branches),
            Expr::Group(child) => Shape::Around(Wrap::Group, child),
            Expr::LookAround(child, look) => Shape::Around(Wrap::LookAround(*look), child),
            Expr::Repeat {
                child,
                lo,
                hi,
                greedy,
            } => {
                let wrap = Wrap::Repeat {
                    lo: *lo,
                    hi: *hi,
                    greedy: *greedy,
                };
                Shape::Around(wrap, child)
            }
            Expr::AtomicGroup(child) => Shape::Around(Wrap::AtomicGroup, child),
            Expr::DefineGroup { definitions } => Shape::Around(Wrap::DefineGroup, definitions),
            Expr::Absent(Absent::Repeater(child)) => Shape::Around(Wrap::Repeater, child),
            Expr::Absent(Absent::Stopper(child)) => Shape::Around(Wrap::Stopper, child),
            Expr::Absent(Absent::Expression { absent, exp }) => Shape::Expression { absent, exp },
            Expr::Conditional {
                condition,
                true_branch,
                false_branch,
            } => Shape::Conditional {
                condition,
                true_branch,
                false_branch,
            },
            Expr::Empty
            | Expr::Any { .. }
            | Expr::Assertion(_)
            | Expr::GeneralNewline { .. }
            | Expr::Literal { .. }
            | Expr::LiteralBytes { .. }
            | Expr::Delegate { .. }
            | Expr::Backref { .. }
            | Expr::BackrefWithRelativeRecursionLevel { .. }
            | Expr::KeepOut
            | Expr::ContinueFromPreviousMatchEnd
            | Expr::BackrefExistsCondition { .. }
            | Expr::SubroutineCall(_)
            | Expr::BacktrackingControlVerb(_)
            | Expr::Absent(Absent::Clear)
            | Expr::AstNode(..) => Shape::Leaf,
        }
    }
}
