//! A child borrowed for writing.
ghost use Rattle.std.specs.Prelude.{◌≡◌, ◌<◌, Some, option_map, slice_get};
ghost use Rattle.std.specs.Borrow.{sem};
ghost use Rattle.fancy_grammar.specs.Tree.{Tree, children, is_list, with_child as tree_with_child};
ghost use Rattle.fancy_syntax.specs.View.{view, view_absent};
ghost use Rattle.fancy_syntax.specs.Writes.{LendsAbsentBox, LendsChild, child_at as tree_child_at};
ghost use Rattle.fancy_syntax.specs.declared.expr.Expr.{Expr};

use super::parent::{Parent, lend_child};
use super::{Absent, Expr};

impl Parent for Expr {
    type Child = Expr;

    ghost Seen = { Tree };

    ghost show = { view };

    ghost see = { view };

    ghost child_at = { tree_child_at };

    ghost with_child = { tree_with_child };

    ghost holds_list = { is_list };

    fn has_list(&self) -> bool {
        matches!(self, Expr::Concat(_) | Expr::Alt(_))
    }

    fn list_mut(&mut self) -> Option<&mut Vec<Expr>> {
        match self {
            Expr::Concat(children) => Some(children),
            Expr::Alt(children) => Some(children),
            _ => None,
        }
    }

    fn box_mut(&mut self, i: usize) -> Option<&mut Box<Expr>> {
        match i {
            0 => match self {
                Expr::Group(child) => Some(child),
                Expr::LookAround(child, _) => Some(child),
                Expr::Repeat { child, .. } => Some(child),
                Expr::AtomicGroup(child) => Some(child),
                Expr::DefineGroup { definitions } => Some(definitions),
                Expr::Absent(absent) => absent.box_mut(i),
                Expr::Conditional { condition, .. } => Some(condition),
                Expr::Empty
                | Expr::Any { .. }
                | Expr::Assertion(_)
                | Expr::GeneralNewline { .. }
                | Expr::Literal { .. }
                | Expr::LiteralBytes { .. }
                | Expr::Concat(_)
                | Expr::Alt(_)
                | Expr::Delegate { .. }
                | Expr::Backref { .. }
                | Expr::BackrefWithRelativeRecursionLevel { .. }
                | Expr::KeepOut
                | Expr::ContinueFromPreviousMatchEnd
                | Expr::BackrefExistsCondition { .. }
                | Expr::SubroutineCall(_)
                | Expr::BacktrackingControlVerb(_)
                | Expr::AstNode(..) => None,
            },
            1 => match self {
                Expr::Absent(absent) => absent.box_mut(i),
                Expr::Conditional { true_branch, .. } => Some(true_branch),
                _ => None,
            },
            2 => match self {
                Expr::Conditional { false_branch, .. } => Some(false_branch),
                _ => None,
            },
            _ => None,
        }
    }
}

impl Absent {
    fn box_mut(&mut self, i: usize) -> Option<&mut Box<Expr>>
        ensures* writes_back { sem 𝓛 (LendsAbsentBox self.entry i result) }
        ensures value { option_map (λ b. view b.now.value) result ≡ slice_get (children (view_absent self.old)) i }
    {
        match i {
            0 => match self {
                Absent::Repeater(child) => Some(child),
                Absent::Expression { absent, .. } => Some(absent),
                Absent::Stopper(child) => Some(child),
                Absent::Clear => None,
            },
            1 => match self {
                Absent::Expression { exp, .. } => Some(exp),
                Absent::Repeater(_) => None,
                Absent::Stopper(_) => None,
                Absent::Clear => None,
            },
            _ => None,
        }
    }
}

impl Expr {
    /// Returns the i-th child, counted from 0 in the order of the text, or `None` past the last one. What is written
    /// there becomes that child; nothing else changes. It does not allocate, which is not part of the contract.
    ///
    /// ```rust
    /// if let Some(child) = tree.child_mut(0) {
    ///     *child = Expr::Empty;
    /// }
    /// ```
    pub fn child_mut(&mut self, i: usize) -> Option<&mut Expr>
        ensures* writes_back { sem 𝓛 (LendsChild self.entry i result) }
        ensures value { option_map (λ child. view child.now) result ≡ slice_get (children (view self.old)) i }
    {
        lend_child(self, i)
    }
}
