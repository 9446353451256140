//! A search through what lies below a node.
ghost use Rattle.std.specs.Prelude.{◌≡◌, true, false};
ghost use Rattle.std.specs.Fn.{FnReturnsAt};
ghost use Rattle.fancy_syntax.specs.Descendants.{IsDescendant};

use super::Expr;

impl Expr {
    /// Returns whether the predicate is true of some proper descendant: a child, or a descendant of a child. The
    /// predicate must be callable on each of these; it is not called on the node itself, and the order of calls is
    /// unspecified. This function does not allocate, which is not part of the contract.
    ///
    /// ```rust
    /// let looks_around = tree.has_descendant(|node| matches!(node, Expr::LookAround(..)));
    /// ```
    pub fn has_descendant<F: Fn(&Expr) -> bool + Drop>(&self, predicate: F) -> bool
        requires { (d : _) → IsDescendant d.now self.now → F.pre predicate d }
        ensures found { result ≡ true → (d : Expr) × IsDescendant d self.now × FnReturnsAt F.Fn predicate d true }
        ensures none { result ≡ false → (d : Expr) → IsDescendant d self.now → FnReturnsAt F.Fn predicate d false }
    {
        any_below(self, &predicate)
    }
}

/// Whether the predicate is true of a node below the root.
#[cycle(any_below)]
fn any_below<F: Fn(&Expr) -> bool>(tree: &Expr, predicate: &F) -> bool
    requires { (d : _) → IsDescendant d.now tree.now → F.pre predicate.now d }
    ensures found { result ≡ true → (d : Expr) × IsDescendant d tree.now × FnReturnsAt F.Fn predicate.now d true }
    ensures none { result ≡ false → (d : Expr) → IsDescendant d tree.now → FnReturnsAt F.Fn predicate.now d false }
{
    let mut children = tree.children_iter();
    while let Some(child) = children.next() {
        if holds(child, predicate) {
            return true;
        }
        if any_below(child, predicate) {
            return true;
        }
    }
    false
}

/// What the predicate returns for the node. It is a function of its own, so that its result is known there.
fn holds<F: Fn(&Expr) -> bool>(tree: &Expr, predicate: &F) -> bool
    requires { F.pre predicate.now tree }
    ensures { FnReturnsAt F.Fn predicate.now tree.now result }
{
    predicate(tree)
}
