//! Numbers by which equal things are found among many.
use fancy_syntax::expr::{Expr, Shape};
use std::fmt;
use std::fmt::Write;
use std::hash::{FoldHasher, Hasher};

/// A hash of a text or of a tree: of equal ones it is the same, and of others hardly ever.
#[derive(Clone, Copy)]
pub(crate) struct Fingerprint(FoldHasher);

impl Fingerprint {
    /// That of the empty text.
    pub(crate) fn new() -> Fingerprint {
        Fingerprint(FoldHasher::default())
    }

    /// That of the text with more after it; a text has the same one in whatever parts it comes.
    pub(crate) fn with(self, text: &str) -> Fingerprint {
        let mut hasher = self.0;
        for byte in text.bytes() {
            hasher.write_u8(byte);
        }
        Fingerprint(hasher)
    }

    /// That of all that the tree holds.
    pub(crate) fn of(tree: &Expr) -> Fingerprint {
        let mut whole = Fingerprint::new();
        add_tree(tree, &mut whole);
        whole
    }

    pub(crate) fn number(self) -> u64 {
        self.0.finish()
    }
}

/// Adds each text that is written.
impl fmt::Write for Fingerprint {
    fn write_str(&mut self, text: &str) -> fmt::Result {
        *self = self.with(text);
        Ok(())
    }
}

/// Adds the nodes in preorder, and what ends the children of each.
fn add_tree(tree: &Expr, whole: &mut Fingerprint) {
    add_node(tree, whole);
    for child in tree.children_iter() {
        add_tree(child, whole);
    }
    *whole = whole.with(")");
}

/// Adds what a node is, with all that it holds beside its children.
fn add_node(node: &Expr, whole: &mut Fingerprint) {
    // `write_str` never fails.
    let _ = match node.shape() {
        Shape::Leaf => write!(whole, "{node:?}"),
        Shape::Around(wrap, _) => write!(whole, "{wrap:?}"),
        Shape::Concat(_) | Shape::Alt(_) | Shape::Conditional { .. } | Shape::Expression { .. } =>
            whole.write_str(node.kind_name()),
    };
}
