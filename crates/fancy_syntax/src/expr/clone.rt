//! Clones of trees: equal to their source, in memory of their own.
ghost use Rattle.std.specs.Prelude.{◌≡◌, true, IfOk, IsOk};
ghost use Rattle.fancy_grammar.specs.Tree.{clear, holds_nothing};
ghost use Rattle.fancy_syntax.specs.View.{view, view_absent, view_ast, views};

use super::{Absent, AstNode, Expr};
use std::alloc::{AllocError, Global};

impl AstNode {
    /// Returns an equal node, or `AllocError` if out of memory.
    #[cycle(clone)]
    pub fn clone(&self, alloc: Global) -> Result<Self, AllocError>
        ensures equal { IfOk result (λ node. view_ast node ≡ view_ast self.now) }
    {
        match self {
            AstNode::AstGroup { name: None, inner } => Ok(AstNode::AstGroup {
                name: None,
                inner: clone_box(alloc, inner)?,
            }),
            AstNode::AstGroup {
                name: Some(name),
                inner,
            } => Ok(AstNode::AstGroup {
                name: Some(String::from_str(alloc, name.as_str())?),
                inner: clone_box(alloc, inner)?,
            }),
            AstNode::Backref {
                target,
                casei,
                relative_recursion_level,
            } => Ok(AstNode::Backref {
                target: target.clone(alloc)?,
                casei: *casei,
                relative_recursion_level: *relative_recursion_level,
            }),
            AstNode::SubroutineCall(target) => Ok(AstNode::SubroutineCall(target.clone(alloc)?)),
            AstNode::BackrefExistsCondition {
                target,
                relative_recursion_level,
            } => Ok(AstNode::BackrefExistsCondition {
                target: target.clone(alloc)?,
                relative_recursion_level: *relative_recursion_level,
            }),
        }
    }
}

impl Absent {
    /// Returns an equal node, or `AllocError` if out of memory, which cannot happen for `Clear`.
    #[cycle(clone)]
    pub fn clone(&self, alloc: Global) -> Result<Self, AllocError>
        ensures equal { IfOk result (λ absent. view_absent absent ≡ view_absent self.now) }
        ensures without_memory { view_absent self.now ≡ clear → IsOk result }
    {
        match self {
            Absent::Repeater(child) => Ok(Absent::Repeater(clone_box(alloc, child)?)),
            Absent::Expression { absent, exp } => Ok(Absent::Expression {
                absent: clone_box(alloc, absent)?,
                exp: clone_box(alloc, exp)?,
            }),
            Absent::Stopper(child) => Ok(Absent::Stopper(clone_box(alloc, child)?)),
            Absent::Clear => Ok(Absent::Clear),
        }
    }
}

impl Expr {
    /// Returns an equal tree, or `AllocError` if out of memory, which cannot happen for a node that holds no text, no
    /// bytes, no tree and no target.
    #[cycle(clone)]
    pub fn clone(&self, alloc: Global) -> Result<Self, AllocError>
        ensures equal { IfOk result (λ tree. view tree ≡ view self.now) }
        ensures without_memory { holds_nothing (view self.now) ≡ true → IsOk result }
    {
        match self {
            Expr::Empty => Ok(Expr::Empty),
            Expr::Any { newline, crlf } => Ok(Expr::Any {
                newline: *newline,
                crlf: *crlf,
            }),
            Expr::Assertion(assertion) => Ok(Expr::Assertion(*assertion)),
            Expr::GeneralNewline { unicode } => Ok(Expr::GeneralNewline { unicode: *unicode }),
            Expr::Literal { val, casei } => Ok(Expr::Literal {
                val: String::from_str(alloc, val.as_str())?,
                casei: *casei,
            }),
            Expr::LiteralBytes { bytes } => Ok(Expr::LiteralBytes {
                bytes: Vec::from_slice(alloc, bytes)?,
            }),
            Expr::Concat(parts) => Ok(Expr::Concat(clone_all(alloc, parts)?)),
            Expr::Alt(branches) => Ok(Expr::Alt(clone_all(alloc, branches)?)),
            Expr::Group(child) => Ok(Expr::Group(clone_box(alloc, child)?)),
            Expr::LookAround(child, look) => Ok(Expr::LookAround(clone_box(alloc, child)?, *look)),
            Expr::Repeat {
                child,
                lo,
                hi,
                greedy,
            } => Ok(Expr::Repeat {
                child: clone_box(alloc, child)?,
                lo: *lo,
                hi: *hi,
                greedy: *greedy,
            }),
            Expr::Delegate { inner, casei } => Ok(Expr::Delegate {
                inner: String::from_str(alloc, inner.as_str())?,
                casei: *casei,
            }),
            Expr::Backref { group, casei } => Ok(Expr::Backref {
                group: *group,
                casei: *casei,
            }),
            Expr::BackrefWithRelativeRecursionLevel {
                group,
                relative_level,
                casei,
            } => Ok(Expr::BackrefWithRelativeRecursionLevel {
                group: *group,
                relative_level: *relative_level,
                casei: *casei,
            }),
            Expr::AtomicGroup(child) => Ok(Expr::AtomicGroup(clone_box(alloc, child)?)),
            Expr::KeepOut => Ok(Expr::KeepOut),
            Expr::ContinueFromPreviousMatchEnd => Ok(Expr::ContinueFromPreviousMatchEnd),
            Expr::BackrefExistsCondition {
                group,
                relative_recursion_level,
            } => Ok(Expr::BackrefExistsCondition {
                group: *group,
                relative_recursion_level: *relative_recursion_level,
            }),
            Expr::Conditional {
                condition,
                true_branch,
                false_branch,
            } => Ok(Expr::Conditional {
                condition: clone_box(alloc, condition)?,
                true_branch: clone_box(alloc, true_branch)?,
                false_branch: clone_box(alloc, false_branch)?,
            }),
            Expr::SubroutineCall(group) => Ok(Expr::SubroutineCall(*group)),
            Expr::BacktrackingControlVerb(verb) => Ok(Expr::BacktrackingControlVerb(*verb)),
            Expr::Absent(absent) => Ok(Expr::Absent(absent.clone(alloc)?)),
            Expr::DefineGroup { definitions } => Ok(Expr::DefineGroup {
                definitions: clone_box(alloc, definitions)?,
            }),
            Expr::AstNode(node, position) => Ok(Expr::AstNode(node.clone(alloc)?, *position)),
        }
    }
}

/// A clone of the tree, in a box of its own.
#[cycle(clone)]
fn clone_box(alloc: Global, tree: &Expr) -> Result<Box<Expr>, AllocError>
    ensures { IfOk result (λ child. view child.value ≡ view tree.now) }
{
    Ok(Box::new(alloc, tree.clone(alloc)?)?)
}

/// Clones of the trees, in a list of their own.
#[cycle(clone)]
fn clone_all(alloc: Global, trees: &[Expr]) -> Result<Vec<Expr>, AllocError>
    ensures { IfOk result (λ all. views all.items ≡ views trees.now) }
{
    let mut all = Vec::with_capacity(alloc, trees.len())?;
    for tree in trees {
        all.push(tree.clone(alloc)?)?;
    }
    Ok(all)
}
