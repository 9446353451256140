//! The kinds of group that hold one alternation.
ghost use Rattle.std.specs.Prelude.{◌≡◌, OnOk};
ghost use Rattle.fancy_syntax.specs.Decided.{made};
ghost use Rattle.fancy_syntax.specs.View.{view};

use crate::expr::{Absent, AstNode, Expr, LookAround};
use fancy_lex::text::Reach;
use std::alloc::{AllocError, Global};
use std::mem;

/// The kind of a group.
#[derive(Clone, Copy)]
pub(crate) enum GroupKind<'a> {
    /// A capturing group, with its name if it has one. Once `FoundGroups::add` has returned it, it has a number.
    Capture(Option<&'a str>),
    /// A capturing group without a name, which has a number only if no group has a name.
    Undecided,
    /// A group of flags.
    FlagGroup,
    Look(LookAround),
    Atomic,
    Define,
    /// An absent repeater.
    Repeater,
}

/// Puts the tree, the contents of a group that opens at the reach, in the node of the group. A flag group has none.
pub(crate) fn enclose(
    alloc: Global,
    kind: GroupKind,
    reach: Reach,
    tree: &mut Expr,
) -> Result<(), AllocError>
    ensures { OnOk result (view tree.new ≡ made kind.entry reach (view tree.old)) }
{
    if matches!(kind, GroupKind::FlagGroup) {
        return Ok(());
    }
    let inner = Box::new(alloc, mem::replace(tree, Expr::Empty))?;
    // The replaced tree is Empty, which owns nothing.
    mem::forget(mem::replace(tree, node(kind, reach, inner)));
    Ok(())
}

/// The node of a group that opens at the reach, around its contents.
fn node(kind: GroupKind, reach: Reach, inner: Box<Expr>) -> Expr
    ensures { view result ≡ made kind.entry reach (view inner.value) }
{
    match kind {
        GroupKind::Capture(_) => Expr::Group(inner),
        GroupKind::Undecided => Expr::AstNode(AstNode::AstGroup { name: None, inner }, reach),
        GroupKind::FlagGroup => Box::into_inner(inner),
        GroupKind::Look(look) => Expr::LookAround(inner, look),
        GroupKind::Atomic => Expr::AtomicGroup(inner),
        GroupKind::Define => Expr::DefineGroup { definitions: inner },
        GroupKind::Repeater => Expr::Absent(Absent::Repeater(inner)),
    }
}
