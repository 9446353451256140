//! The nodes of references, before the groups are known.
ghost use Rattle.std.specs.Prelude.{◌≡◌, IfOk};
ghost use Rattle.fancy_lex.specs.NameViews.{view_reference, view_call};
ghost use Rattle.fancy_grammar.specs.AtomStart as spec;
ghost use Rattle.fancy_syntax.specs.View.{view};

use crate::expr::{AstNode, Expr};
use fancy_lex::name::target::{Call, Reference};
use std::alloc::{AllocError, Global};

/// The node of a back reference.
pub(crate) fn backref(alloc: Global, reference: Reference, casei: bool) -> Result<Expr, AllocError>
    ensures { IfOk result (λ e. view e ≡ spec.backref_node casei (view_reference reference.entry)) }
{
    let node = AstNode::Backref {
        target: reference.target.to_owned(alloc)?,
        casei,
        relative_recursion_level: reference.level,
    };
    Ok(Expr::AstNode(node, reference.reach))
}

/// The node of a call.
pub(crate) fn subroutine_call(alloc: Global, call: Call) -> Result<Expr, AllocError>
    ensures { IfOk result (λ e. view e ≡ spec.call_node (view_call call.entry)) }
{
    let node = AstNode::SubroutineCall(call.target.to_owned(alloc)?);
    Ok(Expr::AstNode(node, call.reach))
}

/// The node of a condition on a group.
pub(crate) fn condition(alloc: Global, reference: Reference) -> Result<Box<Expr>, AllocError>
    ensures { IfOk result (λ e. view e.value ≡ spec.condition_node (view_reference reference.entry)) }
{
    let node = AstNode::BackrefExistsCondition {
        target: reference.target.to_owned(alloc)?,
        relative_recursion_level: reference.level,
    };
    Ok(Box::new(alloc, Expr::AstNode(node, reference.reach))?)
}
