//! Whether a text is read as a tree.
ghost use Rattle.std.specs.Prelude.{◌≡◌, chars, false, Decides, IfOk};
ghost use Rattle.fancy_lex.specs.Flags.{flags_of};
ghost use Rattle.fancy_lex.specs.Text.{Text};
ghost use Rattle.fancy_lex.specs.declared.flags.Flags.{Flags};
ghost use Rattle.fancy_grammar.specs.ParseResult.{IsTreeOf, IsOnlyError};
ghost use Rattle.fancy_grammar.specs.GroupInfo.{GroupInfo};
ghost use Rattle.fancy_grammar.specs.ReadAs.{IsReadAs};
ghost use Rattle.fancy_grammar.specs.Tree.{Tree};
ghost use Rattle.fancy_syntax.specs.InfoViews.{info_of};
ghost use Rattle.fancy_syntax.specs.View.{view};

use fancy_lex::error::Error;
use fancy_syntax::expr::Expr;
use fancy_syntax::tree::ExprTree;
use std::alloc::{AllocError, Global};

/// Whether a text that failed with this error can be parsed: it cannot, or memory ran out and nothing is known.
fn is_read_after(error: Error) -> Result<bool, AllocError>
    ensures { (f : Flags) (text : Text) → IsOnlyError error f text →
        IfOk result (λ b. (b ≡ false) × ((t : Tree) (m : GroupInfo) → IsTreeOf f text t m → ⊥)) }
{
    match error {
        Error::OutOfMemory => Err(AllocError),
        Error::ParseError(..) => Ok(false),
    }
}

/// Whether the text is read under the flags as this tree, except for positions, with this group information.
pub(crate) fn is_read_as(
    alloc: Global,
    text: &str,
    flags: u32,
    tree: &ExprTree,
) -> Result<bool, AllocError>
    ensures { IfOk result (λ b. Decides b
        (IsReadAs (flags_of flags) (chars text.now) (view tree.now.expr) (info_of tree.now))) }
{
    match Expr::parse_tree_with_flags(alloc, text, flags) {
        Ok(read) => Ok(read.is_same_but_for_positions(tree)),
        Err(error) => is_read_after(error),
    }
}
