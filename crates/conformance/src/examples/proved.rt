//! Callers with contracts of their own, which rest on those of the library.
ghost use Rattle.std.specs.Prelude.{◌≡◌, chars, length, string_bytes, IfOk, MatchOption};
ghost use Rattle.fancy_lex.specs.Flags.{flags_of};
ghost use Rattle.fancy_syntax.specs.InfoViews.{IsTreeOf};
ghost use Rattle.fancy_syntax.specs.ParsedTree.{groups};
ghost use Rattle.fancy_syntax.specs.GroupInfo.{GroupInfo};
ghost use Rattle.fancy_syntax.specs.Tree.{Tree};
ghost use Rattle.conformance.specs.Forms.{IsFormOf, HasNoForm};

use fancy_syntax::{Error, Expr, FLAG_UNICODE, WHOLE};
use std::alloc::Global;

/// The text that the pattern prints as; `None` if its tree is not printable.
pub fn formatted(alloc: Global, pattern: &str) -> Result<Option<String>, Error>
    ensures form { IfOk result (λ text. MatchOption text (HasNoForm (flags_of FLAG_UNICODE) (chars pattern.now))
        (λ s. IsFormOf (flags_of FLAG_UNICODE) (chars pattern.now) (string_bytes s))) }
{
    let tree = Expr::parse_tree_with_flags(alloc, pattern, FLAG_UNICODE)?;
    Ok(tree.expr.print(alloc, WHOLE)?)
}

/// How many capturing groups the pattern has.
pub fn group_count(alloc: Global, pattern: &str) -> Result<usize, Error>
    ensures tree { IfOk result (λ n. (t : Tree) × (m : GroupInfo) ×
        IsTreeOf (flags_of FLAG_UNICODE) (chars pattern.now) t m) }
    ensures count { IfOk result (λ n. (t : _) (m : _) → IsTreeOf (flags_of FLAG_UNICODE) (chars pattern.now) t m →
        length (groups t) ≡ n) }
{
    let tree = Expr::parse_tree_with_flags(alloc, pattern, FLAG_UNICODE)?;
    Ok(tree.total_groups)
}
