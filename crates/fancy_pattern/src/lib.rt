//! The text of every parsed tree, for the flags that its pattern was parsed under.
//!
//! ```rust
//! use fancy_pattern::to_pattern;
//!
//! let tree = Expr::parse_tree_with_flags(alloc, "(?<n>a)\\k<n>++", flags)?;
//! if let Some(text) = to_pattern(alloc, &tree, flags)? {
//!     println!(rt; "{text}")?;
//! }
//! ```
#![tactic(auto)]

ghost use Rattle.std.specs.Prelude.{◌≡◌, IfOk, IfSome, IfNone};
ghost use Rattle.fancy_lex.specs.Flags.{flags_of};
ghost use Rattle.fancy_lex.specs.Text.{text_of};
ghost use Rattle.fancy_grammar.specs.Pattern.{pattern_text};
ghost use Rattle.fancy_grammar.specs.OfPattern.{IsOfPattern};
ghost use Rattle.fancy_grammar.specs.ReadAs.{IsReadAs};
ghost use Rattle.fancy_syntax.specs.InfoViews.{info_of};
ghost use Rattle.fancy_syntax.specs.View.{view};
ghost use Rattle.fancy_pattern.specs.ContextViews.{KnowsNeeds};

mod context;
mod flags;
mod group_text;
mod leaf;
pub mod letters;
mod names;
mod needs;
mod output;
mod precedence;
mod quantifier;
mod reference;
mod same;
mod separator;
mod source;
mod write;

use crate::context::Context;
use crate::names::GroupNames;
use crate::needs::{are_met_by_leaves, no_needs, push_needs};
use crate::output::TextOutput;
use crate::same::is_read_as;
use crate::write::put_pattern;
use fancy_grammar::needs::Needs;
use fancy_lex::flags::Flags;
use fancy_syntax::expr::Expr;
use fancy_syntax::tree::ExprTree;
use std::alloc::{AllocError, Global};

/// Returns a pattern that is parsed, under the same flags, as this tree with the same group information; only the
/// position in an `AstNode` may differ. Pass the flags that the tree was parsed under.
///
/// Returns `None` if the text for the tree does not parse back as this tree, as can happen with other flags or after
/// the tree was changed. For a tree that was parsed under the same flags, and that is not changed, a text is always
/// returned. Returns `AllocError` if out of memory.
pub fn to_pattern(alloc: Global, tree: &ExprTree, flags: u32) -> Result<Option<String>, AllocError>
    ensures text { IfOk result (λ t. IfSome t (λ s.
        text_of s ≡ pattern_text (flags_of flags) (view tree.now.expr) (info_of tree.now))) }
    ensures reads_back { IfOk result (λ t. IfSome t (λ s.
        IsReadAs (flags_of flags) (text_of s) (view tree.now.expr) (info_of tree.now))) }
    ensures none { IfOk result (λ t. IfNone t
        (IsReadAs (flags_of flags) (pattern_text (flags_of flags) (view tree.now.expr) (info_of tree.now))
        (view tree.now.expr) (info_of tree.now) → ⊥)) }
    ensures parsed { IfOk result (λ t. IfNone t
        (IsOfPattern (flags_of flags) (view tree.now.expr) (info_of tree.now) → ⊥)) }
{
    let text = text_of_tree(alloc, tree, Flags::from_bits(flags))?;
    if is_read_as(alloc, text.as_str(), flags, tree)? {
        Ok(Some(text))
    } else {
        Ok(None)
    }
}

/// The initial capacity of a list and of a text, so that a small one does not grow.
const FIRST_CAPACITY: usize = 64;

/// What each node needs, in preorder, and what all leaves need together. Both are empty if the flags are as each leaf
/// needs them, as they are for most patterns.
fn needs_of(alloc: Global, tree: &Expr, flags: Flags) -> Result<(Vec<Needs>, Needs), AllocError>
    ensures { IfOk result (λ r. KnowsNeeds flags (view tree.now) r.0.items r.1) }
{
    if are_met_by_leaves(tree, &flags) {
        return Ok((Vec::new(alloc), no_needs()));
    }
    let mut listed = Vec::with_capacity(alloc, FIRST_CAPACITY)?;
    let needs = push_needs(&mut listed, tree, flags.oniguruma_mode)?;
    Ok((listed, needs.common))
}

/// The text of the tree. The string begins with an initial capacity, grows from there, and is not shrunk.
fn text_of_tree(alloc: Global, tree: &ExprTree, flags: Flags) -> Result<String, AllocError>
    ensures { IfOk result (λ s. text_of s ≡ pattern_text flags (view tree.now.expr) (info_of tree.now)) }
{
    let names = GroupNames::new(alloc, tree)?;
    let (listed, agreed) = needs_of(alloc, &tree.expr, flags)?;
    let context = Context::at_start(flags, listed.as_slice());
    let mut out = TextOutput::with_capacity(alloc, FIRST_CAPACITY)?;
    put_pattern(&mut out, &names, &tree.expr, agreed, context)?;
    Ok(out.into_string())
}
