//! Printing a tree as a pattern.
ghost use Rattle.std.specs.Prelude.{◌≡◌, ℕ, ◌+◌, ◌<◌, ◌≤◌, Bool, List, [], ◌++◌, true, false, IfOk, IfSome, IsOk, OnOk};
ghost use Rattle.std.specs.Prelude.{OnErr};
ghost use Rattle.std.specs.Prelude.{None, is_some, string_bytes, string_len, string_capacity, chars, encode_utf8_all};
ghost use Rattle.fancy_lex.specs.Text.{bytes};
ghost use Rattle.fancy_grammar.specs.HasDelegate.{has_delegate};
ghost use Rattle.fancy_grammar.specs.Normal.{normal};
ghost use Rattle.fancy_grammar.specs.Over.{too_deep};
ghost use Rattle.fancy_grammar.specs.Printable.{printable};
ghost use Rattle.fancy_grammar.specs.Printed.{printed, has_text};
ghost use Rattle.fancy_grammar.specs.ReadBack.{IsReadBack};
ghost use Rattle.fancy_grammar.specs.Tree.{Tree};
ghost use Rattle.fancy_syntax.specs.Capacity.{in_word};
ghost use Rattle.fancy_syntax.specs.View.{view};

mod delegate;
mod fixed;
mod printable;
pub mod quote;
mod repeated;
mod reserved;
mod sink;
mod write;

use crate::expr::Expr;
use crate::print::printable::is_printable;
use crate::print::sink::Length;
use crate::print::write::put_tree;
use std::alloc::{AllocError, Global};

/// The precedence of a whole pattern, and of the contents of a group.
pub const WHOLE: u8 = 0;
/// The precedence of a branch of an alternation.
pub const BRANCH: u8 = 1;
/// The precedence of an element of a concatenation.
pub const PIECE: u8 = 2;
/// The precedence of the operand of a quantifier.
pub const OPERAND: u8 = 3;

/// The number of bytes that a tree is printed as, or `usize::MAX` if a word cannot hold it.
#[inline]
fn tree_len(tree: &Expr, precedence: u8) -> usize
    ensures { result ≡ in_word (bytes (printed (view tree.now) precedence)) }
{
    let mut length = Length { len: 0 };
    put_tree(&mut length, tree, precedence);
    length.len
}

impl Expr {
    /// Returns whether the tree is printable: the tree of `(?:a|b)c` is, and that of `(?=a)` is not. It is if each node
    /// has a text, each `Delegate` holds one whole class or class escape, and no `Repeat` has an operand that parses as
    /// `Empty`; nothing inside a `DefineGroup` counts. The normal form of a printable tree is printable too. Without a
    /// `Delegate`, that form is its own normal form, with Unicode or without.
    ///
    /// Returns `AllocError` if out of memory, which can only happen if the tree has a `Delegate`.
    pub fn is_printable(&self, alloc: Global) -> Result<bool, AllocError>
        ensures exact { IfOk result (λ b. b ≡ printable (view self.now)) }
        ensures text { IfOk result (λ b. b ≡ true → has_text (view self.now) ≡ true) }
        ensures normal { IfOk result (λ b. b ≡ true → (u : Bool) → printable (normal u (view self.now)) ≡ true) }
        ensures fixed { IfOk result (λ b. b ≡ true → has_delegate (view self.now) ≡ false → (u v : Bool) →
            normal v (normal u (view self.now)) ≡ normal u (view self.now)) }
        ensures without_memory { has_delegate (view self.now) ≡ false → IsOk result }
    {
        is_printable(alloc, self)
    }

    /// Appends the tree's text to `buf`. The tree must have a text, as every printable tree has. A group is printed
    /// around an `Alt` above precedence `WHOLE`, around a `Concat` above `BRANCH`, and around a `Repeat` above `PIECE`;
    /// also around the operand of a `Repeat` that is a case-sensitive `Literal` of several characters.
    ///
    /// The text of a printable tree parses back as the tree's normal form, under no flag and under only
    /// `FLAG_UNICODE`. If 64 or more printed groups nest, `(?i:` and the like among them, it cannot be parsed: the
    /// error is `RecursionExceeded`, at the first opening parenthesis inside 63 groups. If fewer nest, printable trees
    /// with the same text have the same normal form.
    ///
    /// `buf` grows at most once, by the text's length in bytes. Returns `AllocError` if out of memory; `buf` is then
    /// unchanged.
    ///
    /// ```rust
    /// if tree.is_printable(alloc)? {
    ///     tree.to_str(&mut text, WHOLE)?;
    /// }
    /// ```
    pub fn to_str(&self, buf: &mut String, precedence: u8) -> Result<(), AllocError>
        requires text { has_text (view self.now) ≡ true }
        ensures appended { OnOk result (string_bytes buf.new ≡
            string_bytes buf.old ++ encode_utf8_all (printed (view self.now) precedence)) }
        ensures unchanged { OnErr result (string_bytes buf.new ≡ string_bytes buf.old) }
        ensures capacity { OnErr result (string_capacity buf.new ≡ string_capacity buf.old) }
        ensures reads_back { OnOk result (printable (view self.now) ≡ true → (w : List ℕ) × (string_bytes buf.new ≡
            string_bytes buf.old ++ w) × IsReadBack (view self.now) precedence (chars w)) }
        ensures same_text { printable (view self.now) ≡ true → too_deep (view self.now) precedence ≡ None →
            (s : Tree) (q : ℕ) (u : Bool) → printable s ≡ true → printed (view self.now) precedence ≡ printed s q →
            normal u (view self.now) ≡ normal u s }
        ensures reserved { string_len buf.old + bytes (printed (view self.now) precedence) ≤ string_capacity buf.old →
            IsOk result }
        ensures nothing_to_print { printed (view self.now) precedence ≡ [] → IsOk result }
    {
        // No string has the capacity `usize::MAX`, which is the count for any longer text.
        buf.reserve(tree_len(self, precedence))?;
        put_tree(buf, self, precedence);
        Ok(())
    }

    /// Returns the text that `to_str` appends at this precedence, or `None` if the tree is not printable, as
    /// `is_printable` says. With `WHOLE` the text is a whole pattern; higher precedences are for text that goes into
    /// another pattern. Returns `AllocError` if out of memory.
    ///
    /// ```rust
    /// let tree = Expr::parse_tree(alloc, "(?:a|b)c")?;
    /// match tree.expr.print(alloc, WHOLE)? {
    ///     Some(text) => println!(rt; "{text}")?,
    ///     None => println!(rt; "not printable")?,
    /// }
    /// ```
    pub fn print(&self, alloc: Global, precedence: u8) -> Result<Option<String>, AllocError>
        ensures exact { IfOk result (λ t. is_some t ≡ printable (view self.now)) }
        ensures text { IfOk result (λ t. IfSome t (λ s.
            string_bytes s ≡ encode_utf8_all (printed (view self.now) precedence))) }
        ensures reads_back { IfOk result (λ t. IfSome t (λ s.
            IsReadBack (view self.now) precedence (chars (string_bytes s)))) }
    {
        if !self.is_printable(alloc)? {
            return Ok(None);
        }
        let mut text = String::new(alloc);
        self.to_str(&mut text, precedence)?;
        Ok(Some(text))
    }
}
