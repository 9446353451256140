//! The positions of the nodes of a raw tree, and of what no node has, recorded while it is read.
ghost use Rattle.std.specs.Prelude.{◌≡◌, chars, OnOk};
ghost use Rattle.fancy_lex.specs.Text.{reach_of};
ghost use Rattle.fancy_syntax.specs.Log.{Log, leaf_recorded, left_out, wrapped, branch_begun};
ghost use Rattle.fancy_syntax.specs.Log.{branch_ended, choice_ended, layout_passed, pass, text_dropped};
ghost use Rattle.fancy_syntax.specs.Machine.{part_of, part_recorded};
ghost use Rattle.fancy_syntax.specs.Parsed.{state, view_start, HasConditionAt};
ghost use Rattle.fancy_syntax.specs.Recording.{atom_begun};
ghost use Rattle.fancy_syntax.specs.View.{view};
ghost use Rattle.fancy_grammar.specs.Spans.{condition_span};
ghost use Rattle.fancy_grammar.specs.State.{skipped};
ghost use Rattle.fancy_grammar.specs.Trivia.{inner_of_counts};
ghost use Rattle.fancy_lex.specs.LayoutSteps.{rest};

use crate::expr::Expr;
use crate::grammar::atom_start::AtomStart;
use crate::grammar::frame::OpenPart;
use crate::grammar::state::State;
use fancy_lex::counts::Counts;
use fancy_lex::text::Reach;
use std::alloc::{AllocError, Global};

/// What is done when the parser has read something. If no spans are recorded, nothing is done, and calls are compiled
/// without it.
pub(crate) trait Spanning: Drop {
    /// The log that is recorded, if anything is.
    ghost records: { Self → Log → Type 0 };

    /// The layout at the front, which `after` follows, is passed.
    fn pass_layout(&mut self, current: State, after: &str) -> Result<(), AllocError>
        requires { skipped (state current) ≡ rest (chars after.now) }
        ensures { (l : Log) → records self.old l → OnOk result (records self.new (layout_passed (state current.entry) l)) };

    /// The counts of a quantifier at the front, which `after` follows, are passed.
    fn pass_counts(&mut self, counts: Counts, start: &str, after: &str) -> Result<(), AllocError>
        ensures { (l : Log) → records self.old l → OnOk result (records self.new
            (pass (inner_of_counts counts (chars start.now) (chars after.now)) l)) };

    /// The text between the reaches leaves nothing in the tree, unless it is empty.
    fn drop_text(&mut self, start: usize, end: usize) -> Result<(), AllocError>
        ensures { (l : Log) → records self.old l → OnOk result (records self.new (text_dropped start end l)) };

    /// A leaf, or an Empty, between the reaches becomes the last piece.
    fn record_leaf(&mut self, start: usize, end: usize) -> Result<(), AllocError>
        ensures { (l : Log) → records self.old l → OnOk result (records self.new (leaf_recorded start end l)) };

    /// An atom begins at `start`, and was read up to `end`, with the comments in it. If it holds branches, the part
    /// that begins at `end` is open; otherwise the atom becomes the last piece.
    fn begin_atom(
        &mut self,
        alloc: Global,
        start: State,
        atom: &AtomStart,
        end: State,
    ) -> Result<(), AllocError>
        requires { HasConditionAt atom.now (condition_span (state start) (state end)).start }
        ensures { (l : Log) → records self.old l → OnOk result (records self.new
            (atom_begun (state start.entry) (view_start atom.now (state end.entry)) l)) };

    /// The last piece is an Empty, which is left out.
    fn leave_out(&mut self)
        ensures { (l : Log) → records self.old l → records self.new (left_out l) };

    /// A quantifier that ends there makes a node around the last piece, and if it is atomic one more around that.
    fn wrap(&mut self, end: usize, atomic: bool) -> Result<(), AllocError>
        ensures { (l : Log) → records self.old l → OnOk result (records self.new (wrapped end atomic l)) };

    /// The next branch begins there, after a bar.
    fn next_branch(&mut self, start: usize)
        ensures { (l : Log) → records self.old l → records self.new (branch_begun start l) };

    /// The open branch, with that many pieces, ends there.
    fn end_branch(&mut self, pieces: usize, end: usize) -> Result<(), AllocError>
        ensures { (l : Log) → records self.old l → OnOk result (records self.new (branch_ended pieces end l)) };

    /// The open part has several branches, the last of which ends there: they become an Alt.
    fn end_choice(&mut self, end: usize) -> Result<(), AllocError>
        ensures { (l : Log) → records self.old l → OnOk result (records self.new (choice_ended end l)) };

    /// The open part, whose contents are the tree, ends. Its closing parenthesis begins at the reach, and `rest`
    /// follows it. After a condition the body begins there; otherwise the atom ends too, and becomes the last piece.
    fn end_part(
        &mut self,
        part: &OpenPart,
        tree: &Expr,
        paren: Reach,
        rest: &str,
    ) -> Result<(), AllocError>
        ensures { (l : Log) → records self.old l → OnOk result (records self.new
            (part_recorded (part_of part.now) (view tree.now) paren (reach_of (chars rest.now)) l)) };
}

/// No spans are recorded.
#[derive(Drop)]
pub(crate) struct NoSpans;

impl Spanning for NoSpans {
    ghost records = { λ s l. Unit {0} };

    #[inline(always)]
    fn pass_layout(&mut self, _current: State, _after: &str) -> Result<(), AllocError> {
        Ok(())
    }

    #[inline(always)]
    fn pass_counts(
        &mut self,
        _counts: Counts,
        _start: &str,
        _after: &str,
    ) -> Result<(), AllocError> {
        Ok(())
    }

    #[inline(always)]
    fn drop_text(&mut self, _start: usize, _end: usize) -> Result<(), AllocError> {
        Ok(())
    }

    #[inline(always)]
    fn record_leaf(&mut self, _start: usize, _end: usize) -> Result<(), AllocError> {
        Ok(())
    }

    #[inline(always)]
    fn begin_atom(
        &mut self,
        _alloc: Global,
        _start: State,
        _atom: &AtomStart,
        _end: State,
    ) -> Result<(), AllocError> {
        Ok(())
    }

    #[inline(always)]
    fn leave_out(&mut self) {}

    #[inline(always)]
    fn wrap(&mut self, _end: usize, _atomic: bool) -> Result<(), AllocError> {
        Ok(())
    }

    #[inline(always)]
    fn next_branch(&mut self, _start: usize) {}

    #[inline(always)]
    fn end_branch(&mut self, _pieces: usize, _end: usize) -> Result<(), AllocError> {
        Ok(())
    }

    #[inline(always)]
    fn end_choice(&mut self, _end: usize) -> Result<(), AllocError> {
        Ok(())
    }

    #[inline(always)]
    fn end_part(
        &mut self,
        _part: &OpenPart,
        _tree: &Expr,
        _paren: Reach,
        _rest: &str,
    ) -> Result<(), AllocError> {
        Ok(())
    }
}
