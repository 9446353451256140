//! The open groups.
ghost use Rattle.std.specs.Prelude.{◌≡◌, ◌≤◌, ◌<◌, List, [], ◌∷◌, ◌++◌, length, vec_len, IfOk, OnOk};
ghost use Rattle.fancy_grammar.specs.Join.{one_or, choice};
ghost use Rattle.fancy_grammar.specs.Tree.{Tree, concat};
ghost use Rattle.fancy_syntax.specs.Log.{Log, branch_ended};
ghost use Rattle.fancy_syntax.specs.Machine.{HoldsTrees};
ghost use Rattle.fancy_syntax.specs.Recording.{choice_recorded};
ghost use Rattle.fancy_syntax.specs.View.{view, views};

use crate::expr::Expr;
use crate::grammar::error::general;
use crate::grammar::group::kind::GroupKind;
use crate::grammar::spanning::Spanning;
use crate::grammar::trees::{join_branch, push, take_above, take_branch};
use fancy_lex::error::ReadError;
use fancy_lex::flags::Flags;
use fancy_lex::text::Reach;
use std::alloc::{AllocError, Global};

/// An open part.
#[derive(Drop)]
pub(crate) enum OpenPart<'a> {
    /// The whole text.
    Top,
    /// A group that opens at the reach.
    Group { kind: GroupKind<'a>, reach: Reach },
    /// The condition of a conditional.
    Condition,
    /// The body of a conditional with this condition; that many bytes were left at its start.
    Body { condition: Box<Expr>, left: usize },
    /// The branch after `(?~|`.
    First,
    /// The branch after that branch and a bar.
    Second(Box<Expr>),
}

/// The start of a piece: how many bytes are left there, and the flags.
#[derive(Clone, Copy)]
pub(crate) struct PieceStart {
    pub(crate) left: usize,
    pub(crate) flags: Flags,
}

/// An open group: where its trees begin among all that have been read. The trees of the groups around it are below.
#[derive(Drop)]
pub(crate) struct Frame<'a> {
    pub(crate) open_part: OpenPart<'a>,
    /// How many trees are below its finished branches.
    pub(crate) branches: usize,
    /// How many trees are below the pieces of the open branch, which is the last.
    pub(crate) pieces: usize,
}

/// An open group around another, and the start of its piece that holds the other.
#[derive(Drop)]
pub(crate) struct Enclosing<'a> {
    pub(crate) frame: Frame<'a>,
    pub(crate) piece: PieceStart,
}

impl<'a> Frame<'a> {
    ghost use Rattle.std.specs.Prelude.{false, IfErr};
    ghost use Rattle.fancy_lex.specs.Text.{reach_of};
    ghost use Rattle.fancy_syntax.specs.Machine.{part_of, IsOpenedByBar, branches_at_bar, is_second, IsErrorOfBar};
    ghost use Rattle.fancy_grammar.specs.Errors.{IsErrorAmong};

    /// A group in which nothing has been read yet, above `height` trees.
    pub(crate) fn new(open_part: OpenPart<'a>, height: usize) -> Frame<'a>
        ensures open_part { result.open_part ≡ open_part.entry }
        ensures branches { result.branches ≡ height }
        ensures pieces { result.pieces ≡ height }
    {
        Frame {
            open_part,
            branches: height,
            pieces: height,
        }
    }

    /// Ends the open branch at the bar at the reach, and opens what comes next.
    ///
    /// No bar may follow the second branch of an absent expression: GeneralParseError, at the bar.
    pub(crate) fn bar<S: Spanning>(
        &mut self,
        alloc: Global,
        trees: &mut Vec<Expr>,
        reach: Reach,
        spans: &mut S,
    ) -> Result<(), ReadError>
        requires { self.old.pieces ≤ vec_len trees.old }
        ensures open_part { (below branches pieces : List Tree) →
            HoldsTrees self.old (views trees.old.items) below branches pieces →
            OnOk result (IsOpenedByBar self.old.open_part self.new.open_part (one_or concat pieces)) }
        ensures trees { (below branches pieces : List Tree) →
            HoldsTrees self.old (views trees.old.items) below branches pieces →
            OnOk result (HoldsTrees self.new (views trees.new.items) below
            (branches_at_bar (part_of self.old.open_part) branches (one_or concat pieces)) []) }
        ensures allowed { IfOk result (λ _. is_second (part_of self.old.open_part) ≡ false) }
        ensures spans { (below branches pieces : List Tree) (l : Log) →
            HoldsTrees self.old (views trees.old.items) below branches pieces →
            S.records spans.old l → OnOk result (S.records spans.new (branch_ended (length pieces) reach l)) }
        ensures error { (t : _) → reach ≡ reach_of t →
            IfErr result (λ e. IsErrorAmong e (IsErrorOfBar (part_of self.old.open_part) t)) }
    {
        match &self.open_part {
            OpenPart::First => {
                let branch = take_branch(alloc, trees, self.pieces, reach, spans)?;
                self.open_part = OpenPart::Second(Box::new(alloc, branch)?);
                Ok(())
            }
            OpenPart::Second(_) => Err(general(alloc, "expected close paren", reach)),
            _ => Ok(self.end_branch(alloc, trees, reach, spans)?),
        }
    }

    /// Ends the open branch at the reach, and opens the next.
    fn end_branch<S: Spanning>(
        &mut self,
        alloc: Global,
        trees: &mut Vec<Expr>,
        reach: Reach,
        spans: &mut S,
    ) -> Result<(), AllocError>
        requires { self.old.pieces ≤ vec_len trees.old }
        ensures open_part { self.new.open_part ≡ self.old.open_part }
        ensures trees { (below branches pieces : List Tree) →
            HoldsTrees self.old (views trees.old.items) below branches pieces →
            OnOk result (HoldsTrees self.new (views trees.new.items) below (branches ++ one_or concat pieces ∷ []) []) }
        ensures spans { (below branches pieces : List Tree) (l : Log) →
            HoldsTrees self.old (views trees.old.items) below branches pieces →
            S.records spans.old l → OnOk result (S.records spans.new (branch_ended (length pieces) reach l)) }
    {
        join_branch(alloc, trees, self.pieces, reach, spans)?;
        self.pieces = trees.len();
        Ok(())
    }

    /// Ends the group, whose last branch ends at the reach, and returns the tree of its contents.
    pub(crate) fn finish<S: Spanning>(
        &self,
        alloc: Global,
        trees: &mut Vec<Expr>,
        reach: Reach,
        spans: &mut S,
    ) -> Result<Expr, AllocError>
        requires branches { self.now.branches ≤ self.now.pieces }
        requires pieces { self.now.pieces ≤ vec_len trees.old }
        ensures tree { (below branches pieces : List Tree) →
            HoldsTrees self.now (views trees.old.items) below branches pieces →
            IfOk result (λ e. view e ≡ choice (branches ++ one_or concat pieces ∷ [])) }
        ensures below { (below branches pieces : List Tree) →
            HoldsTrees self.now (views trees.old.items) below branches pieces →
            OnOk result (views trees.new.items ≡ below) }
        ensures spans { (below branches pieces : List Tree) (l : Log) →
            HoldsTrees self.now (views trees.old.items) below branches pieces →
            S.records spans.old l → OnOk result (S.records spans.new
            (choice_recorded (branches ++ one_or concat pieces ∷ []) reach (branch_ended (length pieces) reach l))) }
    {
        let branch = take_branch(alloc, trees, self.pieces, reach, spans)?;
        // Usually it is the only one.
        if self.branches == self.pieces {
            return Ok(branch);
        }
        push(trees, branch)?;
        spans.end_choice(reach)?;
        Ok(Expr::Alt(take_above(alloc, trees, self.branches)?))
    }

    /// Ends the group, whose last branch ends at the reach, and makes its contents one tree.
    pub(crate) fn join<S: Spanning>(
        &self,
        alloc: Global,
        trees: &mut Vec<Expr>,
        reach: Reach,
        spans: &mut S,
    ) -> Result<(), AllocError>
        requires branches { self.now.branches ≤ self.now.pieces }
        requires pieces { self.now.pieces ≤ vec_len trees.old }
        ensures trees { (below branches pieces : List Tree) →
            HoldsTrees self.now (views trees.old.items) below branches pieces →
            OnOk result (views trees.new.items ≡ below ++ choice (branches ++ one_or concat pieces ∷ []) ∷ []) }
        ensures some { OnOk result (0 < vec_len trees.new) }
        ensures spans { (below branches pieces : List Tree) (l : Log) →
            HoldsTrees self.now (views trees.old.items) below branches pieces →
            S.records spans.old l → OnOk result (S.records spans.new
            (choice_recorded (branches ++ one_or concat pieces ∷ []) reach (branch_ended (length pieces) reach l))) }
    {
        join_branch(alloc, trees, self.pieces, reach, spans)?;
        // Usually it is the only one.
        if self.branches == self.pieces {
            return Ok(());
        }
        spans.end_choice(reach)?;
        let branches = take_above(alloc, trees, self.branches)?;
        push(trees, Expr::Alt(branches))
    }
}
