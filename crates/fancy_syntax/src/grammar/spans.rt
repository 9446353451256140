//! The spans of the nodes of a raw tree, each tree in preorder, and what no node has.
ghost use Rattle.std.specs.Prelude.{◌≡◌, chars, IfOk, OnOk};
ghost use Rattle.fancy_grammar.specs.State.{done};
ghost use Rattle.fancy_syntax.specs.Log as spec;
ghost use Rattle.fancy_syntax.specs.LogViews.{log_of};
ghost use Rattle.fancy_syntax.specs.Parsed.{group_kind, state};
ghost use Rattle.fancy_syntax.specs.Recording.{body_separated, token_read, conditional_recorded, group_recorded};
ghost use Rattle.fancy_syntax.specs.View.{view};
ghost use Rattle.fancy_lex.specs.Text.{reach_of};

mod passed;
mod returned;

use crate::expr::Expr;
use crate::grammar::atom_start::AtomStart;
use crate::grammar::conditional::has_empty_branches;
use crate::grammar::frame::OpenPart;
use crate::grammar::group::kind::GroupKind;
use crate::grammar::recorded::{
    ConditionPart, FirstBar, LastPiece, Open, Recorded, RecordedTrivium,
};
use crate::grammar::spanning::Spanning;
use crate::grammar::spans::passed::{closing_before, dropped, part_between};
use crate::grammar::state::State;
use crate::grammar::trees::is_empty;
use crate::trivium::TriviumKind;
use fancy_lex::counts::Counts;
use fancy_lex::text::{Reach, reach, reach_before};
use std::alloc::{AllocError, Global};

/// The nodes that have been read, the open atoms, and what was passed that no node has.
#[derive(Drop)]
pub(crate) struct Spans {
    pub(crate) recorded: Vec<Recorded>,
    /// The atoms around the innermost open one.
    pub(crate) around: Vec<Open>,
    pub(crate) open: Open,
    /// The last piece.
    pub(crate) last: LastPiece,
    /// What no node has, in the order of the pattern.
    pub(crate) passed: Vec<RecordedTrivium>,
}

/// The initial capacity of the list of nodes: more than most patterns have. A block of more than 1,024 bytes costs more, as
/// for the parser's list of trees.
const NODES: usize = 42;

impl Spans {
    /// The spans before anything is read of a text that begins at the reach.
    pub(crate) fn new(alloc: Global, start: usize) -> Result<Spans, AllocError>
        ensures { IfOk result (λ s. log_of s ≡ spec.started start) }
    {
        Ok(Spans {
            recorded: Vec::with_capacity(alloc, NODES)?,
            around: Vec::new(alloc),
            open: Open {
                start,
                height: 0,
                passed: 0,
                condition: None,
                part: start,
                branches: 0,
                bar: None,
                branch: start,
                pieces: 0,
            },
            last: LastPiece { start, height: 0 },
            passed: Vec::new(alloc),
        })
    }

    /// Inserts a node after that much of what is recorded.
    fn put(&mut self, height: usize, node: Recorded) -> Result<(), AllocError>
        ensures { OnOk result (log_of self.new ≡ spec.put height node (log_of self.old)) }
    {
        let height = height.min(self.recorded.len());
        Ok(self.recorded.insert(height, node)?)
    }

    /// Inserts the node of a quantifier before the nodes of the last piece; with `atomic`, that of an atomic group too.
    #[inline(never)]
    fn wrap_nodes(&mut self, end: usize, atomic: bool) -> Result<(), AllocError>
        ensures { OnOk result (log_of self.new ≡ spec.wrapped end atomic (log_of self.old)) }
    {
        let LastPiece { start, height } = self.last;
        let node = Recorded::Node { start, end };
        if atomic {
            self.put(height, node)?;
        }
        self.put(height, node)
    }

    /// Opens an atom that begins at the first reach, and its first part, which begins at the second.
    fn open_atom(&mut self, start: usize, inside: usize) -> Result<(), AllocError>
        ensures { OnOk result (log_of self.new ≡ spec.atom_opened start inside (log_of self.old)) }
    {
        self.around.reserve(1)?;
        self.around.push_reserved(self.open);
        self.open.start = start;
        self.open.height = self.recorded.len();
        self.open.passed = self.passed.len();
        self.begin(inside);
        Ok(())
    }

    /// The next part of the open atom begins there.
    fn begin(&mut self, start: usize)
        ensures { log_of self.new ≡ spec.part_begun start (log_of self.old) }
    {
        let height = self.recorded.len();
        self.open.part = start;
        self.open.branches = height;
        self.open.bar = None;
        self.open.branch = start;
        self.open.pieces = height;
    }

    /// The open part is a condition, which has ended. The body begins at `rest`.
    fn begin_body(&mut self, rest: &str)
        ensures { log_of self.new ≡ spec.body_begun (reach_of (chars rest.now)) (log_of self.old) }
    {
        self.open.condition = Some(ConditionPart {
            start: self.open.part,
            closing: reach_before(rest),
            passed: self.passed.len(),
        });
        self.begin(reach(rest));
    }

    /// Replaces the Alt of that many branches, the body of a conditional, by the first branch and the choice among the
    /// others.
    fn split(&mut self, branches: usize) -> Result<(), AllocError>
        ensures { OnOk result (log_of self.new ≡ spec.body_split branches (log_of self.old)) }
    {
        // The body is an Alt: `end_choice` recorded its bar after all else, and its node before all else of the body.
        let Some(Recorded::Bar(bar)) = self.recorded.pop() else {
            return Ok(());
        };
        let at = self.open.branches;
        let Some(Recorded::Node { end, .. }) = self.recorded.get(at) else {
            return Ok(());
        };
        let end = *end;
        self.recorded.remove(at);
        // If there are two branches, the second is alone, and has its own node.
        if branches < 3 {
            return Ok(());
        }
        let start = bar.past;
        self.put(at.saturating_add(bar.before), Recorded::Node { start, end })
    }

    /// Records an atom that was read at once, but not the comments in it: a leaf, or inline flags, whose tree is an
    /// Empty.
    #[inline(always)]
    fn record_token(&mut self, start: State, atom: &Expr, end: State) -> Result<(), AllocError>
        ensures { OnOk result (log_of self.new ≡
            token_read (state start.entry) (done (view atom.now) (state end.entry)) (log_of self.old)) }
    {
        self.record_leaf(reach(start.rest), reach(end.rest))?;
        if is_empty(atom) {
            let kind = TriviumKind::InlineFlags {
                before: start.flags,
                after: end.flags,
            };
            self.pass(part_between(start, end, kind, false))?;
        }
        Ok(())
    }

    /// Ends a group of this kind, which `rest` follows. Its closing parenthesis is recorded if the group has no node,
    /// or may have none.
    #[inline(always)]
    fn close_group(&mut self, kind: GroupKind, rest: &str) -> Result<(), AllocError>
        ensures { OnOk result (log_of self.new ≡
            group_recorded (group_kind kind.entry) (reach_of (chars rest.now)) (log_of self.old)) }
    {
        let end = reach(rest);
        match kind {
            GroupKind::FlagGroup => {
                self.pass(closing_before(rest, false))?;
                self.end_atom();
                Ok(())
            }
            GroupKind::Capture(None) | GroupKind::Undecided => {
                self.pass(closing_before(rest, true))?;
                self.close(end, true)
            }
            GroupKind::Capture(Some(_))
            | GroupKind::Look(_)
            | GroupKind::Atomic
            | GroupKind::Define
            | GroupKind::Repeater => self.close(end, false),
        }
    }

    /// Ends a conditional with this body. If both branches are Empty, only its condition has nodes. Its closing
    /// parenthesis begins at the first reach, and ends at the second.
    fn close_conditional(&mut self, body: &Expr, paren: Reach, end: Reach) -> Result<(), AllocError>
        ensures { OnOk result (log_of self.new ≡ conditional_recorded (view body.now) paren end (log_of self.old)) }
    {
        self.separate_branches(body, paren)?;
        if !has_empty_branches(body) {
            return self.close(end, false);
        }
        self.drop_conditional(end)?;
        self.end_atom();
        Ok(())
    }

    /// Separates the branches of a conditional's body, which ends there. If it is an Alt, its node is replaced by its first
    /// branch and the choice among the others; otherwise an Empty at its end is the second branch.
    fn separate_branches(&mut self, body: &Expr, end: usize) -> Result<(), AllocError>
        ensures { OnOk result (log_of self.new ≡ body_separated (view body.now) end (log_of self.old)) }
    {
        if let Expr::Alt(branches) = body {
            return self.split(branches.len());
        }
        Ok(self.recorded.push(Recorded::Node { start: end, end })?)
    }

    /// Leaves out the nodes of the open conditional's body, and records as dropped the text before and after its
    /// condition. The conditional ends there.
    fn drop_conditional(&mut self, end: usize) -> Result<(), AllocError>
        ensures { OnOk result (log_of self.new ≡ spec.conditional_dropped end (log_of self.old)) }
    {
        self.recorded.truncate(self.open.branches);
        let Some(condition) = self.open.condition else {
            return Ok(());
        };
        let body = self
            .passed
            .split_off(condition.passed.min(self.passed.len()))?;
        self.insert_dropped(self.open.passed, self.open.start, condition.start)?;
        self.fill(condition.closing, end, &body)
    }

    /// Ends the open atom there, with a node of its own; if it is unnamed, that of a capturing group without a name.
    fn close(&mut self, end: usize, unnamed: bool) -> Result<(), AllocError>
        ensures { OnOk result (log_of self.new ≡ spec.atom_closed end unnamed (log_of self.old)) }
    {
        let start = self.open.start;
        let node = if unnamed {
            Recorded::Unnamed { start, end }
        } else {
            Recorded::Node { start, end }
        };
        self.put(self.open.height, node)?;
        self.end_atom();
        Ok(())
    }

    /// Ends the open atom, which becomes the last piece.
    fn end_atom(&mut self)
        ensures { log_of self.new ≡ spec.atom_ended (log_of self.old) }
    {
        self.last = LastPiece {
            start: self.open.start,
            height: self.open.height,
        };
        if let Some(outer) = self.around.pop() {
            self.open = outer;
        }
    }
}

impl Spanning for Spans {
    ghost records = { λ s l. log_of s ≡ l };

    #[inline(always)]
    fn pass_layout(&mut self, current: State, after: &str) -> Result<(), AllocError> {
        // Usually there is no layout, and so no comment.
        if after.len() == current.rest.len() {
            return Ok(());
        }
        self.pass_comments(current)
    }

    fn pass_counts(&mut self, counts: Counts, start: &str, after: &str) -> Result<(), AllocError> {
        if counts.braces {
            self.pass_token(start, reach(after))
        } else {
            Ok(())
        }
    }

    fn drop_text(&mut self, start: usize, end: usize) -> Result<(), AllocError> {
        if start == end {
            return Ok(());
        }
        Ok(self.passed.push(dropped(start, end))?)
    }

    fn record_leaf(&mut self, start: usize, end: usize) -> Result<(), AllocError> {
        let height = self.recorded.len();
        self.last = LastPiece { start, height };
        Ok(self.recorded.push(Recorded::Node { start, end })?)
    }

    #[inline(always)]
    fn begin_atom(
        &mut self,
        alloc: Global,
        start: State,
        atom: &AtomStart,
        end: State,
    ) -> Result<(), AllocError> {
        match atom {
            AtomStart::Nothing => self.record_leaf(reach(start.rest), reach(start.rest)),
            AtomStart::Read(tree) => {
                self.record_token(start, tree, end)?;
                self.pass_start(alloc, start, reach(end.rest))
            }
            AtomStart::Group(kind) => {
                self.open_atom(reach(start.rest), reach(end.rest))?;
                self.pass_opening(*kind, start, end)?;
                self.pass_start(alloc, start, reach(end.rest))
            }
            AtomStart::Condition | AtomStart::AbsentBranch => {
                self.open_atom(reach(start.rest), reach(end.rest))?;
                self.pass_start(alloc, start, reach(end.rest))
            }
            AtomStart::Body { start: inside, .. } => {
                self.open_atom(reach(start.rest), *inside)?;
                self.pass_start(alloc, start, *inside)?;
                self.record_leaf(*inside, reach_before(end.rest))?;
                self.begin_body(end.rest);
                Ok(())
            }
        }
    }

    fn leave_out(&mut self) {
        self.recorded.truncate(self.last.height);
    }

    #[inline(always)]
    fn wrap(&mut self, end: usize, atomic: bool) -> Result<(), AllocError> {
        let LastPiece { start, height } = self.last;
        if atomic || self.recorded.len() != height.saturating_add(1) {
            return self.wrap_nodes(end, atomic);
        }
        // Usually the operand is a leaf: its node is moved without a call.
        self.recorded.reserve(1)?;
        let leaf = self.recorded[height];
        self.recorded[height] = Recorded::Node { start, end };
        self.recorded.push_reserved(leaf);
        Ok(())
    }

    fn next_branch(&mut self, start: usize) {
        let height = self.recorded.len();
        if self.open.bar.is_none() {
            self.open.bar = Some(FirstBar {
                past: start,
                before: height.saturating_sub(self.open.branches),
            });
        }
        self.open.branch = start;
        self.open.pieces = height;
    }

    fn end_branch(&mut self, pieces: usize, end: usize) -> Result<(), AllocError> {
        if pieces == 1 {
            return Ok(());
        }
        let start = self.open.branch;
        self.put(self.open.pieces, Recorded::Node { start, end })
    }

    fn end_choice(&mut self, end: usize) -> Result<(), AllocError> {
        if let Some(bar) = self.open.bar {
            self.recorded.push(Recorded::Bar(bar))?;
        }
        let start = self.open.part;
        self.put(self.open.branches, Recorded::Node { start, end })
    }

    #[inline(always)]
    fn end_part(
        &mut self,
        part: &OpenPart,
        tree: &Expr,
        paren: Reach,
        rest: &str,
    ) -> Result<(), AllocError> {
        match part {
            OpenPart::Top => Ok(()),
            OpenPart::Condition => {
                self.begin_body(rest);
                Ok(())
            }
            OpenPart::Group { kind, .. } => self.close_group(*kind, rest),
            OpenPart::Body { .. } => self.close_conditional(tree, paren, reach(rest)),
            OpenPart::First => {
                // The branch of a clear leaves no node.
                if is_empty(tree) {
                    self.recorded.truncate(self.open.branches);
                }
                self.close(reach(rest), false)
            }
            OpenPart::Second(_) => self.close(reach(rest), false),
        }
    }
}
