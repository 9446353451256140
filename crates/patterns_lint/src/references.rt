//! The rules on groups, and on what refers to them.
use crate::walk::Walk;
use fancy_syntax::expr::{Expr, LookAround};
use fancy_syntax::span::Span;
use fancy_syntax::spanned::SpannedNode;
use fancy_syntax::tree::ExprTree;
use lint_rules::problem::Problem;
use patterns_text::excerpt::{Label, Related};
use patterns_text::names::Names;
use std::alloc::{AllocError, Global};

/// A group with a number.
#[derive(Clone, Copy)]
struct CaptureState {
    span: Span,
    /// Which of the pattern's names it has.
    name: Option<usize>,
    /// Whether some way from the start to where the walk is has closed it.
    may_have_matched: bool,
    /// Whether something refers to it.
    is_referred_to: bool,
}

/// A back reference in a loop to a group that has not opened before it.
#[derive(Clone, Copy)]
struct Pending {
    span: Span,
    group: usize,
}

/// A walk along the ways from the start of a pattern.
#[derive(Drop)]
pub(crate) struct Ways<'a> {
    pub(crate) walk: Walk<'a>,
    names: Names<'a>,
    has_calls: bool,
    /// The groups, each at its number; at 0 the whole pattern.
    captures: Vec<CaptureState>,
    /// How many groups have opened.
    opened: usize,
    /// Of each name how many groups are on the way to where the walk is.
    with_name: Vec<usize>,
    /// Of each name the first of these groups.
    first_with_name: Vec<usize>,
    /// The groups that were closed, in order, but for those in a negative look-around.
    closed: Vec<usize>,
    /// In a loop, how many groups had opened before the outermost one.
    before_loop: Option<usize>,
    pending: Vec<Pending>,
    /// Whether a back reference to group 0 is reported already.
    has_zero: bool,
}

/// The groups of the tree, as they are before the walk.
fn captures_of(alloc: Global, tree: &ExprTree) -> Result<Vec<CaptureState>, AllocError> {
    let unknown = CaptureState {
        span: Span { start: 0, end: 0 },
        name: None,
        may_have_matched: false,
        is_referred_to: false,
    };
    let mut captures = vec![in alloc; unknown; tree.total_groups.saturating_add(1)]?;
    for (i, (_, numbers)) in tree.named_groups.iter().enumerate() {
        for number in numbers {
            if let Some(capture) = captures.get_mut(*number) {
                capture.name = Some(i);
            }
        }
    }
    Ok(captures)
}

impl<'a> Ways<'a> {
    /// The walk that begins at the root.
    pub(crate) fn new(alloc: Global, tree: &'a ExprTree) -> Result<Ways<'a>, AllocError> {
        Ok(Ways {
            walk: Walk::new(alloc),
            names: Names::of(alloc, tree)?,
            has_calls: tree.contains_subroutines,
            captures: captures_of(alloc, tree)?,
            opened: 0,
            with_name: vec![in alloc; 0; tree.named_groups.len()]?,
            first_with_name: vec![in alloc; 0; tree.named_groups.len()]?,
            closed: Vec::new(alloc),
            before_loop: None,
            pending: Vec::new(alloc),
            has_zero: false,
        })
    }

    /// Whether an earlier repetition of a loop around this point may have matched the group, which has opened.
    fn is_in_loop(&self, group: usize) -> bool {
        self.before_loop.is_some_and(|before| before < group)
    }

    /// Adds a group of this one's name to those on the way, and returns the first of them if there was one.
    fn add_name(&mut self, group: usize) -> Option<usize> {
        let name = self.captures.get(group)?.name?;
        let first = self.first_with_name.get_mut(name)?;
        let count = self.with_name.get_mut(name)?;
        *count = count.saturating_add(1);
        if *count > 1 {
            return Some(*first);
        }
        *first = group;
        None
    }

    /// The group of this number, as what a report is related to; none for the whole pattern.
    fn related(&self, group: usize) -> Option<Related> {
        if group == 0 {
            return None;
        }
        Some(Related {
            span: self.captures.get(group)?.span,
            label: Label::Group(group),
        })
    }

    /// Takes away a group of this one's name.
    fn take_name(&mut self, group: usize) {
        if let Some(name) = self.captures.get(group).and_then(|capture| capture.name)
            && let Some(count) = self.with_name.get_mut(name)
        {
            *count = count.saturating_sub(1);
        }
    }

    /// Records that the group may have matched, or cannot have.
    fn set_matched(&mut self, group: usize, may_have_matched: bool) {
        if let Some(capture) = self.captures.get_mut(group) {
            capture.may_have_matched = may_have_matched;
        }
    }

    /// Opens the next group.
    fn open(&mut self, span: Span) -> Result<usize, AllocError> {
        self.opened = self.opened.saturating_add(1);
        let group = self.opened;
        if let Some(capture) = self.captures.get_mut(group) {
            capture.span = span;
        }
        if let Some(first) = self.add_name(group) {
            let related = self.related(first);
            let group = self.names.group(group);
            self.walk
                .report_beside(span, Problem::DuplicateGroupName { group }, related)?;
        }
        Ok(group)
    }

    /// Closes the group.
    fn close(&mut self, group: usize) -> Result<(), AllocError> {
        self.set_matched(group, true);
        self.closed.push(group)?;
        Ok(())
    }

    /// Leaves the way on which the groups were closed from the index on.
    fn leave(&mut self, from: usize) {
        for i in from..self.closed.len() {
            if let Some(group) = self.closed.get(i).copied() {
                self.set_matched(group, false);
                self.take_name(group);
            }
        }
    }

    /// Goes on from where all the ways end on which the groups were closed from the index on.
    fn join(&mut self, from: usize) {
        for i in from..self.closed.len() {
            if let Some(group) = self.closed.get(i).copied() {
                self.set_matched(group, true);
                self.add_name(group);
            }
        }
    }

    /// Records that something refers to the group.
    fn refer(&mut self, group: usize) {
        if let Some(capture) = self.captures.get_mut(group) {
            capture.is_referred_to = true;
        }
    }

    /// Looks at a back reference.
    fn look_at_backref(&mut self, span: Span, group: usize) -> Result<(), AllocError> {
        self.refer(group);
        if self.has_calls {
            return Ok(());
        }
        match self.captures.get(group) {
            Some(capture) if !capture.may_have_matched => {
                if group > self.opened && self.before_loop.is_some() {
                    self.pending.push(Pending { span, group })?;
                    return Ok(());
                }
                if self.is_in_loop(group) {
                    return Ok(());
                }
                self.report_useless(span, group)
            }
            _ => Ok(()),
        }
    }

    /// Reports a back reference; to group 0 only the first one.
    fn report_useless(&mut self, span: Span, group: usize) -> Result<(), AllocError> {
        if group == 0 {
            return self.report_zero(span);
        }
        let group = self.names.group(group);
        self.walk
            .report(span, Problem::UselessBackreference { group })
    }

    /// Reports a back reference to group 0, if it is the first one.
    fn report_zero(&mut self, span: Span) -> Result<(), AllocError> {
        if self.has_zero {
            return Ok(());
        }
        self.has_zero = true;
        self.walk.report(span, Problem::GroupZero)
    }

    /// Leaves the outermost loop: what has not opened in it is not matched by an earlier repetition.
    fn leave_loop(&mut self) -> Result<(), AllocError> {
        self.before_loop = None;
        for i in 0..self.pending.len() {
            if let Some(Pending { span, group }) = self.pending.get(i).copied()
                && group > self.opened
            {
                self.report_useless(span, group)?;
            }
        }
        self.pending.clear();
        Ok(())
    }

    /// Adds to each report on a back reference the group, which may open after it.
    pub(crate) fn add_groups(&mut self) {
        for i in 0..self.walk.found.len() {
            if let Some(found) = self.walk.found.get(i)
                && let Problem::UselessBackreference { group } = found.problem
            {
                let related = self.related(group.number());
                if let Some(found) = self.walk.found.get_mut(i) {
                    found.related = related;
                }
            }
        }
    }

    /// Reports each group without a name that nothing refers to, if some group has a name.
    pub(crate) fn report_unused(&mut self) -> Result<(), AllocError> {
        if self.with_name.is_empty() {
            return Ok(());
        }
        for group in 1..self.captures.len() {
            if let Some(capture) = self.captures.get(group).copied()
                && capture.name.is_none()
                && !capture.is_referred_to
            {
                self.walk
                    .report(capture.span, Problem::UnusedCapturingGroup { group })?;
            }
        }
        Ok(())
    }

    /// Enters a node.
    fn enter(&mut self, node: SpannedNode<'_>) -> Result<NodeState, AllocError> {
        let mut entry = NodeState {
            closed: self.closed.len(),
            group: None,
            is_outermost_loop: false,
        };
        if let Expr::Group(_) = node.expr() {
            entry.group = Some(self.open(node.span())?);
        }
        if let Expr::Repeat { hi, .. } = node.expr()
            && *hi > 1
            && self.before_loop.is_none()
        {
            self.before_loop = Some(self.opened);
            entry.is_outermost_loop = true;
        }
        self.look_at_reference(node)?;
        Ok(entry)
    }

    /// Looks at what the node refers to, if it is a reference.
    fn look_at_reference(&mut self, node: SpannedNode<'_>) -> Result<(), AllocError> {
        if let Expr::Backref { group, .. } = node.expr() {
            self.look_at_backref(node.span(), *group)?;
        }
        if let Expr::BackrefWithRelativeRecursionLevel { group, .. }
        | Expr::BackrefExistsCondition { group, .. }
        | Expr::SubroutineCall(group) = node.expr()
        {
            self.refer(*group);
        }
        Ok(())
    }

    /// Goes on past a child, in which the groups were closed from the index `from` on. Each branch is a way of its own, and
    /// so are the two after a condition.
    fn pass_child(&mut self, parent: &Expr, index: usize, from: usize, entry: &mut NodeState) {
        if index == 0 && matches!(parent, Expr::Conditional { .. }) {
            entry.closed = self.closed.len();
        } else if is_fork(parent) {
            self.leave(from);
        }
    }

    /// Goes on past the node, whose children were passed.
    fn pass(&mut self, node: &Expr, entry: NodeState) -> Result<(), AllocError> {
        if is_fork(node) {
            self.join(entry.closed);
        }
        if is_negative(node) {
            self.leave(entry.closed);
            self.closed.truncate(entry.closed);
        }
        if let Some(group) = entry.group {
            self.close(group)?;
        }
        if entry.is_outermost_loop {
            self.leave_loop()?;
        }
        Ok(())
    }
}

/// Whether several ways go through the node.
fn is_fork(node: &Expr) -> bool {
    matches!(node, Expr::Alt(_) | Expr::Conditional { .. })
}

/// Whether the node is a negative look-around.
fn is_negative(node: &Expr) -> bool {
    matches!(
        node,
        Expr::LookAround(_, LookAround::LookAheadNeg | LookAround::LookBehindNeg)
    )
}

/// What is known of a node since it was entered.
#[derive(Clone, Copy)]
struct NodeState {
    /// How many groups were closed before it, or before the ways after a condition.
    closed: usize,
    /// The number of the group that it is.
    group: Option<usize>,
    /// Whether it is a loop, and in no other.
    is_outermost_loop: bool,
}

/// Goes along the ways through the node.
pub(crate) fn follow(node: SpannedNode<'_>, ways: &mut Ways<'_>) -> Result<(), AllocError> {
    let mut entry = ways.enter(node)?;
    let mut index = 0usize;
    for child in node.children() {
        let from = ways.closed.len();
        follow(child, ways)?;
        ways.pass_child(node.expr(), index, from, &mut entry);
        index = index.saturating_add(1);
    }
    ways.pass(node.expr(), entry)
}
