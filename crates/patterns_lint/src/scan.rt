//! The rules that look at a node, or at the branches of one.
ghost use Rattle.std.specs.Prelude.{OnOk};
ghost use Rattle.patterns_lint.specs.Named.{IsNamed};

use crate::branches::{
    Earlier, Following, Situation, has_count_twin, is_word_list, only_character,
};
use crate::classes::{Form, is_single_character_class};
use crate::empty::is_useless_look_around;
use crate::fingerprint::Fingerprint;
use crate::neighbours::{Neighbour, beside, is_variable, never_holds};
use crate::quantifiers::{Surroundings, has_count_above_one, quantifier_problem};
use crate::targets::{
    is_numbered_reference, is_unresolved_call, missing_begin_group, missing_condition_group,
    missing_group,
};
use crate::walk::Walk;
use class_rules::known_classes::KnownClasses;
use fancy_syntax::expr::{Expr, LookAround, Shape, Wrap};
use fancy_syntax::span::Span;
use fancy_syntax::spanned::SpannedNode;
use lint_rules::problem::{Problem, Total};
use lint_rules::rule::Rule;
use patterns_text::excerpt::{Label, Related};
use std::alloc::{AllocError, Global};

/// What the rules know of the pattern.
#[derive(Clone, Copy)]
pub(crate) struct PatternInfo<'a> {
    pub(crate) alloc: Global,
    pub(crate) pattern: &'a str,
    /// How many groups have a number.
    pub(crate) total: usize,
    /// Whether it has calls, so that a group may also be matched where it is called.
    pub(crate) has_calls: bool,
    /// Whether no reference may have a number: groups without a name are ignored.
    pub(crate) is_by_name: bool,
    /// Whether it is matched as it is: nothing is added to it.
    pub(crate) is_complete: bool,
    /// Where a back reference in digits refers to a group of another pattern, how many groups that has.
    pub(crate) begin_groups: Option<usize>,
}

/// What is known of a node from what is around it.
#[derive(Clone, Copy)]
pub(crate) struct Around<'t> {
    pub(crate) following: Following,
    /// Whether the pattern consists of it, but for groups around it.
    pub(crate) is_whole: bool,
    /// Whether it is a branch beside one that differs from it in the count alone, or a piece beside one with a fixed count above 1.
    pub(crate) has_other_count: bool,
    /// Whether it is all of an atomic group.
    pub(crate) is_atomic: bool,
    /// What is before and after it, if it is a piece of a concatenation.
    pub(crate) beside: (Neighbour, Neighbour),
    /// The character that is the next piece.
    pub(crate) next: Option<char>,
    /// If it is all of a loop, the character that follows the loop.
    pub(crate) delimiter: Option<char>,
    /// Its quantifier, and what is beside it, for the rule on classes of one character.
    pub(crate) form: Form<'t>,
}

impl Around<'_> {
    /// What the rules on quantifiers know of it.
    fn surroundings(self, about: PatternInfo<'_>) -> Surroundings {
        Surroundings {
            has_calls: about.has_calls,
            has_other_count: self.has_other_count,
            is_atomic: self.is_atomic,
            is_at_end: self.following == Following::Nothing,
        }
    }
}

/// What is wrong with the reference that is the node.
fn reference_problem(tree: &Expr, span: Span, about: PatternInfo<'_>) -> Option<Problem<'static>> {
    if is_unresolved_call(tree, about.total) {
        return Some(Problem::UnresolvedCall);
    }
    let text = span.text(about.pattern).unwrap_or("");
    if let Some(total) = about.begin_groups
        && let Some(group) = missing_begin_group(tree, text, total)
    {
        let total = Total(total);
        return Some(Problem::MissingBeginGroup { group, total });
    }
    if about.is_by_name && is_numbered_reference(tree, text) {
        return Some(Problem::NumberedReference);
    }
    let total = Total(about.total);
    if let Some(group) = missing_group(tree, about.total) {
        return Some(Problem::MissingGroup { group, total });
    }
    let group = missing_condition_group(tree, about.total)?;
    Some(Problem::MissingConditionGroup { group, total })
}

/// What is wrong with the node itself.
fn node_problem(
    node: SpannedNode<'_>,
    about: PatternInfo<'_>,
    around: Around<'_>,
) -> Option<Problem<'static>> {
    let (tree, span) = (node.expr(), node.span());
    let before = about.pattern.get(..span.start).unwrap_or("");
    let text = span.text(about.pattern).unwrap_or("");
    if is_single_character_class(tree, text, before) && !around.form.is_like_the_next_one() {
        return Some(Problem::Plain(Rule::SingleCharacterClass));
    }
    if is_useless_look_around(tree) {
        return Some(Problem::Plain(Rule::UselessLookAround));
    }
    let (left, right) = around.beside;
    if never_holds(tree, left, right) && !is_variable(text, right) {
        return Some(Problem::Plain(Rule::ImpossibleAssertion));
    }
    if let Some(problem) = reference_problem(tree, span, about) {
        return Some(problem);
    }
    quantifier_problem(tree, around.surroundings(about))
}

/// What follows the child of this index, where this follows the node itself.
fn after_child(tree: &Expr, index: usize, following: Following) -> Following {
    match tree.shape() {
        Shape::Concat(pieces) => following.of_piece(pieces, index),
        Shape::Alt(_) => following,
        Shape::Around(wrap, _) => after_inside(wrap, following),
        Shape::Conditional { .. } => following.only_if(index > 0),
        Shape::Expression { .. } | Shape::Leaf => Following::More,
    }
}

/// The same, of the child that this is around.
fn after_inside(wrap: Wrap, following: Following) -> Following {
    match wrap {
        Wrap::Group => following,
        Wrap::AtomicGroup => Following::Nothing,
        Wrap::LookAround(LookAround::LookAhead | LookAround::LookAheadNeg) => Following::Nothing,
        Wrap::LookAround(LookAround::LookBehind | LookAround::LookBehindNeg) => Following::More,
        Wrap::Repeat { lo, .. } => following.only_if(lo <= 1),
        Wrap::DefineGroup | Wrap::Repeater | Wrap::Stopper => Following::More,
    }
}

/// How many branches of an alternation are reported that leave later ones nothing to match.
const MAX_UNREACHABLE: usize = 8;

/// A report on a branch that an earlier one leaves nothing to match.
#[derive(Clone, Copy)]
struct UnreachableReport {
    /// The number of the earlier branch.
    earlier: usize,
    /// Where the report is among those of the walk.
    index: usize,
}

/// The branches of an alternation, and those before the next one; no branches of another node.
#[derive(Drop)]
struct AltBranches<'b> {
    all: &'b [Expr],
    earlier: Earlier<'b>,
    following: Following,
    may_be_extended: bool,
    has_calls: bool,
    delimiter: Option<char>,
    /// Where the report on branches that are equal to earlier ones is among those of the walk.
    duplicates: Option<usize>,
    /// The reports on branches that an earlier one leaves nothing to match, one for each of these.
    unreachable: Vec<UnreachableReport>,
}

impl<'b> AltBranches<'b> {
    /// Those of the node. After a list of words that is the whole pattern an engine may add `\b`, as for keywords.
    fn of(tree: &'b Expr, about: PatternInfo<'b>, around: Around<'_>) -> AltBranches<'b> {
        let all: &[Expr] = match tree.shape() {
            Shape::Alt(branches) => branches,
            Shape::Leaf
            | Shape::Around(..)
            | Shape::Concat(_)
            | Shape::Conditional { .. }
            | Shape::Expression { .. } => &[],
        };
        AltBranches {
            all,
            earlier: Earlier::none(about.alloc, about.pattern),
            following: around.following,
            may_be_extended: around.is_whole && !about.is_complete && is_word_list(all),
            has_calls: about.has_calls,
            delimiter: around.delimiter,
            duplicates: None,
            unreachable: Vec::new(about.alloc),
        }
    }

    /// The index of the report on a branch that the one of this number leaves nothing to match.
    fn report_of(&self, earlier: usize) -> Option<usize> {
        for report in &self.unreachable {
            if report.earlier == earlier {
                return Some(report.index);
            }
        }
        None
    }

    /// Reports that the branch of this number leaves the later one at the span nothing to match; if that is reported of another
    /// one, there.
    fn report_unreachable(
        &mut self,
        span: Span,
        earlier: usize,
        walk: &mut Walk<'_>,
    ) -> Result<(), AllocError> {
        if let Some(index) = self.report_of(earlier) {
            if let Some(report) = walk.found.get_mut(index) {
                report.others.add(span);
            }
            return Ok(());
        }
        if self.unreachable.len() == MAX_UNREACHABLE {
            return Ok(());
        }
        let index = walk.found.len();
        self.unreachable.push(UnreachableReport { earlier, index })?;
        let problem = Problem::UnreachableBranch { earlier };
        walk.report_beside(span, problem, self.related(problem))
    }

    /// Reports that the branch at the span is equal to an earlier one; if that is reported of another branch, there.
    fn report_duplicate(
        &mut self,
        span: Span,
        problem: Problem<'static>,
        walk: &mut Walk<'_>,
    ) -> Result<(), AllocError>
        ensures { OnOk result (IsNamed walk.new.found.items span) }
    {
        if let Some(index) = self.duplicates {
            return walk.join(index, span, problem);
        }
        self.duplicates = Some(walk.found.len());
        walk.report_beside(span, problem, self.related(problem))
    }

    /// Reports what is wrong with the branch at the span.
    fn report(
        &mut self,
        span: Span,
        problem: Problem<'static>,
        walk: &mut Walk<'_>,
    ) -> Result<(), AllocError> {
        if let Problem::UnreachableBranch { earlier } = problem {
            return self.report_unreachable(span, earlier, walk);
        }
        if let Problem::DuplicateBranch { .. } = problem {
            return self.report_duplicate(span, problem, walk);
        }
        walk.report_beside(span, problem, self.related(problem))
    }

    /// The branch that the problem names.
    fn related(&self, problem: Problem<'_>) -> Option<Related> {
        let number = problem.earlier_branch()?;
        Some(Related {
            span: self.earlier.span(number)?,
            label: Label::Branch(number),
        })
    }

    /// What is wrong with the branch of this index, which is the next one.
    fn next_problem(
        &mut self,
        i: usize,
        branch: SpannedNode<'b>,
        known: &mut KnownClasses,
    ) -> Result<Option<Problem<'static>>, AllocError> {
        if i >= self.all.len() {
            return Ok(None);
        }
        let situation = Situation {
            is_last: i.saturating_add(1) == self.all.len(),
            following: self.following,
            may_be_extended: self.may_be_extended,
            has_calls: self.has_calls,
            delimiter: self.delimiter,
        };
        let before = self.all.get(..i).unwrap_or(&[]);
        let whole = Fingerprint::of(branch.expr());
        let problem = self
            .earlier
            .problem(before, branch, whole, situation, known)?;
        self.earlier.add(branch, whole)?;
        Ok(problem)
    }
}

/// Reports what is wrong with the node itself.
fn look_at<'a>(
    node: SpannedNode<'_>,
    walk: &mut Walk<'a>,
    about: PatternInfo<'_>,
    around: Around<'_>,
) -> Result<(), AllocError> {
    if let Some(problem) = node_problem(node, about, around) {
        walk.report(node.span(), problem)?;
    }
    Ok(())
}

/// The pieces of a concatenation; none of another node.
fn pieces_of(tree: &Expr) -> &[Expr] {
    let Expr::Concat(pieces) = tree else {
        return &[];
    };
    pieces
}

/// The character that the piece of this index is.
fn character_at(pieces: &[Expr], index: usize) -> Option<char> {
    let Expr::Literal { val, .. } = pieces.get(index)? else {
        return None;
    };
    only_character(val.as_str())
}

/// The character after the child of this index; after all of a group that after the group.
fn next_to_child(tree: &Expr, index: usize, around: Around<'_>) -> Option<char> {
    if let Expr::Group(_) = tree {
        around.next
    } else {
        character_at(pieces_of(tree), index.saturating_add(1))
    }
}

/// The character that follows the loop that the child of the tree is all of.
fn delimiter_of_child(tree: &Expr, around: Around<'_>) -> Option<char> {
    if let Expr::Group(_) = tree {
        return around.delimiter;
    }
    let Expr::Repeat { hi, .. } = tree else {
        return None;
    };
    if *hi > 1 { around.next } else { None }
}

/// What is known of the child of this index. `has_fixed_count` says that the tree is a concatenation with a piece of a fixed
/// count above 1.
fn around_child<'t>(
    tree: &'t Expr,
    branches: &[Expr],
    index: usize,
    around: Around<'t>,
    has_fixed_count: bool,
) -> Around<'t> {
    let pieces = pieces_of(tree);
    Around {
        following: after_child(tree, index, around.following),
        is_whole: around.is_whole && matches!(tree, Expr::Group(_)),
        has_other_count: has_fixed_count || has_count_twin(branches, index),
        is_atomic: matches!(tree, Expr::AtomicGroup(_)),
        beside: beside(pieces, index),
        next: next_to_child(tree, index, around),
        delimiter: delimiter_of_child(tree, around),
        form: around.form.of_child(tree, index),
    }
}

/// Scans a node and those below it. `known` has the classes of the run's patterns.
pub(crate) fn scan<'a>(
    node: SpannedNode<'_>,
    walk: &mut Walk<'a>,
    about: PatternInfo<'_>,
    around: Around<'_>,
    known: &mut KnownClasses,
) -> Result<(), AllocError> {
    look_at(node, walk, about, around)?;
    let mut branches = AltBranches::of(node.expr(), about, around);
    let has_fixed_count = has_count_above_one(pieces_of(node.expr()));
    let mut index = 0usize;
    for child in node.children() {
        if let Some(problem) = branches.next_problem(index, child, known)? {
            branches.report(child.span(), problem, walk)?;
        }
        let inside = around_child(node.expr(), branches.all, index, around, has_fixed_count);
        scan(child, walk, about, inside, known)?;
        index = index.saturating_add(1);
    }
    Ok(())
}
