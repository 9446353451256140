//! Branches that are likely mistakes.
ghost use Rattle.std.specs.Prelude.{◌≡◌, ◌↔◌, ℕ, Bool, true, Some, chars, IsTrue, IfOk, IfSome, IsSomeAnd, slice_get};
ghost use Rattle.fancy_lex.specs.Flags.{flags_of};
ghost use Rattle.fancy_syntax.specs.Spanned.{spanned_of};
ghost use Rattle.fancy_syntax.specs.View.{view, views};
ghost use Rattle.pattern_matches.specs.Defined.{IsDefined};
ghost use Rattle.patterns_lint.specs.Branches as spec;
ghost use Rattle.patterns_lint.specs.Branches.{IsCovered};
ghost use Rattle.patterns_lint.specs.Empty as empty_spec;
ghost use Rattle.patterns_lint.specs.Empty.{HasEachEmptyMatch};
ghost use Rattle.patterns_lint.specs.declared.branches.Following.TheVariants as following;
ghost use Rattle.lint_rules.specs.declared.problem.Problem.TheVariants as reported;

use crate::empty::matches_everywhere;
use crate::fingerprint::Fingerprint;
use class_rules::beginnings::{begins_within, operand, pieces};
use class_rules::known_classes::KnownClasses;
use fancy_lex::text::{is_same_text, next};
use fancy_syntax::expr::{Assertion, Expr};
use fancy_syntax::span::Span;
use fancy_syntax::spanned::SpannedNode;
use lint_rules::problem::Problem;
use lint_rules::rule::Rule;
use std::alloc::{AllocError, Global};
use std::collections::HashMap;

/// Whether the one is a literal that matches what the other matches, which is a literal too.
fn covers(earlier: &Expr, later: &Expr) -> bool
    ensures { result ≡ spec.covers (view earlier.now) (view later.now) }
{
    let Expr::Literal { val, casei } = earlier else {
        return false;
    };
    let Expr::Literal {
        val: other,
        casei: is_other_casei,
    } = later
    else {
        return false;
    };
    is_same_text(val.as_str(), other.as_str()) && (*casei || !*is_other_casei)
}

/// Whether the trees begin with ones that the others cover one by one.
fn begins_with(earlier: &[Expr], later: &[Expr]) -> bool
    ensures { result ≡ spec.begins_with (views earlier.now) (views later.now) }
{
    let mut rest = later;
    for piece in earlier {
        let Some((first, more)) = rest.split_first() else {
            return false;
        };
        if !covers(piece, first) {
            return false;
        }
        rest = more;
    }
    true
}

/// Whether the later branch begins with the literals that are all of the earlier one.
fn is_unreachable(earlier: &Expr, later: &Expr) -> bool
    ensures { result ≡ spec.is_unreachable (view earlier.now) (view later.now) }
{
    begins_with(pieces(earlier), pieces(later))
}

/// Whether the character is a letter, a digit or `_` of ASCII.
pub(crate) fn is_word_character(c: char) -> bool
    ensures { result ≡ spec.is_word_character c }
{
    matches!(c, '0'..='9' | 'A'..='Z' | 'a'..='z' | '_')
}

/// The only character of the text.
pub(crate) fn only_character(text: &str) -> Option<char>
    ensures { result ≡ spec.only_character (chars text.now) }
{
    let (c, rest) = next(text)?;
    match next(rest) {
        Some(_) => None,
        None => Some(c),
    }
}

/// Whether both are characters of ASCII, one of a word and the other not.
fn differ_in_word(one: char, other: char) -> bool
    ensures { result ≡ spec.differ_in_word one other }
{
    if one as u32 >= 0x80 || other as u32 >= 0x80 {
        false
    } else if is_word_character(one) {
        !is_word_character(other)
    } else {
        is_word_character(other)
    }
}

/// Whether each of the two texts is one character of ASCII, one of a word and the other not.
fn texts_differ(one: &str, other: &str) -> bool
    ensures { result ≡ spec.texts_differ (chars one.now) (chars other.now) }
{
    let Some(c) = only_character(one) else {
        return false;
    };
    let Some(d) = only_character(other) else {
        return false;
    };
    differ_in_word(c, d)
}

/// Whether a word boundary is between the two, which are literals of one character.
fn is_boundary(one: &Expr, other: &Expr) -> bool
    ensures { result ≡ spec.is_boundary (view one.now) (view other.now) }
{
    let Expr::Literal { val, .. } = one else {
        return false;
    };
    let Expr::Literal { val: next, .. } = other else {
        return false;
    };
    texts_differ(val.as_str(), next.as_str())
}

/// Whether a word boundary is before the piece of this index.
fn is_boundary_before(pieces: &[Expr], i: usize) -> bool
    ensures { IsTrue result → spec.IsBoundaryBefore i (views pieces.now) }
{
    let Some(before) = i.checked_sub(1) else {
        return false;
    };
    let Some(one) = pieces.get(before) else {
        return false;
    };
    let Some(other) = pieces.get(i) else {
        return false;
    };
    is_boundary(one, other)
}

/// Whether the later branch begins with the literals that are all of the earlier one, and what follows the alternation
/// is met after these.
#[tactic(auto, using(crate::proofs::BranchLemmas::length_views))]
fn is_passed(following: Following, earlier: &Expr, later: &Expr) -> bool
    ensures { IsTrue result → spec.IsPassed following (view earlier.now) (view later.now) }
{
    match following {
        Following::Nothing => is_unreachable(earlier, later),
        Following::WordBoundary => {
            is_unreachable(earlier, later)
                && is_boundary_before(pieces(later), pieces(earlier).len())
        }
        Following::More => false,
    }
}

/// Whether the two are equal.
fn is_equal(earlier: &Expr, later: &Expr) -> bool
    ensures { IsTrue result ↔ (view earlier.now ≡ view later.now) }
{
    *earlier == *later
}

/// What is wrong with an empty branch: nothing if it is the first or the last one, which says "or nothing".
fn empty_branch_problem(is_first: bool, is_last: bool) -> Option<Problem<'static>>
    ensures { result ≡ spec.empty_branch_problem is_first is_last }
{
    if is_first || is_last {
        None
    } else {
        Some(Problem::Plain(Rule::EmptyBranch))
    }
}

/// Whether the two are the same operand, quantified with other counts.
fn differ_in_count(one: &Expr, other: &Expr) -> bool
    ensures { IsTrue result ↔ spec.DifferInCount (view one.now) (view other.now) }
{
    let Expr::Repeat { child, lo, hi, .. } = one else {
        return false;
    };
    let Expr::Repeat {
        child: operand,
        lo: low,
        hi: high,
        ..
    } = other
    else {
        return false;
    };
    is_equal(child, operand) && !(*lo == *low && *hi == *high)
}

/// Whether a branch beside the one of this index differs from it in the count alone.
pub(crate) fn has_count_twin(branches: &[Expr], i: usize) -> bool {
    let Some(branch) = branches.get(i) else {
        return false;
    };
    let next = branches.get(i.saturating_add(1));
    let before = i.checked_sub(1).and_then(|index| branches.get(index));
    next.is_some_and(|other| differ_in_count(branch, other))
        || before.is_some_and(|other| differ_in_count(branch, other))
}

/// Whether the branch consists of letters, digits and `_`.
fn is_word(branch: &Expr) -> bool {
    for piece in pieces(branch) {
        let Expr::Literal { val, .. } = piece else {
            return false;
        };
        if !val
            .as_str()
            .chars()
            .all(|c| c.is_alphanumeric() || c == '_')
        {
            return false;
        }
    }
    true
}

/// Whether each branch is a word.
pub(crate) fn is_word_list(branches: &[Expr]) -> bool {
    for branch in branches {
        if !is_word(branch) {
            return false;
        }
    }
    true
}

/// How many branches of an alternation, other than literals, later ones are compared with by their sets of characters.
const MAX_COMPARED: usize = 8;

/// Whether the node matches one character, as far as its form says.
fn is_character(tree: &Expr) -> bool {
    matches!(
        tree,
        Expr::Literal { .. } | Expr::Delegate { .. } | Expr::Any { .. }
    )
}

/// Whether the later branch begins with what the earlier one matches, by their sets of characters. It is false if both are
/// one character, which `subsumed-branch` is for.
fn is_covered(
    alloc: Global,
    known: &mut KnownClasses,
    pattern: &str,
    later: SpannedNode<'_>,
    earlier: SpannedNode<'_>,
) -> Result<bool, AllocError>
    ensures { IfOk result (λ b. IsTrue b → IsCovered (flags_of known.old.flags).unicode
        (view (spanned_of later.entry).expr) (view (spanned_of earlier.entry).expr)) }
{
    if is_character(later.expr()) && is_character(earlier.expr()) {
        return Ok(false);
    }
    begins_within(alloc, known, pattern, later, earlier)
}

/// Whether the text is this character.
pub(crate) fn is_character_text(text: &str, c: char) -> bool
    ensures { result ≡ spec.is_character (spec.only_character (chars text.now)) c }
{
    match only_character(text) {
        Some(d) => d == c,
        None => false,
    }
}

/// Whether the node is a backslash.
fn is_backslash(node: &Expr) -> bool
    ensures { result ≡ spec.is_backslash (view node.now) }
{
    let Expr::Literal { val, .. } = node else {
        return false;
    };
    is_character_text(val.as_str(), '\\')
}

/// Whether the node matches the character, as far as it is that literal or a dot.
fn may_be(node: &Expr, c: char) -> bool
    ensures { result ≡ spec.may_be (view node.now) c }
{
    if let Expr::Literal { val, .. } = node {
        return is_character_text(val.as_str(), c);
    }
    matches!(node, Expr::Any { .. })
}

/// Whether the branch is a backslash and what may be this character.
fn is_escape_of(branch: &Expr, delimiter: char) -> bool
    ensures { IsTrue result → spec.IsEscapeOf (view branch.now) delimiter }
{
    let all = pieces(branch);
    let Some(first) = all.get(0) else {
        return false;
    };
    let Some(second) = all.get(1) else {
        return false;
    };
    all.len() == 2 && is_backslash(first) && may_be(second, delimiter)
}

/// What follows a node in the pattern, or in a group that is left at its first match.
#[derive(Clone, Copy, PartialEq, Eq)]
pub(crate) enum Following {
    Nothing,
    /// `\b`, and nothing after it.
    WordBoundary,
    More,
}

/// Whether the node is `\b`.
fn is_word_boundary(node: &Expr) -> bool {
    matches!(node, Expr::Assertion(Assertion::WordBoundary))
}

impl Following {
    /// What follows the piece of this index, if this follows all of the pieces.
    pub(crate) fn of_piece(self, pieces: &[Expr], index: usize) -> Following {
        match pieces.get(index.saturating_add(1)..) {
            Some([]) => self,
            Some([last]) if self == Following::Nothing && is_word_boundary(last) => {
                Following::WordBoundary
            }
            _ => Following::More,
        }
    }

    /// This, if the condition holds.
    pub(crate) fn only_if(self, condition: bool) -> Following {
        if condition { self } else { Following::More }
    }
}

/// Where a branch is.
#[derive(Clone, Copy)]
pub(crate) struct Situation {
    /// Whether no branch follows it.
    pub(crate) is_last: bool,
    /// What follows its alternation; if it is more than `\b`, another branch may be tried after one that matched.
    pub(crate) following: Following,
    /// Whether an engine may add `\b` after its alternation, which is a list of words.
    pub(crate) may_be_extended: bool,
    /// Whether the pattern has calls, so that something may follow where the alternation is called.
    pub(crate) has_calls: bool,
    /// If the alternation is all of a loop, the character that follows the loop.
    pub(crate) delimiter: Option<char>,
}

/// The branches before one, by their fingerprints: of each the first, so that a branch is compared with few.
#[derive(Drop)]
pub(crate) struct Earlier<'b> {
    /// The pattern that they are branches of.
    pattern: &'b str,
    /// All of them.
    nodes: Vec<SpannedNode<'b>>,
    /// By all that they hold.
    whole: HashMap<u64, usize>,
    /// Those of literals only, by their text.
    literals: HashMap<u64, usize>,
    /// The first of the others.
    others: Vec<usize>,
    /// The first one that matches the empty text everywhere.
    everywhere: Option<usize>,
}

/// Adds the branch of this index, where none is known by the fingerprint.
fn add_first(
    known: &mut HashMap<u64, usize>,
    fingerprint: Fingerprint,
    i: usize,
) -> Result<(), AllocError> {
    if !known.contains_key(&fingerprint.number()) {
        known.insert(fingerprint.number(), i)?;
    }
    Ok(())
}

impl<'b> Earlier<'b> {
    /// No branch.
    pub(crate) fn none(alloc: Global, pattern: &'b str) -> Earlier<'b> {
        Earlier {
            pattern,
            nodes: Vec::new(alloc),
            whole: HashMap::new(alloc),
            literals: HashMap::new(alloc),
            others: Vec::new(alloc),
            everywhere: None,
        }
    }

    /// Adds the branch, which has this fingerprint.
    pub(crate) fn add(
        &mut self,
        branch: SpannedNode<'b>,
        whole: Fingerprint,
    ) -> Result<(), AllocError> {
        let i = self.nodes.len();
        self.nodes.push(branch)?;
        add_first(&mut self.whole, whole, i)?;
        let is_reported = i > 0 && matches!(branch.expr(), Expr::Empty);
        if self.everywhere.is_none() && !is_reported && matches_everywhere(branch.expr()) {
            self.everywhere = Some(i);
        }
        if let Some(text) = literals_fingerprint(branch.expr()) {
            return add_first(&mut self.literals, text, i);
        }
        if self.others.len() < MAX_COMPARED {
            self.others.push(i)?;
        }
        Ok(())
    }

    /// Where the branch of this number is, counted from 1.
    pub(crate) fn span(&self, number: usize) -> Option<Span> {
        Some(self.nodes.get(number.checked_sub(1)?)?.span())
    }

    /// The branch that is equal to this one, which has this fingerprint.
    fn equal_to(&self, earlier: &[Expr], branch: &Expr, whole: Fingerprint) -> Option<usize>
        ensures { IfSome result (λ i. IsSomeAnd (slice_get (views earlier.now) i) (λ e. e ≡ view branch.now)) }
    {
        if let Some(i) = self.whole.get(&whole.number())
            && let Some(one) = earlier.get(*i)
            && is_equal(one, branch)
        {
            return Some(*i);
        }
        None
    }

    /// The branch whose literals this one begins with, so that it matches first.
    fn beginning_of(&self, earlier: &[Expr], branch: &Expr, following: Following) -> Option<usize>
        ensures { IfSome result (λ i. IsSomeAnd (slice_get (views earlier.now) i)
            (λ e. spec.IsPassed following e (view branch.now))) }
    {
        let mut text = Fingerprint::new();
        for piece in pieces(branch) {
            let Expr::Literal { val, .. } = piece else {
                return None;
            };
            text = text.with(val.as_str());
            if let Some(i) = self.literals.get(&text.number())
                && let Some(beginning) = earlier.get(*i)
                && is_passed(following, beginning, branch)
            {
                return Some(*i);
            }
        }
        None
    }

    /// The first branch that matches the empty text everywhere.
    fn matching_everywhere(&self, earlier: &[Expr]) -> Option<usize>
        ensures form { IfSome result (λ i. IsSomeAnd (slice_get (views earlier.now) i)
            (λ e. empty_spec.matches_everywhere e ≡ true)) }
        ensures matches { (unicode : Bool) → IfSome result (λ i. IsSomeAnd (slice_get (views earlier.now) i)
            (λ e. IsDefined unicode e → HasEachEmptyMatch unicode e)) }
    {
        let i = self.everywhere?;
        let one = earlier.get(i)?;
        if matches_everywhere(one) {
            Some(i)
        } else {
            None
        }
    }

    /// The branch of literals that this one begins with, but for a quantifier on the last of them.
    fn literals_of(&self, branch: &Expr) -> Option<usize> {
        let mut text = Fingerprint::new();
        for piece in pieces(branch) {
            let Expr::Literal { val, .. } = operand(piece) else {
                return None;
            };
            text = text.with(val.as_str());
            if let Some(i) = self.literals.get(&text.number()) {
                return Some(*i);
            }
            if let Expr::Repeat { .. } = piece {
                return None;
            }
        }
        None
    }

    /// Whether the branch begins with what the branch of this index matches, by their sets of characters.
    fn is_beginning(
        &self,
        i: usize,
        branch: SpannedNode<'_>,
        known: &mut KnownClasses,
    ) -> Result<bool, AllocError> {
        let Some(earlier) = self.nodes.get(i) else {
            return Ok(false);
        };
        is_covered(
            *self.nodes.allocator(),
            known,
            self.pattern,
            branch,
            *earlier,
        )
    }

    /// The branch that leaves this one nothing to match, by their sets of characters.
    fn covering(
        &self,
        branch: SpannedNode<'_>,
        known: &mut KnownClasses,
    ) -> Result<Option<usize>, AllocError> {
        if let Some(i) = self.literals_of(branch.expr())
            && self.is_beginning(i, branch, known)?
        {
            return Ok(Some(i));
        }
        for i in &self.others {
            if self.is_beginning(*i, branch, known)? {
                return Ok(Some(*i));
            }
        }
        Ok(None)
    }

    /// The number of the branch that matches the backslash of this one, which escapes the character that follows the loop.
    fn taking_escape(
        &self,
        branch: SpannedNode<'_>,
        delimiter: Option<char>,
        known: &mut KnownClasses,
    ) -> Result<Option<usize>, AllocError> {
        let Some(delimiter) = delimiter else {
            return Ok(None);
        };
        if !is_escape_of(branch.expr(), delimiter) {
            return Ok(None);
        }
        for i in &self.others {
            if self.is_beginning(*i, branch, known)? {
                return Ok(Some(i.saturating_add(1)));
            }
        }
        Ok(None)
    }

    /// The branch that matches wherever this one does, if nothing follows.
    fn matching_first(
        &self,
        earlier: &[Expr],
        branch: SpannedNode<'_>,
        known: &mut KnownClasses,
    ) -> Result<Option<usize>, AllocError> {
        if let Some(i) = self.beginning_of(earlier, branch.expr(), Following::Nothing) {
            return Ok(Some(i));
        }
        if let Expr::Empty = branch.expr() {
            return Ok(None);
        }
        if let Some(i) = self.matching_everywhere(earlier) {
            return Ok(Some(i));
        }
        self.covering(branch, known)
    }

    /// What is wrong with a branch after these, apart from sets of characters. It has this fingerprint.
    fn problem_of_text(
        &self,
        earlier: &[Expr],
        branch: &Expr,
        whole: Fingerprint,
        is_last: bool,
    ) -> Option<Problem<'static>>
        ensures { (i : ℕ) → result ≡ Some (reported.UnreachableBranch i) → ⊥ }
    {
        if let Expr::Empty = branch {
            return empty_branch_problem(earlier.is_empty(), is_last);
        }
        let i = self.equal_to(earlier, branch, whole)?;
        Some(Problem::DuplicateBranch {
            earlier: i.saturating_add(1),
        })
    }

    /// What is wrong with a branch after these, which has this fingerprint.
    pub(crate) fn problem(
        &self,
        earlier: &[Expr],
        branch: SpannedNode<'_>,
        whole: Fingerprint,
        situation: Situation,
        known: &mut KnownClasses,
    ) -> Result<Option<Problem<'static>>, AllocError>
        ensures followed { IfOk result (λ problem.
            situation.following ≡ following.More → (i : ℕ) → problem ≡ Some (reported.UnreachableBranch i) → ⊥) }
        ensures extended { IfOk result (λ problem.
            situation.may_be_extended ≡ true → (i : ℕ) → problem ≡ Some (reported.UnreachableBranch i) → ⊥) }
    {
        let tree = branch.expr();
        if let Some(problem) = self.problem_of_text(earlier, tree, whole, situation.is_last) {
            return Ok(Some(problem));
        }
        if situation.may_be_extended || situation.has_calls {
            return Ok(None);
        }
        if let Some(earlier) = self.taking_escape(branch, situation.delimiter, known)? {
            return Ok(Some(Problem::UnusedEscape { earlier }));
        }
        if let Following::More = situation.following {
            return Ok(None);
        }
        let covering = if let Following::WordBoundary = situation.following {
            self.beginning_of(earlier, tree, Following::WordBoundary)
        } else {
            self.matching_first(earlier, branch, known)?
        };
        let Some(i) = covering else {
            return Ok(None);
        };
        Ok(Some(Problem::UnreachableBranch {
            earlier: i.saturating_add(1),
        }))
    }
}

/// The fingerprint of the text of a branch that is literals only.
fn literals_fingerprint(branch: &Expr) -> Option<Fingerprint> {
    let mut text = Fingerprint::new();
    for piece in pieces(branch) {
        let Expr::Literal { val, .. } = piece else {
            return None;
        };
        text = text.with(val.as_str());
    }
    Some(text)
}
