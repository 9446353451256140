//! Branches of one character that another branch contains.
ghost use Rattle.std.specs.Prelude.{◌≡◌, ◌<◌, ◌^◌, length, slice_get, IfOk, IfSome, IsTrue, OnOk};
ghost use Rattle.fancy_lex.specs.Flags.{flags_of};
ghost use Rattle.fancy_syntax.specs.Spanned.{Spanned, spanned_of, spanned_children};
ghost use Rattle.fancy_syntax.specs.View.{view};
ghost use Rattle.class_rules.specs.Branches.{AreBranchesOf, IsBranchOf, IsWithin};
ghost use Rattle.class_rules.specs.ClassFindings.{IsContained, KeepsFound};
ghost use Rattle.class_rules.specs.Subsumed.{MatchesOne, IsSubsumed};

use crate::class_problem::{ClassFinding, ClassProblem};
use crate::known_classes::{ClassText, KnownClasses, MAX_BYTES};
use class_meaning::{CharacterSet, ClassMeaning, characters_of};
use fancy_lex::text::{is_same_text, next};
use fancy_syntax::expr::Expr;
use fancy_syntax::spanned::SpannedNode;
use std::alloc::{AllocError, Global};

/// How many classes of an alternation its branches are compared with.
const MAX_CLASSES: usize = 8;

/// The characters that the node matches. Returns `None` if it does not match one character.
fn characters_of_node(
    alloc: Global,
    node: &Expr,
    unicode: bool,
) -> Result<Option<CharacterSet>, AllocError>
    ensures { IfOk result (λ o. IfSome o (MatchesOne unicode (view node.now))) }
{
    match characters_of(alloc, node, unicode)? {
        ClassMeaning::Characters(set) => Ok(Some(set)),
        ClassMeaning::Refused(_) | ClassMeaning::NotOneCharacter => Ok(None),
    }
}

/// Whether each character that the one matches is one that the other matches, and neither matches anything else.
pub(crate) fn is_subsumed(
    alloc: Global,
    one: &Expr,
    other: &Expr,
    unicode: bool,
) -> Result<bool, AllocError>
    ensures { IfOk result (λ b. IsTrue b → IsSubsumed unicode (view one.now) (view other.now)) }
{
    let Some(set) = characters_of_node(alloc, one, unicode)? else {
        return Ok(false);
    };
    let Some(others) = characters_of_node(alloc, other, unicode)? else {
        return Ok(false);
    };
    let within = set.is_subset_of(&others)?;
    Ok(within)
}

/// A branch that is a short class, a dot or a literal of one character.
#[derive(Clone, Copy)]
struct OneCharacterBranch<'a> {
    /// How many branches are before it.
    index: usize,
    node: SpannedNode<'a>,
}

/// The one character of the text.
fn only_character(text: &str) -> Option<char> {
    let (c, rest) = next(text)?;
    if rest.is_empty() { Some(c) } else { None }
}

/// Whether the node is a class or a dot.
fn is_class(node: &Expr) -> bool {
    matches!(node, Expr::Delegate { .. } | Expr::Any { .. })
}

/// Whether the node is a class that is short enough to be kept, a dot or a literal of one character.
pub(crate) fn is_one_character(node: SpannedNode<'_>) -> bool {
    let span = node.span();
    if span.end.saturating_sub(span.start) > MAX_BYTES {
        return false;
    }
    match node.expr() {
        Expr::Literal { val, .. } => only_character(val.as_str()).is_some(),
        tree => is_class(tree),
    }
}

/// The branches that are short classes, dots or literals of one character.
fn one_character_branches<'a>(
    alloc: Global,
    alternation: SpannedNode<'a>,
) -> Result<Vec<OneCharacterBranch<'a>>, AllocError>
    ensures { length (spanned_children (spanned_of alternation.entry)) < 2 ^ 64 →
        IfOk result (λ branches. AreBranchesOf (spanned_of alternation.entry) branches.items) }
{
    let mut branches = Vec::new(alloc);
    let mut index = 0usize;
    for node in alternation.children() {
        let branch = OneCharacterBranch { index, node };
        index = index.saturating_add(1);
        if !is_one_character(node) {
            continue;
        }
        branches.push(branch)?;
    }
    Ok(branches)
}

/// The branch at this position among these.
fn branch_at<'a>(
    branches: &[OneCharacterBranch<'a>],
    position: usize,
) -> Option<OneCharacterBranch<'a>>
    ensures { result ≡ slice_get branches.now position }
{
    branches.get(position).copied()
}

/// Where among these the first classes and dots are.
fn classes_among(
    alloc: Global,
    branches: &[OneCharacterBranch<'_>],
) -> Result<Vec<usize>, AllocError> {
    let mut classes = Vec::new(alloc);
    for (position, branch) in branches.iter().enumerate() {
        if classes.len() < MAX_CLASSES && is_class(branch.node.expr()) {
            classes.push(position)?;
        }
    }
    Ok(classes)
}

/// Whether the branch can be left out, if the other one matches its character too: a later one can, and an earlier one
/// if each branch between the two matches one character.
fn can_be_left_out(branches: &[OneCharacterBranch<'_>], position: usize, other: usize) -> bool {
    let (Some(branch), Some(containing)) = (
        branch_at(branches, position),
        branch_at(branches, other),
    ) else {
        return false;
    };
    other < position
        || containing.index.saturating_sub(branch.index) == other.saturating_sub(position)
}

/// Whether the literal may match each character that the node matches.
fn literal_may_contain(node: &Expr, text: &str, casei: bool) -> bool {
    let Expr::Literal { val, .. } = node else {
        return false;
    };
    casei || is_same_text(val.as_str(), text)
}

/// Whether the characters of the one node may be among those of the other, as far as is known without much work.
pub(crate) fn may_contain(
    known: &mut KnownClasses,
    pattern: &str,
    one: SpannedNode<'_>,
    other: SpannedNode<'_>,
) -> Result<bool, AllocError>
    ensures { known.new.flags ≡ known.old.flags }
{
    if let Expr::Literal { val, casei } = other.expr() {
        return Ok(literal_may_contain(one.expr(), val.as_str(), *casei));
    }
    let Some(class) = ClassText::of(other, pattern) else {
        return Ok(true);
    };
    if let Expr::Literal { val, .. } = one.expr() {
        return match only_character(val.as_str()) {
            Some(c) => known.contains(class, c),
            None => Ok(false),
        };
    }
    match ClassText::of(one, pattern) {
        Some(part) => known.may_contain(class, part),
        None => known.contains(class, char::MAX),
    }
}

/// Whether the characters of the one branch are among those of the other, which differs from it. Of two with the same
/// characters the earlier one has not.
fn is_contained(
    alloc: Global,
    known: &mut KnownClasses,
    pattern: &str,
    one: OneCharacterBranch<'_>,
    other: OneCharacterBranch<'_>,
) -> Result<bool, AllocError>
    ensures flags { known.new.flags ≡ known.old.flags }
    ensures within { IfOk result (λ b. IsTrue b → IsWithin (flags_of known.old.flags).unicode one.entry other.entry) }
{
    let unicode = known.is_unicode();
    let (tree, containing) = (one.node.expr(), other.node.expr());
    if *tree == *containing || !may_contain(known, pattern, one.node, other.node)? {
        return Ok(false);
    }
    if !is_subsumed(alloc, tree, containing, unicode)? {
        return Ok(false);
    }
    if one.index < other.index && is_class(tree) {
        return Ok(!is_subsumed(alloc, containing, tree, unicode)?);
    }
    Ok(true)
}

/// The branches of an alternation that match one character.
#[derive(Drop)]
struct OneCharacterBranches<'a> {
    branches: Vec<OneCharacterBranch<'a>>,
    /// Where among them the first classes and dots are.
    classes: Vec<usize>,
}

impl OneCharacterBranches<'_> {
    /// The number of the class, counted from 1, that contains the branch, which is at the position, and its span.
    fn containing(
        &self,
        branch: OneCharacterBranch<'_>,
        position: usize,
        pattern: &str,
        known: &mut KnownClasses,
        alloc: Global,
    ) -> Result<Option<ClassProblem>, AllocError>
        ensures flags { known.new.flags ≡ known.old.flags }
        ensures contained { IfOk result (λ o. IfSome o (λ problem. (node : Spanned) →
            AreBranchesOf node self.now.branches.items → IsBranchOf node branch.entry →
            IsContained (flags_of known.old.flags).unicode node branch.entry.index (spanned_of branch.entry.node) problem)) }
    {
        for other in &self.classes {
            let Some(class) = branch_at(&self.branches, *other) else {
                continue;
            };
            if *other == position || !can_be_left_out(&self.branches, position, *other) {
                continue;
            }
            if is_contained(alloc, known, pattern, branch, class)? {
                return Ok(Some(ClassProblem::SubsumedBranch {
                    other: class.index.saturating_add(1),
                    span: class.node.span(),
                }));
            }
        }
        Ok(None)
    }
}

/// Adds the branches of the node that another one contains, if it is an alternation.
pub(crate) fn add_subsumed(
    node: SpannedNode<'_>,
    pattern: &str,
    known: &mut KnownClasses,
    found: &mut Vec<ClassFinding>,
) -> Result<(), AllocError>
    ensures flags { known.new.flags ≡ known.old.flags }
    ensures problems { OnOk result (KeepsFound (flags_of known.old.flags) pattern.now (spanned_of node.entry)
        found.old.items found.new.items) }
{
    let Expr::Alt(_) = node.expr() else {
        return Ok(());
    };
    let alloc = *found.allocator();
    let branches = one_character_branches(alloc, node)?;
    let classes = classes_among(alloc, &branches)?;
    let compared = OneCharacterBranches { branches, classes };
    for position in 0..compared.branches.len() {
        let Some(branch) = branch_at(&compared.branches, position) else {
            continue;
        };
        let Some(problem) = compared.containing(branch, position, pattern, known, alloc)? else {
            continue;
        };
        found.push(ClassFinding {
            span: branch.node.span(),
            problem,
        })?;
    }
    Ok(())
}
