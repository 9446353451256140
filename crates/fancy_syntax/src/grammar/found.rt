//! What the loop finds of the capturing groups and the references of a text as it reads them.
ghost use Rattle.std.specs.Prelude.{◌≡◌, ℕ, Bool, ◌+◌, ◌≤◌, ◌<◌, ◌^◌, ◌&&◌, List, [], ◌∷◌, length, IfOk};
ghost use Rattle.std.specs.List.{list_any};
ghost use Rattle.fancy_grammar.specs.Groups.{groups_of, groups_in};
ghost use Rattle.fancy_grammar.specs.Ranks.{Opening, is_named, numbered_openings_in};
ghost use Rattle.fancy_grammar.specs.Items.{Item, items, openings_in};
ghost use Rattle.fancy_grammar.specs.Preorder.{preorder};
ghost use Rattle.fancy_syntax.specs.Decided.{IsDecidedKind};
ghost use Rattle.fancy_syntax.specs.Found as spec;
ghost use Rattle.fancy_syntax.specs.Found.{FindsMore, IsFound, group_opening, has_unresolved, openings_found, undecided_in};
ghost use Rattle.fancy_syntax.specs.Parsed.{group_kind};
ghost use Rattle.fancy_syntax.specs.View.{view};

use crate::expr::Expr;
use crate::grammar::group::kind::GroupKind;
use crate::raw_tree::RawTree;
use fancy_grammar::ranks::Groups;
use std::alloc::{AllocError, Global};

/// The capturing groups that have opened so far, and whether there is anything to resolve.
#[derive(Debug, Drop)]
pub(crate) struct FoundGroups {
    /// Whether groups without a name have no number if some group has a name.
    pub(crate) ignore: bool,
    /// The groups that have a number, whatever follows.
    pub(crate) groups: Groups,
    /// How many groups are undecided: they have a number only if no group has a name.
    pub(crate) undecided: usize,
    /// Whether there is something to resolve: a reference, or an undecided group.
    pub(crate) unresolved: bool,
}

impl FoundGroups {
    /// Nothing has been read.
    pub(crate) fn new(alloc: Global, ignore: bool) -> FoundGroups
        ensures found { IsFound ignore result [] }
        ensures count { openings_found result ≡ 0 }
    {
        FoundGroups {
            ignore,
            groups: Groups::new(alloc),
            undecided: 0,
            unresolved: false,
        }
    }

    /// Records the atom, which holds no other node, if it is a reference.
    #[inline(always)]
    pub(crate) fn record(&mut self, atom: &Expr)
        requires { preorder (view atom.now) ≡ view atom.now ∷ [] }
        ensures found { FindsMore self.old self.new (items (view atom.now)) }
        ensures count { openings_found self.new ≡ openings_found self.old }
    {
        if is_reference(atom) {
            self.unresolved = true;
        }
    }

    /// Records that a group opens, and returns its kind. A capturing group has the next number, or is undecided.
    #[inline(always)]
    pub(crate) fn add<'a>(
        &mut self,
        alloc: Global,
        kind: GroupKind<'a>,
    ) -> Result<GroupKind<'a>, AllocError>
        requires { openings_found self.old + 1 < 2 ^ 64 }
        ensures found { (reach : ℕ) →
            IfOk result (λ _. FindsMore self.old self.new (group_opening (group_kind kind.entry) reach)) }
        ensures same { IfOk result (λ k. group_kind k ≡ group_kind kind.entry) }
        ensures decided { IfOk result (λ k. IsDecidedKind self.old.ignore k) }
        ensures count { IfOk result (λ _. openings_found self.new ≤ openings_found self.old + 1) }
    {
        let name = match kind {
            GroupKind::Capture(name) => name,
            GroupKind::Undecided => None,
            GroupKind::FlagGroup
            | GroupKind::Look(_)
            | GroupKind::Atomic
            | GroupKind::Define
            | GroupKind::Repeater => return Ok(kind),
        };
        if self.ignore && name.is_none() {
            self.unresolved = true;
            self.undecided += 1;
            return Ok(GroupKind::Undecided);
        }
        self.groups.add(alloc, name)?;
        Ok(GroupKind::Capture(name))
    }

    /// The raw tree, with what was found in it.
    pub(crate) fn with_tree(self, expr: Expr) -> RawTree
        ensures expr { result.expr ≡ expr }
        ensures named { (ignore : Bool) (l : List Item) → IsFound ignore self l →
            result.named ≡ (ignore && list_any is_named (openings_in l)) }
        ensures groups { (ignore : Bool) (l : List Item) → IsFound ignore self l →
            groups_of result.groups ≡ groups_in (numbered_openings_in result.named (openings_in l)) }
        ensures unresolved { (ignore : Bool) (l : List Item) → IsFound ignore self l →
            result.unresolved ≡ has_unresolved ignore l }
    {
        let FoundGroups {
            ignore,
            groups,
            undecided,
            unresolved,
        } = self;
        let (named, groups) = decide(ignore, groups, undecided);
        RawTree {
            expr,
            groups,
            named,
            unresolved,
        }
    }
}

/// Whether the node, which holds no other, is a reference.
#[inline(always)]
fn is_reference(tree: &Expr) -> bool
    requires { preorder (view tree.now) ≡ view tree.now ∷ [] }
    ensures { result ≡ spec.is_reference (view tree.now) }
{
    matches!(tree, Expr::AstNode(..))
}

/// Whether only groups with a name have a number, and the groups that have one.
fn decide(ignore: bool, groups: Groups, undecided: usize) -> (bool, Groups)
    ensures named { (l : List Opening) → groups_of groups ≡ groups_in (numbered_openings_in ignore l) →
        result.0 ≡ (ignore && list_any is_named l) }
    ensures groups { (l : List Opening) → groups_of groups ≡ groups_in (numbered_openings_in ignore l) →
        undecided ≡ length (undecided_in ignore l) →
        groups_of result.1 ≡ groups_in (numbered_openings_in result.0 l) }
{
    if groups.total > 0 {
        return (ignore, groups);
    }
    let Groups { names, .. } = groups;
    let all = Groups {
        total: undecided,
        names,
    };
    (false, all)
}
