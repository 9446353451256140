//! Whether trees are equal with the same group information.
ghost use Rattle.std.specs.Prelude.{◌≡◌, ◌&&◌, map, nat_eq, Decides};
ghost use Rattle.std.specs.Option.{option_eq};
ghost use mathlib.Core.Bool.{beq};
ghost use Rattle.fancy_grammar.specs.Groups.{entry_of};
ghost use Rattle.fancy_grammar.specs.ReadAs.{unpositioned};
ghost use Rattle.fancy_syntax.specs.InfoViews.{info_of};
ghost use Rattle.fancy_syntax.specs.View.{view};

use super::ExprTree;

/// Whether the same groups have the same names.
fn have_same_names(a: &ExprTree, b: &ExprTree) -> bool
    ensures { Decides result
        (map entry_of a.now.named_groups.entries ≡ map entry_of b.now.named_groups.entries) }
{
    a.named_groups == b.named_groups
}

/// Whether back references refer to the same groups.
fn have_same_backrefs(a: &ExprTree, b: &ExprTree) -> bool
    ensures { Decides result (a.now.backrefs.keys ≡ b.now.backrefs.keys) }
{
    a.backrefs == b.backrefs
}

/// Whether the boolean fields of both are equal.
fn have_same_flags(a: &ExprTree, b: &ExprTree) -> bool
    ensures { result ≡ (beq a.now.numeric_capture_group_references b.now.numeric_capture_group_references
        && beq a.now.contains_subroutines b.now.contains_subroutines
        && beq a.now.self_recursive b.now.self_recursive
        && beq a.now.numbered_groups_ignored b.now.numbered_groups_ignored) }
{
    a.numeric_capture_group_references == b.numeric_capture_group_references
        && a.contains_subroutines == b.contains_subroutines
        && a.self_recursive == b.self_recursive
        && a.numbered_groups_ignored == b.numbered_groups_ignored
}

/// Whether both have the same number of groups, and the same out-of-range back reference.
fn have_same_numbers(a: &ExprTree, b: &ExprTree) -> bool
    ensures { result ≡ (nat_eq a.now.total_groups b.now.total_groups
        && option_eq nat_eq a.now.out_of_range_backref b.now.out_of_range_backref) }
{
    a.total_groups == b.total_groups && a.out_of_range_backref == b.out_of_range_backref
}

/// Whether the group information of the trees is the same.
fn have_same_info(a: &ExprTree, b: &ExprTree) -> bool
    ensures { Decides result (info_of a.now ≡ info_of b.now) }
{
    if !have_same_names(a, b) {
        return false;
    }
    if !have_same_backrefs(a, b) {
        return false;
    }
    if !have_same_flags(a, b) {
        return false;
    }
    have_same_numbers(a, b)
}

impl ExprTree {
    /// Returns whether the trees are equal except for positions, with the same group information.
    pub fn is_same_but_for_positions(&self, other: &ExprTree) -> bool
        ensures { Decides result
            ((unpositioned (view self.now.expr) ≡ unpositioned (view other.now.expr)) × (info_of self.now ≡ info_of other.now)) }
    {
        if !have_same_info(self, other) {
            return false;
        }
        self.expr.is_same_but_for_positions(&other.expr)
    }
}
