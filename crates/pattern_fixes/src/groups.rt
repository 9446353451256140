//! Whether two trees have the same group information.
ghost use Rattle.std.specs.Prelude.{◌≡◌, map, IsTrue};
ghost use Rattle.fancy_grammar.specs.Groups.{entry_of};
ghost use Rattle.fancy_syntax.specs.InfoViews.{info_of};

use fancy_syntax::tree::ExprTree;

/// Whether the trees have the same names of groups, each with the same numbers.
fn has_same_names(one: &ExprTree, other: &ExprTree) -> bool
    ensures { IsTrue result → map entry_of one.now.named_groups.entries ≡ map entry_of other.now.named_groups.entries }
{
    one.named_groups == other.named_groups
}

/// Whether the trees have the same group information.
pub(crate) fn has_same_groups(one: &ExprTree, other: &ExprTree) -> bool
    ensures { IsTrue result → info_of one.now ≡ info_of other.now }
{
    has_same_names(one, other)
        && one.backrefs == other.backrefs
        && one.numeric_capture_group_references == other.numeric_capture_group_references
        && one.contains_subroutines == other.contains_subroutines
        && one.self_recursive == other.self_recursive
        && one.total_groups == other.total_groups
        && one.out_of_range_backref == other.out_of_range_backref
        && one.numbered_groups_ignored == other.numbered_groups_ignored
}
