//! The names of groups, by their numbers.
ghost use Rattle.std.specs.Prelude.{◌≡◌, ℕ, List, [], ◌∷◌, ◌++◌, chars, Some, None, option_map, IfOk, if◌then◌else◌, ◌==◌};
ghost use Rattle.std.specs.BTreeMap.{get};
ghost use Rattle.std.specs.Option.{option_or};
ghost use Rattle.std.specs.Ordering.{nat_cmp};
ghost use Rattle.fancy_grammar.specs.GroupInfo.{GroupInfo};
ghost use Rattle.fancy_grammar.specs.PatternReference as spec;
ghost use Rattle.fancy_grammar.specs.PatternReference.{Named};
ghost use Rattle.fancy_syntax.specs.InfoViews.{info_of};
ghost use Rattle.fancy_pattern.specs.ContextViews.{AreNames, AreGroupNames, IsNameOf};

use fancy_lex::name::id::id_reference;
use fancy_lex::name::number_text::number_text;
use fancy_syntax::tree::ExprTree;
use std::alloc::{AllocError, Global};
use std::collections::BTreeMap;

/// A group's name.
#[derive(Clone, Copy, Drop)]
pub(crate) struct GroupName<'a> {
    /// The name.
    pub(crate) text: &'a str,
    /// Whether it is an id, and not the text of a number.
    is_plain: bool,
    /// Whether the group is the last one with this name.
    is_last: bool,
    /// Whether it is the only one.
    is_only: bool,
}

/// What the text of a tree depends on besides the tree.
#[derive(Drop)]
pub(crate) struct GroupNames<'a> {
    /// The name of each group that has one, by the number of the group.
    names: BTreeMap<usize, GroupName<'a>>,
    /// Whether some reference is written as a number; then each is.
    pub(crate) is_numeric: bool,
    /// Whether some call is by the number 0.
    pub(crate) self_recursive: bool,
}

/// Whether the name is an id, and not the text of a number.
fn is_plain_name(name: &str) -> bool
    ensures { result ≡ spec.is_plain_name (chars name.now) }
{
    id_reference(name, false).is_some() && number_text(name).is_none()
}

/// Whether the number is the last of the numbers.
fn is_last(number: usize, numbers: &[usize]) -> bool
    ensures { result ≡ spec.is_last number numbers.now }
{
    match numbers.last() {
        Some(last) => *last == number,
        None => false,
    }
}

/// Whether the number is the only one of the numbers.
fn is_only(number: usize, numbers: &[usize]) -> bool
    ensures { result ≡ spec.is_only number numbers.now }
{
    match numbers {
        [only] => *only == number,
        _ => false,
    }
}

/// Adds the name of the group with this number, if it has no name yet.
fn add_number<'a>(
    names: &mut BTreeMap<usize, GroupName<'a>>,
    number: usize,
    name: GroupName<'a>,
) -> Result<(), AllocError>
    ensures { IfOk result (λ _. (n : ℕ) → get nat_cmp names.new n
        ≡ option_or (get nat_cmp names.old n) (if number == n then Some name.entry else None)) }
{
    if !names.contains_key(&number) {
        names.insert(number, name)?;
    }
    Ok(())
}

/// Adds the name for each of the numbers that has no name yet.
fn add_name<'a>(
    names: &mut BTreeMap<usize, GroupName<'a>>,
    text: &'a str,
    numbers: &[usize],
) -> Result<(), AllocError>
    ensures { (es : List Named) → AreNames names.old es →
        IfOk result (λ _. AreNames names.new (es ++ (chars text.now, numbers.now) ∷ [])) }
{
    let is_plain = is_plain_name(text);
    for number in numbers {
        let name = GroupName {
            text,
            is_plain,
            is_last: is_last(*number, numbers),
            is_only: is_only(*number, numbers),
        };
        add_number(names, *number, name)?;
    }
    Ok(())
}

impl<'a> GroupNames<'a> {
    /// What is known of the tree.
    pub(crate) fn new(alloc: Global, tree: &'a ExprTree) -> Result<GroupNames<'a>, AllocError>
        ensures { IfOk result (λ k. AreGroupNames k (info_of tree.now)) }
    {
        let mut names = BTreeMap::new(alloc);
        for (name, numbers) in &tree.named_groups {
            add_name(&mut names, name.as_str(), numbers.as_slice())?;
        }
        Ok(GroupNames {
            names,
            is_numeric: tree.numeric_capture_group_references,
            self_recursive: tree.self_recursive,
        })
    }

    /// The name of the group.
    pub(crate) fn name_of(&self, group: usize) -> Option<GroupName<'a>>
        ensures { (m : GroupInfo) → AreGroupNames self.now m → IsNameOf group result (spec.name_of m group) }
    {
        self.names.get(&group).copied()
    }

    /// The group's name, if references are written by names, and one by this name refers to the group.
    pub(crate) fn last_name(&self, group: usize) -> Option<&'a str>
        ensures { (m : GroupInfo) → AreGroupNames self.now m →
            option_map (λ t. chars t.now) result ≡ spec.fit_name m (spec.is_last group) group }
    {
        let name = self.name_of(group)?;
        if !self.is_numeric && name.is_plain && name.is_last {
            Some(name.text)
        } else {
            None
        }
    }

    /// The group's name, if references are written by names, and only this group has the name.
    pub(crate) fn only_name(&self, group: usize) -> Option<&'a str>
        ensures { (m : GroupInfo) → AreGroupNames self.now m →
            option_map (λ t. chars t.now) result ≡ spec.fit_name m (spec.is_only group) group }
    {
        let name = self.name_of(group)?;
        if !self.is_numeric && name.is_plain && name.is_only {
            Some(name.text)
        } else {
            None
        }
    }
}
