//! The numbers of capturing groups, and what a reference refers to.
ghost use Rattle.std.specs.Prelude.{◌≡◌, ℕ, ◌+◌, ◌<◌, ◌^◌, List, false, nat_le, IfOk, IsOk, OnErr, chars, is_some, map};
ghost use Rattle.std.specs.Prelude.{option_map};
ghost use Rattle.fancy_lex.specs.IdReference.{amount_bound};
ghost use Rattle.fancy_lex.specs.NameViews.{view_target};
ghost use Rattle.fancy_lex.specs.Text.{text_of};
ghost use Rattle.fancy_grammar.specs.Groups.{groups_of, no_groups, with_group, with_number, numbers_under, entry_of};
ghost use Rattle.fancy_grammar.specs.Groups.{openings_with, groups_in, role_of, meaning_of};
ghost use Rattle.fancy_grammar.specs.Meaning as spec;
ghost use Rattle.fancy_grammar.specs.Meaning.{at_distance, is_error_with_text, last_of, refers_to, refers_to_name, only_one};
ghost use Rattle.fancy_grammar.specs.Ranks.{Opening, numbers};

use fancy_lex::error::ParseError;
use fancy_lex::name::CaptureGroupTarget;
use std::alloc::{AllocError, Global};
use std::collections::BTreeMap;

/// What a reference does with its group.
#[derive(Clone, Copy, PartialEq, Eq, Debug, Drop)]
pub enum Role {
    /// It matches what the group matched.
    BackReference,
    /// It calls the group.
    Call,
    /// It tests whether the group has matched.
    Condition,
}

/// What a reference refers to.
#[derive(Debug, Drop)]
pub enum Meaning {
    /// The group of this number.
    Number(usize),
    /// No group: the call stays unresolved.
    Unresolved,
    /// No group, which is an error.
    Invalid(ParseError),
}

/// The groups with a number that have been found so far.
#[derive(Debug, Drop)]
pub struct Groups {
    /// The number of groups.
    pub total: usize,
    /// For each name, the numbers of its groups, ascending.
    pub names: BTreeMap<String, Vec<usize>>,
}

impl Groups {
    /// No groups.
    pub fn new(alloc: Global) -> Groups
        ensures { groups_of result ≡ no_groups }
    {
        Groups {
            total: 0,
            names: BTreeMap::new(alloc),
        }
    }

    /// Adds a group, which has the next number. If the groups were numbered in the order of their openings, they still
    /// are with this one after them. If memory runs out, they are unchanged; a group without a name allocates nothing.
    pub fn add(&mut self, alloc: Global, name: Option<&str>) -> Result<(), AllocError>
        requires { self.old.total + 1 < 2 ^ 64 }
        ensures added { IfOk result
            (λ _. groups_of self.new ≡ with_group (groups_of self.old) (option_map (λ t. chars t.now) name.entry)) }
        ensures numbers { (before : List Opening) (reach : ℕ) → groups_of self.old ≡ groups_in before →
            IfOk result (λ _. groups_of self.new
            ≡ groups_in (openings_with before reach (option_map (λ t. chars t.now) name.entry))) }
        ensures kept { OnErr result (groups_of self.new ≡ groups_of self.old) }
        ensures without_memory { is_some name.entry ≡ false → IsOk result }
    {
        let number = self.total + 1;
        if let Some(name) = name {
            add_number(alloc, &mut self.names, name, number)?;
        }
        self.total = number;
        Ok(())
    }

    /// Whether it is the number of a group, or 0, which is the whole pattern.
    pub fn is_in_range(&self, number: usize) -> bool
        ensures { result ≡ nat_le number (groups_of self.now).total }
    {
        number <= self.total
    }
}

/// Adds the number after those of the name. If memory runs out, the names keep their numbers.
fn add_number(
    alloc: Global,
    names: &mut BTreeMap<String, Vec<usize>>,
    name: &str,
    number: usize,
) -> Result<(), AllocError>
    ensures added { IfOk result
        (λ _. map entry_of names.new.entries ≡ with_number (chars name.now) number (map entry_of names.old.entries)) }
    ensures kept { OnErr result (map entry_of names.new.entries ≡ map entry_of names.old.entries) }
{
    match names.get_mut(name) {
        Some(numbers) => numbers.push(number)?,
        None => {
            let mut numbers = Vec::new(alloc);
            numbers.push(number)?;
            names.insert(String::from_str(alloc, name)?, numbers)?;
        }
    }
    Ok(())
}

/// What a target refers to after the openings of `passed` groups. Memory is allocated only for the text of an error.
pub fn meaning_after(
    groups: &Groups,
    passed: usize,
    role: Role,
    target: &CaptureGroupTarget,
) -> Result<Meaning, AllocError>
    requires { passed < amount_bound }
    ensures value { IfOk result
        (λ m. meaning_of m
        ≡ refers_to (numbers_under (groups_of groups.now).names) passed (role_of role) (view_target target.now)) }
    ensures numbers { (l : List Opening) → groups_of groups.now ≡ groups_in l →
        IfOk result (λ m. meaning_of m ≡ refers_to (λ t. numbers t l) passed (role_of role) (view_target target.now)) }
    ensures without_memory { let numbers = numbers_under (groups_of groups.now).names in
        let meaning = refers_to numbers passed (role_of role) (view_target target.now) in
        is_error_with_text meaning ≡ false → IsOk result }
{
    match target {
        CaptureGroupTarget::ByNumber(number) => Ok(Meaning::Number(*number)),
        CaptureGroupTarget::ByName(name) => match groups.names.get(name.as_str()) {
            Some(numbers) => by_name(role, passed, name, numbers.as_slice()),
            None => by_name(role, passed, name, &[]),
        },
        CaptureGroupTarget::Relative(amount) => Ok(group_or_none(role, at(passed, *amount))),
    }
}

/// What a name refers to after the openings of `passed` groups, if its groups have these numbers.
fn by_name(
    role: Role,
    passed: usize,
    name: &String,
    numbers: &[usize],
) -> Result<Meaning, AllocError>
    ensures value { IfOk result
        (λ m. meaning_of m ≡ refers_to_name (role_of role) passed (text_of name.now) numbers.now) }
    ensures without_memory { let meaning = refers_to_name (role_of role) passed (text_of name.now) numbers.now in
        is_error_with_text meaning ≡ false → IsOk result }
{
    match role {
        Role::Call => Ok(only(numbers)),
        Role::Condition => Ok(group_or_none(role, last(numbers))),
        Role::BackReference => match last(numbers) {
            Some(number) if number <= passed => Ok(Meaning::Number(number)),
            Some(_) => Ok(Meaning::Invalid(ParseError::InvalidGroupNameBackref(name.clone()?))),
            None => Ok(Meaning::Invalid(ParseError::InvalidBackref)),
        },
    }
}

/// The only number, if there is exactly one.
fn only(numbers: &[usize]) -> Meaning
    ensures { meaning_of result ≡ only_one numbers.now }
{
    match numbers {
        [number] => Meaning::Number(*number),
        _ => Meaning::Unresolved,
    }
}

/// The last number.
fn last(numbers: &[usize]) -> Option<usize>
    ensures { result ≡ last_of numbers.now }
{
    numbers.last().copied()
}

/// The group of the number, or the meaning of no group.
fn group_or_none(role: Role, number: Option<usize>) -> Meaning
    ensures { meaning_of result ≡ spec.group_or_none (role_of role) number }
{
    match number {
        Some(number) => Meaning::Number(number),
        None if role == Role::Call => Meaning::Unresolved,
        None => Meaning::Invalid(ParseError::InvalidBackref),
    }
}

/// The number of the group at this distance: positive after the groups that opened, negative before the next.
fn at(passed: usize, amount: isize) -> Option<usize>
    requires { passed < amount_bound }
    ensures { result ≡ at_distance passed amount }
{
    if amount >= 0 {
        Some(passed + amount as usize)
    } else {
        passed.checked_sub(-(amount + 1) as usize)
    }
}
