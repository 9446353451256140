//! What references refer to, as it is written in the pattern.
ghost use Rattle.std.specs.Prelude.{◌≡◌, chars, false, IfOk, IsOk, IfSome, IsSome, option_map};
ghost use Rattle.fancy_lex.specs.NameViews.{view_borrowed, view_reference, view_target};
ghost use Rattle.fancy_lex.specs.Reading.{Reads};
ghost use Rattle.fancy_lex.specs.Referred as spec;
ghost use Rattle.fancy_lex.specs.Target.{is_by_name};
ghost use Rattle.fancy_lex.specs.Views.{parts};

use crate::error::{ParseError, ReadError};
use crate::name::CaptureGroupTarget;
use crate::name::id::{IdReference, id_reference};
use crate::name::number_text::number_text;
use crate::text::Reach;
use std::alloc::{AllocError, Global};

/// The group that a reference refers to; its name is a slice of the pattern.
#[derive(Clone, Copy, Debug)]
pub enum Target<'a> {
    /// The group of this number.
    ByNumber(usize),
    /// The last group of this name.
    ByName(&'a str),
    /// Relative to the reference: -1 is the last group that opens before it, and 1 the first that opens after it.
    Relative(isize),
}

impl Target<'_> {
    /// The same target, with an owned name. Only a name allocates.
    pub fn to_owned(self, alloc: Global) -> Result<CaptureGroupTarget, AllocError>
        ensures same { IfOk result (λ target. view_target target ≡ view_borrowed self.entry) }
        ensures without_memory { is_by_name (view_borrowed self.entry) ≡ false → IsOk result }
    {
        match self {
            Target::ByNumber(number) => Ok(CaptureGroupTarget::ByNumber(number)),
            Target::ByName(name) => Ok(CaptureGroupTarget::ByName(String::from_str(alloc, name)?)),
            Target::Relative(amount) => Ok(CaptureGroupTarget::Relative(amount)),
        }
    }
}

/// A reference to what a group matched: a back reference or a condition.
#[derive(Clone, Copy, Debug)]
pub struct Reference<'a> {
    pub target: Target<'a>,
    /// The level of recursion, if one is written.
    pub level: Option<isize>,
    /// The number of bytes from the reference to one past the end of the pattern.
    pub reach: Reach,
}

/// What calls a group.
#[derive(Clone, Copy, Debug)]
pub struct Call<'a> {
    pub target: Target<'a>,
    /// The number of bytes from the call to one past the end of the pattern.
    pub reach: Reach,
}

/// The group that a name refers to: by number if the name is a number text, and otherwise by name.
#[inline(never)]
#[tactic(auto, unfolding(crate::specs::Referred::target_of_name))]
pub fn target_of_name(name: &str) -> Target<'_>
    ensures { spec.target_of_name (chars name.now) ≡ view_borrowed result }
{
    match number_text(name) {
        Some(number) => Target::ByNumber(number),
        None => Target::ByName(name),
    }
}

/// The reference at the reach to this group at this level.
#[inline(always)]
fn reference_to(reach: Reach, target: Target<'_>, level: Option<isize>) -> Reference<'_>
    ensures { view_reference result ≡ spec.reference_to reach (view_borrowed target.entry) level }
{
    Reference {
        target,
        level,
        reach,
    }
}

/// The reference at the reach that the whole text writes, if it is an id reference; `amounts` allows amounts. An amount
/// without an id is relative, and one after an id is a level.
#[inline(always)]
#[tactic(auto, unfolding(crate::specs::Referred::written_reference, crate::specs::Referred::reference_of))]
fn written_reference(text: &str, amounts: bool, reach: Reach) -> Option<Reference<'_>>
    ensures value { spec.written_reference reach amounts (chars text.now) ≡ option_map view_reference result }
{
    match id_reference(text, amounts)? {
        IdReference::Id(name) => Some(reference_to(reach, target_of_name(name), None)),
        IdReference::IdAndAmount(id, amount) => Some(reference_to(
            reach,
            target_of_name(id),
            Some(amount),
        )),
        IdReference::Amount(amount) => Some(reference_to(reach, Target::Relative(amount), None)),
    }
}

/// The reference by this name at the reach, and the text after it, if a name was found; `amounts` allows amounts. The
/// error is InvalidGroupName at the reach, if no name was found, or one that is no id reference.
#[inline(always)]
#[tactic(auto, unfolding(crate::specs::Referred::reference_by_name))]
pub fn reference_by_name<'a>(
    name: Option<(&'a str, &'a str)>,
    amounts: bool,
    reach: Reach,
) -> Result<(Reference<'a>, &'a str), ReadError>
    ensures value { Reads view_reference result (spec.reference_by_name reach amounts (parts name.entry)) }
    ensures rest { IfOk result (λ p. IfSome name.entry (λ q. p.1.now ≡ q.1.now) × IsSome name.entry) }
{
    let Some((name, rest)) = name else {
        return Err(ReadError::At(reach, ParseError::InvalidGroupName));
    };
    match written_reference(name, amounts, reach) {
        Some(reference) => Ok((reference, rest)),
        None => Err(ReadError::At(reach, ParseError::InvalidGroupName)),
    }
}
