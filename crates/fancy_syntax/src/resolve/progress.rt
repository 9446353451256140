//! What the walk knows, and what it records of each reference.
ghost use Rattle.std.specs.Prelude.{◌≡◌, ◌<◌, IfOk, IfErr, Option, Some};
ghost use Rattle.fancy_lex.specs.Located.{Located};
ghost use Rattle.fancy_lex.specs.IdReference.{amount_bound};
ghost use Rattle.fancy_grammar.specs.Groups.{meaning_of};
ghost use Rattle.fancy_grammar.specs.Errors.{IsErrorIn};
ghost use Rattle.fancy_syntax.specs.WalkViews.{IsErrorRecorded, progress_of, number_referred_to, recorded_one, form_recorded};
ghost use Rattle.fancy_syntax.specs.WalkViews.{meaning_recorded};
ghost use Rattle.fancy_grammar.specs.Walk.{nothing_recorded, number_in};

use fancy_grammar::ranks::{Groups, Meaning, Role, meaning_after};
use fancy_grammar::written::is_numeric;
use fancy_lex::error::ReadError;
use fancy_lex::name::CaptureGroupTarget;
use fancy_lex::text::{Reach, position_at};
use std::alloc::Global;
use std::collections::BTreeSet;
use std::mem;

/// What is known when references are resolved.
#[derive(Debug, Drop)]
pub(super) struct Scope<'a> {
    /// The pattern.
    pub(super) pattern: &'a str,
    /// Whether groups without a name have no number.
    pub(super) named: bool,
    /// The groups that have a number.
    pub(super) groups: Groups,
}

/// How far the walk has come, and what it recorded.
#[derive(Debug, Drop)]
pub(super) struct Progress {
    /// How many groups with a number have opened.
    pub(super) passed: usize,
    /// The numbers of back references, up to the number of groups.
    pub(super) backrefs: BTreeSet<usize>,
    /// The first number of a back reference above the number of groups.
    pub(super) out_of_range: Option<usize>,
    /// Whether some reference is written as a number.
    pub(super) numeric: bool,
    /// Whether there is a call.
    pub(super) calls: bool,
    /// Whether there is a call by the number 0.
    pub(super) self_recursive: bool,
    /// Why the walk stopped, if it did: the error of a reference, or out of memory.
    pub(super) error: Option<ReadError>,
}

/// The walk stopped; its `Progress` says why. This type is empty, since an error takes seven words, which each call
/// would have to pass on.
#[derive(Debug, Drop)]
pub(super) struct Stopped;

impl Progress {
    /// At the start: no group has opened, and nothing is recorded.
    pub(super) fn new(alloc: Global) -> Progress
        ensures { progress_of result ≡ nothing_recorded }
    {
        Progress {
            passed: 0,
            backrefs: BTreeSet::new(alloc),
            out_of_range: None,
            numeric: false,
            calls: false,
            self_recursive: false,
            error: None,
        }
    }

    /// Records why the walk stops.
    #[cold]
    fn stop(&mut self, error: ReadError) -> Stopped
        ensures error { self.new.error ≡ Some error }
        ensures passed { self.new.passed ≡ self.old.passed }
    {
        drop(mem::replace(&mut self.error, Some(error)));
        Stopped
    }

    /// Why the walk stopped.
    pub(super) fn into_error(self) -> ReadError
        ensures { (o : Option Located) → IsErrorRecorded self.error o → IsErrorIn result o }
    {
        self.error.unwrap_or(ReadError::OutOfMemory)
    }
}

/// Records the reference, and returns the number that it refers to. None for a call that refers to no group. An error
/// is recorded.
#[inline(always)]
pub(super) fn refer(
    scope: &Scope,
    progress: &mut Progress,
    reach: Reach,
    role: Role,
    target: &CaptureGroupTarget,
) -> Result<Option<usize>, Stopped>
    requires { progress.old.passed < amount_bound }
    ensures number { IfOk result (λ n. n ≡ number_referred_to scope.now progress.old role target.now) }
    ensures progress { IfOk result
        (λ _. progress_of progress.new ≡ recorded_one scope.now progress.old reach role target.now) }
    ensures error { IfErr result
        (λ _. IsErrorRecorded progress.new.error (recorded_one scope.now progress.old reach role target.now).error) }
    ensures passed { progress.new.passed ≡ progress.old.passed }
{
    let Ok(meaning) = meaning_after(&scope.groups, progress.passed, role, target) else {
        return Err(progress.stop(ReadError::OutOfMemory));
    };
    record_form(scope, progress, reach, role, target);
    record_meaning(scope, progress, reach, role, meaning)
}

/// Records how the reference is written: as a number, as a call, as a call of the whole pattern.
fn record_form(
    scope: &Scope,
    progress: &mut Progress,
    reach: Reach,
    role: Role,
    target: &CaptureGroupTarget,
)
    ensures progress { progress_of progress.new
        ≡ form_recorded scope.now progress.old reach role target.now }
{
    let position = position_at(scope.pattern, reach);
    if is_numeric(scope.pattern, position, role, target) {
        progress.numeric = true;
    }
    if let Role::Call = role {
        progress.calls = true;
        if let CaptureGroupTarget::ByNumber(0) = target {
            progress.self_recursive = true;
        }
    }
}

/// Records what the reference refers to, and returns its number. None for a call that refers to no group. An error is
/// recorded.
fn record_meaning(
    scope: &Scope,
    progress: &mut Progress,
    reach: Reach,
    role: Role,
    meaning: Meaning,
) -> Result<Option<usize>, Stopped>
    ensures number { IfOk result (λ n. n ≡ number_in (meaning_of meaning)) }
    ensures progress { IfOk result
        (λ _. progress_of progress.new ≡ meaning_recorded scope.now progress.old reach role meaning) }
    ensures error { IfErr result
        (λ _. IsErrorRecorded progress.new.error (meaning_recorded scope.now progress.old reach role meaning).error) }
    ensures passed { progress.new.passed ≡ progress.old.passed }
{
    match meaning {
        Meaning::Number(number) => {
            if let Role::BackReference = role {
                if scope.groups.is_in_range(number) {
                    let Ok(_) = progress.backrefs.insert(number) else {
                        return Err(progress.stop(ReadError::OutOfMemory));
                    };
                } else if progress.out_of_range.is_none() {
                    progress.out_of_range = Some(number);
                }
            }
            Ok(Some(number))
        }
        Meaning::Unresolved => Ok(None),
        Meaning::Invalid(kind) => Err(progress.stop(ReadError::At(reach, kind))),
    }
}
