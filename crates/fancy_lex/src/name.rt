//! What a reference refers to, and how it is written: numbers, ids, and names in delimiters.
ghost use Rattle.std.specs.Prelude.{◌↔◌, IsTrue, ◌≡◌, IfOk, false, IsOk};
ghost use Rattle.std.specs.Cmp.{on_per, on_equiv, partial_equiv_from_equiv};
ghost use Rattle.fancy_lex.specs.Target.{is_by_name, same_target, same_target-equiv};
ghost use Rattle.fancy_lex.specs.NameViews.{view_target};

pub mod delimited;
pub mod id;
pub mod number;
pub mod number_text;
pub mod target;

use crate::text::is_same_text;
use std::alloc::{AllocError, Global};

/// The group that a reference refers to, before it is resolved.
#[derive(Debug, Drop)]
pub enum CaptureGroupTarget {
    /// By number: `\1`. 0 is the whole pattern.
    ByNumber(usize),
    /// By name: `\k<n>`. If several groups have the name, it is the last of them; a subroutine call is then not
    /// resolved.
    ByName(String),
    /// Relative to the reference: -1 is the last group that opens before it, `\k<-1>`, and 1 the first that opens after
    /// it. A pattern cannot have 0 here.
    Relative(isize),
}

impl CaptureGroupTarget {
    /// Returns an equal target, or `AllocError` if out of memory, which can only happen for a name.
    pub fn clone(&self, alloc: Global) -> Result<Self, AllocError>
        ensures equal { IfOk result (λ target. view_target target ≡ view_target self.now) }
        ensures without_memory { is_by_name (view_target self.now) ≡ false → IsOk result }
    {
        match self {
            CaptureGroupTarget::ByNumber(number) => Ok(CaptureGroupTarget::ByNumber(*number)),
            CaptureGroupTarget::ByName(name) => Ok(CaptureGroupTarget::ByName(String::from_str(
                alloc,
                name.as_str(),
            )?)),
            CaptureGroupTarget::Relative(amount) => Ok(CaptureGroupTarget::Relative(*amount)),
        }
    }
}

impl PartialEq for CaptureGroupTarget {
    ghost eq = { λ a b. same_target (view_target a) (view_target b) };

    ghost laws = { on_per view_target (partial_equiv_from_equiv same_target-equiv) };

    fn eq(&self, other: &CaptureGroupTarget) -> bool
        ensures value { result ≡ same_target (view_target self.now) (view_target other.now) }
        ensures decides { IsTrue result ↔ (view_target self.now ≡ view_target other.now) }
    {
        is_same_target(self, other)
    }
}

impl Eq for CaptureGroupTarget {
    ghost laws = { on_equiv view_target same_target-equiv };
}

/// Whether two targets are the same.
fn is_same_target(a: &CaptureGroupTarget, b: &CaptureGroupTarget) -> bool
    ensures { result ≡ same_target (view_target a.now) (view_target b.now) }
{
    match a {
        CaptureGroupTarget::ByNumber(a) => match b {
            CaptureGroupTarget::ByNumber(b) => a == b,
            _ => false,
        },
        CaptureGroupTarget::ByName(a) => match b {
            CaptureGroupTarget::ByName(b) => is_same_text(a.as_str(), b.as_str()),
            _ => false,
        },
        CaptureGroupTarget::Relative(a) => match b {
            CaptureGroupTarget::Relative(b) => a == b,
            _ => false,
        },
    }
}
