//! How a reference is written: as a number, or not.
ghost use Rattle.std.specs.Prelude.{◌≡◌, chars};
ghost use Rattle.fancy_lex.specs.NameViews.{view_target};
ghost use Rattle.fancy_grammar.specs.Groups.{role_of};
ghost use Rattle.fancy_grammar.specs.Written as spec;

use crate::ranks::Role;
use fancy_lex::name::CaptureGroupTarget;

/// Whether a reference at this position of the pattern counts as numeric: a call by a number, and a back reference by a
/// number directly after its backslash.
pub fn is_numeric(pattern: &str, position: usize, role: Role, target: &CaptureGroupTarget) -> bool
    ensures { result ≡ spec.is_numeric (chars pattern.now) position (role_of role) (view_target target.now) }
{
    let CaptureGroupTarget::ByNumber(_) = target else {
        return false;
    };
    match role {
        Role::Call => true,
        Role::BackReference => is_after_backslash(pattern, position),
        Role::Condition => false,
    }
}

/// Whether there is a backslash directly before the position.
fn is_after_backslash(pattern: &str, position: usize) -> bool
    ensures { result ≡ spec.is_after_backslash (chars pattern.now) position }
{
    let bytes = pattern.as_bytes();
    if position == 0 {
        return false;
    }
    let before = position - 1;
    if before >= bytes.len() {
        return false;
    }
    bytes[before] == b'\\'
}
