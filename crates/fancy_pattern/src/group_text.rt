//! Groups.
ghost use Rattle.std.specs.Prelude.{◌≡◌, ◌++◌, codes, true, nat_lt, OnOk};
ghost use Rattle.std.specs.List.{list_all};
ghost use Rattle.fancy_grammar.specs.Pattern as spec;
ghost use Rattle.fancy_pattern.specs.TextOutput.{Added};
ghost use Rattle.fancy_pattern.specs.Writers.{Moves, Leaves};

use crate::context::Context;
use crate::output::{TextOutput, put_ascii};
use fancy_syntax::expr::LookAround;
use std::alloc::AllocError;

/// Writes the opening of a group, and enters the group.
pub(crate) fn open(
    out: &mut TextOutput,
    opening: &str,
    context: &mut Context,
) -> Result<(), AllocError>
    requires { list_all (λ b. nat_lt b 128) opening.now ≡ true }
    ensures { OnOk result (Added out.old out.new (codes "(" ++ opening.now)
        × Moves context.old context.new spec.deeper) }
{
    context.enter();
    out.put('(')?;
    put_ascii(out, opening)
}

/// Closes the group that is at `outside`, and leaves it.
pub(crate) fn close(
    out: &mut TextOutput,
    outside: &Context,
    context: &mut Context,
) -> Result<(), AllocError>
    ensures { OnOk result (Added out.old out.new (codes ")")
        × Leaves outside.now context.old context.new) }
{
    context.leave(outside);
    out.put(')')
}

/// The opening of a look-around.
pub(crate) fn look_opening(look: LookAround) -> &'static str
    ensures text { spec.look_opening look ≡ result.now }
    ensures ascii { list_all (λ b. nat_lt b 128) result.now ≡ true }
{
    match look {
        LookAround::LookAhead => "?=",
        LookAround::LookAheadNeg => "?!",
        LookAround::LookBehind => "?<=",
        LookAround::LookBehindNeg => "?<!",
    }
}
