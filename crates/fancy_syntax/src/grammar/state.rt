//! The state of a reading, the ends of branches, and layout.
ghost use Rattle.std.specs.Prelude.{◌≡◌, ◌<◌, ◌≤◌, length, chars, IfOk};
ghost use Rattle.fancy_grammar.specs.State.{ends, skipped};
ghost use Rattle.fancy_lex.specs.Views.{Skips};
ghost use Rattle.fancy_syntax.specs.Parsed.{state, IsUnmoved};

use fancy_lex::error::ReadError;
use fancy_lex::flags::Flags;
use fancy_lex::layout::skip;
use fancy_lex::text::next;

/// The flags in effect, and the text that is still to be read.
#[derive(Clone, Copy)]
pub(crate) struct State<'a> {
    pub(crate) flags: Flags,
    pub(crate) rest: &'a str,
}

/// Whether a branch ends here: at the end, a bar or a closing parenthesis.
pub(crate) fn is_end(text: &str) -> bool
    ensures { result ≡ ends (chars text.now) }
{
    let Some((c, _)) = next(text) else {
        return true;
    };
    c == '|' || c == ')'
}

/// Reads the layout at the front: the text after it.
#[inline(always)]
pub(crate) fn skip_layout<'a>(current: State<'a>) -> Result<&'a str, ReadError>
    ensures value { Skips result (skipped (state current.entry)) }
    ensures within { IfOk result (λ r. length r.now ≤ length current.entry.rest.now) }
    ensures unmoved { IfOk result (λ r. IsUnmoved current.entry.rest.now r.now) }
{
    skip(current.rest, current.flags.ignore_space)
}
