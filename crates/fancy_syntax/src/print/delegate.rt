//! Whether a Delegate's text is one whole class or one whole class escape.
ghost use Rattle.std.specs.Prelude.{◌≡◌, ◌∷◌, ◌<◌, [], chars, is_some, false, IfOk};
ghost use Rattle.fancy_lex.specs.Characters.{code};
ghost use Rattle.fancy_lex.specs.declared.error.ReadError.TheVariants.{OutOfMemory};
ghost use Rattle.fancy_lex.specs.EscapeViews.{escape_of};
ghost use Rattle.fancy_grammar.specs.AtomStart.{leaf_node};
ghost use Rattle.fancy_grammar.specs.Normal.{unicode_flags, class_of, whole_of};

use fancy_lex::class::class;
use fancy_lex::error::ReadError;
use fancy_lex::escape::{Escaped, escape};
use fancy_lex::flags::Flags;
use fancy_lex::text::next;
use std::alloc::{AllocError, Global};

/// Whether the text, read under no flags, is exactly one whole class or class escape.
pub(crate) fn is_whole(alloc: Global, text: &str) -> Result<bool, AllocError>
    ensures { IfOk result (λ b. b ≡ is_some (class_of (unicode_flags false) (chars text.now))) }
{
    let Some((c, rest)) = next(text) else {
        return Ok(false);
    };
    match c {
        '[' => is_whole_class(alloc, rest),
        '\\' => is_whole_escape(alloc, rest),
        _ => Ok(false),
    }
}

/// Whether a bracket and the text are one whole class.
fn is_whole_class(alloc: Global, text: &str) -> Result<bool, AllocError>
    ensures { IfOk result (λ b. b ≡ is_some (class_of (unicode_flags false) (code "[" ∷ chars text.now))) }
{
    match class(alloc, text, Flags::from_bits(0)) {
        Ok((_, rest)) => Ok(next(rest).is_none()),
        Err(error) => is_no_class(error),
    }
}

/// Whether a backslash and the text are one whole class escape.
fn is_whole_escape(alloc: Global, text: &str) -> Result<bool, AllocError>
    ensures { IfOk result (λ b. b ≡ is_some (class_of (unicode_flags false) (code "\\" ∷ chars text.now))) }
{
    match escape(alloc, text, Flags::from_bits(0), false) {
        Ok((leaf, rest)) => Ok(is_class(leaf) && next(rest).is_none()),
        Err(error) => is_no_class(error),
    }
}

/// Whether the escape represents a class.
fn is_class(leaf: Escaped) -> bool
    ensures { result ≡ is_some (whole_of [] (leaf_node (escape_of leaf.entry))) }
{
    matches!(leaf, Escaped::Delegate { .. })
}

/// False for an error of the text; `AllocError` if memory ran out.
fn is_no_class(error: ReadError) -> Result<bool, AllocError>
    ensures no { IfOk result (λ b. b ≡ false) }
    ensures error { IfOk result (λ _. error ≡ OutOfMemory → ⊥) }
{
    match error {
        ReadError::At(..) => Ok(false),
        ReadError::OutOfMemory => Err(AllocError),
    }
}
