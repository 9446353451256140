//! The nodes of a pattern's tree that match one character.
ghost use Rattle.std.specs.Prelude.{◌≡◌, MatchOption, IfOk};
ghost use Rattle.fancy_syntax.specs.View.{view};
ghost use Rattle.class_meaning.specs.ClassMeaning.{dot_config, IsMeaningOf};
ghost use Rattle.class_meaning.specs.EnginePattern.{engine_pattern};

use crate::class_text::{ClassMeaning, characters_of_class, config, read};
use fancy_syntax::Expr;
use regex_syntax::{Config, Flags, escape};
use std::alloc::{AllocError, Global};

/// The configuration for a dot.
fn config_of_dot(unicode: bool, newline: bool, crlf: bool) -> Config
    ensures { result ≡ dot_config unicode newline crlf }
{
    Config {
        flags: Flags {
            dot_matches_new_line: newline,
            unicode,
            crlf,
            ..Flags::default()
        },
        ..Config::default()
    }
}

/// What the engine makes of the node, with Unicode, as under `FLAG_UNICODE`, or without it.
pub fn characters_of(alloc: Global, node: &Expr, unicode: bool) -> Result<ClassMeaning, AllocError>
    ensures { IfOk result (λ meaning. MatchOption (engine_pattern unicode (view node.now))
        (meaning ≡ ClassMeaning.NotOneCharacter)
        (λ (config, text). IsMeaningOf config text meaning)) }
{
    if let Expr::Delegate { inner, casei } = node {
        return characters_of_class(alloc, inner.as_str(), *casei, unicode);
    }
    if let Expr::Literal { val, casei } = node {
        let text = escape(alloc, val.as_str())?;
        return read(alloc, text.as_str(), &config(unicode, *casei));
    }
    if let Expr::Any { newline, crlf } = node {
        return read(alloc, ".", &config_of_dot(unicode, *newline, *crlf));
    }
    Ok(ClassMeaning::NotOneCharacter)
}
