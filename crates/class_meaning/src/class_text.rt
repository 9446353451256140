//! Classes as the matching engine reads them: in the syntax of the regex crate.
ghost use Rattle.std.specs.Prelude.{◌≡◌, chars, encode_utf8, IfOk, IfSome, true};
ghost use Rattle.std.specs.Char.{IsScalar};
ghost use Rattle.regex_hir.specs.Meaning.{meaning};
ghost use Rattle.regex_hir.specs.Re.{char_in};
ghost use Rattle.regex_syntax.specs.Captures.{SameCaptures};
ghost use Rattle.regex_syntax.specs.WellFormed.{IsWellFormed};
ghost use Rattle.class_meaning.specs.ClassMeaning.{class_config, IsMeaningOf, HasSpanIn};

use crate::ClassError;
use crate::character_set::CharacterSet;
use regex_hir::Hir;
use regex_syntax::{Config, ErrorKind, Flags, parse};
use std::alloc::{AllocError, Global};

/// What the engine makes of a node that may match one character.
#[derive(Debug, Drop)]
pub enum ClassMeaning {
    /// The node matches exactly one character: any of these, and no other.
    Characters(CharacterSet),
    /// The engine refuses the node, so it builds no pattern that has it. The positions are byte offsets in the class's
    /// text.
    Refused(ClassError),
    /// The node does not match one character, or the crate does not see that it does. The engine reads `[0-[a]b]`, for
    /// example, as a class and two characters.
    NotOneCharacter,
}

/// The character, if the bytes are the text of one.
fn only_char(bytes: &[u8]) -> Option<char>
    ensures { IfSome result (λ c. IsScalar c × (bytes.now ≡ encode_utf8 c)) }
{
    let text = str::from_utf8(bytes).ok()?;
    let mut chars = text.chars();
    let c = chars.next()?;
    match chars.next() {
        Some(_) => None,
        None => Some(c),
    }
}

/// The characters that the tree matches, if its root is a class or one character.
fn characters(alloc: Global, hir: Hir) -> Result<Option<CharacterSet>, AllocError>
    requires formed { IsWellFormed true hir }
    ensures { IfOk result (λ found. IfSome found (λ set. SameCaptures (char_in set.class.ranges.items) (meaning hir))) }
{
    match hir {
        Hir::Chars(class) => Ok(Some(CharacterSet::new(class)?)),
        Hir::Bytes(class) => Ok(Some(CharacterSet::new(class)?)),
        Hir::Literal(bytes) => match only_char(&bytes) {
            Some(c) => Ok(Some(CharacterSet::of_char(alloc, c)?)),
            None => Ok(None),
        },
        Hir::Empty
        | Hir::Look(_)
        | Hir::Repetition { .. }
        | Hir::Capture { .. }
        | Hir::Concat(_)
        | Hir::Alternation(_) => Ok(None),
    }
}

/// What the engine makes of a pattern.
pub(crate) fn read(alloc: Global, text: &str, config: &Config) -> Result<ClassMeaning, AllocError>
    requires utf8 { config.now.utf8 ≡ true }
    ensures meaning { IfOk result (IsMeaningOf config.now (chars text.now)) }
    ensures span { IfOk result (HasSpanIn text.now) }
{
    match parse(alloc, text, config) {
        Ok(parsed) => match characters(alloc, parsed.hir)? {
            Some(set) => Ok(ClassMeaning::Characters(set)),
            None => Ok(ClassMeaning::NotOneCharacter),
        },
        Err(error) => match error.kind {
            ErrorKind::OutOfMemory => Err(AllocError),
            _ => Ok(ClassMeaning::Refused(error)),
        },
    }
}

/// The configuration for a class.
pub(crate) fn config(unicode: bool, casei: bool) -> Config
    ensures { result ≡ class_config unicode casei }
{
    Config {
        flags: Flags {
            case_insensitive: casei,
            unicode,
            ..Flags::default()
        },
        ..Config::default()
    }
}

/// What the engine makes of a class: `[a-z]`, `\d`, `\p{Greek}`.
pub fn characters_of_class(
    alloc: Global,
    class: &str,
    casei: bool,
    unicode: bool,
) -> Result<ClassMeaning, AllocError>
    ensures meaning { IfOk result (IsMeaningOf (class_config unicode casei) (chars class.now)) }
    ensures span { IfOk result (HasSpanIn class.now) }
{
    read(alloc, class, &config(unicode, casei))
}
