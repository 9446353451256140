//! What is wrong with a class, or with a branch of one character.
ghost use Rattle.std.specs.Prelude.{◌≡◌};
ghost use Rattle.class_rules.specs.ClassProblems as spec;

use class_meaning::ClassErrorKind;
use fancy_syntax::span::Span;

/// The kinds of characters that a range is expected to stay within.
#[derive(Debug, Clone, Copy, PartialEq, Eq)]
pub enum CharacterKind {
    /// 0 to 9.
    Digit,
    /// A to Z.
    UpperCase,
    /// a to z.
    LowerCase,
    /// Any other character.
    Other,
}

impl CharacterKind {
    /// The kind of the character.
    pub fn of(c: char) -> CharacterKind
        ensures { result ≡ spec.character_kind c }
    {
        match c {
            '0'..='9' => CharacterKind::Digit,
            'A'..='Z' => CharacterKind::UpperCase,
            'a'..='z' => CharacterKind::LowerCase,
            _ => CharacterKind::Other,
        }
    }

    /// What messages call a character of the kind.
    pub fn name(self) -> &'static str {
        match self {
            CharacterKind::Digit => "a digit",
            CharacterKind::UpperCase => "an upper-case letter",
            CharacterKind::LowerCase => "a lower-case letter",
            CharacterKind::Other => "another character",
        }
    }
}

/// What a class is likely meant as, which has an item that can be left out.
#[derive(Debug, Clone, Copy, PartialEq, Eq)]
pub enum ClassLook {
    /// Alternatives: the class has a bar, as in `[get|set]`.
    Alternatives,
    /// A POSIX class without the brackets around it: the class begins and ends with a colon, as in `[:alpha:]`.
    PosixClass,
    /// A class whose backslashes are doubled: it has an escaped backslash twice, as in `[\\w\\s]`.
    DoubledBackslashes,
    /// A set with a range for each kind of character: one range is over several kinds, as in `[0-9a-fA-f]`.
    WideRange,
    /// A word: the class has a letter or a digit twice, as in `[http]`.
    Word,
}

impl ClassLook {
    /// What is reported of the class.
    pub fn message(self) -> &'static str {
        match self {
            ClassLook::Alternatives =>
                "class with needless characters and a bar, as if for alternatives",
            ClassLook::PosixClass => {
                "class that begins and ends with a colon, as a POSIX class without its outer brackets"
            }
            ClassLook::DoubledBackslashes =>
                r"class with `\\` twice, as if backslashes were doubled",
            ClassLook::WideRange => {
                "range over several kinds of characters, which contains other parts of the class"
            }
            ClassLook::Word => "class with a letter or a digit twice, as in a word",
        }
    }

    /// What to do about it.
    pub fn advice(self) -> &'static str {
        match self {
            ClassLook::Alternatives => {
                "write `(?:..|..)` for alternatives, or each character once without the bar"
            }
            ClassLook::PosixClass => "write `[[:..:]]` for a POSIX class, or each character once",
            ClassLook::DoubledBackslashes => {
                r"write one backslash for an escape, as in `\w`, or `\\` once for the character"
            }
            ClassLook::WideRange => {
                "write a range for each kind, as in `A-Za-z`, or a backslash before the hyphen"
            }
            ClassLook::Word => {
                "write the word without brackets if it is meant, or each character once"
            }
        }
    }
}

/// What is wrong with a class, or with a branch of one character.
#[derive(Debug, Clone, Copy, PartialEq, Eq)]
pub enum ClassProblem {
    /// The engine refuses the class, for this reason.
    Invalid(ClassErrorKind),
    /// No character is in the class.
    Empty,
    /// An item of the class whose characters the others contain.
    DuplicateCharacters,
    /// An item of the class can be left out, and the class is likely meant as something else.
    SuspiciousClass(ClassLook),
    /// A range from a character of one kind to one of another.
    SuspiciousRange {
        first: CharacterKind,
        last: CharacterKind,
    },
    /// A bar between two escapes, which are the rest of the class.
    BarBetweenEscapes,
    /// A range between punctuation that is likely meant as a hyphen.
    HyphenRange,
    /// A branch of one character that another branch contains.
    SubsumedBranch {
        /// The number of the other branch, counted from 1.
        other: usize,
        /// Where the other branch is.
        span: Span,
    },
}

/// A problem, and the part of the text that has it, in byte offsets.
#[derive(Debug, Clone, Copy, PartialEq, Eq)]
pub struct ClassFinding {
    pub span: Span,
    pub problem: ClassProblem,
}
