//! The dialects that a pattern may be written in.
use std::fmt;

/// A dialect of regular expressions.
#[derive(Debug, Clone, Copy, PartialEq, Eq)]
pub enum Dialect {
    Java,
    JavaScript,
    Oniguruma,
    Pcre,
    Perl,
    Python,
    Ruby,
}

/// The names of the dialects, as arguments have them.
pub const DIALECT_NAMES: &[&str] = &[
    "java",
    "javascript",
    "oniguruma",
    "pcre",
    "perl",
    "python",
    "ruby",
];

/// What a word has to be that names a dialect.
pub const DIALECT_WORD: &str = "java, javascript, oniguruma, pcre, perl, python or ruby";

impl Dialect {
    /// The dialect of this name, if there is one.
    pub fn named(name: &str) -> Option<Dialect> {
        match name {
            "java" => Some(Dialect::Java),
            "javascript" => Some(Dialect::JavaScript),
            "oniguruma" => Some(Dialect::Oniguruma),
            "pcre" => Some(Dialect::Pcre),
            "perl" => Some(Dialect::Perl),
            "python" => Some(Dialect::Python),
            "ruby" => Some(Dialect::Ruby),
            _ => None,
        }
    }
}

impl fmt::Display for Dialect {
    fn fmt<W: fmt::Write>(&self, f: &mut fmt::Formatter<W>) -> fmt::Result {
        f.write_str(match self {
            Dialect::Java => "Java",
            Dialect::JavaScript => "JavaScript",
            Dialect::Oniguruma => "Oniguruma",
            Dialect::Pcre => "PCRE",
            Dialect::Perl => "Perl",
            Dialect::Python => "Python",
            Dialect::Ruby => "Ruby",
        })
    }
}
