//! The spellings that are valid here, and that other dialects read otherwise.
use crate::dialect::{DIALECT_NAMES, Dialect};
use std::fmt;

/// What is spelled so that another dialect reads something else.
#[derive(Debug, Clone, Copy, PartialEq, Eq)]
pub enum Difference {
    /// `\h` or `\H`.
    HexadecimalDigit,
    /// `\v`.
    VerticalTab,
    /// `\<` or `\>`.
    WordBoundary,
    /// `\Z`.
    EndOfText,
    /// `\N` before a brace that is a literal.
    NamedCharacter,
    /// `\A`, `\a` and other letters that JavaScript reads as they are.
    EscapedLetter,
    /// `\N`.
    AnyButLineFeed,
    /// `\O`.
    AnyCharacter,
    /// `\g1`.
    NumberedCall,
    /// `(?(word)..)`.
    WordCondition,
    /// `(?R)`.
    RecursionFlag,
    /// The flag `U`.
    GreedFlag,
    /// The flag `m` in Oniguruma mode.
    LineFlag,
    /// `a{1,2}+` in Oniguruma mode.
    RepeatedBraces,
    /// `a{,2}`.
    MissingCount,
    /// `$+` before a brace that is a literal.
    MatchedName,
    /// `[]a]`.
    ClosingBracket,
    /// `[a[b]]`.
    NestedClass,
    /// `[a&&b]`.
    Intersection,
}

/// What some dialects read where there is something else here.
#[derive(Clone, Copy)]
struct Reading {
    what: &'static str,
    dialects: &'static [Dialect],
}

/// What is known of a difference.
#[derive(Clone, Copy)]
struct DifferenceRow {
    /// What is spelled so, and what it is here.
    here: &'static str,
    /// What it is elsewhere.
    readings: &'static [Reading],
    /// What to write, so that every dialect that has it reads the same.
    advice: &'static str,
}

const ALL: &[Dialect] = &[
    Dialect::Java,
    Dialect::JavaScript,
    Dialect::Oniguruma,
    Dialect::Pcre,
    Dialect::Perl,
    Dialect::Python,
    Dialect::Ruby,
];

const JAVA_PCRE_PERL: &[Dialect] = &[Dialect::Java, Dialect::Pcre, Dialect::Perl];

const PCRE_PERL: &[Dialect] = &[Dialect::Pcre, Dialect::Perl];

const NO_CLASS_OPERATORS: &[Dialect] = &[
    Dialect::JavaScript,
    Dialect::Pcre,
    Dialect::Perl,
    Dialect::Python,
];

/// The rows of all differences, in the order of the variants.
static ROWS: [DifferenceRow; 19] = [
    DifferenceRow {
        here: r"`\h` and `\H` are about hexadecimal digits",
        readings: &[
            Reading {
                what: "about blanks",
                dialects: JAVA_PCRE_PERL,
            },
            Reading {
                what: "these letters",
                dialects: &[Dialect::JavaScript],
            },
        ],
        advice: r"write `[0-9A-Fa-f]` for a hexadecimal digit, or `[ \t]` for a blank",
    },
    DifferenceRow {
        here: r"`\v` is the vertical tab",
        readings: &[Reading {
            what: "any vertical whitespace",
            dialects: JAVA_PCRE_PERL,
        }],
        advice: r"write `\x0B` for the vertical tab, or `\R` for a line break",
    },
    DifferenceRow {
        here: r"`\<` and `\>` are the start and the end of a word",
        readings: &[Reading {
            what: "these characters",
            dialects: ALL,
        }],
        advice: r"write `\b(?=\w)` for the start of a word, `\b(?<=\w)` for the end, or the character without the backslash",
    },
    DifferenceRow {
        here: r"`\Z` allows any number of line feeds after it",
        readings: &[
            Reading {
                what: "at most one",
                dialects: JAVA_PCRE_PERL,
            },
            Reading {
                what: "none",
                dialects: &[Dialect::Python],
            },
            Reading {
                what: "is the letter",
                dialects: &[Dialect::JavaScript],
            },
        ],
        advice: r"write `\z` for the end of the text, or `(?=\n?\z)` to allow a line feed after it",
    },
    DifferenceRow {
        here: r"`\N` is any character but a line feed",
        readings: &[Reading {
            what: r"`\N{..}` is a character by its name",
            dialects: &[Dialect::Perl, Dialect::Python],
        }],
        advice: r"write the code of the character, as in `\x{2014}`, or `\{` for the brace",
    },
    DifferenceRow {
        here: "the backslash makes the letter an escape",
        readings: &[Reading {
            what: "leaves it a letter",
            dialects: &[Dialect::JavaScript],
        }],
        advice: r"write `^` or `$` for the start or the end of the text, or the code of the character, as `\x1B`",
    },
    DifferenceRow {
        here: r"`\N` is any character but a line feed",
        readings: &[Reading {
            what: "the letter",
            dialects: &[Dialect::JavaScript, Dialect::Ruby],
        }],
        advice: r"write `[^\n]`",
    },
    DifferenceRow {
        here: r"`\O` is any character",
        readings: &[Reading {
            what: "the letter",
            dialects: &[Dialect::JavaScript, Dialect::Perl, Dialect::Ruby],
        }],
        advice: r"write `[\s\S]`",
    },
    DifferenceRow {
        here: r"`\g` and digits call a group",
        readings: &[
            Reading {
                what: "are a back reference",
                dialects: PCRE_PERL,
            },
            Reading {
                what: "are these characters",
                dialects: &[Dialect::JavaScript],
            },
        ],
        advice: r"write `\1` for a back reference to group 1, or `\g<1>` for a call",
    },
    DifferenceRow {
        here: "the condition is this text",
        readings: &[Reading {
            what: "is about the group of this name",
            dialects: &[Dialect::Pcre, Dialect::Python],
        }],
        advice: "write `(?(<name>)..)` for a condition on a group",
    },
    DifferenceRow {
        here: "`(?R)` sets the flag R",
        readings: &[Reading {
            what: "calls the whole pattern",
            dialects: PCRE_PERL,
        }],
        advice: r"write `\g<0>` to call the whole pattern",
    },
    DifferenceRow {
        here: "the flag U swaps greedy and lazy quantifiers",
        readings: &[Reading {
            what: "is about Unicode",
            dialects: &[Dialect::Java],
        }],
        advice: "write a `?` after each lazy quantifier",
    },
    DifferenceRow {
        here: "the flag m is about `^` and `$`",
        readings: &[Reading {
            what: "lets `.` match a line feed",
            dialects: &[Dialect::Oniguruma, Dialect::Ruby],
        }],
        advice: "write the flag s for a `.` that matches a line feed",
    },
    DifferenceRow {
        here: "`+` after braces is another quantifier",
        readings: &[Reading {
            what: "makes the braces possessive",
            dialects: JAVA_PCRE_PERL,
        }],
        advice: "write `(?>a{1,2})` for possessive braces, or `(?:a{1,2})+` for both quantifiers",
    },
    DifferenceRow {
        here: "braces without a lower count are a quantifier",
        readings: &[Reading {
            what: "these characters",
            dialects: &[Dialect::JavaScript],
        }],
        advice: r"write the lower count, as in `{0,2}`, or `\{` for the brace",
    },
    DifferenceRow {
        here: "`$+` is a quantified assertion",
        readings: &[Reading {
            what: "`$+{name}` is what a group matched",
            dialects: &[Dialect::Perl],
        }],
        advice: r"write `\k<name>` for a back reference",
    },
    DifferenceRow {
        here: "`]` is the first character of the class",
        readings: &[Reading {
            what: "ends an empty class",
            dialects: &[Dialect::JavaScript],
        }],
        advice: r"write `\]` for the character",
    },
    DifferenceRow {
        here: "`[` opens a class in the class",
        readings: &[Reading {
            what: "is a character",
            dialects: NO_CLASS_OPERATORS,
        }],
        advice: r"write `\[` for the character",
    },
    DifferenceRow {
        here: "`&&` is an intersection",
        readings: &[Reading {
            what: "two characters",
            dialects: NO_CLASS_OPERATORS,
        }],
        advice: r"write one `\&` for the character",
    },
];

/// Names of dialects, as in a sentence.
#[derive(Clone, Copy)]
struct Listed(&'static [Dialect]);

impl fmt::Display for Listed {
    fn fmt<W: fmt::Write>(&self, f: &mut fmt::Formatter<W>) -> fmt::Result {
        let Listed(dialects) = *self;
        if dialects.len() == DIALECT_NAMES.len() {
            return f.write_str("every other dialect");
        }
        for (index, dialect) in dialects.iter().enumerate() {
            let before = if index == 0 {
                ""
            } else if index.saturating_add(1) == dialects.len() {
                " and "
            } else {
                ", "
            };
            write!(f, "{before}{dialect}")?;
        }
        Ok(())
    }
}

impl Difference {
    fn row(self) -> &'static DifferenceRow {
        &ROWS[self as usize]
    }

    /// What to write, so that every dialect that has it reads the same.
    pub fn advice(self) -> &'static str {
        self.row().advice
    }

    /// Whether the dialect is one of those that read it otherwise.
    pub fn is_of(self, dialect: Dialect) -> bool {
        self.row()
            .readings
            .iter()
            .any(|reading| reading.dialects.contains(&dialect))
    }
}

/// What it is here, and what other dialects read.
impl fmt::Display for Difference {
    fn fmt<W: fmt::Write>(&self, f: &mut fmt::Formatter<W>) -> fmt::Result {
        let row = self.row();
        write!(f, "{} here", row.here)?;
        for (index, reading) in row.readings.iter().enumerate() {
            let is_last = index.saturating_add(1) == row.readings.len();
            let before = if is_last { ", and " } else { ", " };
            write!(
                f,
                "{before}{} in {}",
                reading.what,
                Listed(reading.dialects)
            )?;
        }
        Ok(())
    }
}
