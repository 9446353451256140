//! The rules of `lint`.
ghost use Rattle.std.specs.Prelude.{◌≡◌, ◌≢◌, if◌then◌else◌, true, false, MatchOption, ◌<◌, length, slice_index_or};
ghost use Rattle.lint_rules.specs.Rules.{rule_name};
ghost use Rattle.lint_rules.specs.Chosen.{default_level, number};
ghost use Rattle.lint_rules.specs.declared.rule.Rule.{Rule};
ghost use Rattle.lint_rules.specs.declared.rule.RuleRow.{RuleRow};

use crate::chosen::Level;
use pattern_fixes::edit::FixKind;
use patterns_text::error::RunError;
use std::io::Write;

/// A rule: what may be wrong with a pattern that is accepted. Its row in `RULES` says what.
#[derive(Debug, Clone, Copy, PartialEq, Eq)]
pub enum Rule {
    MissingGroup,
    MissingConditionGroup,
    MissingBeginGroup,
    MissingCaptureGroup,
    UselessBackreference,
    UnresolvedCall,
    NumberedReference,
    DuplicateGroupName,
    UnusedCapturingGroup,
    DuplicateBranch,
    UnreachableBranch,
    UnusedEscape,
    EmptyBranch,
    QuantifiedAssertion,
    ImpossibleAssertion,
    UselessLookAround,
    EmptyLoop,
    LazyAtEnd,
    InvalidQuantifier,
    UselessQuantifier,
    ZeroQuantifier,
    ExponentialBacktracking,
    PolynomialBacktracking,
    QuadraticSearch,
    UselessFlag,
    SingleCharacterClass,
    InvalidClass,
    EmptyClass,
    DuplicateCharacters,
    CharactersInEscape,
    SuspiciousClass,
    SuspiciousRange,
    HyphenRange,
    SubsumedBranch,
    DialectDifference,
}

/// A pattern of a program, with a mistake.
#[derive(Clone, Copy)]
pub struct Found {
    pub pattern: &'static str,
    /// The pattern without the mistake.
    pub instead: &'static str,
}

/// What is known of a rule.
#[derive(Clone, Copy)]
pub struct RuleRow {
    pub rule: Rule,
    /// Its name, as options and reports have it: words in lower case with hyphens.
    pub name: &'static str,
    /// What its reports are by default.
    pub level: Level,
    /// Whether it is silent by default for patterns that are texts of JSON.
    pub is_silent_in_json: bool,
    /// What it reports.
    pub what: &'static str,
    /// A pattern that it reports; of a rule on grammars, an object of JSON.
    pub example: &'static str,
    /// What to do about a report.
    pub help: &'static str,
    /// Patterns of programs that it reports.
    pub found: &'static [Found],
    /// How its reports are fixed; none if there is no plain edit.
    pub fix: Option<FixKind>,
}

/// What a row has where it says nothing else: the rule warns, and no edit fixes its reports.
const WARNS: RuleRow = RuleRow {
    rule: Rule::MissingGroup,
    name: "",
    level: Level::Warn,
    is_silent_in_json: false,
    what: "",
    example: "",
    help: "",
    found: &[],
    fix: None,
};

/// All rules, in the order in which they are listed, which is that of the variants of `Rule`.
pub static RULES: [RuleRow; 35] = [
    RuleRow {
        rule: Rule::MissingGroup,
        name: "missing-group",
        level: Level::Deny,
        what: "a back reference to a group that the pattern does not have",
        example: r"(a)\2",
        help: "correct the number, or remove it: no engine is built from a pattern that has it",
        ..WARNS
    },
    RuleRow {
        rule: Rule::MissingConditionGroup,
        name: "missing-condition-group",
        what: "a condition on a group that the pattern does not have",
        example: r"(?(2)a|b)(x)",
        help: "correct the number, or remove the condition",
        ..WARNS
    },
    RuleRow {
        rule: Rule::MissingBeginGroup,
        name: "missing-begin-group",
        what: "in a grammar, a back reference of end or while to a group that begin does not have",
        example: r#"{"begin": "(a)", "end": "\\2"}"#,
        help: "it matches only the empty text: correct the number, or remove it",
        ..WARNS
    },
    RuleRow {
        rule: Rule::MissingCaptureGroup,
        name: "missing-capture-group",
        what: "in a grammar, a number in captures that is above the number of groups",
        example: r#"{"match": "(a)", "captures": {"2": {}}}"#,
        help: "correct the number, or remove it",
        ..WARNS
    },
    RuleRow {
        rule: Rule::UselessBackreference,
        name: "useless-backreference",
        what: "a back reference to a group that cannot have matched yet",
        example: r"\1(a)",
        help: "move it after the group, or make it a subroutine call",
        found: &[Found {
            pattern: r"\0$",
            instead: r"\x00$",
        }],
        ..WARNS
    },
    RuleRow {
        rule: Rule::UnresolvedCall,
        name: "unresolved-call",
        level: Level::Deny,
        what: "a subroutine call that refers to no group, or is by a name that several groups have",
        example: r"(?<a>x)\g<b>",
        help: "call a group by its number, or by a name that one group has",
        ..WARNS
    },
    RuleRow {
        rule: Rule::NumberedReference,
        name: "numbered-reference",
        level: Level::Deny,
        what: "under the flag n, a back reference or a call by a number beside groups with a name",
        example: r"(?<a>x)\1",
        help: "refer to the group by its name: no engine is built from a pattern that has it",
        ..WARNS
    },
    RuleRow {
        rule: Rule::DuplicateGroupName,
        name: "duplicate-group-name",
        what: "a name of several groups that can take part in the same match",
        example: r"(?<a>x)(?<a>y)",
        help: "give each group a name of its own; a reference by the name means the last group",
        ..WARNS
    },
    RuleRow {
        rule: Rule::UnusedCapturingGroup,
        name: "unused-capturing-group",
        level: Level::Allow,
        what: "a group without a name that nothing refers to, beside groups with a name",
        example: r"(?<a>x)(y)",
        help: "give it a name, or write it as (?:...)",
        ..WARNS
    },
    RuleRow {
        rule: Rule::DuplicateBranch,
        name: "duplicate-branch",
        what: "a branch that is equal to an earlier one",
        example: r"a|b|a",
        help: "remove it",
        found: &[Found {
            pattern: r"(repeat|until|then|true|false|var|struct|typedef|export|auto|extern|var|static)\b",
            instead: r"(repeat|until|then|true|false|var|struct|typedef|export|auto|extern|static)\b",
        }],
        fix: Some(FixKind::DuplicateBranch),
        ..WARNS
    },
    RuleRow {
        rule: Rule::UnreachableBranch,
        name: "unreachable-branch",
        what: "a branch that never matches, since an earlier one matches wherever it would, and nothing follows",
        example: r"#(?:if|ifdef)",
        help: "put longer branches first, or remove them",
        found: &[
            Found {
                pattern: r"[{}.]|\.\.",
                instead: r"\.\.|[{}.]",
            },
            Found {
                pattern: r"[-+*/%^|&]|\*\*|\|\|",
                instead: r"\*\*|\|\||[-+*/%^|&]",
            },
        ],
        ..WARNS
    },
    RuleRow {
        rule: Rule::UnusedEscape,
        name: "unused-escape",
        what: "an escape in a loop, of which an earlier branch matches the backslash",
        example: r#""(?:[^"]|\\")*""#,
        help: "add the backslash to the characters that the earlier branch excludes",
        found: &[Found {
            pattern: r#""([^"]|\\")*""#,
            instead: r#""([^"\\]|\\")*""#,
        }],
        ..WARNS
    },
    RuleRow {
        rule: Rule::EmptyBranch,
        name: "empty-branch",
        what: "an empty branch between others",
        example: r"a||b",
        help: "remove a bar, or put the empty branch first or last",
        ..WARNS
    },
    RuleRow {
        rule: Rule::QuantifiedAssertion,
        name: "quantified-assertion",
        what: "a quantifier on what matches only the empty text",
        example: r"(?:^|\b)*a",
        help: "remove the quantifier",
        ..WARNS
    },
    RuleRow {
        rule: Rule::ImpossibleAssertion,
        name: "impossible-assertion",
        what: "an assertion that never holds, by the characters beside it",
        example: r"a^b",
        help: r"remove it, or write it so that it is the character, as `\$`, or `<` for `\<`",
        found: &[Found {
            pattern: r"\]\]\>",
            instead: r"\]\]>",
        }],
        ..WARNS
    },
    RuleRow {
        rule: Rule::UselessLookAround,
        name: "useless-look-around",
        what: "a look-around whose contents match everywhere, since they may be empty",
        example: r"a(?=b*)c",
        help: "let its contents match at least one character, or remove it",
        found: &[Found {
            pattern: r"(?=[\s]*)(\w+)(?=[\s]*=)",
            instead: r"(\w+)(?=[\s]*=)",
        }],
        ..WARNS
    },
    RuleRow {
        rule: Rule::EmptyLoop,
        name: "empty-loop",
        what: "an unlimited quantifier on what can match the empty text",
        example: r"(?:a*)*",
        help: "let each repetition match at least one character",
        ..WARNS
    },
    RuleRow {
        rule: Rule::LazyAtEnd,
        name: "lazy-at-end",
        what: "a lazy quantifier at the end, which repeats only its minimum",
        example: r"#.*?",
        help: "make it greedy, or write after it what ends the match, as `$`",
        found: &[Found {
            pattern: r#"[^"`$]+?"#,
            instead: r#"[^"`$]+"#,
        }],
        ..WARNS
    },
    RuleRow {
        rule: Rule::InvalidQuantifier,
        name: "invalid-quantifier",
        level: Level::Deny,
        what: "a quantifier whose minimum is above its maximum",
        example: r"a{3,2}",
        help: "write the smaller number first",
        ..WARNS
    },
    RuleRow {
        rule: Rule::UselessQuantifier,
        name: "useless-quantifier",
        what: "a quantifier that repeats exactly once",
        example: r"a{1}",
        help: "remove the quantifier",
        found: &[Found {
            pattern: r".+[0-9a-zA-Z]{1}$",
            instead: r".+[0-9a-zA-Z]$",
        }],
        fix: Some(FixKind::UselessQuantifier),
        ..WARNS
    },
    RuleRow {
        rule: Rule::ZeroQuantifier,
        name: "zero-quantifier",
        what: "a quantifier that repeats zero times",
        example: r"ab{0}",
        help: "remove the quantifier with its operand",
        ..WARNS
    },
    RuleRow {
        rule: Rule::ExponentialBacktracking,
        name: "exponential-backtracking",
        what: "a repeat that can match a text in exponentially many ways, if what follows can fail",
        example: r"(a+)+b",
        help: "make it possessive or atomic, or let its parts match different characters",
        found: &[Found {
            pattern: r#"@"(\\.|.)*?""#,
            instead: r#"@"(\\.|[^"\\])*""#,
        }],
        ..WARNS
    },
    RuleRow {
        rule: Rule::PolynomialBacktracking,
        name: "polynomial-backtracking",
        level: Level::Allow,
        what: "two repeats that can share a text in many ways, if what follows can fail",
        example: r"\d+\d+x",
        help: "make the first one possessive or atomic, or let the two, or what is between them, match different characters",
        ..WARNS
    },
    RuleRow {
        rule: Rule::QuadraticSearch,
        name: "quadratic-search",
        level: Level::Allow,
        what: "a repeat that a search goes through again from each start, if what follows can fail",
        example: r"\s+$",
        help: r"let no match begin inside it: write (?<!\s)\s+$ for \s+$, or anchor it, or limit the repeat",
        found: &[Found {
            pattern: r"^\s+|\s+$",
            instead: r"^\s+|(?<!\s)\s+$",
        }],
        ..WARNS
    },
    RuleRow {
        rule: Rule::UselessFlag,
        name: "useless-flag",
        is_silent_in_json: true,
        what: "a flag that is set although it is set already",
        example: r"(?i)a(?i:b)",
        help: "remove the flag",
        fix: Some(FixKind::UselessFlag),
        ..WARNS
    },
    RuleRow {
        rule: Rule::SingleCharacterClass,
        name: "single-character-class",
        what: "a class of one letter or digit",
        example: r"[a]b",
        help: "write the character without brackets",
        found: &[Found {
            pattern: r#"[E]?""#,
            instead: r#"E?""#,
        }],
        fix: Some(FixKind::SingleCharacterClass),
        ..WARNS
    },
    RuleRow {
        rule: Rule::InvalidClass,
        name: "invalid-class",
        level: Level::Deny,
        what: "a class or a property that the matching engine refuses",
        example: r"[z-a]",
        help: "correct it: no engine is built from a pattern that has it",
        ..WARNS
    },
    RuleRow {
        rule: Rule::EmptyClass,
        name: "empty-class",
        what: "a class that contains no character",
        example: r"[a&&b]",
        help: "it never matches: correct it, or write `(?!)`",
        ..WARNS
    },
    RuleRow {
        rule: Rule::DuplicateCharacters,
        name: "duplicate-characters",
        what: "characters in a class that the rest of the class contains already",
        example: r"[a-zc]",
        help: "remove them",
        found: &[Found {
            pattern: r"[//'].*$",
            instead: r"[/'].*$",
        }],
        fix: Some(FixKind::DuplicateCharacters),
        ..WARNS
    },
    RuleRow {
        rule: Rule::CharactersInEscape,
        name: "characters-in-escape",
        level: Level::Allow,
        what: "characters in a class that an escape in it contains already",
        example: r"[\w_]",
        help: "remove them",
        fix: Some(FixKind::DuplicateCharacters),
        ..WARNS
    },
    RuleRow {
        rule: Rule::SuspiciousClass,
        name: "suspicious-class",
        what: "a class with needless characters that looks like alternatives, a word or a POSIX class",
        example: r"[get|set]",
        help: "write each character once, or what is meant",
        found: &[Found {
            pattern: r"[\+|\-]",
            instead: r"[+\-]",
        }],
        ..WARNS
    },
    RuleRow {
        rule: Rule::SuspiciousRange,
        name: "suspicious-range",
        level: Level::Allow,
        what: "a range from one kind of character to another",
        example: r"[A-z]",
        help: "write a range for each kind, as in `A-Za-z`, or a backslash before the hyphen",
        ..WARNS
    },
    RuleRow {
        rule: Rule::HyphenRange,
        name: "hyphen-range",
        what: "a range between punctuation that is likely meant as a hyphen",
        example: r"[+-/]",
        help: "write a backslash before the hyphen, or put the hyphen last",
        found: &[Found {
            pattern: r"def(?=[*%&^`~+-/\[<>=])",
            instead: r"def(?=[*%&^`~+\-/\[<>=])",
        }],
        ..WARNS
    },
    RuleRow {
        rule: Rule::SubsumedBranch,
        name: "subsumed-branch",
        what: "a branch of one character that another branch matches too",
        example: r"\d|\w",
        help: "remove what the other branch matches too",
        found: &[Found {
            pattern: r"(\s)(//[^/]+//)((?=\W|\n))",
            instead: r"(\s)(//[^/]+//)((?=\W))",
        }],
        ..WARNS
    },
    RuleRow {
        rule: Rule::DialectDifference,
        name: "dialect-difference",
        level: Level::Allow,
        what: "what other dialects of regular expressions read otherwise",
        example: r"\h",
        help: "write it so that every dialect reads the same",
        ..WARNS
    },
];

/// All rules. The row of each is at its number.
pub(crate) fn all_rules() -> &'static [RuleRow]
    ensures within { (rule : Rule) → number rule < length result.now }
    ensures rows { (rule : Rule) (d : RuleRow) → (slice_index_or result.now (number rule) d).rule ≡ rule }
{
    &RULES
}

impl Rule {
    /// The row of the rule.
    pub fn row(self) -> &'static RuleRow
        ensures rule { result.now.rule ≡ self }
        ensures name { result.now.name.now ≡ rule_name self }
        ensures in_json { (if result.now.is_silent_in_json then Level.Allow else result.now.level) ≡ default_level true self }
        ensures level { result.now.level ≡ default_level false self }
    {
        &RULES[self as usize]
    }

    /// What its reports are by default; of patterns that are texts of JSON, if they are such.
    pub(crate) fn default_level(self, is_json: bool) -> Level
        ensures { result ≡ default_level is_json self }
    {
        let row = self.row();
        if is_json && row.is_silent_in_json {
            Level::Allow
        } else {
            row.level
        }
    }

    /// The rule's name.
    pub fn name(self) -> &'static str
        ensures { result.now ≡ rule_name self }
    {
        self.row().name
    }

    /// The rule of this name; none if no rule has it.
    pub fn named(name: &str) -> Option<Rule>
        ensures { MatchOption result ((rule : Rule) → rule_name rule ≢ name.now) (λ rule. rule_name rule ≡ name.now) }
    {
        for row in all_rules() {
            if row.rule.name() == name {
                return Some(row.rule);
            }
        }
        None
    }
}

impl RuleRow {
    /// Writes the rule in two lines: the name, what the rule reports, an example, what its reports are by default, and
    /// whether `--fix` fixes them; and what to do about a report.
    fn write<O: Write>(&self, out: &mut O) -> Result<(), RunError> {
        let RuleRow {
            name,
            what,
            example,
            help,
            ..
        } = self;
        let level = self.level.name();
        let in_json = if self.is_silent_in_json {
            ", off in JSON"
        } else {
            ""
        };
        let fixed = if self.fix.is_some() { ", fixed" } else { "" };
        writeln!(
            out,
            "{name}: {what}, as in {example} [{level}{in_json}{fixed}]\n  help: {help}"
        )?;
        Ok(())
    }

    /// Writes the rule to `out`, and the patterns of programs.
    pub fn explain<O: Write>(&self, out: &mut O) -> Result<(), RunError> {
        self.write(out)?;
        for Found { pattern, instead } in self.found {
            writeln!(out, "  found: {pattern}\n  write: {instead}")?;
        }
        Ok(())
    }
}

/// Writes the rules to `out`, two lines each.
pub fn write_rules<O: Write>(out: &mut O) -> Result<(), RunError> {
    for row in RULES.iter() {
        row.write(out)?;
    }
    Ok(())
}
