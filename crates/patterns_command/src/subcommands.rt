//! The subcommands: a row for each.
use crate::option::OptionRow;
use crate::options;

/// What a subcommand does with the patterns of files.
#[derive(Clone, Copy, PartialEq, Eq)]
pub(crate) enum FileVerb {
    Check,
    Lint,
    Format,
    Groups,
}

/// What a subcommand does with one pattern.
#[derive(Clone, Copy, PartialEq, Eq)]
pub(crate) enum PatternVerb {
    Tree,
    Picture,
}

/// What a subcommand does.
#[derive(Clone, Copy, PartialEq, Eq)]
pub(crate) enum Verb {
    Files(FileVerb),
    Pattern(PatternVerb),
    /// It serves an editor.
    Server,
}

/// All of them, in the order of the help.
pub(crate) static VERBS: [Verb; 7] = [
    Verb::Files(FileVerb::Check),
    Verb::Pattern(PatternVerb::Tree),
    Verb::Pattern(PatternVerb::Picture),
    Verb::Files(FileVerb::Lint),
    Verb::Files(FileVerb::Format),
    Verb::Files(FileVerb::Groups),
    Verb::Server,
];

/// A subcommand.
#[derive(Clone, Copy)]
pub(crate) struct Subcommand {
    pub(crate) name: &'static str,
    /// What it does, in a line.
    pub(crate) about: &'static str,
    /// What `--help` says of it, if that is more.
    pub(crate) long_about: Option<&'static str>,
    /// What its help begins with.
    pub(crate) example: &'static str,
    /// Its options, besides those of all subcommands over files, or of all that read one pattern.
    pub(crate) options: &'static [OptionRow],
}

/// The row of `check`.
fn check() -> Subcommand {
    Subcommand {
        name: "check",
        about: "Reports each invalid pattern, with the position and the reason",
        long_about: None,
        example: r"Example: patterns check dates.txt

  dates.txt:2:29: Opening parenthesis without closing parenthesis
  (?<year>\d{4})-(?<month>\d\d
                 -            ^
                 opened here",
        options: &options::CHECK_OPTIONS,
    }
}

/// The row of `tree`.
fn tree() -> Subcommand {
    Subcommand {
        name: "tree",
        about: "Draws the tree of a pattern, and describes its groups and references",
        long_about: None,
        example: r#"Example: patterns tree '(a|b)+'

  repeat 1 or more times, greedy
  └─ group 1
     └─ alternation
        ├─ literal "a"
        └─ literal "b"
  1 numbered group."#,
        options: &options::TREE_OPTIONS,
    }
}

/// The row of `picture`.
fn picture() -> Subcommand {
    Subcommand {
        name: "picture",
        about: "Draws the tree of a pattern as a railroad diagram, in SVG",
        long_about: None,
        example: r"Example: patterns picture '(?<year>\d{4})-(?<month>\d\d)' >date.svg",
        options: &options::PICTURE_OPTIONS,
    }
}

/// The row of `lint`.
fn lint() -> Subcommand {
    Subcommand {
        name: "lint",
        about: "Reports likely mistakes in valid patterns",
        long_about: Some(
            "Reports likely mistakes in valid patterns.

The exit status is 0 if every pattern is valid, no denied rule reports, and there are no more
warnings than --max-warnings allows, and 1 if not. docs/lint.md says what each rule reports, and
when it is silent.

--allow, --warn and --deny take the names of rules, with commas between, or all. Each can be given
several times. Of those that name a rule the last one counts, and all names every rule; but
--warn all leaves rules as they are whose reports are errors by default.",
        ),
        example: "Example: patterns lint words.txt

  words.txt:3:5: warning: `a` is branch 1 already [duplicate-branch]
  a|b|a
  -   ^
  branch 1
  help: remove it",
        options: &options::LINT_OPTIONS,
    }
}

/// The row of `format`.
fn format() -> Subcommand {
    Subcommand {
        name: "format",
        about: "Formats each pattern, and keeps how it is written, with its comments",
        long_about: Some(
            "Formats each pattern, and keeps how it is written, with its comments. What changes nothing goes:
groups without a number that the tree does not need, empty comments, and settings of flags.
{0,1}, {0,} and {1,} become ?, * and +, and {2,2} becomes {2}. Of ignored whitespace within a line
one space is left. docs/format.md has the rules.

The text that is written for a pattern parses, under the same flags, to the same tree with the
same groups, names and comments; with --canonical, a pattern that has a comment is written
unchanged, unless --drop-comments is given. Each line ends as it did.

A pattern that is invalid, or that stays for a comment, is written unchanged; standard error has
the position and the reason.

Without --write the output must not be a file that is read: for patterns format FILE > FILE the
shell empties the file before it is read. Texts of JSON and patterns in sources are not written to
standard output: with --textmate, --keys and --records, use --write, --check or --diff.",
        ),
        example: r"Example: patterns format --flags ux words.txt

  writes for the line  (?:\d{1,})   {2,2} # twice
  the line             \d+ {2} # twice",
        options: &options::FORMAT_OPTIONS,
    }
}

/// The row of `groups`.
fn groups() -> Subcommand {
    Subcommand {
        name: "groups",
        about: "Lists the groups of each pattern, and what its references and calls refer to",
        long_about: Some(
            "Lists the groups of each pattern, and what its references and calls refer to.

Each pattern is written as FILE:LINE: PATTERN, and below it each group, reference and call as
FILE:LINE:FIRST-LAST: DESCRIPTION, where FIRST and LAST are the columns of its first and last
character.",
        ),
        example: r#"Example: patterns groups dates.txt

  dates.txt:1: (?<year>\d{4})-(\d\d)
  dates.txt:1:1-14: group 1, named "year"
  dates.txt:1:16-21: group 2"#,
        options: &options::GROUPS_OPTIONS,
    }
}

/// The row of `server`.
fn server() -> Subcommand {
    Subcommand {
        name: "server",
        about: "Serves an editor: reports, fixes and formats patterns as they are typed",
        long_about: Some(
            "Serves an editor, by the Language Server Protocol over standard input and output: it reports what
check and lint report, and fixes and formats patterns. docs/editors.md says how editors start it.",
        ),
        example: "Example: an editor runs  patterns server",
        options: &options::SERVER_OPTIONS,
    }
}

impl Verb {
    /// Its row.
    pub(crate) fn row(self) -> Subcommand {
        match self {
            Verb::Files(FileVerb::Check) => check(),
            Verb::Pattern(PatternVerb::Tree) => tree(),
            Verb::Pattern(PatternVerb::Picture) => picture(),
            Verb::Files(FileVerb::Lint) => lint(),
            Verb::Files(FileVerb::Format) => format(),
            Verb::Files(FileVerb::Groups) => groups(),
            Verb::Server => server(),
        }
    }

    /// Its options, in the order of the help.
    pub(crate) fn options(self) -> [&'static [OptionRow]; 2] {
        match self {
            Verb::Files(_) => [&options::FILE_OPTIONS, self.row().options],
            Verb::Pattern(_) => [self.row().options, &options::PATTERN_OPTIONS],
            Verb::Server => [self.row().options, &[]],
        }
    }

    /// What the subcommand of this name does, if there is one.
    pub(crate) fn named(name: &str) -> Option<Verb> {
        for verb in VERBS.iter() {
            if verb.row().name == name {
                return Some(*verb);
            }
        }
        None
    }
}
