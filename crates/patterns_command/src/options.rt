//! The options of the subcommands: a row for each, in the order of the help.
use crate::option::{FLAG, OptionRow, Takes};
use clap::builder::ValueParser;
use dialects::dialect::DIALECT_NAMES;
use pattern_files::sources::STANDARD_INPUT;
use pattern_reports::format::FORMAT_NAMES;

/// A number from 1.
const POSITIVE: ValueParser<'static> = ValueParser::Unsigned(1, u32::MAX as u64);

const FLAGS: OptionRow = OptionRow {
    id: "flags",
    takes: Takes::One("LETTERS", ValueParser::String),
    help: "The flags to parse under, as letters, or - for none",
    default: Some("u"),
    ..FLAG
};

const CONFIG: OptionRow = OptionRow {
    id: "config",
    takes: Takes::One("FILE", ValueParser::String),
    help: "Reads this configuration, and looks for no patterns.toml",
    conflicts: &["no-config"],
    ..FLAG
};

const NO_CONFIG: OptionRow = OptionRow {
    id: "no-config",
    help: "Reads no configuration. Otherwise each file has the nearest
patterns.toml, from its folder upwards; options win over it",
    ..FLAG
};

const FORMAT: OptionRow = OptionRow {
    id: "format",
    takes: Takes::One("FORMAT", ValueParser::Names(FORMAT_NAMES)),
    help: "How reports are written: as text, which is the default; as json,
like --json; as the workflow commands of github; or as sarif, which
is SARIF 2.1.0",
    conflicts: &["json"],
    ..FLAG
};

const JSON: OptionRow = OptionRow {
    id: "json",
    help: "Writes JSON, one object per line, to standard output",
    ..FLAG
};

/// Those of subcommands over files.
pub(crate) static FILE_OPTIONS: [OptionRow; 12] = [
    FLAGS,
    OptionRow {
        id: "regexp",
        short: Some('e'),
        takes: Takes::Each("PATTERN"),
        help: "A pattern, which may begin with -; can be given several times. Files
are read after these patterns, and only if they are named",
        is_raw: true,
        ..FLAG
    },
    OptionRow {
        id: "null-data",
        short: Some('z'),
        help: "A pattern ends with NUL, and not with its line",
        ..FLAG
    },
    OptionRow {
        id: "lines",
        help: "Each line is a pattern, whatever the file's name. Without this, lines
are written only to a file without an extension, or with one of txt,
patterns, regex, regexp, re, lst and list",
        conflicts: &["null-data", "textmate", "keys", "records"],
        ..FLAG
    },
    OptionRow {
        id: "quiet",
        short: Some('q'),
        help: "Shows neither progress nor the final summary on standard error,
and no note on a file whose name is that of another format",
        ..FLAG
    },
    OptionRow {
        id: "color",
        takes: Takes::One("WHEN", ValueParser::Names(&["auto", "always", "never"])),
        help: "When to write colours; auto is to a terminal, unless the
environment variable NO_COLOR is set and
not empty",
        default: Some("auto"),
        ..FLAG
    },
    CONFIG,
    NO_CONFIG,
    OptionRow {
        id: "files",
        takes: Takes::Files,
        help: "Files with one pattern per line, in UTF-8; - is standard input. Of a
folder those files are read that `files` in patterns.toml names",
        default: Some(STANDARD_INPUT),
        ..FLAG
    },
    OptionRow {
        id: "textmate",
        help: "Each file is JSON, as the grammars of TextMate and VS Code, and
its texts under the keys match, begin, end, while, firstLineMatch,
foldingStartMarker and foldingStopMarker are the patterns; in
those under end and while, a back reference such as \\1 refers to
a group of begin",
        conflicts: &["null-data", "regexp"],
        ..FLAG
    },
    OptionRow {
        id: "keys",
        takes: Takes::List("NAME[,NAME..]"),
        help: "Each file is JSON, and its texts under these keys are the
patterns; with --textmate too, those under its keys are as well",
        conflicts: &["null-data", "regexp"],
        ..FLAG
    },
    OptionRow {
        id: "records",
        help: "Each line is a JSON object, as python -m fancy extract writes them:
a pattern, and where it is in a source; reports have the positions
in the source",
        conflicts: &["null-data", "regexp", "textmate", "keys"],
        ..FLAG
    },
];

/// Those that choose one pattern and its configuration.
pub(crate) static PATTERN_OPTIONS: [OptionRow; 5] = [
    OptionRow {
        id: "regexp",
        short: Some('e'),
        takes: Takes::One("PATTERN", ValueParser::String),
        help: "The pattern, which may begin with -",
        is_raw: true,
        conflicts: &["pattern"],
        ..FLAG
    },
    OptionRow {
        id: "file",
        takes: Takes::One("POSITION", ValueParser::String),
        help: "Reads the pattern from a file, at a position: FILE:LINE, or for a
text of JSON FILE:PATH, as in grammar.json:patterns[0].match; also
with the columns, or the line and column of a text of JSON, that
reports write. FILE alone has one line; - is standard input. FILE is
the longest beginning that names a file, so it may have colons",
        is_raw: true,
        conflicts: &["pattern", "regexp"],
        ..FLAG
    },
    CONFIG,
    NO_CONFIG,
    OptionRow {
        id: "pattern",
        takes: Takes::Pattern,
        help: "The pattern; put -- or -e before one that begins with -",
        ..FLAG
    },
];

pub(crate) static CHECK_OPTIONS: [OptionRow; 2] = [FORMAT, JSON];

pub(crate) static TREE_OPTIONS: [OptionRow; 8] = [
    FLAGS,
    OptionRow {
        id: "ascii",
        help: "Draws with ASCII characters",
        ..FLAG
    },
    OptionRow {
        id: "spans",
        help: "Writes after each node its span, as START..END in byte offsets,
and its text",
        ..FLAG
    },
    OptionRow {
        id: "trivia",
        help: "Lists what no node has: comments, inline flags, the parentheses
of flag groups, and what leaves nothing in the tree, each with
its span and text",
        ..FLAG
    },
    OptionRow {
        id: "all",
        help: "Draws each node in its own line; otherwise adjacent letters are
drawn as one literal",
        ..FLAG
    },
    OptionRow {
        id: "classes",
        help: "Writes after each class the characters that it contains, as ranges,
of which only the first are written",
        conflicts: &["json"],
        ..FLAG
    },
    OptionRow {
        id: "facts",
        help: "Draws each node in its own line, and writes after it how long its
matches are, in characters, and in bytes where that differs, and
whether they are at the start or the end of the text",
        ..FLAG
    },
    JSON,
];

pub(crate) static PICTURE_OPTIONS: [OptionRow; 3] = [
    FLAGS,
    OptionRow {
        id: "html",
        help: "Writes a page of HTML with the diagram, the tree, and the groups
and references",
        ..FLAG
    },
    OptionRow {
        id: "width",
        takes: Takes::One("PIXELS", POSITIVE),
        help: "Breaks rows of the diagram into lines that fit in so many pixels; a
box that is wider by itself stays so",
        default: Some("960"),
        ..FLAG
    },
];

pub(crate) static LINT_OPTIONS: [OptionRow; 12] = [
    OptionRow {
        id: "allow",
        takes: Takes::Rules("RULE[,RULE..]"),
        help: "Silences rules",
        ..FLAG
    },
    OptionRow {
        id: "warn",
        takes: Takes::Rules("RULE[,RULE..]"),
        help: "Makes the reports of rules warnings",
        ..FLAG
    },
    OptionRow {
        id: "deny",
        takes: Takes::Rules("RULE[,RULE..]"),
        help: "Makes the reports of rules errors",
        ..FLAG
    },
    OptionRow {
        id: "dialect",
        takes: Takes::Named("NAME", ValueParser::Names(DIALECT_NAMES)),
        help: "The dialect of the patterns: java, javascript, oniguruma, pcre, perl,
python or ruby. Those that it reads otherwise, or that are invalid
here, are passed over, and counted at the end",
        ..FLAG
    },
    OptionRow {
        id: "max-warnings",
        takes: Takes::One("N", ValueParser::Unsigned(0, u64::MAX)),
        help: "The exit status is 1 if there are more warnings than this",
        ..FLAG
    },
    OptionRow {
        id: "fix",
        help: "Fixes reports that a plain edit fixes, in the files, or in the
sources with --records, and reports what is left; standard input
and patterns of -e are written to standard output, and the reports
to standard error",
        ..FLAG
    },
    OptionRow {
        id: "diff",
        help: "Writes no file; shows what --fix would change as a patch, which
patch -p1 and git apply take, and reports on standard error what
would be left",
        conflicts: &["fix", "json", "format"],
        ..FLAG
    },
    FORMAT,
    JSON,
    OptionRow {
        id: "verbose",
        short: Some('v'),
        help: "Writes which parts of patterns are not searched for backtracking",
        ..FLAG
    },
    OptionRow {
        id: "rules",
        help: "Lists the rules, with an example of each, and reads no file",
        ..FLAG
    },
    OptionRow {
        id: "explain",
        takes: Takes::Rules("RULE"),
        help: "Explains rules, with patterns of programs, and reads no file",
        ..FLAG
    },
];

pub(crate) static FORMAT_OPTIONS: [OptionRow; 8] = [
    OptionRow {
        id: "write",
        help: "Formats the patterns in the files, or in the sources with --records,
and names each that it changes on standard error; standard input and
patterns of -e are written to standard output",
        ..FLAG
    },
    OptionRow {
        id: "check",
        help: "Writes no pattern, and reports where each would change first, and the
line there as it is and as it would be; the exit status is 1 if one
would change, is invalid, or cannot be formatted",
        conflicts: &["write"],
        ..FLAG
    },
    OptionRow {
        id: "diff",
        help: "Writes no file, and shows what --write would change as a patch, which
patch -p1 and git apply take; patterns of standard input and of -e
are shown as they are and as they would be",
        conflicts: &["write", "check"],
        ..FLAG
    },
    OptionRow {
        id: "verbose",
        short: Some('v'),
        help: "Lays each pattern out over several lines, under (?x) if the flags do
not have x: what does not fit in a line is broken into its branches
and groups. In a file of lines a pattern has one line: use -e, -z,
--textmate or --keys",
        conflicts: &["canonical", "records"],
        ..FLAG
    },
    OptionRow {
        id: "width",
        takes: Takes::One("CHARACTERS", POSITIVE),
        help: "With --verbose, how many characters a line may have; otherwise 80",
        conflicts: &["compact"],
        needs: Some("verbose"),
        ..FLAG
    },
    OptionRow {
        id: "compact",
        help: "Writes each pattern in one line without ignored whitespace: a comment
after # becomes (?#..), and (?x) at the beginning goes",
        conflicts: &["verbose", "canonical"],
        ..FLAG
    },
    OptionRow {
        id: "canonical",
        help: "Writes each tree's text: without ignored whitespace, in one spelling
except for classes and references",
        ..FLAG
    },
    OptionRow {
        id: "drop-comments",
        help: "With --canonical, writes patterns that have comments too, without
the comments",
        needs: Some("canonical"),
        ..FLAG
    },
];

pub(crate) static GROUPS_OPTIONS: [OptionRow; 2] = [
    OptionRow {
        id: "classes",
        help: "Lists the classes as well, each with the characters that it contains,
as ranges, of which only the first are written",
        conflicts: &["json"],
        ..FLAG
    },
    JSON,
];

/// Those of `server`.
pub(crate) static SERVER_OPTIONS: [OptionRow; 4] = [
    FLAGS,
    OptionRow {
        id: "null-data",
        short: Some('z'),
        help: "Each document is one pattern, which may have several lines",
        ..FLAG
    },
    CONFIG,
    NO_CONFIG,
];
