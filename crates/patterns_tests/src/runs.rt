//! Runs on files and streams in memory.
use crate::memory::{Limited, Memory};
use patterns_command::execute::execute;
use patterns_text::paint::{Paint, Paints};
use std::alloc::Global;
use std::test::Fail;

/// What a run came to: its status, and what was written on the two outputs.
#[derive(Drop)]
struct TestRun {
    status: u8,
    out: Limited,
    err: Limited,
}

/// Runs the program on the words and the standard input `(`, where so many bytes can be written on each output, and
/// `auto` says which has colours.
fn run(alloc: Global, auto: Paints, words: &[&str], capacity: usize) -> Result<TestRun, Fail> {
    let mut owned = Vec::new(alloc);
    for word in words {
        owned.push(String::from_str(alloc, word)?)?;
    }
    let mut out = Limited::new(alloc, capacity);
    let mut err = Limited::new(alloc, capacity);
    let status = execute(
        alloc,
        auto,
        &owned,
        &Memory { alloc, input: b"(" },
        &mut out,
        &mut err,
    );
    Ok(TestRun { status, out, err })
}

const MIXED: &str = "mixed:2:2: Opening parenthesis without closing parenthesis
(
-^
opened here
mixed:5:2: General parsing error: end of string not reached
a)b
 ^
help: unmatched closing parenthesis: remove it, or write `\\)`
";

const NOT_UTF_8: &str = "mixed:4: the line is not valid UTF-8\n";

/// Whether a run whose outputs take so many bytes, and are closed then, ends silently, and has written a beginning.
fn ends_silently(alloc: Global, capacity: usize) -> Result<bool, Fail> {
    let run = run(
        alloc,
        Paints::both(Paint::Plain),
        &["patterns", "check", "mixed"],
        capacity,
    )?;
    Ok(
        run.status == 3
            && MIXED.as_bytes().starts_with(&run.out.text)
            && NOT_UTF_8.as_bytes().starts_with(&run.err.text),
    )
}

#[test]
fn closed_pipes(rt: HostRuntime) -> Result<(), Fail> {
    for capacity in 0..MIXED.len() {
        assert!(rt; ends_silently(rt.alloc(), capacity)?, "{capacity} bytes");
    }
    Ok(())
}

/// Whether a run with reports for another tool ends silently if its output takes so many bytes, and is closed then, and
/// has written a beginning of the whole output.
fn is_cut_off(alloc: Global, words: &[&str], capacity: usize, whole: &[u8]) -> Result<bool, Fail> {
    let run = run(alloc, Paints::both(Paint::Plain), words, capacity)?;
    Ok(run.status == 3 && whole.starts_with(&run.out.text))
}

/// Whether that is so for each sixteenth capacity that is below the length of the whole output.
fn are_cut_off(alloc: Global, words: &[&str]) -> Result<bool, Fail> {
    let whole = run(alloc, Paints::both(Paint::Plain), words, usize::MAX)?;
    for step in 0..whole.out.text.len() / 16 {
        if !is_cut_off(alloc, words, step.saturating_mul(16), &whole.out.text)? {
            return Ok(false);
        }
    }
    Ok(whole.status == 1)
}

#[test]
fn closed_pipes_of_formats(rt: HostRuntime) -> Result<(), Fail> {
    for format in ["json", "github", "sarif"].iter() {
        let words = [
            "patterns", "lint", "--quiet", "--format", format, "-e", "(", "-e", "a{1}",
        ];
        assert!(rt; are_cut_off(rt.alloc(), &words)?, "{format}");
    }
    Ok(())
}

const BROKEN: &str = "broken:1:2: Opening parenthesis without closing parenthesis
(
-^
opened here
";

const NO_FILES: &str = "patterns: none: entity not found
patterns: broken: connection reset
1 pattern, 1 refused
";

const NO_CONFIG: &str = "patterns: broken: connection reset
0 patterns, 0 refused
";

const NO_RECORDS: &str = "broken:1:1: the line is not valid JSON
patterns: broken: connection reset
0 patterns, 0 refused
";

/// What is reported of the pattern `a|a` in a file that cannot be written, and why it cannot.
const LEFT_IN_FULL: &str = "full:1:3: warning: `a` is branch 1 already [duplicate-branch]
a|a
- ^
branch 1
help: remove it
";

const NO_SPACE: &str = "patterns: full: cannot be written: no storage space
1 pattern, 0 refused, 1 warning
";

const LEFT_IN_MOVING: &str = "moving:1:3: warning: `a` is branch 1 already [duplicate-branch]
a|a
- ^
branch 1
help: remove it
";

const HAS_CHANGED: &str = "patterns: moving: cannot be written: it has changed since it was read
1 pattern, 0 refused, 1 warning
";

/// Words, and what is written to the two outputs: a file that is not there, and one that cannot be read to its end, as
/// lines, as a configuration and as records; and two that cannot be written.
static UNUSABLE: [(&[&str], &str, &str); 5] = [
    (&["patterns", "check", "none", "broken"], BROKEN, NO_FILES),
    (
        &["patterns", "check", "--config", "broken", "mixed"],
        "",
        NO_CONFIG,
    ),
    (
        &["patterns", "check", "--records", "broken"],
        "",
        NO_RECORDS,
    ),
    (
        &["patterns", "lint", "--fix", "full"],
        LEFT_IN_FULL,
        NO_SPACE,
    ),
    (
        &["patterns", "lint", "--fix", "moving"],
        LEFT_IN_MOVING,
        HAS_CHANGED,
    ),
];

/// Whether a run says with its status that a file could not be used, and writes this.
fn is_unusable(alloc: Global, words: &[&str], out: &str, err: &str) -> Result<bool, Fail> {
    let run = run(alloc, Paints::both(Paint::Plain), words, usize::MAX)?;
    Ok(
        run.status == 2
            && run.out.text.as_slice() == out.as_bytes()
            && run.err.text.as_slice() == err.as_bytes(),
    )
}

#[test]
fn files_that_cannot_be_read_or_written(rt: HostRuntime) -> Result<(), Fail> {
    for (words, out, err) in UNUSABLE.iter() {
        assert!(rt; is_unusable(rt.alloc(), words, out, err)?, "{words:?}");
    }
    Ok(())
}

const NOTHING_READ: &str = "patterns: large-broken: connection reset
0 patterns, 0 refused
";

const LEFT_IN_LARGE_FULL: &str = "large-full:1:4: would change
-a{1,1}
+a{1}
large-full:2:1: would change
-(?:b)
+b
";

const NO_SPACE_FOR_LARGE: &str = "patterns: large-full: cannot be written: no storage space
2 patterns, 0 refused, 2 would change
";

const LEFT_IN_LARGE_MOVING: &str = "large-moving:1:4: would change
-a{1,1}
+a{1}
";

const LARGE_HAS_CHANGED: &str =
    "patterns: large-moving: cannot be written: it has changed since it was read
1 pattern, 0 refused, 1 would change
";

const LARGE_WRITTEN: &str = "large: 2 patterns formatted
large:2: the line is not valid UTF-8
large:3:2: Opening parenthesis without closing parenthesis
(
-^
opened here
4 patterns, 1 refused, 2 formatted
";

/// Files that are said to be large, and what is written to the two outputs if they are formatted: one that cannot be read to its
/// end, two that cannot be written, and one that is written.
static LARGE: [(&str, &str, &str); 4] = [
    ("large-broken", "", NOTHING_READ),
    ("large-full", LEFT_IN_LARGE_FULL, NO_SPACE_FOR_LARGE),
    ("large-moving", LEFT_IN_LARGE_MOVING, LARGE_HAS_CHANGED),
    ("large", "", LARGE_WRITTEN),
];

#[test]
fn large_files(rt: HostRuntime) -> Result<(), Fail> {
    for (file, out, err) in LARGE.iter() {
        let words = ["patterns", "format", "--write", file];
        assert!(rt; is_unusable(rt.alloc(), &words, out, err)?, "{file}");
    }
    Ok(())
}

/// Positions in files, one of which has a name with a colon, and how the report of the error begins: that of the
/// longest name that there is.
static POSITIONS: [(&str, &str); 7] = [
    ("mixed:2", "mixed:2:2: Opening parenthesis"),
    ("mixed:2:2:", "mixed:2:2: Opening parenthesis"),
    ("mixed:5:2", "mixed:5:2:2: Invalid character class"),
    ("mixed:5:3:1", "patterns: mixed:5: there is no line 3"),
    ("mixed:5", "patterns: mixed:5: there are several lines"),
    ("none:mixed:2", "patterns: none: entity not found"),
    ("broken:2", "patterns: broken: connection reset"),
];

/// Whether the report on the pattern at the position begins so.
fn is_reported(alloc: Global, position: &str, report: &str) -> Result<bool, Fail> {
    let words = ["patterns", "tree", "--file", position];
    let run = run(alloc, Paints::both(Paint::Plain), &words, usize::MAX)?;
    Ok(run.err.text.starts_with(report.as_bytes()))
}

#[test]
fn positions(rt: HostRuntime) -> Result<(), Fail> {
    for (position, report) in POSITIONS.iter() {
        assert!(rt; is_reported(rt.alloc(), position, report)?, "{position}");
    }
    Ok(())
}

/// Colours on the output only.
const OUT: Paints = Paints {
    out: Paint::Colored,
    err: Paint::Plain,
};

/// Colours on the error only.
const ERR: Paints = Paints {
    out: Paint::Plain,
    err: Paint::Colored,
};

const PLAIN_REFUSAL: &str = "-:1:2: Opening parenthesis without closing parenthesis
(
-^
opened here
";

const COLORED_REFUSAL: &str = "\x1b[1m-:1:2:\x1b[0m Opening parenthesis without closing parenthesis
(
\x1b[1m-\x1b[0m\x1b[1;31m^\x1b[0m
\x1b[1mopened here\x1b[0m
";

/// Words, and the one of the two streams that has colours, so that what is written of `(` has some.
static STREAMS: [(&[&str], Paints, &str); 6] = [
    (&["patterns", "check"], OUT, COLORED_REFUSAL),
    (&["patterns", "check"], ERR, PLAIN_REFUSAL),
    (&["patterns", "lint"], OUT, COLORED_REFUSAL),
    (&["patterns", "groups"], ERR, COLORED_REFUSAL),
    (&["patterns", "groups"], OUT, PLAIN_REFUSAL),
    (
        &["patterns", "groups", "--color", "never"],
        ERR,
        PLAIN_REFUSAL,
    ),
];

/// Whether the error of `(` is written so, on one of the streams.
fn is_refused(alloc: Global, auto: Paints, words: &[&str], refusal: &str) -> Result<bool, Fail> {
    let run = run(alloc, auto, words, usize::MAX)?;
    Ok(
        run.status == 1
            && (run.out.text.starts_with(refusal.as_bytes())
                || run.err.text.starts_with(refusal.as_bytes())),
    )
}

#[test]
fn colors_of_streams(rt: HostRuntime) -> Result<(), Fail> {
    for (words, auto, refusal) in STREAMS.iter() {
        assert!(rt; is_refused(rt.alloc(), *auto, words, refusal)?, "{words:?}");
    }
    Ok(())
}
