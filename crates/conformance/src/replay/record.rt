//! Recorded results: the lines of the files.
use crate::fields::{bytes, parts, text};
use crate::replay::comparison::RunResult;
use anyhow::{Context, Result, bail};
use pattern_format::style::Style;
use std::alloc::Global;

/// Flags, a pattern, and the result: the status, standard output and standard error.
#[derive(Drop)]
pub(crate) struct Reading {
    /// The flags and the pattern.
    pub(crate) words: [String; 2],
    pub(crate) run_result: RunResult,
}

/// What is written for a pattern: the text of its tree, the spans of the nodes, the characters that it matches, or the
/// pattern formatted in a style.
#[derive(Clone, Copy)]
pub(crate) enum WritingKind {
    Text,
    Spans,
    Characters,
    Formatted(Style),
}

/// Flags, a pattern, and what is written for it.
#[derive(Drop)]
pub(crate) struct Writing {
    pub(crate) kind: WritingKind,
    /// The flags and the pattern.
    pub(crate) words: [String; 2],
    pub(crate) text: String,
}

/// A precedence, the lines of a tree, and its text, `none` where it is not printable.
#[derive(Drop)]
pub(crate) struct Printing {
    pub(crate) precedence: u8,
    pub(crate) lines: String,
    pub(crate) text: Option<String>,
}

#[derive(Drop)]
pub(crate) enum Record {
    Reading(Reading),
    Writing(Writing),
    Printing(Printing),
}

impl WritingKind {
    /// The kind of a line that begins with the word; the style `Verbose` is named with its width.
    fn named(word: &str) -> Result<WritingKind> {
        Ok(match word {
            "text" => WritingKind::Text,
            "spans" => WritingKind::Spans,
            "characters" => WritingKind::Characters,
            "kept" => WritingKind::Formatted(Style::Kept),
            "compact" => WritingKind::Formatted(Style::Compact),
            _ => {
                let width = word.strip_prefix("verbose:").context("no such kind")?;
                let width = width.parse::<usize>()?;
                WritingKind::Formatted(Style::Verbose { width })
            }
        })
    }
}

impl Record {
    pub(crate) fn read(alloc: Global, line: &str) -> Result<Record> {
        let fields = parts(alloc, line, '\t')?;
        Ok(match fields.as_slice() {
            [flags, pattern, status, out, err] => Record::Reading(Reading {
                words: [String::from_str(alloc, flags)?, text(alloc, pattern)?],
                run_result: RunResult {
                    status: status.parse::<u8>()?,
                    out: bytes(alloc, out)?,
                    err: bytes(alloc, err)?,
                },
            }),
            [kind, flags, pattern, written] => Record::Writing(Writing {
                kind: WritingKind::named(kind)?,
                words: [String::from_str(alloc, flags)?, text(alloc, pattern)?],
                text: text(alloc, written)?,
            }),
            [precedence, lines, printed] => Record::Printing(Printing {
                precedence: precedence.parse::<u8>()?,
                lines: text(alloc, lines)?,
                text: if *printed == "none" {
                    None
                } else {
                    Some(text(alloc, printed)?)
                },
            }),
            _ => bail!("another number of fields"),
        })
    }
}
