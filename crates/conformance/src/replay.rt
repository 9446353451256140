//! Recorded results of the original's program: each line of a file is replayed, what is written now is compared byte by
//! byte, and for each file it is written how many results are the same.
mod characters;
mod comparison;
mod formatted;
mod nodes;
mod record;
mod spans;
mod texts;

use crate::replay::characters::are_characters;
use crate::replay::comparison::{OUT_OF_MEMORY, RunResult};
use crate::replay::formatted::is_formatted;
use crate::replay::nodes::read_tree;
use crate::replay::record::{Printing, Reading, Record, Writing, WritingKind};
use crate::replay::spans::are_spans;
use crate::replay::texts::{is_text, is_written};
use anyhow::{Context, Result, bail, ensure};
use fancy_lex::flag_word::flags_named;
use fancy_syntax::error::Error;
use fancy_syntax::expr::Expr;
use fre_program::program::fre_run;
use std::alloc::Global;
use std::fs;
use std::rt::Files;

/// What the program writes now; an error where memory ran out. It writes into capacity that it has, so that no write
/// fails.
fn result_now(alloc: Global, record: &Reading) -> Result<RunResult> {
    let recorded = &record.run_result;
    let mut out = Vec::with_capacity(alloc, recorded.out.len())?;
    let mut err = Vec::with_capacity(alloc, recorded.err.len().max(OUT_OF_MEMORY.len()))?;
    let status = fre_run(alloc, record.words.as_slice(), &mut out, &mut err);
    let run_result = RunResult { status, out, err };
    ensure!(
        !run_result.is_out_of_memory(&record.run_result),
        "out of memory"
    );
    Ok(run_result)
}

/// Whether a clone of the error says the same.
fn is_cloned(alloc: Global, error: &Error) -> Result<bool> {
    let copy = error.clone(alloc)?;
    let message = format!(in alloc; "{error}")?;
    Ok(format!(in alloc; "{copy}")? == message)
}

/// Whether a clone of the pattern's tree is equal to it, and the tree is written as a text that parses back as it; or,
/// where the pattern is invalid, whether a clone of its error says the same.
fn is_kept(alloc: Global, record: &Reading) -> Result<bool> {
    let [word, pattern] = &record.words;
    let Some(flags) = flags_named(word.as_str()) else {
        return Ok(true);
    };
    match Expr::parse_tree_with_flags(alloc, pattern.as_str(), flags) {
        Ok(tree) => Ok(tree.clone(alloc)?.expr == tree.expr && is_written(alloc, &tree, flags)?),
        Err(Error::OutOfMemory) => bail!("out of memory"),
        Err(error) => is_cloned(alloc, &error),
    }
}

/// Whether the result for a pattern is as recorded.
fn replay_reading(alloc: Global, record: &Reading) -> Result<bool> {
    Ok(is_kept(alloc, record)? && result_now(alloc, record)?.is(&record.run_result))
}

/// The text of the tree now, none where it is not printable. If memory runs out for the text, the error says so, and
/// nothing of the text is left.
fn text_now(alloc: Global, tree: &Expr, precedence: u8) -> Result<Option<String>> {
    if !tree.is_printable(alloc)? {
        return Ok(None);
    }
    let mut text = String::new(alloc);
    let printed = tree.to_str(&mut text, precedence);
    ensure!(printed.is_ok() || text.is_empty(), "the buffer changed");
    printed.context("out of memory for the text")?;
    Ok(Some(text))
}

/// Whether a clone of the tree is equal to it, and printed as recorded.
fn replay_printing(alloc: Global, record: &Printing) -> Result<bool> {
    let tree = read_tree(alloc, record.lines.as_str())?;
    let copy = tree.clone(alloc)?;
    Ok(copy == tree && text_now(alloc, &copy, record.precedence)? == record.text)
}

/// Whether what is written for a pattern is as recorded.
fn replay_writing(alloc: Global, record: &Writing) -> Result<bool> {
    let [word, pattern] = &record.words;
    let flags = flags_named(word.as_str()).context("no flags")?;
    let expected = record.text.as_str();
    match record.kind {
        WritingKind::Text => is_text(alloc, pattern.as_str(), flags, expected),
        WritingKind::Spans => are_spans(alloc, pattern.as_str(), flags, expected),
        WritingKind::Characters => are_characters(alloc, pattern.as_str(), flags, expected),
        WritingKind::Formatted(style) => is_formatted(
            alloc,
            pattern.as_str(),
            flags,
            style,
            expected,
        ),
    }
}

/// Whether the result for a line of a file is as recorded.
fn replay_line(alloc: Global, line: &str) -> Result<bool> {
    Ok(match Record::read(alloc, line)? {
        Record::Reading(record) => replay_reading(alloc, &record)?,
        Record::Writing(record) => replay_writing(alloc, &record)?,
        Record::Printing(record) => replay_printing(alloc, &record)?,
    })
}

/// Replays a file, writes its counts, and returns how many results are different.
fn replay(rt: &(impl Files + Print + AllocGlobal), name: &str) -> Result<usize> {
    let text = fs::read_to_string(rt, name).context(format_args!("reading {name}"))?;
    let mut same = 0usize;
    let mut different = 0usize;
    for line in text.lines() {
        if replay_line(rt.alloc(), line).context(format_args!("{name}: {line}"))? {
            same = same.saturating_add(1);
        } else {
            different = different.saturating_add(1);
            println!(rt; "{name}: different: {line}")?;
        }
    }
    println!(rt; "{name}: {same} same, {different} different")?;
    Ok(different)
}

/// Replays files, and returns how many results are different.
pub(crate) fn differences(
    rt: &(impl Files + Print + AllocGlobal),
    names: &[String],
) -> Result<usize> {
    let mut different = 0usize;
    for name in names {
        different = different.saturating_add(replay(rt, name.as_str())?);
    }
    Ok(different)
}
