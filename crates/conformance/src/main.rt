//! Compares the library with recorded results, counts what it does, and runs the examples of its page:
//!
//! - `conformance replay FILE..` compares what `fre` writes with the recorded results of the files;
//! - `conformance stage STAGE FILE` does one thing with each pattern of a file, so that its cost can be counted;
//! - `conformance examples` runs the examples of `docs/library.md`;
//! - `conformance all RESULTS FILE..` does it all, as in the gate: it replays the files, writes what `fre` writes for the
//!   patterns of `RESULTS`, and runs the examples.
//!
//! The status is 0 only if everything was done and no recorded result is different. A run that ends early, as one that is
//! out of memory does, writes an error.
#![tactic(auto)]

mod examples;
mod fields;
mod replay;
mod speed;

use anyhow::{Result, bail};
use examples::show_examples;
use replay::differences;
use speed::run_stage;
use std::env;
use std::process::ExitCode;

const USAGE: &str =
    "usage: conformance replay FILE.. | stage STAGE FILE | examples | all RESULTS FILE..";

/// The arguments after the program's name. Each failed allocation is an error here: `collect` would first try to
/// allocate capacity for all of them, and go on with less.
fn words_after_name(rt: &HostRuntime) -> Result<Vec<String>> {
    let mut words = Vec::new(rt.alloc());
    for word in env::args(rt)?.skip(1) {
        words.push(word)?;
    }
    Ok(words)
}

/// Does it all, and returns how many results are different.
fn run_all(rt: &HostRuntime, results: &str, files: &[String]) -> Result<usize> {
    let different = differences(rt, files)?;
    run_stage(rt, "all", results)?;
    show_examples(rt)?;
    Ok(different)
}

/// Does what the words say, and returns how many results are different.
fn run(rt: &HostRuntime, words: &[String]) -> Result<usize> {
    let [mode, words @ ..] = words else {
        bail!("{USAGE}");
    };
    match (mode.as_str(), words) {
        ("replay", files) => return differences(rt, files),
        ("stage", [stage, file]) => run_stage(rt, stage, file)?,
        ("examples", []) => show_examples(rt)?,
        ("all", [results, files @ ..]) => return run_all(rt, results, files),
        _ => bail!("{USAGE}"),
    }
    Ok(0)
}

fn main(rt: HostRuntime) -> Result<ExitCode> {
    let words = words_after_name(&rt)?;
    Ok(match run(&rt, &words)? {
        0 => ExitCode::SUCCESS,
        _ => ExitCode::FAILURE,
    })
}
