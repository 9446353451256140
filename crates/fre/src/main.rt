//! `fre FLAGS PATTERN` writes the tree of a pattern, its group information and its text as lines.
#![tactic(auto)]

use fre_program::program::{fre_run, out_of_memory};
use std::io::BufWriter;
use std::process::ExitCode;
use std::{env, io};

/// The arguments after the program's name. Each failed allocation is an error here: `collect` would first try to
/// allocate capacity for all of them, and go on with less.
fn words_after_name(rt: &HostRuntime) -> io::Result<Vec<String>> {
    let mut words = Vec::new(rt.alloc());
    for word in env::args(rt)?.skip(1) {
        words.push(word)?;
    }
    Ok(words)
}

/// Runs the program on the arguments after its name; an error if memory runs out for them.
fn run(rt: &HostRuntime) -> io::Result<u8> {
    let words = words_after_name(rt)?;
    let mut out = BufWriter::new(rt.alloc(), rt.stdout())?;
    Ok(fre_run(rt.alloc(), &words, &mut out, &mut rt.stderr()))
}

fn main(rt: HostRuntime) -> ExitCode {
    match run(&rt) {
        Ok(status) => ExitCode::from(status),
        Err(_) => ExitCode::from(out_of_memory(&mut rt.stderr())),
    }
}

#[cfg(test)]
mod bounds;
#[cfg(test)]
mod tests;
