//! `patterns SUBCOMMAND ..` checks, shows and formats patterns, as `patterns --help` says.
#![tactic(auto)]

mod files;
mod folders;
mod new_file;
mod replace;

use files::Host;
use pattern_files::sources::{System, Terminals};
use patterns_command::execute::execute;
use patterns_text::error::{RunError, give_up};
use patterns_text::paint::{Paint, Paints};
use std::alloc::AllocError;
use std::env::VarError;
use std::io::BufWriter;
use std::process::ExitCode;
use std::{env, io};

/// The colours of the two streams where the arguments leave it open: a terminal has colours, unless `NO_COLOR` is set and
/// not empty.
fn paints_of(rt: &HostRuntime, terminals: Terminals) -> Result<Paints, AllocError> {
    let is_wanted = match env::var(rt, "NO_COLOR") {
        Ok(value) => value.is_empty(),
        Err(VarError::NotPresent) => true,
        Err(VarError::NotUnicode) => false,
        Err(VarError::OutOfMemory) => return Err(AllocError),
    };
    Ok(Paints {
        out: Paint::colored_if(is_wanted && terminals.out),
        err: Paint::colored_if(is_wanted && terminals.err),
    })
}

/// The arguments. Each failed allocation is an error here: `collect` would first try to allocate capacity for all of
/// them, and go on with less.
fn arguments(rt: &HostRuntime) -> io::Result<Vec<String>> {
    let mut words = Vec::new(rt.alloc());
    for word in env::args(rt)? {
        words.push(word)?;
    }
    Ok(words)
}

/// Runs the program on its arguments; an error if memory runs out for them.
fn run(rt: &HostRuntime) -> io::Result<u8> {
    let words = arguments(rt)?;
    let mut out = BufWriter::new(rt.alloc(), rt.stdout())?;
    let host = Host { rt };
    let auto = paints_of(rt, host.terminals())?;
    Ok(execute(rt.alloc(), auto, &words, &host, &mut out, &mut rt.stderr()))
}

fn main(rt: HostRuntime) -> ExitCode {
    match run(&rt) {
        Ok(status) => ExitCode::from(status),
        Err(_) => ExitCode::from(give_up(&mut rt.stderr(), RunError::Memory(AllocError))),
    }
}
