//! What parsing and printing cost: each pattern of a corpus is taken as far as a stage says, and how much that made is
//! written. An instruction counter around two stages gives the cost of what lies between them.
mod result_line;
mod sample;
mod stage;

use crate::speed::result_line::write_result;
use crate::speed::sample::Sample;
use crate::speed::stage::Stage;
use anyhow::{Context, Result};
use std::alloc::Global;
use std::fs;
use std::io::{BufWriter, Write};

/// The sum of what the stage makes of each pattern.
fn sum_of_amounts(alloc: Global, lines: &str, stage: Stage) -> Result<usize> {
    let mut sum = 0usize;
    for line in lines.lines() {
        let sample = Sample::read(alloc, line).context(format_args!("{line}"))?;
        let amount = stage
            .amount(alloc, &sample)
            .context(format_args!("{line}"))?;
        sum = sum.saturating_add(amount);
    }
    Ok(sum)
}

/// Writes what `fre` writes for each pattern, a line each.
fn write_results<O: Write>(alloc: Global, lines: &str, out: &mut O) -> Result<()> {
    for line in lines.lines() {
        let sample = Sample::read(alloc, line).context(format_args!("{line}"))?;
        write_result(alloc, &sample, out)?;
    }
    out.flush()?;
    Ok(())
}

/// Takes each pattern of a file as far as the stage that is named so; `all` writes what `fre` writes for them.
pub(crate) fn run_stage(rt: &HostRuntime, name: &str, file: &str) -> Result<()> {
    let lines = fs::read_to_string(rt, file).context(format_args!("reading {file}"))?;
    if name == "all" {
        let mut out = BufWriter::new(rt.alloc(), rt.stdout())?;
        return write_results(rt.alloc(), lines.as_str(), &mut out);
    }
    let stage = Stage::named(name).context("no such stage")?;
    println!(rt; "{}", sum_of_amounts(rt.alloc(), lines.as_str(), stage)?)?;
    Ok(())
}
