//! What `fre` writes, in a line.
use crate::speed::sample::Sample;
use anyhow::Result;
use fre_program::program::fre_run;
use std::alloc::Global;
use std::io::Write;

/// Writes the status, the standard output and the standard error, the two in hexadecimal, with tabs between.
pub(crate) fn write_result<O: Write>(alloc: Global, sample: &Sample, lines: &mut O) -> Result<()> {
    let mut out = Vec::new(alloc);
    let mut err = Vec::new(alloc);
    let status = fre_run(alloc, &sample.words, &mut out, &mut err);
    let out = hex::encode(alloc, &out)?;
    let err = hex::encode(alloc, &err)?;
    writeln!(lines, "{status}\t{out}\t{err}")?;
    Ok(())
}
