//! The lines of a corpus.
use crate::fields::text;
use anyhow::{Context, Result};
use std::alloc::Global;

/// A word that names flags, and a pattern that is to be read under them.
#[derive(Drop)]
pub(crate) struct Sample {
    /// The flags and the pattern, as `fre` takes them.
    pub(crate) words: [String; 2],
}

impl Sample {
    /// Reads a line: flags, a tab, and the pattern in hexadecimal.
    pub(crate) fn read(alloc: Global, line: &str) -> Result<Sample> {
        let (flags, pattern) = line.split_once('\t').context("no tab")?;
        Ok(Sample {
            words: [String::from_str(alloc, flags)?, text(alloc, pattern)?],
        })
    }
}
