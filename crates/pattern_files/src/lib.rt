//! Files that hold patterns: lines, JSON, and records of patterns that were extracted from sources.
#![tactic(auto)]

pub mod entry;
pub mod file_pattern;
pub mod form;
pub mod lines;
pub mod patch;
pub mod record;
pub mod shift;
pub mod sources;
pub mod spelling;
pub mod values;
pub mod walk;
