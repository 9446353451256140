//! What the program `fre` does: it parses a pattern under flags, and writes its tree, its group information and its text.
//! The tests of this crate are in `fre`, and recorded outputs in `conformance`.
#![tactic(auto)]

mod error;
mod hex;
pub mod program;
mod report;
