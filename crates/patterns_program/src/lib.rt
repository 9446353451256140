//! The work of the program `patterns`: which files it reads, and what it does with each pattern. The tests of this crate are
//! `patterns_tests`, and the folder `data` of `patterns`, which `.ci/runs` reads.
#![tactic(auto)]

pub mod canonical;
mod change;
mod changes;
mod check;
mod draft;
pub mod draw;
pub mod edited;
mod groups;
pub mod job;
mod lint;
mod outcome;
pub mod pattern_flags;
mod progress;
pub mod rewriting;
pub mod run;
mod source_changes;
mod tally;
mod work;
