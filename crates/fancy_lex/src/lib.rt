//! The lowest layer: flags, errors, and the readers that need no tree. What its readers read is tested by the recorded
//! results of `conformance`.
#![tactic(auto)]

pub mod class;
pub mod counts;
pub mod error;
pub mod escape;
pub mod flag_word;
pub mod flags;
pub mod group_starts;
pub mod layout;
pub mod name;
pub mod property;
pub mod text;
