//! Documents of an editor that have patterns: where those are, what is reported on them, and how they are fixed and formatted.
#![tactic(auto)]

pub mod action_kinds;
pub mod actions;
pub mod diagnostics;
pub mod document;
pub mod formatting;
mod known;
pub mod ranges;
mod uri;
