//! When a pattern's tree matches a part of a text: a definition, and laws about it.
#![tactic(auto)]

pub mod laws;
