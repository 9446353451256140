//! Edits of a pattern's text that fix what `patterns lint` reports of it, and the proof that they change nothing else.
#![tactic(auto)]

mod comments;
pub mod edit;
mod edits;
pub mod fixed;
mod groups;
pub mod tree;
