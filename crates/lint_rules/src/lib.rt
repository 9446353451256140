//! The rules of `patterns lint`, their levels, and what their reports say.
#![tactic(auto)]

pub mod attack_text;
pub mod chosen;
pub mod message;
pub mod problem;
pub mod rule;
