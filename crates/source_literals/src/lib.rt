//! How sources spell patterns: the literals that hold them, and what becomes of these when a pattern changes.
#![tactic(auto)]

mod json;
mod literal;
mod pieces;
mod python;
pub mod replaced;
mod rust;
pub mod source_change;
pub mod source_syntax;
mod xml;
mod yaml;
mod yaml_block;
mod yaml_plain;
