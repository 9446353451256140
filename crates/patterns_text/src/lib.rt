//! What is written of a pattern as text: where it is, why it is invalid, its nodes in words.
#![tactic(auto)]

pub mod columns;
pub mod error;
pub mod excerpt;
pub mod first_comment;
pub mod flag_letters;
pub mod grammar_rule;
pub mod group_info;
pub mod hints;
pub mod names;
pub mod nodes;
pub mod octal;
mod opening;
pub mod paint;
pub mod path;
pub mod position;
pub mod shown;
pub mod source_positions;
pub mod subject;
pub mod words;
