//! What other dialects of regular expressions read otherwise, in patterns that are valid here.
#![tactic(auto)]

mod class_item;
pub mod dialect;
pub mod difference;
mod node_spelling;
pub mod spelling;
