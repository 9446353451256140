//! What is written of a valid pattern as text: its tree with branches, and in lines what no node has,
//! its groups, references and classes.
#![tactic(auto)]

pub mod class_words;
pub mod drawing;
pub mod fact_words;
pub mod listing;
mod trivia;
