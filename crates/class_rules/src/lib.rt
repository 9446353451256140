//! The rules of `patterns lint` about classes and about branches of one character.
#![tactic(auto)]

pub mod beginnings;
mod class_items;
mod class_look;
pub mod class_problem;
mod class_source;
pub mod class_walk;
mod covered;
pub mod known_classes;
mod misread;
mod mixed_range;
mod needless;
mod subsumed;
