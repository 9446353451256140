//! A pattern's tree as a railroad diagram.
#![tactic(auto)]

mod content;
mod figure;
mod grid;
mod label;
mod layout;
mod page;
pub mod picture;
mod rails;
mod size;
mod style;
mod svg;
mod text;
