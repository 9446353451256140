//! Facts about what a pattern's nodes match, proved over the definition of matching.
#![tactic(auto)]

pub mod easy;
pub mod first;
pub mod lengths;
pub mod node_facts;
mod plain;
pub mod prefix;
pub mod rows;

pub use easy::is_easy;
pub use first::{Beginning, beginning_beside, first_characters};
pub use lengths::{Lengths, MaxLength};
pub use node_facts::Facts;
pub use prefix::{Prefix, literal_prefix, prefix_beside};
pub use rows::facts;
