//! Parts of pieces and of the openings of groups: quantifiers, the letters of flag groups, names and references.
mod letters;
pub mod names;
mod quantifier;
pub mod references;

pub use letters::{FlagLetter, Letters, flag_letters, next_letter};
pub use quantifier::counts;
