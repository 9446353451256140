//! The set of characters that a node of a pattern's tree matches, or why the matching engine refuses it.
#![tactic(auto)]

pub mod character_set;
pub mod class_text;
pub mod one_character;

pub use character_set::CharacterSet;
pub use class_text::{ClassMeaning, characters_of_class};
pub use one_character::characters_of;
pub use regex_syntax::{Error as ClassError, ErrorKind as ClassErrorKind, Span as ClassSpan};
