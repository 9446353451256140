//! Patterns for callers in C: each function that C calls parses a pattern anew, keeps nothing, and writes into buffers
//! of the caller. The functions that take pointers end in `nonnull`, since none of their pointers may be null;
//! `include/fancy.h` has for each a function that takes null pointers with a length of 0 too. `.ci/from-c` tests this
//! crate, from C, C++ and Python.
#![tactic(auto)]

mod buffer;
mod built;
pub mod call_flags;
pub mod call_result;
pub mod class_ranges;
pub mod escape;
pub mod facts;
pub mod format;
pub mod group_name;
mod group_numbers;
mod group_rows;
pub mod info_rows;
pub mod message;
pub mod node;
pub mod node_ranges;
pub mod nodes;
pub mod parse_into;
pub mod pattern;
pub mod pattern_nodes;
pub mod print;
pub mod print_nodes;
pub mod read;
pub mod references;
mod row_leaf;
mod rows;
pub mod text_start;
pub mod tree_or_message;
pub mod trivia;
mod utf8;
pub mod version;
