//! Texts that an editor changes, as the Language Server Protocol 3.17 has them: positions, changes, and the documents that are
//! open.
#![tactic(auto)]

pub mod change;
pub mod cursor;
pub mod document;
pub mod position;
