//! A server of the Language Server Protocol 3.17: what `patterns` knows of the patterns of documents, for editors.
#![tactic(auto)]

mod asked;
mod capabilities;
mod folding;
mod method;
mod named;
mod outline;
mod params;
mod query;
pub mod serve;
mod session;
mod stage;
mod tokens;
