//! JSON-RPC 2.0 over streams: messages with a header each, as the Language Server Protocol 3.17 has them.
#![tactic(auto)]

pub mod error_code;
pub mod frame;
mod header;
pub mod long_text;
pub mod message;
pub mod reply;
