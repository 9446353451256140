//! The pattern syntax of fancy-regex: parses a pattern into a tree, and prints a tree as a pattern. The recorded results
//! of its calls are in `conformance`.
//!
//! ```rust
//! use fancy_syntax::{Error, Expr, FLAG_CASEI, FLAG_UNICODE};
//!
//! match Expr::parse_tree_with_flags(alloc, pattern, FLAG_CASEI | FLAG_UNICODE) {
//!     Ok(tree) => println!(rt; "{} groups", tree.total_groups)?,
//!     Err(Error::ParseError(position, kind)) => println!(rt; "at byte {position}: {kind}")?,
//!     Err(Error::OutOfMemory) => println!(rt; "out of memory")?,
//! }
//! ```
//!
//! Every item that a caller names can be imported from the root, and from its module.
#![tactic(auto)]

pub mod expr;
mod grammar;
pub mod print;
mod raw_tree;
mod resolve;
pub mod span;
pub mod spanned;
pub mod tree;
pub mod trivium;

/// The error types, which the root re-exports.
pub mod error {
    pub use fancy_lex::error::{Error, ParseError, ParseErrorPosition, Result};
}

/// The flag constants, which the root re-exports.
pub mod flags {
    pub use fancy_lex::flags::{
        FLAG_CASEI, FLAG_CRLF, FLAG_DOTNL, FLAG_IGNORE_NUMBERED_GROUPS_WHEN_NAMED_GROUPS_EXIST,
        FLAG_IGNORE_SPACE, FLAG_MULTI, FLAG_ONIGURUMA_MODE, FLAG_SWAP_GREED, FLAG_UNICODE,
    };
}

pub use error::{Error, ParseError, ParseErrorPosition, Result};
pub use expr::{
    Absent, Assertion, AstNode, BacktrackingControlVerb, CaptureGroupTarget, Expr,
    ExprChildrenIter, LookAround, Shape, Wrap,
};
pub use flags::{
    FLAG_CASEI, FLAG_CRLF, FLAG_DOTNL, FLAG_IGNORE_NUMBERED_GROUPS_WHEN_NAMED_GROUPS_EXIST,
    FLAG_IGNORE_SPACE, FLAG_MULTI, FLAG_ONIGURUMA_MODE, FLAG_SWAP_GREED, FLAG_UNICODE,
};
pub use print::{BRANCH, OPERAND, PIECE, WHOLE};
pub use span::Span;
pub use tree::ExprTree;
pub use trivium::{Trivium, TriviumKind};
