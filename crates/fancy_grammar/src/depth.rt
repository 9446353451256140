//! How deep groups nest, and how many quantifiers follow one another.

/// How many levels of groups a pattern may have; the whole pattern is one of them. A group inside 63 others is an
/// error.
pub const MAX_DEPTH: usize = 64;

/// How many adjacent quantifiers may follow the first.
pub const MAX_ADJACENT: usize = 4;
