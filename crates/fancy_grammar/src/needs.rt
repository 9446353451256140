//! Which flags a tree requires, of those that the text of a pattern can set.

/// What is required of one flag.
#[derive(Clone, Copy, Debug, Drop)]
pub enum Need {
    /// Nothing: the flag may be on or off.
    Free,
    /// The flag must be on, or must be off.
    Fixed(bool),
    /// Both: on at one position, and off at another.
    Torn,
}

/// What is required of each flag that the text of a pattern can set.
#[derive(Clone, Copy, Debug, Drop)]
pub struct Needs {
    /// `FLAG_CASEI`
    pub casei: Need,
    /// `FLAG_MULTI`
    pub multi: Need,
    /// `FLAG_DOTNL`
    pub dotnl: Need,
    /// `FLAG_CRLF`
    pub crlf: Need,
}
