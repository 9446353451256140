//! Colours, as the escapes of terminals.

/// Whether what is written has colours.
#[derive(Clone, Copy, PartialEq, Eq)]
pub enum Paint {
    /// It has none.
    Plain,
    /// Positions are bold, and errors, warnings and changes have a colour.
    Colored,
}

/// Whether what is written to each of the two streams has colours.
#[derive(Clone, Copy)]
pub struct Paints {
    pub out: Paint,
    pub err: Paint,
}

/// What a part of a line is.
#[derive(Clone, Copy)]
pub enum Ink {
    Position,
    Error,
    Warning,
    Removed,
    Added,
}

impl Paint {
    /// Colours, or none.
    pub fn colored_if(is_colored: bool) -> Paint {
        if is_colored {
            Paint::Colored
        } else {
            Paint::Plain
        }
    }

    /// What is written before a part.
    pub fn begin(self, ink: Ink) -> &'static str {
        match (self, ink) {
            (Paint::Plain, _) => "",
            (Paint::Colored, Ink::Position) => "\x1b[1m",
            (Paint::Colored, Ink::Error) => "\x1b[1;31m",
            (Paint::Colored, Ink::Warning) => "\x1b[1;33m",
            (Paint::Colored, Ink::Removed) => "\x1b[31m",
            (Paint::Colored, Ink::Added) => "\x1b[32m",
        }
    }

    /// What is written after a part.
    pub fn end(self) -> &'static str {
        match self {
            Paint::Plain => "",
            Paint::Colored => "\x1b[0m",
        }
    }
}

impl Paints {
    /// The same on both streams.
    pub fn both(paint: Paint) -> Paints {
        Paints {
            out: paint,
            err: paint,
        }
    }
}
