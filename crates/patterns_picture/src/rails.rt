//! The rails of loops and forks, as the commands of paths.
use crate::layout::Drawn;
use crate::size::{PASS, RETURN, SIDE, Size, WORD_LINE};
use std::fmt;

/// The radius of the bends.
const BEND: usize = SIDE / 2;

/// A rail that leaves another, runs below it, and joins it again.
#[derive(Clone, Copy)]
pub(crate) struct Below {
    /// Where it leaves.
    pub(crate) left: usize,
    /// Where it joins.
    pub(crate) right: usize,
    /// The height of the other rail.
    pub(crate) rail: usize,
    pub(crate) lower: usize,
}

impl fmt::Display for Below {
    fn fmt<W: fmt::Write>(&self, f: &mut fmt::Formatter<W>) -> fmt::Result {
        let Below {
            left,
            right,
            rail,
            lower,
        } = *self;
        let (down, up) = (lower.saturating_sub(BEND), rail.saturating_add(BEND));
        let end = right.saturating_sub(SIDE);
        write!(f, "M{left} {rail}q10 0 10 10V{down}q0 10 10 10")?;
        write!(f, "H{end}q10 0 10 -10V{up}q0 -10 10 -10")
    }
}

/// A rail that leads from the end of a part back to its beginning, above it.
#[derive(Clone, Copy)]
pub(crate) struct Back {
    pub(crate) left: usize,
    pub(crate) right: usize,
    pub(crate) rail: usize,
    pub(crate) upper: usize,
}

impl fmt::Display for Back {
    fn fmt<W: fmt::Write>(&self, f: &mut fmt::Formatter<W>) -> fmt::Result {
        let Back {
            left,
            right,
            rail,
            upper,
        } = *self;
        let (up, down) = (upper.saturating_add(BEND), rail.saturating_sub(BEND));
        write!(f, "M{right} {rail}q10 0 10 -10V{up}q0 -10 -10 -10")?;
        write!(f, "H{left}q-10 0 -10 10V{down}q0 10 10 10")
    }
}

/// An arrow to the left.
#[derive(Clone, Copy)]
pub(crate) struct Arrow {
    pub(crate) middle: usize,
    pub(crate) height: usize,
}

impl fmt::Display for Arrow {
    fn fmt<W: fmt::Write>(&self, f: &mut fmt::Formatter<W>) -> fmt::Result {
        let middle = self.middle.saturating_add(3);
        let upper = self.height.saturating_sub(4);
        write!(f, "M{middle} {upper}l-7 4 7 4z")
    }
}

/// A rail from the end of a line of a row to the beginning of the next one, and through that.
#[derive(Clone, Copy)]
pub(crate) struct Turn {
    /// Where the line ends, and the height of its rail.
    pub(crate) end: usize,
    pub(crate) rail: usize,
    /// The height at which it runs back.
    pub(crate) back: usize,
    /// Where the next line begins, where it ends, and the height of its rail.
    pub(crate) next_start: usize,
    pub(crate) next_end: usize,
    pub(crate) next_rail: usize,
}

impl fmt::Display for Turn {
    fn fmt<W: fmt::Write>(&self, f: &mut fmt::Formatter<W>) -> fmt::Result {
        let Turn {
            end,
            rail,
            back,
            next_start,
            next_end,
            next_rail,
        } = *self;
        let (before, down) = (back.saturating_sub(BEND), next_rail.saturating_sub(BEND));
        write!(f, "M{end} {rail}q10 0 10 10V{before}q0 10 -10 10")?;
        write!(f, "H{next_start}q-10 0 -10 10V{down}q0 10 10 10H{next_end}")
    }
}

/// A rail from the end of the last line of a row up to the end of the row.
#[derive(Clone, Copy)]
pub(crate) struct Rise {
    pub(crate) end: usize,
    pub(crate) rail: usize,
    pub(crate) right: usize,
    pub(crate) upper: usize,
}

impl fmt::Display for Rise {
    fn fmt<W: fmt::Write>(&self, f: &mut fmt::Formatter<W>) -> fmt::Result {
        let Rise {
            end,
            rail,
            right,
            upper,
        } = *self;
        let (turn, up) = (right.saturating_sub(SIDE), upper.saturating_add(BEND));
        write!(f, "M{end} {rail}H{turn}q10 0 10 -10V{up}q0 -10 10 -10")
    }
}

/// The rail to a line of a row of this size, whose first part is `first`, from the part before it.
pub(crate) fn to_line(before: &Drawn<'_>, first: &Drawn<'_>, line: Size) -> Turn {
    let above = line.rail.saturating_add(RETURN / 2);
    Turn {
        end: before.right(),
        rail: before.rail(),
        back: first.rail().saturating_sub(above),
        next_start: first.left,
        next_end: first.left.saturating_add(line.width),
        next_rail: first.rail(),
    }
}

/// The rail from the last part of a row of several lines to the end of the row.
pub(crate) fn to_end(row: &Drawn<'_>, last: &Drawn<'_>) -> Rise {
    Rise {
        end: last.right(),
        rail: last.rail(),
        right: row.right(),
        upper: row.rail(),
    }
}

/// The rail to a branch of a fork.
pub(crate) fn to_branch(fork: &Drawn<'_>, branch: &Drawn<'_>) -> Below {
    Below {
        left: fork.left,
        right: fork.right(),
        rail: fork.rail(),
        lower: branch.rail(),
    }
}

/// The rail that passes what is repeated.
pub(crate) fn past_child(node: &Drawn<'_>, child: &Drawn<'_>) -> Below {
    Below {
        left: child.left.saturating_sub(SIDE),
        right: child.right().saturating_add(SIDE),
        rail: node.rail(),
        lower: child.bottom().saturating_add(PASS),
    }
}

/// The rail that leads back to the beginning of what is repeated.
pub(crate) fn to_start(node: &Drawn<'_>, child: &Drawn<'_>) -> Back {
    Back {
        left: child.left,
        right: child.right(),
        rail: node.rail(),
        upper: node.top.saturating_add(WORD_LINE),
    }
}
