//! How long the matches of a node are, in characters or bytes.
ghost use Rattle.std.specs.Prelude.{◌≡◌, ℕ, ◌*◌, Option, Some};
ghost use Rattle.fancy_grammar.specs.Label as label;
ghost use Rattle.pattern_facts.specs.Lengths as spec;
ghost use Rattle.pattern_facts.specs.Lengths.{AreLengths, ArePut, limit_of};
ghost use Rattle.pattern_matches.specs.Lengths.{row_most, turns_most};

/// How long a match is at most.
#[derive(Debug, Clone, Copy, PartialEq, Eq)]
pub enum MaxLength {
    /// At most so many.
    AtMost(usize),
    /// There is no limit, or one above `usize::MAX`.
    Unlimited,
}

/// How long each match of a node is, in characters or bytes: at least, and at most.
#[derive(Debug, Clone, Copy, PartialEq, Eq)]
pub struct Lengths {
    /// At least so many. `usize::MAX` stands for more too.
    pub min: usize,
    /// At most so many.
    pub max: MaxLength,
}

/// How a list of trees is matched: one after another, or one of them.
#[derive(Debug, Clone, Copy, PartialEq, Eq)]
pub(crate) enum ListKind {
    Concat,
    Alt,
}

impl MaxLength {
    /// The sum of two limits.
    fn plus(self, other: MaxLength) -> MaxLength
        ensures { (m n : Option ℕ) → self ≡ limit_of m → other ≡ limit_of n →
            result ≡ limit_of (row_most label.concat m n) }
    {
        match self {
            MaxLength::AtMost(first) => match other {
                MaxLength::AtMost(second) => match first.checked_add(second) {
                    Some(sum) => MaxLength::AtMost(sum),
                    None => MaxLength::Unlimited,
                },
                MaxLength::Unlimited => MaxLength::Unlimited,
            },
            MaxLength::Unlimited => MaxLength::Unlimited,
        }
    }

    /// The greater of two limits.
    fn or(self, other: MaxLength) -> MaxLength
        ensures { (m n : Option ℕ) → self ≡ limit_of m → other ≡ limit_of n →
            result ≡ limit_of (row_most label.alt m n) }
    {
        match self {
            MaxLength::AtMost(first) => match other {
                MaxLength::AtMost(second) => MaxLength::AtMost(first.max(second)),
                MaxLength::Unlimited => MaxLength::Unlimited,
            },
            MaxLength::Unlimited => MaxLength::Unlimited,
        }
    }

    /// The limit of at most `hi` turns, each with this limit; `usize::MAX` turns are unlimited.
    fn times(self, hi: usize) -> MaxLength
        ensures { (m : Option ℕ) → self ≡ limit_of m → result ≡ limit_of (turns_most hi m) }
    {
        match self {
            MaxLength::AtMost(once) => {
                if once == 0 {
                    return MaxLength::AtMost(0);
                }
                if hi == usize::MAX {
                    return MaxLength::Unlimited;
                }
                match hi.checked_mul(once) {
                    Some(product) => MaxLength::AtMost(product),
                    None => MaxLength::Unlimited,
                }
            }
            MaxLength::Unlimited => {
                if hi == 0 {
                    return MaxLength::AtMost(0);
                }
                MaxLength::Unlimited
            }
        }
    }
}

impl Lengths {
    /// Exactly so many.
    pub(crate) fn exactly(n: usize) -> Lengths
        ensures { AreLengths n (Some n) result }
    {
        Lengths {
            min: n,
            max: MaxLength::AtMost(n),
        }
    }

    /// At least so many, and at most so many.
    pub(crate) fn between(least: usize, greatest: usize) -> Lengths
        ensures { AreLengths least (Some greatest) result }
    {
        Lengths {
            min: least,
            max: MaxLength::AtMost(greatest),
        }
    }

    /// The lengths of a tree of these lengths, after or beside one of the lengths of `self`.
    pub(crate) fn with(self, kind: ListKind, other: Lengths) -> Lengths
        ensures { ArePut kind self other result }
    {
        match kind {
            ListKind::Concat => Lengths {
                min: self.min.saturating_add(other.min),
                max: self.max.plus(other.max),
            },
            ListKind::Alt => Lengths {
                min: self.min.min(other.min),
                max: self.max.or(other.max),
            },
        }
    }

    /// The lengths of at least `lo` and at most `hi` turns, each of these lengths.
    pub(crate) fn repeated(self, lo: usize, hi: usize) -> Lengths
        ensures { (a : ℕ) (m : Option ℕ) → AreLengths a m self → AreLengths (lo * a) (turns_most hi m) result }
    {
        Lengths {
            min: lo.saturating_mul(self.min),
            max: self.max.times(hi),
        }
    }

    /// Whether a match may be empty, as far as the lengths say.
    pub fn can_be_empty(&self) -> bool
        ensures { result ≡ spec.can_be_empty self.now }
    {
        self.min == 0
    }

    /// Whether all matches have the same length.
    pub fn is_constant(&self) -> bool
        ensures { result ≡ spec.is_constant self.now }
    {
        self.max == MaxLength::AtMost(self.min)
    }
}
