//! What is known of the patterns that a run has met.
ghost use Rattle.std.specs.Prelude.{◌≡◌, ◌≤◌, ◌↔◌};
ghost use Rattle.patterns_program.specs.declared.outcome.Outcome.TheVariants.{Good, Unread};

/// What the patterns are so far, from the best to the worst.
#[derive(Clone, Copy, PartialEq, Eq)]
pub(crate) enum Outcome {
    /// Each is read, and as the verb asks.
    Good,
    /// Some pattern is not: it is invalid, it stays because of a comment, or its text would change.
    Refused,
    /// Some file, or some line of one, holds no text that could be read.
    Unread,
}

impl Outcome {
    /// The worse of two.
    pub(crate) fn and(self, other: Outcome) -> Outcome
        ensures good { (result ≡ Good) ↔ ((self ≡ Good) × (other ≡ Good)) }
        ensures read { result ≡ Unread → (self ≡ Unread → ⊥) → other ≡ Unread }
    {
        match (self, other) {
            (Outcome::Unread, _) | (_, Outcome::Unread) => Outcome::Unread,
            (Outcome::Refused, _) | (_, Outcome::Refused) => Outcome::Refused,
            _ => Outcome::Good,
        }
    }

    /// The status of a run with this outcome.
    pub(crate) fn status(self) -> u8
        ensures good { (result ≡ 0) ↔ (self ≡ Good) }
        ensures unread { (result ≡ 2) ↔ (self ≡ Unread) }
        ensures others { result ≤ 2 }
    {
        match self {
            Outcome::Good => 0,
            Outcome::Refused => 1,
            Outcome::Unread => 2,
        }
    }
}
