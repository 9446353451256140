//! The kinds of look-around, and the verbs.
ghost use Rattle.std.specs.Prelude.{◌≡◌, nat_lt, true};
ghost use Rattle.std.specs.List.{list_all};
ghost use Rattle.fancy_grammar.specs.Verb as spec;

/// The kind of a look-around.
#[derive(Clone, Copy, PartialEq, Eq, Debug, Drop)]
pub enum LookAround {
    /// `(?=a)`: what follows matches.
    LookAhead,
    /// `(?!a)`: what follows does not match.
    LookAheadNeg,
    /// `(?<=a)`: what precedes matches.
    LookBehind,
    /// `(?<!a)`: what precedes does not match.
    LookBehindNeg,
}

impl LookAround {
    /// Returns the name of the variant, such as `LookAhead`.
    pub fn name(self) -> &'static str {
        match self {
            LookAround::LookAhead => "LookAhead",
            LookAround::LookAheadNeg => "LookAheadNeg",
            LookAround::LookBehind => "LookBehind",
            LookAround::LookBehindNeg => "LookBehindNeg",
        }
    }
}

/// A backtracking control verb: it consumes nothing and steers the search.
#[derive(Clone, Copy, PartialEq, Eq, Debug, Drop)]
pub enum BacktrackingControlVerb {
    /// `(*FAIL)`, `(*F)`: fails, so that the search backtracks.
    Fail,
    /// `(*ACCEPT)`: ends the match successfully.
    Accept,
    /// `(*COMMIT)`: backtracking onto it fails the whole match, at later start positions too.
    Commit,
    /// `(*SKIP)`: backtracking onto it fails at this start position; the next one tried is the position here.
    Skip,
    /// `(*PRUNE)`: backtracking onto it fails at this start position.
    Prune,
}

impl BacktrackingControlVerb {
    /// All verbs.
    pub const ALL: [BacktrackingControlVerb; 5] = [
        BacktrackingControlVerb::Fail,
        BacktrackingControlVerb::Accept,
        BacktrackingControlVerb::Commit,
        BacktrackingControlVerb::Skip,
        BacktrackingControlVerb::Prune,
    ];

    /// The verb's word, as in `(*FAIL)`.
    pub fn word(self) -> &'static str
        ensures text { spec.word self ≡ result.now }
        ensures ascii { list_all (λ b. nat_lt b 128) result.now ≡ true }
    {
        match self {
            BacktrackingControlVerb::Fail => "FAIL",
            BacktrackingControlVerb::Accept => "ACCEPT",
            BacktrackingControlVerb::Commit => "COMMIT",
            BacktrackingControlVerb::Skip => "SKIP",
            BacktrackingControlVerb::Prune => "PRUNE",
        }
    }

    /// Returns the name of the variant, such as `Fail`.
    pub fn name(self) -> &'static str {
        match self {
            BacktrackingControlVerb::Fail => "Fail",
            BacktrackingControlVerb::Accept => "Accept",
            BacktrackingControlVerb::Commit => "Commit",
            BacktrackingControlVerb::Skip => "Skip",
            BacktrackingControlVerb::Prune => "Prune",
        }
    }
}
