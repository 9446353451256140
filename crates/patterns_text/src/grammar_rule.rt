//! What a rule of a grammar says of the groups of its patterns.
ghost use Rattle.std.specs.Prelude.{◌≡◌, IfSome};
ghost use Rattle.patterns_text.specs.Captures.{capture_key};

/// The keys of a grammar under which an object has what is captured, by the numbers of groups.
#[derive(Debug, Clone, Copy, PartialEq, Eq)]
pub enum CaptureKey {
    Captures,
    BeginCaptures,
    EndCaptures,
    WhileCaptures,
}

/// All of them.
pub static CAPTURE_KEYS: [CaptureKey; 4] = [
    CaptureKey::Captures,
    CaptureKey::BeginCaptures,
    CaptureKey::EndCaptures,
    CaptureKey::WhileCaptures,
];

impl CaptureKey {
    /// The key, as grammars have it.
    pub fn name(self) -> &'static str
        ensures { result.now ≡ capture_key self }
    {
        match self {
            CaptureKey::Captures => "captures",
            CaptureKey::BeginCaptures => "beginCaptures",
            CaptureKey::EndCaptures => "endCaptures",
            CaptureKey::WhileCaptures => "whileCaptures",
        }
    }

    /// The key of this name; none if no key has it.
    pub fn named(name: &str) -> Option<CaptureKey>
        ensures { IfSome result (λ key. capture_key key ≡ name.now) }
    {
        for key in CAPTURE_KEYS.iter() {
            if key.name() == name {
                return Some(*key);
            }
        }
        None
    }
}

/// A number under one of these keys.
#[derive(Clone, Copy)]
pub struct Capture {
    pub key: CaptureKey,
    pub group: usize,
    /// How many numbered groups the pattern has that the key belongs to; of several, the one with the most groups.
    pub total: usize,
}

/// What the object of a grammar says of a pattern in it.
#[derive(Drop)]
pub struct GrammarRule {
    /// Where back references that are a backslash and digits refer to the groups of `begin`, how many numbered groups it
    /// has; none if that is not known.
    pub begin_groups: Option<usize>,
    /// The captures that are reported at this pattern, if they are wrong.
    pub captures: Vec<Capture>,
}
