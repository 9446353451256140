//! The keys under which a text of JSON is a pattern.
ghost use Rattle.std.specs.Prelude.{◌↔◌, IsTrue, Contains};
ghost use Rattle.pattern_files.specs.Keys.{rule_keys, grammar_keys};

use std::alloc::{AllocError, Global};

/// Under which keys of JSON a text is a pattern.
#[derive(Clone, Copy)]
pub struct Keys<'a> {
    /// Whether those of TextMate's grammars are among them.
    pub has_textmate: bool,
    pub named: &'a [&'a str],
    /// Those that a configuration names.
    pub configured: &'a [String],
}

/// Whether the key is one of those under which the rules of TextMate's grammars have patterns.
fn is_of_rule(key: &str) -> bool
    ensures { IsTrue result ↔ Contains rule_keys key.now }
{
    matches!(key, "match" | "begin" | "end" | "while")
}

/// Whether the key is one of those under which a grammar of TextMate as a whole has patterns.
fn is_of_grammar(key: &str) -> bool
    ensures { IsTrue result ↔ Contains grammar_keys key.now }
{
    matches!(
        key,
        "firstLineMatch" | "foldingStartMarker" | "foldingStopMarker"
    )
}

impl Keys<'_> {
    /// Whether a text under the key is a pattern.
    pub fn has(self, key: &str) -> bool {
        (self.has_textmate && (is_of_rule(key) || is_of_grammar(key)))
            || self.named.iter().any(|name| *name == key)
            || self.configured.iter().any(|name| name.as_str() == key)
    }

    /// Whether a number in a back reference is that of a group of another pattern, in a pattern under the key: in
    /// TextMate's grammars those of `end` and `while` are of the groups of `begin`.
    pub fn refers_to_begin(self, key: &str) -> bool {
        self.has_textmate && matches!(key, "end" | "while")
    }
}

/// Under which of the keys that the arguments name a run has found patterns.
#[derive(Drop)]
pub struct UsedKeys<'a> {
    /// Whether a file was read as JSON.
    pub has_json: bool,
    named: &'a [&'a str],
    used: Vec<&'a str>,
}

impl<'a> UsedKeys<'a> {
    /// Before the first file of a run.
    pub fn new(alloc: Global, named: &'a [&'a str]) -> UsedKeys<'a> {
        UsedKeys {
            has_json: false,
            named,
            used: Vec::new(alloc),
        }
    }

    /// Adds the key of a pattern, if the arguments name it.
    pub fn add(&mut self, key: &str) -> Result<(), AllocError> {
        for name in self.named {
            if *name == key && !self.has(key) {
                self.used.push(*name)?;
            }
        }
        Ok(())
    }

    /// Whether a pattern was found under the key.
    pub fn has(&self, key: &str) -> bool {
        self.used.iter().any(|used| *used == key)
    }
}
