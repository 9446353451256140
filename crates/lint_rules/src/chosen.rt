//! Which rules of `lint` speak, and how.
ghost use Rattle.std.specs.Prelude.{◌≡◌, Contains, replicate, length, true, false};
ghost use Rattle.lint_rules.specs.Chosen as spec;
ghost use Rattle.lint_rules.specs.Chosen.{level_of, default_level};
ghost use Rattle.lint_rules.specs.declared.rule.Rule.{Rule};

use crate::rule::{RULES, Rule, all_rules};
use dialects::dialect::Dialect;

/// What a report of a rule is.
#[derive(Debug, Clone, Copy, PartialEq, Eq)]
pub enum Level {
    /// The rule is silent.
    Allow,
    /// A warning, which leaves the exit status as it is.
    Warn,
    /// An error, which makes the exit status 1.
    Deny,
}

impl Level {
    /// What a rule is by default, in the list of rules.
    pub(crate) fn name(self) -> &'static str {
        match self {
            Level::Allow => "off",
            Level::Warn => "warning",
            Level::Deny => "error",
        }
    }
}

/// A warning; but an error by default that still is one stays an error.
fn warned(default: Level, level: Level) -> Level
    ensures { result ≡ spec.warned default level }
{
    match (default, level) {
        (Level::Deny, Level::Deny) => Level::Deny,
        _ => Level::Warn,
    }
}

/// The level of each rule.
#[derive(Clone, Copy)]
pub struct Chosen {
    /// In the order of the rules.
    levels: [Level; RULES.len()],
    /// Whether it is reported too which parts of a pattern no rule looks at, since they are too large.
    pub is_verbose: bool,
    /// The dialect that the patterns are written in, if it is another one.
    pub dialect: Option<Dialect>,
}

impl Chosen {
    /// Each rule has its default level: that for patterns that are texts of JSON, if they are.
    pub fn by_default(is_json: bool) -> Chosen
        ensures { (rule : Rule) → level_of result.levels rule ≡ default_level is_json rule }
    {
        let mut chosen = Chosen {
            levels: [Level::Warn; RULES.len()],
            is_verbose: false,
            dialect: None,
        };
        for row in all_rules() {
            chosen.set(row.rule, row.rule.default_level(is_json));
        }
        chosen
    }

    /// The level of the rule.
    pub fn level(&self, rule: Rule) -> Level
        ensures level { result ≡ level_of self.now.levels rule }
        ensures denied { result ≡ Level.Deny → Contains self.now.levels Level.Deny }
    {
        self.levels[rule as usize]
    }

    /// Gives every rule this level.
    pub fn set_all(&mut self, level: Level)
        ensures levels { self.new.levels ≡ replicate (length self.old.levels) level }
        ensures all { (rule : Rule) → level_of self.new.levels rule ≡ level }
    {
        self.levels = [level; RULES.len()];
    }

    /// Makes the reports of every rule warnings. A rule that is an error by default, and still is one, stays an error.
    pub fn warn_all(&mut self)
        ensures { (rule : Rule) → level_of self.new.levels rule ≡ spec.warned (default_level false rule) (level_of self.old.levels rule) }
    {
        let old = *self;
        for row in all_rules() {
            let rule = row.rule;
            self.set(rule, warned(rule.default_level(false), old.level(rule)));
        }
    }

    /// Gives the rule this level.
    pub fn set(&mut self, rule: Rule, level: Level)
        ensures given { level_of self.new.levels rule ≡ level }
        ensures others { (other : Rule) → (other ≡ rule → ⊥) → level_of self.new.levels other ≡ level_of self.old.levels other }
    {
        self.levels[rule as usize] = level;
    }
}
