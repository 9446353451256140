//! How bad it is what is reported.
use lint_rules::chosen::Level;
use patterns_text::paint::Ink;

/// How bad it is what is reported.
#[derive(Clone, Copy, PartialEq, Eq)]
pub enum Severity {
    Error,
    Warning,
    Notice,
}

impl Severity {
    /// That of a report of a rule with this level, which is not silent.
    pub(crate) fn of(level: Level) -> Severity {
        match level {
            Level::Deny => Severity::Error,
            Level::Warn | Level::Allow => Severity::Warning,
        }
    }

    /// What it is called.
    pub(crate) fn word(self) -> &'static str {
        match self {
            Severity::Error => "error",
            Severity::Warning => "warning",
            Severity::Notice => "note",
        }
    }

    /// How it is coloured.
    pub(crate) fn ink(self) -> Ink {
        match self {
            Severity::Error => Ink::Error,
            Severity::Warning | Severity::Notice => Ink::Warning,
        }
    }
}
