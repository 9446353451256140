//! Kinds of code actions.

/// The kind of actions that fix or silence a report.
pub const QUICK_FIX: &str = "quickfix";

/// The kind of the action that fixes all reports of a document, as an editor may when it saves.
pub const FIX_ALL: &str = "source.fixAll.patterns";

/// The kinds that are asked for.
#[derive(Debug, Clone, Copy, PartialEq, Eq)]
pub struct ActionKinds {
    pub has_quick_fixes: bool,
    pub has_fix_all: bool,
}

/// Whether the kind is the other one, or one of those that this stands for: `source` stands for `source.fixAll`.
fn is_of(kind: &str, other: &str) -> bool {
    match kind.strip_prefix(other) {
        Some(rest) => other.is_empty() || rest.is_empty() || rest.starts_with('.'),
        None => false,
    }
}

impl ActionKinds {
    pub const NONE: ActionKinds = ActionKinds {
        has_quick_fixes: false,
        has_fix_all: false,
    };

    /// Those of a client that asks for none.
    pub const DEFAULT: ActionKinds = ActionKinds {
        has_quick_fixes: true,
        has_fix_all: false,
    };

    /// Adds those that a kind stands for.
    pub fn add(&mut self, kind: &str) {
        self.has_quick_fixes = self.has_quick_fixes || is_of(QUICK_FIX, kind);
        self.has_fix_all = self.has_fix_all || is_of(FIX_ALL, kind);
    }
}
