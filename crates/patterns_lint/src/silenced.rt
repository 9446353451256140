//! The rules that comments in a pattern silence for it.
ghost use Rattle.lint_rules.specs.Chosen.{level_of};
ghost use Rattle.lint_rules.specs.declared.rule.Rule.{Rule};
ghost use Rattle.patterns_lint.specs.Silenced.{IsSameOrSilent};

use fancy_syntax::trivium::{Trivium, TriviumKind};
use lint_rules::chosen::{Chosen, Level};
use lint_rules::rule::Rule;

/// What a comment begins with that silences rules. Their names follow, with commas between.
pub const PREFIX: &str = "patterns: allow ";

/// The text of a comment without its delimiters; None for a part that is no comment.
fn comment_text<'p>(trivium: &Trivium, pattern: &'p str) -> Option<&'p str> {
    let text = trivium.span.text(pattern)?;
    match trivium.kind {
        TriviumKind::Comment | TriviumKind::InnerComment => {
            text.strip_prefix("(?#")?.strip_suffix(')')
        }
        TriviumKind::LineComment | TriviumKind::InnerLineComment => text.strip_prefix('#'),
        TriviumKind::InlineFlags { .. }
        | TriviumKind::Opening { .. }
        | TriviumKind::Closing
        | TriviumKind::Dropped => None,
    }
}

/// Silences the rules of these names, which have commas between them. A name that no rule has says nothing.
fn silence(names: &str, chosen: &mut Chosen)
    ensures levels { (rule : Rule) → IsSameOrSilent (level_of chosen.old.levels rule) (level_of chosen.new.levels rule) }
{
    for name in names.split(',') {
        if let Some(rule) = Rule::named(name.trim()) {
            chosen.set(rule, Level::Allow);
        }
    }
}

/// The levels, of which that of the rule on classes that the engine refuses is silent in another dialect.
fn levels_in_dialect(chosen: &Chosen) -> Chosen
    ensures levels { (rule : Rule) → IsSameOrSilent (level_of chosen.now.levels rule) (level_of result.levels rule) }
{
    let mut levels = *chosen;
    if levels.dialect.is_some() {
        levels.set(Rule::InvalidClass, Level::Allow);
    }
    levels
}

/// The levels of the rules for a pattern: those that are chosen, but for the rules that its comments silence, as
/// `(?#patterns: allow empty-branch)` does, or under IGNORE_SPACE `# patterns: allow empty-branch, empty-loop`. In another
/// dialect the rule on classes that the engine refuses is silent.
pub fn levels_in(pattern: &str, trivia: &[Trivium], chosen: &Chosen) -> Chosen
    ensures levels { (rule : Rule) → IsSameOrSilent (level_of chosen.now.levels rule) (level_of result.levels rule) }
{
    let mut levels = levels_in_dialect(chosen);
    for trivium in trivia {
        if let Some(text) = comment_text(trivium, pattern)
            && let Some(names) = text.trim_start().strip_prefix(PREFIX)
        {
            silence(names, &mut levels);
        }
    }
    levels
}
