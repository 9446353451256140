//! What the arguments choose where a configuration may say otherwise.
ghost use Rattle.lint_rules.specs.Chosen.{level_of};
ghost use Rattle.lint_rules.specs.declared.rule.Rule.{Rule};
ghost use Rattle.patterns_config.specs.Levels.{GivesLevel};

use dialects::dialect::Dialect;
use lint_rules::chosen::{Chosen, Level};
use lint_rules::rule::{RULES, Rule};
use pattern_files::form::FileFormat;
use std::alloc::{AllocError, Global};

/// The levels that rules can be given, by the keys and the options that give them, in the order in which keys count.
pub static LEVELS: [(&str, Level); 3] = [
    ("allow", Level::Allow),
    ("warn", Level::Warn),
    ("deny", Level::Deny),
];

/// The name for all rules.
const ALL_RULES: &str = "all";

/// The names that a level can be given to: those of the rules, and the one for all.
pub fn rule_names(alloc: Global) -> Result<Vec<&'static str>, AllocError> {
    let mut names = Vec::with_capacity(alloc, RULES.len().saturating_add(1))?;
    for rule in RULES.iter() {
        names.push(rule.name)?;
    }
    names.push(ALL_RULES)?;
    Ok(names)
}

/// A level that is given to a rule, or to all.
#[derive(Clone, Copy)]
pub struct RuleLevel<'a> {
    pub name: &'a str,
    pub level: Level,
}

impl RuleLevel<'_> {
    /// Gives the level to the rule of the name, and to all where no rule has it. For all, a warning lowers no rule that is
    /// an error by default.
    pub fn set(self, chosen: &mut Chosen)
        ensures { (rule : Rule) → GivesLevel self.entry.name.now self.entry.level rule (level_of chosen.old.levels rule) (level_of chosen.new.levels rule) }
    {
        if let Some(rule) = Rule::named(self.name) {
            chosen.set(rule, self.level);
            return;
        }
        match self.level {
            Level::Warn => chosen.warn_all(),
            Level::Allow | Level::Deny => chosen.set_all(self.level),
        }
    }
}

/// Which configuration a run reads.
#[derive(Clone, Copy)]
pub enum ConfigChoice<'a> {
    /// For each file the nearest one, from the file's folder upwards.
    Nearest,
    /// The file of this name.
    File(&'a str),
    None,
}

/// How patterns are formatted.
#[derive(Debug, Clone, Copy, PartialEq, Eq)]
pub enum FormatStyle {
    /// As they are written, with what has one right form in that form.
    Default,
    /// The same, over several lines.
    Verbose,
    /// The same, in one line.
    Compact,
    /// As the texts of their trees.
    Canonical,
}

/// The styles, by the names that a configuration gives them.
pub(crate) static STYLES: [(&str, FormatStyle); 4] = [
    ("default", FormatStyle::Default),
    ("verbose", FormatStyle::Verbose),
    ("compact", FormatStyle::Compact),
    ("canonical", FormatStyle::Canonical),
];

/// What the arguments choose of how patterns are formatted.
#[derive(Clone, Copy)]
pub struct FormatChoices {
    /// The style, if they choose one.
    pub style: Option<FormatStyle>,
    /// How many characters a line may have, if they choose that.
    pub width: Option<usize>,
    /// Whether they choose that the canonical text of a pattern may lack its comments.
    pub drops_comments: bool,
}

/// What the arguments choose where a configuration may say otherwise. They win.
#[derive(Clone, Copy)]
pub struct Choices<'a> {
    pub config: ConfigChoice<'a>,
    /// The flags where no configuration says otherwise.
    pub flags: u32,
    /// Whether they choose the flags.
    pub has_flags: bool,
    /// How files have patterns where no configuration says otherwise.
    pub form: FileFormat<'a>,
    /// Whether they choose how files have patterns, whatever the names of the files are.
    pub has_form: bool,
    pub format: FormatChoices,
    /// Whether they choose that what `lint` does not search is reported.
    pub is_verbose: bool,
    /// The dialect that patterns are written in, if they choose one.
    pub dialect: Option<Dialect>,
    /// The levels that they give to rules, in their order.
    pub levels: &'a [RuleLevel<'a>],
}
