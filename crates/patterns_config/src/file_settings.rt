//! What a configuration says of the patterns of a file.
ghost use Rattle.std.specs.Prelude.{◌≡◌, ◌++◌, ◌||◌, ◌⊎◌, [], None, false, IsTrue, IsNone, MatchOption, if◌then◌else◌, unwrap_or};
ghost use Rattle.patterns_config.specs.FileSettings.{options_of, is_named_in, flags_after, textmate_after, keys_after, is_json, AreKeys, dialect_after, dialect_or, style_after, width_after, drops_after};
ghost use Rattle.patterns_config.specs.declared.choices.FormatStyle.{FormatStyle};
ghost use Rattle.patterns_config.specs.Levels.{GiveLevels, levels_of_option, levels_of_options, levels_of_names, levels_of_arguments, is_json_file};
ghost use Rattle.dialects.specs.declared.dialect.Dialect.{Dialect};
ghost use Rattle.lint_rules.specs.Chosen.{level_of, default_level};
ghost use Rattle.lint_rules.specs.declared.rule.Rule.{Rule};

use crate::choices::{Choices, FormatStyle, RuleLevel};
use crate::configs::FoundConfig;
use crate::glob::PathNames;
use crate::options::FileOption;
use dialects::dialect::Dialect;
use lint_rules::chosen::{Chosen, Level};
use pattern_files::form::FileFormat;
use pattern_files::values::keys::Keys;
use std::alloc::{AllocError, Global};

/// The options of one file: what is said of all files, and then what is said of some, this one among them. Of several
/// for one thing the last one counts.
#[derive(Drop)]
pub struct FileSettings<'a> {
    found: Vec<&'a FileOption>,
    /// Whether the configuration names the file: by its `files`, or by those of an override.
    is_named: bool,
}

impl<'a> FileSettings<'a> {
    /// None, of a file without a configuration.
    pub fn none(alloc: Global) -> FileSettings<'a> {
        FileSettings {
            found: Vec::new(alloc),
            is_named: false,
        }
    }

    /// Those that a configuration has for the path of a file; for patterns without a file those that are of all.
    pub(crate) fn of(
        alloc: Global,
        found: &'a FoundConfig,
        path: Option<&PathNames>,
    ) -> Result<FileSettings<'a>, AllocError> {
        let config = &found.config;
        let mut settings = FileSettings {
            found: Vec::new(alloc),
            is_named: path.is_some_and(|path| config.has_file(path)),
        };
        settings.add(&config.options)?;
        for one in &config.overrides {
            if path.is_some_and(|path| one.is_of(path)) {
                settings.add(&one.options)?;
                settings.is_named = true;
            }
        }
        Ok(settings)
    }

    /// Adds options after the others.
    fn add(&mut self, options: &'a [FileOption]) -> Result<(), AllocError> {
        for option in options {
            self.found.push(option)?;
        }
        Ok(())
    }

    /// The flags, if they are set.
    fn flags(&self) -> Option<u32>
        ensures { result ≡ flags_after None (options_of self.now) }
    {
        let mut flags = None;
        for option in &self.found {
            if let FileOption::Flags(set) = option {
                flags = Some(*set);
            }
        }
        flags
    }

    /// Whether texts under the keys of TextMate's grammars are patterns.
    fn has_textmate(&self) -> bool
        ensures { result ≡ textmate_after false (options_of self.now) }
    {
        let mut has_textmate = false;
        for option in &self.found {
            if let FileOption::Textmate(is_set) = option {
                has_textmate = *is_set;
            }
        }
        has_textmate
    }

    /// The other keys under which texts of JSON are patterns.
    fn other_keys(&self) -> &'a [String]
        ensures { result.now ≡ keys_after [] (options_of self.now) }
    {
        let mut keys: &'a [String] = &[];
        for option in &self.found {
            if let FileOption::Keys(set) = option {
                keys = set;
            }
        }
        keys
    }

    /// The keys under which texts of JSON are patterns, if some are set.
    fn keys(&self) -> Option<Keys<'a>>
        ensures { MatchOption result (is_json (options_of self.now) ≡ false) (AreKeys (options_of self.now)) }
    {
        let has_textmate = self.has_textmate();
        let configured = self.other_keys();
        if !has_textmate && configured.is_empty() {
            return None;
        }
        Some(Keys {
            has_textmate,
            named: &[],
            configured,
        })
    }

    /// The dialect that patterns are written in, if it is set.
    fn dialect(&self) -> Option<Dialect>
        ensures { result ≡ dialect_after None (options_of self.now) }
    {
        let mut dialect = None;
        for option in &self.found {
            if let FileOption::Dialect(set) = option {
                dialect = Some(*set);
            }
        }
        dialect
    }

    /// How patterns are formatted, if that is set.
    fn style(&self) -> Option<FormatStyle>
        ensures { result ≡ style_after None (options_of self.now) }
    {
        let mut style = None;
        for option in &self.found {
            if let FileOption::Style(set) = option {
                style = Some(*set);
            }
        }
        style
    }

    /// How many characters a line of a formatted pattern may have, if that is set.
    fn width(&self) -> Option<usize>
        ensures { result ≡ width_after None (options_of self.now) }
    {
        let mut width = None;
        for option in &self.found {
            if let FileOption::Width(set) = option {
                width = Some(*set);
            }
        }
        width
    }

    /// Whether canonical texts may lack comments.
    fn drops_comments(&self) -> bool
        ensures { result ≡ drops_after false (options_of self.now) }
    {
        let mut drops_comments = false;
        for option in &self.found {
            if let FileOption::DropComments(is_set) = option {
                drops_comments = *is_set;
            }
        }
        drops_comments
    }

    /// Whether the file is JSON.
    pub(crate) fn is_json(&self) -> bool
        ensures { result ≡ is_json (options_of self.now) }
    {
        self.keys().is_some()
    }

    /// Gives the rules their levels.
    fn set_levels(&self, chosen: &mut Chosen)
        ensures { (rule : Rule) → GiveLevels rule (levels_of_options (options_of self.now)) (level_of chosen.old.levels rule) (level_of chosen.new.levels rule) }
    {
        for option in &self.found {
            set_option(chosen, option);
        }
    }
}

/// Gives the rules the levels of an option.
fn set_option(chosen: &mut Chosen, option: &FileOption)
    ensures { (rule : Rule) → GiveLevels rule (levels_of_option option.now) (level_of chosen.old.levels rule) (level_of chosen.new.levels rule) }
{
    if let FileOption::Rules(level, names) = option {
        set_rules(chosen, names, *level);
    }
}

/// Gives a level to the rules of these names.
fn set_rules(chosen: &mut Chosen, names: &[String], level: Level)
    ensures { (rule : Rule) → GiveLevels rule (levels_of_names level names.now) (level_of chosen.old.levels rule) (level_of chosen.new.levels rule) }
{
    for name in names {
        RuleLevel {
            name: name.as_str(),
            level,
        }
        .set(chosen);
    }
}

/// The flags that the patterns of a file with these settings are parsed under.
pub fn flags_with(choices: Choices<'_>, settings: &FileSettings<'_>) -> u32
    ensures given { IsTrue choices.entry.has_flags → result ≡ choices.entry.flags }
    ensures exact { result ≡ (if choices.entry.has_flags then choices.entry.flags
        else unwrap_or (flags_after None (options_of settings.now)) choices.entry.flags) }
{
    if choices.has_flags {
        return choices.flags;
    }
    settings.flags().unwrap_or(choices.flags)
}

/// The keys by which a file with these settings is JSON, if the arguments do not choose how files have patterns.
pub fn keys_with<'s>(choices: Choices<'_>, settings: &FileSettings<'s>) -> Option<Keys<'s>>
    ensures given { IsTrue choices.entry.has_form → IsNone result }
    ensures exact { IsTrue choices.entry.has_form ⊎
        MatchOption result (is_json (options_of settings.now) ≡ false) (AreKeys (options_of settings.now)) }
{
    if choices.has_form {
        return None;
    }
    settings.keys()
}

/// How the patterns of a file are formatted.
#[derive(Clone, Copy)]
pub struct FormatSettings {
    pub style: FormatStyle,
    /// How many characters a line may have.
    pub width: usize,
    /// Whether the canonical text of a pattern may lack its comments.
    pub drops_comments: bool,
}

/// How many characters a line of a formatted pattern may have, where nothing says otherwise.
pub const LINE_WIDTH: usize = 80;

/// How the patterns of a file with these settings are formatted.
pub fn format_with(choices: Choices<'_>, settings: &FileSettings<'_>) -> FormatSettings
    ensures style { result.style ≡ unwrap_or choices.entry.format.style
        (unwrap_or (style_after None (options_of settings.now)) FormatStyle.Default) }
    ensures width { result.width ≡ unwrap_or choices.entry.format.width
        (unwrap_or (width_after None (options_of settings.now)) 80) }
    ensures comments { result.drops_comments ≡ choices.entry.format.drops_comments || drops_after false (options_of settings.now) }
{
    let given = choices.format;
    FormatSettings {
        style: given
            .style
            .unwrap_or(settings.style().unwrap_or(FormatStyle::Default)),
        width: given
            .width
            .unwrap_or(settings.width().unwrap_or(LINE_WIDTH)),
        drops_comments: given.drops_comments || settings.drops_comments(),
    }
}

/// Whether it is chosen how a file with these settings has patterns: by the arguments, or by its configuration.
pub fn is_form_chosen(choices: Choices<'_>, settings: &FileSettings<'_>) -> bool
    ensures given { IsTrue choices.entry.has_form → IsTrue result }
    ensures exact { result ≡ choices.entry.has_form || is_named_in settings.now || is_json (options_of settings.now) }
{
    choices.has_form || settings.is_named || settings.is_json()
}

/// Whether the patterns of a file with these settings are texts of JSON.
fn is_json_with(choices: Choices<'_>, settings: &FileSettings<'_>) -> bool
    ensures { result ≡ is_json_file choices.entry (options_of settings.now) }
{
    match choices.form {
        FileFormat::Values(_) => true,
        FileFormat::Records(_) | FileFormat::Extracted => !choices.has_form && settings.is_json(),
    }
}

/// Gives the rules the levels of arguments.
fn set_arguments(chosen: &mut Chosen, levels: &[RuleLevel<'_>])
    ensures { (rule : Rule) → GiveLevels rule (levels_of_arguments levels.now) (level_of chosen.old.levels rule) (level_of chosen.new.levels rule) }
{
    for one in levels {
        let given = *one;
        given.set(chosen);
    }
}

/// The levels of rules for a file with these settings: the default ones, then those of the configuration, then those of
/// the arguments.
pub fn levels_with(choices: Choices<'_>, settings: &FileSettings<'_>) -> Chosen
    ensures exact { (rule : Rule) → GiveLevels rule (levels_of_options (options_of settings.now) ++ levels_of_arguments choices.entry.levels.now)
        (default_level (is_json_file choices.entry (options_of settings.now)) rule) (level_of result.levels rule) }
    ensures verbose { result.is_verbose ≡ choices.entry.is_verbose }
    ensures dialect { result.dialect ≡ dialect_or choices.entry.dialect (dialect_after None (options_of settings.now)) }
{
    let mut chosen = Chosen::by_default(is_json_with(choices, settings));
    settings.set_levels(&mut chosen);
    set_arguments(&mut chosen, choices.levels);
    chosen.is_verbose = choices.is_verbose;
    chosen.dialect = match choices.dialect {
        Some(dialect) => Some(dialect),
        None => settings.dialect(),
    };
    chosen
}
