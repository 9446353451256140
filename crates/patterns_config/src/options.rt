//! What a configuration says of files.
use crate::choices::{FormatStyle, LEVELS, STYLES};
use crate::config_error::{Problem, TableError};
use crate::tables::{flag_of, number_of, text_of, texts_of, wrong_type};
use dialects::dialect::{DIALECT_WORD, Dialect};
use fancy_lex::flag_word::flags_named;
use lint_rules::chosen::Level;
use std::alloc::Global;
use toml::{Table, Value};

/// What a key says of some files.
#[derive(Debug, Drop)]
pub(crate) enum FileOption {
    /// The flags that patterns are parsed under.
    Flags(u32),
    /// Whether the files are JSON, with patterns under the keys of TextMate's grammars.
    Textmate(bool),
    /// The keys under which the files, which are JSON, have patterns.
    Keys(Vec<String>),
    /// The dialect that patterns are written in.
    Dialect(Dialect),
    /// How patterns are formatted.
    Style(FormatStyle),
    /// How many characters a line of a formatted pattern may have.
    Width(usize),
    /// Whether the canonical text of a pattern may lack its comments.
    DropComments(bool),
    /// The rules that have the level.
    Rules(Level, Vec<String>),
}

/// The keys of options, besides those of levels.
static KEYS: [&str; 7] = [
    "flags",
    "textmate",
    "keys",
    "dialect",
    "style",
    "width",
    "drop-comments",
];

/// Whether an option has the key.
pub(crate) fn is_option(key: &str) -> bool {
    KEYS.iter().any(|known| *known == key) || LEVELS.iter().any(|(known, _)| *known == key)
}

/// The flags that a value names.
fn flags_of(alloc: Global, key: &'static str, value: &Value) -> Result<u32, TableError> {
    let text = text_of(key, value)?;
    match flags_named(text) {
        Some(flags) => Ok(flags),
        None => {
            let word = String::from_str(alloc, text)?;
            Err(TableError::Refused(Problem::UnknownFlags(word)))
        }
    }
}

/// The dialect that a value names.
fn dialect_of(key: &'static str, value: &Value) -> Result<Dialect, TableError> {
    Dialect::named(text_of(key, value)?).ok_or(wrong_type(key, DIALECT_WORD))
}

/// The style that a value names.
fn style_of(key: &'static str, value: &Value) -> Result<FormatStyle, TableError> {
    let text = text_of(key, value)?;
    for (name, style) in STYLES.iter() {
        if *name == text {
            return Ok(*style);
        }
    }
    Err(wrong_type(
        key,
        "\"default\", \"verbose\", \"compact\" or \"canonical\"",
    ))
}

/// The options of a table on how patterns are formatted.
fn add_format_options(table: &Table, options: &mut Vec<FileOption>) -> Result<(), TableError> {
    if let Some(value) = table.get("style") {
        options.push(FileOption::Style(style_of("style", value)?))?;
    }
    if let Some(value) = table.get("width") {
        options.push(FileOption::Width(number_of("width", value)?))?;
    }
    if let Some(value) = table.get("drop-comments") {
        options.push(FileOption::DropComments(flag_of("drop-comments", value)?))?;
    }
    Ok(())
}

/// The names of a list, each of which has to be one of `rules`.
fn rules_of(
    alloc: Global,
    key: &'static str,
    value: &Value,
    rules: &[&str],
) -> Result<Vec<String>, TableError> {
    let names = texts_of(alloc, key, value)?;
    for name in &names {
        if !rules.iter().any(|rule| *rule == name.as_str()) {
            let name = String::from_str(alloc, name.as_str())?;
            return Err(TableError::Refused(Problem::UnknownRule(name)));
        }
    }
    Ok(names)
}

/// The options of a table, in the order in which they count: a rule in several lists has the level of the last one. Other
/// keys are not looked at. `rules` are the names of all rules.
pub(crate) fn options_of(
    alloc: Global,
    table: &Table,
    rules: &[&str],
) -> Result<Vec<FileOption>, TableError> {
    let mut options = Vec::new(alloc);
    if let Some(value) = table.get("flags") {
        options.push(FileOption::Flags(flags_of(alloc, "flags", value)?))?;
    }
    if let Some(value) = table.get("textmate") {
        options.push(FileOption::Textmate(flag_of("textmate", value)?))?;
    }
    if let Some(value) = table.get("keys") {
        options.push(FileOption::Keys(texts_of(alloc, "keys", value)?))?;
    }
    if let Some(value) = table.get("dialect") {
        options.push(FileOption::Dialect(dialect_of("dialect", value)?))?;
    }
    add_format_options(table, &mut options)?;
    for (key, level) in LEVELS.iter() {
        if let Some(value) = table.get(*key) {
            let names = rules_of(alloc, key, value, rules)?;
            options.push(FileOption::Rules(*level, names))?;
        }
    }
    Ok(options)
}
