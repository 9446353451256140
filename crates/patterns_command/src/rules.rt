//! The rules that the arguments name.
use clap::ArgMatches;
use lint_rules::chosen::Level;
use lint_rules::rule::{RULES, Rule};
use patterns_config::choices::{LEVELS, RuleLevel};
use patterns_text::error::RunError;
use std::alloc::{AllocError, Global};
use std::io::Write;

/// A level that the arguments give to a rule, or to all.
#[derive(Clone, Copy)]
struct LevelChoice<'a> {
    /// Where the name is among the arguments.
    index: usize,
    level: RuleLevel<'a>,
}

/// Adds the levels that one of the options gives.
fn add_choices<'a>(
    choices: &mut Vec<LevelChoice<'a>>,
    matches: &ArgMatches<'a>,
    option: &str,
    level: Level,
) -> Result<(), AllocError> {
    let (Some(names), Some(indices)) = (matches.get_strs(option), matches.indices_of(option)) else {
        return Ok(());
    };
    for (name, index) in names.iter().zip(indices) {
        choices.push(LevelChoice {
            index: *index,
            level: RuleLevel { name, level },
        })?;
    }
    Ok(())
}

/// The levels that the arguments give, in the order of the arguments.
pub(crate) fn levels_chosen<'a>(
    alloc: Global,
    matches: &ArgMatches<'a>,
) -> Result<Vec<RuleLevel<'a>>, AllocError> {
    let mut choices = Vec::new(alloc);
    for (option, level) in LEVELS.iter() {
        add_choices(&mut choices, matches, option, *level)?;
    }
    choices.sort_unstable_by_key(|choice| choice.index);
    let mut levels = Vec::with_capacity(alloc, choices.len())?;
    for choice in &choices {
        levels.push(choice.level)?;
    }
    Ok(levels)
}

/// Explains each rule.
fn explain_all<O: Write>(out: &mut O) -> Result<(), RunError> {
    for row in RULES.iter() {
        row.explain(out)?;
    }
    Ok(())
}

/// Explains the rules of these names, of which `all` is each rule.
pub(crate) fn explain_rules<O: Write>(names: &[&str], out: &mut O) -> Result<(), RunError> {
    for name in names {
        match Rule::named(name) {
            Some(rule) => rule.row().explain(out)?,
            None => explain_all(out)?,
        }
    }
    Ok(())
}
