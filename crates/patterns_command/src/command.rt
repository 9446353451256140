//! The command line, made of the rows.
use crate::option::with_options;
use crate::subcommands::{Subcommand, VERBS, Verb};
use clap::Command;
use std::alloc::{AllocError, Global};

const VERSION: &str = "2.1.0";

const ABOUT: &str =
    "Checks, shows and formats patterns in the syntax of fancy-regex. It does not match them.
Flags that are set inside a group end with the group.";

const STATUSES: &str =
    "The exit status is 0 if every pattern passes, 1 if one does not, 2 if the arguments are wrong
or a file cannot be read, and 3 if memory ran out or a write failed.";

const LETTERS: &str = "The letters of --flags:
  i  case-insensitive
  m  multi-line: ^ and $ match at the start and the end of each line
  s  . matches a line feed too
  U  a quantifier is lazy without ?, and greedy with it
  x  verbose: whitespace is ignored, and so is # with the rest of its line
  u  Unicode
  R  CR is a line terminator too, and CR LF a single one
  o  Oniguruma's syntax
  n  if some group has a name, groups without a name have no number";

/// A subcommand without its options.
fn described<'a>(alloc: Global, row: Subcommand) -> Command<'a> {
    let command = Command::new(alloc, row.name)
        .about(row.about)
        .before_help(row.example)
        .after_help(LETTERS);
    match row.long_about {
        Some(about) => command.long_about(about),
        None => command,
    }
}

/// A subcommand.
fn subcommand<'a>(
    alloc: Global,
    verb: Verb,
    rules: &'a [&'a str],
) -> Result<Command<'a>, AllocError> {
    let mut command = described(alloc, verb.row());
    for rows in verb.options().iter() {
        command = with_options(alloc, command, rows, rules)?;
    }
    Ok(command)
}

/// The command line; `rules` are the names of all rules.
pub(crate) fn command<'a>(alloc: Global, rules: &'a [&'a str]) -> Result<Command<'a>, AllocError> {
    let mut command = Command::new(alloc, "patterns")
        .bin_name("patterns")?
        .version(VERSION)
        .about(ABOUT)
        .after_help(STATUSES)
        .subcommand_required(true)
        .arg_required_else_help(true);
    for verb in VERBS.iter() {
        command = command.subcommand(subcommand(alloc, *verb, rules)?)?;
    }
    Ok(command)
}
