//! The command line of `patterns`: its arguments, and what they ask for.
#![tactic(auto)]

mod chosen;
mod command;
pub mod execute;
mod option;
mod options;
mod rules;
mod subcommands;
