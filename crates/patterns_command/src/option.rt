//! What an option is, and how it is parsed.
use clap::builder::{ArgPredicate, ValueParser};
use clap::{Arg, ArgAction, Command};
use std::alloc::{AllocError, Global};

/// What an option takes, with the name of its value.
#[derive(Clone, Copy)]
pub(crate) enum Takes {
    /// Nothing.
    Nothing,
    /// A value.
    One(&'static str, ValueParser<'static>),
    /// The same, and the help names the values.
    Named(&'static str, ValueParser<'static>),
    /// A value, and the option can be given several times.
    Each(&'static str),
    /// Values with commas between, and the option can be given several times.
    List(&'static str),
    /// The same, names of rules.
    Rules(&'static str),
    /// It is no option: the arguments that are files.
    Files,
    /// It is no option: the argument that is the pattern.
    Pattern,
}

/// An option, or what arguments without an option are.
#[derive(Clone, Copy)]
pub(crate) struct OptionRow {
    /// Its name after `--`, and that by which its value is found.
    pub(crate) id: &'static str,
    pub(crate) short: Option<char>,
    pub(crate) takes: Takes,
    pub(crate) help: &'static str,
    /// Its value if it is not given.
    pub(crate) default: Option<&'static str>,
    /// Whether its value may begin with `-`.
    pub(crate) is_raw: bool,
    /// What it excludes.
    pub(crate) conflicts: &'static [&'static str],
    /// The option without which it is not given.
    pub(crate) needs: Option<&'static str>,
}

/// What an option is as far as its row does not say otherwise.
pub(crate) const FLAG: OptionRow = OptionRow {
    id: "",
    short: None,
    takes: Takes::Nothing,
    help: "",
    default: None,
    is_raw: false,
    conflicts: &[],
    needs: None,
};

impl Takes {
    /// Whether it is given by a name.
    fn is_named(self) -> bool {
        !matches!(self, Takes::Files | Takes::Pattern)
    }

    /// The argument with its values; `rules` are the names of all rules.
    fn add_to<'a>(self, arg: Arg<'a>, rules: &'a [&'a str]) -> Result<Arg<'a>, AllocError> {
        let arg = match self {
            Takes::Nothing => arg.action(ArgAction::SetTrue),
            Takes::One(value, parser) => arg.value_name(value).value_parser(parser),
            Takes::Named(value, parser) => arg
                .value_name(value)
                .value_parser(parser)
                .hide_possible_values(true),
            Takes::Each(value) => arg.value_name(value).action(ArgAction::Append),
            Takes::List(value) => arg
                .value_name(value)
                .value_delimiter(',')
                .action(ArgAction::Append),
            Takes::Rules(value) => arg
                .value_name(value)
                .value_parser(rules)
                .hide_possible_values(true)
                .value_delimiter(',')
                .action(ArgAction::Append),
            Takes::Files => arg
                .value_name("FILE")
                .action(ArgAction::Append)
                .num_args(0..)
                .default_value_if("regexp", ArgPredicate::IsPresent, None)?,
            Takes::Pattern => arg
                .value_name("PATTERN")
                .required_unless_present("file")?
                .required_unless_present("regexp")?,
        };
        Ok(arg)
    }
}

impl OptionRow {
    /// The argument of the row.
    fn arg<'a>(self, alloc: Global, rules: &'a [&'a str]) -> Result<Arg<'a>, AllocError> {
        let mut arg = Arg::new(alloc, self.id)
            .help(self.help)
            .allow_hyphen_values(self.is_raw);
        arg = self.takes.add_to(arg, rules)?;
        if self.takes.is_named() {
            arg = arg.long(self.id);
        }
        if let Some(short) = self.short {
            arg = arg.short(short);
        }
        if let Some(value) = self.default {
            arg = arg.default_value(value);
        }
        if let Some(id) = self.needs {
            arg = arg.requires_arg(id)?;
        }
        for id in self.conflicts {
            arg = arg.conflicts_with(*id)?;
        }
        Ok(arg)
    }
}

/// The command with the options of the rows.
pub(crate) fn with_options<'a>(
    alloc: Global,
    command: Command<'a>,
    rows: &[OptionRow],
    rules: &'a [&'a str],
) -> Result<Command<'a>, AllocError> {
    let mut command = command;
    for row in rows {
        command = command.arg(row.arg(alloc, rules)?)?;
    }
    Ok(command)
}
