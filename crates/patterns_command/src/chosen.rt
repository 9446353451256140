//! What the arguments choose.
use crate::subcommands::FileVerb;
use clap::ArgMatches;
use clap::parser::ValueSource;
use dialects::dialect::Dialect;
use pattern_files::form::FileFormat;
use pattern_files::lines::Ending;
use pattern_files::sources::STANDARD_INPUT;
use pattern_files::values::keys::Keys;
use pattern_reports::format::ReportFormat;
use patterns_config::choices::{Choices, ConfigChoice, FormatChoices, FormatStyle, RuleLevel};
use patterns_listing::drawing::{Look, Style as LineStyle};
use patterns_picture::picture::{Canvas, WIDTH};
use patterns_program::job::{Command, Job, Output};
use patterns_text::paint::{Paint, Paints};

/// The colours of the two streams; `auto` where the arguments leave them open.
fn paints_of(matches: &ArgMatches<'_>, auto: Paints) -> Paints {
    match matches.get_str("color") {
        Some("always") => Paints::both(Paint::Colored),
        Some("never") => Paints::both(Paint::Plain),
        _ => auto,
    }
}

/// The style of patterns that are formatted, if it is chosen.
fn style_of(matches: &ArgMatches<'_>) -> Option<FormatStyle> {
    if matches.get_flag("verbose") {
        Some(FormatStyle::Verbose)
    } else if matches.get_flag("compact") {
        Some(FormatStyle::Compact)
    } else if matches.get_flag("canonical") {
        Some(FormatStyle::Canonical)
    } else {
        None
    }
}

/// How patterns are formatted, as far as it is chosen.
fn format_of(matches: &ArgMatches<'_>) -> FormatChoices {
    FormatChoices {
        style: style_of(matches),
        width: matches.get_one("width"),
        drops_comments: matches.get_flag("drop-comments"),
    }
}

/// What is done with each pattern.
fn command_of(verb: FileVerb, matches: &ArgMatches<'_>) -> Command {
    match verb {
        FileVerb::Check => Command::Check,
        FileVerb::Lint => Command::Lint,
        FileVerb::Format => Command::Format,
        FileVerb::Groups => Command::Groups {
            has_classes: matches.get_flag("classes"),
        },
    }
}

/// The patterns that are arguments.
fn patterns_of<'m>(matches: &'m ArgMatches<'_>) -> &'m [&'m str] {
    matches.get_strs("regexp").unwrap_or(&[])
}

/// The one pattern, if it is an argument.
pub(crate) fn pattern_of<'m>(matches: &'m ArgMatches<'_>) -> Option<&'m str> {
    match matches.get_str("regexp") {
        Some(pattern) => Some(pattern),
        None => matches.get_str("pattern"),
    }
}

/// The files.
pub(crate) fn files_of<'m>(matches: &'m ArgMatches<'_>) -> &'m [&'m str] {
    matches.get_strs("files").unwrap_or(&[])
}

/// Whether there are patterns, other than records, that are in no file.
fn has_output(matches: &ArgMatches<'_>) -> bool {
    let is_read = !patterns_of(matches).is_empty() || files_of(matches).contains(&STANDARD_INPUT);
    is_read && !matches.get_flag("records")
}

/// What becomes of patterns that are fixed or formatted.
fn output_of(verb: FileVerb, matches: &ArgMatches<'_>) -> Output {
    if matches.get_flag("fix") || matches.get_flag("write") {
        return Output::Files {
            has_output: has_output(matches),
        };
    }
    if matches.get_flag("diff") {
        return Output::Diff;
    }
    if matches.get_flag("check") {
        return Output::Check;
    }
    if verb == FileVerb::Format {
        Output::Patterns
    } else {
        Output::Reports
    }
}

/// How reports are written.
pub(crate) fn report_format_of(matches: &ArgMatches<'_>) -> ReportFormat {
    if matches.get_flag("json") {
        return ReportFormat::Json;
    }
    matches
        .get_str("format")
        .and_then(ReportFormat::named)
        .unwrap_or(ReportFormat::Text)
}

/// What a pattern ends with.
fn ending_of(matches: &ArgMatches<'_>) -> Ending {
    if matches.get_flag("null-data") {
        Ending::Null
    } else {
        Ending::Line
    }
}

/// How the files have patterns.
fn file_format_of<'m>(matches: &'m ArgMatches<'_>) -> FileFormat<'m> {
    if matches.get_flag("records") {
        return FileFormat::Extracted;
    }
    let has_textmate = matches.get_flag("textmate");
    let named = matches.get_strs("keys");
    if !has_textmate && named.is_none() {
        return FileFormat::Records(ending_of(matches));
    }
    FileFormat::Values(Keys {
        has_textmate,
        named: named.unwrap_or(&[]),
        configured: &[],
    })
}

/// Which configuration is read.
fn config_of<'m>(matches: &'m ArgMatches<'_>) -> ConfigChoice<'m> {
    if matches.get_flag("no-config") {
        return ConfigChoice::None;
    }
    match matches.get_str("config") {
        Some(file) => ConfigChoice::File(file),
        None => ConfigChoice::Nearest,
    }
}

/// What the arguments choose where a configuration may say otherwise.
pub(crate) fn choices_of<'m>(
    matches: &'m ArgMatches<'_>,
    flags: u32,
    levels: &'m [RuleLevel<'m>],
) -> Choices<'m> {
    let form = file_format_of(matches);
    Choices {
        config: config_of(matches),
        flags,
        has_flags: matches.value_source("flags") == Some(ValueSource::CommandLine),
        form,
        has_form: match form {
            FileFormat::Values(_) | FileFormat::Extracted | FileFormat::Records(Ending::Null) => {
                true
            }
            FileFormat::Records(Ending::Line) => matches.get_flag("lines"),
        },
        format: format_of(matches),
        is_verbose: matches.get_flag("verbose"),
        dialect: matches.get_str("dialect").and_then(Dialect::named),
        levels,
    }
}

/// The job over files.
pub(crate) fn job_of<'m>(
    verb: FileVerb,
    auto: Paints,
    matches: &'m ArgMatches<'_>,
    choices: Choices<'m>,
) -> Job<'m> {
    Job {
        command: command_of(verb, matches),
        format: report_format_of(matches),
        output: output_of(verb, matches),
        patterns: patterns_of(matches),
        is_quiet: matches.get_flag("quiet"),
        max_warnings: matches.get_one("max-warnings"),
        paints: paints_of(matches, auto),
        choices,
    }
}

/// How a tree is drawn.
pub(crate) fn look_of(matches: &ArgMatches<'_>) -> Look {
    Look {
        style: if matches.get_flag("ascii") {
            LineStyle::Ascii
        } else {
            LineStyle::Lines
        },
        has_spans: matches.get_flag("spans"),
        has_each_literal: matches.get_flag("all"),
        has_facts: matches.get_flag("facts"),
        has_classes: matches.get_flag("classes"),
        has_trivia: matches.get_flag("trivia"),
    }
}

/// What a picture is written as.
pub(crate) fn canvas_of(matches: &ArgMatches<'_>) -> Canvas {
    if matches.get_flag("html") {
        Canvas::Page
    } else {
        Canvas::Svg
    }
}

/// How wide a picture may be, in pixels.
pub(crate) fn width_of(matches: &ArgMatches<'_>) -> usize {
    matches.get_one("width").unwrap_or(WIDTH)
}
