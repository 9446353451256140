//! What the program does with its arguments.
ghost use Rattle.std.specs.Prelude.{◌≤◌, IfOk};

use crate::chosen::{
    canvas_of, choices_of, files_of, job_of, look_of, pattern_of, report_format_of, width_of,
};
use crate::command::command;
use crate::rules::{explain_rules, levels_chosen};
use crate::subcommands::{PatternVerb, Verb};
use clap::error::ErrorKind;
use clap::{ArgMatches, Error};
use fancy_lex::flag_word::{FLAG_WORD, flags_named};
use lint_rules::rule::write_rules;
use pattern_files::file_pattern::read_pattern;
use pattern_files::form::FileFormat;
use pattern_files::lines::Ending;
use pattern_files::sources::{STANDARD_INPUT, System};
use pattern_reports::format::ReportFormat;
use patterns_config::choices::{Choices, FormatStyle, RuleLevel, rule_names};
use patterns_picture::picture::draw_picture;
use patterns_program::draw::draw_tree;
use patterns_program::job::{Command, Job, Output};
use patterns_program::pattern_flags::flags_of_pattern;
use patterns_program::run::run;
use patterns_server::serve::serve;
use patterns_text::error::{RunError, give_up};
use patterns_text::paint::Paints;
use patterns_text::subject::Subject;
use std::alloc::{AllocError, Global};
use std::io::Write;

/// The exit status if the arguments are wrong, or the pattern that they choose cannot be read.
const MISUSED: u8 = 2;

/// What is said where standard output would have both reports and patterns that are fixed.
const NO_REPORTS: &str =
    "with --json or --format, --fix takes files: it writes other patterns to standard output";

/// What is said where `format` would write to standard output what is in no line.
const NO_LINES: &str =
    "with --textmate, --keys or --records, format takes --write, --check or --diff";

/// What is said where a pattern of several lines would be written to a file of lines.
const NO_RECORDS: &str = "with --verbose, format takes -e, -z, --textmate or --keys";

/// Why the arguments ask for no run.
#[derive(Drop)]
enum NoRun {
    /// They ask for this help.
    Help(String),
    /// They ask for the list of rules.
    Rules,
    /// They are wrong, for this reason.
    Misuse(String),
    /// Out of memory.
    Memory(AllocError),
}

impl From<AllocError> for NoRun {
    fn from(error: AllocError) -> NoRun {
        NoRun::Memory(error)
    }
}

/// What the arguments ask for.
#[derive(Clone, Copy)]
enum Request<'m> {
    /// A job over files.
    Files(Job<'m>, &'m [&'m str]),
    /// One pattern, which is drawn.
    Pattern(PatternVerb, Choices<'m>),
    /// An editor is served.
    Server(Choices<'m>),
    /// The rules of these names are explained.
    Rules(&'m [&'m str]),
}

/// That the arguments are wrong.
fn misused(alloc: Global, reason: &str) -> Result<NoRun, AllocError> {
    Ok(NoRun::Misuse(format!(in alloc; "patterns: {reason}\n")?))
}

/// What follows from an error of the arguments.
fn no_run(alloc: Global, error: &Error) -> Result<NoRun, AllocError> {
    if error.kind() == ErrorKind::OutOfMemory {
        return Err(AllocError);
    }
    let text = format!(in alloc; "{error}")?;
    Ok(if error.use_stderr() {
        NoRun::Misuse(text)
    } else {
        NoRun::Help(text)
    })
}

/// Why a job cannot be done, if it cannot.
fn misuse_of(job: Job<'_>, has_files: bool) -> Option<&'static str> {
    match (job.command, job.output, job.choices.form) {
        (_, Output::Files { has_output: true }, _) if job.format != ReportFormat::Text => {
            Some(NO_REPORTS)
        }
        (_, Output::Patterns, FileFormat::Values(_) | FileFormat::Extracted) => Some(NO_LINES),
        (Command::Format, _, FileFormat::Records(Ending::Line))
            if has_files && job.choices.format.style == Some(FormatStyle::Verbose) => {
            Some(NO_RECORDS)
        }
        _ => None,
    }
}

/// What the arguments of a subcommand ask for.
fn request_of<'m>(
    alloc: Global,
    auto: Paints,
    verb: Verb,
    matches: &'m ArgMatches<'_>,
    levels: &'m [RuleLevel<'m>],
) -> Result<Request<'m>, NoRun> {
    let Some(flags) = matches.get_str("flags").and_then(flags_named) else {
        let text = format!(in alloc; "patterns: --flags takes {FLAG_WORD}\n")?;
        return Err(NoRun::Misuse(text));
    };
    if matches.get_flag("rules") {
        return Err(NoRun::Rules);
    }
    if let Some(names) = matches.get_strs("explain") {
        return Ok(Request::Rules(names));
    }
    let choices = choices_of(matches, flags, levels);
    match verb {
        Verb::Files(verb) => {
            let job = job_of(verb, auto, matches, choices);
            let files = files_of(matches);
            match misuse_of(job, !files.is_empty()) {
                Some(reason) => Err(misused(alloc, reason)?),
                None => Ok(Request::Files(job, files)),
            }
        }
        Verb::Pattern(verb) => Ok(Request::Pattern(verb, choices)),
        Verb::Server => Ok(Request::Server(choices)),
    }
}

/// Writes why nothing is run, and returns the exit status.
fn explain<O: Write, E: Write>(reason: NoRun, out: &mut O, err: &mut E) -> Result<u8, RunError>
    ensures status { IfOk result (λ status. status ≤ 3) }
{
    match reason {
        NoRun::Help(text) => out.write_all(text.as_bytes())?,
        NoRun::Rules => write_rules(out)?,
        NoRun::Misuse(text) => {
            err.write_all(text.as_bytes())?;
            return Ok(MISUSED);
        }
        NoRun::Memory(error) => return Err(RunError::Memory(error)),
    }
    out.flush()?;
    Ok(0)
}

/// Draws a pattern, and returns the exit status.
fn draw<O: Write, E: Write>(
    verb: PatternVerb,
    subject: Subject<'_>,
    matches: &ArgMatches<'_>,
    out: &mut O,
    err: &mut E,
) -> u8
    ensures status { result ≤ 3 }
{
    match verb {
        PatternVerb::Tree => {
            let format = report_format_of(matches);
            draw_tree(subject, format, look_of(matches), out, err)
        }
        PatternVerb::Picture => {
            let width = width_of(matches);
            draw_picture(subject, canvas_of(matches), width, out, err)
        }
    }
}

/// Draws the pattern that the arguments give, or choose from a file, under the flags that its configuration and they choose,
/// and returns the exit status.
fn draw_chosen<S: System, O: Write, E: Write>(
    alloc: Global,
    verb: PatternVerb,
    choices: Choices<'_>,
    matches: &ArgMatches<'_>,
    sources: &S,
    out: &mut O,
    err: &mut E,
) -> Result<u8, RunError>
    ensures status { IfOk result (λ status. status ≤ 3) }
{
    if let Some(pattern) = pattern_of(matches) {
        let Some(flags) = flags_of_pattern(alloc, choices, STANDARD_INPUT, sources, err)? else {
            return Ok(MISUSED);
        };
        let subject = Subject::of_argument(alloc, flags, pattern);
        return Ok(draw(verb, subject, matches, out, err));
    }
    let Some(position) = matches.get_str("file") else {
        return Ok(MISUSED);
    };
    let Some(found) = read_pattern(alloc, position, sources, err)? else {
        return Ok(MISUSED);
    };
    let Some(flags) = flags_of_pattern(alloc, choices, found.file(), sources, err)? else {
        return Ok(MISUSED);
    };
    let subject = found.subject(alloc, flags);
    Ok(draw(verb, subject, matches, out, err))
}

/// Serves the editor that writes to the standard input, and returns the exit status.
fn serve_input<S: System, O: Write, E: Write>(
    alloc: Global,
    choices: Choices<'_>,
    sources: &S,
    out: &mut O,
    err: &mut E,
) -> Result<u8, RunError>
    ensures status { IfOk result (λ status. status ≤ 3) }
{
    let mut input = sources.input()?;
    Ok(serve(alloc, choices, sources, &mut input, out, err))
}

/// The command line with the arguments.
fn parsed<'a>(
    alloc: Global,
    rules: &'a [&'a str],
    words: &'a [String],
) -> Result<ArgMatches<'a>, NoRun> {
    match command(alloc, rules)?.try_get_matches_from(words) {
        Ok(matches) => Ok(matches),
        Err(error) => Err(no_run(alloc, &error)?),
    }
}

/// Does what the arguments ask, and returns the exit status.
fn execute_words<S: System, O: Write, E: Write>(
    alloc: Global,
    auto: Paints,
    words: &[String],
    sources: &S,
    out: &mut O,
    err: &mut E,
) -> Result<u8, RunError>
    ensures status { IfOk result (λ status. status ≤ 3) }
{
    let rules = rule_names(alloc)?;
    let matches = match parsed(alloc, &rules, words) {
        Ok(matches) => matches,
        Err(reason) => return explain(reason, out, err),
    };
    let Some((name, chosen)) = matches.subcommand() else {
        return Ok(MISUSED);
    };
    let Some(verb) = Verb::named(name) else {
        return Ok(MISUSED);
    };
    let levels = levels_chosen(alloc, chosen)?;
    match request_of(alloc, auto, verb, chosen, &levels) {
        Ok(Request::Files(job, files)) => Ok(run(alloc, job, files, sources, out, err)),
        Ok(Request::Pattern(verb, choices)) => {
            draw_chosen(alloc, verb, choices, chosen, sources, out, err)
        }
        Ok(Request::Server(choices)) => serve_input(alloc, choices, sources, out, err),
        Ok(Request::Rules(names)) => {
            explain_rules(names, out)?;
            out.flush()?;
            Ok(0)
        }
        Err(reason) => explain(reason, out, err),
    }
}

/// Does what the arguments ask, the program's name first, and returns the exit status: that of the run, or 0 if help
/// was asked for, 2 if the arguments are wrong, and 3 if memory ran out or a write failed. Where the arguments leave it
/// open, `auto` says which stream has colours.
pub fn execute<S: System, O: Write, E: Write>(
    alloc: Global,
    auto: Paints,
    words: &[String],
    sources: &S,
    out: &mut O,
    err: &mut E,
) -> u8
    ensures status { result ≤ 3 }
{
    match execute_words(alloc, auto, words, sources, out, err) {
        Ok(status) => status,
        Err(error) => give_up(err, error),
    }
}
