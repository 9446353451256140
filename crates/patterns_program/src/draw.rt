//! The command `tree`: a pattern's tree, and its group information.
ghost use Rattle.std.specs.Prelude.{◌≡◌, ◌≤◌, ◌⊎◌, Ok, IfOk};
ghost use Rattle.patterns_text.specs.Subject.{IsAccepted, IsRefused};

use pattern_reports::format::ReportFormat;
use pattern_reports::reporter::{Reporter, parse};
use pattern_reports::reports::{ReportLog, ReportOptions, Reports};
use pattern_reports::streams::{Stream, Streams};
use patterns_listing::drawing::Look;
use patterns_text::error::{RunError, give_up};
use patterns_text::subject::Subject;
use std::io::Write;

/// Reports the tree of the pattern, or its error if it is invalid.
fn report_tree(subject: Subject<'_>, reports: &mut Reports<'_>) -> Result<u8, RunError>
    ensures read { result ≡ Ok 0 → IsAccepted subject.entry }
    ensures refused { result ≡ Ok 1 → IsRefused subject.entry }
    ensures status { IfOk result (λ n. n ≤ 1) }
{
    let Some(parsed) = parse(subject, reports)? else {
        return Ok(1);
    };
    reports.tree(subject, &parsed)?;
    Ok(0)
}

/// The same, written to the outputs.
fn write_tree<O: Write, E: Write>(
    subject: Subject<'_>,
    options: ReportOptions,
    out: &mut O,
    err: &mut E,
) -> Result<u8, RunError>
    ensures read { result ≡ Ok 0 → IsAccepted subject.entry }
    ensures refused { result ≡ Ok 1 → IsRefused subject.entry }
    ensures status { IfOk result (λ n. n ≤ 1) }
{
    let mut streams = Streams::new(subject.alloc);
    let mut log = ReportLog::new();
    let status = report_tree(subject, &mut Reports::new(options, &mut streams, &mut log))?;
    streams.put(out, err)?;
    out.flush()?;
    Ok(status)
}

/// Draws the tree of a pattern, or writes it as a line of JSON, and returns the exit status: 0 if the pattern is valid, with its
/// tree and then its group information on `out`; 1 if it is invalid, with the error on `err`, or as JSON on `out`; 3 if memory
/// ran out or a write failed, which is reported on `err` if that is possible, and `out` may then have part of the output.
pub fn draw_tree<O: Write, E: Write>(
    subject: Subject<'_>,
    format: ReportFormat,
    look: Look,
    out: &mut O,
    err: &mut E,
) -> u8
    ensures read { result ≡ 0 → IsAccepted subject.entry }
    ensures refused { result ≡ 1 → IsRefused subject.entry }
    ensures status { (result ≡ 0) ⊎ ((result ≡ 1) ⊎ (result ≡ 3)) }
{
    let options = ReportOptions {
        format,
        stream: Stream::Err,
        look,
    };
    match write_tree(subject, options, out, err) {
        Ok(status) => status,
        Err(error) => give_up(err, error),
    }
}
