//! The reports of a run, in one of the formats.
ghost use Rattle.std.specs.Prelude.{◌≡◌, false};

use crate::format::ReportFormat;
use crate::github::Github;
use crate::json_lines::JsonLines;
use crate::kept::{Kept, Report};
use crate::reporter::Reporter;
use crate::sarif::Sarif;
use crate::streams::{Stream, Streams};
use crate::text::Text;
use fancy_syntax::span::Span;
use fancy_syntax::spanned::SpannedTree;
use lint_rules::chosen::Chosen;
use lint_rules::problem::Found;
use patterns_listing::drawing::Look;
use patterns_text::error::RunError;
use patterns_text::subject::{Refusal, Subject};
use std::alloc::Global;

/// How reports are written.
#[derive(Clone, Copy)]
pub struct ReportOptions {
    pub format: ReportFormat,
    /// Where errors and likely mistakes are written as text: not among patterns that are written.
    pub stream: Stream,
    /// How trees are drawn, and whether groups have classes.
    pub look: Look,
}

/// Whether SARIF has had a report.
#[derive(Clone, Copy)]
pub struct ReportLog {
    pub(crate) has_reports: bool,
}

impl ReportLog {
    /// None yet.
    pub fn new() -> ReportLog
        ensures reports { result.has_reports ≡ false }
    {
        ReportLog { has_reports: false }
    }
}

/// The reports of a run, or of an editor.
#[derive(Drop)]
pub enum Reports<'a> {
    Text(Text<'a>),
    Json(JsonLines<'a>),
    Github(Github<'a>),
    Sarif(Sarif<'a>),
    Kept(Kept<'a>),
}

impl<'a> Reports<'a> {
    /// Those that are added to a list.
    pub fn kept(reports: &'a mut Vec<Report>) -> Reports<'a> {
        Reports::Kept(Kept { reports })
    }

    /// Those that are written to the streams.
    pub fn new(
        options: ReportOptions,
        streams: &'a mut Streams,
        log: &'a mut ReportLog,
    ) -> Reports<'a> {
        let ReportOptions {
            format,
            stream,
            look,
        } = options;
        match format {
            ReportFormat::Text => Reports::Text(Text {
                streams,
                stream,
                look,
            }),
            ReportFormat::Json => Reports::Json(JsonLines {
                out: &mut streams.out,
                has_facts: look.has_facts,
            }),
            ReportFormat::Github => Reports::Github(Github {
                out: &mut streams.out,
            }),
            ReportFormat::Sarif => Reports::Sarif(Sarif {
                out: &mut streams.out,
                log,
            }),
        }
    }
}

/// What the call makes of the reporter of the format.
macro_rules! with_reporter {
    ($reports:expr, $reporter:ident => $call:expr) => {
        match $reports {
            Reports::Text($reporter) => $call,
            Reports::Json($reporter) => $call,
            Reports::Github($reporter) => $call,
            Reports::Sarif($reporter) => $call,
            Reports::Kept($reporter) => $call,
        }
    };
}

impl Reporter for Reports<'_> {
    fn begin(&mut self, alloc: Global, is_lint: bool) -> Result<(), RunError> {
        with_reporter!(self, reporter => reporter.begin(alloc, is_lint))
    }

    fn error(&mut self, subject: Subject<'_>, refusal: &Refusal) -> Result<(), RunError> {
        with_reporter!(self, reporter => reporter.error(subject, refusal))
    }

    fn refuse(
        &mut self,
        subject: Subject<'_>,
        position: usize,
        reason: &str,
    ) -> Result<(), RunError> {
        with_reporter!(self, reporter => reporter.refuse(subject, position, reason))
    }

    fn problems(
        &mut self,
        subject: Subject<'_>,
        parsed: &SpannedTree,
        chosen: &Chosen,
        found: &[Found<'_>],
    ) -> Result<(), RunError> {
        with_reporter!(self, reporter => reporter.problems(subject, parsed, chosen, found))
    }

    fn not_searched(&mut self, subject: Subject<'_>, parts: &[Span]) -> Result<(), RunError> {
        with_reporter!(self, reporter => reporter.not_searched(subject, parts))
    }

    fn groups(&mut self, subject: Subject<'_>, parsed: &SpannedTree) -> Result<(), RunError> {
        with_reporter!(self, reporter => reporter.groups(subject, parsed))
    }

    fn tree(&mut self, subject: Subject<'_>, parsed: &SpannedTree) -> Result<(), RunError> {
        with_reporter!(self, reporter => reporter.tree(subject, parsed))
    }

    fn end(&mut self) -> Result<(), RunError> {
        with_reporter!(self, reporter => reporter.end())
    }
}
