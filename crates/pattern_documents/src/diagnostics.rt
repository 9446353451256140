//! What is reported on the patterns of a document.
use crate::document::{DocumentSource, OpenDocument, Settings};
use crate::known::KnownPatterns;
use crate::ranges::{Located, Locator, write_range};
use editor_documents::cursor::Cursor;
use editor_documents::position::Position;
use json::Writer;
use json_rpc::reply::{begin_notification, finish};
use lint_rules::rule::Rule;
use pattern_files::entry::{Entry, Unread, Visitor};
use pattern_fixes::edit::FixKind;
use pattern_reports::fixes::PartText;
use pattern_reports::json_lines::fields::{write_number, write_text};
use pattern_reports::kept::Report;
use pattern_reports::severity::Severity;
use patterns_program::edited::EditedPatterns;
use patterns_text::error::RunError;
use std::alloc::{AllocError, Global};
use std::mem;

/// How many reports on a document are sent, and those of one pattern more: editors show no more.
const MAX_REPORTS: usize = 1000;

/// That the patterns of a document are not read.
const TOO_LARGE: &str = "patterns of documents of more than 8 MiB are not read";

/// That a pattern of a document is not read.
const TOO_LONG: &str = "patterns of more than 256 KiB are not read";

/// The number that the protocol has for how bad it is what is reported.
fn severity_number(severity: Severity) -> u64 {
    match severity {
        Severity::Error => 1,
        Severity::Warning => 2,
        Severity::Notice => 3,
    }
}

/// Whether what the rule reports is needless.
fn is_needless(rule: Rule) -> bool {
    match rule.row().fix {
        Some(
            FixKind::DuplicateBranch
            | FixKind::UselessQuantifier
            | FixKind::UselessFlag
            | FixKind::DuplicateCharacters,
        ) => true,
        Some(FixKind::SingleCharacterClass) | None => false,
    }
}

/// What reports on a document name.
#[derive(Clone, Copy)]
pub struct Addresses<'a> {
    /// The URI of the document.
    pub document: &'a str,
    /// The address of the page on rules, if the client has given it.
    pub rule_page: Option<&'a str>,
}

/// Writes the link to what the page says of the rule.
fn write_link(
    alloc: Global,
    writer: &mut Writer,
    page: &str,
    rule: Rule,
) -> Result<(), AllocError> {
    let address = format!(in alloc; "{page}#{}", rule.name())?;
    writer.key("codeDescription")?;
    writer.begin_object()?;
    write_text(writer, "href", address.as_str())?;
    writer.end_object()
}

/// Writes the part that a message names.
fn write_related(
    writer: &mut Writer,
    uri: &str,
    located: Located<'_, '_>,
    related: &PartText,
) -> Result<(), AllocError> {
    writer.key("relatedInformation")?;
    writer.begin_array()?;
    writer.begin_object()?;
    writer.key("location")?;
    writer.begin_object()?;
    write_text(writer, "uri", uri)?;
    writer.key("range")?;
    located.write_range(writer, related.span)?;
    writer.end_object()?;
    write_text(writer, "message", related.text.as_str())?;
    writer.end_object()?;
    writer.end_array()
}

/// Writes the message of a report, and what to do about it.
fn write_message(alloc: Global, writer: &mut Writer, report: &Report) -> Result<(), AllocError> {
    let message = report.message.as_str();
    match &report.help {
        Some(help) => {
            let text = format!(in alloc; "{message}\nhelp: {help}")?;
            write_text(writer, "message", text.as_str())
        }
        None => write_text(writer, "message", message),
    }
}

/// Writes a report.
fn write_report(
    alloc: Global,
    writer: &mut Writer,
    addresses: Addresses<'_>,
    located: Located<'_, '_>,
    report: &Report,
) -> Result<(), AllocError> {
    writer.begin_object()?;
    writer.key("range")?;
    located.write_range(writer, report.span)?;
    write_number(writer, "severity", severity_number(report.severity))?;
    if let Some(code) = report.code {
        write_text(writer, "code", code)?;
    }
    if let (Some(page), Some(rule)) = (addresses.rule_page, report.rule) {
        write_link(alloc, writer, page, rule)?;
    }
    write_text(writer, "source", "patterns")?;
    write_message(alloc, writer, report)?;
    if report.rule.is_some_and(is_needless) {
        writer.key("tags")?;
        writer.begin_array()?;
        writer.u64(1)?;
        writer.end_array()?;
    }
    if let Some(related) = &report.related {
        write_related(writer, addresses.document, located, related)?;
    }
    writer.end_object()
}

/// Writes a report that is not on a pattern.
fn write_notice(
    writer: &mut Writer,
    position: Position,
    severity: Severity,
    message: &str,
) -> Result<(), AllocError> {
    writer.begin_object()?;
    writer.key("range")?;
    write_range(writer, position, position)?;
    write_number(writer, "severity", severity_number(severity))?;
    write_text(writer, "source", "patterns")?;
    write_text(writer, "message", message)?;
    writer.end_object()
}

/// Writes a notice at the start of a document.
fn write_notice_at_start(
    given: Settings<'_>,
    writer: &mut Writer,
    message: &str,
) -> Result<(), AllocError> {
    let start = Cursor::start(given.encoding, "").position();
    write_notice(writer, start, Severity::Notice, message)
}

/// Writes what is reported on the patterns of a document, one after another.
#[derive(Drop)]
struct ReportWalk<'d> {
    alloc: Global,
    addresses: Addresses<'d>,
    locator: Locator<'d>,
    patterns: &'d mut EditedPatterns,
    /// The patterns before the last change, and those that are there now.
    old: KnownPatterns,
    new: KnownPatterns,
    /// How many reports are written.
    count: usize,
    writer: &'d mut Writer,
}

impl ReportWalk<'_> {
    /// Writes the reports on a pattern.
    fn write(&mut self, located: Located<'_, '_>, reports: &[Report]) -> Result<(), AllocError> {
        for report in reports {
            write_report(self.alloc, self.writer, self.addresses, located, report)?;
        }
        self.count = self.count.saturating_add(reports.len());
        Ok(())
    }

    /// The reports on the pattern of an entry, which are known or are now found.
    fn reports(&mut self, entry: Entry<'_>) -> Result<Vec<Report>, RunError> {
        match self.old.take(entry)? {
            Some(known) => Ok(known),
            None => self.patterns.reports(entry),
        }
    }
}

impl Visitor for ReportWalk<'_> {
    fn pattern(&mut self, entry: Entry<'_>) -> Result<(), RunError> {
        let located = self.locator.locate(entry);
        let reports = self.reports(entry)?;
        self.write(located, &reports)?;
        self.new.push(entry, reports)?;
        if self.count >= MAX_REPORTS {
            let message = format!(in self.alloc; "no more than {MAX_REPORTS} reports are shown")?;
            write_notice(
                self.writer,
                located.start(),
                Severity::Notice,
                message.as_str(),
            )?;
        }
        Ok(())
    }

    fn unread(&mut self, unread: Unread<'_>) -> Result<(), RunError> {
        let (line, column) = unread.position();
        let position = self.locator.position(line, column);
        let message = format!(in self.alloc; "{}", unread.reason)?;
        write_notice(self.writer, position, Severity::Error, message.as_str())?;
        Ok(())
    }

    fn is_done(&self) -> bool {
        self.count >= MAX_REPORTS
    }
}

/// Begins the notification of what is reported on a document. The reports are to be written next.
fn begin_reports(alloc: Global, uri: &str, version: Option<i64>) -> Result<Writer, AllocError> {
    let mut writer = begin_notification(alloc, "textDocument/publishDiagnostics")?;
    writer.begin_object()?;
    write_text(&mut writer, "uri", uri)?;
    if let Some(version) = version {
        writer.key("version")?;
        writer.i64(version)?;
    }
    writer.key("diagnostics")?;
    writer.begin_array()?;
    Ok(writer)
}

/// Ends it.
fn end_reports(mut writer: Writer) -> Result<Vec<u8>, AllocError> {
    writer.end_array()?;
    writer.end_object()?;
    finish(writer)
}

/// Writes what is reported on the patterns of a document, and returns these. Those before its last change are given.
fn write_all(
    given: Settings<'_>,
    addresses: Addresses<'_>,
    source: &DocumentSource,
    patterns: &mut EditedPatterns,
    known: KnownPatterns,
    writer: &mut Writer,
) -> Result<KnownPatterns, RunError> {
    let alloc = given.alloc;
    let flags = patterns.flags;
    let mut walk = ReportWalk {
        alloc,
        addresses,
        locator: Locator::new(given.encoding, source.text()),
        patterns: &mut *patterns,
        old: known,
        new: KnownPatterns::none(alloc),
        count: 0,
        writer: &mut *writer,
    };
    if source.visit(given, flags, &mut walk)? {
        write_notice_at_start(given, walk.writer, TOO_LONG)?;
    }
    Ok(walk.new)
}

/// Writes what is reported on the patterns of a document.
fn write_reports(
    given: Settings<'_>,
    addresses: Addresses<'_>,
    document: &mut OpenDocument,
    writer: &mut Writer,
) -> Result<(), RunError> {
    let known = mem::replace(&mut document.known, KnownPatterns::none(given.alloc));
    let (source, patterns) = (&document.source, &mut document.patterns);
    document.known = write_all(given, addresses, source, patterns, known, writer)?;
    Ok(())
}

/// The notification of what is reported on a document.
pub fn diagnostics(
    given: Settings<'_>,
    addresses: Addresses<'_>,
    document: &mut OpenDocument,
) -> Result<Vec<u8>, RunError> {
    let version = document.source.document.version;
    let mut writer = begin_reports(given.alloc, addresses.document, Some(version))?;
    if document.source.is_large() {
        document.known = KnownPatterns::none(given.alloc);
        write_notice_at_start(given, &mut writer, TOO_LARGE)?;
    } else {
        write_reports(given, addresses, document, &mut writer)?;
    }
    Ok(end_reports(writer)?)
}

/// The notification that nothing is reported on a document that is closed.
pub fn no_diagnostics(alloc: Global, uri: &str) -> Result<Vec<u8>, AllocError> {
    end_reports(begin_reports(alloc, uri, None)?)
}
