//! Reports as SARIF, 2.1.0.
use crate::annotation::{
    Annotation, error_annotation, not_searched_annotations, problem_annotations,
};
use crate::error_kinds::ERROR_KINDS;
use crate::json_lines::fields::{write_number, write_text};
use crate::reporter::Reporter;
use crate::reports::ReportLog;
use fancy_syntax::span::Span;
use fancy_syntax::spanned::SpannedTree;
use json::Writer;
use lint_rules::chosen::Chosen;
use lint_rules::problem::Found;
use lint_rules::rule::RULES;
use patterns_text::error::RunError;
use patterns_text::position::FilePosition;
use patterns_text::subject::{Refusal, Subject};
use percent_encoding::{AsciiSet, NON_ALPHANUMERIC, utf8_percent_encode};
use std::alloc::{AllocError, Global};
use std::io::Write;

/// The schema that the output is valid by.
const SCHEMA: &str = "https://json.schemastore.org/sarif-2.1.0.json";

/// What to do about an error.
const ERROR_HELP: &str =
    "the page docs/grammar.md says what the syntax is, and when there is this error";

/// The characters of ASCII that are escaped in the path of a file: all but letters, digits, `-`, `.`, `_`, `~` and `/`.
fn escaped_in_paths() -> AsciiSet {
    NON_ALPHANUMERIC
        .remove(b'-')
        .remove(b'.')
        .remove(b'_')
        .remove(b'~')
        .remove(b'/')
}

/// Writes a member that is a message: an object with its text.
fn write_message(writer: &mut Writer, name: &str, text: &str) -> Result<(), AllocError> {
    writer.key(name)?;
    writer.begin_object()?;
    write_text(writer, "text", text)?;
    writer.end_object()
}

/// Writes a rule: its name, what it reports, and what to do about a report of it.
fn write_rule(
    writer: &mut Writer,
    name: &str,
    description: &str,
    help: &str,
) -> Result<(), AllocError> {
    writer.begin_object()?;
    write_text(writer, "id", name)?;
    write_message(writer, "shortDescription", description)?;
    write_message(writer, "help", help)?;
    writer.end_object()
}

/// Writes the rules of which there may be reports: the kinds of errors, and those of `lint` if they are looked for.
fn write_rules(writer: &mut Writer, is_lint: bool) -> Result<(), AllocError> {
    writer.key("rules")?;
    writer.begin_array()?;
    for (name, sentence) in ERROR_KINDS.iter() {
        write_rule(writer, name, sentence, ERROR_HELP)?;
    }
    if is_lint {
        for rule in RULES.iter() {
            write_rule(writer, rule.name, rule.what, rule.help)?;
        }
    }
    writer.end_array()
}

/// Writes the tool, with its rules.
fn write_tool(writer: &mut Writer, is_lint: bool) -> Result<(), AllocError> {
    writer.key("tool")?;
    writer.begin_object()?;
    writer.key("driver")?;
    writer.begin_object()?;
    write_text(writer, "name", "patterns")?;
    write_rules(writer, is_lint)?;
    writer.end_object()?;
    writer.end_object()
}

/// What comes before the results: the tool with its rules.
fn sarif_start(alloc: Global, is_lint: bool) -> Result<Vec<u8>, AllocError> {
    let mut writer = Writer::new(Vec::new(alloc));
    writer.begin_object()?;
    write_text(&mut writer, "$schema", SCHEMA)?;
    write_text(&mut writer, "version", "2.1.0")?;
    writer.key("runs")?;
    writer.begin_array()?;
    writer.begin_object()?;
    write_tool(&mut writer, is_lint)?;
    write_text(&mut writer, "columnKind", "unicodeCodePoints")?;
    writer.key("results")?;
    writer.begin_array()?;
    Ok(writer.into_inner())
}

/// Writes the part of the file, by lines and columns from 1; the end is past its last character.
fn write_region(
    writer: &mut Writer,
    start: FilePosition,
    end: FilePosition,
) -> Result<(), AllocError> {
    writer.key("region")?;
    writer.begin_object()?;
    write_number(writer, "startLine", start.line)?;
    write_number(writer, "startColumn", start.character)?;
    write_number(writer, "endLine", end.line)?;
    write_number(writer, "endColumn", end.character)?;
    writer.end_object()
}

/// Writes where the report is. The path of the file is a relative reference, in which other characters are escaped.
fn write_location(
    alloc: Global,
    writer: &mut Writer,
    file: &str,
    annotation: &Annotation,
) -> Result<(), AllocError> {
    let mut uri = String::new(alloc);
    utf8_percent_encode(file, escaped_in_paths()).append_to(&mut uri)?;
    writer.key("locations")?;
    writer.begin_array()?;
    writer.begin_object()?;
    writer.key("physicalLocation")?;
    writer.begin_object()?;
    writer.key("artifactLocation")?;
    writer.begin_object()?;
    write_text(writer, "uri", uri.as_str())?;
    writer.end_object()?;
    write_region(writer, annotation.start, annotation.end)?;
    writer.end_object()?;
    writer.end_object()?;
    writer.end_array()
}

/// The result that is the report, as an object in one line.
fn sarif_result(alloc: Global, file: &str, annotation: &Annotation) -> Result<Vec<u8>, AllocError> {
    let mut writer = Writer::new(Vec::new(alloc));
    writer.begin_object()?;
    if let Some(rule) = annotation.rule {
        write_text(&mut writer, "ruleId", rule)?;
    }
    write_text(&mut writer, "level", annotation.severity.word())?;
    write_message(&mut writer, "message", annotation.message.as_str())?;
    write_location(alloc, &mut writer, file, annotation)?;
    writer.end_object()?;
    Ok(writer.into_inner())
}

/// Reports as one object of JSON, with a line for each report.
#[derive(Drop)]
pub struct Sarif<'a> {
    pub(crate) out: &'a mut Vec<u8>,
    pub(crate) log: &'a mut ReportLog,
}

impl Sarif<'_> {
    /// Writes the results of the annotations.
    fn write(&mut self, subject: Subject<'_>, annotations: &[Annotation]) -> Result<(), RunError> {
        for annotation in annotations {
            let result = sarif_result(subject.alloc, subject.at.file, annotation)?;
            let before: &[u8] = if self.log.has_reports { b",\n" } else { b"\n" };
            self.out.write_all(before)?;
            self.out.write_all(&result)?;
            self.log.has_reports = true;
        }
        Ok(())
    }
}

impl Reporter for Sarif<'_> {
    fn begin(&mut self, alloc: Global, is_lint: bool) -> Result<(), RunError> {
        self.out.write_all(&sarif_start(alloc, is_lint)?)?;
        Ok(())
    }

    fn error(&mut self, subject: Subject<'_>, refusal: &Refusal) -> Result<(), RunError> {
        self.write(subject, &[error_annotation(subject, refusal)?])
    }

    fn problems(
        &mut self,
        subject: Subject<'_>,
        _parsed: &SpannedTree,
        chosen: &Chosen,
        found: &[Found<'_>],
    ) -> Result<(), RunError> {
        self.write(subject, &problem_annotations(subject, chosen, found)?)
    }

    fn not_searched(&mut self, subject: Subject<'_>, parts: &[Span]) -> Result<(), RunError> {
        self.write(subject, &not_searched_annotations(subject, parts)?)
    }

    fn end(&mut self) -> Result<(), RunError> {
        self.out.write_all(b"\n]}]}\n")?;
        Ok(())
    }
}
