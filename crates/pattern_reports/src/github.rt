//! Reports as the workflow commands of GitHub's actions.
ghost use Rattle.std.specs.Prelude.{◌≡◌, ◌++◌, ◌∷◌, [], chars, codes, true, IfOk, OnOk};
ghost use Rattle.fancy_lex.specs.Text.{text_of};
ghost use Rattle.pattern_reports.specs.WorkflowCommand as spec;

use crate::annotation::{
    Annotation, error_annotation, not_searched_annotations, problem_annotations,
};
use crate::reporter::Reporter;
use crate::severity::Severity;
use fancy_lex::text::{next, push};
use fancy_syntax::span::Span;
use fancy_syntax::spanned::SpannedTree;
use lint_rules::chosen::Chosen;
use lint_rules::problem::Found;
use patterns_text::error::RunError;
use patterns_text::position::FilePosition;
use patterns_text::shown::Shown;
use patterns_text::subject::{Refusal, Subject};
use std::alloc::{AllocError, Global};
use std::io::Write;

/// Adds a `%` and the two digits.
fn push_code(out: &mut String, high: char, low: char) -> Result<(), AllocError>
    ensures { OnOk result (text_of out.new ≡ text_of out.old ++ codes "%" ++ high ∷ low ∷ []) }
{
    push(out, '%')?;
    push(out, high)?;
    push(out, low)
}

/// Adds a character, by its code in hexadecimal after a `%` if it would end the line or the text.
fn push_escaped(out: &mut String, c: char, is_property: bool) -> Result<(), AllocError>
    ensures { OnOk result (text_of out.new ≡ text_of out.old ++ spec.escape is_property c) }
{
    match c {
        '%' => push_code(out, '2', '5'),
        '\r' => push_code(out, '0', 'D'),
        '\n' => push_code(out, '0', 'A'),
        ':' if is_property => push_code(out, '3', 'A'),
        ',' if is_property => push_code(out, '2', 'C'),
        _ => push(out, c),
    }
}

/// Adds a text with its characters escaped.
fn append_escaped(out: &mut String, text: &str, is_property: bool) -> Result<(), AllocError>
    ensures { OnOk result (text_of out.new ≡ text_of out.old ++ spec.escaped is_property (chars text.now)) }
{
    let mut rest = text;
    while let Some((c, tail)) = next(rest) {
        push_escaped(out, c, is_property)?;
        rest = tail;
    }
    Ok(())
}

/// Adds a property: its name and its value.
#[tactic(auto, using(crate::proofs::EscapeLemmas::line_steps))]
fn append_property(out: &mut String, name: &str, value: &str) -> Result<(), AllocError>
    ensures { OnOk result (spec.is_in_line (text_of out.new) ≡ spec.is_in_line (text_of out.old)) }
{
    append_escaped(out, name, true)?;
    push(out, '=')?;
    append_escaped(out, value, true)
}

/// Adds another property, which is a number.
#[tactic(auto, using(crate::proofs::EscapeLemmas::line_steps))]
fn append_number(alloc: Global, out: &mut String, name: &str, value: u64) -> Result<(), AllocError>
    ensures { OnOk result (spec.is_in_line (text_of out.new) ≡ spec.is_in_line (text_of out.old)) }
{
    push(out, ',')?;
    append_property(out, name, format!(in alloc; "{value}")?.as_str())
}

/// Adds the title, if there is one.
#[tactic(auto, using(crate::proofs::EscapeLemmas::line_steps))]
fn append_title(out: &mut String, title: Option<&str>) -> Result<(), AllocError>
    ensures { OnOk result (spec.is_in_line (text_of out.new) ≡ spec.is_in_line (text_of out.old)) }
{
    let Some(title) = title else {
        return Ok(());
    };
    push(out, ',')?;
    append_property(out, "title", title)
}

/// Adds the delimiter of a command, and the text after it.
#[tactic(auto, using(crate::proofs::EscapeLemmas::line_steps))]
fn append_delimited(out: &mut String, text: &str) -> Result<(), AllocError>
    ensures { OnOk result (spec.is_in_line (text_of out.new) ≡ spec.is_in_line (text_of out.old)) }
{
    push(out, ':')?;
    push(out, ':')?;
    append_escaped(out, text, false)
}

/// The command for an annotation.
fn command_name(severity: Severity) -> &'static str {
    match severity {
        Severity::Error => "error",
        Severity::Warning => "warning",
        Severity::Notice => "notice",
    }
}

/// The beginning of a command, up to the file.
#[tactic(auto, using(crate::proofs::EscapeLemmas::line_steps))]
fn beginning(alloc: Global, severity: Severity, file: &str) -> Result<String, AllocError>
    ensures { IfOk result (λ line. spec.is_in_line (text_of line) ≡ true) }
{
    let mut line = String::new(alloc);
    append_delimited(&mut line, command_name(severity))?;
    push(&mut line, ' ')?;
    append_property(&mut line, "file", file)?;
    Ok(line)
}

/// Adds the part of the file.
#[tactic(auto, using(crate::proofs::EscapeLemmas::line_steps))]
fn append_region(
    alloc: Global,
    out: &mut String,
    start: FilePosition,
    end: FilePosition,
) -> Result<(), AllocError>
    ensures { OnOk result (spec.is_in_line (text_of out.new) ≡ spec.is_in_line (text_of out.old)) }
{
    append_number(alloc, out, "line", start.line)?;
    append_number(alloc, out, "endLine", end.line)?;
    append_number(alloc, out, "col", start.character)?;
    append_number(alloc, out, "endColumn", end.character)
}

/// The command that makes the annotation. It has no line end.
#[tactic(auto, using(crate::proofs::EscapeLemmas::line_steps))]
fn command(alloc: Global, file: &str, annotation: &Annotation) -> Result<String, AllocError>
    ensures { IfOk result (λ line. spec.is_in_line (text_of line) ≡ true) }
{
    let mut line = beginning(alloc, annotation.severity, file)?;
    append_region(alloc, &mut line, annotation.start, annotation.end)?;
    append_title(&mut line, annotation.rule)?;
    append_delimited(&mut line, annotation.message.as_str())?;
    Ok(line)
}

/// Reports as workflow commands, a line each.
#[derive(Drop)]
pub struct Github<'a> {
    pub(crate) out: &'a mut Vec<u8>,
}

impl Github<'_> {
    /// Writes the commands of the annotations. In the log of a job the name of the file is shown to people.
    fn write(&mut self, subject: Subject<'_>, annotations: &[Annotation]) -> Result<(), RunError> {
        let file = format!(in subject.alloc; "{}", Shown(subject.at.file))?;
        for annotation in annotations {
            let line = command(subject.alloc, file.as_str(), annotation)?;
            self.out.write_all(line.as_bytes())?;
            self.out.write_all(b"\n")?;
        }
        Ok(())
    }
}

impl Reporter for Github<'_> {
    fn error(&mut self, subject: Subject<'_>, refusal: &Refusal) -> Result<(), RunError> {
        self.write(subject, &[error_annotation(subject, refusal)?])
    }

    fn problems(
        &mut self,
        subject: Subject<'_>,
        _parsed: &SpannedTree,
        chosen: &Chosen,
        found: &[Found<'_>],
    ) -> Result<(), RunError> {
        self.write(subject, &problem_annotations(subject, chosen, found)?)
    }

    fn not_searched(&mut self, subject: Subject<'_>, parts: &[Span]) -> Result<(), RunError> {
        self.write(subject, &not_searched_annotations(subject, parts)?)
    }
}
