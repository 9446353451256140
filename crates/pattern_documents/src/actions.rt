//! Code actions: fixes, one by one and all of a rule in the document, and comments that silence a rule in a pattern.
ghost use Rattle.std.specs.Prelude.{◌≡◌, ◌++◌, take, drop, string_bytes, IfOk, IfSome};

use crate::action_kinds::{ActionKinds, FIX_ALL, QUICK_FIX};
use crate::document::{OpenDocument, Settings};
use crate::ranges::{Located, Locator, touches};
use fancy_syntax::span::Span;
use json::Writer;
use lint_rules::chosen::{Chosen, Level};
use lint_rules::rule::Rule;
use pattern_files::entry::{Entry, Visitor};
use pattern_reports::fixes::PartText;
use pattern_reports::json_lines::fields::write_text;
use pattern_reports::kept::Report;
use patterns_lint::silenced::PREFIX;
use patterns_program::edited::EditedPatterns;
use patterns_text::error::RunError;
use source_literals::replaced::Replacement;
use std::alloc::{AllocError, Global};

/// Writes the edit that makes a pattern of a document another one.
pub fn write_edit(
    writer: &mut Writer,
    located: Located<'_, '_>,
    part: &Replacement,
) -> Result<(), AllocError> {
    writer.begin_object()?;
    writer.key("range")?;
    located.write_whole(writer)?;
    write_text(writer, "newText", part.text.as_str())?;
    writer.end_object()
}

/// Begins a change of a workspace: the edits of this document are to be written next.
pub fn begin_changes(writer: &mut Writer, uri: &str) -> Result<(), AllocError> {
    writer.begin_object()?;
    writer.key("changes")?;
    writer.begin_object()?;
    writer.key(uri)?;
    writer.begin_array()
}

/// Ends a change of a workspace.
pub fn end_changes(writer: &mut Writer) -> Result<(), AllocError> {
    writer.end_array()?;
    writer.end_object()?;
    writer.end_object()
}

/// What an action is called, and its kind.
#[derive(Clone, Copy)]
struct Heading<'a> {
    title: &'a str,
    kind: &'static str,
}

/// The action that fixes all reports of a document.
const FIX_ALL_HEADING: Heading<'static> = Heading {
    title: "Fix all in this file",
    kind: FIX_ALL,
};

/// Begins an action: the edits of this document are to be written next.
fn begin_action(writer: &mut Writer, heading: Heading<'_>, uri: &str) -> Result<(), AllocError> {
    writer.begin_object()?;
    write_text(writer, "title", heading.title)?;
    write_text(writer, "kind", heading.kind)?;
    writer.key("edit")?;
    begin_changes(writer, uri)
}

/// Ends an action.
fn end_action(writer: &mut Writer) -> Result<(), AllocError> {
    end_changes(writer)?;
    writer.end_object()
}

/// The pattern with the part replaced; None if it is no part of the pattern.
fn with_fix(alloc: Global, pattern: &str, fix: &PartText) -> Result<Option<String>, AllocError>
    ensures { IfOk result (λ found. IfSome found (λ fixed. string_bytes fixed
        ≡ take fix.now.span.start pattern.now ++ (string_bytes fix.now.text ++ drop fix.now.span.end pattern.now))) }
{
    let Some(before) = pattern.get(..fix.span.start) else {
        return Ok(None);
    };
    let Some(after) = pattern.get(fix.span.end..) else {
        return Ok(None);
    };
    Ok(Some(format!(in alloc; "{before}{}{after}", fix.text)?))
}

/// The pattern after a comment that silences the rule in it.
fn with_silence(alloc: Global, pattern: &str, rule: Rule) -> Result<String, AllocError> {
    format!(in alloc; "(?#{PREFIX}{}){pattern}", rule.name())
}

/// Writes the actions on single reports, and notes the rules of those that can be fixed.
#[derive(Drop)]
struct ActionWalk<'d> {
    alloc: Global,
    uri: &'d str,
    locator: Locator<'d>,
    patterns: &'d mut EditedPatterns,
    /// The part of the document that actions are asked for, in byte offsets.
    part: Span,
    rules: Vec<Rule>,
    writer: &'d mut Writer,
}

impl ActionWalk<'_> {
    /// Writes the action that makes a pattern this one, if it can.
    fn write(
        &mut self,
        located: Located<'_, '_>,
        title: &str,
        text: &str,
    ) -> Result<bool, RunError> {
        let Some(part) = self.patterns.fixed_to(located.entry, text)? else {
            return Ok(false);
        };
        let kind = QUICK_FIX;
        begin_action(self.writer, Heading { title, kind }, self.uri)?;
        write_edit(self.writer, located, &part)?;
        end_action(self.writer)?;
        Ok(true)
    }

    /// Writes the action that fixes the report of the rule, if there is one.
    fn write_fix(
        &mut self,
        located: Located<'_, '_>,
        report: &Report,
        rule: Rule,
    ) -> Result<(), RunError> {
        let Some(fix) = &report.fix else {
            return Ok(());
        };
        let Some(text) = with_fix(self.alloc, located.entry.pattern, fix)? else {
            return Ok(());
        };
        let title = format!(in self.alloc; "Fix: {} [{}]", report.message, rule.name())?;
        let is_written = self.write(located, title.as_str(), text.as_str())?;
        if is_written && !self.rules.contains(&rule) {
            self.rules.push(rule)?;
        }
        Ok(())
    }

    /// Writes the action that silences the rule in the pattern.
    fn write_silence(&mut self, located: Located<'_, '_>, rule: Rule) -> Result<(), RunError> {
        let text = with_silence(self.alloc, located.entry.pattern, rule)?;
        let title = format!(in self.alloc; "Allow [{}] in this pattern", rule.name())?;
        self.write(located, title.as_str(), text.as_str())?;
        Ok(())
    }

    /// Writes the actions on the reports that touch the part.
    fn write_all(&mut self, located: Located<'_, '_>, reports: &[Report]) -> Result<(), RunError> {
        let mut silenced = Vec::new(self.alloc);
        for report in reports {
            let Some(rule) = report.rule else {
                continue;
            };
            if !touches(self.part, located.bytes(report.span)) {
                continue;
            }
            self.write_fix(located, report, rule)?;
            if !silenced.contains(&rule) {
                silenced.push(rule)?;
                self.write_silence(located, rule)?;
            }
        }
        Ok(())
    }
}

impl Visitor for ActionWalk<'_> {
    fn pattern(&mut self, entry: Entry<'_>) -> Result<(), RunError> {
        let located = self.locator.locate(entry);
        if !touches(self.part, entry.span) {
            return Ok(());
        }
        let reports = self.patterns.reports(entry)?;
        self.write_all(located, &reports)
    }
}

/// Writes the action that fixes all reports of patterns, if one can be fixed.
#[derive(Drop)]
struct FixWalk<'d> {
    heading: Heading<'d>,
    uri: &'d str,
    locator: Locator<'d>,
    patterns: EditedPatterns,
    /// Whether an edit is written.
    is_begun: bool,
    writer: &'d mut Writer,
}

impl Visitor for FixWalk<'_> {
    fn pattern(&mut self, entry: Entry<'_>) -> Result<(), RunError> {
        let located = self.locator.locate(entry);
        let Some(part) = self.patterns.fixed(entry)? else {
            return Ok(());
        };
        if !self.is_begun {
            begin_action(self.writer, self.heading, self.uri)?;
            self.is_begun = true;
        }
        write_edit(self.writer, located, &part)?;
        Ok(())
    }
}

/// Writes the action that fixes all reports of a document under these levels of rules, if one can be fixed.
fn write_fixes(
    given: Settings<'_>,
    uri: &str,
    document: &OpenDocument,
    levels: Chosen,
    heading: Heading<'_>,
    writer: &mut Writer,
) -> Result<(), RunError> {
    let flags = document.patterns.flags;
    let mut walk = FixWalk {
        heading,
        uri,
        locator: Locator::new(given.encoding, document.source.text()),
        patterns: EditedPatterns::new(given.alloc, flags, levels),
        is_begun: false,
        writer,
    };
    document.source.visit(given, flags, &mut walk)?;
    if walk.is_begun {
        end_action(walk.writer)?;
    }
    Ok(())
}

/// Writes the action that fixes all reports of the rule in a document.
fn write_fix_of_rule(
    given: Settings<'_>,
    uri: &str,
    document: &OpenDocument,
    rule: Rule,
    writer: &mut Writer,
) -> Result<(), RunError> {
    let title = format!(in given.alloc; "Fix all [{}] in this file", rule.name())?;
    let mut levels = document.patterns.levels;
    levels.set_all(Level::Allow);
    levels.set(rule, Level::Warn);
    let heading = Heading {
        title: title.as_str(),
        kind: QUICK_FIX,
    };
    write_fixes(given, uri, document, levels, heading, writer)
}

/// Writes the actions on the reports in a part of a document.
fn write_quick_fixes(
    given: Settings<'_>,
    uri: &str,
    document: &mut OpenDocument,
    part: Span,
    writer: &mut Writer,
) -> Result<(), RunError> {
    let alloc = given.alloc;
    let flags = document.patterns.flags;
    let mut walk = ActionWalk {
        alloc,
        uri,
        locator: Locator::new(given.encoding, document.source.text()),
        patterns: &mut document.patterns,
        part,
        rules: Vec::new(alloc),
        writer: &mut *writer,
    };
    document.source.visit(given, flags, &mut walk)?;
    let ActionWalk {
        alloc: _,
        uri: _,
        locator: _,
        patterns: _,
        part: _,
        rules,
        writer: _,
    } = walk;
    for rule in &rules {
        write_fix_of_rule(given, uri, document, *rule, writer)?;
    }
    Ok(())
}

/// Writes the actions of these kinds for a part of a document, as a list.
pub fn write_actions(
    given: Settings<'_>,
    uri: &str,
    document: &mut OpenDocument,
    part: Span,
    kinds: ActionKinds,
    writer: &mut Writer,
) -> Result<(), RunError> {
    writer.begin_array()?;
    if kinds.has_quick_fixes {
        write_quick_fixes(given, uri, document, part, writer)?;
    }
    if kinds.has_fix_all {
        let levels = document.patterns.levels;
        write_fixes(given, uri, document, levels, FIX_ALL_HEADING, writer)?;
    }
    writer.end_array()?;
    Ok(())
}
