//! Edits of a pattern's text.
use fancy_syntax::span::Span;

/// What is reported, where an edit can fix it.
#[derive(Clone, Copy, PartialEq, Eq)]
pub enum FixKind {
    /// A branch that is equal to an earlier one is left out, with its bar.
    DuplicateBranch,
    /// A quantifier that repeats exactly once is left out.
    UselessQuantifier,
    /// The letter of a flag that is set already is left out, with its group if that is then empty.
    UselessFlag,
    /// A class of one character is replaced by the character.
    SingleCharacterClass,
    /// An item of a class, whose characters the others contain, is left out.
    DuplicateCharacters,
}

/// A report, with the part of the pattern that it is on, in byte offsets.
#[derive(Clone, Copy)]
pub struct FixableReport {
    pub kind: FixKind,
    pub span: Span,
}

/// An edit: the part of the pattern at the span, in byte offsets, is replaced by the text.
#[derive(Clone, Copy)]
pub struct Edit<'p> {
    pub span: Span,
    pub text: &'p str,
}

/// The edit that leaves out the part at the span.
fn left_out<'p>(start: usize, end: usize) -> Option<Edit<'p>> {
    Some(Edit {
        span: Span { start, end },
        text: "",
    })
}

/// Whether a comment begins here.
fn is_comment(text: &str) -> bool {
    text.starts_with('#') || text.starts_with("(?#")
}

/// The text up to its first line feed.
fn first_line(text: &str) -> &str {
    match text.find('\n') {
        Some(end) => text.get(..end).unwrap_or(text),
        None => text,
    }
}

/// The text after its last line feed.
fn last_line(text: &str) -> &str {
    match text.rfind('\n') {
        Some(end) => text.get(end.saturating_add(1)..).unwrap_or(text),
        None => text,
    }
}

/// Whether a comment follows on the same line, or one through the end of the line after a bar.
fn has_comment_after(after: &str) -> bool {
    let line = first_line(after).trim_start();
    match line.strip_prefix('|') {
        Some(rest) => rest.trim_start().starts_with('#'),
        None => is_comment(line),
    }
}

/// Whether the text ends with the beginning of a line, and the line before is a comment.
fn has_comment_before(before: &str) -> bool {
    let Some(above) = before
        .trim_end_matches([' ', '\t', '\r'])
        .strip_suffix('\n')
    else {
        return false;
    };
    let line = last_line(above).trim_start();
    is_comment(line)
}

/// Whether a line remains of two, each in part, where the text between goes.
fn joins_lines(before: &str, between: &str, after: &str) -> bool {
    let first = last_line(before).trim_start();
    let last = first_line(after).trim_start();
    between.contains('\n') && !first.is_empty() && !last.is_empty()
}

/// The edit that leaves out the branch and the bar before it. None if a comment is beside the branch, which may be about
/// it, or if parts of two lines would become one line.
fn without_branch<'p>(pattern: &str, branch: Span) -> Option<Edit<'p>> {
    let before = pattern.get(..branch.start)?.trim_end().strip_suffix('|')?;
    let between = pattern.get(before.len()..branch.end)?;
    let after = pattern.get(branch.end..)?;
    if has_comment_before(before)
        || has_comment_after(after)
        || joins_lines(before, between, after)
    {
        return None;
    }
    left_out(before.len(), branch.end)
}

/// The edit that leaves out the quantifier in braces, which the text at the span ends with.
fn without_quantifier<'p>(pattern: &str, quantified: Span) -> Option<Edit<'p>> {
    let text = quantified.text(pattern)?;
    let greedy = text.strip_suffix('?').unwrap_or(text);
    if !greedy.ends_with('}') {
        return None;
    }
    let start = text.rfind('{')?;
    left_out(quantified.start.saturating_add(start), quantified.end)
}

/// The edit that leaves out the brackets of a class of one letter or digit.
fn without_brackets(pattern: &str, class: Span) -> Option<Edit<'_>> {
    let inside = class.text(pattern)?.strip_prefix('[')?.strip_suffix(']')?;
    Some(Edit {
        span: class,
        text: inside,
    })
}

/// Whether the character may be among the letters of flags.
fn is_among_letters(c: char) -> bool {
    c.is_ascii_alphabetic() || c.is_ascii_whitespace()
}

/// The span of the letters of flags around the one at the span, from after `(?` on; none if they are no such letters, or
/// a hyphen is among them.
fn letters_around(pattern: &str, letter: Span) -> Option<Span> {
    let before = pattern
        .get(..letter.start)?
        .trim_end_matches(is_among_letters);
    let after = pattern
        .get(letter.end..)?
        .trim_start_matches(is_among_letters);
    if !before.ends_with("(?") || !after.starts_with([')', ':']) {
        return None;
    }
    Some(Span {
        start: before.len(),
        end: pattern.len().saturating_sub(after.len()),
    })
}

/// Whether each letter at the span is one of a flag that is reported.
fn are_all_reported(pattern: &str, letters: Span, reports: &[FixableReport]) -> bool {
    let text = letters.text(pattern).unwrap_or("");
    let count = text.chars().filter(|c| c.is_ascii_alphabetic()).count();
    let reported = reports
        .iter()
        .filter(|report| {
            report.kind == FixKind::UselessFlag
                && letters.start <= report.span.start
                && report.span.end <= letters.end
        })
        .count();
    count <= reported
}

/// The edit that leaves out the letter of a flag. If all letters of its group are reported, they are left out, and with
/// them the group, unless it has contents.
fn without_flag<'p>(pattern: &str, letter: Span, reports: &[FixableReport]) -> Option<Edit<'p>> {
    let Some(letters) = letters_around(pattern, letter) else {
        return left_out(letter.start, letter.end);
    };
    if !are_all_reported(pattern, letters, reports) {
        return left_out(letter.start, letter.end);
    }
    if pattern.get(letters.end..)?.starts_with(':') {
        return left_out(letters.start, letters.end);
    }
    left_out(
        letters.start.saturating_sub(2),
        letters.end.saturating_add(1),
    )
}

/// The edit that fixes the report, one of these on the pattern; none if there is no plain one.
pub(crate) fn edit_of<'p>(
    pattern: &'p str,
    report: FixableReport,
    reports: &[FixableReport],
) -> Option<Edit<'p>> {
    match report.kind {
        FixKind::DuplicateBranch => without_branch(pattern, report.span),
        FixKind::UselessQuantifier => without_quantifier(pattern, report.span),
        FixKind::UselessFlag => without_flag(pattern, report.span, reports),
        FixKind::SingleCharacterClass => without_brackets(pattern, report.span),
        FixKind::DuplicateCharacters => left_out(report.span.start, report.span.end),
    }
}
