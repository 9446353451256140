//! The walk over the patterns of a file.
use crate::entry::{Entry, Unread, UnreadReason, Visitor};
use crate::form::FileFormat;
use crate::lines::{LineRecord, Start, lines_in, next_record};
use crate::record::{RecordError, read_record};
use crate::values::keys::Keys;
use crate::values::open_rules::OpenRules;
use crate::values::trail::{Tokens, Trail};
use crate::values::{json_problem, json_text};
use fancy_syntax::span::Span;
use json::{Scratch, Token};
use patterns_text::error::RunError;
use patterns_text::grammar_rule::GrammarRule;
use patterns_text::position::Spot;
use std::alloc::Global;
use std::io::BufRead;
use std::str;

/// How a file is walked over.
#[derive(Clone, Copy)]
pub struct FileShape<'a> {
    pub form: FileFormat<'a>,
    /// The flags under which the groups of a grammar's patterns are counted.
    pub flags: u32,
    /// Whether it is read what the rules of grammars say of groups.
    pub has_grammars: bool,
}

/// Visits the patterns of a file. Each line is read when the one before it has been visited, and JSON is read whole. It is
/// an error if memory runs out, or of the visitor. A byte order mark is passed over.
pub fn visit<R: BufRead, V: Visitor>(
    alloc: Global,
    shape: FileShape<'_>,
    file: &str,
    reader: &mut R,
    visitor: &mut V,
) -> Result<(), RunError> {
    match shape.form {
        FileFormat::Records(_) | FileFormat::Extracted => {
            visit_lines(alloc, shape.form, file, reader, visitor)
        }
        FileFormat::Values(keys) => {
            let texts = TextShape {
                keys: Some(keys),
                flags: shape.flags,
                is_grammar: shape.has_grammars && keys.has_textmate,
            };
            visit_texts(alloc, texts, file, reader, visitor)
        }
    }
}

/// A line of a file.
#[derive(Clone, Copy)]
struct FileLine<'a> {
    file: &'a str,
    /// Its number, from 1.
    number: u64,
    /// The byte offset at which it begins.
    start: usize,
    /// What it holds without its end, and its end.
    text: &'a [u8],
    end: &'a [u8],
}

impl<'a> FileLine<'a> {
    /// The line as a pattern, whose text this is.
    fn entry(self, pattern: &'a str) -> Entry<'a> {
        let start = self.start;
        let end = start.saturating_add(pattern.len());
        Entry {
            span: Span { start, end },
            ..Entry::of_line(self.file, self.number, pattern, self.end)
        }
    }

    /// That the line is not read.
    fn unread(self, reason: UnreadReason) -> Unread<'a> {
        Unread {
            file: self.file,
            line: Some(LineRecord {
                text: self.text,
                end: self.end,
            }),
            reason,
        }
    }
}

/// Visits the pattern of a line that is a record, whose text this is.
fn visit_record<V: Visitor>(
    alloc: Global,
    line: FileLine<'_>,
    text: &str,
    visitor: &mut V,
) -> Result<(), RunError> {
    if let Some(reason) = json_problem(alloc, text, Some(line.number))? {
        return visitor.unread(line.unread(reason));
    }
    let mut scratch = Scratch::new(alloc);
    match read_record(alloc, text, line.number, &mut scratch) {
        Ok(record) => visitor.pattern(record.entry(line.file)),
        Err(RecordError::Memory(error)) => Err(RunError::Memory(error)),
        Err(RecordError::Refused(refusal)) => {
            visitor.unread(line.unread(UnreadReason::NotRecord(line.number, refusal)))
        }
    }
}

/// Visits the pattern of a line.
fn visit_line<V: Visitor>(
    alloc: Global,
    form: FileFormat<'_>,
    line: FileLine<'_>,
    visitor: &mut V,
) -> Result<(), RunError> {
    let Ok(text) = str::from_utf8(line.text) else {
        return visitor.unread(line.unread(UnreadReason::NotText(line.number)));
    };
    match form {
        FileFormat::Extracted => visit_record(alloc, line, text, visitor),
        FileFormat::Records(_) | FileFormat::Values(_) => visitor.pattern(line.entry(text)),
    }
}

/// Visits the patterns of the lines of a reader, which begins at the byte offset of the file.
fn visit_rest<R: BufRead, V: Visitor>(
    alloc: Global,
    form: FileFormat<'_>,
    file: &str,
    start: usize,
    reader: &mut R,
    visitor: &mut V,
) -> Result<(), RunError> {
    let mut buffer = Vec::new(alloc);
    let (mut number, mut start) = (1u64, start);
    for _ in 0..u64::MAX {
        if visitor.is_done() {
            break;
        }
        let record = match next_record(reader, form.ending(), &mut buffer) {
            Ok(Some(record)) => record,
            Ok(None) => break,
            Err(error) => return visitor.unread(Unread::by_system(file, error)?),
        };
        let line = FileLine {
            file,
            number,
            start,
            text: record.text,
            end: record.end,
        };
        visit_line(alloc, form, line, visitor)?;
        number = number.saturating_add(lines_in(record.text));
        start = start.saturating_add(record.len());
    }
    Ok(())
}

/// Visits the patterns of lines, or of records.
pub(crate) fn visit_lines<R: BufRead, V: Visitor>(
    alloc: Global,
    form: FileFormat<'_>,
    file: &str,
    reader: &mut R,
    visitor: &mut V,
) -> Result<(), RunError> {
    let start = match Start::take(alloc, reader) {
        Ok(start) => start,
        Err(error) => return visitor.unread(Unread::by_system(file, error)?),
    };
    if start.has_bom && matches!(form, FileFormat::Records(_)) {
        visitor.bom()?;
    }
    visit_rest(
        alloc,
        form,
        file,
        start.offset(),
        &mut start.chain(reader),
        visitor,
    )
}

/// Which texts of JSON are visited, and what is read with them.
#[derive(Clone, Copy)]
pub(crate) struct TextShape<'a> {
    /// The keys that they are under; if there are none, all texts are visited.
    keys: Option<Keys<'a>>,
    /// The flags under which the groups of a grammar's patterns are counted.
    flags: u32,
    /// Whether it is read what the rules of a grammar say of groups.
    is_grammar: bool,
}

impl TextShape<'_> {
    /// All texts are visited, and nothing is read with them.
    pub(crate) const ALL: TextShape<'static> = TextShape {
        keys: None,
        flags: 0,
        is_grammar: false,
    };
}

/// A text that is valid JSON.
#[derive(Clone, Copy)]
struct JsonFile<'a> {
    file: &'a str,
    text: &'a str,
    /// The byte offset in the file at which it begins.
    start: usize,
}

/// The text that the walk has come to, as a pattern.
fn text_entry<'a>(
    json: JsonFile<'a>,
    tokens: &Tokens<'a>,
    spot: Spot<'a>,
    key: &'a str,
    pattern: &'a str,
    grammar: Option<&'a GrammarRule>,
) -> Entry<'a> {
    let contents = tokens.contents();
    let start = json.start.saturating_add(tokens.start()).saturating_add(1);
    Entry {
        pattern,
        flags: None,
        dialect: None,
        file: json.file,
        spot,
        span: Span {
            start,
            end: start.saturating_add(contents.len()),
        },
        contents,
        end: b"\n",
        key,
        grammar,
        record: None,
    }
}

/// Visits texts of JSON that is valid.
fn visit_json<V: Visitor>(
    alloc: Global,
    shape: TextShape<'_>,
    json: JsonFile<'_>,
    visitor: &mut V,
) -> Result<(), RunError> {
    let mut scratch = Scratch::new(alloc);
    let mut rule_scratch = Scratch::new(alloc);
    let TextShape {
        keys,
        flags,
        is_grammar,
    } = shape;
    let mut rules = OpenRules::new(alloc, flags, json.text, &mut rule_scratch, is_grammar)?;
    let mut tokens = Tokens::new(json.text, &mut scratch)?;
    let mut trail = Trail::new(alloc);
    for _ in 0..=json.text.len() {
        if visitor.is_done() {
            break;
        }
        let Some(token) = tokens.next() else {
            break;
        };
        if let Token::String(pattern) = token
            && trail.is_under(keys)
        {
            let rule = rules.rule()?;
            let spot = trail.spot(tokens.position(), keys);
            let entry = text_entry(json, &tokens, spot, trail.key(), pattern, rule.as_ref());
            visitor.pattern(entry)?;
        }
        trail.pass(token)?;
        rules.pass()?;
    }
    Ok(())
}

/// Visits texts of the JSON of a reader.
pub(crate) fn visit_texts<R: BufRead, V: Visitor>(
    alloc: Global,
    shape: TextShape<'_>,
    file: &str,
    reader: &mut R,
    visitor: &mut V,
) -> Result<(), RunError> {
    let mut bytes = Vec::new(alloc);
    if let Err(error) = reader.read_to_end(&mut bytes) {
        return visitor.unread(Unread::by_system(file, error)?);
    }
    match json_text(alloc, &bytes)? {
        Ok(text) => {
            let start = bytes.len().saturating_sub(text.len());
            visit_json(alloc, shape, JsonFile { file, text, start }, visitor)
        }
        Err(reason) => visitor.unread(Unread::of_file(file, reason)),
    }
}
