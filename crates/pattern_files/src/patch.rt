//! The changes of a file as a patch: a unified diff, which `patch -p1` and `git apply` take.
use fancy_syntax::span::Span;
use memchr::memchr;
use patterns_text::paint::{Ink, Paint};
use patterns_text::shown::{Shown, is_hidden};
use source_literals::replaced::Replacement;
use std::alloc::{AllocError, Global};
use std::io::Write;
use std::{fmt, io, mem};

/// How many lines are shown before a change and after it.
const CONTEXT: usize = 3;

/// Whom a patch is for.
#[derive(Clone, Copy, PartialEq, Eq)]
pub enum PatchText {
    /// Programs: the lines have their own bytes.
    Exact,
    /// People: hidden characters are escapes, and the lines have these colours.
    Shown(Paint),
}

/// What a line of a patch is.
#[derive(Clone, Copy)]
enum LineKind {
    Context,
    Removed,
    Added,
}

impl LineKind {
    /// What the line begins with.
    fn sign(self) -> u8 {
        match self {
            LineKind::Context => b' ',
            LineKind::Removed => b'-',
            LineKind::Added => b'+',
        }
    }

    /// What is written before the line.
    fn begin(self, paint: Paint) -> &'static str {
        match self {
            LineKind::Context => "",
            LineKind::Removed => paint.begin(Ink::Removed),
            LineKind::Added => paint.begin(Ink::Added),
        }
    }

    /// What is written after it.
    fn end(self, paint: Paint) -> &'static str {
        match self {
            LineKind::Context => "",
            LineKind::Removed | LineKind::Added => paint.end(),
        }
    }
}

/// Lines of a file, and what is in their place.
#[derive(Drop)]
struct Edit {
    /// Where they are: from the start of a line to the start of another, or to the end of the file.
    span: Span,
    /// How many lines are before them.
    before: usize,
    /// How many they are.
    lines: usize,
    /// What is in their place.
    new: Vec<u8>,
}

/// The bytes between two offsets.
fn between(bytes: &[u8], start: usize, end: usize) -> &[u8] {
    bytes.get(start..end).unwrap_or(b"")
}

/// How many lines there are. The last one may have no line feed.
fn count_lines(bytes: &[u8]) -> usize {
    let feeds = bytes.iter().filter(|byte| **byte == b'\n').count();
    if bytes.is_empty() || bytes.ends_with(b"\n") {
        feeds
    } else {
        feeds.saturating_add(1)
    }
}

/// Where the line begins that has the offset.
fn line_start(bytes: &[u8], offset: usize) -> usize {
    let before = between(bytes, 0, offset);
    match before.iter().rposition(|byte| *byte == b'\n') {
        Some(feed) => feed.saturating_add(1),
        None => 0,
    }
}

/// Where the line ends that has the offset: past its line feed, or at the end of the bytes.
fn line_end(bytes: &[u8], offset: usize) -> usize {
    match memchr(b'\n', between(bytes, offset, bytes.len())) {
        Some(feed) => offset.saturating_add(feed).saturating_add(1),
        None => bytes.len(),
    }
}

/// Whether a line begins at the offset.
fn is_line_start(bytes: &[u8], offset: usize) -> bool {
    offset == 0 || between(bytes, 0, offset).ends_with(b"\n")
}

/// How many bytes at the start are equal, up to the start of a line.
fn same_front(old: &[u8], new: &[u8]) -> usize {
    let same = old
        .iter()
        .zip(new)
        .take_while(|(one, other)| one == other)
        .count();
    if same == old.len() && same == new.len() {
        return same;
    }
    line_start(old, same)
}

/// How many bytes at the end are equal, from the start of a line.
fn same_back(old: &[u8], new: &[u8]) -> usize {
    let same = old
        .iter()
        .rev()
        .zip(new.iter().rev())
        .take_while(|(one, other)| one == other)
        .count();
    let old_start = old.len().saturating_sub(same);
    let new_start = new.len().saturating_sub(same);
    if is_line_start(old, old_start) && is_line_start(new, new_start) {
        return same;
    }
    old.len().saturating_sub(line_end(old, old_start))
}

impl Edit {
    /// None yet, of lines that begin at the offset, with so many lines before.
    fn at(alloc: Global, start: usize, before: usize) -> Edit {
        Edit {
            span: Span { start, end: start },
            before,
            lines: 0,
            new: Vec::new(alloc),
        }
    }

    /// One past the number of its last line, from 0.
    fn line_end(&self) -> usize {
        self.before.saturating_add(self.lines)
    }

    /// The same without the lines at both ends that stay; none if all do.
    fn trimmed(self, alloc: Global, bytes: &[u8]) -> Result<Option<Edit>, AllocError> {
        let Span { start, end } = self.span;
        let old = between(bytes, start, end);
        let front = same_front(old, &self.new);
        let old = between(old, front, old.len());
        let new = between(&self.new, front, self.new.len());
        if old.is_empty() && new.is_empty() {
            return Ok(None);
        }
        let back = same_back(old, new);
        let passed = between(bytes, start, start.saturating_add(front));
        let old = between(old, 0, old.len().saturating_sub(back));
        let new = between(new, 0, new.len().saturating_sub(back));
        Ok(Some(Edit {
            span: Span {
                start: start.saturating_add(front),
                end: end.saturating_sub(back),
            },
            before: self.before.saturating_add(count_lines(passed)),
            lines: count_lines(old),
            new: Vec::from_slice(alloc, new)?,
        }))
    }
}

/// The edits of a file, up to a replacement.
#[derive(Drop)]
struct Edits<'b> {
    bytes: &'b [u8],
    /// Those that are complete.
    found: Vec<Edit>,
    /// The last one, and up to where its lines are in its `new`.
    last: Edit,
    done: usize,
}

impl Edits<'_> {
    /// Completes the last one, and begins another in the line that has the offset.
    fn begin(&mut self, alloc: Global, offset: usize) -> Result<(), AllocError> {
        let start = line_start(self.bytes, offset);
        let passed = between(self.bytes, self.last.span.start, start);
        let before = self.last.before.saturating_add(count_lines(passed));
        let mut last = mem::replace(&mut self.last, Edit::at(alloc, start, before));
        last.new
            .extend_from_slice(between(self.bytes, self.done, last.span.end))?;
        self.done = start;
        if let Some(edit) = last.trimmed(alloc, self.bytes)? {
            self.found.push(edit)?;
        }
        Ok(())
    }

    /// Adds a replacement.
    fn add(&mut self, alloc: Global, part: &Replacement) -> Result<(), AllocError> {
        let end = self.last.span.end;
        if part.span.start >= end && end < self.bytes.len() {
            self.begin(alloc, part.span.start)?;
        }
        let new = &mut self.last.new;
        new.extend_from_slice(between(self.bytes, self.done, part.span.start))?;
        new.extend_from_slice(part.text.as_bytes())?;
        self.done = part.span.end;
        if self.done >= self.last.span.end {
            self.last.span.end = line_end(self.bytes, self.done);
        }
        Ok(())
    }
}

/// The edits of lines that the replacements make.
fn edits_of(alloc: Global, bytes: &[u8], parts: &[Replacement]) -> Result<Vec<Edit>, AllocError> {
    let mut edits = Edits {
        bytes,
        found: Vec::new(alloc),
        last: Edit::at(alloc, 0, 0),
        done: 0,
    };
    for part in parts {
        edits.add(alloc, part)?;
    }
    edits.begin(alloc, bytes.len())?;
    Ok(edits.found)
}

/// Lines of a file, as the header of a hunk has them.
#[derive(Clone, Copy)]
struct LineRange {
    /// How many lines are before them.
    before: usize,
    lines: usize,
}

impl fmt::Display for LineRange {
    fn fmt<W: fmt::Write>(&self, f: &mut fmt::Formatter<W>) -> fmt::Result {
        let LineRange { before, lines } = *self;
        let first = if lines == 0 {
            before
        } else {
            before.saturating_add(1)
        };
        write!(f, "{first},{lines}")
    }
}

/// Writes a line of a patch.
fn write_line(out: &mut Vec<u8>, text: PatchText, kind: LineKind, line: &[u8]) -> io::Result<()> {
    let front = line.strip_suffix(b"\n").unwrap_or(line);
    match text {
        PatchText::Exact => {
            out.push(kind.sign())?;
            out.extend_from_slice(front)?;
        }
        PatchText::Shown(paint) => {
            let front = front.strip_suffix(b"\r").unwrap_or(front);
            let shown = String::from_utf8_lossy(*out.allocator(), front)?;
            let (begin, end) = (kind.begin(paint), kind.end(paint));
            let sign = char::from(kind.sign());
            write!(out, "{begin}{sign}{}{end}", Shown(shown.as_str()))?;
        }
    }
    if !line.ends_with(b"\n") {
        out.extend_from_slice(b"\n\\ No newline at end of file")?;
    }
    out.push(b'\n')?;
    Ok(())
}

/// Writes lines of a patch.
fn write_lines(out: &mut Vec<u8>, text: PatchText, kind: LineKind, lines: &[u8]) -> io::Result<()> {
    for line in lines.split_inclusive(|byte| *byte == b'\n') {
        write_line(out, text, kind, line)?;
    }
    Ok(())
}

/// An offset in a file, and how many lines are between it and another offset.
#[derive(Clone, Copy)]
struct Reach {
    offset: usize,
    lines: usize,
}

/// Where the context begins that is shown before the start of a line.
fn context_before(bytes: &[u8], start: usize) -> Reach {
    let mut found = Reach {
        offset: start,
        lines: 0,
    };
    for _ in 0..CONTEXT {
        let Some(end) = found.offset.checked_sub(1) else {
            break;
        };
        found.offset = line_start(bytes, end);
        found.lines = found.lines.saturating_add(1);
    }
    found
}

/// Where the context ends that is shown after the end of a line.
fn context_after(bytes: &[u8], end: usize) -> Reach {
    let mut found = Reach {
        offset: end,
        lines: 0,
    };
    for _ in 0..CONTEXT {
        if found.offset >= bytes.len() {
            break;
        }
        found.offset = line_end(bytes, found.offset);
        found.lines = found.lines.saturating_add(1);
    }
    found
}

/// How many lines edits remove, and how many they add.
#[derive(Clone, Copy)]
struct Balance {
    removed: usize,
    added: usize,
}

impl Balance {
    /// That of no edits.
    const NONE: Balance = Balance {
        removed: 0,
        added: 0,
    };

    /// The number of lines in the file with the edits, of so many in the file as it is.
    fn of(self, lines: usize) -> usize {
        lines
            .saturating_add(self.added)
            .saturating_sub(self.removed)
    }

    /// The same with further edits.
    fn with(self, edits: &[Edit]) -> Balance {
        let mut balance = self;
        for edit in edits {
            balance.removed = balance.removed.saturating_add(edit.lines);
            balance.added = balance.added.saturating_add(count_lines(&edit.new));
        }
        balance
    }
}

/// Writes the hunk of edits that follow one another, after edits with this balance.
fn write_hunk(
    out: &mut Vec<u8>,
    text: PatchText,
    bytes: &[u8],
    edits: &[Edit],
    earlier: Balance,
) -> io::Result<()> {
    let (Some(first), Some(last)) = (edits.first(), edits.last()) else {
        return Ok(());
    };
    let start = context_before(bytes, first.span.start);
    let end = context_after(bytes, last.span.end);
    let before = first.before.saturating_sub(start.lines);
    let lines = last
        .line_end()
        .saturating_add(end.lines)
        .saturating_sub(before);
    let old = LineRange { before, lines };
    let new = LineRange {
        before: earlier.of(before),
        lines: Balance::NONE.with(edits).of(lines),
    };
    writeln!(out, "@@ -{old} +{new} @@")?;
    let mut done = start.offset;
    for edit in edits {
        let Span { start, end } = edit.span;
        write_lines(out, text, LineKind::Context, between(bytes, done, start))?;
        write_lines(out, text, LineKind::Removed, between(bytes, start, end))?;
        write_lines(out, text, LineKind::Added, &edit.new)?;
        done = end;
    }
    write_lines(
        out,
        text,
        LineKind::Context,
        between(bytes, done, end.offset),
    )
}

/// Whether the name of a file is quoted, since it could not be read otherwise.
fn is_quoted(c: char) -> bool {
    matches!(c, '"' | '\\') || is_hidden(c)
}

/// A name of a file in a patch, after the folder `a` or `b`. What `patch` and `git` would not read is quoted as in C.
#[derive(Clone, Copy)]
struct PatchName<'a> {
    folder: char,
    file: &'a str,
}

impl fmt::Display for PatchName<'_> {
    fn fmt<W: fmt::Write>(&self, f: &mut fmt::Formatter<W>) -> fmt::Result {
        let PatchName { folder, file } = *self;
        if !file.contains(|c: char| is_quoted(c)) {
            write!(f, "{folder}/{file}")?;
            // A name with spaces ends with a tab.
            return f.write_str(if file.contains(' ') { "\t" } else { "" });
        }
        write!(f, "\"{folder}/")?;
        for c in file.chars() {
            match c {
                '"' | '\\' => write!(f, "\\{c}")?,
                c if is_hidden(c) => {
                    let mut bytes = [0; 4];
                    for byte in c.encode_utf8(&mut bytes).as_bytes() {
                        write!(f, "\\{byte:03o}")?;
                    }
                }
                c => f.write_char(c)?,
            }
        }
        f.write_char('"')
    }
}

/// The name of a file from a folder on, without what says that it begins there.
fn relative(file: &str) -> &str {
    let mut name = file;
    for _ in 0..file.len() {
        match name.strip_prefix("./").or(name.strip_prefix("/")) {
            Some(rest) => name = rest,
            None => break,
        }
    }
    name
}

/// The patch that makes the replacements, which follow one another, in a file with these bytes: a unified diff with a context of
/// three lines. It is empty if the lines stay as they are.
pub fn patch_of(
    alloc: Global,
    text: PatchText,
    file: &str,
    bytes: &[u8],
    parts: &[Replacement],
) -> io::Result<Vec<u8>> {
    let mut out = Vec::new(alloc);
    let edits = edits_of(alloc, bytes, parts)?;
    if edits.is_empty() {
        return Ok(out);
    }
    let file = relative(file);
    writeln!(out, "--- {}", PatchName { folder: 'a', file })?;
    writeln!(out, "+++ {}", PatchName { folder: 'b', file })?;
    let mut earlier = Balance::NONE;
    let hunks = edits.chunk_by(|one, next| next.before.saturating_sub(one.line_end())
        <= CONTEXT.saturating_mul(2));
    for hunk in hunks {
        write_hunk(&mut out, text, bytes, hunk, earlier)?;
        earlier = earlier.with(hunk);
    }
    Ok(out)
}
