//! A line of a pattern, with what a report points at underlined.
use crate::paint::{Ink, Paint};
use crate::shown::{Blank, Shown, char_width, shown_width};
use crate::subject::Subject;
use fancy_syntax::span::Span;
use std::io::Write;
use std::{fmt, io};

/// How many columns of a line are shown at most, the `…` at its cropped sides counted.
const MAX_COLUMNS: usize = 100;

/// How many columns two parts may take together if both are shown of a longer line.
const MAX_TOGETHER: usize = 80;

/// What a second part is.
#[derive(Clone, Copy)]
pub enum Label {
    /// The opening delimiter of what is not closed.
    Opened,
    /// The branch of this number, counted from 1.
    Branch(usize),
    /// The group of this number.
    Group(usize),
}

impl fmt::Display for Label {
    fn fmt<W: fmt::Write>(&self, f: &mut fmt::Formatter<W>) -> fmt::Result {
        match self {
            Label::Opened => f.write_str("opened here"),
            Label::Branch(number) => write!(f, "branch {number}"),
            Label::Group(number) => write!(f, "group {number}"),
        }
    }
}

/// A second part of the pattern that a report points at.
#[derive(Clone, Copy)]
pub struct Related {
    pub span: Span,
    pub label: Label,
}

/// Offsets in a line, from the first to one past the last.
#[derive(Clone, Copy)]
struct Part {
    start: usize,
    end: usize,
}

/// A line of a pattern.
#[derive(Clone, Copy)]
struct Line<'a> {
    /// The byte offset in the pattern.
    start: usize,
    text: &'a str,
}

impl<'a> Line<'a> {
    /// The line of the position.
    fn at(pattern: &'a str, position: usize) -> Line<'a> {
        let (front, rest) = pattern.split_at(pattern.floor_char_boundary(position));
        let before = front.rsplit_once('\n').map_or(front, |parts| parts.1);
        let after = rest.split_once('\n').map_or(rest, |parts| parts.0);
        let start = front.len().saturating_sub(before.len());
        let end = front.len().saturating_add(after.len());
        Line {
            start,
            text: pattern.get(start..end).unwrap_or(""),
        }
    }

    /// The part of the span that is in the line, which the span begins in.
    fn part(self, span: Span) -> Part {
        let start = span.start.saturating_sub(self.start).min(self.text.len());
        let end = span.end.saturating_sub(self.start).min(self.text.len());
        Part { start, end }
    }

    /// The part of the span, if the span begins in the line.
    fn part_beginning(self, span: Span) -> Option<Part> {
        let offset = span.start.checked_sub(self.start)?;
        if offset > self.text.len() {
            return None;
        }
        Some(self.part(span))
    }

    fn slice(self, start: usize, end: usize) -> &'a str {
        self.text.get(start..end).unwrap_or("")
    }

    /// Where the text of at most so many columns begins that ends at the offset.
    fn start_of(self, columns: usize, end: usize) -> usize {
        let mut left = columns;
        let mut start = end;
        for (i, c) in self.slice(0, end).char_indices().rev() {
            let Some(rest) = left.checked_sub(char_width(c)) else {
                return start;
            };
            left = rest;
            start = i;
        }
        start
    }

    /// Where the text of at most so many columns ends that begins at the offset.
    fn end_of(self, columns: usize, start: usize) -> usize {
        let mut left = columns;
        for (i, c) in self.slice(start, self.text.len()).char_indices() {
            let Some(rest) = left.checked_sub(char_width(c)) else {
                return start.saturating_add(i);
            };
            left = rest;
        }
        self.text.len()
    }

    /// Whether the whole line is shown.
    fn is_short(self) -> bool {
        shown_width(self.text) <= MAX_COLUMNS
    }

    /// What is shown of the line: all, or what is around the part.
    fn window(self, part: Part) -> Window<'a> {
        if self.is_short() {
            return Window {
                line: self,
                start: 0,
                end: self.text.len(),
            };
        }
        let columns = MAX_COLUMNS.saturating_sub(2);
        let own = shown_width(self.slice(part.start, part.end)).min(columns);
        let lead = columns.saturating_sub(own) / 2;
        let start = self
            .start_of(lead, part.start)
            .min(self.start_of(columns, self.text.len()));
        Window {
            line: self,
            start,
            end: self.end_of(columns, start),
        }
    }
}

/// The part of a line that is shown.
#[derive(Clone, Copy)]
struct Window<'a> {
    line: Line<'a>,
    start: usize,
    end: usize,
}

impl fmt::Display for Window<'_> {
    fn fmt<W: fmt::Write>(&self, f: &mut fmt::Formatter<W>) -> fmt::Result {
        if self.start > 0 {
            f.write_char('…')?;
        }
        write!(f, "{}", Shown(self.line.slice(self.start, self.end)))?;
        if self.end < self.line.text.len() {
            f.write_char('…')?;
        }
        Ok(())
    }
}

/// The line below a window, as it is written.
#[derive(Clone, Copy)]
struct Underline<'a> {
    window: Window<'a>,
    paint: Paint,
    /// Up to where the line is written.
    written: usize,
}

impl<'a> Underline<'a> {
    /// Begins the line.
    fn begin(out: &mut Vec<u8>, paint: Paint, window: Window<'a>) -> io::Result<Underline<'a>> {
        if window.start > 0 {
            out.write_all(b" ")?;
        }
        Ok(Underline {
            window,
            paint,
            written: window.start,
        })
    }

    /// Goes on up to an offset.
    fn move_to(&mut self, out: &mut Vec<u8>, offset: usize) -> io::Result<()> {
        let offset = offset.min(self.window.end).max(self.written);
        let before = self.window.line.slice(self.written, offset);
        self.written = offset;
        write!(out, "{}", Blank(before))
    }

    /// Underlines the part with as many signs as it takes columns, and at least one.
    fn draw(&mut self, out: &mut Vec<u8>, part: Part, ink: Ink, sign: u8) -> io::Result<()> {
        self.move_to(out, part.start)?;
        let end = part.end.min(self.window.end).max(self.written);
        let width = shown_width(self.window.line.slice(self.written, end));
        self.written = end;
        write!(out, "{}", self.paint.begin(ink))?;
        for _ in 0..width.max(1) {
            out.write_all(&[sign])?;
        }
        write!(out, "{}", self.paint.end())
    }

    /// Underlines what of the part is between the offsets, if that is something.
    fn draw_between(
        &mut self,
        out: &mut Vec<u8>,
        part: Part,
        start: usize,
        end: usize,
    ) -> io::Result<()> {
        let start = part.start.max(start);
        let end = part.end.min(end);
        if start < end {
            self.draw(out, Part { start, end }, Ink::Position, b'-')?;
        }
        Ok(())
    }
}

/// Writes the window, and below it carets below the part.
fn write_part(
    out: &mut Vec<u8>,
    paint: Paint,
    ink: Ink,
    window: Window<'_>,
    part: Part,
) -> io::Result<()> {
    writeln!(out, "{window}")?;
    let mut underline = Underline::begin(out, paint, window)?;
    underline.draw(out, part, ink, b'^')?;
    out.write_all(b"\n")
}

/// Writes the window, carets below the part, and signs and the label below the other part.
fn write_both(
    out: &mut Vec<u8>,
    paint: Paint,
    ink: Ink,
    window: Window<'_>,
    part: Part,
    (other, label): (Part, Label),
) -> io::Result<()> {
    writeln!(out, "{window}")?;
    let mut underline = Underline::begin(out, paint, window)?;
    underline.draw_between(out, other, 0, part.start)?;
    underline.draw(out, part, ink, b'^')?;
    underline.draw_between(out, other, part.end, usize::MAX)?;
    out.write_all(b"\n")?;
    let mut below = Underline::begin(out, paint, window)?;
    below.move_to(out, other.start)?;
    writeln!(out, "{}{label}{}", paint.begin(Ink::Position), paint.end())
}

/// Writes where the part is, its label, and its line with carets below it.
fn write_related(out: &mut Vec<u8>, subject: Subject<'_>, related: Related) -> io::Result<()> {
    let paint = subject.at.reported;
    let Related { span, label } = related;
    let (bold, end) = (paint.begin(Ink::Position), paint.end());
    writeln!(out, "{bold}{}:{end} {label}", subject.position(span.start))?;
    let line = Line::at(subject.pattern, span.start);
    let part = line.part(span);
    write_part(out, paint, Ink::Position, line.window(part), part)
}

/// What is shown of the line together with the two parts, if that fits.
fn window_of_both(line: Line<'_>, part: Part, other: Part) -> Option<Window<'_>> {
    let both = Part {
        start: part.start.min(other.start),
        end: part.end.max(other.end),
    };
    let fits = line.is_short() || shown_width(line.slice(both.start, both.end)) <= MAX_TOGETHER;
    if fits { Some(line.window(both)) } else { None }
}

/// Writes the line that the span begins in, cropped if it is long, with carets in the ink below what the line has of the
/// span, and at least one. The related part is underlined too, with its label below; if it is in another line, or too
/// far from the span, it is written after that, with its position.
pub fn write_excerpt(
    out: &mut Vec<u8>,
    ink: Ink,
    subject: Subject<'_>,
    span: Span,
    related: Option<Related>,
) -> io::Result<()> {
    let paint = subject.at.reported;
    let line = Line::at(subject.pattern, span.start);
    let part = line.part(span);
    let Some(related) = related else {
        return write_part(out, paint, ink, line.window(part), part);
    };
    if let Some(other) = line.part_beginning(related.span)
        && let Some(window) = window_of_both(line, part, other)
    {
        return write_both(out, paint, ink, window, part, (other, related.label));
    }
    write_part(out, paint, ink, line.window(part), part)?;
    write_related(out, subject, related)
}

/// Writes where and why a pattern is invalid, the line of the position, and a caret under the position. A related part is
/// underlined too.
pub fn write_refusal(
    out: &mut Vec<u8>,
    subject: Subject<'_>,
    position: usize,
    message: &str,
    related: Option<Related>,
) -> io::Result<()> {
    let paint = subject.at.reported;
    let (bold, end) = (paint.begin(Ink::Position), paint.end());
    let start = subject.position(position);
    writeln!(out, "{bold}{start}:{end} {}", Shown(message))?;
    let span = Span {
        start: position,
        end: position,
    };
    write_excerpt(out, Ink::Error, subject, span, related)
}
