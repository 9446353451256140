//! Blanks between tokens. Each line keeps its break and its indentation, and no blanks at its end, except at the end of a pattern that
//! begins with blanks. Other blanks become one space, but stay before a column.
use crate::sheet::Sheet;
use crate::token::{Column, Token};
use std::alloc::{AllocError, Global};

/// Writes the line breaks that end these lines, each blank.
fn push_breaks(written: &mut String, lines: &str) -> Result<(), AllocError> {
    for line in lines.split('\n') {
        written.push_str(if line.ends_with('\r') { "\r\n" } else { "\n" })?;
    }
    Ok(())
}

/// The shorter one of two texts.
fn shorter<'a>(one: &'a str, other: &'a str) -> &'a str {
    if one.len() < other.len() { one } else { other }
}

/// A text that tokens are added to.
#[derive(Drop)]
pub(crate) struct Writer<'p> {
    sheet: Sheet,
    /// The blanks that its first line begins with.
    leading: &'p str,
    /// The blanks after it.
    blanks: &'p str,
}

impl<'p> Writer<'p> {
    /// Nothing is written yet.
    pub(crate) fn new(alloc: Global) -> Result<Writer<'p>, AllocError> {
        Ok(Writer {
            sheet: Sheet::new(alloc, "")?,
            leading: "",
            blanks: "",
        })
    }

    /// Adds blanks. If others are before them, since what was between is left out, those go, unless only they break the
    /// line.
    pub(crate) fn push_blanks(&mut self, blanks: &'p str) {
        if blanks.contains('\n') || !self.blanks.contains('\n') {
            self.blanks = blanks;
        }
    }

    /// Writes blanks in a line, or its indentation, before a column or not.
    fn push_in_line(&mut self, blanks: &str, column: Option<Column>) -> Result<(), AllocError> {
        let written = &mut self.sheet.text;
        let is_line_start = written.is_empty() || written.ends_with('\n');
        match column {
            Some(column) => self.sheet.begin(column, blanks),
            None if is_line_start => Ok(written.push_str(blanks)?),
            None if blanks.is_empty() => Ok(()),
            None => Ok(written.push(' ')?),
        }
    }

    /// The text so far, to which the next token is to be added.
    pub(crate) fn before(&mut self, next: Token<'_>) -> Result<&mut String, AllocError> {
        let blanks = self.blanks;
        self.blanks = "";
        if let Some((lines, indentation)) = blanks.rsplit_once('\n') {
            push_breaks(&mut self.sheet.text, lines)?;
            self.push_in_line(indentation, next.column)?;
        } else {
            if self.sheet.text.is_empty() {
                self.leading = blanks;
            }
            self.push_in_line(blanks, next.column)?;
        }
        Ok(&mut self.sheet.text)
    }

    /// The whole text.
    pub(crate) fn end(mut self) -> Result<String, AllocError> {
        let blanks = self.blanks;
        let last = shorter(self.leading, blanks);
        let written = &mut self.sheet.text;
        if let Some((lines, indentation)) = blanks.rsplit_once('\n') {
            push_breaks(written, lines)?;
            written.push_str(indentation)?;
        } else if written.is_empty() || written.ends_with('\n') {
            written.push_str(blanks)?;
        } else {
            written.push_str(last)?;
        }
        self.sheet.end()
    }
}
