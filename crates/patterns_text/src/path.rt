//! The way from the root of JSON to a value.
use crate::shown::is_hidden;
use std::fmt;

/// A step from a value of JSON to one that it holds.
#[derive(Clone, Copy)]
pub enum PathStep<'a> {
    /// From an object to what it has under this key.
    Member(&'a str),
    /// From an array to its item at this index, counted from 0.
    Item(u64),
}

/// The steps from the root of JSON to a value.
#[derive(Clone, Copy)]
pub struct Path<'a> {
    pub steps: &'a [PathStep<'a>],
}

/// Whether the key is written without quotes: it consists of letters and digits of ASCII, `_` and `-`.
fn is_plain(key: &str) -> bool {
    !key.is_empty()
        && key.bytes().all(|byte| byte.is_ascii_alphanumeric() || byte == b'_' || byte == b'-')
}

/// Writes the character as JSON escapes it.
fn write_escaped<W: fmt::Write>(f: &mut fmt::Formatter<W>, c: char) -> fmt::Result {
    for unit in c.encode_utf16(&mut [0; 2]).iter() {
        write!(f, "\\u{unit:04x}")?;
    }
    Ok(())
}

/// A key in quotes, as JSON has it. Each hidden character is written as its escape.
#[derive(Clone, Copy)]
struct Quoted<'a>(&'a str);

impl fmt::Display for Quoted<'_> {
    fn fmt<W: fmt::Write>(&self, f: &mut fmt::Formatter<W>) -> fmt::Result {
        f.write_char('"')?;
        for c in self.0.chars() {
            if c == '"' || c == '\\' {
                write!(f, "\\{c}")?;
            } else if is_hidden(c) {
                write_escaped(f, c)?;
            } else {
                f.write_char(c)?;
            }
        }
        f.write_char('"')
    }
}

/// The keys with dots between, and indexes, and keys that are not plain, in brackets.
impl fmt::Display for Path<'_> {
    fn fmt<W: fmt::Write>(&self, f: &mut fmt::Formatter<W>) -> fmt::Result {
        for (i, step) in self.steps.iter().enumerate() {
            match step {
                PathStep::Item(index) => write!(f, "[{index}]")?,
                PathStep::Member(key) if !is_plain(key) => write!(f, "[{}]", Quoted(key))?,
                PathStep::Member(key) if i == 0 => f.write_str(key)?,
                PathStep::Member(key) => write!(f, ".{key}")?,
            }
        }
        Ok(())
    }
}
