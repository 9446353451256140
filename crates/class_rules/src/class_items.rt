//! The items of a class.
use crate::class_source::{ClassSource, characters_of_source, in_brackets};
use fancy_lex::error::ReadError;
use fancy_lex::escape::{Escaped, escape};
use fancy_lex::text::{after, next};
use fancy_syntax::span::Span;
use regex_class::ClassRange;
use std::alloc::AllocError;

/// An item of a class: a character, a range, or a set such as `\w`.
#[derive(Clone, Copy)]
pub(crate) struct ClassItem {
    /// Where it is, in bytes from the beginning of the class.
    pub(crate) span: Span,
    /// Both ends of a range; of a character itself, twice.
    pub(crate) ends: Option<(char, char)>,
}

/// What an item begins with: a character, or a set, which has none.
#[derive(Clone, Copy)]
struct ClassAtom<'a> {
    character: Option<char>,
    rest: &'a str,
}

/// The character or the set at the front.
fn atom<'a>(class: ClassSource<'_>, text: &'a str) -> Result<Option<ClassAtom<'a>>, AllocError> {
    let Some((c, rest)) = next(text) else {
        return Ok(None);
    };
    if c != '\\' {
        return Ok(Some(ClassAtom {
            character: Some(c),
            rest,
        }));
    }
    match escape(class.alloc, rest, class.flags, true) {
        Ok((Escaped::Literal { val, .. }, rest)) => Ok(Some(ClassAtom {
            character: Some(val),
            rest,
        })),
        Ok((_, rest)) => Ok(Some(ClassAtom {
            character: None,
            rest,
        })),
        Err(ReadError::At(..)) => Ok(None),
        Err(ReadError::OutOfMemory) => Err(AllocError),
    }
}

/// The text after a hyphen that makes a range.
fn after_hyphen(text: &str) -> Option<&str> {
    let rest = after(text, '-')?;
    if rest.starts_with(']') || rest.starts_with('-') {
        None
    } else {
        Some(rest)
    }
}

/// Whether a class in the class begins here, or an operator between classes.
fn is_nested(text: &str) -> bool {
    text.starts_with('[')
        || text.starts_with("&&")
        || text.starts_with("--")
        || text.starts_with("~~")
}

/// Reads the items of a class.
#[derive(Drop)]
struct ItemReader<'a> {
    class: ClassSource<'a>,
    rest: &'a str,
    items: Vec<ClassItem>,
}

impl<'a> ItemReader<'a> {
    /// How many bytes of the class are before the text.
    fn position(&self, text: &str) -> usize {
        self.class.source.len().saturating_sub(text.len())
    }

    /// The ends of the item that begins so, and the text after it.
    fn ends(
        &self,
        first: ClassAtom<'a>,
    ) -> Result<Option<(Option<(char, char)>, &'a str)>, AllocError> {
        let Some(start) = first.character else {
            return Ok(Some((None, first.rest)));
        };
        let Some(rest) = after_hyphen(first.rest) else {
            return Ok(Some((Some((start, start)), first.rest)));
        };
        if is_nested(rest) {
            return Ok(None);
        }
        match atom(self.class, rest)? {
            Some(
                ClassAtom {
                    character: Some(end),
                    rest,
                },
            ) => Ok(Some((Some((start, end)), rest))),
            Some(
                ClassAtom {
                    character: None,
                    ..
                },
            )
            | None => Ok(None),
        }
    }

    /// Reads an item, and returns whether it could.
    fn read_item(&mut self) -> Result<bool, AllocError> {
        if is_nested(self.rest) {
            return Ok(false);
        }
        let Some(first) = atom(self.class, self.rest)? else {
            return Ok(false);
        };
        let Some((ends, rest)) = self.ends(first)? else {
            return Ok(false);
        };
        let span = Span {
            start: self.position(self.rest),
            end: self.position(rest),
        };
        self.items.push(ClassItem { span, ends })?;
        self.rest = rest;
        Ok(true)
    }

    /// Reads the items through the last bracket, and returns whether it could.
    fn read_items(&mut self) -> Result<bool, AllocError> {
        if !self.read_item()? {
            return Ok(false);
        }
        for _ in 0..self.class.source.len() {
            if let Some(rest) = after(self.rest, ']') {
                return Ok(rest.is_empty());
            }
            if !self.read_item()? {
                return Ok(false);
            }
        }
        Ok(false)
    }
}

/// The items of the class. Returns `None` if a class is in it, or an operator between classes, so that these may not be
/// all.
pub(crate) fn items_of(class: ClassSource<'_>) -> Result<Option<Vec<ClassItem>>, AllocError> {
    let Some(inside) = after(class.source, '[') else {
        return Ok(None);
    };
    let mut reader = ItemReader {
        class,
        rest: after(inside, '^').unwrap_or(inside),
        items: Vec::new(class.alloc),
    };
    if reader.read_items()? {
        Ok(Some(reader.items))
    } else {
        Ok(None)
    }
}

/// Adds the ranges of the item's characters.
pub(crate) fn push_ranges(
    class: ClassSource<'_>,
    item: ClassItem,
    out: &mut Vec<ClassRange>,
) -> Result<(), AllocError> {
    if let (Some((start, end)), false) = (item.ends, class.casei) {
        out.push((start as u32, end as u32))?;
        return Ok(());
    }
    let Some(alone) = in_brackets(class.alloc, class.source, item.span)? else {
        return Ok(());
    };
    let ClassSource {
        alloc,
        casei,
        flags,
        ..
    } = class;
    if let Some(set) = characters_of_source(alloc, alone.as_str(), casei, flags)? {
        out.extend_from_slice(set.ranges())?;
    }
    Ok(())
}
