//! A walk over the values of JSON, in the order of the text.
use crate::values::keys::Keys;
use json::{Reader, Scratch, Token};
use patterns_text::path::{Path, PathStep};
use patterns_text::position::{FilePosition, Spot};
use std::alloc::{AllocError, Global};

/// The tokens of a text of JSON, and where they begin in the text.
#[derive(Drop)]
pub(crate) struct Tokens<'a> {
    text: &'a str,
    reader: Reader<'a>,
    /// The byte offset at which the last token begins.
    start: usize,
    /// The byte offset up to which lines and columns are counted.
    counted: usize,
    /// The position there.
    position: FilePosition,
}

impl<'a> Tokens<'a> {
    /// Those of the text.
    pub(crate) fn new(text: &'a str, scratch: &'a mut Scratch) -> Result<Tokens<'a>, AllocError> {
        Ok(Tokens {
            text,
            reader: Reader::new(text, scratch)?,
            start: 0,
            counted: 0,
            position: FilePosition::START,
        })
    }

    /// Goes on to the next token; none at the end of the text.
    pub(crate) fn next(&mut self) -> Option<Token<'a>> {
        self.start = self.reader.offset();
        self.reader.next()
    }

    /// The byte offset at which the last token begins.
    pub(crate) fn start(&self) -> usize {
        self.start
    }

    /// The text.
    pub(crate) fn text(&self) -> &'a str {
        self.text
    }

    /// Goes on past a value, whose first token comes next.
    pub(crate) fn skip_value(&mut self) {
        let mut depth = 0usize;
        for _ in 0..=self.text.len() {
            match self.next() {
                Some(Token::BeginObject | Token::BeginArray) => depth = depth.saturating_add(1),
                Some(Token::EndObject | Token::EndArray) => depth = depth.saturating_sub(1),
                Some(Token::Key(_)) => continue,
                Some(Token::String(_) | Token::Number(_) | Token::Bool(_) | Token::Null) => {}
                Some(Token::Bad) | None => break,
            }
            if depth == 0 {
                break;
            }
        }
    }

    /// What is between the quotes of the last token, which is a string.
    pub(crate) fn contents(&self) -> &'a str {
        let contents = self.text.get(self.start.saturating_add(1)..).unwrap_or("");
        let mut is_escaped = false;
        for (i, c) in contents.char_indices() {
            if c == '"' && !is_escaped {
                return contents.get(..i).unwrap_or("");
            }
            is_escaped = c == '\\' && !is_escaped;
        }
        contents
    }

    /// Where the last token begins, in lines and columns.
    pub(crate) fn position(&mut self) -> FilePosition {
        let passed = self.text.get(self.counted..self.start).unwrap_or("");
        let found = self.position.after(passed);
        self.counted = self.start;
        self.position = found;
        found
    }
}

/// The steps from the root of a text of JSON to the value that a walk over its tokens has come to.
#[derive(Drop)]
pub(crate) struct Trail<'a> {
    steps: Vec<PathStep<'a>>,
}

impl<'a> Trail<'a> {
    /// The walk that begins at the root.
    pub(crate) fn new(alloc: Global) -> Trail<'a> {
        Trail {
            steps: Vec::new(alloc),
        }
    }

    /// The key of the value that the walk has come to; the empty one of a value that has none.
    pub(crate) fn key(&self) -> &'a str {
        match self.steps.last() {
            Some(PathStep::Member(key)) => key,
            Some(PathStep::Item(_)) | None => "",
        }
    }

    /// Whether the walk has come to a value under one of the keys, or to any if there are none.
    pub(crate) fn is_under(&self, keys: Option<Keys<'_>>) -> bool {
        match (keys, self.steps.last()) {
            (None, _) => true,
            (Some(keys), Some(PathStep::Member(key))) => keys.has(key),
            (Some(_), Some(PathStep::Item(_)) | None) => false,
        }
    }

    /// Where the value is that the walk has come to, which begins at this position.
    pub(crate) fn spot(&self, position: FilePosition, keys: Option<Keys<'_>>) -> Spot<'_> {
        Spot::Value {
            position,
            path: Path { steps: &self.steps },
            refers_to_begin: keys.is_some_and(|keys| keys.refers_to_begin(self.key())),
        }
    }

    /// Goes on past the token.
    pub(crate) fn pass(&mut self, token: Token<'a>) -> Result<(), AllocError> {
        match token {
            Token::BeginObject => self.steps.push(PathStep::Member(""))?,
            Token::BeginArray => self.steps.push(PathStep::Item(0))?,
            Token::Key(key) => self.come_to(key),
            Token::EndObject | Token::EndArray => {
                self.steps.pop();
                self.leave();
            }
            Token::String(_) | Token::Number(_) | Token::Bool(_) | Token::Null | Token::Bad => {
                self.leave();
            }
        }
        Ok(())
    }

    /// Comes to the member of an object that has this key.
    fn come_to(&mut self, key: &'a str) {
        if let Some(step) = self.steps.last_mut() {
            *step = PathStep::Member(key);
        }
    }

    /// Leaves a value: in an array the walk has come to the next item.
    fn leave(&mut self) {
        if let Some(PathStep::Item(index)) = self.steps.last_mut() {
            *index = index.saturating_add(1);
        }
    }
}
