//! Which tokens of JSON may come next.
use json::Token;
use std::alloc::{AllocError, Global};

/// What holds values.
#[derive(Clone, Copy, PartialEq, Eq)]
enum Container {
    Object,
    Array,
}

/// The containers that are open after some tokens of JSON, and what came last.
#[derive(Drop)]
pub(super) struct Nesting {
    open: Vec<Container>,
    /// Whether the last token was a key, whose value comes next.
    has_key: bool,
    is_begun: bool,
}

impl Nesting {
    /// Before the first token.
    pub(super) fn new(alloc: Global) -> Nesting {
        Nesting {
            open: Vec::new(alloc),
            has_key: false,
            is_begun: false,
        }
    }

    /// How many objects and arrays are open.
    pub(super) fn depth(&self) -> usize {
        self.open.len()
    }

    /// Whether the value of the text is complete.
    pub(super) fn is_complete(&self) -> bool {
        self.is_begun && self.open.is_empty()
    }

    /// Whether this is the container that is open innermost.
    fn is_in(&self, container: Container) -> bool {
        self.open.last().copied() == Some(container)
    }

    /// Whether the token may come next.
    pub(super) fn takes(&self, token: Token<'_>) -> bool {
        match token {
            Token::Bad => false,
            Token::Key(_) | Token::EndObject => self.is_in(Container::Object) && !self.has_key,
            Token::EndArray => self.is_in(Container::Array),
            Token::BeginObject
            | Token::BeginArray
            | Token::String(_)
            | Token::Number(_)
            | Token::Bool(_)
            | Token::Null => self.is_in(Container::Array) || self.has_key || !self.is_begun,
        }
    }

    /// Goes on past a token.
    pub(super) fn pass(&mut self, token: Token<'_>) -> Result<(), AllocError> {
        match token {
            Token::BeginObject => self.open.push(Container::Object)?,
            Token::BeginArray => self.open.push(Container::Array)?,
            Token::EndObject | Token::EndArray => {
                self.open.pop();
            }
            Token::Key(_)
            | Token::String(_)
            | Token::Number(_)
            | Token::Bool(_)
            | Token::Null
            | Token::Bad => {}
        }
        self.has_key = matches!(token, Token::Key(_));
        self.is_begun = true;
        Ok(())
    }
}
