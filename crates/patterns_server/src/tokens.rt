//! The kinds of the parts of patterns, by which an editor colours them.
use editor_documents::position::Position;
use fancy_syntax::expr::Expr;
use fancy_syntax::span::Span;
use fancy_syntax::spanned::{SpannedNode, SpannedTree};
use fancy_syntax::trivium::{Trivium, TriviumKind};
use json::Writer;
use pattern_documents::document::{OpenDocument, Settings};
use pattern_documents::ranges::{Located, Locator};
use pattern_files::entry::{Entry, Visitor};
use patterns_program::edited::EditedPatterns;
use patterns_text::error::RunError;
use patterns_text::nodes::nodes_of;
use std::alloc::{AllocError, Global};

/// How many tokens of a document are sent, and those of one pattern more.
const MAX_TOKENS: usize = 500_000;

/// The kinds of tokens, as the protocol calls them, in the order of `TokenKind`.
pub(crate) static TOKEN_KINDS: [&str; 6] = [
    "string", "type", "keyword", "variable", "operator", "comment",
];

/// What a part of a pattern is.
#[derive(Debug, Clone, Copy, PartialEq, Eq)]
enum TokenKind {
    Literal,
    /// A class, and what else matches one of several characters.
    Class,
    Assertion,
    /// A reference or a call.
    Reference,
    /// A quantifier.
    Operator,
    Comment,
}

/// A part of a pattern.
#[derive(Clone, Copy)]
struct Token {
    span: Span,
    kind: TokenKind,
}

/// The kind of a leaf; None of a node with others below it, and of the empty pattern.
fn kind_of(node: &Expr) -> Option<TokenKind> {
    match node {
        Expr::Literal { .. } | Expr::LiteralBytes { .. } => Some(TokenKind::Literal),
        Expr::Any { .. } | Expr::Delegate { .. } | Expr::GeneralNewline { .. } => {
            Some(TokenKind::Class)
        }
        Expr::Assertion(_)
        | Expr::KeepOut
        | Expr::ContinueFromPreviousMatchEnd
        | Expr::BacktrackingControlVerb(_) => Some(TokenKind::Assertion),
        Expr::Backref { .. }
        | Expr::BackrefWithRelativeRecursionLevel { .. }
        | Expr::BackrefExistsCondition { .. }
        | Expr::SubroutineCall(_)
        | Expr::AstNode(..) => Some(TokenKind::Reference),
        Expr::Empty
        | Expr::Concat(_)
        | Expr::Alt(_)
        | Expr::Group(_)
        | Expr::LookAround(..)
        | Expr::Repeat { .. }
        | Expr::AtomicGroup(_)
        | Expr::Conditional { .. }
        | Expr::Absent(_)
        | Expr::DefineGroup { .. } => None,
    }
}

/// Where a part of the pattern begins that follows the byte offset, after blanks and what no node has.
fn after_trivia(pattern: &str, trivia: &[Trivium], offset: usize) -> Option<usize> {
    let mut start = offset;
    let first = trivia.partition_point(|trivium| trivium.span.start < offset);
    for trivium in trivia.get(first..)? {
        let between = pattern.get(start..trivium.span.start)?;
        if !between.trim().is_empty() {
            break;
        }
        start = trivium.span.end;
    }
    let rest = pattern.get(start..)?;
    Some(pattern.len().saturating_sub(rest.trim_start().len()))
}

/// The quantifier of a repeat: what follows its operand.
fn quantifier(node: SpannedNode<'_>, pattern: &str, trivia: &[Trivium]) -> Option<Span> {
    let Expr::Repeat { .. } = node.expr() else {
        return None;
    };
    let operand = node.children().next()?;
    Some(Span {
        start: after_trivia(pattern, trivia, operand.span().end)?,
        end: node.span().end,
    })
}

/// The tokens of a pattern, in the order of the text.
fn tokens_of(alloc: Global, pattern: &str, parsed: &SpannedTree) -> Result<Vec<Token>, AllocError> {
    let mut tokens = Vec::new(alloc);
    for node in &nodes_of(alloc, parsed)? {
        if let Some(kind) = kind_of(node.expr()) {
            let span = node.span();
            tokens.push(Token { span, kind })?;
        }
        if let Some(span) = quantifier(*node, pattern, &parsed.trivia) {
            let kind = TokenKind::Operator;
            tokens.push(Token { span, kind })?;
        }
    }
    for Trivium { span, kind } in &parsed.trivia {
        if let TriviumKind::Comment | TriviumKind::LineComment = kind {
            tokens.push(Token {
                span: *span,
                kind: TokenKind::Comment,
            })?;
        }
    }
    tokens.sort_by_key(|token| token.span.start)?;
    Ok(tokens)
}

/// Writes the tokens of patterns, each as it is after the one before it.
#[derive(Drop)]
struct TokenWalk<'d> {
    alloc: Global,
    locator: Locator<'d>,
    patterns: &'d EditedPatterns,
    /// Where the last token began.
    last: Position,
    /// How many tokens are written.
    count: usize,
    writer: &'d mut Writer,
}

impl TokenWalk<'_> {
    /// Writes a token, in each of its lines by itself.
    fn write_lines(&mut self, located: Located<'_, '_>, token: Token) -> Result<(), AllocError> {
        let Token { span, kind } = token;
        let mut start = span.start;
        for line in span.text(located.entry.pattern).unwrap_or("").split('\n') {
            let end = start.saturating_add(line.len());
            let span = Span { start, end };
            self.write(located, Token { span, kind })?;
            start = end.saturating_add(1);
        }
        Ok(())
    }

    /// Writes a token, if it is in one line, and not empty.
    fn write(&mut self, located: Located<'_, '_>, token: Token) -> Result<(), AllocError> {
        let (start, end) = located.positions(token.span);
        if start.line != end.line || end.character <= start.character {
            return Ok(());
        }
        let lines = start.line.saturating_sub(self.last.line);
        let character = if lines == 0 {
            start.character.saturating_sub(self.last.character)
        } else {
            start.character
        };
        let length = end.character.saturating_sub(start.character);
        for number in [lines, character, length, token.kind as usize, 0] {
            self.writer.u64(number as u64)?;
        }
        self.last = start;
        self.count = self.count.saturating_add(1);
        Ok(())
    }
}

impl Visitor for TokenWalk<'_> {
    fn pattern(&mut self, entry: Entry<'_>) -> Result<(), RunError> {
        let located = self.locator.locate(entry);
        let Ok(parsed) = self.patterns.subject(entry).parse()? else {
            return Ok(());
        };
        let mut end = 0usize;
        for token in &tokens_of(self.alloc, entry.pattern, &parsed)? {
            if token.span.start >= end {
                self.write_lines(located, *token)?;
                end = token.span.end;
            }
        }
        Ok(())
    }

    fn is_done(&self) -> bool {
        self.count >= MAX_TOKENS
    }
}

/// Writes the tokens of the valid patterns of a document.
pub(crate) fn write_tokens(
    given: Settings<'_>,
    document: &OpenDocument,
    writer: &mut Writer,
) -> Result<(), RunError> {
    writer.begin_object()?;
    writer.key("data")?;
    writer.begin_array()?;
    let mut walk = TokenWalk {
        alloc: given.alloc,
        locator: Locator::new(given.encoding, document.source.text()),
        patterns: &document.patterns,
        last: Position {
            line: 0,
            character: 0,
        },
        count: 0,
        writer,
    };
    document
        .source
        .visit(given, document.patterns.flags, &mut walk)?;
    walk.writer.end_array()?;
    walk.writer.end_object()?;
    Ok(())
}
