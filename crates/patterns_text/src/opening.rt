//! Where the group, the comment or the class opens that a pattern does not close. The parser itself is asked: it parses
//! the pattern with closing delimiters after it, a few times, and then the nodes say where they begin.
use crate::error::RunError;
use crate::excerpt::{Label, Related};
use crate::nodes::nodes_of;
use crate::subject::{Refusal, Subject};
use fancy_lex::error::ParseError;
use fancy_syntax::expr::Expr;
use fancy_syntax::span::Span;
use fancy_syntax::spanned::{SpannedNode, SpannedTree};
use std::alloc::{AllocError, Global};

/// Ends a line comment, gives a group some contents, and closes it.
const CLOSER: &str = "\nx)";

/// More than can be needed: 63 groups may be open, a condition in each, and a comment.
const MAX_CLOSERS: usize = 128;

/// Gives a class an item, and closes it.
const CLASS_CLOSER: &str = "x]";

/// How deep classes may nest that the opening bracket is sought of.
const MAX_CLASSES: usize = 64;

/// How many texts are tried that may begin the open comment.
const MAX_COMMENTS: usize = 4;

/// The message of the error at a closing parenthesis without an opening one.
const UNMATCHED: &str = "end of string not reached";

/// What a pattern does not close.
#[derive(Clone, Copy)]
pub(crate) struct Opening {
    /// Where its opening delimiter is: the innermost open one.
    pub(crate) start: usize,
    /// Whether it is a class that a bracket was opened in.
    pub(crate) nests_class: bool,
}

impl Opening {
    /// The delimiter, as a second part that a report points at.
    pub(crate) fn related(self) -> Related {
        Related {
            span: Span {
                start: self.start,
                end: self.start.saturating_add(1),
            },
            label: Label::Opened,
        }
    }
}

/// A text, and another after it so many times.
fn followed_by(
    alloc: Global,
    text: &str,
    closer: &str,
    count: usize,
) -> Result<String, AllocError> {
    let mut whole = String::from_str(alloc, text)?;
    for _ in 0..count {
        whole.push_str(closer)?;
    }
    Ok(whole)
}

/// What the text is parsed as, under the flags of the pattern.
fn parse(subject: Subject<'_>, text: &str) -> Result<Result<SpannedTree, Refusal>, RunError> {
    let Subject {
        alloc,
        flags,
        at,
        ..
    } = subject;
    Subject {
        alloc,
        flags,
        at,
        pattern: text,
    }
    .parse()
}

/// Whether the error is a closing parenthesis without an opening one.
pub(crate) fn is_unmatched(kind: &ParseError) -> bool {
    matches!(kind, ParseError::GeneralParseError(message) if message.as_str() == UNMATCHED)
}

/// The position of the closing parenthesis without an opening one, if that is the error of the text.
fn unmatched_position(subject: Subject<'_>, text: &str) -> Result<Option<usize>, RunError> {
    let refusal = parse(subject, text)?.err();
    match &refusal {
        Some(Refusal { position, kind }) if is_unmatched(kind) => Ok(Some(*position)),
        Some(_) | None => Ok(None),
    }
}

/// How many closing parentheses the text needs after it; none if it is invalid for another reason.
fn count_open(subject: Subject<'_>, text: &str) -> Result<Option<usize>, RunError> {
    let closed = followed_by(subject.alloc, text, CLOSER, MAX_CLOSERS)?;
    let Some(position) = unmatched_position(subject, closed.as_str())? else {
        return Ok(None);
    };
    let Some(after) = position.checked_sub(text.len()) else {
        return Ok(None);
    };
    Ok(Some(after / CLOSER.len()))
}

/// The tree of the text with the closing parentheses after it that it needs; none if it is invalid for another reason.
fn parse_closed(subject: Subject<'_>, text: &str) -> Result<Option<SpannedTree>, RunError> {
    let Some(count) = count_open(subject, text)? else {
        return Ok(None);
    };
    let closed = followed_by(subject.alloc, text, CLOSER, count)?;
    Ok(parse(subject, closed.as_str())?.ok())
}

/// The tree of the pattern with the ending after it so many times, and the closing parentheses after that which it needs;
/// none if it is invalid for another reason.
fn parse_ended(
    subject: Subject<'_>,
    ending: &str,
    count: usize,
) -> Result<Option<SpannedTree>, RunError> {
    let ended = followed_by(subject.alloc, subject.pattern, ending, count)?;
    parse_closed(subject, ended.as_str())
}

/// Whether a parenthesis after the text opens a group.
fn opens_group(subject: Subject<'_>, text: &str) -> Result<bool, RunError> {
    let Some(count) = count_open(subject, text)? else {
        return Ok(false);
    };
    let opened = followed_by(subject.alloc, text, "(x", 1)?;
    Ok(count_open(subject, opened.as_str())? == Some(count.saturating_add(1)))
}

/// Whether the pattern ends in a comment, where a parenthesis opens no group.
fn is_in_comment(subject: Subject<'_>) -> Result<bool, RunError> {
    let Some(count) = count_open(subject, subject.pattern)? else {
        return Ok(false);
    };
    let opened = followed_by(subject.alloc, subject.pattern, "\n(x", 1)?;
    Ok(count_open(subject, opened.as_str())? == Some(count))
}

/// Whether the text ends with a backslash that escapes what follows it.
fn escapes_next(text: &str) -> bool {
    let backslashes = text.len().saturating_sub(text.trim_end_matches('\\').len());
    backslashes % 2 == 1
}

/// The text after the last closing parenthesis that no backslash escapes.
fn after_last_parenthesis(pattern: &str) -> &str {
    for (i, _) in pattern.rmatch_indices(')') {
        if !escapes_next(pattern.get(..i).unwrap_or("")) {
            return pattern.get(i..).unwrap_or("");
        }
    }
    pattern
}

/// Where the comment begins that the pattern ends in.
fn comment_start(subject: Subject<'_>) -> Result<Option<usize>, RunError> {
    let pattern = subject.pattern;
    let rest = after_last_parenthesis(pattern);
    let skipped = pattern.len().saturating_sub(rest.len());
    for (i, _) in rest.match_indices("(?#").take(MAX_COMMENTS) {
        let start = skipped.saturating_add(i);
        if opens_group(subject, pattern.get(..start).unwrap_or(""))? {
            return Ok(Some(start));
        }
    }
    Ok(None)
}

/// What is written after a pattern to close its innermost open group, so that a node begins where the group does.
#[derive(Clone, Copy)]
enum GroupEnding {
    /// A quantifier: most groups can be repeated.
    Repeat,
    /// No quantifier: a look-around cannot be repeated, but is a node itself.
    LookAround,
    /// A colon first: the pattern ends in the flags of a flag group.
    Flags,
    /// Two closing parentheses: the pattern ends in the condition of a conditional.
    Condition,
}

const ENDINGS: [GroupEnding; 4] = [
    GroupEnding::Repeat,
    GroupEnding::LookAround,
    GroupEnding::Flags,
    GroupEnding::Condition,
];

impl GroupEnding {
    fn text(self) -> &'static str {
        match self {
            GroupEnding::Repeat => "\nx)*",
            GroupEnding::LookAround => CLOSER,
            GroupEnding::Flags => ":x)*",
            GroupEnding::Condition => "\nx)\nx)*",
        }
    }

    /// Whether the node that ends with the text begins where the group does.
    fn is_of_group(self, node: &Expr) -> bool {
        match (self, node) {
            (GroupEnding::Repeat | GroupEnding::Flags, Expr::Repeat { .. }) => true,
            (GroupEnding::LookAround, Expr::LookAround(..)) => true,
            (GroupEnding::Condition, Expr::Repeat { child, .. }) => {
                matches!(**child, Expr::Conditional { .. })
            }
            _ => false,
        }
    }
}

/// The innermost node that ends at the offset.
fn node_ending_at<'a>(nodes: &[SpannedNode<'a>], end: usize) -> Option<SpannedNode<'a>> {
    let mut found = None;
    for node in nodes {
        if node.span().end == end {
            found = Some(*node);
        }
    }
    found
}

/// Where the innermost node of the tree begins that ends at the offset, if it is that of a group with the ending.
fn group_ending_at(
    alloc: Global,
    parsed: Option<&SpannedTree>,
    ending: GroupEnding,
    end: usize,
) -> Result<Option<usize>, AllocError> {
    let Some(parsed) = parsed else {
        return Ok(None);
    };
    let nodes = nodes_of(alloc, parsed)?;
    match node_ending_at(&nodes, end) {
        Some(node) if ending.is_of_group(node.expr()) => Ok(Some(node.span().start)),
        Some(_) | None => Ok(None),
    }
}

/// Where the innermost open group begins, if the ending fits it.
fn group_start_with(subject: Subject<'_>, ending: GroupEnding) -> Result<Option<usize>, RunError> {
    let text = ending.text();
    let end = subject.pattern.len().saturating_add(text.len());
    let parsed = parse_ended(subject, text, 1)?;
    Ok(group_ending_at(subject.alloc, parsed.as_ref(), ending, end)?)
}

/// Where the innermost open group begins.
fn group_start(subject: Subject<'_>) -> Result<Option<usize>, RunError> {
    for ending in ENDINGS.iter() {
        let found = group_start_with(subject, *ending)?;
        if found.is_some() {
            return Ok(found);
        }
    }
    Ok(None)
}

/// What is before a character in a class.
#[derive(Clone, Copy)]
enum Before {
    /// An item, or the end of a class in this one.
    Item,
    /// The bracket that opens the class. A closing one after it is an item.
    Bracket,
    /// The same and a `^`, which negates the class.
    Negation,
    Backslash,
}

impl Before {
    /// What is before the next character.
    fn and(self, c: char) -> Before {
        match (self, c) {
            (Before::Backslash, _) => Before::Item,
            (_, '\\') => Before::Backslash,
            (_, '[') => Before::Bracket,
            (Before::Bracket, '^') => Before::Negation,
            _ => Before::Item,
        }
    }
}

/// The brackets in a class that is not closed.
#[derive(Drop)]
struct Brackets {
    /// Where those are that are open.
    open: Vec<usize>,
    /// Whether one opens a class in the class, which is none of POSIX, such as `[:alpha:]`.
    nests_class: bool,
}

impl Brackets {
    /// Those in the text, which begins with the class.
    fn of(alloc: Global, class: &str) -> Result<Brackets, AllocError> {
        let mut brackets = Brackets {
            open: Vec::new(alloc),
            nests_class: false,
        };
        let mut before = Before::Item;
        for (i, c) in class.char_indices() {
            match (before, c) {
                (Before::Backslash, _) => {}
                (_, '[') => brackets.push(class, i)?,
                (Before::Item, ']') => brackets.pop(),
                _ => {}
            }
            before = before.and(c);
        }
        Ok(brackets)
    }

    /// Opens one.
    fn push(&mut self, class: &str, start: usize) -> Result<(), AllocError> {
        let is_posix = class.get(start..).unwrap_or("").starts_with("[:");
        self.nests_class = self.nests_class || !self.open.is_empty() && !is_posix;
        self.open.push(start)?;
        Ok(())
    }

    /// Closes the innermost one.
    fn pop(&mut self) {
        self.open.pop();
    }

    /// The innermost one, in a text that begins at the offset, if so many are open.
    fn innermost(&self, start: usize, depth: usize) -> Option<Opening> {
        let innermost = self.open.last()?;
        if self.open.len() != depth {
            return None;
        }
        Some(Opening {
            start: start.saturating_add(*innermost),
            nests_class: self.nests_class,
        })
    }
}

/// The span of the class that goes on after the offset.
fn class_around(nodes: &[SpannedNode<'_>], offset: usize) -> Option<Span> {
    for node in nodes {
        let span = node.span();
        if matches!(node.expr(), Expr::Delegate { .. })
            && span.start < offset
            && offset < span.end
        {
            return Some(span);
        }
    }
    None
}

/// The span of the class of the tree that goes on after the offset.
fn class_in(
    alloc: Global,
    parsed: Option<&SpannedTree>,
    offset: usize,
) -> Result<Option<Span>, AllocError> {
    let Some(parsed) = parsed else {
        return Ok(None);
    };
    let nodes = nodes_of(alloc, parsed)?;
    Ok(class_around(&nodes, offset))
}

/// The span of the outermost open class, in the pattern with closing brackets after it.
fn class_span(subject: Subject<'_>) -> Result<Option<Span>, RunError> {
    let parsed = parse_ended(subject, CLASS_CLOSER, MAX_CLASSES)?;
    Ok(class_in(subject.alloc, parsed.as_ref(), subject.pattern.len())?)
}

/// What is known of the innermost open class. The brackets are counted by hand, and have to be as many as the parser needs.
fn class_opening(subject: Subject<'_>) -> Result<Option<Opening>, RunError> {
    let Subject { alloc, pattern, .. } = subject;
    let Some(Span { start, end }) = class_span(subject)? else {
        return Ok(None);
    };
    let depth = end.saturating_sub(pattern.len()) / CLASS_CLOSER.len();
    let brackets = Brackets::of(alloc, pattern.get(start..).unwrap_or(""))?;
    Ok(brackets.innermost(start, depth))
}

/// What opens the group or the comment that the pattern does not close.
fn group_opening(subject: Subject<'_>) -> Result<Option<Opening>, RunError> {
    let start = if is_in_comment(subject)? {
        comment_start(subject)?
    } else {
        group_start(subject)?
    };
    let Some(start) = start else {
        return Ok(None);
    };
    Ok(Some(Opening {
        start,
        nests_class: false,
    }))
}

/// What opens what the pattern does not close, where its error is that; none if that is not known surely, as where the
/// pattern has another error too.
pub(crate) fn opening_of(
    subject: Subject<'_>,
    refusal: &Refusal,
) -> Result<Option<Opening>, RunError> {
    if refusal.position < subject.pattern.len() {
        return Ok(None);
    }
    match refusal.kind {
        ParseError::InvalidClass => class_opening(subject),
        ParseError::UnclosedOpenParen => group_opening(subject),
        _ => Ok(None),
    }
}
