//! Nodes described for people.
use crate::columns::ColumnTable;
use crate::names::Names;
use crate::position::PositionWords;
use crate::shown::{Code, is_hidden};
use fancy_lex::escape::Assertion;
use fancy_lex::name::CaptureGroupTarget;
use fancy_syntax::expr::{Absent, AstNode, Expr, LookAround};
use std::io::Write;
use std::{fmt, io};

/// A text in which each line feed, carriage return and tab is written as an escape, and each hidden character as its code.
#[derive(Clone, Copy)]
pub struct Visible<'a>(pub &'a str);

impl fmt::Display for Visible<'_> {
    fn fmt<W: fmt::Write>(&self, f: &mut fmt::Formatter<W>) -> fmt::Result {
        for c in self.0.chars() {
            match c {
                '\n' => f.write_str(r"\n")?,
                '\r' => f.write_str(r"\r")?,
                '\t' => f.write_str(r"\t")?,
                _ if is_hidden(c) => write!(f, "{}", Code(c))?,
                _ => f.write_char(c)?,
            }
        }
        Ok(())
    }
}

/// What is added to a node that is case-insensitive.
fn case_words(casei: bool) -> &'static str {
    if casei { ", case-insensitive" } else { "" }
}

fn any_words(newline: bool, crlf: bool) -> &'static str {
    match (newline, crlf) {
        (true, _) => "any character",
        (false, false) => "any character except a line feed",
        (false, true) => "any character except a carriage return or a line feed",
    }
}

fn assertion_words(assertion: Assertion) -> &'static str {
    match assertion {
        Assertion::StartText => "start of the text",
        Assertion::EndText => "end of the text",
        Assertion::EndTextIgnoreTrailingNewlines { crlf: false } => {
            "end of the text, or before line feeds that end it"
        }
        Assertion::EndTextIgnoreTrailingNewlines { crlf: true } => {
            "end of the text, or before line terminators that end it, CR LF as one"
        }
        Assertion::StartLine { crlf: false } => "start of a line",
        Assertion::StartLine { crlf: true } =>
            "start of a line, CR a line terminator too, and CR LF a single one",
        Assertion::StartLineOniguruma { crlf: false } => {
            "start of a line, except at the end of the text"
        }
        Assertion::StartLineOniguruma { crlf: true } => {
            "start of a line, except at the end of the text, CR a line terminator too, and CR LF a single one"
        }
        Assertion::EndLine { crlf: false } => "end of a line",
        Assertion::EndLine { crlf: true } =>
            "end of a line, CR a line terminator too, and CR LF a single one",
        Assertion::LeftWordBoundary => "start of a word",
        Assertion::LeftWordHalfBoundary => "no word character before",
        Assertion::RightWordBoundary => "end of a word",
        Assertion::RightWordHalfBoundary => "no word character after",
        Assertion::WordBoundary => "word boundary",
        Assertion::NotWordBoundary => "not a word boundary",
    }
}

fn look_around_words(look_around: LookAround) -> &'static str {
    match look_around {
        LookAround::LookAhead => "look-ahead",
        LookAround::LookAheadNeg => "negative look-ahead",
        LookAround::LookBehind => "look-behind",
        LookAround::LookBehindNeg => "negative look-behind",
    }
}

fn absent_words(absent: &Absent) -> &'static str {
    match absent {
        Absent::Repeater(_) => "absent repeater: text without a match of",
        Absent::Expression { .. } =>
            "absent expression: a match in text without a match of another",
        Absent::Stopper(_) => "absent stopper: from here on no match of",
        Absent::Clear => "absent clear: ends the stopper",
    }
}

/// A node that has no fields, or whose fields are flags or its children.
fn plain_words(node: &Expr) -> &'static str {
    match node {
        Expr::Empty => "empty",
        Expr::Any { newline, crlf } => any_words(*newline, *crlf),
        Expr::Assertion(assertion) => assertion_words(*assertion),
        Expr::GeneralNewline { unicode: false } => "any ASCII line break",
        Expr::GeneralNewline { unicode: true } => "any line break",
        Expr::Concat(_) => "concatenation",
        Expr::Alt(_) => "alternation",
        Expr::LookAround(_, look_around) => look_around_words(*look_around),
        Expr::AtomicGroup(_) => "atomic group",
        Expr::KeepOut => r"\K: the match begins here",
        Expr::ContinueFromPreviousMatchEnd => "end of the previous match",
        Expr::Conditional { .. } => "conditional",
        Expr::Absent(absent) => absent_words(absent),
        Expr::DefineGroup { .. } => "definitions",
        Expr::Literal { .. }
        | Expr::LiteralBytes { .. }
        | Expr::Group(_)
        | Expr::Repeat { .. }
        | Expr::Delegate { .. }
        | Expr::Backref { .. }
        | Expr::BackrefWithRelativeRecursionLevel { .. }
        | Expr::BackrefExistsCondition { .. }
        | Expr::SubroutineCall(_)
        | Expr::BacktrackingControlVerb(_)
        | Expr::AstNode(..) => "a node that no parsed tree has",
    }
}

/// How often an operand is repeated.
#[derive(Clone, Copy)]
struct Times {
    least: usize,
    most: usize,
}

impl fmt::Display for Times {
    fn fmt<W: fmt::Write>(&self, f: &mut fmt::Formatter<W>) -> fmt::Result {
        match (self.least, self.most) {
            (1, 1) => f.write_str("once"),
            (least, usize::MAX) => write!(f, "{least} or more times"),
            (least, most) if least == most => write!(f, "{least} times"),
            (least, most) => write!(f, "{least} to {most} times"),
        }
    }
}

/// The recursion level of a reference, if it has one.
#[derive(Clone, Copy)]
struct LevelWords(Option<isize>);

impl fmt::Display for LevelWords {
    fn fmt<W: fmt::Write>(&self, f: &mut fmt::Formatter<W>) -> fmt::Result {
        match self.0 {
            Some(level) => write!(f, ", at recursion level {level:+}"),
            None => Ok(()),
        }
    }
}

/// The target of an unresolved call, as it is written.
#[derive(Clone, Copy)]
struct WrittenTarget<'a>(&'a CaptureGroupTarget);

impl fmt::Display for WrittenTarget<'_> {
    fn fmt<W: fmt::Write>(&self, f: &mut fmt::Formatter<W>) -> fmt::Result {
        match self.0 {
            CaptureGroupTarget::ByNumber(number) => write!(f, "{number}"),
            CaptureGroupTarget::ByName(name) => write!(f, "{}", Visible(name.as_str())),
            CaptureGroupTarget::Relative(amount) => write!(f, "{amount:+}"),
        }
    }
}

/// Writes what a reference or a subroutine call refers to, and the position of a call that is unresolved; nothing for any
/// other node.
pub fn write_reference(
    out: &mut Vec<u8>,
    node: &Expr,
    names: &Names<'_>,
    columns: &ColumnTable,
) -> io::Result<()> {
    match node {
        Expr::Backref { group, casei } => {
            let case = case_words(*casei);
            write!(out, "back reference to {}{case}", names.group(*group))
        }
        Expr::BackrefWithRelativeRecursionLevel {
            group,
            relative_level,
            casei,
        } => {
            let level = LevelWords(Some(*relative_level));
            let case = case_words(*casei);
            write!(
                out,
                "back reference to {}{level}{case}",
                names.group(*group)
            )
        }
        Expr::BackrefExistsCondition {
            group,
            relative_recursion_level,
        } => {
            let level = LevelWords(*relative_recursion_level);
            write!(out, "condition on {}{level}", names.group(*group))
        }
        Expr::SubroutineCall(0) => write!(out, "call of the whole pattern"),
        Expr::SubroutineCall(group) => write!(out, "call of {}", names.group(*group)),
        Expr::AstNode(AstNode::SubroutineCall(target), position) => {
            let target = WrittenTarget(target);
            let words = PositionWords(columns.position(*position));
            write!(out, r"unresolved call \g<{target}>, {words}")
        }
        Expr::Empty
        | Expr::Any { .. }
        | Expr::Assertion(_)
        | Expr::GeneralNewline { .. }
        | Expr::Literal { .. }
        | Expr::LiteralBytes { .. }
        | Expr::Concat(_)
        | Expr::Alt(_)
        | Expr::Group(_)
        | Expr::LookAround(..)
        | Expr::Repeat { .. }
        | Expr::Delegate { .. }
        | Expr::AtomicGroup(_)
        | Expr::KeepOut
        | Expr::ContinueFromPreviousMatchEnd
        | Expr::Conditional { .. }
        | Expr::BacktrackingControlVerb(_)
        | Expr::Absent(_)
        | Expr::DefineGroup { .. }
        | Expr::AstNode(..) => Ok(()),
    }
}

/// Whether the node is a reference or a subroutine call.
pub fn is_reference(node: &Expr) -> bool {
    matches!(
        node,
        Expr::Backref { .. }
            | Expr::BackrefWithRelativeRecursionLevel { .. }
            | Expr::BackrefExistsCondition { .. }
            | Expr::SubroutineCall(_)
            | Expr::AstNode(..)
    )
}

/// Bytes in hexadecimal, two digits each; `-` for no bytes.
#[derive(Clone, Copy)]
struct HexDigits<'a>(&'a [u8]);

impl fmt::Display for HexDigits<'_> {
    fn fmt<W: fmt::Write>(&self, f: &mut fmt::Formatter<W>) -> fmt::Result {
        if self.0.is_empty() {
            return f.write_str("-");
        }
        for byte in self.0 {
            write!(f, "{byte:02x}")?;
        }
        Ok(())
    }
}

/// A literal, described. Each control character is written as an escape.
#[derive(Clone, Copy)]
pub struct LiteralWords<'a> {
    pub text: &'a str,
    pub casei: bool,
}

impl fmt::Display for LiteralWords<'_> {
    fn fmt<W: fmt::Write>(&self, f: &mut fmt::Formatter<W>) -> fmt::Result {
        write!(f, "literal {:?}{}", self.text, case_words(self.casei))
    }
}

/// A node that is neither a reference nor a group, described.
#[derive(Clone, Copy)]
pub struct Held<'a>(pub &'a Expr);

impl fmt::Display for Held<'_> {
    fn fmt<W: fmt::Write>(&self, f: &mut fmt::Formatter<W>) -> fmt::Result {
        match self.0 {
            Expr::Literal { val, casei } => {
                let literal = LiteralWords {
                    text: val.as_str(),
                    casei: *casei,
                };
                write!(f, "{literal}")
            }
            Expr::LiteralBytes { bytes } => write!(f, "bytes {}", HexDigits(bytes)),
            Expr::Delegate { inner, casei } => {
                write!(f, "class {}{}", Visible(inner.as_str()), case_words(*casei))
            }
            Expr::Repeat { lo, hi, greedy, .. } => {
                let times = Times {
                    least: *lo,
                    most: *hi,
                };
                let mode = if *greedy { "greedy" } else { "lazy" };
                write!(f, "repeat {times}, {mode}")
            }
            Expr::BacktrackingControlVerb(verb) => write!(f, "verb {}", verb.word()),
            node => f.write_str(plain_words(node)),
        }
    }
}
