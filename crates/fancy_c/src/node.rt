//! A node of a tree, as a caller in C gets it. The numbers never change.
ghost use Rattle.std.specs.Prelude.{◌≡◌, chars};
ghost use Rattle.fancy_lex.specs.NameViews.{view_target};
ghost use Rattle.fancy_syntax.specs.View.{view, view_absent, view_ast};
ghost use Rattle.fancy_c.specs.Node as spec;

use fancy_syntax::expr::{
    Absent, Assertion, AstNode, BacktrackingControlVerb, CaptureGroupTarget, Expr, LookAround,
};
use fancy_syntax::span::Span;

pub const NODE_EMPTY: u32 = 1;

pub const NODE_ANY: u32 = 2;

pub const NODE_ASSERTION: u32 = 3;

pub const NODE_GENERAL_NEWLINE: u32 = 4;

pub const NODE_LITERAL: u32 = 5;

pub const NODE_LITERAL_BYTES: u32 = 6;

pub const NODE_CONCAT: u32 = 7;

pub const NODE_ALT: u32 = 8;

pub const NODE_GROUP: u32 = 9;

pub const NODE_LOOK_AROUND: u32 = 10;

pub const NODE_REPEAT: u32 = 11;

pub const NODE_DELEGATE: u32 = 12;

pub const NODE_BACKREF: u32 = 13;

pub const NODE_BACKREF_AT_LEVEL: u32 = 14;

pub const NODE_ATOMIC_GROUP: u32 = 15;

pub const NODE_KEEP_OUT: u32 = 16;

pub const NODE_CONTINUE_FROM_PREVIOUS_MATCH_END: u32 = 17;

pub const NODE_BACKREF_EXISTS_CONDITION: u32 = 18;

pub const NODE_CONDITIONAL: u32 = 19;

pub const NODE_SUBROUTINE_CALL: u32 = 20;

pub const NODE_VERB: u32 = 21;

pub const NODE_ABSENT: u32 = 22;

pub const NODE_DEFINE_GROUP: u32 = 23;

pub const NODE_AST_NODE: u32 = 24;

// Callers in C compare with these numbers.
const _: () = prove!(NODE_EMPTY == 1 && NODE_ANY == 2 && NODE_ASSERTION == 3);

const _: () = prove!(NODE_GENERAL_NEWLINE == 4 && NODE_LITERAL == 5 && NODE_LITERAL_BYTES == 6);

const _: () = prove!(NODE_CONCAT == 7 && NODE_ALT == 8 && NODE_GROUP == 9);

const _: () = prove!(NODE_LOOK_AROUND == 10 && NODE_REPEAT == 11 && NODE_DELEGATE == 12);

const _: () = prove!(NODE_BACKREF == 13 && NODE_BACKREF_AT_LEVEL == 14 && NODE_ATOMIC_GROUP == 15);

const _: () = prove!(NODE_KEEP_OUT == 16 && NODE_CONTINUE_FROM_PREVIOUS_MATCH_END == 17);

const _: () = prove!(
    NODE_BACKREF_EXISTS_CONDITION == 18 && NODE_CONDITIONAL == 19 && NODE_SUBROUTINE_CALL == 20
);

const _: () = prove!(NODE_VERB == 21 && NODE_ABSENT == 22 && NODE_DEFINE_GROUP == 23);

const _: () = prove!(NODE_AST_NODE == 24);

pub const ASSERTION_START_TEXT: u32 = 1;

pub const ASSERTION_END_TEXT: u32 = 2;

pub const ASSERTION_END_TEXT_IGNORE_TRAILING_NEWLINES: u32 = 3;

pub const ASSERTION_START_LINE: u32 = 4;

pub const ASSERTION_START_LINE_ONIGURUMA: u32 = 5;

pub const ASSERTION_END_LINE: u32 = 6;

pub const ASSERTION_LEFT_WORD_BOUNDARY: u32 = 7;

pub const ASSERTION_LEFT_WORD_HALF_BOUNDARY: u32 = 8;

pub const ASSERTION_RIGHT_WORD_BOUNDARY: u32 = 9;

pub const ASSERTION_RIGHT_WORD_HALF_BOUNDARY: u32 = 10;

pub const ASSERTION_WORD_BOUNDARY: u32 = 11;

pub const ASSERTION_NOT_WORD_BOUNDARY: u32 = 12;

const _: () = prove!(
    ASSERTION_START_TEXT == 1
        && ASSERTION_END_TEXT == 2
        && ASSERTION_END_TEXT_IGNORE_TRAILING_NEWLINES == 3
);

const _: () = prove!(
    ASSERTION_START_LINE == 4 && ASSERTION_START_LINE_ONIGURUMA == 5 && ASSERTION_END_LINE == 6
);

const _: () = prove!(ASSERTION_LEFT_WORD_BOUNDARY == 7 && ASSERTION_LEFT_WORD_HALF_BOUNDARY == 8);

const _: () = prove!(
    ASSERTION_RIGHT_WORD_BOUNDARY == 9 && ASSERTION_RIGHT_WORD_HALF_BOUNDARY == 10
);

const _: () = prove!(ASSERTION_WORD_BOUNDARY == 11 && ASSERTION_NOT_WORD_BOUNDARY == 12);

pub const LOOK_AHEAD: u32 = 1;

pub const LOOK_AHEAD_NEG: u32 = 2;

pub const LOOK_BEHIND: u32 = 3;

pub const LOOK_BEHIND_NEG: u32 = 4;

const _: () = prove!(LOOK_AHEAD == 1 && LOOK_AHEAD_NEG == 2 && LOOK_BEHIND == 3);

const _: () = prove!(LOOK_BEHIND_NEG == 4);

pub const VERB_FAIL: u32 = 1;

pub const VERB_ACCEPT: u32 = 2;

pub const VERB_COMMIT: u32 = 3;

pub const VERB_SKIP: u32 = 4;

pub const VERB_PRUNE: u32 = 5;

const _: () = prove!(VERB_FAIL == 1 && VERB_ACCEPT == 2 && VERB_COMMIT == 3);

const _: () = prove!(VERB_SKIP == 4 && VERB_PRUNE == 5);

pub const ABSENT_REPEATER: u32 = 1;

pub const ABSENT_EXPRESSION: u32 = 2;

pub const ABSENT_STOPPER: u32 = 3;

pub const ABSENT_CLEAR: u32 = 4;

const _: () = prove!(ABSENT_REPEATER == 1 && ABSENT_EXPRESSION == 2 && ABSENT_STOPPER == 3);

const _: () = prove!(ABSENT_CLEAR == 4);

pub const TARGET_BY_NUMBER: u32 = 1;

pub const TARGET_BY_NAME: u32 = 2;

pub const TARGET_RELATIVE: u32 = 3;

const _: () = prove!(TARGET_BY_NUMBER == 1 && TARGET_BY_NAME == 2 && TARGET_RELATIVE == 3);

/// A node. A field that its kind does not have is 0 or false.
#[repr(C)]
#[derive(Clone, Copy)]
pub struct Node {
    /// `NODE_EMPTY` to `NODE_AST_NODE`.
    pub kind: u32,
    /// Which assertion, look-around, verb or absent expression it is, or what a call refers to.
    pub which: u32,
    /// One past the index of its last descendant.
    pub end: usize,
    /// Where its text begins in the buffer of texts, as a byte offset; 0 if it has none.
    pub text: usize,
    /// The size of its text in bytes.
    pub text_size: usize,
    /// The lower bound of a repetition.
    pub lo: usize,
    /// The upper bound of a repetition, `usize::MAX` for none.
    pub hi: usize,
    /// The number of a group: of the node itself, or of the one that it refers to.
    pub group: usize,
    /// The recursion level, relative to the current one; or the relative number of the group that is called.
    pub level: isize,
    /// The position of an unresolved call, as a byte offset.
    pub position: usize,
    /// Where its part of the pattern starts, as a byte offset.
    pub start: usize,
    /// Where its part of the pattern ends: one past the offset of the last byte.
    pub stop: usize,
    /// Whether it matches a line break too.
    pub newline: bool,
    /// Whether CR is a line terminator too, and CR LF a single one.
    pub crlf: bool,
    /// Whether the line breaks of Unicode count too.
    pub unicode: bool,
    /// Whether it is case-insensitive.
    pub casei: bool,
    /// Whether a repetition is greedy.
    pub greedy: bool,
    /// Whether a recursion level is given; always for a `NODE_BACKREF_AT_LEVEL`.
    pub has_level: bool,
}

/// Where a node is: the index after its last descendant, where its text begins (0 if it has none), and its span in the
/// pattern.
#[derive(Clone, Copy)]
pub(crate) struct NodeLocation {
    pub(crate) end: usize,
    pub(crate) text: usize,
    pub(crate) span: Span,
}

/// The number of the assertion.
fn assertion_number(assertion: Assertion) -> u32
    ensures { result ≡ spec.assertion_number assertion }
{
    match assertion {
        Assertion::StartText => ASSERTION_START_TEXT,
        Assertion::EndText => ASSERTION_END_TEXT,
        Assertion::EndTextIgnoreTrailingNewlines { .. } =>
            ASSERTION_END_TEXT_IGNORE_TRAILING_NEWLINES,
        Assertion::StartLine { .. } => ASSERTION_START_LINE,
        Assertion::StartLineOniguruma { .. } => ASSERTION_START_LINE_ONIGURUMA,
        Assertion::EndLine { .. } => ASSERTION_END_LINE,
        Assertion::LeftWordBoundary => ASSERTION_LEFT_WORD_BOUNDARY,
        Assertion::LeftWordHalfBoundary => ASSERTION_LEFT_WORD_HALF_BOUNDARY,
        Assertion::RightWordBoundary => ASSERTION_RIGHT_WORD_BOUNDARY,
        Assertion::RightWordHalfBoundary => ASSERTION_RIGHT_WORD_HALF_BOUNDARY,
        Assertion::WordBoundary => ASSERTION_WORD_BOUNDARY,
        Assertion::NotWordBoundary => ASSERTION_NOT_WORD_BOUNDARY,
    }
}

/// Whether CR is a line terminator too for the assertion, and CR LF a single one; false if it does not look for line
/// terminators.
fn has_crlf(assertion: Assertion) -> bool
    ensures { result ≡ spec.has_crlf assertion }
{
    match assertion {
        Assertion::EndTextIgnoreTrailingNewlines { crlf }
        | Assertion::StartLine { crlf }
        | Assertion::StartLineOniguruma { crlf }
        | Assertion::EndLine { crlf } => crlf,
        _ => false,
    }
}

/// The number of the look-around's kind.
fn look_around_number(look_around: LookAround) -> u32
    ensures { result ≡ spec.look_around_number look_around }
{
    match look_around {
        LookAround::LookAhead => LOOK_AHEAD,
        LookAround::LookAheadNeg => LOOK_AHEAD_NEG,
        LookAround::LookBehind => LOOK_BEHIND,
        LookAround::LookBehindNeg => LOOK_BEHIND_NEG,
    }
}

/// The number of the verb.
fn verb_number(verb: BacktrackingControlVerb) -> u32
    ensures { result ≡ spec.verb_number verb }
{
    match verb {
        BacktrackingControlVerb::Fail => VERB_FAIL,
        BacktrackingControlVerb::Accept => VERB_ACCEPT,
        BacktrackingControlVerb::Commit => VERB_COMMIT,
        BacktrackingControlVerb::Skip => VERB_SKIP,
        BacktrackingControlVerb::Prune => VERB_PRUNE,
    }
}

/// The number of the absent form.
fn absent_number(absent: &Absent) -> u32
    ensures { (s : _) → spec.row s (view_absent absent.now) ≡ spec.absent_row s result }
{
    match absent {
        Absent::Repeater(_) => ABSENT_REPEATER,
        Absent::Expression { .. } => ABSENT_EXPRESSION,
        Absent::Stopper(_) => ABSENT_STOPPER,
        Absent::Clear => ABSENT_CLEAR,
    }
}

/// The name that is called; empty for a number.
fn target_name(target: &CaptureGroupTarget) -> &[u8]
    ensures { result.now ≡ spec.target_name (view_target target.now) }
{
    match target {
        CaptureGroupTarget::ByNumber(_) => &[],
        CaptureGroupTarget::ByName(name) => name.as_bytes(),
        CaptureGroupTarget::Relative(_) => &[],
    }
}

/// The name that is called by a node that was read and not resolved.
fn called_name(node: &AstNode) -> &[u8]
    ensures { (offset : _) → result.now ≡ spec.carried (view_ast node.now offset) }
{
    match node {
        AstNode::SubroutineCall(target) => target_name(target),
        AstNode::AstGroup { .. }
        | AstNode::Backref { .. }
        | AstNode::BackrefExistsCondition { .. } => &[],
    }
}

/// The text that a node carries, or its bytes.
pub(crate) fn carried(tree: &Expr) -> &[u8]
    ensures { result.now ≡ spec.carried (view tree.now) }
{
    match tree {
        Expr::Literal { val, .. } => val.as_bytes(),
        Expr::LiteralBytes { bytes } => bytes,
        Expr::Delegate { inner, .. } => inner.as_bytes(),
        Expr::AstNode(node, _) => called_name(node),
        Expr::Empty
        | Expr::Any { .. }
        | Expr::Assertion(_)
        | Expr::GeneralNewline { .. }
        | Expr::Concat(_)
        | Expr::Alt(_)
        | Expr::Group(_)
        | Expr::LookAround(_, _)
        | Expr::Repeat { .. }
        | Expr::Backref { .. }
        | Expr::BackrefWithRelativeRecursionLevel { .. }
        | Expr::AtomicGroup(_)
        | Expr::KeepOut
        | Expr::ContinueFromPreviousMatchEnd
        | Expr::BackrefExistsCondition { .. }
        | Expr::Conditional { .. }
        | Expr::SubroutineCall(_)
        | Expr::BacktrackingControlVerb(_)
        | Expr::Absent(_)
        | Expr::DefineGroup { .. } => &[],
    }
}

impl NodeLocation {
    /// A node of this kind that has only its text.
    fn plain(self, kind: u32, size: usize) -> Node
        ensures { result ≡ spec.plain kind self size }
    {
        Node {
            kind,
            which: 0,
            end: self.end,
            text: self.text,
            text_size: size,
            lo: 0,
            hi: 0,
            group: 0,
            level: 0,
            position: 0,
            start: self.span.start,
            stop: self.span.end,
            newline: false,
            crlf: false,
            unicode: false,
            casei: false,
            greedy: false,
            has_level: false,
        }
    }

    /// A node of a kind with several variants.
    fn one_of(self, kind: u32, which: u32) -> Node
        ensures { result ≡ record (spec.plain kind self 0) { which = which } }
    {
        Node {
            which,
            ..self.plain(kind, 0)
        }
    }

    /// A node with a text.
    #[tactic(auto, using(crate::proofs::NodeLemmas::text_size))]
    fn with_text(self, kind: u32, text: &str, casei: bool) -> Node
        ensures { result ≡ spec.with_text self kind (chars text.now) casei }
    {
        Node {
            casei,
            ..self.plain(kind, text.len())
        }
    }

    /// A call as it was read.
    fn call(self, target: &CaptureGroupTarget, offset: usize) -> Node
        ensures { result ≡ spec.row_of_call self (view_target target.now) offset }
    {
        match target {
            CaptureGroupTarget::ByNumber(number) => Node {
                group: *number,
                position: offset,
                ..self.one_of(NODE_AST_NODE, TARGET_BY_NUMBER)
            },
            CaptureGroupTarget::ByName(name) => Node {
                which: TARGET_BY_NAME,
                position: offset,
                ..self.with_text(NODE_AST_NODE, name.as_str(), false)
            },
            CaptureGroupTarget::Relative(amount) => Node {
                level: *amount,
                position: offset,
                ..self.one_of(NODE_AST_NODE, TARGET_RELATIVE)
            },
        }
    }

    /// A node that was read and not resolved.
    fn read_node(self, node: &AstNode, offset: usize) -> Node
        ensures { result ≡ spec.row self (view_ast node.now offset) }
    {
        match node {
            AstNode::SubroutineCall(target) => self.call(target, offset),
            AstNode::AstGroup { .. }
            | AstNode::Backref { .. }
            | AstNode::BackrefExistsCondition { .. } => { self.plain(NODE_AST_NODE, 0) }
        }
    }

    /// A condition on a group.
    fn condition(self, group: usize, level: Option<isize>) -> Node
        ensures { result ≡ spec.condition self group level }
    {
        Node {
            group,
            level: level.unwrap_or(0),
            has_level: level.is_some(),
            ..self.plain(NODE_BACKREF_EXISTS_CONDITION, 0)
        }
    }

    /// The row of a node for a caller in C.
    #[inline(always)]
    pub(crate) fn row(self, tree: &Expr) -> Node
        ensures { result ≡ spec.row self (view tree.now) }
    {
        match tree {
            Expr::Empty => self.plain(NODE_EMPTY, 0),
            Expr::Any { newline, crlf } => Node {
                newline: *newline,
                crlf: *crlf,
                ..self.plain(NODE_ANY, 0)
            },
            Expr::Assertion(assertion) => Node {
                crlf: has_crlf(*assertion),
                ..self.one_of(NODE_ASSERTION, assertion_number(*assertion))
            },
            Expr::GeneralNewline { unicode } => Node {
                unicode: *unicode,
                ..self.plain(NODE_GENERAL_NEWLINE, 0)
            },
            Expr::Literal { val, casei } => self.with_text(NODE_LITERAL, val.as_str(), *casei),
            Expr::LiteralBytes { bytes } => self.plain(NODE_LITERAL_BYTES, bytes.len()),
            Expr::Concat(_) => self.plain(NODE_CONCAT, 0),
            Expr::Alt(_) => self.plain(NODE_ALT, 0),
            Expr::Group(_) => self.plain(NODE_GROUP, 0),
            Expr::LookAround(_, look_around) => {
                self.one_of(NODE_LOOK_AROUND, look_around_number(*look_around))
            }
            Expr::Repeat { lo, hi, greedy, .. } => Node {
                lo: *lo,
                hi: *hi,
                greedy: *greedy,
                ..self.plain(NODE_REPEAT, 0)
            },
            Expr::Delegate { inner, casei } => self.with_text(
                NODE_DELEGATE,
                inner.as_str(),
                *casei,
            ),
            Expr::Backref { group, casei } => Node {
                group: *group,
                casei: *casei,
                ..self.plain(NODE_BACKREF, 0)
            },
            Expr::BackrefWithRelativeRecursionLevel {
                group,
                relative_level,
                casei,
            } => Node {
                group: *group,
                level: *relative_level,
                has_level: true,
                casei: *casei,
                ..self.plain(NODE_BACKREF_AT_LEVEL, 0)
            },
            Expr::AtomicGroup(_) => self.plain(NODE_ATOMIC_GROUP, 0),
            Expr::KeepOut => self.plain(NODE_KEEP_OUT, 0),
            Expr::ContinueFromPreviousMatchEnd => {
                self.plain(NODE_CONTINUE_FROM_PREVIOUS_MATCH_END, 0)
            }
            Expr::BackrefExistsCondition {
                group,
                relative_recursion_level,
            } => self.condition(*group, *relative_recursion_level),
            Expr::Conditional { .. } => self.plain(NODE_CONDITIONAL, 0),
            Expr::SubroutineCall(group) => Node {
                group: *group,
                ..self.plain(NODE_SUBROUTINE_CALL, 0)
            },
            Expr::BacktrackingControlVerb(verb) => self.one_of(NODE_VERB, verb_number(*verb)),
            Expr::Absent(absent) => self.one_of(NODE_ABSENT, absent_number(absent)),
            Expr::DefineGroup { .. } => self.plain(NODE_DEFINE_GROUP, 0),
            Expr::AstNode(node, offset) => self.read_node(node, *offset),
        }
    }
}
