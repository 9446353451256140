//! The types of trees, and the functions on them.
mod child_mut;
mod children;
mod clone;
mod descendants;
mod equality;
mod parent;
pub mod repeatable;
mod shape;

pub use children::ExprChildrenIter;
pub use fancy_grammar::kinds::{BacktrackingControlVerb, LookAround};
pub use fancy_lex::escape::Assertion;
pub use fancy_lex::name::CaptureGroupTarget;
pub use shape::{Shape, Wrap};

/// A node as it is parsed, before references are resolved. Every one counts as a leaf, an `AstGroup` too. In a returned
/// tree each is a `SubroutineCall` that cannot be resolved.
#[cycle(expr)]
#[derive(Debug, Drop)]
pub enum AstNode {
    /// A capturing group: `(a)`, `(?<n>a)`.
    AstGroup {
        /// The group's name, if it has one.
        name: Option<String>,
        /// The contents of the group.
        inner: Box<Expr>,
    },
    /// A back reference: `\1`, `\k<n>`.
    ///
    /// Fields lie in memory in this order. With `casei` first a node takes 72 bytes, and not 80.
    Backref {
        /// Whether it is case-insensitive.
        casei: bool,
        /// The group that it refers to.
        target: CaptureGroupTarget,
        /// The recursion level, relative to the current one.
        relative_recursion_level: Option<isize>,
    },
    /// A subroutine call: `\g<n>`.
    SubroutineCall(CaptureGroupTarget),
    /// A condition that is true if a group has matched, as in `(?(<n>)a|b)`.
    BackrefExistsCondition {
        /// The group that it refers to.
        target: CaptureGroupTarget,
        /// The recursion level, relative to the current one.
        relative_recursion_level: Option<isize>,
    },
}

/// Oniguruma's absent forms, each about what the text must not contain.
#[cycle(expr)]
#[derive(Debug, Drop)]
pub enum Absent {
    /// `(?~a)`: any text that does not contain a match of the child.
    Repeater(Box<Expr>),
    /// `(?~|a|b)`: a match of the second in a text that does not contain a match of the first.
    Expression {
        /// What the text must not contain.
        absent: Box<Expr>,
        /// What the text must match.
        exp: Box<Expr>,
    },
    /// `(?~|a)`: from here on the text must not contain a match of the child.
    Stopper(Box<Expr>),
    /// `(?~|)`: ends the effect of a stopper.
    Clear,
}

impl Absent {
    /// Returns the name of the variant, such as `Repeater`.
    pub fn name(&self) -> &'static str {
        match self {
            Absent::Repeater(_) => "Repeater",
            Absent::Expression { .. } => "Expression",
            Absent::Stopper(_) => "Stopper",
            Absent::Clear => "Clear",
        }
    }
}

/// A pattern as a tree. Each variant is documented with a pattern that is parsed as one.
///
/// Trees can be built and changed by hand, and then need not be the tree of any pattern: a `Literal` may hold several
/// characters, and a `Concat` may be empty. Functions on trees are recursive, so a very deep tree needs much stack; the
/// tree of a pattern has at most 832 levels.
#[cycle(expr)]
#[derive(Debug, Drop)]
pub enum Expr {
    /// The empty pattern, also as `(?:)`: matches the empty text.
    Empty,
    /// Any character: `.`, `\O`, `\N`.
    Any {
        /// Whether it also matches a line feed, as under `FLAG_DOTNL`.
        newline: bool,
        /// Whether CR is a line terminator too, and CR LF a single one, as under `FLAG_CRLF`.
        crlf: bool,
    },
    /// A zero-width assertion: `^`, `\b`.
    Assertion(Assertion),
    /// Any line break: `\R`.
    GeneralNewline {
        /// Whether Unicode's line breaks count too, as under `FLAG_UNICODE`.
        unicode: bool,
    },
    /// A literal text: `a`. In a returned tree each holds one character.
    Literal {
        /// The text, with escapes already replaced by their characters.
        val: String,
        /// Whether it is case-insensitive.
        casei: bool,
    },
    /// Literal bytes, which need not be UTF-8: `\xFF` without `FLAG_UNICODE`.
    LiteralBytes {
        /// The bytes; in a returned tree a single one, from 0x80 to 0xFF.
        bytes: Vec<u8>,
    },
    /// A concatenation: `ab`.
    Concat(Vec<Expr>),
    /// An alternation: `a|b`.
    Alt(Vec<Expr>),
    /// A capturing group: `(a)`, `(?<n>a)`. Groups are numbered from 1 in the order of their opening parentheses;
    /// names are in `ExprTree::named_groups`.
    Group(Box<Expr>),
    /// A look-around: `(?=a)`, `(?<!a)`.
    LookAround(Box<Expr>, LookAround),
    /// A repetition: `a*`, `a{2,3}?`.
    Repeat {
        /// What is repeated.
        child: Box<Expr>,
        /// The minimum number of repetitions.
        lo: usize,
        /// The maximum number of repetitions; `usize::MAX` for no limit.
        hi: usize,
        /// Whether it is greedy.
        greedy: bool,
    },
    /// A character class as pattern text, for the matching engine to parse: `[a-z]`, `\d`, `\p{Greek}`.
    Delegate {
        /// The text. It can differ from what the pattern has: a class is rewritten while it is parsed.
        inner: String,
        /// Whether it is case-insensitive.
        casei: bool,
    },
    /// A back reference: `\1`, `\k<n>`.
    Backref {
        /// The number, which may be 0, and need not be the number of a group.
        group: usize,
        /// Whether it is case-insensitive.
        casei: bool,
    },
    /// A back reference with a recursion level: `\k<1+3>`.
    BackrefWithRelativeRecursionLevel {
        /// The number, as in `Backref`.
        group: usize,
        /// The recursion level, relative to the current one.
        relative_level: isize,
        /// Whether it is case-insensitive.
        casei: bool,
    },
    /// An atomic group, also of a possessive quantifier: `(?>a)`, `a++`.
    AtomicGroup(Box<Expr>),
    /// `\K`: the match begins here.
    KeepOut,
    /// `\G`: the position where the previous match ended.
    ContinueFromPreviousMatchEnd,
    /// A condition that is true if a group has matched, as in `(?(1)a|b)`.
    BackrefExistsCondition {
        /// The number, which need not be the number of a group.
        group: usize,
        /// The recursion level, relative to the current one.
        relative_recursion_level: Option<isize>,
    },
    /// A conditional: `(?(1)a|b)`.
    Conditional {
        /// The condition.
        condition: Box<Expr>,
        /// What must match if the condition is true.
        true_branch: Box<Expr>,
        /// What must match if it is false; `Empty` if the pattern has no second branch.
        false_branch: Box<Expr>,
    },
    /// A subroutine call of the group of this number, which need not be the number of a group: `\g<1>`. 0 is the whole
    /// pattern.
    SubroutineCall(usize),
    /// A backtracking control verb: `(*FAIL)`.
    BacktrackingControlVerb(BacktrackingControlVerb),
    /// An absent form of Oniguruma's: `(?~a)`.
    Absent(Absent),
    /// Definitions, which match nothing here and can be called: `(?(DEFINE)(a))`.
    DefineGroup {
        /// The contents of the group.
        definitions: Box<Expr>,
    },
    /// A node as it is parsed, with its position in the pattern (a byte offset). In a returned tree it is a subroutine
    /// call that cannot be resolved, which is no error: by a name that no group has, such as `\g<b>` at position 2, or
    /// that several have; or by a relative number that leads below group 0, such as `\g<-2>`.
    AstNode(AstNode, usize),
}

impl Expr {
    /// Returns the name of the node's variant, such as `Literal`.
    pub fn kind_name(&self) -> &'static str {
        match self {
            Expr::Empty => "Empty",
            Expr::Any { .. } => "Any",
            Expr::Assertion(_) => "Assertion",
            Expr::GeneralNewline { .. } => "GeneralNewline",
            Expr::Literal { .. } => "Literal",
            Expr::LiteralBytes { .. } => "LiteralBytes",
            Expr::Concat(_) => "Concat",
            Expr::Alt(_) => "Alt",
            Expr::Group(_) => "Group",
            Expr::LookAround(_, _) => "LookAround",
            Expr::Repeat { .. } => "Repeat",
            Expr::Delegate { .. } => "Delegate",
            Expr::Backref { .. } => "Backref",
            Expr::BackrefWithRelativeRecursionLevel { .. } => "BackrefWithRelativeRecursionLevel",
            Expr::AtomicGroup(_) => "AtomicGroup",
            Expr::KeepOut => "KeepOut",
            Expr::ContinueFromPreviousMatchEnd => "ContinueFromPreviousMatchEnd",
            Expr::BackrefExistsCondition { .. } => "BackrefExistsCondition",
            Expr::Conditional { .. } => "Conditional",
            Expr::SubroutineCall(_) => "SubroutineCall",
            Expr::BacktrackingControlVerb(_) => "BacktrackingControlVerb",
            Expr::Absent(_) => "Absent",
            Expr::DefineGroup { .. } => "DefineGroup",
            Expr::AstNode(_, _) => "AstNode",
        }
    }

    /// Returns the node of this name, if it is one that holds nothing, such as `KeepOut`.
    pub fn bare_named(name: &str) -> Option<Expr> {
        Some(match name {
            "Empty" => Expr::Empty,
            "KeepOut" => Expr::KeepOut,
            "ContinueFromPreviousMatchEnd" => Expr::ContinueFromPreviousMatchEnd,
            _ => return None,
        })
    }
}
