//! What `lint` finds in a pattern.
ghost use Rattle.std.specs.Prelude.{Some, IsTrue, Contains};

use crate::attack_text::AttackText;
use crate::message::{Message, Part};
use crate::rule::Rule;
use class_rules::class_problem::{ClassFinding, ClassLook, ClassProblem};
use dialects::difference::Difference;
use fancy_syntax::span::Span;
use patterns_text::excerpt::{Label, Related};
use patterns_text::grammar_rule::CaptureKey;
use patterns_text::names::Named;
use patterns_text::octal::Octal;
use patterns_text::shown::Shown;
use std::fmt;

/// What is said of a part that was not searched.
pub const NOT_SEARCHED: &str =
    "not searched for backtracking: too large, or with a call or an atomic group";

/// What is wrong with a part of a pattern.
#[derive(Clone, Copy)]
pub enum Problem<'a> {
    /// What the rule reports. No more is said of it.
    Plain(Rule),
    /// A back reference to a group above the number of groups.
    MissingGroup {
        group: usize,
        total: Total,
    },
    /// A condition on a group above the number of groups.
    MissingConditionGroup {
        group: usize,
        total: Total,
    },
    /// A reference to a group above the number of groups of `begin`.
    MissingBeginGroup {
        group: usize,
        total: Total,
    },
    /// A number under a key of captures, above the number of groups.
    MissingCaptureGroup {
        key: CaptureKey,
        group: usize,
        total: Total,
    },
    /// A back reference to a group that cannot have matched.
    UselessBackreference {
        group: Named<'a>,
    },
    /// A back reference to group 0.
    GroupZero,
    /// A call that refers to no group.
    UnresolvedCall,
    /// A reference by a number where groups without a name are ignored.
    NumberedReference,
    /// A group with the name of another.
    DuplicateGroupName {
        group: Named<'a>,
    },
    /// A group without a name that nothing refers to.
    UnusedCapturingGroup {
        group: usize,
    },
    /// A branch that is equal to an earlier one, counted from 1.
    DuplicateBranch {
        earlier: usize,
    },
    /// A branch that an earlier one leaves nothing to match.
    UnreachableBranch {
        earlier: usize,
    },
    /// An escape of which an earlier branch matches the backslash.
    UnusedEscape {
        earlier: usize,
    },
    /// A lazy quantifier at the end that may repeat zero times, so that it matches nothing.
    EmptyAtEnd,
    /// A repeat that can match a text in exponentially many ways.
    ExponentialBacktracking {
        text: AttackText<'a>,
    },
    /// Repeats of a concatenation that can match a text in polynomially many ways; the degree is how many are known to.
    PolynomialBacktracking {
        degree: usize,
        text: AttackText<'a>,
    },
    /// A repeat that a search goes through again from each start.
    QuadraticSearch {
        text: AttackText<'a>,
    },
    /// A flag that is set already.
    UselessFlag {
        letter: char,
    },
    /// An item of a class that a backslash with this letter contains already.
    CharactersInEscape {
        escape: char,
    },
    /// What is wrong with a class or a branch of one character.
    Class(ClassProblem),
    /// What other dialects read otherwise.
    DialectDifference {
        difference: Difference,
    },
}

/// The rule that reports the problem.
fn rule_of_class(problem: ClassProblem) -> Rule {
    match problem {
        ClassProblem::Invalid(_) => Rule::InvalidClass,
        ClassProblem::Empty => Rule::EmptyClass,
        ClassProblem::DuplicateCharacters => Rule::DuplicateCharacters,
        ClassProblem::SuspiciousClass(_) | ClassProblem::BarBetweenEscapes => Rule::SuspiciousClass,
        ClassProblem::SuspiciousRange { .. } => Rule::SuspiciousRange,
        ClassProblem::HyphenRange => Rule::HyphenRange,
        ClassProblem::SubsumedBranch { .. } => Rule::SubsumedBranch,
    }
}

/// Whether the text of a node begins as a back reference that is a backslash and digits.
pub fn is_of_digits(text: &str) -> bool {
    matches!(text.as_bytes(), [b'\\', b'0'..=b'9', ..])
}

/// Further parts of a pattern that have the problem of another one, from which they differ in the span alone.
#[derive(Clone, Copy)]
pub struct Others {
    /// The first of them, which the message names.
    pub named: [Option<Span>; 3],
    /// How many follow these.
    pub more: usize,
}

impl Others {
    /// No part.
    pub const NONE: Others = Others {
        named: [None, None, None],
        more: 0,
    };

    /// Whether there is none.
    pub fn is_empty(&self) -> bool {
        matches!(self.named, [None, ..])
    }

    /// Adds a part after the others, and returns whether the message names it.
    pub fn add(&mut self, span: Span) -> bool
        ensures { IsTrue result → Contains self.new.named (Some span) }
    {
        let count = self.named.iter().flatten().count();
        if count < self.named.len() {
            self.named[count] = Some(span);
            return true;
        }
        self.more = self.more.saturating_add(1);
        false
    }
}

/// A problem, and the part of the pattern that has it.
#[derive(Clone, Copy)]
pub struct Found<'a> {
    pub span: Span,
    pub problem: Problem<'a>,
    /// The branch or the group that the message names.
    pub related: Option<Related>,
    /// The parts after it with the same problem.
    pub others: Others,
    /// Whether it is no report of its own: the message of an earlier one with the same problem counts it.
    pub is_counted: bool,
}

/// What to do about a problem.
#[derive(Clone, Copy)]
pub enum Help<'a> {
    /// What its rule says.
    Rule(&'static str),
    /// About a reference that is the octal code of a character in other dialects.
    Octal(Octal),
    /// About a back reference to group 0.
    WholePattern,
    /// About `[^..]{0}`, with these items in the class.
    NotBefore { items: &'a str },
    /// About a part at the end that matches nothing.
    Remove { part: &'a str },
    /// About a class that is likely meant as something else.
    Class(ClassLook),
    /// About what other dialects read otherwise.
    Dialect(Difference),
}

impl fmt::Display for Help<'_> {
    fn fmt<W: fmt::Write>(&self, f: &mut fmt::Formatter<W>) -> fmt::Result {
        match self {
            Help::Rule(text) => f.write_str(text),
            Help::Octal(octal) => write!(f, "there are no octal escapes: {octal}"),
            Help::WholePattern => {
                f.write_str(r"group 0 is the whole match: write `\g<0>` to call the whole pattern")
            }
            Help::NotBefore { items } => write!(
                f,
                "remove the quantifier with its operand, or did you mean `(?<!{})`?",
                Shown(items)
            ),
            Help::Remove { part } => write!(
                f,
                "remove {}, or write after it what ends the match, as `$`",
                Part(part)
            ),
            Help::Class(look) => f.write_str(look.advice()),
            Help::Dialect(difference) => f.write_str(difference.advice()),
        }
    }
}

/// The items of a negated class that is repeated zero times, which is all of the text.
fn negated_class(text: &str) -> Option<&str> {
    text.strip_prefix("[^")?.strip_suffix("]{0}")
}

/// The digits of a back reference that is a backslash and a number that begins with 0.
fn octal_digits(text: &str) -> Option<&str> {
    let digits = text.strip_prefix('\\')?;
    if digits.starts_with('0') {
        Some(digits)
    } else {
        None
    }
}

impl<'a> Found<'a> {
    /// What is wrong with a class or a branch of one character.
    pub fn of_class(finding: ClassFinding) -> Found<'a> {
        let related = match finding.problem {
            ClassProblem::SubsumedBranch { other, span } => Some(Related {
                span,
                label: Label::Branch(other),
            }),
            ClassProblem::Invalid(_)
            | ClassProblem::Empty
            | ClassProblem::DuplicateCharacters
            | ClassProblem::SuspiciousClass(_)
            | ClassProblem::SuspiciousRange { .. }
            | ClassProblem::BarBetweenEscapes
            | ClassProblem::HyphenRange => None,
        };
        Found {
            span: finding.span,
            problem: Problem::Class(finding.problem),
            related,
            others: Others::NONE,
            is_counted: false,
        }
    }

    /// Whether it is wrong with the number of a back reference that is a backslash and digits.
    pub fn is_of_digits(&self, pattern: &str) -> bool {
        match self.problem {
            Problem::MissingGroup { .. }
            | Problem::NumberedReference
            | Problem::GroupZero
            | Problem::UselessBackreference { .. } => {
                is_of_digits(self.span.text(pattern).unwrap_or(""))
            }
            _ => false,
        }
    }

    /// What to do about it.
    pub fn help(&self, pattern: &'a str) -> Help<'a> {
        let rule = Help::Rule(self.problem.rule().row().help);
        let text = self.span.text(pattern).unwrap_or("");
        match self.problem {
            Problem::MissingGroup { .. }
            | Problem::UselessBackreference { .. }
            | Problem::GroupZero => match (octal_digits(text), self.problem) {
                (Some(digits), _) => Help::Octal(Octal::of(digits)),
                (None, Problem::GroupZero) => Help::WholePattern,
                (None, _) => rule,
            },
            Problem::DuplicateBranch { .. } if !self.others.is_empty() => Help::Rule("remove them"),
            Problem::Plain(Rule::ZeroQuantifier) => match negated_class(text) {
                Some(items) => Help::NotBefore { items },
                None => rule,
            },
            Problem::EmptyAtEnd => Help::Remove { part: text },
            Problem::Class(ClassProblem::SuspiciousClass(look)) => Help::Class(look),
            Problem::Class(ClassProblem::BarBetweenEscapes) => Help::Class(ClassLook::Alternatives),
            Problem::DialectDifference { difference } => Help::Dialect(difference),
            _ => rule,
        }
    }

    /// Whether it is wrong with a reference that is the octal code of a character in other dialects.
    pub fn is_octal(&self, pattern: &str) -> bool {
        matches!(self.help(pattern), Help::Octal(_))
    }

    /// The message of its report, in a pattern in which it is found.
    pub fn message(&self, pattern: &'a str) -> Message<'a> {
        Message {
            problem: self.problem,
            text: self.span.text(pattern).unwrap_or(""),
            related: self
                .related
                .and_then(|related| related.span.text(pattern))
                .unwrap_or(""),
            others: self.others,
            pattern,
        }
    }
}

impl Problem<'_> {
    /// The number of the earlier branch that it names.
    pub fn earlier_branch(self) -> Option<usize> {
        match self {
            Problem::DuplicateBranch { earlier }
            | Problem::UnreachableBranch { earlier }
            | Problem::UnusedEscape { earlier } => Some(earlier),
            _ => None,
        }
    }

    /// The rule that reports it.
    pub fn rule(self) -> Rule {
        match self {
            Problem::Plain(rule) => rule,
            Problem::MissingGroup { .. } => Rule::MissingGroup,
            Problem::MissingConditionGroup { .. } => Rule::MissingConditionGroup,
            Problem::MissingBeginGroup { .. } => Rule::MissingBeginGroup,
            Problem::MissingCaptureGroup { .. } => Rule::MissingCaptureGroup,
            Problem::UselessBackreference { .. } | Problem::GroupZero => Rule::UselessBackreference,
            Problem::UnresolvedCall => Rule::UnresolvedCall,
            Problem::NumberedReference => Rule::NumberedReference,
            Problem::DuplicateGroupName { .. } => Rule::DuplicateGroupName,
            Problem::UnusedCapturingGroup { .. } => Rule::UnusedCapturingGroup,
            Problem::DuplicateBranch { .. } => Rule::DuplicateBranch,
            Problem::UnreachableBranch { .. } => Rule::UnreachableBranch,
            Problem::UnusedEscape { .. } => Rule::UnusedEscape,
            Problem::EmptyAtEnd => Rule::LazyAtEnd,
            Problem::ExponentialBacktracking { .. } => Rule::ExponentialBacktracking,
            Problem::PolynomialBacktracking { .. } => Rule::PolynomialBacktracking,
            Problem::QuadraticSearch { .. } => Rule::QuadraticSearch,
            Problem::UselessFlag { .. } => Rule::UselessFlag,
            Problem::CharactersInEscape { .. } => Rule::CharactersInEscape,
            Problem::Class(problem) => rule_of_class(problem),
            Problem::DialectDifference { .. } => Rule::DialectDifference,
        }
    }
}

/// How many groups there are, in words.
#[derive(Clone, Copy)]
pub struct Total(pub usize);

impl fmt::Display for Total {
    fn fmt<W: fmt::Write>(&self, f: &mut fmt::Formatter<W>) -> fmt::Result {
        match self.0 {
            0 => f.write_str("no numbered group"),
            1 => f.write_str("1 numbered group"),
            total => write!(f, "{total} numbered groups"),
        }
    }
}
