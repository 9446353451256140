//! The messages of reports, which name the parts of the pattern that they are about.
use crate::problem::{Others, Problem};
use crate::rule::Rule;
use class_meaning::ClassErrorKind;
use class_rules::class_problem::ClassProblem;
use patterns_text::shown::Shown;
use std::fmt;

/// How many bytes of a part a message has at most.
const MAX_BYTES: usize = 32;

/// A part of a pattern in a message; of a long one the beginning.
#[derive(Clone, Copy)]
pub(crate) struct Part<'a>(pub(crate) &'a str);

impl fmt::Display for Part<'_> {
    fn fmt<W: fmt::Write>(&self, f: &mut fmt::Formatter<W>) -> fmt::Result {
        if self.0.len() <= MAX_BYTES {
            return write!(f, "`{}`", Shown(self.0));
        }
        let end = self.0.floor_char_boundary(MAX_BYTES);
        write!(f, "`{}…`", Shown(self.0.get(..end).unwrap_or("")))
    }
}

/// The parts of a pattern that have a problem, as in a sentence: the first ones, and how many there are more.
#[derive(Clone, Copy)]
struct Parts<'a> {
    first: &'a str,
    others: Others,
    pattern: &'a str,
}

impl Parts<'_> {
    /// The verb after one of them, or after several.
    fn verb(self) -> &'static str {
        if self.others.is_empty() { "is" } else { "are" }
    }
}

impl fmt::Display for Parts<'_> {
    fn fmt<W: fmt::Write>(&self, f: &mut fmt::Formatter<W>) -> fmt::Result {
        write!(f, "{}", Part(self.first))?;
        let Others { named, more } = self.others;
        let count = named.iter().flatten().count();
        for (index, span) in named.iter().flatten().enumerate() {
            let is_last = more == 0 && index.saturating_add(1) == count;
            let before = if is_last { " and " } else { ", " };
            let text = span.text(self.pattern).unwrap_or("");
            write!(f, "{before}{}", Part(text))?;
        }
        if more > 0 {
            write!(f, " and {more} more")?;
        }
        Ok(())
    }
}

/// The message of a report.
#[derive(Clone, Copy)]
pub struct Message<'a> {
    pub(crate) problem: Problem<'a>,
    /// The part of the pattern that has the problem.
    pub(crate) text: &'a str,
    /// The branch or the group that the message names.
    pub(crate) related: &'a str,
    /// The parts after it with the same problem.
    pub(crate) others: Others,
    pub(crate) pattern: &'a str,
}

/// The text without the article that it begins with.
fn without_article(text: &str) -> &str {
    text.split_once(' ').map_or(text, |(_, rest)| rest)
}

/// Whether the look-around with this text is a negative one.
fn is_negative(text: &str) -> bool {
    text.starts_with("(?!") || text.starts_with("(?<!")
}

impl<'a> Message<'a> {
    /// The parts that have the problem.
    fn parts(&self) -> Parts<'a> {
        Parts {
            first: self.text,
            others: self.others,
            pattern: self.pattern,
        }
    }
}

impl Message<'_> {
    /// Writes what the rule reports of the part.
    fn write_plain<W: fmt::Write>(&self, f: &mut fmt::Formatter<W>, rule: Rule) -> fmt::Result {
        let part = Part(self.text);
        match rule {
            Rule::EmptyLoop => write!(f, "{part} repeats what may be empty"),
            Rule::QuantifiedAssertion => write!(
                f,
                "{part} repeats what matches only the empty text"
            ),
            Rule::ImpossibleAssertion => {
                write!(f, "{part} never holds between these characters")
            }
            Rule::LazyAtEnd => write!(f, "{part} at the end repeats only its minimum"),
            Rule::UselessQuantifier => write!(f, "{part} repeats exactly once"),
            Rule::ZeroQuantifier => write!(f, "{part} repeats zero times"),
            Rule::SingleCharacterClass => write!(f, "{part} is a class of one character"),
            Rule::UselessLookAround if is_negative(self.text) => {
                write!(f, "{part} never matches, since its contents may be empty")
            }
            Rule::UselessLookAround => {
                write!(f, "{part} always matches, since its contents may be empty")
            }
            _ => f.write_str(without_article(rule.row().what)),
        }
    }

    /// Writes what is wrong with a class or a branch of one character.
    fn write_class<W: fmt::Write>(
        &self,
        f: &mut fmt::Formatter<W>,
        problem: ClassProblem,
    ) -> fmt::Result {
        let part = Part(self.text);
        let parts = self.parts();
        match problem {
            ClassProblem::Invalid(ClassErrorKind::ClassRangeLiteral) => f.write_str(
                r"fancy-regex refuses a hyphen beside a set, as in `\w-.`: write `\-`",
            ),
            ClassProblem::Invalid(kind) => write!(
                f,
                "fancy-regex refuses this: {}",
                kind.message()
            ),
            ClassProblem::Empty => write!(f, "{part} contains no character"),
            ClassProblem::DuplicateCharacters => write!(
                f,
                "{parts} {} in the rest of the class already",
                parts.verb()
            ),
            ClassProblem::SubsumedBranch { other, .. } => write!(
                f,
                "{parts} {} part of {} (branch {other})",
                parts.verb(),
                Part(self.related)
            ),
            ClassProblem::SuspiciousClass(look) => f.write_str(look.message()),
            ClassProblem::SuspiciousRange { first, last } => {
                write!(f, "range from {} to {}", first.name(), last.name())
            }
            ClassProblem::BarBetweenEscapes => {
                write!(f, "{part} in a class is a character, not a choice")
            }
            ClassProblem::HyphenRange => {
                write!(f, "{part} is a range, not a hyphen between characters")
            }
        }
    }

    /// Writes which branches are equal to earlier ones, the first of them to the one of this number.
    fn write_duplicate<W: fmt::Write>(
        &self,
        f: &mut fmt::Formatter<W>,
        earlier: usize,
    ) -> fmt::Result {
        let parts = self.parts();
        if self.others.is_empty() {
            return write!(f, "{parts} is branch {earlier} already");
        }
        write!(f, "{parts} repeat earlier branches")
    }

    /// Writes what is wrong with a branch that an earlier one leaves nothing to match.
    fn write_unreachable<W: fmt::Write>(
        &self,
        f: &mut fmt::Formatter<W>,
        earlier: usize,
    ) -> fmt::Result {
        let (parts, first) = (self.parts(), Part(self.related));
        if self.related.is_empty() {
            return write!(f, "the empty branch {earlier} matches before {parts}");
        }
        write!(f, "{first} (branch {earlier}) matches before {parts}")
    }
}

impl fmt::Display for Message<'_> {
    fn fmt<W: fmt::Write>(&self, f: &mut fmt::Formatter<W>) -> fmt::Result {
        let part = Part(self.text);
        match self.problem {
            Problem::Plain(rule) => self.write_plain(f, rule),
            Problem::MissingGroup { group, total } => {
                write!(f, "reference to group {group}, but the pattern has {total}")
            }
            Problem::MissingConditionGroup { group, total } => {
                write!(f, "condition on group {group}, but the pattern has {total}")
            }
            Problem::MissingBeginGroup { group, total } => {
                write!(f, "reference to group {group}, but begin has {total}")
            }
            Problem::MissingCaptureGroup { key, group, total } => {
                let key = key.name();
                write!(f, "number {group} in {key}, but the pattern has {total}")
            }
            Problem::UselessBackreference { group } => {
                write!(
                    f,
                    "{part} refers to {group}, which cannot have matched here"
                )
            }
            Problem::GroupZero if self.text.starts_with(r"\0") => {
                write!(f, "{part} is group 0 here, not NUL")
            }
            Problem::GroupZero => write!(f, "{part} is group 0, which cannot have matched here"),
            Problem::UnresolvedCall => write!(f, "{part} calls no group"),
            Problem::NumberedReference => {
                write!(f, "{part} refers by a number, beside groups with a name")
            }
            Problem::DuplicateGroupName { group } => {
                write!(f, "{group}, has the name of an earlier group")
            }
            Problem::UnusedCapturingGroup { group } => {
                write!(f, "group {group} has no name, and nothing refers to it")
            }
            Problem::DuplicateBranch { earlier } => self.write_duplicate(f, earlier),
            Problem::UnreachableBranch { earlier } => self.write_unreachable(f, earlier),
            Problem::UnusedEscape { earlier } => {
                let first = Part(self.related);
                write!(
                    f,
                    "{first} (branch {earlier}) matches the backslash of {part}"
                )
            }
            Problem::EmptyAtEnd => write!(f, "{part} at the end matches nothing"),
            Problem::ExponentialBacktracking { text } => {
                write!(f, "exponential backtracking on {text}")
            }
            Problem::PolynomialBacktracking { degree, text } => {
                write!(f, "polynomial backtracking of degree {degree} on {text}")
            }
            Problem::QuadraticSearch { text } => write!(f, "quadratic search on {text}"),
            Problem::UselessFlag { letter } => write!(f, "flag {letter} is set already"),
            Problem::CharactersInEscape { escape } => {
                let parts = self.parts();
                write!(f, r"{parts} {} part of `\{escape}`", parts.verb())
            }
            Problem::Class(problem) => self.write_class(f, problem),
            Problem::DialectDifference { difference } => write!(f, "{difference}"),
        }
    }
}
