//! All that the rules find in a pattern.
use crate::branches::Following;
use crate::captures::missing_captures;
use crate::classes::Form;
use crate::escapes::{class_around, containing_escape, is_byte_by_case, is_of_other_case};
use crate::flags::useless_flags;
use crate::handed_on::is_handed_on;
use crate::known::Known;
use crate::neighbours::Neighbour;
use crate::references::{Ways, follow};
use crate::scan::{Around, PatternInfo, scan};
use crate::slow::SlowParts;
use crate::walk::Walk;
use backtracking::attack::Attack;
use class_rules::class_problem::{ClassFinding, ClassLook, ClassProblem};
use class_rules::class_walk::class_findings;
use dialects::dialect::Dialect;
use dialects::spelling::{DifferentSpelling, spellings};
use fancy_syntax::span::Span;
use fancy_syntax::spanned::{SpannedNode, SpannedTree};
use lint_rules::attack_text::AttackText;
use lint_rules::chosen::{Chosen, Level};
use lint_rules::problem::{Found, Others, Problem};
use patterns_text::grammar_rule::GrammarRule;
use patterns_text::nodes::nodes_of;
use patterns_text::position::Spot;
use patterns_text::subject::Subject;
use std::alloc::AllocError;

/// The pattern as a node.
fn root() -> Around<'static> {
    Around {
        following: Following::Nothing,
        is_whole: true,
        has_other_count: false,
        is_atomic: false,
        beside: (Neighbour::Unknown, Neighbour::Unknown),
        next: None,
        delimiter: None,
        form: Form::alone(),
    }
}

/// What is wrong with a class, or with a branch of one character. `nodes` are those of the pattern, in preorder.
fn of_class<'a>(finding: ClassFinding, pattern: &str, nodes: &[SpannedNode<'_>]) -> Found<'a> {
    let mut found = Found::of_class(finding);
    if finding.problem == ClassProblem::DuplicateCharacters
        && let Some(escape) = containing_escape(finding.span, pattern, nodes)
    {
        found.problem = Problem::CharactersInEscape { escape };
    }
    found
}

/// What is wrong with a class whose backslashes are doubled.
static DOUBLED: ClassProblem = ClassProblem::SuspiciousClass(ClassLook::DoubledBackslashes);

/// How many of the last reports may say the same of another part.
const LAST_REPORTS: usize = 16;

/// Whether the report says the same of an earlier part. `class` is where the class around the later part begins.
fn says_the_same(earlier: &Found<'_>, later: &Found<'_>, class: usize) -> bool {
    let is_in_class = class <= earlier.span.start;
    match (earlier.problem, later.problem) {
        (Problem::Class(one), Problem::Class(other)) => match one {
            ClassProblem::DuplicateCharacters => is_in_class && one == other,
            ClassProblem::SubsumedBranch { .. } => one == other,
            ClassProblem::Invalid(_)
            | ClassProblem::Empty
            | ClassProblem::SuspiciousClass(_)
            | ClassProblem::SuspiciousRange { .. }
            | ClassProblem::BarBetweenEscapes
            | ClassProblem::HyphenRange => false,
        },
        (
            Problem::CharactersInEscape { escape: one },
            Problem::CharactersInEscape { escape: other },
        ) => is_in_class && one == other,
        _ => false,
    }
}

/// Adds the report, or its part to an earlier report that says the same.
fn add_or_join<'a>(
    found: &mut Vec<Found<'a>>,
    report: Found<'a>,
    class: usize,
) -> Result<(), AllocError> {
    let first = found.len().saturating_sub(LAST_REPORTS);
    for earlier in found.iter_mut().skip(first) {
        if says_the_same(earlier, &report, class) {
            earlier.others.add(report.span);
            return Ok(());
        }
    }
    found.push(report)?;
    Ok(())
}

/// Whether the items at the span, which the others contain, are there for a reason: a range that the class has in the other
/// case, or in Perl what the others contain by its case alone.
fn is_meant(
    item: Span,
    pattern: &str,
    nodes: &[SpannedNode<'_>],
    dialect: Option<Dialect>,
) -> bool {
    is_of_other_case(item, pattern, nodes)
        || (dialect == Some(Dialect::Perl) && is_byte_by_case(item, pattern, nodes))
}

/// Adds what is wrong with classes and with branches of one character; of classes whose backslashes are doubled the first, and
/// no item that is meant.
fn add_of_classes(
    found: &mut Vec<Found<'_>>,
    findings: &[ClassFinding],
    pattern: &str,
    nodes: &[SpannedNode<'_>],
    dialect: Option<Dialect>,
) -> Result<(), AllocError> {
    let mut has_doubled = false;
    for finding in findings {
        let is_doubled = finding.problem == DOUBLED;
        if is_doubled && has_doubled {
            continue;
        }
        if finding.problem == ClassProblem::DuplicateCharacters
            && is_meant(finding.span, pattern, nodes, dialect)
        {
            continue;
        }
        has_doubled = has_doubled || is_doubled;
        let class = class_around(finding.span, nodes).map_or(0, |node| node.span().start);
        add_or_join(found, of_class(*finding, pattern, nodes), class)?;
    }
    Ok(())
}

/// Adds what other dialects read otherwise.
fn add_differences(
    found: &mut Vec<Found<'_>>,
    spellings: &[DifferentSpelling],
) -> Result<(), AllocError> {
    for one in spellings {
        let DifferentSpelling { span, difference } = *one;
        found.push(Found {
            span,
            problem: Problem::DialectDifference { difference },
            related: None,
            others: Others::NONE,
            is_counted: false,
        })?;
    }
    Ok(())
}

/// The text on which an engine tries all ways, with this word repeated. `is_handed_on` says whether fancy-regex hands the
/// part on.
fn attack_text<'a>(word: &'a [char], attack: &'a Attack, is_handed_on: bool) -> AttackText<'a> {
    AttackText {
        before: attack.before.as_deref(),
        word,
        after: &attack.after,
        is_handed_on,
    }
}

/// Reports what is slow in the pattern that has these nodes, in preorder.
fn report_slow<'a>(
    slow: &'a SlowParts,
    nodes: &[SpannedNode<'_>],
    walk: &mut Walk<'a>,
) -> Result<(), AllocError> {
    for repeat in &slow.repeats {
        let handed_on = is_handed_on(nodes, repeat.span);
        let text = attack_text(&repeat.witness.word, &repeat.attack, handed_on);
        walk.report(repeat.span, Problem::ExponentialBacktracking { text })?;
    }
    for sequence in &slow.sequences {
        let handed_on = is_handed_on(nodes, sequence.span);
        let text = attack_text(&sequence.witness.word, &sequence.attack, handed_on);
        let degree = sequence.degree;
        walk.report(
            sequence.span,
            Problem::PolynomialBacktracking { degree, text },
        )?;
    }
    for search in &slow.searches {
        let handed_on = is_handed_on(nodes, search.span);
        let text = attack_text(&search.witness.word, &search.attack, handed_on);
        walk.report(search.span, Problem::QuadraticSearch { text })?;
    }
    Ok(())
}

/// All that the rules find, in the order of the text. The tree is that of the pattern; `grammar` is what the object
/// around it says, if it is a pattern of a grammar. `known` has the classes of the run's patterns, and `slow` what is
/// slow in this one. `dialect` is what it is written in.
fn problems<'a>(
    subject: Subject<'_>,
    parsed: &'a SpannedTree,
    grammar: Option<&GrammarRule>,
    known: &mut Known,
    slow: &'a SlowParts,
    dialect: Option<Dialect>,
) -> Result<Vec<Found<'a>>, AllocError> {
    let Subject {
        alloc,
        at,
        pattern,
        ..
    } = subject;
    let tree = &parsed.tree;
    let about = PatternInfo {
        alloc,
        pattern,
        total: tree.total_groups,
        has_calls: tree.contains_subroutines,
        is_by_name: tree.numbered_groups_ignored,
        is_complete: grammar.is_some() || matches!(at.spot, Spot::Source(_)),
        begin_groups: grammar.and_then(|rule| rule.begin_groups),
    };
    let mut walk = Walk::new(alloc);
    scan(parsed.root(), &mut walk, about, root(), &mut known.classes)?;
    let nodes = nodes_of(alloc, parsed)?;
    report_slow(slow, &nodes, &mut walk)?;
    let mut ways = Ways::new(alloc, tree)?;
    follow(parsed.root(), &mut ways)?;
    ways.add_groups();
    ways.report_unused()?;
    let mut found = walk.found;
    found.extend_from_slice(&ways.walk.found)?;
    let findings = class_findings(alloc, parsed.root(), pattern, &mut known.classes)?;
    add_of_classes(&mut found, &findings, pattern, &nodes, dialect)?;
    found.extend_from_slice(&useless_flags(alloc, pattern, &parsed.trivia)?)?;
    add_differences(&mut found, &spellings(alloc, pattern, &nodes)?)?;
    if let Some(rule) = grammar {
        let captures = &rule.captures;
        found.extend_from_slice(&missing_captures(alloc, pattern, tree.total_groups, captures)?)?;
    }
    if at.refers_to_begin() {
        found.retain(|f| !f.is_of_digits(pattern));
    }
    found.sort_by_key(|f| f.span.start)?;
    Ok(found)
}

/// Whether the dialect reads otherwise what is reported.
fn is_read_otherwise(found: &Found<'_>, pattern: &str, dialect: Dialect) -> bool {
    if let Problem::DialectDifference { difference } = found.problem {
        return difference.is_of(dialect);
    }
    found.is_octal(pattern)
}

/// Leaves the reports that hold in the dialect, and returns whether it reads the pattern otherwise: then only those that say
/// so are left.
fn keep_in_dialect(found: &mut Vec<Found<'_>>, pattern: &str, dialect: Dialect) -> bool {
    let is_other = found
        .iter()
        .any(|one| is_read_otherwise(one, pattern, dialect));
    found.retain(|one| {
        if let Problem::DialectDifference { difference } = one.problem {
            difference.is_of(dialect)
        } else {
            !is_other
        }
    });
    is_other
}

/// The same of the rules that are not silent. None if the dialect of the pattern reads it otherwise, and no report says so.
pub fn reported<'a>(
    subject: Subject<'_>,
    parsed: &'a SpannedTree,
    grammar: Option<&GrammarRule>,
    chosen: &Chosen,
    known: &mut Known,
    slow: &'a SlowParts,
) -> Result<Option<Vec<Found<'a>>>, AllocError> {
    let mut found = problems(subject, parsed, grammar, known, slow, chosen.dialect)?;
    let is_other = match chosen.dialect {
        Some(dialect) => keep_in_dialect(&mut found, subject.pattern, dialect),
        None => false,
    };
    found.retain(|one| chosen.level(one.problem.rule()) != Level::Allow);
    if is_other && found.is_empty() {
        return Ok(None);
    }
    Ok(Some(found))
}
