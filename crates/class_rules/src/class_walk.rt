//! The walk over the nodes of a pattern's tree.
ghost use Rattle.std.specs.Prelude.{◌≡◌, ◌+◌, ◌≤◌, IfOk, OnOk};
ghost use Rattle.fancy_lex.specs.Flags.{flags_of};
ghost use Rattle.fancy_syntax.specs.Spanned.{spanned_of};
ghost use Rattle.class_rules.specs.ClassFindings as spec;
ghost use Rattle.class_rules.specs.ClassFindings.{AreFoundIn, KeepsFound};
ghost use Rattle.class_rules.specs.KnownClasses.{AddsProblem, AddsProblems};

use crate::class_look::{LookAt, class_look, has_hyphen_range};
use crate::class_problem::{ClassFinding, ClassProblem};
use crate::known_classes::{ClassText, KnownClasses};
use crate::subsumed::add_subsumed;
use fancy_syntax::span::Span;
use fancy_syntax::spanned::SpannedNode;
use std::alloc::{AllocError, Global};

/// The finding of the class at the span, as one of the pattern.
fn moved(finding: ClassFinding, class: Span) -> ClassFinding
    ensures problem { result.problem ≡ finding.problem }
    ensures span { finding.span.start ≤ finding.span.end → class.start + finding.span.end ≤ class.end →
        result.span ≡ spec.moved class.start finding.span }
{
    ClassFinding {
        span: Span {
            start: class.start.saturating_add(finding.span.start),
            end: class.start.saturating_add(finding.span.end),
        },
        problem: finding.problem,
    }
}

/// Adds the finding of the class that the node is.
fn add_finding(
    node: SpannedNode<'_>,
    finding: ClassFinding,
    found: &mut Vec<ClassFinding>,
) -> Result<(), AllocError>
    ensures { OnOk result (AddsProblem (spanned_of node.entry) finding found.old.items found.new.items) }
{
    found.push(moved(finding, node.span()))?;
    Ok(())
}

/// Adds the findings of the class that the node is; if it is likely meant otherwise, without its items that can be left
/// out.
fn add_findings(
    node: SpannedNode<'_>,
    findings: &[ClassFinding],
    is_meant_otherwise: bool,
    found: &mut Vec<ClassFinding>,
) -> Result<(), AllocError>
    ensures { OnOk result (AddsProblems (spanned_of node.entry) findings.now found.old.items found.new.items) }
{
    for finding in findings {
        if is_meant_otherwise && finding.problem == ClassProblem::DuplicateCharacters {
            continue;
        }
        add_finding(node, *finding, found)?;
    }
    Ok(())
}

/// Adds what is wrong with the node, if it is a class. If it looks like something else, that is said in place of the items
/// that can be left out.
fn add_of_class(
    node: SpannedNode<'_>,
    pattern: &str,
    known: &mut KnownClasses,
    found: &mut Vec<ClassFinding>,
) -> Result<(), AllocError>
    ensures flags { known.new.flags ≡ known.old.flags }
    ensures problems { OnOk result (KeepsFound (flags_of known.old.flags) pattern.now (spanned_of node.entry)
        found.old.items found.new.items) }
{
    let Some(class) = ClassText::of(node, pattern) else {
        return Ok(());
    };
    let source = known.source_of(class);
    let index = known.index_of(class)?;
    let findings = known.findings_at(index);
    let Some(LookAt { span, look }) = class_look(source, findings)? else {
        add_findings(node, findings, has_hyphen_range(findings), found)?;
        return Ok(());
    };
    let problem = ClassProblem::SuspiciousClass(look);
    add_finding(node, ClassFinding { span, problem }, found)?;
    add_findings(node, findings, true, found)?;
    Ok(())
}

/// Adds what is wrong with the node itself, or with branches of it.
fn look_at(
    node: SpannedNode<'_>,
    pattern: &str,
    known: &mut KnownClasses,
    found: &mut Vec<ClassFinding>,
) -> Result<(), AllocError>
    ensures flags { known.new.flags ≡ known.old.flags }
    ensures problems { OnOk result (KeepsFound (flags_of known.old.flags) pattern.now (spanned_of node.entry)
        found.old.items found.new.items) }
{
    add_subsumed(node, pattern, known, found)?;
    add_of_class(node, pattern, known, found)?;
    Ok(())
}

/// Adds what is wrong with the classes and the branches in the node.
fn walk(
    node: SpannedNode<'_>,
    pattern: &str,
    known: &mut KnownClasses,
    found: &mut Vec<ClassFinding>,
) -> Result<(), AllocError>
    ensures flags { known.new.flags ≡ known.old.flags }
    ensures problems { OnOk result (KeepsFound (flags_of known.old.flags) pattern.now (spanned_of node.entry)
        found.old.items found.new.items) }
{
    look_at(node, pattern, known, found)?;
    for child in node.children() {
        walk(child, pattern, known, found)?;
    }
    Ok(())
}

/// What is wrong with the classes and the branches of one character in the tree, whose pattern is given. `known` has
/// the classes of patterns that were looked at before, under the same flags.
pub fn class_findings(
    alloc: Global,
    root: SpannedNode<'_>,
    pattern: &str,
    known: &mut KnownClasses,
) -> Result<Vec<ClassFinding>, AllocError>
    ensures flags { known.new.flags ≡ known.old.flags }
    ensures problems { IfOk result (λ found.
        ∥ AreFoundIn (flags_of known.old.flags) pattern.now (spanned_of root.entry) found.items ∥₁) }
{
    let mut found = Vec::new(alloc);
    walk(root, pattern, known, &mut found)?;
    Ok(found)
}
