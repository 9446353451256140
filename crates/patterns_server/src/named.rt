//! Names of groups, and new ones in their place.
ghost use Rattle.std.specs.Prelude.{◌≡◌, chars, string_bytes, IfOk, IfSome, IsTrue};
ghost use Rattle.std.specs.Bool.{OnTrue};
ghost use Rattle.fancy_grammar.specs.Groups.{numbers_under};
ghost use Rattle.fancy_syntax.specs.InfoViews.{info_of};
ghost use Rattle.fancy_syntax.specs.View.{view};
ghost use Rattle.patterns_server.specs.Renamed.{HaveNewName, IsRenamed};

use crate::asked::Refused;
use crate::query::ReadPattern;
use fancy_syntax::expr::Expr;
use fancy_syntax::span::Span;
use fancy_syntax::spanned::SpannedNode;
use fancy_syntax::tree::ExprTree;
use json::Writer;
use json_rpc::error_code::ErrorCode;
use pattern_documents::actions::{begin_changes, end_changes, write_edit};
use patterns_program::edited::EditedPatterns;
use patterns_text::error::RunError;
use patterns_text::names::Names;
use patterns_text::subject::Subject;
use std::alloc::{AllocError, Global};

/// That there is nothing to rename.
pub(crate) const NO_NAME: Refused = Refused {
    code: ErrorCode::RequestFailed,
    reason: "no group with a name is there",
};

/// That a name is not given.
const OTHER_PATTERN: Refused = Refused {
    code: ErrorCode::RequestFailed,
    reason: "with this name the pattern would be another one",
};

/// Whether a character may be part of a name.
fn is_word(c: char) -> bool {
    c.is_alphanumeric() || c == '_'
}

/// Whether the text begins with the name as a whole.
fn begins_with_name(text: &str, name: &str) -> bool {
    match text.strip_prefix(name) {
        Some(rest) => !rest.starts_with(is_word),
        None => false,
    }
}

/// Where the opening of a group has its name, as a byte offset in the text of the group.
fn name_in_group(text: &str, name: &str) -> Option<usize> {
    for opening in ["(?<", "(?P<", "(?'"] {
        if let Some(rest) = text.strip_prefix(opening)
            && begins_with_name(rest, name)
        {
            return Some(opening.len());
        }
    }
    None
}

/// Where a reference has the name, as a byte offset in the text of the reference: the last time that the name is there as a
/// whole, after a delimiter.
fn name_in_reference(text: &str, name: &str) -> Option<usize> {
    let mut found = None;
    for (offset, c) in text.char_indices() {
        if is_word(c) || c == '\\' {
            continue;
        }
        let start = offset.saturating_add(c.len_utf8());
        if begins_with_name(text.get(start..)?, name) {
            found = Some(start);
        }
    }
    found
}

/// Where a node has the name of the group that is meant at it, as a byte offset of the pattern.
fn name_start(node: SpannedNode<'_>, pattern: &str, name: &str) -> Option<usize> {
    let text = node.text(pattern)?;
    let offset = if let Expr::Group(_) = node.expr() {
        name_in_group(text, name)?
    } else {
        name_in_reference(text, name)?
    };
    Some(node.span().start.saturating_add(offset))
}

/// Where a pattern has the name of a group, in the order of the text: in the openings of the groups of this name, and in
/// references to them by it.
fn name_starts(
    alloc: Global,
    pattern: ReadPattern<'_, '_, '_>,
    name: &str,
) -> Result<Vec<usize>, AllocError> {
    let names = Names::of(alloc, &pattern.parsed.tree)?;
    let mut starts = Vec::new(alloc);
    let mut number = 0usize;
    for node in pattern.nodes {
        let meant = if let Expr::Group(_) = node.expr() {
            number = number.saturating_add(1);
            Some(number)
        } else {
            pattern.meant(*node)
        };
        if meant.and_then(|group| names.name(group)) == Some(name)
            && let Some(start) = name_start(*node, pattern.subject.pattern, name)
        {
            starts.push(start)?;
        }
    }
    starts.sort()?;
    Ok(starts)
}

/// The text with another name in the place of this one at the offsets, which are in the order of the text.
fn with_name(
    alloc: Global,
    text: &str,
    starts: &[usize],
    name: &str,
    new: &str,
) -> Result<String, AllocError> {
    let mut renamed = String::with_capacity(alloc, text.len())?;
    let mut done = 0usize;
    for start in starts {
        renamed.push_str(text.get(done..*start).unwrap_or(""))?;
        renamed.push_str(new)?;
        done = start.saturating_add(name.len());
    }
    renamed.push_str(text.get(done..).unwrap_or(""))?;
    Ok(renamed)
}

/// The numbers of the groups that have the name.
fn numbers<'t>(tree: &'t ExprTree, name: &str) -> &'t [usize]
    ensures { result.now ≡ numbers_under (info_of tree.now).named_groups (chars name.now) }
{
    match tree.named_groups.get(name) {
        Some(numbers) => numbers.as_slice(),
        None => &[],
    }
}

/// Whether a pattern has become this one by another name of groups: the tree is the same, and the groups of the old name, and
/// only those, have the new one.
fn is_renamed(old: &ExprTree, new: &ExprTree, name: &str, new_name: &str) -> bool
    ensures tree { OnTrue result (view new.now.expr ≡ view old.now.expr) }
    ensures groups { OnTrue result
        (HaveNewName (info_of old.now) (info_of new.now) (chars name.now) (chars new_name.now)) }
{
    new.expr == old.expr
        && old.named_groups.len() == new.named_groups.len()
        && numbers(new, new_name) == numbers(old, name)
        && numbers(old, new_name).is_empty()
}

/// Whether a text is the pattern with the new name in the place of this one, and without another change.
fn is_renaming(
    pattern: ReadPattern<'_, '_, '_>,
    text: &str,
    name: &str,
    new: &str,
) -> Result<bool, RunError>
    ensures { IfOk result (λ b. IsTrue b → IsRenamed pattern.entry name.now new.now text.now) }
{
    let Subject { alloc, flags, .. } = pattern.subject;
    match Subject::of_argument(alloc, flags, text).parse()? {
        Ok(parsed) => Ok(is_renamed(&pattern.parsed.tree, &parsed.tree, name, new)),
        Err(_) => Ok(false),
    }
}

/// The pattern with the new name; None if that would be another pattern.
fn renamed(
    pattern: ReadPattern<'_, '_, '_>,
    name: &str,
    new: &str,
) -> Result<Option<String>, RunError>
    ensures { IfOk result (λ found. IfSome found (λ text. IsRenamed pattern.entry name.now new.now (string_bytes text))) }
{
    let alloc = pattern.subject.alloc;
    let starts = name_starts(alloc, pattern, name)?;
    let text = with_name(alloc, pattern.subject.pattern, &starts, name, new)?;
    if is_renaming(pattern, text.as_str(), name, new)? {
        Ok(Some(text))
    } else {
        Ok(None)
    }
}

/// The part of the pattern that a rename at a node replaces: the name in it, or else in the group that it refers to.
fn renamed_part(
    pattern: ReadPattern<'_, '_, '_>,
    node: SpannedNode<'_>,
    name: &str,
) -> Option<Span> {
    let text = pattern.subject.pattern;
    let start = match name_start(node, text, name) {
        Some(start) => start,
        None => name_start(pattern.group_node(pattern.meant(node)?)?, text, name)?,
    };
    let end = start.saturating_add(name.len());
    Some(Span { start, end })
}

/// Writes the range of the name that a rename at a node replaces, or null if no group with a name is meant there.
pub(crate) fn write_name(
    pattern: ReadPattern<'_, '_, '_>,
    node: SpannedNode<'_>,
    writer: &mut Writer,
) -> Result<(), AllocError> {
    let names = Names::of(pattern.subject.alloc, &pattern.parsed.tree)?;
    let name = pattern.meant(node).and_then(|number| names.name(number));
    match name.and_then(|name| renamed_part(pattern, node, name)) {
        Some(part) => pattern.located.write_range(writer, part),
        None => writer.null(),
    }
}

/// Writes the change by which the group that is meant at a node gets a new name, or says why there is none.
pub(crate) fn write_renamed(
    pattern: ReadPattern<'_, '_, '_>,
    uri: &str,
    node: SpannedNode<'_>,
    new: &str,
    patterns: &EditedPatterns,
    writer: &mut Writer,
) -> Result<Result<(), Refused>, RunError> {
    let names = Names::of(pattern.subject.alloc, &pattern.parsed.tree)?;
    let Some(name) = pattern.meant(node).and_then(|number| names.name(number)) else {
        return Ok(Err(NO_NAME));
    };
    let Some(text) = renamed(pattern, name, new)? else {
        return Ok(Err(OTHER_PATTERN));
    };
    let Some(part) = patterns.fixed_to(pattern.located.entry, text.as_str())? else {
        return Ok(Err(OTHER_PATTERN));
    };
    begin_changes(writer, uri)?;
    write_edit(writer, pattern.located, &part)?;
    end_changes(writer)?;
    Ok(Ok(()))
}
