//! References, calls and the targets of conditions.
ghost use Rattle.std.specs.Prelude.{◌≡◌, ℕ, ◌++◌, [], ◌∷◌, ◌<◌, codes, chars, decimal, nat_lt, true, unsigned_abs};
ghost use Rattle.std.specs.Prelude.{OnOk, if◌then◌else◌};
ghost use Rattle.std.specs.List.{list_all};
ghost use Rattle.fancy_lex.specs.Characters.{◌∈◌, is_among};
ghost use Rattle.fancy_lex.specs.NameViews.{view_target};
ghost use Rattle.fancy_grammar.specs.Label.{ast_call};
ghost use Rattle.fancy_grammar.specs.GroupInfo.{GroupInfo};
ghost use Rattle.fancy_grammar.specs.Pattern.{Context};
ghost use Rattle.fancy_grammar.specs.PatternReference as spec;
ghost use Rattle.fancy_pattern.specs.TextOutput.{Added};
ghost use Rattle.fancy_syntax.specs.View.{view_ast};
ghost use Rattle.fancy_pattern.specs.ContextViews.{AreGroupNames, leaf_text_of};

use crate::names::GroupNames;
use crate::output::{TextOutput, put_ascii};
use fancy_lex::escape::reference::is_relative;
use fancy_lex::text::{next, split_at};
use fancy_syntax::expr::{AstNode, CaptureGroupTarget};
use std::alloc::AllocError;

/// The sign of a number.
fn sign(amount: isize) -> char
    ensures { spec.signed amount ≡ result ∷ decimal (unsigned_abs amount) }
{
    if amount < 0 { '-' } else { '+' }
}

/// Writes a number with its sign.
#[tactic(auto, using(crate::proofs::OutputLemmas::added_steps))]
fn put_signed(out: &mut TextOutput, amount: isize) -> Result<(), AllocError>
    ensures { OnOk result (Added out.old out.new (spec.signed amount)) }
{
    out.put(sign(amount))?;
    out.put_number(amount.unsigned_abs())
}

/// Writes a level with its sign, if there is one.
#[tactic(auto, using(crate::proofs::OutputLemmas::added_steps))]
fn put_level(out: &mut TextOutput, level: Option<isize>) -> Result<(), AllocError>
    ensures { OnOk result (Added out.old out.new (spec.level_text level)) }
{
    match level {
        Some(level) => put_signed(out, level),
        None => Ok(()),
    }
}

/// Writes a text between delimiters, after an opening.
#[tactic(auto, using(crate::proofs::OutputLemmas::added_steps))]
fn put_delimited(out: &mut TextOutput, opening: &str, text: &str) -> Result<(), AllocError>
    requires { list_all (λ b. nat_lt b 128) opening.now ≡ true }
    ensures { OnOk result (Added out.old out.new (spec.delimited opening.now (chars text.now))) }
{
    put_ascii(out, opening)?;
    out.put('<')?;
    out.put_text(text)?;
    out.put('>')
}

/// Writes a text between quotes, after an opening.
#[tactic(auto, using(crate::proofs::OutputLemmas::added_steps))]
fn put_quoted(out: &mut TextOutput, opening: &str, text: &str) -> Result<(), AllocError>
    requires { list_all (λ b. nat_lt b 128) opening.now ≡ true }
    ensures { OnOk result (Added out.old out.new
        (opening.now ++ (codes "'" ++ (chars text.now ++ codes "'")))) }
{
    put_ascii(out, opening)?;
    out.put('\'')?;
    out.put_text(text)?;
    out.put('\'')
}

/// Writes the target of a back reference: the group's name if it refers to this group and the group opened before, or
/// else its number.
#[tactic(auto, using(crate::proofs::OutputLemmas::added_steps))]
fn put_backref_target(
    out: &mut TextOutput,
    names: &GroupNames,
    group: usize,
    opened: usize,
) -> Result<(), AllocError>
    ensures { (m : GroupInfo) → AreGroupNames names.now m →
        OnOk result (Added out.old out.new (spec.backref_name m opened group)) }
{
    match names.last_name(group) {
        Some(name) if group <= opened => out.put_text(name),
        _ => out.put_number(group),
    }
}

/// Writes a back reference.
#[tactic(auto, using(crate::proofs::OutputLemmas::added_steps))]
pub(crate) fn put_backref(
    out: &mut TextOutput,
    names: &GroupNames,
    group: usize,
    opened: usize,
) -> Result<(), AllocError>
    ensures { (m : GroupInfo) → AreGroupNames names.now m →
        OnOk result (Added out.old out.new (spec.backref_text m opened group)) }
{
    if names.is_numeric {
        out.put('\\')?;
        return out.put_number(group);
    }
    put_ascii(out, r"\k<")?;
    put_backref_target(out, names, group, opened)?;
    out.put('>')
}

/// Writes a back reference at a level.
#[tactic(auto, using(crate::proofs::OutputLemmas::added_steps))]
pub(crate) fn put_backref_at_level(
    out: &mut TextOutput,
    names: &GroupNames,
    group: usize,
    level: isize,
    opened: usize,
) -> Result<(), AllocError>
    ensures { (m : GroupInfo) → AreGroupNames names.now m →
        OnOk result (Added out.old out.new (spec.backref_at_level_text m opened group level)) }
{
    put_ascii(out, r"\k<")?;
    put_backref_target(out, names, group, opened)?;
    put_signed(out, level)?;
    out.put('>')
}

/// Writes a name and a level between delimiters.
#[tactic(auto, using(crate::proofs::OutputLemmas::added_steps))]
fn put_name_at_level(
    out: &mut TextOutput,
    name: &str,
    level: Option<isize>,
) -> Result<(), AllocError>
    ensures { OnOk result (Added out.old out.new (spec.delimited [] (chars name.now ++ spec.level_text level))) }
{
    out.put('<')?;
    out.put_text(name)?;
    put_level(out, level)?;
    out.put('>')
}

/// Writes a number and a level.
#[tactic(auto, using(crate::proofs::OutputLemmas::added_steps))]
fn put_number_at_level(
    out: &mut TextOutput,
    group: usize,
    level: Option<isize>,
) -> Result<(), AllocError>
    ensures { OnOk result (Added out.old out.new (decimal group ++ spec.level_text level)) }
{
    out.put_number(group)?;
    put_level(out, level)
}

/// Writes the target of a condition on a group.
#[tactic(auto, using(crate::proofs::OutputLemmas::added_steps))]
pub(crate) fn put_target(
    out: &mut TextOutput,
    names: &GroupNames,
    group: usize,
    level: Option<isize>,
) -> Result<(), AllocError>
    ensures { (m : GroupInfo) → AreGroupNames names.now m →
        OnOk result (Added out.old out.new (spec.target_text m group level)) }
{
    match names.last_name(group) {
        Some(name) => put_name_at_level(out, name, level),
        None => put_number_at_level(out, group, level),
    }
}

/// Writes a group by its distance: that many groups forward or back.
#[tactic(auto, using(crate::proofs::OutputLemmas::added_steps))]
fn put_distance(out: &mut TextOutput, opened: usize, group: usize) -> Result<(), AllocError>
    ensures { OnOk result (Added out.old out.new (spec.distance opened group)) }
{
    if opened < group {
        out.put('+')?;
        out.put_number(group - opened)
    } else {
        out.put('-')?;
        out.put_number((opened - group).checked_add(1).ok_or(AllocError)?)
    }
}

/// Writes the target of a call: the number if some reference is a number, or 0 if some call was; else a name that only
/// this group has, or the distance.
#[tactic(auto, using(crate::proofs::OutputLemmas::added_steps))]
fn put_called(
    out: &mut TextOutput,
    names: &GroupNames,
    group: usize,
    opened: usize,
) -> Result<(), AllocError>
    ensures { (m : GroupInfo) → AreGroupNames names.now m →
        OnOk result (Added out.old out.new (spec.call_name m opened group)) }
{
    if names.is_numeric && (group > 0 || names.self_recursive) {
        return out.put_number(group);
    }
    match names.only_name(group) {
        Some(name) => out.put_text(name),
        None => put_distance(out, opened, group),
    }
}

/// Writes a call.
#[tactic(auto, using(crate::proofs::OutputLemmas::added_steps))]
pub(crate) fn put_call(
    out: &mut TextOutput,
    names: &GroupNames,
    group: usize,
    opened: usize,
) -> Result<(), AllocError>
    ensures { (m : GroupInfo) → AreGroupNames names.now m →
        OnOk result (Added out.old out.new (spec.call_text m opened group)) }
{
    put_ascii(out, r"\g<")?;
    put_called(out, names, group, opened)?;
    out.put('>')
}

/// Whether the text contains the delimiter, an ASCII character.
fn has(text: &str, delimiter: char) -> bool
    requires { delimiter < 128 }
    ensures { result ≡ is_among delimiter (chars text.now) }
{
    split_at(text, delimiter).is_some()
}

/// Writes a call by name in the form of a group.
#[tactic(auto, using(crate::proofs::OutputLemmas::added_steps))]
fn put_grouped_call(out: &mut TextOutput, name: &str) -> Result<(), AllocError>
    ensures { OnOk result (Added out.old out.new (codes "(?P>" ++ (chars name.now ++ codes ")"))) }
{
    put_ascii(out, "(?P>")?;
    out.put_text(name)?;
    out.put(')')
}

/// Writes a call by a name that refers to no group, or to several.
fn put_call_by_name(out: &mut TextOutput, name: &str) -> Result<(), AllocError>
    ensures { OnOk result (Added out.old out.new (spec.unresolved_call_by_name (chars name.now))) }
{
    if is_relative(name) {
        put_grouped_call(out, name)
    } else if !has(name, '>') {
        put_delimited(out, r"\g", name)
    } else if !has(name, '\'') {
        put_quoted(out, r"\g", name)
    } else {
        put_grouped_call(out, name)
    }
}

/// Writes a call by a relative number.
#[tactic(auto, using(crate::proofs::OutputLemmas::added_steps))]
fn put_call_by_amount(out: &mut TextOutput, amount: isize) -> Result<(), AllocError>
    ensures { OnOk result (Added out.old out.new (spec.delimited (codes "\\g") (spec.signed amount))) }
{
    put_ascii(out, r"\g<")?;
    put_signed(out, amount)?;
    out.put('>')
}

/// Writes a call by number.
#[tactic(auto, using(crate::proofs::OutputLemmas::added_steps))]
fn put_call_by_number(out: &mut TextOutput, group: usize) -> Result<(), AllocError>
    ensures { OnOk result (Added out.old out.new (spec.delimited (codes "\\g") (decimal group))) }
{
    put_ascii(out, r"\g<")?;
    out.put_number(group)?;
    out.put('>')
}

/// Writes a call with this target that refers to no group.
fn put_unresolved_call(out: &mut TextOutput, target: &CaptureGroupTarget) -> Result<(), AllocError>
    ensures { OnOk result (Added out.old out.new (spec.unresolved_text (ast_call (view_target target.now)))) }
{
    match target {
        CaptureGroupTarget::ByName(name) => put_call_by_name(out, name.as_str()),
        CaptureGroupTarget::Relative(amount) => put_call_by_amount(out, *amount),
        CaptureGroupTarget::ByNumber(group) => put_call_by_number(out, *group),
    }
}

/// Writes a call that refers to no group.
#[tactic(auto, using(crate::proofs::OutputLemmas::added_steps))]
pub(crate) fn put_unresolved(out: &mut TextOutput, node: &AstNode) -> Result<(), AllocError>
    ensures { (m : GroupInfo) (h : Context) (position : ℕ) →
        OnOk result (Added out.old out.new (leaf_text_of m (view_ast node.now position) h)) }
{
    match node {
        AstNode::SubroutineCall(target) => put_unresolved_call(out, target),
        AstNode::AstGroup { .. } => Ok(()),
        AstNode::Backref { .. } => Ok(()),
        AstNode::BackrefExistsCondition { .. } => Ok(()),
    }
}

/// The characters before a group's name: before `=` and `!`, a single `<` would begin a look-behind.
fn name_prefix(first: char) -> &'static str
    ensures text { (if first ∈ "=!" then codes "?P" else codes "?") ≡ result.now }
    ensures ascii { list_all (λ b. nat_lt b 128) result.now ≡ true }
{
    if first == '=' || first == '!' {
        "?P"
    } else {
        "?"
    }
}

/// Writes the opening of a capturing group with this name.
fn put_name_opening(out: &mut TextOutput, name: &str) -> Result<(), AllocError>
    ensures { OnOk result (Added out.old out.new (spec.name_opening (chars name.now))) }
{
    let Some((first, _)) = next(name) else {
        return Ok(());
    };
    if has(name, '>') {
        return put_quoted(out, "?", name);
    }
    put_delimited(out, name_prefix(first), name)
}

/// Writes what follows the parenthesis of a capturing group.
#[tactic(auto, using(crate::proofs::OutputLemmas::added_steps))]
pub(crate) fn put_group_opening(
    out: &mut TextOutput,
    names: &GroupNames,
    group: usize,
) -> Result<(), AllocError>
    ensures { (m : GroupInfo) → AreGroupNames names.now m →
        OnOk result (Added out.old out.new (spec.group_opening m group)) }
{
    match names.name_of(group) {
        Some(name) => put_name_opening(out, name.text),
        None => Ok(()),
    }
}
