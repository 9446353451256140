//! Trees read back from the lines that name their nodes, as `fre` writes them.
use crate::fields::{bytes, parts, text};
use anyhow::{Context, Result, bail};
use fancy_lex::escape::Assertion;
use fancy_lex::name::CaptureGroupTarget;
use fancy_syntax::expr::{Absent, AstNode, BacktrackingControlVerb, Expr, LookAround};
use std::alloc::Global;

/// The value of a field with this name and an equals sign.
fn flag(field: &str, name: &str) -> Result<bool> {
    let value = field.strip_prefix(name).context("another field")?;
    Ok(value.parse::<bool>()?)
}

fn number(field: &str) -> Result<usize> {
    Ok(field.parse::<usize>()?)
}

fn level(field: &str) -> Result<Option<isize>> {
    if field == "none" {
        return Ok(None);
    }
    Ok(Some(field.parse::<isize>()?))
}

fn target(alloc: Global, field: &str) -> Result<CaptureGroupTarget> {
    if let Some(name) = field.strip_prefix("name:") {
        return Ok(CaptureGroupTarget::ByName(text(alloc, name)?));
    }
    if let Some(amount) = field.strip_prefix("relative:") {
        return Ok(CaptureGroupTarget::Relative(amount.parse::<isize>()?));
    }
    let group = field.strip_prefix("number:").context("no target")?;
    Ok(CaptureGroupTarget::ByNumber(number(group)?))
}

fn assertion(name: &str, crlf: Option<bool>) -> Result<Assertion> {
    let assertion = Assertion::named(name, crlf.unwrap_or(false)).context("no assertion")?;
    if assertion.crlf() != crlf {
        bail!("another field");
    }
    Ok(assertion)
}

fn look_around(name: &str) -> Result<LookAround> {
    Ok(match name {
        "LookAhead" => LookAround::LookAhead,
        "LookAheadNeg" => LookAround::LookAheadNeg,
        "LookBehind" => LookAround::LookBehind,
        "LookBehindNeg" => LookAround::LookBehindNeg,
        _ => bail!("no look-around"),
    })
}

fn verb(name: &str) -> Result<BacktrackingControlVerb> {
    Ok(match name {
        "Fail" => BacktrackingControlVerb::Fail,
        "Accept" => BacktrackingControlVerb::Accept,
        "Commit" => BacktrackingControlVerb::Commit,
        "Skip" => BacktrackingControlVerb::Skip,
        "Prune" => BacktrackingControlVerb::Prune,
        _ => bail!("no verb"),
    })
}

/// The node of a line that has no children below it.
fn leaf(alloc: Global, words: &[&str]) -> Result<Expr> {
    Ok(match words {
        ["Any", newline, crlf] => Expr::Any {
            newline: flag(newline, "newline=")?,
            crlf: flag(crlf, "crlf=")?,
        },
        ["Assertion", name] => Expr::Assertion(assertion(name, None)?),
        ["Assertion", name, crlf] => {
            Expr::Assertion(assertion(name, Some(flag(crlf, "crlf=")?))?)
        }
        ["GeneralNewline", unicode] => Expr::GeneralNewline {
            unicode: flag(unicode, "unicode=")?,
        },
        ["Literal", val, casei] => Expr::Literal {
            val: text(alloc, val)?,
            casei: flag(casei, "casei=")?,
        },
        ["LiteralBytes", field] => Expr::LiteralBytes {
            bytes: bytes(alloc, field)?,
        },
        ["Concat"] => Expr::Concat(Vec::new(alloc)),
        ["Alt"] => Expr::Alt(Vec::new(alloc)),
        ["Delegate", inner, casei] => Expr::Delegate {
            inner: text(alloc, inner)?,
            casei: flag(casei, "casei=")?,
        },
        ["Backref", group, casei] => Expr::Backref {
            group: number(group)?,
            casei: flag(casei, "casei=")?,
        },
        ["SubroutineCall", group] => Expr::SubroutineCall(number(group)?),
        ["BacktrackingControlVerb", name] => Expr::BacktrackingControlVerb(verb(name)?),
        ["Absent", "Clear"] => Expr::Absent(Absent::Clear),
        [name] => Expr::bare_named(name).context("no node that holds nothing")?,
        _ => reference(alloc, words)?,
    })
}

/// The node of a line that names groups.
fn reference(alloc: Global, words: &[&str]) -> Result<Expr> {
    Ok(match words {
        ["BackrefWithRelativeRecursionLevel", group, amount, casei] =>
            Expr::BackrefWithRelativeRecursionLevel {
                group: number(group)?,
                relative_level: level(amount)?.context("no level")?,
                casei: flag(casei, "casei=")?,
            },
        ["BackrefExistsCondition", group, amount] => Expr::BackrefExistsCondition {
            group: number(group)?,
            relative_recursion_level: level(amount)?,
        },
        ["AstNode", "SubroutineCall", name, position] => {
            Expr::AstNode(
                AstNode::SubroutineCall(target(alloc, name)?),
                number(position)?,
            )
        }
        _ => bail!("no leaf"),
    })
}

/// The node of a line with only this child.
fn over_one(alloc: Global, words: &[&str], child: Expr) -> Result<Expr> {
    let child = Box::new(alloc, child)?;
    Ok(match words {
        ["Group"] => Expr::Group(child),
        ["LookAround", name] => Expr::LookAround(child, look_around(name)?),
        ["Repeat", lo, hi, greedy] => Expr::Repeat {
            child,
            lo: number(lo)?,
            hi: number(hi)?,
            greedy: flag(greedy, "greedy=")?,
        },
        ["AtomicGroup"] => Expr::AtomicGroup(child),
        ["Absent", "Repeater"] => Expr::Absent(Absent::Repeater(child)),
        ["Absent", "Stopper"] => Expr::Absent(Absent::Stopper(child)),
        ["DefineGroup"] => Expr::DefineGroup { definitions: child },
        _ => bail!("no node over one child"),
    })
}

/// The node of a line with these children below it.
fn node(alloc: Global, words: &[&str], children: Vec<Expr>) -> Result<Expr> {
    if children.is_empty() {
        return leaf(alloc, words);
    }
    match words {
        ["Concat"] => return Ok(Expr::Concat(children)),
        ["Alt"] => return Ok(Expr::Alt(children)),
        _ => {}
    }
    let mut children = children.into_iter();
    let first = children.next().context("no child")?;
    let Some(second) = children.next() else {
        return over_one(alloc, words, first);
    };
    let Some(third) = children.next() else {
        return Ok(Expr::Absent(Absent::Expression {
            absent: Box::new(alloc, first)?,
            exp: Box::new(alloc, second)?,
        }));
    };
    Ok(Expr::Conditional {
        condition: Box::new(alloc, first)?,
        true_branch: Box::new(alloc, second)?,
        false_branch: Box::new(alloc, third)?,
    })
}

/// A tree read, with its level.
#[derive(Drop)]
struct Leveled {
    level: usize,
    tree: Expr,
}

/// Takes the trees at the level from the top, in order.
fn take_children(alloc: Global, trees: &mut Vec<Leveled>, level: usize) -> Result<Vec<Expr>> {
    let mut children = Vec::new(alloc);
    for _ in 0..trees.len() {
        match trees.pop() {
            Some(top) if top.level == level => children.push(top.tree)?,
            Some(top) => {
                trees.push(top)?;
                break;
            }
            None => break,
        }
    }
    Ok(children)
}

/// Reads the lines of a tree in preorder, two spaces a level, from the last to the first.
pub(crate) fn read_tree(alloc: Global, lines: &str) -> Result<Expr> {
    let mut trees = Vec::new(alloc);
    for line in lines.rsplit('\n') {
        let named = line.trim_start();
        let level = (line.len().saturating_sub(named.len())) / 2;
        let words = parts(alloc, named, ' ')?;
        let children = take_children(alloc, &mut trees, level + 1)?;
        let tree = node(alloc, &words, children)?;
        trees.push(Leveled { level, tree })?;
    }
    let top = trees.pop().context("no node")?;
    Ok(top.tree)
}
