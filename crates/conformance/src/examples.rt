//! The code of `docs/library.md`, of which each module is a part, and in `many_ways` calls that no other program makes.
//! `show_examples` writes what they return.
mod changes;
mod class_members;
mod comments;
mod errors;
mod groups;
mod many_ways;
mod positions;
mod printing;
mod proved;
mod spans;
mod summary;
mod walks;

use crate::examples::changes::{replace_child, with_child};
use crate::examples::class_members::{have_common, members};
use crate::examples::comments::push_comments;
use crate::examples::errors::{INVALID, first_error};
use crate::examples::groups::{calls_nothing, group_named};
use crate::examples::many_ways::{word_across, word_of_two_ways};
use crate::examples::positions::pointed;
use crate::examples::printing::in_a_row;
use crate::examples::proved::{formatted, group_count};
use crate::examples::spans::push_nested_repeats;
use crate::examples::summary::summary;
use crate::examples::walks::{push_literals, repeats_without_bound};
use anyhow::Result;
use fancy_syntax::spanned::SpannedTree;
use fancy_syntax::{Expr, ExprTree, FLAG_IGNORE_SPACE, FLAG_UNICODE};

fn show_summary(rt: &HostRuntime, pattern: &str) -> Result<()> {
    let (groups, text) = summary(rt.alloc(), pattern)?;
    match text {
        Some(text) => println!(rt; "{pattern} has {groups} groups and prints as {text}")?,
        None => println!(rt; "{pattern} has {groups} groups and no text")?,
    }
    Ok(())
}

fn show_error(rt: &HostRuntime, pattern: &str, flags: u32) -> Result<()> {
    if let Some((position, kind)) = first_error(rt.alloc(), pattern, flags)? {
        println!(rt; "{}", pointed(rt.alloc(), pattern, position)?)?;
        println!(rt; "byte {position}: {kind}")?;
    }
    Ok(())
}

fn show_literals(rt: &HostRuntime, tree: &Expr) -> Result<()> {
    let mut text = String::new(rt.alloc());
    push_literals(tree, &mut text)?;
    println!(rt; "  literals: {text}")?;
    Ok(())
}

fn show_twice(rt: &HostRuntime, tree: &Expr) -> Result<()> {
    match in_a_row(rt.alloc(), tree, tree)? {
        Some(text) => println!(rt; "  twice: {text}")?,
        None => println!(rt; "  no text")?,
    }
    Ok(())
}

fn show_info(rt: &HostRuntime, tree: &ExprTree) -> Result<()> {
    println!(rt;
        "  repeats without a bound: {}",
        repeats_without_bound(&tree.expr)
    )?;
    println!(rt; "  calls nothing: {}", calls_nothing(&tree.expr))?;
    if let Some(number) = group_named(tree, "day") {
        println!(rt; "  day is group {number}")?;
    }
    Ok(())
}

fn show_tree(rt: &HostRuntime, tree: &ExprTree) -> Result<()> {
    show_literals(rt, &tree.expr)?;
    show_info(rt, tree)?;
    show_twice(rt, &tree.expr)
}

fn show_pattern(rt: &HostRuntime, pattern: &str) -> Result<()> {
    println!(rt; "{pattern}")?;
    let tree = Expr::parse_tree(rt.alloc(), pattern)?;
    show_tree(rt, &tree)
}

fn show_nested_repeats(rt: &HostRuntime, pattern: &str) -> Result<()> {
    let parsed = SpannedTree::parse(rt.alloc(), pattern, FLAG_UNICODE)?;
    let mut lines = String::new(rt.alloc());
    push_nested_repeats(rt.alloc(), &mut lines, pattern, parsed.root(), false)?;
    println!(rt; "{pattern}")?;
    print!(rt; "{lines}")?;
    Ok(())
}

fn show_comments(rt: &HostRuntime, pattern: &str) -> Result<()> {
    let parsed = SpannedTree::parse(rt.alloc(), pattern, FLAG_UNICODE | FLAG_IGNORE_SPACE)?;
    let mut lines = String::new(rt.alloc());
    push_comments(rt.alloc(), &mut lines, pattern, &parsed.trivia)?;
    println!(rt; "{pattern}")?;
    print!(rt; "{lines}")?;
    Ok(())
}

fn show_change(rt: &HostRuntime) -> Result<()> {
    let mut tree = Expr::parse_tree(rt.alloc(), "a|b")?.expr;
    if replace_child(&mut tree, 1, Expr::Empty) {
        show_twice(rt, &tree)?;
    }
    Ok(())
}

fn show_rewritten(rt: &HostRuntime, pattern: &str, i: usize) -> Result<()> {
    let slash = Expr::Literal {
        val: String::from_str(rt.alloc(), "/")?,
        casei: false,
    };
    match with_child(rt.alloc(), pattern, i, slash)? {
        Some(text) => println!(rt; "{pattern} is rewritten as {text}")?,
        None => println!(rt; "{pattern} is not rewritten")?,
    }
    Ok(())
}

fn show_members(rt: &HostRuntime, pattern: &str) -> Result<()> {
    match members(rt.alloc(), pattern)? {
        Some(text) => println!(rt; "{pattern}:{text}")?,
        None => println!(rt; "{pattern} does not match one character")?,
    }
    Ok(())
}

fn show_common(rt: &HostRuntime, first: &str, second: &str) -> Result<()> {
    if let Some(common) = have_common(rt.alloc(), first, second)? {
        println!(rt; "{first} and {second} have a character in common: {common}")?;
    }
    Ok(())
}

fn show_ways(rt: &HostRuntime, pattern: &str) -> Result<()> {
    match word_of_two_ways(rt.alloc(), pattern)? {
        Some(word) => println!(rt; "(?:{pattern})+ matches {word} in two ways")?,
        None => println!(rt; "(?:{pattern})+ matches no word in two ways")?,
    }
    if let Some(word) = word_across(rt.alloc(), pattern)? {
        println!(rt; "(?:{pattern})+(?:{pattern})+ matches repetitions of {word} in many ways")?;
    }
    Ok(())
}

fn show_proved(rt: &HostRuntime, pattern: &str) -> Result<()> {
    println!(rt;
        "{pattern} has {} groups",
        group_count(rt.alloc(), pattern)?
    )?;
    if let Some(text) = formatted(rt.alloc(), pattern)? {
        println!(rt; "  formatted: {text}")?;
    }
    Ok(())
}

const DATE: &str = r"(?<year>\d{4})-(?<month>\d\d)";

static CLASSES: [&str; 5] = ["[a-cx]", "(?i)[k]", r"[^\s\S]", "[z-a]", r"\bk"];

static PATTERNS: [&str; 4] = ["x(y|z)*", r"(?<day>\d)-\k<day>", r"(a)\g<day>", "a|b"];

/// Runs all examples, and writes what they return.
pub(crate) fn show_examples(rt: &HostRuntime) -> Result<()> {
    show_summary(rt, "(a|b)c*")?;
    show_summary(rt, r"(a)\1")?;
    for (pattern, flags) in INVALID.iter() {
        show_error(rt, pattern, *flags)?;
    }
    for pattern in PATTERNS.iter() {
        show_pattern(rt, pattern)?;
    }
    show_nested_repeats(rt, r"(?:\w+\s?)*(?:-\d+)+$")?;
    show_comments(rt, r"(?#a date)(\d{4})-(\d\d) # year and month")?;
    show_change(rt)?;
    show_rewritten(rt, DATE, 1)?;
    show_rewritten(rt, DATE, 0)?;
    for pattern in CLASSES.iter() {
        show_members(rt, pattern)?;
    }
    show_common(rt, "[a-c]", "[c-e]")?;
    show_common(rt, "[a-c]", "[d-f]")?;
    show_ways(rt, "a|a")?;
    show_ways(rt, "ab")?;
    show_proved(rt, "(?<n>a)(?#c)b")
}
