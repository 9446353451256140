//! How near trees come to the bound on their levels, 832.
use crate::tests::{is_result, run_failing};
use std::alloc::{AllocError, Global};
use std::str;

/// The nodes and the levels of the parsed tree, by its lines.
fn measured(out: &[u8]) -> (usize, usize) {
    let out = str::from_utf8(out).unwrap_or("");
    let (tree, _) = out.split_once("marks ").unwrap_or(("", ""));
    let mut nodes = 0usize;
    let mut levels = 0usize;
    for line in tree.lines() {
        let indent = line.len().saturating_sub(line.trim_start().len());
        nodes = nodes.saturating_add(1);
        levels = levels.max((indent / 2).saturating_add(1));
    }
    (nodes, levels)
}

/// How many groups can be open.
const MAX_OPEN: usize = 63;

/// How many quantifiers may be adjacent to an earlier one.
const MAX_ADJACENT: usize = 4;

/// Adds as many possessive quantifiers as a piece inside so many groups may have in Oniguruma's mode: one, and up to
/// four adjacent ones, each of which is one deeper.
fn push_quantifiers(pattern: &mut String, depth: usize) -> Result<(), AllocError> {
    let adjacent = MAX_OPEN.saturating_sub(depth).min(MAX_ADJACENT);
    for _ in 0..adjacent.saturating_add(1) {
        pattern.push_str("*+")?;
    }
    Ok(())
}

/// An Alt, a Concat, a Group and all quantifiers on each of 64 levels.
fn deepest(alloc: Global) -> Result<String, AllocError> {
    let mut pattern = "|a(".repeat(alloc, MAX_OPEN)?;
    pattern.push_str("|aa")?;
    push_quantifiers(&mut pattern, MAX_OPEN)?;
    for depth in (0..MAX_OPEN).rev() {
        pattern.push(')')?;
        push_quantifiers(&mut pattern, depth)?;
    }
    Ok(pattern)
}

/// The bytes of the pattern, and the nodes and the levels of its tree.
fn bounds_of_deepest(alloc: Global) -> Result<(usize, usize, usize), AllocError> {
    let pattern = deepest(alloc)?;
    let run = run_failing(alloc, &["o", pattern.as_str()], None, None)?;
    let (nodes, levels) = measured(&run.out.text);
    Ok((pattern.len(), nodes, levels))
}

/// Whether the pattern with one more quantifier is invalid for it.
fn is_deepest(alloc: Global) -> Result<bool, AllocError> {
    let mut pattern = deepest(alloc)?;
    pattern.push('*')?;
    let error = "Parsing error at position 876: Pattern too deeply nested\n";
    is_result(alloc, &["o", pattern.as_str()], 1, "", error)
}

/// 20 levels less than the bound, which counts four adjacent quantifiers at each depth: at depths 60 to 63 there are
/// three, two, one and none.
#[test]
fn the_deepest_tree_has_812_levels(rt: HostRuntime) -> Result<(), AllocError> {
    assert!(rt; bounds_of_deepest(rt.alloc())? == (875, 940, 812));
    assert!(rt; is_deepest(rt.alloc())?);
    Ok(())
}
