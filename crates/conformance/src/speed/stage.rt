//! How far a pattern is taken.
use crate::speed::sample::Sample;
use anyhow::{Context, Result, bail};
use fancy_lex::flag_word::flags_named;
use fancy_pattern::to_pattern;
use fancy_syntax::{Error, Expr, ExprTree, FLAG_UNICODE, WHOLE};
use pattern_facts::{beginning_beside, facts, is_easy, prefix_beside};
use std::alloc::{AllocError, Global};

/// What is done to a pattern last. Each stage does those before it too.
#[derive(Clone, Copy)]
pub(crate) enum Stage {
    /// The line is decoded.
    Decode,
    /// The pattern is read.
    Read,
    /// The pattern is read with the spans of its nodes; no stage after this one does so.
    Locate,
    /// What is known of the matches of the tree's nodes is found, how they begin, and whether the tree is easy.
    Analyze,
    /// The text of the tree is made by `to_pattern`.
    Write,
    /// The tree is asked whether it is printable.
    Ask,
    /// The tree is printed.
    Print,
}

/// How many nodes something is known of, with one more for a prefix, for first characters, and if the tree is easy.
fn known_facts(alloc: Global, tree: &Expr, unicode: bool) -> Result<usize, AllocError> {
    let rows = facts(alloc, tree, unicode)?;
    let prefix = usize::from(prefix_beside(alloc, tree, unicode, &rows)?.is_some());
    let first = usize::from(beginning_beside(alloc, tree, unicode, &rows)?.is_some());
    let mut known = usize::from(is_easy(tree));
    for row in rows.iter() {
        known = known.saturating_add(usize::from(row.is_some()));
    }
    Ok(known.saturating_add(prefix).saturating_add(first))
}

impl Stage {
    pub(crate) fn named(name: &str) -> Option<Stage> {
        Some(match name {
            "none" => Stage::Decode,
            "parse" => Stage::Read,
            "spans" => Stage::Locate,
            "facts" => Stage::Analyze,
            "pattern" => Stage::Write,
            "printable" => Stage::Ask,
            "text" => Stage::Print,
            _ => return None,
        })
    }

    /// The bytes of the pattern where it is only decoded; 1 where it is read, or is printable; the spans of its nodes, what
    /// is known of them, or the bytes of its tree's text, where these are made. 0 where the pattern is invalid, or its tree
    /// is not printable.
    pub(crate) fn amount(self, alloc: Global, sample: &Sample) -> Result<usize> {
        let [word, pattern] = &sample.words;
        let flags = flags_named(word.as_str()).context("no flags")?;
        match self.amount_under(alloc, pattern.as_str(), flags) {
            Ok(amount) => Ok(amount),
            Err(Error::OutOfMemory) => bail!("out of memory"),
            Err(Error::ParseError(_, _)) => Ok(0),
        }
    }

    /// The same for a valid pattern.
    fn amount_under(self, alloc: Global, pattern: &str, flags: u32) -> Result<usize, Error> {
        match self {
            Stage::Decode => Ok(pattern.len()),
            Stage::Locate => {
                let (_, spans) = Expr::parse_tree_with_spans(alloc, pattern, flags)?;
                Ok(spans.len())
            }
            Stage::Read | Stage::Analyze | Stage::Write | Stage::Ask | Stage::Print => {
                let tree = Expr::parse_tree_with_flags(alloc, pattern, flags)?;
                Ok(self.amount_of_tree(alloc, &tree, flags)?)
            }
        }
    }

    /// The same of a pattern that was read as this tree.
    fn amount_of_tree(
        self,
        alloc: Global,
        tree: &ExprTree,
        flags: u32,
    ) -> Result<usize, AllocError> {
        match self {
            Stage::Analyze => known_facts(alloc, &tree.expr, flags & FLAG_UNICODE != 0),
            Stage::Write => Ok(to_pattern(alloc, tree, flags)?.map_or(0, |text| text.len())),
            Stage::Ask => Ok(usize::from(tree.expr.is_printable(alloc)?)),
            Stage::Print => Ok(tree.expr.print(alloc, WHOLE)?.map_or(0, |text| text.len())),
            Stage::Decode | Stage::Read | Stage::Locate => Ok(1),
        }
    }
}
