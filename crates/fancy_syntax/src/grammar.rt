//! The grammar: a loop over a stack of open groups reads the raw tree of a text.
ghost use Rattle.std.specs.Prelude.{◌≡◌, ◌<◌, ◌≤◌, length, chars, IfOk, MatchResult};
ghost use Rattle.fancy_grammar.specs.Errors.{IsErrorAmong};
ghost use Rattle.fancy_grammar.specs.Grammar as spec;
ghost use Rattle.fancy_lex.specs.Text.{reach_of};
ghost use Rattle.fancy_syntax.specs.Log.{Log, started};
ghost use Rattle.fancy_syntax.specs.Machine.{IsReadTo};
ghost use Rattle.fancy_syntax.specs.Parsed.{state};
ghost use Rattle.fancy_syntax.specs.Reads.{ReadsWhole};
ghost use Rattle.fancy_syntax.specs.RecordedWhole.{IsRecordedWhole};
ghost use Rattle.fancy_syntax.specs.View.{view};

mod atom;
mod atom_start;
mod conditional;
mod error;
mod fast_path;
mod found;
mod frame;
mod group;
mod parser;
mod part_end;
pub(crate) mod quantified;
pub(crate) mod recorded;
mod reference;
pub(crate) mod spanning;
pub(crate) mod spans;
pub(crate) mod state;
mod step;
mod trees;

use crate::expr::Expr;
use crate::grammar::error::general;
use crate::grammar::found::FoundGroups;
use crate::grammar::parser::Parser;
use crate::grammar::spanning::Spanning;
use crate::grammar::state::{State, is_end};
use crate::raw_tree::RawTree;
use fancy_lex::error::ReadError;
use fancy_lex::flags::Flags;
use fancy_lex::text::{after, next, reach};
use std::alloc::Global;

/// Reads a whole text: its raw tree. Returns the error of the text, or OutOfMemory.
#[inline]
pub(crate) fn parse<S: Spanning>(
    alloc: Global,
    text: &str,
    flags: Flags,
    spans: &mut S,
) -> Result<RawTree, ReadError>
    ensures { (l : Log) → l ≡ started (reach_of (chars text.now)) → ReadsWhole result flags (chars text.now) (λ r.
        S.records spans.old l → (m : Log) × S.records spans.new m × IsRecordedWhole flags (chars text.now) r m) }
{
    let (tree, current, found) = alternation(alloc, State { flags, rest: text }, spans)?;
    match next(current.rest) {
        None => Ok(found.with_tree(tree)),
        Some(_) => {
            drop(tree);
            drop(found);
            Err(general(alloc, "end of string not reached", reach(current.rest)))
        }
    }
}

/// Reads branches with bars between them, up to the end of the outermost.
fn alternation<'a, S: Spanning>(
    alloc: Global,
    start: State<'a>,
    spans: &mut S,
) -> Result<(Expr, State<'a>, FoundGroups), ReadError>
    ensures value { (l : Log) → MatchResult result
        (λ p. IsReadTo (state start.entry) l (view p.0) (state p.1) p.2 (λ m. S.records spans.old l → S.records spans.new m))
        (λ e. IsErrorAmong e (spec.Alternation 0 (state start.entry))) }
    ensures within { IfOk result (λ p. length p.1.rest.now ≤ length start.entry.rest.now) }
{
    let mut parser = Parser::new(alloc, start)?;
    loop {
        if parser.add_leaf(alloc, spans)? {
            continue;
        }
        let rest = parser.current.rest;
        if !is_end(rest) {
            parser.step(alloc, spans)?;
        } else if let Some(tail) = after(rest, '|') {
            parser.bar(alloc, tail, spans)?;
        } else if let Some(tree) = parser.close(alloc, spans)? {
            let Parser { current, found, .. } = parser;
            return Ok((tree, current, found));
        }
    }
}
