//! The spans in the pattern of what was recorded: of the nodes of the parsed tree, and of what it does not hold.
ghost use Rattle.std.specs.Prelude.{◌≡◌, [], ◌∷◌, ◌++◌, chars, map, option_map, IfOk, OnOk};
ghost use Rattle.std.specs.Option.{option_to_list};
ghost use Rattle.fancy_lex.specs.Text.{bytes};
ghost use Rattle.fancy_grammar.specs.Spans.{positioned};
ghost use Rattle.fancy_grammar.specs.Trivia.{kept, located};
ghost use Rattle.fancy_syntax.specs.Log.{shown};
ghost use Rattle.fancy_syntax.specs.LogViews.{log_of, returned_trivia};
ghost use Rattle.fancy_syntax.specs.SpanViews.{span_of, spans_of};
ghost use Rattle.fancy_syntax.specs.TriviaViews.{recorded_part, trivia_of, trivium_of};

use super::Spans;
use crate::grammar::recorded::{Recorded, RecordedTrivium};
use crate::span::Span;
use crate::trivium::Trivium;
use fancy_lex::text::position_at;
use std::alloc::{AllocError, Global};

impl Spans {
    /// The spans of the parsed tree; with `named`, only named groups have a number, and the others have no node.
    pub(crate) fn returned(
        &self,
        alloc: Global,
        pattern: &str,
        named: bool,
    ) -> Result<Vec<Span>, AllocError>
        ensures { IfOk result (λ spans. spans_of spans ≡
            map (positioned (bytes (chars pattern.now))) (shown named self.now.recorded.items)) }
    {
        let mut spans = Vec::with_capacity(alloc, self.recorded.len())?;
        for recorded in &self.recorded {
            if let Some(span) = shown_span(pattern, named, *recorded) {
                spans.push_reserved(span);
            }
        }
        Ok(spans)
    }

    /// What the tree of the pattern does not hold; with `named`, only named groups have a number, and the others have no
    /// node.
    pub(crate) fn returned_trivia(
        &self,
        alloc: Global,
        pattern: &str,
        named: bool,
    ) -> Result<Vec<Trivium>, AllocError>
        ensures { IfOk result (λ trivia. trivia_of trivia ≡ returned_trivia (chars pattern.now) named (log_of self.now)) }
    {
        let mut trivia = Vec::with_capacity(alloc, self.passed.len())?;
        for passed in &self.passed {
            push_kept(&mut trivia, pattern, named, *passed)?;
        }
        Ok(trivia)
    }
}

/// The span in the pattern, if it is that of a node in the parsed tree.
fn shown_span(pattern: &str, named: bool, recorded: Recorded) -> Option<Span>
    ensures { option_to_list (option_map span_of result) ≡
        map (positioned (bytes (chars pattern.now))) (shown named (recorded ∷ [])) }
{
    let (start, end) = match recorded {
        Recorded::Node { start, end } => (start, end),
        Recorded::Unnamed { start, end } if !named => (start, end),
        _ => return None,
    };
    Some(Span {
        start: position_at(pattern, start),
        end: position_at(pattern, end),
    })
}

/// Adds the part with its span in the pattern, unless it has a node.
fn push_kept(
    trivia: &mut Vec<Trivium>,
    pattern: &str,
    named: bool,
    part: RecordedTrivium,
) -> Result<(), AllocError>
    ensures { OnOk result (trivia_of trivia.new ≡ trivia_of trivia.old
        ++ map (located (bytes (chars pattern.now))) (kept named (recorded_part part ∷ []))) }
{
    if part.unnamed && !named {
        return Ok(());
    }
    Ok(trivia.push(trivium_in(pattern, part))?)
}

/// The trivium with its span in the pattern.
fn trivium_in(pattern: &str, recorded: RecordedTrivium) -> Trivium
    ensures { trivium_of result ≡ located (bytes (chars pattern.now)) (recorded_part recorded).trivium }
{
    let start = position_at(pattern, recorded.start);
    let end = position_at(pattern, recorded.end);
    Trivium {
        span: Span { start, end },
        kind: recorded.kind,
    }
}
