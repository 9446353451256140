//! The parts of a pattern that can match a text in many ways.
ghost use Rattle.std.specs.Prelude.{◌≡◌, chars, true, IfOk, IfSome};
ghost use Rattle.fancy_lex.specs.Flag.{with_flag};
ghost use Rattle.fancy_lex.specs.Flags.{flags_of};
ghost use Rattle.fancy_lex.specs.declared.flags.Flag.TheVariants as flag;
ghost use Rattle.fancy_syntax.specs.InfoViews.{IsTreeOf, info_of};
ghost use Rattle.fancy_syntax.specs.View.{view};

use crate::known::Known;
use backtracking::repeats::{SlowRepeat, SlowRepeats, slow_repeats};
use backtracking::searches::{SlowSearch, SlowSearches, slow_searches};
use backtracking::sequences::{SlowSequence, SlowSequences, slow_sequences};
use dialects::dialect::Dialect;
use fancy_lex::flags::{Flag, Flags};
use fancy_syntax::span::Span;
use fancy_syntax::spanned::SpannedTree;
use lint_rules::chosen::{Chosen, Level};
use lint_rules::rule::Rule;
use patterns_text::error::RunError;
use patterns_text::subject::Subject;
use std::alloc::{AllocError, Global};

/// What is slow in a pattern.
#[derive(Drop)]
pub struct SlowParts {
    /// The repeats that can match a text in exponentially many ways.
    pub repeats: Vec<SlowRepeat>,
    /// The pairs of repeats that can match a text in polynomially many ways.
    pub sequences: Vec<SlowSequence>,
    /// The repeats that a search goes through again from each start, if there are no others.
    pub searches: Vec<SlowSearch>,
    /// The parts that were not searched.
    pub not_searched: Vec<Span>,
}

/// The flags, and the one under which `^` and `$` match at lines.
fn with_lines(flags: u32) -> u32
    ensures { flags_of result ≡ with_flag (flags_of flags) flag.Multi true }
{
    Flags::from_bits(flags).with(Flag::Multi, true).to_bits()
}

/// The tree of the pattern if `^` and `$` match at lines; None if the pattern is invalid.
fn parsed_with_lines(subject: Subject<'_>) -> Result<Option<SpannedTree>, RunError>
    ensures { IfOk result (λ parsed. IfSome parsed (λ t. IsTreeOf (with_flag (flags_of subject.entry.flags) flag.Multi true)
        (chars subject.entry.pattern.now) (view t.tree.expr) (info_of t.tree))) }
{
    let flags = with_lines(subject.flags);
    let subject = Subject { flags, ..subject };
    let Ok(parsed) = subject.parse()? else {
        return Ok(None);
    };
    Ok(Some(parsed))
}

/// Whether `^` and `$` match at lines in the dialect, whatever the flags are.
fn has_lines(dialect: Option<Dialect>) -> bool {
    matches!(dialect, Some(Dialect::Oniguruma | Dialect::Ruby))
}

impl SlowParts {
    /// Nothing is looked for.
    pub fn new(alloc: Global) -> SlowParts {
        SlowParts {
            repeats: Vec::new(alloc),
            sequences: Vec::new(alloc),
            searches: Vec::new(alloc),
            not_searched: Vec::new(alloc),
        }
    }

    /// Whether nothing slow was found.
    fn is_empty(&self) -> bool {
        self.repeats.is_empty() && self.sequences.is_empty() && self.searches.is_empty()
    }

    /// What is slow in the pattern, as far as the rules are not silent. Of a silent rule nothing is looked for. `known` has the
    /// classes of the run's patterns.
    fn of(
        alloc: Global,
        parsed: &SpannedTree,
        chosen: &Chosen,
        known: &mut Known,
    ) -> Result<SlowParts, AllocError> {
        let mut parts = SlowParts::new(alloc);
        if chosen.level(Rule::ExponentialBacktracking) != Level::Allow {
            let SlowRepeats { slow, not_searched } = slow_repeats(alloc, parsed, &mut known.sets)?;
            parts.repeats = slow;
            parts.not_searched = not_searched;
        }
        if chosen.level(Rule::PolynomialBacktracking) != Level::Allow {
            let SlowSequences { slow, not_searched } = slow_sequences(
                alloc,
                parsed,
                &mut known.sets,
            )?;
            parts.sequences = slow;
            parts.not_searched.extend_from_slice(&not_searched)?;
        }
        if parts.is_empty() && chosen.level(Rule::QuadraticSearch) != Level::Allow {
            let SlowSearches { slow, not_searched } = slow_searches(
                alloc,
                parsed,
                &mut known.sets,
            )?;
            parts.searches = slow;
            parts.not_searched.extend_from_slice(&not_searched)?;
        }
        Ok(parts)
    }

    /// The same of a pattern that is written in the dialect of the levels. The tree is that of the pattern.
    pub fn in_dialect(
        subject: Subject<'_>,
        parsed: &SpannedTree,
        chosen: &Chosen,
        known: &mut Known,
    ) -> Result<SlowParts, RunError> {
        if has_lines(chosen.dialect)
            && let Some(other) = parsed_with_lines(subject)?
        {
            return Ok(SlowParts::of(subject.alloc, &other, chosen, known)?);
        }
        Ok(SlowParts::of(subject.alloc, parsed, chosen, known)?)
    }
}
