//! What a walk over the nodes of a pattern's tree finds.
ghost use Rattle.std.specs.Prelude.{OnOk};
ghost use Rattle.patterns_lint.specs.Named.{IsNamed};

use fancy_syntax::span::Span;
use lint_rules::problem::{Found, Others, Problem};
use patterns_text::excerpt::Related;
use std::alloc::{AllocError, Global};

/// What a walk has found so far.
#[derive(Drop)]
pub(crate) struct Walk<'a> {
    pub(crate) found: Vec<Found<'a>>,
}

impl<'a> Walk<'a> {
    /// The walk that begins at the root.
    pub(crate) fn new(alloc: Global) -> Walk<'a> {
        Walk {
            found: Vec::new(alloc),
        }
    }

    /// Adds what is wrong there.
    pub(crate) fn report(&mut self, span: Span, problem: Problem<'a>) -> Result<(), AllocError> {
        self.report_beside(span, problem, None)
    }

    /// Adds what is wrong there, and the branch or the group that its message names.
    pub(crate) fn report_beside(
        &mut self,
        span: Span,
        problem: Problem<'a>,
        related: Option<Related>,
    ) -> Result<(), AllocError>
        ensures { OnOk result (IsNamed self.new.found.items span) }
    {
        self.found.push(Found {
            span,
            problem,
            related,
            others: Others::NONE,
            is_counted: false,
        })?;
        Ok(())
    }

    /// Adds what is wrong there to the report of this index, which has the same problem. If its message does not name the part,
    /// it is found apart, for what fixes reports.
    #[tactic(auto, using(crate::proofs::NamedLemmas::named_in_place, crate::proofs::NamedLemmas::named_last))]
    pub(crate) fn join(
        &mut self,
        index: usize,
        span: Span,
        problem: Problem<'a>,
    ) -> Result<(), AllocError>
        ensures { OnOk result (IsNamed self.new.found.items span) }
    {
        if index < self.found.len() {
            let mut report = self.found[index];
            let is_named = report.others.add(span);
            self.found[index] = report;
            if is_named {
                return Ok(());
            }
        }
        self.found.push(Found {
            span,
            problem,
            related: None,
            others: Others::NONE,
            is_counted: true,
        })?;
        Ok(())
    }
}
