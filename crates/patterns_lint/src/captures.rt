//! Numbers of groups in a grammar, above the number of groups.
ghost use Rattle.std.specs.Prelude.{◌≡◌};
ghost use Rattle.patterns_lint.specs.Targets as spec;

use crate::targets::above;
use fancy_syntax::span::Span;
use lint_rules::problem::{Found, Others, Problem, Total};
use patterns_text::grammar_rule::Capture;
use std::alloc::{AllocError, Global};

/// The group of the capture, if it is above the number of groups.
fn missing_capture(capture: Capture) -> Option<usize>
    ensures { result ≡ spec.above capture.total capture.group }
{
    above(capture.total, capture.group)
}

/// The captures of groups that are missing. Each is reported at the whole pattern, which has so many numbered groups.
pub(crate) fn missing_captures(
    alloc: Global,
    pattern: &str,
    total: usize,
    captures: &[Capture],
) -> Result<Vec<Found<'static>>, AllocError> {
    let span = Span {
        start: 0,
        end: pattern.len(),
    };
    let mut found = Vec::new(alloc);
    for capture in captures {
        if let Some(group) = missing_capture(*capture) {
            let problem = Problem::MissingCaptureGroup {
                key: capture.key,
                group,
                total: Total(total),
            };
            found.push(Found {
                span,
                problem,
                related: None,
                others: Others::NONE,
                is_counted: false,
            })?;
        }
    }
    Ok(found)
}
