//! All spellings of a pattern that other dialects read otherwise.
ghost use Rattle.std.specs.Prelude.{◌≡◌, true, Some};
ghost use Rattle.dialects.specs.declared.difference.Difference.TheVariants as difference;

use crate::class_item::items_in;
use crate::difference::Difference;
use crate::node_spelling::{of_condition, of_leaf, of_pair, of_repeat};
use fancy_syntax::expr::Expr;
use fancy_syntax::span::Span;
use fancy_syntax::spanned::SpannedNode;
use std::alloc::{AllocError, Global};

/// What another dialect reads otherwise, and the part of the pattern that it is.
#[derive(Clone, Copy)]
pub struct DifferentSpelling {
    pub span: Span,
    pub difference: Difference,
}

/// Those of a pattern that have been found so far.
#[derive(Drop)]
struct SpellingSearch<'p> {
    pattern: &'p str,
    found: Vec<DifferentSpelling>,
}

impl SpellingSearch<'_> {
    /// Adds the difference, if there is one, of the part.
    fn add(&mut self, span: Span, difference: Option<Difference>) -> Result<(), AllocError> {
        if let Some(difference) = difference {
            self.found.push(DifferentSpelling { span, difference })?;
        }
        Ok(())
    }

    /// Looks at the children of a concatenation, each with the one before it.
    fn look_at_pairs(&mut self, concat: SpannedNode<'_>) -> Result<(), AllocError> {
        let mut before: Option<SpannedNode<'_>> = None;
        for child in concat.children() {
            if let Some(first) = before {
                let (span, next) = (first.span(), child.span());
                if span.end == next.start {
                    let text = first.text(self.pattern).unwrap_or("");
                    let brace = child.text(self.pattern).unwrap_or("");
                    self.add(span, of_pair(text, brace))?;
                }
            }
            before = Some(child);
        }
        Ok(())
    }

    /// Looks at a conditional, whose condition comes first.
    fn look_at_condition(&mut self, conditional: SpannedNode<'_>) -> Result<(), AllocError> {
        let Some(condition) = conditional.children().next() else {
            return Ok(());
        };
        let text = conditional.text(self.pattern).unwrap_or("");
        let inside = condition.text(self.pattern).unwrap_or("");
        self.add(
            condition.span(),
            of_condition(condition.expr(), text, inside),
        )
    }

    /// Looks at a class, or an escape for one.
    fn look_at_class(&mut self, class: SpannedNode<'_>) -> Result<(), AllocError> {
        let Span { start, .. } = class.span();
        let text = class.text(self.pattern).unwrap_or("");
        for item in &items_in(*self.found.allocator(), text)? {
            self.add(item.span_from(start), Some(item.difference))?;
        }
        Ok(())
    }

    /// Looks at a node.
    fn look_at(&mut self, node: SpannedNode<'_>) -> Result<(), AllocError> {
        let text = node.text(self.pattern).unwrap_or("");
        match node.expr() {
            Expr::Concat(_) => self.look_at_pairs(node),
            Expr::Conditional { .. } => self.look_at_condition(node),
            Expr::Delegate { .. } if text.starts_with('[') => self.look_at_class(node),
            Expr::Repeat { .. } => self.add(node.span(), of_repeat(node.expr(), text)),
            leaf => self.add(node.span(), of_leaf(leaf, text)),
        }
    }
}

/// The spellings that other dialects read otherwise, in preorder of the nodes of the pattern's tree, which are given. A flag has
/// no node: see `of_flag`.
pub fn spellings(
    alloc: Global,
    pattern: &str,
    nodes: &[SpannedNode<'_>],
) -> Result<Vec<DifferentSpelling>, AllocError> {
    let mut all = SpellingSearch {
        pattern,
        found: Vec::new(alloc),
    };
    for node in nodes {
        all.look_at(*node)?;
    }
    Ok(all.found)
}

/// What another dialect reads in a flag of this letter that is set. `rest` is the text after the letter, and `is_first`
/// says that the letter is the first one of its group.
pub fn of_flag(letter: char, rest: &str, is_first: bool, is_oniguruma: bool) -> Option<Difference>
    ensures line { result ≡ Some difference.LineFlag → is_oniguruma ≡ true }
    ensures bare { result ≡ Some difference.RecursionFlag → is_first ≡ true }
{
    match letter {
        'R' if is_first && rest.starts_with(')') => Some(Difference::RecursionFlag),
        'U' => Some(Difference::GreedFlag),
        'm' if is_oniguruma => Some(Difference::LineFlag),
        _ => None,
    }
}
