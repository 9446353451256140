//! The fast path of the parser: leaves that a look ahead reads whole, and the test that no quantifier follows. Most atoms
//! are such a leaf, and most have no quantifier.
//!
//! `read_step` reads the same leaves to the same trees. So whatever is here can be deleted with its calls, and each result
//! stays as it is; what each reader saves is in the measurements.
ghost use Rattle.std.specs.Prelude.{◌≡◌, ◌<◌, ℕ, true, [], ◌∷◌, length, chars, is_some, IfSome};
ghost use Rattle.fancy_lex.specs.Characters.{code};
ghost use Rattle.fancy_lex.specs.EscapeViews.{escape_of};
ghost use Rattle.fancy_lex.specs.LayoutSteps.{after_comment_start};
ghost use Rattle.fancy_grammar.specs.AtomStart.{leaf_node};
ghost use Rattle.fancy_syntax.specs.Log.{Log};
ghost use Rattle.fancy_syntax.specs.Machine.{IsPlainLeaf};
ghost use Rattle.fancy_syntax.specs.Recording.{quants_recorded};
ghost use Rattle.fancy_syntax.specs.Parsed.{state};
ghost use Rattle.fancy_grammar.specs.Plain as spec;
ghost use Rattle.fancy_grammar.specs.Quantified.{quants};
ghost use Rattle.fancy_grammar.specs.State.{at, done};
ghost use Rattle.fancy_grammar.specs.Tree.{Tree, literal};

use crate::grammar::spanning::Spanning;
use crate::grammar::state::State;
use fancy_lex::escape::Escaped;
use fancy_lex::escape::fast_path::short_escape;
use fancy_lex::layout::is_layout;
use fancy_lex::text::{after, next};

/// The character at the front and what follows it, if it is a literal.
#[inline(always)]
pub(crate) fn plain<'a>(current: State<'a>) -> Option<(char, &'a str)>
    ensures plain { IfSome result (λ p. IsPlainLeaf (state current.entry)
        (literal (p.0 ∷ []) current.entry.flags.casei) (at (state current.entry) (chars p.1.now))) }
    ensures shorter { IfSome result (λ p. length p.1.now < length current.entry.rest.now) }
{
    let (c, rest) = next(current.rest)?;
    if is_special(c) || is_layout(current.flags.ignore_space, c) {
        return None;
    }
    Some((c, rest))
}

/// The leaf of the escape at the front and what follows it, if a look ahead reads all of it. Each way to record spans
/// has a copy of its own, which is inlined at its call.
#[inline(always)]
pub(crate) fn plain_escape<'a, S: Spanning>(current: State<'a>) -> Option<(Escaped<'a>, &'a str)>
    ensures plain { IfSome result (λ p. IsPlainLeaf (state current.entry) (leaf_node (escape_of p.0))
        (at (state current.entry) (chars p.1.now))) }
    ensures shorter { IfSome result (λ p. length p.1.now < length current.entry.rest.now) }
{
    let text = after(current.rest, '\\')?;
    let (leaf, rest) = short_escape(text, current.flags)?;
    Some((leaf, rest))
}

/// Whether one look ahead shows that no quantifier follows, and no layout before one.
#[inline(always)]
pub(crate) fn is_unquantified(current: State) -> bool
    ensures quants { result ≡ true → (d left : ℕ) (a : Tree) →
        quants d left a (state current.entry) ≡ done a (state current.entry) }
    ensures spans { result ≡ true → (left : ℕ) (a : Tree) (l : Log) →
        quants_recorded left (done a (state current.entry)) l ≡ l }
{
    let Some((c, rest)) = next(current.rest) else {
        return true;
    };
    if c == '(' {
        return !begins_comment(rest);
    }
    !is_suffix(c) && !is_layout(current.flags.ignore_space, c)
}

/// Whether the character begins something other than a literal.
#[inline]
fn is_special(c: char) -> bool
    ensures { result ≡ spec.is_special c }
{
    c == '('
        || c == ')'
        || c == '|'
        || c == '.'
        || c == '^'
        || c == '$'
        || c == '\\'
        || c == '['
        || c == '*'
        || c == '+'
        || c == '?'
}

/// Whether the character may begin a quantifier, or a comment before one.
#[inline]
fn is_suffix(c: char) -> bool
    ensures { result ≡ spec.is_suffix c }
{
    c == '(' || c == '*' || c == '+' || c == '?' || c == '{'
}

/// Whether the text, which follows a parenthesis, makes it the start of a comment. It is a function of its own: inlined,
/// it would cost each leaf registers.
#[inline(never)]
fn begins_comment(text: &str) -> bool
    ensures { result ≡ is_some (after_comment_start (code "(" ∷ chars text.now)) }
{
    let Some(rest) = after(text, '?') else {
        return false;
    };
    after(rest, '#').is_some()
}
