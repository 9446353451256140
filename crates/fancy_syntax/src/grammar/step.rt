//! The steps of the loop that read a piece, or continue with the next part of a group.
ghost use Rattle.std.specs.Prelude.{◌≡◌, ◌+◌, ◌^◌, ◌<◌, ◌≤◌, Bool, true, false, List, [], ◌∷◌, ◌++◌, length, chars, vec_len, IfOk, OnOk};
ghost use Rattle.std.specs.Prelude.{IfSome, None};
ghost use Rattle.fancy_lex.specs.Characters.{code};
ghost use Rattle.fancy_lex.specs.Text.{bytes, strip};
ghost use Rattle.fancy_grammar.specs.State.{ends};
ghost use Rattle.fancy_grammar.specs.Depth.{max_depth};
ghost use Rattle.fancy_grammar.specs.Items.{items};
ghost use Rattle.fancy_syntax.specs.Decided.{decided, all_decided};
ghost use Rattle.fancy_syntax.specs.Found.{FindsMore, openings_found};
ghost use Rattle.fancy_syntax.specs.Log.{Log};
ghost use Rattle.fancy_syntax.specs.Machine as machine;
ghost use Rattle.fancy_syntax.specs.Machine.{OpensPart, Part, IsPart, GivesStep, EndsPiece, part_of, TurnsLast};
ghost use Rattle.fancy_syntax.specs.Recording.{added, quants_recorded};
ghost use Rattle.fancy_syntax.specs.Parsed.{state};
ghost use Rattle.fancy_grammar.specs.Quantified.{quants};
ghost use Rattle.fancy_grammar.specs.State as states;
ghost use Rattle.fancy_grammar.specs.Tree.{Tree};
ghost use Rattle.fancy_syntax.specs.View.{views};

use crate::expr::Expr;
use crate::grammar::atom::read_atom_start;
use crate::grammar::atom_start::AtomStart;
use crate::grammar::fast_path::is_unquantified;
use crate::grammar::found::FoundGroups;
use crate::grammar::frame::{OpenPart, PieceStart};
use crate::grammar::part_end::end_part;
use crate::grammar::quantified::quantify;
use crate::grammar::spanning::Spanning;
use crate::grammar::state::{State, skip_layout};
use crate::grammar::trees::{leave_out_empty, push};
use fancy_lex::error::ReadError;
use fancy_lex::text::{byte_len, reach};
use std::alloc::Global;

/// Reads a piece and adds its tree to the list, unless it is Empty; or reads the opening of a group, up to its contents,
/// and returns the group. A returned error is the error of the piece.
pub(crate) fn read_step<'a, S: Spanning>(
    alloc: Global,
    trees: &mut Vec<Expr>,
    current: &mut State<'a>,
    depth: usize,
    found: &mut FoundGroups,
    spans: &mut S,
) -> Result<Option<OpenPart<'a>>, ReadError>
    requires depth { depth < max_depth }
    requires more { ends (chars current.old.rest.now) ≡ false }
    requires bound { openings_found found.old + length current.old.rest.now < 2 ^ 64 }
    ensures value { (i : Bool) (l : Log) (ts : List Tree) → found.old.ignore ≡ i → views trees.old.items ≡ all_decided i ts →
        GivesStep i result depth (state current.old) l ts (views trees.new.items) (state current.new)
        (λ m js. (S.records spans.old l → S.records spans.new m) × FindsMore found.old found.new js) }
    ensures count { IfOk result (λ _. openings_found found.new + length current.new.rest.now ≤
        openings_found found.old + length current.old.rest.now) }
    ensures shorter { IfOk result (λ _. length current.new.rest.now < length current.old.rest.now) }
    ensures below { IfOk result (λ opened. IfSome opened (λ _. depth + 1 < max_depth)) }
{
    let left = byte_len(current.rest);
    let rest = skip_layout(*current)?;
    spans.pass_layout(*current, rest)?;
    current.rest = rest;
    let before = *current;
    let atom = read_atom_start(alloc, current, depth)?;
    spans.begin_atom(alloc, before, &atom, *current)?;
    match atom {
        AtomStart::Nothing => {
            push(trees, Expr::Empty)?;
            end_piece(alloc, trees, current, left, depth, spans)?;
            Ok(None)
        }
        AtomStart::Read(tree) => {
            found.record(&tree);
            push(trees, tree)?;
            end_piece(alloc, trees, current, left, depth, spans)?;
            Ok(None)
        }
        AtomStart::Group(kind) => {
            let kind = found.add(alloc, kind)?;
            let paren = reach(before.rest);
            Ok(Some(OpenPart::Group { kind, reach: paren }))
        }
        AtomStart::Condition => Ok(Some(OpenPart::Condition)),
        AtomStart::Body { condition, .. } => {
            found.record(&condition);
            Ok(Some(OpenPart::Body {
                condition,
                left: byte_len(current.rest),
            }))
        }
        AtomStart::AbsentBranch => Ok(Some(OpenPart::First)),
    }
}

/// Reads the quantifiers of the last tree, an atom, and leaves it out if it is Empty.
#[inline(always)]
fn end_piece<S: Spanning>(
    alloc: Global,
    trees: &mut Vec<Expr>,
    current: &mut State,
    left: usize,
    depth: usize,
    spans: &mut S,
) -> Result<(), ReadError>
    requires depth { depth < max_depth }
    requires some { 0 < vec_len trees.old }
    ensures value { (below : List Tree) (atom : Tree) (l : Log) → views trees.old.items ≡ below ++ atom ∷ [] →
        EndsPiece result (quants depth left atom (state current.old)) below (views trees.new.items) (state current.new)
        (λ piece. S.records spans.old l → S.records spans.new
        (added piece (quants_recorded left (states.done atom (state current.old)) l))) }
    ensures within { length current.new.rest.now ≤ length current.old.rest.now }
{
    quantify_last(alloc, trees, current, left, depth, spans)?;
    leave_out_empty(trees, spans);
    Ok(())
}

/// Reads the quantifiers of the last tree.
#[inline(always)]
pub(crate) fn quantify_last<S: Spanning>(
    alloc: Global,
    trees: &mut Vec<Expr>,
    current: &mut State,
    left: usize,
    depth: usize,
    spans: &mut S,
) -> Result<(), ReadError>
    requires depth { depth < max_depth }
    requires some { 0 < vec_len trees.old }
    ensures value { (below : List Tree) (tree : Tree) → views trees.old.items ≡ below ++ tree ∷ [] →
        TurnsLast result (views trees.new.items) below (state current.new) (quants depth left tree (state current.old)) }
    ensures length { vec_len trees.new ≡ vec_len trees.old }
    ensures within { length current.new.rest.now ≤ length current.old.rest.now }
    ensures spans { (below : List Tree) (tree : Tree) (l : Log) → views trees.old.items ≡ below ++ tree ∷ [] →
        S.records spans.old l →
        OnOk result (S.records spans.new (quants_recorded left (states.done tree (state current.old)) l)) }
{
    // Usually no quantifier follows: this saves a call for each piece.
    if is_unquantified(*current) {
        return Ok(());
    }
    quantify_some(alloc, trees, current, left, depth, spans)
}

/// Reads the quantifiers of the last tree, whatever follows it. It is a function of its own: inlined, it would cost each
/// leaf registers.
#[inline(never)]
fn quantify_some<S: Spanning>(
    alloc: Global,
    trees: &mut Vec<Expr>,
    current: &mut State,
    left: usize,
    depth: usize,
    spans: &mut S,
) -> Result<(), ReadError>
    requires depth { depth < max_depth }
    requires some { 0 < vec_len trees.old }
    ensures value { (below : List Tree) (tree : Tree) → views trees.old.items ≡ below ++ tree ∷ [] →
        TurnsLast result (views trees.new.items) below (state current.new) (quants depth left tree (state current.old)) }
    ensures length { vec_len trees.new ≡ vec_len trees.old }
    ensures within { length current.new.rest.now ≤ length current.old.rest.now }
    ensures spans { (below : List Tree) (tree : Tree) (l : Log) → views trees.old.items ≡ below ++ tree ∷ [] →
        S.records spans.old l →
        OnOk result (S.records spans.new (quants_recorded left (states.done tree (state current.old)) l)) }
{
    let last = trees.len() - 1;
    quantify(alloc, &mut trees[last], current, left, depth, spans)
}

/// Ends a part that no bar follows, and whose contents are the last tree: the piece ends with it, and its tree is the last
/// unless it is Empty; or the next part of the same group opens, and is returned. A quantifier after the piece is read
/// under the flags at the start of the piece. A returned error is the error of the piece.
pub(crate) fn close<'a, S: Spanning>(
    alloc: Global,
    trees: &mut Vec<Expr>,
    open_part: OpenPart<'a>,
    start: PieceStart,
    current: &mut State<'a>,
    depth: usize,
    spans: &mut S,
) -> Result<Option<OpenPart<'a>>, ReadError>
    requires depth { depth < max_depth }
    requires some { 0 < vec_len trees.old }
    requires last { ends (chars current.old.rest.now) ≡ true }
    requires no_bar { strip (code "|") (chars current.old.rest.now) ≡ None }
    ensures value { (i : Bool) (below : List Tree) (inner : Tree) (p : machine.OpenPart) (s t : states.State) (l m n : Log) →
        views trees.old.items ≡ all_decided i below ++ decided i inner ∷ [] → IsPart i open_part.entry p →
        start.left ≡ bytes s.rest → start.flags ≡ s.flags → OpensPart depth s l p t m →
        Part p (depth + 1) t (states.done inner (state current.old)) m n →
        GivesStep i result depth s l below (views trees.new.items) (state current.new)
        (λ k js. (S.records spans.old n → S.records spans.new k) × (js ≡ machine.items_opening p ++ items inner)) }
    ensures shorter { IfOk result (λ _. length current.new.rest.now < length current.old.rest.now) }
{
    let has_body = has_body_next(&open_part);
    let last = trees.len() - 1;
    end_part(alloc, open_part, &mut trees[last], current, spans)?;
    if !has_body {
        current.flags = start.flags;
        end_piece(alloc, trees, current, start.left, depth, spans)?;
        return Ok(None);
    }
    let condition = Box::new(alloc, trees.take_last())?;
    let left = byte_len(current.rest);
    Ok(Some(OpenPart::Body { condition, left }))
}

/// Whether the atom continues after the open part: the body of a conditional follows its condition.
fn has_body_next(open_part: &OpenPart) -> bool
    ensures { result ≡ machine.has_body_next (part_of open_part.now) }
{
    matches!(open_part, OpenPart::Condition)
}
