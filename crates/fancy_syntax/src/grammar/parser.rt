//! The state of the loop that reads the raw tree of a text.
ghost use Rattle.std.specs.Prelude.{◌≡◌, ◌∷◌, [], ◌++◌, ◌<◌, ◌≤◌, ◌+◌, ◌^◌, true, false, List, length, chars, vec_len, vec_capacity};
ghost use Rattle.std.specs.Prelude.{Some, None, IfOk, OnOk, MatchOption, MatchResult, if◌then◌else◌};
ghost use Rattle.fancy_grammar.specs.Tree.{Tree};
ghost use Rattle.fancy_lex.specs.Characters.{code};
ghost use Rattle.fancy_lex.specs.Text.{reach_of, strip};
ghost use Rattle.fancy_grammar.specs.Depth.{max_depth};
ghost use Rattle.fancy_grammar.specs.Errors.{IsErrorAmong};
ghost use Rattle.fancy_grammar.specs.Grammar.{Alternation};
ghost use Rattle.fancy_grammar.specs.State.{ends};
ghost use Rattle.fancy_grammar.specs.State as states;
ghost use Rattle.fancy_syntax.specs.Found.{FindsMore, items_in, openings_found};
ghost use Rattle.fancy_syntax.specs.Log.{Log, leaf_recorded};
ghost use Rattle.fancy_syntax.specs.Machine.{HasRead, HasReadTo, IsReadTo, IsPlainLeaf};
ghost use Rattle.fancy_syntax.specs.Parsed.{state};
ghost use Rattle.fancy_syntax.specs.StackCapacity.{groups_at_once, HasStackCapacity, IsReserved};
ghost use Rattle.fancy_syntax.specs.View.{view, views};

use crate::expr::Expr;
use crate::grammar::atom::{leaf_node, literal};
use crate::grammar::fast_path::{plain, plain_escape};
use crate::grammar::found::FoundGroups;
use crate::grammar::frame::{Enclosing, Frame, OpenPart, PieceStart};
use crate::grammar::spanning::Spanning;
use crate::grammar::state::State;
use crate::grammar::step::{close, quantify_last, read_step};
use crate::grammar::trees::push;
use fancy_grammar::depth::MAX_DEPTH;
use fancy_lex::error::ReadError;
use fancy_lex::text::{byte_len, reach};
use memchr::memchr;
use std::alloc::{AllocError, Global};
use std::mem;

/// What has been read of a text so far.
#[derive(Drop)]
pub(crate) struct Parser<'a> {
    /// The flags that hold, and the rest of the text.
    pub(crate) current: State<'a>,
    /// The innermost open group.
    pub(crate) frame: Frame<'a>,
    /// The groups around it, the innermost last. It has capacity for all groups that can be open at once in the text.
    pub(crate) stack: Vec<Enclosing<'a>>,
    /// The trees that are in no other tree yet: those of all open groups, one above the other.
    pub(crate) trees: Vec<Expr>,
    /// What was found of the groups and references in it.
    pub(crate) found: FoundGroups,
}

/// The initial capacity, in trees: a few more than most patterns have side by side.
///
/// If it takes more than 1,024 bytes, malloc merges its free blocks at each request, and then returns the small blocks
/// of a tree slowly.
const TREES: usize = 13;

impl<'a> Parser<'a> {
    /// A parser that has read nothing yet.
    #[inline(always)]
    pub(crate) fn new(alloc: Global, start: State<'a>) -> Result<Parser<'a>, AllocError>
        ensures current { IfOk result (λ r. r.current ≡ start.entry) }
        ensures depth { IfOk result (λ r. length r.stack.items < max_depth) }
        ensures reading { (l : Log) → IfOk result (λ r. HasRead (state start.entry) l r l) }
        ensures reserved { IfOk result (λ r. HasStackCapacity r (chars start.entry.rest.now)) }
        ensures count { IfOk result (λ r. openings_found r.found ≡ 0) }
    {
        let mut parser = Parser {
            current: start,
            frame: Frame::new(OpenPart::Top, 0),
            stack: Vec::new(alloc),
            trees: Vec::with_capacity(alloc, TREES)?,
            found: FoundGroups::new(alloc, start.flags.ignore_numbered_groups),
        };
        parser.stack.reserve_exact(groups_at_once(start.rest))?;
        Ok(parser)
    }

    /// Reads the leaf at the front and its quantifiers if a look ahead reads all of the leaf, and returns whether it
    /// does. A returned error is the error of the text.
    #[inline(always)]
    pub(crate) fn add_leaf<S: Spanning>(
        &mut self,
        alloc: Global,
        spans: &mut S,
    ) -> Result<bool, ReadError>
        requires depth { length self.old.stack.items < max_depth }
        ensures reading { (start : states.State) (none l : Log) → HasRead start none self.old l →
            MatchResult result
            (λ _. HasReadTo start none self.new (λ m. S.records spans.old l → S.records spans.new m))
            (λ e. IsErrorAmong e (Alternation 0 start)) }
        ensures stack { self.new.stack ≡ self.old.stack }
        ensures count { openings_found self.new.found ≡ openings_found self.old.found }
        ensures within { length self.new.current.rest.now ≤ length self.old.current.rest.now }
        ensures shorter { IfOk result (λ found. found ≡ true →
            length self.new.current.rest.now < length self.old.current.rest.now) }
    {
        let left = byte_len(self.current.rest);
        if !read_leaf(
            alloc,
            &mut self.trees,
            &mut self.current,
            &mut self.found,
            spans,
        )? {
            return Ok(false);
        }
        let depth = self.stack.len();
        quantify_last(
            alloc,
            &mut self.trees,
            &mut self.current,
            left,
            depth,
            spans,
        )?;
        Ok(true)
    }

    /// Reads a piece, or the opening of a group. A returned error is the error of the text.
    #[inline(always)]
    pub(crate) fn step<S: Spanning>(
        &mut self,
        alloc: Global,
        spans: &mut S,
    ) -> Result<(), ReadError>
        requires reserved { IsReserved self.old }
        requires bound { openings_found self.old.found + length self.old.current.rest.now < 2 ^ 64 }
        requires depth { length self.old.stack.items < max_depth }
        requires more { ends (chars self.old.current.rest.now) ≡ false }
        ensures reading { (start : states.State) (none l : Log) → HasRead start none self.old l →
            MatchResult result
            (λ _. HasReadTo start none self.new (λ m. S.records spans.old l → S.records spans.new m))
            (λ e. IsErrorAmong e (Alternation 0 start)) }
        ensures depth { OnOk result (length self.new.stack.items < max_depth) }
        ensures capacity { OnOk result (vec_capacity self.new.stack ≡ vec_capacity self.old.stack) }
        ensures shorter { OnOk result (length self.new.current.rest.now < length self.old.current.rest.now) }
        ensures count { OnOk result (openings_found self.new.found + length self.new.current.rest.now ≤
            openings_found self.old.found + length self.old.current.rest.now) }
    {
        let start = PieceStart {
            left: byte_len(self.current.rest),
            flags: self.current.flags,
        };
        let depth = self.stack.len();
        let opened = read_step(
            alloc,
            &mut self.trees,
            &mut self.current,
            depth,
            &mut self.found,
            spans,
        )?;
        let Some(open_part) = opened else {
            return Ok(());
        };
        self.open(open_part, start);
        Ok(())
    }

    /// Ends the open branch at the bar at the front, which `rest` follows. A returned error is the error of the text.
    #[inline(always)]
    pub(crate) fn bar<S: Spanning>(
        &mut self,
        alloc: Global,
        rest: &'a str,
        spans: &mut S,
    ) -> Result<(), ReadError>
        requires pieces { self.old.frame.pieces ≤ vec_len self.old.trees }
        requires last { ends (chars self.old.current.rest.now) ≡ true }
        requires bar { strip (code "|") (chars self.old.current.rest.now) ≡ Some (chars rest.now) }
        ensures reading { (start : states.State) (none l : Log) → HasRead start none self.old l →
            MatchResult result
            (λ _. HasReadTo start none self.new (λ m. S.records spans.old l → S.records spans.new m))
            (λ e. IsErrorAmong e (Alternation 0 start)) }
        ensures stack { self.new.stack ≡ self.old.stack }
        ensures rest { OnOk result (self.new.current.rest ≡ rest.entry) }
        ensures found { OnOk result (self.new.found ≡ self.old.found) }
    {
        let bar = reach(self.current.rest);
        self.frame.bar(alloc, &mut self.trees, bar, spans)?;
        spans.next_branch(reach(rest));
        self.current.rest = rest;
        Ok(())
    }

    /// Ends the innermost group if neither a piece nor a bar follows. Returns the tree of the text if no group is
    /// around it. A returned error is the error of the text.
    #[inline(always)]
    pub(crate) fn close<S: Spanning>(
        &mut self,
        alloc: Global,
        spans: &mut S,
    ) -> Result<Option<Expr>, ReadError>
        requires depth { length self.old.stack.items < max_depth }
        requires branches { self.old.frame.branches ≤ self.old.frame.pieces }
        requires pieces { self.old.frame.pieces ≤ vec_len self.old.trees }
        requires last { ends (chars self.old.current.rest.now) ≡ true }
        requires no_bar { strip (code "|") (chars self.old.current.rest.now) ≡ None }
        ensures reading { (start : states.State) (none l : Log) → HasRead start none self.old l →
            MatchResult result (λ found. MatchOption found
            (HasReadTo start none self.new (λ m. S.records spans.old l → S.records spans.new m))
            (λ tree. IsReadTo start none (view tree) (state self.new.current) self.new.found
            (λ m. S.records spans.old l → S.records spans.new m)))
            (λ e. IsErrorAmong e (Alternation 0 start)) }
        ensures found { OnOk result (self.new.found ≡ self.old.found) }
        ensures depth { OnOk result (length self.new.stack.items < max_depth) }
        ensures capacity { OnOk result (vec_capacity self.new.stack ≡ vec_capacity self.old.stack) }
        ensures shorter { IfOk result (λ found. MatchOption found
            (length self.new.current.rest.now < length self.old.current.rest.now)
            (λ _. self.new.current ≡ self.old.current)) }
    {
        let end = reach(self.current.rest);
        let Some(Enclosing { frame, piece }) = self.stack.pop() else {
            return Ok(Some(self.frame.finish(alloc, &mut self.trees, end, spans)?));
        };
        self.frame.join(alloc, &mut self.trees, end, spans)?;
        let Frame { open_part, .. } = mem::replace(&mut self.frame, frame);
        let depth = self.stack.len();
        let opened = close(
            alloc,
            &mut self.trees,
            open_part,
            piece,
            &mut self.current,
            depth,
            spans,
        )?;
        let Some(open_part) = opened else {
            return Ok(None);
        };
        self.open(open_part, piece);
        Ok(None)
    }

    /// Opens a group in the piece that begins at `start`. The stack has capacity for the group around it.
    #[inline(always)]
    fn open(&mut self, open_part: OpenPart<'a>, start: PieceStart)
        requires reserved { vec_len self.old.stack < vec_capacity self.old.stack }
        ensures stack { self.new.stack.items ≡
            self.old.stack.items ++ record { frame = self.old.frame; piece = start } ∷ [] }
        ensures open_part { self.new.frame.open_part ≡ open_part.entry }
        ensures branches { self.new.frame.branches ≡ vec_len self.old.trees }
        ensures pieces { self.new.frame.pieces ≡ vec_len self.old.trees }
        ensures trees { self.new.trees ≡ self.old.trees }
        ensures current { self.new.current ≡ self.old.current }
        ensures found { self.new.found ≡ self.old.found }
        ensures capacity { vec_capacity self.new.stack ≡ vec_capacity self.old.stack }
    {
        let inner = Frame::new(open_part, self.trees.len());
        let outer = Enclosing {
            frame: mem::replace(&mut self.frame, inner),
            piece: start,
        };
        push_enclosing(&mut self.stack, outer);
    }
}

/// Reads the leaf at the front if a look ahead reads all of it, and returns whether it does.
#[inline(always)]
fn read_leaf<S: Spanning>(
    alloc: Global,
    trees: &mut Vec<Expr>,
    current: &mut State,
    found: &mut FoundGroups,
    spans: &mut S,
) -> Result<bool, AllocError>
    ensures leaf { IfOk result (λ is_read. is_read ≡ true → (r : Tree) × IsPlainLeaf (state current.old) r (state current.new)
        × (views trees.new.items ≡ views trees.old.items ++ r ∷ [])) }
    ensures stays { IfOk result (λ is_read. is_read ≡ false →
        (current.new ≡ current.old) × (views trees.new.items ≡ views trees.old.items) × (found.new ≡ found.old)) }
    ensures spans { (l : Log) → S.records spans.old l → IfOk result (λ is_read. S.records spans.new
        (if is_read then leaf_recorded (reach_of (chars current.old.rest.now)) (reach_of (chars current.new.rest.now)) l
        else l)) }
    ensures found { IfOk result (λ _. (us : List Tree) → views trees.new.items ≡ views trees.old.items ++ us →
        FindsMore found.old found.new (items_in us)) }
    ensures count { openings_found found.new ≡ openings_found found.old }
    ensures within { length current.new.rest.now ≤ length current.old.rest.now }
    ensures shorter { IfOk result (λ is_read. is_read ≡ true → length current.new.rest.now < length current.old.rest.now) }
{
    if let Some((c, rest)) = plain(*current) {
        let leaf = literal(alloc, c, current.flags.casei)?;
        spans.record_leaf(reach(current.rest), reach(rest))?;
        push(trees, leaf)?;
        current.rest = rest;
        return Ok(true);
    }
    let Some((escaped, rest)) = plain_escape::<S>(*current) else {
        return Ok(false);
    };
    let leaf = leaf_node(alloc, escaped)?;
    found.record(&leaf);
    spans.record_leaf(reach(current.rest), reach(rest))?;
    push(trees, leaf)?;
    current.rest = rest;
    Ok(true)
}

/// Pushes a group on the stack, which has capacity for it. It is a function of its own: inlined, it would cost each
/// leaf registers.
#[inline(never)]
fn push_enclosing<'a>(stack: &mut Vec<Enclosing<'a>>, outer: Enclosing<'a>)
    requires reserved { vec_len stack.old < vec_capacity stack.old }
    ensures items { stack.new.items ≡ stack.old.items ++ outer.entry ∷ [] }
    ensures capacity { vec_capacity stack.new ≡ vec_capacity stack.old }
{
    stack.push_reserved(outer);
}

/// How many groups can be open at once in the text: as many as it has opening parentheses, and fewer than MAX_DEPTH.
#[inline(never)]
fn groups_at_once(text: &str) -> usize
    ensures { result ≡ groups_at_once (chars text.now) }
{
    let mut rest = text.as_bytes();
    let mut count = 0;
    while count < MAX_DEPTH - 1 {
        let Some(index) = memchr(b'(', rest) else {
            return count;
        };
        let (_, tail) = rest.split_at(index);
        rest = &tail[1..];
        count += 1;
    }
    count
}
