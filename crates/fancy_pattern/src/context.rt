//! The context in which a text is written.
ghost use Rattle.std.specs.Prelude.{◌≡◌, ◌∷◌, List, OnOk, IfSome, IfNone};
ghost use Rattle.fancy_lex.specs.declared.flags.Flags.{Flags};
ghost use Rattle.fancy_grammar.specs.Pattern as spec;
ghost use Rattle.fancy_grammar.specs.PatternNeeds.{with_needs};
ghost use Rattle.fancy_grammar.specs.declared.needs.Needs.{Needs};
ghost use Rattle.fancy_pattern.specs.ContextViews.{Known, IsListFor, IsContext};
ghost use Rattle.fancy_pattern.specs.Writers.{Moves, Passes, Leaves, Sets};

use crate::needs::{no_needs, with_needs};
use fancy_grammar::depth::MAX_DEPTH;
use fancy_grammar::needs::Needs;
use fancy_lex::flags::Flags;
use std::alloc::AllocError;

/// The context in which a text is written.
#[derive(Clone, Copy)]
pub(crate) struct Context<'a> {
    /// The flags that hold there.
    pub(crate) flags: Flags,
    /// How many groups with a number opened before it.
    pub(crate) opened: usize,
    /// How many levels are left: one more than the groups that may still open in it.
    pub(crate) left: usize,
    /// The needs of each node from there on, in preorder, or nothing if the flags meet them all.
    pub(crate) needs: &'a [Needs],
}

impl<'a> Context<'a> {
    /// The context at the start of a pattern.
    pub(crate) fn at_start(flags: Flags, needs: &'a [Needs]) -> Context<'a>
        ensures { (k : Known) (l : List Needs) → IsListFor k flags needs.now l →
            IsContext k result (record { flags = flags; opened = 0; depth = 0 }) l }
    {
        Context {
            flags,
            opened: 0,
            left: MAX_DEPTH,
            needs,
        }
    }

    /// Passes the next node, and returns its needs, if they are listed. If not, the flags meet them.
    #[inline(always)]
    pub(crate) fn next_listed(&mut self) -> Option<&'a Needs>
        ensures passes { Passes self.old self.new }
        ensures some { IfSome result (λ needs. (k : Known) (h : spec.Context) (n : Needs) (l : List Needs) →
            IsContext k self.old h (n ∷ l) → needs.now ≡ n) }
        ensures none { IfNone result ((k : Known) (h : spec.Context) (n : Needs) (l : List Needs) →
            IsContext k self.old h (n ∷ l) → h.flags ≡ with_needs h.flags n) }
    {
        match self.needs {
            [first, rest @ ..] => {
                self.needs = rest;
                Some(first)
            }
            [] => None,
        }
    }

    /// Passes the next node, and returns its needs, or none if the flags meet them.
    pub(crate) fn next_node(&mut self) -> Needs
        ensures { (k : Known) (h : spec.Context) (n : Needs) (l : List Needs) → IsContext k self.old h (n ∷ l) →
            (with_needs h.flags result ≡ with_needs h.flags n) × IsContext k self.new h l }
    {
        match self.next_listed() {
            Some(needs) => *needs,
            None => no_needs(),
        }
    }

    /// Passes the next node.
    pub(crate) fn pass_node(&mut self)
        ensures { Passes self.old self.new }
    {
        let _listed = self.next_listed();
    }

    /// Sets the flags to what is needed.
    pub(crate) fn set(&mut self, needs: Needs)
        ensures flags { self.new.flags ≡ with_needs self.old.flags needs }
        ensures context { Sets self.old self.new needs (λ h. h) }
    {
        self.flags = with_needs(self.flags, needs);
    }

    /// Enters a group.
    pub(crate) fn enter(&mut self)
        ensures { Moves self.old self.new spec.deeper }
    {
        self.left = self.left.saturating_sub(1);
    }

    /// Counts a group with a number. A word can hold the count: memory has no capacity for more groups.
    pub(crate) fn count_opening(&mut self) -> Result<(), AllocError>
        ensures { OnOk result (Moves self.old self.new (spec.past_groups 1)) }
    {
        self.opened = self.opened.checked_add(1).ok_or(AllocError)?;
        Ok(())
    }

    /// Leaves a group that is at `outside`: the flags from before are in effect again.
    pub(crate) fn leave(&mut self, outside: &Context)
        ensures { Leaves outside.now self.old self.new }
    {
        self.flags = outside.flags;
        self.left = outside.left;
    }
}
