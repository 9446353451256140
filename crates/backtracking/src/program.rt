//! A pattern as the instructions of a backtracking engine, for trials.
use crate::known_sets::KnownSets;
use crate::width::width_of;
use class_meaning::CharacterSet;
use fancy_syntax::expr::{Assertion, BacktrackingControlVerb, Expr, LookAround};
use std::alloc::{AllocError, Global};
use thiserror::Error;

/// The most instructions of a program.
const MOST_INSTRUCTIONS: usize = 5000;

/// Why there is no program of a pattern.
#[derive(Debug, Drop, Error)]
pub(crate) enum NotWritten {
    /// Out of memory.
    #[error("out of memory")]
    Memory(#[from(alloc)] AllocError),
    /// It holds what is not tried, as a call, or the program would be too large.
    #[error("not tried")]
    NotTried,
}

/// An instruction. Others are given by their indices; the next one follows, unless it is said otherwise.
#[derive(Clone, Copy)]
pub(crate) enum Instruction {
    /// Matches a character of the set at the index.
    Character(usize),
    /// Matches a newline, or `\r\n`.
    Newline,
    /// Goes on where the assertion holds.
    Assert(Assertion),
    /// Goes on at the first, and at the second if that fails.
    Choose(usize, usize),
    /// Goes on at this one.
    Jump(usize),
    /// Keeps the position in a slot.
    Save(usize),
    /// Goes on if a character was matched since the position was kept.
    Moved(usize),
    /// Keeps in a slot how many choices are open.
    Open(usize),
    /// Forgets the choices since then.
    Close(usize),
    /// Goes back to the position in a slot.
    Return(usize),
    /// Goes back by so many characters.
    Back(usize),
    /// Matches what the group has matched.
    Refer(usize),
    /// Goes on if the group has matched.
    HasMatched(usize),
    /// Goes on nowhere.
    Fail,
    /// The end of the pattern.
    End,
}

/// The instructions of a pattern.
#[derive(Drop)]
pub(crate) struct Program {
    pub(crate) instructions: Vec<Instruction>,
    /// The sets of characters.
    pub(crate) sets: Vec<CharacterSet>,
    /// How many slots it uses. The first two of each group have its start and its end.
    pub(crate) slots: usize,
}

/// A program that grows.
#[derive(Drop)]
struct Writing<'s, 'a, 'k> {
    alloc: Global,
    sets: &'s mut KnownSets<'a, 'k>,
    program: Program,
    /// The number of the last group.
    group: usize,
}

/// The slot of the start of a group; the next one has its end.
pub(crate) fn slot_of(group: usize) -> usize {
    group.saturating_mul(2)
}

impl<'s, 'a, 'k> Writing<'s, 'a, 'k> {
    /// Adds the instruction, and returns its index.
    fn add(&mut self, instruction: Instruction) -> Result<usize, NotWritten> {
        let at = self.program.instructions.len();
        if at >= MOST_INSTRUCTIONS {
            return Err(NotWritten::NotTried);
        }
        self.program.instructions.push(instruction)?;
        Ok(at)
    }

    /// The index of the next instruction.
    fn next(&self) -> usize {
        self.program.instructions.len()
    }

    /// Replaces the instruction.
    fn set(&mut self, at: usize, instruction: Instruction) {
        if let Some(old) = self.program.instructions.get_mut(at) {
            *old = instruction;
        }
    }

    /// A new slot.
    fn slot(&mut self) -> usize {
        let slot = self.program.slots;
        self.program.slots = slot.saturating_add(1);
        slot
    }

    /// Adds the instructions of the tree.
    #[cycle(add_tree)]
    fn add_tree(&mut self, tree: &'a Expr) -> Result<(), NotWritten> {
        match tree {
            Expr::Empty | Expr::KeepOut => {}
            Expr::Assertion(assertion) => {
                self.add(Instruction::Assert(*assertion))?;
            }
            Expr::ContinueFromPreviousMatchEnd => {
                self.add(Instruction::Assert(Assertion::StartText))?;
            }
            Expr::Any { .. } | Expr::Literal { .. } | Expr::Delegate { .. } => {
                self.add_character(tree)?;
            }
            Expr::GeneralNewline { .. } => {
                self.add(Instruction::Newline)?;
            }
            Expr::Concat(trees) => self.add_all(trees)?,
            Expr::Alt(branches) => self.add_branches(branches)?,
            Expr::Group(child) => self.add_group(child)?,
            Expr::AtomicGroup(child) => self.add_atomic(child)?,
            Expr::LookAround(child, kind) => self.add_look_around(child, *kind)?,
            Expr::Repeat {
                child,
                lo,
                hi,
                greedy,
            } => self.add_repeat(child, *lo, *hi, *greedy)?,
            Expr::Backref { group, .. } => {
                self.add(Instruction::Refer(*group))?;
            }
            Expr::BackrefExistsCondition { group, .. } => {
                self.add(Instruction::HasMatched(*group))?;
            }
            Expr::Conditional {
                condition,
                true_branch,
                false_branch,
            } => self.add_conditional(condition, true_branch, false_branch)?,
            Expr::BacktrackingControlVerb(BacktrackingControlVerb::Fail) => {
                self.add(Instruction::Fail)?;
            }
            Expr::LiteralBytes { .. }
            | Expr::BackrefWithRelativeRecursionLevel { .. }
            | Expr::SubroutineCall(_)
            | Expr::BacktrackingControlVerb(_)
            | Expr::Absent(_)
            | Expr::DefineGroup { .. }
            | Expr::AstNode(..) => return Err(NotWritten::NotTried),
        }
        Ok(())
    }

    /// Adds the instructions of the trees, one after another.
    #[cycle(add_tree)]
    fn add_all(&mut self, trees: &'a [Expr]) -> Result<(), NotWritten> {
        for tree in trees {
            self.add_tree(tree)?;
        }
        Ok(())
    }

    /// Adds the instructions of the branches, each of which is tried if those before it fail.
    #[cycle(add_tree)]
    fn add_branches(&mut self, branches: &'a [Expr]) -> Result<(), NotWritten> {
        let mut ends = Vec::new(self.alloc);
        for branch in branches {
            let choice = self.add(Instruction::Fail)?;
            self.add_tree(branch)?;
            let end = self.add(Instruction::Fail)?;
            ends.push(end)?;
            let (first, second) = (choice.saturating_add(1), self.next());
            self.set(choice, Instruction::Choose(first, second));
        }
        self.add(Instruction::Fail)?;
        let next = self.next();
        for end in &ends {
            self.set(*end, Instruction::Jump(next));
        }
        Ok(())
    }

    /// Adds the instructions of the tree as a group.
    #[cycle(add_tree)]
    fn add_group(&mut self, tree: &'a Expr) -> Result<(), NotWritten> {
        self.group = self.group.saturating_add(1);
        let slot = slot_of(self.group);
        self.add(Instruction::Save(slot))?;
        self.add_tree(tree)?;
        self.add(Instruction::Save(slot.saturating_add(1)))?;
        Ok(())
    }

    /// Adds the instructions of the tree as an atomic group.
    #[cycle(add_tree)]
    fn add_atomic(&mut self, tree: &'a Expr) -> Result<(), NotWritten> {
        let choices = self.slot();
        self.add(Instruction::Open(choices))?;
        self.add_tree(tree)?;
        self.add(Instruction::Close(choices))?;
        Ok(())
    }

    /// Adds the instructions of a look-around.
    #[cycle(add_tree)]
    fn add_look_around(&mut self, tree: &'a Expr, kind: LookAround) -> Result<(), NotWritten> {
        let (is_negative, looks_back) = match kind {
            LookAround::LookAhead => (false, false),
            LookAround::LookAheadNeg => (true, false),
            LookAround::LookBehind => (false, true),
            LookAround::LookBehindNeg => (true, true),
        };
        let choices = self.slot();
        let position = self.slot();
        self.add(Instruction::Open(choices))?;
        self.add(Instruction::Save(position))?;
        let choice = self.add(Instruction::Fail)?;
        if looks_back {
            let Some(width) = width_of(tree) else {
                return Err(NotWritten::NotTried);
            };
            self.add(Instruction::Back(width))?;
        }
        self.add_tree(tree)?;
        self.add(Instruction::Close(choices))?;
        let first = choice.saturating_add(1);
        if is_negative {
            self.add(Instruction::Fail)?;
            let second = self.next();
            self.set(choice, Instruction::Choose(first, second));
        } else {
            self.add(Instruction::Return(position))?;
            self.set(choice, Instruction::Jump(first));
        }
        Ok(())
    }

    /// Adds the instructions of a conditional.
    #[cycle(add_tree)]
    fn add_conditional(
        &mut self,
        condition: &'a Expr,
        true_branch: &'a Expr,
        false_branch: &'a Expr,
    ) -> Result<(), NotWritten> {
        let choices = self.slot();
        self.add(Instruction::Open(choices))?;
        let choice = self.add(Instruction::Fail)?;
        self.add_tree(condition)?;
        self.add(Instruction::Close(choices))?;
        self.add_tree(true_branch)?;
        let end = self.add(Instruction::Fail)?;
        let (first, second) = (choice.saturating_add(1), self.next());
        self.set(choice, Instruction::Choose(first, second));
        self.add_tree(false_branch)?;
        let next = self.next();
        self.set(end, Instruction::Jump(next));
        Ok(())
    }

    /// Adds the instructions of a repeat: a copy of the tree for each turn, or a loop after those that are needed.
    #[cycle(add_tree)]
    fn add_repeat(
        &mut self,
        tree: &'a Expr,
        lo: usize,
        hi: usize,
        greedy: bool,
    ) -> Result<(), NotWritten> {
        let group = self.group;
        self.add_turns(tree, lo)?;
        self.group = group;
        if hi == usize::MAX {
            self.add_loop(tree, greedy)
        } else {
            self.add_further_turns(tree, hi.saturating_sub(lo), greedy)
        }
    }

    /// Adds the instructions of so many turns.
    #[cycle(add_tree)]
    fn add_turns(&mut self, tree: &'a Expr, count: usize) -> Result<(), NotWritten> {
        let group = self.group;
        for _ in 0..count {
            self.group = group;
            // A turn of nothing counts, too.
            let next = self.next().saturating_add(1);
            self.add(Instruction::Jump(next))?;
            self.add_tree(tree)?;
        }
        Ok(())
    }

    /// Adds at most so many turns, each after the choice of one more, or of the end.
    #[cycle(add_tree)]
    fn add_further_turns(
        &mut self,
        tree: &'a Expr,
        count: usize,
        greedy: bool,
    ) -> Result<(), NotWritten> {
        let group = self.group;
        let mut choices = Vec::new(self.alloc);
        for _ in 0..count {
            choices.push(self.add(Instruction::Fail)?)?;
            self.group = group;
            self.add_tree(tree)?;
        }
        for choice in choices {
            self.set_choice(choice, greedy);
        }
        Ok(())
    }

    /// Adds turns without a limit, each of which has to match a character.
    #[cycle(add_tree)]
    fn add_loop(&mut self, tree: &'a Expr, greedy: bool) -> Result<(), NotWritten> {
        let position = self.slot();
        let choice = self.add(Instruction::Fail)?;
        self.add(Instruction::Save(position))?;
        self.add_tree(tree)?;
        self.add(Instruction::Moved(position))?;
        self.add(Instruction::Jump(choice))?;
        self.set_choice(choice, greedy);
        Ok(())
    }

    /// Sets the choice of a turn, which begins after it, and of what follows the last instruction.
    fn set_choice(&mut self, choice: usize, greedy: bool) {
        let (turn, next) = (choice.saturating_add(1), self.next());
        self.set(
            choice,
            if greedy {
                Instruction::Choose(turn, next)
            } else {
                Instruction::Choose(next, turn)
            },
        );
    }

    /// Adds a node that matches one character.
    fn add_character(&mut self, tree: &'a Expr) -> Result<(), NotWritten> {
        let Some(set) = self.sets.of(tree)? else {
            return Err(NotWritten::NotTried);
        };
        let known = self
            .program
            .sets
            .iter()
            .position(|other| set.ranges() == other.ranges());
        let index = match known {
            Some(index) => index,
            None => {
                let copy = set.clone()?;
                let index = self.program.sets.len();
                self.program.sets.push(copy)?;
                index
            }
        };
        self.add(Instruction::Character(index))?;
        Ok(())
    }
}

/// The program of the pattern, which has so many groups; `None` if it is not tried.
pub(crate) fn program_of<'a>(
    alloc: Global,
    tree: &'a Expr,
    groups: usize,
    sets: &mut KnownSets<'a, '_>,
) -> Result<Option<Program>, AllocError> {
    let mut writing = Writing {
        alloc,
        sets,
        program: Program {
            instructions: Vec::new(alloc),
            sets: Vec::new(alloc),
            slots: slot_of(groups.saturating_add(1)),
        },
        group: 0,
    };
    let written = match writing.add_tree(tree) {
        Ok(()) => writing.add(Instruction::End),
        Err(error) => Err(error),
    };
    match written {
        Ok(_) => Ok(Some(writing.program)),
        Err(NotWritten::Memory(error)) => Err(error),
        Err(NotWritten::NotTried) => Ok(None),
    }
}
