//! A backtracking engine that counts its steps, for trials.
use crate::program::{Instruction, Program, slot_of};
use crate::trial::holds_at;
use std::alloc::{AllocError, Global};

/// What a slot has before anything is kept in it.
const UNSET: usize = usize::MAX;

/// What has come of a search in a text.
#[derive(Clone, Copy)]
pub(crate) struct Outcome {
    /// Whether it was stopped, since it took too many steps.
    pub(crate) is_stopped: bool,
    /// How many steps it took.
    pub(crate) steps: usize,
    /// How many it took from one position of the text, at most.
    pub(crate) longest: usize,
}

/// What is tried if all fails from here on.
#[derive(Clone, Copy)]
struct Choice {
    instruction: usize,
    position: usize,
    /// How many changes of slots there were.
    changes: usize,
}

/// A change of a slot.
#[derive(Clone, Copy)]
struct Change {
    slot: usize,
    old: usize,
}

/// A search in a text.
#[derive(Drop)]
struct Engine<'p> {
    program: &'p Program,
    text: &'p [char],
    slots: Vec<usize>,
    changes: Vec<Change>,
    choices: Vec<Choice>,
    instruction: usize,
    position: usize,
}

/// What has come of a step.
#[derive(Clone, Copy, PartialEq, Eq)]
enum Step {
    GoesOn,
    Fails,
    Ends,
}

/// Whether a search goes on.
fn goes_on_if(holds: bool) -> Step {
    if holds { Step::GoesOn } else { Step::Fails }
}

impl<'p> Engine<'p> {
    /// What a slot has.
    fn slot(&self, slot: usize) -> usize {
        self.slots.get(slot).copied().unwrap_or(UNSET)
    }

    /// Keeps a number in a slot.
    fn keep(&mut self, slot: usize, number: usize) -> Result<(), AllocError> {
        if let Some(now) = self.slots.get_mut(slot) {
            let change = Change { slot, old: *now };
            *now = number;
            self.changes.push(change)?;
        }
        Ok(())
    }

    /// Goes back to the last choice, if there is one.
    fn go_back(&mut self) -> bool {
        let Some(choice) = self.choices.pop() else {
            return false;
        };
        for _ in choice.changes..self.changes.len() {
            let Some(Change { slot, old }) = self.changes.pop() else {
                break;
            };
            if let Some(now) = self.slots.get_mut(slot) {
                *now = old;
            }
        }
        self.instruction = choice.instruction;
        self.position = choice.position;
        true
    }

    /// Matches a character of the set at the index.
    fn character(&mut self, index: usize) -> Step {
        let holds = match (self.program.sets.get(index), self.text.get(self.position)) {
            (Some(set), Some(c)) => set.contains(*c),
            (None, _) | (_, None) => false,
        };
        self.position = self.position.saturating_add(1);
        goes_on_if(holds)
    }

    /// Matches what a group has matched.
    fn refer(&mut self, group: usize) -> Step {
        let text = self.text;
        let start = self.slot(slot_of(group));
        let end = self.slot(slot_of(group).saturating_add(1));
        let Some(matched) = text.get(start..end) else {
            return Step::Fails;
        };
        let Some(rest) = text.get(self.position..) else {
            return Step::Fails;
        };
        self.position = self.position.saturating_add(matched.len());
        goes_on_if(rest.starts_with(matched))
    }

    /// Matches a newline.
    fn newline(&mut self) -> Step {
        let next = self.text.get(self.position).copied();
        let is_there = matches!(
            next,
            Some('\n' | '\r' | '\u{B}' | '\u{C}' | '\u{85}' | '\u{2028}' | '\u{2029}')
        );
        self.position = self.position.saturating_add(1);
        if next == Some('\r') && self.text.get(self.position) == Some(&'\n') {
            self.position = self.position.saturating_add(1);
        }
        goes_on_if(is_there)
    }

    /// Takes a step.
    fn step(&mut self) -> Result<Step, AllocError> {
        let Some(instruction) = self.program.instructions.get(self.instruction).copied() else {
            return Ok(Step::Fails);
        };
        self.instruction = self.instruction.saturating_add(1);
        Ok(match instruction {
            Instruction::Character(set) => self.character(set),
            Instruction::Newline => self.newline(),
            Instruction::Assert(assertion) => {
                goes_on_if(holds_at(self.text, assertion, self.position))
            }
            Instruction::Choose(first, second) => {
                let choice = Choice {
                    instruction: second,
                    position: self.position,
                    changes: self.changes.len(),
                };
                self.choices.push(choice)?;
                self.instruction = first;
                Step::GoesOn
            }
            Instruction::Jump(next) => {
                self.instruction = next;
                Step::GoesOn
            }
            Instruction::Save(slot) => {
                let position = self.position;
                self.keep(slot, position)?;
                Step::GoesOn
            }
            Instruction::Moved(slot) => goes_on_if(self.position != self.slot(slot)),
            Instruction::Open(slot) => {
                let open = self.choices.len();
                self.keep(slot, open)?;
                Step::GoesOn
            }
            Instruction::Close(slot) => {
                let open = self.slot(slot);
                self.choices.truncate(open);
                Step::GoesOn
            }
            Instruction::Return(slot) => {
                self.position = self.slot(slot);
                Step::GoesOn
            }
            Instruction::Back(width) => match self.position.checked_sub(width) {
                Some(position) => {
                    self.position = position;
                    Step::GoesOn
                }
                None => Step::Fails,
            },
            Instruction::Refer(group) => self.refer(group),
            Instruction::HasMatched(group) => {
                goes_on_if(self.slot(slot_of(group).saturating_add(1)) != UNSET)
            }
            Instruction::Fail => Step::Fails,
            Instruction::End => Step::Ends,
        })
    }

    /// Forgets all that was matched, and begins at a position.
    fn begin(&mut self, position: usize) {
        self.choices.clear();
        self.changes.clear();
        for slot in self.slots.iter_mut() {
            *slot = UNSET;
        }
        self.instruction = 0;
        self.position = position;
    }
}

/// Searches in the text, with at most so many steps.
pub(crate) fn search(
    alloc: Global,
    program: &Program,
    text: &[char],
    most: usize,
) -> Result<Outcome, AllocError> {
    let mut engine = Engine {
        program,
        text,
        slots: vec![in alloc; UNSET; program.slots]?,
        changes: Vec::new(alloc),
        choices: Vec::new(alloc),
        instruction: 0,
        position: 0,
    };
    let mut outcome = Outcome {
        is_stopped: true,
        steps: 0,
        longest: 0,
    };
    let mut start = 0usize;
    let mut from_start = 0usize;
    for _ in 0..most {
        outcome.steps = outcome.steps.saturating_add(1);
        from_start = from_start.saturating_add(1);
        outcome.longest = outcome.longest.max(from_start);
        let step = engine.step()?;
        if step == Step::GoesOn || (step == Step::Fails && engine.go_back()) {
            continue;
        }
        start = start.saturating_add(1);
        if step == Step::Ends || start > text.len() {
            outcome.is_stopped = false;
            break;
        }
        engine.begin(start);
        from_start = 0;
    }
    Ok(outcome)
}
