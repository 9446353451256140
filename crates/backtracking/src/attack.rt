//! Texts on which an engine tries all ways through a repeat.
use crate::common::some_other;
use crate::growth::{Growth, RepeatedText, grows};
use crate::known_sets::{ClassSets, KnownSets};
use crate::pieces::alphabet_of;
use crate::program::{Program, program_of};
use crate::repeats::SMALL_LIMIT;
use crate::sample::Sample;
use crate::trial::{Trial, add_positions, is_any};
use fancy_syntax::expr::{Expr, Shape, Wrap};
use fancy_syntax::span::Span;
use fancy_syntax::spanned::SpannedTree;
use std::alloc::{AllocError, Global};

/// How many times a trial has the word.
const REPETITIONS: usize = 3;

/// The most nodes that are tried for a pattern.
const MOST_TRIALS: usize = 20_000;

/// The most steps of searches for a pattern. A repeat takes at most half of those that are left.
const MOST_STEPS: usize = 4_000_000;

/// What may follow the repeated word, each in its turn, before what is made for the target.
static ENDINGS: [&str; 32] = [
    "!",
    "g",
    "0aA@!",
    "x!",
    "\n\n",
    "@",
    "\"",
    "'",
    "<",
    ">",
    "[",
    "]",
    "{",
    "}",
    "(",
    ")",
    "/",
    ":",
    ";",
    ",",
    "=",
    "&",
    "#",
    "|",
    "`",
    " ",
    "a",
    "0",
    "",
    "\0",
    "\u{1F600}",
    "\n!",
];

/// What a node has around the one below it: what may come before and after that.
#[derive(Clone, Copy)]
pub(crate) enum Enclosing<'a> {
    /// A group, or an alternation.
    Group,
    /// The tree at the index of a concatenation.
    Concat { trees: &'a [Expr], index: usize },
    /// What a quantifier repeats.
    Repeat { child: &'a Expr, lo: usize },
    /// An atomic group or a look-ahead, which is left at its first match.
    Atomic,
}

/// What a word is repeated for.
#[derive(Clone, Copy)]
pub(crate) enum Target<'a> {
    /// A repeat.
    Repeat(&'a Expr),
    /// The trees of a concatenation from one index through another.
    Sequence {
        trees: &'a [Expr],
        first: usize,
        last: usize,
    },
}

/// What is around a node, from the outermost on, and what a walk over the pattern has come to so far.
#[derive(Drop)]
pub(crate) struct Surroundings<'a, 'k> {
    pub(crate) around: Vec<Enclosing<'a>>,
    /// How many nodes were tried.
    pub(crate) trials: usize,
    /// How many pairs of repeats were searched.
    pub(crate) searches: usize,
    /// How many steps were taken in searches for a match.
    pub(crate) steps: usize,
    /// After how many steps no more texts are tried for now.
    most_steps: usize,
    /// The program of the pattern, once it was asked for; `None` if the pattern is not tried as a whole.
    program: Option<Option<Program>>,
    root: &'a Expr,
    groups: usize,
    /// The characters of nodes.
    pub(crate) sets: KnownSets<'a, 'k>,
    /// What was not searched.
    pub(crate) not_searched: Vec<Span>,
}

/// What is put around a word that is repeated.
#[derive(Drop)]
pub struct Attack {
    /// What leads to the repeat, if it was found.
    pub before: Option<Vec<char>>,
    /// What makes the engine try all ways.
    pub after: Vec<char>,
}

impl<'a> Target<'a> {
    /// What comes before it in its concatenation.
    fn before(self) -> &'a [Expr] {
        match self {
            Target::Repeat(_) => &[],
            Target::Sequence { trees, first, .. } => trees.get(..first).unwrap_or(&[]),
        }
    }

    /// What comes after it in its concatenation.
    fn after(self) -> &'a [Expr] {
        match self {
            Target::Repeat(_) => &[],
            Target::Sequence { trees, last, .. } => {
                trees.get(last.saturating_add(1)..).unwrap_or(&[])
            }
        }
    }

    /// Its first repeat.
    fn first(self) -> Option<&'a Expr> {
        match self {
            Target::Repeat(tree) => Some(tree),
            Target::Sequence { trees, first, .. } => trees.get(first),
        }
    }

    /// What may match a character that its first repeat does not match: its last one, or the tree that follows in what is
    /// around a repeat.
    fn next(self, around: &[Enclosing<'a>]) -> Option<&'a Expr> {
        match self {
            Target::Repeat(_) => next_around(around),
            Target::Sequence { trees, last, .. } => trees.get(last),
        }
    }

    /// The same with all that comes before it in its concatenation.
    fn from_start(self) -> Target<'a> {
        match self {
            Target::Repeat(_) => self,
            Target::Sequence { trees, last, .. } => Target::Sequence {
                trees,
                first: 0,
                last,
            },
        }
    }

    /// Whether it fails where a text ends after fewer turns than it has to take.
    fn needs_turns(self) -> bool {
        match self {
            Target::Repeat(tree) => { matches!(tree, Expr::Repeat { lo, .. } if *lo > SMALL_LIMIT) }
            Target::Sequence { .. } => false,
        }
    }

    /// The positions that it may lead to from these.
    fn ends(self, trial: &mut Trial<'_, 'a, '_>, starts: &[bool]) -> Result<Vec<bool>, AllocError> {
        match self {
            Target::Repeat(tree) => trial.ends(tree, starts),
            Target::Sequence { trees, first, last } => {
                let inside = trees.get(first..=last).unwrap_or(&[]);
                trial.after_each(inside, starts)
            }
        }
    }
}

impl<'a, 'k> Surroundings<'a, 'k> {
    /// Those of the root.
    pub(crate) fn new(
        alloc: Global,
        parsed: &'a SpannedTree,
        classes: &'k mut ClassSets,
    ) -> Surroundings<'a, 'k> {
        Surroundings {
            around: Vec::new(alloc),
            trials: 0,
            searches: 0,
            steps: 0,
            most_steps: MOST_STEPS / 2,
            program: None,
            root: parsed.root().expr(),
            groups: parsed.tree.total_groups,
            sets: KnownSets::new(alloc, classes),
            not_searched: Vec::new(alloc),
        }
    }

    /// Lets a repeat take half of the steps that are left.
    pub(crate) fn begin_repeat(&mut self) {
        let left = MOST_STEPS.saturating_sub(self.steps);
        self.most_steps = self.steps.saturating_add(left / 2);
    }

    /// Whether the pattern was searched for in texts for so long that no more are tried for now.
    pub(crate) fn is_exhausted(&self) -> bool {
        self.steps > self.most_steps || self.trials > MOST_TRIALS
    }

    /// Whether the pattern is tried as a whole. Writes its program the first time.
    fn is_tried(&mut self, alloc: Global) -> Result<bool, AllocError> {
        if let Some(program) = &self.program {
            return Ok(program.is_some());
        }
        let program = program_of(alloc, self.root, self.groups, &mut self.sets)?;
        let is_tried = program.is_some();
        self.program = Some(program);
        Ok(is_tried)
    }

    /// Whether a search for the pattern in the text takes a number of steps that grows so.
    fn grows(
        &mut self,
        alloc: Global,
        text: RepeatedText<'_>,
        growth: Growth,
    ) -> Result<bool, AllocError> {
        match &self.program {
            Some(Some(program)) => grows(alloc, program, text, growth, &mut self.steps),
            Some(None) | None => Ok(false),
        }
    }
}

/// What is around the child at the index.
pub(crate) fn enclosing_of(tree: &Expr, index: usize) -> Enclosing<'_> {
    match tree.shape() {
        Shape::Concat(trees) => Enclosing::Concat { trees, index },
        Shape::Around(Wrap::Repeat { lo, .. }, child) => Enclosing::Repeat { child, lo },
        Shape::Around(Wrap::AtomicGroup | Wrap::LookAround(_), _) => Enclosing::Atomic,
        Shape::Around(Wrap::Group | Wrap::DefineGroup | Wrap::Repeater | Wrap::Stopper, _)
        | Shape::Alt(_)
        | Shape::Conditional { .. }
        | Shape::Expression { .. }
        | Shape::Leaf => Enclosing::Group,
    }
}

/// A text that leads to a target.
#[derive(Drop)]
struct Lead {
    text: Vec<char>,
    /// Where the target or its concatenation starts.
    start: usize,
}

/// Adds a text that leads to the node that all this is around, from the outermost on, and says whether one was found.
fn add_text_before<'a>(
    sample: &mut Sample<'_, 'a, '_>,
    around: &[Enclosing<'a>],
) -> Result<bool, AllocError> {
    for one in around {
        let is_found = match one {
            Enclosing::Group | Enclosing::Atomic => true,
            Enclosing::Concat { trees, index } => {
                sample.add_texts(trees.get(..*index).unwrap_or(&[]))?
            }
            Enclosing::Repeat { child, lo } => sample.add_turns(child, lo.saturating_sub(1))?,
        };
        if !is_found {
            return Ok(false);
        }
    }
    Ok(true)
}

/// A text that leads to the target, if one was found.
fn lead_to<'a>(
    alloc: Global,
    target: Target<'a>,
    surroundings: &mut Surroundings<'a, '_>,
) -> Result<Option<Lead>, AllocError> {
    let mut sample = Sample::new(alloc, &mut surroundings.sets);
    if !add_text_before(&mut sample, &surroundings.around)? {
        return Ok(None);
    }
    let start = sample.text.len();
    if !sample.add_texts(target.before())? {
        return Ok(None);
    }
    Ok(Some(Lead {
        text: sample.text,
        start,
    }))
}

/// The tree that follows first in what is around a node.
fn next_around<'a>(around: &[Enclosing<'a>]) -> Option<&'a Expr> {
    for one in around.iter().rev() {
        match one {
            Enclosing::Group | Enclosing::Repeat { .. } => {}
            Enclosing::Atomic => return None,
            Enclosing::Concat { trees, index } => {
                if let Some(next) = trees.get(index.saturating_add(1)) {
                    return Some(next);
                }
            }
        }
    }
    None
}

/// Whether what follows the target fails after each position that the target leads to from the start.
fn fails_after<'a>(
    trial: &mut Trial<'_, 'a, '_>,
    target: Target<'a>,
    start: usize,
    around: &[Enclosing<'a>],
) -> Result<bool, AllocError> {
    let mut now = trial.only(start)?;
    now = target.ends(trial, &now)?;
    now = trial.after_each(target.after(), &now)?;
    for one in around.iter().rev() {
        match one {
            Enclosing::Group => {}
            Enclosing::Atomic => break,
            Enclosing::Concat { trees, index } => {
                let rest = trees.get(index.saturating_add(1)..).unwrap_or(&[]);
                now = trial.after_each(rest, &now)?;
            }
            Enclosing::Repeat { child, .. } => {
                let more = trial.after_turns(child, 0, usize::MAX, &now)?;
                add_positions(&mut now, &more);
            }
        }
    }
    Ok(!is_any(&now))
}

/// Adds a character that the tree does not match, if it may match any and there is one.
fn add_other<'a>(
    tree: &'a Expr,
    sets: &mut KnownSets<'a, '_>,
    ending: &mut Vec<char>,
) -> Result<(), AllocError> {
    if let Some(set) = alphabet_of(tree, sets)?
        && let Some(c) = some_other(&set)
    {
        ending.push(c)?;
    }
    Ok(())
}

/// An ending that is made for the target: a character that its first repeat does not match, and one that what may match
/// that, the last repeat or what follows, does not match.
fn made_ending<'a>(
    alloc: Global,
    target: Target<'a>,
    surroundings: &mut Surroundings<'a, '_>,
) -> Result<Vec<char>, AllocError> {
    let mut ending = Vec::new(alloc);
    if let Some(first) = target.first() {
        add_other(first, &mut surroundings.sets, &mut ending)?;
    }
    if let Some(next) = target.next(&surroundings.around) {
        add_other(next, &mut surroundings.sets, &mut ending)?;
    }
    Ok(ending)
}

/// The ending at the index, which is the one that is made for the target after those for all.
fn ending_at<'a>(
    alloc: Global,
    index: usize,
    target: Target<'a>,
    surroundings: &mut Surroundings<'a, '_>,
) -> Result<Vec<char>, AllocError> {
    let Some(text) = ENDINGS.get(index) else {
        return made_ending(alloc, target, surroundings);
    };
    let mut ending = Vec::new(alloc);
    for c in text.chars() {
        ending.push(c)?;
    }
    Ok(ending)
}

/// What is tried for a target: a text, and what leads over it from a position.
#[derive(Drop)]
struct Tried<'a> {
    target: Target<'a>,
    start: usize,
    text: Vec<char>,
}

/// What is tried for the target. Its concatenation starts after the text `lead`, if one was found.
fn tried_for<'a>(
    alloc: Global,
    target: Target<'a>,
    lead: Option<&Lead>,
    word: &[char],
) -> Result<Tried<'a>, AllocError> {
    let mut tried = Tried {
        target,
        start: 0,
        text: Vec::new(alloc),
    };
    if let Some(lead) = lead {
        tried.text.extend_from_slice(&lead.text)?;
        tried.target = target.from_start();
        tried.start = lead.start;
    }
    for _ in 0..REPETITIONS {
        tried.text.extend_from_slice(word)?;
    }
    Ok(tried)
}

/// What to put after the word, so that what follows the target fails; `None` if nothing was found. The target's
/// concatenation starts after the text `lead`, if one was found.
fn find_failing_ending<'a>(
    alloc: Global,
    target: Target<'a>,
    lead: Option<&Lead>,
    word: &[char],
    surroundings: &mut Surroundings<'a, '_>,
) -> Result<Option<Vec<char>>, AllocError> {
    let mut tried = tried_for(alloc, target, lead, word)?;
    let end = tried.text.len();
    for index in 0..=ENDINGS.len() {
        let ending = ending_at(alloc, index, target, surroundings)?;
        tried.text.truncate(end);
        tried.text.extend_from_slice(&ending)?;
        let mut trial = Trial::new(alloc, &tried.text, &mut surroundings.sets);
        let fails = fails_after(&mut trial, tried.target, tried.start, &surroundings.around)?;
        let trials = trial.count();
        surroundings.trials = surroundings.trials.saturating_add(trials);
        if fails {
            return Ok(Some(ending));
        }
        if surroundings.trials > MOST_TRIALS {
            break;
        }
    }
    Ok(None)
}

/// What to put after the word, so that a search takes a number of steps that grows so; `None` if nothing was found.
fn find_slow_ending<'a>(
    alloc: Global,
    target: Target<'a>,
    growth: Growth,
    before: &[char],
    word: &[char],
    surroundings: &mut Surroundings<'a, '_>,
) -> Result<Option<Vec<char>>, AllocError> {
    for index in 0..=ENDINGS.len() {
        if surroundings.is_exhausted() {
            break;
        }
        let after = ending_at(alloc, index, target, surroundings)?;
        let text = RepeatedText {
            before,
            word,
            after: &after,
        };
        if surroundings.grows(alloc, text, growth)? {
            return Ok(Some(after));
        }
    }
    Ok(None)
}

/// What to put around the word, so that an engine tries all ways through the target; `None` if nothing was found. If the
/// pattern is tried as a whole, the steps of a search have to grow so; else what follows the target has to fail.
pub(crate) fn find_attack<'a>(
    alloc: Global,
    target: Target<'a>,
    growth: Growth,
    word: &[char],
    surroundings: &mut Surroundings<'a, '_>,
) -> Result<Option<Attack>, AllocError> {
    let is_last = target.after().is_empty() && next_around(&surroundings.around).is_none();
    if is_last && !target.needs_turns() {
        return Ok(None);
    }
    let lead = lead_to(alloc, target, surroundings)?;
    let after = match &lead {
        Some(lead) if surroundings.is_tried(alloc)? => {
            find_slow_ending(alloc, target, growth, &lead.text, word, surroundings)?
        }
        Some(_) | None => { find_failing_ending(alloc, target, lead.as_ref(), word, surroundings)? }
    };
    let Some(after) = after else {
        return Ok(None);
    };
    let before = match lead {
        Some(lead) => Some(lead.text),
        None => None,
    };
    Ok(Some(Attack { before, after }))
}

/// What to put around the word, so that a search goes through the target again from each start; `None` if nothing was found, or
/// if the pattern is not tried as a whole. A character before the word may keep another branch from a match at the first start.
pub(crate) fn find_attack_from_each_start<'a>(
    alloc: Global,
    target: Target<'a>,
    word: &[char],
    surroundings: &mut Surroundings<'a, '_>,
) -> Result<Option<Attack>, AllocError> {
    if target.after().is_empty() || !surroundings.is_tried(alloc)? {
        return Ok(None);
    }
    let mut before = Vec::new(alloc);
    for _ in 0..2 {
        let growth = Growth::Search;
        let after = find_slow_ending(alloc, target, growth, &before, word, surroundings)?;
        if let Some(after) = after {
            let before = Some(before);
            return Ok(Some(Attack { before, after }));
        }
        if let Some(first) = target.first() {
            add_other(first, &mut surroundings.sets, &mut before)?;
        }
    }
    Ok(None)
}
