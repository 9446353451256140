//! Rules of grammars in JSON: objects that have patterns, and what is captured by their groups.
ghost use Rattle.std.specs.Prelude.{chars, IfOk, IfSome, IfNone};
ghost use Rattle.fancy_lex.specs.Flags.{flags_of};
ghost use Rattle.fancy_syntax.specs.InfoViews.{HasError};
ghost use Rattle.pattern_files.specs.HasGroups.{HasGroups};

use fancy_syntax::error::Error;
use fancy_syntax::expr::Expr;
use json::{Error as JsonError, Node, Scratch, Tape};
use patterns_text::error::RunError;
use patterns_text::grammar_rule::{CAPTURE_KEYS, Capture, CaptureKey, GrammarRule};
use std::alloc::{AllocError, Global};

/// A key of a grammar under which a text is a pattern.
#[derive(Clone, Copy, PartialEq, Eq)]
enum PatternKey {
    Match,
    Begin,
    End,
    While,
}

/// All of them.
static PATTERN_KEYS: [PatternKey; 4] = [
    PatternKey::Match,
    PatternKey::Begin,
    PatternKey::End,
    PatternKey::While,
];

impl PatternKey {
    /// The key of this name; none if no key has it.
    fn named(name: &str) -> Option<PatternKey> {
        match name {
            "match" => Some(PatternKey::Match),
            "begin" => Some(PatternKey::Begin),
            "end" => Some(PatternKey::End),
            "while" => Some(PatternKey::While),
            _ => None,
        }
    }

    /// The key of what this pattern alone captures.
    fn own_captures(self) -> CaptureKey {
        match self {
            PatternKey::Match => CaptureKey::Captures,
            PatternKey::Begin => CaptureKey::BeginCaptures,
            PatternKey::End => CaptureKey::EndCaptures,
            PatternKey::While => CaptureKey::WhileCaptures,
        }
    }

    /// Whether back references in digits refer to the groups of `begin`.
    fn refers_to_begin(self) -> bool {
        match self {
            PatternKey::End | PatternKey::While => true,
            PatternKey::Match | PatternKey::Begin => false,
        }
    }
}

/// How many numbered groups a pattern has; none if it is invalid.
fn group_count(alloc: Global, flags: u32, pattern: &str) -> Result<Option<usize>, AllocError>
    ensures some { IfOk result (λ count. IfSome count (HasGroups (flags_of flags) (chars pattern.now))) }
    ensures none { IfOk result (λ count. IfNone count (HasError (flags_of flags) (chars pattern.now))) }
{
    match Expr::parse_tree_with_flags(alloc, pattern, flags) {
        Ok(tree) => Ok(Some(tree.total_groups)),
        Err(Error::ParseError(..)) => Ok(None),
        Err(Error::OutOfMemory) => Err(AllocError),
    }
}

/// The index of the node after the value that begins at the index.
fn after_value(nodes: &[Node<'_>], index: usize) -> usize {
    match nodes.get(index) {
        Some(Node::Object(end) | Node::Array(end)) => *end,
        _ => index.saturating_add(1),
    }
}

/// An object of a grammar, as far as it says something of groups. Of a key that it has twice the last value counts.
#[derive(Clone, Copy)]
struct RuleObject<'a> {
    /// The key of the member that the walk has come to.
    key: &'a str,
    /// The patterns, each at the index of its key.
    patterns: [Option<&'a str>; 4],
    /// How many numbered groups they have; none of one that is invalid.
    groups: [Option<usize>; 4],
    /// The indexes of the objects of captures, each at the index of its key.
    captures: [Option<usize>; 4],
}

impl<'a> RuleObject<'a> {
    /// The object whose members begin at the index.
    fn of(nodes: &[Node<'a>], start: usize) -> RuleObject<'a> {
        let mut object = RuleObject {
            key: "",
            patterns: [None; 4],
            groups: [None; 4],
            captures: [None; 4],
        };
        let mut index = start;
        for _ in start..nodes.len() {
            let Some(Node::Key(key)) = nodes.get(index) else {
                break;
            };
            let value = index.saturating_add(1);
            object.add(key, value, nodes.get(value));
            index = after_value(nodes, value);
        }
        object
    }

    /// Adds the member with this key, whose value begins with the node at the index.
    fn add(&mut self, key: &str, index: usize, node: Option<&Node<'a>>) {
        if let Some(pattern) = PatternKey::named(key)
            && let Some(known) = self.patterns.get_mut(pattern as usize)
        {
            *known = match node {
                Some(Node::String(text)) => Some(text),
                _ => None,
            };
        }
        if let Some(capture) = CaptureKey::named(key)
            && let Some(known) = self.captures.get_mut(capture as usize)
        {
            *known = match node {
                Some(Node::Object(_)) => Some(index),
                _ => None,
            };
        }
    }

    /// Whether it has a pattern under the key.
    fn has(&self, pattern: PatternKey) -> bool {
        matches!(self.patterns.get(pattern as usize), Some(Some(_)))
    }

    /// The index of the object of captures under the key.
    fn captures_at(&self, key: CaptureKey) -> Option<usize> {
        self.captures.get(key as usize).copied()?
    }

    /// Whether the number of groups of its patterns is of use.
    fn needs_groups(&self) -> bool {
        CAPTURE_KEYS
            .iter()
            .any(|key| self.captures_at(*key).is_some())
            || self.has(PatternKey::End)
            || self.has(PatternKey::While)
    }

    /// Counts the groups of the patterns.
    fn count_groups(&mut self, alloc: Global, flags: u32) -> Result<(), AllocError> {
        if !self.needs_groups() {
            return Ok(());
        }
        for i in 0..PATTERN_KEYS.len() {
            let Some(Some(pattern)) = self.patterns.get(i).copied() else {
                continue;
            };
            let count = group_count(alloc, flags, pattern)?;
            if let Some(known) = self.groups.get_mut(i) {
                *known = count;
            }
        }
        Ok(())
    }

    /// How many numbered groups the pattern under the key has; none if that is not known.
    fn groups_of(&self, pattern: PatternKey) -> Option<usize> {
        self.groups.get(pattern as usize).copied()?
    }

    /// Whether the captures under the key are of this pattern. Those under `captures` are of `match`; if there is none, of
    /// `begin` and of what is beside it, but not of a pattern with captures of its own.
    fn are_of(&self, key: CaptureKey, pattern: PatternKey) -> bool {
        let own = pattern.own_captures();
        let is_shared = key == CaptureKey::Captures
            && self.has(PatternKey::Begin)
            && !self.has(PatternKey::Match)
            && self.captures_at(own).is_none();
        self.has(pattern) && (key == own || is_shared)
    }

    /// Whether the captures under the key are reported at this pattern: it is the first of those that they are of.
    fn are_reported_at(&self, key: CaptureKey, pattern: PatternKey) -> bool {
        PATTERN_KEYS.iter().find(|one| self.are_of(key, **one)) == Some(&pattern)
    }

    /// The number of groups of the patterns that the captures under the key are of; of several, the largest. None if that
    /// of one is not known.
    fn total(&self, key: CaptureKey) -> Option<usize> {
        let mut total = 0usize;
        for pattern in PATTERN_KEYS.iter() {
            if self.are_of(key, *pattern) {
                total = total.max(self.groups_of(*pattern)?);
            }
        }
        Some(total)
    }

    /// Whether it has a `begin` that is invalid.
    fn has_invalid_begin(&self) -> bool {
        self.has(PatternKey::Begin) && self.groups_of(PatternKey::Begin).is_none()
    }

    /// Adds the captures that are numbers under the key, if it is the one of an object.
    fn add_captures(
        &self,
        nodes: &[Node<'a>],
        key: CaptureKey,
        captures: &mut Vec<Capture>,
    ) -> Result<(), AllocError> {
        let (Some(start), Some(total)) = (self.captures_at(key), self.total(key)) else {
            return Ok(());
        };
        let mut index = start.saturating_add(1);
        for _ in start..nodes.len() {
            let Some(Node::Key(number)) = nodes.get(index) else {
                break;
            };
            if let Ok(group) = number.parse::<usize>() {
                captures.push(Capture { key, group, total })?;
            }
            index = after_value(nodes, index.saturating_add(1));
        }
        Ok(())
    }

    /// What it says of the pattern that the walk has come to; nothing is said of groups if `begin` is invalid.
    fn rule(&self, alloc: Global, nodes: &[Node<'a>]) -> Result<Option<GrammarRule>, AllocError> {
        let Some(pattern) = PatternKey::named(self.key) else {
            return Ok(None);
        };
        let mut captures = Vec::new(alloc);
        for key in CAPTURE_KEYS.iter() {
            if self.are_reported_at(*key, pattern) && !self.has_invalid_begin() {
                self.add_captures(nodes, *key, &mut captures)?;
            }
        }
        let begin_groups = if pattern.refers_to_begin() {
            self.groups_of(PatternKey::Begin)
        } else {
            None
        };
        Ok(Some(GrammarRule {
            begin_groups,
            captures,
        }))
    }
}

/// The values of a text that is valid JSON, and not too long; none if it is not read as a grammar. An error if memory
/// runs out.
fn grammar_of<'a>(
    alloc: Global,
    text: &'a str,
    scratch: &'a mut Scratch,
    is_grammar: bool,
) -> Result<Option<Tape<'a>>, RunError> {
    if !is_grammar {
        return Ok(None);
    }
    match Tape::parse(text, scratch, Vec::new(alloc)) {
        Ok(values) => Ok(Some(values)),
        Err(JsonError::OutOfMemory) => Err(RunError::Memory(AllocError)),
        Err(JsonError::TooLong | JsonError::Invalid | JsonError::DuplicateKey) => Ok(None),
    }
}

/// The values of a grammar that are open where a walk over its nodes is.
#[derive(Drop)]
pub(crate) struct OpenRules<'a> {
    alloc: Global,
    flags: u32,
    /// The values; none if they are of no grammar.
    grammar: Option<Tape<'a>>,
    /// The index of the node that the walk has come to.
    index: usize,
    /// None for an array.
    open: Vec<Option<RuleObject<'a>>>,
}

impl<'a> OpenRules<'a> {
    /// The walk that begins at the root of a text that is valid JSON, and not too long. The patterns are parsed under these
    /// flags. If it is not read as a grammar, there are no rules.
    pub(crate) fn new(
        alloc: Global,
        flags: u32,
        text: &'a str,
        scratch: &'a mut Scratch,
        is_grammar: bool,
    ) -> Result<OpenRules<'a>, RunError> {
        Ok(OpenRules {
            alloc,
            flags,
            grammar: grammar_of(alloc, text, scratch, is_grammar)?,
            index: 0,
            open: Vec::new(alloc),
        })
    }

    /// The nodes of the grammar.
    fn nodes(&self) -> &[Node<'a>] {
        match &self.grammar {
            Some(values) => values.nodes(),
            None => &[],
        }
    }

    /// What the object around the text that the walk has come to says of it.
    pub(crate) fn rule(&self) -> Result<Option<GrammarRule>, RunError> {
        match self.open.last() {
            Some(Some(object)) => Ok(object.rule(self.alloc, self.nodes())?),
            Some(None) | None => Ok(None),
        }
    }

    /// Goes on past the node that it has come to.
    pub(crate) fn pass(&mut self) -> Result<(), RunError> {
        let node = self.nodes().get(self.index).copied();
        self.index = self.index.saturating_add(1);
        match node {
            Some(Node::Object(_)) => {
                let mut object = RuleObject::of(self.nodes(), self.index);
                object.count_groups(self.alloc, self.flags)?;
                self.open.push(Some(object))?;
            }
            Some(Node::Array(_)) => self.open.push(None)?,
            Some(Node::EndObject | Node::EndArray) => {
                self.open.pop();
            }
            Some(Node::Key(key)) => {
                if let Some(Some(object)) = self.open.last_mut() {
                    object.key = key;
                }
            }
            Some(Node::String(_) | Node::Number(_) | Node::Bool(_) | Node::Null) | None => {}
        }
        Ok(())
    }
}
