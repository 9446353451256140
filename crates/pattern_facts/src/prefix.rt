//! The text that the matches of a node begin with.
ghost use Rattle.std.specs.Prelude.{◌≡◌, ℕ, ◌≤◌, true, false, Bool, IfOk, IfSome, nat_eq, length, [], ◌∷◌};
ghost use Rattle.std.specs.Char.{IsScalar};
ghost use Rattle.std.specs.List.{AllZip, common_prefix_len};
ghost use Rattle.class_meaning.specs.CharacterSet.{has_character};
ghost use Rattle.fancy_grammar.specs.Tree.{Tree, Trees, is_leaf, literal, more_trees, over, row, trees_of};
ghost use Rattle.fancy_syntax.specs.Shape.{label_of};
ghost use Rattle.fancy_syntax.specs.View.{view, views};
ghost use Rattle.pattern_facts.specs.Known.{IsRowOf};
ghost use Rattle.pattern_facts.specs.Lengths.{row_of};
ghost use Rattle.pattern_facts.specs.Nodes.{nodes_of};
ghost use Rattle.pattern_facts.specs.declared.lengths.ListKind.{ListKind};
ghost use Rattle.pattern_facts.specs.Prefix.{ArePrefixed, HasPrefix, IsPrefix, IsPrefixed};
ghost use Rattle.pattern_facts.specs.Prefix.{IsOr, IsPrefixOfSet, IsRepeated, IsSettled, IsThen, IsWhole};
ghost use Rattle.pattern_matches.specs.Defined.{AreDefined, IsDefined};

use crate::lengths::ListKind;
use crate::node_facts::Facts;
use crate::plain::{bytes_of_node, plain_character};
use crate::rows::is_empty_leaf;
use class_meaning::{CharacterSet, ClassMeaning, characters_of};
use fancy_syntax::expr::{Expr, Shape, Wrap};
use std::alloc::{AllocError, Global};

/// The text that each match of a node begins with.
#[derive(Debug, Drop)]
pub struct Prefix {
    /// Its characters.
    pub characters: Vec<char>,
    /// Whether each match is this text, and no more.
    pub is_whole: bool,
}

/// That of a node of which each match is empty.
fn nothing(alloc: Global, is_whole: bool) -> Prefix
    ensures characters { result.characters.items ≡ [] }
    ensures whole { result.is_whole ≡ is_whole }
{
    Prefix {
        characters: Vec::new(alloc),
        is_whole,
    }
}

/// That of a node of which each match is this character.
fn one(alloc: Global, c: char) -> Result<Prefix, AllocError>
    ensures { IfOk result (λ x. (x.characters.items ≡ c ∷ []) × (x.is_whole ≡ true)) }
{
    Ok(Prefix {
        characters: vec![in alloc; c]?,
        is_whole: true,
    })
}

/// The character of the set, if it has no other.
fn only_character(set: &CharacterSet) -> Option<char>
    ensures { IfSome result (λ c. (d : ℕ) → has_character set.now d ≡ true → d ≡ c) }
{
    let (first, last) = set.class.bounds()?;
    if first != last {
        return None;
    }
    char::from_u32(first)
}

/// That of a node of which each match is a character of the set.
fn prefix_of_set(alloc: Global, set: &CharacterSet) -> Result<Prefix, AllocError>
    ensures { IfOk result (IsPrefixOfSet set.now) }
{
    match only_character(set) {
        Some(c) => one(alloc, c),
        None => Ok(nothing(alloc, false)),
    }
}

/// That of a leaf.
fn prefix_of_leaf(alloc: Global, node: &Expr, unicode: bool) -> Result<Option<Prefix>, AllocError>
    requires { is_leaf (view node.now) ≡ true }
    ensures { IfOk result (IsPrefix unicode (view node.now)) }
{
    if is_empty_leaf(node) {
        return Ok(Some(nothing(alloc, true)));
    }
    if let Some(c) = plain_character(node) {
        return Ok(Some(one(alloc, c)?));
    }
    if bytes_of_node(node, unicode).is_some() {
        return Ok(Some(nothing(alloc, false)));
    }
    match characters_of(alloc, node, unicode)? {
        ClassMeaning::Characters(set) => Ok(Some(prefix_of_set(alloc, &set)?)),
        ClassMeaning::Refused(_) | ClassMeaning::NotOneCharacter => Ok(None),
    }
}

/// That of at least `lo` and at most `hi` turns of a node. Only the first turn counts.
fn prefix_of_turns(alloc: Global, once: Prefix, lo: usize, hi: usize) -> Prefix
    requires { lo ≤ hi }
    ensures { IsRepeated lo hi once result }
{
    if lo == 0 {
        return nothing(alloc, hi == 0);
    }
    Prefix {
        characters: once.characters,
        is_whole: once.is_whole && hi == 1,
    }
}

/// That of a node over one child.
fn prefix_around(alloc: Global, wrap: Wrap, child: Option<Prefix>) -> Option<Prefix>
    ensures { (unicode : Bool) (t : Tree) → IsPrefix unicode t child → IsPrefix unicode (over (label_of wrap) t) result }
{
    let Some(child) = child else {
        return None;
    };
    match wrap {
        Wrap::Group => Some(child),
        Wrap::LookAround(_) => Some(nothing(alloc, true)),
        Wrap::Repeat { lo, hi, .. } if lo <= hi => Some(prefix_of_turns(alloc, child, lo, hi)),
        Wrap::Repeat { .. }
        | Wrap::AtomicGroup
        | Wrap::DefineGroup
        | Wrap::Repeater
        | Wrap::Stopper => None,
    }
}

/// How many characters at the front of two texts are the same.
fn shared_len(first: &[char], second: &[char]) -> usize
    ensures { result ≡ common_prefix_len nat_eq first.now second.now }
{
    let most = first.len().min(second.len());
    for i in 0..most {
        if first[i] != second[i] {
            return i;
        }
    }
    most
}

/// Whether both texts are whole matches, of so many characters.
fn are_whole(first: &Prefix, second: &Prefix, len: usize) -> bool
    ensures { result ≡ true → (first.now.is_whole ≡ true) × (second.now.is_whole ≡ true)
        × (len ≡ length first.now.characters.items) × (len ≡ length second.now.characters.items) }
{
    if !first.is_whole {
        return false;
    }
    if !second.is_whole {
        return false;
    }
    if len != first.characters.len() {
        return false;
    }
    len == second.characters.len()
}

impl Prefix {
    /// That of some pieces with this one, and then the next one.
    fn then(self, next: Prefix) -> Result<Prefix, AllocError>
        ensures { IfOk result (IsThen self next) }
    {
        if !self.is_whole {
            return Ok(self);
        }
        let mut characters = self.characters;
        characters.extend_from_slice(&next.characters)?;
        Ok(Prefix {
            characters,
            is_whole: next.is_whole,
        })
    }

    /// That of some branches with this one, or the next one.
    fn or(self, next: Prefix) -> Prefix
        ensures { IsOr self next result }
    {
        let shared = shared_len(&self.characters, &next.characters);
        let is_whole = are_whole(&self, &next, shared);
        let mut characters = self.characters;
        characters.truncate(shared);
        Prefix {
            characters,
            is_whole,
        }
    }

    /// That of some trees of a list and the next one.
    fn with(self, kind: ListKind, next: Prefix) -> Result<Prefix, AllocError>
        ensures { (unicode : Bool) (all rest : Trees) (t : Tree) → ArePrefixed unicode kind all (more_trees t rest) self →
            HasPrefix unicode t next → IfOk result (ArePrefixed unicode kind all rest) }
    {
        match kind {
            ListKind::Concat => self.then(next),
            ListKind::Alt => Ok(self.or(next)),
        }
    }
}

/// That of some trees of a list and the next one, where both are known.
fn with_next(
    kind: ListKind,
    before: Option<Prefix>,
    next: Option<Prefix>,
) -> Result<Option<Prefix>, AllocError>
    ensures { (unicode : Bool) (all rest : Trees) (t : Tree) → IsPrefixed unicode kind all (more_trees t rest) before →
        IsPrefix unicode t next → IfOk result (IsPrefixed unicode kind all rest) }
{
    match before {
        Some(before) => match next {
            Some(next) => Ok(Some(before.with(kind, next)?)),
            None => Ok(None),
        },
        None => Ok(None),
    }
}

/// The character of the next tree of a list, if it is a literal of one that follows whole matches.
fn next_character(kind: ListKind, before: &Option<Prefix>, tree: &Expr) -> Option<char>
    ensures { IfSome result (λ c. IsScalar c × (view tree.now ≡ literal (c ∷ []) false) × IsWhole kind before.now) }
{
    let Some(before) = before else {
        return None;
    };
    match kind {
        ListKind::Concat => {
            if before.is_whole {
                plain_character(tree)
            } else {
                None
            }
        }
        ListKind::Alt => None,
    }
}

/// That of some pieces whose matches are this one, and then the character.
fn with_character(before: Option<Prefix>, c: char) -> Result<Option<Prefix>, AllocError>
    ensures { (unicode : Bool) (kind : ListKind) (all rest : Trees) (t : Tree) → IsScalar c →
        t ≡ literal (c ∷ []) false → IsWhole kind before → IsPrefixed unicode kind all (more_trees t rest) before →
        IfOk result (IsPrefixed unicode kind all rest) }
{
    match before {
        Some(before) => {
            let mut characters = before.characters;
            characters.push(c)?;
            Ok(Some(Prefix {
                characters,
                is_whole: true,
            }))
        }
        None => Ok(None),
    }
}

/// Whether it is that of a list of trees, whatever follows.
fn is_settled(kind: ListKind, prefix: &Option<Prefix>) -> bool
    ensures { result ≡ true → IsSettled kind prefix.now }
{
    let Some(prefix) = prefix else {
        return false;
    };
    match kind {
        ListKind::Concat => !prefix.is_whole,
        ListKind::Alt => !prefix.is_whole && prefix.characters.is_empty(),
    }
}

/// That of a list of trees. If what they match is known to be defined, those that do not change it are not read.
#[cycle(prefix)]
fn prefix_of_list(
    alloc: Global,
    kind: ListKind,
    trees: &[Expr],
    unicode: bool,
    is_known: bool,
) -> Result<Option<Prefix>, AllocError>
    requires { is_known ≡ true → AreDefined unicode (trees_of (views trees.now)) }
    ensures { IfOk result (IsPrefix unicode (row (row_of kind) (trees_of (views trees.now)))) }
{
    let Some((first, more)) = trees.split_first() else {
        return Ok(Some(nothing(alloc, true)));
    };
    let mut all = prefix_of(alloc, first, unicode, is_known)?;
    for tree in more {
        if is_known && is_settled(kind, &all) {
            return Ok(all);
        }
        if let Some(c) = next_character(kind, &all, tree) {
            all = with_character(all, c)?;
        } else {
            let next = prefix_of(alloc, tree, unicode, is_known)?;
            all = with_next(kind, all, next)?;
        }
    }
    Ok(all)
}

/// That of the node.
#[cycle(prefix)]
fn prefix_of(
    alloc: Global,
    tree: &Expr,
    unicode: bool,
    is_known: bool,
) -> Result<Option<Prefix>, AllocError>
    requires { is_known ≡ true → IsDefined unicode (view tree.now) }
    ensures { IfOk result (IsPrefix unicode (view tree.now)) }
{
    match tree.shape() {
        Shape::Leaf => prefix_of_leaf(alloc, tree, unicode),
        Shape::Around(wrap, child) => {
            let below = prefix_of(alloc, child, unicode, is_known)?;
            Ok(prefix_around(alloc, wrap, below))
        }
        Shape::Concat(pieces) => prefix_of_list(alloc, ListKind::Concat, pieces, unicode, is_known),
        Shape::Alt(branches) => prefix_of_list(alloc, ListKind::Alt, branches, unicode, is_known),
        Shape::Conditional { .. } | Shape::Expression { .. } => Ok(None),
    }
}

/// Returns the text that each match of the tree begins with: as far as the tree's own pieces say, with one turn of a
/// repeat. `None` where it is not known, as for `facts`. Fails if memory runs out.
///
/// ```rust
/// let prefix = literal_prefix(alloc, &tree.expr, true)?; // for `foo(bar|baz)`: `fooba`, which is not the whole match
/// ```
pub fn literal_prefix(
    alloc: Global,
    tree: &Expr,
    unicode: bool,
) -> Result<Option<Prefix>, AllocError>
    ensures { IfOk result (IsPrefix unicode (view tree.now)) }
{
    prefix_of(alloc, tree, unicode, false)
}

/// Returns what `literal_prefix` does, for a tree that has these facts. It reads no class that follows the text, and none
/// if nothing is known of the tree. Fails if memory runs out.
///
/// ```rust
/// let rows = facts(alloc, &tree.expr, true)?;
/// let prefix = prefix_beside(alloc, &tree.expr, true, &rows)?;
/// ```
pub fn prefix_beside(
    alloc: Global,
    tree: &Expr,
    unicode: bool,
    rows: &[Option<Facts>],
) -> Result<Option<Prefix>, AllocError>
    requires { AllZip (IsRowOf unicode) (nodes_of (view tree.now)) rows.now }
    ensures { IfOk result (IsPrefix unicode (view tree.now)) }
{
    let Some(own) = rows.first() else {
        return literal_prefix(alloc, tree, unicode);
    };
    match own {
        Some(_) => prefix_of(alloc, tree, unicode, true),
        None => Ok(None),
    }
}
