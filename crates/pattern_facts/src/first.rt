//! The characters that the matches of a node begin with.
ghost use Rattle.std.specs.Prelude.{◌≡◌, true, Bool, IfOk};
ghost use Rattle.std.specs.List.{AllZip};
ghost use Rattle.fancy_grammar.specs.Tree.{Tree, Trees, is_leaf, more_trees, over, row, trees_of};
ghost use Rattle.fancy_syntax.specs.Shape.{label_of};
ghost use Rattle.fancy_syntax.specs.View.{view, views};
ghost use Rattle.pattern_facts.specs.First.{AreBegun, HasBeginning, IsBegun, IsBeginning, IsFull};
ghost use Rattle.pattern_facts.specs.Known.{IsRowOf};
ghost use Rattle.pattern_facts.specs.Lengths.{row_of};
ghost use Rattle.pattern_facts.specs.Nodes.{nodes_of};
ghost use Rattle.pattern_matches.specs.Defined.{AreDefined, IsDefined};

use crate::lengths::ListKind;
use crate::node_facts::Facts;
use crate::plain::meaning_of;
use crate::rows::is_empty_leaf;
use class_meaning::{CharacterSet, ClassMeaning};
use fancy_syntax::expr::{Expr, Shape, Wrap};
use regex_class::Class;
use std::alloc::{AllocError, Global};

/// How the matches of a node begin.
#[derive(Debug, Drop)]
pub struct Beginning {
    /// Each match that is not empty begins with one of these characters.
    pub characters: CharacterSet,
    /// Whether a match may be empty, as far as the least length says.
    pub can_be_empty: bool,
}

/// That of a node of which each match is empty.
fn empty(alloc: Global) -> Result<Beginning, AllocError>
    ensures { IfOk result (λ b. b.can_be_empty ≡ true) }
{
    Ok(Beginning {
        characters: CharacterSet::new(Class::empty(alloc))?,
        can_be_empty: true,
    })
}

/// That of a leaf.
fn beginning_of_leaf(
    alloc: Global,
    node: &Expr,
    unicode: bool,
) -> Result<Option<Beginning>, AllocError>
    requires { is_leaf (view node.now) ≡ true }
    ensures { IfOk result (IsBeginning unicode (view node.now)) }
{
    if is_empty_leaf(node) {
        return Ok(Some(empty(alloc)?));
    }
    match meaning_of(alloc, node, unicode)? {
        ClassMeaning::Characters(characters) => Ok(Some(Beginning {
            characters,
            can_be_empty: false,
        })),
        ClassMeaning::Refused(_) | ClassMeaning::NotOneCharacter => Ok(None),
    }
}

/// That of a node over one child.
fn beginning_around(
    alloc: Global,
    wrap: Wrap,
    child: Option<Beginning>,
) -> Result<Option<Beginning>, AllocError>
    ensures { (unicode : Bool) (t : Tree) → IsBeginning unicode t child →
        IfOk result (IsBeginning unicode (over (label_of wrap) t)) }
{
    let Some(child) = child else {
        return Ok(None);
    };
    match wrap {
        Wrap::Group => Ok(Some(child)),
        Wrap::LookAround(_) => Ok(Some(empty(alloc)?)),
        Wrap::Repeat { lo, hi, .. } if lo <= hi => Ok(Some(Beginning {
            characters: child.characters,
            can_be_empty: lo == 0 || child.can_be_empty,
        })),
        Wrap::Repeat { .. }
        | Wrap::AtomicGroup
        | Wrap::DefineGroup
        | Wrap::Repeater
        | Wrap::Stopper => Ok(None),
    }
}

impl Beginning {
    /// That of some trees of a list and the next one.
    fn with(self, kind: ListKind, next: Beginning) -> Result<Beginning, AllocError>
        ensures { (unicode : Bool) (all rest : Trees) (t : Tree) → AreBegun unicode kind all (more_trees t rest) self →
            HasBeginning unicode t next → IfOk result (AreBegun unicode kind all rest) }
    {
        match kind {
            ListKind::Concat => {
                if !self.can_be_empty {
                    return Ok(self);
                }
                Ok(Beginning {
                    characters: self.characters.union(&next.characters)?,
                    can_be_empty: next.can_be_empty,
                })
            }
            ListKind::Alt => Ok(Beginning {
                characters: self.characters.union(&next.characters)?,
                can_be_empty: self.can_be_empty || next.can_be_empty,
            }),
        }
    }
}

/// That of some trees of a list and the next one, where both are known.
fn with_next(
    kind: ListKind,
    before: Option<Beginning>,
    next: Option<Beginning>,
) -> Result<Option<Beginning>, AllocError>
    ensures { (unicode : Bool) (all rest : Trees) (t : Tree) → IsBegun unicode kind all (more_trees t rest) before →
        IsBeginning unicode t next → IfOk result (IsBegun unicode kind all rest) }
{
    match before {
        Some(before) => match next {
            Some(next) => Ok(Some(before.with(kind, next)?)),
            None => Ok(None),
        },
        None => Ok(None),
    }
}

/// Whether it is that of a concatenation whose matches are not empty so far.
fn is_full(kind: ListKind, beginning: &Option<Beginning>) -> bool
    ensures { result ≡ true → IsFull kind beginning.now }
{
    let Some(beginning) = beginning else {
        return false;
    };
    match kind {
        ListKind::Concat => !beginning.can_be_empty,
        ListKind::Alt => false,
    }
}

/// That of a list of trees. If what they match is known to be defined, those that do not change it are not read.
#[cycle(first)]
fn beginning_of_list(
    alloc: Global,
    kind: ListKind,
    trees: &[Expr],
    unicode: bool,
    is_known: bool,
) -> Result<Option<Beginning>, AllocError>
    requires { is_known ≡ true → AreDefined unicode (trees_of (views trees.now)) }
    ensures { IfOk result (IsBeginning unicode (row (row_of kind) (trees_of (views trees.now)))) }
{
    let Some((first, more)) = trees.split_first() else {
        return Ok(Some(empty(alloc)?));
    };
    let mut all = beginning_of(alloc, first, unicode, is_known)?;
    for tree in more {
        if is_known && is_full(kind, &all) {
            return Ok(all);
        }
        let next = beginning_of(alloc, tree, unicode, is_known)?;
        all = with_next(kind, all, next)?;
    }
    Ok(all)
}

/// That of the node.
#[cycle(first)]
fn beginning_of(
    alloc: Global,
    tree: &Expr,
    unicode: bool,
    is_known: bool,
) -> Result<Option<Beginning>, AllocError>
    requires { is_known ≡ true → IsDefined unicode (view tree.now) }
    ensures { IfOk result (IsBeginning unicode (view tree.now)) }
{
    match tree.shape() {
        Shape::Leaf => beginning_of_leaf(alloc, tree, unicode),
        Shape::Around(wrap, child) => {
            let below = beginning_of(alloc, child, unicode, is_known)?;
            beginning_around(alloc, wrap, below)
        }
        Shape::Concat(pieces) => {
            beginning_of_list(alloc, ListKind::Concat, pieces, unicode, is_known)
        }
        Shape::Alt(branches) => {
            beginning_of_list(alloc, ListKind::Alt, branches, unicode, is_known)
        }
        Shape::Conditional { .. } | Shape::Expression { .. } => Ok(None),
    }
}

/// Returns how the matches of the tree begin. `None` where it is not known, as for `facts`. Fails if memory runs out.
///
/// ```rust
/// let beginning = first_characters(alloc, &tree.expr, true)?; // for `a*b|c`: `a`, `b` and `c`, and never empty
/// ```
pub fn first_characters(
    alloc: Global,
    tree: &Expr,
    unicode: bool,
) -> Result<Option<Beginning>, AllocError>
    ensures { IfOk result (IsBeginning unicode (view tree.now)) }
{
    beginning_of(alloc, tree, unicode, false)
}

/// Returns what `first_characters` does, for a tree that has these facts. It reads no class after the first characters, and
/// none if nothing is known of the tree. Fails if memory runs out.
///
/// ```rust
/// let rows = facts(alloc, &tree.expr, true)?;
/// let beginning = beginning_beside(alloc, &tree.expr, true, &rows)?;
/// ```
pub fn beginning_beside(
    alloc: Global,
    tree: &Expr,
    unicode: bool,
    rows: &[Option<Facts>],
) -> Result<Option<Beginning>, AllocError>
    requires { AllZip (IsRowOf unicode) (nodes_of (view tree.now)) rows.now }
    ensures { IfOk result (IsBeginning unicode (view tree.now)) }
{
    let Some(own) = rows.first() else {
        return first_characters(alloc, tree, unicode);
    };
    match own {
        Some(_) => beginning_of(alloc, tree, unicode, true),
        None => Ok(None),
    }
}
