//! Which trees of a concatenation a text can go across.
use crate::common::have_common;
use crate::known_sets::KnownSets;
use crate::part_kind::{PartKind, kind_of};
use crate::regular_shape::{RegularShape, regular_shape};
use crate::sequences::repeated_part;
use class_meaning::CharacterSet;
use fancy_syntax::expr::Expr;
use std::alloc::{AllocError, Global};

/// A tree of a concatenation.
#[derive(Drop)]
pub(crate) enum Piece {
    /// It has ways of its own.
    Regular(RegularPiece),
    /// It holds an atomic group, a call or the like.
    Irregular,
    /// It has too many nodes.
    TooLarge,
}

/// A tree that has ways of its own.
#[derive(Drop)]
pub(crate) struct RegularPiece {
    /// The characters that it may match, if it may match any.
    alphabet: Option<CharacterSet>,
    can_be_empty: bool,
    is_repeat: bool,
}

/// What the characters of a repeat say of a later tree.
#[derive(Clone, Copy, PartialEq, Eq)]
pub(crate) enum Reach {
    /// It may be the other repeat.
    Repeat,
    /// The text may go across it.
    Across,
    /// No text of the repeat goes across it.
    Blocked,
    /// It is too large.
    TooLarge,
}

/// A set of characters that grows.
#[derive(Drop)]
struct Alphabet<'s, 'a, 'k> {
    sets: &'s mut KnownSets<'a, 'k>,
    set: Option<CharacterSet>,
}

impl<'s, 'a, 'k> Alphabet<'s, 'a, 'k> {
    /// Adds the characters of the tree.
    #[cycle(add)]
    fn add(&mut self, tree: &'a Expr) -> Result<(), AllocError> {
        match regular_shape(tree) {
            RegularShape::Character => self.add_node(tree),
            RegularShape::Group(child)
            | RegularShape::Repeat { child, .. }
            | RegularShape::Possessive { child, .. } => self.add(child),
            RegularShape::Concat(trees) | RegularShape::Alt(trees) => self.add_all(trees),
            RegularShape::Empty | RegularShape::Passed | RegularShape::Irregular => Ok(()),
        }
    }

    /// Adds the characters of the trees.
    #[cycle(add)]
    fn add_all(&mut self, trees: &'a [Expr]) -> Result<(), AllocError> {
        for tree in trees {
            self.add(tree)?;
        }
        Ok(())
    }

    /// Adds the characters of the node, if they are known.
    fn add_node(&mut self, tree: &'a Expr) -> Result<(), AllocError> {
        if let Some(set) = self.sets.of(tree)? {
            self.set = Some(match &self.set {
                Some(old) => old.union(set)?,
                None => set.clone()?,
            });
        }
        Ok(())
    }
}

/// The characters that the tree may match, if it may match any. What has no ways of its own is taken to match none.
pub(crate) fn alphabet_of<'a>(
    tree: &'a Expr,
    sets: &mut KnownSets<'a, '_>,
) -> Result<Option<CharacterSet>, AllocError> {
    let mut alphabet = Alphabet { sets, set: None };
    alphabet.add(tree)?;
    Ok(alphabet.set)
}

/// Whether the tree may match the empty text. Only trees with ways of their own are looked at.
#[cycle(can_be_empty)]
fn can_be_empty(tree: &Expr) -> bool {
    match regular_shape(tree) {
        RegularShape::Empty | RegularShape::Passed => true,
        RegularShape::Character | RegularShape::Irregular => false,
        RegularShape::Group(child) => can_be_empty(child),
        RegularShape::Repeat { child, lo, .. } => lo == 0 || can_be_empty(child),
        RegularShape::Possessive { lo, .. } => lo == 0,
        RegularShape::Concat(trees) => can_all_be_empty(trees),
        RegularShape::Alt(branches) => can_any_be_empty(branches),
    }
}

/// Whether each tree may match the empty text.
#[cycle(can_be_empty)]
fn can_all_be_empty(trees: &[Expr]) -> bool {
    for tree in trees {
        if !can_be_empty(tree) {
            return false;
        }
    }
    true
}

/// Whether some tree may match the empty text.
#[cycle(can_be_empty)]
fn can_any_be_empty(trees: &[Expr]) -> bool {
    for tree in trees {
        if can_be_empty(tree) {
            return true;
        }
    }
    false
}

/// The tree as a piece.
fn piece_of<'a>(tree: &'a Expr, sets: &mut KnownSets<'a, '_>) -> Result<Piece, AllocError> {
    match kind_of(tree) {
        PartKind::Irregular => return Ok(Piece::Irregular),
        PartKind::TooLarge => return Ok(Piece::TooLarge),
        PartKind::Choices | PartKind::OneWay => {}
    }
    Ok(Piece::Regular(RegularPiece {
        alphabet: alphabet_of(tree, sets)?,
        can_be_empty: can_be_empty(tree),
        is_repeat: repeated_part(tree).is_some(),
    }))
}

/// The trees of a concatenation as pieces.
pub(crate) fn pieces_of<'a>(
    alloc: Global,
    trees: &'a [Expr],
    sets: &mut KnownSets<'a, '_>,
) -> Result<Vec<Piece>, AllocError> {
    let mut pieces = Vec::with_capacity(alloc, trees.len())?;
    for tree in trees {
        pieces.push(piece_of(tree, sets)?)?;
    }
    Ok(pieces)
}

impl RegularPiece {
    /// Whether both may match some character.
    fn meets(&self, other: &RegularPiece) -> bool {
        match (&self.alphabet, &other.alphabet) {
            (Some(one), Some(other)) => have_common(&[one, other]),
            (None, _) | (_, None) => false,
        }
    }
}

impl Piece {
    /// The piece, if it is a repeat that is looked at.
    pub(crate) fn as_repeat(&self) -> Option<&RegularPiece> {
        match self {
            Piece::Regular(piece) if piece.is_repeat => Some(piece),
            Piece::Regular(_) | Piece::Irregular | Piece::TooLarge => None,
        }
    }

    /// What the characters of an earlier repeat say of it.
    pub(crate) fn reach(&self, repeat: &RegularPiece) -> Reach {
        let piece = match self {
            Piece::Regular(piece) => piece,
            Piece::Irregular => return Reach::Blocked,
            Piece::TooLarge => return Reach::TooLarge,
        };
        let meets = repeat.meets(piece);
        if meets && piece.is_repeat {
            Reach::Repeat
        } else if meets || piece.can_be_empty {
            Reach::Across
        } else {
            Reach::Blocked
        }
    }
}
