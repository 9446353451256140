//! The characters of nodes, each of which is looked at once.
use class_meaning::{CharacterSet, ClassMeaning, characters_of};
use fancy_syntax::expr::Expr;
use std::alloc::{AllocError, Global};
use std::collections::HashMap;

/// The most nodes of a pattern whose characters are kept.
const MOST_KNOWN: usize = 64;

/// The most classes whose characters are kept for other patterns.
const MOST_CLASSES: usize = 1024;

/// The most bytes of such a class.
const MOST_BYTES: usize = 256;

/// The characters of classes by their text, if they match one.
type SetsByText = HashMap<String, Option<CharacterSet>>;

/// The characters of the node, if it matches one.
fn characters(
    alloc: Global,
    node: &Expr,
    unicode: bool,
) -> Result<Option<CharacterSet>, AllocError> {
    match characters_of(alloc, node, unicode)? {
        ClassMeaning::Characters(set) => Ok(Some(set)),
        ClassMeaning::Refused(_) | ClassMeaning::NotOneCharacter => Ok(None),
    }
}

/// A copy of the set, if there is one.
fn copy_of(set: Option<&CharacterSet>) -> Result<Option<CharacterSet>, AllocError> {
    match set {
        Some(set) => Ok(Some(set.clone()?)),
        None => Ok(None),
    }
}

/// Keeps the characters of a class of this text, unless it is long.
fn keep(
    sets: &mut SetsByText,
    text: &String,
    set: Option<&CharacterSet>,
) -> Result<(), AllocError> {
    if text.len() > MOST_BYTES {
        return Ok(());
    }
    if sets.len() >= MOST_CLASSES {
        sets.clear();
    }
    sets.insert(text.clone()?, copy_of(set)?)?;
    Ok(())
}

/// The characters of classes of patterns, each of which is looked at once; of very many the last ones.
#[derive(Drop)]
pub struct ClassSets {
    alloc: Global,
    /// Whether the patterns are for text with Unicode, as under `FLAG_UNICODE`.
    pub unicode: bool,
    /// Those of the classes that do not ignore case.
    sensitive: SetsByText,
    /// Those of the classes that ignore case.
    insensitive: SetsByText,
}

impl ClassSets {
    /// Those of no class.
    pub fn new(alloc: Global, unicode: bool) -> ClassSets {
        ClassSets {
            alloc,
            unicode,
            sensitive: HashMap::new(alloc),
            insensitive: HashMap::new(alloc),
        }
    }

    /// The characters of the node, if it matches one.
    fn of(&mut self, node: &Expr) -> Result<Option<CharacterSet>, AllocError> {
        let (alloc, unicode) = (self.alloc, self.unicode);
        let Expr::Delegate { inner, casei } = node else {
            return characters(alloc, node, unicode);
        };
        let sets = if *casei {
            &mut self.insensitive
        } else {
            &mut self.sensitive
        };
        if let Some(set) = sets.get(inner.as_str()) {
            return copy_of(set.as_ref());
        }
        let set = characters(alloc, node, unicode)?;
        keep(sets, inner, set.as_ref())?;
        Ok(set)
    }
}

/// A node, and its characters, if it matches one.
#[derive(Drop)]
struct KnownSet<'a> {
    node: &'a Expr,
    set: Option<CharacterSet>,
}

/// The characters of nodes of a pattern; of very many the last ones.
#[derive(Drop)]
pub(crate) struct KnownSets<'a, 'k> {
    classes: &'k mut ClassSets,
    known: Vec<KnownSet<'a>>,
}

impl<'a, 'k> KnownSets<'a, 'k> {
    /// Those of no node.
    pub(crate) fn new(alloc: Global, classes: &'k mut ClassSets) -> KnownSets<'a, 'k> {
        KnownSets {
            classes,
            known: Vec::new(alloc),
        }
    }

    /// The index of an equal node.
    fn find(&self, node: &Expr) -> Option<usize> {
        self.known.iter().position(|known| *known.node == *node)
    }

    /// Adds the node, and returns its index.
    fn add(&mut self, node: &'a Expr) -> Result<usize, AllocError> {
        let set = self.classes.of(node)?;
        if self.known.len() >= MOST_KNOWN {
            self.known.clear();
        }
        let index = self.known.len();
        self.known.push(KnownSet { node, set })?;
        Ok(index)
    }

    /// The characters of the node, if it matches one.
    pub(crate) fn of(&mut self, node: &'a Expr) -> Result<Option<&CharacterSet>, AllocError> {
        let index = match self.find(node) {
            Some(index) => index,
            None => self.add(node)?,
        };
        match self.known.get(index) {
            Some(known) => Ok(known.set.as_ref()),
            None => Ok(None),
        }
    }
}
