//! Globs, which say which files are meant.
ghost use Rattle.std.specs.Prelude.{◌≡◌, ◌↔◌, ℕ, List, Vec, IsTrue, IfOk, chars, codes, map};
ghost use Rattle.patterns_config.specs.Globs.{IsStar, IsAccepted, IsFolders, MatchesName, MatchesPath};
ghost use Rattle.patterns_config.specs.Globs.{names, in_each_folder, glob_names, path_names};

use crate::wild::{Piece, matches};
use fancy_lex::text::next;
use std::alloc::{AllocError, Global};

impl Piece for char {
    type Item = char;

    ghost star = { IsStar };

    ghost accepted = { IsAccepted };

    fn is_star(&self) -> bool {
        *self == '*'
    }

    fn accepts(&self, item: &char) -> bool {
        *self == '?' || *self == *item
    }
}

/// Whether the name stands for any number of names.
fn is_folders(name: &[char]) -> bool
    ensures { IsTrue result ↔ IsFolders name.now }
{
    matches!(name, ['*', '*'])
}

impl Piece for Vec<char> {
    type Item = Vec<char>;

    ghost star = { λ name. IsFolders name.items };

    ghost accepted = { λ name other. MatchesName name.items other.items };

    fn is_star(&self) -> bool {
        is_folders(self.as_slice())
    }

    fn accepts(&self, item: &Vec<char>) -> bool {
        matches(self.as_slice(), item.as_slice())
    }
}

/// The names between the slashes of a text.
fn names_of(alloc: Global, text: &str) -> Result<Vec<Vec<char>>, AllocError>
    ensures { IfOk result (λ found. map (λ name. name.items) found.items ≡ names (chars text.now)) }
{
    let mut found = Vec::new(alloc);
    let mut name = Vec::new(alloc);
    let mut rest = text;
    while let Some((c, after)) = next(rest) {
        if c == '/' {
            found.push(name)?;
            name = Vec::new(alloc);
        } else {
            name.push(c)?;
        }
        rest = after;
    }
    found.push(name)?;
    Ok(found)
}

/// The path of a file, as names.
#[derive(Debug, Drop)]
pub(crate) struct PathNames {
    names: Vec<Vec<char>>,
}

impl PathNames {
    /// Those of a path, with slashes between.
    pub(crate) fn new(alloc: Global, path: &str) -> Result<PathNames, AllocError>
        ensures names { IfOk result (λ found. path_names found ≡ names (chars path.now)) }
    {
        Ok(PathNames {
            names: names_of(alloc, path)?,
        })
    }
}

/// A pattern of paths: `*` matches any number of characters of a name, `?` one character, and `**`, as a name, any number
/// of names. Another character matches itself. A glob of one name matches files of that name in each folder.
#[derive(Debug, Drop)]
pub(crate) struct Glob {
    names: Vec<Vec<char>>,
}

impl Glob {
    /// That of the text.
    pub(crate) fn new(alloc: Global, text: &str) -> Result<Glob, AllocError>
        ensures names { IfOk result (λ glob. glob_names glob ≡ in_each_folder (names (chars text.now))) }
    {
        let mut names = names_of(alloc, text)?;
        if names.len() == 1 {
            names.insert(0, Vec::from_slice(alloc, &['*', '*'])?)?;
        }
        Ok(Glob { names })
    }

    /// Whether it matches the path. The work is at most the product of their lengths.
    pub(crate) fn matches(&self, path: &PathNames) -> bool
        ensures exact { IsTrue result ↔ MatchesPath (glob_names self.now) (path_names path.now) }
    {
        matches(self.names.as_slice(), path.names.as_slice())
    }
}
