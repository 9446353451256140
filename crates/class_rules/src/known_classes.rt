//! The classes of a run, each of which is looked at once.
ghost use Rattle.std.specs.Prelude.{◌≡◌, [], ◌∷◌, IfOk, IfSome, IsSomeAnd, IsTrue, MatchOption, ⊤, length, string_bytes, slice_get};
ghost use Rattle.fancy_lex.specs.Flags.{flags_of};
ghost use Rattle.fancy_syntax.specs.Spanned.{spanned_of};
ghost use Rattle.class_rules.specs.ClassProblems.{AreProblems};

use crate::class_items::items_of;
use crate::class_problem::{ClassFinding, ClassProblem};
use crate::class_source::ClassSource;
use crate::misread::{add_bar, add_hyphens};
use crate::mixed_range::add_mixed;
use crate::needless::add_needless;
use class_meaning::{CharacterSet, ClassErrorKind, ClassMeaning, characters_of_class};
use fancy_lex::flags::Flags;
use fancy_syntax::expr::Expr;
use fancy_syntax::span::Span;
use fancy_syntax::spanned::SpannedNode;
use std::alloc::{AllocError, Global};
use std::collections::HashMap;
use std::hash::{FoldHasher, Hash, Hasher};

/// The most classes that are kept.
const MAX_CLASSES: usize = 1024;

/// The most bytes of a class that is kept, and of one whose items are looked at, or that branches are compared with.
pub(crate) const MAX_BYTES: usize = 256;

/// A class in a pattern: the text that the pattern has, the text that the engine is given for it, and whether it
/// ignores case.
#[derive(Clone, Copy)]
pub(crate) struct ClassText<'a> {
    pub(crate) source: &'a str,
    pub(crate) text: &'a str,
    pub(crate) casei: bool,
}

impl<'a> ClassText<'a> {
    ghost use Rattle.class_rules.specs.KnownClasses.{IsClassOf};

    /// The node as a class. Returns `None` if it is not a class.
    pub(crate) fn of(node: SpannedNode<'a>, pattern: &'a str) -> Option<ClassText<'a>>
        ensures { IfSome result (IsClassOf pattern.now (spanned_of node.entry)) }
    {
        let Expr::Delegate { inner, casei } = node.expr() else {
            return None;
        };
        Some(ClassText {
            source: node.text(pattern)?,
            text: inner.as_str(),
            casei: *casei,
        })
    }
}

/// Whether the reason is one that a class without Unicode has for its flags alone.
fn is_of_bytes(kind: ClassErrorKind) -> bool {
    matches!(
        kind,
        ClassErrorKind::InvalidUtf8 | ClassErrorKind::UnicodeNotAllowed
    )
}

/// What is wrong with the items of the class.
fn item_findings(class: ClassSource<'_>) -> Result<Vec<ClassFinding>, AllocError>
    ensures { IfOk result (λ found. (text : _) →
        AreProblems class.entry.flags class.entry.casei class.entry.source.now text found.items) }
{
    let mut found = Vec::new(class.alloc);
    if class.source.len() > MAX_BYTES {
        return Ok(found);
    }
    let Some(items) = items_of(class)? else {
        return Ok(found);
    };
    add_needless(class, &items, &mut found)?;
    add_mixed(class, &items, &mut found)?;
    add_bar(class, &items, &mut found)?;
    add_hyphens(class, &items, &mut found)?;
    Ok(found)
}

/// A class, and what is known of it.
#[derive(Drop)]
struct KnownClass {
    /// Its text in the pattern.
    source: String,
    /// The text that the engine is given for it.
    text: String,
    casei: bool,
    /// The flags that the pattern is parsed under.
    flags: u32,
    /// Its characters, unless the engine refuses it.
    set: Option<CharacterSet>,
    /// What is wrong with it. The spans are in its text in the pattern.
    findings: Vec<ClassFinding>,
    ghost right: { ∥ AreProblems (flags_of flags) casei (string_bytes source) (string_bytes text) findings.items ∥₁ },
}

/// The problem, as the only one of the whole class.
fn one(class: ClassSource<'_>, problem: ClassProblem) -> Result<Vec<ClassFinding>, AllocError>
    ensures { IfOk result (λ found. found.items ≡
        (record { span = record { start = 0; end = length class.entry.source.now }; problem = problem }) ∷ []) }
{
    let span = Span {
        start: 0,
        end: class.source.len(),
    };
    let mut found = Vec::new(class.alloc);
    found.push(ClassFinding { span, problem })?;
    Ok(found)
}

/// The characters of the class, which has this text for the engine, and what is wrong with it.
fn look(
    class: ClassSource<'_>,
    text: &str,
) -> Result<(Option<CharacterSet>, Vec<ClassFinding>), AllocError>
    ensures { IfOk result (λ p.
        AreProblems class.entry.flags class.entry.casei class.entry.source.now text.now p.1.items) }
{
    let unicode = class.flags.unicode;
    match characters_of_class(class.alloc, text, class.casei, unicode)? {
        ClassMeaning::Characters(set) => {
            if set.is_empty() {
                let found = one(class, ClassProblem::Empty)?;
                return Ok((Some(set), found));
            }
            let found = item_findings(class)?;
            Ok((Some(set), found))
        }
        ClassMeaning::Refused(error) => {
            if is_of_bytes(error.kind) && !unicode {
                return Ok((None, Vec::new(class.alloc)));
            }
            Ok((None, one(class, ClassProblem::Invalid(error.kind))?))
        }
        ClassMeaning::NotOneCharacter => Ok((None, Vec::new(class.alloc))),
    }
}

impl KnownClass {
    ghost use Rattle.class_rules.specs.KnownClasses.{IsOf};

    /// The class as one to keep, of a pattern that is parsed under these flags.
    fn of(alloc: Global, class: ClassText<'_>, flags: u32) -> Result<KnownClass, AllocError>
        ensures { IfOk result (IsOf class.entry flags) }
    {
        let source = ClassSource {
            alloc,
            source: class.source,
            casei: class.casei,
            flags: Flags::from_bits(flags),
        };
        let (set, findings) = look(source, class.text)?;
        Ok(KnownClass {
            source: String::from_str(alloc, class.source)?,
            text: String::from_str(alloc, class.text)?,
            casei: class.casei,
            flags,
            set,
            findings,
        })
    }

    /// Whether it is short enough to be kept.
    fn is_kept(&self) -> bool {
        self.source.len() <= MAX_BYTES && self.text.len() <= MAX_BYTES
    }

    /// Whether it is the class, of a pattern that is parsed under these flags.
    fn is(&self, class: ClassText<'_>, flags: u32) -> bool
        ensures { IsTrue result → IsOf class.entry flags self.now }
    {
        self.source.as_str() == class.source
            && self.text.as_str() == class.text
            && self.casei == class.casei
            && self.flags == flags
    }
}

/// A hash of the class.
fn hash_of(class: ClassText<'_>) -> u64 {
    let mut hasher = FoldHasher::default();
    (class.source, class.casei).hash(&mut hasher);
    hasher.finish()
}

/// The classes of patterns that are parsed under the same flags, each of which is looked at once; of very many the last
/// ones.
#[derive(Drop)]
pub struct KnownClasses {
    alloc: Global,
    /// The flags that the patterns are parsed under.
    pub flags: u32,
    classes: Vec<KnownClass>,
    /// Where each of them is, by its hash.
    by_hash: HashMap<u64, usize>,
}

impl KnownClasses {
    ghost use Rattle.class_rules.specs.KnownClasses.{IsOf};

    /// No class, where patterns are parsed under these flags.
    pub fn new(alloc: Global, flags: u32) -> KnownClasses {
        KnownClasses {
            alloc,
            flags,
            classes: Vec::new(alloc),
            by_hash: HashMap::new(alloc),
        }
    }

    /// Whether patterns are parsed with Unicode.
    pub(crate) fn is_unicode(&self) -> bool
        ensures { result ≡ (flags_of self.now.flags).unicode }
    {
        Flags::from_bits(self.flags).unicode
    }

    /// Forgets the last class if it is long, and all if there are too many.
    fn make_space(&mut self)
        ensures { self.new.flags ≡ self.old.flags }
    {
        if self.classes.last().is_some_and(|last| !last.is_kept()) {
            self.classes.pop();
        }
        if self.classes.len() >= MAX_CLASSES {
            self.classes.clear();
            self.by_hash.clear();
        }
    }

    /// The class, as one of a pattern that is parsed under these flags.
    pub(crate) fn source_of<'c>(&self, class: ClassText<'c>) -> ClassSource<'c>
        ensures source { result.source.now ≡ class.entry.source.now }
        ensures casei { result.casei ≡ class.entry.casei }
        ensures flags { result.flags ≡ flags_of self.now.flags }
    {
        ClassSource {
            alloc: self.alloc,
            source: class.source,
            casei: class.casei,
            flags: Flags::from_bits(self.flags),
        }
    }

    /// The index of the class, if it is known.
    fn find(&self, class: ClassText<'_>) -> Option<usize>
        ensures { IfSome result (λ i. IsSomeAnd (slice_get self.now.classes.items i) (IsOf class.entry self.now.flags)) }
    {
        let index = *self.by_hash.get(&hash_of(class))?;
        let known = self.classes.get(index)?;
        if known.is(class, self.flags) {
            Some(index)
        } else {
            None
        }
    }

    /// Adds the class, and returns its index.
    fn add(&mut self, class: ClassText<'_>) -> Result<usize, AllocError>
        ensures flags { self.new.flags ≡ self.old.flags }
        ensures class { IfOk result (λ i. IsSomeAnd (slice_get self.new.classes.items i) (IsOf class.entry self.old.flags)) }
    {
        let known = KnownClass::of(self.alloc, class, self.flags)?;
        self.make_space();
        let index = self.classes.len();
        if known.is_kept() {
            self.by_hash.insert(hash_of(class), index)?;
        }
        self.classes.push(known)?;
        Ok(index)
    }

    /// The index of the class, which is added if it is not known.
    pub(crate) fn index_of(&mut self, class: ClassText<'_>) -> Result<usize, AllocError>
        ensures flags { self.new.flags ≡ self.old.flags }
        ensures class { IfOk result (λ i. IsSomeAnd (slice_get self.new.classes.items i) (IsOf class.entry self.old.flags)) }
    {
        match self.find(class) {
            Some(index) => Ok(index),
            None => self.add(class),
        }
    }

    /// What is wrong with the class of this index. The spans are in its text in the pattern.
    pub(crate) fn findings_at(&self, index: usize) -> &[ClassFinding]
        ensures { MatchOption (slice_get self.now.classes.items index) ⊤ (λ known. result.now ≡ known.findings.items) }
    {
        match self.classes.get(index) {
            Some(known) => &known.findings,
            None => &[],
        }
    }

    /// The characters of the class of this index, unless the engine refuses it.
    fn characters_at(&self, index: usize) -> Option<&CharacterSet> {
        self.classes.get(index)?.set.as_ref()
    }

    /// Whether the class contains the character.
    pub(crate) fn contains(&mut self, class: ClassText<'_>, c: char) -> Result<bool, AllocError>
        ensures { self.new.flags ≡ self.old.flags }
    {
        let index = self.index_of(class)?;
        match self.characters_at(index) {
            Some(set) => Ok(set.contains(c)),
            None => Ok(false),
        }
    }

    /// Whether the class contains both ends of each range of the other, which has a character.
    pub(crate) fn may_contain(
        &mut self,
        class: ClassText<'_>,
        part: ClassText<'_>,
    ) -> Result<bool, AllocError>
        ensures { self.new.flags ≡ self.old.flags }
    {
        let index = self.index_of(class)?;
        let part = self.index_of(part)?;
        match (self.characters_at(index), self.characters_at(part)) {
            (Some(set), Some(part)) => Ok(!part.is_empty() && contains_ends(set, part)),
            _ => Ok(false),
        }
    }
}

/// Whether the set contains both ends of each range of the other.
fn contains_ends(set: &CharacterSet, part: &CharacterSet) -> bool {
    for (start, end) in part.ranges() {
        if !set.class.contains(*start) || !set.class.contains(*end) {
            return false;
        }
    }
    true
}
