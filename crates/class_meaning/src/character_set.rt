//! Sets of characters.
ghost use Rattle.std.specs.Prelude.{◌≡◌, ℕ, true};
ghost use Rattle.regex_class.specs.Ranges.{in_ranges};
ghost use Rattle.regex_hir.specs.Text.{is_scalar};

use regex_class::{Class, ClassRange};
use std::alloc::{AllocError, Global};

/// The last character before the surrogates.
const BEFORE_SURROGATES: u32 = 0xD7FF;

/// The code points that are no characters.
const SURROGATES: ClassRange = (0xD800, 0xDFFF);

/// A set of characters.
#[derive(Debug, Drop)]
pub struct CharacterSet {
    /// The code points of the characters: sorted ranges, each with both its ends, that neither overlap nor touch.
    pub class: Class,
    pub ghost characters: { (c : ℕ) → in_ranges class.ranges.items c ≡ true → is_scalar c ≡ true },
}

impl CharacterSet {
    ghost use Rattle.std.specs.Prelude.{◌&&◌, ◌||◌, ◌==◌, ◌↔◌, false, IsTrue, IfOk};
    ghost use Rattle.class_meaning.specs.CharacterSet.{has_character};

    /// The characters of a class. Its surrogates are left out, since no text has one.
    pub fn new(class: Class) -> Result<CharacterSet, AllocError>
        ensures { IfOk result (λ set.
            (c : ℕ) → has_character set c ≡ (is_scalar c && in_ranges class.ranges.items c)) }
    {
        if class.is_within(BEFORE_SURROGATES) {
            return Ok(CharacterSet { class });
        }
        let alloc = *class.ranges.allocator();
        let surrogates = Class::from_ranges(alloc, &[SURROGATES])?;
        Ok(CharacterSet {
            class: class.difference(&surrogates)?,
        })
    }

    /// The set of one character.
    pub fn of_char(alloc: Global, c: char) -> Result<CharacterSet, AllocError>
        ensures { IfOk result (λ set. (d : ℕ) → has_character set d ≡ (d == c)) }
    {
        Ok(CharacterSet {
            class: Class::from_ranges(alloc, &[(c as u32, c as u32)])?,
        })
    }

    /// The ranges of the characters' code points, each with both its ends.
    pub fn ranges(&self) -> &[ClassRange]
        ensures { result.now ≡ self.now.class.ranges.items }
    {
        &self.class.ranges
    }

    /// Whether the character is in the set.
    pub fn contains(&self, c: char) -> bool
        ensures { result ≡ has_character self.now c }
    {
        self.class.contains(c as u32)
    }

    /// Whether the set has no character.
    pub fn is_empty(&self) -> bool
        ensures { IsTrue result ↔ ((c : ℕ) → has_character self.now c ≡ false) }
    {
        self.class.ranges.is_empty()
    }

    /// Whether each character of this set is in the other.
    pub fn is_subset_of(&self, other: &CharacterSet) -> Result<bool, AllocError>
        ensures { IfOk result (λ within. IsTrue within ↔ ((c : ℕ) →
            IsTrue (has_character self.now c) → IsTrue (has_character other.now c))) }
    {
        let others = self.class.difference(&other.class)?;
        Ok(others.ranges.is_empty())
    }

    /// Whether some character is in both sets.
    pub fn intersects(&self, other: &CharacterSet) -> Result<bool, AllocError>
        ensures { IfOk result (λ meets. IsTrue meets ↔ ((c : ℕ) ×
            IsTrue (has_character self.now c) × IsTrue (has_character other.now c))) }
    {
        let common = self.class.intersection(&other.class)?;
        Ok(!common.ranges.is_empty())
    }

    /// The characters of either set.
    pub fn union(&self, other: &CharacterSet) -> Result<CharacterSet, AllocError>
        ensures { IfOk result (λ set. (c : ℕ) → has_character set c
            ≡ (has_character self.now c || has_character other.now c)) }
    {
        Ok(CharacterSet {
            class: self.class.union(&other.class)?,
        })
    }
}

impl Clone for CharacterSet {
    ghost use Rattle.std.specs.Prelude.{IfOk};

    ghost is_clone = { λ old new. new.class.ranges.items ≡ old.class.ranges.items };

    fn clone(&self) -> Result<CharacterSet, AllocError>
        ensures { IfOk result (λ set. set.class.ranges.items ≡ self.now.class.ranges.items) }
    {
        Ok(CharacterSet {
            class: self.class.clone()?,
        })
    }
}
