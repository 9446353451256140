//! What is known of the classes of a run's patterns.
use backtracking::known_sets::ClassSets;
use class_rules::known_classes::KnownClasses;
use fancy_syntax::FLAG_UNICODE;
use std::alloc::Global;

/// The classes of patterns that are parsed under the same flags, each of which is looked at once by a rule.
#[derive(Drop)]
pub struct Known {
    /// For the rules about classes.
    pub(crate) classes: KnownClasses,
    /// For the rules about backtracking.
    pub(crate) sets: ClassSets,
}

impl Known {
    /// No class, where patterns are parsed under these flags.
    pub fn new(alloc: Global, flags: u32) -> Known {
        Known {
            classes: KnownClasses::new(alloc, flags),
            sets: ClassSets::new(alloc, flags & FLAG_UNICODE != 0),
        }
    }
}
