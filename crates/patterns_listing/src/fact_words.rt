//! What is known of the matches of a tree's nodes.
use fancy_lex::flags::Flags;
use fancy_syntax::spanned::SpannedTree;
use pattern_facts::{Facts, Lengths, MaxLength, facts};
use patterns_text::subject::Subject;
use std::alloc::AllocError;
use std::fmt;

/// How long matches are, and the name of what is counted.
#[derive(Clone, Copy)]
struct LengthWords(Lengths, &'static str);

impl fmt::Display for LengthWords {
    fn fmt<W: fmt::Write>(&self, f: &mut fmt::Formatter<W>) -> fmt::Result {
        let LengthWords(Lengths { min, max }, unit) = *self;
        match max {
            MaxLength::AtMost(1) if min == 1 => write!(f, "1 {unit}"),
            MaxLength::AtMost(max) if min == max => write!(f, "{max} {unit}s"),
            MaxLength::AtMost(max) => write!(f, "{min} to {max} {unit}s"),
            MaxLength::Unlimited => write!(f, "{min} or more {unit}s"),
        }
    }
}

/// What is known of a node's matches: their lengths in characters, those in bytes where they differ, and where they are.
#[derive(Clone, Copy)]
pub struct FactWords(pub Option<Facts>);

impl fmt::Display for FactWords {
    fn fmt<W: fmt::Write>(&self, f: &mut fmt::Formatter<W>) -> fmt::Result {
        let Some(facts) = self.0 else {
            return f.write_str("not known");
        };
        write!(f, "{}", LengthWords(facts.characters, "character"))?;
        if facts.bytes != facts.characters {
            write!(f, ", {}", LengthWords(facts.bytes, "byte"))?;
        }
        if facts.is_anchored_at_start {
            f.write_str(", at the start of the text")?;
        }
        if facts.is_anchored_at_end {
            f.write_str(", at the end of the text")?;
        }
        Ok(())
    }
}

/// What is known of the nodes of a tree, in preorder; of no node if it is not written.
#[derive(Drop)]
pub struct FactRows {
    rows: Vec<Option<Facts>>,
    /// How many are taken.
    taken: usize,
}

impl FactRows {
    /// Those of the tree, if they are written.
    pub fn of(
        subject: Subject<'_>,
        is_written: bool,
        parsed: &SpannedTree,
    ) -> Result<FactRows, AllocError> {
        let rows = if is_written {
            let unicode = Flags::from_bits(subject.flags).unicode;
            facts(subject.alloc, &parsed.tree.expr, unicode)?
        } else {
            Vec::new(subject.alloc)
        };
        Ok(FactRows { rows, taken: 0 })
    }

    /// That of the node of this index.
    pub fn row(&self, index: usize) -> Option<Facts> {
        self.rows.get(index).copied().flatten()
    }

    /// Takes that of the next node.
    pub fn take(&mut self) -> Option<Option<Facts>> {
        let row = self.rows.get(self.taken).copied();
        self.taken = self.taken.saturating_add(1);
        row
    }
}
