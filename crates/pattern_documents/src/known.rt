//! What was reported on the patterns of a document, which is reported again as long as they do not change.
use fancy_syntax::span::Span;
use pattern_files::entry::Entry;
use pattern_reports::kept::Report;
use patterns_text::position::Location;
use std::alloc::{AllocError, Global};
use std::fmt::Write;
use std::mem;

/// How many patterns are passed over at most to find one that was there before.
const MAX_PASSED: usize = 4096;

/// Where a document spells a pattern, in byte offsets.
#[derive(Clone, Copy)]
struct Part {
    start: u32,
    end: u32,
}

/// The byte offset as a number of a part; of a larger offset one that no text has.
fn number(offset: usize) -> u32 {
    u32::try_from(offset).unwrap_or(u32::MAX)
}

/// What was reported on the pattern of this index.
#[derive(Drop)]
struct Reported {
    index: usize,
    reports: Vec<Report>,
}

/// The patterns of a document, in its order, and what was reported on them.
#[derive(Drop)]
pub(crate) struct KnownPatterns {
    alloc: Global,
    /// The text of the document, once it has another one.
    text: String,
    parts: Vec<Part>,
    /// What the objects around the patterns say of groups; a pattern past the last one has none.
    contexts: Vec<String>,
    /// The reports, in the order of the patterns. Those without reports are left out.
    reported: Vec<Reported>,
    /// How many patterns are before those that the next one is looked for among, and how many have reports that are taken.
    passed: usize,
    taken: usize,
}

/// What the object around the pattern of an entry says of groups, as a text; empty if it says nothing.
fn context_of(alloc: Global, entry: Entry<'_>) -> Result<String, AllocError> {
    let mut context = String::new(alloc);
    let Some(rule) = entry.grammar else {
        return Ok(context);
    };
    let refers_to_begin = Location::at(entry.file, entry.spot).refers_to_begin();
    write!(context, "{refers_to_begin}")?;
    if let Some(groups) = rule.begin_groups {
        write!(context, " {groups}")?;
    }
    for capture in &rule.captures {
        let name = capture.key.name();
        write!(context, " {name} {} {}", capture.group, capture.total)?;
    }
    Ok(context)
}

impl KnownPatterns {
    /// No patterns.
    pub(crate) fn none(alloc: Global) -> KnownPatterns {
        KnownPatterns {
            alloc,
            text: String::new(alloc),
            parts: Vec::new(alloc),
            contexts: Vec::new(alloc),
            reported: Vec::new(alloc),
            passed: 0,
            taken: 0,
        }
    }

    /// The document, which had this text, has another one.
    pub(crate) fn change(&mut self, text: String) {
        self.text = text;
    }

    /// Adds the context of the pattern of this index.
    fn push_context(&mut self, index: usize, context: String) -> Result<(), AllocError> {
        for _ in self.contexts.len()..index {
            self.contexts.push(String::new(self.alloc))?;
        }
        self.contexts.push(context)?;
        Ok(())
    }

    /// Adds the pattern of an entry, on which this is reported.
    pub(crate) fn push(
        &mut self,
        entry: Entry<'_>,
        reports: Vec<Report>,
    ) -> Result<(), AllocError> {
        let Span { start, end } = entry.span;
        let index = self.parts.len();
        self.parts.push(Part {
            start: number(start),
            end: number(end),
        })?;
        let context = context_of(self.alloc, entry)?;
        if !context.is_empty() {
            self.push_context(index, context)?;
        }
        if !reports.is_empty() {
            self.reported.push(Reported { index, reports })?;
        }
        Ok(())
    }

    /// Whether the pattern of this index has these contents and this context.
    fn is_of(&self, index: usize, part: Part, contents: &str, context: &str) -> bool {
        let (start, end) = (part.start as usize, part.end as usize);
        let own = self.contexts.get(index).map_or("", String::as_str);
        self.text.get(start..end) == Some(contents) && own == context
    }

    /// The index of the next one that has these contents and this context, if it is near.
    fn find(&self, contents: &str, context: &str) -> Option<usize> {
        let left = self.parts.get(self.passed..)?;
        for (passed, part) in left.iter().take(MAX_PASSED).enumerate() {
            let index = self.passed.saturating_add(passed);
            if self.is_of(index, *part, contents, context) {
                return Some(index);
            }
        }
        None
    }

    /// Takes the reports on the pattern of this index. Reports on those before it are not taken any more.
    fn take_reports(&mut self, index: usize) -> Vec<Report> {
        let none = Vec::new(self.alloc);
        for next in self.taken..self.reported.len() {
            let Some(reported) = self.reported.get_mut(next) else {
                break;
            };
            if index < reported.index {
                break;
            }
            self.taken = next.saturating_add(1);
            if index == reported.index {
                return mem::replace(&mut reported.reports, none);
            }
        }
        none
    }

    /// Takes the reports on the next one that is the pattern of the entry, if it is near.
    pub(crate) fn take(&mut self, entry: Entry<'_>) -> Result<Option<Vec<Report>>, AllocError> {
        let context = context_of(self.alloc, entry)?;
        let Some(index) = self.find(entry.contents, context.as_str()) else {
            return Ok(None);
        };
        self.passed = index.saturating_add(1);
        Ok(Some(self.take_reports(index)))
    }
}
