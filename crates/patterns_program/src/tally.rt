//! What a run over files has met, the line that ends it, and what is said of it before.
use crate::outcome::Outcome;
use lint_rules::chosen::Level;
use std::fmt;
use std::time::Duration;

/// How many files and patterns a run has met, and with which outcomes.
#[derive(Clone, Copy)]
pub(crate) struct Tally {
    /// All files, and those that are done.
    files: usize,
    pub(crate) done: usize,
    /// How many bytes the file has that is read, if that is known, and how many of them are done.
    size: usize,
    read: usize,
    patterns: u64,
    /// Those that are not as the verb asks.
    failed: u64,
    /// Those among them that are accepted, and would be written otherwise.
    pub(crate) changed: u64,
    /// Those whose reports are fixed, those that are formatted, and those for which either is only shown. They count as what
    /// they have become.
    pub(crate) fixed: u64,
    pub(crate) formatted: u64,
    pub(crate) fixable: u64,
    /// Those that are not as the verb asks, are accepted, and in which a denied rule reports.
    pub(crate) denied: u64,
    /// Those that their dialect reads otherwise, or that are invalid and of another dialect.
    passed_over: u64,
    errors: u64,
    pub(crate) warnings: u64,
}

impl Tally {
    /// Of a run over so many files that begins.
    pub(crate) fn new(files: usize) -> Tally {
        Tally {
            files,
            done: 0,
            size: 0,
            read: 0,
            patterns: 0,
            failed: 0,
            changed: 0,
            fixed: 0,
            formatted: 0,
            fixable: 0,
            denied: 0,
            passed_over: 0,
            errors: 0,
            warnings: 0,
        }
    }

    /// Begins a file, of which so many are done.
    pub(crate) fn begin_file(&mut self, done: usize) {
        self.done = done;
        self.size = 0;
        self.read = 0;
    }

    /// Goes on in the file, which has this size if it is known, to the offset.
    pub(crate) fn read_to(&mut self, size: Option<usize>, offset: usize) {
        if let Some(size) = size {
            self.size = size;
            self.read = offset.min(size);
        }
    }

    /// How much of the files is done, in percent, as far as that is known.
    fn percent(&self) -> u64 {
        let of_file = (self.read as u64)
            .saturating_mul(100)
            .checked_div(self.size as u64)
            .unwrap_or(0);
        (self.done as u64)
            .saturating_mul(100)
            .saturating_add(of_file)
            .checked_div(self.files as u64)
            .unwrap_or(0)
    }

    /// Counts a pattern; a line that holds no text is none.
    pub(crate) fn add(&mut self, outcome: Outcome) {
        if outcome != Outcome::Unread {
            self.patterns = self.patterns.saturating_add(1);
        }
        if outcome == Outcome::Refused {
            self.failed = self.failed.saturating_add(1);
        }
    }

    /// Counts a pattern that is passed over.
    pub(crate) fn pass_over(&mut self) {
        self.passed_over = self.passed_over.saturating_add(1);
    }

    /// Counts a report of a rule that has the level.
    pub(crate) fn report(&mut self, level: Level) {
        if level == Level::Deny {
            self.errors = self.errors.saturating_add(1);
        } else {
            self.warnings = self.warnings.saturating_add(1);
        }
    }

    /// How many patterns count as refused: those that are invalid, or stay because of a comment.
    fn refused(&self) -> u64 {
        self.failed
            .saturating_sub(self.changed)
            .saturating_sub(self.denied)
    }
}

/// A number with commas between the thousands.
#[derive(Clone, Copy)]
struct Thousands(u64);

/// What the groups of three digits are multiples of.
static GROUPS: [u64; 7] = [
    1_000_000_000_000_000_000,
    1_000_000_000_000_000,
    1_000_000_000_000,
    1_000_000_000,
    1_000_000,
    1_000,
    1,
];

impl fmt::Display for Thousands {
    fn fmt<W: fmt::Write>(&self, f: &mut fmt::Formatter<W>) -> fmt::Result {
        let mut is_begun = false;
        for group in GROUPS.iter() {
            let above = self.0.checked_div(*group).unwrap_or(0);
            if is_begun {
                write!(f, ",{:03}", above % 1000)?;
            } else if above > 0 || *group == 1 {
                write!(f, "{above}")?;
                is_begun = true;
            }
        }
        Ok(())
    }
}

/// A number, and what is counted.
#[derive(Clone, Copy)]
pub(crate) struct Counted(pub(crate) u64, pub(crate) &'static str);

impl fmt::Display for Counted {
    fn fmt<W: fmt::Write>(&self, f: &mut fmt::Formatter<W>) -> fmt::Result {
        let Counted(count, what) = *self;
        let plural = if count == 1 { "" } else { "s" };
        write!(f, "{} {what}{plural}", Thousands(count))
    }
}

impl fmt::Display for Tally {
    fn fmt<W: fmt::Write>(&self, f: &mut fmt::Formatter<W>) -> fmt::Result {
        let patterns = Counted(self.patterns, "pattern");
        write!(f, "{patterns}, {} refused", Thousands(self.refused()))?;
        if self.fixed > 0 {
            write!(f, ", {} fixed", Thousands(self.fixed))?;
        }
        if self.formatted > 0 {
            write!(f, ", {} formatted", Thousands(self.formatted))?;
        }
        let changed = self.changed.saturating_add(self.fixable);
        if changed > 0 {
            write!(f, ", {} would change", Thousands(changed))?;
        }
        if self.errors > 0 {
            write!(f, ", {}", Counted(self.errors, "error"))?;
        }
        if self.warnings > 0 {
            write!(f, ", {}", Counted(self.warnings, "warning"))?;
        }
        if self.passed_over > 0 {
            let count = Thousands(self.passed_over);
            write!(
                f,
                ", {count} passed over: invalid here, or read otherwise in their dialect"
            )?;
        }
        Ok(())
    }
}

/// How far a run is, which has taken so long.
#[derive(Clone, Copy)]
pub(crate) struct ProgressText<'a> {
    pub(crate) tally: &'a Tally,
    pub(crate) elapsed: Duration,
}

impl fmt::Display for ProgressText<'_> {
    fn fmt<W: fmt::Write>(&self, f: &mut fmt::Formatter<W>) -> fmt::Result {
        let ProgressText { tally, elapsed } = *self;
        let done = Thousands(tally.done as u64);
        let files = Counted(tally.files as u64, "file");
        let patterns = Counted(tally.patterns, "pattern");
        write!(f, "{done} of {files}, {patterns}")?;
        let percent = tally.percent();
        let left = elapsed
            .as_secs()
            .saturating_mul(100u64.saturating_sub(percent))
            .checked_div(percent);
        match left {
            Some(left) => write!(f, ", {percent}%, about {left} s left"),
            None => Ok(()),
        }
    }
}
