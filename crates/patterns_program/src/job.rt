//! What a run is to do.
use pattern_reports::format::ReportFormat;
use pattern_reports::streams::Stream;
use patterns_config::choices::Choices;
use patterns_text::paint::Paints;

/// What is done with each pattern.
#[derive(Clone, Copy, PartialEq, Eq)]
pub enum Command {
    /// It is parsed, and its error is reported.
    Check,
    /// Its groups are listed, with what its references and calls refer to; and its classes, if so.
    Groups { has_classes: bool },
    /// Likely mistakes in it are reported.
    Lint,
    /// It is formatted.
    Format,
}

/// What becomes of patterns that `lint` fixes or `format` changes.
#[derive(Clone, Copy, PartialEq, Eq)]
pub enum Output {
    /// They stay as they are, and only reports are written.
    Reports,
    /// All patterns are written to standard output.
    Patterns,
    /// It is shown where they would change first, and each is a failure.
    Check,
    /// The changes are shown: of those in files as a patch.
    Diff,
    /// They are changed in their files. Standard input and arguments, if there are some, are written to standard output with
    /// theirs.
    Files { has_output: bool },
}

/// A command over files, and as far as no configuration says otherwise how the files have patterns.
#[derive(Clone, Copy)]
pub struct Job<'a> {
    pub command: Command,
    /// How reports are written.
    pub format: ReportFormat,
    pub output: Output,
    /// Patterns that are arguments. They come before those of the files.
    pub patterns: &'a [&'a str],
    /// Whether the run says neither how far it is nor, at its end, what the outcomes of the patterns are; and not
    /// that a file is read as lines whose name is that of a file of another format.
    pub is_quiet: bool,
    /// How many warnings of `lint` the run may have, if that is limited.
    pub max_warnings: Option<u64>,
    pub paints: Paints,
    /// What the arguments choose where a configuration may say otherwise.
    pub choices: Choices<'a>,
}

impl Job<'_> {
    /// Where errors and likely mistakes are written as text: not among patterns or changes that are written.
    pub(crate) fn stream(self) -> Stream {
        match (self.command, self.output) {
            (_, Output::Files { has_output: true } | Output::Diff) => Stream::Err,
            (Command::Check | Command::Lint, _) => Stream::Out,
            (Command::Groups { .. } | Command::Format, _) => Stream::Err,
        }
    }

    /// Whether patterns are changed in their files.
    pub(crate) fn writes_files(self) -> bool {
        matches!(self.output, Output::Files { .. })
    }

    /// Whether it writes lines, so that it cannot read a file that a configuration says is JSON.
    pub(crate) fn writes_lines(self) -> bool {
        self.output == Output::Patterns && !self.choices.has_form
    }
}
