//! The formats of reports.

/// A format of reports.
#[derive(Clone, Copy, PartialEq, Eq)]
pub enum ReportFormat {
    /// Lines of text, with the pattern.
    Text,
    /// An object of JSON for each report, in a line.
    Json,
    /// The workflow commands of GitHub's actions, a line for each report.
    Github,
    /// The Static Analysis Results Interchange Format, 2.1.0: one object of JSON, with a line for each report.
    Sarif,
}

/// The names of the formats, as arguments have them.
pub const FORMAT_NAMES: &[&str] = &["text", "json", "github", "sarif"];

impl ReportFormat {
    /// The format of this name, if there is one.
    pub fn named(name: &str) -> Option<ReportFormat> {
        match name {
            "text" => Some(ReportFormat::Text),
            "json" => Some(ReportFormat::Json),
            "github" => Some(ReportFormat::Github),
            "sarif" => Some(ReportFormat::Sarif),
            _ => None,
        }
    }
}
