//! Reports on patterns: as text, as JSON, as workflow commands of GitHub's actions, as SARIF, and as values.
#![tactic(auto)]

mod annotation;
mod error_kinds;
pub mod fixes;
pub mod format;
pub mod github;
pub mod json_lines;
pub mod kept;
pub mod reporter;
pub mod reports;
pub mod sarif;
pub mod severity;
pub mod streams;
pub mod text;
