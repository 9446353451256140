//! Formatting of patterns that keeps what their authors wrote, and the proof that it changes nothing else.
#![tactic(auto)]

mod all_comments;
mod bars;
mod blanks;
mod columns;
mod comments;
mod compact;
mod cut;
pub mod extent;
mod flag_groups;
pub mod format;
mod items;
mod kept_counts;
mod labels;
mod layout;
mod nodes;
mod pieces;
mod read_back;
mod removed;
mod sheet;
pub mod spelled;
mod spelling;
pub mod style;
mod tab_stops;
mod token;
mod verbose;
mod written;
