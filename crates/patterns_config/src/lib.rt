//! The file `patterns.toml`, which says which files of a folder are read, and how; and the plan of a run, which has the
//! configuration of each file.
#![tactic(auto)]

pub mod choices;
mod config;
mod config_error;
mod configs;
pub mod file_settings;
mod glob;
mod options;
pub mod plan;
mod tables;
mod wild;
