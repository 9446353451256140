//! What `patterns lint` finds: what may be wrong with a pattern that is accepted.
#![tactic(auto)]

mod branches;
mod captures;
mod classes;
mod empty;
mod escapes;
pub mod find;
mod fingerprint;
mod flags;
mod handed_on;
pub mod known;
mod neighbours;
mod quantifiers;
mod references;
mod scan;
pub mod silenced;
pub mod slow;
mod targets;
mod walk;
