//! Tests of what no run of `patterns` from outside shows: a reader and writers that fail, and colours on one terminal only.
//! What the program writes is compared by `.ci/runs` with the folder `data` of `patterns`.
#![tactic(auto)]

#[cfg(test)]
mod memory;
#[cfg(test)]
mod runs;
