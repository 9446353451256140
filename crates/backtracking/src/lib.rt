//! Repeats that can match a text in many ways, each with a word that a proved checker has accepted: exponentially many
//! for one repeat, polynomially many for two of a concatenation, and one from each start for one that a branch begins with.
#![tactic(auto)]

pub mod attack;
mod automaton;
mod characters;
mod checker;
mod common;
mod crossing;
pub mod cut;
pub mod decision;
mod engine;
mod growth;
pub mod known_sets;
mod pairs;
mod part_kind;
mod passed;
mod pieces;
mod program;
mod regular_shape;
pub mod repeats;
mod routes;
mod sample;
pub mod searches;
pub mod sequence;
pub mod sequences;
mod trial;
mod triples;
mod width;
pub mod witness;
