//! The language of patterns: its grammar, what trees print as, and laws about both. The definitions are in `specs/`,
//! the laws in `proofs/`. The code here is what the definitions and the trees share, the numbers of groups, and one law
//! that relates the grammar's premises to the relations.
#![tactic(auto)]

pub mod depth;
pub mod kinds;
pub mod needs;
pub mod precedence;
pub mod premises;
pub mod ranks;
pub mod written;
