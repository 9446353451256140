//! What the premises of the grammar mean.
ghost use Rattle.fancy_grammar.specs.Premises.{LayoutIsRelated, ClassIsRelated, LettersAreRelated, BoundaryIsRelated};

/// Does nothing: its clauses are laws. The grammar's premises read some parts of the text with functions that loop.
/// Each of these functions gives the result that the relation of that part gives, and no other.
pub fn premises()
    ensures layout { LayoutIsRelated }
    ensures class { ClassIsRelated }
    ensures letters { LettersAreRelated }
    ensures boundary { BoundaryIsRelated }
{}
