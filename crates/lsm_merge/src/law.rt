//! Laws of the definitions, for proofs of crates above: the function does nothing, and its contract states them.

ghost use Rattle.lsm_merge.specs.Divisions.{DivisionLaw};
ghost use Rattle.lsm_merge.specs.Laws.{KeepLaw};

/// A merge keeps the map at each cut, and at each count that no version is above where none is above some cut.
pub fn a_merge_keeps_the_maps()
    ensures { KeepLaw }
{}

/// Wherever what a merge keeps is divided, the tables are tables of it, all of it in order; and keys divide it in one way.
pub fn a_division_keeps_the_entries()
    ensures { DivisionLaw }
{}
