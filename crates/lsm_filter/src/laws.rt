//! Laws of the definitions, for proofs of crates above: the function does nothing, and its contract states them.

ghost use Rattle.lsm_filter.specs.Laws.{FilterLaws};

/// Each key of a filter is perhaps in it, a bit is set exactly where one of the keys has it, and neither order nor number of
/// the keys matters.
pub fn filter_laws()
    ensures { FilterLaws }
{}
