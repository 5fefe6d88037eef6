//! Laws of the definitions, for proofs of crates above: the function does nothing, and its contract states them.

ghost use Rattle.lsm_extent.specs.Laws.{ExtentLaws};

/// An extent that is handed out is among those that are, its blocks are held besides theirs, and giving it back undoes
/// that.
pub fn extent_laws()
    ensures { ExtentLaws }
{}
