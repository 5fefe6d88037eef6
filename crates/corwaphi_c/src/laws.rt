//! Laws of the definitions, for whoever reads the clauses of several calls together: the function does nothing, and its contract states
//! them.

ghost use Rattle.corwaphi_c.specs.Laws.{BacksNext, PassesThrough, ShowsNext};

/// The calls of a host that makes each journal before the next call are those of a store on one device: each begins with the disks that
/// the one before it left, and what that left the device backs still. A host that stops within a journal has made one of these disks.
pub fn calls_follow()
    ensures shows { ShowsNext }
    ensures backs { BacksNext }
    ensures passes { PassesThrough }
{}
