// The cuts of a job that is taken: the counts at which the map is to stay, whatever is merged.
ghost use Rattle.std.specs.Prelude.{◌≡◌, ◌∷◌, ◌++◌, [], ℕ, List, map, IfOk, OnOk};
ghost use Rattle.lsm_store.specs.LiveMarks.{end_with};
ghost use Rattle.lsm_store.specs.Memory.{AreConsistent, state_of};
ghost use Rattle.lsm_machine.specs.Work.{cuts_of, each_once};

use crate::memory::Memory;
use crate::snapshots::Mark;
use std::alloc::{AllocError, Allocator};

// Whether counts end with this one.
fn is_last(counts: &[u64], count: u64) -> bool
    ensures { result ≡ end_with count counts.now }
{
    match counts.last() {
        Some(last) => *last == count,
        None => false,
    }
}

// Adds a count at the end, unless it is the last one already.
fn add_count<A: Allocator>(cuts: &mut Vec<u64, A>, count: u64) -> Result<(), AllocError>
    ensures { OnOk result ((before : List ℕ) → cuts.old.items ≡ each_once before
        → cuts.new.items ≡ each_once (before ++ count ∷ [])) }
{
    if is_last(cuts, count) {
        return Ok(());
    }
    cuts.push(count)?;
    Ok(())
}

// Adds those at which snapshots were taken.
fn add_counts<A: Allocator>(cuts: &mut Vec<u64, A>, marks: &[Mark]) -> Result<(), AllocError>
    ensures { OnOk result ((before : List ℕ) → cuts.old.items ≡ each_once before
        → cuts.new.items ≡ each_once (before ++ map (λ mark. mark.count) marks.now)) }
{
    for mark in marks {
        add_count(cuts, mark.count)?;
    }
    Ok(())
}

impl<A: Allocator + Clone> Memory<A> {
    /// The counts at which the live snapshots were taken, and the present one, each once.
    pub(crate) fn cuts(&self) -> Result<Vec<u64, A>, AllocError>
        requires { AreConsistent self.now }
        ensures { IfOk result (λ cuts. cuts.items ≡ cuts_of (state_of self.now)) }
    {
        let mut cuts = Vec::new(self.allocator().clone()?);
        add_counts(&mut cuts, self.snapshots.live())?;
        add_count(&mut cuts, self.count)?;
        Ok(cuts)
    }
}
