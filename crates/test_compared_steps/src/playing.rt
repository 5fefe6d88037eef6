//! Steps that a store and a plain machine both make.

use crate::disk::{Disk, Mask};
use crate::plain::{Answer, Machine, Step};
use crate::subject::{Subject, open};
use crate::trouble::{Trouble, agree};
use lsm_store::At;
use std::alloc::Allocator;
use std::thread::Threads;

/// The store on a device, whose opening is not to be refused.
pub fn opened<A: Allocator + Clone, B: Allocator>(
    alloc: &A,
    disk: Disk<B>,
) -> Result<Subject<A, B>, Trouble> {
    match open(alloc.clone()?, alloc.clone()?, disk) {
        Ok(subject) => Ok(subject),
        Err((refusal, _)) => Err(Trouble::Refusal(refusal)),
    }
}

/// Makes steps, each of which is answered as the machine says.
pub fn play<R: Threads + Sync, A: Allocator + Clone + Send + Sync, B: Allocator>(
    rt: &R,
    subject: &mut Subject<A, B>,
    machine: &mut Machine,
    steps: &[Step],
) -> Result<(), Trouble> {
    for step in steps {
        agree(*step, subject.answer(rt, *step), machine.answer(*step))?;
    }
    Ok(())
}

/// Whether an opened store has a number of batches that a crash may leave, and just their map.
pub fn has_map<A: Allocator + Clone, B: Allocator>(
    subject: &mut Subject<A, B>,
    machine: &Machine,
) -> Result<(), Trouble> {
    let (count, _) = subject.counts();
    if !machine.may_leave(count) {
        return Err(Trouble::Count(count));
    }
    let wanted = machine.rows_after(count);
    match subject.answer_alone(Step::Scan(At::Now, 0, 64)) {
        Answer::Rows(found) if found == wanted => Ok(()),
        _ => Err(Trouble::Map(count)),
    }
}

/// Opens a device, and looks whether it has a map that the machine may leave.
pub fn find<A: Allocator + Clone, B: Allocator>(
    alloc: &A,
    disk: Disk<B>,
    machine: &Machine,
) -> Result<(), Trouble> {
    let mut subject = opened(alloc, disk)?;
    has_map(&mut subject, machine)
}

/// Lets a crash come over a store, and looks what it left.
pub fn crash<A: Allocator + Clone, B: Allocator>(
    alloc: &A,
    subject: Subject<A, B>,
    machine: &Machine,
    mask: Mask,
) -> Result<(), Trouble> {
    find(alloc, subject.into_disk().crashed(mask), machine)
}

/// Whether a store has the tables of the machine in its levels.
fn has_tables<A: Allocator + Clone, B: Allocator>(
    subject: &Subject<A, B>,
    machine: &Machine,
) -> Result<(), Trouble> {
    let (found, wanted) = (subject.tables(), machine.tables());
    if found == wanted {
        return Ok(());
    }
    Err(Trouble::Tables { found, wanted })
}

/// Whether a store is in the state of the machine, as its numbers and its tables tell.
pub fn is_unchanged<A: Allocator + Clone, B: Allocator>(
    subject: &mut Subject<A, B>,
    machine: &mut Machine,
) -> Result<(), Trouble> {
    if subject.counts() != machine.counts() {
        let (count, _) = subject.counts();
        return Err(Trouble::Count(count));
    }
    has_tables(subject, machine)?;
    let found = subject.answer_alone(Step::Stat);
    agree(Step::Stat, found, machine.answer(Step::Stat))
}

/// Whether a store is in the state of the machine, unless it is stopped.
pub fn is_left<A: Allocator + Clone, B: Allocator>(
    subject: &mut Subject<A, B>,
    machine: &mut Machine,
) -> Result<(), Trouble> {
    if machine.is_stopped() {
        return Ok(());
    }
    is_unchanged(subject, machine)
}
