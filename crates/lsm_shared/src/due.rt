// Which slots are due.
ghost use Rattle.std.specs.Prelude.{◌≡◌, None, slice_index_or, if◌then◌else◌};
ghost use Rattle.lsm_jobs.specs.Slots.{slot_of};
ghost use Rattle.lsm_machine.specs.Pieces.{places_from};
ghost use Rattle.lsm_store.specs.Backing.{machine_of};
ghost use Rattle.lsm_shared.specs.Due.{is_flush_due, is_for_flush, is_for_merge, takes_in_none, due_or_none};

use lsm_device::Device;
use lsm_jobs::Slots;
use lsm_levels::HeldJobs;
use lsm_store::Store;
use std::alloc::Allocator;

/// How many slots there are. As a place it is that of no slot, at which nothing waits.
const SLOTS: usize = 4;

/// The places of the slots, from that of a client's number on, round.
pub(crate) fn places_from(number: u32) -> [usize; 4]
    ensures { result ≡ places_from number }
{
    let first = number as usize;
    [
        first % SLOTS,
        (first + 1) % SLOTS,
        (first + 2) % SLOTS,
        (first + 3) % SLOTS,
    ]
}

/// The places that are due, from that of a client's number on, round: first that of the flush, or the free ones if one is due, and then
/// those of merges. Each other one is replaced by the place of no slot.
pub(crate) fn places_due<D: Device, A: Allocator>(store: &Store<D, A>, number: u32) -> [usize; 8]
    ensures { result ≡ due_or_none (machine_of store.now) number }
{
    let jobs = store.jobs();
    let is_due = is_flush_due(store);
    let [first, second, third, fourth] = places_from(number);
    [
        if_for_flush(jobs, is_due, first),
        if_for_flush(jobs, is_due, second),
        if_for_flush(jobs, is_due, third),
        if_for_flush(jobs, is_due, fourth),
        if_for_merge(jobs, first),
        if_for_merge(jobs, second),
        if_for_merge(jobs, third),
        if_for_merge(jobs, fourth),
    ]
}

/// Whether a flush waits that no slot holds: then it is taken first. In a stopped store none does.
pub(crate) fn is_flush_due<D: Device, A: Allocator>(store: &Store<D, A>) -> bool
    ensures { result ≡ is_flush_due (machine_of store.now) }
{
    match store.stat() {
        Ok(stat) => stat.waiting && !store.jobs().has_flush(),
        Err(_stopped) => false,
    }
}

// This place, where the slot is free and a flush is due, or where it holds a flush.
fn if_for_flush<A: Allocator>(jobs: &Slots<A>, is_due: bool, place: usize) -> usize
    ensures { result
        ≡ (if is_for_flush is_due jobs.now.slots (slice_index_or jobs.now.slots place None)
        then place else 4) }
{
    if is_for_flush(jobs, is_due, place) {
        place
    } else {
        SLOTS
    }
}

fn is_for_flush<A: Allocator>(jobs: &Slots<A>, is_due: bool, place: usize) -> bool
    ensures { result ≡ is_for_flush is_due jobs.now.slots
        (slice_index_or jobs.now.slots place None) }
{
    match jobs.turn_at(place) {
        Some(turn) => takes_in_none(jobs, turn.job),
        None => is_due,
    }
}

// This place, where the slot holds a merge.
fn if_for_merge<A: Allocator>(jobs: &Slots<A>, place: usize) -> usize
    ensures { result
        ≡ (if is_for_merge jobs.now.slots (slice_index_or jobs.now.slots place None) then place
        else 4) }
{
    if is_for_merge(jobs, place) {
        place
    } else {
        SLOTS
    }
}

fn is_for_merge<A: Allocator>(jobs: &Slots<A>, place: usize) -> bool
    ensures { result ≡ is_for_merge jobs.now.slots (slice_index_or jobs.now.slots place None) }
{
    match jobs.turn_at(place) {
        Some(turn) => !takes_in_none(jobs, turn.job),
        None => false,
    }
}

// Whether a job takes in no table, as only a flush does: no table lies within 0 sectors.
fn takes_in_none<A: Allocator>(jobs: &Slots<A>, job: u64) -> bool
    ensures { result ≡ takes_in_none (slot_of job jobs.now.slots) }
{
    jobs.can_be_read(job, 0, 1)
}
