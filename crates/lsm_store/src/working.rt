// The pieces of work on jobs, over the parts of a store.
ghost use Rattle.std.specs.Prelude.{◌≡◌, ℕ, length, Option, Some, None, nat_le, option_map, if◌then◌else◌, IsTrue, IfOk, MatchResult};
ghost use Rattle.std.specs.Arc.{arc_value};
ghost use Rattle.lsm_cache.specs.Recency.{Cached};
ghost use Rattle.lsm_device.specs.Medium.{Medium, disk};
ghost use Rattle.lsm_machine.specs.Calls.{Number, Done, Handed, reply_of, taken_reply};
ghost use Rattle.lsm_store.specs.Memory.{AreConsistent, IsInside, view_of};
ghost use Rattle.lsm_machine.specs.Work.{Take, Read, Ask, Accept, Write, Drop};
ghost use Rattle.lsm_store.specs.Working.{Works};
ghost use Rattle.lsm_store.specs.Merging.{IsMerged, RefusesMerge};
ghost use Rattle.lsm_jobs.specs.Refusing.{HasInput};
ghost use Rattle.lsm_jobs.specs.Slots.{slot_of};

use crate::memory::Memory;
use lsm_codec::{Key, LogRecord};
use lsm_device::{Device, Refusal};
use lsm_jobs::TakenJob;
use lsm_levels::Choice;
use lsm_mem::Sealed;
use lsm_merge::{Built, Input, build_here};
use std::alloc::Allocator;
use std::sync::Arc;

// What waits for a flush, where a region is closed.
fn waiting<'a, A: Allocator>(
    closed: &[LogRecord],
    sealed: &'a Option<Arc<Sealed<A>, A>>,
) -> Option<&'a Sealed<A>>
    ensures { option_map (λ s. s.now) result
        ≡ (if nat_le 1 (length closed.now) then option_map arc_value sealed.now else None) }
{
    if closed.is_empty() {
        return None;
    }
    sealed.as_deref()
}

/// Takes the job that is chosen, or where none is the one that comes next.
pub(crate) fn take<A: Allocator + Clone>(
    memory: &mut Memory<A>,
    asked: Option<Choice>,
) -> Result<Option<TakenJob>, Refusal>
    requires { AreConsistent memory.old }
    ensures works { (medium : Medium) (cache : Cached)
        → Works (view_of medium memory.old cache) (Take asked) (reply_of taken_reply result)
        (view_of medium memory.new cache) }
    ensures kept { AreConsistent memory.new }
    ensures inside { (size : ℕ) → IsInside size memory.old → IsInside size memory.new }
{
    memory.check_running()?;
    let _runs = memory.levels.runs();
    let waits = !memory.regions.closed.is_empty();
    if !memory.jobs.has_next(&memory.levels, asked, waits)? {
        return Ok(None);
    }
    let cuts = memory.cuts()?;
    let alloc = memory.regions.closed.allocator();
    let sealed = waiting(&memory.regions.closed, &memory.sealed);
    memory.jobs.take(alloc, &memory.levels, asked, sealed, cuts)
}

/// Reads the next data blocks of a job's tables.
pub(crate) fn read<D: Device, A: Allocator + Clone>(
    device: &mut D,
    memory: &mut Memory<A>,
    job: u64,
) -> Result<usize, Refusal>
    requires kept { AreConsistent memory.old }
    requires inside { IsInside (D.medium device.old).size memory.old }
    ensures works { (cache : Cached)
        → Works (view_of (D.medium device.old) memory.old cache) (Read job) (reply_of Number result)
        (view_of (D.medium device.new) memory.new cache) }
    ensures kept { AreConsistent memory.new }
    ensures inside { IsInside (D.medium device.new).size memory.new }
{
    memory.check_running()?;
    let _runs = memory.levels.runs();
    let area = memory.regions.data_start();
    let alloc = memory.regions.closed.allocator();
    memory.jobs.read(alloc, job, area, device)
}

/// Writes the next blocks of a job's outputs.
pub(crate) fn write<D: Device, A: Allocator>(
    device: &mut D,
    memory: &mut Memory<A>,
    job: u64,
) -> Result<u32, Refusal>
    requires kept { AreConsistent memory.old }
    requires inside { IsInside (D.medium device.old).size memory.old }
    ensures works { (cache : Cached)
        → Works (view_of (D.medium device.old) memory.old cache) (Write job)
        (reply_of Number result) (view_of (D.medium device.new) memory.new cache) }
    ensures kept { AreConsistent memory.new }
    ensures inside { IsInside (D.medium device.new).size memory.new }
{
    memory.check_running()?;
    memory.extents.partition();
    let area = memory.regions.data_start();
    match memory.jobs.write(job, device, area) {
        Ok(left) => Ok(left),
        Err(refusal) => match refusal {
            Refusal::Io => {
                memory.stop_in_write();
                Err(Refusal::Io)
            }
            other => Err(other),
        },
    }
}

/// What a job's merge is given.
pub(crate) fn input<A: Allocator>(memory: &Memory<A>, job: u64) -> Result<Arc<Input<A>, A>, Refusal>
    requires { AreConsistent memory.now }
    ensures works { (medium : Medium) (cache : Cached)
        → Works (view_of medium memory.now cache) (Ask job)
        (reply_of (λ input. Handed (arc_value input)) result)
        (view_of medium memory.now cache) }
    ensures own { IfOk result
        (λ input. HasInput (arc_value input) (slot_of job memory.now.jobs.slots)) }
{
    memory.check_running()?;
    memory.jobs.input(job)
}

/// Merges what a job has, and places the tables of the result.
pub(crate) fn merge<A: Allocator + Clone>(
    memory: &mut Memory<A>,
    job: u64,
    divisions: Vec<Key<A>, A>,
) -> Result<(), Refusal>
    requires { AreConsistent memory.old }
    ensures works { (medium : Medium) (cache : Cached) → IsInside medium.size memory.old
        → (IsTrue medium.lasting.tells → length (disk medium).stands ≡ medium.size)
        → MatchResult result
        (λ _. IsMerged job divisions.items Done (view_of medium memory.old cache)
        (view_of medium memory.new cache))
        (λ refusal. RefusesMerge job divisions.items refusal (view_of medium memory.old cache)
        (view_of medium memory.new cache)) }
    ensures kept { AreConsistent memory.new }
    ensures inside { (size : ℕ) → IsInside size memory.old → IsInside size memory.new }
{
    let input = input(memory, job)?;
    let alloc = memory.regions.closed.allocator().clone()?;
    let built = build_here(alloc, input, divisions)?;
    accept_own(memory, job, &built)
}

/// Places the tables of a result that was built of the job's own input.
fn accept_own<A: Allocator + Clone>(
    memory: &mut Memory<A>,
    job: u64,
    built: &Built<A>,
) -> Result<(), Refusal>
    requires kept { AreConsistent memory.old }
    requires own { HasInput built.now.input (slot_of job memory.old.jobs.slots) }
    ensures works { (medium : Medium) (cache : Cached) → IsInside medium.size memory.old
        → (IsTrue medium.lasting.tells → length (disk medium).stands ≡ medium.size)
        → Works (view_of medium memory.old cache) (Accept job (Some built.now))
        (reply_of (λ _. Done) result) (view_of medium memory.new cache) }
    ensures kept { AreConsistent memory.new }
    ensures inside { (size : ℕ) → IsInside size memory.old → IsInside size memory.new }
{
    memory.check_running()?;
    let _images = built.images();
    let alloc = memory.regions.closed.allocator();
    let number = memory.next_table;
    let next = memory
        .jobs
        .accept_own(alloc, job, built, &mut memory.extents, number)?;
    memory.next_table = next;
    memory.extents.partition();
    Ok(())
}

/// Places the tables of a result.
pub(crate) fn accept<A: Allocator + Clone>(
    memory: &mut Memory<A>,
    job: u64,
    built: &Built<A>,
) -> Result<(), Refusal>
    requires { AreConsistent memory.old }
    ensures works { (medium : Medium) (cache : Cached) → IsInside medium.size memory.old
        → (IsTrue medium.lasting.tells → length (disk medium).stands ≡ medium.size)
        → Works (view_of medium memory.old cache) (Accept job (Some built.now))
        (reply_of (λ _. Done) result) (view_of medium memory.new cache) }
    ensures kept { AreConsistent memory.new }
    ensures inside { (size : ℕ) → IsInside size memory.old → IsInside size memory.new }
{
    memory.check_running()?;
    memory.jobs.check_result(job, built)?;
    accept_own(memory, job, built)
}

/// Gives a job up.
pub(crate) fn drop<A: Allocator>(memory: &mut Memory<A>, job: u64) -> Result<(), Refusal>
    requires { AreConsistent memory.old }
    ensures works { (medium : Medium) (cache : Cached)
        → Works (view_of medium memory.old cache) (Drop job) (reply_of (λ _. Done) result)
        (view_of medium memory.new cache) }
    ensures kept { AreConsistent memory.new }
    ensures inside { (size : ℕ) → IsInside size memory.old → IsInside size memory.new }
{
    memory.check_running()?;
    memory.extents.partition();
    memory.jobs.drop(job, &mut memory.extents)
}
