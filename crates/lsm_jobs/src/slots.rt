//! Four slots of jobs.

ghost use Rattle.std.specs.Prelude.{◌≡◌, ◌==◌, ◌<◌, ◌≤◌, length, is_some, IfOk, IfErr, None, Some, ℕ};
ghost use Rattle.std.specs.List.{list_any};
ghost use Rattle.lsm_device.specs.declared.refusal.Refusal.TheVariants.{NoSuchJob};
ghost use Rattle.lsm_levels.specs.Pick.{is_flush, is_merge, is_of_level_0, is_several, inputs};
ghost use Rattle.lsm_jobs.specs.Slots.{Slot, Writing, no_jobs, slot_of, with_held, left_at, less_left};
ghost use Rattle.lsm_jobs.specs.Holding.{holds, free_from, has_number, place_from, IsAt};

use crate::held::HeldJob;
use crate::outputs::Outputs;
use lsm_device::Refusal;
use lsm_levels::HeldJobs;
use std::alloc::{AllocError, Allocator, Global};
use std::marker::Model;

/// The jobs of a store, in four slots, and the number that the next one gets. Numbers begin at 1 and are never given
/// again.
#[derive(Drop)]
pub struct Slots<A: Allocator = Global> {
    pub(crate) next: u64,
    pub(crate) slots: Vec<Option<HeldJob<A>>, A>,
}

impl<A: Allocator> Model for Slots<A> {
    ghost use Rattle.lsm_jobs.specs.Slots.{JobSlots};

    ghost Value = { JobSlots };

    ghost view = { λ s. record { next = s.next; slots = s.slots.items } };
}

fn holds_flush<A: Allocator>(slot: &Option<HeldJob<A>>) -> bool
    ensures { result ≡ holds is_flush slot.now }
{
    match slot {
        Some(job) => job.is_flush(),
        None => false,
    }
}

fn holds_level_0<A: Allocator>(slot: &Option<HeldJob<A>>) -> bool
    ensures { result ≡ holds is_of_level_0 slot.now }
{
    match slot {
        Some(job) => job.is_of_level_0(),
        None => false,
    }
}

fn holds_merge<A: Allocator>(slot: &Option<HeldJob<A>>) -> bool
    ensures { result ≡ holds is_merge slot.now }
{
    match slot {
        Some(job) => job.is_merge(),
        None => false,
    }
}

fn holds_several<A: Allocator>(slot: &Option<HeldJob<A>>) -> bool
    ensures { result ≡ holds is_several slot.now }
{
    match slot {
        Some(job) => job.is_several(),
        None => false,
    }
}

fn holds_table<A: Allocator>(slot: &Option<HeldJob<A>>, number: u64) -> bool
    ensures { result ≡ holds (λ job. list_any (λ t. t.number == number) (inputs job)) slot.now }
{
    match slot {
        Some(job) => job.takes_in(number),
        None => false,
    }
}

fn hold_flush<A: Allocator>(slots: &[Option<HeldJob<A>>]) -> bool
    ensures { result ≡ list_any (holds is_flush) slots.now }
{
    slots.iter().any(|slot| holds_flush(slot))
}

fn hold_level_0<A: Allocator>(slots: &[Option<HeldJob<A>>]) -> bool
    ensures { result ≡ list_any (holds is_of_level_0) slots.now }
{
    slots.iter().any(|slot| holds_level_0(slot))
}

fn hold_merge<A: Allocator>(slots: &[Option<HeldJob<A>>]) -> bool
    ensures { result ≡ list_any (holds is_merge) slots.now }
{
    slots.iter().any(|slot| holds_merge(slot))
}

fn hold_several<A: Allocator>(slots: &[Option<HeldJob<A>>]) -> bool
    ensures { result ≡ list_any (holds is_several) slots.now }
{
    slots.iter().any(|slot| holds_several(slot))
}

fn hold_table<A: Allocator>(slots: &[Option<HeldJob<A>>], number: u64) -> bool
    ensures { result ≡ list_any (holds (λ job. list_any (λ t. t.number == number) (inputs job)))
        slots.now }
{
    slots.iter().any(|slot| holds_table(slot, number))
}

/// The least free place.
pub(crate) fn free_place<A: Allocator>(slots: &[Option<HeldJob<A>>]) -> Option<usize>
    ensures { result ≡ free_from 0 slots.now }
{
    for (place, slot) in slots.iter().enumerate() {
        if slot.is_none() {
            return Some(place);
        }
    }
    None
}

fn is_of<A: Allocator>(slot: &Option<HeldJob<A>>, number: u64) -> bool
    ensures { result ≡ has_number number slot.now }
{
    match slot {
        Some(job) => job.number() == number,
        None => false,
    }
}

/// The place of the job of a number.
fn place_of<A: Allocator>(slots: &[Option<HeldJob<A>>], number: u64) -> Option<usize>
    ensures { result ≡ place_from 0 number slots.now }
{
    for (place, slot) in slots.iter().enumerate() {
        if is_of(slot, number) {
            return Some(place);
        }
    }
    None
}

impl<A: Allocator> Slots<A> {
    /// Four free slots.
    pub fn new(alloc: A) -> Result<Slots<A>, AllocError>
        ensures { IfOk result (λ s. s ≡ no_jobs) }
    {
        let mut slots = Vec::with_capacity(alloc, 4)?;
        for _slot in 0..4_usize {
            slots.push(None)?;
        }
        Ok(Slots { next: 1, slots })
    }

    /// The job of a number, and its place.
    pub(crate) fn find(&self, job: u64) -> Result<(usize, &HeldJob<A>), Refusal>
        ensures found { IfOk result (λ found. IsAt job self.now.slots found.0 found.1.now) }
        ensures absent { IfErr result
            (λ refusal. (refusal ≡ NoSuchJob) × (slot_of job self.now.slots ≡ None)) }
    {
        let Some(place) = place_of(&self.slots, job) else {
            return Err(Refusal::NoSuchJob);
        };
        match &self.slots[place] {
            Some(held) => Ok((place, held)),
            None => Err(Refusal::NoSuchJob),
        }
    }

    /// Notes that `count` more blocks of the job at a place are written.
    pub(crate) fn note_written(&mut self, place: usize, count: u32)
        requires { (number : ℕ) × (slot : Slot) × IsAt number self.old.slots place slot
            × (count ≤ left_at slot.stage) }
        ensures { (number : ℕ) (slot : Slot) → IsAt number self.old.slots place slot
            → self.new ≡ record {
              next = self.old.next;
              slots = with_held number (Some (record slot { stage = less_left count slot.stage }))
                  self.old.slots;
            } }
    {
        match &mut self.slots[place] {
            Some(held) => held.note_written(count),
            None => {}
        }
    }

    /// Has the job at a place go over to the writing of outputs.
    pub(crate) fn set_outputs(&mut self, place: usize, outputs: Outputs<A>)
        requires { place < length self.old.slots }
        ensures { (number : ℕ) (slot : Slot) → IsAt number self.old.slots place slot
            → self.new ≡ record {
              next = self.old.next;
              slots = with_held number
                  (Some (record {
                    number = slot.number;
                    job = slot.job;
                    input = outputs.input;
                    stage = Writing outputs.tables outputs.left;
                  })) self.old.slots;
            } }
    {
        match &mut self.slots[place] {
            Some(held) => held.set_outputs(outputs),
            None => {}
        }
    }
}

impl<A: Allocator> HeldJobs for Slots<A> {
    ghost use Rattle.lsm_jobs.specs.Slots.{held_jobs};

    ghost jobs = { λ s. held_jobs s.slots };

    fn has_flush(&self) -> bool {
        hold_flush(&self.slots)
    }

    fn has_level_0(&self) -> bool {
        hold_level_0(&self.slots)
    }

    fn has_merge(&self) -> bool {
        hold_merge(&self.slots)
    }

    fn has_several(&self) -> bool {
        hold_several(&self.slots)
    }

    fn takes_in(&self, number: u64) -> bool {
        hold_table(&self.slots, number)
    }
}
