//! Batches are written. Each call returns the sequence number of its batch. Where the store is to be made ready for it first, it returns
//! that work comes first: the host calls `corwaphi_store_work` until there is nothing to do, or nothing that a write waits for, and makes
//! the same call again. After a few times the batch is written, or refused.
//!
//! A batch is taken only where its entries will find room in tables. So one that puts values fails with NoSpace where they find none
//! though all tables were merged down as far as they go; and one of deletes only while a snapshot is live. LogFull is never returned:
//! where no log with room could be opened, that is NoSpace too.

ghost use Rattle.std.specs.Prelude.{◌≡◌, ◌≤◌, ◌++◌, ◌∷◌, [], Some, None, List, option_map, length, map, MatchResult};
ghost use Rattle.lsm_device.specs.Disk.{Disk};
ghost use Rattle.lsm_codec.specs.Answers.{key_refusal, or_then, value_refusal};
ghost use Rattle.lsm_codec.specs.BatchText.{IsChange, batch_of};
ghost use Rattle.lsm_machine.specs.Calls.{Number, reply_of};
ghost use Rattle.corwaphi_c.specs.Calls.{Commits, CommitsOne, CommitsText, CommitsTextIf, IsNumber, IsPlace, IsShown, IsUnread, MakesIn, condition_of, guards_of, store_in};

use crate::answers::{BAD_TEXT, OK, WORK_FIRST, code, number};
use crate::handle::{Handle, Slot};
use crate::kept::{JOURNAL_BYTES, Kept, lend};
use crate::pieces::Upkeep;
use lsm_codec::{Batch, Guard, Op};
use lsm_device::{Device, Refusal};
use lsm_mapped::MappedDevice;
use lsm_store::Store;
use lsm_upkeep::{Verdict, without_log_full};
use std::alloc::Global;

/// Puts a value under a key. Fails with BadKey, BadValue, NoSpace, and as a commit of the store.
#[unsafe(no_mangle)]
pub extern "C" fn corwaphi_store_put(
    alloc: Global,
    handle: Handle,
    slot: &mut Slot,
    image: &[u8],
    journal: &mut [u8],
    used: &mut usize,
    key: &[u8],
    value: &[u8],
    number: &mut u64,
) -> u32
    ghost past: { List Disk }
    requires { IsShown handle.value.store image.now past }
    ensures { CommitsOne (or_then (key_refusal key.now) (value_refusal value.now))
        (record { key = key.now; value = Some value.now }) result number.new
        (record { past = past; used = used.new; journal = journal.new }) handle.value.store
        (store_in slot.new.value) }
{
    let mut kept = handle.into_box();
    let answer = put(alloc, &mut kept, image, journal, used, key, value, number);
    slot.put(kept);
    answer
}

fn put(
    alloc: Global,
    kept: &mut Kept,
    image: &[u8],
    journal: &mut [u8],
    used: &mut usize,
    key: &[u8],
    value: &[u8],
    number: &mut u64,
) -> u32
    ghost past: { List Disk }
    requires { IsShown kept.old.store image.now past }
    ensures { CommitsOne (or_then (key_refusal key.now) (value_refusal value.now))
        (record { key = key.now; value = Some value.now }) result number.new
        (record { past = past; used = used.new; journal = journal.new }) kept.old.store
        kept.new.store }
{
    *used = 0;
    match Op::put(alloc, key, value) {
        Ok(operation) => commit_one(alloc, kept, image, journal, used, operation, number),
        Err(refusal) => code(refusal),
    }
}

/// Deletes a key. Fails with BadKey, and as a commit of the store.
#[unsafe(no_mangle)]
pub extern "C" fn corwaphi_store_delete(
    alloc: Global,
    handle: Handle,
    slot: &mut Slot,
    image: &[u8],
    journal: &mut [u8],
    used: &mut usize,
    key: &[u8],
    number: &mut u64,
) -> u32
    ghost past: { List Disk }
    requires { IsShown handle.value.store image.now past }
    ensures { CommitsOne (key_refusal key.now) (record { key = key.now; value = None }) result
        number.new (record { past = past; used = used.new; journal = journal.new })
        handle.value.store (store_in slot.new.value) }
{
    let mut kept = handle.into_box();
    let answer = delete(alloc, &mut kept, image, journal, used, key, number);
    slot.put(kept);
    answer
}

fn delete(
    alloc: Global,
    kept: &mut Kept,
    image: &[u8],
    journal: &mut [u8],
    used: &mut usize,
    key: &[u8],
    number: &mut u64,
) -> u32
    ghost past: { List Disk }
    requires { IsShown kept.old.store image.now past }
    ensures { CommitsOne (key_refusal key.now) (record { key = key.now; value = None }) result
        number.new (record { past = past; used = used.new; journal = journal.new }) kept.old.store
        kept.new.store }
{
    *used = 0;
    match Op::delete(alloc, key) {
        Ok(operation) => commit_one(alloc, kept, image, journal, used, operation, number),
        Err(refusal) => code(refusal),
    }
}

// Commits the batch of one operation.
fn commit_one(
    alloc: Global,
    kept: &mut Kept,
    image: &[u8],
    journal: &mut [u8],
    used: &mut usize,
    operation: Op,
    number: &mut u64,
) -> u32
    ghost past: { List Disk }
    requires { IsShown kept.old.store image.now past }
    ensures { CommitsOne None operation result number.new
        (record { past = past; used = used.new; journal = journal.new }) kept.old.store
        kept.new.store }
{
    *used = 0;
    match Batch::new(alloc, operation) {
        Ok(batch) => commit(kept, image, journal, used, &batch, number),
        Err(refusal) => code(refusal),
    }
}

/// Writes a batch, whole or not at all, which is given by its text. Fails with BadText, NoSpace where puts lack room, and as a commit
/// of the store.
#[unsafe(no_mangle)]
pub extern "C" fn corwaphi_store_write(
    alloc: Global,
    handle: Handle,
    slot: &mut Slot,
    image: &[u8],
    journal: &mut [u8],
    used: &mut usize,
    text: &[u8],
    number: &mut u64,
) -> u32
    ghost past: { List Disk }
    requires { IsShown handle.value.store image.now past }
    ensures { CommitsText text.now result number.new
        (record { past = past; used = used.new; journal = journal.new }) handle.value.store
        (store_in slot.new.value) }
{
    let mut kept = handle.into_box();
    let answer = write(alloc, &mut kept, image, journal, used, text, number);
    slot.put(kept);
    answer
}

fn write(
    alloc: Global,
    kept: &mut Kept,
    image: &[u8],
    journal: &mut [u8],
    used: &mut usize,
    text: &[u8],
    number: &mut u64,
) -> u32
    ghost past: { List Disk }
    requires { IsShown kept.old.store image.now past }
    ensures { CommitsText text.now result number.new
        (record { past = past; used = used.new; journal = journal.new }) kept.old.store
        kept.new.store }
{
    *used = 0;
    match read_batch(alloc, text) {
        Ok(batch) => commit(kept, image, journal, used, &batch, number),
        Err(answer) => answer,
    }
}

// The batch that a text says.
fn read_batch(alloc: Global, text: &[u8]) -> Result<Batch, u32>
    ensures { MatchResult result (λ batch. batch_of text.now ≡ Some batch)
        (λ answer. IsUnread (batch_of text.now) answer) }
{
    match Batch::decode(alloc, text) {
        Ok(Some(batch)) => Ok(batch),
        Ok(None) => Err(BAD_TEXT),
        Err(refusal) => Err(code(refusal)),
    }
}

fn commit(
    kept: &mut Kept,
    image: &[u8],
    journal: &mut [u8],
    used: &mut usize,
    batch: &Batch,
    out: &mut u64,
) -> u32
    ghost past: { List Disk }
    requires { IsShown kept.old.store image.now past }
    ensures { MakesIn (Commits None batch.now (λ reply. IsNumber reply result out.new) result)
        result (record { past = past; used = used.new; journal = journal.new }) kept.old.store
        kept.new.store }
{
    *used = 0;
    if journal.len() < JOURNAL_BYTES {
        return code(Refusal::BadLimit);
    }
    let Some(parked) = kept.store.take() else {
        return code(Refusal::Stopped);
    };
    let mut device = MappedDevice::new(image, journal, parked.sectors());
    let mut store = lend(parked, &mut device);
    let answer = commit_in(&mut store, &mut kept.upkeep, batch, out);
    kept.park(store, &mut device);
    *used = device.used();
    answer
}

// Commits a batch that is admitted.
fn commit_in<D: Device>(
    store: &mut Store<D>,
    upkeep: &mut Upkeep,
    batch: &Batch,
    out: &mut u64,
) -> u32
    ensures { Commits None batch.now (λ reply. IsNumber reply result out.new) result store.old
        store.new }
{
    match upkeep.admit(store, batch) {
        Verdict::Commit => number(without_log_full(store.commit(batch)), out),
        Verdict::Refuse => code(Refusal::NoSpace),
        Verdict::After(_) => WORK_FIRST,
    }
}

/// Writes a batch where the present map meets guards, which are given as the text of a batch too, or as no bytes where there are none:
/// a put says that its key has its value, a delete that its key has none. Fails as `corwaphi_store_write`, with TooManyGuards, and
/// with GuardFailed and the place of the first guard that is false, counted from 0.
#[unsafe(no_mangle)]
pub extern "C" fn corwaphi_store_write_if(
    alloc: Global,
    handle: Handle,
    slot: &mut Slot,
    image: &[u8],
    journal: &mut [u8],
    used: &mut usize,
    guards: &[u8],
    text: &[u8],
    number: &mut u64,
    place: &mut u8,
) -> u32
    ghost past: { List Disk }
    requires { IsShown handle.value.store image.now past }
    ensures { CommitsTextIf guards.now text.now result number.new place.new
        (record { past = past; used = used.new; journal = journal.new }) handle.value.store
        (store_in slot.new.value) }
{
    let mut kept = handle.into_box();
    let answer = write_if(
        alloc, &mut kept, image, journal, used, guards, text, number, place,
    );
    slot.put(kept);
    answer
}

fn write_if(
    alloc: Global,
    kept: &mut Kept,
    image: &[u8],
    journal: &mut [u8],
    used: &mut usize,
    guards: &[u8],
    text: &[u8],
    number: &mut u64,
    place: &mut u8,
) -> u32
    ghost past: { List Disk }
    requires { IsShown kept.old.store image.now past }
    ensures { CommitsTextIf guards.now text.now result number.new place.new
        (record { past = past; used = used.new; journal = journal.new }) kept.old.store
        kept.new.store }
{
    *used = 0;
    let guards = match read_guards(alloc, guards) {
        Ok(guards) => guards,
        Err(answer) => return answer,
    };
    match read_batch(alloc, text) {
        Ok(batch) => commit_if(kept, image, journal, used, &guards, &batch, number, place),
        Err(answer) => answer,
    }
}

fn commit_if(
    kept: &mut Kept,
    image: &[u8],
    journal: &mut [u8],
    used: &mut usize,
    guards: &[Guard],
    batch: &Batch,
    number: &mut u64,
    place: &mut u8,
) -> u32
    ghost past: { List Disk }
    requires { IsShown kept.old.store image.now past }
    ensures { MakesIn
        (Commits (Some guards.now) batch.now
        (λ reply. IsNumber reply result number.new × IsPlace reply place.new) result) result
        (record { past = past; used = used.new; journal = journal.new }) kept.old.store
        kept.new.store }
{
    *used = 0;
    if journal.len() < JOURNAL_BYTES {
        return code(Refusal::BadLimit);
    }
    let Some(parked) = kept.store.take() else {
        return code(Refusal::Stopped);
    };
    let mut device = MappedDevice::new(image, journal, parked.sectors());
    let mut store = lend(parked, &mut device);
    let answer = commit_under(&mut store, &mut kept.upkeep, guards, batch, number, place);
    kept.park(store, &mut device);
    *used = device.used();
    answer
}

// Commits a batch that is admitted, under guards.
fn commit_under<D: Device>(
    store: &mut Store<D>,
    upkeep: &mut Upkeep,
    guards: &[Guard],
    batch: &Batch,
    out: &mut u64,
    place: &mut u8,
) -> u32
    ensures { Commits (Some guards.now) batch.now
        (λ reply. IsNumber reply result out.new × IsPlace reply place.new) result store.old
        store.new }
{
    match upkeep.admit(store, batch) {
        Verdict::Commit => {
            let reply = without_log_full(store.commit_if(guards, batch));
            tell_place(&reply, place);
            number(reply, out)
        }
        Verdict::Refuse => code(Refusal::NoSpace),
        Verdict::After(_) => WORK_FIRST,
    }
}

// Tells the place of the guard that failed a commit, if one did.
fn tell_place(reply: &Result<u64, Refusal>, out: &mut u8)
    ensures { IsPlace (reply_of Number reply.now) out.new }
{
    if let Err(refusal) = reply {
        if let Some(place) = refusal.place() {
            *out = place;
        }
    }
}

// The guards that a text says.
fn read_guards(alloc: Global, text: &[u8]) -> Result<Vec<Guard>, u32>
    ensures { MatchResult result (λ guards. guards_of text.now ≡ Some guards.items)
        (λ answer. IsUnread (guards_of text.now) answer) }
{
    if text.is_empty() {
        return Ok(Vec::new(alloc));
    }
    match read_batch(alloc, text) {
        Ok(batch) => guards_in(alloc, &batch),
        Err(answer) => Err(answer),
    }
}

// The operations of a batch as guards.
fn guards_in(alloc: Global, batch: &Batch) -> Result<Vec<Guard>, u32>
    ensures { MatchResult result (λ guards. guards.items ≡ map condition_of batch.now)
        (λ answer. answer ≡ 1) }
{
    let mut guards = Vec::new(alloc);
    for operation in batch.operations() {
        push_guard(alloc, &mut guards, operation.key, operation.value)?;
    }
    Ok(guards)
}

// Adds the guard of an operation.
fn push_guard(
    alloc: Global,
    guards: &mut Vec<Guard>,
    key: &[u8],
    value: Option<&[u8]>,
) -> Result<(), u32>
    requires { IsChange key.now (option_map (λ v. v.now) value) }
    ensures { MatchResult result
        (λ _. guards.new.items
        ≡ guards.old.items
        ++ record { key = key.now; value = option_map (λ v. v.now) value.entry } ∷ [])
        (λ answer. answer ≡ 1) }
{
    let guard = match value {
        Some(value) => Guard::holds(alloc, key, value),
        None => Guard::absent(alloc, key),
    };
    match guard {
        Ok(guard) => match guards.push(guard) {
            Ok(()) => Ok(()),
            Err(_) => Err(code(Refusal::NoMemory)),
        },
        Err(refusal) => Err(code(refusal)),
    }
}
