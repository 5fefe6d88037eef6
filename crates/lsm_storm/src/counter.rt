// A counter under a key of its own, which clients raise together.
ghost use Rattle.std.specs.Prelude.{◌≡◌, option_map, IfErr, IfOk};
ghost use Rattle.lsm_lives.specs.Calls.{call_of};
ghost use Rattle.lsm_store.specs.Backing.{IsBacked};
ghost use Rattle.lsm_machine.specs.RecoveryPoints.{present_map};
ghost use Rattle.lsm_storm.specs.Counters.{counter_key, counted_in, count_said, unchanged, next_count, IsCounting, GoesOnCounting};
ghost use Rattle.lsm_storm.specs.Storms.{IsSessionRefusal};

use byteorder::{BigEndian, ByteOrder};
use lsm_codec::{Batch, Guard, Op};
use lsm_device::{MemDevice, Refusal};
use lsm_lives::{Call, Reply};
use lsm_shared::{Client, Shared};
use lsm_store::{At, Store};
use lsm_trail::SessionName;
use std::alloc::{AllocError, Global};
use std::sync::Wait;

/// The key of the counter.
const KEY: [u8; 1] = [0];

/// The bytes of its value, the high one first.
const SIZE: usize = 8;

// The count that a value says. No value says 0.
fn count_said(value: &Option<Vec<u8>>) -> u64
    ensures { result ≡ count_said (option_map (λ v. v.items) value.now) }
{
    match value {
        Some(bytes) if bytes.len() == SIZE => BigEndian::read_u64(bytes),
        _ => 0,
    }
}

// The guard that the counter still has this value, or none.
fn unchanged(alloc: Global, old: &Option<Vec<u8>>) -> Result<Guard, Refusal>
    ensures { IfOk result (λ guard. guard ≡ unchanged (option_map (λ v. v.items) old.now)) }
{
    match old {
        Some(bytes) => Ok(Guard::holds(alloc, &KEY, bytes)?),
        None => Ok(Guard::absent(alloc, &KEY)?),
    }
}

// The batch that gives the counter this count.
fn batch_of(alloc: Global, count: u64) -> Result<Batch, Refusal>
    ensures { IfOk result (λ batch. batch ≡ next_count count) }
{
    let mut value = [0; SIZE];
    BigEndian::write_u64(&mut value, count);
    Ok(Batch::new(alloc, Op::put(alloc, &KEY, &value)?)?)
}

// The commit that raises the counter by one, if it still has this value.
fn raised(alloc: Global, old: &Option<Vec<u8>>) -> Result<Call, Refusal>
    ensures { IfOk result (λ call. IsCounting (call_of call)) }
{
    let Some(count) = count_said(old).checked_add(1) else {
        return Err(Refusal::Exhausted);
    };
    let mut guards = Vec::new(alloc);
    guards.push(unchanged(alloc, old)?)?;
    let batch = batch_of(alloc, count)?;
    Ok(Call::CommitIf(guards, batch))
}

// The call that asks for the counter.
fn asked(alloc: Global) -> Result<Call, AllocError>
    ensures { IfOk result (λ call. IsCounting (call_of call)) }
{
    let mut key = Vec::new(alloc);
    key.extend_from_slice(&KEY)?;
    Ok(Call::Get(At::Now, key))
}

// Makes a call, and gives the value that it is answered with, if it is.
fn value_of<B: SessionName, R: Wait>(
    rt: &R,
    shared: &Shared<MemDevice, Global, B>,
    me: &mut Client<Global, B>,
    call: Call,
) -> Option<Option<Vec<u8>>>
    requires { IsCounting (call_of call) }
    ensures { GoesOnCounting me.old me.new }
{
    match me.call(rt, shared, call) {
        Ok(Reply::Value(value)) => Some(value),
        _ => None,
    }
}

// Asks for the counter, and tries to raise it, whatever comes of it. Where memory is short it makes less.
fn try_once<B: SessionName, R: Wait>(
    rt: &R,
    alloc: Global,
    shared: &Shared<MemDevice, Global, B>,
    me: &mut Client<Global, B>,
)
    ensures { GoesOnCounting me.old me.new }
{
    let Ok(call) = asked(alloc) else {
        return;
    };
    let Some(old) = value_of(rt, shared, me, call) else {
        return;
    };
    let Ok(call) = raised(alloc, &old) else {
        return;
    };
    let _ = value_of(rt, shared, me, call);
}

/// Tries `tries` times to raise the counter.
pub(crate) fn count_up<B: SessionName, R: Wait>(
    rt: &R,
    alloc: Global,
    shared: &Shared<MemDevice, Global, B>,
    me: &mut Client<Global, B>,
    tries: u16,
)
    ensures { GoesOnCounting me.old me.new }
{
    for _ in 0..tries {
        try_once(rt, alloc, shared, me);
    }
}

/// The counter of a store.
pub(crate) fn counted_in(store: &mut Store<MemDevice>) -> Result<u64, Refusal>
    requires { IsBacked store.old }
    ensures counted { IfOk result
        (λ count. count ≡ counted_in (present_map store.old.state.points)) }
    ensures refused { IfErr result IsSessionRefusal }
{
    let value = store.get(At::Now, &KEY)?;
    Ok(count_said(&value))
}
