// Clients that raise one counter.
ghost use Rattle.std.specs.Prelude.{◌≡◌, true, IfOk, IfSome};
ghost use Rattle.lsm_lives.specs.Calls.{told_of};
ghost use Rattle.example_shared.specs.Shares.{HasRaised, IsNumbered};

use byteorder::{BigEndian, ByteOrder};
use lsm_codec::{Batch, Guard, Op};
use lsm_device::{MemDevice, Refusal};
use lsm_lives::{Call, Reply};
use lsm_shared::{Client, Shared};
use lsm_store::At;
use lsm_trail::SessionName;
use std::alloc::Global;
use std::sync::Wait;

// The number that a value spells in eight bytes; a key without a value counts as 0, and so does any other value.
fn number_in(value: &Option<Vec<u8>>) -> u64 {
    match value {
        Some(bytes) if bytes.len() == 8 => BigEndian::read_u64(bytes),
        _ => 0,
    }
}

// A guard that the key still has this value, or still has none.
fn still(alloc: Global, key: &[u8], value: &Option<Vec<u8>>) -> Result<Vec<Guard>, Refusal> {
    let guard = match value {
        Some(value) => Guard::holds(alloc, key, value)?,
        None => Guard::absent(alloc, key)?,
    };
    let mut guards = Vec::with_capacity(alloc, 1)?;
    guards.push_reserved(guard);
    Ok(guards)
}

// A batch that puts a number.
fn batch_of_number(alloc: Global, key: &[u8], number: u64) -> Result<Batch, Refusal> {
    let mut bytes = [0; 8];
    BigEndian::write_u64(&mut bytes, number);
    Ok(Batch::new(alloc, Op::put(alloc, key, &bytes)?)?)
}

// The value of a key, as a client gets it.
fn get<B: SessionName, R: Wait>(
    rt: &R,
    alloc: Global,
    shared: &Shared<MemDevice, Global, B>,
    me: &mut Client<Global, B>,
    key: &[u8],
) -> Result<Option<Vec<u8>>, Refusal> {
    let key = Vec::from_slice(alloc, key)?;
    match me.call(rt, shared, Call::Get(At::Now, key))? {
        Reply::Value(value) => Ok(value),
        Reply::Refused(refusal) => Err(refusal),
        _ => Ok(None),
    }
}

// Whether a batch was added. It refuses where the store did, but for a guard that is false.
fn is_added(reply: Reply) -> Result<bool, Refusal>
    ensures { IfOk result (λ added. added ≡ true → IsNumbered (told_of reply)) }
{
    match reply {
        Reply::Number(_) => Ok(true),
        Reply::Refused(Refusal::GuardFailed(_place)) => Ok(false),
        Reply::Refused(refusal) => Err(refusal),
        _ => Ok(false),
    }
}

// Puts a number under a key that still has the value that was got. Whether it has, and the number was put.
fn put_if_still<B: SessionName, R: Wait>(
    rt: &R,
    alloc: Global,
    shared: &Shared<MemDevice, Global, B>,
    me: &mut Client<Global, B>,
    key: &[u8],
    value: &Option<Vec<u8>>,
    number: u64,
) -> Result<bool, Refusal>
    ensures { IfOk result (λ added. added ≡ true → HasRaised me.new) }
{
    let guards = still(alloc, key, value)?;
    let batch = batch_of_number(alloc, key, number)?;
    let reply = me.call(rt, shared, Call::CommitIf(guards, batch))?;
    is_added(reply)
}

/// Raises the counter under a key by one, and returns what it is then. Other clients may raise it at the same time: the batch is
/// added only where the key still has the value that was got. Where it has not, GuardFailed, the value is got once more, and the
/// batch made of that. `None` after `tries` failed tries.
pub fn raise<B: SessionName, R: Wait>(
    rt: &R,
    alloc: Global,
    shared: &Shared<MemDevice, Global, B>,
    me: &mut Client<Global, B>,
    key: &[u8],
    tries: u32,
) -> Result<Option<u64>, Refusal>
    ensures { IfOk result (λ raised. IfSome raised (λ number. HasRaised me.new)) }
{
    for _ in 0..tries {
        let value = get(rt, alloc, shared, me, key)?;
        let next = number_in(&value).wrapping_add(1);
        if put_if_still(rt, alloc, shared, me, key, &value, next)? {
            return Ok(Some(next));
        }
    }
    Ok(None)
}
