// A service that goes on for ever, by rounds: when the trail or the log is full all clients return, the session ends, the
// store is settled, and the next session begins.
ghost use Rattle.std.specs.Prelude.{◌≡◌};

use crate::client::batch_of;
use lsm_device::{MemDevice, Refusal};
use lsm_lives::{Call, Reply};
use lsm_shared::{Client, Shared, prepare};
use lsm_store::Store;
use lsm_trail::{Opened, SessionName};
use lsm_upkeep::settle;
use std::alloc::Global;
use std::marker::Brand;
use std::sync::Wait;
use std::thread::{Threads, join};

// How many keys each of two clients has put.
#[derive(Clone, Copy)]
struct Progress {
    one: u32,
    two: u32,
}

// A key of a client.
fn key_of(client: u8, number: u32) -> [u8; 5] {
    let [a, b, c, d] = number.to_be_bytes();
    [client, a, b, c, d]
}

// Puts the keys of a client from a number on, until all are put or the round is over. It tells which one comes next.
fn put_keys<B: SessionName, R: Wait>(
    rt: &R,
    alloc: Global,
    shared: &Shared<MemDevice, Global, B>,
    me: &mut Client<Global, B>,
    client: u8,
    from: u32,
    end: u32,
) -> Result<u32, Refusal> {
    for number in from..end {
        let batch = batch_of(alloc, &key_of(client, number), b"1")?;
        match me.call(rt, shared, Call::Commit(batch)) {
            Ok(Reply::Number(_)) => {}
            // The log is full, or the trail: what this client has put stands, and the next round goes on from here.
            Ok(Reply::Refused(Refusal::LogFull)) | Err(Refusal::TrailFull) => return Ok(number),
            Ok(Reply::Refused(refusal)) | Err(refusal) => return Err(refusal),
            Ok(_) => return Ok(number),
        }
    }
    Ok(end)
}

// Lets both clients put, each in a thread of its own. It tells how far they came.
fn put_both<B: SessionName + Send + Sync, R: Threads + Wait + Sync>(
    rt: &R,
    alloc: Global,
    shared: &Shared<MemDevice, Global, B>,
    clients: &mut [Client<Global, B>],
    put: Progress,
    end: u32,
) -> Result<Progress, Refusal> {
    let Some((one, others)) = clients.split_first_mut() else {
        return Err(Refusal::NotYours);
    };
    let Some(two) = others.first_mut() else {
        return Err(Refusal::NotYours);
    };
    let (first, second) = join(
        rt,
        || -> Result<u32, Refusal> { put_keys(rt, alloc, shared, one, 1, put.one, end) },
        || -> Result<u32, Refusal> { put_keys(rt, alloc, shared, two, 2, put.two, end) },
    );
    Ok(Progress {
        one: first?,
        two: second?,
    })
}

// One round: a session from its beginning to its end. The store is handed back, and how far both clients came.
fn play<B: SessionName + Send + Sync, R: Threads + Wait + Sync>(
    rt: &R,
    alloc: Global,
    opened: Opened<MemDevice>,
    put: Progress,
    end: u32,
) -> Result<(Store<MemDevice>, Progress), Refusal>
    requires { opened ≡ B.id }
{
    let (shared, mut clients) = match Shared::<MemDevice, Global, B>::begin(alloc, opened) {
        Ok(begun) => begun,
        Err((refusal, _)) => return Err(refusal),
    };
    let reached = put_both(rt, alloc, &shared, &mut clients, put, end)?;
    match shared.finish(clients) {
        Ok((store, _)) => Ok((store, reached)),
        Err((refusal, _, _)) => Err(refusal),
    }
}

/// Lets two clients put `keys` keys each, in as many sessions as that takes, each of at most `entries` entries. It returns the
/// store and the number of the sessions.
///
/// At `TrailFull` and at `LogFull` both clients come back, [`Shared::finish`] gives the store, [`settle`] flushes its logs, and the
/// next session begins. No key is put twice. A round in which neither client put anything ends the service with `LogFull`: there is
/// no room for more.
pub fn put_in_rounds<R: Threads + Wait + Sync>(
    rt: &R,
    alloc: Global,
    store: Store<MemDevice>,
    keys: u32,
    entries: u32,
) -> Result<(Store<MemDevice>, u32), Refusal> {
    let mut store = store;
    let mut put = Progress { one: 0, two: 0 };
    for round in 0..u32::MAX {
        if put.one >= keys && put.two >= keys {
            return Ok((store, round));
        }
        let opened = match prepare(alloc, store, 2, entries) {
            Ok(opened) => opened,
            Err((refusal, _)) => return Err(refusal),
        };
        let (left, reached) = play::<Brand, R>(rt, alloc, opened, put, keys)?;
        if reached.one == put.one && reached.two == put.two {
            return Err(Refusal::LogFull);
        }
        store = left;
        put = reached;
        settle(alloc, &mut store);
    }
    Err(Refusal::Exhausted)
}
