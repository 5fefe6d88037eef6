// Lives of a `Db` on a device, each from an opening to a crash.
ghost use Rattle.std.specs.Prelude.{◌≡◌, ◌≤◌, ◌+◌, ◌++◌, List, [], map, length, IfOk, IsTrue, MatchResult, vec_capacity, vec_len};
ghost use Rattle.lsm_device.specs.Medium.{crashed};
ghost use Rattle.lsm_device.specs.Memory.{medium_in};
ghost use Rattle.lsm_device.specs.declared.refusal.Refusal.TheVariants.{Stopped};
ghost use Rattle.lsm_lives.specs.Batches.{replies_by};
ghost use Rattle.lsm_lives.specs.Calls.{reply_of};
ghost use Rattle.lsm_lives.specs.Leading.{FailsOn, with_fuse};
ghost use Rattle.lsm_machine.specs.Calls.{Refused};
ghost use Rattle.corwaphi_lives.specs.Calls.{call_of};
ghost use Rattle.corwaphi_lives.specs.Leading.{life_of, AddsReplies, BeginsDb, IsLed, LeadsTo, AreLed, HavePlaces};

use crate::calls::{DbCall, DbLife};
use crate::serving::serve;
use corwaphi::{Db, Device, MemDevice, OpenOnError, Options, Refusal};
use lsm_lives::{CACHE_BLOCKS, Reply};
use std::alloc::{AllocError, Global};

/// Lives one after another on a device, each on what the crash before it left. Fails only with `NoMemory`, where there is no place
/// for all replies, before anything is done.
pub(crate) fn lives<R: AllocGlobal>(
    rt: &R,
    device: MemDevice,
    lives: &[DbLife],
) -> Result<(Vec<Vec<Reply>>, MemDevice), Refusal>
    ensures { IfOk result
        (λ given. AreLed (map life_of lives.now) (medium_in device) (replies_by given.0.items)
        (medium_in given.1)) }
{
    let mut replies = places(rt.alloc(), lives)?;
    let device = live_each(rt, device, lives, &mut replies);
    Ok((replies, device))
}

// Makes a place for each reply of each life.
fn places(alloc: Global, lives: &[DbLife]) -> Result<Vec<Vec<Reply>>, AllocError>
    ensures { IfOk result (λ places. HavePlaces lives.now places.items) }
{
    let mut places = Vec::with_capacity(alloc, lives.len())?;
    for life in lives {
        let count = life.calls.len() + 1;
        places.push(Vec::with_capacity(alloc, count)?)?;
    }
    Ok(places)
}

// Leads the lives one after another, and puts their replies into the places.
fn live_each<R: AllocGlobal>(
    rt: &R,
    device: MemDevice,
    lives: &[DbLife],
    places: &mut Vec<Vec<Reply>>,
) -> MemDevice
    requires places { HavePlaces lives.now places.old.items }
    ensures { AreLed (map life_of lives.now) (medium_in device) (replies_by places.new.items)
        (medium_in result) }
{
    let mut device = device;
    for (index, life) in lives.iter().enumerate() {
        device = live(rt, device, life, &mut places[index]);
    }
    device
}

// Leads one life.
fn live<R: AllocGlobal>(
    rt: &R,
    device: MemDevice,
    life: &DbLife,
    replies: &mut Vec<Reply>,
) -> MemDevice
    requires none_yet { replies.old.items ≡ [] }
    requires room { vec_len life.now.calls + 1 ≤ vec_capacity replies.old }
    ensures { LeadsTo (life_of life.now) (medium_in device) (map reply_of replies.new.items)
        (medium_in result) }
{
    let mut device = device;
    set_fuse(&mut device, life.fuse);
    let device = open_and_serve(rt, device, &life.calls, replies);
    crash(device, &life.mask)
}

// Sets the fuse, where there is one.
fn set_fuse(device: &mut MemDevice, fuse: Option<u64>)
    ensures { medium_in device.new ≡ with_fuse fuse (medium_in device.old) }
{
    if let Some(n) = fuse {
        device.fuse(n);
    }
}

// Crashes the device: of the pending writes those are kept that the mask says.
fn crash(device: MemDevice, mask: &[bool]) -> MemDevice
    ensures { medium_in result ≡ crashed mask.now (medium_in device) }
{
    device.crash(mask)
}

// A life until its crash: opens the `Db` and makes the calls.
fn open_and_serve<R: AllocGlobal, D: Device>(
    rt: &R,
    device: D,
    calls: &[DbCall],
    replies: &mut Vec<Reply>,
) -> D
    requires tells { IsTrue (D.medium device).lasting.tells }
    requires none_yet { replies.old.items ≡ [] }
    requires room { length calls.now + 1 ≤ vec_capacity replies.old }
    ensures { IsLed (D.medium device) (map call_of calls.now) (map reply_of replies.new.items)
        (D.medium result) }
{
    match opened(rt, device) {
        Ok(mut db) => {
            replies.push_reserved(Reply::Number(db.batch_count()));
            serve_each(&mut db, calls, replies);
            db.into_device()
        }
        Err(refused) => {
            replies.push_reserved(Reply::Refused(refused.refusal));
            refuse_each(calls, replies);
            refused.device
        }
    }
}

// Opens the `Db` on a device that tells what it holds.
fn opened<R: AllocGlobal, D: Device>(rt: &R, device: D) -> Result<Db<D>, OpenOnError<D>>
    requires tells { IsTrue (D.medium device).lasting.tells }
    ensures { MatchResult result (λ db. BeginsDb (D.medium device) db)
        (λ e. FailsOn (D.medium device) e.refusal (D.medium e.device)) }
{
    let options = Options {
        cache: CACHE_BLOCKS,
        ..Options::default()
    };
    Db::on(rt, device, options)
}

// Makes the calls one after another, and adds their replies.
fn serve_each<D: Device>(db: &mut Db<D>, calls: &[DbCall], replies: &mut Vec<Reply>)
    requires room { vec_len replies.old + length calls.now ≤ vec_capacity replies.old }
    ensures { AddsReplies db.old (map call_of calls.now) (map reply_of replies.old.items)
        (map reply_of replies.new.items) db.new }
{
    for call in calls {
        let reply = serve(db, call);
        replies.push_reserved(reply);
    }
}

// Each call is answered that the store is stopped.
fn refuse_each(calls: &[DbCall], replies: &mut Vec<Reply>)
    requires room { vec_len replies.old + length calls.now ≤ vec_capacity replies.old }
    ensures { map reply_of replies.new.items ≡ map reply_of replies.old.items
        ++ map (λ _. Refused Stopped) (map call_of calls.now) }
{
    for _call in calls {
        replies.push_reserved(Reply::Refused(Refusal::Stopped));
    }
}
