//! How a store is made, and opened again.

use crate::draws::Draws;
use crate::trouble::Trouble;
use corwaphi::{Db, OpenOnError, Options};
use lsm_device::{MemDevice, Refusal};
use lsm_open::format;
use std::alloc::{AllocError, Global};

/// At most this number of writes pends when a crash comes; of more it keeps none.
const PENDING: usize = 16_384;

/// The call of the device that fails.
#[derive(Clone, Copy)]
pub(crate) struct Failure {
    /// How many come before it, after an opening or from its beginning on.
    pub after: u64,
    pub in_opening: bool,
    /// Whether it pends where it is a write.
    pub kept: bool,
}

/// An empty store of `sectors` sectors, with log regions of `log_sectors` sectors.
pub(crate) fn begun<R: AllocGlobal>(
    rt: &R,
    sectors: u32,
    log_sectors: u16,
) -> Result<Db<MemDevice>, Trouble> {
    let device = MemDevice::new(rt.alloc(), sectors)?;
    match format(rt.alloc(), device, log_sectors) {
        Ok(device) => opened(rt, device),
        Err((refusal, _)) => Err(Trouble::Opening(refusal)),
    }
}

/// The store on a device.
pub(crate) fn opened<R: AllocGlobal>(rt: &R, device: MemDevice) -> Result<Db<MemDevice>, Trouble> {
    match Db::on(rt, device, Options::default()) {
        Ok(db) => Ok(db),
        Err(refused) => Err(Trouble::Opening(refused.refusal)),
    }
}

/// The store on a device of which a call may fail. Where the opening fails for that, it is opened once more after a crash.
fn opened_again<R: AllocGlobal>(rt: &R, device: MemDevice) -> Result<Db<MemDevice>, Trouble> {
    match Db::on(rt, device, Options::default()) {
        Ok(db) => Ok(db),
        Err(
            OpenOnError {
                refusal: Refusal::Io,
                device,
            },
        ) => opened(rt, device.crash(&[])),
        Err(refused) => Err(Trouble::Opening(refused.refusal)),
    }
}

/// The device of a store, whose writes all stand.
pub(crate) fn synced(db: Db<MemDevice>) -> Result<MemDevice, Refusal> {
    let mut db = db;
    db.sync()?;
    Ok(db.into_device().crash(&[]))
}

/// The device of a store that is opened on it once, and how many calls it has had since a crash.
fn counted<R: AllocGlobal>(rt: &R, device: MemDevice) -> Result<(MemDevice, u64), Trouble> {
    let device = opened(rt, device)?.into_device();
    let changes = device.writes().wrapping_add(device.syncs());
    let calls = device.reads().wrapping_add(changes);
    Ok((device, calls))
}

/// The store, synced and opened anew on a device of which a call fails.
pub(crate) fn armed<R: AllocGlobal>(
    rt: &R,
    db: Db<MemDevice>,
    failure: Failure,
) -> Result<Db<MemDevice>, Trouble> {
    let (mut device, calls) = counted(rt, synced(db)?)?;
    let opening = if failure.in_opening { 0 } else { calls };
    device.fail(opening.wrapping_add(failure.after), failure.kept);
    opened_again(rt, device)
}

/// Which of the writes that pend a crash keeps: none, all, or some.
fn drawn_crash(alloc: Global, draws: &mut Draws) -> Result<Vec<bool>, AllocError> {
    let mut keep = Vec::new(alloc);
    let kept = draws.below(3);
    if kept == 0 {
        return Ok(keep);
    }
    for _ in 0..PENDING {
        keep.push(draws.below(kept) == 0)?;
    }
    Ok(keep)
}

/// The store as a crash leaves it, opened anew.
pub(crate) fn crashed<R: AllocGlobal>(
    rt: &R,
    db: Db<MemDevice>,
    draws: &mut Draws,
) -> Result<Db<MemDevice>, Trouble> {
    let keep = drawn_crash(rt.alloc(), draws)?;
    opened(rt, db.into_device().crash(&keep))
}
