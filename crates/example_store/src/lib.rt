//! A caller of the store: what it is told by the contracts alone.
#![tactic(auto)]

mod first_use;

ghost use Rattle.std.specs.FinMap as finite;
ghost use Rattle.std.specs.Prelude.{◌≡◌, ℕ, Some, option_map, IfOk, OnOk};
ghost use Rattle.lsm_device.specs.Disk.{seen};
ghost use Rattle.lsm_device.specs.Medium.{disk};
ghost use Rattle.lsm_device.specs.Memory.{medium_in};
ghost use Rattle.lsm_root.specs.CrashState.{CrashState};
ghost use Rattle.lsm_open.specs.Image.{StandFor};
ghost use Rattle.lsm_store.specs.Backing.{IsBacked};
ghost use Rattle.lsm_machine.specs.Calls.{Commit, Sync, Number, Done};
ghost use Rattle.lsm_machine.specs.Run.{next};

pub use first_use::use_a_file;
use lsm_codec::{Batch, Op};
use lsm_device::{MemDevice, Refusal};
use lsm_open::format;
use lsm_store::{At, Store};
use std::alloc::Global;

// Puts a batch and makes it durable.
fn put_synced(store: &mut Store<MemDevice>, batch: &Batch) -> Result<(), Refusal>
    ensures backed { OnOk result (IsBacked store.old → IsBacked store.new) }
    ensures state { OnOk result
        ((number : ℕ) × (store.new.state
        ≡ next (next store.old.state (Commit batch.now) (Number number)) Sync Done)) }
{
    store.commit(batch)?;
    store.sync()?;
    Ok(())
}

// Looks a key up in the store on a device.
fn look_up(alloc: Global, device: MemDevice, key: &[u8]) -> Result<Option<Vec<u8>>, Refusal>
    ensures { (left : CrashState) → StandFor 128 left (seen (disk (medium_in device)))
        → IfOk result (λ found. option_map (λ v. v.items) found ≡ finite.get left.map key.now) }
{
    let mut store = match Store::open(alloc, device, 256) {
        Ok(store) => store,
        Err((refusal, _)) => return Err(refusal),
    };
    match store.get(At::Now, key) {
        Ok(found) => Ok(found),
        Err(refusal) => Err(refusal),
    }
}

/// Makes a store, puts a value, makes it durable, and looks it up after a crash that keeps any of the pending writes.
pub fn survive(
    alloc: Global,
    device: MemDevice,
    key: &[u8],
    value: &[u8],
    keep: &[bool],
) -> Result<Option<Vec<u8>>, Refusal>
    ensures { IfOk result (λ found. option_map (λ v. v.items) found ≡ Some value.now) }
{
    let batch = Batch::new(alloc, Op::put(alloc, key, value)?)?;
    let device = match format(alloc, device, 128) {
        Ok(device) => device,
        Err((refusal, _)) => return Err(refusal),
    };
    let mut store = match Store::open(alloc, device, 256) {
        Ok(store) => store,
        Err((refusal, _)) => return Err(refusal),
    };
    put_synced(&mut store, &batch)?;
    let device = store.into_device().crash(keep);
    match look_up(alloc, device, key) {
        Ok(found) => Ok(found),
        Err(refusal) => Err(refusal),
    }
}
