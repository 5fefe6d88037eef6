//! Examples of stores: how one is formatted and opened, and committed to and read.

use lsm_codec::Batch;
use lsm_device::{Device, Refusal};
use lsm_open::format;
use lsm_store::{At, Store};
use lsm_upkeep::{Upkeep, Walk, write};
use std::alloc::Global;

/// The example of `lsm_open`.
pub fn format_a_device<D: Device + Drop>(alloc: Global, device: D) -> Result<D, Refusal> {
    let device = match format(alloc, device, 128) {
        Ok(device) => device,
        Err((refusal, _)) => return Err(refusal),
    };
    Ok(device)
}

/// The example of `lsm_store`, on a device with a store. Returns the value of a key.
pub fn commit_and_get<D: Device + Drop>(
    alloc: Global,
    device: D,
    batch: Batch,
) -> Result<Option<Vec<u8>>, Refusal> {
    let mut store = match Store::open(alloc, device, 256) {
        Ok(store) => store,
        Err((refusal, _)) => return Err(refusal),
    };
    store.commit(&batch)?;
    store.sync()?;
    let value = store.get(At::Now, b"apple")?;
    Ok(value)
}

/// The example of `lsm_upkeep`. Returns the sequence number of the batch.
pub fn write_with_upkeep<D: Device + Drop>(
    alloc: Global,
    mut store: Store<D>,
    batch: Batch,
) -> Result<u64, Refusal> {
    let mut upkeep = Upkeep::new();
    let number = write(alloc, &mut store, &mut upkeep, None, &batch)?;
    Ok(number)
}

/// The example of the walks of `lsm_upkeep`.
pub fn walk_all_rows<D: Device + Drop>(alloc: Global, mut store: Store<D>) -> Result<(), Refusal> {
    let mut walk = Walk::new(alloc, At::Now, &[])?;
    for _ in 0..u64::MAX {
        let Some(page) = walk.next_page(alloc, &mut store)? else {
            break;
        };
        for row in page.rows() {
            show(row.key, row.value)?;
        }
    }
    Ok(())
}

// What a caller does with a row: nothing here.
fn show(_key: &[u8], _value: &[u8]) -> Result<(), Refusal> {
    Ok(())
}
