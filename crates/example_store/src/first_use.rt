//! A first use of a store in a file.

use lsm_codec::{Batch, Op};
use lsm_device::{FileDevice, Refusal};
use lsm_store::{At, Store};
use std::fs::{File, Files};

/// Uses the store in a file that was formatted before.
pub fn use_a_file<R: Files<File = File> + AllocGlobal>(rt: &R) -> Result<(), Refusal> {
    let device = FileDevice::open(rt, "store.img")?;
    let opened = Store::open(rt.alloc(), device, 256);
    let mut store = opened.map_err(|(refusal, _)| refusal)?;
    let mut batch = Batch::new(rt.alloc(), Op::put(rt.alloc(), b"apple", b"red")?)?;
    batch.delete(b"pear")?;
    let number = store.commit(&batch)?;
    store.sync_to(number)?;
    let value = store.get(At::Now, b"apple")?;
    let snapshot = store.snapshot()?;
    let page = store.scan(At::Snap(snapshot), b"", None, 64)?;
    for row in page.rows() {
        // row.key and row.value are bytes; page.next_key() is where the next page begins.
    }
    store.release(snapshot)?;
    Ok(())
}
