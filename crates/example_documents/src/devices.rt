//! Examples on devices.

use lsm_codec::Batch;
use lsm_device::{Device, MemDevice, Refusal};
use lsm_mapped::{MappedDevice, ParkedDevice};
use lsm_store::Store;
use std::alloc::Global;

const ONES: [u8; 512] = [1; 512];

const TWOS: [u8; 512] = [2; 512];

/// The example of `lsm_device`. It reads the second sector of what is left.
pub fn crash_a_device(alloc: Global) -> Result<[u8; 512], Refusal> {
    let mut device = MemDevice::new(alloc, 4)?;
    device.write(0, &ONES)?;
    device.write(1, &TWOS)?;
    let mut left = device.crash(&[false, true]); // sector 0 is zero again, sector 1 has its twos
    let mut sector = [0; 512];
    left.read(1, &mut sector)?;
    Ok(sector)
}

/// The example of `lsm_mapped`, of a store that is parked. It parks it again, and tells how much of the journal its commit has filled.
pub fn commit_on_a_mapping<'a>(
    store: Store<ParkedDevice>,
    image: &'a [u8],
    journal: &'a mut [u8],
    batch: Batch,
) -> (Store<ParkedDevice>, usize) {
    let sectors = store.sectors();
    let parked = ParkedDevice::new(store.sectors());
    let (mut store, _) = store.on(MappedDevice::new(image, journal, sectors));
    let number = store.commit(&batch);
    let (store, device) = store.on(parked);
    let used = device.used(); // this number of bytes of the journal are to be made
    (store, used)
}
