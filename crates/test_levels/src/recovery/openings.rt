//! Stores that are opened on devices in memory.

use lsm_cache::Cache;
use lsm_device::{Device, MemDevice, Refusal};
use lsm_levels::ReadView;
use lsm_mem::Mem;
use lsm_open::{Recovered, recover};
use std::alloc::Global;
use std::process::Abort;

/// The first sector of the data area, behind three log regions of 128.
const DATA: u32 = 514;

/// A store that was opened. Its calls tell the prover nothing, so that it has nothing to carry from one line of a test to the
/// next.
pub(crate) struct Subject {
    store: Recovered<MemDevice>,
}

// One call at each exit of a test, in the place of all that a store is made of.
impl Drop for Subject {
    fn drop(self) {
        let Subject { store: _ } = self;
    }
}

/// What an opening answers.
pub(crate) fn opening(alloc: Global, device: MemDevice) -> Result<Subject, (Refusal, MemDevice)> {
    match recover(alloc, device) {
        Ok(store) => Ok(Subject { store }),
        Err(refused) => Err(refused),
    }
}

/// The store on a device.
pub(crate) fn opened<R: Abort>(rt: &R, alloc: Global, device: MemDevice) -> Subject {
    match opening(alloc, device) {
        Ok(subject) => subject,
        Err((refusal, _)) => rt.panic(refusal.name()),
    }
}

impl Subject {
    /// The only byte of the value of a key now, none where the key has no value.
    pub(crate) fn get(&mut self, alloc: Global, key: &[u8]) -> Result<Option<u8>, Refusal> {
        let mem = Mem::new(alloc)?;
        let mut cache = Cache::new(alloc, 4)?;
        let view = ReadView {
            mem: &mem,
            sealed: self.store.sealed.as_deref(),
            levels: &self.store.levels,
            area: DATA,
        };
        let device = &mut self.store.device;
        if !view.is_within(device.sectors()) {
            return Err(Refusal::BadGeometry);
        }
        match view.find(&alloc, &mut cache, device, key, self.store.count)? {
            Some(value) => Ok(value.first().copied()),
            None => Ok(None),
        }
    }

    pub(crate) fn into_device(self) -> MemDevice {
        let Subject { store } = self;
        store.device
    }
}
