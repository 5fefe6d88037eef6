// What a handle of C's leads to.

ghost use Rattle.std.specs.Prelude.{◌≡◌, Some};
ghost use Rattle.lsm_mapped.specs.Devices.{medium_on};
ghost use Rattle.lsm_store.specs.Backing.{StoreView};
ghost use Rattle.corwaphi_c.specs.Calls.{IsMoved};

use crate::pieces::Upkeep;
use lsm_mapped::{MappedDevice, ParkedDevice};
use lsm_store::Store;

/// The room that a journal needs for any call but a format: 128 sectors, and 16 heads.
pub(crate) const JOURNAL_BYTES: usize = 65_664;

/// A store between two calls. `store` is `None` while a call has it.
#[derive(Drop)]
pub struct Kept {
    pub(crate) store: Option<Store<ParkedDevice>>,
    pub(crate) upkeep: Upkeep,
}

impl Kept {
    /// Keeps a store, and puts the device of its call back.
    pub(crate) fn park<'a>(&mut self, store: Store<MappedDevice<'a>>, device: &mut MappedDevice<'a>)
        ensures kept { (parked : StoreView) × IsMoved store.entry parked
            × (self.new.store ≡ Some parked) }
        ensures device { medium_on device.new ≡ store.entry.device }
    {
        let parked = ParkedDevice::new(store.sectors());
        let (store, mapped) = store.on(parked);
        self.store = Some(store);
        *device = mapped;
    }
}

/// The store that was kept on the device of a call, which is taken into it. Whoever lent the device its journal has to have the device
/// again when the call ends: only then it is known what the journal is left with.
pub(crate) fn lend<'a>(
    store: Store<ParkedDevice>,
    device: &mut MappedDevice<'a>,
) -> Store<MappedDevice<'a>>
    requires { (medium_on device.old).size ≡ store.device.size }
    ensures { result ≡ record store { device = medium_on device.old } }
{
    let (store, _) = store.on(device.take());
    store
}
