//! A device over a file that its host has mapped, lent for one call.
//!
//! A host that isn't written in Rattle, as a C library, gives each call its mapping of the file, and room for a journal. The call reads
//! from the mapping, and what it writes and syncs goes into the journal, in order ([`MappedDevice`]). The host makes the journal on the
//! file, one operation after the other, before it passes on what the call returned, and before it calls again. Between two calls a
//! store is on a [`ParkedDevice`], of which each call is a fault.
//!
//! So the file is at each moment at some point of the writes and syncs that the store has made, as it is under a device that makes them
//! at once. If an operation of the journal fails, the host drops the store, and opens the file again.
//!
//! ```
//! let parked = ParkedDevice::new(store.sectors());
//! let (mut store, _) = store.on(MappedDevice::new(image, journal, sectors));
//! let number = store.commit(&batch);
//! let (store, device) = store.on(parked);
//! let used = device.used(); // this number of bytes of the journal are to be made
//! ```
#![tactic(auto)]

mod journal;
mod mapped;
mod parked;
mod past;

pub use mapped::MappedDevice;
pub use parked::ParkedDevice;
