//! The whole caller of the library `example_store`.

use example_store::survive;
use lsm_device::MemDevice;
use std::alloc::Global;
use std::test::Fail;

// Whether a value that was put and synced is found after a crash.
fn survives(alloc: Global, key: &[u8], value: &[u8]) -> Result<bool, Fail> {
    let device = MemDevice::new(alloc, 8_192)?;
    let found = survive(alloc, device, key, value, &[false, true])?;
    Ok(found.as_deref() == Some(value))
}

#[test]
fn a_value_survives(rt: HostRuntime) -> Result<(), Fail> {
    assert!(rt; survives(rt.alloc(), b"key", b"value")?);
    Ok(())
}
