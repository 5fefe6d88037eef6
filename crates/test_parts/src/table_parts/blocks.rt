//! Blocks of a table on a device, which are asked for through a cache.

use lsm_cache::{BlockBytes, BlockName, Cache};
use lsm_device::{Device, MemDevice};
use std::alloc::{Allocator, Global};
use std::process::Abort;

/// The first sector of a block. There are four places, in which blocks lie in turn.
fn sector_of(block: u8) -> u32 {
    16 + 8 * (block % 4) as u32
}

/// The byte of which a sector of a block is full, the same for each block of a place.
fn byte_of(block: u8, sector: usize) -> u8 {
    (block % 4).wrapping_mul(8).wrapping_add((sector % 8) as u8)
}

/// A device with all blocks of the table.
pub fn device<R: Abort>(rt: &R, alloc: Global) -> MemDevice {
    let mut device = MemDevice::new(alloc, 64).expect(rt, "memory");
    for block in 0..4_u8 {
        for sector in 0..8_u8 {
            let at = sector_of(block).wrapping_add(sector as u32);
            if at < device.sectors() {
                let written = device.write(at, &[byte_of(block, sector as usize); 512]);
                assert!(rt; written.is_ok());
            }
        }
    }
    device
}

/// Whether these are the bytes of a block.
fn are_those_of(block: u8, bytes: &[u8; 4_096]) -> bool {
    let mut places = bytes.iter().enumerate();
    places.all(|(at, byte)| *byte == byte_of(block, at / 512))
}

/// How many reads it takes to copy a block of the table out of the cache, or none where its bytes are not given.
pub fn reads_for<A: Allocator + Clone>(
    cache: &mut Cache<A>,
    device: &mut MemDevice,
    block: u8,
) -> Option<u64> {
    let before = device.reads();
    let sector = sector_of(block);
    if sector > 48 || device.sectors() < 64 {
        return None;
    }
    let mut bytes = [0; 4_096];
    cache.get(7, block, sector, device, &mut bytes).ok()?;
    if !are_those_of(block, &bytes) {
        return None;
    }
    Some(device.reads().wrapping_sub(before))
}

/// How many reads it takes to ask for it, so that its bytes are shared with the cache.
fn reads_to_share<A: Allocator + Clone>(
    cache: &mut Cache<A>,
    device: &mut MemDevice,
    block: u8,
) -> Option<u64> {
    let before = device.reads();
    let sector = sector_of(block);
    if sector > 48 || device.sectors() < 64 {
        return None;
    }
    let mut bytes = BlockBytes::new();
    let name = BlockName { table: 7, block };
    cache.ask(name, sector, device, &mut bytes).ok()?;
    if !are_those_of(block, bytes.as_array()) {
        return None;
    }
    Some(device.reads().wrapping_sub(before))
}

/// Whether each block is given, by so many reads: copied and shared in turn.
pub fn gives<A: Allocator + Clone>(
    cache: &mut Cache<A>,
    device: &mut MemDevice,
    asks: &[(u8, u64)],
) -> bool {
    for (at, (block, reads)) in asks.iter().enumerate() {
        let taken = if at % 2 == 0 {
            reads_to_share(cache, device, *block)
        } else {
            reads_for(cache, device, *block)
        };
        if taken != Some(*reads) {
            return false;
        }
    }
    true
}
