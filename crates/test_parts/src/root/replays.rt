//! Replays of sectors that are made by hand.

use lsm_codec::{Batch, LogSector, Op};
use lsm_device::{Device, MemDevice};
use lsm_log::replay;
use std::alloc::Global;
use std::process::Abort;

/// What a sector may hold: a text of 8 bytes, that without its last byte, the two parts of a text of 487 bytes, or a
/// text of no operations.
#[derive(Clone, Copy)]
enum Payload {
    Short,
    Cut,
    Front,
    Back,
    Empty,
}

#[derive(Drop)]
struct Texts {
    short: Vec<u8>,
    long: Vec<u8>,
}

/// The text of the batch that puts a value.
fn text_of<R: Abort>(rt: &R, alloc: Global, value: &[u8]) -> Vec<u8> {
    let put = Op::put(alloc, &[0x61], value).expect(rt, "a put");
    let batch = Batch::new(alloc, put).expect(rt, "a batch");
    Vec::from_slice(alloc, batch.text()).expect(rt, "memory")
}

impl Texts {
    fn bytes(&self, payload: Payload) -> &[u8] {
        let bytes = match payload {
            Payload::Short => self.short.get(..),
            Payload::Cut => self.short.get(..7),
            Payload::Front => self.long.get(..480),
            Payload::Back => self.long.get(480..),
            Payload::Empty => None,
        };
        bytes.unwrap_or(&[0, 0])
    }
}

/// The epoch, a batch's number, the part, how many parts there are, and what it holds.
type Part = (u64, u64, u16, u16, Payload);

/// The sector of a part, or zeros where that is too long.
fn sector_of((epoch, batch, part, parts, _): Part, payload: &[u8]) -> [u8; 512] {
    if payload.len() > 480 {
        return [0; 512];
    }
    let sector = LogSector {
        epoch,
        batch,
        part,
        parts,
        payload,
    };
    sector.encode()
}

/// Whether a part is written to a sector.
fn put(device: &mut MemDevice, at: u32, part: Part, texts: &Texts) -> bool {
    let sector = sector_of(part, texts.bytes(part.4));
    at < device.sectors() && device.write(at, &sector).is_ok()
}

/// Whether a replay of epoch 3 gives so many batches, by so many reads, of a region that begins with batch 1 and these two
/// parts.
fn gives<R: Abort>(
    rt: &R,
    alloc: Global,
    texts: &Texts,
    (second, third): (Part, Part),
    (batches, reads): (usize, u64),
) -> bool {
    let mut device = MemDevice::new(alloc, 258).expect(rt, "memory");
    let written = put(&mut device, 130, (3, 1, 0, 1, Payload::Short), texts)
        && put(&mut device, 131, second, texts)
        && put(&mut device, 132, third, texts);
    if device.sectors() < 258 {
        return false;
    }
    let found = replay(alloc, &mut device, 130, 128, 3, 1).expect(rt, "memory");
    written && found.len() == batches && device.reads() == reads
}

#[test]
fn what_is_not_awaited_ends_a_replay(rt: HostRuntime) {
    use Payload::{Back, Cut, Empty, Front, Short};
    let texts = Texts {
        short: text_of(&rt, rt.alloc(), &[0x31]),
        long: text_of(&rt, rt.alloc(), &[7; 480]),
    };
    assert!(rt; texts.short.len() == 8 && texts.long.len() == 487);
    // What stands behind batch 1 in two sectors. Then how many batches are left, and the reads.
    for (second, third, batches, reads) in [
        ((3, 2, 0, 1, Short), (3, 3, 0, 1, Short), 3, 4),
        ((3, 2, 0, 2, Front), (3, 2, 1, 2, Back), 2, 4),
        // Outside the grammar: a count of 0, a byte too few, a byte too many.
        ((3, 2, 0, 1, Empty), (3, 3, 0, 1, Short), 1, 2),
        ((3, 2, 0, 1, Cut), (3, 3, 0, 1, Short), 1, 2),
        ((3, 2, 0, 2, Front), (3, 2, 1, 2, Short), 1, 3),
        // Another number, a part of another count, and a first part without its last.
        ((3, 3, 0, 1, Short), (3, 2, 0, 1, Short), 1, 2),
        ((3, 2, 0, 2, Front), (3, 2, 1, 3, Front), 1, 3),
        ((3, 2, 0, 2, Front), (3, 3, 0, 1, Short), 1, 3),
        // A sector of an older epoch, as the next and as the last part.
        ((2, 2, 0, 1, Short), (3, 3, 0, 1, Short), 1, 2),
        ((3, 2, 0, 2, Front), (2, 2, 1, 2, Back), 1, 3),
    ] {
        assert!(rt; gives(&rt, rt.alloc(), &texts, (second, third), (batches, reads)));
    }
}
