//! Superblocks and log sectors.

use crate::codec::texts::{are, bytes_of, flipped};
use lsm_codec::{FormatVersion, LogSector, Superblock, data_blocks};
use std::process::Abort;

const FIRST_BATCH: &str = "4c534d4c00000000000000020000000000000001000000010008000000000000\
0001010161000131";

const FORMATTED: &str = "4c534d53000200000000000000010000200000800001";

const OPENED: &str = "4c534d53000200000000000000020000200000800001";

/// The superblock of a format in version 1.
const FORMATTED_OLD: &str = "4c534d53000100000000000000010000200000800001";

/// Whether two parts are the same.
fn is_same(a: &LogSector, b: &LogSector) -> bool {
    a.epoch == b.epoch
        && a.batch == b.batch
        && a.part == b.part
        && a.parts == b.parts
        && a.payload == b.payload
}

/// Whether the part is within the limits, as `fits` says, and just then read back from its sector.
fn is_read_back(part: &LogSector, fits: bool) -> bool {
    if part.payload.len() > 480 {
        return false;
    }
    match LogSector::decode(&part.encode()) {
        Some(again) => fits && part.is_within_limits() && is_same(&again, part),
        None => !fits && !part.is_within_limits(),
    }
}

#[test]
fn the_log_sector_of_a_first_batch(rt: HostRuntime) {
    let payload = [0, 1, 1, 1, 0x61, 0, 1, 0x31];
    let part = LogSector {
        epoch: 2,
        batch: 1,
        part: 0,
        parts: 1,
        payload: &payload,
    };
    assert!(rt; is_read_back(&part, true) && are(&part.encode(), FIRST_BATCH));
}

/// The same of the part of these numbers, with so many bytes.
fn is_limited(epoch: u64, batch: u64, part: u16, parts: u16, length: usize, fits: bool) -> bool {
    let bytes = [7; 480];
    if length > 480 {
        return false;
    }
    let part = LogSector {
        epoch,
        batch,
        part,
        parts,
        payload: &bytes[..length],
    };
    is_read_back(&part, fits)
}

#[test]
fn log_sectors_at_their_limits(rt: HostRuntime) {
    let last = 1 << 63;
    for (epoch, batch, part, parts, length, fits) in [
        (last, last, 126, 128, 480, true), // The last but one.
        (last, last, 127, 128, 1, true), // The last part.
        (0, last, 126, 128, 480, false), // Epoch 0.
        (last + 1, last, 126, 128, 480, false), // An epoch above the last.
        (last, 0, 126, 128, 480, false), // Batch 0.
        (last, last + 1, 126, 128, 480, false), // A batch above the last.
        (last, last, 128, 128, 480, false), // A part behind the last.
        (last, last, 126, 129, 480, false), // Too many parts.
        (last, last, 127, 128, 0, false), // No byte.
        (last, last, 126, 128, 479, false), // A short part before the last.
    ] {
        assert!(rt; is_limited(epoch, batch, part, parts, length, fits));
    }
}

/// Whether the superblock is within the limits, as `fits` says, and just then read back from its sector.
fn is_found(superblock: &Superblock, fits: bool) -> bool {
    match Superblock::decode(&superblock.encode()) {
        Some(found) => fits && superblock.is_within_limits() && found == *superblock,
        None => !fits && !superblock.is_within_limits(),
    }
}

/// Whether the superblock of a small device is spelled so, and read back.
fn is_superblock(version: FormatVersion, generation: u64, text: &str) -> bool {
    let superblock = Superblock {
        version,
        generation,
        sectors: 8_192,
        log_sectors: 128,
        manifest_sectors: 1,
    };
    are(&superblock.encode(), text) && is_found(&superblock, true)
}

#[test]
fn superblocks_of_a_format_and_an_open(rt: HostRuntime) {
    assert!(rt; is_superblock(FormatVersion::Two, 1, FORMATTED));
    assert!(rt; is_superblock(FormatVersion::Two, 2, OPENED));
    assert!(rt; is_superblock(FormatVersion::One, 1, FORMATTED_OLD));
}

#[test]
fn superblocks_at_their_limits(rt: HostRuntime) {
    let last = 1 << 63;
    for (generation, sectors, log_sectors, manifest_sectors, fits) in [
        (1, 8_192, 128, 1, true), // The least.
        (last, 1_048_576, 2_048, 64, true), // The greatest.
        (0, 8_192, 128, 1, false), // Generation 0.
        (last + 1, 1_048_576, 2_048, 64, false), // A generation above the last.
        (1, 8_191, 128, 1, false), // A device too small.
        (last, 1_048_577, 2_048, 64, false), // A device too large.
        (1, 8_192, 127, 1, false), // A log too small.
        (last, 1_048_576, 2_049, 64, false), // A log too large.
        (1, 8_192, 128, 0, false), // No sector.
        (last, 1_048_576, 2_048, 65, false), // Too many sectors.
    ] {
        let superblock = Superblock {
            version: FormatVersion::Two,
            generation,
            sectors,
            log_sectors,
            manifest_sectors,
        };
        assert!(rt; is_found(&superblock, fits));
    }
}

/// Whether the sector spells neither a superblock nor a part.
fn spells_nothing(sector: &[u8; 512]) -> bool {
    Superblock::decode(sector).is_none() && LogSector::decode(sector).is_none()
}

/// Whether no sector spells one that differs from this in the lowest bit of one byte, from one place up to another.
fn is_each_byte_read(text: &str, from: usize, to: usize) -> bool {
    let Some(sector) = bytes_of::<512>(text) else {
        return false;
    };
    for at in from..to {
        if !spells_nothing(&flipped(&sector, at)) {
            return false;
        }
    }
    true
}

#[test]
fn each_byte_that_does_not_vary_is_read(rt: HostRuntime) {
    for (text, from, to) in [
        (FORMATTED, 0, 6),
        (FORMATTED, 22, 512),
        (FIRST_BATCH, 0, 4),
        (FIRST_BATCH, 26, 32),
        (FIRST_BATCH, 40, 512),
    ] {
        assert!(rt; is_each_byte_read(text, from, to), "{text} from {from}");
    }
}

#[test]
fn zeros_and_versions_that_are_none(rt: HostRuntime) {
    for text in [
        "",
        "4c534d53000000000000000000010000200000800001",
        "4c534d53000300000000000000010000200000800001",
        "4c534d5300ff00000000000000010000200000800001",
    ] {
        let sector = bytes_of::<512>(text).expect(&rt, "hex");
        assert!(rt; spells_nothing(&sector), "{text}");
    }
    assert!(rt; data_blocks(8_192, 128) == 959);
}
