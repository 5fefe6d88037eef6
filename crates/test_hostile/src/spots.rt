//! Bytes that are changed of an image.

use lsm_device::Refusal;
use std::alloc::Global;
use test_compared_steps::draws::Draws;
use test_compared_steps::image::PlainImage;
use test_compared_steps::layout::{Record, record_in};

/// A byte of a sector that is changed.
#[derive(Clone, Copy)]
pub(crate) struct Spot {
    pub(crate) at: u32,
    pub(crate) place: usize,
    pub(crate) byte: u8,
}

/// Changes the byte of a sector.
pub(crate) fn set(bytes: &mut [u8; 512], spot: Spot) {
    if let Some(byte) = bytes.get_mut(spot.place) {
        *byte = spot.byte;
    }
}

/// The byte of an image at a place.
pub(crate) fn byte_at(image: &PlainImage, at: u32, place: usize) -> u8 {
    for sector in image.sectors.iter() {
        if sector.at == at {
            return sector.bytes.get(place).copied().unwrap_or(0);
        }
    }
    0
}

/// Whether a sector is not zero.
pub(crate) fn has_sector(image: &PlainImage, at: u32) -> bool {
    for sector in image.sectors.iter() {
        if sector.at == at {
            return true;
        }
    }
    false
}

/// A change of a byte of some sector: any other byte, or one more or one less, and mostly one of the first bytes.
fn drawn_spot(draws: &mut Draws, image: &PlainImage) -> Spot {
    let chosen = draws.place(image.sectors.len());
    let at = match image.sectors.get(chosen) {
        Some(sector) => sector.at,
        None => 0,
    };
    let bound = if draws.below(4) == 0 { 512 } else { 64 };
    let place = draws.place(bound);
    let old = byte_at(image, at, place);
    let byte = match draws.below(4) {
        0 => old.wrapping_add(1),
        1 => old.wrapping_sub(1),
        _ => draws.byte(),
    };
    Spot { at, place, byte }
}

/// One to five such changes.
pub(crate) fn drawn_spots(
    alloc: Global,
    draws: &mut Draws,
    image: &PlainImage,
) -> Result<Vec<Spot>, Refusal> {
    let mut spots = Vec::new(alloc);
    for _ in 0..draws.below(5).wrapping_add(1) {
        spots.push(drawn_spot(draws, image))?;
    }
    Ok(spots)
}

/// The fields of a table that a lie is told of, each of which stands in up to three places.
const FIELDS: u32 = 6;

/// Where a field of a table of one key stands: its entries, number, first value's length, key, batch or deletes. Where it stands
/// in fewer places than three, one is told twice.
fn places_of(record: Record, field: u32) -> [(u32, usize); 3] {
    let number = (record.manifest, record.number);
    let entries = (record.manifest, record.entries);
    let deletes = (record.manifest, record.deletes);
    let batch = (record.data, 11);
    match field {
        0 => [entries, entries, (record.footer, 16)],
        1 => [number, number, (record.footer, 11)],
        2 => [(record.data, 13), (record.data, 13), (record.data, 13)],
        3 => [(record.data, 3), (record.index, 1), (record.footer, 23)],
        4 => [batch, batch, (record.index, 9)],
        _ => [deletes, deletes, deletes],
    }
}

/// The bytes of a field that are changed, of one or two: sizes have two bytes.
fn drawn_bytes(draws: &mut Draws, field: u32) -> (u8, Option<u8>) {
    let [high, low] = match field {
        0 => draws.pair(4_000),
        2 => draws.pair(2_100),
        5 => draws.pair(4),
        _ => return (draws.byte(), None),
    };
    (high, Some(low))
}

/// A lie about a table that is told alike in all places, so that each check of one against another passes.
pub(crate) fn drawn_lie(
    alloc: Global,
    draws: &mut Draws,
    image: &PlainImage,
) -> Result<Vec<Spot>, Refusal> {
    let mut spots = Vec::new(alloc);
    let Some(record) = record_in(image, draws.place(5)) else {
        return Ok(spots);
    };
    let field = draws.below(FIELDS);
    let (byte, behind) = drawn_bytes(draws, field);
    for (at, place) in places_of(record, field) {
        spots.push(Spot { at, place, byte })?;
        if let Some(byte) = behind {
            let place = place.wrapping_add(1);
            spots.push(Spot { at, place, byte })?;
        }
    }
    Ok(spots)
}
