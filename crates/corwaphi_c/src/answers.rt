// Answers as numbers and bytes.

ghost use Rattle.std.specs.Prelude.{◌≡◌, ◌⊎◌, ◌<◌, false, length, option_map, take};
ghost use Rattle.std.specs.List.{flat_map, list_any};
ghost use Rattle.lsm_device.specs.Refusals.{number_of};
ghost use Rattle.lsm_machine.specs.Calls.{Done, Number, reply_of};
ghost use Rattle.corwaphi_c.specs.Calls.{IsDone, IsNumber, at_of};
ghost use Rattle.corwaphi_c.specs.Pages.{ArePut, IsPage, is_wide, is_wide_next, next_text, row_text};

use lsm_device::Refusal;
use lsm_store::{At, Page, Rows};

/// It went well.
pub(crate) const OK: u32 = 0;
/// The key has no value.
pub(crate) const NO_VALUE: u32 = 32;
/// The bytes don't fit the room for them: the length tells how much they need.
pub(crate) const SHORT_BUFFER: u32 = 33;
/// The bytes are no text of a batch.
pub(crate) const BAD_TEXT: u32 = 34;
/// Work is to be done before a write.
pub(crate) const WORK_FIRST: u32 = 64;

/// The number of a refusal.
pub(crate) fn code(refusal: Refusal) -> u32
    ensures { result ≡ number_of refusal }
{
    u32::from(refusal.number())
}

pub(crate) fn done(reply: Result<(), Refusal>) -> u32
    ensures { IsDone (reply_of (λ _. Done) reply) result }
{
    match reply {
        Ok(()) => OK,
        Err(refusal) => code(refusal),
    }
}

pub(crate) fn number(reply: Result<u64, Refusal>, out: &mut u64) -> u32
    ensures { IsNumber (reply_of Number reply) result out.new }
{
    match reply {
        Ok(number) => {
            *out = number;
            OK
        }
        Err(refusal) => code(refusal),
    }
}

/// The map that a number names: the present one by the last number of 64 bits, and else that of a snapshot.
pub(crate) fn at(snapshot: u64) -> At
    ensures { result ≡ at_of snapshot }
{
    if snapshot == u64::MAX {
        At::Now
    } else {
        At::Snap(snapshot)
    }
}

/// Copies bytes, where the room has place for them. The length is theirs either way.
pub(crate) fn copy(bytes: &[u8], room: &mut [u8], size: &mut usize) -> u32
    ensures size { size.new ≡ length bytes.now }
    ensures copied { ((result ≡ 0) × (take (length bytes.now) room.new ≡ bytes.now))
        ⊎ ((result ≡ 33) × (length room.new < length bytes.now)) }
{
    let count = bytes.len();
    *size = count;
    if count > room.len() {
        return SHORT_BUFFER;
    }
    room[..count].copy_from_slice(bytes);
    OK
}

/// What is told of a page besides its bytes.
#[repr(C)]
#[derive(Drop)]
pub struct PageTold {
    /// How many bytes its rows and the next key fill.
    pub length: usize,
    /// How many rows there are.
    pub rows: usize,
    /// Whether a next key comes after them.
    pub has_next: bool,
}

/// Puts the rows of a page, each as the length of its key and that of its value, each a u16 in little endian, the key and the value; and
/// after them the next key, as a row with an empty value, where there is one.
pub(crate) fn put_page(page: &Page, room: &mut [u8], told: &mut PageTold) -> u32
    ensures { IsPage page.now result room.new told.new }
{
    let Some(at) = put_rows(page.rows(), room) else {
        return SHORT_BUFFER;
    };
    let next = page.next_key();
    let Some(length) = put_next(next, room, at) else {
        return SHORT_BUFFER;
    };
    *told = PageTold {
        length,
        rows: page.rows().len(),
        has_next: next.is_some(),
    };
    OK
}

// Puts rows from the front on. Returns the place after them; `None` where the room ends before.
fn put_rows(rows: Rows<'_>, room: &mut [u8]) -> Option<usize>
    ensures { ArePut 0 (flat_map row_text rows.entry) (list_any is_wide rows.entry) room.old result
        room.new }
{
    let mut at = 0;
    for row in rows {
        at = put_row(row.key, row.value, room, at)?;
    }
    Some(at)
}

// Puts the next key as a row with an empty value, where there is one.
fn put_next(next: Option<&[u8]>, room: &mut [u8], at: usize) -> Option<usize>
    ensures { ArePut at (next_text (option_map (λ key. key.now) next.entry))
        (is_wide_next (option_map (λ key. key.now) next.entry)) room.old result room.new }
{
    match next {
        Some(key) => put_row(key, b"", room, at),
        None => Some(at),
    }
}

fn put_row(key: &[u8], value: &[u8], room: &mut [u8], at: usize) -> Option<usize>
    ensures { ArePut at (row_text (key.now, value.now)) (is_wide (key.now, value.now)) room.old
        result room.new }
{
    let (Ok(key_length), Ok(value_length)) = (u16::try_from(key.len()), u16::try_from(value.len()))
    else {
        return None;
    };
    let at = put(&key_length.to_le_bytes(), room, at)?;
    let at = put(&value_length.to_le_bytes(), room, at)?;
    let at = put(key, room, at)?;
    put(value, room, at)
}

// Puts bytes at a place. Returns the place after them; `None` where the room ends before.
fn put(bytes: &[u8], room: &mut [u8], at: usize) -> Option<usize>
    ensures { ArePut at bytes.now false room.old result room.new }
{
    if at > room.len() || bytes.len() > room.len() - at {
        return None;
    }
    let end = at + bytes.len();
    room[at..end].copy_from_slice(bytes);
    Some(end)
}
