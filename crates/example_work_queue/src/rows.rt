// The rows of a queue, as bytes.
ghost use Rattle.std.specs.Prelude.{◌≡◌, ◌==◌, ◌<◌, ◌^◌, ◌∷◌, drop, Some, None, length, IfOk, IfSome, option_map};
ghost use Rattle.example_work_queue.specs.Tasks.{claimed_key, first_task, number_bytes, number_in, number_of, waiting_key};

use byteorder::{BigEndian, ByteOrder};
use corwaphi::{Page, Refusal};
use std::alloc::Global;

/// The key of the last number that was given.
pub(crate) const LAST_KEY: &[u8] = b"n";

/// The eight bytes of a number, the highest first.
#[tactic(auto, unfolding(crate::specs::Tasks::number_bytes))]
pub(crate) fn number_bytes(number: u64) -> [u8; 8]
    ensures { result ≡ number_bytes number }
{
    let mut bytes = [0; 8];
    BigEndian::write_u64(&mut bytes, number);
    bytes
}

// The bytes of a number after a letter.
#[tactic(auto, unfolding(crate::specs::Tasks::number_bytes))]
fn behind(letter: u8, number: u64) -> [u8; 9]
    ensures { result ≡ letter ∷ number_bytes number }
{
    let mut key = [letter; 9];
    BigEndian::write_u64(&mut key[1..], number);
    key
}

/// The key of a task that waits.
pub(crate) fn waiting_key(number: u64) -> [u8; 9]
    ensures { result ≡ waiting_key number }
{
    behind(b'w', number)
}

/// The key of a task that is claimed.
pub(crate) fn claimed_key(number: u64) -> [u8; 9]
    ensures { result ≡ claimed_key number }
{
    behind(b'c', number)
}

// The number in eight bytes.
#[tactic(auto, unfolding(crate::specs::Tasks::number_in))]
fn number_in(bytes: &[u8]) -> Option<u64>
    ensures { IfSome result (λ number. number ≡ number_in bytes.now) }
{
    if bytes.len() == 8 {
        Some(BigEndian::read_u64(bytes))
    } else {
        None
    }
}

/// The number in the row of the last one that was given, 0 where there is none. A row of another length is `BadValue`.
pub(crate) fn last_number(row: &Option<Vec<u8>>) -> Result<u64, Refusal>
    ensures { IfOk result (λ number. number ≡ number_of (option_map (λ v. v.items) row.now)) }
{
    match row {
        Some(bytes) => number_in(bytes).ok_or(Refusal::BadValue),
        None => Ok(0),
    }
}

// The number in a key, after its letter.
fn number_behind(key: &[u8]) -> Option<u64>
    ensures { IfSome result (λ number. number ≡ number_in (drop 1 key.now)) }
{
    if key.is_empty() {
        return None;
    }
    number_in(&key[1..])
}

/// The task in the first row of a page, with its number. A key of another length is `BadKey`.
pub(crate) fn first_task(alloc: Global, page: &Page) -> Result<Option<(u64, Vec<u8>)>, Refusal>
    ensures first { IfOk result
        (λ found. option_map (λ f. (f.0, f.1.items)) found ≡ first_task page.now.rows) }
    ensures fits { IfOk result (λ found. IfSome found (λ f. f.0 < 2 ^ 64)) }
{
    match page.rows().get(0) {
        Some(row) => match number_behind(row.key) {
            Some(number) => Ok(Some((number, Vec::from_slice(alloc, row.value)?))),
            None => Err(Refusal::BadKey),
        },
        None => Ok(None),
    }
}
