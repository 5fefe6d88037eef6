// What a call writes, for the host to make.
ghost use Rattle.std.specs.Prelude.{◌≡◌, ◌≤◌, ◌+◌, ◌++◌, length, take, drop};
ghost use Rattle.lsm_mapped.specs.Records.{number_text};

use byteorder::{ByteOrder, LittleEndian};
use lsm_device::SECTOR_BYTES;

/// The bytes of a record's head: the first sector and the number of sectors, each a u32 in little endian.
const HEAD_BYTES: usize = 8;

/// The writes and syncs of a call in their order, each a record: a head of 8 bytes, which has the first sector and the number of
/// sectors, each a u32 in little endian, and then the bytes of these sectors. A record with no sectors is a sync. A write that goes on
/// where the last record ends shares it. A write or sync for which there is no room changes no record.
///
/// This type has only its numbers. The bytes that it fills are passed to each call.
#[derive(Drop)]
pub(crate) struct Journal {
    used: usize,
    wrote: bool,
    // Of the last record: where its head is, its first sector, and how many it has.
    head: usize,
    first: u32,
    count: u32,
}

impl Journal {
    ghost use Rattle.std.specs.Prelude.{◌↔◌, ◌<◌, [], ◌∷◌, true, false, IsTrue, IsFalse};
    ghost use Rattle.lsm_mapped.specs.Journals.{Fills, records_in};
    ghost use Rattle.lsm_mapped.specs.Records.{front, goes_on as goes_on_at, last, sync_record, text_of, with_sector, with_sync, with_write, write_record};

    /// An empty one.
    pub(crate) const EMPTY: Journal = Journal {
        used: 0,
        wrote: false,
        head: 0,
        first: 0,
        count: 0,
    };

    /// How many bytes its records fill.
    pub(crate) fn used(&self) -> usize
        ensures { result ≡ self.now.used }
    {
        self.used
    }

    /// Whether there is a write in it, or was one for which there was no room.
    pub(crate) fn has_write(&self) -> bool
        ensures { result ≡ self.now.wrote }
    {
        self.wrote
    }

    /// Appends a sync. Returns whether there was room for it. A sync right after a sync changes nothing.
    pub(crate) fn sync(&mut self, bytes: &mut [u8]) -> bool
        requires { Fills self.old bytes.old }
        ensures fills { Fills self.new bytes.new }
        ensures room { IsTrue result
            ↔ (length (text_of (with_sync (records_in self.old bytes.old))) ≤ length bytes.old) }
        ensures synced { IsTrue result
            → records_in self.new bytes.new ≡ with_sync (records_in self.old bytes.old) }
        ensures refused { IsFalse result
            → records_in self.new bytes.new ≡ records_in self.old bytes.old }
        ensures same_wrote { self.new.wrote ≡ self.old.wrote }
        ensures same_room { length bytes.new ≡ length bytes.old }
    {
        if self.ends_in_sync() {
            return true;
        }
        if bytes.len() - self.used < HEAD_BYTES {
            return false;
        }
        lay(bytes, self.used, 0, 0, &[]);
        self.head = self.used;
        self.first = 0;
        self.count = 0;
        self.used += HEAD_BYTES;
        true
    }

    /// Appends a write of a sector. Returns whether there was room for it.
    pub(crate) fn write(&mut self, bytes: &mut [u8], at: u32, sector: &[u8; 512]) -> bool
        requires { Fills self.old bytes.old }
        ensures fills { Fills self.new bytes.new }
        ensures room { IsTrue result
            ↔ (length (text_of (with_write at sector.now (records_in self.old bytes.old)))
            ≤ length bytes.old) }
        ensures written { IsTrue result
            → records_in self.new bytes.new
            ≡ with_write at sector.now (records_in self.old bytes.old) }
        ensures refused { IsFalse result
            → records_in self.new bytes.new ≡ records_in self.old bytes.old }
        ensures wrote { self.new.wrote ≡ true }
        ensures same_room { length bytes.new ≡ length bytes.old }
    {
        self.wrote = true;
        if self.goes_on(at) {
            self.grow(bytes, sector)
        } else {
            self.begin(bytes, at, sector)
        }
    }

    // The last record gets a sector more.
    fn grow(&mut self, bytes: &mut [u8], sector: &[u8; 512]) -> bool
        requires fills { Fills self.old bytes.old }
        requires wrote { self.old.wrote ≡ true }
        requires goes_on { (0 < self.old.count) × (self.old.count < 4294967295) }
        ensures fills { Fills self.new bytes.new }
        ensures room { IsTrue result ↔ (self.old.used + 512 ≤ length bytes.old) }
        ensures written { IsTrue result
            → records_in self.new bytes.new ≡ front (records_in self.old bytes.old)
            ++ with_sector sector.now (last (records_in self.old bytes.old)) ∷ [] }
        ensures refused { IsFalse result
            → records_in self.new bytes.new ≡ records_in self.old bytes.old }
        ensures wrote { self.new.wrote ≡ true }
        ensures same_room { length bytes.new ≡ length bytes.old }
    {
        if bytes.len() - self.used < SECTOR_BYTES {
            return false;
        }
        let count = self.count + 1;
        lay_more(bytes, self.used, self.head, count, sector);
        self.count = count;
        self.used += SECTOR_BYTES;
        true
    }

    // A record of one sector more.
    fn begin(&mut self, bytes: &mut [u8], at: u32, sector: &[u8; 512]) -> bool
        requires fills { Fills self.old bytes.old }
        requires wrote { self.old.wrote ≡ true }
        ensures fills { Fills self.new bytes.new }
        ensures room { IsTrue result ↔ (self.old.used + 520 ≤ length bytes.old) }
        ensures written { IsTrue result
            → records_in self.new bytes.new ≡ records_in self.old bytes.old
            ++ write_record at sector.now ∷ [] }
        ensures refused { IsFalse result
            → records_in self.new bytes.new ≡ records_in self.old bytes.old }
        ensures wrote { self.new.wrote ≡ true }
        ensures same_room { length bytes.new ≡ length bytes.old }
    {
        if bytes.len() - self.used < HEAD_BYTES + SECTOR_BYTES {
            return false;
        }
        lay(bytes, self.used, at, 1, sector);
        self.head = self.used;
        self.first = at;
        self.count = 1;
        self.used += HEAD_BYTES + SECTOR_BYTES;
        true
    }

    // Whether a sync would follow a sync.
    fn ends_in_sync(&self) -> bool
        ensures { IsTrue result ↔ ((self.now.count ≡ 0) × (0 < self.now.used)) }
    {
        self.count == 0 && self.used > 0
    }

    // Whether a write of a sector goes on where the last record ends.
    fn goes_on(&self, at: u32) -> bool
        ensures { result ≡ goes_on_at at self.now.first self.now.count }
    {
        self.count > 0
            && (self.count < u32::MAX && self.first as u64 + self.count as u64 == at as u64)
    }
}

// Writes a record after the first `at` bytes.
fn lay(bytes: &mut [u8], at: usize, first: u32, count: u32, sectors: &[u8])
    requires { at + (8 + length sectors.now) ≤ length bytes.old }
    ensures { take (at + (8 + length sectors.now)) bytes.new
        ≡ take at bytes.old ++ ((number_text first ++ number_text count) ++ sectors.now) }
{
    put_number(bytes, at, first);
    put_number(bytes, at + 4, count);
    put(bytes, at + HEAD_BYTES, sectors);
}

// Writes a sector after the first `used` bytes, and raises the count of the record whose head is at `head`.
fn lay_more(bytes: &mut [u8], used: usize, head: usize, count: u32, sector: &[u8])
    requires room { used + length sector.now ≤ length bytes.old }
    requires head { head + 8 ≤ used }
    ensures { take (used + length sector.now) bytes.new ≡ take (head + 4) bytes.old
        ++ (number_text count ++ (drop (head + 8) (take used bytes.old) ++ sector.now)) }
{
    put(bytes, used, sector);
    put_number(bytes, head + 4, count);
}

// Overwrites the four bytes from `at` on with a number.
fn put_number(bytes: &mut [u8], at: usize, number: u32)
    requires { at + 4 ≤ length bytes.old }
    ensures { bytes.new ≡ take at bytes.old ++ (number_text number ++ drop (at + 4) bytes.old) }
{
    LittleEndian::write_u32(&mut bytes[at..], number);
}

// Overwrites the bytes from `at` on with `more`.
fn put(bytes: &mut [u8], at: usize, more: &[u8])
    requires { at + length more.now ≤ length bytes.old }
    ensures { bytes.new ≡ take at bytes.old ++ (more.now ++ drop (at + length more.now) bytes.old) }
{
    bytes[at..at + more.len()].copy_from_slice(more);
}
