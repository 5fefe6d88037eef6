//! How a store is opened, and made.

ghost use Rattle.std.specs.Prelude.{◌<◌, ◌≤◌, ◌+◌, ◌*◌, ◌^◌};
ghost use Rattle.corwaphi.specs.Sizes.{AreWithinLimits, AreRoomFor, HaveRoomFor, entry_bytes};

/// The entries that tables can hold, and the blocks of the largest store, or some more.
const MOST_ENTRIES: u64 = 3_276_800;

const MOST_BLOCKS: u32 = 131_072;

/// How a store is opened, and how large one is made.
#[derive(Clone, Copy, Debug)]
pub struct Options {
    /// The blocks of 4 KiB that the cache keeps, 1 to 4,096.
    pub cache: u32,
    /// The sectors of 512 bytes of a new store, 8,192 to 1,048,576. A store can't grow.
    pub sectors: u32,
    /// The sectors of each of the three log regions of a new store, 128 to 2,048.
    pub log_sectors: u16,
}

impl Default for Options {
    ghost use Rattle.std.specs.Prelude.{◌≡◌};

    ghost is_default = { λ o. o ≡ record { cache = 256; sectors = 65536; log_sectors = 2042 } };

    /// A cache of 256 blocks, and a new store of 32 MiB with log regions of 2,042 sectors.
    fn default() -> Self {
        Options {
            cache: 256,
            sectors: 65_536,
            log_sectors: 2_042,
        }
    }
}

impl Options {
    /// Options for a new store of which `rows` rows, with keys of `key_bytes` and values of `value_bytes` bytes, will fill about 45
    /// percent; or those of the largest store, where that is smaller.
    ///
    /// A log region has a sixteenth of the sectors, 2,042 at most; and the cache a block for each 256 sectors, 256 at least.
    pub fn for_rows(rows: u64, key_bytes: u32, value_bytes: u32) -> Options
        ensures within { AreWithinLimits result }
        ensures room { HaveRoomFor rows (entry_bytes key_bytes value_bytes) result }
    {
        let area = 8 * blocks_for(rows, key_bytes, value_bytes) + 130;
        let log_sectors = (area / 13).clamp(128, 2_042);
        let sectors = (area + 3 * log_sectors).clamp(8_192, 1_048_576);
        Options {
            cache: (sectors / 256).clamp(256, 4_096),
            sectors,
            log_sectors: log_sectors as u16,
        }
    }
}

// The blocks of a data area of which `rows` rows fill 45 percent: those of their entries, and four more for each table. Where no store
// has that many entries, they are those of the largest store.
fn blocks_for(rows: u64, key_bytes: u32, value_bytes: u32) -> u32
    ensures few { result < 2 ^ 28 }
    ensures room { AreRoomFor rows (entry_bytes key_bytes value_bytes) result }
{
    if rows > MOST_ENTRIES {
        return MOST_BLOCKS;
    }
    let entry = 12 + key_bytes.min(255) + value_bytes.min(2_048);
    let blocks = entry_blocks(rows as u32, entry);
    let tables = blocks / 48 + rows as u32 / 3_200 + 1;
    (blocks + 4 * tables) * 20 / 9
}

// The blocks that `rows` entries of `entry` bytes fill, of which one has room for 4,094 bytes of them.
fn entry_blocks(rows: u32, entry: u32) -> u32
    requires few { rows ≤ 3276800 }
    requires some { 12 ≤ entry }
    requires small { entry ≤ 2315 }
    ensures fits { result ≤ rows + 1 }
    ensures room { rows * entry ≤ 4094 * result }
{
    rows / (4_094 / entry) + 1
}
