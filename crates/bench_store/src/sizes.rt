//! How much each run does.

/// The bytes of a sector.
pub(crate) const SECTOR_BYTES: u32 = 512;

/// The sectors of a log region.
pub(crate) const LOG_SECTORS: u16 = 2_048;

/// How many blocks of tables the cache keeps: all that a run has.
pub(crate) const CACHE: u32 = 4_096;

/// The bytes of a block of a table, and of the raw read for a get or a scan.
pub(crate) const BLOCK_BYTES: u32 = 4_096;

/// The bytes of a key and its value.
pub(crate) const ROW_BYTES: u32 = 116;

/// The rows of a page: as many as one may have.
pub(crate) const PAGE_ROWS: u64 = 64;

/// The numbers of a run.
#[derive(Clone, Copy)]
pub(crate) struct Sizes {
    /// The sectors of the device.
    pub(crate) sectors: u32,
    /// The keys of the map: a fill, an overwriting, a load, and each other workload without single syncs, puts each of them once.
    pub(crate) keys: u32,
    /// The puts that are committed and synced one by one, by the caller or by the clients of a session.
    pub(crate) synced: u32,
    /// The puts that a log has when a store is opened, or where one client fills it with a worker; and those of all clients of a
    /// session.
    pub(crate) logged: u32,
    /// How often the whole map is scanned.
    pub(crate) scans: u32,
    /// How often the store is opened.
    pub(crate) openings: u32,
    /// How many sessions clients share one after another.
    pub(crate) sessions: u32,
    /// The places of a trail that is filled.
    pub(crate) places: u32,
}

/// The run that only checks the answers.
pub(crate) const SMALL: Sizes = Sizes {
    sectors: 16_384,
    keys: 400,
    synced: 100,
    logged: 200,
    scans: 1,
    openings: 2,
    sessions: 1,
    places: 400,
};

/// The run that is measured.
pub(crate) const FULL: Sizes = Sizes {
    sectors: 131_072,
    keys: 20_000,
    synced: 1_000,
    logged: 2_000,
    scans: 5,
    openings: 5,
    sessions: 10,
    places: 65_536,
};
