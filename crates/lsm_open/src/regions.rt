// Where a store's batches lie on its device.
ghost use Rattle.std.specs.Prelude.{◌≡◌, ◌≤◌, ◌+◌, ◌*◌, ◌++◌, [], length, if◌then◌else◌, IfOk};
ghost use Rattle.lsm_open.specs.LogRegions.{first_region, region_start};
ghost use Rattle.lsm_open.specs.Layout.{record_of, open_records, layout_of};
ghost use Rattle.lsm_open.specs.Placements.{contents_for};
ghost use Rattle.lsm_open.specs.Tables.{first_data};

use lsm_codec::{LogRecord, Manifest, ROOT_SECTORS, TableRecord};
use lsm_log::Log;
use std::alloc::{AllocError, Allocator, Global};

/// The open log, and the number of its region, from 0 to 2.
#[derive(Debug, Drop)]
pub struct OpenRegion {
    pub region: u8,
    pub log: Log,
}

/// Where a store's batches lie: those up to the base in tables, the next in the closed regions, the older first, and the
/// last in the open log, if one is open.
#[derive(Debug, Drop)]
pub struct Regions<A: Allocator = Global> {
    /// The sectors of one log region, 128 to 2,048.
    pub log_sectors: u16,
    /// The generation whose manifest stands.
    pub generation: u64,
    /// The last batch that is in tables.
    pub base: u64,
    /// The number of the next table.
    pub next_table: u64,
    /// The regions that hold batches and are not written any more.
    pub closed: Vec<LogRecord, A>,
    /// None where each region is closed.
    pub open_region: Option<OpenRegion>,
}

/// The first sector of a region.
pub(crate) fn region_start(log_sectors: u16, region: u8) -> u32
    ensures { result ≡ region_start log_sectors region }
{
    ROOT_SECTORS + region as u32 * log_sectors as u32
}

impl OpenRegion {
    /// The log record of the open log.
    pub fn record(&self) -> LogRecord
        ensures { result ≡ record_of self.now }
    {
        LogRecord {
            region: self.region,
            epoch: self.log.epoch(),
            first_batch: self.log.first(),
        }
    }
}

impl<A: Allocator> Regions<A> {
    /// The first sector of the data area, after the log regions.
    pub fn data_start(&self) -> u32
        ensures { result ≡ first_data self.now.log_sectors }
    {
        region_start(self.log_sectors, 3)
    }

    /// The log records of the regions that hold batches after those in tables: of the closed ones, unless all of their batches
    /// are in tables, and then that of the open log, if one is open.
    pub fn log_records(&self, alloc: A, settled: bool) -> Result<Vec<LogRecord, A>, AllocError>
        ensures { IfOk result (λ logs. logs.items ≡ (if settled then [] else self.now.closed.items)
            ++ open_records self.now.open_region) }
    {
        let mut logs = Vec::new(alloc);
        if !settled {
            logs.extend_from_slice(&self.closed)?;
        }
        match &self.open_region {
            Some(open) => {
                logs.push(open.record())?;
                Ok(logs)
            }
            None => Ok(logs),
        }
    }
}

impl<A: Allocator + Clone> Regions<A> {
    /// The manifest that says where the batches lie, with these tables up to the base, in `runs` runs of level 0 and in
    /// levels 1 to 4.
    pub fn manifest(
        &self,
        alloc: A,
        runs: u8,
        tables: &[TableRecord],
    ) -> Result<Manifest<A>, AllocError>
        ensures { IfOk result (λ m. m
            ≡ contents_for (record
            { logs = layout_of self.now; runs = runs; tables = tables.now })) }
    {
        let logs = self.log_records(alloc.clone()?, false)?;
        let mut named = Vec::new(alloc);
        named.extend_from_slice(tables)?;
        Ok(Manifest::new(
            self.generation,
            self.base,
            self.next_table,
            runs,
            logs,
            named,
        ))
    }
}
