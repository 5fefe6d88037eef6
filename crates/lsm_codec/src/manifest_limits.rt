//! The limits of a manifest.

ghost use Rattle.std.specs.Prelude.{◌≡◌, ◌≤◌, ◌<◌, ◌-◌, ◌^◌, ◌↔◌, IsTrue};
ghost use Rattle.std.specs.List.{All};
ghost use Rattle.lsm_codec.specs.TableRecords.{IsTableRecord, IsOfVersion};
ghost use Rattle.lsm_codec.specs.Manifests.{BeginsAfter, NumbersFit, LogsFit, TablesFit, IsManifest};

use crate::agree::each_two_agree;
use crate::greatest::LAST_NUMBER;
use crate::log_record::LogRecord;
use crate::manifest::Manifest;
use crate::superblock::FormatVersion;
use crate::table_record::has_each_run;
use std::alloc::Allocator;

fn begins_after(base: u64, logs: &[LogRecord]) -> bool
    requires { base < 2 ^ 64 - 1 }
    ensures { IsTrue result ↔ BeginsAfter base logs.now }
{
    match logs {
        [] => true,
        [first, ..] => first.first_batch == base + 1,
    }
}

impl<A: Allocator> Manifest<A> {
    fn numbers_fit(&self) -> bool
        ensures { IsTrue result ↔ NumbersFit self.now }
    {
        (1..=LAST_NUMBER).contains(&self.generation())
            && self.base() <= LAST_NUMBER
            && (1..=LAST_NUMBER + 1).contains(&self.next_table())
            && self.runs() <= 12
            && self.logs().len() <= 3
            && self.tables().len() <= 1_024
    }

    fn logs_fit(&self) -> bool
        requires { self.now.base ≤ 2 ^ 63 }
        ensures { IsTrue result ↔ LogsFit self.now }
    {
        self.logs()
            .iter()
            .all(|log| log.is_within_limits(self.generation()))
            && each_two_agree(self.logs())
            && begins_after(self.base(), self.logs())
    }

    fn each_table_fits(&self) -> bool
        ensures { IsTrue result
            ↔ All (IsTableRecord self.now.next_table self.now.runs) self.now.tables }
    {
        self.tables().iter().all(|table| table.is_within_limits(self.next_table(), self.runs()))
    }

    fn tables_fit(&self) -> bool
        ensures { IsTrue result ↔ TablesFit self.now }
    {
        self.each_table_fits()
            && each_two_agree(self.tables())
            && has_each_run(self.tables(), self.runs())
    }

    /// Whether each record of a table is one of this version of the format.
    pub fn is_of_version(&self, version: FormatVersion) -> bool
        ensures { IsTrue result ↔ All (IsOfVersion version) self.now.tables }
    {
        self.tables()
            .iter()
            .all(|table| table.is_of_version(version))
    }

    /// Whether the numbers and records are within the limits and in order, and no two tables overlap.
    pub fn is_within_limits(&self) -> bool
        ensures { IsTrue result ↔ IsManifest self.now }
    {
        self.numbers_fit() && self.logs_fit() && self.tables_fit()
    }
}
