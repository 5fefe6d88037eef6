//! The data blocks of tables, one after the other.

ghost use Rattle.std.specs.Prelude.{◌≡◌, ◌+◌, ◌-◌, ◌*◌, ◌<◌, ◌≤◌, ◌^◌, true, drop, slice_get};
ghost use Rattle.std.specs.List.{AllByRecursion};
ghost use Rattle.lsm_levels.specs.Asking.{placed_block};
ghost use Rattle.lsm_levels.specs.Cursors.{blocks_from_key, first_count, passed_blocks};
ghost use Rattle.lsm_levels.specs.Stored.{LiesWithin};
ghost use Rattle.lsm_levels.specs.Tables.{IsRun, at_most};

use crate::placed::PlacedBlock;
use crate::run::Run;
use crate::table::PlacedTable;
use lsm_cache::BlockName;
use std::alloc::Allocator;
use std::marker::Model;

/// The data block at a place in a table.
fn placed_block<A: Allocator>(table: &PlacedTable<A>, area: u32, place: usize) -> PlacedBlock
    requires few { place < 256 }
    requires ends { area + 8 * (table.now.start + place) < 2 ^ 32 }
    ensures { result ≡ placed_block area table.now place }
{
    let name = BlockName {
        table: table.number(),
        block: place as u8,
    };
    PlacedBlock {
        name,
        sector: area + 8 * (table.first_block() + place as u32),
    }
}

/// How many blocks of the first of these tables end before a key.
fn passed_blocks<A: Allocator>(tables: &[PlacedTable<A>], key: &[u8]) -> usize
    requires { AllByRecursion (λ t. at_most key.now t.last ≡ true) tables.now }
    ensures passed { result ≡ passed_blocks key.now tables.now }
    ensures inside { result ≤ first_count tables.now - 1 }
{
    match tables {
        [] => 0,
        [table, ..] => table.table().blocks_before(key),
    }
}

/// The data blocks of tables that are left, in order. The first block that is left is of the first table.
#[derive(Drop)]
pub(crate) struct Blocks<'a, A: Allocator> {
    tables: &'a [PlacedTable<A>],
    passed: usize,
    area: u32,
}

impl<'a, A: Allocator> Model for Blocks<'a, A> {
    ghost use Rattle.std.specs.Prelude.{List};
    ghost use Rattle.lsm_levels.specs.Cursors.{AreLeft, blocks_left};
    ghost use Rattle.lsm_levels.specs.declared.placed.PlacedBlock.{PlacedBlock};

    ghost Value = { List PlacedBlock };

    ghost view = { λ b. blocks_left b.area b.passed b.tables.now };

    ghost invariant = { λ b. AreLeft b.area b.passed b.tables.now };
}

impl<'a, A: Allocator> Blocks<'a, A> {
    /// The data blocks of a run without those before the one that may have the first version from a key on.
    pub(crate) fn from_key(run: &'a Run<A>, area: u32, key: &[u8]) -> Blocks<'a, A>
        requires within { AllByRecursion (LiesWithin (2 ^ 32) area) run.now }
        ensures { result ≡ blocks_from_key area key.now run.now }
    {
        let tables = run.ending_from(key);
        Blocks {
            tables,
            passed: passed_blocks(tables, key),
            area,
        }
    }

    /// The first block that is left, which is then passed.
    pub(crate) fn next(&mut self) -> Option<PlacedBlock>
        ensures first { result ≡ slice_get self.old 0 }
        ensures rest { self.new ≡ drop 1 self.old }
    {
        let (table, rest) = self.tables.split_first()?;
        let blocks = table.table().data_blocks();
        let block = placed_block(table, self.area, self.passed);
        self.passed += 1;
        if self.passed == blocks {
            self.tables = rest;
            self.passed = 0;
        }
        Some(block)
    }
}
