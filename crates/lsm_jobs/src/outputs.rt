//! The outputs of a job, which are being written.

ghost use Rattle.std.specs.Prelude.{◌≡◌, ◌<◌, ◌≤◌, ◌+◌, ◌-◌, ◌*◌, length, take, drop, is_ok, IfSome, OnErr};
ghost use Rattle.std.specs.Arc.{arc_value};
ghost use Rattle.std.specs.List.{AllByRecursion};
ghost use Rattle.lsm_device.specs.Calls.{AtMost};
ghost use Rattle.lsm_merge.specs.Divisions.{AreTables};
ghost use Rattle.lsm_merge.specs.Inputs.{kept_of};
ghost use Rattle.lsm_jobs.specs.Outputs.{AreMadeOf, AreTablesOf, placed_blocks, place_in, EndsWithin, next_blocks};
ghost use Rattle.lsm_jobs.specs.Writing.{WritesBlocks};

use crate::writing::write_block;
use lsm_device::{Device, Fault};
use lsm_levels::PlacedTable;
use lsm_merge::Input;
use lsm_table::Image;
use std::alloc::Allocator;
use std::marker::Model;
use std::sync::Arc;

/// The outputs of a job: their images, the tables that these are placed as, how many of their blocks are written, and how
/// many are left. Its input stays, for contracts.
#[derive(Drop)]
pub(crate) struct Outputs<A: Allocator> {
    input: Arc<Input<A>, A>,
    images: Arc<Vec<Image<A>, A>, A>,
    tables: Vec<PlacedTable<A>, A>,
    written: u32,
    left: u32,
}

impl<A: Allocator> Model for Outputs<A> {
    ghost use Rattle.std.specs.Arc.{arc_value};
    ghost use Rattle.lsm_jobs.specs.Outputs.{Placed, AreOutputsOf};

    ghost Value = { Placed };

    ghost view = { λ o. record { input = arc_value o.input; tables = o.tables.items; left = o.left } };

    ghost invariant = { λ o. AreOutputsOf (arc_value o.input) (arc_value o.images).items o.tables.items o.written o.left };
}

/// Which of the blocks that images take stands at a place, counted through them: the image, and the place in it.
fn place_of<A: Allocator>(images: &[Image<A>], at: usize) -> Option<(usize, usize)>
    ensures place { result ≡ place_in 0 at images.now }
    ensures inside { IfSome result (λ p. p.0 < length images.now) }
{
    let mut rest = at;
    for (i, image) in images.iter().enumerate() {
        let blocks = image.extent_blocks();
        if rest < blocks {
            return Some((i, rest));
        }
        rest -= blocks;
    }
    None
}

/// Writes a block of tables to its place in the data area. The blocks are counted through the tables.
fn write_one<D: Device, A: Allocator>(
    images: &[Image<A>],
    tables: &[PlacedTable<A>],
    device: &mut D,
    area: u32,
    at: usize,
) -> Result<(), Fault>
    requires of { AreTablesOf images.now tables.now }
    requires same { length images.now ≡ length tables.now }
    requires at { at < length (placed_blocks tables.now) }
    requires within { AllByRecursion (EndsWithin (D.medium device.old).size area) tables.now }
    ensures written { WritesBlocks area (take 1 (drop at (placed_blocks tables.now))) (is_ok result)
        (D.medium device.old) (D.medium device.new) }
    ensures calls { AtMost 0 8 0 (D.medium device.old).calls (D.medium device.new).calls }
{
    let Some((i, block)) = place_of(images, at) else {
        return Ok(());
    };
    let table = &tables[i];
    let bytes = images[i].block(table.number(), block);
    write_block(
        device,
        area + 8 * (table.first_block() + block as u32),
        &bytes,
    )
}

/// Writes `count` blocks of tables, from block `from` on.
fn write_some<D: Device, A: Allocator>(
    images: &[Image<A>],
    tables: &[PlacedTable<A>],
    device: &mut D,
    area: u32,
    from: u32,
    count: u32,
) -> Result<(), Fault>
    requires of { AreTablesOf images.now tables.now }
    requires same { length images.now ≡ length tables.now }
    requires count { from + count ≤ length (placed_blocks tables.now) }
    requires within { AllByRecursion (EndsWithin (D.medium device.old).size area) tables.now }
    ensures written { WritesBlocks area (take count (drop from (placed_blocks tables.now)))
        (is_ok result) (D.medium device.old) (D.medium device.new) }
    ensures calls { AtMost 0 (8 * count) 0 (D.medium device.old).calls (D.medium device.new).calls }
    ensures untouched { count ≡ 0 → D.medium device.new ≡ D.medium device.old }
    ensures some { OnErr result (0 < count) }
{
    for i in 0..count {
        write_one(images, tables, device, area, from as usize + i as usize)?;
    }
    Ok(())
}

impl<A: Allocator> Outputs<A> {
    /// The outputs of a job with this input, whose images are placed as these tables, with all of their blocks left.
    pub(crate) fn new(
        input: Arc<Input<A>, A>,
        images: Arc<Vec<Image<A>, A>, A>,
        tables: Vec<PlacedTable<A>, A>,
        left: u32,
    ) -> Outputs<A>
        requires kept { AreTables (kept_of (arc_value input)) (arc_value images).items }
        requires placed { AreTablesOf (arc_value images).items tables.items }
        requires left { left ≡ length (placed_blocks tables.items) }
        ensures { result ≡ record { input = arc_value input; tables = tables.items; left = left } }
    {
        Outputs {
            input,
            images,
            tables,
            written: 0,
            left,
        }
    }

    /// The tables that the images are placed as. They are what a merge makes of the input.
    pub(crate) fn tables(&self) -> &[PlacedTable<A>]
        ensures same { result.now ≡ self.now.tables }
        ensures made { AreMadeOf self.now.input result.now }
    {
        &self.tables
    }

    /// How many blocks are left.
    pub(crate) fn left(&self) -> u32
        ensures { result ≡ self.now.left }
    {
        self.left
    }

    /// Writes the next `count` of the blocks that are left.
    pub(crate) fn write_next<D: Device>(
        &self,
        device: &mut D,
        area: u32,
        count: u32,
    ) -> Result<(), Fault>
        requires left { count ≤ self.now.left }
        requires eight { count ≤ 8 }
        requires most { count < 8 → count ≡ self.now.left }
        requires within { AllByRecursion (EndsWithin (D.medium device.old).size area)
            self.now.tables }
        ensures written { WritesBlocks area (next_blocks self.now.tables self.now.left)
            (is_ok result) (D.medium device.old) (D.medium device.new) }
        ensures calls { AtMost 0 (8 * count) 0 (D.medium device.old).calls
            (D.medium device.new).calls }
        ensures untouched { count ≡ 0 → D.medium device.new ≡ D.medium device.old }
        ensures some { OnErr result (0 < count) }
    {
        write_some(
            self.images.as_slice(),
            &self.tables,
            device,
            area,
            self.written,
            count,
        )
    }

    /// Notes that `count` more blocks are written.
    pub(crate) fn note_written(&mut self, count: u32)
        requires { count ≤ self.old.left }
        ensures { self.new ≡ record {
          input = self.old.input;
          tables = self.old.tables;
          left = self.old.left - count;
        } }
    {
        self.written += count;
        self.left -= count;
    }
}
