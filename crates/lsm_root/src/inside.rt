// Which sizes a device may have, and whether tables are inside the data area.
ghost use Rattle.std.specs.Prelude.{◌≤◌, ◌↔◌, IsTrue};
ghost use Rattle.lsm_codec.specs.TableRecords.{extent_end};
ghost use Rattle.lsm_root.specs.Layout.{IsGeometry, LieInside};

use lsm_codec::{TableRecord, data_blocks, is_device_size, is_log_size};

/// Whether a device may have `sectors` sectors, and each of its three log regions `log_sectors`.
pub fn is_geometry(sectors: u32, log_sectors: u16) -> bool
    ensures { IsTrue result ↔ IsGeometry sectors log_sectors }
{
    is_device_size(sectors) && is_log_size(log_sectors)
}

// Whether a table's extent is inside a data area of `blocks` blocks.
fn lies_inside(table: &TableRecord, blocks: u32) -> bool
    ensures { IsTrue result ↔ extent_end table.now ≤ blocks }
{
    table.first_block as u64 + table.extent_blocks() as u64 <= blocks as u64
}

/// Whether the extents of tables are inside the data area of a device with `sectors` sectors, `log_sectors` in each log region.
pub fn lie_inside(tables: &[TableRecord], sectors: u32, log_sectors: u16) -> bool
    requires { IsGeometry sectors log_sectors }
    ensures { IsTrue result ↔ LieInside sectors log_sectors tables.now }
{
    let blocks = data_blocks(sectors, log_sectors);
    tables.iter().all(|table| lies_inside(table, blocks))
}
