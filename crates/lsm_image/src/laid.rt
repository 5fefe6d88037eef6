// Writes made on the sectors of an image.
ghost use Rattle.std.specs.Prelude.{◌≡◌, ◌++◌, map, Some, false, slice_index_or, OnOk};
ghost use Rattle.lsm_device.specs.Disk.{kept};
ghost use Rattle.lsm_image.specs.Laid.{write_of, newest};

use std::alloc::{AllocError, Allocator};

/// A write of a sector, and whether a sync followed it before the next write.
#[derive(Clone, Copy, Debug)]
pub(crate) struct Laid {
    pub(crate) at: u32,
    pub(crate) bytes: [u8; 512],
    pub(crate) sync_followed: bool,
}

/// Lays the newest of these writes of a sector over what it held before them.
pub(crate) fn lay_over(out: &mut [u8; 512], laid: &[Laid], at: u32)
    ensures { Some out.new ≡ newest (Some out.old) (map write_of laid.now) at }
{
    for write in laid {
        if write.at == at {
            *out = write.bytes;
        }
    }
}

fn is_kept(keep: &[bool], i: usize) -> bool
    ensures { result ≡ slice_index_or keep.now i false }
{
    keep.get(i).copied().unwrap_or(false)
}

/// Adds those of the writes whose place in `keep` is true, in order.
pub(crate) fn add_kept<A: Allocator>(
    laid: &mut Vec<Laid, A>,
    pending: &[Laid],
    keep: &[bool],
) -> Result<(), AllocError>
    ensures { OnOk result (map write_of laid.new.items ≡ map write_of laid.old.items
        ++ kept keep.now (map write_of pending.now)) }
{
    for (i, write) in pending.iter().enumerate() {
        if is_kept(keep, i) {
            laid.push(*write)?;
        }
    }
    Ok(())
}
