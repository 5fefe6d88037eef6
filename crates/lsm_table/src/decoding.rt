//! Data blocks as entries.

ghost use Rattle.std.specs.Prelude.{◌≡◌, ◌⊎◌, List, Ok, IfOk, IfErr, map};
ghost use Rattle.lsm_device.specs.declared.refusal.Refusal.TheVariants.{NoMemory, BadTable};
ghost use Rattle.lsm_codec.specs.Versions.{Version};
ghost use Rattle.lsm_codec.specs.Entries.{entries_in};

use crate::entries::Entries;
use crate::layout::BLOCK;
use lsm_codec::{Entry, Gathered};
use lsm_device::Refusal;
use std::alloc::Allocator;

/// The entries for which there is room before more is asked for. Those of 129 bytes fill a block with 31.
const ENTRIES_AT_FIRST: usize = 64;

/// The entries that the bytes of a data block spell, copied into one block of memory that they share. It fails with `BadTable` only where
/// the bytes spell none, and else with `NoMemory`.
pub fn decode_data_block<A: Allocator + Clone>(
    alloc: &A,
    block: &[u8; 4_096],
) -> Result<Vec<Entry<A>, A>, Refusal>
    ensures spelled { IfOk result (λ entries. entries_in block.now ≡ map Ok entries.items) }
    ensures refused { IfErr result (λ refusal. (refusal ≡ NoMemory) ⊎ ((refusal ≡ BadTable)
        × ((entries : List Version) → entries_in block.now ≡ map Ok entries → ⊥))) }
{
    let mut gathered = Gathered::with_capacity(alloc.clone()?, BLOCK, ENTRIES_AT_FIRST)?;
    for item in Entries::new(block) {
        let version = item?;
        gathered.push(version)?;
    }
    Ok(gathered.into_entries()?)
}
