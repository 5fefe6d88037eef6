//! What a data block says of a key.

ghost use Rattle.std.specs.Prelude.{◌≡◌, ◌&&◌};
ghost use Rattle.lsm_codec.specs.References.{shown};
ghost use Rattle.lsm_codec.specs.Versions.{is_version_of};
ghost use Rattle.lsm_table.specs.Items.{items_at};
ghost use Rattle.lsm_levels.specs.Asking.{said_in};
ghost use Rattle.lsm_levels.specs.Cursors.{first_refusal, refusal_of};
ghost use Rattle.lsm_levels.specs.Founds.{spanned_in};

use lsm_codec::VersionRef;
use lsm_device::Refusal;
use lsm_table::{EntryPlace, EntrySpan};

/// Whether it is a version of the key, numbered at most `at`.
fn is_version_of(version: &VersionRef<'_>, key: &[u8], at: u64) -> bool
    ensures { result ≡ is_version_of key.now at (shown version.now) }
{
    key.cmp(version.key).is_eq() && version.number <= at
}

/// Refuses bytes that are no entry and come first from a place of a block on.
fn test_from(place: &EntryPlace, block: &[u8; 4_096]) -> Result<(), Refusal>
    ensures { refusal_of result ≡ first_refusal (items_at place.now block.now) }
{
    match place.entries(block).next() {
        Some(Err(refusal)) => Err(refusal),
        Some(Ok(_)) | None => Ok(()),
    }
}

/// Where the first version of the key lies among the entries of a block that is numbered at most `at`. It is refused with
/// `BadTable` where bytes that are no entry come before.
pub(crate) fn find_in_block(
    block: &[u8; 4_096],
    key: &[u8],
    at: u64,
) -> Result<Option<EntrySpan>, Refusal>
    ensures { spanned_in block.now result ≡ said_in key.now at block.now }
{
    let mut place = EntryPlace::first(block);
    while let Some((span, behind)) = place.first_entry(block) {
        if is_version_of(&span.entry(block), key, at) {
            return Ok(Some(span));
        }
        place = behind;
    }
    test_from(&place, block)?;
    Ok(None)
}
