// What a check finds wrong.
ghost use Rattle.std.specs.Prelude.{◌≡◌};
ghost use Rattle.lsm_device.specs.declared.refusal.Refusal.TheVariants.{NoMemory};

use lsm_device::Refusal;
use std::alloc::AllocError;

/// What a check finds wrong.
#[derive(Clone, Copy, Debug, PartialEq, Eq)]
pub enum Finding {
    /// An opening would be refused so, or there was no memory, or a read failed; or the bytes of a table's data block are no
    /// entries, which is `BadTable`; or a log sector is of a later generation, which is `BadManifest`.
    Refused(Refusal),
    /// The entries of the table of this number are not those that its footer, index and record tell: another count, another
    /// first key, another end of a block, or another count of deletes.
    Entries(u64),
    /// The entries of the table of this number are out of order.
    Order(u64),
    /// The filter of the table of this number lacks a key of its entries.
    Filter(u64),
    /// The table of this number has a version of a batch that no table should have yet, or one that isn't older than a version
    /// of the same key in a newer table.
    Versions(u64),
}

impl From<Refusal> for Finding {
    ghost use Rattle.lsm_check.specs.declared.finding.Finding.{Finding};

    ghost from_gives = { λ refusal finding. finding ≡ Finding.Refused refusal };

    fn from(refusal: Refusal) -> Self {
        Finding::Refused(refusal)
    }
}

impl From<AllocError> for Finding {
    ghost use Rattle.lsm_check.specs.declared.finding.Finding.{Finding};

    ghost from_gives = { λ _ finding. finding ≡ Finding.Refused NoMemory };

    fn from(_: AllocError) -> Self {
        Finding::Refused(Refusal::NoMemory)
    }
}
