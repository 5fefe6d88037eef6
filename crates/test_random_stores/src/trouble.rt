//! What is wrong with a store.

use lsm_device::Refusal;
use std::alloc::{AllocError, AllocFailed};

/// What is wrong with a store.
#[derive(Clone, Copy, Debug)]
pub enum Trouble {
    /// It was refused to be made or opened.
    Opening(Refusal),
    /// A delete was refused.
    Delete(Refusal),
    /// A put was refused where there is room.
    Put(Refusal),
    /// Its rows are others.
    Rows,
    /// The value of a key is another.
    Value,
    /// The rows of a range, or those of pages with writes between them, are others.
    Range,
    /// A batch was added though one of its guards is false, or it was refused otherwise than its guards say.
    Guards,
    /// A call that is to be refused was answered, or refused otherwise.
    Wrong,
    /// A crash left this number of batches: fewer than were synced, or more than there were.
    Left(u64),
    /// Tables were left above the last level.
    Compaction,
    /// It took fewer rows than before it was emptied.
    Room,
    /// Another call was refused, or there is no memory for the test.
    Call(Refusal),
}

impl From<Refusal> for Trouble {
    ghost use Rattle.std.specs.Prelude.{◌≡◌};
    ghost use Rattle.test_random_stores.specs.declared.trouble.Trouble.TheVariants.{Call};

    ghost from_gives = { λ refusal told. told ≡ Call refusal };

    fn from(refusal: Refusal) -> Self {
        Trouble::Call(refusal)
    }
}

impl From<AllocError> for Trouble {
    ghost use Rattle.std.specs.Prelude.{◌≡◌};
    ghost use Rattle.lsm_device.specs.declared.refusal.Refusal.TheVariants.{NoMemory};
    ghost use Rattle.test_random_stores.specs.declared.trouble.Trouble.TheVariants.{Call};

    ghost from_gives = { λ _ told. told ≡ Call NoMemory };

    fn from(_error: AllocError) -> Self {
        Trouble::Call(Refusal::NoMemory)
    }
}

impl<T: Drop> From<AllocFailed<T>> for Trouble {
    ghost use Rattle.std.specs.Prelude.{◌≡◌};
    ghost use Rattle.lsm_device.specs.declared.refusal.Refusal.TheVariants.{NoMemory};
    ghost use Rattle.test_random_stores.specs.declared.trouble.Trouble.TheVariants.{Call};

    ghost from_gives = { λ _ told. told ≡ Call NoMemory };

    fn from(_error: AllocFailed<T>) -> Self {
        Trouble::Call(Refusal::NoMemory)
    }
}
