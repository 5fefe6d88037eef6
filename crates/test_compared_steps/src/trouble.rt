//! How a store differs from what it should do.

use crate::plain::{Answer, Step, TablesTold};
use lsm_device::Refusal;
use std::alloc::{AllocError, AllocFailed};

/// How a store differs.
#[derive(Clone, Copy, Debug)]
pub enum Trouble {
    /// By an answer.
    Answer {
        step: Step,
        found: Answer,
        wanted: Answer,
    },
    /// A call of the device failed, and no step answered so; or one answered so, and its last call was another.
    Calls {
        step: Option<Step>,
    },
    /// A step answered that a call failed, or that memory was refused, where none was.
    Unasked {
        step: Step,
    },
    /// An opening has a number of batches that no crash leaves.
    Count(u64),
    /// An opening has this number of batches, and another map than they make.
    Map(u64),
    /// The levels have other tables.
    Tables {
        found: TablesTold,
        wanted: TablesTold,
    },
    /// A refusal that is not in the list of the call, or that comes where none is due.
    Refusal(Refusal),
    /// A check found something else than with ample memory on a device that doesn't fail.
    Check,
    /// A refused opening, or a check, wrote.
    Written,
    /// A turn of a client came to something else than this.
    Turn {
        step: Option<Step>,
    },
    /// A trail has other entries.
    Trail,
    /// An exploration counts otherwise than with ample memory, or found something wrong.
    Explored,
    /// This number of bytes of the heap is not given back.
    Leak(usize),
}

impl From<Refusal> for Trouble {
    fn from(refusal: Refusal) -> Trouble {
        Trouble::Refusal(refusal)
    }
}

impl From<AllocError> for Trouble {
    fn from(_: AllocError) -> Trouble {
        Trouble::Refusal(Refusal::NoMemory)
    }
}

impl<T: Drop> From<AllocFailed<T>> for Trouble {
    fn from(_: AllocFailed<T>) -> Trouble {
        Trouble::Refusal(Refusal::NoMemory)
    }
}

/// Whether two answers agree.
pub fn agree(step: Step, found: Answer, wanted: Answer) -> Result<(), Trouble> {
    if found == wanted {
        return Ok(());
    }
    Err(Trouble::Answer {
        step,
        found,
        wanted,
    })
}

/// Whether an answer is no refusal: a step that is refused asks neither memory nor device.
pub fn unrefused(step: Step, wanted: Answer) -> Result<(), Trouble> {
    match wanted {
        Answer::Refused(_) => Err(Trouble::Unasked { step }),
        _ => Ok(()),
    }
}
