// What a crash of a device in memory ends.

use crate::Calls;
use crate::made::Made;
use crate::plan::Plan;

/// The sectors at the start of a life, the writes made in it, its calls, and which of them were to fault.
#[derive(Clone, Copy, Drop)]
pub(crate) struct Ending<'a> {
    pub(crate) first: &'a [[u8; 512]],
    pub(crate) made: &'a [Made],
    pub(crate) calls: Calls,
    pub(crate) plan: Plan,
}
