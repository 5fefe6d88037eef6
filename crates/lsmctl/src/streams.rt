//! The standard streams, which a caller may have closed.

use std::fs::{File, Files};

/// What is held in the place of closed standard streams.
pub(crate) type Held = (Option<File>, Option<File>, Option<File>);

/// Opens `/dev/null` three times, in the place of whichever standard streams are closed. A file gets the least number that is free:
/// without this a store would get that of a closed stream, and what is printed would be written into it.
pub(crate) fn fill_closed<R: Files<File = File>>(rt: &R) -> Held {
    (null(rt), null(rt), null(rt))
}

// Where it can't be opened there is nothing to hold.
fn null<R: Files<File = File>>(rt: &R) -> Option<File> {
    File::open(rt, "/dev/null").ok()
}
