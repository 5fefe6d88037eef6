//! Why a file can't be opened, or made, as a device.

use std::{fmt, io};

/// Why a file can't be opened, or made, as a device.
#[derive(Clone, Copy, Debug)]
pub enum OpenError {
    /// Another device has it, in this process or in another one.
    InUse,
    /// It is a folder.
    Folder,
    /// It is neither a regular file nor a block device: a FIFO, a socket, a terminal.
    NotAFile,
    /// Its length is not a whole number of sectors.
    Uneven,
    /// It has more than 2^32 - 1 sectors.
    TooLarge,
    /// There was no memory for the name of the new file.
    NoMemory,
    /// The system refused a call, for this reason.
    Failed(io::Error),
}

impl fmt::Display for OpenError {
    fn fmt<W: fmt::Write>(&self, f: &mut fmt::Formatter<W>) -> fmt::Result {
        match self {
            OpenError::InUse => write!(f, "the file is in use"),
            OpenError::Folder => write!(f, "the file is a folder"),
            OpenError::NotAFile => {
                write!(f, "the file is neither a regular file nor a block device")
            }
            OpenError::Uneven => {
                write!(f, "the length of the file is not a whole number of sectors")
            }
            OpenError::TooLarge => write!(f, "the file has more than 4294967295 sectors"),
            OpenError::NoMemory => write!(f, "there is no memory for the name of a file"),
            OpenError::Failed(error) => write!(f, "{error}"),
        }
    }
}
