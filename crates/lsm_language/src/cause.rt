//! Why a file can't be opened.

ghost use Rattle.std.specs.Prelude.{◌≡◌};
ghost use Rattle.lsm_language.specs.Faults.{cause_text};

/// Why a file can't be opened as a store.
#[derive(Clone, Copy, Debug, PartialEq, Eq)]
pub enum Cause {
    /// Another program has it.
    InUse,
    /// There is no such file.
    Missing,
    /// There is no such folder.
    NoFolder,
    /// It may not be read and written.
    Denied,
    /// It is a folder.
    Folder,
    /// It is neither a regular file nor a block device.
    NotAFile,
    /// Its length is not a whole number of sectors.
    Uneven,
    /// It has more sectors than have numbers of 32 bits.
    TooLarge,
}

/// A cause in words.
pub fn cause_text(cause: &Cause) -> &'static str
    ensures { result.now ≡ cause_text cause.now }
{
    match cause {
        Cause::InUse => "the file is in use",
        Cause::Missing => "there is no such file",
        Cause::NoFolder => "the folder of the file is missing",
        Cause::Denied => "the file may not be read and written",
        Cause::Folder => "the file is a folder",
        Cause::NotAFile => "the file is neither a regular file nor a block device",
        Cause::Uneven => "the length of the file is not a whole number of sectors",
        Cause::TooLarge => "the file has more than 4294967295 sectors",
    }
}
