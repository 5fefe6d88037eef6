//! The words of a line, and what they say.

ghost use Rattle.std.specs.Prelude.{◌≡◌, ◌<◌, map, Some, None, IfErr, IfOk, MatchOption, option_map};
ghost use Rattle.lsm_codec.specs.Words.{bytes_said};
ghost use Rattle.lsm_language.specs.declared.words.Unread.TheVariants.{Malformed, NoMemory};
ghost use Rattle.lsm_language.specs.Numbers.{number_said};
ghost use Rattle.lsm_language.specs.Words.{Reads, words_in, after, pair_in};

use crate::number::parse_number;
use lsm_codec::unword;
use std::alloc::{AllocError, AllocFailed, Global};

/// Why a line was not read.
#[derive(Drop)]
pub enum Unread {
    /// It is not a line of a script.
    Malformed,
    /// Memory was refused.
    NoMemory,
}

impl From<AllocError> for Unread {
    ghost from_gives = { λ _ unread. unread ≡ NoMemory };

    fn from(_: AllocError) -> Unread {
        Unread::NoMemory
    }
}

impl<T: Drop> From<AllocFailed<T>> for Unread {
    ghost from_gives = { λ _ unread. unread ≡ NoMemory };

    fn from(_: AllocFailed<T>) -> Unread {
        Unread::NoMemory
    }
}

/// The words of a line. Between two spaces stands a word without a letter.
pub fn words_of(alloc: Global, line: &str) -> Result<Vec<&str>, AllocError>
    ensures { IfOk result (λ words. map (λ word. word.now) words.items ≡ words_in line.now) }
{
    line.split(' ').collect(alloc)
}

/// What follows a letter that a word begins with.
pub fn after(word: &str, letter: char) -> Option<&str>
    requires { letter < 128 }
    ensures { option_map (λ rest. rest.now) result ≡ after letter word.now }
{
    word.strip_prefix(letter)
}

/// The two words around the first `=` of a word.
pub fn pair_in(word: &str) -> Option<(&str, &str)>
    ensures { MatchOption result (pair_in word.now ≡ None)
        (λ pair. pair_in word.now ≡ Some (pair.0.now, pair.1.now)) }
{
    word.split_once('=')
}

/// The number that a word says. It takes no memory.
pub fn number_in(word: &str) -> Result<u64, Unread>
    ensures says { Reads (λ n. n) (number_said word.now) result }
    ensures malformed { IfErr result (λ unread. unread ≡ Malformed) }
{
    parse_number(word).ok_or(Unread::Malformed)
}

/// The bytes that a word says.
pub fn bytes(alloc: Global, word: &str) -> Result<Vec<u8>, Unread>
    ensures { Reads (λ bytes. bytes.items) (bytes_said word.now) result }
{
    match unword(alloc, word) {
        Ok(Some(bytes)) => Ok(bytes),
        Ok(None) => Err(Unread::Malformed),
        Err(_) => Err(Unread::NoMemory),
    }
}
