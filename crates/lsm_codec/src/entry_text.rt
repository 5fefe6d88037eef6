//! How the text of an entry is read.

ghost use Rattle.std.specs.Prelude.{◌≡◌, option_map, IfSome};
ghost use Rattle.lsm_codec.specs.Reading.{Lends};
ghost use Rattle.lsm_codec.specs.Versions.{IsEntry};
ghost use Rattle.lsm_codec.specs.References.{shown};
ghost use Rattle.lsm_codec.specs.Entries.{outcome_at, entry_at};

use crate::kind::{DELETE, PUT};
use crate::lending::{batch_number_at, key_at, u8_at, u16_at, value_at};
use crate::version::VersionRef;

/// A value, or that there is none.
#[tactic(auto, unfolding(crate::specs::Entries::outcome_at))]
fn outcome_at(bytes: &[u8]) -> Option<(Option<&[u8]>, &[u8])>
    ensures { Lends (λ x. (option_map (λ v. v.now) x.0, x.1.now)) result (outcome_at bytes.now) }
{
    let (kind, rest) = u8_at(bytes)?;
    if kind == PUT {
        let (value, rest) = value_at(rest)?;
        return Some((Some(value), rest));
    }
    if kind != DELETE {
        return None;
    }
    let (length, rest) = u16_at(rest)?;
    if length != 0 {
        return None;
    }
    Some((None, rest))
}

#[tactic(auto, unfolding(crate::specs::Entries::entry_at))]
fn entry_at(bytes: &[u8]) -> Option<(VersionRef<'_>, &[u8])>
    ensures { Lends (λ x. (shown x.0, x.1.now)) result (entry_at bytes.now) }
{
    let (key, rest) = key_at(bytes)?;
    let (number, rest) = batch_number_at(rest)?;
    let (value, rest) = outcome_at(rest)?;
    Some((VersionRef { key, number, value }, rest))
}

impl<'a> VersionRef<'a> {
    /// The version at the front of the bytes, and the bytes after it, where they begin with the text of an entry.
    pub fn read(bytes: &'a [u8]) -> Option<(VersionRef<'a>, &'a [u8])>
        ensures read { Lends (λ x. (shown x.0, x.1.now)) result (entry_at bytes.now) }
        ensures fits { IfSome result (λ x. IsEntry (shown x.0)) }
    {
        let (version, rest) = entry_at(bytes)?;
        Some((version, rest))
    }
}
