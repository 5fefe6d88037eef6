//! All versions, one after another.

ghost use Rattle.std.specs.Prelude.{◌≡◌, ◌++◌, [], map, reverse};
ghost use Rattle.std.specs.Iterator.{YieldsFirstBy, item_count};
ghost use Rattle.lsm_codec.specs.References.{shown};
ghost use Rattle.lsm_mem.specs.Histories.{version, versions_of, plain};

use crate::change::Change;
use crate::history::History;
use crate::version::version_of;
use lsm_codec::VersionRef;
use std::alloc::{Allocator, Global};
use std::collections::btree_map;
use std::marker::Model;

/// All versions, by key and of a key the newest first, lent one after another. Contracts see the list of those that are
/// left.
#[derive(Drop)]
pub struct AllVersions<'a, A: Allocator = Global> {
    rest: btree_map::Iter<'a, Vec<u8, A>, History<A>>,
    key: &'a [u8],
    changes: &'a [Change<A>],
}

impl<'a, A: Allocator> Model for AllVersions<'a, A> {
    ghost use Rattle.std.specs.Prelude.{List, ◌++◌, map, reverse};
    ghost use Rattle.lsm_codec.specs.Versions.{Version};

    ghost Value = { List Version };

    ghost use Rattle.lsm_mem.specs.Histories.{version, versions_of, plain};

    ghost view = { λ v. map (version v.key.now) (reverse v.changes.now) ++ versions_of (plain v.rest) };
}

impl<'a, A: Allocator> AllVersions<'a, A> {
    pub(crate) fn new(rest: btree_map::Iter<'a, Vec<u8, A>, History<A>>) -> AllVersions<'a, A>
        ensures { result ≡ versions_of (plain rest.entry) }
    {
        AllVersions {
            rest,
            key: &[],
            changes: &[],
        }
    }
}

impl<'a, A: Allocator> Iterator for AllVersions<'a, A> {
    type Item = VersionRef<'a>;

    ghost next_gives = { YieldsFirstBy shown (λ v. v) };

    ghost remaining = { item_count (λ v. v) };

    fn next(&mut self) -> Option<VersionRef<'a>> {
        if let Some((newest, older)) = self.changes.split_last() {
            self.changes = older;
            return Some(version_of(self.key, newest));
        }
        let (key, history) = self.rest.next()?;
        let (newest, older) = history.parts();
        self.key = key;
        self.changes = older;
        Some(version_of(key, newest))
    }
}
