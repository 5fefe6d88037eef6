//! Rows of a range, page by page, of one map.

ghost use Rattle.std.specs.Prelude.{◌≡◌, IfOk, MatchResult, option_map};
ghost use Rattle.corwaphi.specs.Paging.{Begins, DoesNotBegin, Ends, ReleasesAtEnd, StaysThere, TellsNext};

use crate::Db;
use lsm_device::{Device, Refusal};
use lsm_store::{At, Page};
use std::alloc::{AllocError, Global};
use std::marker::Model;

/// The rows of a page.
pub(crate) const PAGE: u64 = 64;

/// Rows from a key on, up to another one, page by page. They are those of the map when it began, whatever is written between the pages,
/// since it holds a snapshot. That is released with the last page, or by [`end`](Pages::end).
#[derive(Drop)]
pub struct Pages {
    alloc: Global,
    snapshot: u64,
    from: Option<Vec<u8>>,
    to: Option<Vec<u8>>,
}

impl Model for Pages {
    ghost use Rattle.std.specs.Prelude.{option_map};
    ghost use Rattle.corwaphi.specs.Paging.{Pages};

    ghost Value = { Pages };

    ghost view = { λ r. record { snapshot = r.snapshot; from = option_map (λ v. v.items) r.from; to = option_map (λ v. v.items) r.to } };
}

impl<D: Device> Db<D> {
    /// The rows of the present map from the key `from` on, up to the key `to` where one is given, which is outside.
    ///
    /// Fails with `NoMemory`, and as [`snapshot`](Db::snapshot). Where `from` is above `to` the first page fails.
    pub fn pages(&mut self, from: &[u8], to: Option<&[u8]>) -> Result<Pages, Refusal>
        ensures { MatchResult result
            (λ pages. Begins from.now (option_map (λ to. to.now) to.entry) pages self.old self.new)
            (λ e. DoesNotBegin e self.old self.new) }
    {
        let alloc = self.alloc();
        let from = Vec::from_slice(alloc, from)?;
        let to = copied(alloc, to)?;
        let snapshot = self.snapshot()?;
        Ok(Pages {
            alloc,
            snapshot,
            from: Some(from),
            to,
        })
    }
}

impl Pages {
    /// The next 64 rows, or as many as are left; `None` after the last page. An error leaves it as it was, so that it may be asked again:
    /// those of [`page`](Db::page) come first, then `NoMemory`.
    pub fn next_page<D: Device>(&mut self, db: &mut Db<D>) -> Result<Option<Page>, Refusal>
        ensures { MatchResult result (λ page. TellsNext self.old page self.new db.old db.new)
            (λ e. StaysThere self.old e self.new db.old db.new) }
    {
        let Some(from) = &self.from else {
            return Ok(None);
        };
        let page = db.page(At::Snap(self.snapshot), from, slice_of(&self.to), PAGE)?;
        self.from = copied(self.alloc, page.next_key())?;
        release_at_end(db, self.snapshot, &page);
        Ok(Some(page))
    }

    /// Releases its snapshot before the last page was told.
    pub fn end<D: Device>(self, db: &mut Db<D>)
        ensures { Ends self db.old db.new }
    {
        if let Some(_) = &self.from {
            let _ = db.release(self.snapshot);
        }
    }
}

// Releases a snapshot after the last page.
fn release_at_end<D: Device>(db: &mut Db<D>, snapshot: u64, page: &Page)
    ensures { ReleasesAtEnd page.now.next snapshot db.old db.new }
{
    if let None = page.next_key() {
        let _ = db.release(snapshot);
    }
}

pub(crate) fn slice_of(key: &Option<Vec<u8>>) -> Option<&[u8]>
    ensures { option_map (λ k. k.now) result ≡ option_map (λ v. v.items) key.now }
{
    match key {
        Some(key) => Some(key),
        None => None,
    }
}

pub(crate) fn copied(alloc: Global, key: Option<&[u8]>) -> Result<Option<Vec<u8>>, AllocError>
    ensures { IfOk result (λ copy. option_map (λ v. v.items) copy
        ≡ option_map (λ k. k.now) key.entry) }
{
    match key {
        Some(key) => Ok(Some(Vec::from_slice(alloc, key)?)),
        None => Ok(None),
    }
}
