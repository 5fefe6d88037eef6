//! Pages, built of versions that come in the order of entries.

ghost use Rattle.std.specs.Prelude.{◌≡◌, ◌≤◌, ◌<◌, ◌∷◌, ◌++◌, [], List, length, true, false, None, option_map, IfOk, OnOk};
ghost use Rattle.lsm_codec.specs.References.{shown};
ghost use Rattle.lsm_codec.specs.Versions.{Version};
ghost use Rattle.lsm_mem.specs.Paging.{is_before};
ghost use Rattle.lsm_mem.specs.Gathering.{gathering, is_behind, page_with, page_so_far, IsFirst, with_deleted, with_row, with_next};

use crate::page::Page;
use crate::rows::RowTexts;
use lsm_codec::VersionRef;
use std::alloc::{AllocError, Allocator, Global};
use std::marker::Model;

/// The rows there is room for at first. A page that a store returns has no more.
const FIRST_ROWS: u64 = 64;

/// A page that is being built of the versions of many places. They are taken in the order of entries: by key, and of a key
/// the newest first. Of each key the newest version that is numbered at most `at` decides; a deleted key has no row.
///
/// Only the rows of the page are copied. The last key that was decided is known by its row, or, where it was deleted, by one
/// copy that the next deleted key overwrites.
#[derive(Drop)]
pub struct PageBuilder<'k, A: Allocator = Global> {
    at: u64,
    to: Option<&'k [u8]>,
    limit: u64,
    rows: RowTexts<A>,
    next: Option<Vec<u8, A>>,
    deleted: Vec<u8, A>,
    is_deleted: bool,
}

impl<'k, A: Allocator> Model for PageBuilder<'k, A> {
    ghost use Rattle.std.specs.Prelude.{◌≤◌, Some, length, option_map, if◌then◌else◌};
    ghost use Rattle.lsm_mem.specs.Gathering.{Gathering, last_key};

    ghost Value = { Gathering };

    ghost view = { λ b. record {
      at = b.at;
      to = option_map (λ to. to.now) b.to;
      limit = b.limit;
      decided = if b.is_deleted then Some b.deleted.items else last_key b.rows;
      rows = b.rows;
      next = option_map (λ key. key.items) b.next;
    } };

    ghost invariant = { λ b. length b.rows ≤ b.limit };
}

impl<'k, A: Allocator> PageBuilder<'k, A> {
    /// The page of the rows so far.
    pub fn into_page(self) -> Page<A>
        ensures so_far { result ≡ page_so_far self.entry }

        // Where the page hasn't ended and no version is left, it is the whole page.
        ensures whole { self.entry.next ≡ None → result ≡ page_with self.entry [] }
    {
        Page::of(self.rows, self.next)
    }

    // Whether a key is after the last one that was decided.
    fn is_behind(&self, key: &[u8]) -> bool
        ensures { result ≡ is_behind self.now.decided key.now }
    {
        if self.is_deleted {
            return self.deleted.as_slice().cmp(key).is_lt();
        }
        match self.rows.last_key() {
            Some(last) => last.cmp(key).is_lt(),
            None => true,
        }
    }

    // Whether there are as many rows as were asked for.
    fn is_full(&self) -> bool
        ensures full { result ≡ true → length self.now.rows ≡ self.now.limit }
        ensures room { result ≡ false → length self.now.rows < self.now.limit }
    {
        self.rows.len() as u64 == self.limit
    }
}

impl<'k, A: Allocator + Clone> PageBuilder<'k, A> {
    /// A page of no row, for the first `limit` rows of keys before `to`, where one is given.
    pub fn new(
        alloc: &A,
        to: Option<&'k [u8]>,
        at: u64,
        limit: u64,
    ) -> Result<PageBuilder<'k, A>, AllocError>
        ensures { IfOk result (λ builder. builder
            ≡ gathering at (option_map (λ to. to.now) to.entry) limit) }
    {
        Ok(PageBuilder {
            at,
            to,
            limit,
            rows: RowTexts::with_capacity(alloc, limit.min(FIRST_ROWS) as usize)?,
            next: None,
            deleted: Vec::new(alloc.clone()?),
            is_deleted: false,
        })
    }

    /// Takes the first of the versions that are left, and returns whether the page goes on: whether the next is needed too.
    /// Where memory is refused, the builder is to be dropped.
    pub fn take(&mut self, alloc: &A, version: VersionRef<'_>) -> Result<bool, AllocError>
        requires { self.old.next ≡ None }

        // The final page stays the same: before the call the version is among those that are left, and after it no more.
        ensures goes_on { IfOk result
            (λ goes_on. goes_on ≡ true → (newer older : List Version)
            → IsFirst (shown version.entry) (newer ++ older)
            → page_with self.new (newer ++ older)
            ≡ page_with self.old (newer ++ shown version.entry ∷ older)) }
        ensures ends { IfOk result
            (λ goes_on. goes_on ≡ false → (newer older : List Version)
            → IsFirst (shown version.entry) (newer ++ older)
            → page_so_far self.new ≡ page_with self.old (newer ++ shown version.entry ∷ older)) }
        ensures none_left_out { IfOk result (λ goes_on. goes_on ≡ true → self.new.next ≡ None) }
    {
        if !is_before(self.to, version.key) {
            return Ok(false);
        }
        if version.number > self.at || !self.is_behind(version.key) {
            return Ok(true);
        }
        let Some(value) = version.value else {
            self.pass_over(version.key)?;
            return Ok(true);
        };
        if self.is_full() {
            self.leave_out(alloc, version.key)?;
            return Ok(false);
        }
        self.push(version.key, value)?;
        Ok(true)
    }

    // Decides that a key has no row.
    fn pass_over(&mut self, key: &[u8]) -> Result<(), AllocError>
        ensures { OnOk result (self.new ≡ with_deleted key.now self.old) }
    {
        self.deleted.clear();
        self.deleted.extend_from_slice(key)?;
        self.is_deleted = true;
        Ok(())
    }

    // Decides that a key has a row.
    fn push(&mut self, key: &[u8], value: &[u8]) -> Result<(), AllocError>
        requires { length self.old.rows < self.old.limit }
        ensures { OnOk result (self.new ≡ with_row key.now value.now self.old) }
    {
        self.rows.push(key, value)?;
        self.is_deleted = false;
        Ok(())
    }

    // Ends the page before a key that has a row.
    fn leave_out(&mut self, alloc: &A, key: &[u8]) -> Result<(), AllocError>
        ensures { OnOk result (self.new ≡ with_next key.now self.old) }
    {
        self.next = Some(Vec::from_slice(alloc.clone()?, key)?);
        Ok(())
    }
}

// Whether a key is before the end of a range, where the range has one.
fn is_before(to: Option<&[u8]>, key: &[u8]) -> bool
    ensures { result ≡ is_before (option_map (λ to. to.now) to.entry) key.now }
{
    match to {
        Some(to) => key.cmp(to).is_lt(),
        None => true,
    }
}
