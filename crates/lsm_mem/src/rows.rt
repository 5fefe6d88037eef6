//! Keys and their values in one text.

ghost use Rattle.std.specs.Prelude.{◌≡◌, ◌==◌, ◌∷◌, ◌++◌, [], length, slice_get, option_map, IfOk, OnOk, OnErr};
ghost use Rattle.std.specs.Iterator.{YieldsFirstBy, item_count};
ghost use Rattle.lsm_mem.specs.Gathering.{last_key};
ghost use Rattle.lsm_mem.specs.Rows.{row_at, shown_row, IsWithin};

use std::alloc::{AllocError, Allocator, Global};
use std::marker::Model;

/// How many bytes there is room for at first: a page of 64 rows often has twice as many.
const FIRST_BYTES: usize = 4_096;

/// Where a row is in a text: the byte at which its key begins, and how many bytes the key and the value after it have.
#[derive(Clone, Copy, Debug)]
struct RowPlace {
    at: usize,
    key_len: usize,
    value_len: usize,
}

/// A key of a map and its value, by reference.
#[derive(Clone, Copy, Debug)]
pub struct RowRef<'p> {
    pub key: &'p [u8],
    pub value: &'p [u8],
}

// The row at a place of a text.
fn row_at<'p>(text: &'p [u8], place: RowPlace) -> RowRef<'p>
    requires { IsWithin text.now place }
    ensures { shown_row result ≡ row_at text.now place }
{
    let behind = &text[place.at..];
    let (key, behind) = behind.split_at(place.key_len);
    let value = &behind[..place.value_len];
    RowRef { key, value }
}

/// Rows one after another, lent out of one text. Contracts see the pairs of those that are left.
#[derive(Debug, Drop)]
pub struct Rows<'p> {
    text: &'p [u8],
    places: &'p [RowPlace],
}

impl<'p> Model for Rows<'p> {
    ghost use Rattle.std.specs.Prelude.{List, map};
    ghost use Rattle.std.specs.List.{AllByRecursion};
    ghost use Rattle.lsm_codec.specs.Keys.{Bytes};
    ghost use Rattle.lsm_mem.specs.Rows.{row_at, IsWithin};

    ghost Value = { List (Bytes × Bytes) };

    ghost view = { λ r. map (row_at r.text.now) r.places.now };

    ghost invariant = { λ r. AllByRecursion (IsWithin r.text.now) r.places.now };
}

impl<'p> Rows<'p> {
    /// How many are left.
    pub fn len(&self) -> usize
        ensures { result ≡ length self.now }
    {
        self.places.len()
    }

    /// Whether none is left.
    pub fn is_empty(&self) -> bool
        ensures { result ≡ (length self.now == 0) }
    {
        self.places.is_empty()
    }

    /// The row at `index` of those that are left, counted from 0.
    pub fn get(&self, index: usize) -> Option<RowRef<'p>>
        ensures { option_map shown_row result ≡ slice_get self.now index }
    {
        match self.places.get(index) {
            Some(place) => Some(row_at(self.text, *place)),
            None => None,
        }
    }
}

impl<'p> Iterator for Rows<'p> {
    type Item = RowRef<'p>;

    ghost next_gives = { YieldsFirstBy shown_row (λ r. r) };

    ghost remaining = { item_count (λ r. r) };

    fn next(&mut self) -> Option<RowRef<'p>> {
        let (place, rest) = self.places.split_first()?;
        self.places = rest;
        Some(row_at(self.text, *place))
    }
}

/// Keys and their values in one text. Contracts see the list of their pairs.
#[derive(Debug, Drop)]
pub(crate) struct RowTexts<A: Allocator = Global> {
    text: Vec<u8, A>,
    places: Vec<RowPlace, A>,
}

impl<A: Allocator> Model for RowTexts<A> {
    ghost use Rattle.std.specs.Prelude.{List, map};
    ghost use Rattle.std.specs.List.{AllByRecursion};
    ghost use Rattle.lsm_codec.specs.Keys.{Bytes};
    ghost use Rattle.lsm_mem.specs.Rows.{row_at, IsWithin};

    ghost Value = { List (Bytes × Bytes) };

    ghost view = { λ r. map (row_at r.text.items) r.places.items };

    ghost invariant = { λ r. AllByRecursion (IsWithin r.text.items) r.places.items };
}

impl<A: Allocator> RowTexts<A> {
    /// How many rows there are.
    pub(crate) fn len(&self) -> usize
        ensures { result ≡ length self.now }
    {
        self.places.len()
    }

    /// The key of the last row.
    pub(crate) fn last_key(&self) -> Option<&[u8]>
        ensures { option_map (λ key. key.now) result ≡ last_key self.now }
    {
        match self.places.last() {
            Some(place) => Some(row_at(&self.text, *place).key),
            None => None,
        }
    }

    /// The rows, in order.
    pub(crate) fn rows(&self) -> Rows<'_>
        ensures { result ≡ self.now }
    {
        Rows {
            text: &self.text,
            places: &self.places,
        }
    }

    /// Adds a row. Where memory is refused, the rows are as they were.
    pub(crate) fn push(&mut self, key: &[u8], value: &[u8]) -> Result<(), AllocError>
        ensures ok { OnOk result (self.new ≡ self.old ++ (key.now, value.now) ∷ []) }
        ensures err { OnErr result (self.new ≡ self.old) }
    {
        let place = RowPlace {
            at: self.text.len(),
            key_len: key.len(),
            value_len: value.len(),
        };
        self.text.extend_from_slice(key)?;
        self.text.extend_from_slice(value)?;
        self.places.push(place)?;
        Ok(())
    }
}

impl<A: Allocator + Clone> RowTexts<A> {
    /// No row, with room for `rows` of them.
    pub(crate) fn with_capacity(alloc: &A, rows: usize) -> Result<RowTexts<A>, AllocError>
        ensures { IfOk result (λ texts. texts ≡ []) }
    {
        let text = Vec::with_capacity(alloc.clone()?, FIRST_BYTES)?;
        let places = Vec::with_capacity(alloc.clone()?, rows)?;
        Ok(RowTexts { text, places })
    }

    /// A second copy of the rows.
    pub(crate) fn copy(&self) -> Result<RowTexts<A>, AllocError>
        ensures { IfOk result (λ texts. texts ≡ self.now) }
    {
        let text = Vec::from_slice(self.text.allocator().clone()?, &self.text)?;
        let places = Vec::from_slice(self.places.allocator().clone()?, &self.places)?;
        Ok(RowTexts { text, places })
    }
}
