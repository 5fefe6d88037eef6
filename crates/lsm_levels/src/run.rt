//! A run: tables that lie apart, in the order of keys.

ghost use Rattle.std.specs.Prelude.{◌≡◌, ◌↔◌, ◌&&◌, [], is_ok, if◌then◌else◌, filter, true, IsTrue};
ghost use Rattle.lsm_levels.specs.Tables.{IsRun, KeyRange, at_most, is_before_first, meets, put_at};

use crate::slices::{count_before, count_up_to, cut, ending_from, meeting, splice};
use crate::table::PlacedTable;
use lsm_codec::{common_prefix, head_of};
use std::alloc::{AllocError, Allocator, Global};
use std::marker::Model;

/// Whether a table has keys, and ends before all of the others, in case they are a run.
fn stands_before<A: Allocator>(table: &PlacedTable<A>, others: &[PlacedTable<A>]) -> bool
    ensures { result
        ≡ (at_most table.now.first table.now.last && is_before_first table.now others.now) }
{
    let is_in_order = table.first().cmp(table.last()).is_le();
    match others {
        [] => is_in_order,
        [next, ..] => is_in_order && table.ends_before(next.first()),
    }
}

/// Whether tables are a run: the keys of each are in order, and it ends before the next begins.
pub fn is_run<A: Allocator>(tables: &[PlacedTable<A>]) -> bool
    ensures { IsTrue result ↔ IsRun tables.now }
{
    for (i, table) in tables.iter().enumerate() {
        if !stands_before(table, &tables[i + 1..]) {
            return false;
        }
    }
    true
}

/// Notes in each table what a run guesses by, and tells how many bytes all of its keys begin with alike.
fn note_heads<A: Allocator>(tables: &mut Vec<PlacedTable<A>, A>) -> usize
    ensures { tables.new.items ≡ tables.old.items }
{
    let past = match (tables.first(), tables.last()) {
        (Some(first), Some(last)) => common_prefix(first.first(), last.last()),
        _ => 0,
    };
    for i in 0..tables.len() {
        tables[i].note_head(past);
    }
    past
}

/// A run: tables of which each ends before the next begins.
#[derive(Drop)]
pub struct Run<A: Allocator = Global> {
    tables: Vec<PlacedTable<A>, A>,
    // How many bytes the keys of all tables begin with alike.
    past: usize,
}

impl<A: Allocator> Model for Run<A> {
    ghost use Rattle.std.specs.Prelude.{List};
    ghost use Rattle.lsm_levels.specs.Tables.{Table, IsRun};

    ghost Value = { List Table };

    ghost view = { λ r. r.tables.items };

    ghost invariant = { λ r. IsRun r.tables.items };
}

impl<A: Allocator> Run<A> {
    /// A run without a table.
    pub fn new(alloc: A) -> Self
        ensures { result ≡ [] }
    {
        Run {
            tables: Vec::new(alloc),
            past: 0,
        }
    }

    /// The run of these tables.
    pub fn from_tables(tables: Vec<PlacedTable<A>, A>) -> Self
        requires { IsRun tables.items }
        ensures { result ≡ tables.items }
    {
        let mut tables = tables;
        let past = note_heads(&mut tables);
        Run { tables, past }
    }

    // How many of the tables end before a key, as far as eight bytes of their last keys tell.
    fn guess(&self, key: &[u8]) -> usize {
        let head = head_of(key, self.past);
        self.tables
            .partition_point(|table: &PlacedTable<A>| table.head() < head)
    }

    /// The tables that end at a key or after it.
    pub(crate) fn ending_from(&self, key: &[u8]) -> &[PlacedTable<A>]
        ensures left { result.now ≡ filter (λ t. at_most key.now t.last) self.now }
        ensures run { IsRun self.now }
    {
        ending_from(&self.tables, key, self.guess(key))
    }

    /// The tables, in the order of keys.
    pub fn tables(&self) -> &[PlacedTable<A>]
        ensures same { result.now ≡ self.now }
        ensures run { IsRun self.now }
    {
        &self.tables
    }

    /// The tables that meet the range from a key to another.
    pub(crate) fn meeting(&self, first: &[u8], last: &[u8]) -> &[PlacedTable<A>]
        ensures { result.now ≡ filter (meets (record { first = first.now; last = last.now }))
            self.now }
    {
        meeting(&self.tables, first, last, self.guess(first))
    }

    /// Puts tables in the place of those that meet a range. Where memory is refused, both are as they were.
    pub(crate) fn replace(
        &mut self,
        first: &[u8],
        last: &[u8],
        new: &mut Vec<PlacedTable<A>, A>,
    ) -> Result<(), AllocError>
        requires range { at_most first.now last.now ≡ true }
        requires run { IsRun
            (put_at (record { first = first.now; last = last.now }) new.old.items self.old) }
        ensures replaced { self.new
            ≡ (if is_ok result
            then put_at (record { first = first.now; last = last.now }) new.old.items self.old
            else self.old) }
        ensures moved { new.new.items ≡ (if is_ok result then [] else new.old.items) }
        ensures stays { IsRun self.new }
    {
        let start = count_before(&self.tables, first);
        let end = count_up_to(&self.tables, last);
        let replaced = splice(&mut self.tables, start, end, new);
        self.past = note_heads(&mut self.tables);
        replaced
    }

    /// Removes the tables that meet a range. It takes no memory.
    pub(crate) fn remove(&mut self, first: &[u8], last: &[u8])
        requires { at_most first.now last.now ≡ true }
        ensures removed { self.new
            ≡ put_at (record { first = first.now; last = last.now }) [] self.old }
        ensures stays { IsRun self.new }
    {
        let start = count_before(&self.tables, first);
        let end = count_up_to(&self.tables, last);
        cut(&mut self.tables, start, end);
        self.past = note_heads(&mut self.tables);
    }
}
