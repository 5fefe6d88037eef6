//! Rows of a range, one after another.

ghost use Rattle.std.specs.Prelude.{◌≡◌, ◌<◌, ◌+◌, ◌^◌, ◌-◌, IfErr, IfOk, IfSome, MatchResult, drop, option_map};
ghost use Rattle.std.specs.Iterator.{at_most};
ghost use Rattle.lsm_device.specs.declared.refusal.Refusal.TheVariants.{NoMemory};
ghost use Rattle.lsm_mem.specs.Rows.{shown_row};
ghost use Rattle.corwaphi.specs.Prefix.{behind_prefix};
ghost use Rattle.corwaphi.specs.Advancing.{AsksRow, GivesNext, HasRead, IsFirst, IsPageRefused, TakesRow, calls_left, key_behind, lender, rows_behind, standing, stands_before};
ghost use Rattle.lsm_machine.specs.declared.asked.At.TheVariants.{Now};

use crate::pages::{PAGE, copied, slice_of};
use crate::prefix::behind_prefix;
use crate::{Db, Row};
use lsm_device::{Device, Refusal};
use lsm_store::{At, Page, RowRef};

/// Rows from a key on, up to another one, one after another. Nobody can write meanwhile, since they hold the store. An error
/// leaves them where they were, so that they may be asked again: a loop that skips errors doesn't end while one stays.
#[derive(Drop)]
pub struct RangeRows<'a, D: Device> {
    db: &'a mut Db<D>,
    at: At,
    from: Vec<u8>,
    to: Option<Vec<u8>>,
    // The page that was read last, and how many of its rows were told.
    page: Option<Page>,
    told: usize,
    // How often it may be asked still as an iterator, since each loop is to end.
    calls: u64,
}

impl<D: Device> Db<D> {
    /// The rows of the present map from the key `from` on, up to the key `to` where one is given, which is outside.
    ///
    /// Fails with `NoMemory`; other errors of reading rows come with the rows.
    pub fn rows(&mut self, from: &[u8], to: Option<&[u8]>) -> Result<RangeRows<'_, D>, Refusal>
        ensures begins { IfOk result
            (λ rows. standing rows
            ≡ stands_before Now from.now (option_map (λ to. to.now) to.entry) self.old) }
        ensures calls { IfOk result (λ rows. calls_left rows ≡ 2 ^ 64 - 1) }
        ensures same_store { IfOk result (λ rows. lender rows ≡ self.entry.ghost_name) }
        ensures refused { IfErr result (λ e. e ≡ NoMemory) }
    {
        self.rows_at(At::Now, from, to)
    }

    /// The rows of the present map whose keys begin with a prefix. Fails as [`rows`](Db::rows).
    pub fn rows_with_prefix(&mut self, prefix: &[u8]) -> Result<RangeRows<'_, D>, Refusal>
        ensures begins { IfOk result
            (λ rows. standing rows
            ≡ stands_before Now prefix.now (behind_prefix prefix.now) self.old) }
        ensures calls { IfOk result (λ rows. calls_left rows ≡ 2 ^ 64 - 1) }
        ensures same_store { IfOk result (λ rows. lender rows ≡ self.entry.ghost_name) }
        ensures refused { IfErr result (λ e. e ≡ NoMemory) }
    {
        let end = behind_prefix(self.alloc(), prefix)?;
        self.rows_at(At::Now, prefix, slice_of(&end))
    }

    /// The rows of the present map, or of that of a snapshot, as [`rows`](Db::rows) gives them.
    pub fn rows_at(
        &mut self,
        at: At,
        from: &[u8],
        to: Option<&[u8]>,
    ) -> Result<RangeRows<'_, D>, Refusal>
        ensures begins { IfOk result
            (λ rows. standing rows
            ≡ stands_before at from.now (option_map (λ to. to.now) to.entry) self.old) }
        ensures calls { IfOk result (λ rows. calls_left rows ≡ 2 ^ 64 - 1) }
        ensures same_store { IfOk result (λ rows. lender rows ≡ self.entry.ghost_name) }
        ensures refused { IfErr result (λ e. e ≡ NoMemory) }
    {
        let alloc = self.alloc();
        let from = Vec::from_slice(alloc, from)?;
        let to = copied(alloc, to)?;
        Ok(RangeRows {
            db: self,
            at,
            from,
            to,
            page: None,
            told: 0,
            calls: u64::MAX,
        })
    }
}

impl<D: Device> RangeRows<'_, D> {
    /// The next row, or `None` where none is left. An error leaves the rows where they were, so that they may be asked again: those
    /// of [`page`](Db::page), of which `BadRange` tells that `from` is above `to`, and `NoMemory`.
    pub fn next_row(&mut self) -> Result<Option<Row>, Refusal>
        ensures asks { AsksRow (standing self.old) result (standing self.new) }
        ensures same_store { lender self.new ≡ lender self.old }
        ensures calls { calls_left self.new ≡ calls_left self.old }
    {
        self.read()?;
        self.take()
    }

    // Reads the next page where no row is left of the one before, and one is to come.
    fn read(&mut self) -> Result<(), Refusal>
        ensures reads { MatchResult result (λ _. HasRead (standing self.old) (standing self.new))
            (λ e. IsPageRefused (standing self.old) e (standing self.new)) }
        ensures same_store { lender self.new ≡ lender self.old }
        ensures calls { calls_left self.new ≡ calls_left self.old }
    {
        if let Some(_) = row_behind(&self.page, self.told) {
            return Ok(());
        }
        let Some(from) = next_key(&self.from, &self.page) else {
            return Ok(());
        };
        let page = self.db.page(self.at, from, slice_of(&self.to), PAGE)?;
        self.page = Some(page);
        self.told = 0;
        Ok(())
    }

    // Takes the first of the rows that were read.
    fn take(&mut self) -> Result<Option<Row>, Refusal>
        ensures takes { TakesRow (standing self.old) result (standing self.new) }
        ensures same_store { lender self.new ≡ lender self.old }
        ensures calls { calls_left self.new ≡ calls_left self.old }
    {
        let Some(row) = row_behind(&self.page, self.told) else {
            return Ok(None);
        };
        let row = Row::of(self.db.alloc(), row)?;
        self.told += 1;
        Ok(Some(row))
    }
}

/// It asks as [`next_row`](RangeRows::next_row) does, and gives an error as an item, after which it goes on where it was. Each loop is to
/// end, so call number 2^64 - 1 gives `Exhausted`, and then `None`; no store has that many rows.
impl<D: Device> Iterator for RangeRows<'_, D> {
    type Item = Result<Row, Refusal>;

    ghost next_gives = { GivesNext };

    ghost remaining = { λ rows. at_most (calls_left rows) };

    fn next(&mut self) -> Option<Result<Row, Refusal>> {
        if self.calls == 0 {
            return None;
        }
        self.calls -= 1;
        if self.calls == 0 {
            return Some(Err(Refusal::Exhausted));
        }
        match self.next_row() {
            Ok(Some(row)) => Some(Ok(row)),
            Ok(None) => None,
            Err(refusal) => Some(Err(refusal)),
        }
    }
}

// The key with which the next page begins, `None` after the last one.
fn next_key<'p>(from: &'p Vec<u8>, page: &'p Option<Page>) -> Option<&'p [u8]>
    ensures { option_map (λ key. key.now) result ≡ key_behind from.now.items page.now }
{
    match page {
        Some(page) => page.next_key(),
        None => Some(from),
    }
}

// The row after the first `told` of a page, where there is one.
fn row_behind<'p>(page: &'p Option<Page>, told: usize) -> Option<RowRef<'p>>
    ensures first { IsFirst (option_map shown_row result) (rows_behind told page.now)
        (rows_behind (told + 1) page.now) }
    ensures fits { IfSome result (λ _. told + 1 < 2 ^ 64) }
{
    match page {
        Some(page) => row_at(page, told),
        None => None,
    }
}

// The row after the first `told` of a page's rows, where there is one.
fn row_at<'p>(page: &'p Page, told: usize) -> Option<RowRef<'p>>
    ensures first { IsFirst (option_map shown_row result) (drop told page.now.rows)
        (drop (told + 1) page.now.rows) }
    ensures fits { IfSome result (λ _. told + 1 < 2 ^ 64) }
{
    let rows = page.rows();
    if told >= rows.len() {
        return None;
    }
    rows.get(told)
}
