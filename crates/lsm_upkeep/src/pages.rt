//! A walk over the rows of a store, page by page.
//!
//! ```
//! let mut walk = Walk::new(alloc, At::Now, &[])?;
//! for _ in 0..u64::MAX {
//!     let Some(page) = walk.next_page(alloc, &mut store)? else {
//!         break;
//!     };
//!     for row in page.rows() {
//!         show(row.key, row.value)?;
//!     }
//! }
//! ```

ghost use Rattle.std.specs.Prelude.{◌≡◌, Some, IfOk, MatchResult, option_map};
ghost use Rattle.lsm_upkeep.specs.Walking.{IsHeld, Walks};

use lsm_device::{Device, Refusal};
use lsm_store::{At, Page, Store};
use std::alloc::{AllocError, Global};
use std::marker::Model;

/// The rows of a page.
const PAGE: u64 = 64;

/// A walk over the rows of a store, from a key on, a page at a time. It keeps the key with which it goes on, and no hold on the
/// store: other calls may come between its pages. Over the map of a snapshot it sees one map from its begin to its end.
#[derive(Drop)]
pub struct Walk {
    at: At,
    from: Option<Vec<u8>>,
}

impl Model for Walk {
    ghost use Rattle.std.specs.Prelude.{option_map};
    ghost use Rattle.lsm_upkeep.specs.Walking.{WalkView};

    ghost Value = { WalkView };

    ghost view = { λ w. record { at = w.at; from = option_map (λ v. v.items) w.from } };
}

impl Walk {
    /// A walk that begins with the first key that isn't before this one.
    pub fn new(alloc: Global, at: At, from: &[u8]) -> Result<Walk, AllocError>
        ensures { IfOk result (λ walk. walk ≡ record { at = at; from = Some from.now }) }
    {
        let from = Vec::from_slice(alloc, from)?;
        Ok(Walk {
            at,
            from: Some(from),
        })
    }

    /// The next 64 rows, or as many as are left; none after the last page. A refusal leaves the walk as it was, so that it may
    /// be asked again: those of `scan` come first, then `NoMemory`.
    pub fn next_page<D: Device>(
        &mut self,
        alloc: Global,
        store: &mut Store<D>,
    ) -> Result<Option<Page>, Refusal>
        ensures { MatchResult result (λ page. Walks self.old page self.new store.old store.new)
            (λ e. IsHeld self.old e self.new store.old store.new) }
    {
        let Some(from) = &self.from else {
            return Ok(None);
        };
        let page = store.scan(self.at, from, None, PAGE)?;
        self.from = next_of(alloc, &page)?;
        Ok(Some(page))
    }
}

// The key with which the next page begins.
fn next_of(alloc: Global, page: &Page) -> Result<Option<Vec<u8>>, AllocError>
    ensures { IfOk result (λ next. option_map (λ v. v.items) next ≡ page.now.next) }
{
    match page.next_key() {
        Some(key) => Ok(Some(Vec::from_slice(alloc, key)?)),
        None => Ok(None),
    }
}
