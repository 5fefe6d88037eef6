//! A filter of keys.

ghost use Rattle.std.specs.Prelude.{◌≡◌, [], length, map, All, IfOk, true};
ghost use Rattle.lsm_filter.specs.Bits.{is_perhaps, has_bits, with_key, filter_of};

use crate::bits::{has_bits_of, set_bits_of};
use crate::probes::KeyHash;
use std::alloc::{AllocError, Allocator, Global};
use std::marker::Model;

/// The bytes of a filter: one block.
pub const FILTER_BYTES: usize = 4096;

/// A filter of keys. Contracts see its bytes.
#[derive(Drop)]
pub struct Filter<A: Allocator = Global> {
    bits: Vec<u8, A>,
}

impl<A: Allocator> Model for Filter<A> {
    ghost use Rattle.std.specs.Prelude.{◌≡◌, ℕ, List, length};

    ghost Value = { List ℕ };

    ghost view = { λ f. f.bits.items };

    ghost invariant = { λ f. length f.bits.items ≡ 4096 };
}

impl<A: Allocator> Filter<A> {
    /// The filter of no key.
    pub fn new(alloc: A) -> Result<Self, AllocError>
        ensures { IfOk result (λ filter. filter ≡ filter_of []) }
    {
        let bits = vec![in alloc; 0; FILTER_BYTES]?;
        Ok(Filter { bits })
    }

    /// Puts in a key. It takes no memory.
    pub fn insert(&mut self, key: &[u8])
        ensures { self.new ≡ with_key self.old key.now }
    {
        set_bits_of(&mut self.bits, key);
    }

    /// The filter of these keys.
    pub fn build(alloc: A, keys: &[&[u8]]) -> Result<Self, AllocError>
        ensures bytes { IfOk result (λ filter. filter ≡ filter_of (map (λ key. key.now) keys.now)) }
        ensures members { IfOk result
            (λ filter. All (λ key. is_perhaps filter key.now ≡ true) keys.now) }
    {
        let mut filter = Filter::new(alloc)?;
        for key in keys {
            filter.insert(key);
        }
        Ok(filter)
    }

    /// The filter in a block that was read.
    pub fn from_block(alloc: A, block: &[u8; FILTER_BYTES]) -> Result<Self, AllocError>
        ensures { IfOk result (λ filter. filter ≡ block.now) }
    {
        let bits = Vec::from_slice(alloc, block)?;
        Ok(Filter { bits })
    }

    /// Its bytes.
    pub fn block(&self) -> &[u8]
        ensures bytes { result.now ≡ self.now }
        ensures whole { length result.now ≡ 4096 }
    {
        &self.bits
    }

    /// Whether the key is perhaps one of those that were put in: whether all its bits are set. It takes no memory.
    pub fn perhaps(&self, key: &[u8]) -> bool
        ensures { result ≡ is_perhaps self.now key.now }
    {
        self.perhaps_hashed(KeyHash::of(key))
    }

    /// What [`Filter::perhaps`] returns for the keys that have this hash. It takes no memory, and reads no key.
    pub fn perhaps_hashed(&self, hash: KeyHash) -> bool
        ensures { result ≡ has_bits self.now hash }
    {
        has_bits_of(&self.bits, hash)
    }
}
