//! Bits in a block of bytes.

ghost use Rattle.std.specs.Prelude.{◌≡◌, ◌<◌, length};
ghost use Rattle.lsm_filter.specs.Bits.{is_set, with_bit, with_key, has_bits};

use crate::probes::{KeyHash, TURNS, probe_of};

fn is_bit_set(bits: &[u8], at: usize) -> bool
    requires block { length bits.now ≡ 4096 }
    requires within { at < 32768 }
    ensures { result ≡ is_set bits.now at }
{
    (bits[at / 8] >> (at % 8)) & 1 == 1
}

fn set_bit(bits: &mut [u8], at: usize)
    requires block { length bits.old ≡ 4096 }
    requires within { at < 32768 }
    ensures { bits.new ≡ with_bit bits.old at }
{
    bits[at / 8] |= 1 << (at % 8);
}

/// Sets the bits of a key.
#[tactic(auto, unfolding(crate::specs::Bits::with_key))]
pub(crate) fn set_bits_of(bits: &mut [u8], key: &[u8])
    requires block { length bits.old ≡ 4096 }
    ensures { bits.new ≡ with_key bits.old key.now }
{
    let hash = KeyHash::of(key);
    for turn in TURNS {
        set_bit(bits, probe_of(hash, turn));
    }
}

/// Whether all bits of a hash are set.
#[tactic(auto, unfolding(crate::specs::Bits::has_bits))]
pub(crate) fn has_bits_of(bits: &[u8], hash: KeyHash) -> bool
    requires block { length bits.now ≡ 4096 }
    ensures { result ≡ has_bits bits.now hash }
{
    for turn in TURNS {
        if !is_bit_set(bits, probe_of(hash, turn)) {
            return false;
        }
    }
    true
}
