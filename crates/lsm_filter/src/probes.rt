//! The hash of a key, and its bits.

ghost use Rattle.std.specs.Prelude.{◌≡◌, ◌<◌};
ghost use Rattle.lsm_filter.specs.Probes.{fnv_hash, probe};

use std::marker::Model;

const FNV_START: u64 = 14_695_981_039_346_656_037;

const FNV_PRIME: u64 = 1_099_511_628_211;

const FILTER_BITS: u64 = 32_768;

/// The probes of a key, each of which gives one bit.
pub(crate) const TURNS: [u64; 7] = [0, 1, 2, 3, 4, 5, 6];

/// The hash of a key. Any number of filters can be asked of a key by it, with the key hashed once. Contracts see the number.
#[derive(Clone, Copy)]
pub struct KeyHash(u64);

impl Model for KeyHash {
    ghost use Rattle.std.specs.Prelude.{ℕ};

    ghost Value = { ℕ };

    ghost view = { λ h. h.0 };

    ghost inverse = { λ n. record { 0 = n } };
}

impl KeyHash {
    /// The hash of this key: FNV-1a of 64 bits. It takes no memory.
    pub fn of(key: &[u8]) -> KeyHash
        ensures { result ≡ fnv_hash key.now }
    {
        let hash = key.iter().fold(FNV_START, |hash, byte| {
            (hash ^ u64::from(*byte)).wrapping_mul(FNV_PRIME)
        });
        KeyHash(hash)
    }
}

/// The bit that a hash gives for probe `turn`.
pub(crate) fn probe_of(hash: KeyHash, turn: u64) -> usize
    requires { turn < 7 }
    ensures value { result ≡ probe hash turn }
    ensures within { result < 32768 }
{
    let start = hash.0 % (1 << 32);
    let step = (hash.0 >> 32) | 1;
    ((start + turn * step) % FILTER_BITS) as usize
}
