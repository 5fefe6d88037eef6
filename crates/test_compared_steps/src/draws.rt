//! Numbers that look random, and are the same in each run.

/// A generator of numbers.
#[derive(Clone, Copy)]
pub struct Draws {
    state: u64,
    /// The key below those that are drawn now.
    near: u8,
}

impl Draws {
    /// A generator at its beginning, for each seed another one.
    pub fn new(seed: u64) -> Draws {
        Draws {
            state: 0x9e37_79b9_7f4a_7c15 ^ seed.wrapping_mul(0x2545_f491_4f6c_dd1d),
            near: 0,
        }
    }

    /// The next number, of which the first bytes look most random.
    pub fn wide(&mut self) -> u64 {
        let mut state = self.state;
        state ^= state << 13;
        state ^= state >> 7;
        state ^= state << 17;
        self.state = state;
        state
    }

    fn number(&mut self) -> u32 {
        let [a, b, c, d, _, _, _, _] = self.wide().to_be_bytes();
        u32::from_be_bytes([a, b, c, d])
    }

    /// The next byte.
    pub fn byte(&mut self) -> u8 {
        let [byte, _, _, _] = self.number().to_be_bytes();
        byte
    }

    /// A key from 1 to 60, mostly near the one before.
    pub fn key(&mut self) -> u8 {
        if self.below(24) == 0 {
            self.near = self.byte() % 54;
        }
        self.near.wrapping_add(self.byte() % 7).wrapping_add(1)
    }

    /// A number below a bound, 0 where the bound is 0.
    pub fn below(&mut self, bound: u32) -> u32 {
        if bound == 0 {
            return 0;
        }
        self.number() % bound
    }

    /// A place among `count`, 0 where there is none.
    pub fn place(&mut self, count: usize) -> usize {
        if count == 0 {
            return 0;
        }
        self.number() as usize % count
    }

    /// The last two bytes of a number below a bound.
    pub fn pair(&mut self, bound: u32) -> [u8; 2] {
        let [_, _, a, b] = self.below(bound).to_be_bytes();
        [a, b]
    }
}
