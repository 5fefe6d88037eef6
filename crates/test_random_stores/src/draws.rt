//! Numbers that look random, and are the same in each run.

/// A generator of numbers.
#[derive(Clone, Copy)]
pub(crate) struct Draws {
    state: u64,
}

impl Draws {
    /// A generator at its beginning, for each seed another one.
    pub fn new(seed: u64) -> Draws {
        Draws {
            state: 0x9e37_79b9_7f4a_7c15 ^ seed.wrapping_mul(0x2545_f491_4f6c_dd1d),
        }
    }

    fn wide(&mut self) -> u64 {
        let mut state = self.state;
        state ^= state << 13;
        state ^= state >> 7;
        state ^= state << 17;
        self.state = state;
        state >> 11
    }

    /// A number below a bound, 0 where the bound is 0.
    pub fn below(&mut self, bound: u32) -> u32 {
        match self.wide().checked_rem(u64::from(bound)) {
            Some(rest) => u32::try_from(rest).unwrap_or(0),
            None => 0,
        }
    }

    /// A place among `count`, 0 where there is none.
    pub fn place(&mut self, count: usize) -> usize {
        self.below(u32::try_from(count).unwrap_or(u32::MAX)) as usize
    }

    /// One of some numbers.
    pub fn one_of(&mut self, numbers: &[u32]) -> u32 {
        match numbers.get(self.place(numbers.len())) {
            Some(number) => *number,
            None => 0,
        }
    }
}
