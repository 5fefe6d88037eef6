//! Streams of operations, of kinds that stores find hard.

use crate::draws::Draws;
use std::alloc::{AllocError, Global};

/// The keys that a stream uses are numbered below this.
pub(crate) const KEYS: u32 = 65_536;

/// The kinds of streams.
const KINDS: u32 = 12;

/// An operation on the key of a number: it puts a value of a number of bytes, or deletes the key.
#[derive(Clone, Copy)]
pub(crate) struct Deed {
    pub key: u32,
    pub value: Option<u32>,
}

/// A stream of operations.
pub(crate) struct Stream {
    pub draws: Draws,
    /// Which of the kinds.
    pub kind: u32,
    /// The bytes of a large value.
    large: u32,
    /// How many operations a batch has at most, mostly.
    pub batch: u32,
    /// How many turns were made.
    turn: u32,
    /// What comes next, the last one first.
    next: Vec<Deed>,
}

impl Drop for Stream {
    fn drop(self) {
        let Stream {
            draws: _,
            kind: _,
            large: _,
            batch: _,
            turn: _,
            next: _,
        } = self;
    }
}

impl Stream {
    /// A stream for each seed.
    pub fn new(alloc: Global, seed: u64) -> Stream {
        let mut draws = Draws::new(seed);
        let kind = draws.below(KINDS);
        let large = draws.one_of(&[300, 900, 1_340, 2_031, 2_033, 2_035, 2_047, 2_048]);
        let batch = draws.one_of(&[1, 1, 1, 5, 20, 100]);
        Stream {
            draws,
            kind,
            large,
            batch,
            turn: 0,
            next: Vec::new(alloc),
        }
    }

    /// The next operation.
    pub fn next(&mut self) -> Result<Deed, AllocError> {
        if self.next.is_empty() {
            self.fill()?;
        }
        match self.next.pop() {
            Some(deed) => Ok(deed),
            None => Ok(Deed {
                key: 0,
                value: None,
            }),
        }
    }

    /// Puts an operation back.
    pub fn give_back(&mut self, deed: Deed) -> Result<(), AllocError> {
        self.next.push(deed)?;
        Ok(())
    }

    /// The number of operations of the next batch.
    pub fn length(&mut self) -> u32 {
        if self.draws.below(200) == 0 {
            return 100_000;
        }
        self.draws.below(self.batch).saturating_add(1)
    }

    fn put(&mut self, key: u32, bytes: u32) -> Result<(), AllocError> {
        self.next.push(Deed {
            key: key % KEYS,
            value: Some(bytes),
        })?;
        Ok(())
    }

    fn delete(&mut self, key: u32) -> Result<(), AllocError> {
        self.next.push(Deed {
            key: key % KEYS,
            value: None,
        })?;
        Ok(())
    }

    fn fill(&mut self) -> Result<(), AllocError> {
        self.turn = self.turn.wrapping_add(1);
        match self.kind {
            0 => self.mixed(),
            1 => self.between(),
            2 => self.queue(),
            3 => self.scattered(),
            4 => self.ascending(),
            5 => self.all_large(),
            6 => self.all_tiny(),
            7 => self.hot(),
            8 => self.mostly_deletes(),
            9 => self.all_deleted(),
            10 => self.sweep(),
            _ => self.wide(),
        }
    }

    /// The number of any key.
    pub fn key(&mut self) -> u32 {
        self.draws.below(KEYS)
    }

    fn mixed(&mut self) -> Result<(), AllocError> {
        let any = self.draws.below(2_049);
        let large = self.large;
        let bytes = self.draws.one_of(&[0, 1, 1, large, large, 2_048, any]);
        let key = self.key();
        self.put(key, bytes)?;
        if self.draws.below(10) == 0 {
            let key = self.key();
            self.delete(key)?;
        }
        Ok(())
    }

    // Large ones, and then tiny ones between them.
    fn between(&mut self) -> Result<(), AllocError> {
        let large = self.large;
        let half = self.draws.below(500).saturating_add(1);
        for i in 0..half {
            self.put(i.wrapping_mul(2).wrapping_add(1), 1)?;
        }
        for i in 0..half {
            self.put(i.wrapping_mul(2), large)?;
        }
        Ok(())
    }

    fn queue(&mut self) -> Result<(), AllocError> {
        let turn = self.turn;
        let large = self.large;
        self.put(turn, large)?;
        if turn > 300 {
            self.delete(turn.saturating_sub(300))?;
        }
        Ok(())
    }

    fn scattered(&mut self) -> Result<(), AllocError> {
        let large = self.large;
        let turn = self.turn;
        let bytes = self.draws.one_of(&[1, 1, 40, large]);
        self.put(turn.wrapping_mul(40_503), bytes)
    }

    fn ascending(&mut self) -> Result<(), AllocError> {
        let large = self.large;
        let turn = self.turn;
        let bytes = self.draws.one_of(&[1, large]);
        self.put(turn, bytes)
    }

    fn all_large(&mut self) -> Result<(), AllocError> {
        let key = self.key();
        self.put(key, 2_048)
    }

    fn all_tiny(&mut self) -> Result<(), AllocError> {
        let key = self.key();
        self.put(key, 0)
    }

    fn hot(&mut self) -> Result<(), AllocError> {
        let key = self.draws.below(40);
        let bytes = self.draws.one_of(&[1, 2_000]);
        self.put(key, bytes)
    }

    fn mostly_deletes(&mut self) -> Result<(), AllocError> {
        let key = self.key();
        let large = self.large;
        if self.draws.below(3) == 0 {
            return self.put(key, large);
        }
        self.delete(key)
    }

    // 1,500 are put, and then deleted.
    fn all_deleted(&mut self) -> Result<(), AllocError> {
        let key = (self.turn % 1_500).wrapping_mul(7_919);
        if (self.turn / 1_500) % 2 == 0 {
            let large = self.large;
            let bytes = self.draws.one_of(&[3, large]);
            return self.put(key, bytes);
        }
        self.delete(key)
    }

    // Large ones, then tiny ones in all gaps, then deletes of strangers.
    fn sweep(&mut self) -> Result<(), AllocError> {
        let turn = self.turn % 6_000;
        let large = self.large;
        if turn < 1_200 {
            return self.put(turn.wrapping_mul(16), large);
        }
        if turn < 4_000 {
            let beside = self.draws.below(15).saturating_add(1);
            return self.put((turn % 1_200).wrapping_mul(16).wrapping_add(beside), 0);
        }
        let key = self.draws.below(20_000);
        self.delete(key)
    }

    // Each flush is as wide as all keys.
    fn wide(&mut self) -> Result<(), AllocError> {
        let far = self.draws.below(20).wrapping_mul(3_000);
        let any = self.key();
        let key = self.draws.one_of(&[far, any]);
        let large = self.large;
        let bytes = self.draws.one_of(&[1, large, large]);
        self.put(key, bytes)?;
        self.put(0, 1)?;
        self.put(KEYS - 1, 1)
    }
}
