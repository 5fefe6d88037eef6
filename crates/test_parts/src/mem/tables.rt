//! Tables that batches were inserted into.

ghost use Rattle.std.specs.List.{AllByRecursion};
ghost use Rattle.std.specs.Arc.{arc_value};
ghost use Rattle.lsm_codec.specs.Versions.{IsEntry};

use crate::codec::batches::{Operation, batch_of};
use lsm_codec::Batch;
use lsm_mem::{Mem, Sealed};
use std::alloc::Global;
use std::marker::Model;
use std::process::Abort;
use std::sync::Arc;

/// A table that numbers its batches from 1 on. Its calls tell the prover nothing, so that a test has nothing to carry from
/// one line to the next.
#[derive(Drop)]
pub struct Table {
    mem: Mem,
    next: u64,
}

impl Model for Table {
    ghost use Rattle.std.specs.Prelude.{ℕ, ◌≤◌};
    ghost use Rattle.std.specs.List.{AllByRecursion};
    ghost use Rattle.lsm_codec.specs.Versions.{IsEntry};
    ghost use Rattle.lsm_mem.specs.Versions.{NumberedBelow};

    ghost Value = { ℕ };

    ghost view = { λ t. t.next };

    ghost invariant = { λ t. NumberedBelow t.next t.mem × (1 ≤ t.next) × AllByRecursion IsEntry t.mem };
}

impl Table {
    /// A table with these batches.
    pub fn of<R: Abort>(rt: &R, alloc: Global, batches: &[&[Operation]]) -> Table {
        let mem = Mem::new(alloc).expect(rt, "memory");
        let mut table = Table { mem, next: 1 };
        for operations in batches {
            table.insert(rt, &batch_of(rt, alloc, operations));
        }
        table
    }

    fn insert<R: Abort>(&mut self, rt: &R, batch: &Batch) {
        assert!(rt; self.next <= 1 << 62 && self.mem.insert(batch, self.next).is_ok());
        self.next += 1;
    }

    pub fn mem(&self) -> &Mem {
        &self.mem
    }

    /// The same as one that takes no more batches.
    pub fn seal<R: Abort>(self, rt: &R) -> Arc<Sealed, Global>
        ensures { AllByRecursion IsEntry (arc_value result) }
    {
        let Table { mem, next: _ } = self;
        mem.seal().ok().expect(rt, "memory")
    }
}
