// The steps by which passes write and read the words of a session.

use crate::entry::TrailEntry;
use crate::knowledge::Knowledge;
use crate::start::Start;
use atomic_table::{Join, Play, Split, Table, TableRule};
use lsm_device::Device;
use std::alloc::Allocator;

/// The words of a session.
pub(crate) type Board<D, A> = Table<TrailEntry<A>, Knowledge, Start<D, A>, Law, A>;

/// The words are the numbers of one history, which only grows.
pub struct Law;

impl<D: Device, A: Allocator> TableRule<TrailEntry<A>, Knowledge, Start<D, A>> for Law {
    ghost use Rattle.lsm_trail.specs.Rule.{Kept, first_view};

    ghost holds = { Kept };

    ghost first = { first_view };
}

/// The lock's holder writes a number of the history to come.
pub struct Put;

impl<A: Allocator> Play<TrailEntry<A>, Knowledge> for Put {
    ghost use Rattle.lsm_trail.specs.Steps.{Puts};

    ghost then = { Puts };
}

/// The lock's holder makes the history longer by a client's entry.
pub struct Publish;

impl<A: Allocator> Play<TrailEntry<A>, Knowledge> for Publish {
    ghost use Rattle.lsm_trail.specs.Steps.{Publishes};

    ghost then = { Publishes };
}

/// The lock's holder compares what a client knows with the history.
pub struct Compare;

impl<A: Allocator> Play<TrailEntry<A>, Knowledge> for Compare {
    ghost use Rattle.lsm_trail.specs.Steps.{Compares};

    ghost then = { Compares };
}

/// A client sees the history as the lock's holder has it.
pub struct Note;

impl<A: Allocator> Play<TrailEntry<A>, Knowledge> for Note {
    ghost use Rattle.lsm_trail.specs.Steps.{Notes};

    ghost then = { Notes };
}

/// A client reads the length of the history without the lock, and has seen it. It begins with what the client was told.
pub struct Look;

impl<A: Allocator> Play<TrailEntry<A>, Knowledge> for Look {
    ghost use Rattle.lsm_trail.specs.Steps.{Looks};

    ghost then = { Looks };
}

/// A client reads a number of what it has seen.
pub struct Peek;

impl<A: Allocator> Play<TrailEntry<A>, Knowledge> for Peek {
    ghost use Rattle.lsm_trail.specs.Steps.{Peeks};

    ghost then = { Peeks };
}

/// A pass that knows nothing.
pub struct Nothing;

impl Split<Knowledge> for Nothing {
    ghost use Rattle.lsm_trail.specs.Knowledge.{nobody};

    ghost left = { λ v. v };

    ghost right = { λ _. nobody };
}

/// The lock's pass takes in a client's part, and gives it back.
pub struct Lend;

impl Join<Knowledge> for Lend {
    ghost use Rattle.lsm_trail.specs.Knowledge.{view_of, nobody};

    ghost both = { λ v w. view_of v.keeper w.client };

    ghost spent = { nobody };
}

impl Split<Knowledge> for Lend {
    ghost use Rattle.std.specs.Prelude.{None};
    ghost use Rattle.lsm_trail.specs.Knowledge.{view_of};

    ghost left = { λ v. view_of v.keeper None };

    ghost right = { λ v. view_of None v.client };
}

/// A new client.
pub struct Deal;

impl Split<Knowledge> for Deal {
    ghost use Rattle.lsm_trail.specs.Steps.{dealer, dealt_to};

    ghost left = { dealer };

    ghost right = { dealt_to };
}

/// A pass that tells what a client has seen.
pub struct Tell;

impl Split<Knowledge> for Tell {
    ghost use Rattle.lsm_trail.specs.Steps.{said_by};

    ghost left = { λ v. v };

    ghost right = { said_by };
}

/// A client's pass is told what that one tells.
pub struct Hear;

impl Join<Knowledge> for Hear {
    ghost use Rattle.lsm_trail.specs.Knowledge.{nobody};
    ghost use Rattle.lsm_trail.specs.Steps.{heard};

    ghost both = { heard };

    ghost spent = { nobody };
}
