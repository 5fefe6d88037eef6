//! Sessions, from the begin to the end.

ghost use Rattle.std.specs.Prelude.{◌≡◌};

use crate::asks::{Exchange, ask_all};
use crate::order::go_in_rounds;
use crate::parts::{Part, at_once};
use crate::policies::go_by_policies;
use crate::setup::{Left, prepared};
use crate::stopping::commit_on;
use crate::working::build_twice;
use lsm_device::MemDevice;
use lsm_shared::{Client, Shared};
use lsm_store::Store;
use lsm_trail::{Opened, SessionName};
use std::alloc::Global;
use std::marker::Brand;
use std::process::Abort;
use std::sync::Wait;
use std::thread::Threads;

/// What the clients of a session do.
#[derive(Clone, Copy)]
pub enum Deeds<'a> {
    /// What a table says.
    Asks(&'a [Exchange]),
    /// The same, and then all of them do their part at the same time.
    AtOnce(&'a [Exchange], Part),
    /// Two of them build one result.
    BuildTwice,
    /// One of them works by policies.
    ByPolicies,
    /// Each hands on what it has seen to the next, round by round.
    InRounds,
    /// All commit at the same time, whatever they are told.
    CommitOn,
}

fn act<B: SessionName + Send + Sync, R: Threads + Wait + Abort + Sync>(
    rt: &R,
    alloc: Global,
    shared: &Shared<MemDevice, Global, B>,
    clients: &mut [Client<Global, B>],
    deeds: Deeds,
) {
    match deeds {
        Deeds::Asks(table) => ask_all(rt, alloc, shared, clients, table),
        Deeds::AtOnce(table, part) => {
            ask_all(rt, alloc, shared, clients, table);
            at_once(rt, alloc, shared, clients, part);
        }
        Deeds::BuildTwice => build_twice(rt, alloc, shared, clients),
        Deeds::ByPolicies => go_by_policies(rt, alloc, shared, clients),
        Deeds::InRounds => go_in_rounds(rt, alloc, shared, clients),
        Deeds::CommitOn => commit_on(rt, alloc, shared, clients),
    }
}

fn begin_and_end<B: SessionName + Send + Sync, R: Threads + Wait + Abort + Sync>(
    rt: &R,
    alloc: Global,
    opened: Opened<MemDevice>,
    deeds: Deeds,
) -> Left
    requires { opened ≡ B.id }
{
    let (shared, mut clients) = match Shared::<MemDevice, Global, B>::begin(alloc, opened) {
        Ok(begun) => begun,
        Err((refusal, _)) => rt.panic(refusal.name()),
    };
    act(rt, alloc, &shared, &mut clients, deeds);
    match shared.finish(clients) {
        Ok((store, trail)) => Left { store, trail },
        Err((refusal, _, _)) => rt.panic(refusal.name()),
    }
}

/// What is left of a session of a store with so many clients and places in its trail, once its clients did these deeds.
pub fn lead<R: Threads + Wait + Abort + Sync>(
    rt: &R,
    alloc: Global,
    store: Store<MemDevice>,
    sizes: (u32, u32),
    deeds: Deeds,
) -> Left {
    let opened = prepared(rt, alloc, store, sizes);
    begin_and_end::<Brand, _>(rt, alloc, opened, deeds)
}
