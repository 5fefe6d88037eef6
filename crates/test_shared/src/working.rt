//! Results that two clients build of one input, one after the other and at the same time, and turns that look anew.

ghost use Rattle.std.specs.Arc.{arc_value};
ghost use Rattle.lsm_shared.specs.Turns.{WasLent};

use crate::asks::{Ask, Exchange, Outcome, ask_all};
use crate::parts::Part;
use crate::sessions::{Deeds, lead};
use crate::setup::{put, small};
use lsm_device::{MemDevice, Refusal};
use lsm_lives::{Call, Reply, Step, Work};
use lsm_merge::{Input, build};
use lsm_shared::{Client, Shared, Turn};
use lsm_trail::{SessionName, Trail, TrailEntry};
use std::alloc::Global;
use std::process::Abort;
use std::sync::{Arc, Wait};
use std::thread::Threads;

// An input that a turn handed out.
#[derive(Drop)]
struct Lent {
    job: u64,
    result: u64,
    input: Arc<Input>,
}

// A turn of a client that must be handed out an input.
fn borrow<B: SessionName, R: Wait + Abort>(
    rt: &R,
    shared: &Shared<MemDevice, Global, B>,
    me: &mut Client<Global, B>,
) -> Lent
    ensures { WasLent me.new.mine result.job result.result (arc_value result.input) }
{
    match me.turn(rt, shared) {
        Ok(Turn::Merge { job, result, input }) => Lent { job, result, input },
        _ => rt.panic("no input is handed out"),
    }
}

// Builds the result of an input in four parts, and brings it.
fn bring<B: SessionName, R: Threads + Wait + Abort + Sync>(
    rt: &R,
    alloc: Global,
    shared: &Shared<MemDevice, Global, B>,
    me: &mut Client<Global, B>,
    lent: Lent,
)
    requires { WasLent me.old.mine lent.job lent.result (arc_value lent.input) }
{
    let Lent { job, result, input } = lent;
    let built = build(rt, alloc, input, 4).expect(rt, "a result");
    let _reply = me
        .bring(rt, shared, job, result, &built)
        .expect(rt, "a reply");
}

const BEFORE: &[Exchange] = &[
    (0, Ask::Turn, Outcome::Idle),
    (0, Ask::Put(0x61), Outcome::Number(1)),
    (0, Ask::Rotate, Outcome::Done),
    (0, Ask::Turn, Outcome::Did),
];

const BEHIND: &[Exchange] = &[
    (0, Ask::Turn, Outcome::Did),
    (0, Ask::Turn, Outcome::Did),
    (0, Ask::Turn, Outcome::Idle),
];

// Commits a put as a client that was handed out an input. It may still bring the result.
fn commit_between<B: SessionName, R: Wait + Abort>(
    rt: &R,
    alloc: Global,
    shared: &Shared<MemDevice, Global, B>,
    me: &mut Client<Global, B>,
    lent: &Lent,
)
    requires { WasLent me.old.mine lent.now.job lent.now.result (arc_value lent.now.input) }
    ensures { WasLent me.new.mine lent.now.job lent.now.result (arc_value lent.now.input) }
{
    let batch = put(alloc, b"\x62", b"\x32").expect(rt, "a batch");
    let reply = me.call(rt, shared, Call::Commit(batch));
    assert!(rt; matches!(reply, Ok(Reply::Number(2))));
}

// Both clients are handed out one input. The second one makes a commit, and then each brings a result.
fn build_both<B: SessionName, R: Threads + Wait + Abort + Sync>(
    rt: &R,
    alloc: Global,
    shared: &Shared<MemDevice, Global, B>,
    clients: &mut [Client<Global, B>],
) {
    let (zero, others) = clients.split_first_mut().expect(rt, "two clients");
    let one = others.first_mut().expect(rt, "two clients");
    let first = borrow(rt, shared, zero);
    let second = borrow(rt, shared, one);
    assert!(rt; (first.job, first.result) == (1, 1) && (second.job, second.result) == (1, 2));
    commit_between(rt, alloc, shared, one, &second);
    bring(rt, alloc, shared, zero, first);
    bring(rt, alloc, shared, one, second);
}

/// Client 0 takes a flush, which both clients build, and ends it.
pub fn build_twice<B: SessionName, R: Threads + Wait + Abort + Sync>(
    rt: &R,
    alloc: Global,
    shared: &Shared<MemDevice, Global, B>,
    clients: &mut [Client<Global, B>],
) {
    ask_all(rt, alloc, shared, clients, BEFORE);
    build_both(rt, alloc, shared, clients);
    ask_all(rt, alloc, shared, clients, BEHIND);
}

// Who made an entry, and what it is of, with its reply.
fn told(entry: &TrailEntry) -> (u32, &'static str) {
    let kind = match (entry.step(), entry.reply()) {
        (Step::Call(Call::Commit(_)), Reply::Number(_)) => "commit",
        (Step::Call(Call::Sync), Reply::Done) => "sync",
        (Step::Call(Call::Rotate), Reply::Done) => "rotate",
        (Step::Work(Work::Take), Reply::Taken(Some(_))) => "take",
        (Step::Work(Work::Build { job: 1, parts: 4 }), Reply::Number(_)) => "build",
        (Step::Work(Work::Accept { job: 1, .. }), Reply::Done) => "accept",
        (Step::Work(Work::Accept { job: 1, .. }), Reply::Refused(Refusal::WrongState)) => "late",
        (Step::Work(Work::Write(1)), Reply::Number(0)) => "write",
        (Step::Work(Work::Install(1)), Reply::Done) => "install",
        _ => "other",
    };
    (entry.client(), kind)
}

// Whether a trail has just these entries, also once it is made of them again.
fn is_of(trail: Trail, wanted: &[(u32, &'static str)]) -> bool {
    let mut all = trail.len() == wanted.len();
    let trail = Trail::from_entries(trail.into_entries());
    for (entry, wanted) in trail.entries().iter().zip(wanted) {
        all = all && told(entry) == *wanted;
    }
    all && trail.len() == wanted.len()
}

const TWO_BUILDS: &[(u32, &str)] = &[
    (0, "commit"),
    (0, "rotate"),
    (0, "take"),
    (0, "build"),
    (1, "build"),
    (1, "commit"),
    (0, "accept"),
    (1, "late"),
    (0, "write"),
    (0, "install"),
];

#[test]
fn two_clients_build_one_result(rt: HostRuntime) {
    let store = small(&rt, rt.alloc());
    let (store, trail) = lead(&rt, rt.alloc(), store, (2, 64), Deeds::BuildTwice).into_parts();
    assert!(rt; is_of(trail, TWO_BUILDS));
    // An install syncs all batches.
    assert!(rt; store.batch_count() == 2 && store.synced_count() == 2);
}

// Client 1 makes no call. It reads the numbers of what client 0 did, and is idle until that has rotated.
const ANEW: &[Exchange] = &[
    (1, Ask::Turn, Outcome::Idle),
    (1, Ask::Watch, Outcome::Numbers(0, 0, 0)),
    (0, Ask::Put(0x61), Outcome::Number(1)),
    (1, Ask::Watch, Outcome::Numbers(1, 1, 0)),
    (0, Ask::Sync, Outcome::Done),
    (1, Ask::Watch, Outcome::Numbers(2, 1, 1)),
    (0, Ask::Rotate, Outcome::Done),
    (1, Ask::Turn, Outcome::Did),
];

#[test]
fn a_client_looks_anew(rt: HostRuntime) {
    let store = small(&rt, rt.alloc());
    let (_store, trail) = lead(&rt, rt.alloc(), store, (2, 8), Deeds::Asks(ANEW)).into_parts();
    assert!(rt;
        is_of(
            trail,
            &[(0, "commit"), (0, "sync"), (0, "rotate"), (1, "take")]
        )
    );
}

// How an accept in a trail was answered, if no other way than that it is done or comes too late: whether it is done.
fn is_accepted(entry: &TrailEntry) -> Option<bool> {
    match (entry.step(), entry.reply()) {
        (Step::Work(Work::Accept { .. }), Reply::Done) => Some(true),
        (
            Step::Work(Work::Accept { .. }),
            Reply::Refused(Refusal::NoSuchJob | Refusal::WrongState | Refusal::ForeignResult),
        ) => Some(false),
        (Step::Work(Work::Accept { .. }), _) => None,
        _ => Some(false),
    }
}

// How many accepts of a trail are done, if all others came too late.
fn accepted_in(trail: &Trail) -> Option<u32> {
    let mut count = 0u32;
    for entry in trail.entries() {
        count = count.wrapping_add(u32::from(is_accepted(entry)?));
    }
    Some(count)
}

#[test]
fn one_of_two_results_is_accepted(rt: HostRuntime) {
    let store = small(&rt, rt.alloc());
    let deeds = Deeds::AtOnce(BEFORE, Part::WorkAtOneSlot);
    let left = lead(&rt, rt.alloc(), store, (5, 65_536), deeds);
    assert!(rt; accepted_in(&left.trail) == Some(1));
    assert!(rt; matches!(left.store.stat(), Ok(stat) if stat.tables == 1 && !stat.waiting));
}
