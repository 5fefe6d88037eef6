//! Clients in threads of their own that hand on what they have seen, round by round.

use crate::parts::commit;
use crate::sessions::{Deeds, lead};
use crate::setup::small;
use lsm_device::MemDevice;
use lsm_lives::{Call, Reply, Step};
use lsm_shared::{Client, Seen, Shared};
use lsm_trail::{SessionName, TrailEntry};
use std::alloc::Global;
use std::hint::spin_loop;
use std::process::Abort;
use std::sync::{Mutex, Wait};
use std::thread::{Threads, for_each_mut};

const CLIENTS: u32 = 4;

const ROUNDS: u32 = 10;

// What the client before has seen, once it has told.
type Mailbox<B> = Mutex<Option<Seen<Global, B>>>;

// What is in a mailbox, once something is.
fn taken_out<B: SessionName, R: Wait>(rt: &R, mailbox: &Mailbox<B>) -> Seen<Global, B> {
    for _ in rt.forever() {
        if let Some(seen) = mailbox.lock(rt).take() {
            return seen;
        }
        spin_loop();
    }
    unreachable!()
}

// Hears what the client before has seen, when it is there. Just the calls of all turns before were made then.
fn hear<B: SessionName, R: Wait + Abort>(
    rt: &R,
    shared: &Shared<MemDevice, Global, B>,
    me: &mut Client<Global, B>,
    mailboxes: &[Mailbox<B>],
    turn: u32,
) {
    let mailbox = mailboxes.get(me.number() as usize).expect(rt, "a mailbox");
    let seen = taken_out(rt, mailbox);
    me.hear(shared, seen);
    assert!(rt; me.watch(shared).calls == u64::from(turn));
}

// Tells the next client.
fn tell<B: SessionName, R: Wait + Abort>(
    rt: &R,
    shared: &Shared<MemDevice, Global, B>,
    me: &mut Client<Global, B>,
    mailboxes: &[Mailbox<B>],
) {
    let next = me.number().wrapping_add(1) % CLIENTS;
    let mailbox = mailboxes.get(next as usize).expect(rt, "a mailbox");
    *mailbox.lock(rt) = Some(me.tell(shared));
}

// All turns of one client. The first turn of all has none before it.
fn take_turns<B: SessionName, R: Wait + Abort>(
    rt: &R,
    alloc: Global,
    shared: &Shared<MemDevice, Global, B>,
    me: &mut Client<Global, B>,
    mailboxes: &[Mailbox<B>],
) {
    for round in 0..ROUNDS {
        let turn = (CLIENTS * round).wrapping_add(me.number());
        if turn > 0 {
            hear(rt, shared, me, mailboxes, turn);
        }
        commit(rt, alloc, shared, me, round);
        tell(rt, shared, me, mailboxes);
    }
}

/// Each of four clients hears from the one before it, commits and tells the next, in so many rounds.
pub fn go_in_rounds<B: SessionName + Send + Sync, R: Threads + Wait + Abort + Sync>(
    rt: &R,
    alloc: Global,
    shared: &Shared<MemDevice, Global, B>,
    clients: &mut [Client<Global, B>],
) {
    let mut mailboxes = Vec::new(alloc);
    for _ in 0..CLIENTS {
        mailboxes.push(Mutex::new(None)).expect(rt, "memory");
    }
    let mailboxes = mailboxes.as_slice();
    for_each_mut(
        rt,
        clients,
        4,
        &|_, me| take_turns(rt, alloc, shared, me, mailboxes),
    );
}

// Whether an entry is the commit of a turn, counted from 0: the batch of the next number.
fn is_of_turn(entry: &TrailEntry, turn: u32) -> bool {
    entry.client() == turn % CLIENTS
        && matches!(entry.step(), Step::Call(Call::Commit(_)))
        && matches!(entry.reply(), Reply::Number(n) if *n == u64::from(turn) + 1)
}

#[test]
fn what_is_heard_comes_first(rt: HostRuntime) {
    let store = small(&rt, rt.alloc());
    let left = lead(&rt, rt.alloc(), store, (CLIENTS, 64), Deeds::InRounds);
    let mut all = left.trail.len() == 40;
    for (entry, turn) in left.trail.entries().iter().zip(0u32..) {
        all = all && is_of_turn(entry, turn);
    }
    assert!(rt; all);
}
