// A store that threads share.
ghost use Rattle.std.specs.Prelude.{◌≡◌, ◌<◌, ◌≤◌, [], IfOk, MatchResult};
ghost use Rattle.std.specs.Vec.{vec_capacity};
ghost use Rattle.lsm_device.specs.declared.refusal.Refusal.TheVariants.{NoMemory, NotYours};
ghost use Rattle.lsm_trail.specs.Begins.{base_of, CanPin};
ghost use Rattle.lsm_trail.specs.Knowledge.{keeper_of, IsKeeperPass};
ghost use Rattle.lsm_shared.specs.Clients.{newcomers, AreAll};
ghost use Rattle.lsm_shared.specs.Sessions.{IsPinned, IsEnded};

use crate::client::Client;
use crate::ending::are_all;
use crate::session::Session;
use lsm_device::{Device, Refusal};
use lsm_store::Store;
use lsm_trail::{Counters, Opened, Pass, SessionName, Trail};
use std::alloc::{AllocError, Allocator};
use std::hint::spin_loop;
use std::sync::{Mutex, MutexGuard, Wait};

/// How often the lock is tried for before a thread sleeps.
const TRIES: u32 = 32;

/// How often the processor pauses after the first try: for about as long as a commit holds the lock.
const FEWEST_PAUSES: u32 = 32;

/// How often it pauses at most between two tries. Whoever has the lock makes many commits in that time, so what the lock guards
/// stays with one processor for a while.
const MOST_PAUSES: u32 = 1_024;

fn pause(times: u32) {
    for _ in 0..times {
        spin_loop();
    }
}

/// A session: a store guarded by one lock, with one history of all calls and pieces of work. Other modules of this crate come to the
/// lock by `hold` alone.
pub struct Shared<D: Device, A: Allocator, B: SessionName> {
    pub(crate) counters: Counters<D, A, B>,
    session: Mutex<Session<D, A, B>>,
    clients: u32,
    base: u64,
    ghost pinned: { base ≡ base_of B.id.begin },
    ghost all: { clients ≡ B.id.begin.clients },
    ghost some: { 0 < clients },
}

// One call at each exit of a caller, in the place of the drops of all fields.
impl<D: Device + Drop, A: Allocator, B: SessionName> Drop for Shared<D, A, B> {
    fn drop(self) {
        let Shared {
            counters: _,
            session: _,
            clients: _,
            base: _,
        } = self;
    }
}

// An empty trail with all its places, and places for the clients.
fn places<A: Allocator + Clone, B: SessionName>(
    alloc: A,
    limit: u32,
    count: u32,
) -> Result<(Trail<A>, Vec<Client<A, B>, A>), AllocError>
    ensures { IfOk result (λ r. (r.0 ≡ record { log = []; limit = limit }) × (r.1.items ≡ [])
        × (count ≤ vec_capacity r.1)) }
{
    let trail = Trail::new(alloc.clone()?, limit as usize)?;
    let clients = Vec::with_capacity(alloc, count as usize)?;
    Ok((trail, clients))
}

// Pins the base of the session, and returns its number.
fn pin<D: Device, A: Allocator + Clone, B: SessionName>(
    store: &mut Store<D, A>,
) -> Result<u64, Refusal>
    requires store { store.old ≡ B.id.begin.store }
    requires could { CanPin B.id.begin }
    ensures { MatchResult result
        (λ base. IsPinned B.id.begin base store.new)
        (λ e. (e ≡ NoMemory) × (store.new ≡ store.old)) }
{
    store.snapshot()
}

// The clients, numbered from 0 on.
fn deal_all<D: Device, A: Allocator, B: SessionName>(
    counters: &Counters<D, A, B>,
    keeper: &mut Pass<A>,
    clients: &mut Vec<Client<A, B>, A>,
    count: u32,
)
    requires keeper { IsKeeperPass B.id [] keeper.old × ((keeper_of keeper.old).dealt ≡ 0) }
    requires room { (clients.old.items ≡ []) × (count ≤ vec_capacity clients.old) }
    ensures keeper { IsKeeperPass B.id [] keeper.new × ((keeper_of keeper.new).dealt ≡ count) }
    ensures clients { clients.new.items ≡ newcomers B.id.begin count }
{
    for number in 0..count {
        clients.push_reserved(Client::new(number, counters.deal(keeper)));
    }
}

impl<D: Device, A: Allocator + Clone, B: SessionName> Shared<D, A, B> {
    /// Begins the session that was prepared, with all places of its trail, and pins its base. It gives the clients, numbered
    /// from 0 on. Want of memory hands the store back as it was.
    pub fn begin(
        alloc: A,
        opened: Opened<D, A>,
    ) -> Result<(Shared<D, A, B>, Vec<Client<A, B>, A>), (Refusal, Store<D, A>)>
        requires { opened ≡ B.id }
        ensures { MatchResult result
            (λ r. r.1.items ≡ newcomers B.id.begin B.id.begin.clients)
            (λ e. (e.0 ≡ NoMemory) × (e.1 ≡ B.id.begin.store)) }
    {
        let count = opened.clients();
        let Ok((trail, mut clients)) = places(alloc, opened.limit(), count) else {
            return Err((Refusal::NoMemory, opened.into_store()));
        };
        let (mut store, counters, mut keeper) = opened.named::<B>();
        let base = match pin::<D, A, B>(&mut store) {
            Ok(base) => base,
            Err(refusal) => return Err((refusal, store)),
        };
        deal_all(&counters, &mut keeper, &mut clients, count);
        let session = Mutex::new(Session::new(store, base, trail, keeper));
        Ok((
            Shared {
                counters,
                session,
                clients: count,
                base,
            },
            clients,
        ))
    }
}

impl<D: Device, A: Allocator, B: SessionName> Shared<D, A, B> {
    // Waits for the lock. It tries for a while first, since most holds are shorter than what it costs to put a thread to sleep
    // and to wake it. Each pause between two tries is twice as long as the one before, up to a longest.
    pub(crate) fn hold<R: Wait>(&self, rt: &R) -> MutexGuard<'_, Session<D, A, B>> {
        let mut pauses = FEWEST_PAUSES;
        for _ in 0..TRIES {
            if let Some(guard) = self.session.try_lock() {
                return guard;
            }
            pause(pauses);
            pauses = MOST_PAUSES.min(pauses.saturating_mul(2));
        }
        self.session.lock(rt)
    }

    /// The number of the base: the snapshot that the session pins from its begin to its end. Its map is that of the begin.
    pub fn base(&self) -> u64
        ensures { result ≡ base_of B.id.begin }
    {
        self.base
    }

    /// Ends the session: it gives the store, which lets the base go unless it is stopped, and the trail, which begins with
    /// what each client had seen and has just the calls that each client made. Fails with `NotYours` where they are not the session's
    /// clients, each once, and then hands all back.
    pub fn finish(
        self,
        clients: Vec<Client<A, B>, A>,
    ) -> Result<(Store<D, A>, Trail<A>), (Refusal, Shared<D, A, B>, Vec<Client<A, B>, A>)>
        ensures clients { MatchResult result
            (λ _. AreAll B.id.begin.clients clients.items)
            (λ e. (¬ AreAll B.id.begin.clients clients.items) × (e.0 ≡ NotYours) × (e.1 ≡ self)
            × (e.2.items ≡ clients.items)) }
        ensures ended { IfOk result (λ r. IsEnded B.id.begin clients.items r.0 r.1) }
    {
        if !are_all(clients.as_slice(), self.clients) {
            return Err((Refusal::NotYours, self, clients));
        }
        Ok(self.end(clients))
    }

    fn end(self, clients: Vec<Client<A, B>, A>) -> (Store<D, A>, Trail<A>)
        requires { (0 < B.id.begin.clients) × AreAll B.id.begin.clients clients.items }
        ensures { IsEnded B.id.begin clients.items result.0 result.1 }
    {
        let Shared {
            counters,
            session,
            clients: _,
            base: _,
        } = self;
        let mut session = session.into_inner();
        let mut left = clients;
        while let Some(client) = left.pop() {
            session.retire(&counters, client);
        }
        session.into_parts()
    }
}
