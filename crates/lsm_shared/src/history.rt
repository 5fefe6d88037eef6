// The history of a session, as the lock's value keeps it.
ghost use Rattle.std.specs.Prelude.{◌≡◌, ◌+◌, ◌<◌, ◌≤◌, ◌==◌, Bool, ℕ, [], ◌∷◌, ◌++◌, length, if◌then◌else◌};
ghost use mathlib.Core.List.{IsPrefix};
ghost use Rattle.lsm_store.specs.Backing.{machine_of};
ghost use Rattle.lsm_trail.specs.History.{inputs_of, IsLegal, entries_by};
ghost use Rattle.lsm_trail.specs.Following.{MayFollow};
ghost use Rattle.lsm_trail.specs.Knowledge.{known, keeper_of, IsKeeperPass};
ghost use Rattle.lsm_shared.specs.Sessions.{Knows};

use crate::client::Client;
use lsm_device::Device;
use lsm_store::Store;
use lsm_trail::{Counters, Numbers, Pass, SessionName, Trail, TrailEntry};
use std::alloc::Allocator;
use std::marker::{Model, PhantomData};

/// The entries so far, the pass that writes the words, and how many of the entries are calls, and builds that were lent an
/// input. Contracts see the entries.
#[derive(Drop)]
pub(crate) struct SessionHistory<A: Allocator, B: SessionName> {
    trail: Trail<A>,
    keeper: Pass<A>,
    calls: u64,
    builds: u64,
    name: PhantomData<B>,
}

impl<A: Allocator, B: SessionName> Model for SessionHistory<A, B> {
    ghost use Rattle.std.specs.Coded.{codes};
    ghost use Rattle.std.specs.Prelude.{List};
    ghost use Rattle.lsm_codec.specs.Map.{map_code};
    ghost use Rattle.lsm_trail.specs.History.{Event};
    ghost use Rattle.lsm_shared.specs.Sessions.{IsHistory};

    ghost Value = { List Event };

    ghost coded = { Prim.hlevel (codes, map_code) };

    ghost view = { λ h. h.trail.log };

    ghost invariant = { λ h. IsHistory B.id h.trail h.keeper h.calls h.builds };
}

// One more, where there is one.
fn counted(count: u64, is_one: bool) -> u64
    requires { count < 65536 }
    ensures { result ≡ count + (if is_one then 1 else 0) }
{
    if is_one { count + 1 } else { count }
}

impl<A: Allocator, B: SessionName> SessionHistory<A, B> {
    /// A history with no entry, whose clients are dealt.
    pub(crate) fn new(trail: Trail<A>, keeper: Pass<A>) -> SessionHistory<A, B>
        requires keeper { IsKeeperPass B.id [] keeper
            × ((keeper_of keeper).dealt ≡ B.id.begin.clients) }
        requires legal { IsLegal B.id.begin [] }
        requires trail { trail ≡ record { log = []; limit = B.id.begin.limit } }
        requires small { B.id.begin.limit ≤ 65536 }
        ensures { result ≡ [] }
    {
        SessionHistory {
            trail,
            keeper,
            calls: 0,
            builds: 0,
            name: PhantomData,
        }
    }

    /// Whether there is no place for another entry.
    pub(crate) fn is_full(&self) -> bool
        ensures { result ≡ (length self.now == B.id.begin.limit) }
    {
        self.trail.is_full()
    }

    /// The number of the result of the next build.
    pub(crate) fn next_result(&self) -> u64
        ensures { result ≡ length (inputs_of self.now) + 1 }
    {
        self.builds + 1
    }

    /// The client sees the history. What it knew of it is true.
    pub(crate) fn show<D: Device>(
        &mut self,
        counters: &Counters<D, A, B>,
        client: &mut Client<A, B>,
    )
        ensures same { self.new ≡ self.old }
        ensures legal { IsLegal B.id.begin self.old }
        ensures room { length self.old ≤ B.id.begin.limit }
        ensures knows { Knows B.id.begin self.old client.old }
        ensures known { client.new ≡ known B.id.begin client.old.number self.old client.old.mine }
    {
        counters.note(&mut self.keeper, &mut client.pass);
    }

    /// One entry more, of the client, which has seen it then.
    pub(crate) fn enter<D: Device>(
        &mut self,
        counters: &Counters<D, A, B>,
        client: &mut Client<A, B>,
        entry: TrailEntry<A>,
        store: &Store<D, A>,
    )
        requires room { length self.old < B.id.begin.limit }
        requires by { entry.client ≡ client.old.number }
        requires may { MayFollow B.id.begin self.old entry }
        requires machine { entry.machine ≡ machine_of store.now }
        ensures log { self.new ≡ self.old ++ entry ∷ [] }
        ensures legal { IsLegal B.id.begin self.new }
        ensures client { client.new
            ≡ known B.id.begin client.old.number self.new (client.old.mine ++ entry ∷ []) }
    {
        self.calls = counted(self.calls, entry.is_call());
        self.builds = counted(self.builds, entry.is_lent());
        let numbers = Numbers {
            calls: self.calls,
            batches: store.batch_count(),
            synced: store.synced_count(),
        };
        let count = self.trail.len();
        counters.write(&mut self.keeper, &mut client.pass, count, numbers, &entry);
        self.trail.push(entry);
    }

    /// The client is no more. The history begins with what it had seen, and its entries in it are those that it made.
    pub(crate) fn retire<D: Device>(&mut self, counters: &Counters<D, A, B>, client: Client<A, B>)
        ensures same { self.new ≡ self.old }
        ensures seen { IsPrefix client.seen self.old }
        ensures entries { entries_by client.number self.old ≡ client.mine }
        ensures strangers { (x : ℕ) → B.id.begin.clients ≤ x → entries_by x self.old ≡ [] }
    {
        let Client { pass, .. } = client;
        counters.retire(&mut self.keeper, pass);
    }

    /// The trail of the entries.
    pub(crate) fn into_trail(self) -> Trail<A>
        ensures trail { result ≡ record { log = self; limit = B.id.begin.limit } }
        ensures legal { IsLegal B.id.begin self }
        ensures room { length self ≤ B.id.begin.limit }
    {
        let SessionHistory { trail, .. } = self;
        trail
    }
}
