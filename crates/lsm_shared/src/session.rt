// The value that the lock guards.
ghost use Rattle.std.specs.Prelude.{◌≡◌, ◌≢◌, ℕ, ◌≤◌, [], length, IsNone, IfOk, IfErr, MatchBool};
ghost use mathlib.Core.List.{IsPrefix};
ghost use Rattle.lsm_lives.specs.Calls.{call_of, told_of};
ghost use Rattle.lsm_store.specs.Backing.{IsBacked};
ghost use Rattle.lsm_machine.specs.Calls.{Release};
ghost use Rattle.lsm_trail.specs.History.{replies_of, machine_after, IsLegal, entries_by};
ghost use Rattle.lsm_trail.specs.Knowledge.{known, keeper_of, IsKeeperPass};
ghost use Rattle.lsm_shared.specs.Sessions.{IsPinned, IsDeviceAfter, Finds, IsMade, IsRefused, ended_state};

use crate::answer::answer_of;
use crate::client::Client;
use crate::history::SessionHistory;
use lsm_device::{Device, Refusal};
use lsm_lives::{Call, Reply, serve};
use lsm_store::Store;
use lsm_trail::{Counters, Pass, SessionName, Trail, TrailEntry};
use std::alloc::Allocator;
use std::marker::Model;

/// The value that the lock guards: the store, the number of the base, and the history. Contracts see the store and the history.
#[derive(Drop)]
pub struct Session<D: Device, A: Allocator, B: SessionName> {
    pub(crate) store: Store<D, A>,
    pub(crate) base: u64,
    pub(crate) history: SessionHistory<A, B>,
}

impl<D: Device, A: Allocator, B: SessionName> Model for Session<D, A, B> {
    ghost use Rattle.std.specs.Coded.{codes};
    ghost use Rattle.lsm_codec.specs.Map.{map_code};
    ghost use Rattle.lsm_shared.specs.Sessions.{SessionView, IsSession};

    ghost Value = { SessionView };

    ghost coded = { Prim.hlevel (codes, map_code) };

    ghost view = { λ s. record { store = s.store; log = s.history } };

    ghost invariant = { λ s. IsSession B.id s.base s.store s.history };
}

impl<D: Device, A: Allocator, B: SessionName> Session<D, A, B> {
    // A session with an empty trail, whose clients are dealt.
    pub(crate) fn new(
        store: Store<D, A>,
        base: u64,
        trail: Trail<A>,
        keeper: Pass<A>,
    ) -> Session<D, A, B>
        requires keeper { IsKeeperPass B.id [] keeper
            × ((keeper_of keeper).dealt ≡ B.id.begin.clients) }
        requires pinned { IsPinned B.id.begin base store }
        requires trail { trail ≡ record { log = []; limit = B.id.begin.limit } }
        requires small { B.id.begin.limit ≤ 65536 }
        ensures { result ≡ record { store = store; log = [] } }
    {
        let history = SessionHistory::new(trail, keeper);
        Session {
            store,
            base,
            history,
        }
    }

    // The client sees the history. What it knew of it is true.
    pub(crate) fn show(&mut self, counters: &Counters<D, A, B>, client: &mut Client<A, B>)
        ensures same { self.new ≡ self.old }
        ensures finds { Finds B.id self.old client.old }
        ensures known { client.new
            ≡ known B.id.begin client.old.number self.old.log client.old.mine }
    {
        self.history.show(counters, client);
    }

    // The client is no more. The trail begins with what it had seen, and its entries in it are those that it made.
    pub(crate) fn retire(&mut self, counters: &Counters<D, A, B>, client: Client<A, B>)
        ensures same { self.new ≡ self.old }
        ensures seen { IsPrefix client.seen self.old.log }
        ensures entries { entries_by client.number self.old.log ≡ client.mine }
        ensures strangers { (x : ℕ) → B.id.begin.clients ≤ x → entries_by x self.old.log ≡ [] }
    {
        self.history.retire(counters, client);
    }

    // The store, which lets the base go unless it is stopped, and the trail.
    pub(crate) fn into_parts(self) -> (Store<D, A>, Trail<A>)
        ensures trail { result.1 ≡ record { log = self.log; limit = B.id.begin.limit } }
        ensures legal { IsLegal B.id.begin self.log }
        ensures state { result.0.state ≡ ended_state B.id.begin self.log }
        ensures work { IsNone result.0.state.stopped
            → result.0.work ≡ (machine_after B.id.begin self.log).work }
        ensures backed { IsBacked B.id.begin.store → IsBacked result.0 }
        ensures device { IsDeviceAfter B.id.begin.store.device
            (replies_of self.log) result.0.device }
        ensures room { length self.log ≤ B.id.begin.limit }
    {
        let Session {
            mut store,
            base,
            history,
        } = self;
        // The base is live, so only a stopped store refuses this.
        let _ = store.release(base);
        (store, history.into_trail())
    }
}

impl<D: Device, A: Allocator + Clone, B: SessionName> Session<D, A, B> {
    /// Serves a call of the client, and enters it. Fails as [`Client::call`]. The client sees the history first.
    pub fn serve(
        &mut self,
        counters: &Counters<D, A, B>,
        me: &mut Client<A, B>,
        call: Call<A>,
    ) -> Result<Reply<A>, Refusal>
        ensures made { IfOk result
            (λ reply. IsMade B.id self.old me.old (call_of call) (told_of reply) self.new me.new) }
        ensures refused { IfErr result
            (λ e. IsRefused B.id self.old me.old (call_of call) e self.new me.new) }
    {
        self.show(counters, me);
        if self.history.is_full() {
            return Err(Refusal::TrailFull);
        }
        if releases(&call, self.base) {
            return Err(Refusal::NotYours);
        }
        let reply = serve(&mut self.store, &call);
        let answer = answer_of(&reply)?;
        let entry = TrailEntry::of_call(me.number, call, reply, &self.store);
        self.history.enter(counters, me, entry, &self.store);
        Ok(answer)
    }
}

// Whether a call is to release the snapshot of this number.
fn releases<A: Allocator>(call: &Call<A>, number: u64) -> bool
    ensures { MatchBool result (call_of call.now ≡ Release number)
        (call_of call.now ≢ Release number) }
{
    match call {
        Call::Release(released) => *released == number,
        _ => false,
    }
}
