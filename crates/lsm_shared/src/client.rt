// The clients of a session.
ghost use Rattle.std.specs.Prelude.{◌≡◌, [], option_map, IfOk, IfErr, MatchResult};
ghost use mathlib.Core.List.{IsPrefix};
ghost use Rattle.lsm_lives.specs.Calls.{call_of, told_of};
ghost use Rattle.lsm_trail.specs.History.{numbers};
ghost use Rattle.lsm_trail.specs.Knowledge.{known, Sees, known_of, IsClientPass};
ghost use Rattle.lsm_shared.specs.Clients.{MakesCall, IsNoCall};
ghost use Rattle.lsm_shared.specs.Turns.{TakesOf, IsNotTaken, TakesNext, IsNoNext, TakesTurn, IsNoTurn, TakesDue, IsNotDue, HasLent, WasLent, Brings, IsNotBrought};

use crate::seen::Seen;
use crate::shared::Shared;
use crate::turn::Turn;
use lsm_device::{Device, Refusal};
use lsm_lives::{Call, Reply};
use lsm_merge::Built;
use lsm_policy::Policy;
use lsm_store::Choice;
use lsm_trail::{Numbers, Pass, SessionName};
use std::alloc::Allocator;
use std::marker::{Model, PhantomData};
use std::sync::Wait;

/// One who calls a shared store, in any thread. Contracts see what it knows of the history.
#[derive(Drop)]
pub struct Client<A: Allocator, B: SessionName> {
    pub(crate) number: u32,
    pub(crate) pass: Pass<A>,
    name: PhantomData<B>,
}

impl<A: Allocator, B: SessionName> Model for Client<A, B> {
    ghost use Rattle.std.specs.Coded.{codes};
    ghost use Rattle.lsm_codec.specs.Map.{map_code};
    ghost use Rattle.lsm_trail.specs.Knowledge.{Known};

    ghost Value = { Known };

    ghost coded = { Prim.hlevel (codes, map_code) };

    ghost use Rattle.std.specs.Prelude.{◌≡◌};
    ghost use Rattle.lsm_trail.specs.Knowledge.{IsClientPass, known_of};

    ghost view = { λ c. known_of c.pass };

    ghost invariant = { λ c. IsClientPass B.id c.pass × ((known_of c.pass).number ≡ c.number) };
}

impl<A: Allocator, B: SessionName> Client<A, B> {
    pub(crate) fn new(number: u32, pass: Pass<A>) -> Client<A, B>
        requires { IsClientPass B.id pass × (known_of pass ≡ known B.id.begin number [] []) }
        ensures { result ≡ known B.id.begin number [] [] }
    {
        Client {
            number,
            pass,
            name: PhantomData,
        }
    }

    /// Its number.
    pub fn number(&self) -> u32
        ensures { result ≡ self.now.number }
    {
        self.number
    }

    /// The numbers of the history as it is at one moment of this call: its calls, the batches of the store after them, and how
    /// many of these are synced. The client has seen this history from then on.
    ///
    /// It takes no lock and no memory, and waits for nobody.
    pub fn watch<D: Device>(&mut self, shared: &Shared<D, A, B>) -> Numbers
        ensures sees { Sees self.old self.new }
        ensures told { result ≡ numbers self.new.begin self.new.seen }
    {
        shared.counters.watch(&mut self.pass)
    }

    /// What the client has seen, for another to hear: its own calls, and all before them.
    ///
    /// It takes no lock and no memory, and waits for nobody.
    pub fn tell<D: Device>(&mut self, shared: &Shared<D, A, B>) -> Seen<A, B>
        ensures same { self.new ≡ self.old }
        ensures told { result ≡ self.old.seen }
    {
        Seen::new(shared.counters.tell(&mut self.pass))
    }

    /// The client hears what another has seen. It has then seen the history as it is at one moment of this call, which begins with
    /// that. So all that it does from then on comes after what the other had seen.
    ///
    /// It takes no lock and no memory, and waits for nobody.
    pub fn hear<D: Device>(&mut self, shared: &Shared<D, A, B>, seen: Seen<A, B>)
        ensures sees { Sees self.old self.new }
        ensures heard { IsPrefix seen self.new.seen }
    {
        shared.counters.hear(&mut self.pass, seen.into_pass())
    }
}

impl<A: Allocator + Clone, B: SessionName> Client<A, B> {
    /// Makes a call of the store, in one hold of the lock. What the store refuses is a reply too.
    ///
    /// Fails with `TrailFull` where the trail has no place for another entry, and else with `NotYours` where it is
    /// to release the session's base, both before anything is done; and with `NoMemory`, where the state of the store is as
    /// it was. A call that is refused is not in the trail, and the client has then seen the history up to there.
    pub fn call<D: Device, R: Wait>(
        &mut self,
        rt: &R,
        shared: &Shared<D, A, B>,
        call: Call<A>,
    ) -> Result<Reply<A>, Refusal>
        ensures made { IfOk result
            (λ reply. MakesCall self.old (call_of call) (told_of reply) self.new) }
        ensures refused { IfErr result (λ e. IsNoCall self.old (call_of call) e self.new) }
    {
        shared.hold(rt).serve(&shared.counters, self, call)
    }

    /// Does the next piece of work on the jobs of the store, in one hold of the lock. The four slots of jobs are asked in turn,
    /// from that of the client's number on: a free one takes a job, if one comes next, and for a held one the next data blocks
    /// are read, the input is handed out to be built, the next blocks of outputs are written, or these are installed. An install
    /// for which the levels have no room is entered, and the next slot is asked. With nothing to do, and where the store is
    /// stopped, the client is idle, which is no entry.
    ///
    /// Nothing is merged here: whoever is handed an input builds the result with no lock in hand, and brings it.
    ///
    /// Fails with `TrailFull` where the trail has no place for the next entry, and with `NoMemory`. What was entered
    /// before stands.
    pub fn turn<D: Device, R: Wait>(
        &mut self,
        rt: &R,
        shared: &Shared<D, A, B>,
    ) -> Result<Turn<A>, Refusal>
        ensures taken { MatchResult result (λ turn. TakesTurn self.old turn self.new)
            (λ e. IsNoTurn self.old e self.new) }
        // What was built of the input may be brought, then and later.
        ensures lent { IfOk result (λ turn. HasLent turn self.new) }
    {
        shared.hold(rt).piece(&shared.counters, self)
    }

    /// Does the next piece of work as [`turn`](Client::turn) does, but only at the slots that are due, and a flush comes before merges: a
    /// free slot takes a flush if one waits that no slot holds, and never a merge, or the slot that holds a flush is asked; and then
    /// those that hold merges, from that of the client's number on. So a flush waits for one piece of a merge at most, or for its
    /// build, and a client that takes such turns chooses itself which merges begin ([`take_next`](Client::take_next)).
    ///
    /// Fails as a turn does, and what was entered before stands.
    pub fn turn_due<D: Device, R: Wait>(
        &mut self,
        rt: &R,
        shared: &Shared<D, A, B>,
    ) -> Result<Turn<A>, Refusal>
        ensures taken { MatchResult result (λ turn. TakesDue self.old turn self.new)
            (λ e. IsNotDue self.old e self.new) }
        // What was built of the input may be brought, then and later.
        ensures lent { IfOk result (λ turn. HasLent turn self.new) }
    {
        shared.hold(rt).piece_due(&shared.counters, self)
    }

    /// Takes the job of a choice, in one hold of the lock: neighbouring tables of a level from 1 to 3, or a number of the oldest
    /// runs of level 0, with the tables of the next level that meet their hull; or neighbouring tables of a level from 1 to 4, which
    /// are written anew in their own place. `None` where the store has no such job to give, which is no entry. What the store
    /// refuses is a reply too. Turns of whatever clients do the rest of the job.
    ///
    /// Fails with `TrailFull` where there is something to enter and the trail has no place for it, and with `NoMemory`.
    pub fn take<D: Device, R: Wait>(
        &mut self,
        rt: &R,
        shared: &Shared<D, A, B>,
        choice: Choice,
    ) -> Result<Option<Reply<A>>, Refusal>
        ensures { MatchResult result
            (λ taken. TakesOf self.old choice (option_map told_of taken) self.new)
            (λ e. IsNotTaken self.old choice e self.new) }
    {
        shared.hold(rt).take(&shared.counters, self, choice)
    }

    /// Takes the merge that a policy advises, in one hold of the lock: none, which is no entry, where it advises nothing, where a flush
    /// is to be taken first, where a merge is held, and where the store is stopped. So slots are left for flushes. Turns of whatever
    /// clients do the rest of the merge, so a client that asks whenever nothing is due works by the policy.
    ///
    /// One merge at a time is enough: all pieces of merges are done in holds of the one lock, but the builds, which have threads of
    /// their own. A second one could take single tables alone, and each block that it takes in so is written more often.
    ///
    /// No clause says what a policy advises, nor that anything is taken: one that never took anything would meet this contract, and
    /// only tests exclude it.
    ///
    /// Fails with `TrailFull` where there is something to take and the trail has no place for another entry, and with
    /// `NoMemory`.
    pub fn take_next<D: Device, R: Wait>(
        &mut self,
        rt: &R,
        shared: &Shared<D, A, B>,
        policy: &Policy,
    ) -> Result<Option<Reply<A>>, Refusal>
        ensures { MatchResult result
            (λ taken. TakesNext self.old (option_map told_of taken) self.new)
            (λ e. IsNoNext self.old e self.new) }
    {
        shared.hold(rt).take_next(&shared.counters, self, policy)
    }

    /// Brings a result that was built of an input which a turn of this client handed out, in one hold of the lock. It is accepted
    /// only where the job still waits for it. Where there is no room for its tables the job is given up in the same hold.
    ///
    /// Fails with `TrailFull` where the trail has no place for the next entry, and with `NoMemory`. What was entered
    /// before stands.
    pub fn bring<D: Device, R: Wait>(
        &mut self,
        rt: &R,
        shared: &Shared<D, A, B>,
        job: u64,
        number: u64,
        built: &Built<A>,
    ) -> Result<Reply<A>, Refusal>
        requires { WasLent self.old.mine job number built.now.input }
        ensures { MatchResult result
            (λ reply. Brings self.old job number built.now (told_of reply) self.new)
            (λ e. IsNotBrought self.old job number built.now e self.new) }
    {
        shared
            .hold(rt)
            .accept(&shared.counters, self, job, number, built)
    }
}
