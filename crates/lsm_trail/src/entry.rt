// One step of a client in a history.
ghost use Rattle.std.specs.Prelude.{◌≡◌};
ghost use Rattle.lsm_lives.specs.Asked.{Own, Replied};
ghost use Rattle.lsm_lives.specs.Calls.{call_of, asked_of, asked_of_work, reply_of, told_of};
ghost use Rattle.lsm_store.specs.Backing.{machine_of};
ghost use Rattle.lsm_machine.specs.Calls.{Refused};
ghost use Rattle.lsm_machine.specs.Machine.{Worked};
ghost use Rattle.lsm_store.specs.Serving.{reply_in};
ghost use Rattle.lsm_machine.specs.Work.{Work as Piece, Ask};
ghost use Rattle.lsm_trail.specs.Entries.{is_build, is_number, MayBeEntered, IsOfStep, told_in};
ghost use Rattle.lsm_trail.specs.History.{called, worked, lent_to, accepted, is_call, is_lent};

use crate::beside::Beside;
use lsm_device::{Device, Refusal};
use lsm_lives::{Call, Reply, Step, Work};
use lsm_merge::{Built, Input};
use lsm_store::Store;
use std::alloc::{Allocator, Global};
use std::marker::Model;

/// In how many parts a result is to be built.
const PARTS: u64 = 4;

/// A step that a client made, a call or a piece of work, and its reply. Of a build the reply is the number that its result has,
/// or why no input was lent to it.
#[derive(Drop)]
pub struct TrailEntry<A: Allocator = Global> {
    client: u32,
    step: Step<A>,
    reply: Reply<A>,
    beside: Beside,
}

impl<A: Allocator> Model for TrailEntry<A> {
    ghost use Rattle.std.specs.Coded.{codes};
    ghost use Rattle.lsm_codec.specs.Map.{map_code};
    ghost use Rattle.lsm_lives.specs.Calls.{asked_of, reply_of, told_of};
    ghost use Rattle.lsm_trail.specs.Entries.{event_shown, MayBeEntered};
    ghost use Rattle.lsm_trail.specs.History.{Event};

    ghost Value = { Event };

    ghost coded = { Prim.hlevel (codes, map_code) };

    ghost view = { λ e. event_shown e.client (asked_of e.step) (reply_of e.reply) e.beside.shown };

    ghost invariant = { λ e. MayBeEntered (asked_of e.step) (told_of e.reply) };
}

impl<A: Allocator> TrailEntry<A> {
    /// The entry of a client's call, after which the store is so.
    pub fn of_call<D: Device>(
        client: u32,
        call: Call<A>,
        reply: Reply<A>,
        store: &Store<D, A>,
    ) -> TrailEntry<A>
        requires { told_of reply ≡ Replied (reply_of reply) }
        ensures { result ≡ called client (call_of call)
            (reply_in (call_of call) store.now.state (reply_of reply)) (machine_of store.now) }
    {
        TrailEntry {
            client,
            step: Step::Call(call),
            reply,
            beside: Beside::by_store(store),
        }
    }

    /// The entry of a piece of work that a client did and that the store does by itself, after which the store is so.
    pub fn of_work<D: Device>(
        client: u32,
        work: Work,
        reply: Reply<A>,
        store: &Store<D, A>,
    ) -> TrailEntry<A>
        requires { MayBeEntered (asked_of_work work) (told_of reply) }
        ensures { (piece : Piece) → asked_of_work work ≡ Own (Worked piece)
            → result ≡ worked client piece (reply_of reply) (machine_of store.now) }
    {
        TrailEntry {
            client,
            step: Step::Work(work),
            reply,
            beside: Beside::by_store(store),
        }
    }

    /// The entry of a build, to which a job's input was lent: its result has this number.
    pub fn of_build<D: Device>(
        client: u32,
        job: u64,
        number: u64,
        input: &Input<A>,
        store: &Store<D, A>,
    ) -> TrailEntry<A>
        ensures { result ≡ lent_to client job input.now number (machine_of store.now) }
    {
        TrailEntry {
            client,
            step: Step::Work(Work::Build { job, parts: PARTS }),
            reply: Reply::Number(number),
            beside: Beside::by_input(store, input),
        }
    }

    /// The entry of a build, to which no input was lent.
    pub fn of_refused_build<D: Device>(
        client: u32,
        job: u64,
        refusal: Refusal,
        store: &Store<D, A>,
    ) -> TrailEntry<A>
        ensures { result ≡ worked client (Ask job) (Refused refusal) (machine_of store.now) }
    {
        TrailEntry {
            client,
            step: Step::Work(Work::Build { job, parts: PARTS }),
            reply: Reply::Refused(refusal),
            beside: Beside::by_store(store),
        }
    }

    /// The entry of an accept, which takes the result of this number.
    pub fn of_accept<D: Device>(
        client: u32,
        job: u64,
        number: u64,
        built: &Built<A>,
        reply: Reply<A>,
        store: &Store<D, A>,
    ) -> TrailEntry<A>
        requires { told_of reply ≡ Replied (reply_of reply) }
        ensures { result ≡ accepted client job number built.now (reply_of reply)
            (machine_of store.now) }
    {
        TrailEntry {
            client,
            step: Step::Work(Work::Accept {
                job,
                result: number,
            }),
            reply,
            beside: Beside::by_result(store, built),
        }
    }

    /// The number of the client.
    pub fn client(&self) -> u32
        ensures { result ≡ self.now.client }
    {
        self.client
    }

    /// What the client asked for.
    pub fn step(&self) -> &Step<A>
        ensures { IsOfStep self.now (asked_of result.now) }
    {
        &self.step
    }

    /// Whether it is a call.
    pub fn is_call(&self) -> bool
        ensures { result ≡ is_call self.now.step }
    {
        matches!(self.step, Step::Call(_))
    }

    /// Whether it is a build that was lent an input.
    pub fn is_lent(&self) -> bool
        ensures { result ≡ is_lent self.now.reply }
    {
        is_build(&self.step) && is_number(&self.reply)
    }

    /// What it was told.
    pub fn reply(&self) -> &Reply<A>
        ensures { told_of result.now ≡ told_in self.now.reply self.now.result }
    {
        &self.reply
    }
}

// Whether a result is to be built.
fn is_build<A: Allocator>(step: &Step<A>) -> bool
    ensures { result ≡ is_build (asked_of step.now) }
{
    matches!(step, Step::Work(Work::Build { .. }))
}

// Whether a number was told.
fn is_number<A: Allocator>(reply: &Reply<A>) -> bool
    ensures { result ≡ is_number (told_of reply.now) }
{
    matches!(reply, Reply::Number(_))
}
