//! A session of a store, whose calls tell the prover nothing.

ghost use Rattle.std.specs.Prelude.{◌≡◌, IfOk};
ghost use Rattle.std.specs.Arc.{arc_value};
ghost use Rattle.lsm_shared.specs.Turns.{HasLent, WasLent};

use crate::deeds::Sizes;
use lsm_device::{MemDevice, Refusal};
use lsm_lives::Reply;
use lsm_merge::{Input, build};
use lsm_shared::{Client, Shared, Turn, prepare};
use lsm_store::Choice;
use lsm_trail::{Numbers, Opened, SessionName, Trail};
use std::alloc::Allocator;
use std::sync::{Arc, Wait};
use std::thread::Threads;
use test_compared_steps::asking::{call_of, told_call, told_work};
use test_compared_steps::plain::{Answer, PARTS, Step};
use test_compared_steps::subject::Subject;
use test_compared_steps::trouble::Trouble;

/// The numbers of a job and of a result of it, and what was answered to the build and to the bringing of that.
#[derive(Clone, Copy)]
pub(crate) struct Brought {
    pub(crate) job: u64,
    pub(crate) result: u64,
    pub(crate) built: Answer,
    pub(crate) accepted: Answer,
}

/// What a turn of a client came to.
#[derive(Clone, Copy)]
pub(crate) enum Turned {
    Idle,
    Did(Answer),
    /// An input was handed out, of which a result was built and brought.
    Merged(Brought),
}

/// What is left of a session.
pub(crate) struct Left<A: Allocator, B: Allocator> {
    pub(crate) subject: Subject<A, B>,
    pub(crate) trail: Trail<A>,
}

// One call at each exit, in the place of all that a store and a trail are made of.
impl<A: Allocator, B: Allocator> Drop for Left<A, B> {
    fn drop(self) {
        let Left {
            subject: _,
            trail: _,
        } = self;
    }
}

impl<A: Allocator, B: Allocator> Left<A, B> {
    /// The store.
    pub(crate) fn into_subject(self) -> Subject<A, B> {
        let Left { subject, trail: _ } = self;
        subject
    }
}

/// A session, with all its clients.
pub(crate) struct Session<N: SessionName, A: Allocator, B: Allocator> {
    alloc: A,
    shared: Shared<MemDevice<B>, A, N>,
    clients: Vec<Client<A, N>, A>,
}

// One call at each exit, in the place of all that a session is made of.
impl<N: SessionName, A: Allocator, B: Allocator> Drop for Session<N, A, B> {
    fn drop(self) {
        let Session {
            alloc: _,
            shared: _,
            clients: _,
        } = self;
    }
}

/// A session that is prepared, or why it isn't, and the store.
pub(crate) fn prepared<A: Allocator + Copy, B: Allocator>(
    subject: Subject<A, B>,
    sizes: Sizes,
) -> Result<Opened<MemDevice<B>, A>, (Refusal, Subject<A, B>)> {
    let (alloc, store) = subject.into_parts();
    match prepare(alloc, store, sizes.clients, sizes.places) {
        Ok(opened) => Ok(opened),
        Err((refusal, store)) => Err((refusal, Subject::of(alloc, store))),
    }
}

/// Builds a result of an input, and brings it. It tells what was answered to both.
fn bring<N: SessionName, R: Threads + Wait + Sync, A: Allocator + Copy + Send + Sync, B: Allocator>(
    rt: &R,
    alloc: A,
    shared: &Shared<MemDevice<B>, A, N>,
    me: &mut Client<A, N>,
    lent: (u64, u64, Arc<Input<A>, A>),
) -> Brought
    requires { WasLent me.old.mine lent.0 lent.1 (arc_value lent.2) }
{
    let (job, result, input) = lent;
    let (built, accepted) = match build(rt, alloc, input, PARTS) {
        Ok(built) => {
            let tables = Answer::Built(built.images().len());
            match me.bring(rt, shared, job, result, &built) {
                Ok(reply) => (tables, told_work(&reply)),
                Err(refusal) => (tables, Answer::Refused(refusal)),
            }
        }
        Err(refusal) => (Answer::Refused(refusal), Answer::NoResult),
    };
    Brought {
        job,
        result,
        built,
        accepted,
    }
}

/// A turn of a client.
fn take_turn<
    N: SessionName,
    R: Threads + Wait + Sync,
    A: Allocator + Copy + Send + Sync,
    B: Allocator,
>(rt: &R, alloc: A, shared: &Shared<MemDevice<B>, A, N>, me: &mut Client<A, N>) -> Turned {
    match me.turn(rt, shared) {
        Ok(Turn::Idle) => Turned::Idle,
        Ok(Turn::Did(reply)) => Turned::Did(told_work(&reply)),
        Ok(Turn::Merge { job, result, input }) => {
            Turned::Merged(bring(rt, alloc, shared, me, (job, result, input)))
        }
        Err(refusal) => Turned::Did(Answer::Refused(refusal)),
    }
}

impl<N: SessionName, A: Allocator + Copy, B: Allocator> Session<N, A, B> {
    /// Begins the session that was prepared, or tells why it doesn't, and gives the store back.
    pub(crate) fn begin(
        alloc: A,
        opened: Opened<MemDevice<B>, A>,
    ) -> Result<Session<N, A, B>, (Refusal, Subject<A, B>)>
        requires { opened ≡ N.id }
    {
        match Shared::<MemDevice<B>, A, N>::begin(alloc, opened) {
            Ok((shared, clients)) => Ok(Session {
                alloc,
                shared,
                clients,
            }),
            Err((refusal, store)) => Err((refusal, Subject::of(alloc, store))),
        }
    }

    /// The number of the snapshot that it pins.
    pub(crate) fn base(&self) -> u64 {
        self.shared.base()
    }

    fn call<R: Wait>(&mut self, rt: &R, client: u32, step: Step) -> Result<Reply<A>, Refusal> {
        let call = call_of(&self.alloc, step)?;
        match self.clients.get_mut(client as usize) {
            Some(me) => me.call(rt, &self.shared, call),
            None => Err(Refusal::TooManyClients),
        }
    }

    /// What a client is answered to a call.
    pub(crate) fn answer<R: Wait>(&mut self, rt: &R, client: u32, step: Step) -> Answer {
        match self.call(rt, client, step) {
            Ok(reply) => told_call(&reply),
            Err(refusal) => Answer::Refused(refusal),
        }
    }

    /// What a client is answered to the taking of a choice, none where there is no such job.
    pub(crate) fn take<R: Wait>(&mut self, rt: &R, client: u32, choice: Choice) -> Option<Answer> {
        let Some(me) = self.clients.get_mut(client as usize) else {
            return Some(Answer::Refused(Refusal::TooManyClients));
        };
        match me.take(rt, &self.shared, choice) {
            Ok(Some(reply)) => Some(told_work(&reply)),
            Ok(None) => None,
            Err(refusal) => Some(Answer::Refused(refusal)),
        }
    }

    /// The last client, which leaves the others alone for a while.
    pub(crate) fn leave(&mut self) -> Option<Client<A, N>> {
        self.clients.pop()
    }

    /// It comes back.
    pub(crate) fn join(&mut self, me: Client<A, N>) -> Result<(), Trouble> {
        self.clients.push(me)?;
        Ok(())
    }

    /// What a turn of it comes to, which builds nothing.
    pub(crate) fn turn_of<R: Wait>(&self, rt: &R, me: &mut Client<A, N>) -> Result<Turn<A>, Refusal>
        ensures { IfOk result (λ turn. HasLent turn me.new) }
    {
        me.turn(rt, &self.shared)
    }

    /// The numbers of the history, as a client reads them without the lock.
    pub(crate) fn numbers(&mut self, client: u32) -> Option<Numbers> {
        match self.clients.get_mut(client as usize) {
            Some(me) => Some(me.watch(&self.shared)),
            None => None,
        }
    }

    /// Ends the session.
    pub(crate) fn end(self) -> Result<Left<A, B>, Refusal> {
        let Session {
            alloc,
            shared,
            clients,
        } = self;
        match shared.finish(clients) {
            Ok((store, trail)) => Ok(Left {
                subject: Subject::of(alloc, store),
                trail,
            }),
            Err((refusal, _, _)) => Err(refusal),
        }
    }
}

impl<N: SessionName, A: Allocator + Copy + Send + Sync, B: Allocator> Session<N, A, B> {
    /// Builds a result of an input that a client which has left was handed out, and brings it.
    pub(crate) fn bring<R: Threads + Wait + Sync>(
        &self,
        rt: &R,
        me: &mut Client<A, N>,
        lent: (u64, u64, Arc<Input<A>, A>),
    ) -> Brought
        requires { WasLent me.old.mine lent.0 lent.1 (arc_value lent.2) }
    {
        bring(rt, self.alloc, &self.shared, me, lent)
    }

    /// A turn of a client. What it hands out is built and brought.
    pub(crate) fn turn<R: Threads + Wait + Sync>(&mut self, rt: &R, client: u32) -> Turned {
        match self.clients.get_mut(client as usize) {
            Some(me) => take_turn(rt, self.alloc, &self.shared, me),
            None => Turned::Did(Answer::Refused(Refusal::TooManyClients)),
        }
    }
}
