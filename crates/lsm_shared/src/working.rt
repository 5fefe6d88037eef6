// Pieces of work in a hold of the lock.
ghost use Rattle.std.specs.Prelude.{◌≡◌, ◌≢◌, ◌∷◌, ℕ, [], Some, None, false, is_some, option_map, IfSome, MatchBool, MatchResult};
ghost use Rattle.lsm_device.specs.declared.refusal.Refusal.TheVariants.{NoMemory};
ghost use Rattle.std.specs.Arc.{arc_value};
ghost use Rattle.lsm_merge.specs.Inputs.{kept_of};
ghost use Rattle.lsm_merge.specs.Divisions.{AreTablesAt};
ghost use Rattle.lsm_lives.specs.Calls.{told_of};
ghost use Rattle.lsm_store.specs.Backing.{machine_of};
ghost use Rattle.lsm_machine.specs.Calls.{Given, Handed, Refused};
ghost use Rattle.lsm_machine.specs.Pieces.{piece_at, is_put_off, places_from};
ghost use Rattle.lsm_machine.specs.Machine.{Worked};
ghost use Rattle.lsm_machine.specs.Work.{Take, Ask, Accept, Install};
ghost use Rattle.lsm_machine.specs.WorkRefusals.{job_given};
ghost use Rattle.lsm_machine.specs.WorkReplies.{work_decided};
ghost use Rattle.lsm_store.specs.Working.{Works};
ghost use Rattle.lsm_shared.specs.Due.{places_due, MayMerge};
ghost use Rattle.lsm_shared.specs.Holds.{IsPutBack, IsTakenOf, IsNotTakenOf, IsTakenNext, IsNotTakenNext, TakesAmong, StopsAmong, IsBroughtBy, StopsBringing};
ghost use Rattle.lsm_shared.specs.Pieces.{work_of};
ghost use Rattle.lsm_shared.specs.Sessions.{HasSeen, EntersStep};
ghost use Rattle.lsm_shared.specs.Turns.{Gives, MayChoose, WasLent, tells_full_levels, tells_no_space};

use crate::answer::answer_of;
use crate::client::Client;
use crate::due::{is_flush_due, places_due, places_from};
use crate::pieces::{OwnPiece, done};
use crate::session::Session;
use crate::turn::Turn;
use lsm_device::{Device, Refusal};
use lsm_levels::HeldJobs;
use lsm_lives::Reply;
use lsm_merge::{Built, Input};
use lsm_policy::Policy;
use lsm_store::{Choice, Piece, Store};
use lsm_trail::{Counters, SessionName, TrailEntry};
use std::alloc::Allocator;
use std::sync::Arc;

impl<D: Device, A: Allocator + Clone, B: SessionName> Session<D, A, B> {
    /// Takes a turn of the client, as [`Client::turn`] says. The client sees the history first.
    pub fn piece(
        &mut self,
        counters: &Counters<D, A, B>,
        me: &mut Client<A, B>,
    ) -> Result<Turn<A>, Refusal>
        ensures { MatchResult result
            (λ turn. TakesAmong B.id self.old me.old (places_from me.old.number) turn self.new
            me.new)
            (λ e. StopsAmong B.id self.old me.old (places_from me.old.number) e self.new me.new) }
    {
        self.show(counters, me);
        let places = places_from(me.number);
        self.turn_among(counters, me, &places)
    }

    /// Takes a turn of the client over the places that are due, as [`Client::turn_due`] says. The client sees the history first.
    pub fn piece_due(
        &mut self,
        counters: &Counters<D, A, B>,
        me: &mut Client<A, B>,
    ) -> Result<Turn<A>, Refusal>
        ensures { MatchResult result
            (λ turn. TakesAmong B.id self.old me.old
            (places_due (machine_of self.old.store) me.old.number) turn self.new me.new)
            (λ e. StopsAmong B.id self.old me.old
            (places_due (machine_of self.old.store) me.old.number) e self.new me.new) }
    {
        self.show(counters, me);
        let due = places_due(&self.store, me.number);
        self.turn_among(counters, me, &due)
    }

    /// Takes the job of a choice, as [`Client::take`] says. The client sees the history first.
    pub fn take(
        &mut self,
        counters: &Counters<D, A, B>,
        me: &mut Client<A, B>,
        choice: Choice,
    ) -> Result<Option<Reply<A>>, Refusal>
        ensures { MatchResult result
            (λ taken. IsTakenOf B.id self.old me.old choice (option_map told_of taken) self.new
            me.new)
            (λ e. IsNotTakenOf B.id self.old me.old choice e self.new me.new) }
    {
        self.show(counters, me);
        if gives_none(&self.store, choice) {
            return Ok(None);
        }
        let reply = self.work(counters, me, OwnPiece::TakeOf(choice))?;
        Ok(Some(reply))
    }

    /// Takes the job that a policy advises, as [`Client::take_next`] says. The client sees the history first.
    pub fn take_next(
        &mut self,
        counters: &Counters<D, A, B>,
        me: &mut Client<A, B>,
        policy: &Policy,
    ) -> Result<Option<Reply<A>>, Refusal>
        ensures { MatchResult result
            (λ taken. IsTakenNext B.id self.old me.old (option_map told_of taken) self.new me.new)
            (λ e. IsNotTakenNext B.id self.old me.old e self.new me.new) }
    {
        self.show(counters, me);
        let Some(choice) = advised(&self.store, policy) else {
            return Ok(None);
        };
        let reply = self.work(counters, me, OwnPiece::TakeOf(choice))?;
        Ok(Some(reply))
    }

    // Takes a turn over the slots at these places, in this order.
    fn turn_among(
        &mut self,
        counters: &Counters<D, A, B>,
        me: &mut Client<A, B>,
        places: &[usize],
    ) -> Result<Turn<A>, Refusal>
        requires { HasSeen B.id self.old me.old }
        ensures { MatchResult result
            (λ turn. TakesAmong B.id self.old me.old places.now turn self.new me.new)
            (λ e. StopsAmong B.id self.old me.old places.now e self.new me.new) }
    {
        let [place, rest @ ..] = places else {
            return Ok(Turn::Idle);
        };
        match self.turn_at(counters, me, *place)? {
            Turn::Idle => self.turn_among(counters, me, rest),
            turn => Ok(turn),
        }
    }

    // Takes a turn over the slot at one place: an install that is put off is passed over.
    fn turn_at(
        &mut self,
        counters: &Counters<D, A, B>,
        me: &mut Client<A, B>,
        place: usize,
    ) -> Result<Turn<A>, Refusal>
        requires { HasSeen B.id self.old me.old }
        ensures { MatchResult result
            (λ turn. TakesAmong B.id self.old me.old (place ∷ []) turn self.new me.new)
            (λ e. StopsAmong B.id self.old me.old (place ∷ []) e self.new me.new) }
    {
        match self.store.piece_at(place) {
            None => Ok(Turn::Idle),
            Some(Piece::Take) => self.did(counters, me, OwnPiece::Take),
            Some(Piece::Read(job)) => self.did(counters, me, OwnPiece::Read(job)),
            Some(Piece::Build(job)) => self.hand_out(counters, me, job),
            Some(Piece::Write(job)) => self.did(counters, me, OwnPiece::Write(job)),
            Some(Piece::Install(job)) => self.install(counters, me, job),
        }
    }

    // Does the piece of work that a slot waits for, which is no install.
    fn did(
        &mut self,
        counters: &Counters<D, A, B>,
        me: &mut Client<A, B>,
        piece: OwnPiece,
    ) -> Result<Turn<A>, Refusal>
        requires seen { HasSeen B.id self.old me.old }
        requires gives { Gives (machine_of self.old.store) (work_of piece) }
        ensures { (place : ℕ) → piece_at (machine_of self.old.store) place ≡ Some (work_of piece)
            → is_put_off (machine_of self.old.store) (work_of piece) ≡ false → MatchResult result
            (λ turn. TakesAmong B.id self.old me.old (place ∷ []) turn self.new me.new)
            (λ e. StopsAmong B.id self.old me.old (place ∷ []) e self.new me.new) }
    {
        let reply = self.work(counters, me, piece)?;
        Ok(Turn::Did(reply))
    }

    // Installs the outputs of a job for which a slot waits, unless that is put off.
    fn install(
        &mut self,
        counters: &Counters<D, A, B>,
        me: &mut Client<A, B>,
        job: u64,
    ) -> Result<Turn<A>, Refusal>
        requires { HasSeen B.id self.old me.old }
        ensures { (place : ℕ) → piece_at (machine_of self.old.store) place ≡ Some (Install job)
            → MatchResult result
            (λ turn. TakesAmong B.id self.old me.old (place ∷ []) turn self.new me.new)
            (λ e. StopsAmong B.id self.old me.old (place ∷ []) e self.new me.new) }
    {
        let reply = self.work(counters, me, OwnPiece::Install(job))?;
        if is_put_off(&reply) {
            return Ok(Turn::Idle);
        }
        Ok(Turn::Did(reply))
    }

    // Hands out the input of a job for which a slot waits to be built.
    fn hand_out(
        &mut self,
        counters: &Counters<D, A, B>,
        me: &mut Client<A, B>,
        job: u64,
    ) -> Result<Turn<A>, Refusal>
        requires { HasSeen B.id self.old me.old }
        ensures { (place : ℕ) → piece_at (machine_of self.old.store) place ≡ Some (Ask job)
            → MatchResult result
            (λ turn. TakesAmong B.id self.old me.old (place ∷ []) turn self.new me.new)
            (λ e. StopsAmong B.id self.old me.old (place ∷ []) e self.new me.new) }
    {
        match self.store.job_input(job) {
            Ok(input) => self.lend(counters, me, job, input),
            Err(refusal) => self.refuse_build(counters, me, job, refusal),
        }
    }

    // Enters a build to which this input was lent.
    fn lend(
        &mut self,
        counters: &Counters<D, A, B>,
        me: &mut Client<A, B>,
        job: u64,
        input: Arc<Input<A>, A>,
    ) -> Result<Turn<A>, Refusal>
        requires seen { HasSeen B.id self.old me.old }
        requires lent { Works self.old.store (Ask job) (Handed (arc_value input)) self.old.store }
        ensures { (place : ℕ) → piece_at (machine_of self.old.store) place ≡ Some (Ask job)
            → MatchResult result
            (λ turn. TakesAmong B.id self.old me.old (place ∷ []) turn self.new me.new)
            (λ e. StopsAmong B.id self.old me.old (place ∷ []) e self.new me.new) }
    {
        if self.history.is_full() {
            return Err(Refusal::TrailFull);
        }
        let result = self.history.next_result();
        let entry = TrailEntry::of_build(me.number, job, result, &input, &self.store);
        self.history.enter(counters, me, entry, &self.store);
        Ok(Turn::Merge { job, result, input })
    }

    // Enters a build to which no input was lent.
    fn refuse_build(
        &mut self,
        counters: &Counters<D, A, B>,
        me: &mut Client<A, B>,
        job: u64,
        refusal: Refusal,
    ) -> Result<Turn<A>, Refusal>
        requires seen { HasSeen B.id self.old me.old }
        requires refused { Works self.old.store (Ask job) (Refused refusal) self.old.store }
        ensures { (place : ℕ) → piece_at (machine_of self.old.store) place ≡ Some (Ask job)
            → MatchResult result
            (λ turn. TakesAmong B.id self.old me.old (place ∷ []) turn self.new me.new)
            (λ e. StopsAmong B.id self.old me.old (place ∷ []) e self.new me.new) }
    {
        if self.history.is_full() {
            return Err(Refusal::TrailFull);
        }
        if is_short(refusal) {
            return Err(Refusal::NoMemory);
        }
        let entry = TrailEntry::of_refused_build(me.number, job, refusal, &self.store);
        self.history.enter(counters, me, entry, &self.store);
        Ok(Turn::Did(Reply::Refused(refusal)))
    }

    // The store does a piece of work by itself, which is entered.
    fn work(
        &mut self,
        counters: &Counters<D, A, B>,
        me: &mut Client<A, B>,
        piece: OwnPiece,
    ) -> Result<Reply<A>, Refusal>
        requires seen { HasSeen B.id self.old me.old }
        requires gives { Gives (machine_of self.old.store) (work_of piece) }
        ensures { MatchResult result
            (λ reply. EntersStep B.id self.old me.old (Worked (work_of piece)) 0
            (told_of reply) self.new me.new)
            (λ e. IsPutBack B.id self.old me.old (work_of piece) e self.new me.new) }
    {
        if self.history.is_full() {
            return Err(Refusal::TrailFull);
        }
        let reply = piece.make(&mut self.store);
        let answer = answer_of(&reply)?;
        let entry = TrailEntry::of_work(me.number, piece.work(), reply, &self.store);
        self.history.enter(counters, me, entry, &self.store);
        Ok(answer)
    }

    /// Accepts a result that the client brings, as [`Client::bring`] says. The client sees the history first.
    pub fn accept(
        &mut self,
        counters: &Counters<D, A, B>,
        me: &mut Client<A, B>,
        job: u64,
        number: u64,
        built: &Built<A>,
    ) -> Result<Reply<A>, Refusal>
        requires { WasLent me.old.mine job number built.now.input }
        ensures { MatchResult result
            (λ reply. IsBroughtBy B.id self.old me.old job number built.now
            (told_of reply) self.new me.new)
            (λ e. StopsBringing B.id self.old me.old job number built.now e self.new me.new) }
    {
        self.show(counters, me);
        let reply = self.accept_one(counters, me, job, number, built)?;
        if is_without_room(&reply) {
            self.work(counters, me, OwnPiece::Drop(job))?;
            return Ok(reply);
        }
        Ok(reply)
    }

    // Accepts a result, and enters that.
    fn accept_one(
        &mut self,
        counters: &Counters<D, A, B>,
        me: &mut Client<A, B>,
        job: u64,
        number: u64,
        built: &Built<A>,
    ) -> Result<Reply<A>, Refusal>
        requires seen { HasSeen B.id self.old me.old }
        requires lent { WasLent me.old.mine job number built.now.input }
        ensures { MatchResult result
            (λ reply. EntersStep B.id self.old me.old (Worked (Accept job (Some built.now))) number
            (told_of reply) self.new me.new)
            (λ e. IsPutBack B.id self.old me.old (Accept job (Some built.now)) e self.new me.new) }
    {
        if self.history.is_full() {
            return Err(Refusal::TrailFull);
        }
        are_tables(built);
        let reply = done(self.store.job_accept(job, built));
        let answer = answer_of(&reply)?;
        let entry = TrailEntry::of_accept(me.number, job, number, built, reply, &self.store);
        self.history.enter(counters, me, entry, &self.store);
        Ok(answer)
    }
}

// What a policy advises to take: nothing where the store is stopped, a flush is to be taken first, or a merge is held. So slots are
// left for flushes.
fn advised<D: Device, A: Allocator>(store: &Store<D, A>, policy: &Policy) -> Option<Choice>
    ensures { IfSome result (λ choice. MayMerge (machine_of store.now)
        × MayChoose (machine_of store.now) choice
        × Gives (machine_of store.now) (Take (Some choice))) }
{
    let Ok(stat) = store.stat() else {
        return None;
    };
    if is_flush_due(store) {
        return None;
    }
    let jobs = store.jobs();
    if jobs.has_merge() {
        return None;
    }
    let Some(choice) = policy.next_choice(store.levels(), stat.free_blocks, jobs) else {
        return None;
    };
    if gives_none(store, choice) {
        return None;
    }
    Some(choice)
}

// Whether a store, asked for the job of a choice, says that there is none. A stopped one refuses that.
fn gives_none<D: Device, A: Allocator>(store: &Store<D, A>, choice: Choice) -> bool
    ensures { MatchBool result
        (work_decided (machine_of store.now) (Take (Some choice)) ≡ Given None)
        (Gives (machine_of store.now) (Take (Some choice))) }
{
    if store.stat().is_err() {
        return false;
    }
    !has_job(store, choice)
}

// Whether there is a job of a choice, and a free slot for it.
fn has_job<D: Device, A: Allocator>(store: &Store<D, A>, choice: Choice) -> bool
    ensures { result ≡ is_some (job_given (machine_of store.now) (Some choice)) }
{
    // Whether a flush waits makes no difference to a choice.
    match store.jobs().has_next(store.levels(), Some(choice), false) {
        Ok(given) => given,
        Err(_exhausted) => true,
    }
}

// Whether a refusal tells of want of memory.
fn is_short(refusal: Refusal) -> bool
    ensures { MatchBool result (refusal ≡ NoMemory) (refusal ≢ NoMemory) }
{
    matches!(refusal, Refusal::NoMemory)
}

// Whether a reply tells that an install is put off: the levels have no room for now.
fn is_put_off<A: Allocator>(reply: &Reply<A>) -> bool
    ensures { result ≡ tells_full_levels (told_of reply.now) }
{
    matches!(
        reply,
        Reply::Refused(Refusal::TooManyRuns | Refusal::TooManyTables)
    )
}

// Whether a reply tells that there is no room for a result.
fn is_without_room<A: Allocator>(reply: &Reply<A>) -> bool
    ensures { result ≡ tells_no_space (told_of reply.now) }
{
    matches!(reply, Reply::Refused(Refusal::NoSpace))
}

// What was built are the tables that a merge makes of its input, divided at its keys.
fn are_tables<A: Allocator>(built: &Built<A>)
    ensures { AreTablesAt built.now.divisions (kept_of built.now.input) built.now.images }
{
    let _images = built.images();
}
