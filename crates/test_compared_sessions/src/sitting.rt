//! A session over a store, led deed by deed and compared with its judge.

ghost use Rattle.std.specs.Prelude.{◌≡◌};
ghost use Rattle.std.specs.Arc.{arc_value};
ghost use Rattle.lsm_shared.specs.Turns.{WasLent};

use crate::deeds::{Deed, Late, Sitting};
use crate::judge::{Heard, Judge, Then};
use crate::session::{Session, Turned, prepared};
use lsm_device::{MemDevice, Refusal};
use lsm_merge::Input;
use lsm_shared::{Client, Turn};
use lsm_trail::{Opened, SessionName};
use std::alloc::Allocator;
use std::marker::Brand;
use std::sync::{Arc, Wait};
use std::thread::Threads;
use test_compared_steps::asking::told_work;
use test_compared_steps::lists::step_of;
use test_compared_steps::plain::Answer;
use test_compared_steps::playing::is_unchanged;
use test_compared_steps::subject::Subject;
use test_compared_steps::trouble::Trouble;

/// A store in a session, or one whose session has not begun for want of memory.
struct Led<A: Allocator, B: Allocator> {
    subject: Subject<A, B>,
    is_begun: bool,
}

// One call at each exit, in the place of all that a store is made of.
impl<A: Allocator, B: Allocator> Drop for Led<A, B> {
    fn drop(self) {
        let Led {
            subject: _,
            is_begun: _,
        } = self;
    }
}

impl<A: Allocator, B: Allocator> Led<A, B> {
    fn into_subject(self) -> Subject<A, B> {
        let Led {
            subject,
            is_begun: _,
        } = self;
        subject
    }
}

/// Lets a client do something, and hears what comes of it.
fn hear<N: SessionName, R: Threads + Wait + Sync, A: Allocator + Copy + Send + Sync, B: Allocator>(
    rt: &R,
    session: &mut Session<N, A, B>,
    judge: &mut Judge<'_>,
    deed: Deed,
) -> Result<Heard, Trouble> {
    judge.go_on();
    match deed {
        Deed::Call(client, line) => match step_of(line) {
            Some(step) => judge.hear(client, step, session.answer(rt, client, step)),
            None => Ok(Heard::Same),
        },
        Deed::Take(client, choice) => {
            judge.hear_taken(client, choice, session.take(rt, client, choice))
        }
        Deed::Turn(client) => judge.hear_turn(client, session.turn(rt, client)),
    }
}

/// The same, and the numbers that the client reads then are the machine's.
fn hear_and_watch<
    N: SessionName,
    R: Threads + Wait + Sync,
    A: Allocator + Copy + Send + Sync,
    B: Allocator,
>(
    rt: &R,
    session: &mut Session<N, A, B>,
    judge: &mut Judge<'_>,
    deed: Deed,
) -> Result<Heard, Trouble> {
    let heard = hear(rt, session, judge, deed)?;
    let client = match deed {
        Deed::Call(client, _) => client,
        Deed::Take(client, _) => client,
        Deed::Turn(client) => client,
    };
    judge.has_numbers(session.numbers(client))?;
    Ok(heard)
}

/// After a deed that met the harm and changed nothing: it is done again, and is answered, or not. Returns whether the session
/// goes on.
fn do_again<
    N: SessionName,
    R: Threads + Wait + Sync,
    A: Allocator + Copy + Send + Sync,
    B: Allocator,
>(
    rt: &R,
    session: &mut Session<N, A, B>,
    judge: &mut Judge<'_>,
    deed: Deed,
) -> Result<bool, Trouble> {
    match judge.harm.then {
        Then::End => Ok(false),
        Then::Next => Ok(true),
        Then::Again => {
            let heard = hear_and_watch(rt, session, judge, deed)?;
            if heard == Heard::Same {
                return Ok(true);
            }
            Err(Trouble::Calls { step: None })
        }
    }
}

/// Lets a client do something, whatever harm it meets. Returns whether the session goes on.
fn do_one<
    N: SessionName,
    R: Threads + Wait + Sync,
    A: Allocator + Copy + Send + Sync,
    B: Allocator,
>(
    rt: &R,
    session: &mut Session<N, A, B>,
    judge: &mut Judge<'_>,
    deed: Deed,
) -> Result<bool, Trouble> {
    let heard = hear_and_watch(rt, session, judge, deed)?;
    go_on(rt, session, judge, deed, heard)
}

/// After a deed of which this was heard. Returns whether the session goes on.
fn go_on<N: SessionName, R: Threads + Wait + Sync, A: Allocator + Copy + Send + Sync, B: Allocator>(
    rt: &R,
    session: &mut Session<N, A, B>,
    judge: &mut Judge<'_>,
    deed: Deed,
    heard: Heard,
) -> Result<bool, Trouble> {
    match heard {
        Heard::Same => Ok(true),
        Heard::Stopped => Ok(judge.harm.then != Then::End),
        Heard::Failed | Heard::Unmade => do_again(rt, session, judge, deed),
    }
}

fn do_all<
    N: SessionName,
    R: Threads + Wait + Sync,
    A: Allocator + Copy + Send + Sync,
    B: Allocator,
>(
    rt: &R,
    session: &mut Session<N, A, B>,
    judge: &mut Judge<'_>,
    deeds: &[Deed],
) -> Result<bool, Trouble> {
    for deed in deeds {
        if !do_one(rt, session, judge, *deed)? {
            return Ok(false);
        }
    }
    Ok(true)
}

/// A client that has left builds what it was handed out and brings the result, once others have done something. It tells what is heard
/// of that, where the session goes on.
fn bring_late<
    N: SessionName,
    R: Threads + Wait + Sync,
    A: Allocator + Copy + Send + Sync,
    B: Allocator,
>(
    rt: &R,
    session: &mut Session<N, A, B>,
    judge: &mut Judge<'_>,
    me: &mut Client<A, N>,
    lent: (u64, u64, Arc<Input<A>, A>),
    meanwhile: &[Deed],
) -> Result<Option<Heard>, Trouble>
    requires { WasLent me.old.mine lent.0 lent.1 (arc_value lent.2) }
{
    let number = me.number();
    let tables = judge.hear_lent(number, (lent.0, lent.1))?;
    if !do_all(rt, session, judge, meanwhile)? {
        return Ok(None);
    }
    judge.go_on();
    let brought = session.bring(rt, me, lent);
    Ok(Some(judge.hear_late(number, brought, tables)?))
}

/// The last client leaves, and takes a turn. It tells what is heard of that, where the session goes on.
fn turn_late<
    N: SessionName,
    R: Threads + Wait + Sync,
    A: Allocator + Copy + Send + Sync,
    B: Allocator,
>(
    rt: &R,
    session: &mut Session<N, A, B>,
    judge: &mut Judge<'_>,
    me: &mut Client<A, N>,
    meanwhile: &[Deed],
) -> Result<Option<Heard>, Trouble> {
    judge.go_on();
    let number = me.number();
    match session.turn_of(rt, me) {
        Ok(Turn::Merge { job, result, input }) => {
            bring_late(rt, session, judge, me, (job, result, input), meanwhile)
        }
        Ok(Turn::Did(reply)) => {
            Ok(Some(judge.hear_turn(number, Turned::Did(told_work(&reply)))?))
        }
        Ok(Turn::Idle) => Ok(Some(judge.hear_turn(number, Turned::Idle)?)),
        Err(refusal) => {
            let refused = Turned::Did(Answer::Refused(refusal));
            Ok(Some(judge.hear_turn(number, refused)?))
        }
    }
}

/// A result comes late, and the clients do what comes after it.
fn do_late<
    N: SessionName,
    R: Threads + Wait + Sync,
    A: Allocator + Copy + Send + Sync,
    B: Allocator,
>(
    rt: &R,
    session: &mut Session<N, A, B>,
    judge: &mut Judge<'_>,
    late: Late,
) -> Result<(), Trouble> {
    let Some(last) = session.leave() else {
        return Ok(());
    };
    let mut me = last;
    let number = me.number();
    let heard = turn_late(rt, session, judge, &mut me, late.meanwhile)?;
    session.join(me)?;
    let Some(heard) = heard else {
        return Ok(());
    };
    judge.has_numbers(session.numbers(number))?;
    if go_on(rt, session, judge, Deed::Turn(number), heard)? {
        let _is_whole = do_all(rt, session, judge, late.behind)?;
    }
    Ok(())
}

/// Lets the clients of a session do their deeds, and ends it.
fn sit<N: SessionName, R: Threads + Wait + Sync, A: Allocator + Copy + Send + Sync, B: Allocator>(
    rt: &R,
    session: Session<N, A, B>,
    judge: &mut Judge<'_>,
    sitting: &Sitting,
) -> Result<Subject<A, B>, Trouble> {
    let mut session = session;
    judge.pin(session.base())?;
    if do_all(rt, &mut session, judge, sitting.deeds)? {
        if let Some(late) = sitting.late {
            do_late(rt, &mut session, judge, late)?;
        }
    }
    let left = session.end()?;
    judge.unpin(&left.trail)?;
    Ok(left.into_subject())
}

/// Begins the session that was prepared, where there is memory, and lets its clients do their deeds.
fn begin<N: SessionName, R: Threads + Wait + Sync, A: Allocator + Copy + Send + Sync, B: Allocator>(
    rt: &R,
    alloc: A,
    opened: Opened<MemDevice<B>, A>,
    judge: &mut Judge<'_>,
    sitting: &Sitting,
) -> Result<Led<A, B>, Trouble>
    requires { opened ≡ N.id }
{
    match Session::<N, A, B>::begin(alloc, opened) {
        Ok(session) => Ok(Led {
            subject: sit(rt, session, judge, sitting)?,
            is_begun: true,
        }),
        Err((refusal, subject)) => unbegun(refusal, subject),
    }
}

/// A session has not begun: for want of memory, and for nothing else.
fn unbegun<A: Allocator, B: Allocator>(
    refusal: Refusal,
    subject: Subject<A, B>,
) -> Result<Led<A, B>, Trouble> {
    match refusal {
        Refusal::NoMemory => Ok(Led {
            subject,
            is_begun: false,
        }),
        _ => Err(Trouble::Refusal(refusal)),
    }
}

/// Prepares a session, begins it, and lets its clients do their deeds, where there is memory.
fn try_to_lead<R: Threads + Wait + Sync, A: Allocator + Copy + Send + Sync, B: Allocator>(
    rt: &R,
    alloc: A,
    subject: Subject<A, B>,
    judge: &mut Judge<'_>,
    sitting: &Sitting,
) -> Result<Led<A, B>, Trouble> {
    match prepared(subject, sitting.sizes) {
        Ok(opened) => begin::<Brand, R, A, B>(rt, alloc, opened, judge, sitting),
        Err((refusal, subject)) => unbegun(refusal, subject),
    }
}

/// Leads a session over a store. Where it is not prepared or doesn't begin for want of memory, nothing has changed, and it is led
/// then. It gives back the store.
pub fn lead<R: Threads + Wait + Sync, A: Allocator + Copy + Send + Sync, B: Allocator>(
    rt: &R,
    alloc: A,
    subject: Subject<A, B>,
    judge: &mut Judge<'_>,
    sitting: &Sitting,
) -> Result<Subject<A, B>, Trouble> {
    let led = try_to_lead(rt, alloc, subject, judge, sitting)?;
    if led.is_begun {
        return Ok(led.into_subject());
    }
    judge.miss()?;
    judge.go_on();
    let mut subject = led.into_subject();
    is_unchanged(&mut subject, &mut judge.machine)?;
    let led = try_to_lead(rt, alloc, subject, judge, sitting)?;
    if led.is_begun {
        return Ok(led.into_subject());
    }
    Err(Trouble::Refusal(Refusal::NoMemory))
}
