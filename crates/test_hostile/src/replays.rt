//! Replays of which a growth is refused, each in turn.

use crate::attacked::{Attacked, List, prepare};
use crate::sweeps::Extent;
use crate::tally::Tally;
use lsm_device::Refusal;
use lsm_lives::{Reply, Step as Asked};
use std::alloc::{Allocator, Global};
use std::thread::Threads;
use test_compared_steps::asking::{asked_all, told_step, undivided};
use test_compared_steps::disk::mask_of;
use test_compared_steps::plain::{Answer, Machine, Step};
use test_compared_steps::playing::{crash, is_left, is_unchanged};
use test_compared_steps::subject::Subject;
use test_compared_steps::trouble::{Trouble, agree, unrefused};
use test_merge::budget::Budget;

/// More growths than any replay has.
const MOST: u64 = 100_000;

fn is_build(step: Step) -> bool {
    matches!(step, Step::Build(_, _))
}

/// How far a replay is heard: whether a reply told of want of memory, how many builds were asked for, and how many have a result.
#[derive(Clone, Copy)]
struct Heard {
    is_met: bool,
    builds: u64,
    results: u64,
}

/// What is to be replied to a step: an accept after a build without a result finds none.
fn due(machine: &mut Machine, heard: Heard, step: Step) -> Answer {
    match step {
        Step::Accept(job) if heard.builds != heard.results => machine.foreign(job),
        _ => machine.answer(step),
    }
}

/// Hears what is replied to a step: what the machine says, or once that there is no memory, or that the device has none.
fn hear(
    machine: &mut Machine,
    heard: &mut Heard,
    step: Step,
    found: Answer,
    is_short: bool,
) -> Result<(), Trouble> {
    if is_build(step) {
        heard.builds = heard.builds.wrapping_add(1);
    }
    let is_harm = match found {
        Answer::Refused(Refusal::NoMemory) => true,
        Answer::Refused(Refusal::Io) => !step.is_read(),
        _ => false,
    };
    if !is_harm {
        if matches!(found, Answer::Built(_)) {
            heard.results = heard.results.wrapping_add(1);
        }
        return agree(step, found, due(machine, *heard, step));
    }
    if heard.is_met || !is_short {
        return Err(Trouble::Unasked { step });
    }
    heard.is_met = true;
    if found == Answer::Refused(Refusal::Io) {
        return unrefused(step, machine.stop(step));
    }
    Ok(())
}

/// Hears all replies.
fn hear_all<A: Allocator>(
    machine: &mut Machine,
    steps: &[Step],
    replies: &[Reply<A>],
    is_short: bool,
) -> Result<(), Trouble> {
    let mut heard = Heard {
        is_met: false,
        builds: 0,
        results: 0,
    };
    let mut place = 0_usize;
    for step in steps {
        if matches!(*step, Step::Stat) {
            continue;
        }
        let Some(reply) = replies.get(place) else {
            return Err(Trouble::Calls { step: Some(*step) });
        };
        hear(
            machine,
            &mut heard,
            *step,
            told_step(reply, *step),
            is_short,
        )?;
        place = place.wrapping_add(1);
    }
    if replies.len() == place {
        return Ok(());
    }
    Err(Trouble::Calls { step: None })
}

/// A heap of which one growth may be refused.
type Heap<'h> = &'h Budget<Global>;

/// A store whose memory, and that of whose device, is of such a heap.
type Short<'h> = Subject<Heap<'h>, Heap<'h>>;

/// A replay is refused for want of memory: nothing was done, and made again it is as with ample memory.
fn replay_again<'h, R: Threads + Sync>(
    rt: &R,
    heap: Heap<'h>,
    subject: &mut Short<'h>,
    machine: &mut Machine,
    (steps, asked): (&[Step], &[Asked<Heap<'h>>]),
) -> Result<(), Trouble> {
    if !heap.has_refused() {
        return Err(Trouble::Refusal(Refusal::NoMemory));
    }
    is_unchanged(subject, machine)?;
    let replies = subject.replay(rt, asked)?;
    hear_all(machine, steps, &replies, false)
}

/// Replays steps, within which a growth may be refused.
fn replay<'h, R: Threads + Sync>(
    rt: &R,
    heap: Heap<'h>,
    subject: &mut Short<'h>,
    machine: &mut Machine,
    (steps, asked): (&[Step], &[Asked<Heap<'h>>]),
) -> Result<(), Trouble> {
    match subject.replay(rt, asked) {
        Ok(replies) => hear_all(machine, steps, &replies, heap.has_refused()),
        Err(Refusal::NoMemory) => replay_again(rt, heap, subject, machine, (steps, asked)),
        Err(refusal) => Err(Trouble::Refusal(refusal)),
    }
}

/// Replays a list of which a growth is refused, on a store of a heap, and lets a crash come. Returns whether the growth was asked
/// for.
fn attack_in<R: Threads + Sync>(
    rt: &R,
    heap: Heap<'_>,
    attacked: &Attacked,
    n: u64,
) -> Result<bool, Trouble> {
    let (mut subject, mut machine) = attacked.start(rt, &heap)?;
    let steps = attacked.steps.as_slice();
    let asked = asked_all(&heap, steps)?;
    heap.refuse_after(n);
    replay(rt, heap, &mut subject, &mut machine, (steps, &asked))?;
    let met = heap.has_refused();
    heap.allow(u64::MAX);
    is_left(&mut subject, &mut machine)?;
    crash(&heap, subject, &machine, mask_of(n))?;
    Ok(met)
}

fn attack<R: Threads + Sync>(
    rt: &R,
    alloc: Global,
    attacked: &Attacked,
    n: u64,
) -> Result<bool, Trouble> {
    let heap = Budget::new(alloc, u64::MAX);
    attack_in(rt, &heap, attacked, n)
}

/// Refuses each growth of the replay of a list in turn.
pub(crate) fn sweep<R: Threads + Sync>(
    rt: &R,
    alloc: Global,
    list: &List,
    extent: Extent,
    tally: &mut Tally,
) -> Result<(), Trouble> {
    let mut attacked = prepare(rt, alloc, list)?;
    for step in attacked.steps.iter_mut() {
        *step = undivided(*step);
    }
    for turn in 0..MOST {
        let n = turn.wrapping_mul(extent.every);
        let met = attack(rt, alloc, &attacked, n)?;
        tally.count_case();
        tally.count_refused(met);
        tally.count_opening();
        if !met {
            return Ok(());
        }
    }
    Err(Trouble::Refusal(Refusal::NoMemory))
}
