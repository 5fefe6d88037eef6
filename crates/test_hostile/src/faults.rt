//! Of the calls of a device one fails, each in turn.

use crate::attacked::{Attacked, List, prepare};
use crate::sweeps::Extent;
use crate::tally::Tally;
use lsm_device::Refusal;
use std::alloc::Global;
use std::thread::Threads;
use test_compared_steps::disk::{MASKS, Mask};
use test_compared_steps::plain::{Answer, Machine, Step};
use test_compared_steps::playing::{crash, is_left, is_unchanged};
use test_compared_steps::subject::Subject;
use test_compared_steps::trouble::{Trouble, agree, unrefused};

/// More device calls than any list makes.
const MOST: u64 = 10_000;

/// The call that fails, counted from 0, whether it stands where it is a write, and which crash follows.
#[derive(Clone, Copy)]
pub(crate) struct CallFault {
    pub(crate) n: u64,
    pub(crate) kept: bool,
    pub(crate) mask: Mask,
}

/// How many calls the device had before, and whether one failed.
#[derive(Clone, Copy)]
struct Course {
    start: u64,
    met: bool,
}

/// The step at which a call failed is the first, and makes no call after it.
fn meet(
    subject: &Subject<Global>,
    fault: CallFault,
    course: &mut Course,
    step: Step,
) -> Result<(), Trouble> {
    let made = subject.calls().wrapping_sub(course.start);
    if course.met || made != fault.n.wrapping_add(1) {
        return Err(Trouble::Calls { step: Some(step) });
    }
    course.met = true;
    Ok(())
}

/// A get that was answered reads nothing the next time.
fn read_nothing(
    subject: &mut Subject<Global>,
    machine: &mut Machine,
    step: Step,
) -> Result<(), Trouble> {
    if !matches!(step, Step::Get(_, _)) {
        return Ok(());
    }
    let before = subject.calls();
    let found = subject.answer_alone(step);
    let made = subject.calls().wrapping_sub(before);
    agree(step, found, machine.answer(step))?;
    made_none(step, made)
}

/// Whether a step made no call of the device.
fn made_none(step: Step, made: u64) -> Result<(), Trouble> {
    if made == 0 {
        return Ok(());
    }
    Err(Trouble::Calls { step: Some(step) })
}

/// A step is answered, and not refused.
fn is_answered(step: Step, found: Answer, wanted: Answer) -> Result<(), Trouble> {
    unrefused(step, wanted)?;
    agree(step, found, wanted)
}

/// After a read that failed nothing has changed, and the same step answers.
fn make_again(
    subject: &mut Subject<Global>,
    machine: &mut Machine,
    step: Step,
) -> Result<(), Trouble> {
    is_unchanged(subject, machine)?;
    let found = subject.answer_alone(step);
    is_answered(step, found, machine.answer(step))?;
    read_nothing(subject, machine, step)
}

/// Makes a step, whose answer is the machine's, or Io where a call of it fails.
fn make<R: Threads + Sync>(
    rt: &R,
    subject: &mut Subject<Global>,
    machine: &mut Machine,
    (fault, course): (CallFault, &mut Course),
    step: Step,
) -> Result<(), Trouble> {
    let found = subject.answer(rt, step);
    if found != Answer::Refused(Refusal::Io) {
        return agree(step, found, machine.answer(step));
    }
    meet(subject, fault, course, step)?;
    if step.is_read() {
        return make_again(subject, machine, step);
    }
    unrefused(step, machine.stop(step))
}

/// Makes all steps, and tells whether a call failed.
pub(crate) fn make_all<R: Threads + Sync>(
    rt: &R,
    subject: &mut Subject<Global>,
    machine: &mut Machine,
    fault: CallFault,
    steps: &[Step],
) -> Result<bool, Trouble> {
    subject.fail(fault.n, fault.kept);
    let start = subject.calls();
    let mut course = Course { start, met: false };
    for step in steps {
        make(rt, subject, machine, (fault, &mut course), *step)?;
    }
    // A call that failed was answered.
    if !course.met && subject.calls().wrapping_sub(start) > fault.n {
        return Err(Trouble::Calls { step: None });
    }
    is_left(subject, machine)?;
    Ok(course.met)
}

/// Makes a list of steps of which one call fails, and lets a crash come. Returns whether the call was made.
fn attack<R: Threads + Sync>(
    rt: &R,
    alloc: Global,
    attacked: &Attacked,
    fault: CallFault,
) -> Result<bool, Trouble> {
    let (mut subject, mut machine) = attacked.start(rt, &alloc)?;
    let met = make_all(rt, &mut subject, &mut machine, fault, &attacked.steps)?;
    crash(&alloc, subject, &machine, fault.mask)?;
    Ok(met)
}

/// Lets the call of a number fail, kept and not, before each of the crashes, or before one of them.
fn attack_at<R: Threads + Sync>(
    rt: &R,
    alloc: Global,
    attacked: &Attacked,
    (n, extent): (u64, Extent),
    tally: &mut Tally,
) -> Result<bool, Trouble> {
    const KEPT: &[bool] = &[false, true];
    let mut met = false;
    for (turn, &mask) in MASKS.iter().enumerate() {
        for &kept in KEPT {
            if extent.takes(n, turn as u64, 4) {
                met = attack(rt, alloc, attacked, CallFault { n, kept, mask })?;
                tally.count_case();
                tally.count_failed(met);
                tally.count_opening();
            }
        }
    }
    Ok(met)
}

/// Lets each call of a list fail in turn.
pub(crate) fn sweep<R: Threads + Sync>(
    rt: &R,
    alloc: Global,
    list: &List,
    extent: Extent,
    tally: &mut Tally,
) -> Result<(), Trouble> {
    let attacked = prepare(rt, alloc, list)?;
    for turn in 0..MOST {
        let n = extent.call(turn);
        if !attack_at(rt, alloc, &attacked, (n, extent), tally)? {
            return Ok(());
        }
    }
    Err(Trouble::Calls { step: None })
}
