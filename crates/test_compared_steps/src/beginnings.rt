//! Images that steps leave, to begin with.

use crate::disk::{Disk, formatted};
use crate::draws::Draws;
use crate::image::PlainImage;
use crate::layout::spread;
use crate::lists::{ListedStep, drawn, steps_of};
use crate::plain::{Answer, Change, LOG_SECTORS, Machine, Step};
use crate::playing::{opened, play};
use crate::trouble::Trouble;
use std::alloc::Global;
use std::thread::Threads;

/// What becomes of an image before it is opened.
#[derive(Clone, Copy)]
pub enum After {
    Nothing,
    /// A crash keeps the first sector of one batch more, of two sectors.
    Torn,
    /// Of the tables of five runs the newest stays in level 0, the next is of level 1, and so on.
    Spread,
}

/// What a list begins with: an image, and the machine of the steps that made it.
pub struct Beginning {
    pub image: PlainImage,
    pub machine: Machine,
}

impl Drop for Beginning {
    fn drop(self) {
        let Beginning {
            image: _,
            machine: _,
        } = self;
    }
}

/// Makes the steps of a list on a device, and gives it back with all that pends, synced or not.
fn played<R: Threads + Sync>(
    rt: &R,
    alloc: Global,
    disk: Disk,
    machine: &mut Machine,
    steps: &[Step],
) -> Result<Disk, Trouble> {
    let mut subject = opened(&alloc, disk)?;
    play(rt, &mut subject, machine, steps)?;
    Ok(subject.into_disk())
}

/// The image that a list of steps makes, of which nothing is lost.
pub fn begun<R: Threads + Sync>(
    rt: &R,
    alloc: Global,
    past: &[ListedStep],
) -> Result<Beginning, Trouble> {
    let steps = steps_of(alloc, past)?;
    let mut machine = Machine::new(alloc);
    let disk = formatted(alloc, LOG_SECTORS)?;
    let mut disk = played(rt, alloc, disk, &mut machine, &steps)?;
    let image = PlainImage::of(alloc, &mut disk)?;
    Ok(Beginning { image, machine })
}

/// The image left by lives one after another, each of its number of drawn steps in `lives`, of which nothing is lost; and the machine
/// that the next opening finds.
pub fn lived<R: Threads + Sync>(
    rt: &R,
    alloc: Global,
    draws: &mut Draws,
    lives: &[u32],
) -> Result<Beginning, Trouble> {
    let mut machine = Machine::new(alloc);
    let mut disk = formatted(alloc, LOG_SECTORS)?;
    for length in lives {
        let steps = drawn(alloc, draws, machine.reopened()?, *length)?;
        disk = played(rt, alloc, disk, &mut machine, &steps)?;
        machine = machine.reopened()?;
    }
    let image = PlainImage::of(alloc, &mut disk)?;
    Ok(Beginning { image, machine })
}

/// What a crash leaves after a list of steps that ends with a sync: of one batch more, of two sectors, the first.
fn torn<R: Threads + Sync>(
    rt: &R,
    alloc: Global,
    past: &[ListedStep],
) -> Result<Beginning, Trouble> {
    let steps = steps_of(alloc, past)?;
    let mut machine = Machine::new(alloc);
    let disk = formatted(alloc, LOG_SECTORS)?;
    let mut subject = opened(&alloc, disk)?;
    play(rt, &mut subject, &mut machine, &steps)?;
    let batch = subject.answer_alone(Step::Commit(Change::Put(9, 9, 600)));
    let mut disk = subject.into_disk().crashed(1);
    let image = PlainImage::of(alloc, &mut disk)?;
    match batch {
        Answer::Number(_) => Ok(Beginning { image, machine }),
        _ => Err(Trouble::Count(0)),
    }
}

/// The image that a list of steps makes, whose runs are spread over all levels.
fn spread_out<R: Threads + Sync>(
    rt: &R,
    alloc: Global,
    past: &[ListedStep],
) -> Result<Beginning, Trouble> {
    let mut beginning = begun(rt, alloc, past)?;
    spread(&mut beginning.image);
    beginning.machine.spread();
    Ok(beginning)
}

/// What a list of steps, and what comes after it, leaves.
pub fn begin<R: Threads + Sync>(
    rt: &R,
    alloc: Global,
    past: &[ListedStep],
    after: After,
) -> Result<Beginning, Trouble> {
    match after {
        After::Nothing => begun(rt, alloc, past),
        After::Torn => torn(rt, alloc, past),
        After::Spread => spread_out(rt, alloc, past),
    }
}
