//! The sweeps, and what they find.

use crate::attacked::List;
use crate::deeds::SITTINGS;
use crate::explorations::TOURS;
use crate::scripts::{COUNT, LISTS};
use crate::tally::Tally;
use crate::{
    explorations, faults, foreign, front_doors, growths, lives, old_images, openings, replays,
    sessions,
};
use lsm_device::Refusal;
use std::alloc::Global;
use std::sync::Wait;
use std::sync::atomic::{AtomicUsize, Ordering};
use std::thread::{Threads, join};
use test_compared_steps::disk::formatted;
use test_compared_steps::plain::LOG_SECTORS;
use test_compared_steps::trouble::Trouble;

/// All cases, where a part of them is told in ten-thousandths.
pub(crate) const WHOLE: u64 = 10_000;

/// One in this number of bytes after the first ones, divided by the part, is changed.
const OTHERS: u64 = 50_000;

/// From this part on each call and each growth of a list is tried.
const EACH: u64 = 1_000;

/// The first calls, of this number, are always tried, since a short list has few syncs.
const FIRST: u64 = 16;

/// How many sweeps there are: those of the lists, and eight others.
const PLACES: usize = COUNT + 8;

/// How much is tried.
#[derive(Clone, Copy)]
pub(crate) struct Extent {
    /// The part of the images, in ten-thousandths.
    pub(crate) part: u64,
    /// One in this number of calls or growths is tried.
    pub(crate) every: u64,
    /// Whether each crash comes after each call that fails.
    pub(crate) whole: bool,
}

impl Extent {
    /// A part of all.
    pub(crate) fn of(part: u64) -> Extent {
        let part = part.clamp(1, WHOLE);
        let every = EACH.checked_div(part).unwrap_or(1);
        Extent {
            part,
            every: every.max(1),
            whole: part == WHOLE,
        }
    }

    /// The call that fails, or the growth that is refused, in a turn of a sweep: each of the first ones, and then one in `every`.
    pub(crate) fn call(self, turn: u64) -> u64 {
        let others = turn.saturating_sub(FIRST);
        turn.min(FIRST)
            .wrapping_add(others.wrapping_mul(self.every))
    }

    /// Whether variant `turn` of `turns` is tried after call n: each in a whole run, else one for each call in rotation.
    pub(crate) fn takes(self, n: u64, turn: u64, turns: u64) -> bool {
        if self.whole || turns == 0 || self.every == 0 {
            return true;
        }
        n / self.every % turns == turn
    }
}

/// How a store differs: from the plain machine, or the `Db` of a seed from a plain list.
#[derive(Clone, Copy, Debug)]
pub(crate) enum Differs {
    Machine(Trouble),
    List(u64, test_random_stores::Trouble),
}

/// A difference, and where it was found.
#[derive(Clone, Copy, Debug)]
pub(crate) struct Difference {
    pub(crate) sweep: &'static str,
    pub(crate) list: &'static str,
    pub(crate) trouble: Differs,
}

/// What the sweeps tried, and what they found.
#[derive(Drop)]
pub(crate) struct Found {
    pub(crate) faults: Tally,
    pub(crate) growths: Tally,
    pub(crate) openings: Tally,
    pub(crate) sessions: Tally,
    pub(crate) replays: Tally,
    pub(crate) images: Tally,
    pub(crate) lives: Tally,
    pub(crate) old_images: Tally,
    pub(crate) front_doors: Tally,
    /// Whether there were old images of each kind.
    has_each_kind: bool,
    pub(crate) differences: Vec<Difference>,
}

impl Found {
    /// Nothing yet. The memory of a device stays with the program as long as this does: the next device is made where one was before, and
    /// since the list of differences comes after that place, the allocator doesn't give it back to the system. Otherwise half of a run is
    /// the system's work on memory that is touched for the first time.
    fn keeping_memory(alloc: Global) -> Result<Found, Refusal> {
        // By the first one that is let go the allocator learns how large the blocks are that it may keep.
        drop(formatted(alloc, LOG_SECTORS)?);
        let device = formatted(alloc, LOG_SECTORS)?;
        let differences = Vec::with_capacity(alloc, 64)?;
        drop(device);
        Ok(Found::with(differences))
    }

    fn with(differences: Vec<Difference>) -> Found {
        Found {
            faults: Tally::NONE,
            growths: Tally::NONE,
            openings: Tally::NONE,
            sessions: Tally::NONE,
            replays: Tally::NONE,
            images: Tally::NONE,
            lives: Tally::NONE,
            old_images: Tally::NONE,
            front_doors: Tally::NONE,
            has_each_kind: false,
            differences,
        }
    }

    /// What was met at least once in the sweeps of all lists and images.
    pub(crate) fn told(&self) -> &'static str {
        let images = self.images.openings > 0 && self.images.openings < self.images.cases;
        let is_met = self.faults.failed > 0 && self.growths.refused > 0;
        let is_shared = self.sessions.failed > 0 && self.sessions.refused > 0;
        let lives = self.lives.failed > 0 && self.lives.tables > 0;
        let are_drawn = lives && self.has_each_kind && self.front_doors.failed > 0;
        if is_met && is_shared && self.replays.refused > 0 && images && are_drawn {
            return "calls failed, growths were refused, images were refused and opened, old ones too";
        }
        "a part of the sweeps"
    }

    fn note(
        &mut self,
        sweep: &'static str,
        list: &'static str,
        swept: Result<(), Trouble>,
    ) -> Result<(), Refusal> {
        if let Err(trouble) = swept {
            self.differences.push(Difference {
                sweep,
                list,
                trouble: Differs::Machine(trouble),
            })?;
        }
        Ok(())
    }

    fn attack<R: Threads + Sync>(
        &mut self,
        rt: &R,
        alloc: Global,
        list: &List,
        extent: Extent,
    ) -> Result<(), Refusal> {
        let swept = faults::sweep(rt, alloc, list, extent, &mut self.faults);
        self.note("faults", list.name, swept)?;
        let swept = growths::sweep(rt, alloc, list, extent, &mut self.growths);
        self.note("growths", list.name, swept)?;
        let swept = replays::sweep(rt, alloc, list, extent, &mut self.replays);
        self.note("replays", list.name, swept)
    }

    fn attack_opening<R: Threads + Sync>(
        &mut self,
        rt: &R,
        alloc: Global,
        list: &List,
        extent: Extent,
    ) -> Result<(), Refusal> {
        let swept = openings::sweep(rt, alloc, list, extent, &mut self.openings);
        self.note("openings", list.name, swept)
    }

    fn attack_drawn<R: Threads + Sync>(
        &mut self,
        rt: &R,
        alloc: Global,
        extent: Extent,
    ) -> Result<(), Refusal> {
        for seed in 0..(extent.part / 400).wrapping_add(1) {
            let swept = growths::sweep_drawn(rt, alloc, seed, extent, &mut self.growths);
            self.note("growths", "random", swept)?;
        }
        Ok(())
    }

    fn share<R: Threads + Wait + Sync>(
        &mut self,
        rt: &R,
        alloc: Global,
        extent: Extent,
    ) -> Result<(), Refusal> {
        for sitting in SITTINGS.iter() {
            let swept = sessions::sweep(rt, alloc, sitting, extent, &mut self.sessions);
            self.note("sessions", sitting.name, swept)?;
        }
        Ok(())
    }

    fn explore<R: Threads + Sync>(
        &mut self,
        rt: &R,
        alloc: Global,
        extent: Extent,
    ) -> Result<(), Refusal> {
        for tour in TOURS.iter() {
            let swept = explorations::sweep(rt, alloc, tour, extent, &mut self.replays);
            self.note("replays", tour.name, swept)?;
        }
        Ok(())
    }

    fn try_bytes<R: Threads + Sync>(
        &mut self,
        rt: &R,
        alloc: Global,
        extent: Extent,
    ) -> Result<(), Refusal> {
        let others = OTHERS.checked_div(extent.part).unwrap_or(1);
        let every = if extent.whole { 1 } else { others };
        let swept = foreign::sweep_bytes(rt, alloc, (every, extent.every <= 2), &mut self.images);
        self.note("images", "each byte", swept)
    }

    fn try_drawn<R: Threads + Sync>(
        &mut self,
        rt: &R,
        alloc: Global,
        extent: Extent,
    ) -> Result<(), Refusal> {
        let swept = foreign::sweep_drawn(rt, alloc, extent.part, &mut self.images);
        self.note("images", "random", swept)
    }

    fn live<R: Threads + Sync>(
        &mut self,
        rt: &R,
        alloc: Global,
        extent: Extent,
    ) -> Result<(), Refusal> {
        let stores = extent.part.wrapping_mul(2);
        let swept = lives::sweep(rt, alloc, stores, &mut self.lives);
        self.note("lives", "random", swept)
    }

    fn try_old<R: Threads + Sync>(
        &mut self,
        rt: &R,
        alloc: Global,
        extent: Extent,
    ) -> Result<(), Refusal> {
        let images = (extent.part / 60).max(1);
        match old_images::sweep(rt, alloc, images, &mut self.old_images) {
            Ok(has_each_kind) => {
                self.has_each_kind = has_each_kind;
                Ok(())
            }
            Err(trouble) => self.note("old images", "random", Err(trouble)),
        }
    }

    fn lead_stores<R: AllocGlobal>(
        &mut self,
        rt: &R,
        alloc: Global,
        extent: Extent,
    ) -> Result<(), Refusal> {
        let stores = (extent.part / 100).max(1);
        let led = front_doors::sweep(rt, alloc, stores, &mut self.front_doors);
        for (seed, trouble) in led.troubles.iter() {
            self.differences.push(Difference {
                sweep: "front doors",
                list: "random",
                trouble: Differs::List(*seed, *trouble),
            })?;
        }
        Ok(())
    }

    /// The sweep at a place: those of the lists, and then eight others.
    fn sweep_at<R: AllocGlobal + Threads + Wait + Sync>(
        &mut self,
        rt: &R,
        alloc: Global,
        place: usize,
        extent: Extent,
    ) -> Result<(), Refusal> {
        if let Some(list) = LISTS.get(place) {
            if list.is_opened {
                self.attack_opening(rt, alloc, list, extent)?;
            }
            return self.attack(rt, alloc, list, extent);
        }
        match place.wrapping_sub(LISTS.len()) {
            0 => self.attack_drawn(rt, alloc, extent),
            1 => self.try_bytes(rt, alloc, extent),
            2 => self.try_drawn(rt, alloc, extent),
            3 => self.share(rt, alloc, extent),
            4 => self.explore(rt, alloc, extent),
            5 => self.live(rt, alloc, extent),
            6 => self.try_old(rt, alloc, extent),
            _ => self.lead_stores(rt, alloc, extent),
        }
    }

    /// What these sweeps and others found, all together.
    fn and(self, others: Found) -> Result<Found, Refusal> {
        let Found {
            faults,
            growths,
            openings,
            sessions,
            replays,
            images,
            lives,
            old_images,
            front_doors,
            has_each_kind,
            mut differences,
        } = self;
        differences.extend_from_slice(&others.differences)?;
        Ok(Found {
            faults: faults.and(others.faults),
            growths: growths.and(others.growths),
            openings: openings.and(others.openings),
            sessions: sessions.and(others.sessions),
            replays: replays.and(others.replays),
            images: images.and(others.images),
            lives: lives.and(others.lives),
            old_images: old_images.and(others.old_images),
            front_doors: front_doors.and(others.front_doors),
            has_each_kind: has_each_kind || others.has_each_kind,
            differences,
        })
    }
}

/// The sweep at a place alone.
pub(crate) fn sweep_one<R: AllocGlobal + Threads + Wait + Sync>(
    rt: &R,
    alloc: Global,
    extent: Extent,
    place: usize,
) -> Result<Found, Refusal> {
    let mut found = Found::keeping_memory(alloc)?;
    found.sweep_at(rt, alloc, place, extent)?;
    Ok(found)
}

/// The sweeps of one thread. The next place is the number that is left, less one: the last places take longest.
fn sweep_some<R: AllocGlobal + Threads + Wait + Sync>(
    rt: &R,
    alloc: Global,
    extent: Extent,
    left: &AtomicUsize,
) -> Result<Found, Refusal> {
    let mut found = Found::keeping_memory(alloc)?;
    for _ in 0..PLACES {
        let place = left.fetch_sub(1, Ordering::SeqCst).wrapping_sub(1);
        if place >= PLACES {
            return Ok(found);
        }
        found.sweep_at(rt, alloc, place, extent)?;
    }
    Ok(found)
}

/// The sweeps of two threads.
fn sweep_more<R: AllocGlobal + Threads + Wait + Sync>(
    rt: &R,
    alloc: Global,
    extent: Extent,
    left: &AtomicUsize,
) -> Result<Found, Refusal> {
    let (first, second) = join(
        rt,
        || -> Result<Found, Refusal> { sweep_some(rt, alloc, extent, left) },
        || -> Result<Found, Refusal> { sweep_some(rt, alloc, extent, left) },
    );
    first?.and(second?)
}

/// All sweeps, in four threads.
pub(crate) fn sweep_all<R: AllocGlobal + Threads + Wait + Sync>(
    rt: &R,
    alloc: Global,
    extent: Extent,
) -> Result<Found, Refusal> {
    let left = AtomicUsize::new(PLACES);
    let (first, second) = join(
        rt,
        || -> Result<Found, Refusal> { sweep_more(rt, alloc, extent, &left) },
        || -> Result<Found, Refusal> { sweep_more(rt, alloc, extent, &left) },
    );
    first?.and(second?)
}
