//! Lists of steps that are attacked.

use std::alloc::{Allocator, Global};
use std::thread::Threads;
use test_compared_steps::beginnings::{After, Beginning, begin};
use test_compared_steps::lists::{ListedStep, steps_of};
use test_compared_steps::plain::{Machine, Step};
use test_compared_steps::playing::{opened, play};
use test_compared_steps::subject::Subject;
use test_compared_steps::trouble::Trouble;

/// A list of steps: those that make the image, those before the store is attacked, and those under attack.
#[derive(Clone, Copy)]
pub(crate) struct List {
    pub(crate) name: &'static str,
    pub(crate) past: &'static [ListedStep],
    pub(crate) after: After,
    /// Whether the opening of the image is attacked too.
    pub(crate) is_opened: bool,
    pub(crate) before: &'static [ListedStep],
    pub(crate) steps: &'static [ListedStep],
}

/// A list of steps over its beginning.
pub(crate) struct Attacked {
    pub(crate) beginning: Beginning,
    pub(crate) before: Vec<Step>,
    pub(crate) steps: Vec<Step>,
}

impl Drop for Attacked {
    fn drop(self) {
        let Attacked {
            beginning: _,
            before: _,
            steps: _,
        } = self;
    }
}

/// What a list of steps is attacked over.
pub(crate) fn prepare<R: Threads + Sync>(
    rt: &R,
    alloc: Global,
    list: &List,
) -> Result<Attacked, Trouble> {
    let beginning = begin(rt, alloc, list.past, list.after)?;
    Ok(Attacked {
        beginning,
        before: steps_of(alloc, list.before)?,
        steps: steps_of(alloc, list.steps)?,
    })
}

impl Attacked {
    /// A store and a machine that have made all steps before the attack.
    pub(crate) fn start<R: Threads + Sync, A: Allocator + Clone + Send + Sync>(
        &self,
        rt: &R,
        alloc: &A,
    ) -> Result<(Subject<A, A>, Machine), Trouble> {
        let mut machine = self.beginning.machine.reopened()?;
        let mut subject = opened(alloc, self.beginning.image.disk(alloc.clone()?)?)?;
        play(rt, &mut subject, &mut machine, &self.before)?;
        Ok((subject, machine))
    }
}
