//! Scripts as steps of the store, and how their replies are told.

ghost use Rattle.std.specs.Prelude.{◌≡◌, ◌∷◌, ◌++◌, [], map, None, IfOk, OnOk, length};
ghost use Rattle.lsm_lives.specs.Calls.{call_of};
ghost use Rattle.lsm_lives.specs.declared.calls.Step.TheVariants as step;
ghost use Rattle.lsmctl.specs.Steps.{steps_after, told_after, told_of_call, told_of_piece, ended, mask_said, life_of, lives_after, opened, told_lives};

use lsm_device::Refusal;
use lsm_language::{Counted, Kept, Line, counted_in};
use lsm_lives::{Call, Life, Step, Work};
use std::alloc::{AllocError, Global};

/// The most writes that an opening makes.
const OPENING_WRITES: usize = 42;

/// The most writes that a step makes.
const STEP_WRITES: usize = 128;

/// How the reply of a step is told.
#[derive(Clone, Copy)]
pub enum ReplyFormat {
    /// As the store's reply. A number in it counts this.
    Reply(Counted),
    /// As this refusal, since the guards or the operations can't be formed, and no call is made.
    NoBatch(Refusal),
}

/// Steps to be made, and how the steps of a script are told that they stand for.
#[derive(Drop)]
pub struct Steps {
    pub steps: Vec<Step>,
    pub told: Vec<ReplyFormat>,
}

impl Steps {
    fn new(alloc: Global) -> Steps
        ensures { (result.steps.items ≡ []) × (result.told.items ≡ []) }
    {
        Steps {
            steps: Vec::new(alloc),
            told: Vec::new(alloc),
        }
    }

    // Adds a call, which is told by its reply.
    fn add(&mut self, call: Call) -> Result<(), AllocError>
        ensures { OnOk result ((self.new.steps.items ≡ self.old.steps.items ++ step.Call call ∷ [])
            × (self.new.told.items ≡ self.old.told.items ++ told_of_call (call_of call) ∷ [])) }
    {
        self.told.push(ReplyFormat::Reply(counted_in(&call)))?;
        self.steps.push(Step::Call(call))?;
        Ok(())
    }

    // Adds a piece of work, which is told by its reply.
    fn add_work(&mut self, piece: Work) -> Result<(), AllocError>
        ensures { OnOk result ((self.new.steps.items ≡ self.old.steps.items ++ step.Work piece ∷ [])
            × (self.new.told.items ≡ self.old.told.items ++ told_of_piece ∷ [])) }
    {
        self.told.push(ReplyFormat::Reply(Counted::Left))?;
        self.steps.push(Step::Work(piece))?;
        Ok(())
    }
}

/// The steps of a script that has steps alone.
pub fn steps_of(alloc: Global, lines: Vec<Line>) -> Result<Steps, AllocError>
    ensures steps { IfOk result (λ steps. steps.steps.items ≡ steps_after [] lines.items) }
    ensures told { IfOk result (λ steps. steps.told.items ≡ told_after [] lines.items) }
{
    let mut steps = Steps::new(alloc);
    for line in lines {
        match line {
            Line::Call(call) => steps.add(call)?,
            Line::Work(piece) => steps.add_work(piece)?,
            Line::NoBatch(refusal) => steps.told.push(ReplyFormat::NoBatch(refusal))?,
            Line::Fuse(_) | Line::Crash(_) => {}
        }
    }
    Ok(steps)
}

/// The lives of a script, and how the replies of each are told, its opening first.
#[derive(Drop)]
pub struct Lives {
    pub lives: Vec<Life>,
    pub told: Vec<Vec<ReplyFormat>>,
}

impl Lives {
    // Ends a life by a crash, after the others.
    fn end(&mut self, alloc: Global, begun: Begun, kept: Kept) -> Result<(), AllocError>
        ensures lives { OnOk result
            (map life_of self.new.lives.items ≡ map life_of self.old.lives.items
            ++ (
              begun.fuse,
              begun.steps.steps.items,
              mask_said kept
                  (length begun.steps.steps.items),
            ) ∷ []) }
        ensures told { OnOk result
            (map (λ told. told.items) self.new.told.items
            ≡ map (λ told. told.items) self.old.told.items
            ++ begun.steps.told.items ∷ []) }
    {
        let Begun { fuse, steps } = begun;
        let mask = mask_of(alloc, kept, steps.steps.len())?;
        self.lives.push(Life {
            fuse,
            steps: steps.steps,
            mask,
        })?;
        self.told.push(steps.told)?;
        Ok(())
    }
}

// A life that no crash has ended yet.
#[derive(Drop)]
struct Begun {
    fuse: Option<u64>,
    steps: Steps,
}

impl Begun {
    fn new(alloc: Global) -> Result<Begun, AllocError>
        ensures { IfOk result (λ begun. (begun.fuse ≡ None) × (begun.steps.steps.items ≡ [])
            × (begun.steps.told.items ≡ opened)) }
    {
        let mut steps = Steps::new(alloc);
        steps.told.push(ReplyFormat::Reply(Counted::Opened))?;
        Ok(Begun { fuse: None, steps })
    }
}

/// The lives of a script. Its end ends the last of them, unless a crash did.
pub fn lives_of(alloc: Global, lines: Vec<Line>) -> Result<Lives, AllocError>
    ensures lives { IfOk result
        (λ lives. map life_of lives.lives.items ≡ lives_after [] None [] (ended lines.items)) }
    ensures told { IfOk result
        (λ lives. map (λ told. told.items) lives.told.items ≡ told_lives lines.items) }
{
    let lines = ended(lines)?;
    let mut lives = Lives {
        lives: Vec::new(alloc),
        told: Vec::new(alloc),
    };
    let mut begun = Begun::new(alloc)?;
    for line in lines {
        match line {
            Line::Call(call) => begun.steps.add(call)?,
            Line::Work(piece) => begun.steps.add_work(piece)?,
            Line::NoBatch(refusal) => begun.steps.told.push(ReplyFormat::NoBatch(refusal))?,
            Line::Fuse(count) => begun.fuse = Some(count),
            Line::Crash(kept) => {
                lives.end(alloc, begun, kept)?;
                begun = Begun::new(alloc)?;
            }
        }
    }
    Ok(lives)
}

// The lines with a crash at their end.
fn ended(mut lines: Vec<Line>) -> Result<Vec<Line>, AllocError>
    ensures { IfOk result (λ all. all.items ≡ ended lines.items) }
{
    if !matches!(lines.last(), Some(Line::Crash(_))) {
        lines.push(Line::Crash(Kept::All))?;
    }
    Ok(lines)
}

// All pending writes of a life are among those that its opening and its steps made.
fn mask_of(alloc: Global, kept: Kept, steps: usize) -> Result<Vec<bool>, AllocError>
    ensures { IfOk result (λ mask. mask.items ≡ mask_said kept steps) }
{
    match kept {
        Kept::All => {
            let writes = OPENING_WRITES.saturating_add(STEP_WRITES.saturating_mul(steps));
            Ok(vec![in alloc; true; writes]?)
        }
        Kept::Places(places) => Ok(places),
    }
}
