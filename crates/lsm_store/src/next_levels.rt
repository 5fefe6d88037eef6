// The levels after an install, made of handles of the tables, while those before it stay.
ghost use Rattle.std.specs.Prelude.{◌≡◌, ◌<◌, ◌∷◌, ◌++◌, Bool, length, IfOk, OnOk};
ghost use Rattle.std.specs.List.{AllByRecursion};
ghost use Rattle.lsm_jobs.specs.Installing.{job_told, outputs_told};
ghost use Rattle.lsm_levels.specs.Held.{IsHeld, AreOutputs};
ghost use Rattle.lsm_levels.specs.Pick.{installed_levels};
ghost use Rattle.lsm_levels.specs.Tables.{IsRun};

use lsm_jobs::Written;
use lsm_levels::{Levels, PlacedTable, Run, share_all};
use std::alloc::{AllocError, Allocator};

// The run of handles of a run's tables.
fn shared_run<A: Allocator + Clone>(
    alloc: &A,
    tables: &[PlacedTable<A>],
) -> Result<Run<A>, AllocError>
    requires { IsRun tables.now }
    ensures { IfOk result (λ run. run ≡ tables.now) }
{
    Ok(Run::from_tables(share_all(alloc.clone()?, tables)?))
}

// Adds a run of such tables as the newest of level 0.
fn add_run<A: Allocator + Clone>(
    levels: &mut Levels<A>,
    alloc: &A,
    tables: &[PlacedTable<A>],
) -> Result<(), AllocError>
    requires run { IsRun tables.now }
    requires some { 0 < length tables.now }
    ensures { OnOk result (levels.new
        ≡ record { runs = tables.now ∷ levels.old.runs; deeper = levels.old.deeper }) }
{
    let run = shared_run(alloc, tables)?;
    levels.add_run(run)?;
    Ok(())
}

// Adds runs as the newest of level 0, in their order.
fn add_runs<A: Allocator + Clone>(
    levels: &mut Levels<A>,
    alloc: &A,
    runs: &[Run<A>],
) -> Result<(), AllocError>
    requires { AllByRecursion (λ run. 0 < length run) runs.now }
    ensures { OnOk result (levels.new
        ≡ record { runs = runs.now ++ levels.old.runs; deeper = levels.old.deeper }) }
{
    match runs {
        [] => Ok(()),
        [run, rest @ ..] => {
            add_runs(levels, alloc, rest)?;
            add_run(levels, alloc, run.tables())?;
            Ok(())
        }
    }
}

// Puts runs in the place of levels 1 to 4.
fn set_levels<A: Allocator + Clone>(
    levels: &mut Levels<A>,
    alloc: &A,
    deeper: &[Run<A>],
) -> Result<(), AllocError>
    requires there { length levels.old.deeper ≡ 4 }
    requires four { length deeper.now ≡ 4 }
    ensures { OnOk result (levels.new ≡ record { runs = levels.old.runs; deeper = deeper.now }) }
{
    for (below, run) in deeper.iter().enumerate() {
        levels.set_level(below + 1, shared_run(alloc, run.tables())?);
    }
    Ok(())
}

// The same levels, with handles of their own.
fn shared_levels<A: Allocator + Clone>(
    alloc: &A,
    levels: &Levels<A>,
) -> Result<Levels<A>, AllocError>
    ensures { IfOk result (λ copy. copy ≡ levels.now) }
{
    let mut copy = Levels::new(alloc.clone()?)?;
    add_runs(&mut copy, alloc, levels.runs())?;
    set_levels(&mut copy, alloc, levels.deeper())?;
    Ok(copy)
}

// Puts a job's outputs in the place of what it takes in.
fn put<A: Allocator + Clone>(
    levels: &mut Levels<A>,
    alloc: &A,
    written: &Written<'_, A>,
) -> Result<(), AllocError>
    requires has { (bottom : Bool) × IsHeld levels.old bottom (job_told written.now) }
    requires fit { AreOutputs (job_told written.now) (outputs_told written.now) }
    ensures { OnOk result (levels.new
        ≡ installed_levels levels.old (job_told written.now) (outputs_told written.now)) }
{
    match written {
        Written::Flush { outputs } => {
            add_run(levels, alloc, outputs)?;
            Ok(())
        }
        Written::Merge {
            level,
            upper,
            lower,
            outputs,
        } => {
            let mut handles = share_all(alloc.clone()?, outputs)?;
            levels.replace(*level, upper, lower, &mut handles)?;
            Ok(())
        }
    }
}

/// The levels after an install of a job's outputs.
pub(crate) fn next_levels<A: Allocator + Clone>(
    alloc: &A,
    levels: &Levels<A>,
    written: &Written<'_, A>,
) -> Result<Levels<A>, AllocError>
    requires has { (bottom : Bool) × IsHeld levels.now bottom (job_told written.now) }
    requires fit { AreOutputs (job_told written.now) (outputs_told written.now) }
    ensures { IfOk result (λ next. next
        ≡ installed_levels levels.now (job_told written.now) (outputs_told written.now)) }
{
    let mut next = shared_levels(alloc, levels)?;
    put(&mut next, alloc, written)?;
    Ok(next)
}
