//! Runs: all workloads of a suite, one after another.

use crate::measuring::measure;
use crate::raw::Raw;
use crate::report::{Sample, report};
use crate::sizes::{SMALL, Sizes};
use crate::subject::Subject;
use crate::told;
use crate::workloads::{BESIDE, KEPT, LOOKS, ROUNDS, WORKLOADS, Workload};
use anyhow::Result;
use lsm_device::{Device, FileDevice, MemDevice, Refusal};
use std::alloc::Global;
use std::fs::{File, Files};
use std::rt::Clock;
use std::sync::Wait;
use std::thread::Threads;

/// Does all workloads, each followed by its raw calls where there is a file for them, and adds what is measured.
fn run<R: Clock + Threads + Wait + Sync, D: Device + Drop + Send>(
    rt: &R,
    alloc: Global,
    subject: &mut Subject<D>,
    sizes: Sizes,
    workloads: &[Workload],
    samples: &mut Vec<Sample>,
) -> Result<(), Refusal> {
    for (place, workload) in workloads.iter().enumerate() {
        let measured = measure(rt, alloc, subject, sizes, *workload)?;
        let raw = match &mut subject.raw {
            Some(raw) => raw.measure(rt, sizes, workload.work, measured)?,
            None => 0,
        };
        samples.push(Sample {
            place,
            aim: workload.aim,
            measured,
            raw,
        })?;
    }
    Ok(())
}

/// Whether all answers were right.
fn are_right(samples: &[Sample]) -> bool {
    for sample in samples {
        if sample.measured.right != sample.measured.wanted {
            return false;
        }
    }
    true
}

/// A run in small on a device in memory.
fn run_small<R: Clock + Threads + Wait + Sync>(
    rt: &R,
    alloc: Global,
    workloads: &[Workload],
    samples: &mut Vec<Sample>,
) -> Result<(), Refusal> {
    let device = MemDevice::new(alloc, SMALL.sectors)?;
    let mut subject = Subject::on(alloc, device, None)?;
    run(rt, alloc, &mut subject, SMALL, workloads, samples)
}

/// Does each workload in small, prints how many of its answers were right, and tells whether all were.
pub(crate) fn check<R: Clock + Threads + Wait + Print + AllocGlobal + Sync>(
    rt: &R,
) -> Result<bool> {
    let mut right = true;
    const ALL: &[&[Workload]] = &[WORKLOADS, KEPT, ROUNDS, LOOKS, BESIDE];
    for &workloads in ALL {
        let mut samples = Vec::new(rt.alloc());
        run_small(rt, rt.alloc(), workloads, &mut samples).map_err(told)?;
        for (sample, workload) in samples.iter().zip(workloads) {
            println!(rt;
                "{}: {} of {}",
                workload.name, sample.measured.right, sample.measured.wanted
            )?;
        }
        right = right && are_right(&samples);
    }
    Ok(right)
}

/// A run on a new file, with the raw calls on a second one.
fn run_on<R: Files<File = File> + Clock + Threads + Wait + Sync>(
    rt: &R,
    alloc: Global,
    paths: (&str, &str),
    sizes: Sizes,
    workloads: &[Workload],
    samples: &mut Vec<Sample>,
) -> Result<(), Refusal> {
    let raw = Raw::create(rt, alloc, paths.1, sizes.sectors)?;
    let device = FileDevice::create(rt, paths.0, sizes.sectors)?;
    let mut subject = Subject::on(alloc, device, Some(raw))?;
    run(rt, alloc, &mut subject, sizes, workloads, samples)
}

/// Makes `runs` runs on the file of a path, with the raw calls on the file `.raw` next to it, and prints what they measured.
/// Returns whether all answers were right.
pub(crate) fn compare<R: Files<File = File> + Clock + Threads + Wait + Print + AllocGlobal + Sync>(
    rt: &R,
    path: &str,
    sizes: Sizes,
    workloads: &[Workload],
    runs: u32,
) -> Result<bool> {
    let alloc = rt.alloc();
    let beside = format!(in alloc; "{path}.raw")?;
    let mut samples = Vec::new(alloc);
    for _ in 0..runs {
        run_on(rt, alloc, (path, &beside), sizes, workloads, &mut samples).map_err(told)?;
    }
    let text = report(alloc, &samples, workloads)?;
    print!(rt; "{text}")?;
    Ok(are_right(&samples))
}
