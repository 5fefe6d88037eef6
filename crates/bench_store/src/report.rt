//! What runs measured, as text.

use crate::measuring::Measured;
use crate::sizes::{BLOCK_BYTES, ROW_BYTES, SECTOR_BYTES};
use crate::workloads::Workload;
use std::alloc::{AllocError, Global};
use std::fmt::Write;

/// What one run measured of a workload of a place among all, and the nanoseconds of the raw calls.
#[derive(Clone, Copy)]
pub(crate) struct Sample {
    pub(crate) place: usize,
    pub(crate) aim: u64,
    pub(crate) measured: Measured,
    pub(crate) raw: u64,
}

/// A number of a sample.
#[derive(Clone, Copy)]
enum Figure {
    Operations,
    /// Operations a second of the store, and of the raw calls.
    StoreRate,
    RawRate,
    /// The ratio of these rates, and its aim, in thousandths.
    Ratio,
    Aim,
    /// The microseconds that a put waits at most, or a change of rounds takes.
    Wait,
    /// The blocks that tables hold after a load.
    Held,
    /// The bytes that were given to write calls for each byte of the keys and values that were put, in thousandths, of tables alone and
    /// of logs and roots too.
    InTables,
    InAll,
}

/// The table of rates and ratios.
const RATES: &[(&str, Figure)] = &[
    ("operations", Figure::Operations),
    ("store ops/s", Figure::StoreRate),
    ("raw ops/s", Figure::RawRate),
    ("ratio", Figure::Ratio),
    ("aim", Figure::Aim),
];

/// The table of what loads wrote and kept, and how long puts and changes of rounds waited.
const LOADS: &[(&str, Figure)] = &[
    ("wait us", Figure::Wait),
    ("blocks held", Figure::Held),
    ("table bytes", Figure::InTables),
    ("all bytes", Figure::InAll),
];

/// How many thousandths of a ratio a column of a bar stands for.
const COLUMN: u64 = 25;

/// The most columns of a bar: a longer one is cut.
const COLUMNS: u64 = 100;

fn figure_of(sample: &Sample, figure: Figure) -> u64 {
    let Measured {
        operations,
        nanos,
        wanted,
        written,
        held,
        wait,
        ..
    } = sample.measured;
    let second = u64::from(operations).wrapping_mul(1_000_000_000);
    let put = u64::from(wanted.wrapping_mul(ROW_BYTES));
    let in_tables = u64::from(written.blocks).wrapping_mul(1_000 * BLOCK_BYTES as u64);
    let beside = u64::from(written.logged.wrapping_add(written.in_roots));
    let in_all = in_tables.wrapping_add(beside.wrapping_mul(1_000 * SECTOR_BYTES as u64));
    let (number, of) = match figure {
        Figure::Operations => (u64::from(operations), 1),
        Figure::StoreRate => (second, nanos),
        Figure::RawRate => (second, sample.raw),
        Figure::Ratio => (sample.raw.saturating_mul(1_000), nanos),
        Figure::Aim => (sample.aim, 1),
        Figure::Wait => (wait, 1_000),
        Figure::Held => (u64::from(held), 1),
        Figure::InTables => (in_tables, put),
        Figure::InAll => (in_all, put),
    };
    number / of.max(1)
}

/// The median of some numbers, 0 where there is none.
pub(crate) fn median(mut numbers: Vec<u64>) -> Result<u64, AllocError> {
    numbers.sort()?;
    let middle = numbers.get(numbers.len() / 2);
    Ok(middle.copied().unwrap_or(0))
}

/// The middle one of a figure of a workload in all runs.
fn middle(
    alloc: Global,
    samples: &[Sample],
    place: usize,
    figure: Figure,
) -> Result<u64, AllocError> {
    let mut numbers = Vec::new(alloc);
    for sample in samples {
        if sample.place == place {
            numbers.push(figure_of(sample, figure))?;
        }
    }
    median(numbers)
}

/// Adds a figure in a column. A ratio has two places after the point.
fn push_figure(text: &mut String, figure: Figure, number: u64) -> Result<(), AllocError> {
    match figure {
        Figure::Ratio | Figure::Aim | Figure::InTables | Figure::InAll => {
            let whole = number / 1_000;
            let part = number / 10 % 100;
            write!(text, " {whole:>9}.{part:02}")
        }
        _ => write!(text, " {number:>12}"),
    }
}

/// Adds a table of all workloads of which the first figure is not 0.
fn push_table(
    alloc: Global,
    text: &mut String,
    samples: &[Sample],
    workloads: &[Workload],
    first: Figure,
    columns: &[(&str, Figure)],
) -> Result<(), AllocError> {
    write!(text, "{:<22}", "workload")?;
    for (heading, _) in columns {
        write!(text, " {heading:>12}")?;
    }
    text.push('\n')?;
    for (place, workload) in workloads.iter().enumerate() {
        if middle(alloc, samples, place, first)? == 0 {
            continue;
        }
        let name = workload.name;
        write!(text, "{name:<22}")?;
        for (_, figure) in columns {
            push_figure(text, *figure, middle(alloc, samples, place, *figure)?)?;
        }
        text.push('\n')?;
    }
    text.push('\n')
}

/// Adds for each workload a bar as long as its ratio, with a mark where its aim is.
fn push_bars(
    alloc: Global,
    text: &mut String,
    samples: &[Sample],
    workloads: &[Workload],
) -> Result<(), AllocError> {
    for (place, workload) in workloads.iter().enumerate() {
        let Workload { name, aim, .. } = *workload;
        let ratio = middle(alloc, samples, place, Figure::Ratio)?;
        let bar = (ratio / COLUMN).min(COLUMNS);
        let mark = (aim / COLUMN).min(COLUMNS);
        write!(text, "{name:<22} ")?;
        for column in 0..bar.max(mark.wrapping_add(1)) {
            let sign = if column == mark {
                '|'
            } else if column < bar {
                '#'
            } else {
                ' '
            };
            text.push(sign)?;
        }
        text.push('\n')?;
    }
    text.push('\n')
}

/// The table of all workloads, a bar for each of their ratios, and the table of loads and rounds.
pub(crate) fn report(
    alloc: Global,
    samples: &[Sample],
    workloads: &[Workload],
) -> Result<String, AllocError> {
    let mut text = String::new(alloc);
    push_table(
        alloc,
        &mut text,
        samples,
        workloads,
        Figure::Operations,
        RATES,
    )?;
    push_bars(alloc, &mut text, samples, workloads)?;
    push_table(alloc, &mut text, samples, workloads, Figure::Wait, LOADS)?;
    Ok(text)
}
