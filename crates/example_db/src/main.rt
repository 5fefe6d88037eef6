//! A first use of a store in a file: the example of the README, which prints what it found.
#![tactic(auto)]

use corwaphi::{At, Batch, Db, Guard, Op, OpenDbError, Options};
use std::fs::{File, Files};

/// A store of 4 MiB, where there is none yet.
const SMALL: Options = Options {
    cache: 256,
    sectors: 8_192,
    log_sectors: 128,
};

/// Keeps fruits in a store, and tells how many begin with a p.
fn keep_fruits<R: Files<File = File> + AllocGlobal>(rt: &R) -> Result<u64, OpenDbError> {
    let mut db = Db::open_or_create(rt, "fruits.img", SMALL)?;
    db.put(b"pear", b"green")?;
    let mut batch = Batch::new(rt.alloc(), Op::put(rt.alloc(), b"plum", b"blue")?)?;
    batch.delete(b"apple")?;
    db.write(&batch)?;
    let is_green = Guard::holds(rt.alloc(), b"pear", b"green")?;
    let ripens = Batch::new(rt.alloc(), Op::put(rt.alloc(), b"pear", b"ripe")?)?;
    db.write_if(&[is_green], &ripens)?;
    db.sync()?;
    let snapshot = db.snapshot()?;
    db.delete(b"plum")?;
    let mut count = 0_u64;
    for row in db.rows_at(At::Snap(snapshot), b"p", Some(b"q"))? {
        let row = row?; // row.key and row.value are bytes
        count = count.saturating_add(1);
    }
    db.release(snapshot)?;
    Ok(count)
}

fn main(rt: HostRuntime) -> anyhow::Result<()> {
    let count = keep_fruits(&rt)?;
    println!(rt; "{count} fruits begin with a p")?;
    Ok(())
}
