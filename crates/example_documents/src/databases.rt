//! Examples of stores that make room by themselves.

use corwaphi::{Db, OpenDbError, Options};
use example_work_queue::Queue;
use std::fs::{File, Files};

/// The example of `corwaphi`. Returns the value of a key.
pub fn put_in_a_file<R: Files<File = File> + AllocGlobal>(
    rt: &R,
) -> Result<Option<Vec<u8>>, OpenDbError> {
    let mut db = Db::open_or_create(rt, "store.img", Options::default())?;
    db.put(b"apple", b"red")?;
    let value = db.get(b"apple")?;
    db.sync()?;
    Ok(value)
}

/// The example of `example_work_queue`. Returns the number of the task.
pub fn work_off_a_task<R: Files<File = File> + AllocGlobal>(rt: &R) -> Result<u64, OpenDbError> {
    let db = Db::open_or_create(rt, "tasks.img", Options::default())?;
    let mut queue = Queue::on(rt.alloc(), db);
    let number = queue.add(b"sweep the yard")?;
    queue.sync()?;
    if let Some((number, task)) = queue.claim()? {
        queue.finish(number)?;
    }
    queue.sync()?;
    Ok(number)
}
