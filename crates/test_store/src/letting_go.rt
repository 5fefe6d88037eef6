//! A store that is let go does nothing more to its file.

use lsm_codec::{Batch, Op};
use lsm_device::FileDevice;
use lsm_open::format;
use lsm_store::Store;
use std::alloc::Global;
use std::fs;
use std::fs::{File, Files};
use std::process::Abort;

/// A new file with an empty store, opened.
fn opened<R: Files<File = File> + Abort>(rt: &R, alloc: Global, path: &str) -> Store<FileDevice> {
    let device = FileDevice::create(rt, path, 8_192).expect(rt, "a file");
    let device = match format(alloc, device, 128) {
        Ok(device) => device,
        Err((refusal, _)) => rt.panic(refusal.name()),
    };
    match Store::open(alloc, device, 256) {
        Ok(store) => store,
        Err((refusal, _)) => rt.panic(refusal.name()),
    }
}

/// A batch of one put.
fn batch<R: Abort>(rt: &R, alloc: Global) -> Batch {
    let op = Op::put(alloc, b"a", b"1").expect(rt, "an operation");
    Batch::new(alloc, op).expect(rt, "a batch")
}

/// Commits a batch that is not synced.
fn commit<R: Abort>(rt: &R, alloc: Global, store: &mut Store<FileDevice>) {
    store.commit(&batch(rt, alloc)).expect(rt, "a number");
}

#[test]
fn a_store_that_is_let_go_leaves_its_file(rt: HostRuntime) {
    let path = "a_store_that_is_let_go_leaves_its_file.img";
    let mut store = opened(&rt, rt.alloc(), path);
    commit(&rt, rt.alloc(), &mut store);
    let before = fs::read(&rt, path).expect(&rt, "its bytes");
    drop(store);
    let same = fs::read(&rt, path).expect(&rt, "its bytes") == before;
    fs::remove_file(&rt, path).expect(&rt, "no file");
    assert!(rt; same);
}
