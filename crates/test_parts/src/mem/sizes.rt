//! How large the entries of a table are told to be.

use crate::codec::batches::Operation;
use crate::mem::tables::Table;
use lsm_mem::MemSize;
use std::alloc::Global;
use std::process::Abort;

/// A put and two deletes, one of them of the same key.
const THREE: [&[Operation]; 2] = [&[(b"a", Some(b"1")), (b"bb", None)], &[(b"a", None)]];

/// Whether a table of these batches tells this size, and tells it once it takes no more batches.
fn tells<R: Abort>(rt: &R, alloc: Global, batches: &[&[Operation]], wanted: MemSize) -> bool {
    let table = Table::of(rt, alloc, batches);
    let told = table.mem().size();
    let sealed = table.seal(rt).size();
    told == wanted && sealed == wanted
}

#[test]
fn each_operation_is_an_entry_with_12_bytes_besides_key_and_value(rt: HostRuntime) {
    // 14 bytes for the put, and 14 and 13 for the deletes.
    let three = MemSize {
        entries: 3,
        bytes: 41,
        large: 0,
        deletes: 2,
        delete_bytes: 27,
        largest: 14,
    };
    assert!(rt; tells(&rt, rt.alloc(), &[], MemSize::empty()));
    assert!(rt; tells(&rt, rt.alloc(), &THREE, three));
}
