//! Bytes as words of a line, where memory is short. Which words say which bytes is told by `tests/runs/words.txt`.

use linked_list_allocator::LocalHeap;
use lsm_codec::{unword, word};
use lsm_device::Refusal;
use std::alloc::Global;
use std::process::Abort;

/// Whether want of memory is told of a word, and of its bytes.
fn wants_memory<R: Abort>(rt: &R, alloc: Global, heap: &LocalHeap) -> bool {
    let text = word(alloc, &[7; 200]).expect(rt, "a word");
    word(heap, &[7; 200]).err() == Some(Refusal::NoMemory)
        && unword(heap, text.as_str()).err() == Some(Refusal::NoMemory)
}

#[test]
fn words_without_memory(rt: HostRuntime) {
    let heap = LocalHeap::new(rt.alloc(), 64).expect(&rt, "a heap");
    assert!(rt; wants_memory(&rt, rt.alloc(), &heap));
}
