//! Batches and their texts.

use linked_list_allocator::LocalHeap;
use lsm_codec::{Batch, Op, Operations};
use lsm_device::Refusal;
use std::alloc::Global;
use std::process::Abort;

/// A key with its value, or with none where it is deleted.
pub type Operation = (&'static [u8], Option<&'static [u8]>);

/// The batch of these operations.
pub fn batch_of<R: Abort>(rt: &R, alloc: Global, operations: &[Operation]) -> Batch {
    let (first, others) = operations.split_first().expect(rt, "an operation");
    let made = match first.1 {
        Some(value) => Op::put(alloc, first.0, value),
        None => Op::delete(alloc, first.0),
    };
    let mut batch = Batch::new(alloc, made.expect(rt, "an operation")).expect(rt, "a batch");
    for (key, value) in others {
        let added = match value {
            Some(value) => batch.put(key, value),
            None => batch.delete(key),
        };
        assert!(rt; added.is_ok());
    }
    batch
}

/// Whether the operations are these.
fn are(mut operations: Operations<'_>, wanted: &[Operation]) -> bool {
    for (key, value) in wanted {
        match operations.next() {
            Some(found) if found.key == *key && found.value == *value => (),
            _ => return false,
        }
    }
    operations.next().is_none()
}

/// The batch that a text spells, if it spells one.
fn read<R: Abort>(rt: &R, alloc: Global, text: &[u8]) -> Option<Batch> {
    Batch::decode(alloc, text).expect(rt, "memory")
}

/// Whether the batch of these operations has this text, and is read back from it.
fn is_spelled<R: Abort>(rt: &R, alloc: Global, operations: &[Operation], text: &str) -> bool {
    let batch = batch_of(rt, alloc, operations);
    let bytes = batch.text();
    let again = read(rt, alloc, bytes).expect(rt, "a batch");
    hex::encode(alloc, bytes).expect(rt, "memory").as_str() == text
        && batch.text_len() == bytes.len()
        && again.text_len() == bytes.len()
        && are(again.operations(), operations)
}

#[test]
fn texts_of_batches(rt: HostRuntime) {
    let put: [Operation; 1] = [(b"a", Some(b"1"))];
    assert!(rt; is_spelled(&rt, rt.alloc(), &put, "0001010161000131"));
    let three: [Operation; 3] = [(b"a", None), (b"b", Some(b"")), (b"c", None)];
    assert!(rt; is_spelled(&rt, rt.alloc(), &three, "00030201610101620000020163"));
}

/// Whether a batch is spelled by the bytes of the hex text and so many zeros behind them.
fn is_batch<R: Abort>(rt: &R, alloc: Global, text: &str, zeros: usize) -> bool {
    let mut bytes = hex::decode(alloc, text).expect(rt, "hex");
    assert!(rt; bytes.len() <= 100 && zeros <= 3_000);
    bytes.resize(bytes.len() + zeros, 0).expect(rt, "memory");
    read(rt, alloc, &bytes).is_some()
}

#[test]
fn texts_that_spell_a_batch_and_that_spell_none(rt: HostRuntime) {
    for (text, zeros, fits) in [
        ("00010101000800", 2_048, true), // A value of 2,048 bytes.
        ("00010101000801", 2_049, false), // A value of 2,049 bytes.
        ("", 0, false), // No byte.
        ("0000", 0, false), // No operation.
        ("0001", 0, false), // An operation is missing.
        ("00010101610001", 0, false), // A byte is missing.
        ("0002010161000131", 0, false), // An operation is missing.
        ("000101016100013100", 0, false), // A byte more.
        ("0001030161000131", 0, false), // Another kind.
        ("0001000161000131", 0, false), // Another kind.
        ("00010100000131", 0, false), // A key without a byte.
        ("00010200", 0, false), // A key without a byte.
    ] {
        assert!(rt; is_batch(&rt, rt.alloc(), text, zeros) == fits, "{text}");
    }
}

/// How many operations a batch has.
fn count(batch: &Batch<&LocalHeap>) -> usize {
    let mut count = 0usize;
    for _operation in batch.operations() {
        count = count.wrapping_add(1);
    }
    count
}

/// Puts six operations more. One that is refused has to leave the batch, or this is refused otherwise.
fn put_six(batch: &mut Batch<&LocalHeap>) -> Result<(), Refusal> {
    for _ in 0..6 {
        let before = count(batch);
        if let Err(refusal) = batch.put(b"b", &[2; 40]) {
            let is_left = count(batch) == before;
            return Err(if is_left {
                refusal
            } else {
                Refusal::WrongState
            });
        }
    }
    Ok(())
}

/// The size of the text of seven puts that is read back, or what refuses it.
fn size_of_seven(heap: &LocalHeap) -> Result<usize, Refusal> {
    let mut batch = Batch::new(heap, Op::put(heap, b"a", &[1; 40])?)?;
    put_six(&mut batch)?;
    match Batch::decode(heap, batch.text())? {
        Some(again) => Ok(again.text_len()),
        None => Ok(0),
    }
}

#[test]
fn each_growth_is_refused_in_turn(rt: HostRuntime) {
    let mut refused = 0u32;
    let mut whole = 0u32;
    for step in 1..160usize {
        let heap = LocalHeap::new(rt.alloc(), step * 32).expect(&rt, "a heap");
        match size_of_seven(&heap) {
            // Want of memory in the smaller heaps, else the whole batch.
            Err(Refusal::NoMemory) if whole == 0 => refused = refused.wrapping_add(1),
            Ok(317) => whole = whole.wrapping_add(1), // 2 + 7 * 45.
            _ => (),
        }
    }
    assert!(rt; refused > 10 && whole > 10 && refused.wrapping_add(whole) == 159);
}
