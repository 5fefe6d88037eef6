//! What a store tells of its memory, and its generation.

use crate::subject::begun;

#[test]
fn a_rotation_and_a_flush_move_what_is_in_memory_and_raise_the_generation(rt: HostRuntime) {
    let mut store = begun(&rt, rt.alloc());
    let (_, _, first) = store.numbers();
    assert!(rt; first < 1 << 62 && store.numbers() == (0, None, first));
    store.put(&rt, &[0x61], &[0x31]).expect(&rt, "a batch");
    assert!(rt; store.numbers() == (1, None, first));
    store.rotate(&rt);
    assert!(rt; store.numbers() == (0, Some(1), first + 1));
    assert!(rt; store.stands_still() == (false, true));
    store.settle();
    assert!(rt; store.numbers() == (0, None, first + 2));
    assert!(rt; store.stands_still() == (false, false));
}
