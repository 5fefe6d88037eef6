//! What a device of one's own counts.

use lsm_device::Calls;

#[test]
fn a_run_counts_each_of_its_reads_or_the_one_that_faulted(rt: HostRuntime) {
    let mut calls = Calls::NONE;
    calls.count_read_run(3, true);
    assert!(rt; (calls.reads, calls.faults, calls.last_faulted) == (3, 0, false));
    calls.count_read_run(5, false);
    assert!(rt; (calls.reads, calls.faults, calls.last_faulted) == (4, 1, true));
    calls.count_read_run(1, true);
    assert!(rt; (calls.reads, calls.faults, calls.last_faulted) == (5, 1, false));
    assert!(rt; (calls.writes, calls.syncs) == (0, 0));
}
