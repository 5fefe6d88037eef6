// What a reader of a store and of what waits for its commit sees.
ghost use Rattle.corwaphi.specs.Buffering.{BufferLaw};

/// The writes and reads of a [`BufferedDb`](crate::BufferedDb) are those of one map, that of its store with what waits: a write changes it by
/// its operation, a commit doesn't change it, and a read gives what it has.
pub fn buffers_show_one_map()
    ensures { BufferLaw }
{}
