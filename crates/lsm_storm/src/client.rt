// What one client of a storm does.
ghost use Rattle.std.specs.Prelude.{◌≡◌};

use lsm_codec::{Batch, Op};
use lsm_device::{MemDevice, Refusal};
use lsm_lives::Call;
use lsm_shared::{Client, Shared};
use lsm_trail::SessionName;
use std::alloc::Global;
use std::sync::Wait;

// The key of a client's commit: the two numbers, each in two bytes.
fn key_of(client: u32, commit: u16) -> [u8; 4] {
    let [_, _, a, b] = client.to_be_bytes();
    let [c, d] = commit.to_be_bytes();
    [a, b, c, d]
}

// A batch of one put, whose value is its key.
fn batch_of(alloc: Global, key: &[u8; 4]) -> Result<Batch, Refusal> {
    Batch::new(alloc, Op::put(alloc, key, key)?)
}

// Makes one commit, whatever comes of it. Where there is no memory for its batch it makes none.
fn commit<B: SessionName, R: Wait>(
    rt: &R,
    alloc: Global,
    shared: &Shared<MemDevice, Global, B>,
    me: &mut Client<Global, B>,
    number: u16,
)
    ensures { me.new.number ≡ me.old.number }
{
    let Ok(batch) = batch_of(alloc, &key_of(me.number(), number)) else {
        return;
    };
    let _ = me.call(rt, shared, Call::Commit(batch));
}

// Rotates before the commit of this number where it is in the middle of `commits`, ignoring any error.
fn rotate_in_the_middle<B: SessionName, R: Wait>(
    rt: &R,
    shared: &Shared<MemDevice, Global, B>,
    me: &mut Client<Global, B>,
    number: u16,
    commits: u16,
)
    ensures { me.new.number ≡ me.old.number }
{
    if number != commits / 2 {
        return;
    }
    let _ = me.call(rt, shared, Call::Rotate);
}

/// Makes `commits` commits, each of a key of its own, and in their middle one rotation, ignoring any error.
pub(crate) fn commit_all<B: SessionName, R: Wait>(
    rt: &R,
    alloc: Global,
    shared: &Shared<MemDevice, Global, B>,
    me: &mut Client<Global, B>,
    commits: u16,
)
    ensures { me.new.number ≡ me.old.number }
{
    for number in 0..commits {
        rotate_in_the_middle(rt, shared, me, number, commits);
        commit(rt, alloc, shared, me, number);
    }
}
