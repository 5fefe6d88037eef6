//! An allocator that several threads share, and that refuses once so many blocks were taken, or the block behind so many. It also tells
//! whether so many threads ask it at the same time.

ghost use Rattle.std.specs.Prelude.{◌≡◌, IfSome};

use std::alloc::{AllocError, Allocator};
use std::sync::atomic::{AtomicU64, Ordering};

/// How often a thread that asks for a block looks whether the others have come: some fifty milliseconds. A part of a merge takes few blocks,
/// so on a busy machine each of them has to wait long enough.
const LOOKS: u32 = 10_000_000;

/// How often threads wait in vain before none waits any more.
const WAITS: u64 = 100;

/// Where threads that ask for a block meet.
#[derive(Drop)]
struct Crowd {
    /// How many are here.
    here: AtomicU64,
    /// How many have to be here at the same time. None, where nobody has to wait, or all have met.
    wanted: AtomicU64,
    /// How often one waited in vain.
    vain: AtomicU64,
}

impl Crowd {
    fn new() -> Crowd {
        Crowd {
            here: AtomicU64::new(0),
            wanted: AtomicU64::new(0),
            vain: AtomicU64::new(0),
        }
    }

    /// Waits for the others, but not for long. It tells whether all have met.
    fn wait(&self) -> bool {
        for _ in 0..LOOKS {
            let wanted = self.wanted.load(Ordering::SeqCst);
            if self.here.load(Ordering::SeqCst) >= wanted {
                self.wanted.store(0, Ordering::SeqCst);
                return true;
            }
        }
        false
    }

    /// Waits for the others, unless all have met, or too many have waited in vain.
    fn meet(&self) {
        let is_wanted = self.wanted.load(Ordering::SeqCst) > 0;
        if is_wanted && self.vain.load(Ordering::SeqCst) < WAITS {
            self.here.fetch_add(1, Ordering::SeqCst);
            if !self.wait() {
                self.vain.fetch_add(1, Ordering::SeqCst);
            }
            self.here.fetch_sub(1, Ordering::SeqCst);
        }
    }
}

/// Hands each call on, but refuses a block where as many were asked for as are allowed, and not yet as many as are allowed
/// again. A `&` to it is an allocator too.
#[derive(Drop)]
pub struct Budget<A> {
    inner: A,
    asked: AtomicU64,
    most: AtomicU64,
    again: AtomicU64,
    crowd: Crowd,
}

/// Whether the next block is allowed, where so many are, and again from another number on.
fn take(asked: &AtomicU64, most: &AtomicU64, again: &AtomicU64) -> bool {
    let before = asked.fetch_add(1, Ordering::SeqCst);
    before < most.load(Ordering::SeqCst) || before >= again.load(Ordering::SeqCst)
}

impl<A> Budget<A> {
    /// So many blocks are allowed at first.
    pub fn new(inner: A, blocks: u64) -> Budget<A> {
        Budget {
            inner,
            asked: AtomicU64::new(0),
            most: AtomicU64::new(blocks),
            again: AtomicU64::new(u64::MAX),
            crowd: Crowd::new(),
        }
    }

    /// From now on so many more blocks are allowed.
    pub fn allow(&self, blocks: u64) {
        self.asked.store(0, Ordering::SeqCst);
        self.most.store(blocks, Ordering::SeqCst);
        self.again.store(u64::MAX, Ordering::SeqCst);
    }

    /// From now on so many more blocks are allowed, the next one is refused, and those behind it are allowed again.
    pub fn refuse_after(&self, blocks: u64) {
        self.allow(blocks);
        self.again.store(blocks.saturating_add(1), Ordering::SeqCst);
    }

    /// Whether a block was refused since the last call of the two above.
    pub fn has_refused(&self) -> bool {
        self.asked.load(Ordering::SeqCst) > self.most.load(Ordering::SeqCst)
    }

    /// From now on each thread that asks for a block waits a while for the others, until so many have asked at the same time.
    pub fn gather(&self, threads: u64) {
        self.crowd.vain.store(0, Ordering::SeqCst);
        self.crowd.wanted.store(threads, Ordering::SeqCst);
    }

    /// Whether they have. Nobody waits from now on.
    pub fn has_gathered(&self) -> bool {
        self.crowd.wanted.swap(0, Ordering::SeqCst) == 0
    }

    /// The allocator that gives the next block, where one is allowed.
    fn lent(&self) -> Option<&A>
        ensures { IfSome result (λ h. h.now ≡ self.now.inner) }
    {
        self.crowd.meet();
        if take(&self.asked, &self.most, &self.again) {
            return Some(&self.inner);
        }
        None
    }
}

unsafe impl<A: Allocator> Allocator for Budget<A> {
    ghost dealloc_token = { λ heap ty ptr. A.dealloc_token heap.inner ty ptr };

    fn allocate(&self, size: usize, align: usize) -> Result<*mut u8, AllocError> {
        match self.lent() {
            Some(alloc) => alloc.allocate(size, align),
            None => Err(AllocError),
        }
    }

    unsafe fn deallocate(&self, ptr: *mut u8, size: usize, align: usize) {
        self.inner.deallocate(ptr, size, align);
    }
}
