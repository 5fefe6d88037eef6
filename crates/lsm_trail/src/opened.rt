// The words of a session that is about to begin.
ghost use Rattle.std.specs.Prelude.{◌≡◌, ◌+◌, ◌*◌, ◌<◌, ◌≤◌, [], IfOk, MatchResult};
ghost use Rattle.lsm_trail.specs.Begins.{CanPin};
ghost use Rattle.lsm_trail.specs.Knowledge.{keeper_of, IsKeeperPass};
ghost use Rattle.lsm_trail.specs.Rule.{first_view};

use crate::counters::Counters;
use crate::knowledge::Pass;
use crate::rule::Board;
use crate::start::{SessionName, Start};
use lsm_device::Device;
use lsm_store::Store;
use std::alloc::{AllocError, Allocator, Global};
use std::marker::Model;

/// What a session begins with, its words, which are those of an empty history, and the pass that writes them. The session
/// has no name yet: a generic function that is called with this gives it one.
pub struct Opened<D: Device, A: Allocator = Global> {
    start: Start<D, A>,
    board: Board<D, A>,
    keeper: Pass<A>,
}

// One call at each exit of a caller, in the place of the drops of all fields.
impl<D: Device + Drop, A: Allocator> Drop for Opened<D, A> {
    fn drop(self) {
        let Opened {
            start: _,
            board: _,
            keeper: _,
        } = self;
    }
}

impl<D: Device, A: Allocator> Model for Opened<D, A> {
    ghost use Rattle.std.specs.Coded.{codes};
    ghost use Rattle.lsm_codec.specs.Map.{map_code};
    ghost use Rattle.lsm_trail.specs.Knowledge.{SessionId};

    ghost Value = { SessionId };

    ghost coded = { Prim.hlevel (codes, map_code) };

    ghost use Rattle.std.specs.Prelude.{◌≡◌, ◌+◌, ◌*◌, ◌<◌, ◌≤◌, []};
    ghost use Rattle.lsm_trail.specs.Begins.{CanPin};
    ghost use Rattle.lsm_trail.specs.Rule.{first_view};

    ghost view = { λ o. record { table = o.board.shared.table_id; begin = o.start } };

    ghost invariant = { λ o. (o.board.shared.key ≡ o.start) × (o.board.shared.table_id.words ≡ 3 * o.start.limit + 4) × (o.start.limit ≤ 65536) × (0 < o.start.clients) × (o.keeper.table_id ≡ o.board.shared.table_id) × (o.keeper.me ≡ (first_view o.start, [])) × CanPin o.start };
}

impl<D: Device, A: Allocator + Clone> Opened<D, A> {
    /// Makes the words. Want of memory hands back what the session was to begin with.
    pub fn new(alloc: A, start: Start<D, A>) -> Result<Opened<D, A>, Start<D, A>>
        requires { (start.limit ≤ 65536) × (0 < start.clients) × CanPin start }
        ensures { MatchResult result (λ o. o.begin ≡ start) (λ s. s ≡ start) }
    {
        match open_board(alloc, &start) {
            Ok((board, keeper)) => Ok(Opened {
                start,
                board,
                keeper,
            }),
            Err(AllocError) => Err(start),
        }
    }
}

impl<D: Device, A: Allocator> Opened<D, A> {
    /// The places of the trail to be.
    pub fn limit(&self) -> u32
        ensures { (result ≡ self.now.begin.limit) × (result ≤ 65536) }
    {
        self.start.limit
    }

    /// How many clients there are to be.
    pub fn clients(&self) -> u32
        ensures { (result ≡ self.now.begin.clients) × (0 < result) }
    {
        self.start.clients
    }

    /// The store, where the session doesn't begin.
    pub fn into_store(self) -> Store<D, A>
        ensures { result ≡ self.begin.store }
    {
        let Opened {
            start,
            board: _,
            keeper: _,
        } = self;
        start.store
    }

    /// The parts of the session under its name: the store, the words, and the pass that writes them.
    pub fn named<B: SessionName>(self) -> (Store<D, A>, Counters<D, A, B>, Pass<A>)
        requires { self ≡ B.id }
        ensures store { result.0 ≡ B.id.begin.store }
        ensures base { CanPin B.id.begin }
        ensures keeper { IsKeeperPass B.id [] result.2 × ((keeper_of result.2).dealt ≡ 0) }
    {
        let Opened {
            start,
            board,
            keeper,
        } = self;
        (start.store, Counters::new(board), keeper)
    }
}

// The words of an empty history, on which the store that the session begins with tells the numbers.
fn open_board<D: Device, A: Allocator + Clone>(
    alloc: A,
    start: &Start<D, A>,
) -> Result<(Board<D, A>, Pass<A>), AllocError>
    requires { (start.now.limit ≤ 65536) × CanPin start.now }
    ensures { IfOk result (λ r. (r.0.shared.key ≡ start.now)
        × (r.0.shared.table_id.words ≡ 3 * start.now.limit + 4)
        × (r.1.table_id ≡ r.0.shared.table_id) × (r.1.me ≡ (first_view start.now, []))) }
{
    let mut words = Vec::from_elem(alloc.clone()?, 0u64, 3 * start.limit as usize + 4)?;
    words[2] = start.store.batch_count();
    words[3] = start.store.synced_count();
    Board::of_words(alloc, words.as_slice(), start)
}
