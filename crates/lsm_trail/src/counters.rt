// The words of a session, which the lock's holder writes.
ghost use Rattle.std.specs.Prelude.{◌≡◌, ℕ, ◌+◌, ◌*◌, ◌<◌, ◌≤◌, [], ◌∷◌, ◌++◌, length, Some, None};
ghost use mathlib.Core.List.{IsPrefix};
ghost use Rattle.lsm_trail.specs.History.{IsLegal, entries_by, numbers};
ghost use Rattle.lsm_trail.specs.Knowledge.{known, Sees, keeping, view_of, IsClientPass, IsKeeperPass, IsToldPass, HasBoth, known_of, keeper_of, told_to, row_of};
ghost use Rattle.lsm_trail.specs.Steps.{published};

use crate::entry::TrailEntry;
use crate::knowledge::Pass;
use crate::numbers::Numbers;
use crate::rule::{
    Board, Compare, Deal, Hear, Lend, Look, Note, Nothing, Peek, Publish, Put, Tell,
};
use crate::start::SessionName;
use lsm_device::Device;
use std::alloc::{Allocator, Global};
use std::marker::PhantomData;
use std::mem;

/// The words of a session: the length of its history, and the numbers of each of its beginnings. The lock's holder writes
/// them in each hold that makes an entry, and they may be read without the lock.
#[derive(Drop)]
pub struct Counters<D: Device, A: Allocator, B: SessionName> {
    board: Board<D, A>,
    name: PhantomData<B>,
    ghost table: { board.shared.table_id ≡ B.id.table },
    ghost key: { board.shared.key ≡ B.id.begin },
    ghost wide: { B.id.table.words ≡ 3 * B.id.begin.limit + 4 },
    ghost small: { B.id.begin.limit ≤ 65536 },
}

impl<D: Device, A: Allocator, B: SessionName> Counters<D, A, B> {
    pub(crate) fn new(board: Board<D, A>) -> Counters<D, A, B>
        requires { (board.shared.table_id ≡ B.id.table) × (board.shared.key ≡ B.id.begin)
            × (B.id.table.words ≡ 3 * B.id.begin.limit + 4) × (B.id.begin.limit ≤ 65536) }
    {
        Counters {
            board,
            name: PhantomData,
        }
    }

    // The lock's pass takes in the client's part.
    fn take_in(&self, keeper: &mut Pass<A>, client: &mut Pass<A>)
        requires keeper { IsKeeperPass B.id (keeper_of keeper.old).log keeper.old }
        requires client { IsClientPass B.id client.old }
        ensures { HasBoth B.id (keeper_of keeper.old) (known_of client.old) keeper.new }
    {
        let shared = &self.board.shared;
        let blank = shared.split_seat::<Nothing>(keeper);
        let pass = mem::replace(client, blank);
        shared.join_seat::<Lend>(keeper, pass);
    }

    // And gives it back.
    fn give_back(&self, keeper: &mut Pass<A>, client: &mut Pass<A>)
        requires { HasBoth B.id (keeper_of keeper.old) (known_of keeper.old) keeper.old }
        ensures keeper { (keeper.new.table_id ≡ B.id.table)
            × (keeper.new.me ≡ (view_of (Some (keeper_of keeper.old)) None, [])) }
        ensures client { (client.new.table_id ≡ B.id.table)
            × (client.new.me ≡ (view_of None (Some (known_of keeper.old)), [])) }
    {
        *client = self.board.shared.split_seat::<Lend>(keeper);
    }

    // Writes the numbers of the history to come.
    fn put_row(&self, keeper: &mut Pass<A>, count: usize, next: Numbers)
        requires pass { HasBoth B.id (keeper_of keeper.old) (known_of keeper.old) keeper.old }
        requires draft { (keeper_of keeper.old).draft ≡ [] }
        requires count { (length (keeper_of keeper.old).log ≡ count) × (count < B.id.begin.limit) }
        ensures { HasBoth B.id
            (keeping (keeper_of keeper.old).begin (keeper_of keeper.old).dealt
            (keeper_of keeper.old).log (row_of next)) (known_of keeper.old) keeper.new }
    {
        let shared = &self.board.shared;
        let row = 3 * count + 4;
        shared.store::<Put>(keeper, row, next.calls);
        shared.store::<Put>(keeper, row + 1, next.batches);
        shared.store::<Put>(keeper, row + 2, next.synced);
    }

    // Makes the history longer by the entry.
    fn publish(&self, keeper: &mut Pass<A>, count: usize, entry: &TrailEntry<A>)
        requires pass { HasBoth B.id (keeper_of keeper.old) (known_of keeper.old) keeper.old }
        requires draft { (keeper_of keeper.old).draft
            ≡ row_of (numbers B.id.begin ((keeper_of keeper.old).log ++ entry.now ∷ [])) }
        requires count { (length (keeper_of keeper.old).log ≡ count) × (count < B.id.begin.limit) }
        requires client { entry.now.client ≡ (known_of keeper.old).number }
        requires legal { IsLegal B.id.begin ((keeper_of keeper.old).log ++ entry.now ∷ []) }
        ensures pass { (keeper.new.table_id ≡ B.id.table)
            × (keeper.new.me
            ≡ (published (keeper_of keeper.old) (known_of keeper.old) entry.now, [])) }
        ensures knew { IsPrefix (known_of keeper.old).seen (keeper_of keeper.old).log
            × (entries_by (known_of keeper.old).number (keeper_of keeper.old).log
            ≡ (known_of keeper.old).mine) }
    {
        let count = count as u64;
        self.board
            .shared
            .compare_exchange_with::<Publish>(keeper, 0, count, count + 1, entry);
    }

    /// Writes an entry of the client: the history is longer by it, its numbers are in the words, and the client has seen
    /// it.
    pub fn write(
        &self,
        keeper: &mut Pass<A>,
        client: &mut Pass<A>,
        count: usize,
        next: Numbers,
        entry: &TrailEntry<A>,
    )
        requires keeper { IsKeeperPass B.id (keeper_of keeper.old).log keeper.old }
        requires client { IsClientPass B.id client.old }
        requires count { (length (keeper_of keeper.old).log ≡ count) × (count < B.id.begin.limit) }
        requires next { next ≡ numbers B.id.begin ((keeper_of keeper.old).log ++ entry.now ∷ []) }
        requires by { entry.now.client ≡ (known_of client.old).number }
        requires legal { IsLegal B.id.begin ((keeper_of keeper.old).log ++ entry.now ∷ []) }
        ensures keeper { IsKeeperPass B.id ((keeper_of keeper.old).log ++ entry.now ∷ [])
            keeper.new }
        ensures dealt { (keeper_of keeper.new).dealt ≡ (keeper_of keeper.old).dealt }
        ensures client { IsClientPass B.id client.new }
        ensures known { known_of client.new
            ≡ known B.id.begin (known_of client.old).number
            ((keeper_of keeper.old).log ++ entry.now ∷ [])
            ((known_of client.old).mine ++ entry.now ∷ []) }
        ensures knew { IsPrefix (known_of client.old).seen (keeper_of keeper.old).log
            × (entries_by (known_of client.old).number (keeper_of keeper.old).log
            ≡ (known_of client.old).mine) }
    {
        self.take_in(keeper, client);
        self.put_row(keeper, count, next);
        self.publish(keeper, count, entry);
        self.give_back(keeper, client);
    }

    /// The client sees the whole history, where no entry is made.
    pub fn note(&self, keeper: &mut Pass<A>, client: &mut Pass<A>)
        requires keeper { IsKeeperPass B.id (keeper_of keeper.old).log keeper.old }
        requires client { IsClientPass B.id client.old }
        ensures keeper { IsKeeperPass B.id (keeper_of keeper.old).log keeper.new }
        ensures dealt { (keeper_of keeper.new).dealt ≡ (keeper_of keeper.old).dealt }
        ensures client { IsClientPass B.id client.new }
        ensures known { known_of client.new
            ≡ known B.id.begin (known_of client.old).number (keeper_of keeper.old).log
            (known_of client.old).mine }
        ensures knew { IsPrefix (known_of client.old).seen (keeper_of keeper.old).log
            × (entries_by (known_of client.old).number (keeper_of keeper.old).log
            ≡ (known_of client.old).mine) }
    {
        self.take_in(keeper, client);
        self.board.shared.load::<Note>(keeper, 0);
        self.give_back(keeper, client);
    }

    // The client sees the history as it is at this moment, which is so long.
    fn look(&self, client: &mut Pass<A>) -> u64
        requires { IsClientPass B.id client.old }
        ensures client { IsClientPass B.id client.new }
        ensures sees { Sees (known_of client.old) (known_of client.new) }
        ensures size { length (known_of client.new).seen ≡ result }
    {
        self.board.shared.load::<Look>(client, 0)
    }

    // Reads the numbers of what the client has seen, which is so long. They stay, however long the history has become.
    fn read_row(&self, client: &mut Pass<A>, count: u64) -> Numbers
        requires client { IsClientPass B.id client.old }
        requires count { (length (known_of client.old).seen ≡ count) × (count ≤ B.id.begin.limit) }
        ensures client { IsClientPass B.id client.new }
        ensures known { known_of client.new ≡ known_of client.old }
        ensures told { result ≡ numbers B.id.begin (known_of client.old).seen }
    {
        let shared = &self.board.shared;
        let row = 3 * count as usize;
        let calls = shared.load::<Peek>(client, row + 1);
        let batches = shared.load::<Peek>(client, row + 2);
        let synced = shared.load::<Peek>(client, row + 3);
        Numbers {
            calls,
            batches,
            synced,
        }
    }

    /// The numbers of the history as it is at one moment of this call, and the client has seen this history. It takes no
    /// lock and no memory, and waits for nobody.
    pub fn watch(&self, client: &mut Pass<A>) -> Numbers
        requires { IsClientPass B.id client.old }
        ensures client { IsClientPass B.id client.new }
        ensures sees { Sees (known_of client.old) (known_of client.new) }
        ensures told { result ≡ numbers B.id.begin (known_of client.new).seen }
    {
        let count = self.look(client);
        self.read_row(client, count)
    }

    /// A pass that tells what the client has seen. It takes no lock and no memory, and waits for nobody.
    pub fn tell(&self, client: &mut Pass<A>) -> Pass<A>
        requires { IsClientPass B.id client.old }
        ensures client { IsClientPass B.id client.new
            × (known_of client.new ≡ known_of client.old) }
        ensures told { IsToldPass B.id (known_of client.old).seen result }
    {
        self.board.shared.split_seat::<Tell>(client)
    }

    /// The client sees the history as it is at one moment of this call, which begins with what it is told. It takes no lock and
    /// no memory, and waits for nobody.
    pub fn hear(&self, client: &mut Pass<A>, told: Pass<A>)
        requires client { IsClientPass B.id client.old }
        requires told { IsToldPass B.id (told_to told) told }
        ensures client { IsClientPass B.id client.new }
        ensures sees { Sees (known_of client.old) (known_of client.new) }
        ensures heard { IsPrefix (told_to told) (known_of client.new).seen }
    {
        let shared = &self.board.shared;
        shared.join_seat::<Hear>(client, told);
        shared.load::<Look>(client, 0);
    }

    /// The pass of a new client.
    pub fn deal(&self, keeper: &mut Pass<A>) -> Pass<A>
        requires { IsKeeperPass B.id (keeper_of keeper.old).log keeper.old }
        ensures keeper { IsKeeperPass B.id (keeper_of keeper.old).log keeper.new
            × ((keeper_of keeper.new).dealt ≡ (keeper_of keeper.old).dealt + 1) }
        ensures client { IsClientPass B.id result
            × (known_of result ≡ known B.id.begin (keeper_of keeper.old).dealt [] []) }
    {
        self.board.shared.split_seat::<Deal>(keeper)
    }

    /// The client is no more. The history begins with what it had seen, and its calls in it are those that it made.
    pub fn retire(&self, keeper: &mut Pass<A>, client: Pass<A>)
        requires keeper { IsKeeperPass B.id (keeper_of keeper.old).log keeper.old }
        requires client { IsClientPass B.id client }
        ensures keeper { (keeper.new.table_id ≡ keeper.old.table_id)
            × (keeper.new.me ≡ keeper.old.me) }
        ensures seen { IsPrefix (known_of client).seen (keeper_of keeper.old).log }
        ensures calls { entries_by (known_of client).number (keeper_of keeper.old).log
            ≡ (known_of client).mine }
        ensures strangers { (x : ℕ) → (keeper_of keeper.old).dealt ≤ x
            → entries_by x (keeper_of keeper.old).log ≡ [] }
    {
        self.board.shared.join_seat::<Lend>(keeper, client);
        self.board.shared.load::<Compare>(keeper, 0);
    }
}
