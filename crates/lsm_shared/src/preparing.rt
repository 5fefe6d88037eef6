// What a session needs before it has a name.
ghost use Rattle.std.specs.Prelude.{◌≡◌, ◌⊎◌, ◌<◌, ◌≤◌, Some, None, MatchResult};
ghost use Rattle.lsm_device.specs.declared.refusal.Refusal.TheVariants.{NoMemory};
ghost use Rattle.lsm_trail.specs.Begins.{CanPin};
ghost use Rattle.lsm_shared.specs.Sessions.{begin_refusal, begin_with};

use lsm_device::{Device, Refusal};
use lsm_store::Store;
use lsm_trail::{Opened, Start};
use std::alloc::Allocator;

const MOST_CLIENTS: u32 = 64;

const MOST_ENTRIES: u32 = 65_536;

/// Prepares a session of a store with `clients` clients and `trail` places in its trail: it makes the words that are read
/// without the lock. [`Shared::begin`](crate::Shared::begin) begins it, in a function that is generic in its name.
///
/// Fails with `Stopped`; with `TooManyClients` for no client or more than 64; with `BadLimit` for no place or more than
/// 65,536; with `TooManySnapshots` where 32 are live, and with `Exhausted` where 2^63 were taken, since the session pins one;
/// and with `NoMemory`. An error hands the store back.
pub fn prepare<D: Device, A: Allocator + Clone>(
    alloc: A,
    store: Store<D, A>,
    clients: u32,
    trail: u32,
) -> Result<Opened<D, A>, (Refusal, Store<D, A>)>
    ensures { MatchResult result
        (λ o. (begin_refusal store.state clients trail ≡ None)
        × (o.begin ≡ begin_with store clients trail))
        (λ e. (e.1 ≡ store)
        × ((begin_refusal store.state clients trail ≡ Some e.0)
        ⊎ ((begin_refusal store.state clients trail ≡ None) × (e.0 ≡ NoMemory)))) }
{
    if let Err(refusal) = check(&store, clients, trail) {
        return Err((refusal, store));
    }
    let start = Start {
        store,
        limit: trail,
        clients,
    };
    match Opened::new(alloc, start) {
        Ok(opened) => Ok(opened),
        Err(start) => Err((Refusal::NoMemory, start.store)),
    }
}

// The refusals that the arguments decide, in order.
fn check<D: Device, A: Allocator>(
    store: &Store<D, A>,
    clients: u32,
    trail: u32,
) -> Result<(), Refusal>
    ensures { MatchResult result
        (λ _. (begin_refusal store.now.state clients trail ≡ None) × (0 < clients) × (trail ≤ 65536)
        × CanPin (begin_with store.now clients trail))
        (λ e. begin_refusal store.now.state clients trail ≡ Some e) }
{
    store.log_room()?;
    if !(1..=MOST_CLIENTS).contains(&clients) {
        return Err(Refusal::TooManyClients);
    }
    if !(1..=MOST_ENTRIES).contains(&trail) {
        return Err(Refusal::BadLimit);
    }
    store.may_snapshot()?;
    Ok(())
}
