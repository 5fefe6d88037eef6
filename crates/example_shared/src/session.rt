// A session of two clients, each in a thread of its own.
ghost use Rattle.std.specs.Prelude.{◌≡◌, [], ◌∷◌, IfOk, IfSome};
ghost use Rattle.lsm_trail.specs.Knowledge.{known};
ghost use Rattle.lsm_shared.specs.Clients.{newcomers};
ghost use Rattle.example_shared.specs.Shares.{HasStored, IsShared};

use crate::client::store;
use lsm_codec::Batch;
use lsm_device::{MemDevice, Refusal};
use lsm_shared::{Client, Shared};
use lsm_store::Store;
use lsm_trail::{Opened, SessionName, Trail};
use std::alloc::{AllocError, Global};
use std::sync::Wait;
use std::thread::{Threads, join};

// The clients of a session that has two.
fn two_of<B: SessionName>(
    clients: Vec<Client<Global, B>>,
) -> Option<(Client<Global, B>, Client<Global, B>)>
    requires { clients.items ≡ newcomers B.id.begin 2 }
    ensures { IfSome result (λ r. (r.0 ≡ known B.id.begin 0 [] [])
        × (r.1 ≡ known B.id.begin 1 [] [])) }
{
    let mut clients = clients;
    let two = clients.pop()?;
    let one = clients.pop()?;
    Some((one, two))
}

// Lets each client commit its batch and sync, in a thread of its own.
pub(crate) fn store_both<B: SessionName + Send + Sync, R: Threads + Wait + Sync>(
    rt: &R,
    shared: &Shared<MemDevice, Global, B>,
    one: Client<Global, B>,
    two: Client<Global, B>,
    first: Batch,
    second: Batch,
) -> Result<(Client<Global, B>, Client<Global, B>), Refusal>
    requires one { one.mine ≡ [] }
    requires two { two.mine ≡ [] }
    ensures one { IfOk result (λ new. HasStored one first new.0) }
    ensures two { IfOk result (λ new. HasStored two second new.1) }
{
    let (stored, also) = join(
        rt,
        || -> Result<Client<Global, B>, Refusal>
            requires { one.mine ≡ [] }
            ensures { IfOk result (λ client. HasStored one first client) }
        { store(rt, shared, one, first) },
        || -> Result<Client<Global, B>, Refusal>
            requires { two.mine ≡ [] }
            ensures { IfOk result (λ client. HasStored two second client) }
        { store(rt, shared, two, second) },
    );
    Ok((stored?, also?))
}

// Both clients in a list.
fn list_of<B: SessionName>(
    alloc: Global,
    one: Client<Global, B>,
    two: Client<Global, B>,
) -> Result<Vec<Client<Global, B>>, AllocError>
    ensures { IfOk result (λ list. list.items ≡ one ∷ two ∷ []) }
{
    let mut list = Vec::with_capacity(alloc, 2)?;
    list.push_reserved(one);
    list.push_reserved(two);
    Ok(list)
}

/// Begins the session, lets each client commit its batch and sync in a thread of its own, and ends the session. The trail then
/// has just these calls of each client, and both were answered.
pub fn in_two_threads<B: SessionName + Send + Sync, R: Threads + Wait + Sync>(
    rt: &R,
    alloc: Global,
    opened: Opened<MemDevice>,
    first: Batch,
    second: Batch,
) -> Result<(Store<MemDevice>, Trail), Refusal>
    requires session { opened ≡ B.id }
    requires clients { opened.begin.clients ≡ 2 }
    ensures { IfOk result (λ ended. IsShared opened.begin first second ended.0 ended.1) }
{
    let (shared, clients) = match Shared::<MemDevice, Global, B>::begin(alloc, opened) {
        Ok(begun) => begun,
        Err((refusal, _)) => return Err(refusal),
    };
    let (one, two) = match two_of(clients) {
        Some(two) => two,
        None => return Err(Refusal::NotYours),
    };
    let (one, two) = store_both(rt, &shared, one, two, first, second)?;
    let clients = list_of(alloc, one, two)?;
    match shared.finish(clients) {
        Ok(ended) => Ok(ended),
        Err((refusal, _, _)) => Err(refusal),
    }
}
