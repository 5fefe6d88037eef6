// A session of two clients and a worker, each in a thread of its own.
ghost use Rattle.std.specs.Prelude.{◌≡◌, [], ◌∷◌, IfOk, IfSome};
ghost use Rattle.lsm_trail.specs.Knowledge.{known};
ghost use Rattle.lsm_shared.specs.Clients.{newcomers};
ghost use Rattle.lsm_shared.specs.Workers.{MakesNoCall};
ghost use Rattle.example_shared.specs.Shares.{HasStored, IsShared};

use crate::session::store_both;
use crate::worker::work;
use lsm_codec::Batch;
use lsm_device::{MemDevice, Refusal};
use lsm_shared::{Client, Shared};
use lsm_store::Store;
use lsm_trail::{Opened, SessionName, Trail};
use std::alloc::{AllocError, Global};
use std::sync::Wait;
use std::thread::{Threads, join};

/// The clients of a session that has three.
#[derive(Drop)]
struct Crew<B: SessionName> {
    one: Client<Global, B>,
    two: Client<Global, B>,
    worker: Client<Global, B>,
}

// They have seen and made nothing yet.
fn crew_of<B: SessionName>(clients: Vec<Client<Global, B>>) -> Option<Crew<B>>
    requires { clients.items ≡ newcomers B.id.begin 3 }
    ensures one { IfSome result (λ crew. crew.one ≡ known B.id.begin 0 [] []) }
    ensures two { IfSome result (λ crew. crew.two ≡ known B.id.begin 1 [] []) }
    ensures worker { IfSome result (λ crew. crew.worker ≡ known B.id.begin 2 [] []) }
{
    let mut clients = clients;
    let worker = clients.pop()?;
    let two = clients.pop()?;
    let one = clients.pop()?;
    Some(Crew { one, two, worker })
}

// All three in a list.
fn list_of<B: SessionName>(
    alloc: Global,
    crew: Crew<B>,
) -> Result<Vec<Client<Global, B>>, AllocError>
    ensures { IfOk result (λ list. list.items ≡ crew.one ∷ crew.two ∷ crew.worker ∷ []) }
{
    let Crew { one, two, worker } = crew;
    let mut list = Vec::with_capacity(alloc, 3)?;
    list.push_reserved(one);
    list.push_reserved(two);
    list.push_reserved(worker);
    Ok(list)
}

// Lets two clients store a batch each, and the worker work, each in a thread of its own.
fn store_and_work<B: SessionName + Send + Sync, R: Threads + Wait + Sync>(
    rt: &R,
    alloc: Global,
    shared: &Shared<MemDevice, Global, B>,
    crew: Crew<B>,
    first: Batch,
    second: Batch,
) -> Result<Crew<B>, Refusal>
    requires one { crew.one.mine ≡ [] }
    requires two { crew.two.mine ≡ [] }
    ensures one { IfOk result (λ new. HasStored crew.one first new.one) }
    ensures two { IfOk result (λ new. HasStored crew.two second new.two) }
    ensures worker { IfOk result (λ new. MakesNoCall crew.worker new.worker) }
{
    let Crew { one, two, worker } = crew;
    let (stored, worked) = join(
        rt,
        || -> Result<(Client<Global, B>, Client<Global, B>), Refusal>
            requires one { one.mine ≡ [] }
            requires two { two.mine ≡ [] }
            ensures one { IfOk result (λ new. HasStored one first new.0) }
            ensures two { IfOk result (λ new. HasStored two second new.1) }
        { store_both(rt, shared, one, two, first, second) },
        || -> Result<Client<Global, B>, Refusal>
            ensures { IfOk result (λ client. MakesNoCall worker client) }
        { work(rt, alloc, shared, worker) },
    );
    let (one, two) = stored?;
    let worker = worked?;
    Ok(Crew { one, two, worker })
}

/// Begins the session, lets two clients commit a batch and sync while a third one works on the jobs of the store, each in a
/// thread of its own, and ends the session. The trail then has just these calls of the clients, both of which were answered,
/// and no call of the worker.
pub fn in_three_threads<B: SessionName + Send + Sync, R: Threads + Wait + Sync>(
    rt: &R,
    alloc: Global,
    opened: Opened<MemDevice>,
    first: Batch,
    second: Batch,
) -> Result<(Store<MemDevice>, Trail), Refusal>
    requires session { opened ≡ B.id }
    requires clients { opened.begin.clients ≡ 3 }
    ensures { IfOk result (λ ended. IsShared opened.begin first second ended.0 ended.1) }
{
    let (shared, clients) = match Shared::<MemDevice, Global, B>::begin(alloc, opened) {
        Ok(begun) => begun,
        Err((refusal, _)) => return Err(refusal),
    };
    let crew = match crew_of(clients) {
        Some(crew) => crew,
        None => return Err(Refusal::NotYours),
    };
    let crew = store_and_work(rt, alloc, &shared, crew, first, second)?;
    let clients = list_of(alloc, crew)?;
    match shared.finish(clients) {
        Ok(ended) => Ok(ended),
        Err((refusal, _, _)) => Err(refusal),
    }
}
