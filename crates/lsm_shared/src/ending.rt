// Whether these are the clients of a session.
ghost use Rattle.std.specs.Prelude.{◌≡◌, MatchBool};
ghost use Rattle.lsm_shared.specs.Clients.{has_client, AreAll};

use crate::client::Client;
use lsm_trail::SessionName;
use std::alloc::Allocator;

// Whether one of the clients has this number.
fn has_client<A: Allocator, B: SessionName>(clients: &[Client<A, B>], number: u32) -> bool
    ensures { result ≡ has_client number clients.now }
{
    match clients {
        [] => false,
        [first, rest @ ..] => {
            if first.number() == number {
                true
            } else {
                has_client(rest, number)
            }
        }
    }
}

// Whether these are the clients numbered below the count, each once.
pub(crate) fn are_all<A: Allocator, B: SessionName>(clients: &[Client<A, B>], count: u32) -> bool
    ensures { MatchBool result (AreAll count clients.now) (¬ AreAll count clients.now) }
{
    if clients.len() != count as usize {
        return false;
    }
    for number in 0..count {
        if !has_client(clients, number) {
            return false;
        }
    }
    true
}
