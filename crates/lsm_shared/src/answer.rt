// What a client is told of a reply that the trail keeps.
ghost use Rattle.std.specs.Prelude.{◌≡◌, ◌≢◌, MatchResult};
ghost use Rattle.lsm_device.specs.declared.refusal.Refusal.TheVariants.{NoMemory};
ghost use Rattle.lsm_lives.specs.Calls.{reply_of, told_of};
ghost use Rattle.lsm_machine.specs.Calls.{Refused};
ghost use Rattle.lsm_shared.specs.Sessions.{IsLost};

use lsm_device::Refusal;
use lsm_lives::Reply;
use std::alloc::Allocator;

// A second copy of the reply, but `NoMemory` where the store answered that, or where there is no memory for a value
// or a page.
pub(crate) fn answer_of<A: Allocator + Clone>(reply: &Reply<A>) -> Result<Reply<A>, Refusal>
    ensures { MatchResult result
        (λ answer. (told_of answer ≡ told_of reply.now) × (reply_of reply.now ≢ Refused NoMemory))
        (λ e. (e ≡ NoMemory) × IsLost (reply_of reply.now)) }
{
    match reply {
        Reply::Number(number) => Ok(Reply::Number(*number)),
        Reply::Done => Ok(Reply::Done),
        Reply::Value(None) => Ok(Reply::Value(None)),
        Reply::Value(Some(value)) => Ok(Reply::Value(Some(value.clone()?))),
        Reply::Page(page) => Ok(Reply::Page(page.copy()?)),
        Reply::Taken(job) => Ok(Reply::Taken(*job)),
        Reply::Built { result, tables } => Ok(Reply::Built {
            result: *result,
            tables: *tables,
        }),
        Reply::Refused(Refusal::NoMemory) => Err(Refusal::NoMemory),
        Reply::Refused(refusal) => Ok(Reply::Refused(*refusal)),
    }
}
