//! How much a storm may do.

ghost use Rattle.std.specs.Prelude.{◌≡◌, MatchResult, IsTrue, false};
ghost use Rattle.lsm_device.specs.declared.refusal.Refusal.TheVariants.{BadLimit};
ghost use Rattle.lsm_language.specs.Limits.{is_load};

use lsm_device::Refusal;

/// The clients of a storm, the commits of each, and the workers, within the limits.
#[derive(Clone, Copy)]
pub struct Load {
    clients: u16,
    commits: u16,
    workers: u16,
    ghost within: { IsTrue (is_load clients commits workers) },
}

impl Load {
    /// Refuses numbers outside the limits, and with them all whose product or sum no type holds.
    pub fn new(clients: u64, commits: u64, workers: u64) -> Result<Load, Refusal>
        ensures { MatchResult result
            (λ l. IsTrue (is_load clients commits workers) × (l.clients ≡ clients)
            × (l.commits ≡ commits) × (l.workers ≡ workers))
            (λ e. (is_load clients commits workers ≡ false) × (e ≡ BadLimit)) }
    {
        if !are_within(clients, commits, workers) {
            return Err(Refusal::BadLimit);
        }
        Ok(Load {
            clients: clients as u16,
            commits: commits as u16,
            workers: workers as u16,
        })
    }

    /// The clients.
    pub fn clients(self) -> u16
        ensures { result ≡ self.clients }
    {
        self.clients
    }

    /// The commits of each client.
    pub fn commits(self) -> u16
        ensures { result ≡ self.commits }
    {
        self.commits
    }

    /// The workers.
    pub fn workers(self) -> u16
        ensures { result ≡ self.workers }
    {
        self.workers
    }
}

// Whether there are 1 to 2,048 commits in all, and 64 clients and workers at most.
fn are_within(clients: u64, commits: u64, workers: u64) -> bool
    ensures { result ≡ is_load clients commits workers }
{
    let (Some(all), Some(threads)) = (clients.checked_mul(commits), clients.checked_add(workers))
    else {
        return false;
    };
    (1..=2_048).contains(&all) && threads <= 64
}
