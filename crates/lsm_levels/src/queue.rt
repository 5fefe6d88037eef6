//! Sources of versions, in the order in which they come.

ghost use Rattle.std.specs.Prelude.{◌≡◌, ◌≤◌, ◌<◌, ◌==◌, ◌∷◌, ◌++◌, ◌&&◌, [], ℕ, Bool, true, not, length, take, drop, insert, filter, map, option_map, List, Option, Some, IfOk, MatchOption, is_some};
ghost use Rattle.lsm_codec.specs.References.{shown};
ghost use Rattle.lsm_codec.specs.Versions.{Version};
ghost use Rattle.lsm_levels.specs.Cursors.{present};
ghost use Rattle.lsm_levels.specs.Sources.{head_at, is_sooner, IsNext};
ghost use Rattle.lsm_levels.specs.Queues.{AreSpent, EndsIn, IsQueue, IsQueued, OneGoesOn};

use crate::source::SourceCursor;
use lsm_codec::VersionRef;
use std::alloc::{AllocError, Allocator, Global};
use std::marker::Model;

/// Sources of which one comes next: that whose version is the first by key, and of one key the newer source. They are known
/// by their places among all, the newer first. Contracts see the list of the places of those that have a version left, that
/// of the next one last.
#[derive(Drop)]
pub(crate) struct Queue<A: Allocator = Global> {
    places: Vec<usize, A>,
}

impl<A: Allocator> Model for Queue<A> {
    ghost use Rattle.std.specs.Prelude.{ℕ, List};

    ghost Value = { List ℕ };

    ghost view = { λ q. q.places.items };
}

/// The version at which the source at a place stands, if there is one.
pub(crate) fn current_at<'s, A: Allocator>(
    sources: &'s [SourceCursor<'_, A>],
    place: usize,
) -> Option<VersionRef<'s>>
    ensures { option_map shown result ≡ head_at (map present sources.now) place }
{
    sources.get(place)?.current()
}

/// Whether a version of the source at a place comes before that of another.
fn is_sooner<A: Allocator>(
    sources: &[SourceCursor<'_, A>],
    version: &VersionRef<'_>,
    place: usize,
    other: usize,
) -> bool
    ensures { result ≡ is_sooner (Some (shown version.now)) place
        (head_at (map present sources.now) other) other }
{
    match current_at(sources, other) {
        Some(found) => version.key.cmp(found.key).then(place.cmp(&other)).is_lt(),
        None => false,
    }
}

/// How many of the places in a queue a version at a place comes before. Most often that is all of them: the version after the
/// last one taken is often the next, so it is compared with the next in the queue first.
fn count_later<A: Allocator>(
    places: &[usize],
    sources: &[SourceCursor<'_, A>],
    version: &VersionRef<'_>,
    place: usize,
) -> usize
    ensures bound { result ≤ length places.now }
    ensures later { IsQueued (map present sources.now) places.now
        → take result places.now
        ≡ filter (λ j. is_sooner (Some (shown version.now)) place
        (head_at (map present sources.now) j) j) places.now }
    ensures sooner { IsQueued (map present sources.now) places.now
        → drop result places.now
        ≡ filter (λ j. not
        (is_sooner (Some (shown version.now)) place (head_at (map present sources.now) j)
        j)) places.now }
{
    if let Some((next, _others)) = places.split_last() {
        if is_sooner(sources, version, place, *next) {
            return places.len();
        }
    }
    places.partition_point(|other: &usize| is_sooner(sources, version, place, *other))
}

/// Turns the last of these places to an earlier place.
fn turn_last(places: &mut [usize], at: usize)
    requires { at < length places.old }
    ensures len { length places.new ≡ length places.old }
    ensures turned { (others : List ℕ) (i : ℕ) → places.old ≡ others ++ i ∷ []
        → places.new ≡ insert others at i }
{
    places[at..].rotate_right(1);
}

/// Puts the last of these places where its source belongs among the others, or out where that has no version left.
fn settle_last<A: Allocator>(places: &mut Vec<usize, A>, sources: &[SourceCursor<'_, A>])
    ensures { (is_in : ℕ → Bool) (others : List ℕ) (i : ℕ) → places.old.items ≡ others ++ i ∷ []
        → is_in i ≡ true → IsQueue (map present sources.now) (λ j. is_in j && not (j == i)) others
        → IsQueue (map present sources.now) is_in places.new.items }
{
    let Some((last, others)) = places.split_last() else {
        return;
    };
    let place = *last;
    let Some(version) = current_at(sources, place) else {
        places.pop();
        return;
    };
    let at = count_later(others, sources, &version, place);
    turn_last(places, at);
}

impl<A: Allocator> Queue<A> {
    /// A queue of all sources. It takes memory for their places.
    pub(crate) fn of(alloc: A, sources: &[SourceCursor<'_, A>]) -> Result<Queue<A>, AllocError>
        ensures { IfOk result (λ queue. IsQueue (map present sources.now) (λ j. true) queue) }
    {
        let mut places = Vec::with_capacity(alloc, sources.len())?;
        for place in 0..sources.len() {
            places.push(place)?;
            settle_last(&mut places, sources);
        }
        Ok(Queue { places })
    }

    /// The place of the source that comes next, `None` where no source has a version left.
    pub(crate) fn next(&self) -> Option<usize>
        ensures last { MatchOption result (self.now ≡ []) (λ i. EndsIn i self.now) }
        ensures next { (heads : List (Option Version)) → IsQueue heads (λ j. true) self.now
            → MatchOption result (AreSpent heads)
            (λ i. IsNext heads i × (is_some (head_at heads i) ≡ true)) }
    {
        match self.places.split_last() {
            Some((place, _others)) => Some(*place),
            None => None,
        }
    }

    /// Puts the source that came next where it belongs, once it has gone on, or out where it has no version left. It is
    /// compared with a logarithm of the others. It takes no memory.
    pub(crate) fn settle(&mut self, sources: &[SourceCursor<'_, A>])
        ensures { (heads : List (Option Version)) (i : ℕ) → EndsIn i self.old
            → IsQueue heads (λ j. true) self.old → OneGoesOn i heads (map present sources.now)
            → IsQueue (map present sources.now) (λ j. true) self.new }
    {
        settle_last(&mut self.places, sources);
    }
}
