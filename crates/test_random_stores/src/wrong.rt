//! Calls that are to be refused.

use crate::draws::Draws;
use crate::guards::too_many;
use crate::subject::Subject;
use crate::trouble::Trouble;
use lsm_device::Refusal;
use lsm_store::At;

/// A number of no snapshot.
const STRANGER: u64 = u64::MAX;

/// Makes a call that is wrong: with a key, a value, a limit or a range that may not be, or with the number of no snapshot or batch.
pub(crate) fn make_wrong(subject: &mut Subject, draws: &mut Draws) -> Result<(), Trouble> {
    let is_refused = match draws.below(9) {
        0 => matches!(subject.db.get(&[]), Err(Refusal::BadKey)),
        1 => matches!(subject.db.delete(&[1; 256]), Err(Refusal::BadKey)),
        2 => matches!(subject.db.put(&[1], &[0; 2_049]), Err(Refusal::BadValue)),
        3 => is_limit_refused(subject, draws.one_of(&[0, 65])),
        4 => is_range_refused(subject)?,
        5 => is_stranger_refused(subject),
        6 => matches!(subject.db.release(STRANGER), Err(Refusal::NoSuchSnapshot)),
        7 => is_batch_refused(subject),
        _ => are_guards_refused(subject, draws)?,
    };
    if is_refused {
        return Ok(());
    }
    Err(Trouble::Wrong)
}

fn is_limit_refused(subject: &mut Subject, limit: u32) -> bool {
    matches!(
        subject.db.page(At::Now, &[1], None, u64::from(limit)),
        Err(Refusal::BadLimit)
    )
}

/// Whether rows from a key up to a smaller one are refused.
fn is_range_refused(subject: &mut Subject) -> Result<bool, Trouble> {
    let mut rows = subject.db.rows(&[2], Some(&[1]))?;
    Ok(matches!(rows.next_row(), Err(Refusal::BadRange)))
}

fn is_stranger_refused(subject: &mut Subject) -> bool {
    matches!(
        subject.db.get_at(STRANGER, &[1]),
        Err(Refusal::NoSuchSnapshot)
    )
}

fn is_batch_refused(subject: &mut Subject) -> bool {
    let behind = subject.db.batch_count().saturating_add(1);
    matches!(subject.db.sync_to(behind), Err(Refusal::NoSuchBatch))
}

/// Whether a delete under too many guards is refused, for that or for want of room while a snapshot is held.
fn are_guards_refused(subject: &mut Subject, draws: &mut Draws) -> Result<bool, Trouble> {
    let number = draws.below(100);
    let guards = too_many(subject.alloc, &subject.book, number)?;
    let gathered = subject.delete_of(number)?;
    let told = subject.db.write_if(&guards, &gathered.batch);
    if matches!(told, Err(Refusal::NoSpace)) {
        return Ok(subject.held_count() > 0);
    }
    Ok(matches!(told, Err(Refusal::TooManyGuards)))
}
