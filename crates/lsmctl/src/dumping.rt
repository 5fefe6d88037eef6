//! All rows of a store, printed page by page.

ghost use Rattle.std.specs.Prelude.{MatchResult};
ghost use Rattle.std.specs.Io.KnownBytes.{Appends};
ghost use Rattle.lsm_language.specs.Faults.{reason_of};
ghost use Rattle.lsmctl.specs.Dumping.{Dumps, DumpsPage, IsUnprinted, StopsAtPage, StopsDumping, rows_lines};

use crate::reply::push_row_lines;
use lsm_device::{Device, Refusal};
use lsm_language::ProgramError;
use lsm_store::{At, Page, Store};
use lsm_upkeep::Walk;
use std::alloc::Global;
use std::io::Write;

/// Prints a line `KEY VALUE` for each row of a store, in the order of keys. It takes memory for a page at a time.
pub fn dump_rows<D: Device, O: Write>(
    alloc: Global,
    store: &mut Store<D>,
    output: &mut O,
) -> Result<(), ProgramError>
    ensures { MatchResult result
        (λ _. Dumps (O.contents output.old) (O.contents output.new) store.old store.new)
        (λ e. StopsDumping (reason_of e) store.old (O.contents output.old)
        (O.contents output.new)) }
{
    let mut walk = Walk::new(alloc, At::Now, &[])?;
    for _ in 0..u64::MAX {
        if !dump_page(alloc, &mut walk, store, output)? {
            return Ok(());
        }
    }
    Err(ProgramError::Refused(Refusal::Exhausted))
}

// Prints the next page. Returns whether there was one.
fn dump_page<D: Device, O: Write>(
    alloc: Global,
    walk: &mut Walk,
    store: &mut Store<D>,
    output: &mut O,
) -> Result<bool, ProgramError>
    ensures { MatchResult result
        (λ more. DumpsPage more walk.old walk.new store.old store.new (O.contents output.old)
        (O.contents output.new))
        (λ e. StopsAtPage (reason_of e) walk.old store.old (O.contents output.old)
        (O.contents output.new)) }
{
    match walk.next_page(alloc, store)? {
        Some(page) => {
            print_page(alloc, &page, output)?;
            Ok(true)
        }
        None => Ok(false),
    }
}

fn print_page<O: Write>(alloc: Global, page: &Page, output: &mut O) -> Result<(), ProgramError>
    ensures { MatchResult result
        (λ _. Appends (O.contents output.old) (O.contents output.new) (rows_lines page.now))
        (λ e. IsUnprinted (reason_of e) (O.contents output.old) (O.contents output.new)) }
{
    let mut text = String::new(alloc);
    push_row_lines(alloc, &mut text, page)?;
    match output.write_all(text.as_bytes()) {
        Ok(()) => Ok(()),
        Err(error) => Err(ProgramError::Output(error)),
    }
}
