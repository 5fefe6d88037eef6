//! The calls of the store that a request makes, on a store in a file.

ghost use Rattle.std.specs.Prelude.{◌≡◌, ◌⊎◌, [], ◌+◌, true, false, map, is_some, option_map, string_bytes, None, Ok, Err, IfErr, IfOk};
ghost use Rattle.lsm_check.specs.Images.{IsCheckRefusal};
ghost use Rattle.lsm_device.specs.declared.refusal.Refusal.TheVariants.{NoMemory, Io, Stopped};
ghost use Rattle.lsm_device.specs.declared.refusal.Refusal.{Refusal};
ghost use Rattle.lsm_language.specs.declared.program_error.ProgramError.{ProgramError};
ghost use Rattle.lsmctl.specs.declared.answer.Output.TheVariants.{Loaded as LoadedRows, Served};
ghost use Rattle.lsm_open.specs.Recovering.{IsOpeningRefusal};
ghost use Rattle.lsm_store.specs.Backing.{machine_of};
ghost use Rattle.lsm_machine.specs.Calls.{Get, Scan};
ghost use Rattle.lsm_store.specs.Stats.{stat_answer};
ghost use Rattle.lsm_machine.specs.declared.asked.At.TheVariants.{Now};
ghost use Rattle.lsm_storm.specs.Storms.{IsStormRefusal};
ghost use Rattle.lsm_language.specs.Faults.{IsRefusalBy, reason_of, refusal};
ghost use Rattle.lsm_lives.specs.Calls.{asked_of};
ghost use Rattle.lsmctl.specs.Steps.{steps_after, lives_said, told_after, told_lives};
ghost use Rattle.lsmctl.specs.Replies.{table_line};
ghost use Rattle.lsmctl.specs.Commits.{HasCommitted};
ghost use Rattle.lsmctl.specs.Loading.{HasLoaded, KeepsAndLoads, RefusesToLoad};
ghost use Rattle.lsmctl.specs.Answers.{Comes, Hands, HasCompacted, HasFormatted, HasCounted, IsRefusedOpened, IsStatLine, OfDumped, TellsDumped, TellsLoaded, TellsNumber, TellsServed, HasFound, HasServed, HasLives, HasNumbers, HasChecked, IsChecked, TellsFound, HasRows, HasReplies, OfOpened};
ghost use Rattle.lsmctl.specs.Refusing.{FaultsWith, RefusesToCommit, RefusesToCompact, RefusesToTell};

use crate::answer::{Answer, Output};
use crate::committing::keep;
use crate::dumping::dump_rows;
use crate::exploring::explore;
use crate::failing::{failed, with_error};
use crate::loading::{Loaded, load_rows};
use crate::opening::{create_beside, open, open_read_only, put_in_place};
use crate::reply::{counts_text, push_page, report_text, table_text};
use crate::steps::steps_of;
use crate::tallied::tally;
use crate::{committing, runs};
use lsm_check::Finding;
use lsm_codec::{Batch, Guard, word};
use lsm_device::{Device, FileDevice, Refusal};
use lsm_language::{Geometry, Line, Load, ProgramError, Request, buffered, stat_text};
use lsm_progress::Progress;
use lsm_store::{At, Store};
use lsm_upkeep::{compact_all_showing, lack_of};
use std::alloc::Global;
use std::fs::{File, Files};
use std::io::{BufRead, Read, Write};
use std::sync::Wait;
use std::thread::Threads;

/// Does what is asked for. With what a request may be refused is said of any file, whatever it holds and whichever of its calls fault.
/// Compactions, loads and explorations tell `progress` how far they are.
pub fn answer_request<
    R: Files<File = File> + AllocGlobal + Threads + Wait + Sync,
    I: Read,
    O: Write,
    P: Progress,
>(
    rt: &R,
    request: Request<'_>,
    input: &mut I,
    output: &mut O,
    progress: &mut P,
) -> Result<Answer, ProgramError>
    ensures comes { IfOk result
        (Comes request.entry (I.remaining input.old) (O.contents output.old)
        (O.contents output.new)) }
    ensures faults { IfErr result
        (λ e. FaultsWith request.entry (I.remaining input.old) (reason_of e) (O.contents output.old)
        (O.contents output.new)) }
{
    match request {
        Request::Format { file, geometry } => format(rt, file, geometry),
        Request::Put { file, batch } => commit(rt, file, None, &batch),
        Request::PutIf {
            file,
            guards,
            batch,
        } => commit(rt, file, Some(&guards), &batch),
        Request::Delete { file, batch } => commit(rt, file, None, &batch),
        Request::Get { file, key } => get(rt, file, &key),
        Request::Scan { file, from, limit } => scan(rt, file, &from, limit),
        Request::Stat { file } => stat(rt, file),
        Request::Check { file } => check(rt, file),
        Request::Compact { file } => compact(rt, file, progress),
        Request::Dump { file } => dump(rt, file, output),
        Request::Load { file } => load(rt, file, input, output, progress),
        Request::Serve { file } => serve(rt, file, input, output),
        Request::Replay { file, script } => replay(rt, file, script),
        Request::Lives { geometry, script } => Ok(lives(rt, rt.alloc(), geometry, script)?),
        Request::Explore { geometry, script } => {
            Ok(explore(rt, rt.alloc(), geometry, script, progress)?)
        }
        Request::Storm { load } => Ok(storm(rt, rt.alloc(), load)?),
        Request::Tally { load } => Ok(tally(rt, rt.alloc(), load)?),
    }
}

fn compact<R: Files<File = File> + AllocGlobal, P: Progress>(
    rt: &R,
    file: &str,
    progress: &mut P,
) -> Result<Answer, ProgramError>
    ensures gives { IfOk result (OfOpened HasCompacted) }
    ensures refused { IfErr result
        (λ e. IsRefusalBy (IsRefusedOpened RefusesToCompact) (reason_of e)) }
{
    let mut store = open(rt, file)?;
    let done = keep_and_compact(rt.alloc(), &mut store, progress);
    closed(rt.alloc(), store, done)
}

// What calls on the store in a file came to, which is closed by it.
fn closed(
    alloc: Global,
    store: Store<FileDevice>,
    done: Result<Output, Refusal>,
) -> Result<Answer, ProgramError>
    ensures answer { IfOk result
        (λ answer. (done ≡ Ok answer.output) × Hands answer.file store.device) }
    ensures refused { IfErr result
        (λ e. (reason : Refusal) × (done ≡ Err reason) × (reason_of e ≡ refusal reason)) }
{
    match done {
        Ok(output) => Ok(Answer::of_store(output, store)),
        Err(reason) => Err(failed(alloc, reason, &store.into_device())),
    }
}

// Keeps a store up, then compacts it, and tells its numbers. Where it isn't compacted to the end they come with what it lacks.
fn keep_and_compact<D: Device, P: Progress>(
    alloc: Global,
    store: &mut Store<D>,
    progress: &mut P,
) -> Result<Output, Refusal>
    ensures gives { IfOk result (HasCompacted store.old store.new) }
    ensures refused { IfErr result (RefusesToCompact store.old) }
{
    keep(alloc, store);
    let is_whole = compact_all_showing(alloc, store, progress);
    let numbers = numbers_line(alloc, store)?;
    if is_whole {
        return Ok(Output::Lines(numbers));
    }
    let lack = lack_of(alloc, store);
    Ok(Output::Halfway(numbers, lack))
}

fn dump<R: Files<File = File> + AllocGlobal, O: Write>(
    rt: &R,
    file: &str,
    output: &mut O,
) -> Result<Answer, ProgramError>
    ensures answer { IfOk result (OfDumped (O.contents output.old) (O.contents output.new)) }
    ensures fault { IfErr result
        (λ e. TellsDumped (reason_of e) (O.contents output.old) (O.contents output.new)) }
{
    let mut store = open(rt, file)?;
    match dump_rows(rt.alloc(), &mut store, output) {
        Ok(()) => Ok(Answer::of_store(Output::Dumped, store)),
        Err(fault) => Err(with_error(rt.alloc(), fault, &store.into_device())),
    }
}

fn load<R: Files<File = File> + AllocGlobal, I: Read, O: Write, P: Progress>(
    rt: &R,
    file: &str,
    input: &mut I,
    output: &mut O,
    progress: &mut P,
) -> Result<Answer, ProgramError>
    ensures answer { IfOk result
        (λ answer. OfOpened (HasLoaded (I.remaining input.old)) answer
        × (O.contents output.new ≡ O.contents output.old)) }
    ensures fault { IfErr result
        (λ e. TellsLoaded (I.remaining input.old) (reason_of e) (O.contents output.old)
        (O.contents output.new)) }
{
    let mut store = open(rt, file)?;
    let mut lines = buffered(rt.alloc(), input)?;
    match keep_and_load(rt.alloc(), &mut store, &mut lines, progress) {
        Ok(loaded) => loaded_so(rt.alloc(), store, loaded, output),
        Err(reason) => Err(failed(rt.alloc(), reason, &store.into_device())),
    }
}

// What a loading came to, whose store is closed by it. If it ended before its input did, the number of its rows is printed.
fn loaded_so<O: Write>(
    alloc: Global,
    store: Store<FileDevice>,
    loaded: Loaded,
    output: &mut O,
) -> Result<Answer, ProgramError>
    ensures answer { IfOk result
        (λ answer. (loaded.ended ≡ Ok tt) × (answer.output ≡ LoadedRows loaded.rows)
        × Hands answer.file store.device
        × (O.contents output.new ≡ O.contents output.old)) }
    ensures fault { IfErr result (λ e. (fault : ProgramError) × (loaded.ended ≡ Err fault)
        × TellsNumber loaded.rows (reason_of fault) (reason_of e) (O.contents output.old)
        (O.contents output.new)) }
{
    let Loaded { rows, ended } = loaded;
    match ended {
        Ok(()) => Ok(Answer::of_store(Output::Loaded(rows), store)),
        Err(fault) => {
            let told = with_error(alloc, fault, &store.into_device());
            Err(told_first(rows, told, output))
        }
    }
}

// Answers the lines of an input, with the store open all the while. A store that a failed write or sync has stopped is told at the end.
fn serve<R: Files<File = File> + AllocGlobal, I: Read, O: Write>(
    rt: &R,
    file: &str,
    input: &mut I,
    output: &mut O,
) -> Result<Answer, ProgramError>
    ensures answer { IfOk result
        (OfOpened (HasServed (I.remaining input.old) (O.contents output.old)
        (O.contents output.new))) }
    ensures fault { IfErr result
        (λ e. TellsServed (I.remaining input.old) (reason_of e) (O.contents output.old)
        (O.contents output.new)) }
{
    let mut store = open(rt, file)?;
    let mut lines = buffered(rt.alloc(), input)?;
    match lsm_serve::serve(rt.alloc(), &mut store, &mut lines, output) {
        Ok(()) => served(rt.alloc(), store),
        Err(fault) => Err(with_error(rt.alloc(), fault, &store.into_device())),
    }
}

// The answer to whoever had all lines answered, if the store wasn't stopped meanwhile.
fn served(alloc: Global, store: Store<FileDevice>) -> Result<Answer, ProgramError>
    ensures answer { IfOk result
        (λ answer. (answer.output ≡ Served) × Hands answer.file store.device
        × (is_some store.state.stopped ≡ false)) }
    ensures fault { IfErr result
        (λ e. (reason_of e ≡ refusal Stopped) × (is_some store.state.stopped ≡ true)) }
{
    match store.stat() {
        Ok(_) => Ok(Answer::of_store(Output::Served, store)),
        Err(reason) => Err(failed(alloc, reason, &store.into_device())),
    }
}

// Keeps a store up, then loads rows.
fn keep_and_load<D: Device, I: BufRead, P: Progress>(
    alloc: Global,
    store: &mut Store<D>,
    lines: &mut I,
    progress: &mut P,
) -> Result<Loaded, Refusal>
    ensures loads { IfOk result
        (λ loaded. KeepsAndLoads (I.remaining lines.old) loaded store.old store.new) }
    ensures refused { IfErr result (RefusesToLoad (I.remaining lines.old) store.old) }
{
    keep(alloc, store);
    load_rows(alloc, store, lines, progress)
}

// Prints how many rows were loaded before the fault.
fn told_first<O: Write>(rows: u64, fault: ProgramError, output: &mut O) -> ProgramError
    ensures { TellsNumber rows (reason_of fault) (reason_of result) (O.contents output.old)
        (O.contents output.new) }
{
    match writeln!(output, "loaded {rows}") {
        Ok(()) => fault,
        Err(error) => ProgramError::Output(error),
    }
}

fn format<R: Files<File = File> + AllocGlobal>(
    rt: &R,
    file: &str,
    geometry: Geometry,
) -> Result<Answer, ProgramError>
    ensures gives { IfOk result (HasFormatted geometry.sectors geometry.log_sectors) }
    ensures refused { IfErr result
        (λ e. IsRefusalBy (λ r. (r ≡ NoMemory) ⊎ (r ≡ Io)) (reason_of e)) }
{
    let (device, replacement) = create_beside(rt, file, geometry.sectors())?;
    match lsm_open::format(rt.alloc(), device, geometry.log_sectors()) {
        Ok(device) => {
            put_in_place(rt, replacement)?;
            Ok(Answer {
                output: Output::Formatted(geometry.data_blocks()),
                file: Some(device),
            })
        }
        Err((refusal, device)) => {
            let fault = failed(rt.alloc(), refusal, &device);
            drop(device);
            replacement.give_up(rt);
            Err(fault)
        }
    }
}

fn commit<R: Files<File = File> + AllocGlobal>(
    rt: &R,
    file: &str,
    guards: Option<&[Guard]>,
    batch: &Batch,
) -> Result<Answer, ProgramError>
    ensures gives { IfOk result
        (OfOpened (HasCommitted (option_map (λ g. g.now) guards.entry) batch.now)) }
    ensures refused { IfErr result
        (λ e. IsRefusalBy
        (IsRefusedOpened (RefusesToCommit (option_map (λ g. g.now) guards.entry) batch.now))
        (reason_of e)) }
{
    let mut store = open(rt, file)?;
    let done = committing::commit(rt.alloc(), &mut store, guards, batch);
    closed(rt.alloc(), store, done)
}

fn get<R: Files<File = File> + AllocGlobal>(
    rt: &R,
    file: &str,
    key: &[u8],
) -> Result<Answer, ProgramError>
    ensures gives { IfOk result (OfOpened (HasFound key.now)) }
    ensures refused { IfErr result
        (λ e. IsRefusalBy (IsRefusedOpened (RefusesToTell (Get Now key.now))) (reason_of e)) }
{
    let mut store = open(rt, file)?;
    let done = find(rt.alloc(), &mut store, key);
    closed(rt.alloc(), store, done)
}

// Looks a key up.
fn find<D: Device>(alloc: Global, store: &mut Store<D>, key: &[u8]) -> Result<Output, Refusal>
    ensures gives { IfOk result (HasFound key.now store.old store.new) }
    ensures refused { IfErr result (λ e. RefusesToTell (Get Now key.now) store.old e) }
{
    match store.get(At::Now, key)? {
        Some(value) => Ok(Output::Value(word(alloc, value.as_slice())?)),
        None => Ok(Output::Absent),
    }
}

fn replay<R: Files<File = File> + AllocGlobal + Threads + Sync>(
    rt: &R,
    file: &str,
    script: Vec<Line>,
) -> Result<Answer, ProgramError>
    ensures gives { IfOk result
        (OfOpened (HasReplies (map asked_of (steps_after [] script.items))
        (told_after [] script.items))) }
    ensures refused { IfErr result (λ e. IsRefusalBy IsOpeningRefusal (reason_of e)) }
{
    let steps = steps_of(rt.alloc(), script)?;
    let mut store = open(rt, file)?;
    let done = runs::replay(rt, rt.alloc(), &mut store, &steps);
    closed(rt.alloc(), store, done)
}

fn scan<R: Files<File = File> + AllocGlobal>(
    rt: &R,
    file: &str,
    from: &[u8],
    limit: u64,
) -> Result<Answer, ProgramError>
    ensures gives { IfOk result (OfOpened (HasRows from.now limit)) }
    ensures refused { IfErr result
        (λ e. IsRefusalBy (IsRefusedOpened (RefusesToTell (Scan Now from.now None limit)))
        (reason_of e)) }
{
    let mut store = open(rt, file)?;
    let done = list(rt.alloc(), &mut store, from, limit);
    closed(rt.alloc(), store, done)
}

// Lists a page.
fn list<D: Device>(
    alloc: Global,
    store: &mut Store<D>,
    from: &[u8],
    limit: u64,
) -> Result<Output, Refusal>
    ensures gives { IfOk result (HasRows from.now limit store.old store.new) }
    ensures refused { IfErr result (λ e. RefusesToTell (Scan Now from.now None limit) store.old e) }
{
    let page = store.scan(At::Now, from, None, limit)?;
    let mut text = String::new(alloc);
    push_page(alloc, &mut text, &page)?;
    Ok(Output::Lines(text))
}

// Tells the numbers of a store.
fn numbers<D: Device>(alloc: Global, store: &Store<D>) -> Result<Output, Refusal>
    ensures gives { IfOk result (HasNumbers store.now store.now) }
    ensures refused { IfErr result
        (λ e. (e ≡ NoMemory) ⊎ (stat_answer (machine_of store.now) ≡ Err e)) }
{
    Ok(Output::Lines(numbers_line(alloc, store)?))
}

// The numbers of a store, in a line.
fn numbers_line<D: Device>(alloc: Global, store: &Store<D>) -> Result<String, Refusal>
    ensures gives { IfOk result (λ line. IsStatLine store.now (string_bytes line)) }
    ensures refused { IfErr result
        (λ e. (e ≡ NoMemory) ⊎ (stat_answer (machine_of store.now) ≡ Err e)) }
{
    let stat = store.stat()?;
    Ok(stat_text(alloc, &stat)?)
}

fn stat<R: Files<File = File> + AllocGlobal>(rt: &R, file: &str) -> Result<Answer, ProgramError>
    ensures gives { IfOk result (OfOpened HasNumbers) }
    ensures refused { IfErr result (λ e. IsRefusalBy IsOpeningRefusal (reason_of e)) }
{
    let store = open(rt, file)?;
    let done = numbers(rt.alloc(), &store);
    closed(rt.alloc(), store, done)
}

// Checks a device, and tells what comes of it.
fn checked<D: Device>(alloc: Global, device: &mut D) -> Result<Output, Refusal>
    ensures gives { IfOk result (IsChecked (D.medium device.old) (D.medium device.new)) }
    ensures refused { IfErr result IsCheckRefusal }
{
    match lsm_check::check(alloc, device) {
        Ok(report) => Ok(Output::Lines(report_text(alloc, &report)?)),
        Err(Finding::Refused(refusal)) => Err(refusal),
        Err(Finding::Entries(number)) => found(alloc, "Entries", number),
        Err(Finding::Order(number)) => found(alloc, "Order", number),
        Err(Finding::Filter(number)) => found(alloc, "Filter", number),
        Err(Finding::Versions(number)) => found(alloc, "Versions", number),
    }
}

// What was found wrong with a table.
fn found(alloc: Global, what: &str, number: u64) -> Result<Output, Refusal>
    ensures gives { IfOk result (TellsFound (table_line what.now number)) }
    ensures refused { IfErr result (λ e. e ≡ NoMemory) }
{
    Ok(Output::Found(table_text(alloc, what, number)?))
}

fn check<R: Files<File = File> + AllocGlobal>(rt: &R, file: &str) -> Result<Answer, ProgramError>
    ensures gives { IfOk result HasChecked }
    ensures refused { IfErr result (λ e. IsRefusalBy IsCheckRefusal (reason_of e)) }
{
    let mut device = open_read_only(rt, file)?;
    match checked(rt.alloc(), &mut device) {
        Ok(output) => Ok(Answer {
            output,
            file: Some(device),
        }),
        Err(reason) => Err(failed(rt.alloc(), reason, &device)),
    }
}

fn lives<R: Threads + Sync>(
    rt: &R,
    alloc: Global,
    geometry: Geometry,
    script: Vec<Line>,
) -> Result<Answer, Refusal>
    ensures gives { IfOk result
        (λ answer. HasLives geometry.sectors geometry.log_sectors (lives_said script.items)
        (told_lives script.items) answer.output) }
    ensures refused { IfErr result (λ e. e ≡ NoMemory) }
{
    let output = runs::lives(rt, alloc, geometry, script)?;
    Ok(Answer { output, file: None })
}

fn storm<R: Threads + Wait + Sync>(rt: &R, alloc: Global, load: Load) -> Result<Answer, Refusal>
    ensures gives { IfOk result (λ answer. HasCounted (load.clients + load.workers) answer.output) }
    ensures refused { IfErr result IsStormRefusal }
{
    let counts = lsm_storm::storm(rt, alloc, load)?;
    Ok(Answer {
        output: Output::Lines(counts_text(alloc, &counts)?),
        file: None,
    })
}
