//! Replies of a store as lines of text.

ghost use Rattle.std.specs.Prelude.{◌≡◌, ◌++◌, option_map, decimal, IfErr, IfOk, OnOk, string_bytes};
ghost use Rattle.lsm_device.specs.declared.refusal.Refusal.TheVariants.{NoMemory};
ghost use Rattle.lsm_lives.specs.Calls.{told_of};
ghost use Rattle.lsm_language.specs.Faults.{refusal_line};
ghost use Rattle.lsm_language.specs.Replies.{counted_word, digit_of, job_line, next_line, rows_line, stat_line, told_line};

use crate::counted::{Counted, word_of};
use crate::refused::refusal_text;
use lsm_codec::word;
use lsm_device::Refusal;
use lsm_lives::Reply;
use lsm_store::{Page, Stat, TakenJob};
use std::alloc::Global;
use std::fmt::Write;

/// Adds the line of a reply. A number in it counts this.
pub fn push_reply(
    alloc: Global,
    text: &mut String,
    counted: Counted,
    reply: &Reply,
) -> Result<(), Refusal>
    ensures text { OnOk result
        (string_bytes text.new ≡ string_bytes text.old ++ told_line counted (told_of reply.now)) }
    ensures refused { IfErr result (λ e. e ≡ NoMemory) }
{
    match reply {
        Reply::Number(number) => {
            let what = word_of(counted);
            writeln!(text, "{what} {number}")?;
        }
        Reply::Done => text.push_str("ok\n")?,
        Reply::Value(Some(value)) => {
            let value = word(alloc, value)?;
            writeln!(text, "value {value}")?;
        }
        Reply::Value(None) => text.push_str("absent\n")?,
        Reply::Page(page) => push_rows(alloc, text, page)?,
        Reply::Taken(job) => push_job(text, *job)?,
        Reply::Built { result, tables } => writeln!(text, "built {result} images {tables}")?,
        Reply::Refused(refusal) => push_refusal(text, *refusal)?,
    }
    Ok(())
}

// A job that was taken, if there was one: a flush, or by the level above that of its outputs.
fn push_job(text: &mut String, job: Option<TakenJob>) -> Result<(), Refusal>
    ensures text { OnOk result
        (string_bytes text.new
        ≡ string_bytes text.old ++ job_line (option_map (λ j. (j.number, j.level)) job)) }
    ensures refused { IfErr result (λ e. e ≡ NoMemory) }
{
    match job {
        None => text.push_str("none\n")?,
        Some(
            TakenJob {
                number,
                level: None,
            },
        ) => writeln!(text, "job {number} flush")?,
        Some(
            TakenJob {
                number,
                level: Some(level),
            },
        ) => writeln!(text, "job {number} level {level}")?,
    }
    Ok(())
}

/// Adds the line of a refusal.
pub fn push_refusal(text: &mut String, refusal: Refusal) -> Result<(), Refusal>
    ensures text { OnOk result
        (string_bytes text.new ≡ string_bytes text.old ++ refusal_line refusal) }
    ensures refused { IfErr result (λ e. e ≡ NoMemory) }
{
    let refused = refusal_text(&refusal);
    writeln!(text, "{refused}")?;
    Ok(())
}

// The rows of a page as one line.
fn push_rows(alloc: Global, text: &mut String, page: &Page) -> Result<(), Refusal>
    ensures text { OnOk result
        (string_bytes text.new ≡ string_bytes text.old ++ rows_line page.now) }
    ensures refused { IfErr result (λ e. e ≡ NoMemory) }
{
    text.push_str("rows ")?;
    for row in page.rows() {
        let key = word(alloc, row.key)?;
        let value = word(alloc, row.value)?;
        write!(text, "{key}={value} ")?;
    }
    push_next(alloc, text, page)?;
    Ok(())
}

/// The numbers of a store, in one line.
pub fn stat_text(alloc: Global, stat: &Stat) -> Result<String, Refusal>
    ensures text { IfOk result (λ text. string_bytes text ≡ stat_line stat.now) }
    ensures refused { IfErr result (λ e. e ≡ NoMemory) }
{
    let mut text = String::new(alloc);
    push_number(&mut text, "generation ", stat.generation)?;
    push_number(&mut text, " batches ", stat.batches)?;
    push_number(&mut text, " room ", u64::from(stat.room))?;
    push_number(&mut text, " waiting ", digit_of(stat.waiting))?;
    push_number(&mut text, " runs ", stat.runs as u64)?;
    push_number(&mut text, " tables ", stat.tables as u64)?;
    push_number(&mut text, " free ", u64::from(stat.free_blocks))?;
    text.push_str("\n")?;
    Ok(text)
}

/// Appends a number after the words for what it counts.
pub fn push_number(text: &mut String, words: &str, number: u64) -> Result<(), Refusal>
    ensures text { OnOk result
        (string_bytes text.new ≡ string_bytes text.old ++ words.now ++ decimal number) }
    ensures refused { IfErr result (λ e. e ≡ NoMemory) }
{
    write!(text, "{words}{number}")?;
    Ok(())
}

// A yes as 1, and a no as 0.
fn digit_of(flag: bool) -> u64
    ensures { result ≡ digit_of flag }
{
    if flag { 1 } else { 0 }
}

/// Adds a line with the key of the first pair that a page leaves out, or that it leaves none.
pub fn push_next(alloc: Global, text: &mut String, page: &Page) -> Result<(), Refusal>
    ensures text { OnOk result
        (string_bytes text.new ≡ string_bytes text.old ++ next_line page.now) }
    ensures refused { IfErr result (λ e. e ≡ NoMemory) }
{
    match page.next_key() {
        Some(key) => {
            let key = word(alloc, key)?;
            writeln!(text, "next {key}")?;
        }
        None => text.push_str("end\n")?,
    }
    Ok(())
}
