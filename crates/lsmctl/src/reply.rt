//! Replies as lines.

ghost use Rattle.std.specs.Prelude.{◌≡◌, ◌++◌, map, IfErr, IfOk, OnOk, string_bytes};
ghost use Rattle.lsm_device.specs.declared.refusal.Refusal.TheVariants.{NoMemory};
ghost use Rattle.lsm_lives.specs.Calls.{told_of};
ghost use Rattle.lsm_lives.specs.Living.{told_by};
ghost use Rattle.std.specs.List.{flat_map};
ghost use Rattle.lsmctl.specs.Replies.{counts_lines, lives_text, page_lines, replies_text, report_line, row_line, table_line};

use crate::steps::ReplyFormat;
use lsm_check::Report;
use lsm_codec::word;
use lsm_device::Refusal;
use lsm_language::{push_next, push_number, push_refusal, push_reply};
use lsm_lives::Reply;
use lsm_store::Page;
use lsm_storm::Counts;
use std::alloc::Global;
use std::fmt::Write;

/// Adds a line for each step.
pub fn push_replies(
    alloc: Global,
    text: &mut String,
    told: &[ReplyFormat],
    replies: &[Reply],
) -> Result<(), Refusal>
    ensures text { OnOk result
        (string_bytes text.new
        ≡ string_bytes text.old ++ replies_text told.now (map told_of replies.now)) }
    ensures refused { IfErr result (λ e. e ≡ NoMemory) }
{
    let mut rest = replies;
    for step in told {
        match step {
            ReplyFormat::NoBatch(refusal) => push_refusal(text, *refusal)?,
            ReplyFormat::Reply(counted) => {
                if let Some((reply, others)) = rest.split_first() {
                    push_reply(alloc, text, *counted, reply)?;
                    rest = others;
                }
            }
        }
    }
    Ok(())
}

/// Adds the lines of each life.
pub fn push_lives(
    alloc: Global,
    text: &mut String,
    told: &[Vec<ReplyFormat>],
    replies: &[Vec<Reply>],
) -> Result<(), Refusal>
    ensures text { OnOk result (string_bytes text.new ≡ string_bytes text.old
        ++ lives_text (map (λ t. t.items) told.now) (told_by replies.now)) }
    ensures refused { IfErr result (λ e. e ≡ NoMemory) }
{
    let mut rest = replies;
    for life in told {
        if let Some((replies, others)) = rest.split_first() {
            push_replies(alloc, text, life, replies)?;
            rest = others;
        }
    }
    Ok(())
}

/// Adds a line for each row of a page, and one for where the next page begins.
pub fn push_page(alloc: Global, text: &mut String, page: &Page) -> Result<(), Refusal>
    ensures text { OnOk result
        (string_bytes text.new ≡ string_bytes text.old ++ page_lines page.now) }
    ensures refused { IfErr result (λ e. e ≡ NoMemory) }
{
    push_row_lines(alloc, text, page)?;
    push_next(alloc, text, page)?;
    Ok(())
}

/// Adds a line for each row of a page.
pub fn push_row_lines(alloc: Global, text: &mut String, page: &Page) -> Result<(), Refusal>
    ensures text { OnOk result
        (string_bytes text.new ≡ string_bytes text.old ++ flat_map row_line page.now.rows) }
    ensures refused { IfErr result (λ e. e ≡ NoMemory) }
{
    for row in page.rows() {
        let key = word(alloc, row.key)?;
        let value = word(alloc, row.value)?;
        writeln!(text, "{key} {value}")?;
    }
    Ok(())
}

/// The numbers of an image, in one line.
pub fn report_text(alloc: Global, report: &Report) -> Result<String, Refusal>
    ensures text { IfOk result (λ text. string_bytes text ≡ report_line report.now) }
    ensures refused { IfErr result (λ e. e ≡ NoMemory) }
{
    let mut text = String::new(alloc);
    push_number(&mut text, "ok generation ", report.generation)?;
    push_number(&mut text, " batches ", report.batches)?;
    push_number(&mut text, " tables ", report.tables as u64)?;
    push_number(&mut text, " entries ", report.entries)?;
    push_number(&mut text, " free ", u64::from(report.free_blocks))?;
    text.push_str("\n")?;
    Ok(text)
}

/// What was found wrong with a table, in one line.
pub fn table_text(alloc: Global, what: &str, number: u64) -> Result<String, Refusal>
    ensures text { IfOk result (λ text. string_bytes text ≡ table_line what.now number) }
    ensures refused { IfErr result (λ e. e ≡ NoMemory) }
{
    let mut text = String::new(alloc);
    write!(text, "finding {what}")?;
    push_number(&mut text, " table ", number)?;
    text.push_str("\n")?;
    Ok(text)
}

/// What a storm did, a line for each count.
pub fn counts_text(alloc: Global, counts: &Counts) -> Result<String, Refusal>
    ensures text { IfOk result (λ text. string_bytes text ≡ counts_lines counts.now) }
    ensures refused { IfErr result (λ e. e ≡ NoMemory) }
{
    let mut text = String::new(alloc);
    push_number(&mut text, "commits ", counts.commits)?;
    push_number(&mut text, "\nbatches ", counts.batches)?;
    push_number(&mut text, "\nrows ", counts.rows)?;
    text.push_str("\n")?;
    Ok(text)
}
