//! Answers, and their text.

ghost use Rattle.std.specs.Prelude.{◌≡◌, ◌++◌, IfErr, IfOk, string_bytes};
ghost use Rattle.lsm_device.specs.declared.refusal.Refusal.TheVariants.{NoMemory};
ghost use Rattle.lsm_lives.specs.Asked.{Replied};
ghost use Rattle.lsm_lives.specs.Calls.{reply_of, told_of};
ghost use Rattle.lsm_language.specs.Replies.{reply_line};
ghost use Rattle.lsm_serve.specs.Mistakes.{mistake_text};
ghost use Rattle.lsm_serve.specs.Answering.{IsTellable, lack_line, outcome_of, outcome_text, usage_line, wanted_in};

use crate::command::Wrong;
use crate::mistake::Mistake;
use lsm_device::Refusal;
use lsm_language::{Counted, push_reply, stat_text};
use lsm_lives::Reply;
use lsm_store::Stat;
use lsm_upkeep::{Lack, Shortage};
use std::alloc::Global;
use std::fmt::Write;

/// What a line is answered.
#[derive(Drop)]
pub enum Answer {
    /// A reply of the store. A number in it counts this.
    Told(Counted, Reply),
    /// The numbers of the store.
    Numbers(Stat),
    /// Those of a store that is not compacted to the end, and what it lacks.
    Halfway(Lack, Stat),
    /// What is wrong with the line.
    Usage(Wrong),
}

/// The text of the answer to line `number`, after the tag of that line: a line of its own. Fails only with `NoMemory`.
pub(crate) fn text_of(
    alloc: Global,
    number: u64,
    tag: &[u8],
    answer: &Answer,
) -> Result<Vec<u8>, Refusal>
    requires { IsTellable answer.now }
    ensures text { IfOk result
        (λ text. text.items ≡ tag.now ++ outcome_text number (outcome_of answer.now)) }
    ensures refused { IfErr result (λ e. e ≡ NoMemory) }
{
    let mut line = Vec::new(alloc);
    line.extend_from_slice(tag)?;
    let text = untagged(alloc, number, answer)?;
    line.extend_from_slice(text.as_bytes())?;
    Ok(line)
}

// The text of an answer without a tag.
fn untagged(alloc: Global, number: u64, answer: &Answer) -> Result<String, Refusal>
    requires { IsTellable answer.now }
    ensures text { IfOk result
        (λ text. string_bytes text ≡ outcome_text number (outcome_of answer.now)) }
    ensures refused { IfErr result (λ e. e ≡ NoMemory) }
{
    match answer {
        Answer::Told(counted, reply) => reply_text(alloc, *counted, reply),
        Answer::Numbers(stat) => stat_text(alloc, stat),
        Answer::Halfway(lack, stat) => lack_text(alloc, lack, stat),
        Answer::Usage(Wrong::TooLong) => {
            usage_text(alloc, number, "a line has at most 300000 bytes")
        }
        Answer::Usage(Wrong::NoCall) => usage_text(alloc, number, "the line is no call"),
        Answer::Usage(Wrong::Unreadable(mistake)) => {
            let what = mistake_text(alloc, mistake)?;
            usage_text(alloc, number, &what)
        }
    }
}

fn reply_text(alloc: Global, counted: Counted, reply: &Reply) -> Result<String, Refusal>
    requires { told_of reply.now ≡ Replied (reply_of reply.now) }
    ensures text { IfOk result
        (λ text. string_bytes text ≡ reply_line counted (reply_of reply.now)) }
    ensures refused { IfErr result (λ e. e ≡ NoMemory) }
{
    let mut text = String::new(alloc);
    push_reply(alloc, &mut text, counted, reply)?;
    Ok(text)
}

fn lack_text(alloc: Global, lack: &Lack, stat: &Stat) -> Result<String, Refusal>
    ensures text { IfOk result (λ text. string_bytes text ≡ lack_line lack.now stat.now) }
    ensures refused { IfErr result (λ e. e ≡ NoMemory) }
{
    let numbers = stat_text(alloc, stat)?;
    let mut text = String::new(alloc);
    match wanted_in(lack) {
        Some(shortage) => {
            let Shortage {
                wanted,
                together,
                longest,
                free: _,
            } = shortage;
            write!(
                text,
                "whole 0 wanted {wanted} together {together} longest {longest} {numbers}"
            )?;
        }
        None => write!(text, "whole 0 {numbers}")?,
    }
    Ok(text)
}

// The blocks that are wanted, where what is lacking are blocks.
fn wanted_in(lack: &Lack) -> Option<Shortage>
    ensures { result ≡ wanted_in lack.now }
{
    match lack {
        Lack::FlushWants(shortage) | Lack::StepWants(shortage) => Some(*shortage),
        Lack::Flush | Lack::Step | Lack::Memory => None,
    }
}

fn usage_text(alloc: Global, number: u64, what: &str) -> Result<String, Refusal>
    ensures text { IfOk result (λ text. string_bytes text ≡ usage_line number what.now) }
    ensures refused { IfErr result (λ e. e ≡ NoMemory) }
{
    let mut text = String::new(alloc);
    writeln!(text, "usage {number}: {what}")?;
    Ok(text)
}

fn mistake_text(alloc: Global, mistake: &Mistake) -> Result<String, Refusal>
    ensures text { IfOk result
        (λ text. string_bytes text
        ≡ mistake_text mistake.now.expected (string_bytes mistake.now.found)) }
    ensures refused { IfErr result (λ e. e ≡ NoMemory) }
{
    let part = mistake.expected.part();
    let found = mistake.found.as_str();
    let form = mistake.expected.form();
    let mut text = String::new(alloc);
    write!(text, "{part}{found}{form}")?;
    Ok(text)
}
