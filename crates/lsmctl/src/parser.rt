//! The words after the program's name, as a subcommand with its words.

ghost use Rattle.std.specs.Prelude.{◌≡◌, ◌⊎◌, ◌&&◌, [], map, IfOk, IfErr, MatchResult, is_some, false};
ghost use Rattle.clap.specs.Words.{App, fault_of, first_of, found_of, kind_of, new_app, rows_of, rule_of, subcommand_of, subcommand_rows_of};
ghost use Rattle.clap.specs.declared.error.kind.ErrorKind.TheVariants.{OutOfMemory};
ghost use Rattle.lsm_device.specs.declared.refusal.Refusal.TheVariants.{NoMemory};
ghost use Rattle.lsm_language.specs.Faults.{reason_of, mistake, refusal};
ghost use Rattle.lsm_language.specs.Words.{after};
ghost use Rattle.lsmctl.specs.Program.{bare_program, program, word_rule, with_changes, with_rows, with_scripts, with_words, with_words_at, has_other_words, has_script_words, has_word, has_words, IsCommand, Asks, HasWord};
ghost use Rattle.lsmctl.specs.Runs.{has_dash, IsAsked, AskNothing};

use clap::error::ErrorKind;
use clap::{Arg, ArgAction, ArgMatches, Command};
use lsm_device::Refusal;
use lsm_language::{ProgramError, Subcommand, Usage, after};
use std::alloc::{AllocError, Global};
use std::convert::AsStr;

/// Reads the words after the program's name.
pub fn asked_for<'a, S: AsStr>(
    alloc: Global,
    words: &'a [S],
) -> Result<Subcommand<'a>, ProgramError>
    ensures asked { IfOk result (IsAsked (map S.text words.entry.now)) }
    ensures faults { IfErr result
        (λ e. ((reason_of e ≡ mistake) × AskNothing (map S.text words.entry.now))
        ⊎ (reason_of e ≡ refusal NoMemory)) }
{
    let matches = parsed(alloc, words)?;
    if let Some(word) = dashed(words) {
        return Err(ProgramError::Usage(dash(alloc, word)?));
    }
    let Some((name, given)) = matches.subcommand() else {
        return Err(ProgramError::Usage(Usage::Missing("the subcommand")));
    };
    Ok(subcommand(name, given)?)
}

// What the parser finds in the words.
fn parsed<'a, S: AsStr>(alloc: Global, words: &'a [S]) -> Result<ArgMatches<'a>, ProgramError>
    ensures found { IfOk result
        (λ m. subcommand_rows_of m ≡ subcommand_of program (map S.text words.entry.now)) }
    ensures faultless { IfOk result (λ _. fault_of program (map S.text words.entry.now) ≡ []) }
    ensures faults { IfErr result
        (λ e. ((reason_of e ≡ mistake) × AskNothing (map S.text words.entry.now))
        ⊎ (reason_of e ≡ refusal NoMemory)) }
{
    let command = command(alloc)?;
    match command.try_get_matches_from(words) {
        Ok(matches) => Ok(matches),
        Err(error) => Err(ProgramError::Usage(mistake_of(alloc, words, &error)?)),
    }
}

// What the parser found wrong with the words, unless memory was refused.
fn mistake_of<S: AsStr>(alloc: Global, words: &[S], error: &clap::Error) -> Result<Usage, Refusal>
    ensures { MatchResult result (λ _. kind_of error.now ≡ OutOfMemory → ⊥) (λ e. e ≡ NoMemory) }
{
    if error.kind() == ErrorKind::OutOfMemory {
        return Err(Refusal::NoMemory);
    }
    Ok(told(alloc, words, error)?)
}

// The parser's text, but not where a word begins with a dash: it tells how to hand on such a word, which is no help here.
fn told<S: AsStr>(alloc: Global, words: &[S], error: &clap::Error) -> Result<Usage, AllocError> {
    match dashed(words) {
        Some(word) if error.kind() != ErrorKind::DisplayHelp => dash(alloc, word),
        _ => Ok(Usage::Words(format!(in alloc; "{error}")?)),
    }
}

// The first word that begins with a dash.
fn dashed<S: AsStr>(words: &[S]) -> Option<&str>
    ensures { is_some result ≡ has_dash (map S.text words.now) }
{
    for word in words {
        if begins_with_dash(word.as_str()) {
            return Some(word.as_str());
        }
    }
    None
}

fn begins_with_dash(word: &str) -> bool
    ensures { result ≡ is_some (after 45 word.now) }
{
    after(word, '-').is_some()
}

fn dash(alloc: Global, word: &str) -> Result<Usage, AllocError> {
    let word = String::from_str(alloc, word)?;
    Ok(Usage::Dash { word })
}

// The program's command. Each subcommand has its words at fixed places.
fn command<'a>(alloc: Global) -> Result<Command<'a>, AllocError>
    ensures { IfOk result (IsCommand program) }
{
    let command = bare(alloc)?;
    let command = with_changes(alloc, command)?;
    let command = adding(
        alloc,
        command,
        "get",
        "Print the value of a key",
        &["FILE", "KEY"],
    )?;
    let command = adding(
        alloc,
        command,
        "scan",
        "Print a page",
        &["FILE", "FROM", "LIMIT"],
    )?;
    let command = adding(
        alloc,
        command,
        "stat",
        "Print the numbers of a store",
        &["FILE"],
    )?;
    let command = adding(
        alloc,
        command,
        "check",
        "Check a store, and print its numbers",
        &["FILE"],
    )?;
    let command = with_rows(alloc, command)?;
    let command = with_scripts(alloc, command)?;
    Ok(command)
}

// The command with the subcommands that go over all rows.
fn with_rows<'a>(alloc: Global, command: Command<'a>) -> Result<Command<'a>, AllocError>
    ensures { IfOk result (λ r. (app : App) → IsCommand app command.entry
        → IsCommand (with_rows app) r) }
{
    let command = adding(
        alloc,
        command,
        "compact",
        "Merge all tables into the last level",
        &["FILE"],
    )?;
    let command = adding(alloc, command, "dump", "Print all rows", &["FILE"])?;
    let command = adding(
        alloc,
        command,
        "load",
        "Put the rows of the input",
        &["FILE"],
    )?;
    let command = adding(
        alloc,
        command,
        "serve",
        "Answer the lines of the input as they come",
        &["FILE"],
    )?;
    Ok(command)
}

// The command with the subcommands that do many things: the steps of a script, or all that threads do at the same time.
fn with_scripts<'a>(alloc: Global, command: Command<'a>) -> Result<Command<'a>, AllocError>
    ensures { IfOk result (λ r. (app : App) → IsCommand app command.entry
        → IsCommand (with_scripts app) r) }
{
    let command = adding(
        alloc,
        command,
        "replay",
        "Make the steps of a script",
        &["FILE"],
    )?;
    let command = adding(
        alloc,
        command,
        "lives",
        "Lead lives in memory",
        &["SECTORS", "LOG"],
    )?;
    let command = adding(
        alloc,
        command,
        "explore",
        "Try every crash of a script in memory",
        &["SECTORS", "LOG"],
    )?;
    let command = adding(
        alloc,
        command,
        "storm",
        "Let clients and workers share a store in memory",
        &["CLIENTS", "COMMITS", "WORKERS"],
    )?;
    let command = adding(
        alloc,
        command,
        "tally",
        "Let clients count together in memory",
        &["CLIENTS", "TRIES"],
    )?;
    Ok(command)
}

// The command with the subcommands that make and change a store.
fn with_changes<'a>(alloc: Global, command: Command<'a>) -> Result<Command<'a>, AllocError>
    ensures { IfOk result (λ r. (app : App) → IsCommand app command.entry
        → IsCommand (with_changes app) r) }
{
    let command = adding(
        alloc,
        command,
        "format",
        "Make an empty store in a file, and lose what it holds",
        &["FILE", "SECTORS", "LOG"],
    )?;
    let command = adding(
        alloc,
        command,
        "put",
        "Put a value under a key",
        &["FILE", "KEY", "VALUE"],
    )?;
    let command = adding(
        alloc,
        command,
        "putif",
        "Put a value under a key that has another, or none",
        &["FILE", "KEY", "OLD", "NEW"],
    )?;
    let command = adding(alloc, command, "del", "Delete a key", &["FILE", "KEY"])?;
    Ok(command)
}

// The command with one subcommand more, whose words stand at these places.
fn adding<'a>(
    alloc: Global,
    command: Command<'a>,
    name: &'a str,
    about: &'a str,
    places: &[&'a str],
) -> Result<Command<'a>, AllocError>
    ensures { IfOk result (λ r. (app : App) → IsCommand app command.entry
        → IsCommand (with_words_at app name.entry.now (map (λ place. place.now) places.now)) r) }
{
    let subcommand = taking(alloc, name, about, places)?;
    Ok(command.subcommand(subcommand)?)
}

// The command without its subcommands. The usage of each begins with the program's name.
fn bare<'a>(alloc: Global) -> Result<Command<'a>, AllocError>
    ensures { IfOk result (IsCommand bare_program) }
{
    let command = Command::new(alloc, "lsmctl")
        .about("An ordered key-value store in a file")
        .no_binary_name(true)
        .subcommand_required(true)
        .bin_name("lsmctl")?;
    Ok(command)
}

// A subcommand with words that have to be there, at fixed places.
fn taking<'a>(
    alloc: Global,
    name: &'a str,
    about: &'a str,
    places: &[&'a str],
) -> Result<Command<'a>, AllocError>
    ensures { IfOk result
        (IsCommand (with_words (new_app name.entry.now) (map (λ place. place.now) places.now))) }
{
    let mut command = Command::new(alloc, name).about(about);
    for place in places {
        command = command.arg(word(alloc, place))?;
    }
    Ok(command)
}

// A word that has to be there.
fn word<'a>(alloc: Global, place: &'a str) -> Arg<'a>
    ensures rule { rule_of result ≡ word_rule place.entry.now }
    ensures local { result.global ≡ false }
{
    Arg::new(alloc, place).required(true).action(ArgAction::Set)
}

// A subcommand's words from their places.
fn subcommand<'a>(name: &str, given: &ArgMatches<'a>) -> Result<Subcommand<'a>, Usage>
    ensures { MatchResult result (Asks name.now (rows_of (found_of given.now)))
        (λ _. has_words name.now (rows_of (found_of given.now)) ≡ false) }
{
    match name {
        "format" => {
            let (file, sectors, log) = three(given, "FILE", "SECTORS", "LOG")?;
            Ok(Subcommand::Format { file, sectors, log })
        }
        "put" => {
            let (file, key, value) = three(given, "FILE", "KEY", "VALUE")?;
            Ok(Subcommand::Put { file, key, value })
        }
        "putif" => {
            let (file, key, old, new) = four(given, "FILE", "KEY", "OLD", "NEW")?;
            Ok(Subcommand::PutIf {
                file,
                key,
                old,
                new,
            })
        }
        "del" => {
            let (file, key) = two(given, "FILE", "KEY")?;
            Ok(Subcommand::Delete { file, key })
        }
        _ => other(name, given),
    }
}

// The words of a subcommand that reads a store or does many things.
fn other<'a>(name: &str, given: &ArgMatches<'a>) -> Result<Subcommand<'a>, Usage>
    ensures { MatchResult result (Asks name.now (rows_of (found_of given.now)))
        (λ _. has_other_words name.now (rows_of (found_of given.now)) ≡ false) }
{
    match name {
        "get" => {
            let (file, key) = two(given, "FILE", "KEY")?;
            Ok(Subcommand::Get { file, key })
        }
        "scan" => {
            let (file, from, limit) = three(given, "FILE", "FROM", "LIMIT")?;
            Ok(Subcommand::Scan { file, from, limit })
        }
        "stat" => {
            let file = at(given, "FILE")?;
            Ok(Subcommand::Stat { file })
        }
        "check" => {
            let file = at(given, "FILE")?;
            Ok(Subcommand::Check { file })
        }
        "compact" => {
            let file = at(given, "FILE")?;
            Ok(Subcommand::Compact { file })
        }
        "dump" => {
            let file = at(given, "FILE")?;
            Ok(Subcommand::Dump { file })
        }
        "load" => {
            let file = at(given, "FILE")?;
            Ok(Subcommand::Load { file })
        }
        "serve" => {
            let file = at(given, "FILE")?;
            Ok(Subcommand::Serve { file })
        }
        _ => script(name, given),
    }
}

// The words of a subcommand that does many things.
fn script<'a>(name: &str, given: &ArgMatches<'a>) -> Result<Subcommand<'a>, Usage>
    ensures { MatchResult result (Asks name.now (rows_of (found_of given.now)))
        (λ _. has_script_words name.now (rows_of (found_of given.now)) ≡ false) }
{
    match name {
        "replay" => {
            let file = at(given, "FILE")?;
            Ok(Subcommand::Replay { file })
        }
        "lives" => {
            let (sectors, log) = two(given, "SECTORS", "LOG")?;
            Ok(Subcommand::Lives { sectors, log })
        }
        "explore" => {
            let (sectors, log) = two(given, "SECTORS", "LOG")?;
            Ok(Subcommand::Explore { sectors, log })
        }
        "storm" => {
            let (clients, commits, workers) = three(given, "CLIENTS", "COMMITS", "WORKERS")?;
            Ok(Subcommand::Storm {
                clients,
                commits,
                workers,
            })
        }
        "tally" => {
            let (clients, tries) = two(given, "CLIENTS", "TRIES")?;
            Ok(Subcommand::Tally { clients, tries })
        }
        _ => Err(Usage::Missing("the subcommand")),
    }
}

// The words at four places.
fn four<'a>(
    given: &ArgMatches<'a>,
    first: &'static str,
    second: &'static str,
    third: &'static str,
    fourth: &'static str,
) -> Result<(&'a str, &'a str, &'a str, &'a str), Usage>
    ensures { let rows = rows_of (found_of given.now) in
        MatchResult result
        (λ words. (HasWord rows first.now words.0.now) × (HasWord rows second.now words.1.now)
        × (HasWord rows third.now words.2.now) × (HasWord rows fourth.now words.3.now))
        (λ _. (has_word rows first.now
        && (has_word rows second.now
        && (has_word rows third.now && has_word rows fourth.now))) ≡ false) }
{
    let first = at(given, first)?;
    let (second, third, fourth) = three(given, second, third, fourth)?;
    Ok((first, second, third, fourth))
}

// The words at three places.
fn three<'a>(
    given: &ArgMatches<'a>,
    first: &'static str,
    second: &'static str,
    third: &'static str,
) -> Result<(&'a str, &'a str, &'a str), Usage>
    ensures { let rows = rows_of (found_of given.now) in
        MatchResult result
        (λ words. (HasWord rows first.now words.0.now) × (HasWord rows second.now words.1.now)
        × (HasWord rows third.now words.2.now))
        (λ _. (has_word rows first.now && (has_word rows second.now && has_word rows third.now))
        ≡ false) }
{
    let first = at(given, first)?;
    let (second, third) = two(given, second, third)?;
    Ok((first, second, third))
}

// The words at two places.
fn two<'a>(
    given: &ArgMatches<'a>,
    first: &'static str,
    second: &'static str,
) -> Result<(&'a str, &'a str), Usage>
    ensures { let rows = rows_of (found_of given.now) in
        MatchResult result
        (λ words. (HasWord rows first.now words.0.now) × (HasWord rows second.now words.1.now))
        (λ _. (has_word rows first.now && has_word rows second.now) ≡ false) }
{
    let first = at(given, first)?;
    let second = at(given, second)?;
    Ok((first, second))
}

// The word at a place, which the parser asked for.
fn at<'a>(given: &ArgMatches<'a>, place: &'static str) -> Result<&'a str, Usage>
    ensures { MatchResult result (λ word. HasWord (rows_of (found_of given.now)) place.now word.now)
        (λ _. is_some (first_of place.now (rows_of (found_of given.now))) ≡ false) }
{
    match given.get_str(place) {
        Some(word) => Ok(word),
        None => Err(Usage::Missing(place)),
    }
}
