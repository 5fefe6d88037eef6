//! Where the first mistake is in a line that can't be read. It is searched after the words that could be read.

use crate::expected::Expected;
use lsm_language::after;

/// What was expected first that isn't there, and what stands in its place.
pub(crate) fn first_mistake(line: &str) -> (Expected, &str) {
    let Some((name, rest)) = line.split_once(' ') else {
        return (form_of(line), line);
    };
    let found = match name {
        "commit" => in_operations(rest),
        "if" => in_guarded(rest),
        "get" => in_get(rest),
        "scan" => in_scan(rest),
        "syncto" | "release" => in_number(rest),
        _ => None,
    };
    match (found, form_of(name)) {
        (Some(found), _) => found,
        (None, Expected::Name) => (Expected::Name, name),
        (None, form) => (form, line),
    }
}

// The form of a line of this first word.
fn form_of(name: &str) -> Expected {
    match name {
        "commit" => Expected::Commit,
        "if" => Expected::If,
        "get" => Expected::Get,
        "scan" => Expected::Scan,
        "syncto" => Expected::SyncTo,
        "release" => Expected::Release,
        "sync" | "snapshot" | "room" | "stat" | "compact" => Expected::Alone,
        _ => Expected::Name,
    }
}

fn in_operations(words: &str) -> Option<(Expected, &str)> {
    for word in words.split(' ') {
        if let Some(found) = in_operation(word) {
            return Some(found);
        }
    }
    None
}

fn in_operation(word: &str) -> Option<(Expected, &str)> {
    match (after(word, '+'), after(word, '-')) {
        (Some(pair), _) => in_pair(Expected::Operation, word, pair),
        (None, Some(key)) => in_bytes(Expected::Key, key),
        (None, None) => Some((Expected::Operation, word)),
    }
}

// Guards, up to the word `then`, and the operations after it.
fn in_guarded(words: &str) -> Option<(Expected, &str)> {
    let mut is_behind = false;
    for word in words.split(' ') {
        if is_behind {
            if let Some(found) = in_operation(word) {
                return Some(found);
            }
        } else if word == "then" {
            is_behind = true;
        } else if let Some(found) = in_guard(word) {
            return Some(found);
        }
    }
    None
}

fn in_guard(word: &str) -> Option<(Expected, &str)> {
    match (after(word, '?'), after(word, '!')) {
        (Some(pair), _) => in_pair(Expected::Guard, word, pair),
        (None, Some(key)) => in_bytes(Expected::Key, key),
        (None, None) => Some((Expected::Guard, word)),
    }
}

// A key and its value, in a word.
fn in_pair<'a>(expected: Expected, word: &'a str, pair: &'a str) -> Option<(Expected, &'a str)> {
    let Some((key, value)) = pair.split_once('=') else {
        return Some((expected, word));
    };
    if let Some(found) = in_bytes(Expected::Key, key) {
        return Some(found);
    }
    in_bytes(Expected::Value, value)
}

fn in_bytes(expected: Expected, word: &str) -> Option<(Expected, &str)> {
    if is_bytes(word) {
        return None;
    }
    Some((expected, word))
}

fn is_bytes(word: &str) -> bool {
    word == "empty"
        || (!word.is_empty()
            && (word.len().is_multiple_of(2) && word.bytes().all(|byte| byte.is_ascii_hexdigit())))
}

fn in_number(word: &str) -> Option<(Expected, &str)> {
    if is_number(word) {
        return None;
    }
    Some((Expected::Number, word))
}

fn is_number(word: &str) -> bool {
    word.bytes().all(|byte| byte.is_ascii_digit()) && word.parse::<u64>().is_ok()
}

fn in_get(words: &str) -> Option<(Expected, &str)> {
    match words.split_once(' ') {
        Some((_, at)) if at.contains(' ') => None,
        Some((key, at)) => first_of(in_bytes(Expected::Key, key), in_snapshot(at)),
        None => in_bytes(Expected::Key, words),
    }
}

fn in_scan(words: &str) -> Option<(Expected, &str)> {
    let (from, words) = words.split_once(' ')?;
    let (to, words) = words.split_once(' ')?;
    let ends = first_of(in_bytes(Expected::From, from), in_end(to));
    match words.split_once(' ') {
        Some((_, at)) if at.contains(' ') => None,
        Some((limit, at)) => first_of(ends, first_of(in_number(limit), in_snapshot(at))),
        None => first_of(ends, in_number(words)),
    }
}

fn in_end(word: &str) -> Option<(Expected, &str)> {
    match word {
        "end" => None,
        _ => in_bytes(Expected::To, word),
    }
}

fn in_snapshot(word: &str) -> Option<(Expected, &str)> {
    match after(word, '@') {
        Some(number) if is_number(number) => None,
        _ => Some((Expected::Snapshot, word)),
    }
}

fn first_of<'a>(
    first: Option<(Expected, &'a str)>,
    second: Option<(Expected, &'a str)>,
) -> Option<(Expected, &'a str)> {
    match first {
        Some(found) => Some(found),
        None => second,
    }
}
