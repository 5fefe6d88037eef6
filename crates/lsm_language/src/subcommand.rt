//! What the words ask for, before the words for numbers and bytes are read.

/// A subcommand with its words.
#[derive(Clone, Copy)]
pub enum Subcommand<'a> {
    Format {
        file: &'a str,
        sectors: &'a str,
        log: &'a str,
    },
    Put {
        file: &'a str,
        key: &'a str,
        value: &'a str,
    },
    PutIf {
        file: &'a str,
        key: &'a str,
        old: &'a str,
        new: &'a str,
    },
    Delete {
        file: &'a str,
        key: &'a str,
    },
    Get {
        file: &'a str,
        key: &'a str,
    },
    Scan {
        file: &'a str,
        from: &'a str,
        limit: &'a str,
    },
    Stat {
        file: &'a str,
    },
    Check {
        file: &'a str,
    },
    Compact {
        file: &'a str,
    },
    Dump {
        file: &'a str,
    },
    Load {
        file: &'a str,
    },
    Serve {
        file: &'a str,
    },
    Replay {
        file: &'a str,
    },
    Lives {
        sectors: &'a str,
        log: &'a str,
    },
    Explore {
        sectors: &'a str,
        log: &'a str,
    },
    Storm {
        clients: &'a str,
        commits: &'a str,
        workers: &'a str,
    },
    Tally {
        clients: &'a str,
        tries: &'a str,
    },
}
