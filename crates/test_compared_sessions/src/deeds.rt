//! What the clients of a session do.

use lsm_store::Choice;
use test_compared_steps::lists::ListedStep;

/// How many clients a session has, and how many places its trail.
#[derive(Clone, Copy)]
pub struct Sizes {
    pub clients: u32,
    pub places: u32,
}

/// What a client does.
#[derive(Clone, Copy)]
pub enum Deed {
    /// It makes a call.
    Call(u32, ListedStep),
    /// It takes the job of a choice.
    Take(u32, Choice),
    /// It takes a turn. What that hands out is built and brought.
    Turn(u32),
}

/// A result that comes late: the last client takes a turn, and is handed out an input. It builds that and brings the result only once
/// others have done something.
#[derive(Clone, Copy)]
pub struct Late {
    pub meanwhile: &'static [Deed],
    /// What is done then.
    pub behind: &'static [Deed],
}

/// What is done by the clients of a session, over the image that some lines make.
#[derive(Clone, Copy)]
pub struct Sitting {
    pub name: &'static str,
    pub past: &'static [ListedStep],
    pub sizes: Sizes,
    pub deeds: &'static [Deed],
    /// What comes after the deeds, if anything.
    pub late: Option<Late>,
}
