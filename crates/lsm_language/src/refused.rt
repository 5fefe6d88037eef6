//! Refusals as text.

ghost use Rattle.std.specs.Prelude.{◌≡◌};

use lsm_device::Refusal;
use std::fmt;

/// A refusal as the program prints it: `refused`, its number in two digits, and its name; then the place of the false guard, where it
/// tells one.
#[derive(Clone, Copy)]
pub struct RefusalText {
    refusal: Refusal,
}

/// The text of a refusal.
pub fn refusal_text(refusal: &Refusal) -> RefusalText
    ensures { result.refusal ≡ refusal.now }
{
    RefusalText { refusal: *refusal }
}

impl fmt::Display for RefusalText {
    ghost use Rattle.std.specs.Prelude.{Some};
    ghost use Rattle.lsm_language.specs.Faults.{refusal_text};

    ghost output = { λ text. Some (refusal_text text.refusal) };

    fn fmt<W: fmt::Write>(&self, f: &mut fmt::Formatter<W>) -> fmt::Result {
        let (tens, ones) = (self.refusal.number() / 10, self.refusal.number() % 10);
        let name = self.refusal.name();
        write!(f, "refused {tens}{ones} {name}")?;
        match self.refusal.place() {
            Some(place) => write!(f, " {place}"),
            None => Ok(()),
        }
    }
}
