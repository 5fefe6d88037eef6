//! The operations of a batch, one after another.

ghost use Rattle.std.specs.Prelude.{◌≡◌, is_some, true};
ghost use Rattle.std.specs.Iterator.{YieldsFirstBy, item_count};
ghost use Rattle.lsm_codec.specs.BatchText.{operation_at, operations_left};
ghost use Rattle.lsm_codec.specs.Reading.{times};
ghost use Rattle.lsm_codec.specs.References.{shown_operation};

use crate::operation::OpRef;
use crate::operation_text::change_at;
use std::marker::Model;

/// The operations of a batch that are left, lent one after another. Contracts see their list.
#[derive(Drop)]
pub struct Operations<'a> {
    left: u16,
    text: &'a [u8],
}

impl<'a> Model for Operations<'a> {
    ghost use Rattle.std.specs.Prelude.{◌≡◌, List, is_some, true};
    ghost use Rattle.lsm_codec.specs.Map.{Operation};

    ghost Value = { List Operation };

    ghost use Rattle.lsm_codec.specs.BatchText.{operation_at, operations_left};
    ghost use Rattle.lsm_codec.specs.Reading.{times};

    ghost view = { λ o. operations_left o.left o.text.now };

    ghost invariant = { λ o. is_some (times o.left operation_at o.text.now) ≡ true };
}

impl<'a> Operations<'a> {
    /// The `left` operations whose texts are at the front of the bytes.
    pub(crate) fn new(left: u16, text: &'a [u8]) -> Operations<'a>
        requires { is_some (times left operation_at text.now) ≡ true }
        ensures { result ≡ operations_left left text.now }
    {
        Operations { left, text }
    }
}

impl<'a> Iterator for Operations<'a> {
    type Item = OpRef<'a>;

    ghost next_gives = { YieldsFirstBy shown_operation (λ o. o) };

    ghost remaining = { item_count (λ o. o) };

    fn next(&mut self) -> Option<OpRef<'a>> {
        if self.left == 0 {
            return None;
        }
        let (operation, rest) = change_at(self.text)?;
        self.left -= 1;
        self.text = rest;
        Some(operation)
    }
}
