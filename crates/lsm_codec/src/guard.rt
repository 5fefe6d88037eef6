//! What is asked of the map before a batch is added.

ghost use Rattle.std.specs.Prelude.{◌≡◌, Some, None, option_map, IfSome};
ghost use Rattle.lsm_codec.specs.Keys.{IsKey, IsValue};
ghost use Rattle.lsm_codec.specs.Answers.{Answers, or_then, key_refusal, value_refusal};
ghost use Rattle.lsm_codec.specs.Guards.{is_same_value};

use crate::key::{Key, check_key};
use crate::value::{Value, check_value};
use lsm_device::Refusal;
use std::alloc::{Allocator, Global};
use std::marker::Model;

/// A guard of a batch: a key has this value, or has none. Contracts see key and value, where no value asks for none.
#[derive(Drop)]
pub struct Guard<A: Allocator = Global> {
    key: Key<A>,
    value: Option<Value<A>>,
}

impl<A: Allocator> Model for Guard<A> {
    ghost use Rattle.lsm_codec.specs.Guards.{Condition};

    ghost Value = { Condition };

    ghost view = { λ g. record { key = g.key; value = g.value } };
}

impl<A: Allocator + Clone> Guard<A> {
    /// The key has just this value; one of no bytes is a value too. A key outside 1 to 255 bytes is `BadKey`, a value above
    /// 2,048 bytes `BadValue`, in this order, and want of memory `NoMemory`.
    pub fn holds(alloc: A, key: &[u8], value: &[u8]) -> Result<Guard<A>, Refusal>
        ensures { Answers (or_then (key_refusal key.now) (value_refusal value.now)) result
            (λ g. g ≡ record { key = key.now; value = Some value.now }) }
    {
        check_key(key)?;
        check_value(value)?;
        Ok(Guard {
            value: Some(Value::from_slice(alloc.clone()?, value)?),
            key: Key::from_slice(alloc, key)?,
        })
    }
}

impl<A: Allocator> Guard<A> {
    /// The key has no value. A key outside 1 to 255 bytes is `BadKey`, want of memory `NoMemory`.
    pub fn absent(alloc: A, key: &[u8]) -> Result<Guard<A>, Refusal>
        ensures { Answers (key_refusal key.now) result
            (λ g. g ≡ record { key = key.now; value = None }) }
    {
        check_key(key)?;
        let key = Key::from_slice(alloc, key)?;
        Ok(Guard { key, value: None })
    }

    /// The key whose value is compared.
    pub fn key(&self) -> &[u8]
        ensures same { result.now ≡ self.now.key }
        ensures fits { IsKey self.now.key }
    {
        self.key.as_slice()
    }

    /// The value that the key must have, or `None` where it must have none.
    pub fn value(&self) -> Option<&[u8]>
        ensures same { option_map (λ v. v.now) result ≡ self.now.value }
        ensures fits { IfSome result (λ v. IsValue v.now) }
    {
        match &self.value {
            Some(value) => Some(value.as_slice()),
            None => None,
        }
    }

    /// Whether the guard holds where its key has this value, or none.
    pub fn is_met_by(&self, value: Option<&[u8]>) -> bool
        ensures { result ≡ is_same_value (option_map (λ v. v.now) value.entry) self.now.value }
    {
        match &self.value {
            Some(wanted) => match value {
                Some(value) => value.cmp(wanted.as_slice()).is_eq(),
                None => false,
            },
            None => value.is_none(),
        }
    }
}
