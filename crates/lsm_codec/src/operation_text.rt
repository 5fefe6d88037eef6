//! The text of an operation.

ghost use Rattle.std.specs.Prelude.{◌≡◌, ◌++◌, ◌≤◌, length, option_map, IfSome, OnOk, OnErr};
ghost use Rattle.lsm_codec.specs.BatchText.{IsChange, IsOperation, change_text, operation_at};
ghost use Rattle.lsm_codec.specs.Reading.{Lends};
ghost use Rattle.lsm_codec.specs.References.{shown_operation};

use crate::filled::Filled;
use crate::kind::{DELETE, PUT};
use crate::lending::{key_at, u8_at, value_at};
use crate::operation::OpRef;
use std::alloc::{AllocError, Allocator};

/// The operation at the front of the bytes, and the bytes after it.
#[tactic(auto, unfolding(crate::specs::BatchText::operation_at, crate::specs::BatchText::put_at, crate::specs::BatchText::delete_at))]
pub(crate) fn change_at(bytes: &[u8]) -> Option<(OpRef<'_>, &[u8])>
    ensures read { Lends (λ x. (shown_operation x.0, x.1.now)) result (operation_at bytes.now) }
    ensures fits { IfSome result (λ x. IsOperation (shown_operation x.0)) }
{
    let (kind, rest) = u8_at(bytes)?;
    let (key, rest) = key_at(rest)?;
    if kind == PUT {
        let (value, rest) = value_at(rest)?;
        let value = Some(value);
        return Some((OpRef { key, value }, rest));
    }
    if kind != DELETE {
        return None;
    }
    Some((OpRef { key, value: None }, rest))
}

/// The bytes of the text of an operation on a key.
pub(crate) fn change_len(key: &[u8], value: Option<&[u8]>) -> usize
    requires { IsChange key.now (option_map (λ v. v.now) value) }
    ensures value { result ≡ length (change_text key.now (option_map (λ v. v.now) value.entry)) }
    ensures short { result ≤ 2307 }
{
    match value {
        Some(value) => 4 + key.len() + value.len(),
        None => 2 + key.len(),
    }
}

/// Writes an operation on a key at the end, which puts a value, or deletes the key where there is none. Where memory is
/// refused, the text is as it was.
pub(crate) fn push_change<A: Allocator>(
    text: &mut Vec<u8, A>,
    key: &[u8],
    value: Option<&[u8]>,
) -> Result<(), AllocError>
    requires { IsChange key.now (option_map (λ v. v.now) value) }
    ensures ok { OnOk result (text.new.items
        ≡ text.old.items ++ change_text key.now (option_map (λ v. v.now) value.entry)) }
    ensures err { OnErr result (text.new.items ≡ text.old.items) }
{
    let mut head = Filled::<259>::new();
    match value {
        Some(value) => {
            head.put_u8(PUT);
            head.put_key(key);
            head.put_u16(value.len() as u16);
            push_both(text, head.text(), value)
        }
        None => {
            head.put_u8(DELETE);
            head.put_key(key);
            text.extend_from_slice(head.text())
        }
    }
}

// Writes two slices of bytes at the end, one after the other, or none where memory is refused.
fn push_both<A: Allocator>(
    text: &mut Vec<u8, A>,
    first: &[u8],
    second: &[u8],
) -> Result<(), AllocError>
    ensures ok { OnOk result (text.new.items ≡ text.old.items ++ (first.now ++ second.now)) }
    ensures err { OnErr result (text.new.items ≡ text.old.items) }
{
    let before = text.len();
    text.extend_from_slice(first)?;
    if let Err(refused) = text.extend_from_slice(second) {
        text.truncate(before);
        return Err(refused);
    }
    Ok(())
}
