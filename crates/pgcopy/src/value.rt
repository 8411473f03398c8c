//! The values of columns.
//!
//! PostgreSQL documentation, COPY, File Formats, Text Format.

ghost use Rattle.std.specs.Prelude.{◌≡◌, ◌≤◌, ◌<◌, [], length, vec_len, Ok, true, MatchResult};
ghost use Rattle.std.specs.Prelude.{IfOk, IfErr, IfSome, MatchOption};
ghost use Rattle.pgcopy.specs.Values.{value_of, with_byte};
ghost use Rattle.pgcopy.specs.Read.{IsFault};

use crate::fault::{Reason, RowFault};
use crate::sequence::sequence;
use std::alloc::Global;

// The first byte of a sequence.
const BACKSLASH: u8 = b'\\';

/// Whether each character of a field stands for itself.
pub(crate) fn is_plain(field: &[u8]) -> bool
    ensures { result ≡ true → value_of field.now ≡ Ok field.now }
{
    !field
        .iter()
        .any(|byte| *byte == BACKSLASH || *byte == b'\r')
}

// The first byte of a field's value, and the characters behind those that stand for it.
fn first_of(field: &[u8]) -> Result<Option<(u8, &[u8])>, RowFault>
    ensures first { IfOk result (λ first. MatchOption first (value_of field.now ≡ Ok [])
        (λ x. value_of field.now ≡ with_byte x.0 (value_of x.1.now))) }
    ensures shorter { IfOk result (λ first. IfSome first (λ x.
        length x.1.now < length field.now)) }
    ensures fault { IfErr result (λ fault. IsFault fault (value_of field.now)) }
{
    let Some((byte, behind)) = field.split_first() else {
        return Ok(None);
    };
    if *byte == b'\r' {
        return Err(RowFault::Bad(Reason::CarriageReturn));
    }
    if *byte != BACKSLASH {
        return Ok(Some((*byte, behind)));
    }
    if behind.is_empty() {
        return Err(RowFault::Bad(Reason::CutSequence));
    }
    let (meant, taken) = sequence(behind);
    let (_, others) = behind.split_at(taken);
    Ok(Some((meant, others)))
}

/// The value of a field, with memory of its own.
#[tactic(auto, using(crate::proofs::Plain::value_all, crate::proofs::Plain::value_more, crate::proofs::Plain::value_bad))]
pub(crate) fn value(alloc: Global, field: &[u8]) -> Result<Vec<u8>, RowFault>
    ensures value { MatchResult result (λ value. value_of field.now ≡ Ok value.items)
        (λ fault. IsFault fault (value_of field.now)) }
    ensures most { IfOk result (λ value. vec_len value ≤ length field.now) }
{
    let mut value = Vec::with_capacity(alloc, field.len())?;
    let mut rest = field;
    loop {
        let Some((byte, behind)) = first_of(rest)? else {
            return Ok(value);
        };
        value.push(byte)?;
        rest = behind;
    }
}
