//! The fields of a tuple, read one after the other.
//!
//! PostgreSQL documentation, Logical Replication Message Formats, TupleData.

ghost use Rattle.std.specs.Prelude.{◌≡◌, ◌+◌, ◌<◌, ◌^◌, ℕ, List, length, MatchResult, MatchOption};
ghost use Rattle.std.specs.Prelude.{IfOk, Ok, Err};
ghost use Rattle.std.specs.Int.{w16, w32};
ghost use Rattle.std.specs.Str.{IsUtf8};
ghost use Rattle.pgtuple.specs.Reading.{At, number_at, length_at, bytes_at, text_at, byte_at};

use crate::ascii::is_short_ascii;
use crate::fault::TupleFault;
use crate::limits::MAX_INT32;
use std::marker::Model;

/// The bytes that are still to be read, and the offset of the first of them in the tuple.
#[derive(Drop)]
pub(crate) struct Reader<'a> {
    rest: &'a [u8],
    offset: usize,
}

impl<'a> Model for Reader<'a> {
    ghost Value = { At };

    ghost view = { λ r. (r.offset, r.rest.now) };

    ghost invariant = { λ r. r.offset + length r.rest.now < 2 ^ 64 };
}

impl<'a> Reader<'a> {
    /// A reader of a tuple that begins with the first of these bytes.
    pub(crate) fn new(bytes: &'a [u8]) -> Reader<'a>
        ensures { result ≡ (0, bytes.now) }
    {
        Reader {
            rest: bytes,
            offset: 0,
        }
    }

    /// The offset of the next field.
    pub(crate) fn offset(&self) -> usize
        ensures { result ≡ self.now.0 }
    {
        self.offset
    }

    /// How many bytes are still to be read.
    pub(crate) fn remaining(&self) -> usize
        ensures { result ≡ length self.now.1 }
    {
        self.rest.len()
    }

    /// The next bytes.
    #[tactic(auto, unfolding(crate::specs::Reading::bytes_at))]
    pub(crate) fn bytes(&mut self, count: usize) -> Result<&'a [u8], TupleFault>
        ensures len { IfOk result (λ b. length b.now ≡ count) }
        ensures read { MatchResult result (λ b. bytes_at count self.old ≡ Ok (b.now, self.new))
            (λ f. bytes_at count self.old ≡ Err f) }
    {
        if self.rest.len() < count {
            return Err(TupleFault::Short(self.offset));
        }
        let (front, rest) = self.rest.split_at(count);
        self.rest = rest;
        self.offset += count;
        Ok(front)
    }

    #[tactic(auto, unfolding(crate::specs::Reading::number_at, crate::specs::Reading::bytes_at))]
    pub(crate) fn u16(&mut self) -> Result<u16, TupleFault>
        ensures { MatchResult result (λ n. number_at w16 self.old ≡ Ok (n, self.new))
            (λ f. number_at w16 self.old ≡ Err f) }
    {
        let front = self.bytes(2)?;
        Ok(u16::from_be_bytes([front[0], front[1]]))
    }

    #[tactic(auto, unfolding(crate::specs::Reading::number_at, crate::specs::Reading::bytes_at))]
    pub(crate) fn u32(&mut self) -> Result<u32, TupleFault>
        ensures { MatchResult result (λ n. number_at w32 self.old ≡ Ok (n, self.new))
            (λ f. number_at w32 self.old ≡ Err f) }
    {
        let front = self.bytes(4)?;
        Ok(u32::from_be_bytes([front[0], front[1], front[2], front[3]]))
    }

    /// A length, which isn't negative.
    #[tactic(auto, unfolding(crate::specs::Reading::length_at))]
    pub(crate) fn length(&mut self) -> Result<usize, TupleFault>
        ensures { MatchResult result (λ n. length_at self.old ≡ Ok (n, self.new))
            (λ f. length_at self.old ≡ Err f) }
    {
        let offset = self.offset();
        let length = self.u32()?;
        if length > MAX_INT32 {
            return Err(TupleFault::BadLength(offset));
        }
        Ok(length as usize)
    }

    /// The next bytes, which are UTF-8.
    #[tactic(auto, unfolding(crate::specs::Reading::text_at))]
    #[inline(always)]
    pub(crate) fn text(&mut self, count: usize) -> Result<&'a str, TupleFault>
        ensures { MatchResult result (λ t. text_at count self.old ≡ Ok (t.now, self.new))
            (λ f. text_at count self.old ≡ Err f) }
    {
        let offset = self.offset();
        let bytes = self.bytes(count)?;
        match text_of(bytes) {
            Some(text) => Ok(text),
            None => Err(TupleFault::NotUtf8(offset)),
        }
    }

    /// A byte.
    #[tactic(auto, unfolding(crate::specs::Reading::byte_at))]
    pub(crate) fn u8(&mut self) -> Result<u8, TupleFault>
        ensures { MatchResult result (λ b. byte_at self.old ≡ Ok (b, self.new))
            (λ f. byte_at self.old ≡ Err f) }
    {
        match self.rest {
            [] => Err(TupleFault::Short(self.offset)),
            [byte, rest @ ..] => {
                self.rest = rest;
                self.offset += 1;
                Ok(*byte)
            }
        }
    }
}

/// The text of these bytes, if they are UTF-8.
#[inline(always)]
fn text_of(bytes: &[u8]) -> Option<&str>
    ensures { MatchOption result (IsUtf8 bytes.now → ⊥)
        (λ text. (text.now ≡ bytes.now) × IsUtf8 bytes.now) }
{
    if is_short_ascii(bytes) {
        return Some(unsafe { std::str::from_utf8_unchecked(bytes) });
    }
    std::str::from_utf8(bytes).ok()
}
