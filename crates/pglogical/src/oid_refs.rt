//! OIDs that are borrowed.
//!
//! PostgreSQL documentation, Logical Replication Message Formats, Truncate.

ghost use Rattle.std.specs.Prelude.{◌≡◌, ℕ, List, length, IfOk, IfErr, MatchOption, [], ◌∷◌};
ghost use Rattle.pglogical.specs.Reading.{oids_in};
ghost use Rattle.pglogical.specs.Answers.{out_of_memory};

use crate::fault::DecodeFault;
use pgtuple::Seq;
use std::alloc::Global;
use std::marker::Model;

/// What borrowed OIDs are made of.
#[derive(Clone, Copy, Debug)]
enum Oids<'a> {
    /// OIDs that someone owns.
    Owned(&'a [u32]),
    /// Bytes that encode them, four for each.
    Spelled(&'a [u8]),
}

/// The OIDs of a borrowed Truncate that are still to come, seen as their list.
///
/// PostgreSQL documentation, Logical Replication Message Formats, Truncate.
#[derive(Drop)]
pub struct OidRefs<'a> {
    rest: Oids<'a>,
}

impl<'a> Model for OidRefs<'a> {
    ghost use Rattle.std.specs.Prelude.{ℕ, List};
    ghost use Rattle.pglogical.specs.Forms.{oids_of};

    ghost Value = { List ℕ };

    ghost view = { λ o. oids_of o.rest };
}

impl<'a> OidRefs<'a> {
    /// OIDs that someone owns, borrowed. It asks for no memory.
    pub fn of(oids: &'a [u32]) -> OidRefs<'a>
        ensures { result ≡ oids.now }
    {
        OidRefs {
            rest: Oids::Owned(oids),
        }
    }

    /// The OIDs that these bytes encode.
    pub(crate) fn read(bytes: &'a [u8]) -> OidRefs<'a>
        ensures { result ≡ oids_in bytes.now }
    {
        OidRefs {
            rest: Oids::Spelled(bytes),
        }
    }

    /// The same OIDs, borrowed once more.
    pub fn reborrow(&self) -> OidRefs<'a>
        ensures { result ≡ self.now }
    {
        OidRefs { rest: self.rest }
    }

    /// How many OIDs are still to come.
    pub fn len(&self) -> usize
        ensures { result ≡ length self.now }
    {
        match self.rest {
            Oids::Owned(oids) => oids.len(),
            Oids::Spelled(bytes) => bytes.len() / 4,
        }
    }

    /// The same OIDs with memory of their own. It returns an error only where memory runs out, at
    /// place 0.
    pub fn to_oids(&self, alloc: Global) -> Result<Seq<u32>, DecodeFault>
        ensures same { IfOk result (λ oids. oids ≡ self.now) }
        ensures memory { IfErr result (λ fault. fault ≡ out_of_memory) }
    {
        let mut oids = Vec::with_capacity(alloc, self.len())?;
        for oid in self.reborrow() {
            oids.push(oid)?;
        }
        Ok(Seq::from_vec(oids))
    }
}

// The OID of the first four bytes, and the other bytes.
fn first_of(bytes: &[u8]) -> Option<(u32, &[u8])>
    ensures { MatchOption result (oids_in bytes.now ≡ [])
        (λ x. oids_in bytes.now ≡ x.0 ∷ oids_in x.1.now) }
{
    match bytes.split_first_chunk::<4>() {
        None => None,
        Some((first, others)) => Some((u32::from_be_bytes(*first), others)),
    }
}

impl<'a> Iterator for OidRefs<'a> {
    ghost use Rattle.std.specs.Iterator.{YieldsFirst, item_count};

    type Item = u32;

    ghost next_gives = { YieldsFirst (λ s. s) };

    ghost remaining = { item_count (λ s. s) };

    fn next(&mut self) -> Option<u32> {
        match self.rest {
            Oids::Owned(oids) => {
                let (first, others) = oids.split_first()?;
                self.rest = Oids::Owned(others);
                Some(*first)
            }
            Oids::Spelled(bytes) => {
                let (first, others) = first_of(bytes)?;
                self.rest = Oids::Spelled(others);
                Some(first)
            }
        }
    }
}
