//! Tuples and identities as the bytes that the tables store, and back.
//!
//! PostgreSQL documentation, Logical Replication Message Formats, TupleData and Relation.

ghost use Rattle.std.specs.Prelude.{◌≡◌, List, length, IsSome, ◌⊎◌, Ok, IfOk, IsOk, IfErr};
ghost use Rattle.pgtuple.specs.declared.cell.Cell.{Cell};
ghost use Rattle.pgtuple.specs.Cells.{tuple_spelling};
ghost use Rattle.pgtuple.specs.Limits.{IsWireTuple};
ghost use Rattle.pgrel.specs.Identity.{searched_identity};
ghost use Rattle.pgapply.specs.Value.{identity_key};
ghost use Rattle.pgapply.specs.Apply.{in_store};
ghost use Rattle.pgapply.specs.Stored.{IsFault};
ghost use Rattle.pgencoded.specs.EncodedBytes.{encoded_bytes};

use crate::fault::Refusal;
use pgapply::StoreFault;
use pglogical::{OldKind, RelationDef};
use pgrel::{keyed, row_identity, search_identity};
use pgtuple::{Tuple, TupleRef, decode_ref};
use std::alloc::Global;

/// The greatest number of copies of a row.
pub const MOST_COPIES: u32 = 2147483647;

/// The bytes of a tuple.
#[derive(Drop)]
pub enum Encoded<'a> {
    /// Those that it was received as.
    Received(&'a [u8]),
    /// Those that it was encoded into.
    Own(Vec<u8>),
}

impl<'a> Encoded<'a> {
    /// The bytes.
    pub fn as_slice(&self) -> &[u8]
        ensures { result.now ≡ encoded_bytes self.now }
    {
        match self {
            Encoded::Received(bytes) => bytes,
            Encoded::Own(bytes) => bytes.as_slice(),
        }
    }
}

/// The bytes of a tuple, which is within a tuple's limits. A tuple over received bytes takes no
/// memory.
pub fn encode<'a>(alloc: Global, tuple: &TupleRef<'a>) -> Result<Encoded<'a>, Refusal>
    ensures ok { IfOk result (λ bytes. encoded_bytes bytes ≡ tuple_spelling tuple.now) }
    ensures limits { IsWireTuple tuple.now }
    ensures err { IfErr result (λ fault. fault ≡ StoreFault.Memory) }
{
    tuple.fits_wire();
    if let Some(bytes) = tuple.spelled() {
        return Ok(Encoded::Received(bytes));
    }
    let mut bytes = Vec::new(alloc);
    match pgtuple::encode(tuple, &mut bytes) {
        Ok(()) => Ok(Encoded::Own(bytes)),
        Err(_) => Err(Refusal::new(StoreFault::Memory)),
    }
}

/// The tuple of these bytes, which it borrows. Bytes that no store writes are `NotAStore`.
pub fn read_tuple(bytes: &[u8]) -> Result<TupleRef<'_>, StoreFault>
    ensures ok { IfOk result (λ tuple. (cells : List Cell) → IsWireTuple cells →
        bytes.now ≡ tuple_spelling cells → tuple ≡ cells) }
    ensures err { IfErr result (λ fault. fault ≡ StoreFault.NotAStore) }
    ensures encoded { (cells : List Cell) → IsWireTuple cells → bytes.now ≡ tuple_spelling cells →
        IsOk result }
{
    let Ok((tuple, len)) = decode_ref(bytes) else {
        return Err(StoreFault::NotAStore);
    };
    if len != bytes.len() {
        return Err(StoreFault::NotAStore);
    }
    Ok(tuple)
}

/// The bytes of a row's identity.
pub fn encode_identity<'a>(
    alloc: Global,
    def: &RelationDef,
    row: &TupleRef<'a>,
) -> Result<Encoded<'a>, Refusal>
    requires { length row.now ≡ length def.now.columns }
    ensures ok { IfOk result (λ bytes. encoded_bytes bytes ≡ identity_key def.now row.now) }
    ensures err { IfErr result (λ fault. fault ≡ StoreFault.Memory) }
{
    if !keyed(def) {
        return encode(alloc, row);
    }
    let identity = row_identity(alloc, def, row)?;
    Ok(Encoded::Own(encode_owned(alloc, &identity)?))
}

/// The bytes of a tuple that has memory of its own.
fn encode_owned(alloc: Global, tuple: &Tuple) -> Result<Vec<u8>, Refusal>
    ensures ok { IfOk result (λ bytes. bytes.items ≡ tuple_spelling tuple.now) }
    ensures err { IfErr result (λ fault. fault ≡ StoreFault.Memory) }
{
    let mut bytes = Vec::new(alloc);
    match pgtuple::encode(&tuple.borrowed(), &mut bytes) {
        Ok(()) => Ok(bytes),
        Err(_) => Err(Refusal::new(StoreFault::Memory)),
    }
}

/// The bytes of the identity by which an update or a delete finds its row, if its checks hold.
pub fn encode_searched(
    alloc: Global,
    def: &RelationDef,
    prior: Option<(OldKind, TupleRef<'_>)>,
    row: Option<TupleRef<'_>>,
) -> Result<Vec<u8>, Refusal>
    requires { IsSome prior ⊎ IsSome row }
    ensures ok { IfOk result (λ bytes. (cells : List Cell)
        × (searched_identity def.now prior.entry row.entry ≡ Ok cells)
        × (bytes.items ≡ tuple_spelling cells)) }
    ensures err { IfErr result (λ fault. IsFault fault
        (in_store (searched_identity def.now prior.entry row.entry))) }
{
    let identity = search_identity(alloc, def, prior, row)?;
    encode_owned(alloc, &identity)
}

/// The same old tuple, borrowed once more.
pub fn reborrow_prior<'a>(
    prior: &Option<(OldKind, TupleRef<'a>)>,
) -> Option<(OldKind, TupleRef<'a>)>
    ensures { result ≡ prior.now }
{
    match prior {
        None => None,
        Some((kind, row)) => Some((*kind, row.reborrow())),
    }
}
