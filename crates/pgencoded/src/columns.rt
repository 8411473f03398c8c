//! A definition's columns as the bytes that the tables store, and back.
//!
//! PostgreSQL documentation, Logical Replication Message Formats, Relation.

ghost use Rattle.std.specs.Prelude.{◌≡◌, List, IfOk, IfErr};
ghost use Rattle.pglogical.specs.declared.message.Column.{Column};
ghost use Rattle.pglogical.specs.Spelling.{columns_spelling, AreColumns, IsDefinition};
ghost use Rattle.pgencoded.specs.SqlFault.{IsRefusal};

use crate::fault::Refusal;
use pgapply::StoreFault;
use pglogical::{Column, DecodeFault, Reason, RelationDef, decode_columns, encode_columns};
use pgtuple::Seq;
use std::alloc::Global;

/// The bytes of a definition's columns, from their number on.
pub fn column_bytes(alloc: Global, def: &RelationDef) -> Result<Vec<u8>, Refusal>
    requires { IsDefinition def.now }
    ensures ok { IfOk result (λ bytes. bytes.items ≡ columns_spelling def.now.columns) }
    ensures err { IfErr result (λ fault. fault ≡ StoreFault.Memory) }
{
    let mut bytes = Vec::new(alloc);
    match encode_columns(def.columns.as_slice(), &mut bytes) {
        Ok(()) => Ok(bytes),
        Err(_) => Err(Refusal::new(StoreFault::Memory)),
    }
}

/// The columns that stored bytes encode. Bytes that no store writes are `NotAStore`.
pub fn read_columns(alloc: Global, bytes: &[u8]) -> Result<Seq<Column>, Refusal>
    ensures ok { IfOk result AreColumns }
    ensures spelled { IfOk result (λ columns. columns_spelling columns ≡ bytes.now) }
    ensures err { IfErr result IsRefusal }
    ensures memory { (columns : List Column) → AreColumns columns →
        bytes.now ≡ columns_spelling columns → IfErr result (λ fault. fault ≡ StoreFault.Memory) }
{
    match decode_columns(alloc, bytes) {
        Ok(columns) => Ok(columns),
        Err(
            DecodeFault {
                reason: Reason::Memory,
                ..
            },
        ) => Err(Refusal::new(StoreFault::Memory)),
        Err(_) => Err(Refusal::new(StoreFault::NotAStore)),
    }
}
