//! The rows that the trees have, and the key that finds them.

ghost use Rattle.std.specs.Prelude.{◌≡◌, ◌∷◌, ℕ, ℤ, List, [], pos, true, MatchOption, OnOk};
ghost use Rattle.sqlite.specs.declared.types.Value.TheVariants.{Int, Blob};
ghost use Rattle.sqlite.specs.Order.{column};
ghost use Rattle.sqlite_value.specs.Value.{owned};
ghost use Rattle.pgtables.specs.Kept.{held_row, pos_row, rel_row};
ghost use Rattle.pgrows.specs.Rows.{IsAt, IsOf, front_of, index_row, key_of};
ghost use Rattle.pgrows.specs.Stored.{IsWithin};

use sqlite_value::row::Row;
use sqlite_value::value::ValueRef;
use std::alloc::AllocError;

/// Writes the key of a row over `key`.
pub(crate) fn write_key(key: &mut Row, oid: u32, ident: &[u8]) -> Result<(), AllocError>
    ensures { OnOk result (key.new ≡ key_of oid ident.now) }
{
    key.clear();
    key.push(ValueRef::Int(i64::from(oid)))?;
    key.push(ValueRef::Blob(ident))
}

/// Writes what the keys of a relation begin with over `key`.
pub(crate) fn write_front(key: &mut Row, oid: u32) -> Result<(), AllocError>
    ensures { OnOk result (key.new ≡ front_of oid) }
{
    key.clear();
    key.push(ValueRef::Int(i64::from(oid)))
}

/// Writes the entry of a row in the index over `entry`.
pub(crate) fn write_entry(
    entry: &mut Row,
    oid: u32,
    ident: &[u8],
    id: i64,
) -> Result<(), AllocError>
    ensures { OnOk result (entry.new ≡ index_row oid ident.now id) }
{
    entry.clear();
    entry.push(ValueRef::Int(i64::from(oid)))?;
    entry.push(ValueRef::Blob(ident))?;
    entry.push(ValueRef::Int(id))
}

/// Writes a row of `held` over `row`.
pub(crate) fn write_row(
    row: &mut Row,
    id: i64,
    oid: u32,
    ident: &[u8],
    body: &[u8],
    copies: u32,
) -> Result<(), AllocError>
    ensures { OnOk result (row.new ≡ held_row (Int id) oid ident.now
        (record { body = body.now; copies = copies })) }
{
    row.clear();
    row.push(ValueRef::Int(id))?;
    row.push(ValueRef::Int(i64::from(oid)))?;
    row.push(ValueRef::Blob(ident))?;
    row.push(ValueRef::Blob(body))?;
    row.push(ValueRef::Int(i64::from(copies)))
}

/// Writes a row of `rel` over `row`.
pub(crate) fn write_definition(
    row: &mut Row,
    oid: u32,
    namespace: &str,
    name: &str,
    letter: u32,
    columns: &[u8],
) -> Result<(), AllocError>
    ensures { OnOk result (row.new ≡ rel_row oid
        (record {
          namespace = namespace.now;
          name = name.now;
          letter = letter;
          columns = columns.now;
        })) }
{
    row.clear();
    row.push(ValueRef::Int(i64::from(oid)))?;
    row.push(ValueRef::Null)?;
    row.push(ValueRef::Text(namespace.as_bytes()))?;
    row.push(ValueRef::Text(name.as_bytes()))?;
    row.push(ValueRef::Int(i64::from(letter)))?;
    row.push(ValueRef::Blob(columns))
}

/// Writes the row of `pos` over `row`.
pub(crate) fn write_place(row: &mut Row, position: &[u8]) -> Result<(), AllocError>
    ensures { OnOk result (row.new ≡ pos_row position.now) }
{
    row.clear();
    row.push(ValueRef::Int(0))?;
    row.push(ValueRef::Null)?;
    row.push(ValueRef::Blob(position))
}

/// Writes what a dump shows of a row over `shown`: its relation's OID, namespace and name, its
/// bytes, and how often it is stored.
pub(crate) fn write_shown(shown: &mut Row, definition: &Row, row: &Row) -> Result<(), AllocError>
    ensures { OnOk result (shown.new ≡ column definition.now 0 ∷ column definition.now 2
        ∷ column definition.now 3 ∷ column row.now 3 ∷ column row.now 4 ∷ []) }
{
    shown.clear();
    shown.push(definition.get(0))?;
    shown.push(definition.get(2))?;
    shown.push(definition.get(3))?;
    shown.push(row.get(3))?;
    shown.push(row.get(4))
}

fn is_int(value: ValueRef<'_>, number: i64) -> bool
    ensures yes { result ≡ true → owned value.entry ≡ Int number }
    ensures no { owned value.entry ≡ Int number → result ≡ true }
{
    match value {
        ValueRef::Int(found) => found == number,
        _ => false,
    }
}

fn is_blob(value: ValueRef<'_>, bytes: &[u8]) -> bool
    ensures yes { result ≡ true → owned value.entry ≡ Blob bytes.now }
    ensures no { owned value.entry ≡ Blob bytes.now → result ≡ true }
{
    match value {
        ValueRef::Blob(found) => found == bytes,
        _ => false,
    }
}

/// The rowid of an entry of the index, if it is this key's.
pub(crate) fn id_at(entry: &Row, oid: u32, ident: &[u8]) -> Option<i64>
    ensures { MatchOption result ((id : ℤ) → ¬ IsAt oid ident.now entry.now id)
        (IsAt oid ident.now entry.now) }
{
    if !is_int(entry.get(0), i64::from(oid)) || !is_blob(entry.get(1), ident) {
        return None;
    }
    match entry.get(2) {
        ValueRef::Int(id) => Some(id),
        _ => None,
    }
}

/// Whether a row of `held` has the key.
pub(crate) fn has_key(row: &Row, oid: u32, ident: &[u8]) -> bool
    ensures oid { result ≡ true → column row.now 1 ≡ Int (pos oid) }
    ensures ident { result ≡ true → column row.now 2 ≡ Blob ident.now }
{
    is_int(row.get(1), i64::from(oid)) && is_blob(row.get(2), ident)
}

/// Whether an entry of the index is one of the relation's.
pub(crate) fn is_within(entry: &Row, oid: u32) -> bool
    ensures yes { result ≡ true → IsWithin oid entry.now }
    ensures no { IsWithin oid entry.now → result ≡ true }
{
    is_int(entry.get(0), i64::from(oid))
}

/// The rowid of an entry of the index, if it is one of the relation's.
pub(crate) fn id_within(entry: &Row, oid: u32) -> Option<i64>
    ensures { MatchOption result ((id : ℤ) → ¬ IsOf oid entry.now id) (IsOf oid entry.now) }
{
    if !is_int(entry.get(0), i64::from(oid)) {
        return None;
    }
    match entry.get(2) {
        ValueRef::Int(id) => Some(id),
        _ => None,
    }
}

/// The bytes of a blob.
pub(crate) fn blob_in<'a>(value: ValueRef<'a>) -> &'a [u8]
    ensures { (bytes : List ℕ) → owned value.entry ≡ Blob bytes → result.now ≡ bytes }
{
    match value {
        ValueRef::Blob(found) => found,
        _ => &[],
    }
}

/// The integer, or zero.
fn int_in(value: ValueRef<'_>) -> i64
    ensures { (number : ℤ) → owned value.entry ≡ Int number → result ≡ number }
{
    match value {
        ValueRef::Int(found) => found,
        _ => 0,
    }
}

/// The OID of an entry of the index.
pub(crate) fn oid_in(entry: &Row) -> i64
    ensures { (number : ℤ) → column entry.now 0 ≡ Int number → result ≡ number }
{
    int_in(entry.get(0))
}

/// The rowid of an entry of the index.
pub(crate) fn id_of(entry: &Row) -> i64
    ensures { (number : ℤ) → column entry.now 2 ≡ Int number → result ≡ number }
{
    int_in(entry.get(2))
}
