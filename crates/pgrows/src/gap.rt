//! Where a key needs no search.

ghost use Rattle.std.specs.Prelude.{◌≡◌, true};
ghost use Rattle.pgrows.specs.Gap.{IsPast, IsReached};

use crate::entry::is_within;
use sqlite_value::row::Row;
use sqlite_value::value::ValueRef;

/// Whether the entry is one of the relation's, and its identity is below this one.
fn is_past(entry: &Row, oid: u32, ident: &[u8]) -> bool
    ensures { result ≡ true → IsPast oid ident.now entry.now }
{
    match entry.get(1) {
        ValueRef::Blob(low) => is_within(entry, oid) && low < ident,
        _ => false,
    }
}

/// Whether the entry is another relation's, or its identity is above this one.
fn is_ahead(entry: &Row, oid: u32, ident: &[u8]) -> bool
    ensures { result ≡ true → ¬ IsReached oid ident.now entry.now }
{
    match entry.get(1) {
        ValueRef::Blob(high) => !is_within(entry, oid) || ident < high,
        _ => true,
    }
}

/// Whether the key lies between the two entries.
pub(crate) fn is_between(low: &Row, high: &Row, oid: u32, ident: &[u8]) -> bool
    ensures past { result ≡ true → IsPast oid ident.now low.now }
    ensures ahead { result ≡ true → ¬ IsReached oid ident.now high.now }
{
    is_past(low, oid, ident) && is_ahead(high, oid, ident)
}
