//! The rows of `held`, each by itself.

ghost use Rattle.std.specs.Prelude.{◌≡◌, Ok, true, pos, IfSome};
ghost use Rattle.sqlite.specs.declared.types.Value.TheVariants.{Int};
ghost use Rattle.sqlite_value.specs.Value.{owned};
ghost use Rattle.pgverify.specs.Seen.{IsHeldRow};

use pgtables::RowCheck;
use sqlite::types::FromSql;
use sqlite::{Error, ErrorCode};
use sqlite_trees::error::StoreError;
use sqlite_value::row::Row;
use sqlite_value::value::ValueRef;
use std::alloc::Global;

/// The number that a value is, if it has 32 bits.
pub(crate) fn number_in(alloc: Global, value: ValueRef<'_>) -> Option<u32>
    ensures { IfSome result (λ n. owned value.entry ≡ Int (pos n)) }
{
    match u32::column_result(alloc, value) {
        Ok(number) => Some(number),
        Err(_) => None,
    }
}

/// Whether a row has the form of one of `held`, and the check accepts it.
pub(crate) fn is_held_row<C: RowCheck>(
    alloc: Global,
    check: &C,
    row: &Row,
) -> Result<bool, StoreError>
    ensures { result ≡ Ok true → IsHeldRow C.RowCheck.accepts check.now row.now }
{
    if row.len() != 5 {
        return Ok(false);
    }
    let (Some(oid), Some(copies)) = (number_in(alloc, row.get(1)), number_in(alloc, row.get(4)))
    else {
        return Ok(false);
    };
    let (ValueRef::Int(_), ValueRef::Blob(ident), ValueRef::Blob(body)) = (
        row.get(0),
        row.get(2),
        row.get(3),
    ) else {
        return Ok(false);
    };
    match check.check(oid, ident, body, copies) {
        Ok(is_accepted) => Ok(is_accepted),
        Err(Error::SqliteFailure(ErrorCode::OutOfMemory)) => Err(StoreError::OutOfMemory),
        Err(_) => Err(StoreError::Broken),
    }
}
