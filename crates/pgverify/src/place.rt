//! The row of `pos`.

ghost use Rattle.std.specs.Prelude.{◌≡◌, ◌<◌, ◌^◌, IfSome};
ghost use Rattle.std.specs.Int.{w64, to_be_bytes};
ghost use Rattle.pgtables.specs.Kept.{pos_row};

use crate::walk::TreeVisitor;
use sqlite_trees::error::StoreError;
use sqlite_value::row::Row;
use sqlite_value::value::ValueRef;

/// Takes the position that the only row stores.
#[derive(Drop)]
pub(crate) struct Place {
    pub(crate) found: Option<u64>,
}

impl TreeVisitor for Place {
    ghost use Rattle.pgverify.specs.Seen.{IsPlaceOf};

    ghost has_seen = { λ _ v rows. IsPlaceOf v.found rows };

    fn visit(&mut self, entry: &Row) -> Result<bool, StoreError> {
        if self.found.is_some() {
            return Ok(false);
        }
        self.found = read_row(entry);
        Ok(self.found.is_some())
    }
}

/// The position that a row of `pos` stores.
fn read_row(row: &Row) -> Option<u64>
    ensures is { IfSome result (λ position. row.now ≡ pos_row (to_be_bytes w64 position)) }
    ensures range { IfSome result (λ position. position < 2 ^ 64) }
{
    if row.len() != 3 {
        return None;
    }
    let (ValueRef::Int(0), ValueRef::Null, ValueRef::Blob(bytes)) = (
        row.get(0),
        row.get(1),
        row.get(2),
    ) else {
        return None;
    };
    number_of(bytes)
}

/// The number of eight bytes, the greatest first.
fn number_of(bytes: &[u8]) -> Option<u64>
    ensures { IfSome result (λ number. to_be_bytes w64 number ≡ bytes.now) }
{
    let [a, b, c, d, e, f, g, h] = bytes else {
        return None;
    };
    Some(u64::from_be_bytes([*a, *b, *c, *d, *e, *f, *g, *h]))
}
