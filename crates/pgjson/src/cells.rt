//! Cells in JSON.
//!
//! PostgreSQL documentation, Logical Replication Message Formats, TupleData.

ghost use Rattle.std.specs.Prelude.{◌≡◌, IfOk};
ghost use Rattle.serde_json.specs.View.{view};
ghost use Rattle.pgtuple.specs.Borrowed.{cell_value};
ghost use Rattle.pgjson.specs.Cells.{cell_data, cells_data, hex_data};

use pgtuple::{CellRef, TupleRef};
use serde_json::{Value, json};
use std::alloc::{AllocError, Global};

/// Bytes in JSON, in hexadecimal.
pub(crate) fn bytes_json(alloc: Global, bytes: &[u8]) -> Result<Value, AllocError>
    ensures { IfOk result (λ value. view value ≡ hex_data bytes.now) }
{
    let digits = hex::encode(alloc, bytes)?;
    json!(in alloc; {"hex": digits})
}

/// A cell in JSON: a text is a string, and binary data is in hexadecimal.
pub fn cell_json(alloc: Global, cell: CellRef<'_>) -> Result<Value, AllocError>
    ensures { IfOk result (λ value. view value ≡ cell_data (cell_value cell.entry)) }
{
    match cell {
        CellRef::Null => Ok(Value::Null),
        CellRef::Unchanged => json!(in alloc; {"unchanged": true}),
        CellRef::Text(text) => Value::try_from_str(alloc, text),
        CellRef::Binary(bytes) => bytes_json(alloc, bytes),
    }
}

/// The cells of a tuple in JSON, as an array.
pub fn cells_json(alloc: Global, tuple: &TupleRef<'_>) -> Result<Value, AllocError>
    ensures { IfOk result (λ value. view value ≡ cells_data tuple.now) }
{
    let mut values = Vec::with_capacity(alloc, tuple.width())?;
    for cell in tuple.cells() {
        values.push(cell_json(alloc, cell)?)?;
    }
    Ok(Value::Array(values))
}
