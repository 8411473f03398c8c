//! A line for each row of a dump.

ghost use Rattle.std.specs.Prelude.{◌≡◌, IfOk, string_bytes};
ghost use Rattle.serde_json.specs.View.{view};
ghost use Rattle.pgjson.specs.Lines.{line};
ghost use Rattle.pgjson.specs.Rows.{row_data};

use crate::cells::cells_json;
use crate::lines::line_of;
use pgtuple::TupleRef;
use serde_json::Value;
use std::alloc::{AllocError, Global};

fn row_json(
    alloc: Global,
    namespace: &str,
    name: &str,
    cells: &TupleRef<'_>,
    copies: u32,
) -> Result<Value, AllocError>
    ensures { IfOk result (λ value. view value
        ≡ row_data namespace.now name.now cells.now copies) }
{
    let cells = cells_json(alloc, cells)?;
    let namespace = Value::try_from_str(alloc, namespace)?;
    let name = Value::try_from_str(alloc, name)?;
    Ok(Value::Array(vec![in alloc; namespace, name, cells, Value::from(copies)]?))
}

/// The line of a row that stands in a table so many times.
pub fn row_line(
    alloc: Global,
    namespace: &str,
    name: &str,
    cells: &TupleRef<'_>,
    copies: u32,
) -> Result<String, AllocError>
    ensures { IfOk result (λ text. string_bytes text
        ≡ line (row_data namespace.now name.now cells.now copies)) }
{
    let value = row_json(alloc, namespace, name, cells, copies)?;
    line_of(alloc, &value)
}
