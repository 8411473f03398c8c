//! The lines of rows, as `pgsub dump` prints them.

ghost use Rattle.std.specs.Prelude.{◌≡◌, ◌++◌, IfOk, OnOk, string_bytes};
ghost use Rattle.pgembed.specs.Dumped.{line_of, lines_of};

use pgapply::DumpRow;
use pgjson::row_line;
use std::alloc::{AllocError, Global};

/// Appends a row's line.
fn write_row(alloc: Global, row: &DumpRow, out: &mut String) -> Result<(), AllocError>
    ensures { OnOk result (string_bytes out.new ≡ string_bytes out.old ++ line_of row.now) }
{
    let (namespace, name) = (row.namespace.as_str(), row.name.as_str());
    let line = row_line(alloc, namespace, name, &row.cells.borrowed(), row.copies)?;
    out.push_str(line.as_str())
}

/// The lines of the rows.
pub(crate) fn rows_text(alloc: Global, rows: &[DumpRow]) -> Result<String, AllocError>
    ensures { IfOk result (λ text. string_bytes text ≡ lines_of rows.now) }
{
    let mut text = String::new(alloc);
    for row in rows {
        write_row(alloc, row, &mut text)?;
    }
    Ok(text)
}
