//! The printed form of rows and position.
ghost use Rattle.std.specs.Prelude.{◌≡◌, ◌++◌, IfOk, OnOk, string_bytes};
ghost use Rattle.pgsub_cli.specs.DumpText.{row_line, position_line, resumed_of};

use pgapply::DumpRow;
use pglsn::Lsn;
use std::alloc::{AllocError, Global};
use std::fmt::Write;

/// A row's line.
pub(crate) fn line_text(alloc: Global, row: &DumpRow) -> Result<String, AllocError>
    ensures { IfOk result (λ line. string_bytes line ≡ row_line row.now) }
{
    let (namespace, name) = (row.namespace.as_str(), row.name.as_str());
    pgjson::row_line(alloc, namespace, name, &row.cells.borrowed(), row.copies)
}

/// Appends the line of the position.
fn write_position(position: Lsn, out: &mut String) -> Result<(), AllocError>
    ensures { OnOk result (string_bytes out.new ≡ string_bytes out.old ++ position_line position) }
{
    writeln!(out, "position {position}")
}

/// The line of the position.
pub(crate) fn position_text(alloc: Global, position: Lsn) -> Result<String, AllocError>
    ensures { IfOk result (λ line. string_bytes line ≡ position_line position) }
{
    format!(in alloc; "position {position}\n")
}

/// The line of the position, and that of the LSN up to which it may be confirmed.
pub fn resume_text(alloc: Global, position: Lsn, confirmed: Lsn) -> Result<String, AllocError>
    ensures { IfOk result (λ text. string_bytes text ≡ resumed_of position confirmed) }
{
    let mut lines = String::new(alloc);
    write_position(position, &mut lines)?;
    writeln!(&mut lines, "confirmed {confirmed}")?;
    Ok(lines)
}
