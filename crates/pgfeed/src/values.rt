//! Values in JSON, as text.
//!
//! PostgreSQL documentation, Logical Replication Message Formats, TupleData.

ghost use Rattle.std.specs.Prelude.{◌≡◌, IfOk, OnOk, string_bytes};
ghost use Rattle.json.specs.Print.{quoted};
ghost use Rattle.serde_json.specs.Written.{compact_text};
ghost use Rattle.pgtuple.specs.Borrowed.{cell_value};
ghost use Rattle.pgtuple.specs.declared.cell.Cell.TheVariants.{Unchanged};
ghost use Rattle.pgjson.specs.Cells.{cell_data, cells_data, hex_data};
ghost use Rattle.pgjson.specs.Messages.{letter_data, old_data};
ghost use Rattle.pgfeed.specs.Writing.{WritesData};

use json::Writer;
use pglogical::OldKind;
use pgtuple::{CellRef, TupleRef};
use serde_json::Value;
use std::alloc::{AllocError, Global};

/// A text as a string.
pub(crate) fn quoted(alloc: Global, text: &str) -> Result<String, AllocError>
    ensures { IfOk result (λ json. string_bytes json ≡ quoted text.now) }
{
    let value = Value::try_from_str(alloc, text)?;
    value.to_string(alloc)
}

/// A letter as a string of one character.
pub(crate) fn letter_text(alloc: Global, letter: u8) -> Result<String, AllocError>
    ensures { IfOk result (λ json. string_bytes json ≡ compact_text (letter_data letter)) }
{
    let mut text = String::new(alloc);
    text.push(char::from(letter))?;
    let value = Value::String(text);
    value.to_string(alloc)
}

/// Writes a cell that wasn't sent.
fn write_unchanged(out: &mut Writer) -> Result<(), AllocError>
    ensures { OnOk result (WritesData (cell_data Unchanged) out.old out.new) }
{
    out.begin_object()?;
    out.key("unchanged")?;
    out.boolean(true)?;
    out.end_object()
}

/// Writes bytes in hexadecimal.
fn write_hex(alloc: Global, bytes: &[u8], out: &mut Writer) -> Result<(), AllocError>
    ensures { OnOk result (WritesData (hex_data bytes.now) out.old out.new) }
{
    let digits = hex::encode(alloc, bytes)?;
    out.begin_object()?;
    out.key("hex")?;
    out.string(digits.as_str())?;
    out.end_object()
}

/// Writes a cell.
fn write_cell(alloc: Global, cell: CellRef<'_>, out: &mut Writer) -> Result<(), AllocError>
    ensures { OnOk result (WritesData (cell_data (cell_value cell.entry)) out.old out.new) }
{
    match cell {
        CellRef::Null => out.null(),
        CellRef::Unchanged => write_unchanged(out),
        CellRef::Text(text) => out.string(text),
        CellRef::Binary(bytes) => write_hex(alloc, bytes, out),
    }
}

/// The cells of a tuple as an array. Each is written as it is read, since a feed has two tuples for
/// most changes.
pub(crate) fn cells_text(alloc: Global, row: &TupleRef<'_>) -> Result<String, AllocError>
    ensures { IfOk result (λ json. string_bytes json ≡ compact_text (cells_data row.now)) }
{
    let mut out = Writer::new(Vec::with_capacity(alloc, 128)?);
    out.begin_array()?;
    for cell in row.cells() {
        write_cell(alloc, cell, &mut out)?;
    }
    out.end_array()?;
    match String::from_utf8(out.into_inner()) {
        Ok(text) => Ok(text),
        Err(_) => Err(AllocError),
    }
}

#[tactic(auto, unfolding(json::specs::Print::escape_byte))]
/// An old tuple: `["K",cells]` for a key and `["O",cells]` for a whole row.
pub(crate) fn old_text(
    alloc: Global,
    kind: OldKind,
    row: &TupleRef<'_>,
) -> Result<String, AllocError>
    ensures { IfOk result (λ json. string_bytes json ≡ compact_text (old_data kind row.now)) }
{
    let cells = cells_text(alloc, row)?;
    match kind {
        OldKind::Key => format!(in alloc; "[\"K\",{cells}]"),
        OldKind::Full => format!(in alloc; "[\"O\",{cells}]"),
    }
}
