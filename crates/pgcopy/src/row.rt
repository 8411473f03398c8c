//! Lines as rows.
//!
//! PostgreSQL documentation, COPY, File Formats, Text Format; Logical Replication Message Formats,
//! TupleData.

ghost use Rattle.std.specs.Prelude.{◌≡◌, ◌≤◌, ◌<◌, ◌++◌, ◌∷◌, ◌==◌, length, OnOk, OnErr, IfSome};
ghost use Rattle.std.specs.Prelude.{MatchResult, option_copied};
ghost use Rattle.std.specs.Int.{w16, w32, to_be_bytes};
ghost use Rattle.std.specs.List.{position};
ghost use Rattle.std.specs.Str.{is_utf8};
ghost use Rattle.pgtuple.specs.Limits.{max_int32, max_columns};
ghost use Rattle.pgtuple.specs.Writing.{Keeps};
ghost use Rattle.pgcopy.specs.Rows.{cell_of, text_cell, fields_of, fields_behind, fields_for};
ghost use Rattle.pgcopy.specs.Rows.{row_of};
ghost use Rattle.pgcopy.specs.Read.{AddsCell, AddsCells, Refuses, IsLineRead};

use crate::fault::{Reason, RowFault};
use crate::value::{is_plain, value};
use std::alloc::AllocError;

// The bytes of a text cell.
fn push_text(rows: &mut Vec<u8>, text: &[u8]) -> Result<(), AllocError>
    requires { length text.now ≤ max_int32 }
    ensures ok { OnOk result (rows.new.items ≡ rows.old.items ++ 116 ∷
        (to_be_bytes w32 (length text.now) ++ text.now)) }
    ensures err { OnErr result (Keeps rows.old.items rows.new.items) }
{
    rows.push(b't')?;
    rows.extend_from_slice(&(text.len() as u32).to_be_bytes())?;
    rows.extend_from_slice(text)?;
    Ok(())
}

// Whether a value is UTF-8.
fn is_text(value: &[u8]) -> bool
    ensures { result ≡ is_utf8 value.now }
{
    match std::str::from_utf8(value) {
        Ok(_) => true,
        Err(_) => false,
    }
}

// The cell of a value.
fn push_value(rows: &mut Vec<u8>, value: &[u8]) -> Result<(), RowFault>
    requires { length value.now ≤ max_int32 }
    ensures { MatchResult result
        (λ _. AddsCell rows.old.items (text_cell value.now) rows.new.items)
        (λ fault. Refuses rows.old.items (text_cell value.now) fault rows.new.items) }
{
    if !is_text(value) {
        return Err(RowFault::Bad(Reason::NotUtf8));
    }
    push_text(rows, value)?;
    Ok(())
}

// The cell of a field.
#[tactic(auto, unfolding(crate::specs::Rows::cell_of))]
fn push_field(rows: &mut Vec<u8>, field: &[u8]) -> Result<(), RowFault>
    requires { length field.now ≤ max_int32 }
    ensures { MatchResult result
        (λ _. AddsCell rows.old.items (cell_of field.now) rows.new.items)
        (λ fault. Refuses rows.old.items (cell_of field.now) fault rows.new.items) }
{
    if field == b"\\N".as_slice() {
        rows.push(b'n')?;
        return Ok(());
    }
    if is_plain(field) {
        return push_value(rows, field);
    }
    let value = value(*rows.allocator(), field)?;
    push_value(rows, value.as_slice())
}

// The place of the first tab.
fn field_end(line: &[u8]) -> Option<usize>
    ensures { result ≡ position (λ byte. byte == 9) line.now }
{
    line.iter().position(|byte| *byte == b'\t')
}

// The first field of a line, and the line behind its tab.
fn first_field(line: &[u8]) -> (&[u8], Option<&[u8]>)
    ensures fields { fields_of line.now ≡ result.0.now ∷ fields_behind (option_copied result.1) }
    ensures field { length result.0.now ≤ length line.now }
    ensures behind { IfSome result.1 (λ behind. length behind.now ≤ length line.now) }
{
    match field_end(line) {
        None => (line, None),
        Some(end) => (&line[..end], Some(&line[end + 1..])),
    }
}

// The line whose fields are a row's: none where an empty line is a row without columns.
fn fields(columns: u16, line: &[u8]) -> Option<&[u8]>
    ensures fields { fields_behind (option_copied result) ≡ fields_for columns line.now }
    ensures line { IfSome result (λ it. length it.now ≤ length line.now) }
{
    if columns == 0 && line.is_empty() {
        None
    } else {
        Some(line)
    }
}

// The cells of a line.
#[tactic(auto, unfolding(crate::specs::Rows::row_of))]
fn push_fields(rows: &mut Vec<u8>, columns: u16, line: &[u8]) -> Result<(), RowFault>
    requires { length line.now ≤ max_int32 }
    ensures { MatchResult result
        (λ _. AddsCells rows.old.items (row_of columns line.now) rows.new.items)
        (λ fault. Refuses rows.old.items (row_of columns line.now) fault rows.new.items) }
{
    let mut rest = fields(columns, line);
    for _ in 0..columns {
        let Some(behind) = rest else {
            return Err(RowFault::Bad(Reason::MissingColumn));
        };
        let (field, others) = first_field(behind);
        push_field(rows, field)?;
        rest = others;
    }
    if rest.is_some() {
        return Err(RowFault::Bad(Reason::ExtraColumn));
    }
    Ok(())
}

// The number of columns, and the cells.
fn push_row(rows: &mut Vec<u8>, columns: u16, line: &[u8]) -> Result<(), RowFault>
    requires { length line.now ≤ max_int32 }
    ensures { MatchResult result
        (λ _. AddsCells (rows.old.items ++ to_be_bytes w16 columns)
        (row_of columns line.now) rows.new.items)
        (λ fault. Refuses rows.old.items (row_of columns line.now) fault rows.new.items) }
{
    rows.extend_from_slice(&columns.to_be_bytes())?;
    push_fields(rows, columns, line)
}

/// Adds the row of a line in the encoding of TupleData, and returns false where the line is the
/// end-of-data marker. An error adds nothing.
pub(crate) fn read_line(rows: &mut Vec<u8>, columns: u16, line: &[u8]) -> Result<bool, RowFault>
    requires columns { columns ≤ max_columns }
    requires line { length line.now ≤ max_int32 }
    ensures { IsLineRead columns line.now rows.old.items result rows.new.items }
{
    if line == b"\\.".as_slice() {
        return Ok(false);
    }
    let before = rows.len();
    match push_row(rows, columns, line) {
        Ok(()) => Ok(true),
        Err(fault) => {
            rows.truncate(before);
            Err(fault)
        }
    }
}
