//! Tuples, written as bytes.
//!
//! PostgreSQL documentation, Logical Replication Message Formats, TupleData.

ghost use Rattle.std.specs.Prelude.{◌≡◌, ◌≤◌, ◌++◌, ◌∷◌, length, All, OnOk, OnErr, IfErr};
ghost use Rattle.std.specs.Int.{w32, to_be_bytes};
ghost use Rattle.std.specs.List.{flat_map};
ghost use Rattle.pgtuple.specs.Limits.{IsCell, IsTuple, max_int32};
ghost use Rattle.pgtuple.specs.Cells.{cell_spelling, tuple_spelling};
ghost use Rattle.pgtuple.specs.Writing.{Keeps};
ghost use Rattle.pgtuple.specs.Forms.{form_cells, IsForm};

use crate::borrowed::{Form, TupleRef};
use crate::cell::Cell;
use crate::fault::TupleFault;
use std::alloc::AllocError;

/// The kind of a cell, the number of its bytes, and the bytes.
fn push_counted(out: &mut Vec<u8>, kind: u8, bytes: &[u8]) -> Result<(), AllocError>
    requires { length bytes.now ≤ max_int32 }
    ensures ok { OnOk result (out.new.items ≡ out.old.items ++ kind ∷
        (to_be_bytes w32 (length bytes.now) ++ bytes.now)) }
    ensures err { OnErr result (Keeps out.old.items out.new.items) }
{
    out.push(kind)?;
    out.extend_from_slice(&(bytes.len() as u32).to_be_bytes())?;
    out.extend_from_slice(bytes)?;
    Ok(())
}

fn push_cell(out: &mut Vec<u8>, cell: &Cell) -> Result<(), AllocError>
    requires { IsCell cell.now }
    ensures ok { OnOk result (out.new.items ≡ out.old.items ++ cell_spelling cell.now) }
    ensures err { OnErr result (Keeps out.old.items out.new.items) }
{
    match cell {
        Cell::Null => out.push(b'n')?,
        Cell::Unchanged => out.push(b'u')?,
        Cell::Text(text) => push_counted(out, b't', text.as_str().as_bytes())?,
        Cell::Binary(bytes) => push_counted(out, b'b', bytes.as_slice())?,
    }
    Ok(())
}

fn push_cells(out: &mut Vec<u8>, cells: &[Cell]) -> Result<(), AllocError>
    requires { All IsCell cells.now }
    ensures ok { OnOk result (out.new.items ≡ out.old.items ++ flat_map cell_spelling cells.now) }
    ensures err { OnErr result (Keeps out.old.items out.new.items) }
{
    for cell in cells {
        push_cell(out, cell)?;
    }
    Ok(())
}

/// The number of columns, and the cells.
fn push_tuple(out: &mut Vec<u8>, cells: &[Cell]) -> Result<(), AllocError>
    requires { IsTuple cells.now }
    ensures ok { OnOk result (out.new.items ≡ out.old.items ++ tuple_spelling cells.now) }
    ensures err { OnErr result (Keeps out.old.items out.new.items) }
{
    out.extend_from_slice(&(cells.len() as u16).to_be_bytes())?;
    push_cells(out, cells)?;
    Ok(())
}

/// The owned cells, or the bytes that encode them.
fn push_form(out: &mut Vec<u8>, form: &Form<'_>) -> Result<(), AllocError>
    requires { IsForm form.now }
    ensures ok { OnOk result (out.new.items ≡ out.old.items ++ tuple_spelling
        (form_cells form.now)) }
    ensures err { OnErr result (Keeps out.old.items out.new.items) }
{
    match *form {
        Form::Owned(cells) => push_tuple(out, cells),
        Form::Spelled(bytes) => out.extend_from_slice(bytes),
    }
}

/// Appends the one encoding of the tuple.
pub fn encode(tuple: &TupleRef<'_>, out: &mut Vec<u8>) -> Result<(), TupleFault>
    ensures ok { OnOk result (out.new.items ≡ out.old.items ++ tuple_spelling tuple.now) }
    ensures err { OnErr result (out.new.items ≡ out.old.items) }
    ensures only_memory { IfErr result (λ f. f ≡ TupleFault.Memory) }
{
    let before = out.len();
    match push_form(out, &tuple.form()) {
        Ok(()) => Ok(()),
        Err(_) => {
            out.truncate(before);
            Err(TupleFault::Memory)
        }
    }
}
