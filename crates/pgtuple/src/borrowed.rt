//! Cells and tuples that are borrowed: by cells that someone owns, or by the bytes that encode
//! them.
//!
//! PostgreSQL documentation, Logical Replication Message Formats, TupleData.

ghost use Rattle.std.specs.Prelude.{◌≡◌, ℕ, List, length, IfOk, IfErr, IfSome, option_map};
ghost use Rattle.std.specs.Prelude.{slice_get};
ghost use Rattle.pgtuple.specs.declared.cell.Cell.{Cell};

use crate::bytes::Bytes;
use crate::cell::{Cell, Tuple};
use crate::fault::TupleFault;
use crate::spelled::SpelledCells;
use crate::text::Text;
use std::alloc::Global;
use std::marker::Model;

/// A cell that is borrowed.
#[derive(Clone, Copy, Debug)]
pub enum CellRef<'a> {
    /// The null value.
    Null,
    /// A value kept out of line that didn't change, and so wasn't sent.
    Unchanged,
    /// A value in text format.
    Text(&'a str),
    /// A value in binary format.
    Binary(&'a [u8]),
}

impl<'a> CellRef<'a> {
    ghost use Rattle.pgtuple.specs.Borrowed.{cell_value};

    /// The same cell with memory of its own. Its only error is out of memory.
    pub fn to_cell(&self, alloc: Global) -> Result<Cell, TupleFault>
        ensures same { IfOk result (λ cell. cell ≡ cell_value self.now) }
        ensures memory { IfErr result (λ fault. fault ≡ TupleFault.Memory) }
    {
        match *self {
            CellRef::Null => Ok(Cell::Null),
            CellRef::Unchanged => Ok(Cell::Unchanged),
            CellRef::Text(text) => {
                let text = String::from_str(alloc, text)?;
                Ok(Cell::Text(Text::from_string(text)))
            }
            CellRef::Binary(bytes) => {
                let bytes = Vec::from_slice(alloc, bytes)?;
                Ok(Cell::Binary(Bytes::from_vec(bytes)))
            }
        }
    }
}

impl Cell {
    ghost use Rattle.pgtuple.specs.Borrowed.{cell_value};

    /// The cell, borrowed. It asks for no memory.
    pub fn borrowed(&self) -> CellRef<'_>
        ensures { cell_value result ≡ self.now }
    {
        match self {
            Cell::Null => CellRef::Null,
            Cell::Unchanged => CellRef::Unchanged,
            Cell::Text(text) => CellRef::Text(text.as_str()),
            Cell::Binary(bytes) => CellRef::Binary(bytes.as_slice()),
        }
    }
}

/// What a borrowed tuple is made of.
#[derive(Clone, Copy, Debug)]
pub(crate) enum Form<'a> {
    /// Cells that someone owns.
    Owned(&'a [Cell]),
    /// The bytes that encode it, all of them.
    Spelled(&'a [u8]),
}

/// A tuple that is borrowed, seen as the list of its cells.
#[derive(Debug, Drop)]
pub struct TupleRef<'a> {
    form: Form<'a>,
}

impl<'a> Model for TupleRef<'a> {
    ghost use Rattle.std.specs.Prelude.{List};
    ghost use Rattle.pgtuple.specs.declared.cell.Cell.{Cell};
    ghost use Rattle.pgtuple.specs.Forms.{form_cells, IsForm};

    ghost Value = { List Cell };

    ghost view = { λ t. form_cells t.form };

    ghost invariant = { λ t. IsForm t.form };
}

impl<'a> TupleRef<'a> {
    ghost use Rattle.pgtuple.specs.Borrowed.{cell_value};
    ghost use Rattle.pgtuple.specs.Limits.{IsTuple, IsWireTuple};
    ghost use Rattle.pgtuple.specs.Spelled.{IsSpelledTuple, spelled_cells};
    ghost use Rattle.pgtuple.specs.Forms.{form_cells, IsForm};
    ghost use Rattle.pgtuple.specs.Cells.{tuple_spelling};

    /// A tuple of cells that someone owns.
    pub(crate) fn of_cells(cells: &'a [Cell]) -> TupleRef<'a>
        requires { IsTuple cells.now }
        ensures { result ≡ cells.now }
    {
        TupleRef {
            form: Form::Owned(cells),
        }
    }

    /// A tuple of the bytes that encode it.
    pub(crate) fn of_bytes(bytes: &'a [u8]) -> TupleRef<'a>
        requires { IsSpelledTuple bytes.now }
        ensures { result ≡ spelled_cells bytes.now }
    {
        TupleRef {
            form: Form::Spelled(bytes),
        }
    }

    /// What it is made of.
    pub(crate) fn form(&self) -> Form<'a>
        ensures cells { form_cells result ≡ self.now }
        ensures form { IsForm result }
    {
        self.form
    }

    /// The bytes that encode it, where it is borrowed from them.
    pub fn spelled(&self) -> Option<&'a [u8]>
        ensures { IfSome result (λ bytes. bytes.now ≡ tuple_spelling self.now) }
    {
        match self.form {
            Form::Owned(_) => None,
            Form::Spelled(bytes) => Some(bytes),
        }
    }

    /// The cells, one after the other.
    pub fn cells(&self) -> Cells<'a>
        ensures cells { result ≡ self.now }
        ensures limits { IsTuple self.now }
    {
        match self.form {
            Form::Owned(cells) => Cells {
                rest: Rest::Owned(cells),
            },
            Form::Spelled(bytes) => Cells {
                rest: Rest::Spelled(SpelledCells::of(bytes)),
            },
        }
    }

    /// The number of cells.
    pub fn width(&self) -> usize
        ensures cells { result ≡ length self.now }
        ensures limits { IsTuple self.now }
    {
        self.cells().len()
    }

    /// The same tuple, borrowed once more.
    pub fn reborrow(&self) -> TupleRef<'a>
        ensures { result ≡ self.now }
    {
        TupleRef { form: self.form }
    }

    /// The cell in column k, counted from 0. Of bytes, the cells before it are passed over.
    pub fn get(&self, k: usize) -> Option<CellRef<'a>>
        ensures { option_map cell_value result ≡ slice_get self.now k }
    {
        match self.form {
            Form::Owned(cells) => Some(cells.get(k)?.borrowed()),
            Form::Spelled(_) => self.cells().nth(k),
        }
    }

    /// How many bytes it takes in TupleData. It asks for no memory.
    pub fn spelled_len(&self) -> u64
        ensures { result ≡ length (tuple_spelling self.now) }
    {
        match self.form {
            Form::Owned(cells) => 2 + Cell::spelled_lens(cells),
            Form::Spelled(bytes) => bytes.len() as u64,
        }
    }

    /// It is within the limits of the wire, and its texts are UTF-8, as its type has it. It does
    /// nothing but show it.
    pub fn fits_wire(&self)
        ensures { IsWireTuple self.now }
    {
        match self.form {
            Form::Owned(cells) => Cell::have_utf8(cells),
            Form::Spelled(_) => {}
        }
    }

    /// The same tuple with memory of its own. Its only error is out of memory.
    pub fn to_tuple(&self, alloc: Global) -> Result<Tuple, TupleFault>
        ensures same { IfOk result (λ t. t ≡ self.now) }
        ensures memory { IfErr result (λ fault. fault ≡ TupleFault.Memory) }
    {
        let mut cells = Vec::with_capacity(alloc, self.width())?;
        for cell in self.cells() {
            cells.push(cell.to_cell(alloc)?)?;
        }
        Ok(Tuple::from_vec(cells))
    }
}

/// What is left of a borrowed tuple.
#[derive(Drop)]
enum Rest<'a> {
    Owned(&'a [Cell]),
    Spelled(SpelledCells<'a>),
}

/// The cells of a borrowed tuple that are still to come, seen as their list.
#[derive(Drop)]
pub struct Cells<'a> {
    rest: Rest<'a>,
}

impl<'a> Model for Cells<'a> {
    ghost use Rattle.std.specs.Prelude.{List};
    ghost use Rattle.pgtuple.specs.declared.cell.Cell.{Cell};
    ghost use Rattle.pgtuple.specs.Forms.{rest_cells};

    ghost Value = { List Cell };

    ghost view = { λ c. rest_cells c.rest };
}

impl<'a> Cells<'a> {
    /// How many cells are still to come.
    pub fn len(&self) -> usize
        ensures { result ≡ length self.now }
    {
        match &self.rest {
            Rest::Owned(cells) => cells.len(),
            Rest::Spelled(cells) => cells.len(),
        }
    }
}

impl<'a> Iterator for Cells<'a> {
    ghost use Rattle.std.specs.Iterator.{YieldsFirstBy, item_count};
    ghost use Rattle.pgtuple.specs.Borrowed.{cell_value};

    type Item = CellRef<'a>;

    ghost next_gives = { YieldsFirstBy cell_value (λ s. s) };

    ghost remaining = { item_count (λ s. s) };

    fn next(&mut self) -> Option<CellRef<'a>> {
        match &mut self.rest {
            Rest::Owned(cells) => {
                let (first, others) = cells.split_first()?;
                *cells = others;
                Some(first.borrowed())
            }
            Rest::Spelled(cells) => cells.next(),
        }
    }
}
