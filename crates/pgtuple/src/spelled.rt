//! The cells that bytes encode, one after the other.
//!
//! PostgreSQL documentation, Logical Replication Message Formats, TupleData.

ghost use Rattle.std.specs.Prelude.{◌≡◌, List, length};
ghost use Rattle.pgtuple.specs.declared.cell.Cell.{Cell};

use crate::borrowed::CellRef;
use crate::decoding;
use crate::reader::Reader;
use std::marker::Model;

/// Cells that are read from the bytes that encode them, seen as their list.
#[derive(Drop)]
pub(crate) struct SpelledCells<'a> {
    left: usize,
    reader: Reader<'a>,
}

impl<'a> Model for SpelledCells<'a> {
    ghost use Rattle.std.specs.Prelude.{List};
    ghost use Rattle.pgtuple.specs.declared.cell.Cell.{Cell};
    ghost use Rattle.pgtuple.specs.Reading.{cells_at};
    ghost use Rattle.pgtuple.specs.Spelled.{cells_read, IsRead};

    ghost Value = { List Cell };

    ghost view = { λ c. cells_read (cells_at c.left c.reader) };

    ghost invariant = { λ c. IsRead (cells_at c.left c.reader) };
}

impl<'a> SpelledCells<'a> {
    ghost use Rattle.std.specs.Iterator.{YieldsFirstBy};
    ghost use Rattle.pgtuple.specs.Borrowed.{cell_value};
    ghost use Rattle.pgtuple.specs.Spelled.{IsSpelledTuple, spelled_cells};

    /// The cells of a tuple that these bytes encode.
    pub(crate) fn of(bytes: &'a [u8]) -> SpelledCells<'a>
        requires { IsSpelledTuple bytes.now }
        ensures { result ≡ spelled_cells bytes.now }
    {
        let mut reader = Reader::new(bytes);
        match reader.u16() {
            Ok(width) => SpelledCells {
                left: width as usize,
                reader,
            },
            Err(_) => unreachable!(),
        }
    }

    pub(crate) fn len(&self) -> usize
        ensures { result ≡ length self.now }
    {
        self.left
    }

    pub(crate) fn next(&mut self) -> Option<CellRef<'a>>
        ensures { YieldsFirstBy cell_value (λ (cells : List Cell). cells) self.old result self.new }
    {
        if self.left == 0 {
            return None;
        }
        self.left -= 1;
        decoding::cell(&mut self.reader).ok()
    }
}
