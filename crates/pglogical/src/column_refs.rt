//! Columns that are borrowed, from owned ones or from the bytes that encode them.
//!
//! PostgreSQL documentation, Logical Replication Message Formats, Relation.

ghost use Rattle.std.specs.Prelude.{◌≡◌, List, length, IfOk, IfErr};
ghost use Rattle.pglogical.specs.declared.message.Column.{Column};
ghost use Rattle.pglogical.specs.BorrowedColumns.{column_value};
ghost use Rattle.pglogical.specs.Answers.{out_of_memory};

use crate::decoding;
use crate::fault::DecodeFault;
use crate::message::Column;
use crate::reader::Reader;
use pgtuple::{Seq, Text};
use std::alloc::{AllocError, Global};
use std::marker::Model;

/// One column of a relation that is borrowed, with the fields of `Column`.
///
/// PostgreSQL documentation, Logical Replication Message Formats, Relation.
#[derive(Clone, Copy, Debug)]
pub struct ColumnRef<'a> {
    /// Whether it is part of the key.
    pub key: bool,
    /// Its name.
    pub name: &'a str,
    /// The OID of its data type.
    pub type_oid: u32,
    /// The type's modifier, -1 where it has none.
    pub modifier: i32,
}

impl<'a> ColumnRef<'a> {
    /// The same column with memory of its own.
    pub(crate) fn to_column(&self, alloc: Global) -> Result<Column, AllocError>
        ensures { IfOk result (λ c. c ≡ column_value self.now) }
    {
        Ok(Column {
            key: self.key,
            name: Text::from_string(String::from_str(alloc, self.name)?),
            type_oid: self.type_oid,
            modifier: self.modifier,
        })
    }
}

/// What borrowed columns are made of.
#[derive(Drop)]
enum Columns<'a> {
    /// Columns that someone owns.
    Owned(&'a [Column]),
    /// Bytes that encode them.
    Spelled(SpelledColumns<'a>),
}

/// The columns of a borrowed relation that are still to come, seen as their list.
///
/// PostgreSQL documentation, Logical Replication Message Formats, Relation.
#[derive(Drop)]
pub struct ColumnRefs<'a> {
    rest: Columns<'a>,
}

impl<'a> Model for ColumnRefs<'a> {
    ghost use Rattle.std.specs.Prelude.{List};
    ghost use Rattle.pglogical.specs.declared.message.Column.{Column};
    ghost use Rattle.pglogical.specs.Forms.{columns_of};

    ghost Value = { List Column };

    ghost view = { λ c. columns_of c.rest };
}

impl<'a> ColumnRefs<'a> {
    /// Columns that someone owns, borrowed. It asks for no memory.
    pub fn of(columns: &'a [Column]) -> ColumnRefs<'a>
        ensures { result ≡ columns.now }
    {
        ColumnRefs {
            rest: Columns::Owned(columns),
        }
    }

    /// Columns that bytes encode.
    pub(crate) fn read(columns: SpelledColumns<'a>) -> ColumnRefs<'a>
        ensures { result ≡ columns.entry }
    {
        ColumnRefs {
            rest: Columns::Spelled(columns),
        }
    }

    /// The same columns, borrowed once more.
    pub fn reborrow(&self) -> ColumnRefs<'a>
        ensures { result ≡ self.now }
    {
        match &self.rest {
            Columns::Owned(columns) => ColumnRefs {
                rest: Columns::Owned(columns),
            },
            Columns::Spelled(columns) => ColumnRefs {
                rest: Columns::Spelled(columns.reborrow()),
            },
        }
    }

    /// How many columns are still to come.
    pub fn len(&self) -> usize
        ensures { result ≡ length self.now }
    {
        match &self.rest {
            Columns::Owned(columns) => columns.len(),
            Columns::Spelled(columns) => columns.len(),
        }
    }

    /// The same columns with memory of their own. It returns an error only where memory runs out,
    /// at place 0.
    pub fn to_columns(&self, alloc: Global) -> Result<Seq<Column>, DecodeFault>
        ensures same { IfOk result (λ columns. columns ≡ self.now) }
        ensures memory { IfErr result (λ fault. fault ≡ out_of_memory) }
    {
        let mut columns = Vec::with_capacity(alloc, self.len())?;
        for column in self.reborrow() {
            columns.push(column.to_column(alloc)?)?;
        }
        Ok(Seq::from_vec(columns))
    }
}

impl<'a> Iterator for ColumnRefs<'a> {
    ghost use Rattle.std.specs.Iterator.{YieldsFirstBy, item_count};
    ghost use Rattle.pglogical.specs.BorrowedColumns.{column_value};

    type Item = ColumnRef<'a>;

    ghost next_gives = { YieldsFirstBy column_value (λ s. s) };

    ghost remaining = { item_count (λ s. s) };

    fn next(&mut self) -> Option<ColumnRef<'a>> {
        match &mut self.rest {
            Columns::Owned(columns) => {
                let (first, others) = columns.split_first()?;
                *columns = others;
                Some(first.borrowed())
            }
            Columns::Spelled(columns) => columns.next(),
        }
    }
}

/// Columns that are read from the bytes that encode them, seen as their list.
#[derive(Drop)]
pub(crate) struct SpelledColumns<'a> {
    left: u16,
    reader: Reader<'a>,
}

impl<'a> Model for SpelledColumns<'a> {
    ghost use Rattle.std.specs.Prelude.{List};
    ghost use Rattle.pglogical.specs.declared.message.Column.{Column};
    ghost use Rattle.pglogical.specs.Reading.{columns_at};
    ghost use Rattle.pglogical.specs.Columns.{columns_read, IsRead};

    ghost Value = { List Column };

    ghost view = { λ c. columns_read (columns_at c.left c.reader) };

    ghost invariant = { λ c. IsRead (columns_at c.left c.reader) };
}

impl<'a> SpelledColumns<'a> {
    ghost use Rattle.std.specs.Iterator.{YieldsFirstBy};
    ghost use Rattle.pglogical.specs.Reading.{columns_at};
    ghost use Rattle.pglogical.specs.Columns.{columns_read, IsRead};
    ghost use Rattle.pglogical.specs.BorrowedColumns.{column_value};

    /// So many columns, the first of which is where the reader is.
    pub(crate) fn of(left: u16, reader: Reader<'a>) -> SpelledColumns<'a>
        requires { IsRead (columns_at left reader) }
        ensures { result ≡ columns_read (columns_at left reader.entry) }
    {
        SpelledColumns { left, reader }
    }

    pub(crate) fn reborrow(&self) -> SpelledColumns<'a>
        ensures { result ≡ self.now }
    {
        SpelledColumns {
            left: self.left,
            reader: self.reader.reborrow(),
        }
    }

    pub(crate) fn len(&self) -> usize
        ensures { result ≡ length self.now }
    {
        self.left as usize
    }

    pub(crate) fn next(&mut self) -> Option<ColumnRef<'a>>
        ensures { YieldsFirstBy column_value (λ (columns : List Column). columns) self.old result
            self.new }
    {
        if self.left == 0 {
            return None;
        }
        self.left -= 1;
        decoding::column(&mut self.reader).ok()
    }
}
