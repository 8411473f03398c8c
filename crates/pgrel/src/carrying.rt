//! Rows of a table whose definition changes.
//!
//! PostgreSQL documentation, Logical Replication Message Formats, Relation.

ghost use Rattle.std.specs.Prelude.{◌≡◌, length, map, IfOk, IfErr};
ghost use Rattle.pgtuple.specs.Borrowed.{cell_value};
ghost use Rattle.pglogical.specs.Spelling.{IsDefinition};
ghost use Rattle.pgrel.specs.Carried.{carried, place_of, placed_cell, placed_cells, places};

use crate::fault::RelFault;
use pglogical::{Column, RelationDef};
use pgtuple::{Cell, CellRef, Tuple, TupleRef};
use std::alloc::Global;
use std::marker::Model;

/// Where the cells of a table's new rows are in its old ones, so that one comparison of names
/// serves all rows: for each new column the index of the first old column of its name.
#[derive(Debug, Drop)]
pub struct Carrying {
    places: Vec<Option<usize>>,
}

impl Model for Carrying {
    ghost use Rattle.std.specs.Prelude.{◌≤◌, ℕ, List, Option, length};

    ghost Value = { List (Option ℕ) };

    ghost view = { λ carrying. carrying.places.items };

    ghost invariant = { λ carrying. length carrying.places.items ≤ 1600 };
}

impl Carrying {
    /// From the old definition to the new one. Each new column is looked up among the old ones. The
    /// one error is out of memory.
    pub fn new(alloc: Global, old: &RelationDef, new: &RelationDef) -> Result<Carrying, RelFault>
        requires definition { IsDefinition new.now }
        ensures ok { IfOk result (λ it. it ≡ places old.now.columns new.now.columns) }
        ensures memory { IfErr result (λ fault. fault ≡ RelFault.Memory) }
    {
        let columns = new.columns.as_slice();
        let mut places = Vec::with_capacity(alloc, columns.len())?;
        for column in columns {
            places.push(place_of(old.columns.as_slice(), column))?;
        }
        Ok(Carrying { places })
    }

    /// A row as it is under the new definition, in one pass over the row. The one error is out of
    /// memory.
    pub fn carry(&self, alloc: Global, row: &TupleRef<'_>) -> Result<Tuple, RelFault>
        ensures ok { IfOk result (λ cells. cells ≡ placed_cells row.now self.now) }
        ensures memory { IfErr result (λ fault. fault ≡ RelFault.Memory) }
    {
        // Its contract says that the row is within a tuple's limits.
        let _width = row.width();
        let old = cells_of(alloc, row)?;
        let places = self.places.as_slice();
        let mut cells = Vec::with_capacity(alloc, places.len())?;
        for place in places {
            cells.push(cell_at(alloc, old.as_slice(), *place)?)?;
        }
        Ok(Tuple::from_vec(cells))
    }
}

/// The index of the first column of the same name.
fn place_of(old: &[Column], column: &Column) -> Option<usize>
    ensures { result ≡ place_of old.now column.now }
{
    old.iter()
        .position(|before| before.name.as_str() == column.name.as_str())
}

/// The cells of a row, of which each is then at hand by its index.
fn cells_of<'a>(alloc: Global, row: &TupleRef<'a>) -> Result<Vec<CellRef<'a>>, RelFault>
    ensures ok { IfOk result (λ cells. map cell_value cells.items ≡ row.now) }
    ensures memory { IfErr result (λ fault. fault ≡ RelFault.Memory) }
{
    let mut cells = Vec::with_capacity(alloc, row.width())?;
    for cell in row.cells() {
        cells.push(cell)?;
    }
    Ok(cells)
}

/// A copy of the cell at this index, or null.
fn cell_at(alloc: Global, cells: &[CellRef<'_>], place: Option<usize>) -> Result<Cell, RelFault>
    ensures ok { IfOk result (λ cell. cell ≡ placed_cell (map cell_value cells.now) place) }
    ensures memory { IfErr result (λ fault. fault ≡ RelFault.Memory) }
{
    let Some(index) = place else {
        return Ok(Cell::Null);
    };
    match cells.get(index) {
        Some(cell) => cell.to_cell(alloc).map_err(|_| RelFault::Memory),
        None => Ok(Cell::Null),
    }
}

/// A row as it is under the new definition: each new column takes the cell of the first old column
/// of its name, and null where there is none; old cells without a column go. The one error is out
/// of memory.
///
/// For several rows [`Carrying`] looks the columns up once.
pub fn carry(
    alloc: Global,
    old: &RelationDef,
    new: &RelationDef,
    row: &TupleRef<'_>,
) -> Result<Tuple, RelFault>
    requires width { length row.now ≡ length old.now.columns }
    requires definition { IsDefinition new.now }
    ensures ok { IfOk result (λ cells. cells ≡ carried old.now new.now row.now) }
    ensures memory { IfErr result (λ fault. fault ≡ RelFault.Memory) }
{
    Carrying::new(alloc, old, new)?.carry(alloc, row)
}
