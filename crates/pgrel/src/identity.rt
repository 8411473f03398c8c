//! The identity of a row, and which tuples of a change fit its definition.
//!
//! PostgreSQL documentation, ALTER TABLE, REPLICA IDENTITY; Logical Replication Message Formats,
//! Relation, Insert, Update, Delete.

ghost use Rattle.std.specs.Prelude.{◌≡◌, ◌⊎◌, ◌++◌, ◌∷◌, List, length, IsSome, IfOk, IfErr};
ghost use Rattle.std.specs.Prelude.{option_map};
ghost use Rattle.std.specs.Option.{option_to_list};
ghost use Rattle.pgrel.specs.Steps.{sent_cell};
ghost use Rattle.pgtuple.specs.Borrowed.{cell_value};
ghost use Rattle.std.specs.Cmp.Lexicographic.{pointwise};
ghost use Rattle.std.specs.List.{list_any};
ghost use Rattle.pglogical.specs.declared.message.Column.{Column};
ghost use Rattle.pgrel.specs.Identity.{
  is_unchanged,
  keyed,
  key_cells,
  identity,
  same_column,
  same_shape,
  has_unchanged,
  resolved,
  lacks_identity,
  has_width,
  old_has_width,
  new_has_width,
  checked_insert,
  checked_identity,
  known_cells,
  searched_identity,
  IsRefusalOf,
};

use crate::fault::RelFault;
use pglogical::{Column, OldKind, RelationDef};
use pgtuple::{CellRef, Cells, Tuple, TupleRef};
use std::alloc::Global;

/// Whether the table's rows are identified by their key: the replica identity letter is `d` or `i`
/// and some column is flagged as part of the key. Otherwise the table has no usable key (the code
/// calls it a bag): its rows are identified by all their cells, and counted in copies.
pub fn keyed(def: &RelationDef) -> bool
    ensures { result ≡ keyed def.now }
{
    if def.letter != b'd' && def.letter != b'i' {
        return false;
    }
    has_key_column(def.columns.as_slice())
}

fn has_key_column(columns: &[Column]) -> bool
    ensures { result ≡ list_any (λ (c : Column). c.key) columns.now }
{
    columns.iter().any(|column| column.key)
}

/// Whether two definitions have equal letters and equal lists of key flags and column names. Rows
/// of one are then rows of the other, with the same identities.
pub fn same_shape(a: &RelationDef, b: &RelationDef) -> bool
    ensures { result ≡ same_shape a.now b.now }
{
    a.letter == b.letter && same_columns(a.columns.as_slice(), b.columns.as_slice())
}

fn same_columns(a: &[Column], b: &[Column]) -> bool
    ensures { result ≡ pointwise same_column a.now b.now }
{
    if a.len() != b.len() {
        return false;
    }
    for (x, y) in a.iter().zip(b) {
        if !same_column(x, y) {
            return false;
        }
    }
    true
}

fn same_column(a: &Column, b: &Column) -> bool
    ensures { result ≡ same_column a.now b.now }
{
    a.key == b.key && a.name.as_str() == b.name.as_str()
}

/// Whether a row may be inserted: it has the definition's width, and every cell was sent.
pub fn check_insert(def: &RelationDef, row: &TupleRef<'_>) -> Result<(), RelFault>
    ensures { result ≡ checked_insert def.now row.now }
{
    if !has_width(def, row) {
        return Err(RelFault::Width);
    }
    if has_unchanged(row) {
        return Err(RelFault::UnchangedInInsert);
    }
    Ok(())
}

fn has_width(def: &RelationDef, row: &TupleRef<'_>) -> bool
    ensures { result ≡ has_width def.now row.now }
{
    row.width() == def.columns.as_slice().len()
}

fn is_unchanged(cell: &CellRef<'_>) -> bool
    ensures { result ≡ is_unchanged (cell_value cell.now) }
{
    match *cell {
        CellRef::Unchanged => true,
        CellRef::Null => false,
        CellRef::Text(_) => false,
        CellRef::Binary(_) => false,
    }
}

/// Whether some cell of a row wasn't sent, since it is as it was.
pub fn has_unchanged(row: &TupleRef<'_>) -> bool
    ensures { result ≡ has_unchanged row.now }
{
    for cell in row.cells() {
        if is_unchanged(&cell) {
            return true;
        }
    }
    false
}

// The next cell of a row, where its column is part of the key.
fn next_key_cell<'a>(column: &Column, cells: &mut Cells<'a>) -> Option<CellRef<'a>>
    ensures { (rest : List Column) → key_cells (column.now ∷ rest) cells.old
        ≡ option_to_list (option_map cell_value result) ++ key_cells rest cells.new }
{
    let cell = cells.next()?;
    if column.key { Some(cell) } else { None }
}

fn has_unchanged_key(columns: &[Column], row: &TupleRef<'_>) -> bool
    ensures { result ≡ has_unchanged (key_cells columns.now row.now) }
{
    let mut cells = row.cells();
    for column in columns {
        if let Some(cell) = next_key_cell(column, &mut cells) {
            if is_unchanged(&cell) {
                return true;
            }
        }
    }
    false
}

// The cells of the key columns, in column order.
fn key_tuple(alloc: Global, columns: &[Column], row: &TupleRef<'_>) -> Result<Tuple, RelFault>
    ensures ok { IfOk result (λ cells. cells ≡ key_cells columns.now row.now) }
    ensures memory { IfErr result (λ fault. fault ≡ RelFault.Memory) }
{
    // Its contract says that the row is within a tuple's limits.
    let _width = row.width();
    let mut key = Vec::new(alloc);
    let mut cells = row.cells();
    for column in columns {
        if let Some(cell) = next_key_cell(column, &mut cells) {
            key.push(cell.to_cell(alloc).map_err(|_| RelFault::Memory)?)?;
        }
    }
    Ok(Tuple::from_vec(key))
}

fn whole_tuple(alloc: Global, row: &TupleRef<'_>) -> Result<Tuple, RelFault>
    ensures ok { IfOk result (λ cells. cells ≡ row.now) }
    ensures memory { IfErr result (λ fault. fault ≡ RelFault.Memory) }
{
    row.to_tuple(alloc).map_err(|_| RelFault::Memory)
}

fn identity_tuple(alloc: Global, def: &RelationDef, row: &TupleRef<'_>) -> Result<Tuple, RelFault>
    ensures ok { IfOk result (λ cells. cells ≡ identity def.now row.now) }
    ensures memory { IfErr result (λ fault. fault ≡ RelFault.Memory) }
{
    if keyed(def) {
        key_tuple(alloc, def.columns.as_slice(), row)
    } else {
        whole_tuple(alloc, row)
    }
}

/// The identity of a row: its key cells in column order, or in a bag all its cells. A cell that
/// wasn't sent is a cell like another here. The error is `Width` for a row that hasn't the
/// definition's width, else out of memory.
pub fn row_identity(alloc: Global, def: &RelationDef, row: &TupleRef<'_>) -> Result<Tuple, RelFault>
    ensures ok { IfOk result (λ cells. checked_identity def.now row.now ≡ Ok cells) }
    ensures err { IfErr result (IsRefusalOf (checked_identity def.now row.now)) }
{
    if has_width(def, row) {
        identity_tuple(alloc, def, row)
    } else {
        Err(RelFault::Width)
    }
}

/// The identity by which an update or a delete finds its row: that of the old tuple if one was
/// sent, else that of the new one. The checks come in this order: the old tuple's width, the new
/// tuple's width, `NoIdentity` where the table isn't keyed and isn't one of replica identity FULL
/// whose old row was sent whole, and `UnknownIdentity` where a cell of the identity wasn't sent.
/// Out of memory is returned only after them.
pub fn search_identity(
    alloc: Global,
    def: &RelationDef,
    old: Option<(OldKind, TupleRef<'_>)>,
    new: Option<TupleRef<'_>>,
) -> Result<Tuple, RelFault>
    requires { IsSome old ⊎ IsSome new }
    ensures ok { IfOk result (λ cells. searched_identity def.now old.entry new.entry ≡ Ok cells) }
    ensures err { IfErr result (IsRefusalOf (searched_identity def.now old.entry new.entry)) }
{
    if !old_has_width(def, &old) || !new_has_width(def, &new) {
        return Err(RelFault::Width);
    }
    if lacks_identity(def, &old) {
        return Err(RelFault::NoIdentity);
    }
    match (old, new) {
        (Some((_, row)), _) => known_identity(alloc, def, &row),
        (None, Some(row)) => known_identity(alloc, def, &row),
        (None, None) => unreachable!(),
    }
}

fn old_has_width(def: &RelationDef, old: &Option<(OldKind, TupleRef<'_>)>) -> bool
    ensures { result ≡ old_has_width def.now old.now }
{
    match old {
        None => true,
        Some((_, row)) => has_width(def, row),
    }
}

fn new_has_width(def: &RelationDef, new: &Option<TupleRef<'_>>) -> bool
    ensures { result ≡ new_has_width def.now new.now }
{
    match new {
        None => true,
        Some(row) => has_width(def, row),
    }
}

fn lacks_identity(def: &RelationDef, old: &Option<(OldKind, TupleRef<'_>)>) -> bool
    ensures { result ≡ lacks_identity def.now old.now }
{
    if keyed(def) {
        return false;
    }
    match old {
        Some((OldKind::Full, _)) => def.letter != b'f',
        _ => true,
    }
}

fn has_unchanged_identity(def: &RelationDef, row: &TupleRef<'_>) -> bool
    ensures { result ≡ has_unchanged (identity def.now row.now) }
{
    if keyed(def) {
        has_unchanged_key(def.columns.as_slice(), row)
    } else {
        has_unchanged(row)
    }
}

// The identity of a row, if each of its cells was sent.
fn known_identity(alloc: Global, def: &RelationDef, row: &TupleRef<'_>) -> Result<Tuple, RelFault>
    ensures ok { IfOk result (λ cells. known_cells (identity def.now row.now) ≡ Ok cells) }
    ensures err { IfErr result (IsRefusalOf (known_cells (identity def.now row.now))) }
{
    if has_unchanged_identity(def, row) {
        return Err(RelFault::UnknownIdentity);
    }
    identity_tuple(alloc, def, row)
}

/// The new row, with the old row's cell in place of each that wasn't sent. The one error is out of
/// memory.
pub fn resolve(alloc: Global, new: &TupleRef<'_>, old_row: &TupleRef<'_>) -> Result<Tuple, RelFault>
    requires { length new.now ≡ length old_row.now }
    ensures ok { IfOk result (λ row. row ≡ resolved new.now old_row.now) }
    ensures memory { IfErr result (λ fault. fault ≡ RelFault.Memory) }
{
    // Both rows are within a tuple's limits, by the contract of `width`.
    let width = new.width();
    let _old_width = old_row.width();
    let mut cells = Vec::with_capacity(alloc, width)?;
    let mut olds = old_row.cells();
    for cell in new.cells() {
        let old = olds.next();
        let sent = sent_of(cell, old);
        cells.push(sent.to_cell(alloc).map_err(|_| RelFault::Memory)?)?;
    }
    Ok(Tuple::from_vec(cells))
}

// The old cell where the new one wasn't sent.
fn sent_of<'a>(cell: CellRef<'a>, old: Option<CellRef<'a>>) -> CellRef<'a>
    ensures { cell_value result ≡ sent_cell (cell_value cell.entry)
        (option_map cell_value old.entry) }
{
    match old {
        None => cell,
        Some(old) => { if is_unchanged(&cell) { old } else { cell } }
    }
}
