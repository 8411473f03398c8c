//! What the definitions of identity and shape give, as contracts of functions that do nothing.
//!
//! PostgreSQL documentation, ALTER TABLE, REPLICA IDENTITY.

ghost use Rattle.pgrel.specs.Laws.{
  CarriedByPlaces,
  CarriedHasNewWidth,
  CarriedHasAllCells,
  SameShapeMeansEqualShapes,
  SameShapeMeansSameIdentity,
  KeyedMeansKeyColumns,
  FullIsNeverKeyed,
  IdentityOfBagIsRow,
  KeyHasCellForEachKeyColumn,
  IdentityIsNoWiderThanRow,
  ResolvedKeepsWidth,
  ResolvedHasAllCells,
  SentRowStays,
};

/// Two definitions have one shape exactly if their letters and their lists of key flags and column
/// names are equal, and then they know each row by the same cells.
pub fn shapes_are_compared_whole()
    ensures equal { SameShapeMeansEqualShapes }
    ensures identity { SameShapeMeansSameIdentity }
{}

/// A table is keyed exactly if its letter is `d` or `i` and some column is part of the key. Its
/// rows are then known by one cell for each key column, and else by all their cells.
pub fn keyed_tables_have_key_columns()
    ensures keyed { KeyedMeansKeyColumns }
    ensures full { FullIsNeverKeyed }
    ensures key { KeyHasCellForEachKeyColumn }
    ensures bag { IdentityOfBagIsRow }
    ensures width { IdentityIsNoWiderThanRow }
{}

/// A row with the missing cells of the new tuple filled in from the old row has the new tuple's
/// width, and no cell is missing if none of the old row's is. A row that was sent whole stays as it
/// is.
pub fn resolved_rows_are_whole()
    ensures width { ResolvedKeepsWidth }
    ensures whole { ResolvedHasAllCells }
    ensures sent { SentRowStays }
{}

/// A row that is carried to another definition has a cell for each of its columns, and all of them
/// if it had all before.
pub fn carried_rows_are_whole()
    ensures width { CarriedHasNewWidth }
    ensures whole { CarriedHasAllCells }
{}

/// A row whose cells are taken by the indexes of their columns is the row whose cells are taken by
/// the names.
pub fn rows_are_carried_by_places()
    ensures { CarriedByPlaces }
{}
