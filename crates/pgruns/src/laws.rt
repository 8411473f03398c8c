//! What holds of a new store's file, as the contract of a function that does nothing.

ghost use Rattle.pgruns.specs.NewFile.{NewFilesAreEmpty};

/// The file in which a new store is made holds an empty database. So a store that is opened on it
/// holds nothing, at 0/0 (`empty` of `HoldsContent`).
///
/// SQLite documentation, Database File Format.
pub fn new_files_are_empty()
    ensures { NewFilesAreEmpty }
{}
