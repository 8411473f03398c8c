//! What a load is to whoever follows the server from its slot on. The functions do nothing: their
//! contracts are the laws.

ghost use Rattle.pgload.specs.Laws.{
  ChangesInParts,
  SentRowsAreLoaded,
  LoadHasItsChanges,
  LoadBeginsHistory,
  LoadGivesItsRows,
  LoadIsStart,
  LoadedRowsAreTheServers,
  SessionsAreOfTheLoad,
};
ghost use Rattle.pgload.specs.Inputs.{BytesAreOneLoad};

/// What a server sends for a table's rows is these rows in a load.
///
/// PostgreSQL documentation, COPY, File Formats, Text Format.
pub fn sent_rows_are_loaded()
    ensures { SentRowsAreLoaded }
{}

/// Changes may be made in parts, as a load's batches.
pub fn changes_come_in_parts()
    ensures { ChangesInParts }
{}

/// A load is one transaction, of an Insert for each row that the texts have, which ends at the
/// slot's consistent point (`changes`). It is the first one of a history (`history`), which gives
/// its rows (`rows`). So `follow` goes on from there with sessions of that history (`start`).
///
/// PostgreSQL documentation, Logical Decoding Concepts, Exported Snapshots.
pub fn load_is_a_transaction()
    ensures changes { LoadHasItsChanges }
    ensures history { LoadBeginsHistory }
    ensures rows { LoadGivesItsRows }
    ensures start { LoadIsStart }
{}

/// Where the texts are what the slot's snapshot shows, that history gives the server's rows at the
/// point and at every position above it (`rows`), and the server's sessions from the point on are
/// sessions of it (`sessions`).
///
/// PostgreSQL documentation, Logical Decoding Concepts, Exported Snapshots.
pub fn loaded_rows_are_the_servers()
    ensures rows { LoadedRowsAreTheServers }
    ensures sessions { SessionsAreOfTheLoad }
{}

/// Whatever input ends a load, and however it is cut, has brought the same tables to the same
/// point.
///
/// PostgreSQL documentation, Message Formats, CopyData.
pub fn cuts_change_no_load()
    ensures { BytesAreOneLoad }
{}
