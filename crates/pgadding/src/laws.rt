//! Laws of the definitions. Each is a function with no parameters and an empty body: its contract
//! is the law.

ghost use Rattle.pgadding.specs.Laws.{WithRowsIsHistory, PassedOnIsDelivered, PassedOnIsWhole};
ghost use Rattle.pgadding.specs.Bytes.{PassedSessionsAreSessions};
ghost use Rattle.pgadding.specs.Rows.{OtherRowsAreTheServers, RowsAreTheServers};
ghost use Rattle.pgadding.specs.Later.{LaterRowsAreTheServers, KeptIsLater};
ghost use Rattle.pgadding.specs.Copies.{
  StartsSafe,
  EndsSafe,
  CopyIsTheServers,
  NewTableIsTheServers,
};
ghost use Rattle.pgadding.specs.Worked.{
  BeforeAKeepalive,
  BeforeABegin,
  NotYet,
  NoMore,
  WithLater,
  LaterIsKept,
  SeenIsNotKept,
  IsExample,
};
ghost use Rattle.pgadding.specs.Repaired.{
  RepairMakesTheServers,
  WithRepairIsHistory,
  RepairedIsDelivered,
  RepairedSessionsAreSessions,
  RepairedRowsAreTheServers,
  MendedRowsAreTheServers,
  UnrepairedIsTheSame,
  RepairedCopyIsTheServers,
};
ghost use Rattle.pgadding.specs.Given.{AnyTablesAreGiven, AnyCopyIsRepaired};
ghost use Rattle.pgadding.specs.WorkedRepair.{
  Comes,
  IsReplaced,
  Goes,
  MoreCome,
  SomeGo,
  AllGo,
  ForAKeepalive,
  ForABegin,
  NotRepairedYet,
  IsRepaired,
  RepairsWork,
  IsExampleOfARepair,
};

/// Whatever is passed on of a server's sessions while a table is added, it is sessions of a history
/// (`delivered`; `bytes` for their bytes, wherever they end): the server's, in which the
/// commits before the point do nothing to the table, with the rows' transaction at the point
/// (`history`). So each law of `pgsub_core` about sessions of a history holds over them. As many
/// tables may be added one after the other (`whole`).
///
/// Of the server it is asked, beside what `pgsub_core` says of sessions: that a transaction whose
/// Begin it sends is committed in its turn; that what begins after a keepalive between
/// transactions isn't committed before that keepalive's end; that the record that ends at the point
/// is no commit; and that the table keeps the definition that its rows came with, or gets a
/// Relation message before it is named again.
///
/// PostgreSQL documentation, Logical Decoding Concepts, Exported Snapshots.
pub fn passed_on_is_a_session()
    ensures history { WithRowsIsHistory }
    ensures delivered { PassedOnIsDelivered }
    ensures whole { PassedOnIsWhole }
    ensures bytes { PassedSessionsAreSessions }
{}

/// Each other table has the server's rows at every position (`others`). Where the rows that came
/// are the server's at the point, under the definition that the server's history gives there, the
/// copy has all of the server's rows at the point and at every position above it (`all`). They are
/// so also where they were read at an earlier point, and what was done to the table from there on
/// comes behind them (`later`): that is what is kept of a session (`kept`).
///
/// PostgreSQL documentation, Logical Decoding Concepts, Exported Snapshots.
pub fn rows_are_the_servers()
    ensures others { OtherRowsAreTheServers }
    ensures all { RowsAreTheServers }
    ensures later { LaterRowsAreTheServers }
    ensures kept { KeptIsLater }
{}

/// A copy of the server's history is one of the history with the rows (`start`), and from the point
/// on it is one of the server's again, where the rows are the server's at the point (`end`). So
/// whoever follows what is passed on, from a copy of the server's history below the point, has one
/// at each position from the point on (`copy`). The copy may also begin without any of the table's
/// rows, as where the table was published only now (`fresh`).
///
/// PostgreSQL documentation, Logical Decoding Concepts, Exported Snapshots.
pub fn copy_is_the_servers()
    ensures start { StartsSafe }
    ensures end { EndsSafe }
    ensures copy { CopyIsTheServers }
    ensures fresh { NewTableIsTheServers }
{}

/// What is passed on of a session with two transactions, one on each side of the point; and where
/// the rows were read before both (`later`), behind which come the first one's changes of the table
/// (`meanwhile`): none where they were read behind it (`seen`). Such a session of a history is as
/// the laws ask (`example`).
///
/// PostgreSQL documentation, Logical Replication Message Formats.
pub fn sessions_are_passed_on()
    ensures keepalive { BeforeAKeepalive }
    ensures begin { BeforeABegin }
    ensures not_yet { NotYet }
    ensures no_more { NoMore }
    ensures later { WithLater }
    ensures meanwhile { LaterIsKept }
    ensures seen { SeenIsNotKept }
    ensures example { IsExample }
{}

/// Where a copy isn't the server's at the point, whatever rows it has, it is after the changes of
/// what differs (`makes`): by a key an Update where both have a row, else an Insert or a Delete;
/// without one as many Inserts or Deletes of the whole row as one side has more copies. They may
/// come in any order of the rows.
///
/// They are passed on as one transaction at the point, after which the session ends. So what is
/// passed on is sessions (`delivered`; `bytes`) of a history (`history`), which from the point on
/// gives the server's rows (`rows`); where other tables differ too, those of the tables that are
/// repaired (`mended`). Below the point the copy is as it was (`unrepaired`), and whoever follows
/// has a copy of the server's history at each position from the point on (`copy`). A copy may have
/// any tables before, since some history gives them (`given`): so also that is a copy of the
/// server's history from the point on (`any`).
///
/// Of the server it is asked what `passed_on_is_a_session` says of transactions and keepalives; of
/// a table that is repaired that the copy has it under the same shape, or not at all, and the
/// server's history under the definition that comes with its changes.
///
/// PostgreSQL documentation, Logical Decoding Concepts, Exported Snapshots; ALTER TABLE, REPLICA
/// IDENTITY.
pub fn repaired_copy_is_the_servers()
    ensures makes { RepairMakesTheServers }
    ensures history { WithRepairIsHistory }
    ensures delivered { RepairedIsDelivered }
    ensures bytes { RepairedSessionsAreSessions }
    ensures rows { RepairedRowsAreTheServers }
    ensures mended { MendedRowsAreTheServers }
    ensures unrepaired { UnrepairedIsTheSame }
    ensures copy { RepairedCopyIsTheServers }
    ensures given { AnyTablesAreGiven }
    ensures any { AnyCopyIsRepaired }
{}

/// The changes of single rows, by a key and by the whole row; and what is passed on of the session
/// of `sessions_are_passed_on` where a copy is repaired. Two histories, a session and a repair are
/// as the laws ask (`example`).
///
/// PostgreSQL documentation, Logical Replication Message Formats.
pub fn repairs_are_passed_on()
    ensures comes { Comes }
    ensures replaced { IsReplaced }
    ensures goes { Goes }
    ensures more { MoreCome }
    ensures some { SomeGo }
    ensures all { AllGo }
    ensures keepalive { ForAKeepalive }
    ensures begin { ForABegin }
    ensures not_yet { NotRepairedYet }
    ensures no_more { IsRepaired }
    ensures work { RepairsWork }
    ensures example { IsExampleOfARepair }
{}
