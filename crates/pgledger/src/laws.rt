//! What the images of a commit tell, as the contract of a function that does nothing.

ghost use Rattle.pgledger.specs.Images.{LinesOfCommitsLead};

/// The images of a commit's changes, each with the definition of its relation, lead from the rows
/// before it to those after it: each row that goes or comes is whole, the one that goes is found by
/// its own cells, and no change is left out.
///
/// PostgreSQL documentation, Logical Replication Message Formats, Update, Delete; ALTER TABLE,
/// REPLICA IDENTITY.
pub fn lines_lead()
    ensures { LinesOfCommitsLead }
{}
