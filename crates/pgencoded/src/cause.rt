//! Why a call of the SQL library failed, for the operator. No clause speaks of it.

use sqlite::{Error, ErrorCode};
use sqlite_trees::error::StoreError;

/// What an operator may mend. A disk that is full isn't one that failed.
#[derive(Clone, Copy, Debug, PartialEq, Eq)]
pub enum Cause {
    /// The disk has no room.
    Full,
    /// The disk failed.
    Failed,
    /// The file is damaged.
    Damaged,
    /// A row is too long to be stored.
    TooLong,
    /// The file is no database.
    NoDatabase,
    /// Another process has the file open.
    InUse,
    /// The file can't be opened.
    Unopened,
}

impl Cause {
    /// The cause of an error of SQL, where it is one that isn't told by another error before it.
    pub(crate) fn of_error(error: Error) -> Option<Cause> {
        match error {
            Error::SqliteFailure(ErrorCode::DiskFull) => Some(Cause::Full),
            Error::SqliteFailure(ErrorCode::SystemIoFailure) => Some(Cause::Failed),
            Error::SqliteFailure(ErrorCode::DatabaseCorrupt) => Some(Cause::Damaged),
            Error::SqliteFailure(ErrorCode::TooBig) => Some(Cause::TooLong),
            Error::SqliteFailure(ErrorCode::NotADatabase) => Some(Cause::NoDatabase),
            Error::SqliteFailure(ErrorCode::DatabaseBusy) => Some(Cause::InUse),
            Error::SqliteFailure(ErrorCode::CannotOpen) => Some(Cause::Unopened),
            _ => None,
        }
    }

    /// The same of an error of the trees.
    pub(crate) fn of_trees(error: StoreError) -> Option<Cause> {
        match error {
            StoreError::Full => Some(Cause::Full),
            StoreError::Io => Some(Cause::Failed),
            StoreError::Corrupt => Some(Cause::Damaged),
            StoreError::Unstorable => Some(Cause::TooLong),
            StoreError::Broken | StoreError::OutOfMemory => None,
        }
    }

    /// How it is told.
    pub fn text(self) -> &'static str {
        match self {
            Cause::Full => "the disk is full",
            Cause::Failed => "the disk failed",
            Cause::Damaged => "the file is damaged",
            Cause::TooLong => "a row is too long",
            Cause::NoDatabase => "the file is no database",
            Cause::InUse => "another process has the file open",
            Cause::Unopened => "the file can't be opened",
        }
    }
}
