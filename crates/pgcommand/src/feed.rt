//! The feed that a task keeps beside its store.

/// A feed of each commit, in the files of a folder. Where nothing is told of what it is of, that is
/// empty.
#[derive(Debug, Drop)]
pub struct FeedOptions {
    /// The folder.
    pub folder: String,
    /// The system identifier of the server that is followed.
    pub system: String,
    /// The database that is followed.
    pub database: String,
    /// The slot that is followed.
    pub slot: String,
    /// A file ends before the commit that would give it more bytes, 64 MiB by default.
    pub segment_bytes: u64,
    /// And before a commit whose time is so many seconds after that of its first one, where this
    /// isn't 0. That is the default.
    pub segment_seconds: u32,
    /// It tells transactional messages, which have at most so many bytes in one transaction, or
    /// none of them. That is the default.
    pub messages: Option<u64>,
}

impl FeedOptions {
    /// How many bytes a file has at most, but for one of a single commit, where the command line
    /// doesn't say it.
    pub const SEGMENT_BYTES: u64 = 67108864;
}
