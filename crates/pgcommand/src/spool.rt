//! The file in which the changes of open transactions go on.

/// Where the changes of open transactions go on that memory doesn't hold.
#[derive(Debug, Drop)]
pub struct SpoolOptions {
    /// The file.
    pub file: String,
    /// How many bytes of them stay in memory, 64 MiB by default.
    pub memory: u64,
}

impl SpoolOptions {
    /// How many bytes of them stay in memory, where the command line doesn't say it.
    pub const MEMORY: u64 = 67108864;
}
