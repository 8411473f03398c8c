//! How much of a stream a run holds at once.

/// How much of a stream a run holds at once, in bytes.
#[derive(Clone, Copy, Debug, PartialEq, Eq)]
pub struct Limits {
    /// The most that the buffered items of all open transactions may cost, on disk too.
    pub max_buffered: u64,
    /// The longest payload of a frame that is accepted.
    pub max_frame: u32,
}

impl Limits {
    /// Those of a command line that names none, and no spool in a file: 64 MiB of buffered items,
    /// and 16 MiB of a payload.
    pub const DEFAULT: Limits = Limits {
        max_buffered: 67108864,
        max_frame: 16777216,
    };
}
