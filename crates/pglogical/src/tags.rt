//! The first byte of each message, which names it, and the byte before each tuple of a change.
//!
//! PostgreSQL documentation, Logical Replication Message Formats.

pub(crate) const BEGIN_TAG: u8 = b'B';

pub(crate) const COMMIT_TAG: u8 = b'C';

pub(crate) const ORIGIN_TAG: u8 = b'O';

pub(crate) const RELATION_TAG: u8 = b'R';

pub(crate) const TYPE_TAG: u8 = b'Y';

pub(crate) const INSERT_TAG: u8 = b'I';

pub(crate) const UPDATE_TAG: u8 = b'U';

pub(crate) const DELETE_TAG: u8 = b'D';

pub(crate) const TRUNCATE_TAG: u8 = b'T';

pub(crate) const MESSAGE_TAG: u8 = b'M';

pub(crate) const STREAM_START_TAG: u8 = b'S';

pub(crate) const STREAM_STOP_TAG: u8 = b'E';

pub(crate) const STREAM_COMMIT_TAG: u8 = b'c';

pub(crate) const STREAM_ABORT_TAG: u8 = b'A';

/// The first bytes of all messages.
pub(crate) const MESSAGE_TAGS: [u8; 14] = [
    BEGIN_TAG,
    COMMIT_TAG,
    ORIGIN_TAG,
    RELATION_TAG,
    TYPE_TAG,
    INSERT_TAG,
    UPDATE_TAG,
    DELETE_TAG,
    TRUNCATE_TAG,
    MESSAGE_TAG,
    STREAM_START_TAG,
    STREAM_STOP_TAG,
    STREAM_COMMIT_TAG,
    STREAM_ABORT_TAG,
];

/// The new tuple.
pub(crate) const NEW_TUPLE_TAG: u8 = b'N';

/// The old tuple, with the key columns alone.
pub(crate) const KEY_TUPLE_TAG: u8 = b'K';

/// The old tuple, with all columns.
pub(crate) const OLD_TUPLE_TAG: u8 = b'O';
