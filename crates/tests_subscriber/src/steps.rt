//! Takes the steps of a row.

use crate::messages::MESSAGES;
use crate::row::{Row, Step, Stored};
use hex::FromHexError;
use pgapply::{DumpRow, ReplicaStore};
use pglsn::Lsn;
use pgorder::Version;
use pgspool::{ByteSpools, ListSpools};
use pgsub_core::{Fault, Loads, Session, Subscriber, follow};
use pgtuple::{Bytes, Cell, Seq};
use std::alloc::Global;
use std::process::Abort;

/// The clock of the replies.
const NOW: i64 = 7;

/// The longest payload of a frame.
const MAX_FRAME: u32 = 64000;

/// Appends bytes, once more where memory ran out.
pub(crate) fn append(rt: &impl Abort, bytes: &mut Vec<u8>, part: &[u8]) {
    if bytes.extend_from_slice(part).is_err() {
        bytes.extend_from_slice(part).expect(rt, "room for bytes");
    }
}

/// Pushes a value, once more where memory ran out.
fn push<T: Drop>(rt: &impl Abort, values: &mut Vec<T>, value: T) {
    if let Err(failed) = values.push(value) {
        assert!(rt; values.push(failed.value).is_ok());
    }
}

/// The bytes of hexadecimal digits, asked for once more where memory ran out.
fn decoded(rt: &(impl Abort + AllocGlobal), digits: &str) -> Vec<u8> {
    match hex::decode(rt.alloc(), digits) {
        Err(FromHexError::OutOfMemory) => hex::decode(rt.alloc(), digits).expect(rt, "digits"),
        answer => answer.expect(rt, "digits"),
    }
}

/// The bytes of hexadecimal digits in groups.
pub(crate) fn unhex(rt: &(impl Abort + AllocGlobal), digits: &str) -> Vec<u8> {
    let mut bytes = Vec::new(rt.alloc());
    for word in digits.split_whitespace() {
        append(rt, &mut bytes, decoded(rt, word).as_slice());
    }
    bytes
}

/// Appends the CopyData frame of a body, in XLogData from 0/0 to 0/0.
fn append_frame(rt: &impl Abort, bytes: &mut Vec<u8>, body: &[u8]) {
    let length = u32::try_from(body.len().saturating_add(29)).expect(rt, "a length");
    append(rt, bytes, b"d");
    append(rt, bytes, &length.to_be_bytes());
    append(rt, bytes, b"w");
    append(rt, bytes, &[0; 24]);
    append(rt, bytes, body);
}

/// Appends the frame of a message; of digits after `=` their bytes alone.
fn append_message(rt: &(impl Abort + AllocGlobal), bytes: &mut Vec<u8>, message: &str) {
    match message.strip_prefix('=') {
        Some(digits) => append(rt, bytes, unhex(rt, digits).as_slice()),
        None => append_frame(rt, bytes, unhex(rt, message).as_slice()),
    }
}

/// The digits of a word.
fn digits_of(rt: &impl Abort, word: &str) -> &'static str {
    for &(name, digits) in &MESSAGES {
        if name == word {
            return digits;
        }
    }
    rt.panic(word)
}

/// The bytes of a session.
pub(crate) fn bytes_of(rt: &(impl Abort + AllocGlobal), session: &str) -> Vec<u8> {
    let mut bytes = Vec::new(rt.alloc());
    for word in session.split_whitespace() {
        append_message(rt, &mut bytes, digits_of(rt, word));
    }
    bytes
}

/// A chunk of a session.
fn chunk_of(rt: &(impl Abort + AllocGlobal), bytes: &[u8]) -> Bytes {
    let mut chunk = Vec::new(rt.alloc());
    append(rt, &mut chunk, bytes);
    Bytes::from_vec(chunk)
}

/// A session in chunks of so many bytes.
fn session_of(rt: &(impl Abort + AllocGlobal), session: &str, chunk_len: usize) -> Session {
    let bytes = bytes_of(rt, session);
    let mut chunks = Vec::new(rt.alloc());
    for chunk in bytes.chunks(chunk_len.max(1)) {
        push(rt, &mut chunks, chunk_of(rt, chunk));
    }
    drop(bytes);
    let pieces = Seq::from_vec(chunks);
    Session { pieces }
}

/// Sessions in chunks of so many bytes.
pub(crate) fn sessions_of(
    rt: &(impl Abort + AllocGlobal),
    sessions: &[&str],
    chunk_len: usize,
) -> Vec<Session> {
    let mut all = Vec::new(rt.alloc());
    for session in sessions {
        push(rt, &mut all, session_of(rt, session, chunk_len));
    }
    all
}

// The calls below promise nothing of what they return: who calls them is proved without the
// subscriber's contracts.

/// A new subscriber over a store.
pub(crate) fn over<P: Loads<C> + Drop, C: ReplicaStore + Drop>(
    alloc: Global,
    store: C,
    spools: P,
    version: Version,
) -> Subscriber<P, C> {
    Subscriber::new(alloc, store, spools, version, MAX_FRAME)
}

/// Feeds bytes at once.
pub(crate) fn feed<P: Loads<C> + Drop, C: ReplicaStore + Drop>(
    subscriber: &mut Subscriber<P, C>,
    bytes: &[u8],
) -> Result<(), Fault> {
    subscriber.feed(bytes, NOW)
}

/// Follows sessions.
pub(crate) fn follow_all<P: Loads<C> + Drop, C: ReplicaStore + Drop>(
    subscriber: &mut Subscriber<P, C>,
    sessions: &[Session],
) -> Result<(), Fault> {
    follow(subscriber, sessions, NOW)
}

/// The position in the log up to which all is stored.
pub(crate) fn position_of<P: Loads<C> + Drop, C: ReplicaStore + Drop>(
    subscriber: &Subscriber<P, C>,
) -> u64 {
    subscriber.position().0
}

/// All rows.
pub(crate) fn rows_of<P: Loads<C> + Drop, C: ReplicaStore + Drop>(
    subscriber: &mut Subscriber<P, C>,
) -> Result<Vec<DumpRow>, Fault> {
    subscriber.rows()
}

/// Feeds bytes in chunks.
fn feed_chunks<P: Loads<C> + Drop, C: ReplicaStore + Drop>(
    subscriber: &mut Subscriber<P, C>,
    bytes: &[u8],
    chunk_len: usize,
) -> Result<(), Fault> {
    for chunk in bytes.chunks(chunk_len.max(1)) {
        feed(subscriber, chunk)?;
    }
    Ok(())
}

/// Whether a stored row is this one.
fn is_row(row: &DumpRow, stored: Stored) -> bool {
    let (oid, name, cells, copies) = stored;
    if row.oid != oid || row.copies != copies || row.cells.width() != cells.len() {
        return false;
    }
    if row.namespace.as_str() != "public" || row.name.as_str() != name {
        return false;
    }
    for (cell, text) in row.cells.as_slice().iter().zip(cells) {
        if !matches!(cell, Cell::Text(found) if found.as_str() == *text) {
            return false;
        }
    }
    true
}

/// Whether these are all rows.
pub(crate) fn are_rows(rows: &[DumpRow], stored: &[Stored]) -> bool {
    for (row, stored) in rows.iter().zip(stored) {
        if !is_row(row, *stored) {
            return false;
        }
    }
    rows.len() == stored.len()
}

/// Whether following sessions gives this result.
fn follows<P: Loads<C> + Drop, C: ReplicaStore + Drop>(
    rt: &(impl Abort + AllocGlobal),
    subscriber: &mut Subscriber<P, C>,
    sessions: &[&str],
    chunk_len: usize,
    wanted: Result<(), Fault>,
) -> bool {
    let sessions = sessions_of(rt, sessions, chunk_len);
    let followed = follow_all(subscriber, sessions.as_slice());
    drop(sessions);
    followed == wanted
}

/// Whether feeding messages gives this result.
fn feeds<P: Loads<C> + Drop, C: ReplicaStore + Drop>(
    rt: &(impl Abort + AllocGlobal),
    subscriber: &mut Subscriber<P, C>,
    messages: &str,
    chunk_len: usize,
    wanted: Result<(), Fault>,
) -> bool {
    let bytes = bytes_of(rt, messages);
    let fed = feed_chunks(subscriber, bytes.as_slice(), chunk_len);
    drop(bytes);
    fed == wanted
}

/// Whether these are the bytes of hexadecimal digits.
fn are_bytes(rt: &(impl Abort + AllocGlobal), bytes: &[u8], digits: &str) -> bool {
    let wanted = unhex(rt, digits);
    bytes == wanted.as_slice()
}

/// Whether position, confirmed and received are these.
fn is_at<P: Loads<C> + Drop, C: ReplicaStore + Drop>(
    subscriber: &Subscriber<P, C>,
    position: u64,
    confirmed: u64,
    received: u64,
) -> bool {
    position_of(subscriber) == position
        && subscriber.confirmed() == Lsn(confirmed)
        && subscriber.received() == Lsn(received)
}

/// Whether so many changes found no row, the first of them in the commit that ends there.
fn has_missed<P: Loads<C> + Drop, C: ReplicaStore + Drop>(
    subscriber: &Subscriber<P, C>,
    count: u64,
    end: u64,
    oid: u32,
) -> bool {
    let misses = subscriber.misses();
    let (counted, first) = (misses.count, misses.first);
    if counted != count {
        return false;
    }
    let Some(first) = first else {
        return count == 0;
    };
    let (at, of) = (first.end.0, first.oid);
    at == end && of == oid
}

/// Whether these are all stored rows.
fn has_rows<P: Loads<C> + Drop, C: ReplicaStore + Drop>(
    rt: &impl Abort,
    subscriber: &mut Subscriber<P, C>,
    stored: &[Stored],
) -> bool {
    let rows = rows_of(subscriber).expect(rt, "rows");
    are_rows(rows.as_slice(), stored)
}

/// Takes a step. Returns whether its result is the one that it names.
fn take<P: Loads<C> + Drop, C: ReplicaStore + Drop>(
    rt: &(impl Abort + AllocGlobal),
    subscriber: &mut Subscriber<P, C>,
    step: Step,
    chunk_len: usize,
) -> bool {
    match step {
        Step::Follow(sessions, wanted) => follows(rt, subscriber, sessions, chunk_len, wanted),
        Step::Feed(messages, wanted) => feeds(rt, subscriber, messages, chunk_len, wanted),
        Step::Disconnect => {
            subscriber.disconnect();
            true
        }
        Step::Status(now, ask) => subscriber.status(now, ask).is_ok(),
        Step::ClearReplies => {
            subscriber.clear_replies();
            true
        }
        Step::Replies(digits) => are_bytes(rt, subscriber.replies(), digits),
        Step::At(position, confirmed, received) => is_at(subscriber, position, confirmed, received),
        Step::Misses(count, end, oid) => has_missed(subscriber, count, end, oid),
        Step::Rows(stored) => has_rows(rt, subscriber, stored),
    }
}

/// Takes the steps of a row, each chunk of a session of so many bytes.
pub(crate) fn take_steps<P: Loads<C> + Drop, C: ReplicaStore + Drop>(
    rt: &(impl Abort + AllocGlobal),
    subscriber: &mut Subscriber<P, C>,
    row: &Row,
    chunk_len: usize,
) {
    for (index, step) in row.steps.iter().enumerate() {
        let is_met = take(rt, subscriber, *step, chunk_len);
        assert!(rt;
            is_met,
            "{}: step {index} in chunks of {chunk_len}",
            row.shows
        );
    }
}

/// Takes the steps of a row by a new subscriber. Returns the store then.
pub(crate) fn taken<P: Loads<C> + Drop, C: ReplicaStore + Drop>(
    rt: &(impl Abort + AllocGlobal),
    store: C,
    spools: P,
    row: &Row,
    version: Version,
    chunk_len: usize,
) -> C {
    let mut subscriber = over(rt.alloc(), store, spools, version);
    take_steps(rt, &mut subscriber, row, chunk_len);
    subscriber.into_store()
}

/// How a row is taken.
#[derive(Clone, Copy)]
pub(crate) struct Way {
    pub(crate) version: Version,
    /// Whether items are kept encoded.
    pub(crate) is_encoded: bool,
    pub(crate) chunk_len: usize,
}

/// Takes the steps of a row over a new store.
pub(crate) fn check<C: ReplicaStore + Drop>(
    rt: &(impl Abort + AllocGlobal),
    store: C,
    row: &Row,
    way: Way,
) {
    if way.is_encoded {
        let spools = ByteSpools::new(rt.alloc(), row.limit);
        drop(taken(rt, store, spools, row, way.version, way.chunk_len));
    } else {
        let spools = ListSpools::new(rt.alloc(), row.limit);
        drop(taken(rt, store, spools, row, way.version, way.chunk_len));
    }
}
