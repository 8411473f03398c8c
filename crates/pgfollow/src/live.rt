//! Follows the bytes of a server as they come, and tells it what is stored.
//!
//! PostgreSQL documentation, Streaming Replication Protocol, Standby status update.

ghost use Rattle.std.specs.Prelude.{◌≡◌, ◌≢◌, ◌≤◌, ◌<◌, ◌↔◌, ◌++◌, Err, false, true, ℕ, List};
ghost use Rattle.std.specs.Prelude.{length, take, OnOk, OnErr, IfOk, IfErr};
ghost use Rattle.std.specs.Io.KnownBytes.{Appends};
ghost use Rattle.pgapply.specs.Value.{Tables};
ghost use Rattle.pgsub_core.specs.Subscriber.SubscriberValue.{seen};
ghost use Rattle.pgfollow.specs.Told.{FollowsLive};
ghost use Rattle.pgfollow.specs.Live.{FollowsPiece, IsFollowedPart, IsFront, IsGreeted};
ghost use Rattle.pgfollow.specs.Live.{IsOfFollowingOver, LiveEnds, StopsFront, StopsGreeting};
ghost use Rattle.pgfollow.specs.Live.{StopsPiece, ended_by, news, piece_len, settled};

use crate::clock::Clock;
use crate::fault::FollowFault;
use crate::link::Link;
use pgapply::ReplicaStore;
use pglsn::Lsn;
use pgsub_core::{Fault, Loads, Subscriber};
use std::alloc::{AllocError, Global};
use std::io::{Read, Write};

/// The most bytes that are read at once: all that a pipe of Linux may hold. Commits that come
/// together are settled together, so that a page that several of them change is written once.
const PIECE_LEN: usize = 1_048_576;

// Room for so many bytes.
fn room_for(alloc: Global, len: usize) -> Result<Vec<u8>, AllocError>
    ensures { IfOk result (λ room. length room.items ≡ len) }
{
    vec![in alloc; 0u8; len]
}

// Appends a status where confirmed has moved from what was told.
fn announce<P: Loads<C> + Drop, C: ReplicaStore + Drop>(
    subscriber: &mut Subscriber<P, C>,
    told: Lsn,
    now: i64,
) -> Result<(), Fault>
    ensures store { subscriber.new.applied.store ≡ subscriber.old.applied.store }
    ensures confirmed { subscriber.new.applied.confirmed ≡ subscriber.old.applied.confirmed }
    ensures replies { OnOk result (subscriber.new.applied.replies
        ≡ subscriber.old.applied.replies ++ news now told subscriber.old) }
    ensures state { OnOk result ((tables : Tables) →
        seen C.place subscriber.new tables
        ≡ record (seen C.place subscriber.old tables)
        { replies = subscriber.new.applied.replies }) }
    ensures memory { IfErr result (λ fault. fault ≡ Fault.Memory) }
{
    if subscriber.confirmed() == told {
        return Ok(());
    }
    subscriber.status(now, false)
}

// Writes the statuses that wait. Where the session ends, it is forgotten then.
fn tell<R: Read + Drop, W: Write + Drop, P: Loads<C> + Drop, C: ReplicaStore + Drop>(
    link: &mut Link<R, W>,
    subscriber: &mut Subscriber<P, C>,
    ends: bool,
) -> Result<(), FollowFault>
    requires sound { link.old.write_failed ≡ false }
    ensures unwritten { IfErr result (λ fault. (fault ≡ FollowFault.Write)
        × (link.new.write_failed ≡ true)) }
    ensures written { OnOk result ((link.new.write_failed ≡ false)
        × Appends (W.contents link.old.writer)
        (W.contents link.new.writer) subscriber.old.applied.replies) }
    ensures part { OnErr result ((front : List ℕ) × IsFront front subscriber.old.applied.replies
        × Appends (W.contents link.old.writer) (W.contents link.new.writer) front) }
    ensures read { (link.new.reader ≡ link.old.reader)
        × (link.new.read_failed ≡ link.old.read_failed) × (link.new.reads ≡ link.old.reads) }
    ensures store { subscriber.new.applied.store ≡ subscriber.old.applied.store }
    ensures state { OnOk result ((tables : Tables) →
        seen C.place subscriber.new tables ≡ settled ends (seen C.place subscriber.old tables)) }
    ensures unchanged { OnErr result (subscriber.new ≡ subscriber.old) }
{
    link.write_bytes(subscriber.replies())?;
    if ends {
        subscriber.disconnect();
    } else {
        subscriber.clear_replies();
    }
    Ok(())
}

// Tells the server what the store holds.
fn greet<R: Read + Drop, W: Write + Drop, P: Loads<C> + Drop, C: ReplicaStore + Drop>(
    link: &mut Link<R, W>,
    subscriber: &mut Subscriber<P, C>,
    now: i64,
) -> Result<(), FollowFault>
    requires sound { link.old.write_failed ≡ false }
    ensures unwritten { (result ≡ Err FollowFault.Write) ↔ (link.new.write_failed ≡ true) }
    ensures unread { IfErr result (λ fault. fault ≢ FollowFault.Read) }
    ensures own { IfErr result (IsOfFollowingOver P.may_fail) }
    ensures read { (link.new.reader ≡ link.old.reader)
        × (link.new.read_failed ≡ link.old.read_failed) × (link.new.reads ≡ link.old.reads) }
    ensures sound { OnOk result (link.new.write_failed ≡ false) }
    ensures unclosed { OnOk result (subscriber.new.framing.closed ≡ false) }
    ensures greeted { OnOk result (IsGreeted C.place (W.contents link.old.writer)
        (W.contents link.new.writer) subscriber.old subscriber.new) }
    ensures stopped { IfErr result (StopsGreeting C.place (W.contents link.old.writer)
        (W.contents link.new.writer) subscriber.old) }
    ensures store { subscriber.new.applied.store ≡ subscriber.old.applied.store }
    ensures confirmed { subscriber.new.applied.confirmed ≡ subscriber.old.applied.confirmed }
{
    subscriber.disconnect();
    match subscriber.status(now, false) {
        Ok(()) => tell(link, subscriber, false),
        Err(fault) => Err(FollowFault::Stream(fault)),
    }
}

// Feeds the first bytes of a piece, up to the end of their session, and tells the server then what
// is stored. Returns how many they are.
fn follow_part<R: Read + Drop, W: Write + Drop, P: Loads<C> + Drop, C: ReplicaStore + Drop>(
    link: &mut Link<R, W>,
    subscriber: &mut Subscriber<P, C>,
    piece: &[u8],
    now: i64,
) -> Result<usize, FollowFault>
    requires sound { link.old.write_failed ≡ false }
    requires unclosed { subscriber.old.framing.closed ≡ false }
    ensures unwritten { (result ≡ Err FollowFault.Write) ↔ (link.new.write_failed ≡ true) }
    ensures unread { IfErr result (λ fault. fault ≢ FollowFault.Read) }
    ensures own { IfErr result (IsOfFollowingOver P.may_fail) }
    ensures read { (link.new.reader ≡ link.old.reader)
        × (link.new.read_failed ≡ link.old.read_failed) × (link.new.reads ≡ link.old.reads) }
    ensures some { IfOk result (λ n. (n ≤ length piece.now) × (0 < length piece.now → 0 < n)) }
    ensures followed { C.is_honest subscriber.new.applied.store →
        C.serves subscriber.old.applied.store →
        IfOk result (λ n. IsFollowedPart C.holds C.place C.reopens C.serves C.tally
        (W.contents link.old.writer) (W.contents link.new.writer)
        (take n piece.now) subscriber.old subscriber.new) }
    ensures stopped { C.is_honest subscriber.new.applied.store →
        C.serves subscriber.old.applied.store →
        IfErr result (StopsFront C.holds C.place C.reopens C.serves C.tally
        (W.contents link.old.writer) (W.contents link.new.writer) piece.now subscriber.old
        subscriber.new) }
    ensures sound { OnOk result (link.new.write_failed ≡ false) }
    ensures unclosed { OnOk result (subscriber.new.framing.closed ≡ false) }
    ensures still_serves { C.is_honest subscriber.new.applied.store →
        C.serves subscriber.old.applied.store →
        OnOk result (C.serves subscriber.new.applied.store) }
    ensures honest { C.is_honest subscriber.new.applied.store →
        C.is_honest subscriber.old.applied.store }
{
    let told = subscriber.confirmed();
    let taken = match subscriber.feed_session(piece, now) {
        Ok(taken) => taken,
        Err(fault) => return Err(FollowFault::Stream(fault)),
    };
    let ends = subscriber.has_ended();
    if let Err(fault) = announce(subscriber, told, now) {
        return Err(FollowFault::Stream(fault));
    }
    match tell(link, subscriber, ends) {
        Ok(()) => Ok(taken),
        Err(fault) => Err(fault),
    }
}

// Follows a piece of what comes, in which sessions may end and begin.
fn follow_piece<
    R: Read + Drop,
    W: Write + Drop,
    K: Clock,
    P: Loads<C> + Drop,
    C: ReplicaStore + Drop,
>(
    link: &mut Link<R, W>,
    clock: &mut K,
    subscriber: &mut Subscriber<P, C>,
    piece: &[u8],
) -> Result<(), FollowFault>
    requires sound { link.old.write_failed ≡ false }
    requires unclosed { subscriber.old.framing.closed ≡ false }
    ensures unwritten { (result ≡ Err FollowFault.Write) ↔ (link.new.write_failed ≡ true) }
    ensures unread { IfErr result (λ fault. fault ≢ FollowFault.Read) }
    ensures own { IfErr result (IsOfFollowingOver P.may_fail) }
    ensures read { (link.new.reader ≡ link.old.reader)
        × (link.new.read_failed ≡ link.old.read_failed) × (link.new.reads ≡ link.old.reads) }
    ensures followed { C.is_honest subscriber.new.applied.store →
        C.serves subscriber.old.applied.store →
        OnOk result (FollowsPiece C.holds C.place C.reopens C.serves C.tally
        (W.contents link.old.writer) (W.contents link.new.writer) piece.now subscriber.old
        subscriber.new) }
    ensures stopped { C.is_honest subscriber.new.applied.store →
        C.serves subscriber.old.applied.store →
        IfErr result (StopsPiece C.holds C.place C.reopens C.serves C.tally
        (W.contents link.old.writer) (W.contents link.new.writer) piece.now subscriber.old
        subscriber.new) }
    ensures sound { OnOk result (link.new.write_failed ≡ false) }
    ensures unclosed { OnOk result (subscriber.new.framing.closed ≡ false) }
    ensures still_serves { C.is_honest subscriber.new.applied.store →
        C.serves subscriber.old.applied.store →
        OnOk result (C.serves subscriber.new.applied.store) }
    ensures honest { C.is_honest subscriber.new.applied.store →
        C.is_honest subscriber.old.applied.store }
{
    let mut taken = 0;
    while taken < piece.len() {
        match follow_part(link, subscriber, &piece[taken..], clock.now()) {
            Ok(count) => taken += count,
            Err(fault) => return Err(fault),
        }
    }
    Ok(())
}

// Reads to the end, or 2^64 - 1 times, and follows each piece as it comes.
fn follow_reads<
    R: Read + Drop,
    W: Write + Drop,
    K: Clock,
    P: Loads<C> + Drop,
    C: ReplicaStore + Drop,
>(
    link: &mut Link<R, W>,
    clock: &mut K,
    subscriber: &mut Subscriber<P, C>,
    room: &mut [u8],
) -> Result<(), FollowFault>
    requires room { length room.old ≡ piece_len }
    requires readable { link.old.read_failed ≡ false }
    requires writable { link.old.write_failed ≡ false }
    requires unclosed { subscriber.old.framing.closed ≡ false }
    ensures read { (result ≡ Err FollowFault.Read) ↔ (link.new.read_failed ≡ true) }
    ensures unwritten { (result ≡ Err FollowFault.Write) ↔ (link.new.write_failed ≡ true) }
    ensures own { IfErr result (IsOfFollowingOver P.may_fail) }
    ensures followed { C.is_honest subscriber.new.applied.store →
        C.serves subscriber.old.applied.store →
        LiveEnds C.holds C.place C.reopens C.serves C.tally (R.remaining link.old.reader)
        (R.remaining link.new.reader) link.new.reads (W.contents link.old.writer)
        (W.contents link.new.writer) subscriber.old subscriber.new (ended_by result) }
    ensures honest { C.is_honest subscriber.new.applied.store →
        C.is_honest subscriber.old.applied.store }
{
    while link.reads < u64::MAX {
        let Some(count) = link.read_piece(room) else {
            return Err(FollowFault::Read);
        };
        if count == 0 {
            return Ok(());
        }
        link.reads += 1;
        if let Err(fault) = follow_piece(link, clock, subscriber, &room[..count]) {
            return Err(fault);
        }
    }
    Ok(())
}

/// Follows a server: reads the frames of sessions as they come, feeds each piece of at most 1 MiB,
/// and tells the server then what is stored. A session ends with its CopyDone, and what follows is
/// the next one's, as after a disconnection. It ends with the bytes, or after 2^64 - 1 reads.
///
/// The first status is that of the opened store. After each piece, and at the end of each session,
/// it writes the replies to keepalives that asked for one, and a status where confirmed has moved
/// since the last one, and flushes. So what the writer gets is statuses alone, cut off where a
/// write fails, each of which confirms as flushed what it confirms as applied, and no less than the
/// one before it.
///
/// Let the sessions be some that a server sends of a history, and let the rows be the history's
/// before. Then at the start and after each part the store holds exactly the history's rows up to
/// its position; and every transaction that changes rows and ends by what a status confirms is in
/// it when that status is written, and in whatever a crash leaves then, which holds exactly the
/// history's rows up to a position of its own. So it is of each front of the parts that is of a
/// history, whatever comes after it. Where sessions are of a history that have all that was taken,
/// also of the part that stopped it (`parts_have_what_is_taken`), so it is of what is told of that
/// part, if but a front of it is written, of a crash at the end and, while it serves, of the store;
/// and then to its tally come exactly the transactions between its positions before and after the
/// call, one by one. The premises are those of `follow`: nobody else writes the store's files, and
/// the disk gives back what was written.
///
/// # Errors
///
/// `Read` exactly if a read failed, `Write` exactly if a write failed; then nothing more is read
/// and nothing more is confirmed. Any other fault is that of feeding a part, of which nothing is
/// told, also where the store has shut; or out of memory.
///
/// PostgreSQL documentation, Streaming Replication Protocol, START_REPLICATION and Standby status
/// update.
pub fn follow_live<
    R: Read + Drop,
    W: Write + Drop,
    K: Clock,
    P: Loads<C> + Drop,
    C: ReplicaStore + Drop,
>(
    alloc: Global,
    link: &mut Link<R, W>,
    clock: &mut K,
    subscriber: &mut Subscriber<P, C>,
) -> Result<(), FollowFault>
    requires readable { link.old.read_failed ≡ false }
    requires writable { link.old.write_failed ≡ false }
    ensures read { (result ≡ Err FollowFault.Read) ↔ (link.new.read_failed ≡ true) }
    ensures unwritten { (result ≡ Err FollowFault.Write) ↔ (link.new.write_failed ≡ true) }
    ensures own { IfErr result (IsOfFollowingOver P.may_fail) }
    ensures followed { C.is_honest subscriber.new.applied.store →
        C.serves subscriber.old.applied.store →
        FollowsLive C.holds C.place C.reopens C.serves C.tally (R.remaining link.old.reader)
        (R.remaining link.new.reader) link.new.reads (W.contents link.old.writer)
        (W.contents link.new.writer) subscriber.old subscriber.new (ended_by result) }
    ensures honest { C.is_honest subscriber.new.applied.store →
        C.is_honest subscriber.old.applied.store }
{
    let mut room = match room_for(alloc, PIECE_LEN) {
        Ok(room) => room,
        Err(AllocError) => return Err(FollowFault::Stream(Fault::Memory)),
    };
    // its position tells what a crash leaves at the start
    let _start = subscriber.position();
    if let Err(fault) = greet(link, subscriber, clock.now()) {
        return Err(fault);
    }
    follow_reads(link, clock, subscriber, room.as_mut_slice())
}
