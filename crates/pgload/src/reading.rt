//! A load from a reader, of which nothing is read that follows the load.
//!
//! PostgreSQL documentation, Message Formats, CopyData.

ghost use Rattle.std.specs.Prelude.{◌≡◌, ◌≢◌, ◌≤◌, ◌+◌, ◌⊎◌, ◌∷◌, [], ℕ, List, false, Err};
ghost use Rattle.std.specs.Prelude.{length, IfErr, MatchOption, MatchResult, OnOk};
ghost use Rattle.std.specs.FinMap as map;
ghost use Rattle.std.specs.Int.{w32, to_be_bytes};
ghost use Rattle.std.specs.Io.KnownBytes.{Consumes};
ghost use Rattle.pgwire.specs.Deframed.{fresh};
ghost use Rattle.pgwire.specs.Frames.{CopyData, CopyDone, IsFramingFault, copy_data_tag, frame};
ghost use Rattle.pgload.specs.Inputs.{HasRead};
ghost use Rattle.pgload.specs.Readers.{IsNoPayload, IsReadLoad, ReadsFrame, StopsReading};

use crate::fault::{InputFault, LoadFault};
use crate::input::{Step, take_payload};
use crate::limits::Limits;
use crate::load::Load;
use byteorder::{BigEndian, ByteOrder};
use pgapply::ReplicaStore;
use pglsn::Lsn;
use pgwire::{Deframer, Frame, WireFault};
use std::alloc::Global;
use std::io::{ErrorKind, Read};

/// The bytes before a payload: a letter, and the length, which counts itself.
const HEADER_LEN: usize = 5;

// Fills the room with the next bytes.
fn fill<R: Read>(reader: &mut R, room: &mut [u8]) -> Result<(), InputFault>
    ensures read { OnOk result
        (Consumes (R.remaining reader.old) (R.remaining reader.new) room.new) }
    ensures length { length room.new ≡ length room.old }
    ensures fault { IfErr result (λ fault. (fault ≡ InputFault.CutInput)
        ⊎ (fault ≡ InputFault.Read)) }
{
    match reader.read_exact(room) {
        Ok(()) => Ok(()),
        Err(error) if error.kind() == ErrorKind::UnexpectedEof => Err(InputFault::CutInput),
        Err(_) => Err(InputFault::Read),
    }
}

// How many bytes of payload follow this header, None where it is a CopyDone.
fn payload_len(alloc: Global, header: &[u8], max_frame: u32) -> Result<Option<usize>, WireFault>
    requires header { length header.now ≡ 5 }
    requires max_frame { max_frame ≤ 2147483643 }
    ensures { MatchResult result
        (λ len. MatchOption len (header.now ≡ frame CopyDone)
        (λ n. (header.now ≡ copy_data_tag ∷ to_be_bytes w32 (n + 4)) × (n ≤ max_frame)))
        (λ fault. IsFramingFault max_frame false header.now fault) }
{
    let mut deframer = Deframer::new(alloc, max_frame);
    deframer.feed(header)?;
    if let Some(Frame::Done) = deframer.whole() {
        return Ok(None);
    }
    Ok(Some(BigEndian::read_u32(&header[1..]) as usize - 4))
}

// Gives the room this length.
fn fit(room: &mut Vec<u8>, len: usize) -> Result<(), InputFault>
    ensures len { OnOk result (length room.new.items ≡ len) }
    ensures memory { IfErr result (λ fault. fault ≡ InputFault.Load LoadFault.Memory) }
{
    if room.resize(len, 0).is_err() {
        return Err(InputFault::Load(LoadFault::Memory));
    }
    Ok(())
}

// Fills the room, as long as it is, with the next bytes.
fn fill_room<R: Read>(reader: &mut R, room: &mut Vec<u8>) -> Result<(), InputFault>
    ensures read { OnOk result
        (Consumes (R.remaining reader.old) (R.remaining reader.new) room.new.items) }
    ensures length { length room.new.items ≡ length room.old.items }
    ensures fault { IfErr result (λ fault. (fault ≡ InputFault.CutInput)
        ⊎ (fault ≡ InputFault.Read)) }
{
    fill(reader, room.as_mut_slice())
}

// Reads a frame of CopyData. The room has its payload then.
fn read_payload<R: Read>(
    alloc: Global,
    reader: &mut R,
    max_frame: u32,
    room: &mut Vec<u8>,
) -> Result<(), InputFault>
    requires max_frame { max_frame ≤ 2147483643 }
    ensures read { OnOk result ((length room.new.items ≤ max_frame)
        × Consumes (R.remaining reader.old) (R.remaining reader.new)
        (frame (CopyData room.new.items))) }
    ensures fault { IfErr result (IsNoPayload max_frame (R.remaining reader.old)
        (R.remaining reader.new)) }
{
    let mut header = [0; HEADER_LEN];
    fill(reader, &mut header)?;
    let len = match payload_len(alloc, &header, max_frame) {
        Ok(Some(len)) => len,
        Ok(None) => return Err(InputFault::Load(LoadFault::BadInput)),
        Err(fault) => return Err(InputFault::Load(LoadFault::from(fault))),
    };
    fit(room, len)?;
    fill_room(reader, room)
}

// Reads a frame and handles it.
fn read_frame<C: ReplicaStore + Drop, R: Read>(
    alloc: Global,
    load: &mut Load<C>,
    reader: &mut R,
    max_frame: u32,
    room: &mut Vec<u8>,
) -> Result<Step, InputFault>
    requires max_frame { max_frame ≤ 2147483643 }
    ensures reads { (bytes : List ℕ) → HasRead C.holds C.place C.reopens C.serves C.is_honest
        load.old.limits.max_line bytes (fresh max_frame) load.old.store load.old.table
        load.old.closed →
        ReadsFrame C.holds C.place C.reopens C.serves C.is_honest load.old.limits.max_line
        max_frame bytes (R.remaining reader.old) (R.remaining reader.new) load.new.store
        load.new.table load.new.closed result }
    ensures limits { load.new.limits ≡ load.old.limits }
    ensures honest { C.is_honest load.new.store → C.is_honest load.old.store }
{
    read_payload(alloc, reader, max_frame, room)?;
    match take_payload(alloc, load, room.as_slice()) {
        Ok(step) => Ok(step),
        Err(fault) => Err(InputFault::Load(fault)),
    }
}

// Reads frames, and handles each, until one has ended the load.
fn read_frames<C: ReplicaStore + Drop, R: Read>(
    alloc: Global,
    load: &mut Load<C>,
    reader: &mut R,
    max_frame: u32,
) -> Result<Lsn, InputFault>
    requires max_frame { max_frame ≤ 2147483643 }
    ensures reads { HasRead C.holds C.place C.reopens C.serves C.is_honest
        load.old.limits.max_line [] (fresh max_frame) load.old.store load.old.table
        load.old.closed →
        MatchResult result
        (λ point. IsReadLoad C.holds C.place C.reopens C.serves C.is_honest
        load.old.limits.max_line max_frame (R.remaining reader.old) (R.remaining reader.new) point
        load.new.store)
        (λ fault. StopsReading C.holds C.place C.reopens C.serves C.is_honest
        load.old.limits.max_line max_frame (R.remaining reader.old) (R.remaining reader.new) fault
        load.new.store) }
    ensures honest { C.is_honest load.new.store → C.is_honest load.old.store }
{
    let mut room = Vec::new(alloc);
    let mut count = 0u64;
    while count < u64::MAX {
        let step = read_frame(alloc, load, reader, max_frame, &mut room)?;
        if let Step::Ended(point) = step {
            return Ok(point);
        }
        count += 1;
    }
    Err(InputFault::Read)
}

/// Loads tables into a store, which is to be new, from frames as `Loading` takes them. They are
/// read to the load's end and not a byte further: what follows is no part of it. Returns the point
/// at which the load has ended, and the store.
///
/// Until then, and after a fault, the store's position is none of a server's (`position`). So is
/// that of whatever a crash leaves, unless it holds the whole load (`crash`).
///
/// # Errors
///
/// That of the first frame that has one, `CutInput` where the reader ends before the load, `Read`
/// where a read failed, or after 2^64 - 1 frames. At any other position than 0/0 nothing is read.
pub fn load_from<C: ReplicaStore + Drop, R: Read>(
    alloc: Global,
    store: C,
    limits: Limits,
    max_frame: u32,
    reader: &mut R,
) -> (Result<Lsn, InputFault>, C)
    requires max_frame { max_frame ≤ 2147483643 }
    ensures new { OnOk result.0 (C.place store ≡ 0) }
    ensures not_new { C.place store ≢ 0 → (result.0 ≡ Err (InputFault.Load LoadFault.NotNew))
        × (result.1 ≡ store) × (reader.new ≡ reader.old) }
    ensures reads { C.serves store → C.holds store map.empty → C.place store ≡ 0 →
        MatchResult result.0
        (λ point. IsReadLoad C.holds C.place C.reopens C.serves C.is_honest limits.max_line
        max_frame (R.remaining reader.old) (R.remaining reader.new) point result.1)
        (λ fault. StopsReading C.holds C.place C.reopens C.serves C.is_honest limits.max_line
        max_frame (R.remaining reader.old) (R.remaining reader.new) fault result.1) }
    ensures honest { C.is_honest result.1 → C.is_honest store }
{
    let mut load = Load::new(alloc, store, limits);
    if let Some(fault) = load.closed() {
        return (Err(InputFault::Load(fault)), load.into_store());
    }
    let ended = read_frames(alloc, &mut load, reader, max_frame);
    (ended, load.into_store())
}
