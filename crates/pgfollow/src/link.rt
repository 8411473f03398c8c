//! The two ends of a connection: what a server sends is read from one, and what it is sent is
//! written to the other.

ghost use Rattle.std.specs.Prelude.{◌≡◌, ◌≤◌, ◌<◌, ℕ, List, take, false, true, None, length, OnOk};
ghost use Rattle.std.specs.Prelude.{OnErr, IfErr, IfSome};
ghost use Rattle.std.specs.Io.KnownBytes.{Appends, Consumes, IsAtEnd, Keeps};
ghost use Rattle.pgfollow.specs.Live.{IsFront};

use crate::fault::FollowFault;
use std::io::{Read, Write};

/// A reader of a server's bytes and a writer of statuses, which know whether a read or a write of
/// theirs failed.
#[derive(Drop)]
pub struct Link<R: Drop, W: Drop> {
    /// What the server's bytes are read from. Who reads of it before the server is followed takes
    /// these bytes away.
    pub reader: R,
    pub(crate) writer: W,
    pub(crate) read_failed: bool,
    pub(crate) write_failed: bool,
    pub(crate) reads: u64,
}

impl<R: Read + Drop, W: Write + Drop> Link<R, W> {
    /// A link of which nothing is read or written yet.
    pub fn new(reader: R, writer: W) -> Link<R, W>
        ensures { result ≡ record {
          reader = reader;
          writer = writer;
          read_failed = false;
          write_failed = false;
          reads = 0;
        } }
    {
        Link {
            reader,
            writer,
            read_failed: false,
            write_failed: false,
            reads: 0,
        }
    }

    /// The writer.
    pub fn writer(&self) -> &W
        ensures { result.now ≡ self.now.writer }
    {
        &self.writer
    }

    // Reads once, at most as many bytes as `room` holds. 0 bytes are the end, and None is a read
    // that failed.
    pub(crate) fn read_piece(&mut self, room: &mut [u8]) -> Option<usize>
        requires room { 0 < length room.old }
        requires sound { self.old.read_failed ≡ false }
        ensures some { IfSome result (λ n. (n ≤ length room.new)
            × Consumes (R.remaining self.old.reader) (R.remaining self.new.reader) (take n room.new)
            × (n ≡ 0 → IsAtEnd (R.remaining self.new.reader)) × (self.new.read_failed ≡ false)) }
        ensures none { result ≡ None → (self.new.read_failed ≡ true)
            × Keeps (R.remaining self.old.reader) (R.remaining self.new.reader) }
        ensures reads { self.new.reads ≡ self.old.reads }
        ensures written { (self.new.writer ≡ self.old.writer)
            × (self.new.write_failed ≡ self.old.write_failed) }
        ensures length { length room.new ≡ length room.old }
    {
        match self.reader.read(room) {
            Ok(count) => Some(count),
            Err(_) => {
                self.read_failed = true;
                None
            }
        }
    }

    // Writes all these bytes, and what a buffer still holds.
    pub(crate) fn write_bytes(&mut self, bytes: &[u8]) -> Result<(), FollowFault>
        requires sound { self.old.write_failed ≡ false }
        ensures unwritten { IfErr result (λ fault. (fault ≡ FollowFault.Write)
            × (self.new.write_failed ≡ true)) }
        ensures written { OnOk result ((self.new.write_failed ≡ false)
            × Appends (W.contents self.old.writer) (W.contents self.new.writer) bytes.now) }
        ensures part { OnErr result ((front : List ℕ) × IsFront front bytes.now
            × Appends (W.contents self.old.writer) (W.contents self.new.writer) front) }
        ensures read { (self.new.reader ≡ self.old.reader)
            × (self.new.read_failed ≡ self.old.read_failed) × (self.new.reads ≡ self.old.reads) }
    {
        let mut rest = bytes;
        while !rest.is_empty() {
            match self.writer.write(rest) {
                Ok(count) if count > 0 => rest = &rest[count..],
                _ => {
                    self.write_failed = true;
                    return Err(FollowFault::Write);
                }
            }
        }
        match self.writer.flush() {
            Ok(()) => Ok(()),
            Err(_) => {
                self.write_failed = true;
                Err(FollowFault::Write)
            }
        }
    }
}
