//! A noted commit, as a file has it.

ghost use Rattle.std.specs.Prelude.{◌≡◌, ◌≢◌, ◌++◌, ◌<◌, ℕ, [], length, IfOk, IfSome, OnOk};
ghost use Rattle.std.specs.Prelude.{MatchOption, None};
ghost use Rattle.std.specs.Int.{to_be_bytes, w32, w64};
ghost use Rattle.pgcrc.specs.Crc.{crc32};
ghost use Rattle.pgpast.specs.Records.{IsFit, IsRecord, body, encoded};

use pgcrc::Crc32;
use pgrepeats::{Commit, Digest};
use std::alloc::AllocError;

/// How many bytes a record has.
pub(crate) const RECORD_LEN: usize = 48;

/// How many of them the CRC is of.
const BODY_LEN: usize = 44;

/// A commit, the CRC of the record of the one that was noted before it, 0 of none, and the CRC-32
/// of these.
#[derive(Clone, Copy, Debug, PartialEq, Eq)]
pub(crate) struct Record {
    pub(crate) commit: Commit,
    pub(crate) before: u32,
    pub(crate) crc: u32,
}

fn crc_of(bytes: &[u8]) -> u32
    ensures { result ≡ crc32 bytes.now }
{
    let mut crc = Crc32::new();
    crc.update(bytes);
    crc.value()
}

// The number of the first eight bytes, big-endian, and the bytes behind them.
pub(crate) fn long(bytes: &[u8]) -> Option<(u64, &[u8])>
    ensures { MatchOption result (length bytes.now < 8)
        (λ it. bytes.now ≡ to_be_bytes w64 it.0 ++ it.1.now) }
{
    match bytes.split_first_chunk::<8>() {
        None => None,
        Some((first, others)) => Some((u64::from_be_bytes(*first), others)),
    }
}

// The same of four bytes.
fn short(bytes: &[u8]) -> Option<(u32, &[u8])>
    ensures { MatchOption result (length bytes.now < 4)
        (λ it. bytes.now ≡ to_be_bytes w32 it.0 ++ it.1.now) }
{
    match bytes.split_first_chunk::<4>() {
        None => None,
        Some((first, others)) => Some((u32::from_be_bytes(*first), others)),
    }
}

impl Record {
    /// Writes the record of a commit, behind the one with this CRC, in place of all bytes.
    pub(crate) fn write(
        bytes: &mut Vec<u8>,
        commit: Commit,
        before: u32,
    ) -> Result<Record, AllocError>
        ensures commit { IfOk result (λ it. (it.commit ≡ commit) × (it.before ≡ before)) }
        ensures is { IfOk result IsRecord }
        ensures bytes { IfOk result (λ it. bytes.new.items ≡ encoded it) }
    {
        let mut record = Record {
            commit,
            before,
            crc: 0,
        };
        bytes.clear();
        record.write_body(bytes)?;
        record.crc = crc_of(bytes.as_slice());
        bytes.extend_from_slice(&record.crc.to_be_bytes())?;
        Ok(record)
    }

    // Writes what the CRC is of.
    fn write_body(&self, bytes: &mut Vec<u8>) -> Result<(), AllocError>
        requires { bytes.old.items ≡ [] }
        ensures { OnOk result (bytes.new.items ≡ body self.now) }
    {
        let (commit, digest) = (self.commit, self.commit.digest);
        bytes.extend_from_slice(&commit.end.to_be_bytes())?;
        bytes.extend_from_slice(&commit.lsn.to_be_bytes())?;
        bytes.extend_from_slice(&commit.xid.to_be_bytes())?;
        bytes.extend_from_slice(&commit.time.cast_unsigned().to_be_bytes())?;
        bytes.extend_from_slice(&digest.changes.to_be_bytes())?;
        bytes.extend_from_slice(&digest.crc.to_be_bytes())?;
        bytes.extend_from_slice(&self.before.to_be_bytes())
    }

    /// The record with these bytes, if they are one's.
    pub(crate) fn of_bytes(bytes: &[u8]) -> Option<Record>
        ensures some { IfSome result (λ it. IsRecord it × (bytes.now ≡ encoded it)) }
        ensures fit { IfSome result IsFit }
        ensures none { result ≡ None → (r : Record) → IsRecord r → bytes.now ≢ encoded r }
    {
        let record = fields_of(bytes)?;
        if crc_of(&bytes[..BODY_LEN]) != record.crc {
            return None;
        }
        Some(record)
    }
}

// The fields that these bytes are, if there are as many as a record has.
fn fields_of(bytes: &[u8]) -> Option<Record>
    ensures { MatchOption result (length bytes.now ≢ 48) (λ it. bytes.now ≡ encoded it) }
{
    let (end, rest) = long(bytes)?;
    let (lsn, rest) = long(rest)?;
    let (xid, rest) = short(rest)?;
    let (time, rest) = long(rest)?;
    let (changes, rest) = long(rest)?;
    let (crc, rest) = short(rest)?;
    let (before, rest) = short(rest)?;
    let (own, rest) = short(rest)?;
    if !rest.is_empty() {
        return None;
    }
    Some(Record {
        commit: Commit {
            end,
            lsn,
            xid,
            time: time.cast_signed(),
            digest: Digest { changes, crc },
        },
        before,
        crc: own,
    })
}
