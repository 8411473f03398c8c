//! One file in memory.

ghost use Rattle.std.specs.Prelude.{◌≡◌, [], length, false, true, refl, is_ok, OnOk};
ghost use Rattle.sqlite_disk.specs.Disk.{CountsFault, Holds, Torn};
ghost use Rattle.sqlite_disk.specs.Refusal.{finds_no_room};

use sqlite_disk::{Disk, Tally};
use std::alloc::{AllocError, Global};
use std::io;

/// A file in memory. What is written is durable at once, so a crash would leave what a read shows.
///
/// A call fails where memory runs out, or where it reads past the end; the file is then as before,
/// or has some of the bytes of a write that failed. The failed writes are counted, as a `Disk` has
/// to.
#[derive(Drop)]
pub struct MemoryDisk {
    bytes: Vec<u8>,
    faults: u64,
}

impl MemoryDisk {
    ghost use Rattle.pgmemory.specs.Content.{content};

    /// An empty file.
    pub fn new(alloc: Global) -> MemoryDisk
        ensures { content result ≡ [] }
    {
        MemoryDisk {
            bytes: Vec::new(alloc),
            faults: 0,
        }
    }

    /// All bytes of the file.
    pub fn bytes(&self) -> &[u8]
        ensures { result.now ≡ content self.now }
    {
        self.bytes.as_slice()
    }
}

impl Disk for MemoryDisk {
    ghost seen = { λ disk. disk.bytes.items };

    ghost may_leave = { λ disk left. left ≡ disk.bytes.items };

    ghost is_usable = { λ _. true };

    ghost faults = { λ disk. disk.faults };

    ghost tally_of = { λ _. record { caught = 0; refused = 0 } };

    ghost is_clean = { λ _. true };

    ghost key_of = { λ _. 0 };

    ghost is_fair = { λ _ _. true };

    ghost seen_may_stay = { λ _. refl };

    ghost fair_if_clean = { λ _ _ _. refl };

    fn mixes(&self) -> bool {
        false
    }

    // Nothing but this disk writes its bytes, so their digests need no secret.
    fn key(&self) -> u64 {
        0
    }

    fn tally(&self) -> Tally {
        Tally {
            caught: 0,
            refused: 0,
        }
    }

    fn may_be_used(&self) -> bool {
        true
    }

    fn len(&mut self) -> io::Result<usize> {
        Ok(self.bytes.len())
    }

    fn read_at(&mut self, at: usize, buf: &mut [u8]) -> io::Result<()> {
        let len = self.bytes.len();
        if at > len || buf.len() > len - at {
            return Err(io::ErrorKind::UnexpectedEof.into());
        }
        buf.copy_from_slice(&self.bytes[at..at + buf.len()]);
        Ok(())
    }

    // The caller knows the digest of what was written, and what was written is what a read finds.
    fn read_checked(&mut self, _key: u64, _want: u64, at: usize, buf: &mut [u8]) -> io::Result<()> {
        self.read_at(at, buf)
    }

    fn write_at(&mut self, at: usize, bytes: &[u8]) -> io::Result<()> {
        count_failure(&mut self.faults, put_at(&mut self.bytes, at, bytes))
    }

    fn set_len(&mut self, len: usize) -> io::Result<()> {
        count_failure(&mut self.faults, self.bytes.resize(len, 0))
    }

    fn sync(&mut self) -> io::Result<()> {
        Ok(())
    }
}

/// Writes the bytes at the offset. A gap before it is filled with zeros.
fn put_at(file: &mut Vec<u8>, at: usize, bytes: &[u8]) -> Result<(), AllocError>
    ensures written { OnOk result (Holds file.new.items at bytes.now) }
    ensures others { Torn at (length bytes.now) file.old.items file.new.items }
{
    let end = at.checked_add(bytes.len()).ok_or(AllocError)?;
    if file.len() < end {
        file.resize(end, 0)?;
    }
    file[at..end].copy_from_slice(bytes);
    Ok(())
}

/// The outcome as the error of a disk. The count stops at its greatest value.
fn count_failure(faults: &mut u64, outcome: Result<(), AllocError>) -> io::Result<()>
    ensures same { is_ok result ≡ is_ok outcome }
    ensures room { finds_no_room result ≡ false }
    ensures counted { CountsFault result faults.old faults.new }
{
    if outcome.is_err() {
        *faults = faults.saturating_add(1);
        return Err(io::ErrorKind::OutOfMemory.into());
    }
    Ok(())
}
