//! A folder of segments in memory, which stops after so many calls.

ghost use Rattle.std.specs.Prelude.{IfOk, IsTrue};

use pgfeed::{FeedFault, Folder};
use pglsn::Lsn;
use sqlite_disk::{Disk, Fuse, Memory};
use std::alloc::{AllocError, Global};

/// Where a run stops: from then on each call fails, and changes nothing.
#[derive(Clone, Copy, Debug, PartialEq, Eq)]
pub(crate) enum Stop {
    /// It doesn't.
    Never,
    /// After so many calls of the folder.
    Folder(u64),
    /// After so many calls of the file that is opened or created as number so many, from 0.
    File(usize, u64),
}

/// A segment: where it begins, and its bytes.
pub(crate) type Stored = (Lsn, Vec<u8>);

/// A folder in memory.
#[derive(Drop)]
pub(crate) struct MemoryFolder {
    alloc: Global,
    segments: Vec<Stored>,
    stop: Stop,
    calls: u64,
    given: usize,
}

impl MemoryFolder {
    /// A folder with these segments, by rising bases.
    pub(crate) fn of(alloc: Global, segments: Vec<Stored>, stop: Stop) -> MemoryFolder {
        MemoryFolder {
            alloc,
            segments,
            stop,
            calls: 0,
            given: 0,
        }
    }

    pub(crate) fn into_segments(self) -> Vec<Stored> {
        self.segments
    }

    /// Counts a call of the folder, unless it has stopped.
    fn called(&mut self) -> Result<(), FeedFault> {
        if self.stop == Stop::Folder(self.calls) {
            return Err(FeedFault::Refused);
        }
        self.calls = self.calls.saturating_add(1);
        Ok(())
    }

    /// A disk with these bytes, which is the next that is given.
    fn give(&mut self, bytes: &[u8]) -> Result<Fuse<Memory>, FeedFault>
        ensures { IfOk result (λ file. IsTrue (⟦<Fuse<Memory> as Disk>⟧.is_usable file)) }
    {
        let mut disk = Memory::new(self.alloc);
        if !bytes.is_empty() && disk.write_at(0, bytes).is_err() {
            return Err(FeedFault::Memory);
        }
        let calls = match self.stop {
            Stop::File(number, calls) if number == self.given => calls,
            _ => u64::MAX,
        };
        self.given = self.given.saturating_add(1);
        let file = Fuse::new(disk, calls);
        if !file.may_be_used() {
            return Err(FeedFault::Refused);
        }
        Ok(file)
    }

    fn names(&self) -> Result<Vec<Lsn>, AllocError> {
        let mut bases = Vec::new(self.alloc);
        for (base, _) in self.segments.iter() {
            bases.push(*base)?;
        }
        Ok(bases)
    }

    /// Gives the segment that begins there these bytes.
    fn put(&mut self, base: Lsn, bytes: &[u8]) -> Result<(), AllocError> {
        let bytes = Vec::from_slice(self.alloc, bytes)?;
        self.segments.retain(|segment| segment.0 != base);
        self.segments.push((base, bytes))?;
        Ok(())
    }

    fn bytes_of(&self, base: Lsn) -> Result<Option<Vec<u8>>, AllocError> {
        for (other, bytes) in self.segments.iter() {
            if *other == base {
                return Ok(Some(bytes.clone()?));
            }
        }
        Ok(None)
    }

    /// Keeps these bytes as those of a segment that is there.
    fn keep(&mut self, base: Lsn, bytes: Vec<u8>) {
        for segment in self.segments.iter_mut() {
            if segment.0 == base {
                segment.1 = bytes;
                return;
            }
        }
    }
}

/// It stops without a word, so no clause is said of its answers.
impl Folder for MemoryFolder {
    ghost use Rattle.std.specs.Prelude.{[]};

    type File = Fuse<Memory>;

    ghost is_true = { λ _. ⊥ };

    ghost places = { λ _. [] };

    ghost has = { λ _ _ _. ⊥ };

    fn bases(&mut self) -> Result<Vec<Lsn>, FeedFault> {
        self.called()?;
        Ok(self.names()?)
    }

    fn open(&mut self, base: Lsn) -> Result<Fuse<Memory>, FeedFault> {
        self.called()?;
        let Some(bytes) = self.bytes_of(base)? else {
            return Err(FeedFault::Refused);
        };
        self.give(&bytes)
    }

    fn make(&mut self) -> Result<Fuse<Memory>, FeedFault> {
        self.called()?;
        self.give(&[])
    }

    fn name(&mut self, base: Lsn, file: &Fuse<Memory>) -> Result<(), FeedFault> {
        self.called()?;
        Ok(self.put(base, file.inner().bytes())?)
    }

    fn remove(&mut self, base: Lsn) -> Result<(), FeedFault> {
        self.called()?;
        self.segments.retain(|segment| segment.0 != base);
        Ok(())
    }

    fn close(&mut self, base: Lsn, file: Fuse<Memory>) {
        if let Ok(bytes) = Vec::from_slice(self.alloc, file.inner().bytes()) {
            self.keep(base, bytes);
        }
    }
}
