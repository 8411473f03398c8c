//! A file in memory.

use pgpast::NotesFile;
use std::alloc::Global;
use std::io;
use std::io::ErrorKind;

/// Bytes, which can be written so many times.
#[derive(Drop)]
pub struct MemoryFile {
    pub bytes: Vec<u8>,
    pub writes: u32,
}

impl MemoryFile {
    pub fn holding(bytes: Vec<u8>) -> MemoryFile {
        MemoryFile {
            bytes,
            writes: u32::MAX,
        }
    }
}

/// Puts a byte where one lies, or behind the last one.
fn put(bytes: &mut Vec<u8>, at: usize, byte: u8) -> io::Result<()> {
    if let Some(old) = bytes.get_mut(at) {
        *old = byte;
        return Ok(());
    }
    match bytes.push(byte) {
        Ok(()) => Ok(()),
        Err(_) => Err(ErrorKind::OutOfMemory.into()),
    }
}

impl NotesFile for MemoryFile {
    ghost holds = { λ _ _. ⊥ };

    fn read_all(&mut self, alloc: Global) -> io::Result<Vec<u8>> {
        match Vec::from_slice(alloc, self.bytes.as_slice()) {
            Ok(bytes) => Ok(bytes),
            Err(_) => Err(ErrorKind::OutOfMemory.into()),
        }
    }

    fn write_at(&mut self, bytes: &[u8], at: u64) -> io::Result<()> {
        let Some(left) = self.writes.checked_sub(1) else {
            return Err(ErrorKind::StorageFull.into());
        };
        self.writes = left;
        let mut place = at as usize;
        for byte in bytes {
            put(&mut self.bytes, place, *byte)?;
            place = place.saturating_add(1);
        }
        Ok(())
    }

    fn clear(&mut self) -> io::Result<()> {
        self.bytes.clear();
        Ok(())
    }
}
