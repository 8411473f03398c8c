//! The digest of a list of changes: it is short, and lists that differ have different ones but for
//! a collision of CRC-32.

ghost use Rattle.std.specs.Prelude.{◌≡◌, ◌++◌};
ghost use Rattle.pgcrc.specs.Crc.{crc32};
ghost use Rattle.pgrepeats.specs.Digests.{change_of, no_changes, with_change};

use pgcrc::Crc32;

/// One change: how long its encoding is, and the CRC-32 of that.
#[derive(Clone, Copy, Debug, PartialEq, Eq)]
pub struct Change {
    pub len: u64,
    pub crc: u32,
}

// The CRC-32 of what these pieces are together.
fn crc_of(front: &[u8], middle: &[u8], back: &[u8]) -> u32
    ensures { result ≡ crc32 (front.now ++ middle.now ++ back.now) }
{
    let mut crc = Crc32::new();
    crc.update(front);
    crc.update(middle);
    crc.update(back);
    crc.value()
}

impl Change {
    /// The change whose encoding these pieces are together.
    pub fn of(front: &[u8], back: &[u8]) -> Change
        ensures { result ≡ change_of (front.now ++ back.now) }
    {
        Change {
            len: front.len() as u64 + back.len() as u64,
            crc: crc_of(&[], front, back),
        }
    }
}

/// How many changes there are, and the CRC-32 of the last one's CRC-32 and length and of the CRC-32
/// of the ones before it, which is 0 of none.
#[derive(Clone, Copy, Debug, PartialEq, Eq)]
pub struct Digest {
    pub changes: u64,
    pub crc: u32,
}

impl Digest {
    /// Of no changes.
    pub fn of_none() -> Digest
        ensures { result ≡ no_changes }
    {
        Digest { changes: 0, crc: 0 }
    }

    /// Of one change more.
    pub fn add(&mut self, change: Change)
        ensures { self.new ≡ with_change self.old change }
    {
        let before = self.crc.to_le_bytes();
        let (crc, len) = (change.crc.to_le_bytes(), change.len.to_le_bytes());
        self.crc = crc_of(&before, &crc, &len);
        self.changes = self.changes.saturating_add(1);
    }
}
