//! The CRC of bytes that come in pieces.

ghost use Rattle.std.specs.Prelude.{◌≡◌, ◌++◌, [], ℕ, List, length, replicate};
ghost use Rattle.pgcrc.specs.Crc.{after_bits, bits, message_bits, crc32};
ghost use Rattle.pgcrc.specs.Covering.{Covers};

use crate::tables::TABLES;

const ZEROS: [u8; 8] = [0; 8];

/// The CRC-32 of the bytes so far, in whatever pieces they came.
#[derive(Clone, Copy, Debug)]
pub struct Crc32 {
    register: u32,
}

// The register after a byte.
#[inline(always)]
fn after_byte(register: u32, byte: u8) -> u32
    ensures { result ≡ after_bits register (bits 8 byte) }
{
    let place = (register ^ u32::from(byte)) % 256;
    TABLES[0][place as usize] ^ (register >> 8)
}

// The register after eight bytes.
#[inline(always)]
fn after_eight(register: u32, bytes: &[u8]) -> u32
    requires { length bytes.now ≡ 8 }
    ensures { result ≡ after_bits register (message_bits bytes.now) }
{
    let eight = u64::from_le_bytes([
        bytes[0], bytes[1], bytes[2], bytes[3], bytes[4], bytes[5], bytes[6], bytes[7],
    ]);
    let word = u64::from(register) ^ eight;
    TABLES[7][(word % 256) as usize]
        ^ TABLES[6][((word >> 8) % 256) as usize]
        ^ TABLES[5][((word >> 16) % 256) as usize]
        ^ TABLES[4][((word >> 24) % 256) as usize]
        ^ TABLES[3][((word >> 32) % 256) as usize]
        ^ TABLES[2][((word >> 40) % 256) as usize]
        ^ TABLES[1][((word >> 48) % 256) as usize]
        ^ TABLES[0][(word >> 56) as usize]
}

// The register after bytes, one at a time.
fn after_each(register: u32, bytes: &[u8]) -> u32
    ensures { result ≡ after_bits register (message_bits bytes.now) }
{
    let mut after = register;
    for byte in bytes {
        after = after_byte(after, *byte);
    }
    after
}

// The register after so many bytes 0.
fn after_zeros(register: u32, count: usize) -> u32
    ensures { result ≡ after_bits register (message_bits (replicate count 0)) }
{
    let mut after = register;
    for _ in 0..count / 8 {
        after = after_eight(after, &ZEROS);
    }
    after_each(after, &ZEROS[..count % 8])
}

impl Crc32 {
    /// Of no bytes.
    pub fn new() -> Crc32
        ensures { Covers result [] }
    {
        Crc32 { register: u32::MAX }
    }

    /// Takes more bytes.
    pub fn update(&mut self, bytes: &[u8])
        ensures { (before : List ℕ) → Covers self.old before
            → Covers self.new (before ++ bytes.now) }
    {
        let mut register = self.register;
        let count = bytes.len() / 8;
        for i in 0..count {
            register = after_eight(register, &bytes[8 * i..8 * i + 8]);
        }
        self.register = after_each(register, &bytes[8 * count..]);
    }

    /// The CRC-32 of the bytes so far.
    pub fn value(&self) -> u32
        ensures { (message : List ℕ) → Covers self.now message → result ≡ crc32 message }
    {
        !self.register
    }

    /// The CRC-32 of the bytes so far and then of `count` more, whose own CRC-32 is `behind`. So a
    /// long piece need not be read again once what stands before it is known. The time that it
    /// takes is in proportion to `count`.
    pub fn followed_by(&self, behind: u32, count: usize) -> u32
        ensures { (before more : List ℕ) → Covers self.now before → behind ≡ crc32 more
            → length more ≡ count → result ≡ crc32 (before ++ more) }
    {
        after_zeros(self.value(), count) ^ behind
    }
}

impl Default for Crc32 {
    ghost is_default = { λ crc. Covers crc [] };

    fn default() -> Crc32 {
        Crc32::new()
    }
}
