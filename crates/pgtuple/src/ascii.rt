//! Short texts in ASCII, as most are: a test that is inlined and takes a few steps, eight bytes in
//! one word.

ghost use Rattle.std.specs.Prelude.{◌≤◌, length, IsTrue};
ghost use Rattle.std.specs.Str.{IsAscii};

/// The bits of a word that are set in no ASCII byte.
const HIGH_BITS: u64 = 0x8080_8080_8080_8080;

/// Whether these bytes are short and all of them ASCII. Of more than 32 bytes it says no, whatever
/// they are.
#[inline(always)]
pub(crate) fn is_short_ascii(bytes: &[u8]) -> bool
    ensures { IsTrue result → IsAscii bytes.now }
{
    let len = bytes.len();
    if len < 8 {
        return bytes.iter().all(|byte| *byte < 128);
    }
    if len <= 16 {
        return are_ends_ascii(bytes);
    }
    if len > 32 {
        return false;
    }
    are_ends_ascii(&bytes[..16]) & are_ends_ascii(&bytes[len - 16..])
}

/// Whether the first eight bytes and the last eight are ASCII, which may overlap.
#[inline(always)]
fn are_ends_ascii(bytes: &[u8]) -> bool
    requires enough { 8 ≤ length bytes.now }
    requires covered { length bytes.now ≤ 16 }
    ensures { IsTrue result → IsAscii bytes.now }
{
    match (bytes.first_chunk::<8>(), bytes.last_chunk::<8>()) {
        (Some(first), Some(last)) => is_word_ascii(first) & is_word_ascii(last),
        _ => false,
    }
}

#[inline(always)]
fn is_word_ascii(bytes: &[u8; 8]) -> bool
    ensures { IsTrue result → IsAscii bytes.now }
{
    u64::from_le_bytes(*bytes) & HIGH_BITS == 0
}
