//! Backslash sequences.
//!
//! PostgreSQL documentation, COPY, File Formats, Text Format.

ghost use Rattle.std.specs.Prelude.{◌≡◌, ◌<◌, ◌≤◌, length, slice_get, IfSome};
ghost use Rattle.pgcopy.specs.Values.{meaning_of, octal_digit as octal_digit_of};
ghost use Rattle.pgcopy.specs.Values.{hex_digit as hex_digit_of, octal_of, hex_of, octal_at};
ghost use Rattle.pgcopy.specs.Values.{other_sequence, sequence_at};

// The octal digit that stands at a place.
fn octal_digit(bytes: &[u8], place: usize) -> Option<u8>
    ensures value { result ≡ octal_digit_of (slice_get bytes.now place) }
    ensures small { IfSome result (λ digit. digit < 8) }
    ensures within { IfSome result (λ _. place < length bytes.now) }
{
    match bytes.get(place) {
        Some(byte @ b'0'..=b'7') => Some(*byte - b'0'),
        _ => None,
    }
}

// The hexadecimal digit that stands at a place.
fn hex_digit(bytes: &[u8], place: usize) -> Option<u8>
    ensures value { result ≡ hex_digit_of (slice_get bytes.now place) }
    ensures small { IfSome result (λ digit. digit < 16) }
    ensures within { IfSome result (λ _. place < length bytes.now) }
{
    match bytes.get(place) {
        Some(byte @ b'0'..=b'9') => Some(*byte - b'0'),
        Some(byte @ b'A'..=b'F') => Some(*byte - b'A' + 10),
        Some(byte @ b'a'..=b'f') => Some(*byte - b'a' + 10),
        _ => None,
    }
}

// One to three octal digits.
fn octal(bytes: &[u8]) -> Option<(u8, usize)>
    ensures value { result ≡ octal_at bytes.now }
    ensures within { IfSome result (λ sequence. sequence.1 ≤ length bytes.now) }
{
    let first = octal_digit(bytes, 0)?;
    let Some(second) = octal_digit(bytes, 1) else {
        return Some((first, 1));
    };
    let Some(third) = octal_digit(bytes, 2) else {
        return Some((8 * first + second, 2));
    };
    let number = 64 * first as u32 + 8 * second as u32 + third as u32;
    Some(((number % 256) as u8, 3))
}

// `x` with one or two hexadecimal digits, or by itself.
fn hex(bytes: &[u8]) -> (u8, usize)
    requires { 0 < length bytes.now }
    ensures value { result ≡ hex_of (hex_digit_of (slice_get bytes.now 1))
        (hex_digit_of (slice_get bytes.now 2)) }
    ensures within { result.1 ≤ length bytes.now }
{
    let Some(first) = hex_digit(bytes, 1) else {
        return (b'x', 1);
    };
    let Some(second) = hex_digit(bytes, 2) else {
        return (first, 2);
    };
    (16 * first + second, 3)
}

// What a character behind a backslash means.
fn meaning(character: u8) -> u8
    ensures { result ≡ meaning_of character }
{
    match character {
        b'b' => 8,
        b'f' => 12,
        b'n' => b'\n',
        b'r' => b'\r',
        b't' => b'\t',
        b'v' => 11,
        _ => character,
    }
}

/// What the characters behind a backslash stand for, and how many of them do.
#[tactic(auto, unfolding(crate::specs::Values::sequence_at))]
pub(crate) fn sequence(bytes: &[u8]) -> (u8, usize)
    requires { 0 < length bytes.now }
    ensures value { result ≡ sequence_at bytes.now }
    ensures within { result.1 ≤ length bytes.now }
{
    if let Some(sequence) = octal(bytes) {
        return sequence;
    }
    if bytes[0] == b'x' {
        return hex(bytes);
    }
    (meaning(bytes[0]), 1)
}
