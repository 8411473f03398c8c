//! What holds of CRCs whatever program computes them. The functions do nothing: their contracts are
//! the laws.

ghost use Rattle.std.specs.Prelude.{◌≡◌, ◌≢◌, ◌≤◌, ◌-◌, ◌++◌, ℕ, List, Bool, length, replicate};
ghost use Rattle.std.specs.Prelude.{bit_xor};
ghost use Rattle.pgcrc.specs.declared.crc.Crc32.{Crc32};
ghost use Rattle.pgcrc.specs.Crc.{AreBytes, crc32, message_bits, ones};
ghost use Rattle.pgcrc.specs.Covering.{Covers};
ghost use Rattle.pgcrc.specs.Division.{IsRemainder};

/// The CRC is the complement of the one remainder that the division of the message leaves.
pub fn crc_is_the_remainder()
    ensures remainder { (message : List ℕ) →
        IsRemainder (message_bits message) (ones - crc32 message) }
    ensures only { (message : List ℕ) (remainder : ℕ) →
        IsRemainder (message_bits message) remainder → crc32 message ≡ ones - remainder }
{}

/// However a message is cut into pieces, the same value has taken it.
pub fn cuts_change_nothing()
    ensures { (crc other : Crc32) (message : List ℕ) → Covers crc message → Covers other message
        → crc ≡ other }
{}

/// The CRC of a message in two pieces comes from those of the pieces, and how long the second is.
/// So a piece need not be read again when another comes to stand before it, as a head that is
/// known last.
pub fn pieces_are_joined()
    ensures { (front behind : List ℕ) → let zeros = replicate (length behind) 0 in
        crc32 (front ++ behind)
        ≡ bit_xor (bit_xor (crc32 (front ++ zeros)) (crc32 zeros)) (crc32 behind) }
{}

/// Two messages of one length that differ within at most 32 bits have different CRCs.
pub fn bursts_are_found()
    ensures { (message other : List ℕ) (front burst changed behind : List Bool)
        → message_bits message ≡ front ++ (burst ++ behind)
        → message_bits other ≡ front ++ (changed ++ behind)
        → length burst ≤ 32 → length changed ≡ length burst → burst ≢ changed
        → crc32 message ≢ crc32 other }
{}

/// So have two that differ within four neighbouring bytes.
pub fn changes_are_found()
    ensures { (front old changed behind : List ℕ) → AreBytes old → AreBytes changed
        → length old ≤ 4 → length changed ≡ length old → old ≢ changed
        → crc32 (front ++ (old ++ behind)) ≢ crc32 (front ++ (changed ++ behind)) }
{}
