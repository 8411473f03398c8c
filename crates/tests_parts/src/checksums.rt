use pgcrc::Crc32;

/// Lengths of the pieces.
static STEPS: [usize; 11] = [1, 2, 3, 4, 5, 6, 7, 8, 9, 17, 64];

/// Messages, and their CRC-32 as zlib computes it.
static MESSAGES: [(&[u8], u32); 4] = [
    (b"", 0),
    (b"123456789", 0xcbf43926),
    (b"The quick brown fox jumps over the lazy dog", 0x414fa339),
    (
        b"\x0b\xd9\x97\x50\x17\xca\x9c\x51\x63\x0d\x28\xf7\x4a\x1b\x7a\xc1\x2c\xd9\x02",
        0x9a2d5798,
    ),
];

/// Whether a message has this CRC in pieces of this length.
fn has_crc(message: &[u8], step: usize, value: u32) -> bool {
    let mut crc = Crc32::new();
    for piece in message.chunks(step.max(1)) {
        crc.update(piece);
    }
    crc.value() == value
}

#[test]
fn each_message_has_its_crc_in_any_pieces(rt: HostRuntime) {
    for (message, value) in &MESSAGES {
        for step in &STEPS {
            assert!(&rt; has_crc(message, *step, *value));
        }
    }
}

/// Whether each piece's CRC leads to the message's, wherever it is cut.
fn has_crc_of_pieces(message: &[u8], value: u32) -> bool {
    let mut joined = true;
    for cut in 0..=message.len() {
        let mut front = Crc32::new();
        front.update(&message[..cut]);
        let mut behind = Crc32::new();
        behind.update(&message[cut..]);
        joined = joined && front.followed_by(behind.value(), message.len() - cut) == value;
    }
    joined
}

#[test]
fn each_message_has_the_crc_of_its_pieces(rt: HostRuntime) {
    for (message, value) in &MESSAGES {
        assert!(&rt; has_crc_of_pieces(message, *value));
    }
}

/// Bytes of a long piece, whose zeros are many.
const BYTES: [u8; 1003] = [0xa7; 1003];

#[test]
fn a_long_piece_follows(rt: HostRuntime) {
    let mut behind = Crc32::new();
    behind.update(&BYTES);
    let mut crc = Crc32::new();
    crc.update(b"123456789");
    let joined = crc.followed_by(behind.value(), BYTES.len());
    crc.update(&BYTES);
    assert_eq!(&rt; joined, crc.value());
}
