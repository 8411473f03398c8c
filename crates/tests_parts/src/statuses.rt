use bytes::BytesMut;
use pglsn::Lsn;
use pgwire::{Status, WireFault, encode_status};
use std::process::Abort;

// Appends a status with this clock, once more where memory ran out, which leaves those before it.
fn append(rt: &impl Abort, out: &mut BytesMut, clock: i64) {
    let status = Status {
        written: Lsn(1),
        flushed: Lsn(2),
        applied: Lsn(3),
        clock,
        ask: false,
    };
    let len = out.len();
    if encode_status(&status, out) == Err(WireFault::Memory) {
        assert!(rt; out.len() == len);
        assert!(rt; encode_status(&status, out).is_ok());
    }
}

// Whether these bytes begin as each status does, and end in this clock.
fn is_status_at(frame: &[u8], clock: u8) -> bool {
    frame.starts_with(b"d\0\0\0\x26r\0\0\0\0\0\0\0\x01") && frame.get(37) == Some(&clock)
}

#[test]
fn refused_memory_changes_nothing(rt: HostRuntime) {
    let mut out = BytesMut::new(rt.alloc());
    for turn in 1..20i64 {
        append(&rt, &mut out, turn);
    }
    assert!(rt; out.len() == 19 * 39);
    for (place, frame) in out.as_slice().chunks(39).enumerate() {
        let turn = ((place + 1) % 256) as u8;
        assert!(rt; is_status_at(frame, turn), "frame {place}");
    }
}
