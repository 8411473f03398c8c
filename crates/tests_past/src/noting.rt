//! Commits that are noted, and read again.

use crate::memory::MemoryFile;
use pgpast::{Notes, NotesFault};
use pgrepeats::{Answer, Change, Commit, Digest, Past};
use std::alloc::Global;
use std::process::Abort;

/// A commit that ends there, with an Insert of this letter.
fn commit(end: u64, letter: u8) -> Commit {
    let mut digest = Digest::of_none();
    digest.add(Change::of(b"I", &[letter]));
    Commit {
        end,
        lsn: end.saturating_sub(8),
        xid: 10,
        time: 0,
        digest,
    }
}

fn nothing(alloc: Global) -> MemoryFile {
    MemoryFile::holding(Vec::new(alloc))
}

/// The file once these commits were noted in it.
fn with(rt: &(impl Abort + AllocGlobal), file: MemoryFile, commits: &[Commit]) -> MemoryFile {
    let opened = Notes::open(rt.alloc(), file);
    let mut notes = opened.expect(rt, "open").notes;
    for commit in commits {
        notes.keep(false, Some(*commit)).expect(rt, "keep");
    }
    notes.into_file()
}

/// What the file was found to hold, as a line tells it, and the past that has heard it.
fn found(rt: &(impl Abort + AllocGlobal), file: MemoryFile) -> (String, Past) {
    let opened = Notes::open(rt.alloc(), file).expect(rt, "open");
    let line = format!(in rt.alloc(); "{}", opened.found()).expect(rt, "line");
    (line, opened.past)
}

/// The bytes of a file, of which one is changed.
fn spoiled(rt: &(impl Abort + AllocGlobal), file: MemoryFile, at: usize) -> MemoryFile {
    let mut bytes = file.bytes;
    let byte = bytes.get_mut(at);
    assert!(rt; byte.is_some());
    if let Some(byte) = byte {
        *byte ^= 1;
    }
    MemoryFile::holding(bytes)
}

/// The CRC is zlib's.
#[test]
fn a_record_has_these_bytes(rt: HostRuntime) {
    let noted = Commit {
        end: 0x16B3748,
        lsn: 0x16B3718,
        xid: 741,
        time: 817_464_300_000_000,
        digest: Digest {
            changes: 2,
            crc: 0x12345678,
        },
    };
    let file = with(&rt, nothing(rt.alloc()), &[noted]);
    let wanted = b"pgsub repeats 1\n\
        \x00\x00\x00\x00\x01\x6b\x37\x48\x00\x00\x00\x00\x01\x6b\x37\x18\x00\x00\x02\xe5\
        \x00\x02\xe7\x7a\xbd\x37\xd3\x00\x00\x00\x00\x00\x00\x00\x00\x02\x12\x34\x56\x78\
        \x00\x00\x00\x00\x14\x59\x38\x91";
    assert!(&rt; file.bytes.as_slice() == wanted.as_slice());
}

#[test]
fn what_was_noted_is_compared(rt: HostRuntime) {
    let three = [commit(16, b'a'), commit(32, b'b'), commit(48, b'c')];
    let file = with(&rt, nothing(rt.alloc()), &three);
    let file = with(&rt, file, &[commit(64, b'd')]);
    let (line, past) = found(&rt, file);
    assert!(&rt; line.as_str() == "4 commits are noted, up to 0/40");
    let mut past = past;
    assert!(&rt; past.hear(commit(32, b'b')) == Ok(Answer::Equal));
    assert!(&rt; past.hear(commit(48, b'z')).is_err());
    assert!(&rt; past.hear(commit(80, b'e')).is_err());
    assert!(&rt; past.hear(commit(64, b'd')).is_err());
}

#[test]
fn a_lost_record_hides_those_before_it(rt: HostRuntime) {
    let three = [commit(16, b'a'), commit(32, b'b'), commit(48, b'c')];
    let file = with(&rt, nothing(rt.alloc()), &three);
    let (line, _) = found(&rt, spoiled(&rt, file, 16 + 48));
    assert!(&rt; line.as_str() == "1 commits are noted, up to 0/30, 1 records unreadable");
    let file = with(&rt, nothing(rt.alloc()), &three);
    let (line, _) = found(&rt, spoiled(&rt, file, 16 + 2 * 48));
    assert!(&rt; line.as_str() == "2 commits are noted, up to 0/20, 1 records unreadable");
}

/// The second record is that of another file.
#[test]
fn a_record_that_was_not_before_hides_itself(rt: HostRuntime) {
    let file = with(
        &rt,
        nothing(rt.alloc()),
        &[commit(16, b'a'), commit(32, b'b'), commit(48, b'c')],
    );
    let other = with(
        &rt,
        nothing(rt.alloc()),
        &[commit(16, b'a'), commit(24, b'x')],
    );
    let mut bytes = file.bytes;
    for (at, byte) in other.bytes.iter().enumerate() {
        if at >= 64 && at < bytes.len() {
            bytes[at] = *byte;
        }
    }
    let (line, _) = found(&rt, MemoryFile::holding(bytes));
    assert!(&rt; line.as_str() == "1 commits are noted, up to 0/30");
}

#[test]
fn forgetting_leaves_what_is_noted_then(rt: HostRuntime) {
    let file = with(
        &rt,
        nothing(rt.alloc()),
        &[commit(16, b'a'), commit(32, b'b')],
    );
    let mut notes = Notes::open(rt.alloc(), file).expect(&rt, "open").notes;
    notes.keep(true, Some(commit(24, b'x'))).expect(&rt, "keep");
    notes
        .keep(false, Some(commit(40, b'y')))
        .expect(&rt, "keep");
    let (line, _) = found(&rt, notes.into_file());
    assert!(&rt; line.as_str() == "2 commits are noted, up to 0/28");
}

#[test]
fn other_files_are_left_alone(rt: HostRuntime) {
    let text = [
        b"hello".as_slice(),
        b"pgsub repeats 2\n",
        b"SQLite format 3\0 and more",
    ];
    for bytes in text {
        let bytes = Vec::from_slice(rt.alloc(), bytes).expect(&rt, "bytes");
        let opened = Notes::open(rt.alloc(), MemoryFile::holding(bytes));
        assert!(&rt; opened.err() == Some(NotesFault::Foreign));
    }
}

/// The system has lost what was written.
#[test]
fn zeros_are_begun_anew(rt: HostRuntime) {
    let bytes = vec![in rt.alloc(); 0u8; 100].expect(&rt, "bytes");
    let file = with(&rt, MemoryFile::holding(bytes), &[commit(16, b'a')]);
    assert!(&rt; file.bytes.len() == 64);
    let (line, _) = found(&rt, file);
    assert!(&rt; line.as_str() == "1 commits are noted, up to 0/10");
}

#[test]
fn a_write_that_fails_is_the_last(rt: HostRuntime) {
    let mut file = nothing(rt.alloc());
    // the head and one record
    file.writes = 2;
    let mut notes = Notes::open(rt.alloc(), file).expect(&rt, "open").notes;
    assert!(&rt; notes.keep(false, Some(commit(16, b'a'))).is_ok());
    let failed = notes.keep(false, Some(commit(32, b'b')));
    assert!(&rt; failed == Err(NotesFault::Refused));
    assert!(&rt; notes.keep(false, Some(commit(48, b'c'))).is_ok());
    assert!(&rt; notes.into_file().bytes.is_empty());
}
