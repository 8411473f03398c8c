//! A server's sessions, byte for byte.
//!
//! PostgreSQL documentation, Logical Replication Message Formats; Streaming Replication Protocol.

use std::alloc::Global;
use std::process::Abort;

/// The bytes of sessions.
#[derive(Drop)]
pub struct Wire {
    pub bytes: Vec<u8>,
}

impl Wire {
    pub fn new(alloc: Global) -> Wire {
        Wire {
            bytes: Vec::new(alloc),
        }
    }

    fn put(&mut self, rt: &impl Abort, bytes: &[u8]) {
        let put = self.bytes.extend_from_slice(bytes);
        assert!(rt; put.is_ok());
    }

    // CopyData with XLogData of so many bytes.
    fn frame(&mut self, rt: &impl Abort, len: u32) {
        self.put(rt, b"d");
        self.put(rt, &len.saturating_add(29).to_be_bytes());
        self.put(rt, b"w");
        self.put(rt, &[0; 24]);
    }

    pub fn begin(&mut self, rt: &impl Abort, lsn: u64, xid: u32) {
        self.frame(rt, 21);
        self.put(rt, b"B");
        self.put(rt, &lsn.to_be_bytes());
        self.put(rt, &[0; 8]);
        self.put(rt, &xid.to_be_bytes());
    }

    pub fn commit(&mut self, rt: &impl Abort, lsn: u64) {
        self.frame(rt, 26);
        self.put(rt, b"C\0");
        self.put(rt, &lsn.to_be_bytes());
        self.put(rt, &lsn.saturating_add(8).to_be_bytes());
        self.put(rt, &[0; 8]);
    }

    /// An Insert of this letter into the relation 1, in a pair.
    pub fn insert(&mut self, rt: &impl Abort, letter: u8) {
        self.frame(rt, 14);
        self.put(rt, b"I");
        self.put(rt, &[0, 0, 0, 1, b'N', 0, 1, b't', 0, 0, 0, 1, letter]);
    }

    /// An Insert in a block, under this xid.
    pub fn insert_under(&mut self, rt: &impl Abort, xid: u32, letter: u8) {
        self.frame(rt, 18);
        self.put(rt, b"I");
        self.put(rt, &xid.to_be_bytes());
        self.put(rt, &[0, 0, 0, 1, b'N', 0, 1, b't', 0, 0, 0, 1, letter]);
    }

    pub fn start(&mut self, rt: &impl Abort, xid: u32, first: bool) {
        self.frame(rt, 6);
        self.put(rt, b"S");
        self.put(rt, &xid.to_be_bytes());
        self.put(rt, &[if first { 1 } else { 0 }]);
    }

    pub fn stop(&mut self, rt: &impl Abort) {
        self.frame(rt, 1);
        self.put(rt, b"E");
    }

    pub fn abort(&mut self, rt: &impl Abort, xid: u32, subxid: u32) {
        self.frame(rt, 9);
        self.put(rt, b"A");
        self.put(rt, &xid.to_be_bytes());
        self.put(rt, &subxid.to_be_bytes());
    }

    pub fn stream_commit(&mut self, rt: &impl Abort, xid: u32, lsn: u64) {
        self.frame(rt, 30);
        self.put(rt, b"c");
        self.put(rt, &xid.to_be_bytes());
        self.put(rt, b"\0");
        self.put(rt, &lsn.to_be_bytes());
        self.put(rt, &lsn.saturating_add(8).to_be_bytes());
        self.put(rt, &[0; 8]);
    }

    /// A message of no kind that there is.
    pub fn unknown(&mut self, rt: &impl Abort) {
        self.frame(rt, 1);
        self.put(rt, b"?");
    }

    /// The end of a session.
    pub fn done(&mut self, rt: &impl Abort) {
        self.put(rt, b"c\0\0\0\x04");
    }

    /// A transaction that is sent whole: its rows are these letters.
    pub fn pair(&mut self, rt: &impl Abort, lsn: u64, xid: u32, letters: &[u8]) {
        self.begin(rt, lsn, xid);
        for letter in letters {
            self.insert(rt, *letter);
        }
        self.commit(rt, lsn);
    }
}
