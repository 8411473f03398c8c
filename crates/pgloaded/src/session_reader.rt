//! Readers that are told where sessions begin.
//!
//! PostgreSQL documentation, Streaming Replication Protocol, START_REPLICATION.

ghost use Rattle.std.specs.Prelude.{◌≡◌, false};

use pgrules::{FindingListener, Guarded};
use std::io::Read;
use std::rt::Stdin;

/// A reader of a server's bytes that is told where its sessions begin: behind a load, where one
/// comes first.
pub trait SessionReader: Read {
    /// That being told so took it from one state to another.
    ghost begins: { Self → Self → Type 0 };

    /// What comes from here on are sessions. Nothing is read.
    fn begin_sessions(&mut self)
        ensures begun { begins self.old self.new }
        ensures unread { Self.Read.remaining self.new ≡ Self.Read.remaining self.old };
}

impl SessionReader for Stdin {
    ghost begins = { λ old new. new ≡ old };

    fn begin_sessions(&mut self) {}
}

impl<R: Read + Drop, L: FindingListener + Drop> SessionReader for Guarded<R, L> {
    ghost begins = { λ old new. new ≡ record old { waits = false } };

    fn begin_sessions(&mut self) {
        Guarded::begin_sessions(self);
    }
}
