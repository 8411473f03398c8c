//! A subscriber whose rows are in memory, for callers that aren't Rust.
//!
//! PostgreSQL documentation, Streaming Replication Protocol.

ghost use Rattle.std.specs.Prelude.{◌≡◌, ◌⊎◌, IfErr, IfOk};
ghost use Rattle.sqlite.specs.Files.{over_files};
ghost use Rattle.pgstore.specs.StoreValue.{HasTables, IsHonest, Serves};
ghost use Rattle.pgembed.specs.Called.{Does};
ghost use Rattle.pgembed.specs.Fed.{position_of};
ghost use Rattle.pgembed.specs.InMemory.{HasAsked, HasDisconnected, HasFed, HasReplied, HasShown};
ghost use Rattle.pgembed.specs.InMemory.{IsNew, place_of};

use crate::calls::Call;
use crate::stored::{self, Stored};
use pgapply::StoreFault;
use pgmemory::MemoryDisk;
use pgorder::Version;
use pgstore::Store;
use pgsub_core::Fault;
use sqlite::FileStore;
use std::alloc::Global;

/// A subscriber over a SQL store, with the spools and limits that `pgsub` has where its words name
/// none. Its rows are in memory, and end with it.
///
/// It has no type parameter, so that a caller doesn't prove again that its store is one.
pub struct InMemory {
    /// What the calls are made of.
    pub subscriber: Stored<FileStore<MemoryDisk>>,
}

// Not derived, so that it is proved here and not in each crate that drops one.
impl Drop for InMemory {
    fn drop(self) {
        let InMemory { subscriber } = self;
        stored::end(subscriber);
    }
}

impl InMemory {
    /// A subscriber over no rows, at position 0/0.
    ///
    /// # Errors
    ///
    /// Where memory runs out, `Memory` or `Refused`.
    pub fn new(alloc: Global, version: Version) -> Result<InMemory, Fault>
        ensures new { IfOk result (IsNew version) }
        ensures fault { IfErr result
            (λ f. (f ≡ Fault.Memory) ⊎ (f ≡ Fault.Store StoreFault.Refused)) }
    {
        let store = Store::on_memory_disks(alloc)?;
        Ok(InMemory {
            subscriber: stored::begin(alloc, store, version),
        })
    }

    /// Makes a call, with room for what it passes, and returns its number.
    fn make_call(&mut self, call: Call<'_>, room: &mut [u8], length: &mut usize) -> u32
        ensures { Does (Serves over_files) (IsHonest over_files) (HasTables over_files) position_of
            call.entry self.old.subscriber self.new.subscriber room.old room.new length.new result }
    {
        stored::make_call(&mut self.subscriber, call, room, length)
    }

    /// The LSN up to which the stored rows are complete, and that up to which the server may
    /// forget.
    fn places(&self) -> (u64, u64)
        ensures position { result.0 ≡ place_of self.now }
        ensures confirmed { result.1 ≡ self.now.subscriber.applied.confirmed }
    {
        stored::places(&self.subscriber)
    }

    /// Feeds a chunk, as `feed_piece` does.
    pub fn feed(
        &mut self,
        alloc: Global,
        piece: &[u8],
        clock: i64,
        text: &mut [u8],
        text_length: &mut usize,
    ) -> u32
        ensures { HasFed clock self.old piece.now self.new text.old text.new text_length.new
            result }
    {
        let call = Call::Feed {
            alloc,
            piece,
            clock,
        };
        self.make_call(call, text, text_length)
    }

    /// Appends a status to the replies, as `append_status` does.
    pub fn status(&mut self, clock: i64, ask: bool) -> u32
        ensures { HasAsked clock ask self.old self.new result }
    {
        self.make_call(Call::Status { clock, ask }, &mut [], &mut 0)
    }

    /// Passes the replies that wait, and drops them, as `pass_replies` does.
    pub fn take_replies(&mut self, room: &mut [u8], length: &mut usize) -> u32
        ensures { HasReplied self.old self.new room.old room.new length.new result }
    {
        self.make_call(Call::Replies, room, length)
    }

    /// Passes the lines of the rows, as `pass_rows` does.
    pub fn rows(&mut self, alloc: Global, room: &mut [u8], length: &mut usize) -> u32
        ensures { HasShown self.old self.new room.old room.new length.new result }
    {
        self.make_call(Call::Rows { alloc }, room, length)
    }

    /// The LSN up to which the stored rows are complete.
    pub fn position(&self) -> u64
        ensures { result ≡ place_of self.now }
    {
        self.places().0
    }

    /// The LSN up to which the server may forget.
    pub fn confirmed(&self) -> u64
        ensures { result ≡ self.now.subscriber.applied.confirmed }
    {
        self.places().1
    }

    /// Forgets the session, as `Subscriber::disconnect` does. A closed subscriber opens again.
    pub fn disconnect(&mut self)
        ensures { HasDisconnected self.old self.new }
    {
        self.make_call(Call::Disconnect, &mut [], &mut 0);
    }
}
