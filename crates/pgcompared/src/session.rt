//! The commits of one session.
//!
//! PostgreSQL documentation, Logical Streaming Replication Protocol.

ghost use Rattle.std.specs.Prelude.{◌≡◌, ◌≤◌, ◌++◌, None, IfOk, OnOk, length, take, drop};
ghost use Rattle.pglogical.specs.Borrowed.{message_value};
ghost use Rattle.pglogical.specs.declared.message.Message.TheVariants as message;
ghost use Rattle.pglogical.specs.Spelling.{Says, item_spelling, message_spelling};
ghost use Rattle.pgcompared.specs.Sessions.{Hears, at_start, change_in, ended_as, ended_by};
ghost use Rattle.pgcompared.specs.Sessions.{is_change};
ghost use Rattle.pgcompared.specs.Sessions.{in_block_of, opened_by, time_of, with_held};

use crate::finding::Lost;
use crate::opened::Open;
use pglogical::{ItemParts, ItemRef, MessageRef};
use pglsn::Lsn;
use pgorder::{Event, Order, OrderFault, Version};
use pgrepeats::{Change, Commit, Digest};
use std::alloc::{AllocError, Global};

/// A transaction that commits.
#[derive(Clone, Copy, Debug)]
pub(crate) enum Ended {
    Whole(Commit),
    /// It had more points than are kept.
    Over { end: u64 },
}

/// A session, as far as its messages have come.
#[derive(Drop)]
pub(crate) struct Session {
    order: Order,
    opened: Open,
}

impl Session {
    /// None has come.
    pub(crate) fn new(alloc: Global, version: Version, limit: u64) -> Session
        ensures { result ≡ at_start version limit }
    {
        Session {
            order: Order::new(alloc, version),
            opened: Open::new(alloc, limit),
        }
    }

    /// The next session begins.
    pub(crate) fn begin(&mut self, version: Version, limit: u64)
        ensures { self.new ≡ at_start version limit }
    {
        *self = Session::new(self.opened.alloc(), version, limit);
    }

    /// Whether the next message is inside a block of a streamed transaction.
    pub(crate) fn in_block(&self) -> bool
        ensures { result ≡ in_block_of self.now }
    {
        self.order.in_block()
    }

    /// Hears the next message, which has this encoding, and returns the transaction that commits
    /// with it, if one does.
    ///
    /// # Errors
    ///
    /// The message can't come there, or memory has run out.
    pub(crate) fn hear(
        &mut self,
        message: &MessageRef<'_>,
        body: &[u8],
    ) -> Result<Option<Ended>, Lost>
        requires { Says (in_block_of self.old) (message_value message.now) body.now }
        ensures { Hears self.old (message_value message.now) self.new result }
    {
        let event = match self.order.step(message) {
            Ok(event) => event,
            Err(OrderFault::Memory) => return Err(Lost::Memory),
            Err(fault) => return Err(Lost::Disordered(fault)),
        };
        match self.mean(message, body, event) {
            Ok(ended) => Ok(ended),
            Err(_) => Err(Lost::Memory),
        }
    }

    // A message that comes in order, as this event.
    fn mean(
        &mut self,
        message: &MessageRef<'_>,
        body: &[u8],
        event: Event,
    ) -> Result<Option<Ended>, AllocError>
        requires { body.now ≡ message_spelling (message_value message.now) }
        ensures kept { OnOk result (self.new ≡ record self.old {
          opened = opened_by (message_value message.now) event self.old.opened;
        }) }
        ensures ended { IfOk result (λ e.
            e ≡ ended_by (message_value message.now) event self.old.opened) }
    {
        match event {
            Event::Ignore => Ok(None),
            Event::CommitPair { xid, lsn, end } => {
                let digest = self.opened.pair();
                Ok(Some(ended_as(message, xid, lsn, end, Some(digest))))
            }
            Event::CommitStream { xid, lsn, end } => {
                let digest = self.opened.close(xid)?;
                Ok(Some(ended_as(message, xid, lsn, end, digest)))
            }
            Event::Begin { .. } => {
                self.opened.begin();
                Ok(None)
            }
            Event::Hold { label, .. } => {
                hold(&mut self.opened, message, body, label)?;
                Ok(None)
            }
            Event::Open { xid } | Event::Reopen { xid } => {
                self.opened.start(xid)?;
                Ok(None)
            }
            Event::Close => {
                self.opened.stop()?;
                Ok(None)
            }
            Event::Cut { xid, label } => {
                self.opened.cut(xid, label)?;
                Ok(None)
            }
            Event::Drop { xid } => {
                self.opened.close(xid)?;
                Ok(None)
            }
        }
    }
}

// An item of the pair, or of the block under a label.
fn hold(
    kept: &mut Open,
    message: &MessageRef<'_>,
    body: &[u8],
    label: u32,
) -> Result<(), AllocError>
    requires { body.now ≡ message_spelling (message_value message.now) }
    ensures { OnOk result (kept.new ≡ with_held label (message_value message.now) kept.old) }
{
    match message {
        MessageRef::Item { xid, item } => hold_item(kept, *xid, item, body, label),
        _ => Ok(()),
    }
}

// An item with its xid, in a block, or without.
fn hold_item(
    kept: &mut Open,
    xid: Option<u32>,
    item: &ItemRef<'_>,
    body: &[u8],
    label: u32,
) -> Result<(), AllocError>
    requires { body.now ≡ item_spelling xid item.now }
    ensures { OnOk result (kept.new ≡ with_held label (message.Item xid item.now) kept.old) }
{
    match xid {
        None => {
            kept.add_to_pair(change_of(item, &[], body));
            Ok(())
        }
        Some(_) => kept.add_to_block(label, change_in_block(item, body)),
    }
}

// The change that an item is. In a block its xid stands behind the tag.
fn change_in_block(item: &ItemRef<'_>, body: &[u8]) -> Option<Change>
    requires long { 5 ≤ length body.now }
    requires spelled { take 1 body.now ++ drop 5 body.now ≡ item_spelling None item.now }
    ensures { result ≡ change_in item.now }
{
    change_of(item, &body[..1], &body[5..])
}

// The change that an item is, which these pieces encode together outside blocks.
fn change_of(item: &ItemRef<'_>, front: &[u8], back: &[u8]) -> Option<Change>
    requires { front.now ++ back.now ≡ item_spelling None item.now }
    ensures { result ≡ change_in item.now }
{
    if is_change(item) {
        Some(Change::of(front, back))
    } else {
        None
    }
}

// Whether an item changes something: a Truncate of no table doesn't.
fn is_change(item: &ItemRef<'_>) -> bool
    ensures { result ≡ is_change item.now }
{
    match item.parts() {
        ItemParts::Relation(_) => false,
        ItemParts::Insert { .. } => true,
        ItemParts::Update { .. } => true,
        ItemParts::Delete { .. } => true,
        ItemParts::Truncate { oids, .. } => oids.len() > 0,
    }
}

fn ended_as(message: &MessageRef<'_>, xid: u32, lsn: Lsn, end: Lsn, digest: Option<Digest>) -> Ended
    ensures { result ≡ ended_as (message_value message.now) xid lsn end digest }
{
    match digest {
        Some(digest) => Ended::Whole(Commit {
            end: end.0,
            lsn: lsn.0,
            xid,
            time: time_of(message),
            digest,
        }),
        None => Ended::Over { end: end.0 },
    }
}

// When a transaction was committed.
fn time_of(message: &MessageRef<'_>) -> i64
    ensures { result ≡ time_of (message_value message.now) }
{
    match message {
        MessageRef::Commit { commit_time, .. } => *commit_time,
        MessageRef::StreamCommit { commit_time, .. } => *commit_time,
        _ => 0,
    }
}
