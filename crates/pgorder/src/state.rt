//! The order of messages: how far a stream has come, and what the next message means there.
ghost use Rattle.std.specs.Prelude.{◌≡◌, ◌≢◌, IfOk, IfErr, IsOk, OnErr, Err, IsTrue};
ghost use Rattle.pglogical.specs.Spelling.{IsMessageFor};
ghost use Rattle.pglogical.specs.Borrowed.{message_value};
ghost use Rattle.pgorder.specs.Steps.{Outside, initial_order, order_step, in_version_2, step_inner};
ghost use Rattle.pgorder.specs.Steps.{step_item, step_begin, step_commit, step_stream_start};
ghost use Rattle.pgorder.specs.Steps.{step_stream_stop, step_stream_commit, step_stream_abort};
ghost use Rattle.pgorder.specs.Laws.{AnswersByShape};
ghost use Rattle.pgorder.specs.States.{StreamOrder, is_in_block, is_outside, Answers};
ghost use Rattle.pgorder.specs.States.{IsFirstSegment};

use crate::fault::OrderFault;
use crate::open::OpenXids;
use crate::{Event, Version};
use pglogical::MessageRef;
use pglsn::Lsn;
use std::alloc::Global;
use std::marker::Model;

/// Where the messages so far end.
#[derive(Clone, Copy, Debug)]
enum Context {
    Outside,
    InPair { final_lsn: Lsn, xid: u32 },
    InBlock { xid: u32 },
}

/// The order of a stream's messages: how far it has come, and which streamed transactions are open.
///
/// PostgreSQL documentation, Logical Streaming Replication Protocol.
#[derive(Drop)]
pub struct Order {
    version: Version,
    context: Context,
    open_xids: OpenXids,
}

impl Model for Order {
    ghost use Rattle.pgorder.specs.States.{StreamOrder, stream_order_code, context_of};

    ghost Value = { StreamOrder };

    ghost coded = { stream_order_code };

    ghost view = { λ o. record {
      version = o.version;
      state = record { context = context_of o.context; open_xids = o.open_xids };
    } };
}

impl Order {
    /// The order at the start of a session.
    pub fn new(alloc: Global, version: Version) -> Order
        ensures { result ≡ record { version = version; state = initial_order } }
    {
        Order {
            version,
            context: Context::Outside,
            open_xids: OpenXids::new(alloc),
        }
    }

    /// Whether the next message is inside a block of a streamed transaction.
    pub fn in_block(&self) -> bool
        ensures { result ≡ is_in_block self.now.state.context }
    {
        matches!(self.context, Context::InBlock { .. })
    }

    /// Whether the next message is outside pairs and blocks.
    pub fn is_outside(&self) -> bool
        ensures { result ≡ is_outside self.now.state.context }
    {
        matches!(self.context, Context::Outside)
    }

    /// Forgets all messages: the next one is the first of a session.
    pub fn reset(&mut self)
        ensures { self.new ≡ record { version = self.old.version; state = initial_order } }
    {
        self.context = Context::Outside;
        self.open_xids.clear();
    }

    /// Accepts the next message, or says why it can't come here; then nothing changes. Only the
    /// first segment of a streamed transaction takes memory.
    ///
    /// PostgreSQL documentation, Logical Streaming Replication Protocol, Logical Streaming
    /// Replication Protocol Message Flow.
    pub fn step(&mut self, message: &MessageRef<'_>) -> Result<Event, OrderFault>
        requires { IsMessageFor (is_in_block self.old.state.context) (message_value message.now) }

        // After any messages that leave this state: Ok exactly where the shape goes on, with the
        // message's event, and else the first fault that holds.
        ensures shape { AnswersByShape self.old.version self.old.state
            (message_value message.now) result }

        ensures taken { IfOk result (λ event. order_step self.old.version self.old.state
            (message_value message.now) ≡ Ok (self.new.state, event)) }
        ensures version { self.new.version ≡ self.old.version }

        // The fault is that of the message, or memory ran out where the message would be accepted.
        ensures fault { IfErr result (λ fault. fault ≢ OrderFault.Memory →
            order_step self.old.version self.old.state (message_value message.now) ≡ Err fault) }
        ensures memory { result ≡ Err OrderFault.Memory → IsFirstSegment (message_value message.now)
            × IsOk (order_step self.old.version self.old.state (message_value message.now)) }
        ensures unchanged { OnErr result (self.new ≡ self.old) }
    {
        self.answer(message)
    }

    fn answer(&mut self, message: &MessageRef<'_>) -> Result<Event, OrderFault>
        ensures taken { IfOk result (λ event. order_step self.old.version self.old.state
            (message_value message.now) ≡ Ok (self.new.state, event)) }
        ensures version { self.new.version ≡ self.old.version }
        ensures fault { IfErr result (λ fault. fault ≢ OrderFault.Memory →
            order_step self.old.version self.old.state (message_value message.now) ≡ Err fault) }
        ensures memory { result ≡ Err OrderFault.Memory → IsFirstSegment (message_value message.now)
            × IsOk (order_step self.old.version self.old.state (message_value message.now)) }
        ensures unchanged { OnErr result (self.new ≡ self.old) }
    {
        match message {
            MessageRef::Begin { final_lsn, xid, .. } => self.begin(*final_lsn, *xid),
            MessageRef::Commit {
                commit_lsn,
                end_lsn,
                ..
            } => self.commit(*commit_lsn, *end_lsn),
            MessageRef::Origin { .. } => self.inner(),
            MessageRef::TypeName { .. } => self.inner(),
            MessageRef::Logical { .. } => Ok(Event::Ignore),
            MessageRef::Item { xid, .. } => self.item(*xid),
            MessageRef::StreamStart { xid, first_segment } => {
                self.stream_start(*xid, *first_segment)
            }
            MessageRef::StreamStop => self.stream_stop(),
            MessageRef::StreamCommit {
                xid,
                commit_lsn,
                end_lsn,
                ..
            } => { self.stream_commit(*xid, *commit_lsn, *end_lsn) }
            MessageRef::StreamAbort { xid, subxid } => self.stream_abort(*xid, *subxid),
        }
    }

    // An inner message that changes no rows.
    fn inner(&self) -> Result<Event, OrderFault>
        ensures { Answers (step_inner self.now.state self.now.state.context) self.now.state result }
    {
        match self.context {
            Context::Outside => Err(OrderFault::OutsideTransaction),
            Context::InPair { .. } | Context::InBlock { .. } => Ok(Event::Ignore),
        }
    }

    // In a block the subxid is the message's xid, in a pair that of Begin.
    fn item(&self, subxid: Option<u32>) -> Result<Event, OrderFault>
        ensures { Answers (step_item self.now.state self.now.state.context subxid) self.now.state
            result }
    {
        match self.context {
            Context::Outside => Err(OrderFault::OutsideTransaction),
            Context::InPair { xid, .. } => Ok(Event::Hold {
                top: xid,
                label: xid,
            }),
            Context::InBlock { xid } => Ok(Event::Hold {
                top: xid,
                label: subxid.unwrap_or(xid),
            }),
        }
    }

    fn begin(&mut self, final_lsn: Lsn, xid: u32) -> Result<Event, OrderFault>
        ensures answer { Answers (step_begin self.old.state self.old.state.context final_lsn xid)
            self.new.state result }
        ensures version { self.new.version ≡ self.old.version }
        ensures unchanged { OnErr result (self.new ≡ self.old) }
    {
        match self.context {
            Context::Outside if !self.open_xids.contains(xid) => {
                self.context = Context::InPair { final_lsn, xid };
                Ok(Event::Begin { xid })
            }
            _ => Err(OrderFault::NestedBegin),
        }
    }

    fn commit(&mut self, lsn: Lsn, end: Lsn) -> Result<Event, OrderFault>
        ensures answer { Answers (step_commit self.old.state self.old.state.context lsn end)
            self.new.state result }
        ensures version { self.new.version ≡ self.old.version }
        ensures unchanged { OnErr result (self.new ≡ self.old) }
    {
        let (final_lsn, xid) = match &self.context {
            Context::Outside => return Err(OrderFault::CommitWithoutBegin),
            Context::InBlock { .. } => return Err(OrderFault::CommitMisplaced),
            Context::InPair { final_lsn, xid } => (*final_lsn, *xid),
        };
        if lsn != final_lsn {
            return Err(OrderFault::CommitLsnDiffers);
        }
        self.context = Context::Outside;
        Ok(Event::CommitPair { xid, lsn, end })
    }

    // Only this takes memory, and only where the segment is the first one.
    fn stream_start(&mut self, xid: u32, first: bool) -> Result<Event, OrderFault>
        ensures answer { result ≢ Err OrderFault.Memory →
            Answers (in_version_2 self.old.version
            (step_stream_start self.old.state self.old.state.context xid first)) self.new.state
            result }
        ensures memory { result ≡ Err OrderFault.Memory → IsTrue first
            × IsOk (in_version_2 self.old.version
            (step_stream_start self.old.state self.old.state.context xid first)) }
        ensures version { self.new.version ≡ self.old.version }
        ensures unchanged { OnErr result (self.new ≡ self.old) }
    {
        match (self.version, self.context) {
            (Version::One, _) => Err(OrderFault::StreamInVersion1),
            (Version::Two, Context::Outside) => self.start_outside(xid, first),
            (Version::Two, _) => Err(OrderFault::NestedStart),
        }
    }

    fn start_outside(&mut self, xid: u32, first: bool) -> Result<Event, OrderFault>
        requires { self.old.state.context ≡ Outside }
        ensures answer { result ≢ Err OrderFault.Memory →
            Answers (step_stream_start self.old.state Outside xid first) self.new.state result }
        ensures memory { result ≡ Err OrderFault.Memory → IsTrue first
            × IsOk (step_stream_start self.old.state Outside xid first) }
        ensures version { self.new.version ≡ self.old.version }
        ensures unchanged { OnErr result (self.new ≡ self.old) }
    {
        let is_open = self.open_xids.contains(xid);
        match (first, is_open) {
            (true, true) => Err(OrderFault::FirstFlagOnOpen),
            (false, false) => Err(OrderFault::LaterFlagOnUnknown),
            (true, false) => {
                self.open_xids.insert(xid)?;
                self.context = Context::InBlock { xid };
                Ok(Event::Open { xid })
            }
            (false, true) => {
                self.context = Context::InBlock { xid };
                Ok(Event::Reopen { xid })
            }
        }
    }

    fn stream_stop(&mut self) -> Result<Event, OrderFault>
        ensures answer { Answers (in_version_2 self.old.version
            (step_stream_stop self.old.state self.old.state.context)) self.new.state result }
        ensures version { self.new.version ≡ self.old.version }
        ensures unchanged { OnErr result (self.new ≡ self.old) }
    {
        match (self.version, self.context) {
            (Version::One, _) => Err(OrderFault::StreamInVersion1),
            (Version::Two, Context::InBlock { .. }) => {
                self.context = Context::Outside;
                Ok(Event::Close)
            }
            (Version::Two, _) => Err(OrderFault::StopWithoutStart),
        }
    }

    fn stream_commit(&mut self, xid: u32, lsn: Lsn, end: Lsn) -> Result<Event, OrderFault>
        ensures answer { Answers (in_version_2 self.old.version
            (step_stream_commit self.old.state self.old.state.context xid lsn end)) self.new.state
            result }
        ensures version { self.new.version ≡ self.old.version }
        ensures unchanged { OnErr result (self.new ≡ self.old) }
    {
        match (self.version, self.context) {
            (Version::One, _) => Err(OrderFault::StreamInVersion1),
            (Version::Two, Context::Outside) => {
                if self.open_xids.remove(xid) {
                    Ok(Event::CommitStream { xid, lsn, end })
                } else {
                    Err(OrderFault::CommitOfUnknown)
                }
            }
            (Version::Two, _) => Err(OrderFault::CommitMisplaced),
        }
    }

    // The abort of a transaction that isn't open is ignored.
    fn stream_abort(&mut self, xid: u32, subxid: u32) -> Result<Event, OrderFault>
        ensures answer { Answers (in_version_2 self.old.version
            (step_stream_abort self.old.state self.old.state.context xid subxid)) self.new.state
            result }
        ensures version { self.new.version ≡ self.old.version }
        ensures unchanged { OnErr result (self.new ≡ self.old) }
    {
        match (self.version, self.context) {
            (Version::One, _) => Err(OrderFault::StreamInVersion1),
            (Version::Two, Context::Outside) => Ok(self.abort_outside(xid, subxid)),
            (Version::Two, _) => Err(OrderFault::AbortMisplaced),
        }
    }

    fn abort_outside(&mut self, xid: u32, subxid: u32) -> Event
        requires { self.old.state.context ≡ Outside }
        ensures answer { step_stream_abort self.old.state Outside xid subxid
            ≡ Ok (self.new.state, result) }
        ensures version { self.new.version ≡ self.old.version }
    {
        if xid == subxid {
            if self.open_xids.remove(xid) {
                Event::Drop { xid }
            } else {
                Event::Ignore
            }
        } else if self.open_xids.contains(xid) {
            Event::Cut { xid, label: subxid }
        } else {
            Event::Ignore
        }
    }
}
