//! A watch over the messages of one session.
ghost use Rattle.std.specs.Prelude.{◌≡◌, ◌≢◌, Some, None, IfOk, IfErr, IfSome, Err, Ok, [], ◌∷◌};
ghost use Rattle.std.specs.Prelude.{IsOk, reverse};
ghost use Rattle.pglogical.specs.Borrowed.{message_value};
ghost use Rattle.pglogical.specs.Spelling.{IsMessageFor};
ghost use Rattle.pgorder.specs.States.{is_in_block};
ghost use Rattle.pgwatch.specs.Hearing.{at_start, first_unknown, relation_noted, changed_by};
ghost use Rattle.pgwatch.specs.Hearing.{item_noted, opened, aborted, meant, Message, Keepalive};
ghost use Rattle.pgwatch.specs.Hearing.{Hears, TakesMemory, ItemTakesMemory, IsRelation, is_full};
ghost use Rattle.pgwatch.specs.Hearing.{what_of, note, item_or_noted, replayed, replayed_one};
ghost use Rattle.pgwatch.specs.Hearing.{stream_judged};

use crate::facts::Facts;
use crate::fault::Breach;
use crate::known::Known;
use crate::nest::Misfit;
use crate::noted::{Noted, What};
use crate::streams::Streams;
use pglogical::{ItemParts, ItemRef, MessageRef, OidRefs};
use pglsn::Lsn;
use pgorder::{Event, Order, OrderFault, Version};
use std::alloc::Global;

/// A watch over one session, of protocol version 1 or 2. It ends for good with the first error.
/// What it holds are the OIDs of the relations that were described, the xids of the streamed
/// transactions that are open, and of each item of these its subxid, its frame and its relations.
///
/// PostgreSQL documentation, Logical Streaming Replication Protocol.
#[derive(Drop)]
pub struct Watch {
    order: Order,
    known: Known,
    limit: u64,
    held: u64,
    streams: Streams,
    facts: Facts,
    ended: Option<Breach>,
}

impl Watch {
    /// A watch over a session that starts at `start`. It holds at most `limit` relations, open
    /// transactions and items of these.
    pub fn new(alloc: Global, version: Version, start: Lsn, limit: u64) -> Watch
        ensures { result ≡ at_start version start limit }
    {
        Watch {
            order: Order::new(alloc, version),
            known: Known::new(alloc),
            limit,
            held: 0,
            streams: Streams::new(alloc),
            facts: Facts::new(start),
            ended: None,
        }
    }

    /// Whether the next message is inside a block of a streamed transaction.
    pub fn in_block(&self) -> bool
        ensures { result ≡ is_in_block self.now.order.state.context }
    {
        self.order.in_block()
    }

    /// Hears a message, which came with the frame `at`.
    ///
    /// # Errors
    ///
    /// The rule that is broken, or why the session is no longer watched; from then on always the
    /// same.
    pub fn message(&mut self, at: u64, message: &MessageRef<'_>) -> Result<(), Breach>
        requires { self.old.ended ≡ None → IsMessageFor (is_in_block self.old.order.state.context)
            (message_value message.now) }
        ensures heard { self.old.ended ≡ None →
            Hears self.old (Message at (message_value message.now)) self.new result }
        ensures memory { self.old.ended ≡ None → result ≡ Err (Breach.Memory at) →
            TakesMemory (is_in_block self.old.order.state.context) (message_value message.now) }
        ensures ends { IfErr result (λ breach. self.new.ended ≡ Some breach) }
        ensures stays { (breach : Breach) → self.old.ended ≡ Some breach → result ≡ Err breach }
    {
        if let Some(breach) = self.ended {
            return Err(breach);
        }
        match self.take(at, message) {
            Ok(()) => Ok(()),
            Err(breach) => {
                self.ended = Some(again(&breach));
                Err(breach)
            }
        }
    }

    /// Hears the end that a keepalive names, which came with the frame `at`.
    ///
    /// # Errors
    ///
    /// That with which the watch has ended.
    pub fn keepalive(&mut self, at: u64, end: Lsn) -> Result<(), Breach>
        ensures heard { self.old.ended ≡ None →
            Hears self.old (Keepalive at end) self.new result }
        ensures well { self.old.ended ≡ None → IsOk result }
        ensures ends { IfErr result (λ breach. self.new.ended ≡ Some breach) }
        ensures stays { (breach : Breach) → self.old.ended ≡ Some breach → result ≡ Err breach }
    {
        if let Some(breach) = self.ended {
            return Err(breach);
        }
        self.facts.keepalive(at, end);
        Ok(())
    }

    fn take(&mut self, at: u64, message: &MessageRef<'_>) -> Result<(), Breach>
        requires { IsMessageFor (is_in_block self.old.order.state.context)
            (message_value message.now) }
        ensures heard { Hears self.old (Message at (message_value message.now)) self.new result }
        ensures memory { result ≡ Err (Breach.Memory at) →
            TakesMemory (is_in_block self.old.order.state.context) (message_value message.now) }
    {
        match self.order.step(message) {
            Ok(event) => self.mean(at, message, event),
            Err(OrderFault::Memory) => Err(Breach::Memory { at }),
            Err(fault) => Err(Breach::Disordered { at, fault }),
        }
    }

    // A message that comes in order, as this event.
    fn mean(&mut self, at: u64, message: &MessageRef<'_>, event: Event) -> Result<(), Breach>
        ensures ok { IfOk result (λ _. meant self.old at (message_value message.now) event
            ≡ Ok self.new) }
        ensures err { IfErr result (λ b. b ≢ Breach.Memory at →
            meant self.old at (message_value message.now) event ≡ Err b) }
        ensures memory { result ≡ Err (Breach.Memory at) →
            TakesMemory (is_in_block self.old.order.state.context) (message_value message.now) }
    {
        match message {
            MessageRef::Begin { .. } => {
                self.facts.begin();
                Ok(())
            }
            MessageRef::Commit {
                commit_lsn,
                end_lsn,
                ..
            } => self.facts.commit(at, *commit_lsn, *end_lsn),
            MessageRef::Item { item, .. } => self.item_or_block(at, item, event),
            MessageRef::StreamStart {
                first_segment: true,
                ..
            } => self.open(at),
            MessageRef::StreamCommit {
                xid,
                commit_lsn,
                end_lsn,
                ..
            } => self.stream_commit(at, *xid, *commit_lsn, *end_lsn),
            MessageRef::StreamAbort { .. } => self.stream_abort(at, event),
            _ => Ok(()),
        }
    }

    // Whether no more is held.
    fn is_full(&self) -> bool
        ensures { result ≡ is_full self.now }
    {
        self.limit <= self.held || self.limit - self.held <= self.streams.len() as u64
    }

    // A streamed transaction opens.
    fn open(&mut self, at: u64) -> Result<(), Breach>
        ensures ok { IfOk result (λ _. opened self.old at ≡ Ok self.new) }
        ensures err { IfErr result (λ b. opened self.old at ≡ Err b) }
    {
        if self.is_full() {
            return Err(Breach::Full { at });
        }
        self.held += 1;
        Ok(())
    }

    // An item or an abort of an open transaction is kept.
    fn note(&mut self, at: u64, xid: u32, subxid: u32, what: What) -> Result<(), Breach>
        ensures ok { IfOk result (λ _. note self.old at xid subxid what ≡ Ok self.new) }
        ensures err { IfErr result (λ b. b ≢ Breach.Memory at →
            note self.old at xid subxid what ≡ Err b) }
    {
        if self.is_full() {
            return Err(Breach::Full { at });
        }
        match self.streams.push(Noted {
            xid,
            subxid,
            at,
            what,
        }) {
            Ok(()) => Ok(()),
            Err(_) => Err(Breach::Memory { at }),
        }
    }

    // A streamed transaction or a part of it is aborted, or one that isn't open.
    fn stream_abort(&mut self, at: u64, event: Event) -> Result<(), Breach>
        ensures ok { IfOk result (λ _. aborted self.old at event ≡ Ok self.new) }
        ensures err { IfErr result (λ b. b ≢ Breach.Memory at → aborted self.old at event ≡ Err b) }
    {
        match event {
            Event::Drop { xid } => {
                self.held = self.held.saturating_sub(1);
                match self.streams.take(xid) {
                    Ok(_) => Ok(()),
                    Err(_) => Err(Breach::Memory { at }),
                }
            }
            Event::Cut { xid, label } => self.note(at, xid, label, What::Abort),
            _ => Ok(()),
        }
    }

    #[tactic(auto, using(crate::proofs::Judged::judged_ok, crate::proofs::Judged::judged_err))]
    // A streamed transaction commits: what survives of it is as the items of a pair.
    fn stream_commit(&mut self, at: u64, xid: u32, lsn: Lsn, end: Lsn) -> Result<(), Breach>
        ensures ok { IfOk result (λ _. stream_judged self.old at xid lsn end ≡ Ok self.new) }
        ensures err { IfErr result (λ b. b ≢ Breach.Memory at →
            stream_judged self.old at xid lsn end ≡ Err b) }
    {
        match self.streams.unnest(xid) {
            Ok(surviving) => {
                self.held = self.held.saturating_sub(1);
                self.facts.begin();
                self.replay(at, surviving)?;
                self.facts.commit(at, lsn, end)
            }
            Err(Misfit::Unnested { cause, subxid }) => Err(Breach::Unnested { at, cause, subxid }),
            Err(Misfit::Memory) => Err(Breach::Memory { at }),
        }
    }

    #[tactic(auto, using(crate::proofs::Nests::reverse_last))]
    // What survives of a streamed transaction, of which the last item comes first.
    fn replay(&mut self, at: u64, surviving: Vec<Noted>) -> Result<(), Breach>
        ensures ok { IfOk result (λ _. replayed self.old at (reverse surviving.items)
            ≡ Ok self.new) }
        ensures err { IfErr result (λ b. b ≢ Breach.Memory at →
            replayed self.old at (reverse surviving.items) ≡ Err b) }
    {
        let mut left = surviving;
        while let Some(noted) = left.pop() {
            self.replay_one(at, noted)?;
        }
        Ok(())
    }

    // One item of it.
    fn replay_one(&mut self, at: u64, noted: Noted) -> Result<(), Breach>
        ensures ok { IfOk result (λ _. replayed_one self.old at noted ≡ Ok self.new) }
        ensures err { IfErr result (λ b. b ≢ Breach.Memory at →
            replayed_one self.old at noted ≡ Err b) }
    {
        let Noted {
            at: cause,
            what,
            ..
        } = noted;
        match what {
            What::Relation(oid) => self.relation(at, oid),
            What::Change(oid) => {
                self.change(cause, oid);
                Ok(())
            }
            What::Truncate(oids) => {
                let oids = OidRefs::of(oids.as_slice());
                self.truncate(cause, &oids);
                Ok(())
            }
            What::Abort => Ok(()),
        }
    }

    // An item, which is kept in a block.
    fn item_or_block(&mut self, at: u64, item: &ItemRef<'_>, event: Event) -> Result<(), Breach>
        ensures ok { IfOk result (λ _. item_or_noted self.old at item.now event ≡ Ok self.new) }
        ensures err { IfErr result (λ b. b ≢ Breach.Memory at →
            item_or_noted self.old at item.now event ≡ Err b) }
        ensures memory { result ≡ Err (Breach.Memory at) →
            ItemTakesMemory (is_in_block self.old.order.state.context) item.now }
    {
        if !self.order.in_block() {
            return self.item(at, item);
        }
        let Event::Hold { top, label } = event else {
            return Ok(());
        };
        match what_of(self.streams.alloc(), item) {
            Some(what) => self.note(at, top, label, what),
            None => Err(Breach::Memory { at }),
        }
    }

    // An item of the pair that is under way.
    fn item(&mut self, at: u64, item: &ItemRef<'_>) -> Result<(), Breach>
        ensures ok { IfOk result (λ _. item_noted self.old at item.now ≡ Ok self.new) }
        ensures err { IfErr result (λ b. b ≢ Breach.Memory at →
            item_noted self.old at item.now ≡ Err b) }
        ensures memory { result ≡ Err (Breach.Memory at) → IsRelation item.now }
    {
        match item.parts() {
            ItemParts::Relation(def) => self.relation(at, def.oid),
            ItemParts::Insert { oid, .. } => {
                self.change(at, oid);
                Ok(())
            }
            ItemParts::Update { oid, .. } => {
                self.change(at, oid);
                Ok(())
            }
            ItemParts::Delete { oid, .. } => {
                self.change(at, oid);
                Ok(())
            }
            ItemParts::Truncate { oids, .. } => {
                self.truncate(at, &oids);
                Ok(())
            }
        }
    }

    // A relation is described.
    fn relation(&mut self, at: u64, oid: u32) -> Result<(), Breach>
        ensures ok { IfOk result (λ _. relation_noted self.old at oid ≡ Ok self.new) }
        ensures err { IfErr result (λ b. b ≢ Breach.Memory at →
            relation_noted self.old at oid ≡ Err b) }
    {
        if self.known.contains(oid) {
            return Ok(());
        }
        if self.is_full() {
            return Err(Breach::Full { at });
        }
        match self.known.insert(oid) {
            Ok(()) => {
                self.held += 1;
                Ok(())
            }
            Err(_) => Err(Breach::Memory { at }),
        }
    }

    // One relation is changed.
    fn change(&mut self, at: u64, oid: u32)
        ensures { self.new ≡ changed_by self.old at (oid ∷ []) }
    {
        let unknown = if self.known.contains(oid) {
            None
        } else {
            Some(oid)
        };
        self.facts.change(at, unknown, true);
    }

    // These relations are truncated.
    fn truncate(&mut self, at: u64, oids: &OidRefs<'_>)
        ensures { self.new ≡ changed_by self.old at oids.now }
    {
        let unknown = first_unknown(&self.known, oids);
        self.facts.change(at, unknown, oids.len() > 0);
    }
}

// The same once more.
fn again(breach: &Breach) -> Breach
    ensures { result ≡ breach.now }
{
    *breach
}

// The first relation that isn't known.
fn first_unknown(known: &Known, oids: &OidRefs<'_>) -> Option<u32>
    ensures { result ≡ first_unknown known.now oids.now }
{
    for oid in oids.reborrow() {
        if !known.contains(oid) {
            return Some(oid);
        }
    }
    None
}

// What is kept of an item. It is none only where memory runs out.
fn what_of(alloc: Global, item: &ItemRef<'_>) -> Option<What>
    ensures { IfSome result (λ what. what ≡ what_of item.now) }
{
    match item.parts() {
        ItemParts::Relation(def) => Some(What::Relation(def.oid)),
        ItemParts::Insert { oid, .. } => Some(What::Change(oid)),
        ItemParts::Update { oid, .. } => Some(What::Change(oid)),
        ItemParts::Delete { oid, .. } => Some(What::Change(oid)),
        ItemParts::Truncate { oids, .. } => match oids.to_oids(alloc) {
            Ok(oids) => Some(What::Truncate(oids)),
            Err(_) => None,
        },
    }
}
