//! Applies the messages of a session in the order in which they come. It keeps the order of
//! messages, the buffered items of open transactions, the relation cache, the store, and the
//! confirmed and received positions.
//!
//! PostgreSQL documentation, Streaming Replication Protocol; Logical Streaming Replication
//! Protocol.

ghost use Rattle.std.specs.Prelude.{◌≡◌, ◌<◌, ◌≤◌, ◌⊎◌, ◌∷◌, ◌++◌, [], ℕ, ℤ, max, if◌then◌else◌};
ghost use Rattle.std.specs.Prelude.{false, true, Ok, Err, OnOk, OnErr, IfOk, IfErr};
ghost use Rattle.std.specs.FinMap as map;
ghost use Rattle.pglogical.specs.Borrowed.{message_value};
ghost use Rattle.pglogical.specs.Reading.{message_at};
ghost use Rattle.pglogical.specs.declared.message.Message.{Message};
ghost use Rattle.pgwire.specs.Frames.{CopyData};
ghost use Rattle.pgwire.specs.Statuses.{status_frame};
ghost use Rattle.pgsub_core.specs.Calls.Framing.{FramesGo, IsStopped, StopsAtBody, StopsAt};
ghost use Rattle.pglogical.specs.Spelling.{IsSpellableMessage, IsMessageFor};
ghost use Rattle.pgorder.specs.States.{is_in_block};
ghost use Rattle.pgorder.specs.Steps.{initial_order};
ghost use Rattle.pgspool.specs.Labels.{cut, items_of, held_of};
ghost use Rattle.pgsub_core.specs.Server.Stream.{Data, Keepalive, kind};
ghost use Rattle.pgsub_core.specs.Machine.ApplyState.{pushed};
ghost use Rattle.pgsub_core.specs.Machine.Taking.{take};
ghost use Rattle.pgsub_core.specs.Machine.Opened.{AreOpened, Fits, under_way_behind};
ghost use Rattle.pgapply.specs.Taken.{Begins, Leaves, LeavesStaged, Settles, Stays, Shows};
ghost use Rattle.pgapply.specs.Taken.{HearsOnly};
ghost use Rattle.pgsub_core.specs.Subscriber.Applied.{Goes, Stops, IsKept, StaysBesideStore};
ghost use Rattle.pgsub_core.specs.Calls.Committing.{Commits, RefusesCommit};
ghost use Rattle.pgsub_core.specs.Calls.Loading.{LoadsBeside};
ghost use Rattle.pgsub_core.specs.Machine.Counted.{message_counted, decoded_counted, frame_counted};
ghost use Rattle.pgsub_core.specs.Machine.Counted.{CountsCommit, CountsEvent, CountsBy};
ghost use Rattle.pgsub_core.specs.Calls.Staging.{Steps, Grows, KeepsItsSettings, IsMark, GoesBack};
ghost use Rattle.pgsub_core.specs.Calls.Events.{HasRoom, IsFull, FindsRoom, EventGoes, EventStops};
ghost use Rattle.pgsub_core.specs.Calls.Events.{StaysBeside};
ghost use Rattle.pgsub_core.specs.Machine.Faults.{IsOfSpools, IsReadFault};

use crate::committing::{Ending, about_of, commit, later};
use crate::committing_parts::commit_in_parts;
use crate::fault::Fault;
use crate::loading::Loads;
use bytes::BytesMut;
use pgapply::{DumpRow, LogicalMessage, Misses, ReplicaStore};
use pglogical::{MessageRef, decode_ref};
use pglsn::Lsn;
use pgorder::{Event, Order, Version};
use pgrel::Book;
use pgspool::{SpoolFault, Spools};
use pgwire::{ServerMsg, Status, decode_server, encode_status};
use std::alloc::Global;
use std::marker::Model;

/// What goes back where staged commits can't be settled: what was confirmed, received and replied
/// before the first of them.
#[derive(Clone, Copy)]
pub(crate) struct Mark {
    confirmed: Lsn,
    received: Lsn,
    replies: usize,
}

/// Applies the messages of a session to a store.
#[derive(Drop)]
pub(crate) struct Applier<P: Loads<C> + Drop, C: ReplicaStore + Drop> {
    alloc: Global,
    order: Order,
    book: Book,
    spools: P,
    store: C,
    confirmed: Lsn,
    received: Lsn,
    replies: BytesMut,
}

impl<P: Loads<C> + Drop, C: ReplicaStore + Drop> Model for Applier<P, C> {
    ghost use Rattle.pgsub_core.specs.Subscriber.Applied.{Applied, applied_code};

    ghost Value = { Applied C };

    ghost coded = { applied_code C.code };

    ghost view = { λ a. record {
      store = a.store;
      confirmed = a.confirmed;
      received = a.received;
      version = a.order.version;
      limit = P.most a.spools;
      order = a.order.state;
      held = P.held a.spools;
      relations = a.book;
      replies = a.replies.items;
    } };
}

// Opens a transaction, which has no items yet.
#[tactic(auto, using(crate::proofs::Spooling::of_keeping))]
fn open<P: Spools>(spools: &mut P, xid: u32) -> Result<(), Fault>
    requires { map.contains_key (P.held spools.old) xid ≡ false }
    ensures ok { OnOk result (P.held spools.new ≡ map.insert (P.held spools.old) xid []) }
    ensures refused { IfErr result (IsOfSpools P.may_fail) }
    ensures limit { P.most spools.new ≡ P.most spools.old }
{
    spools.open(xid)?;
    Ok(())
}

// Buffers the item of a message until its transaction commits, under the transaction or
// subtransaction that made it. A message without an item changes nothing.
#[tactic(auto, using(crate::proofs::Spooling::of_keeping))]
fn hold<P: Spools>(
    spools: &mut P,
    message: &MessageRef<'_>,
    xid: u32,
    subxid: u32,
) -> Result<(), Fault>
    requires open { map.contains_key (P.held spools.old) xid ≡ true }
    requires spellable { IsSpellableMessage (message_value message.now) }
    ensures ok { OnOk result (P.held spools.new
        ≡ pushed (P.held spools.old) xid subxid (kind (message_value message.now))) }
    ensures room { OnOk result (HasRoom (P.most spools.old) (P.held spools.old)
        (kind (message_value message.now))) }
    ensures refused { IfErr result (λ fault. IsOfSpools P.may_fail fault
        ⊎ ((fault ≡ Fault.Spool SpoolFault.SpoolFull)
        × IsFull (P.most spools.old) (P.held spools.old) (kind (message_value message.now)))) }
    ensures limit { P.most spools.new ≡ P.most spools.old }
{
    let MessageRef::Item { item, .. } = message else {
        return Ok(());
    };
    spools.push(xid, subxid, item)?;
    Ok(())
}

// Keeps a transaction's items before the first one of a subtransaction.
#[tactic(auto, using(crate::proofs::Spooling::of_failure))]
fn cut<P: Spools>(spools: &mut P, xid: u32, label: u32) -> Result<(), Fault>
    ensures ok { OnOk result (P.held spools.new ≡ (if map.contains_key (P.held spools.old) xid then
        map.insert (P.held spools.old) xid (cut label (held_of (P.held spools.old) xid))
        else P.held spools.old)) }
    ensures refused { IfErr result (IsOfSpools P.may_fail) }
    ensures limit { P.most spools.new ≡ P.most spools.old }
{
    spools.cut(xid, label)?;
    Ok(())
}

// Makes a transaction's items ready to be borrowed. The store learns whether they were read back as
// they were written.
#[tactic(auto, using(crate::proofs::Spooling::of_failure))]
fn load<P: Loads<C>, C: ReplicaStore>(spools: &mut P, xid: u32, store: &mut C) -> Result<(), Fault>
    ensures ready { OnOk result (P.is_ready spools.new xid) }
    ensures loaded { C.serves store.new → OnOk result (P.is_loaded spools.new xid) }
    ensures refused { IfErr result (IsOfSpools P.may_fail) }
    ensures held { P.held spools.new ≡ P.held spools.old }
    ensures limit { P.most spools.new ≡ P.most spools.old }
    ensures beside { LoadsBeside C.serves C.is_honest C.holds C.stages C.place C.reach C.tally
        C.stages_tally C.reopens store.old store.new }
{
    spools.load_beside(xid, store)?;
    Ok(())
}

// Stages the changes of a transaction that commits: part after part where together they take much
// memory. Else its items are loaded before anything of the commit is looked at, so that nothing is
// staged where that fails.
#[tactic(auto, using(crate::proofs::Spooling::stops_commit, crate::proofs::Spooling::feeding_of_spools, crate::proofs::Spooling::feeding_over))]
fn stage_commit<P: Loads<C>, C: ReplicaStore>(
    alloc: Global,
    book: &mut Book,
    spools: &mut P,
    store: &mut C,
    confirmed: Lsn,
    ending: Ending,
) -> Result<Lsn, Fault>
    ensures taken { C.serves store.new → IfOk result
        (λ confirmed'. Commits C.stages C.reach ending.end
        (items_of (held_of (P.held spools.old) ending.xid)) store.old confirmed book.old store.new
        confirmed' book.new) }
    ensures refused { C.serves store.new → IfErr result (RefusesCommit C.stages C.reach ending.end
        (items_of (held_of (P.held spools.old) ending.xid)) store.old confirmed book.old
        store.new) }
    ensures why { C.is_honest store.new → C.serves store.old →
        IfErr result (RefusesCommit C.stages C.reach ending.end
        (items_of (held_of (P.held spools.old) ending.xid)) store.old confirmed book.old
        store.old) }
    ensures counts { C.serves store.new → OnOk result
        (CountsCommit C.stages C.reach C.stages_tally ending.end ending.about
        (items_of (held_of (P.held spools.old) ending.xid)) store.old confirmed book.old
        store.new) }
    ensures steps { Steps C.holds C.place C.reopens C.serves C.is_honest C.reach C.tally
        C.stages_tally P.may_fail result store.old store.new }
    ensures held { P.held spools.new ≡ P.held spools.old }
    ensures limit { P.most spools.new ≡ P.most spools.old }
{
    if spools.is_long(ending.xid) && store.takes_parts() {
        return commit_in_parts(alloc, book, spools, store, confirmed, ending);
    }
    load(spools, ending.xid, store)?;
    commit(alloc, book, spools, store, confirmed, ending)
}

// The confirmed position after a keepalive: its end counts only outside pairs and blocks.
fn confirmed_by(outside: bool, confirmed: Lsn, end: Lsn) -> Lsn
    ensures { result ≡ (if outside then max confirmed end else confirmed) }
{
    if outside {
        later(confirmed, end)
    } else {
        confirmed
    }
}

// Appends a status if a reply is asked for. After an error the replies are unchanged.
fn append_reply(asks: bool, status: &Status, replies: &mut BytesMut) -> Result<(), Fault>
    ensures ok { OnOk result (replies.new.items
        ≡ (if asks then replies.old.items ++ status_frame status.now else replies.old.items)) }
    ensures err { OnErr result (replies.new.items ≡ replies.old.items) }
    ensures memory { IfErr result (λ fault. fault ≡ Fault.Memory) }
{
    if !asks {
        return Ok(());
    }
    encode_status(status, replies)?;
    Ok(())
}

impl<P: Loads<C> + Drop, C: ReplicaStore + Drop> Applier<P, C> {
    /// Over a store, as after a disconnection.
    pub fn new(alloc: Global, store: C, spools: P, version: Version) -> Applier<P, C>
        ensures store { result.store ≡ store }
        ensures confirmed { result.confirmed ≡ C.place store }
        ensures received { result.received ≡ C.place store }
        ensures version { result.version ≡ version }
        ensures limit { result.limit ≡ P.most spools }
        ensures order { result.order ≡ initial_order }
        ensures held { result.held ≡ map.empty }
        ensures relations { result.relations ≡ map.empty }
        ensures replies { result.replies ≡ [] }
    {
        let mut spools = spools;
        spools.clear();
        let position = store.position();
        Applier {
            alloc,
            order: Order::new(alloc, version),
            book: Book::new(alloc),
            spools,
            store,
            confirmed: position,
            received: position,
            replies: BytesMut::new(alloc),
        }
    }

    /// Forgets the session: the order of messages, the relation cache, buffered items and unsent
    /// replies.
    pub fn disconnect(&mut self)
        ensures store { self.new.store ≡ self.old.store }
        ensures confirmed { self.new.confirmed ≡ self.old.confirmed }
        ensures received { self.new.received ≡ self.old.confirmed }
        ensures version { self.new.version ≡ self.old.version }
        ensures limit { self.new.limit ≡ self.old.limit }
        ensures order { self.new.order ≡ initial_order }
        ensures held { self.new.held ≡ map.empty }
        ensures relations { self.new.relations ≡ map.empty }
        ensures replies { self.new.replies ≡ [] }
    {
        self.order.reset();
        self.book.clear();
        self.spools.clear();
        self.received = self.confirmed;
        self.replies.clear();
    }

    /// The position up to which the stored rows are complete.
    pub fn position(&self) -> Lsn
        ensures position { result ≡ C.place self.now.store }
        ensures contains { C.serves self.now.store →
            Leaves C.holds C.place C.reopens self.now.store }
        ensures keeps { C.is_honest self.now.store → (other : C) → C.reopens self.now.store other →
            C.place self.now.store ≤ C.place other }
    {
        self.store.position()
    }

    /// Drops what is staged in the store.
    pub fn unstage(&mut self)
        ensures beside { StaysBesideStore self.old self.new }
        ensures reach { C.reach self.new.store ≡ C.place self.old.store }
        ensures position { C.place self.new.store ≡ C.place self.old.store }
        ensures unchanged { Stays C.holds self.old.store self.new.store }
        ensures staged { Begins C.holds C.stages self.old.store self.new.store }
        ensures settled { Settles C.holds C.stages self.new.store self.new.store }
        ensures tally { C.tally self.new.store ≡ C.tally self.old.store }
        ensures unstaged { C.stages_tally self.new.store ≡ C.tally self.old.store }
        ensures serves { C.serves self.old.store → C.serves self.new.store }
        ensures served { C.serves self.new.store → C.serves self.old.store }
        ensures stays_honest { C.is_honest self.old.store → C.is_honest self.new.store }
        ensures honest { C.is_honest self.new.store → C.is_honest self.old.store }
        ensures crash { (other : C) → C.reopens self.new.store other →
            C.reopens self.old.store other }
    {
        self.store.unstage();
        // asking for it tells that nothing is staged beside what is stored
        let _reached = self.store.reached();
    }

    /// What goes back where the commits that are staged from now on can't be settled.
    pub fn mark(&self) -> Mark
        ensures { IsMark self.now result.confirmed result.received result.replies }
    {
        Mark {
            confirmed: self.confirmed,
            received: self.received,
            replies: self.replies.as_slice().len(),
        }
    }

    /// Whether nothing is staged.
    pub fn is_settled(&self) -> bool
        ensures settled { result ≡ true → C.reach self.now.store ≡ C.place self.now.store }
        ensures held { result ≡ true → Settles C.holds C.stages self.now.store self.now.store }
        ensures staged { result ≡ false → C.place self.now.store < C.reach self.now.store }
    {
        self.store.reached() <= self.store.position()
    }

    /// Settles what is staged. Where that fails, what was confirmed, received and replied is as at
    /// the mark.
    pub fn settle(&mut self, mark: &Mark) -> Result<(), Fault>
        ensures beside { OnOk result (StaysBesideStore self.old self.new) }
        ensures back { OnErr result (GoesBack mark.now.confirmed mark.now.received
            mark.now.replies self.old self.new) }
        ensures settled { C.serves self.new.store → OnOk result
            (Settles C.holds C.stages self.old.store self.new.store) }
        ensures end { OnOk result (C.place self.new.store ≡ C.reach self.old.store) }
        ensures leaves { C.serves self.new.store → OnOk result
            (Leaves C.holds C.place C.reopens self.new.store) }
        ensures unchanged { C.serves self.new.store → OnErr result
            (Stays C.holds self.old.store self.new.store) }
        ensures position { OnErr result (C.place self.new.store ≡ C.place self.old.store) }
        ensures some { OnErr result (C.place self.old.store < C.reach self.old.store) }
        ensures order { C.place self.old.store ≤ C.reach self.old.store }
        ensures nothing { C.reach self.old.store ≡ C.place self.old.store →
            self.new.store ≡ self.old.store }
        ensures fault { IfErr result IsReadFault }
        ensures counts { OnOk result (C.tally self.new.store ≡ C.stages_tally self.old.store) }
        ensures uncounted { OnErr result (C.tally self.new.store ≡ C.tally self.old.store) }
        ensures served { C.serves self.new.store → C.serves self.old.store }
        ensures open { C.is_honest self.new.store →
            C.place self.old.store < C.reach self.old.store →
            OnOk result (C.serves self.new.store) }
        ensures honest { C.is_honest self.new.store → C.is_honest self.old.store }
        ensures crash { C.is_honest self.new.store → (other : C) →
            C.reopens self.new.store other → C.reopens self.old.store other
            ⊎ (C.serves self.old.store
            × LeavesStaged C.holds C.place C.stages C.reach self.old.store other) }
    {
        // asking for it tells that it is no lower than the position
        let _reached = self.store.reached();
        match self.store.settle() {
            Ok(()) => {
                // asking for it tells what a crash leaves from now on
                let _position = self.store.position();
                Ok(())
            }
            Err(fault) => {
                self.confirmed = mark.confirmed;
                self.received = mark.received;
                self.replies.truncate(mark.replies);
                Err(Fault::from(fault))
            }
        }
    }

    // Applies what a message means where it comes. The items of a transaction that commits are
    // buffered no longer.
    #[tactic(auto, using(crate::proofs::Spooling::stops_event, crate::proofs::Spooling::feeding_of_spools))]
    fn take_event(&mut self, message: &MessageRef<'_>, event: Event) -> Result<(), Fault>
        requires fits { Fits self.old.held event }
        requires spellable { IsSpellableMessage (message_value message.now) }
        ensures goes { C.serves self.new.store →
            OnOk result (EventGoes C.stages C.reach
            (message_value message.now) event self.old self.new) }
        ensures room { OnOk result (FindsRoom event self.old.limit self.old.held
            (kind (message_value message.now))) }
        ensures opened { OnOk result ((x : ℕ) → map.contains_key self.new.held x
            ≡ under_way_behind event (map.contains_key self.old.held) x) }
        ensures refused { C.serves self.new.store →
            IfErr result (EventStops C.stages C.reach
            (message_value message.now) event self.old self.new) }
        ensures why { C.is_honest self.new.store → C.serves self.old.store →
            IfErr result (EventStops C.stages C.reach
            (message_value message.now) event self.old self.old) }
        ensures counts { C.serves self.new.store →
            OnOk result (CountsEvent C.stages C.reach C.stages_tally
            (message_value message.now) event self.old self.new) }
        ensures steps { Steps C.holds C.place C.reopens C.serves C.is_honest C.reach C.tally
            C.stages_tally P.may_fail result self.old.store self.new.store }
        ensures beside { StaysBeside self.old self.new }
        ensures kept { OnErr result (IsKept C.reach self.old self.new) }
    {
        match event {
            Event::Ignore | Event::Reopen { .. } | Event::Close => Ok(()),
            Event::Begin { xid } | Event::Open { xid } => open(&mut self.spools, xid),
            Event::Hold { top, label } => hold(&mut self.spools, message, top, label),
            Event::Cut { xid, label } => cut(&mut self.spools, xid, label),
            Event::Drop { xid } => {
                self.spools.drop_xid(xid);
                Ok(())
            }
            Event::CommitPair { xid, end, .. } | Event::CommitStream { xid, end, .. } => {
                let about = about_of(message, xid);
                let confirmed = stage_commit(
                    self.alloc,
                    &mut self.book,
                    &mut self.spools,
                    &mut self.store,
                    self.confirmed,
                    Ending { xid, end, about },
                )?;
                self.confirmed = confirmed;
                self.spools.drop_xid(xid);
                Ok(())
            }
        }
    }

    // Hands a message that belongs to a transaction to the store, which keeps it for the next
    // commit. What it heard before a pair or the commit of a streamed transaction is of another
    // one, also where that was a repeat or its session broke off.
    #[inline(always)]
    fn hear(&mut self, message: &MessageRef<'_>)
        ensures beside { StaysBesideStore self.old self.new }
        ensures hears { HearsOnly C.serves C.is_honest C.holds C.stages C.place C.reach C.tally
            C.stages_tally C.reopens self.old.store self.new.store }
    {
        match message {
            MessageRef::Begin { .. } | MessageRef::StreamCommit { .. } => self.store.forget(),
            MessageRef::Logical {
                xid,
                transactional: true,
                lsn,
                prefix,
                content,
            } => self.store.hear(&LogicalMessage {
                lsn: *lsn,
                prefix,
                content,
                is_streamed: xid.is_some(),
            }),
            _ => {}
        }
    }

    // Applies a logical message. `start` and `end` are the fields of its XLogData.
    #[tactic(auto, using(crate::proofs::Spooling::feeding_over))]
    fn take_message(&mut self, message: &MessageRef<'_>, start: Lsn, end: Lsn) -> Result<(), Fault>
        requires for_place { IsMessageFor (is_in_block self.old.order.context)
            (message_value message.now) }
        requires spellable { IsSpellableMessage (message_value message.now) }
        requires opened { AreOpened self.old.order self.old.held }
        ensures takes { C.serves self.new.store →
            OnOk result ((now clock : ℤ) →
            Goes C.stages C.reach (λ s. take now s
            (Data start end clock (message_value message.now))) self.old self.new) }
        ensures opened { OnOk result (AreOpened self.new.order self.new.held) }
        ensures silent { self.new.replies ≡ self.old.replies }
        ensures settings { KeepsItsSettings self.old self.new }
        ensures refused { C.serves self.new.store →
            IfErr result (λ fault. (now clock : ℤ) →
            Stops C.stages C.reach now (Data start end clock (message_value message.now)) self.old
            self.new fault) }
        ensures why { C.is_honest self.new.store → C.serves self.old.store →
            IfErr result (λ fault. (now clock : ℤ) →
            Stops C.stages C.reach now (Data start end clock (message_value message.now)) self.old
            self.old fault) }
        ensures counts { C.serves self.new.store →
            OnOk result (CountsBy C.stages C.reach C.stages_tally
            (λ s. message_counted s (message_value message.now)) self.old self.new) }
        ensures steps { Steps C.holds C.place C.reopens C.serves C.is_honest C.reach C.tally
            C.stages_tally P.may_fail result self.old.store self.new.store }
        ensures kept { OnErr result (IsKept C.reach self.old self.new) }
    {
        self.hear(message);
        let event = self.order.step(message)?;
        self.take_event(message, event)?;
        self.received = later(self.confirmed, later(self.received, later(start, end)));
        Ok(())
    }

    /// Applies the payload of a CopyData frame: XLogData with a logical message, or a keepalive.
    /// `now` is the clock of a reply.
    #[tactic(auto, using(crate::proofs::Spooling::feeding_over))]
    pub fn take_payload(&mut self, payload: &[u8], now: i64) -> Result<(), Fault>
        requires opened { AreOpened self.old.order self.old.held }
        ensures takes { C.serves self.new.store →
            OnOk result (FramesGo C.stages C.reach now
            (CopyData payload.now ∷ []) self.old self.new) }
        ensures refused { C.serves self.new.store →
            IfErr result (IsStopped C.stages C.reach
            (StopsAt (CopyData payload.now) now) self.old self.new) }
        ensures why { C.is_honest self.new.store → C.serves self.old.store →
            IfErr result (IsStopped C.stages C.reach
            (StopsAt (CopyData payload.now) now) self.old self.old) }
        ensures counts { C.serves self.new.store →
            OnOk result (CountsBy C.stages C.reach C.stages_tally
            (λ s. frame_counted s (CopyData payload.now)) self.old self.new) }
        ensures steps { Steps C.holds C.place C.reopens C.serves C.is_honest C.reach C.tally
            C.stages_tally P.may_fail result self.old.store self.new.store }
        ensures grows { Grows self.old.replies self.new.replies }
        ensures settings { KeepsItsSettings self.old self.new }
        ensures opened { OnOk result (AreOpened self.new.order self.new.held) }
        ensures kept { OnErr result (IsKept C.reach self.old self.new) }
    {
        let message = match decode_server(payload) {
            Ok(message) => message,
            Err(fault) => return Err(Fault::Wire(fault)),
        };
        match &message {
            ServerMsg::Data {
                start,
                end,
                body,
                ..
            } => {
                // decoded in place
                let logical = decode_ref(body, self.order.in_block())?;
                self.take_message(&logical, *start, *end)
            }
            ServerMsg::Keepalive { end, reply, .. } => self.take_keepalive(*end, *reply, now),
        }
    }

    // Confirms the end of a quiet keepalive, and appends the status that it asks for.
    fn take_keepalive(&mut self, end: Lsn, reply: bool, now: i64) -> Result<(), Fault>
        requires opened { AreOpened self.old.order self.old.held }
        ensures takes { OnOk result ((clock : ℤ) →
            Goes C.stages C.reach (λ s. take now s (Keepalive end clock reply)) self.old self.new) }
        ensures grows { Grows self.old.replies self.new.replies }
        ensures settings { KeepsItsSettings self.old self.new }
        ensures memory { IfErr result (λ f. f ≡ Fault.Memory) }
        ensures opened { OnOk result (AreOpened self.new.order self.new.held) }
        ensures kept { OnErr result (IsKept C.reach self.old self.new) }
        ensures store { self.new.store ≡ self.old.store }
    {
        let confirmed = confirmed_by(self.order.is_outside(), self.confirmed, end);
        let received = later(confirmed, later(self.received, end));
        let status = Status {
            written: received,
            flushed: confirmed,
            applied: confirmed,
            clock: now,
            ask: false,
        };
        append_reply(reply, &status, &mut self.replies)?;
        self.confirmed = confirmed;
        self.received = received;
        Ok(())
    }

    /// The position that the server may forget up to.
    pub fn confirmed(&self) -> Lsn
        ensures { result ≡ self.now.confirmed }
    {
        self.confirmed
    }

    /// The greatest position that the session has named.
    pub fn received(&self) -> Lsn
        ensures { result ≡ self.now.received }
    {
        self.received
    }

    /// The status frames that wait to be sent.
    pub fn replies(&self) -> &[u8]
        ensures { result.now ≡ self.now.replies }
    {
        self.replies.as_slice()
    }

    /// Drops the status frames, once they were sent.
    pub fn clear_replies(&mut self)
        ensures { self.new ≡ record self.old { replies = [] } }
    {
        self.replies.clear();
    }

    /// Appends a status of what is received and confirmed to the frames that wait to be sent.
    pub fn append_status(&mut self, now: i64, ask: bool) -> Result<(), Fault>
        ensures ok { OnOk result (self.new ≡ record self.old {
          replies = self.old.replies ++ status_frame
              (record {
                written = self.old.received;
                flushed = self.old.confirmed;
                applied =
                    self.old.confirmed;
                clock = now;
                ask = ask;
              });
        }) }
        ensures err { OnErr result (self.new ≡ self.old) }
        ensures memory { IfErr result (λ fault. fault ≡ Fault.Memory) }
    {
        let status = Status {
            written: self.received,
            flushed: self.confirmed,
            applied: self.confirmed,
            clock: now,
            ask,
        };
        append_reply(true, &status, &mut self.replies)
    }

    /// How many changes of stored commits found no row.
    pub fn misses(&self) -> Misses
        ensures { result ≡ (C.tally self.now.store).misses }
    {
        self.store.misses()
    }

    /// All rows of the store. Nothing changes.
    pub fn rows(&mut self) -> Result<Vec<DumpRow>, Fault>
        ensures rows { C.serves self.new.store →
            IfOk result (λ rows. Shows C.holds self.old.store rows.items) }
        ensures unchanged { C.serves self.new.store → Stays C.holds self.old.store self.new.store }
        ensures tally { C.tally self.new.store ≡ C.tally self.old.store }
        ensures kept { IsKept C.place self.old self.new }
        ensures beside { StaysBesideStore self.old self.new }
        ensures fault { C.is_honest self.new.store → IfErr result IsReadFault }
        ensures serving_fault { C.serves self.new.store → IfErr result IsReadFault }
        ensures served { C.serves self.new.store → C.serves self.old.store }
        ensures open { C.is_honest self.new.store → OnOk result (C.serves self.new.store) }
        ensures honest { C.is_honest self.new.store → C.is_honest self.old.store }
        ensures crash { C.is_honest self.new.store → (other : C) → C.reopens self.new.store other →
            C.reopens self.old.store other }
    {
        let rows = self.store.rows()?;
        Ok(rows)
    }

    /// Gives the store back, and drops the rest.
    pub fn into_store(self) -> C
        ensures { result ≡ self.store }
    {
        self.store
    }
}
