//! What a feed has heard of the transaction whose commit comes next.
//!
//! PostgreSQL documentation, Logical Replication Message Formats, Message.

ghost use Rattle.std.specs.Prelude.{◌≡◌, ◌⊎◌, ◌<◌, ◌≤◌, ◌+◌, ◌^◌, ◌++◌, ◌∷◌, [], ℕ, Option, Some};
ghost use Rattle.std.specs.Prelude.{None, IfErr, IfNone, IfSome, IsSome, OnOk};
ghost use Rattle.pgapply.specs.Stored.{IsOwnFault};
ghost use Rattle.pgledger.specs.Entries.{heard_of, messages_of, with_heard};
ghost use Rattle.pgfeed.specs.Hearing.{IsWithin, all_heard, message_size};
ghost use Rattle.pgfeed.specs.declared.fault.MessageFault.TheVariants.{Memory, TooLong};

use crate::fault::MessageFault;
use pgapply::{LogicalMessage, StoreFault};
use pgledger::Heard;
use std::alloc::Global;

/// The messages of a transaction, as far as all could be kept.
#[derive(Drop)]
pub(crate) struct Hearing {
    alloc: Global,
    messages: Vec<Heard>,
    bytes: u64,
    lost: Option<MessageFault>,
}

/// So many bytes, and those of a message's prefix and content.
fn bytes_with(bytes: u64, message: &LogicalMessage<'_>) -> Option<u64>
    ensures sum { IfSome result (λ sum. sum ≡ bytes + message_size (heard_of message.now)) }
    ensures none { IfNone result (2 ^ 64 ≤ bytes + message_size (heard_of message.now)) }
{
    let prefix = bytes.checked_add(message.prefix.len() as u64)?;
    prefix.checked_add(message.content.len() as u64)
}

impl Hearing {
    /// Nothing was heard.
    #[tactic(auto, using(crate::proofs::Heard::none_within))]
    pub(crate) fn new(alloc: Global) -> Hearing
        ensures nothing { all_heard result ≡ Some [] }
        ensures within { (limit : Option ℕ) → IsWithin limit result }
    {
        Hearing {
            alloc,
            messages: Vec::new(alloc),
            bytes: 0,
            lost: None,
        }
    }

    /// What was heard, or nothing where not all could be kept.
    pub(crate) fn messages(&self) -> &[Heard]
        ensures { result.now ≡ messages_of (all_heard self.now) }
    {
        match self.lost {
            None => self.messages.as_slice(),
            Some(_) => &[],
        }
    }

    /// Tests that all was kept.
    pub(crate) fn test(&self) -> Result<(), StoreFault>
        ensures kept { OnOk result (IsSome (all_heard self.now)) }
        ensures fault { IfErr result IsOwnFault }
    {
        match self.lost {
            None => Ok(()),
            Some(fault) => Err(fault.into()),
        }
    }

    /// Why something was lost, if it was.
    pub(crate) fn lost(&self) -> Option<MessageFault>
        ensures { result ≡ self.now.lost }
    {
        self.lost
    }

    /// Drops what was heard.
    #[tactic(auto, using(crate::proofs::Heard::none_within))]
    pub(crate) fn forget(&mut self)
        ensures nothing { all_heard self.new ≡ Some [] }
        ensures within { (limit : Option ℕ) → IsWithin limit self.new }
    {
        if !self.messages.is_empty() {
            self.messages.clear();
        }
        self.bytes = 0;
        self.lost = None;
    }

    /// Drops what was heard, since not all of it can be told.
    pub(crate) fn lose(&mut self, fault: MessageFault)
        ensures lost { self.new.lost ≡ Some fault }
        ensures within { (limit : Option ℕ) → IsWithin limit self.new }
    {
        self.forget();
        self.lost = Some(fault);
    }

    /// Keeps a message behind the others.
    fn keep(&mut self, limit: u64, message: &LogicalMessage<'_>) -> Result<(), MessageFault>
        ensures kept { OnOk result (self.new.messages.items
            ≡ self.old.messages.items ++ heard_of message.now ∷ []) }
        ensures lost { self.new.lost ≡ self.old.lost }
        ensures within { IsWithin (Some limit) self.old →
            OnOk result (IsWithin (Some limit) self.new) }
        ensures long { IfErr result (λ fault. fault ≡ TooLong →
            limit < self.old.bytes + message_size (heard_of message.now)) }
    {
        let Some(bytes) = bytes_with(self.bytes, message) else {
            return Err(MessageFault::TooLong);
        };
        if bytes > limit {
            return Err(MessageFault::TooLong);
        }
        let heard = Heard::copied(self.alloc, message)?;
        let Ok(()) = self.messages.push(heard) else {
            return Err(MessageFault::Memory);
        };
        self.bytes = bytes;
        Ok(())
    }

    /// Hears a message, if all was kept so far.
    pub(crate) fn hear(&mut self, limit: u64, message: &LogicalMessage<'_>)
        ensures heard { (all_heard self.new ≡ with_heard (all_heard self.old) message.now)
            ⊎ (all_heard self.new ≡ None) }
        ensures within { IsWithin (Some limit) self.old → IsWithin (Some limit) self.new }
    {
        if self.lost.is_some() {
            return;
        }
        if let Err(fault) = self.keep(limit, message) {
            self.lose(fault);
        }
    }
}
