//! What came of a session, by which a rule can be seen to be kept.

ghost use Rattle.std.specs.Prelude.{◌≡◌};
ghost use Rattle.pglogical.specs.Borrowed.{message_value};
ghost use Rattle.pgrules.specs.Seen.{nothing_seen, with_item, with_message, with_commit};
ghost use Rattle.pgrules.specs.Seen.{with_keepalive};

use pglogical::{ItemParts, ItemRef, MessageRef};

/// What came.
#[derive(Clone, Copy, Debug, PartialEq, Eq)]
pub struct Seen {
    /// XLogData.
    pub messages: bool,
    /// A keepalive.
    pub keepalives: bool,
    /// A change.
    pub changes: bool,
    /// The commit of a streamed transaction.
    pub streamed: bool,
    /// A commit, after a change.
    pub commits: bool,
    /// A commit, after a change and a keepalive.
    pub told: bool,
}

impl Seen {
    /// At the start of a session.
    pub(crate) fn nothing() -> Seen
        ensures { result ≡ nothing_seen }
    {
        Seen {
            messages: false,
            keepalives: false,
            changes: false,
            streamed: false,
            commits: false,
            told: false,
        }
    }

    /// A keepalive comes.
    pub(crate) fn keepalive(&mut self)
        ensures { self.new ≡ with_keepalive self.old }
    {
        self.keepalives = true;
    }

    fn item(&mut self, item: &ItemRef<'_>)
        ensures { self.new ≡ with_item self.old item.now }
    {
        match item.parts() {
            ItemParts::Relation(_) => {}
            _ => self.changes = true,
        }
    }

    fn commit(&mut self)
        ensures { self.new ≡ with_commit self.old }
    {
        self.commits = self.commits || self.changes;
        self.told = self.told || (self.changes && self.keepalives);
    }

    /// A message comes.
    pub(crate) fn message(&mut self, message: &MessageRef<'_>)
        ensures { self.new ≡ with_message self.old (message_value message.now) }
    {
        self.messages = true;
        match message {
            MessageRef::Item { item, .. } => self.item(item),
            MessageRef::Commit { .. } => self.commit(),
            MessageRef::StreamCommit { .. } => {
                self.commit();
                self.streamed = true;
            }
            _ => {}
        }
    }
}
