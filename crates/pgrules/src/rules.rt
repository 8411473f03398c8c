//! The rules of a well-formed server, and how each stands after a watch.

ghost use Rattle.std.specs.Prelude.{◌≡◌};
ghost use Rattle.pgrules.specs.Rules.{breach_place, breaks, is_seen, is_unread, is_unwatched};
ghost use Rattle.pgrules.specs.Rules.{kept_or_not};
ghost use Rattle.pgrules.specs.Rules.{broken_rule, is_well, place_of, standing_of};

use crate::findings::{End, Findings};
use crate::seen::Seen;
use pglogical::{DecodeFault, Reason};
use pgtuple::TupleFault;
use pgwatch::Breach;
use pgwire::WireFault;

/// A rule that a watch of one session decides.
#[derive(Clone, Copy, Debug, PartialEq, Eq)]
pub enum Rule {
    /// Commits and messages come in order.
    Order,
    /// 2: aborted subtransactions are nested.
    Nested,
    /// 3: changes are described.
    Described,
    /// 4: commits end above keepalives.
    Keepalives,
    /// 5: nothing else comes between the messages.
    Frames,
    /// 6: texts are UTF-8.
    Texts,
    /// 7: the data of one XLogData is one message.
    Messages,
}

/// How a rule stands. An offset is that of the frame at which the watch ended before the bytes did.
#[derive(Clone, Copy, Debug, PartialEq, Eq)]
pub enum Standing {
    /// It was kept, up to there.
    Kept(Option<u64>),
    /// Nothing came that could break it, up to there.
    Unseen(Option<u64>),
    /// It is broken there.
    Broken(u64),
    /// It isn't watched from there on.
    Unwatched(u64),
}

fn breach_place(breach: Breach) -> u64
    ensures { result ≡ breach_place breach }
{
    match breach {
        Breach::Disordered { at, .. } => at,
        Breach::BelowCommit { at, .. } => at,
        Breach::EndNotAbove { at, .. } => at,
        Breach::BelowStart { at, .. } => at,
        Breach::Undescribed { at, .. } => at,
        Breach::BelowKeepalive { at, .. } => at,
        Breach::Unnested { at, .. } => at,
        Breach::Full { at } => at,
        Breach::Memory { at } => at,
    }
}

/// Where the watch ended before the bytes did.
fn place_of(end: End) -> Option<u64>
    ensures { result ≡ place_of end }
{
    match end {
        End::Whole => None,
        End::Ended(breach) => Some(breach_place(breach)),
        End::Unframed { at, .. } => Some(at),
        End::Unsaid { at, .. } => Some(at),
        End::Undecoded { at, .. } => Some(at),
    }
}

/// Whether the watch ended though no rule is broken and the session goes on.
fn is_unwatched(end: End) -> bool
    ensures { result ≡ is_unwatched end }
{
    match end {
        End::Ended(Breach::Full { .. }) => true,
        End::Ended(Breach::Memory { .. }) => true,
        End::Unframed {
            fault: WireFault::TooLarge,
            ..
        } => true,
        End::Unframed {
            fault: WireFault::Memory,
            ..
        } => true,
        _ => false,
    }
}

/// Whether a text isn't UTF-8.
fn is_unread(fault: DecodeFault) -> bool
    ensures { result ≡ is_unread fault.reason }
{
    match fault.reason {
        Reason::NotUtf8 => true,
        Reason::Tuple(TupleFault::NotUtf8(_)) => true,
        _ => false,
    }
}

/// Whether the end is a breach of the rule.
fn breaks(end: End, rule: Rule) -> bool
    ensures { result ≡ breaks end rule }
{
    match (end, rule) {
        (End::Ended(Breach::Disordered { .. }), Rule::Order) => true,
        (End::Ended(Breach::BelowCommit { .. }), Rule::Order) => true,
        (End::Ended(Breach::EndNotAbove { .. }), Rule::Order) => true,
        (End::Ended(Breach::BelowStart { .. }), Rule::Order) => true,
        (End::Ended(Breach::Unnested { .. }), Rule::Nested) => true,
        (End::Ended(Breach::Undescribed { .. }), Rule::Described) => true,
        (End::Ended(Breach::BelowKeepalive { .. }), Rule::Keepalives) => true,
        (
            End::Unframed {
                fault: WireFault::BadLength,
                ..
            },
            Rule::Frames,
        ) => true,
        (End::Unsaid { .. }, Rule::Frames) => true,
        (End::Undecoded { fault, .. }, Rule::Texts) => is_unread(fault),
        (End::Undecoded { fault, .. }, Rule::Messages) => !is_unread(fault),
        _ => false,
    }
}

/// Whether something came that could break the rule.
fn is_seen(seen: Seen, rule: Rule) -> bool
    ensures { result ≡ is_seen seen rule }
{
    match rule {
        Rule::Nested => seen.streamed,
        Rule::Described => seen.commits,
        Rule::Keepalives => seen.told,
        Rule::Frames => seen.messages || seen.keepalives,
        Rule::Order | Rule::Texts | Rule::Messages => seen.messages,
    }
}

fn kept_or_not(is_seen: bool, place: Option<u64>) -> Standing
    ensures { result ≡ kept_or_not is_seen place }
{
    if is_seen {
        Standing::Kept(place)
    } else {
        Standing::Unseen(place)
    }
}

impl Findings {
    /// How a rule stands.
    pub fn standing(&self, rule: Rule) -> Standing
        ensures { result ≡ standing_of self.now rule }
    {
        let is_seen = is_seen(self.seen, rule);
        let Some(at) = place_of(self.end) else {
            return kept_or_not(is_seen, None);
        };
        if is_unwatched(self.end) {
            return Standing::Unwatched(at);
        }
        if breaks(self.end, rule) {
            return Standing::Broken(at);
        }
        kept_or_not(is_seen, Some(at))
    }

    /// Whether no rule is broken and all was watched: up to the end of the bytes, or to something
    /// foreign after whole frames, with which a session may end.
    pub fn is_well(&self) -> bool
        ensures { result ≡ is_well self.now.end }
    {
        match self.end {
            End::Whole => true,
            End::Unframed {
                fault: WireFault::UnknownFrame(_),
                ..
            } => true,
            End::Unframed {
                fault: WireFault::AfterDone,
                ..
            } => true,
            _ => false,
        }
    }

    /// Where the watch ended before the bytes did.
    pub fn place(&self) -> Option<u64>
        ensures { result ≡ place_of self.now.end }
    {
        place_of(self.end)
    }

    /// The rule that is broken, if one is.
    pub fn broken(&self) -> Option<Rule>
        ensures { result ≡ broken_rule self.now.end }
    {
        if breaks(self.end, Rule::Order) {
            Some(Rule::Order)
        } else if breaks(self.end, Rule::Nested) {
            Some(Rule::Nested)
        } else if breaks(self.end, Rule::Described) {
            Some(Rule::Described)
        } else if breaks(self.end, Rule::Keepalives) {
            Some(Rule::Keepalives)
        } else if breaks(self.end, Rule::Frames) {
            Some(Rule::Frames)
        } else if breaks(self.end, Rule::Texts) {
            Some(Rule::Texts)
        } else if breaks(self.end, Rule::Messages) {
            Some(Rule::Messages)
        } else {
            None
        }
    }
}
