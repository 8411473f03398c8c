//! Items that were read back.

ghost use Rattle.std.specs.Prelude.{◌≡◌, [], IfOk, IfErr, IfSome, option_map, slice_get};
ghost use Rattle.pglogical.specs.Spelling.{IsSpellable};
ghost use Rattle.pgspool.specs.Labels.{LabelledItem};
ghost use Rattle.pgfilespools.specs.Faults.{IsOfReading};
ghost use Rattle.pgfilespools.specs.Stored.{items_in, AreItems};

use crate::span::{Span, bytes_in, read_item, span_at, span_from};
use pglogical::ItemRef;
use pgspool::SpoolFault;
use std::alloc::Global;
use std::marker::Model;

/// Items that were read back, seen as their list: the bytes that are stored of them, and where each
/// one is among these. Each span has an item's encoding, so that each item can be borrowed.
#[derive(Drop)]
pub(crate) struct ReadItems {
    bytes: Vec<u8>,
    spans: Vec<Span>,
}

impl Model for ReadItems {
    ghost use Rattle.std.specs.Prelude.{List};
    ghost use Rattle.pgspool.specs.Labels.{LabelledItem};
    ghost use Rattle.pgfilespools.specs.Spans.{all_spanned, AreSpans};

    ghost Value = { List LabelledItem };

    ghost view = { λ s. all_spanned s.bytes.items s.spans.items };

    ghost invariant = { λ s. AreSpans s.bytes.items s.spans.items };
}

impl ReadItems {
    /// No items.
    pub(crate) fn new(alloc: Global) -> ReadItems
        ensures { result ≡ [] }
    {
        ReadItems {
            bytes: Vec::new(alloc),
            spans: Vec::new(alloc),
        }
    }

    /// Borrows the item at an index.
    pub(crate) fn item(&self, index: usize) -> Option<ItemRef<'_>>
        ensures value { result ≡ option_map (λ (l : LabelledItem). l.1)
            (slice_get self.now index) }
        ensures spellable { IfSome result (λ i. IsSpellable i) }
    {
        match self.spans.get(index) {
            Some(span) => read_item(bytes_in(self.bytes.as_slice(), *span)),
            None => None,
        }
    }
}

/// So many items, of a copy of the bytes that are stored of them. These come from no file, so
/// nothing of them has to be tested.
///
/// # Errors
///
/// `Memory`. It would be `NotRead` where they don't stand there, which the clause rules out.
pub(crate) fn copy_items(alloc: Global, bytes: &[u8], count: usize) -> Result<ReadItems, SpoolFault>
    requires { AreItems count bytes.now }
    ensures read { IfOk result (λ items. items ≡ items_in count bytes.now) }
    ensures fault { IfErr result IsOfReading }
{
    let mut copy = Vec::new(alloc);
    copy.extend_from_slice(bytes)?;
    let mut spans = Vec::new(alloc);
    spans.reserve(count)?;
    let mut at = 0;
    for _copied in 0..count {
        let Some(span) = span_from(bytes, at) else {
            return Err(SpoolFault::NotRead);
        };
        spans.push(span)?;
        at = span.start + span.size as usize;
    }
    Ok(ReadItems { bytes: copy, spans })
}

/// So many items, of the bytes that are stored of them, which may come from a file.
///
/// # Errors
///
/// `NotRead` where they don't stand there, and `Memory`.
pub(crate) fn read_items(
    alloc: Global,
    bytes: Vec<u8>,
    count: usize,
) -> Result<ReadItems, SpoolFault>
    ensures read { IfOk result (λ items. items ≡ items_in count bytes.items) }
    ensures fault { IfErr result IsOfReading }
{
    let mut spans = Vec::new(alloc);
    spans.reserve(count)?;
    let mut at = 0;
    for _taken in 0..count {
        let Some(span) = span_at(bytes.as_slice(), at) else {
            return Err(SpoolFault::NotRead);
        };
        spans.push(span)?;
        at = span.start + span.size as usize;
    }
    Ok(ReadItems { bytes, spans })
}
