//! Where an item is among the bytes that are stored of items.

ghost use Rattle.std.specs.Prelude.{◌≡◌, ◌≤◌, ◌+◌, IfSome, drop, false, length};
ghost use Rattle.pglogical.specs.Borrowed.{message_value};
ghost use Rattle.pglogical.specs.Reading.{message_at};
ghost use Rattle.pglogical.specs.Spelling.{IsSpellable};
ghost use Rattle.pgspool.specs.Marks.{item_part, item_at_all};
ghost use Rattle.pgfilespools.specs.Stored.{number_at};
ghost use Rattle.pgfilespools.specs.Spans.{spelled_in, IsFirst, IsSpan};

use crate::stored::OVERHEAD;
use pglogical::{ItemRef, MessageRef, decode_ref};

/// An item's subxid, and where its encoding is among bytes: its length, and the offset at which it
/// begins.
#[derive(Clone, Copy, Debug)]
pub(crate) struct Span {
    pub(crate) subxid: u32,
    pub(crate) size: u32,
    pub(crate) start: usize,
}

// The number with which bytes begin, and those behind it.
fn number(bytes: &[u8]) -> Option<(u32, &[u8])>
    ensures parts { IfSome result (λ it.
        (it.0 ≡ number_at bytes.now) × (it.1.now ≡ drop 4 bytes.now)) }
    ensures len { IfSome result (λ it. length it.1.now + 4 ≡ length bytes.now) }
{
    match bytes.split_first_chunk::<4>() {
        None => None,
        Some((first, others)) => Some((u32::from_be_bytes(*first), others)),
    }
}

// The item of a message.
fn item_of(message: MessageRef<'_>) -> Option<ItemRef<'_>>
    ensures { result ≡ item_part (message_value message.entry) }
{
    match message {
        MessageRef::Item { item, .. } => Some(item),
        MessageRef::Begin { .. } => None,
        MessageRef::Commit { .. } => None,
        MessageRef::Origin { .. } => None,
        MessageRef::TypeName { .. } => None,
        MessageRef::Logical { .. } => None,
        MessageRef::StreamStart { .. } => None,
        MessageRef::StreamStop => None,
        MessageRef::StreamCommit { .. } => None,
        MessageRef::StreamAbort { .. } => None,
    }
}

/// The item that these bytes encode outside a block.
pub(crate) fn read_item(bytes: &[u8]) -> Option<ItemRef<'_>>
    ensures value { result ≡ item_at_all (message_at false bytes.now) }
    ensures spellable { IfSome result (λ item. IsSpellable item) }
{
    match decode_ref(bytes, false) {
        Ok(message) => item_of(message),
        Err(_) => None,
    }
}

/// The bytes of a span.
pub(crate) fn bytes_in(bytes: &[u8], span: Span) -> &[u8]
    requires { span.start + span.size ≤ length bytes.now }
    ensures { result.now ≡ spelled_in bytes.now span }
{
    &bytes[span.start..span.start + span.size as usize]
}

// The bytes from an offset on.
fn bytes_from(bytes: &[u8], at: usize) -> &[u8]
    requires { at ≤ length bytes.now }
    ensures { result.now ≡ drop at bytes.now }
{
    &bytes[at..]
}

/// The span of what is stored from an offset on, where as many bytes are there as it tells.
pub(crate) fn span_from(bytes: &[u8], at: usize) -> Option<Span>
    requires { at ≤ length bytes.now }
    ensures first { IfSome result (λ s. IsFirst bytes.now (drop at bytes.now) s) }
    ensures within { IfSome result (λ s. s.start + s.size ≤ length bytes.now) }
{
    let (subxid, sized) = number(bytes_from(bytes, at))?;
    let (size, rest) = number(sized)?;
    if size as usize > rest.len() {
        return None;
    }
    Some(Span {
        subxid,
        size,
        start: at + OVERHEAD as usize,
    })
}

/// The span of the item that is stored from an offset on, where one is.
pub(crate) fn span_at(bytes: &[u8], at: usize) -> Option<Span>
    requires { at ≤ length bytes.now }
    ensures first { IfSome result (λ s. IsFirst bytes.now (drop at bytes.now) s) }
    ensures span { IfSome result (λ s. IsSpan bytes.now s) }
{
    let span = span_from(bytes, at)?;
    read_item(bytes_in(bytes, span))?;
    Some(span)
}
