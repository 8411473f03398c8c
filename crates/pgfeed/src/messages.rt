//! The lines of messages.
//!
//! PostgreSQL documentation, Logical Replication Message Formats, Message.

ghost use Rattle.std.specs.Prelude.{◌≡◌, false, true, IfNone, IfOk, IfSome, string_bytes};
ghost use Rattle.serde_json.specs.Written.{compact_text};
ghost use Rattle.pgjson.specs.Cells.{hex_data};
ghost use Rattle.pgfeed.specs.Texts.{content_data, is_text, message_line, messages_text};

use crate::values::quoted;
use pgjson::cell_json;
use pgledger::Heard;
use pgtuple::CellRef;
use std::alloc::{AllocError, Global};

/// The text that the bytes are, if they are one that has no zero byte.
#[tactic(auto, using(crate::proofs::Heard::text_is, crate::proofs::Heard::zero_is_none, crate::proofs::Heard::other_is_none))]
fn text_of(bytes: &[u8]) -> Option<&str>
    ensures text { IfSome result (λ text. (text.now ≡ bytes.now) × (is_text bytes.now ≡ true)) }
    ensures none { IfNone result (is_text bytes.now ≡ false) }
{
    let Ok(text) = str::from_utf8(bytes) else {
        return None;
    };
    if bytes.contains(&0) { None } else { Some(text) }
}

/// Bytes in hexadecimal.
fn hex_text(alloc: Global, bytes: &[u8]) -> Result<String, AllocError>
    ensures { IfOk result (λ json. string_bytes json ≡ compact_text (hex_data bytes.now)) }
{
    let value = cell_json(alloc, CellRef::Binary(bytes))?;
    value.to_string(alloc)
}

/// The bytes of a message: as a text, if they are one, else in hexadecimal.
fn content_text(alloc: Global, content: &[u8]) -> Result<String, AllocError>
    ensures { IfOk result (λ json. string_bytes json ≡ compact_text (content_data content.now)) }
{
    match text_of(content) {
        Some(text) => quoted(alloc, text),
        None => hex_text(alloc, content),
    }
}

/// The line of a message.
fn message_line(alloc: Global, message: &Heard) -> Result<String, AllocError>
    ensures { IfOk result (λ line. string_bytes line ≡ message_line message.now) }
{
    let lsn = message.lsn;
    let prefix = quoted(alloc, message.prefix.as_str())?;
    let content = content_text(alloc, message.content.as_slice())?;
    format!(in alloc;
        "{{\"op\":\"m\",\"lsn\":\"{lsn}\",\"prefix\":{prefix},\"content\":{content}}}\n"
    )
}

/// The lines of messages, one after the other.
#[tactic(auto, unfolding(crate::specs::Texts::messages_text))]
pub(crate) fn messages_text(alloc: Global, messages: &[Heard]) -> Result<String, AllocError>
    ensures { IfOk result (λ text. string_bytes text ≡ messages_text messages.now) }
{
    let mut text = String::new(alloc);
    for message in messages {
        let line = message_line(alloc, message)?;
        text.push_str(line.as_str())?;
    }
    Ok(text)
}
