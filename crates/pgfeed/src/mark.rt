//! What the line of a commit tells a reader.

ghost use Rattle.std.specs.Prelude.{◌≡◌, ◌++◌, ◌≤◌, ℕ, List, IfOk, IfSome, drop, length};
ghost use Rattle.pgfeed.specs.Texts.{commit_front, crc_text};

use crate::heads::{commit_front, crc_text};
use pglsn::Lsn;
use std::alloc::{AllocError, Global};

/// What the line of a commit tells of where the next one is.
#[derive(Clone, Copy, Debug, PartialEq, Eq)]
pub struct Mark {
    /// Where the commit ends.
    pub end: Lsn,
    /// How many bytes follow its line.
    pub bytes: usize,
}

/// What the line of a commit may tell. It isn't tested.
fn read_numbers(line: &[u8]) -> Option<Mark> {
    let text = str::from_utf8(line).ok()?;
    let (end, text) = text.strip_prefix("{\"end\":\"")?.split_once('"')?;
    let (_prev, text) = text.strip_prefix(",\"prev\":\"")?.split_once('"')?;
    let (bytes, _rest) = text.strip_prefix(",\"bytes\":")?.split_once(',')?;
    let end = Lsn::parse(end).ok()?;
    let bytes = bytes.parse().ok()?;
    Some(Mark { end, bytes })
}

/// What a line tells that begins as that of a commit after `prev`.
pub(crate) fn read_mark(alloc: Global, prev: Lsn, line: &[u8]) -> Result<Option<Mark>, AllocError>
    ensures { IfOk result (λ found. IfSome found (λ mark. (more : List ℕ)
        × (line.now ≡ commit_front mark.end prev mark.bytes ++ more))) }
{
    let Some(mark) = read_numbers(line) else {
        return Ok(None);
    };
    let front = commit_front(alloc, mark.end, prev, mark.bytes)?;
    if line.starts_with(front.as_bytes()) {
        Ok(Some(mark))
    } else {
        Ok(None)
    }
}

/// How many bytes of a line may stand before its checksum, and which that may be. It isn't tested.
fn read_crc_number(line: &[u8]) -> Option<(usize, u32)> {
    let text = str::from_utf8(line).ok()?;
    let (told, text) = text.split_once(",\"crc\":")?;
    let (crc, _rest) = text.split_once('}')?;
    let crc = crc.parse().ok()?;
    Some((told.len(), crc))
}

/// How many bytes of a line stand before its checksum, and which that is.
pub(crate) fn read_crc(alloc: Global, line: &[u8]) -> Result<Option<(usize, u32)>, AllocError>
    ensures { IfOk result (λ found. IfSome found (λ it. (it.0 ≤ length line.now)
        × ((more : List ℕ) × (drop it.0 line.now ≡ crc_text it.1 ++ more)))) }
{
    let Some((told, crc)) = read_crc_number(line) else {
        return Ok(None);
    };
    let text = crc_text(alloc, crc)?;
    if told <= line.len() && line[told..].starts_with(text.as_bytes()) {
        Ok(Some((told, crc)))
    } else {
        Ok(None)
    }
}
