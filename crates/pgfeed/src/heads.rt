//! The lines that tell what follows: the head of a segment, and the line of a commit.

ghost use Rattle.std.specs.Prelude.{◌≡◌, ◌⊎◌, ◌<◌, ◌≤◌, ◌++◌, IfErr, IfOk, OnOk, length};
ghost use Rattle.std.specs.Prelude.{string_bytes};
ghost use Rattle.std.specs.Fmt.{signed_decimal};
ghost use Rattle.pgfeed.specs.declared.fault.FeedFault.TheVariants.{Memory, TooLong};
ghost use Rattle.pgfeed.specs.Fits.{FitsLine};
ghost use Rattle.pgfeed.specs.Texts.{about_text, commit_front, commit_told, crc_text, padded};
ghost use Rattle.pgfeed.specs.Texts.{closing_line};
ghost use Rattle.pgfeed.specs.Texts.{segment_front, segment_head, segment_object, unix_micros};

use crate::fault::FeedFault;
use crate::values::quoted;
use pgapply::About;
use pglsn::Lsn;
use std::alloc::{AllocError, Global};

/// How many bytes the line of a commit has.
pub(crate) const COMMIT_SIZE: usize = 256;

/// How many bytes the head of a segment has.
pub(crate) const SEGMENT_SIZE: usize = 1024;

/// The microseconds from 1970-01-01 to 2000-01-01.
const EPOCH: u64 = 946_684_800_000_000;

/// The text with blanks and a line feed, as a line of so many bytes.
fn padded(mut text: String, size: usize) -> Result<String, AllocError>
    requires { length (string_bytes text) < size }
    ensures { IfOk result (λ line. string_bytes line ≡ padded size (string_bytes text)) }
{
    while text.len() < size - 1 {
        text.push(' ')?;
    }
    text.push('\n')?;
    Ok(text)
}

/// How the head of a segment begins.
pub(crate) fn segment_front(alloc: Global, base: Lsn) -> Result<String, AllocError>
    ensures { IfOk result (λ text. string_bytes text ≡ segment_front base) }
{
    format!(in alloc; "{{\"feed\":4,\"base\":\"{base}\",")
}

/// The head of a segment without blanks.
fn segment_object(
    alloc: Global,
    base: Lsn,
    system: &str,
    database: &str,
    slot: &str,
) -> Result<String, AllocError>
    ensures { IfOk result (λ text. string_bytes text
        ≡ segment_object base system.now database.now slot.now) }
{
    let front = segment_front(alloc, base)?;
    let system = quoted(alloc, system)?;
    let database = quoted(alloc, database)?;
    let slot = quoted(alloc, slot)?;
    format!(in alloc; "{front}\"system\":{system},\"database\":{database},\"slot\":{slot}}}")
}

/// The head of a segment: where it begins, and what it is a feed of.
///
/// # Errors
///
/// `TooLong` where the names don't fit the line, and `Memory`.
pub(crate) fn segment_head(
    alloc: Global,
    base: Lsn,
    system: &str,
    database: &str,
    slot: &str,
) -> Result<String, FeedFault>
    ensures head { IfOk result (λ line. string_bytes line
        ≡ segment_head base system.now database.now slot.now) }
    ensures size { IfOk result (λ line. length (string_bytes line) ≡ 1024) }
    ensures fits { OnOk result
        (length (segment_object base system.now database.now slot.now) < 1024) }
    ensures fault { IfErr result (λ fault. (fault ≡ Memory) ⊎ ((fault ≡ TooLong)
        × (1024 ≤ length (segment_object base system.now database.now slot.now)))) }
{
    let object = segment_object(alloc, base, system, database, slot)?;
    if object.len() >= SEGMENT_SIZE {
        return Err(FeedFault::TooLong);
    }
    Ok(padded(object, SEGMENT_SIZE)?)
}

/// How the line of a commit begins.
pub(crate) fn commit_front(
    alloc: Global,
    end: Lsn,
    prev: Lsn,
    bytes: usize,
) -> Result<String, AllocError>
    ensures { IfOk result (λ text. string_bytes text ≡ commit_front end prev bytes) }
{
    format!(in alloc; "{{\"end\":\"{end}\",\"prev\":\"{prev}\",\"bytes\":{bytes},")
}

/// The time of a commit in microseconds since 1970-01-01.
fn micros_text(alloc: Global, time: i64) -> Result<String, AllocError>
    ensures { IfOk result (λ text. string_bytes text ≡ signed_decimal (unix_micros time)) }
{
    if time >= 0 {
        let micros = time.unsigned_abs() + EPOCH;
        format!(in alloc; "{micros}")
    } else {
        let micros = time + EPOCH as i64;
        format!(in alloc; "{micros}")
    }
}

/// What is told of a commit beside its changes.
fn about_text(alloc: Global, about: Option<About>) -> Result<String, AllocError>
    ensures { IfOk result (λ text. string_bytes text ≡ about_text about) }
{
    let Some(about) = about else {
        return String::from_str(alloc, "\"lsn\":null,\"xid\":null,\"ts_us\":null");
    };
    let lsn = about.final_lsn;
    let xid = about.xid;
    let micros = micros_text(alloc, about.time)?;
    format!(in alloc; "\"lsn\":\"{lsn}\",\"xid\":{xid},\"ts_us\":{micros}")
}

/// The line of a commit up to its checksum: where it ends, where the one before it ends, how many
/// bytes and changes follow, and what it is about.
pub(crate) fn commit_told(
    alloc: Global,
    end: Lsn,
    prev: Lsn,
    bytes: usize,
    changes: usize,
    about: Option<About>,
) -> Result<String, AllocError>
    ensures text { IfOk result (λ text. string_bytes text
        ≡ commit_told end prev bytes changes about) }
    ensures fits { FitsLine end prev bytes changes about }
{
    let front = commit_front(alloc, end, prev, bytes)?;
    let about = about_text(alloc, about)?;
    format!(in alloc; "{front}\"changes\":{changes},{about}")
}

/// How a line tells a checksum, up to its blanks.
pub(crate) fn crc_text(alloc: Global, crc: u32) -> Result<String, AllocError>
    ensures { IfOk result (λ text. string_bytes text ≡ crc_text crc) }
{
    format!(in alloc; ",\"crc\":{crc}}}")
}

/// The line of a commit: what it tells, and its checksum.
pub(crate) fn commit_line(alloc: Global, told: String, crc: u32) -> Result<String, AllocError>
    requires { length (string_bytes told) < 238 }
    ensures { IfOk result (λ line. string_bytes line
        ≡ padded 256 (string_bytes told ++ crc_text crc)) }
{
    let mut object = told;
    let crc = crc_text(alloc, crc)?;
    object.push_str(crc.as_str())?;
    padded(object, COMMIT_SIZE)
}

/// The line that ends a segment: where its last commit ends, and the next segment begins.
pub(crate) fn closing_line(alloc: Global, last: Lsn) -> Result<String, AllocError>
    ensures { IfOk result (λ line. string_bytes line ≡ closing_line last) }
{
    let object = format!(in alloc; "{{\"last\":\"{last}\"}}")?;
    padded(object, COMMIT_SIZE)
}
