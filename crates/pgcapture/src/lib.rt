//! Recordings of the sessions of a replication stream, as text.
//!
//! A recording (a file `.pgx`) has one chunk of received bytes per line, in hexadecimal digits of
//! either case. A line `--` is a disconnection: it ends a session and begins the next. Empty lines
//! and lines that begin with `#` are skipped. A line ends with a line feed alone, which the last
//! line may lack; so a carriage return makes a line unreadable.
//!
//! ```text
//! for session in read_capture(alloc, text)? {
//!     for chunk in session.pieces.as_slice() {
//!         feed(chunk);
//!     }
//! }
//! ```
#![tactic(auto)]

ghost use Rattle.std.specs.Prelude.{◌≡◌, ◌<◌, ◌++◌, ◌∷◌, ◌⊎◌, ◌↔◌, [], ◌==◌, length, false};
ghost use Rattle.std.specs.Prelude.{IfOk, IfErr, IsOk, IsTrue, Ok, IfSome, OnOk, option_copied};
ghost use Rattle.std.specs.List.{position};
ghost use Rattle.std.specs.Result.{result_err};
ghost use Rattle.hex.specs.Hex.{decode_of};
ghost use Rattle.pgcapture.specs.Capture.{NoLine, Captured, lines_of, lines_behind, meaning_of};
ghost use Rattle.pgcapture.specs.Capture.{with_line, joined, sessions_of, session_of};
ghost use Rattle.pgcapture.specs.Capture.{is_skipped as is_skipped_line};
ghost use Rattle.pgcapture.specs.Capture.{is_disconnection as is_disconnection_line};
ghost use Rattle.pgcapture.specs.Refused.{IsRefused};

mod fault;

pub use fault::CaptureFault;
use hex::FromHexError;
use pgtuple::{Bytes, Seq};
use pgwire::Session;
use std::alloc::Global;
use std::mem;

/// The offset of the first line feed.
fn line_end(text: &[u8]) -> Option<usize>
    ensures { result ≡ position (λ byte. byte == 10) text.now }
{
    text.iter().position(|byte| *byte == b'\n')
}

/// A text's first line without its line feed, and the text after that.
fn first_line(text: &[u8]) -> (&[u8], Option<&[u8]>)
    ensures lines { lines_of text.now ≡ result.0.now ∷ lines_behind (option_copied result.1) }
    ensures shorter { IfSome result.1 (λ behind. length behind.now < length text.now) }
{
    match line_end(text) {
        None => (text, None),
        Some(end) => (&text[..end], Some(&text[end + 1..])),
    }
}

/// Whether a line is empty or a comment.
fn is_skipped(line: &[u8]) -> bool
    ensures { result ≡ is_skipped_line line.now }
{
    line.is_empty() || line[0] == b'#'
}

/// Whether a line is a disconnection.
fn is_disconnection(line: &[u8]) -> bool
    ensures { result ≡ is_disconnection_line line.now }
{
    line == b"--".as_slice()
}

/// Whether a line is an even number of hexadecimal digits.
fn is_hexadecimal(line: &[u8]) -> bool
    ensures { IsTrue result ↔ IsOk (decode_of line.now) }
{
    line.len() % 2 == 0 && line.iter().all(|byte| byte.is_ascii_hexdigit())
}

/// Whether a line can be read.
fn is_readable(line: &[u8]) -> bool
    ensures { (result ≡ false) ↔ (meaning_of line.now ≡ NoLine) }
{
    is_skipped(line) || is_disconnection(line) || is_hexadecimal(line)
}

/// The number of the first line that can't be read, counted from 1. It takes no memory.
fn first_bad_line(text: &[u8]) -> Option<usize>
    ensures { result ≡ result_err (sessions_of text.now) }
{
    let mut rest = text;
    let mut number = 1usize;
    loop {
        let (line, behind) = first_line(rest);
        if !is_readable(line) {
            return Some(number);
        }
        match behind {
            Some(next) => {
                rest = next;
                number += 1;
            }
            None => return None,
        }
    }
}

/// Reads a line: a chunk is added to those of the session, and a disconnection ends the session.
fn take_line(
    alloc: Global,
    line: &[u8],
    number: usize,
    sessions: &mut Vec<Session>,
    pieces: &mut Vec<Bytes>,
) -> Result<(), CaptureFault>
    ensures taken { OnOk result ((rest : Captured) →
        joined sessions.new.items pieces.new.items rest
        ≡ joined sessions.old.items pieces.old.items
        (with_line number (meaning_of line.now) rest)) }
    ensures refused { IfErr result (λ fault. (fault ≡ CaptureFault.Memory)
        ⊎ ((fault ≡ CaptureFault.NotHexadecimal number) × (meaning_of line.now ≡ NoLine))) }
{
    if is_skipped(line) {
        return Ok(());
    }
    if is_disconnection(line) {
        return end_session(alloc, sessions, pieces);
    }
    match hex::decode(alloc, line) {
        Ok(bytes) => {
            pieces.push(Bytes::from_vec(bytes))?;
            Ok(())
        }
        Err(FromHexError::OutOfMemory) => Err(CaptureFault::Memory),
        Err(_) => Err(CaptureFault::NotHexadecimal(number)),
    }
}

/// Ends the session that the chunks so far belong to.
fn end_session(
    alloc: Global,
    sessions: &mut Vec<Session>,
    pieces: &mut Vec<Bytes>,
) -> Result<(), CaptureFault>
    ensures ended { OnOk result ((sessions.new.items
        ≡ sessions.old.items ++ session_of pieces.old.items ∷ []) × (pieces.new.items ≡ [])) }
    ensures refused { IfErr result (λ fault. fault ≡ CaptureFault.Memory) }
{
    let ended = mem::replace(pieces, Vec::new(alloc));
    sessions.push(Session {
        pieces: Seq::from_vec(ended),
    })?;
    Ok(())
}

/// Reads the sessions of a recording. The lines are checked before any memory is taken, so a text
/// with a line that can't be read never runs out of memory.
///
/// # Errors
///
/// `NotHexadecimal` with the number of the first line that can't be read, or `Memory`.
pub fn read_capture(alloc: Global, text: &[u8]) -> Result<Vec<Session>, CaptureFault>
    ensures sessions { IfOk result (λ sessions. sessions_of text.now ≡ Ok sessions.items) }
    ensures refused { IfErr result (λ fault. IsRefused fault (sessions_of text.now)) }
{
    if let Some(number) = first_bad_line(text) {
        return Err(CaptureFault::NotHexadecimal(number));
    }
    let mut sessions = Vec::new(alloc);
    let mut pieces = Vec::new(alloc);
    let mut rest = text;
    let mut number = 1usize;
    loop {
        let (line, behind) = first_line(rest);
        take_line(alloc, line, number, &mut sessions, &mut pieces)?;
        match behind {
            Some(next) => {
                rest = next;
                number += 1;
            }
            None => break,
        }
    }
    end_session(alloc, &mut sessions, &mut pieces)?;
    Ok(sessions)
}
