//! The lines of a recording's frames.

ghost use Rattle.std.specs.Prelude.{◌≡◌, [], ◌∷◌, string_bytes};
ghost use Rattle.pgsub_core.specs.Subscriber.Subscribed.{bytes_of, session_bytes};
ghost use Rattle.pgsub_cli.specs.Shown.{AddsLines, AreShown, AreShownLater, IsShown, fault_of_show};

use crate::limits::MAX_FRAME;
use crate::printed::Printed;
use pgorder::Version;
use pgshow::show_session;
use pgsub_core::{Fault, Session};
use std::alloc::Global;

/// The line of a disconnection.
const DISCONNECTION: &str = "--\n";

/// The fault of following that a fault of showing is.
fn fault_of(fault: pgshow::Fault) -> Fault
    ensures { result ≡ fault_of_show fault }
{
    match fault {
        pgshow::Fault::Wire(fault) => Fault::Wire(fault),
        pgshow::Fault::Decode(fault) => Fault::Decode(fault),
        pgshow::Fault::Order(fault) => Fault::Order(fault),
        pgshow::Fault::Memory => Fault::Memory,
    }
}

/// Appends the lines of a session's frames, up to the first fault.
fn show_one(
    alloc: Global,
    version: Version,
    session: &Session,
    lines: &mut String,
) -> Result<(), Fault>
    ensures { AddsLines (IsShown version (session_bytes session.now)) lines.old lines.new result }
{
    match show_session(alloc, version, MAX_FRAME, session.pieces.as_slice(), lines) {
        Ok(()) => Ok(()),
        Err(fault) => Err(fault_of(fault)),
    }
}

/// Appends the line of the disconnection before a session, and the lines of its frames.
fn show_next(
    alloc: Global,
    version: Version,
    session: &Session,
    lines: &mut String,
) -> Result<(), Fault>
    ensures { AddsLines (AreShownLater version (session_bytes session.now ∷ [])) lines.old lines.new
        result }
{
    if lines.push_str(DISCONNECTION).is_err() {
        return Err(Fault::Memory);
    }
    show_one(alloc, version, session, lines)
}

/// Appends the lines of the sessions after the first.
fn show_later(
    alloc: Global,
    version: Version,
    later: &[Session],
    lines: &mut String,
) -> Result<(), Fault>
    ensures { AddsLines (AreShownLater version (bytes_of later.now)) lines.old lines.new result }
{
    for session in later {
        show_next(alloc, version, session, lines)?;
    }
    Ok(())
}

/// Appends the lines of sessions.
fn show_sessions(
    alloc: Global,
    version: Version,
    sessions: &[Session],
    lines: &mut String,
) -> Result<(), Fault>
    ensures { AddsLines (AreShown version (bytes_of sessions.now)) lines.old lines.new result }
{
    let [first, later @ ..] = sessions else {
        return Ok(());
    };
    show_one(alloc, version, first, lines)?;
    show_later(alloc, version, later, lines)
}

/// The lines of all frames of the sessions, with `--` for each disconnection, up to the first fault
/// of the frames, their messages or the messages' order.
pub fn show(alloc: Global, version: Version, sessions: &[Session]) -> Printed
    ensures { AreShown version (bytes_of sessions.now) (string_bytes result.lines) result.stopped }
{
    let mut lines = String::new(alloc);
    let stopped = show_sessions(alloc, version, sessions, &mut lines).err();
    Printed { lines, stopped }
}
