//! Reading the sessions of a recording.

ghost use Rattle.std.specs.Prelude.{IfOk, IfErr};
ghost use Rattle.pgsub_cli.specs.Recorded.{Records, IsUnread};

use crate::fault::RunFault;
use crate::files::Input;
use crate::limits::MAX_RECORDING;
use pgcapture::{CaptureFault, read_capture};
use pgsub_core::{Fault, Session, Side};
use std::alloc::Global;
use std::io::ErrorKind;

/// The sessions of the recording on this side, of which all is read before any is followed.
pub fn read_sessions<R: Input + Drop>(
    alloc: Global,
    side: Side,
    file: Option<R>,
) -> Result<Vec<Session>, RunFault>
    ensures sessions { IfOk result (λ sessions. Records R.gives file sessions.items) }
    ensures unread { IfErr result (IsUnread R.gives R.failed side file) }
{
    let Some(file) = file else {
        return Err(RunFault::CannotRead(side));
    };
    let text = match file.read_whole(alloc, MAX_RECORDING) {
        Ok(Some(text)) => text,
        Ok(None) => return Err(RunFault::TooLong),
        Err(error) if error.kind() == ErrorKind::OutOfMemory => {
            return Err(RunFault::Stream(Fault::Memory));
        }
        Err(_) => return Err(RunFault::CannotRead(side)),
    };
    match read_capture(alloc, text.as_slice()) {
        Ok(sessions) => Ok(sessions),
        Err(CaptureFault::NotHexadecimal(line)) => Err(RunFault::NotHexadecimal(line)),
        Err(CaptureFault::Memory) => Err(RunFault::Stream(Fault::Memory)),
    }
}
