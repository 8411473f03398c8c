//! What a watch hears of one frame.
//!
//! PostgreSQL documentation, Streaming Replication Protocol; Logical Streaming Replication
//! Protocol.

ghost use Rattle.std.specs.Prelude.{◌≡◌, None, OnOk, IfErr};
ghost use Rattle.pgwire.specs.Frames.{CopyData};
ghost use Rattle.pgwire.specs.Borrowed.{frame_value};
ghost use Rattle.pgrules.specs.Watching.{EndsAtFrame, HearsFrame};
ghost use Rattle.pgrules.specs.Hearing.{EndsAtBody, HearsBody, HearsKeepalive};

use crate::findings::End;
use crate::seen::Seen;
use pglogical::decode_ref;
use pglsn::Lsn;
use pgwatch::Watch;
use pgwire::{Frame, ServerMsg, decode_server};

/// Hears the data of XLogData.
fn hear_body(watch: &mut Watch, seen: &mut Seen, at: u64, body: &[u8]) -> Result<(), End>
    ensures heard { watch.old.ended ≡ None →
        OnOk result (HearsBody watch.old seen.old at body.now watch.new seen.new) }
    ensures ended { watch.old.ended ≡ None → IfErr result (EndsAtBody watch.old at body.now) }
    ensures seen { IfErr result (λ _. seen.new ≡ seen.old) }
{
    let message = match decode_ref(body, watch.in_block()) {
        Ok(message) => message,
        Err(fault) => return Err(End::Undecoded { at, fault }),
    };
    if let Err(breach) = watch.message(at, &message) {
        return Err(End::Ended(breach));
    }
    seen.message(&message);
    Ok(())
}

/// Hears the end that a keepalive names.
fn hear_keepalive(watch: &mut Watch, seen: &mut Seen, at: u64, end: Lsn)
    ensures { watch.old.ended ≡ None →
        HearsKeepalive watch.old seen.old at end watch.new seen.new }
{
    let _ = watch.keepalive(at, end);
    seen.keepalive();
}

/// Hears a payload of CopyData.
pub(crate) fn hear_payload(
    watch: &mut Watch,
    seen: &mut Seen,
    at: u64,
    payload: &[u8],
) -> Result<(), End>
    ensures heard { watch.old.ended ≡ None →
        OnOk result (HearsFrame watch.old seen.old at (CopyData payload.now) watch.new seen.new) }
    ensures ended { watch.old.ended ≡ None →
        IfErr result (EndsAtFrame watch.old at (CopyData payload.now)) }
    ensures seen { IfErr result (λ _. seen.new ≡ seen.old) }
{
    let message = match decode_server(payload) {
        Ok(message) => message,
        Err(fault) => return Err(End::Unsaid { at, fault }),
    };
    match &message {
        ServerMsg::Data { body, .. } => hear_body(watch, seen, at, body),
        ServerMsg::Keepalive { end, .. } => {
            hear_keepalive(watch, seen, at, *end);
            Ok(())
        }
    }
}

/// Hears a frame. Of CopyDone it hears nothing.
pub(crate) fn hear_frame(
    watch: &mut Watch,
    seen: &mut Seen,
    at: u64,
    frame: &Frame<'_>,
) -> Result<(), End>
    ensures heard { watch.old.ended ≡ None →
        OnOk result (HearsFrame watch.old seen.old at (frame_value frame.now) watch.new seen.new) }
    ensures ended { watch.old.ended ≡ None →
        IfErr result (EndsAtFrame watch.old at (frame_value frame.now)) }
    ensures seen { IfErr result (λ _. seen.new ≡ seen.old) }
{
    match frame {
        Frame::Data(payload) => hear_payload(watch, seen, at, payload),
        Frame::Done => Ok(()),
    }
}
