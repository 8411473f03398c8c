//! What comes of the frames of sessions.
//!
//! PostgreSQL documentation, Streaming Replication Protocol.

ghost use Rattle.std.specs.Prelude.{◌≡◌, false};
ghost use Rattle.pgwire.specs.Borrowed.{frame_value};
ghost use Rattle.pgwire.specs.Frames.{CopyData, CopyDone};
ghost use Rattle.pgcompared.specs.Frames.{HearsBody, HearsFrame, HearsOrPasses, Takes};
ghost use Rattle.pgcompared.specs.Live.{first_hearing};
ghost use Rattle.pgcompared.specs.Noting.{told_nothing};

use crate::finding::{Finding, Lost};
use crate::noting::{Noting, Told};
use crate::session::Session;
use pglogical::decode_ref;
use pgorder::Version;
use pgrepeats::Past;
use pgwire::{Frame, ServerMsg, decode_server};
use std::alloc::Global;

/// Sessions, as far as their frames have come.
#[derive(Drop)]
pub(crate) struct Hearing {
    version: Version,
    limit: u64,
    session: Session,
    pub(crate) noting: Noting,
    // where the next frame of the session begins
    pub(crate) at: u64,
    // the session isn't compared any more
    pub(crate) lost: bool,
}

impl Hearing {
    /// None has come. This is all that came before.
    pub(crate) fn new(alloc: Global, version: Version, limit: u64, past: Past) -> Hearing
        ensures { result ≡ first_hearing version limit past 0 }
    {
        Hearing {
            version,
            limit,
            session: Session::new(alloc, version, limit),
            noting: Noting::new(past),
            at: 0,
            lost: false,
        }
    }

    /// Hears a frame, behind which the next one has this offset, and tells what comes of it.
    pub(crate) fn hear(&mut self, frame: &Frame<'_>, next: u64, told: &mut Told)
        requires { told.old ≡ told_nothing false }
        ensures { Takes self.old (frame_value frame.now) next self.new told.new }
    {
        match frame {
            Frame::Data(payload) => {
                self.hear_or_pass(payload, told);
                self.at = next;
            }
            Frame::Done => self.begin_session(told),
        }
    }

    // The next session begins.
    fn begin_session(&mut self, told: &mut Told)
        requires { told.old ≡ told_nothing false }
        ensures { Takes self.old CopyDone 0 self.new told.new }
    {
        told.forgot = self.lost;
        self.noting.begin_session(self.lost);
        self.session.begin(self.version, self.limit);
        self.at = 0;
        self.lost = false;
    }

    // Hears a payload of CopyData, or passes it over.
    fn hear_or_pass(&mut self, payload: &[u8], told: &mut Told)
        requires { told.old ≡ told_nothing false }
        ensures heard { HearsOrPasses self.old.lost self.old (CopyData payload.now) self.new
            told.new }
        ensures same { self.new ≡ record self.old {
          session = self.new.session;
          noting = self.new.noting;
          lost = self.new.lost;
        } }
    {
        if self.lost {
            return;
        }
        hear_payload(&mut self.session, &mut self.noting, self.at, payload, told);
        self.lost = matches!(told.found, Some(Finding::Lost { .. }));
    }
}

// Hears a payload of CopyData.
fn hear_payload(
    session: &mut Session,
    noting: &mut Noting,
    at: u64,
    payload: &[u8],
    told: &mut Told,
)
    requires { told.old ≡ told_nothing false }
    ensures { HearsFrame session.old noting.old at (CopyData payload.now) session.new noting.new
        told.new }
{
    match decode_server(payload) {
        Ok(ServerMsg::Data { body, .. }) => hear_body(session, noting, at, body, told),
        Ok(ServerMsg::Keepalive { .. }) => {}
        Err(fault) => *told = Told::lost(at, Lost::Unsaid(fault)),
    }
}

// Hears the data of XLogData.
fn hear_body(session: &mut Session, noting: &mut Noting, at: u64, body: &[u8], told: &mut Told)
    requires { told.old ≡ told_nothing false }
    ensures { HearsBody session.old noting.old at body.now session.new noting.new told.new }
{
    let message = match decode_ref(body, session.in_block()) {
        Ok(message) => message,
        Err(fault) => {
            *told = Told::lost(at, Lost::Undecoded(fault));
            return;
        }
    };
    match session.hear(&message, body) {
        Ok(Some(ended)) => *told = noting.hear(at, ended),
        Ok(None) => {}
        Err(why) => *told = Told::lost(at, why),
    }
}
