//! What is kept of a streamed transaction that is open.
//!
//! PostgreSQL documentation, Streaming of Large Transactions for Logical Decoding.

ghost use Rattle.std.specs.Prelude.{◌≡◌, ◌++◌, OnOk};
ghost use Rattle.pgcompared.specs.Streams.{added, at_label, cut, digest_before, is_under};
ghost use Rattle.pgcompared.specs.Streams.{points_before, whole_digest, with_item, with_point};
ghost use Rattle.pgcompared.specs.Streams.{without_items};

use pgrepeats::{Change, Digest};
use std::alloc::{AllocError, Global};
use std::marker::Model;
use std::mem::replace;

/// Where items under another label begin, and what the changes before them come to.
#[derive(Clone, Copy, Debug)]
pub(crate) struct Point {
    pub(crate) label: u32,
    pub(crate) before: Digest,
}

/// A streamed transaction that is open: what its changes come to that aren't rolled back, and where
/// in them the label changes, so that a rollback goes back to what came before.
#[derive(Drop)]
pub(crate) struct Stream {
    alloc: Global,
    top: u32,
    digest: Digest,
    points: Vec<Point>,
    // more points came than are kept, and it isn't compared
    over: bool,
}

impl Model for Stream {
    ghost use Rattle.pgcompared.specs.Streams.{Streamed};

    ghost Value = { Streamed };

    ghost view = { λ s. record {
      top = s.top;
      digest = s.digest;
      points = s.points.items;
      over = s.over;
    } };
}

impl Stream {
    /// One without items.
    pub(crate) fn new(alloc: Global, top: u32) -> Stream
        ensures { result ≡ without_items top }
    {
        Stream {
            alloc,
            top,
            digest: Digest::of_none(),
            points: Vec::new(alloc),
            over: false,
        }
    }

    /// The transaction.
    pub(crate) fn top(&self) -> u32
        ensures { result ≡ self.now.top }
    {
        self.top
    }

    /// What its changes come to, unless it had more points than are kept.
    pub(crate) fn digest(&self) -> Option<Digest>
        ensures { result ≡ whole_digest self.now }
    {
        if self.over { None } else { Some(self.digest) }
    }

    /// One item more, which is a change or none. At most `limit` points are kept. The one error is
    /// out of memory.
    pub(crate) fn add(
        &mut self,
        limit: u64,
        label: u32,
        change: Option<Change>,
    ) -> Result<(), AllocError>
        ensures { OnOk result (self.new ≡ added limit label change self.old) }
    {
        if self.over {
            return Ok(());
        }
        self.go_to_label(limit, label)?;
        add_item(&mut self.digest, change);
        Ok(())
    }

    // Whether its last item is under this label.
    fn is_under(&self, label: u32) -> bool
        ensures { result ≡ is_under label self.now.points }
    {
        match self.points.last() {
            Some(point) => point.label == label,
            None => false,
        }
    }

    // Its next item is under this label.
    fn go_to_label(&mut self, limit: u64, label: u32) -> Result<(), AllocError>
        ensures { OnOk result (self.new ≡ at_label limit label self.old) }
    {
        if self.is_under(label) {
            return Ok(());
        }
        self.begin_label(limit, label)
    }

    // Items under another label begin.
    fn begin_label(&mut self, limit: u64, label: u32) -> Result<(), AllocError>
        ensures { OnOk result (self.new ≡ with_point limit label self.old) }
    {
        if limit <= self.points.len() as u64 {
            self.points = Vec::new(self.alloc);
            self.over = true;
            return Ok(());
        }
        let before = self.digest;
        match self.points.push(Point { label, before }) {
            Ok(()) => Ok(()),
            Err(_) => Err(AllocError),
        }
    }

    /// The items from the first one under a label on are rolled back. The one error is out of
    /// memory.
    pub(crate) fn cut(&mut self, label: u32) -> Result<(), AllocError>
        ensures { OnOk result (self.new ≡ cut label self.old) }
    {
        let all = replace(&mut self.points, Vec::new(self.alloc));
        for point in all {
            if point.label == label {
                self.digest = point.before;
                return Ok(());
            }
            let Ok(()) = self.points.push(point) else {
                return Err(AllocError);
            };
        }
        Ok(())
    }
}

/// One item more, which is a change or none.
pub(crate) fn add_item(digest: &mut Digest, change: Option<Change>)
    ensures { digest.new ≡ with_item digest.old change }
{
    if let Some(change) = change {
        digest.add(change);
    }
}
