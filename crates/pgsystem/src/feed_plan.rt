//! The feed that a run keeps beside its store.

ghost use Rattle.std.specs.Prelude.{⊤, ℕ, IfOk, IfErr};
ghost use Rattle.pgfeed.specs.declared.fault.FeedFault.{FeedFault as FeedReason};
ghost use Rattle.pgfeed.specs.declared.feed.Feed.{Feed as FeedValue};
ghost use Rattle.pgsystem.specs.Opened.{IsOpenedAt};

use crate::file_folder::FileFolder;
use pgcommand::{FeedOptions, Task};
use pgfeed::{Feed, FeedFault, Folder, Origin, SegmentLimits};
use pglsn::Lsn;
use std::alloc::Global;

/// The feed of a run, which is still to be opened in a folder of this kind.
///
/// That it can't be opened for a reason is a fact that opening it alone gives. So a run beside any
/// opening is proved to tell the reason that it got.
pub trait FeedOpening<D: Folder + Drop> {
    /// That it can't be opened for this reason.
    ghost fails: { Self → FeedReason → Type 0 };

    /// That it was opened so, at this LSN.
    ghost opens: { Self → ℕ → FeedValue D D.File → Type 0 };

    /// Opens it at the position of the store beside it.
    fn open_feed(self, alloc: Global, position: Lsn) -> Result<Feed<D>, FeedFault>
        ensures opened { IfOk result (opens self position) }
        ensures failed { IfErr result (fails self) };
}

/// A feed that is to be opened beside a store.
#[derive(Drop)]
pub struct FeedPlan<'a, D: Folder + Drop> {
    /// The folder of its segments.
    pub folder: D,
    /// What it is of.
    pub origin: Origin<'a>,
    /// When its segments end, and which messages it tells.
    pub limits: SegmentLimits,
}

impl<D: Folder + Drop> FeedOpening<D> for FeedPlan<'_, D> {
    ghost fails = { λ _ _. ⊤ };

    ghost opens = { λ plan p feed. IsOpenedAt D.File.seen D.File.may_leave D.File.is_clean D.is_true
        D.places D.has plan p feed };

    fn open_feed(self, alloc: Global, position: Lsn) -> Result<Feed<D>, FeedFault> {
        match Feed::open(alloc, self.folder, &self.origin, self.limits, position) {
            Ok(feed) => Ok(feed),
            Err((fault, _folder)) => Err(fault),
        }
    }
}

/// When the segments of a feed end, and which messages it tells: 0 seconds mean no limit of age.
fn segment_limits(options: &FeedOptions) -> SegmentLimits {
    let micros = match options.segment_seconds {
        0 => u64::MAX,
        seconds => u64::from(seconds) * 1_000_000,
    };
    SegmentLimits {
        bytes: options.segment_bytes,
        micros,
        messages: options.messages,
    }
}

/// The feed that a task keeps beside its store, if it keeps one.
pub fn feed_of<'a>(rt: &'a HostRuntime, task: &'a Task) -> Option<FeedPlan<'a, FileFolder<'a>>> {
    let options = task.feed()?;
    Some(FeedPlan {
        folder: FileFolder::new(rt, options.folder.as_str()),
        origin: Origin {
            system: options.system.as_str(),
            database: options.database.as_str(),
            slot: options.slot.as_str(),
        },
        limits: segment_limits(options),
    })
}
