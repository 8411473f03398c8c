//! Feeds in memory of a single segment.

use crate::folders::{MemoryFolder, Stop};
use pgfeed::{Feed, Folder, Origin, SegmentLimits};
use pglsn::Lsn;
use std::process::Abort;

/// A feed that begins at 0/100, with this limit of messages.
pub(crate) fn open(rt: &(impl Abort + AllocGlobal), messages: Option<u64>) -> Feed<MemoryFolder> {
    let limits = SegmentLimits {
        bytes: u64::MAX,
        micros: u64::MAX,
        messages,
    };
    let origin = Origin {
        system: "7",
        database: "d",
        slot: "s",
    };
    let folder = MemoryFolder::of(rt.alloc(), Vec::new(rt.alloc()), Stop::Never);
    match Feed::open(rt.alloc(), folder, &origin, limits, Lsn(0x100)) {
        Ok(feed) => feed,
        Err(_) => panic!(rt; "no feed"),
    }
}

/// The text of a feed's only segment.
pub(crate) fn text_of(rt: &(impl Abort + AllocGlobal), feed: Feed<MemoryFolder>) -> String {
    let (mut folder, file) = feed.into_parts();
    folder.close(Lsn(0x100), file);
    let mut segments = folder.into_segments();
    match segments.pop() {
        Some((_base, bytes)) => String::from_utf8(bytes).expect(rt, "a text"),
        None => panic!(rt; "no segment"),
    }
}
