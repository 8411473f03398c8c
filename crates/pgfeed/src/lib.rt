//! A feed of commits: lines of JSON that tell, for each commit, the whole row before and after each
//! change.
//!
//! A segment of a feed is a file, which has its head before it has its name. The head has 1,024
//! bytes, the line of each commit 256, padded by blanks; that line tells how many bytes follow, so
//! a reader goes from commit to commit without reading more, and a CRC-32 of what stands before it
//! and of these bytes. A line with the definition of a relation comes before its first change in a
//! segment, and again where the definition changes, or the segment was opened anew. Each change
//! names the offset of that line, so that a commit can be read alone. Messages of a commit, where
//! they are told, come before all of these.
//!
//! ```text
//! {"feed":4,"base":"0/100","system":"7231","database":"shop","slot":"copy"}
//! {"end":"0/200","prev":"0/100","bytes":196,"changes":1,"lsn":"0/1D8","xid":739,"ts_us":16996848..
//! {"op":"table","oid":16384,"schema":"public","table":"stock","identity":"d","key":["sku"],"colum..
//! {"op":"c","at":1280,"n":0,"before":null,"after":["A-1","5"]}
//! ```
//!
//! A segment that has ended has one line more, also of 256 bytes, that tells where its last commit
//! ends. The next segment begins there.
//!
//! ```text
//! {"last":"0/300"}
//! ```
//!
//! [`Feed`] is a `pgledger::Ledger` over a [`Folder`] of segments, and [`Segment`] is one over a
//! single file. So a store beside it keeps a feed:
//!
//! ```text
//! // truncates what comes after the position
//! let feed = Feed::open(alloc, folder, &origin, limits, store.position())?;
//! let mut store = Recorded::new(store, feed);
//! ```
//!
//! PostgreSQL documentation, Logical Replication Message Formats; RFC 8259.
#![tactic(auto)]

mod changes;
mod draft;
mod entries;
mod fault;
mod feed;
mod feed_draft;
mod folder;
mod heads;
mod hearing;
mod laws;
mod mark;
mod messages;
mod opening;
mod segment;
mod segment_draft;
mod segments;
mod tables;
mod told;
mod values;

pub use fault::FeedFault;
pub use feed::{ANY_SIZE, Feed, MOST_ENDED};
pub use folder::{Folder, Origin, SegmentLimits};
pub use laws::{
    changes_name_definitions, entries_have_their_crc, feeds_lead_to_their_store,
    feeds_outlast_crashes, lines_lead_over_entries, lines_of_commits_fit, lines_tell_whole_rows,
    lines_that_end_segments, messages_are_told, text_is_read_in_one_way,
};
pub use mark::Mark;
pub use segment::Segment;
