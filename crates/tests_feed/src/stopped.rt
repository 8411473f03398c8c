//! Feeds in memory that are written, stopped at each of their calls, and opened again.

use crate::commits::{append_at, append_parts_at};
use crate::folders::{MemoryFolder, Stop, Stored};
use pgapply::StoreFault;
use pgfeed::{Feed, FeedFault, Folder, Origin, SegmentLimits};
use pgledger::Ledger;
use pglsn::Lsn;
use std::process::Abort;

/// A head and two commits.
const TWO: SegmentLimits = SegmentLimits {
    bytes: 1024 + 2 * (256 + 161),
    micros: u64::MAX,
    messages: None,
};

/// No more than a single commit.
const ONE: SegmentLimits = SegmentLimits {
    bytes: 0,
    micros: u64::MAX,
    messages: None,
};

/// How a run goes: where its segments end, how many commits are settled at once, and whether they
/// come in parts.
#[derive(Clone, Copy, Debug)]
struct Course {
    limits: SegmentLimits,
    group: u64,
    in_parts: bool,
}

/// Each commit is settled by itself.
const SINGLY: Course = Course {
    limits: TWO,
    group: 1,
    in_parts: false,
};

/// Each commit comes in parts, and begins a segment.
const PARTED: Course = Course {
    limits: ONE,
    group: 2,
    in_parts: true,
};

/// Segments end amid the commits that are settled at once.
static GROUPED: [Course; 4] = [
    Course {
        limits: TWO,
        group: 2,
        in_parts: false,
    },
    Course {
        limits: TWO,
        group: 5,
        in_parts: false,
    },
    Course {
        limits: ONE,
        group: 3,
        in_parts: false,
    },
    Course {
        limits: ONE,
        group: 5,
        in_parts: false,
    },
];

/// The LSNs at which the commits of a run end.
static ENDS: [u64; 5] = [0x200, 0x300, 0x400, 0x500, LAST];

const LAST: u64 = 0x600;

fn open<F: Folder + Drop>(
    rt: &impl AllocGlobal,
    folder: F,
    limits: SegmentLimits,
    position: Lsn,
) -> Result<Feed<F>, (FeedFault, F)> {
    let origin = Origin {
        system: "7",
        database: "d",
        slot: "s",
    };
    Feed::open(rt.alloc(), folder, &origin, limits, position)
}

/// Appends a commit, and settles it where this is told.
fn append<F: Folder + Drop>(
    rt: &(impl Abort + AllocGlobal),
    feed: &mut Feed<F>,
    end: u64,
    in_parts: bool,
    settles: bool,
) -> Result<(), StoreFault> {
    if in_parts {
        append_parts_at(rt, feed, Lsn(end))?;
    } else {
        append_at(rt, feed, Lsn(end))?;
    }
    if settles { feed.sync() } else { Ok(()) }
}

/// Appends the commits that end after this LSN, so many settled at once, and notes up to where that
/// was done. They may come in parts.
fn go_on<F: Folder + Drop>(
    rt: &(impl Abort + AllocGlobal),
    feed: &mut Feed<F>,
    course: Course,
    settled: &mut Lsn,
) -> Result<(), StoreFault> {
    let mut staged: u64 = 0;
    for end in &ENDS {
        if settled.0 < *end {
            staged = staged.saturating_add(1);
            let settles = staged == course.group || *end == LAST;
            append(rt, feed, *end, course.in_parts, settles)?;
            if settles {
                *settled = Lsn(*end);
                staged = 0;
            }
        }
    }
    Ok(())
}

/// The folder of a feed, which has its files back.
fn folder_of<F: Folder + Drop>(feed: Feed<F>) -> F {
    let base = feed.base();
    let (mut folder, file) = feed.into_parts();
    folder.close(base, file);
    folder
}

/// Opens a feed, and goes on until all is settled or it stops. Gives the folder back.
fn follow<F: Folder + Drop>(
    rt: &(impl Abort + AllocGlobal),
    folder: F,
    course: Course,
    settled: &mut Lsn,
) -> F {
    match open(rt, folder, course.limits, *settled) {
        Ok(mut feed) => {
            let _ended = go_on(rt, &mut feed, course, settled);
            folder_of(feed)
        }
        Err((_, folder)) => folder,
    }
}

/// The same over these segments. Gives the segments that are there then.
fn run(
    rt: &(impl Abort + AllocGlobal),
    segments: Vec<Stored>,
    course: Course,
    stop: Stop,
    settled: &mut Lsn,
) -> Vec<Stored> {
    let folder = MemoryFolder::of(rt.alloc(), segments, stop);
    follow(rt, folder, course, settled).into_segments()
}

/// The segments of an undisturbed run.
fn whole(rt: &(impl Abort + AllocGlobal), course: Course) -> Vec<Stored> {
    run(
        rt,
        Vec::new(rt.alloc()),
        course,
        Stop::Never,
        &mut Lsn(0x100),
    )
}

/// Whether a run over these segments that stops, is opened again and followed on, leaves the
/// segments of a whole run.
fn is_made_up(
    rt: &(impl Abort + AllocGlobal),
    course: Course,
    stop: Stop,
    before: Vec<Stored>,
    position: u64,
    whole: &[Stored],
) -> bool {
    let mut settled = Lsn(position);
    let segments = run(rt, before, course, stop, &mut settled);
    let again = run(rt, segments, course, Stop::Never, &mut settled);
    again.as_slice() == whole
}

/// Stops a run over a folder without segments, or over the segments of a whole run, which were left
/// with the store at this position: opened again and followed on, the feed has the same bytes.
fn try_stop(
    rt: &(impl Abort + AllocGlobal),
    course: Course,
    left: Option<u64>,
    stop: Stop,
    whole: &Vec<Stored>,
) {
    let (before, position) = match left {
        Some(position) => (whole.clone().expect(rt, "a copy"), position),
        None => (Vec::new(rt.alloc()), 0x100),
    };
    let same = is_made_up(rt, course, stop, before, position, whole.as_slice());
    assert!(rt; same, "{course:?} {stop:?} {left:?}");
}

/// Stops a run at each of its calls.
fn try_stops(rt: &(impl Abort + AllocGlobal), course: Course, left: Option<u64>) {
    let whole = whole(rt, course);
    assert!(rt; whole.len() >= 3, "{course:?}");
    for calls in 0..12 {
        try_stop(rt, course, left, Stop::Folder(calls), &whole);
        for number in 0..6 {
            try_stop(rt, course, left, Stop::File(number, calls), &whole);
        }
    }
}

// Stopped also amid commits of one settling, and opened within segments that have ended.
#[test]
fn has_the_same_bytes_after_a_stop_at_any_call(rt: HostRuntime) {
    for left in [None, Some(0x100), Some(0x200), Some(0x300), Some(0x400)] {
        try_stops(&rt, SINGLY, left);
    }
    for course in &GROUPED {
        try_stops(&rt, *course, None);
    }
    for left in [Some(0x200), Some(0x400)] {
        try_stops(&rt, GROUPED[1], left);
    }
    try_stops(&rt, GROUPED[3], Some(0x300));
    for left in [None, Some(0x300)] {
        try_stops(&rt, PARTED, left);
    }
}

// Segments have the same bytes whether their commits came in parts or not.
#[test]
fn has_the_same_bytes_of_commits_in_parts(rt: HostRuntime) {
    let once = Course {
        in_parts: false,
        ..PARTED
    };
    assert!(&rt; whole(&rt, PARTED).as_slice() == whole(&rt, once).as_slice());
}
