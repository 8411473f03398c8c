//! A watch over sessions.

use crate::messages::{INSERT, RELATION_T, item_over};
use crate::orders::fits;
use pglogical::MessageRef;
use pglsn::Lsn;
use pgorder::Version;
use pgwatch::{Breach, Watch};
use std::process::Abort;

fn hear(
    rt: &impl Abort,
    watch: &mut Watch,
    at: u64,
    message: &MessageRef<'_>,
) -> Result<(), Breach> {
    assert!(rt; fits(watch.in_block(), message));
    watch.message(at, message)
}

fn begin(lsn: u64) -> MessageRef<'static> {
    MessageRef::Begin {
        final_lsn: Lsn(lsn),
        commit_time: 0,
        xid: 7,
    }
}

fn commit(lsn: u64, end: u64) -> MessageRef<'static> {
    MessageRef::Commit {
        commit_lsn: Lsn(lsn),
        end_lsn: Lsn(end),
        commit_time: 0,
    }
}

fn item<'b>(rt: &impl Abort, body: &'b [u8]) -> MessageRef<'b> {
    MessageRef::Item {
        xid: None,
        item: item_over(rt, body),
    }
}

/// A transaction of four frames, from `at` on.
fn transaction(
    rt: &impl Abort,
    watch: &mut Watch,
    at: u32,
    lsn: u64,
    end: u64,
) -> Result<(), Breach> {
    let at = u64::from(at);
    hear(rt, watch, at, &begin(lsn))?;
    hear(rt, watch, at + 1, &item(rt, RELATION_T))?;
    hear(rt, watch, at + 2, &item(rt, INSERT))?;
    hear(rt, watch, at + 3, &commit(lsn, end))
}

// A commit that ends at a keepalive's end; from then on each answer is the same.
#[test]
fn watch_ends_where_a_rule_is_broken(rt: HostRuntime) {
    let mut watch = Watch::new(rt.alloc(), Version::One, Lsn(0x100), 4);
    assert!(rt; transaction(&rt, &mut watch, 1, 0x100, 0x130).is_ok());
    assert!(rt; watch.keepalive(5, Lsn(0x160)).is_ok());
    let broken = Err(Breach::BelowKeepalive {
        at: 9,
        end: Lsn(0x160),
        cause: 5,
        told: Lsn(0x160),
    });
    assert!(rt; transaction(&rt, &mut watch, 6, 0x130, 0x160) == broken);
    assert!(rt; transaction(&rt, &mut watch, 10, 0x160, 0x190) == broken);
    assert!(rt; watch.keepalive(14, Lsn(0x190)) == broken);
}

fn open(rt: &impl Abort, watch: &mut Watch, xid: u32) -> Result<(), Breach> {
    let at = u64::from(xid);
    let start = MessageRef::StreamStart {
        xid,
        first_segment: true,
    };
    hear(rt, watch, at, &start)?;
    hear(rt, watch, at, &MessageRef::StreamStop)
}

// Where memory is refused, the watch says so, and the same from then on.
#[test]
fn refused_memory_ends_the_watch(rt: HostRuntime) {
    let mut watch = Watch::new(rt.alloc(), Version::Two, Lsn(0), 1000);
    let mut before = Ok(());
    for xid in 1..200u32 {
        let said = open(&rt, &mut watch, xid);
        assert!(rt; before.is_ok() || said == before);
        before = said;
    }
}
