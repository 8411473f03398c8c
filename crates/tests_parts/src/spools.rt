//! Both forms of spools.

use crate::messages::{INSERT, item_over};
use pglogical::ItemRef;
use pgspool::{ByteSpools, ListSpools, SpoolFault, Spools};
use std::process::Abort;

fn push<P: Spools>(
    rt: &impl Abort,
    spools: &mut P,
    xid: u32,
    subxid: u32,
    item: &ItemRef<'_>,
) -> Result<(), SpoolFault> {
    assert!(rt; spools.is_open(xid));
    assert!(rt; item.spellable());
    spools.push(xid, subxid, item)
}

fn open<P: Spools>(rt: &impl Abort, spools: &mut P, xid: u32) -> Result<(), SpoolFault> {
    assert!(rt; !spools.is_open(xid));
    spools.open(xid)
}

/// Opens once more where memory ran out, which changes nothing.
fn open_in_the_end<P: Spools>(rt: &impl Abort, spools: &mut P, xid: u32) {
    if open(rt, spools, xid) == Err(SpoolFault::Memory) {
        assert!(rt; !spools.is_open(xid));
        assert!(rt; open(rt, spools, xid).is_ok());
    }
}

/// Pushes once more where memory ran out, which changes nothing.
fn push_in_the_end<P: Spools>(
    rt: &impl Abort,
    spools: &mut P,
    xid: u32,
    subxid: u32,
    item: &ItemRef<'_>,
) {
    let before = (spools.bytes(), spools.count(xid));
    if push(rt, spools, xid, subxid, item) == Err(SpoolFault::Memory) {
        assert!(rt; (spools.bytes(), spools.count(xid)) == before);
        assert!(rt; push(rt, spools, xid, subxid, item).is_ok());
    }
}

fn open_nine<P: Spools>(rt: &impl Abort, spools: &mut P) {
    for xid in 1..10u32 {
        open_in_the_end(rt, spools, xid);
    }
}

/// One item in each of the nine.
fn push_nine<P: Spools>(rt: &impl Abort, spools: &mut P, round: u8, item: &ItemRef<'_>) {
    for xid in 1..10u32 {
        push_in_the_end(rt, spools, xid, xid + round as u32, item);
    }
}

/// Forty items in each of the nine.
fn push_forty<P: Spools>(rt: &impl Abort, spools: &mut P, item: &ItemRef<'_>) {
    for round in 0..40u8 {
        push_nine(rt, spools, round, item);
    }
    assert!(rt; spools.bytes() == 40 * 9 * 28);
}

/// Rolls back all but the first three of each of the nine, and once more after another item.
fn cut_to_three<P: Spools>(rt: &impl Abort, spools: &mut P, item: &ItemRef<'_>) {
    for xid in 1..10u32 {
        assert!(rt; spools.cut(xid, xid + 3).is_ok());
        push_in_the_end(rt, spools, xid, xid + 3, item);
        assert!(rt; spools.cut(xid, xid + 3).is_ok());
        assert!(rt; spools.count(xid) == 3);
    }
    assert!(rt; spools.bytes() == 3 * 9 * 28);
}

/// Forty items in each of nine transactions, and then three.
fn refuse_one<P: Spools + Drop>(rt: &impl Abort, mut spools: P, item: &ItemRef<'_>) {
    open_nine(rt, &mut spools);
    push_forty(rt, &mut spools, item);
    cut_to_three(rt, &mut spools, item);
}

#[test]
fn refused_memory_changes_nothing(rt: HostRuntime) {
    let item = item_over(&rt, INSERT);
    refuse_one(&rt, ListSpools::new(rt.alloc(), 100000), &item);
    refuse_one(&rt, ByteSpools::new(rt.alloc(), 100000), &item);
}
