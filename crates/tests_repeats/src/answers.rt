//! What is answered of a commit.

use pglsn::Lsn;
use pgrepeats::{Answer, Change, Commit, Contradiction, Digest, Part, Past, Trouble};
use std::process::Abort;

/// A commit that ends there, with an Insert of these bytes where there are some.
fn commit(end: u64, row: &[u8]) -> Commit {
    let mut digest = Digest::of_none();
    if !row.is_empty() {
        digest.add(Change::of(b"I", row));
    }
    Commit {
        end,
        lsn: end.saturating_sub(8),
        xid: 10,
        time: 0,
        digest,
    }
}

fn hear(rt: &impl Abort, past: &mut Past, commit: Commit, wanted: Answer) {
    let said = past.hear(commit);
    assert!(rt; said == Ok(wanted));
}

fn contradict(rt: &impl Abort, past: &mut Past, commit: Commit, wanted: Contradiction) {
    let said = past.hear(commit);
    assert!(rt; said == Err(Trouble::Contradicted(wanted)));
}

/// Three commits, of which the second one changes nothing.
fn three(rt: &impl Abort, past: &mut Past) {
    hear(rt, past, commit(16, b"a"), Answer::New);
    hear(rt, past, commit(32, b""), Answer::New);
    hear(rt, past, commit(48, b"c"), Answer::New);
}

#[test]
fn what_comes_again_is_known(rt: HostRuntime) {
    let mut past = Past::new(rt.alloc(), 100);
    three(&rt, &mut past);
    past.begin_session();
    hear(&rt, &mut past, commit(16, b"a"), Answer::Equal);
    hear(&rt, &mut past, commit(48, b"c"), Answer::Equal);
    hear(&rt, &mut past, commit(64, b"d"), Answer::New);
    past.begin_session();
    hear(&rt, &mut past, commit(8, b"z"), Answer::Unknown);
    hear(&rt, &mut past, commit(40, b""), Answer::Unknown);
    assert!(rt; past.unknown() == 2 && past.forgotten() == 0);
}

#[test]
fn another_commit_is_told_of(rt: HostRuntime) {
    let mut past = Past::new(rt.alloc(), 100);
    three(&rt, &mut past);
    past.begin_session();
    let end = Lsn(16);
    let mut other = commit(16, b"b");
    let part = Part::Changes;
    contradict(&rt, &mut past, other, Contradiction::Another { end, part });
    other.time = 1;
    let part = Part::Time;
    contradict(&rt, &mut past, other, Contradiction::Another { end, part });
    other.xid = 11;
    let part = Part::Xid;
    contradict(&rt, &mut past, other, Contradiction::Another { end, part });
    other.lsn = 9;
    let part = Part::Lsn;
    contradict(&rt, &mut past, other, Contradiction::Another { end, part });
}

#[test]
fn a_server_that_was_set_back_is_told_of(rt: HostRuntime) {
    let mut past = Past::new(rt.alloc(), 100);
    three(&rt, &mut past);
    past.begin_session();
    let end = Lsn(40);
    contradict(
        &rt,
        &mut past,
        commit(40, b"b"),
        Contradiction::Inserted { end },
    );
    let (lsn, end) = (Lsn(47), Lsn(48));
    contradict(
        &rt,
        &mut past,
        commit(55, b"d"),
        Contradiction::Overlaps { lsn, end },
    );
    hear(&rt, &mut past, commit(16, b"a"), Answer::Equal);
    contradict(
        &rt,
        &mut past,
        commit(64, b"d"),
        Contradiction::LeftOut { end },
    );
}

#[test]
fn the_first_ones_are_forgotten(rt: HostRuntime) {
    let mut past = Past::new(rt.alloc(), 2);
    three(&rt, &mut past);
    assert!(rt; past.forgotten() == 1);
    past.begin_session();
    hear(&rt, &mut past, commit(16, b"other"), Answer::Unknown);
    hear(&rt, &mut past, commit(48, b"c"), Answer::Equal);
    past.forget();
    assert!(rt; past.forgotten() == 3 && past.unknown() == 1);
    hear(&rt, &mut past, commit(48, b"other"), Answer::Unknown);
}

// The connector's rows take the place of changes of the commits before them, and may be left out.
#[test]
fn rows_that_the_connector_sends_come_once(rt: HostRuntime) {
    let mut past = Past::new(rt.alloc(), 100);
    three(&rt, &mut past);
    let mut rows = commit(64, b"rows");
    rows.xid = 2;
    hear(&rt, &mut past, rows, Answer::New);
    hear(&rt, &mut past, commit(80, b"e"), Answer::New);
    past.begin_session();
    hear(&rt, &mut past, commit(16, b""), Answer::Unknown);
    hear(&rt, &mut past, commit(80, b"e"), Answer::Equal);
}
