//! What is found of sessions.

use crate::wire::Wire;
use pgcompared::{Compared, Finding, Lost, Told};
use pglsn::Lsn;
use pgorder::Version;
use pgrepeats::{Answer, Change, Commit, Contradiction, Digest, Part, Past, Trouble};
use std::alloc::Global;
use std::process::Abort;

/// What is found of bytes that come in pieces.
#[derive(Clone, Copy, Debug, PartialEq, Eq)]
struct Sum {
    noted: usize,
    forgot: usize,
    found: usize,
    last: Option<Finding>,
}

impl Sum {
    const NOTHING: Sum = Sum {
        noted: 0,
        forgot: 0,
        found: 0,
        last: None,
    };

    fn add(&mut self, told: &Told) {
        self.noted = self.noted.saturating_add(usize::from(told.noted.is_some()));
        self.forgot = self.forgot.saturating_add(usize::from(told.forgot));
        if told.found.is_some() {
            self.found = self.found.saturating_add(1);
            self.last = told.found;
        }
    }
}

fn fresh(alloc: Global, limit: u64) -> Compared {
    Compared::new(alloc, Version::Two, 1000, limit, Past::new(alloc, 100))
}

/// Hears all bytes of a piece.
fn hear(rt: &impl Abort, compared: &mut Compared, sum: &mut Sum, piece: &[u8]) {
    let mut rest = piece;
    for _ in 0..piece.len() {
        if rest.is_empty() {
            return;
        }
        let mut told = Told::nothing(false);
        let count = compared.hear_front(rest, &mut told);
        assert!(rt; count > 0 && count <= rest.len());
        sum.add(&told);
        rest = &rest[count..];
    }
    assert!(rt; rest.is_empty());
}

/// What is found of these bytes.
fn sum_of(rt: &impl Abort, compared: &mut Compared, bytes: &[u8]) -> Sum {
    let mut sum = Sum::NOTHING;
    hear(rt, compared, &mut sum, bytes);
    sum
}

fn contradicted(at: u64, contradiction: Contradiction) -> Option<Finding> {
    Some(Finding::Contradicted { at, contradiction })
}

/// The transaction of `Wire::pair`.
fn commit_of(lsn: u64, xid: u32, letters: &[u8]) -> Commit {
    let mut digest = Digest::of_none();
    for letter in letters {
        let row = [0, 0, 0, 1, b'N', 0, 1, b't', 0, 0, 0, 1, *letter];
        digest.add(Change::of(b"I", &row));
    }
    Commit {
        end: lsn.saturating_add(8),
        lsn,
        xid,
        time: 0,
        digest,
    }
}

/// A session of two transactions.
fn two(rt: &impl Abort, wire: &mut Wire) {
    wire.pair(rt, 100, 10, b"ab");
    wire.pair(rt, 200, 11, b"c");
    wire.done(rt);
}

#[test]
fn a_session_that_comes_again_is_equal(rt: HostRuntime) {
    let mut wire = Wire::new(rt.alloc());
    two(&rt, &mut wire);
    two(&rt, &mut wire);
    let mut compared = fresh(rt.alloc(), 100);
    let sum = sum_of(&rt, &mut compared, &wire.bytes);
    assert!(rt;
        sum == Sum {
            noted: 2,
            ..Sum::NOTHING
        }
    );
    assert!(rt; compared.equal() == 2 && compared.past().len() == 2);
}

#[test]
fn a_server_that_was_set_back_is_found_at_its_frame(rt: HostRuntime) {
    let mut wire = Wire::new(rt.alloc());
    two(&rt, &mut wire);
    let before = wire.bytes.len();
    wire.pair(&rt, 100, 10, b"ab");
    wire.begin(&rt, 200, 11);
    wire.insert(&rt, b'x');
    let at = wire.bytes.len().saturating_sub(before);
    wire.commit(&rt, 200);
    wire.pair(&rt, 300, 12, b"d");
    let mut compared = fresh(rt.alloc(), 100);
    let sum = sum_of(&rt, &mut compared, &wire.bytes);
    let (end, part) = (Lsn(208), Part::Changes);
    let found = contradicted(at as u64, Contradiction::Another { end, part });
    assert!(rt;
        sum == Sum {
            noted: 4,
            forgot: 1,
            found: 1,
            last: found
        }
    );
    assert!(rt; compared.past().len() == 2 && compared.past().newest() == 308);
}

#[test]
fn what_is_streamed_is_the_same_as_what_comes_whole(rt: HostRuntime) {
    let mut wire = Wire::new(rt.alloc());
    wire.pair(&rt, 100, 10, b"abe");
    wire.done(&rt);
    wire.start(&rt, 10, true);
    wire.insert_under(&rt, 10, b'a');
    wire.stop(&rt);
    wire.start(&rt, 20, true);
    wire.insert_under(&rt, 20, b'z');
    wire.stop(&rt);
    wire.start(&rt, 10, false);
    wire.insert_under(&rt, 10, b'b');
    wire.insert_under(&rt, 12, b'c');
    wire.insert_under(&rt, 13, b'd');
    wire.stop(&rt);
    wire.abort(&rt, 10, 13);
    wire.abort(&rt, 10, 12);
    wire.abort(&rt, 10, 14);
    wire.abort(&rt, 20, 20);
    wire.start(&rt, 10, false);
    wire.insert_under(&rt, 15, b'e');
    wire.stop(&rt);
    wire.stream_commit(&rt, 10, 100);
    let mut compared = fresh(rt.alloc(), 100);
    let sum = sum_of(&rt, &mut compared, &wire.bytes);
    assert!(rt;
        sum == Sum {
            noted: 1,
            ..Sum::NOTHING
        } && compared.equal() == 1
    );
}

#[test]
fn a_change_that_is_not_rolled_back_any_more_is_found(rt: HostRuntime) {
    let mut wire = Wire::new(rt.alloc());
    for rolled_back in [true, false] {
        wire.start(&rt, 10, true);
        wire.insert_under(&rt, 10, b'a');
        wire.insert_under(&rt, 11, b'b');
        wire.stop(&rt);
        if rolled_back {
            wire.abort(&rt, 10, 11);
        }
        wire.stream_commit(&rt, 10, 100);
        wire.done(&rt);
    }
    let mut compared = fresh(rt.alloc(), 100);
    let sum = sum_of(&rt, &mut compared, &wire.bytes);
    assert!(rt; sum.found == 1 && sum.forgot == 1 && sum.noted == 2);
}

#[test]
fn no_cut_changes_what_is_found(rt: HostRuntime) {
    let mut wire = Wire::new(rt.alloc());
    two(&rt, &mut wire);
    wire.pair(&rt, 100, 10, b"ax");
    wire.done(&rt);
    let mut compared = fresh(rt.alloc(), 100);
    let whole = sum_of(&rt, &mut compared, &wire.bytes);
    assert!(rt; whole.found == 1);
    for cut in 0..wire.bytes.len() {
        let mut compared = fresh(rt.alloc(), 100);
        let mut sum = Sum::NOTHING;
        hear(&rt, &mut compared, &mut sum, &wire.bytes[..cut]);
        hear(&rt, &mut compared, &mut sum, &wire.bytes[cut..]);
        assert!(rt; sum == whole);
    }
}

// Transaction 10 has three points, and its second session forgets what came before.
#[test]
fn a_transaction_above_the_limit_is_not_compared(rt: HostRuntime) {
    let mut wire = Wire::new(rt.alloc());
    for last in [b'c', b'd'] {
        wire.start(&rt, 10, true);
        wire.insert_under(&rt, 10, b'a');
        wire.insert_under(&rt, 11, b'b');
        wire.insert_under(&rt, 10, last);
        wire.stop(&rt);
        wire.stream_commit(&rt, 10, 100);
        wire.pair(&rt, 200, 11, b"e");
        wire.done(&rt);
    }
    let mut compared = fresh(rt.alloc(), 2);
    let sum = sum_of(&rt, &mut compared, &wire.bytes);
    assert!(rt;
        sum == Sum {
            noted: 1,
            forgot: 2,
            ..Sum::NOTHING
        }
    );
    let mut compared = fresh(rt.alloc(), 3);
    let sum = sum_of(&rt, &mut compared, &wire.bytes);
    assert!(rt; sum.found == 1);
}

/// How often these bytes are contradicted where the first two transactions are noted, and others
/// came up to here.
fn found_behind_two(rt: &impl Abort, alloc: Global, reached: u64, bytes: &[u8]) -> usize {
    let mut past = Past::new(alloc, 100);
    assert!(rt; past.hear(commit_of(100, 10, b"ab")).is_ok());
    assert!(rt; past.hear(commit_of(200, 11, b"c")).is_ok());
    let mut compared = Compared::new(alloc, Version::Two, 1000, 100, past);
    compared.reach(reached);
    sum_of(rt, &mut compared, bytes).found
}

// What was noted before a start may have lost its end, where commits came above it. The second
// transaction ends at 208.
#[test]
fn the_first_commit_shows_whether_any_may_be_missing(rt: HostRuntime) {
    let mut above = Wire::new(rt.alloc());
    above.pair(&rt, 400, 13, b"e");
    above.done(&rt);
    above.pair(&rt, 300, 12, b"d");
    assert!(rt; found_behind_two(&rt, rt.alloc(), 209, &above.bytes) == 0);
    assert!(rt; found_behind_two(&rt, rt.alloc(), 208, &above.bytes) == 1);
    let mut below = Wire::new(rt.alloc());
    below.pair(&rt, 200, 11, b"c");
    below.pair(&rt, 400, 13, b"e");
    below.done(&rt);
    below.pair(&rt, 300, 12, b"d");
    assert!(rt; found_behind_two(&rt, rt.alloc(), 209, &below.bytes) == 1);
}

// The one that ends at 408 came before, and isn't noted.
#[test]
fn each_session_may_start_above_what_is_noted(rt: HostRuntime) {
    let mut wire = Wire::new(rt.alloc());
    for lsns in [&[300][..], &[500], &[300, 400, 500]] {
        for lsn in lsns {
            wire.pair(&rt, *lsn, 12, b"d");
        }
        wire.done(&rt);
    }
    assert!(rt; found_behind_two(&rt, rt.alloc(), 408, &wire.bytes) == 0);
    assert!(rt; found_behind_two(&rt, rt.alloc(), 308, &wire.bytes) == 1);
}

// What comes behind a commit of which nothing is known comes behind it in order.
#[test]
fn one_that_is_left_out_behind_an_unknown_one_is_found(rt: HostRuntime) {
    let mut past = Past::new(rt.alloc(), 1);
    assert!(&rt; past.hear(commit_of(100, 10, b"ab")).is_ok());
    assert!(&rt; past.hear(commit_of(200, 11, b"c")).is_ok());
    past.begin_session();
    assert!(&rt; past.hear(commit_of(100, 10, b"ab")) == Ok(Answer::Unknown));
    let end = Lsn(208);
    let left_out = Trouble::Contradicted(Contradiction::LeftOut { end });
    assert!(&rt; past.hear(commit_of(300, 12, b"d")) == Err(left_out));
}

#[test]
fn a_session_that_cannot_be_read_is_lost_once_and_forgotten(rt: HostRuntime) {
    let mut wire = Wire::new(rt.alloc());
    two(&rt, &mut wire);
    let before = wire.bytes.len();
    wire.begin(&rt, 100, 10);
    let at = wire.bytes.len().saturating_sub(before);
    wire.unknown(&rt);
    wire.unknown(&rt);
    wire.commit(&rt, 100);
    let mut compared = fresh(rt.alloc(), 100);
    let sum = sum_of(&rt, &mut compared, &wire.bytes);
    assert!(rt; sum.found == 1 && sum.forgot == 0);
    assert!(rt;
        matches!(sum.last, Some(Finding::Lost { at: found, why: Lost::Undecoded(_) })
        if found == at as u64)
    );
    let mut next = Wire::new(rt.alloc());
    next.done(&rt);
    two(&rt, &mut next);
    let sum = sum_of(&rt, &mut compared, &next.bytes);
    assert!(rt; sum.found == 0 && sum.forgot == 1);
}

#[test]
fn nothing_is_compared_behind_what_is_no_frame(rt: HostRuntime) {
    let mut wire = Wire::new(rt.alloc());
    two(&rt, &mut wire);
    let mut compared = fresh(rt.alloc(), 100);
    let sum = sum_of(&rt, &mut compared, b"x");
    assert!(rt;
        matches!(
            sum.last,
            Some(Finding::Lost {
                at: 0,
                why: Lost::Unframed(_)
            })
        )
    );
    let sum = sum_of(&rt, &mut compared, &wire.bytes);
    assert!(rt; sum == Sum::NOTHING);
}
