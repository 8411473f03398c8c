//! Messages that a feed in memory tells with a commit, and those for which it rejects the commit.

use crate::commits::append_at;
use crate::feeds::{open, text_of};
use crate::folders::MemoryFolder;
use pgapply::{LogicalMessage, StoreFault};
use pgfeed::Feed;
use pgledger::Ledger;
use pglsn::Lsn;
use std::process::Abort;

/// A message: its prefix, its content, and whether it came in a stream block.
type Message = (&'static str, &'static [u8], bool);

/// What is heard before a commit, with this limit, and what its lines tell of it, or why it is
/// rejected.
struct Row {
    limit: Option<u64>,
    heard: &'static [Message],
    told: Result<&'static str, &'static str>,
}

static ROWS: [Row; 9] = [
    Row {
        limit: Some(0),
        heard: &[],
        told: Ok(""),
    },
    Row {
        limit: None,
        heard: &[("p", b"xy", false), ("p", b"z", true)],
        told: Ok(""),
    },
    Row {
        limit: Some(3),
        heard: &[("p", b"xy", false)],
        told: Ok("{\"op\":\"m\",\"lsn\":\"0/180\",\"prefix\":\"p\",\"content\":\"xy\"}\n"),
    },
    Row {
        limit: Some(6),
        heard: &[("p", b"xy", false), ("q\"", b"\xFF", false)],
        told: Ok(
            "{\"op\":\"m\",\"lsn\":\"0/180\",\"prefix\":\"p\",\"content\":\"xy\"}\n\
            {\"op\":\"m\",\"lsn\":\"0/180\",\"prefix\":\"q\\\"\",\"content\":{\"hex\":\"ff\"}}\n",
        ),
    },
    Row {
        limit: Some(2),
        heard: &[("p", b"xy", false)],
        told: Err("feed 4 MessagesTooLong"),
    },
    Row {
        limit: Some(5),
        heard: &[("p", b"xy", false), ("q\"", b"\xFF", false)],
        told: Err("feed 4 MessagesTooLong"),
    },
    Row {
        limit: Some(2),
        heard: &[("p", b"xy", false), ("p", b"", false)],
        told: Err("feed 4 MessagesTooLong"),
    },
    Row {
        limit: Some(64),
        heard: &[("p", b"xy", true)],
        told: Err("feed 5 StreamedMessage"),
    },
    Row {
        limit: Some(2),
        heard: &[("p", b"xy", false), ("p", b"x", true)],
        told: Err("feed 5 StreamedMessage"),
    },
];

pub(crate) fn hear(feed: &mut Feed<MemoryFolder>, heard: &[Message]) {
    for (prefix, content, is_streamed) in heard {
        feed.hear(&LogicalMessage {
            lsn: Lsn(0x180),
            prefix,
            content,
            is_streamed: *is_streamed,
        });
    }
}

/// What stands behind the line of the last commit, up to the definition of its change.
fn told_last(text: &str) -> Option<&str> {
    let (_before, last) = text.rsplit_once("\"crc\":")?;
    let (_line, body) = last.split_once('\n')?;
    let (told, _change) = body.split_once("{\"op\":\"table\"")?;
    Some(told)
}

fn try_row(rt: &(impl Abort + AllocGlobal), row: &Row) {
    let mut feed = open(rt, row.limit);
    // what is forgotten isn't told, whatever it was
    hear(&mut feed, &[("other", b"0123456789", false)]);
    feed.forget();
    hear(&mut feed, row.heard);
    let appended = append_at(rt, &mut feed, Lsn(0x200));
    match row.told {
        Ok(told) => {
            assert!(rt; appended == Ok(()));
            assert_eq!(rt; told_last(text_of(rt, feed).as_str()), Some(told));
        }
        Err(cause) => {
            assert!(rt; appended == Err(StoreFault::Refused));
            assert!(rt; feed.is_stuck());
            // the cause stays, since the feed is stuck
            feed.forget();
            assert_eq!(rt; feed.cause(), Some(cause));
        }
    }
}

#[test]
fn tells_messages_in_their_order_within_the_limit(rt: HostRuntime) {
    for row in &ROWS {
        try_row(&rt, row);
    }
}

// What was told with one commit isn't told again.
#[test]
fn tells_messages_once(rt: HostRuntime) {
    let mut feed = open(&rt, Some(64));
    hear(&mut feed, &[("p", b"xy", false)]);
    append_at(&rt, &mut feed, Lsn(0x200)).expect(&rt, "a commit");
    append_at(&rt, &mut feed, Lsn(0x300)).expect(&rt, "a commit");
    assert_eq!(&rt; told_last(text_of(&rt, feed).as_str()), Some(""));
}

// The feed stops for another reason than for messages of a commit that it had before.
#[test]
fn tells_no_cause_of_what_it_forgot(rt: HostRuntime) {
    let mut feed = open(&rt, Some(2));
    hear(&mut feed, &[("p", b"xy", false)]);
    feed.forget();
    assert!(&rt; append_at(&rt, &mut feed, Lsn(0x100)) == Err(StoreFault::Refused));
    assert!(&rt; feed.is_stuck());
    assert_eq!(&rt; feed.cause(), None);
}
