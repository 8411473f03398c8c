//! Tells why a feed wasn't opened, or a load not taken.

ghost use Rattle.std.specs.Prelude.{◌≡◌, None};
ghost use Rattle.pgruns.specs.Fed.{TellsUnfed, feed_line, status_of_unapplied, status_of_unfed};
ghost use Rattle.pgruns.specs.Filed.{TellsBy, TellsUnloaded, status_of_unloaded};

use pgfeed::FeedFault;
use pgload::InputFault;
use pgloaded::{input_line, load_status, stream_fault};
use pgsub_cli::files::Output;
use pgsub_cli::following::{fault_status, tell_because};
use std::alloc::{AllocError, Global};

/// The line of a fault of a feed on standard error.
fn feed_line(fault: FeedFault) -> &'static str
    ensures { result.now ≡ feed_line fault }
{
    match fault {
        FeedFault::NotAFeed => "pgsub: feed 1 NotAFeed\n",
        FeedFault::TooLong => "pgsub: feed 2 TooLong\n",
        FeedFault::Refused => "pgsub: feed 3 Refused\n",
        FeedFault::Memory => "pgsub: memory\n",
    }
}

/// Writes the line. Where standard error can't be written, the status alone tells.
fn tell_feed<E: Output>(fault: FeedFault, err: &mut E)
    ensures { TellsUnfed E.takes E.failed fault err.old err.new }
{
    let _ = err.write_lines(feed_line(fault));
}

/// Tells why the feed of a run that follows wasn't opened. Returns the exit status: 3 where the
/// folder is no feed of the store, or the names are too long, 14 where memory ran out and else 13.
pub(crate) fn tell_unfed<E: Output>(fault: FeedFault, err: &mut E) -> u8
    ensures status { result ≡ status_of_unfed fault }
    ensures tells { TellsUnfed E.takes E.failed fault err.old err.new }
{
    tell_feed(fault, err);
    match fault {
        FeedFault::NotAFeed | FeedFault::TooLong => 3,
        FeedFault::Refused => 13,
        FeedFault::Memory => 14,
    }
}

/// That of another run: 1 where memory ran out and else 3.
pub(crate) fn tell_unapplied<E: Output>(fault: FeedFault, err: &mut E) -> u8
    ensures status { result ≡ status_of_unapplied fault }
    ensures tells { TellsUnfed E.takes E.failed fault err.old err.new }
{
    tell_feed(fault, err);
    match fault {
        FeedFault::Memory => 1,
        _ => 3,
    }
}

/// Writes the line of why a load isn't taken. Where standard error can't be written, the status
/// alone tells.
fn write_input<E: Output>(alloc: Global, fault: InputFault, err: &mut E)
    ensures { TellsBy E.takes E.failed None fault err.old err.new }
{
    match input_line(alloc, fault) {
        Ok(line) => {
            let _ = err.write_lines(line.as_str());
        }
        Err(AllocError) => {
            let _ = err.write_lines("pgsub: memory\n");
        }
    }
}

/// Tells why a load isn't taken, and before it the cause of the store's error, where that is known.
/// Returns the exit status: 3 where the store isn't new, 15 where the input ends or a read failed,
/// and else that of a fault of a stream.
pub(crate) fn tell_unloaded<E: Output>(
    alloc: Global,
    fault: InputFault,
    cause: Option<&str>,
    err: &mut E,
) -> u8
    ensures status { result ≡ status_of_unloaded fault }
    ensures tells { TellsUnloaded E.takes E.failed fault err.old err.new }
{
    match stream_fault(fault) {
        Some(fault) => {
            tell_because(alloc, fault, cause, err);
            fault_status(fault)
        }
        None => {
            write_input(alloc, fault, err);
            load_status(fault)
        }
    }
}
