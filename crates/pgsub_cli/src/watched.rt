//! Tells of a watch over a server that is followed, where it ends before a session's bytes do.

ghost use Rattle.std.specs.Prelude.{◌≡◌, Some, [], min};
ghost use Rattle.std.specs.Fmt.{DisplaysOnOk};
ghost use Rattle.pgrules.specs.Live.{IsWatched};
ghost use Rattle.pgsub_cli.specs.WatchLines.{TellsFound, rule_name, watch_line};
ghost use Rattle.pgsub_cli.specs.Watched.{watch_limit};

use crate::files::Output;
use crate::limits::{Limits, max_frame};
use crate::watching::{EndText, WATCH_LIMIT};
use pgorder::Version;
use pgrules::{FindingListener, Findings, LiveWatch, Rule};
use std::alloc::Global;
use std::fmt;

/// A watch over a server that is followed within these limits.
pub fn live_watch(alloc: Global, version: Version, limits: Limits) -> LiveWatch
    ensures { IsWatched version watch_limit (min limits.max_frame 2147483643) [] result [] }
{
    LiveWatch::new(alloc, version, max_frame(limits), WATCH_LIMIT)
}

/// A rule, as a line names it.
#[derive(Clone, Copy)]
struct RuleName(Rule);

impl fmt::Display for RuleName {
    ghost output = { λ text. Some (rule_name text.0) };

    fn fmt<W: fmt::Write>(&self, f: &mut fmt::Formatter<W>) -> fmt::Result {
        f.write_str(match self.0 {
            Rule::Order => "order",
            Rule::Nested => "rule 2",
            Rule::Described => "rule 3",
            Rule::Keepalives => "rule 4",
            Rule::Frames => "rule 5",
            Rule::Texts => "rule 6",
            Rule::Messages => "rule 7",
        })
    }
}

/// The line of what ends the watch over a session. An offset is in bytes from the session's first
/// one.
#[derive(Drop)]
struct WatchLine(Findings);

impl fmt::Display for WatchLine {
    ghost output = { λ line. Some (watch_line line.0) };

    fn fmt<W: fmt::Write>(&self, f: &mut fmt::Formatter<W>) -> fmt::Result {
        let found = self.0;
        let at = found.place().unwrap_or(0);
        let why = EndText(found.end);
        match found.broken() {
            Some(rule) => {
                let rule = RuleName(rule);
                writeln!(f, "pgsub: watch: {rule} broken at {at}: {why}")
            }
            None => writeln!(f, "pgsub: watch: not watched from {at} on: {why}"),
        }
    }
}

/// Writes a line for each session that breaks a rule or isn't watched to its end.
#[derive(Drop)]
pub struct WatchLines<E: Output + Drop> {
    alloc: Global,
    err: E,
}

impl<E: Output + Drop> WatchLines<E> {
    /// One that has told of none.
    pub fn new(alloc: Global, err: E) -> WatchLines<E>
        ensures { result.err ≡ err }
    {
        WatchLines { alloc, err }
    }
}

impl<E: Output + Drop> FindingListener for WatchLines<E> {
    ghost hears = { λ old found new. TellsFound E.takes E.failed found old.err new.err };

    fn hear(&mut self, found: &Findings) {
        if let Ok(line) = format!(in self.alloc; "{}", WatchLine(*found)) {
            let _ = self.err.write_lines(line.as_str());
        }
    }
}
