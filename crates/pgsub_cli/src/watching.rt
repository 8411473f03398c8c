//! What is told of a watch over the sessions of a recording.

ghost use Rattle.std.specs.Prelude.{◌≡◌, ◌&&◌, Some, IfOk, string_bytes};
ghost use Rattle.std.specs.Fmt.{DisplaysOnOk};
ghost use Rattle.pgsub_core.specs.Subscriber.Subscribed.{bytes_of, session_bytes};
ghost use Rattle.pgsub_cli.specs.Watched.{AddsFound, AddsWatched, AreWatched, WritesWatched};
ghost use Rattle.pgsub_cli.specs.Watched.{breach_text, end_text, findings_text, first_text};
ghost use Rattle.pgsub_cli.specs.Watched.{last_text, rule_text, standing_text, watch_ending};

use crate::fault::{Ending, RunFault};
use crate::fault_text::{write_decode, write_order, write_wire};
use crate::files::Output;
use crate::limits::MAX_FRAME;
use pgorder::Version;
use pgrules::{End, Findings, Rule, Standing, joined, watch_session};
use pgsub_core::{Fault, Session};
use pgwatch::Breach;
use std::alloc::{AllocError, Global};
use std::fmt;

/// How many relations, open transactions and items of these a watch holds.
pub(crate) const WATCH_LIMIT: u64 = 1_000_000;

fn write_standing<W: fmt::Write>(f: &mut fmt::Formatter<W>, standing: Standing) -> fmt::Result
    ensures { DisplaysOnOk W.write_str_gives f.old result (Some (standing_text standing)) f.new }
{
    match standing {
        Standing::Kept(None) => f.write_str("kept"),
        Standing::Kept(Some(at)) => write!(f, "kept before {at}"),
        Standing::Unseen(None) => f.write_str("not seen"),
        Standing::Unseen(Some(at)) => write!(f, "not seen before {at}"),
        Standing::Broken(at) => write!(f, "broken at {at}"),
        Standing::Unwatched(at) => write!(f, "not watched from {at} on"),
    }
}

/// How a rule stands, as it is printed.
#[derive(Drop)]
struct RuleText {
    found: Findings,
    rule: Rule,
}

impl fmt::Display for RuleText {
    ghost output = { λ text. Some (rule_text text.found text.rule) };

    fn fmt<W: fmt::Write>(&self, f: &mut fmt::Formatter<W>) -> fmt::Result {
        write_standing(f, self.found.standing(self.rule))
    }
}

fn write_breach<W: fmt::Write>(f: &mut fmt::Formatter<W>, breach: Breach) -> fmt::Result
    ensures { DisplaysOnOk W.write_str_gives f.old result (Some (breach_text breach)) f.new }
{
    match breach {
        Breach::Disordered { fault, .. } => write_order(f, fault),
        Breach::BelowCommit {
            lsn,
            cause,
            end,
            ..
        } => write!(
            f,
            "a commit's LSN {lsn} is below the end {end} of the commit at {cause}"
        ),
        Breach::EndNotAbove { lsn, end, .. } => {
            write!(f, "a commit's end {end} is not above its LSN {lsn}")
        }
        Breach::BelowStart { end, start, .. } => {
            write!(f, "a commit's end {end} is not above the start {start}")
        }
        Breach::Undescribed { cause, oid, .. } => write!(
            f,
            "the change at {cause} is committed and relation {oid} not described"
        ),
        Breach::BelowKeepalive {
            end,
            cause,
            told,
            ..
        } => write!(
            f,
            "a commit's end {end} is not above the end {told} of the keepalive at {cause}"
        ),
        Breach::Unnested { cause, subxid, .. } => write!(
            f,
            "what came at {cause} of subtransaction {subxid} is not nested"
        ),
        Breach::Full { .. } => f.write_str("no more is held"),
        Breach::Memory { .. } => f.write_str("memory"),
    }
}

/// What ends a watch, as it is printed.
#[derive(Drop)]
pub(crate) struct EndText(pub(crate) End);

impl fmt::Display for EndText {
    ghost output = { λ text. Some (end_text text.0) };

    fn fmt<W: fmt::Write>(&self, f: &mut fmt::Formatter<W>) -> fmt::Result {
        match self.0 {
            End::Whole => f.write_str("the end of the bytes"),
            End::Ended(breach) => write_breach(f, breach),
            End::Unframed { fault, .. } => write_wire(f, fault),
            End::Unsaid { fault, .. } => write_wire(f, fault),
            End::Undecoded { fault, .. } => write_decode(f, fault),
        }
    }
}

fn rule_of(found: Findings, rule: Rule) -> RuleText
    ensures { (result.found ≡ found) × (result.rule ≡ rule) }
{
    RuleText { found, rule }
}

/// How rule 1 stands: it shows over reconnections alone.
const COMPARED: &str = "not watched: follow --repeats compares commits that come again";

/// The lines of the first rules.
#[derive(Drop)]
struct FirstRules(Findings);

impl fmt::Display for FirstRules {
    ghost output = { λ text. Some (first_text text.0) };

    fn fmt<W: fmt::Write>(&self, f: &mut fmt::Formatter<W>) -> fmt::Result {
        let order = rule_of(self.0, Rule::Order);
        let nested = rule_of(self.0, Rule::Nested);
        let described = rule_of(self.0, Rule::Described);
        write!(
            f,
            "session\norder {order}\nrule 1 {COMPARED}\nrule 2 {nested}\nrule 3 {described}\n"
        )
    }
}

/// The lines of the last rules, and of the end.
#[derive(Drop)]
struct LastRules(Findings);

impl fmt::Display for LastRules {
    ghost output = { λ text. Some (last_text text.0) };

    fn fmt<W: fmt::Write>(&self, f: &mut fmt::Formatter<W>) -> fmt::Result {
        let keepalives = rule_of(self.0, Rule::Keepalives);
        let frames = rule_of(self.0, Rule::Frames);
        let texts = rule_of(self.0, Rule::Texts);
        let messages = rule_of(self.0, Rule::Messages);
        let end = EndText(self.0.end);
        write!(
            f,
            "rule 4 {keepalives}\nrule 5 {frames}\nrule 6 {texts}\nrule 7 {messages}\nends with {end}\n"
        )
    }
}

/// What a watch finds of a session, as it is printed.
#[derive(Drop)]
struct FindingsText(Findings);

impl fmt::Display for FindingsText {
    ghost output = { λ text. Some (findings_text text.0) };

    fn fmt<W: fmt::Write>(&self, f: &mut fmt::Formatter<W>) -> fmt::Result {
        write!(f, "{}{}", FirstRules(self.0), LastRules(self.0))
    }
}

/// Appends the lines of what is found of a session. Returns whether no rule is broken and all was
/// watched.
fn add_lines(alloc: Global, found: Findings, lines: &mut String) -> Result<bool, AllocError>
    ensures { IfOk result (AddsFound found (string_bytes lines.old) (string_bytes lines.new)) }
{
    let is_well = found.is_well();
    let text = format!(in alloc; "{}", FindingsText(found))?;
    lines.push_str(text.as_str())?;
    Ok(is_well)
}

/// Watches a session, and appends the lines of what is found.
fn watch_next(
    alloc: Global,
    version: Version,
    session: &Session,
    lines: &mut String,
) -> Result<bool, AllocError>
    ensures { IfOk result (AddsWatched version (session_bytes session.now) (string_bytes lines.old)
        (string_bytes lines.new)) }
{
    let bytes = joined(alloc, session.pieces.as_slice())?;
    let bytes = bytes.as_slice();
    add_lines(
        alloc,
        watch_session(alloc, version, MAX_FRAME, WATCH_LIMIT, bytes),
        lines,
    )
}

fn both(one: bool, other: bool) -> bool
    ensures { result ≡ (one && other) }
{
    one && other
}

/// What is told of the sessions of a recording.
#[derive(Drop)]
struct Report {
    /// Its lines.
    lines: String,
    /// Whether no rule is broken and all was watched.
    is_well: bool,
}

/// Watches sessions, each by itself.
fn watch_all(alloc: Global, version: Version, sessions: &[Session]) -> Result<Report, AllocError>
    ensures { IfOk result (λ report. AreWatched version (bytes_of sessions.now)
        (string_bytes report.lines) report.is_well) }
{
    let mut lines = String::new(alloc);
    let mut is_well = true;
    for session in sessions {
        let goes_on = watch_next(alloc, version, session, &mut lines)?;
        is_well = both(is_well, goes_on);
    }
    Ok(Report { lines, is_well })
}

fn ending_of(is_well: bool) -> Ending
    ensures { result ≡ watch_ending is_well }
{
    if is_well {
        Ending::Done
    } else {
        Ending::Differs
    }
}

/// Watches the sessions of a recording, each by itself, and writes how each rule of a well-formed
/// server stands, and what ends the watch.
pub fn watch<W: Output>(
    alloc: Global,
    version: Version,
    sessions: &[Session],
    out: &mut W,
) -> Result<Ending, RunFault>
    ensures { WritesWatched W.takes W.failed version (bytes_of sessions.now) out.old out.new
        result }
{
    let Ok(report) = watch_all(alloc, version, sessions) else {
        return Err(RunFault::Stream(Fault::Memory));
    };
    let Report { lines, is_well } = report;
    if out.write_lines(lines.as_str()).is_err() {
        return Err(RunFault::CannotWrite);
    }
    Ok(ending_of(is_well))
}
