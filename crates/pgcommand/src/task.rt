//! The tasks of the program, and how the parsed words ask for them.

ghost use Rattle.std.specs.Prelude.{◌≡◌, ◌↔◌, IfOk, Option, Some, is_some, true, codes};
ghost use Rattle.std.specs.Prelude.{option_map, string_bytes};
ghost use Rattle.clap.specs.Words.{first_of, found_of, one_of, rows_of};
ghost use Rattle.pgcommand.specs.Asked.{AsksFeed, AsksSpool, IsAsked, IsCache, IsCommandName};
ghost use Rattle.pgcommand.specs.Asked.{IsFeed, IsFlag, IsLimits, IsSpool, IsVersion, NamesFile};
ghost use Rattle.pgcommand.specs.Asked.{ReadsAsOne, ReadsIfGiven, ReadsOr, ReadsUpTo};
ghost use Rattle.pgcommand.specs.Asked.{default_buffered, is_given, lacks_of_feed, lacks_of_spool};
ghost use Rattle.pgcommand.specs.Asked.{lacks_word, misnames_watch, tells_of_feed, text_in};
ghost use Rattle.pgcommand.specs.Asked.{watching_in};
ghost use Rattle.pgcommand.specs.Parts.{cache_in, feed_in, limits_in, loads, trusts_store};

use crate::feed::FeedOptions;
use crate::limits::Limits;
use crate::spool::SpoolOptions;
use crate::watching::Watching;
use clap::ArgMatches;
use pgorder::Version;
use std::alloc::{AllocError, Global};

/// How many pages of a store's file are kept in memory by default.
pub const DEFAULT_CACHE: u32 = 20_000;

/// What the program is asked for. `version` is that of the logical replication protocol, 2 by
/// default, `limits` those of the stream that is applied, `Limits::DEFAULT` by default, and `cache`
/// how many pages of the file `store` are kept in memory, `DEFAULT_CACHE` by default. Beside a
/// store a feed of its commits is kept, if one is asked for. With a spool in a file,
/// `limits.max_buffered` is by default `u64::MAX`.
#[derive(Debug, Drop)]
pub enum Task {
    /// Print one line for each frame of a recording.
    Show {
        version: Version,
        file: String,
    },
    /// Apply a recording, or with `raw` the file's bytes as one session, and print the rows and the
    /// position. Both are kept in the file `store`, if one is named. With `progress`, standard
    /// error is told meanwhile how far it is.
    Apply {
        version: Version,
        limits: Limits,
        raw: bool,
        progress: bool,
        store: Option<String>,
        cache: u32,
        feed: Option<FeedOptions>,
        file: String,
    },
    /// Print the rows and the position that are kept in a file.
    Dump {
        store: String,
        cache: u32,
    },
    /// Follow a server: its bytes come from standard input, and statuses go to standard output.
    /// Rows and position are kept in the file `store`. With `watch` the server is watched for the
    /// rules that a well-formed one keeps, and with `repeats` its commits are noted in that file,
    /// and compared where they come again. With `load`, tables as COPY's text come before the first
    /// session. With `trust`, no row of the store is read before: a run left it as it is. With
    /// `spool`, the changes of open transactions go on in a file.
    Follow {
        version: Version,
        limits: Limits,
        store: String,
        cache: u32,
        feed: Option<FeedOptions>,
        spool: Option<SpoolOptions>,
        watch: Option<Watching>,
        repeats: Option<String>,
        load: bool,
        trust: bool,
    },
    /// Compare the rows and positions that two recordings lead to.
    Same {
        version: Version,
        left: String,
        right: String,
    },
    /// Print the position that a recording leads to, and the LSN up to which it may be confirmed.
    Resume {
        file: String,
    },
    /// Print an LSN as a number and as text.
    Lsn {
        text: String,
    },
    /// Print which rules of a well-formed server the sessions of a recording keep.
    Watch {
        version: Version,
        file: String,
    },
}

impl Task {
    /// The limits of what it applies.
    pub fn limits(&self) -> Limits
        ensures { result ≡ limits_in self.now }
    {
        match self {
            Task::Apply { limits, .. } | Task::Follow { limits, .. } => *limits,
            _ => Limits::DEFAULT,
        }
    }

    /// How many pages of its store's file it keeps in memory.
    pub fn cache(&self) -> usize
        ensures { result ≡ cache_in self.now }
    {
        let pages = match self {
            Task::Apply { cache, .. } | Task::Dump { cache, .. } | Task::Follow { cache, .. } => {
                *cache
            }
            _ => DEFAULT_CACHE,
        };
        pages as usize
    }

    /// The feed that it keeps beside its store, if it keeps one.
    pub fn feed(&self) -> Option<&FeedOptions>
        ensures { option_map (λ feed. feed.now) result ≡ feed_in self.now }
    {
        match self {
            Task::Apply { feed, .. } | Task::Follow { feed, .. } => feed.as_ref(),
            _ => None,
        }
    }

    /// Whether a load comes before the first session that it follows.
    pub fn loads(&self) -> bool
        ensures { result ≡ loads self.now }
    {
        match self {
            Task::Follow { load, .. } => *load,
            _ => false,
        }
    }

    /// Whether it takes its store's rows for those that an earlier run left.
    pub fn trusts_store(&self) -> bool
        ensures { result ≡ trusts_store self.now }
    {
        match self {
            Task::Follow { trust, .. } => *trust,
            _ => false,
        }
    }
}

/// Whether version 1 is asked for.
fn wants_one(found: &ArgMatches<'_>) -> bool
    ensures { (result ≡ true) ↔ ReadsAsOne (one_of (codes "proto") (rows_of (found_of found.now))) }
{
    match found.get_one::<u8>("proto") {
        Some(number) => number == 1,
        None => false,
    }
}

fn version_of(found: &ArgMatches<'_>) -> Version
    ensures { IsVersion (rows_of (found_of found.now)) result }
{
    if wants_one(found) {
        Version::One
    } else {
        Version::Two
    }
}

/// What `--max-buffered` is where it isn't given: with a spool in a file no limit.
fn default_buffered(found: &ArgMatches<'_>) -> u64
    ensures { result ≡ default_buffered (rows_of (found_of found.now)) }
{
    if is_given(found, "spool") {
        u64::MAX
    } else {
        Limits::DEFAULT.max_buffered
    }
}

/// The value of `--max-buffered`.
fn max_buffered_of(found: &ArgMatches<'_>) -> u64
    ensures { ReadsOr (default_buffered (rows_of (found_of found.now))) 18446744073709551615
        (one_of (codes "max-buffered") (rows_of (found_of found.now))) result }
{
    let default = default_buffered(found);
    found.get_one::<u64>("max-buffered").unwrap_or(default)
}

/// The value of `--max-frame`.
fn max_frame_of(found: &ArgMatches<'_>) -> u32
    ensures { ReadsUpTo 2147483643 (one_of (codes "max-frame") (rows_of (found_of found.now)))
        result }
{
    match found.get_one::<u32>("max-frame") {
        Some(bytes) => bytes,
        None => Limits::DEFAULT.max_frame,
    }
}

fn limits_of(found: &ArgMatches<'_>) -> Limits
    ensures { IsLimits (rows_of (found_of found.now)) result }
{
    let max_buffered = max_buffered_of(found);
    let max_frame = max_frame_of(found);
    Limits {
        max_buffered,
        max_frame,
    }
}

/// The value of `--cache`.
fn cache_of(found: &ArgMatches<'_>) -> u32
    ensures { IsCache (rows_of (found_of found.now)) result }
{
    match found.get_one::<u32>("cache") {
        Some(pages) => pages,
        None => DEFAULT_CACHE,
    }
}

/// Whether the flag of this name is given.
fn flag_of(found: &ArgMatches<'_>, name: &str) -> bool
    ensures { IsFlag name.now (rows_of (found_of found.now)) result }
{
    found.get_flag(name)
}

/// The value of a required word, copied.
fn value_of(alloc: Global, found: &ArgMatches<'_>, name: &str) -> Result<String, AllocError>
    ensures { IfOk result (λ text. string_bytes text
        ≡ text_in name.now (rows_of (found_of found.now))) }
{
    String::from_str(alloc, found.get_str(name).unwrap_or(""))
}

/// The file that the option of this name names, copied.
fn file_of(alloc: Global, found: &ArgMatches<'_>, name: &str) -> Result<Option<String>, AllocError>
    ensures { IfOk result (NamesFile name.now (rows_of (found_of found.now))) }
{
    match found.get_str(name) {
        Some(path) => Ok(Some(String::from_str(alloc, path)?)),
        None => Ok(None),
    }
}

/// Whether the option of this name is given.
fn is_given(found: &ArgMatches<'_>, name: &str) -> bool
    ensures { result ≡ is_given name.now (rows_of (found_of found.now)) }
{
    found.get_str(name).is_some()
}

/// Whether something is told of a feed.
fn tells_of_feed(found: &ArgMatches<'_>) -> bool
    ensures { result ≡ tells_of_feed (rows_of (found_of found.now)) }
{
    is_given(found, "feed-system")
        || is_given(found, "feed-database")
        || is_given(found, "feed-slot")
        || is_given(found, "feed-segment-bytes")
        || is_given(found, "feed-segment-seconds")
        || is_given(found, "messages")
}

/// The word of `--watch`, as a usage names it.
pub(crate) const WATCH: &str = "--watch <HOW>";

/// The word of `--spool`, as a usage names it.
pub(crate) const SPOOL: &str = "--spool <FILE>";

/// The word that the matches of a subcommand lack for a feed: that needs a store, and what is told
/// of one needs a feed.
fn missing_for_feed(found: &ArgMatches<'_>) -> Option<&'static str>
    ensures { is_some result ≡ lacks_of_feed (rows_of (found_of found.now)) }
{
    if is_given(found, "feed") {
        if is_given(found, "store") {
            None
        } else {
            Some("--store <FILE>")
        }
    } else if tells_of_feed(found) {
        Some("--feed <FOLDER>")
    } else {
        None
    }
}

/// Whether something is told of a spool in a file, and no file is given.
fn lacks_of_spool(found: &ArgMatches<'_>) -> bool
    ensures { result ≡ lacks_of_spool (rows_of (found_of found.now)) }
{
    is_given(found, "spool-memory") && !is_given(found, "spool")
}

/// The word that the matches of a subcommand lack: a feed lacks one, a spool its file, or noted
/// commits lack the watch.
pub(crate) fn missing_word(found: &ArgMatches<'_>) -> Option<&'static str>
    ensures { is_some result ≡ lacks_word (rows_of (found_of found.now)) }
{
    if let Some(word) = missing_for_feed(found) {
        return Some(word);
    }
    if lacks_of_spool(found) {
        return Some(SPOOL);
    }
    if is_given(found, "repeats") && !is_given(found, "watch") {
        Some(WATCH)
    } else {
        None
    }
}

/// How `--watch` asks for the server to be watched, if it is given with a word that is known.
fn watch_of(found: &ArgMatches<'_>) -> Option<Watching>
    ensures { result ≡ watching_in (rows_of (found_of found.now)) }
{
    Watching::of(found.get_str("watch")?)
}

/// The word that `--watch` is given with, if it isn't known.
pub(crate) fn unknown_watch<'a>(found: &ArgMatches<'a>) -> Option<&'a str>
    ensures { is_some result ≡ misnames_watch (rows_of (found_of found.now)) }
{
    let word = found.get_str("watch")?;
    match Watching::of(word) {
        Some(_) => None,
        None => Some(word),
    }
}

/// The value of `--feed-segment-bytes`.
fn segment_bytes_of(found: &ArgMatches<'_>) -> u64
    ensures { ReadsOr 67108864 18446744073709551615
        (one_of (codes "feed-segment-bytes") (rows_of (found_of found.now))) result }
{
    found
        .get_one::<u64>("feed-segment-bytes")
        .unwrap_or(FeedOptions::SEGMENT_BYTES)
}

/// The value of `--feed-segment-seconds`.
fn segment_seconds_of(found: &ArgMatches<'_>) -> u32
    ensures { ReadsOr 0 4294967295
        (one_of (codes "feed-segment-seconds") (rows_of (found_of found.now))) result }
{
    found.get_one::<u32>("feed-segment-seconds").unwrap_or(0)
}

/// The value of `--messages`.
fn messages_of(found: &ArgMatches<'_>) -> Option<u64>
    ensures { ReadsIfGiven 18446744073709551615
        (one_of (codes "messages") (rows_of (found_of found.now))) result }
{
    found.get_one::<u64>("messages")
}

/// What is told of the feed in this folder.
fn feed_in(alloc: Global, found: &ArgMatches<'_>, folder: &str) -> Result<FeedOptions, AllocError>
    ensures { Some folder.now ≡ first_of (codes "feed") (rows_of (found_of found.now)) →
        IfOk result (IsFeed (rows_of (found_of found.now))) }
{
    let folder = String::from_str(alloc, folder)?;
    let system = value_of(alloc, found, "feed-system")?;
    let database = value_of(alloc, found, "feed-database")?;
    let slot = value_of(alloc, found, "feed-slot")?;
    Ok(FeedOptions {
        folder,
        system,
        database,
        slot,
        segment_bytes: segment_bytes_of(found),
        segment_seconds: segment_seconds_of(found),
        messages: messages_of(found),
    })
}

/// The feed that `--feed` asks for.
fn feed_of(alloc: Global, found: &ArgMatches<'_>) -> Result<Option<FeedOptions>, AllocError>
    ensures { IfOk result (AsksFeed (rows_of (found_of found.now))) }
{
    match found.get_str("feed") {
        Some(folder) => Ok(Some(feed_in(alloc, found, folder)?)),
        None => Ok(None),
    }
}

/// The value of `--spool-memory`.
fn spool_memory_of(found: &ArgMatches<'_>) -> u64
    ensures { ReadsOr 67108864 18446744073709551615
        (one_of (codes "spool-memory") (rows_of (found_of found.now))) result }
{
    found
        .get_one::<u64>("spool-memory")
        .unwrap_or(SpoolOptions::MEMORY)
}

/// What is told of the spool in this file.
fn spool_in(alloc: Global, found: &ArgMatches<'_>, file: &str) -> Result<SpoolOptions, AllocError>
    ensures { Some file.now ≡ first_of (codes "spool") (rows_of (found_of found.now)) →
        IfOk result (IsSpool (rows_of (found_of found.now))) }
{
    let file = String::from_str(alloc, file)?;
    Ok(SpoolOptions {
        file,
        memory: spool_memory_of(found),
    })
}

/// The spool that `--spool` asks for.
fn spool_of(alloc: Global, found: &ArgMatches<'_>) -> Result<Option<SpoolOptions>, AllocError>
    ensures { IfOk result (AsksSpool (rows_of (found_of found.now))) }
{
    match found.get_str("spool") {
        Some(file) => Ok(Some(spool_in(alloc, found, file)?)),
        None => Ok(None),
    }
}

/// The task that the subcommand `apply` asks for by these matches.
fn apply_of(alloc: Global, found: &ArgMatches<'_>) -> Result<Task, AllocError>
    ensures { IfOk result (IsAsked (codes "apply") (rows_of (found_of found.now))) }
{
    let store = file_of(alloc, found, "store")?;
    let feed = feed_of(alloc, found)?;
    let file = value_of(alloc, found, "FILE")?;
    Ok(Task::Apply {
        version: version_of(found),
        limits: limits_of(found),
        raw: flag_of(found, "raw"),
        progress: flag_of(found, "progress"),
        store,
        cache: cache_of(found),
        feed,
        file,
    })
}

/// The task that the subcommand `follow` asks for by these matches.
fn follow_of(alloc: Global, found: &ArgMatches<'_>) -> Result<Task, AllocError>
    ensures { IfOk result (IsAsked (codes "follow") (rows_of (found_of found.now))) }
{
    let store = value_of(alloc, found, "store")?;
    let feed = feed_of(alloc, found)?;
    let spool = spool_of(alloc, found)?;
    let repeats = file_of(alloc, found, "repeats")?;
    Ok(Task::Follow {
        version: version_of(found),
        limits: limits_of(found),
        store,
        cache: cache_of(found),
        feed,
        spool,
        watch: watch_of(found),
        repeats,
        load: flag_of(found, "load"),
        trust: flag_of(found, "trust-store"),
    })
}

/// The task that the subcommand of this name asks for by these matches.
pub(crate) fn task_of(alloc: Global, name: &str, found: &ArgMatches<'_>) -> Result<Task, AllocError>
    requires { IsCommandName name.now }
    ensures { IfOk result (IsAsked name.now (rows_of (found_of found.now))) }
{
    let task = match name {
        "show" => {
            let file = value_of(alloc, found, "FILE")?;
            Task::Show {
                version: version_of(found),
                file,
            }
        }
        "apply" => apply_of(alloc, found)?,
        "dump" => {
            let store = value_of(alloc, found, "store")?;
            Task::Dump {
                store,
                cache: cache_of(found),
            }
        }
        "follow" => follow_of(alloc, found)?,
        "same" => {
            let left = value_of(alloc, found, "LEFT")?;
            let right = value_of(alloc, found, "RIGHT")?;
            Task::Same {
                version: version_of(found),
                left,
                right,
            }
        }
        "resume" => Task::Resume {
            file: value_of(alloc, found, "FILE")?,
        },
        "lsn" => Task::Lsn {
            text: value_of(alloc, found, "TEXT")?,
        },
        "watch" => {
            let file = value_of(alloc, found, "FILE")?;
            Task::Watch {
                version: version_of(found),
                file,
            }
        }
        _ => unreachable!(),
    };
    Ok(task)
}
