//! The command line as `clap` reads it.

ghost use Rattle.std.specs.Prelude.{◌≡◌, IfOk, codes, false};
ghost use Rattle.clap.specs.Values.{kind_of};
ghost use Rattle.clap.specs.Words.{App, new_app, rule_of, with_rule, with_subcommand};
ghost use Rattle.pgcommand.specs.Asked.{IsCommand, word_rule, proto_rule, raw_rule, progress_rule};
ghost use Rattle.pgcommand.specs.Asked.{store_rule, cache_rule, max_buffered_rule, max_frame_rule};
ghost use Rattle.pgcommand.specs.Asked.{feed_rule, feed_text_rule, feed_bytes_rule};
ghost use Rattle.pgcommand.specs.Asked.{feed_seconds_rule, messages_rule, with_feed, show_app};
ghost use Rattle.pgcommand.specs.Asked.{apply_app, dump_app, follow_app, same_app, resume_app};
ghost use Rattle.pgcommand.specs.Asked.{lsn_app, watch_app, watch_rule, repeats_rule, load_rule};
ghost use Rattle.pgcommand.specs.Asked.{spool_rule, spool_memory_rule, with_spool};
ghost use Rattle.pgcommand.specs.Asked.{with_start, with_watch};
ghost use Rattle.pgcommand.specs.Asked.{trust_rule, bare_app, pgsub_app};

use crate::task::{SPOOL, WATCH};
use crate::watching::WATCHINGS;
use clap::error::ErrorKind;
use clap::{Arg, ArgAction, Command, Error, value_parser};
use std::alloc::{AllocError, Global};

/// What `follow --help` says of how it ends.
const FOLLOW_STATUSES: &str = "Exit statuses:
   0  the stream ended
   1  the stream is rejected
   2  usage error
   3  a file is no store, or not one of noted commits, the folder no feed of the store, or a
      name for a feed is too long
  10  the buffered items of open transactions would cost more than --max-buffered, or more
      than 65536 are open and go on in a file
  11  a frame is longer than --max-frame
  12  the store can't be opened, as while another process has it open
  13  the store, the feed or the spool failed, while it was open or as it was closed
  14  memory has run out
  15  standard input or output failed
  16  the stream ended, and some of its changes found no row
  17  the server broke a rule or sent other commits again, and --watch stop was given";

/// What `watch --help` says of what it holds, and of how it ends.
const WATCH_STATUSES: &str =
    "Of a session it holds at most 1000000 relations, open transactions and items of these, \
    and watches no further where it would hold more.

Exit statuses:
  0  no rule is broken, and all was watched
  1  memory has run out
  2  usage error
  3  a file can't be read or written, or is no recording
  4  a rule is broken, or not all was watched";

/// What `--help` says of `--cache`.
const CACHE: &str =
    "Pages of the store's file that stay in memory, from 100 to all that a file can have: 20000 cost \
    20 MB, or 80 MB where another program made the file, and a large commit as much again";

/// What the help of `apply` and `follow` says of `--store`.
const STORE: &str =
    "Keep rows and position in this file and go on from what it holds; it is made where it isn't there";

/// What the help of `apply` says of `--max-buffered`.
const BUFFERED: &str =
    "The most that the buffered changes of all open transactions may cost [default: 67108864]";

/// What the help of `follow` says of `--max-buffered`.
const BUFFERED_OR_SPOOLED: &str =
    "The most that the buffered changes of all open transactions may cost \
    [default: 67108864, and with --spool none]";

/// The version of the program, as `--version` prints it.
pub const VERSION: &str = "0.1.0";

/// A required word.
fn word<'a>(alloc: Global, name: &'a str, help: &'a str) -> Arg<'a>
    ensures rule { rule_of result ≡ word_rule name.entry.now }
    ensures local { result.global ≡ false }
{
    Arg::new(alloc, name).required(true).help(help)
}

/// `--NAME VALUE`, which may be left out.
fn option<'a>(alloc: Global, name: &'a str, value: &'a str, help: &'a str) -> Arg<'a>
    ensures rule { rule_of result ≡ feed_text_rule name.entry.now }
    ensures local { result.global ≡ false }
{
    Arg::new(alloc, name)
        .long(name)
        .value_name(value)
        .help(help)
}

/// `--proto N`.
fn proto<'a>(alloc: Global) -> Arg<'a>
    ensures rule { rule_of result ≡ proto_rule }
    ensures local { result.global ≡ false }
{
    let help = "Version of the logical replication protocol, 1 or 2";
    option(alloc, "proto", "N", help)
        .value_parser(value_parser!(u8).range(1..=2))
        .default_value("2")
}

/// `--raw`.
fn raw<'a>(alloc: Global) -> Arg<'a>
    ensures rule { rule_of result ≡ raw_rule }
    ensures local { result.global ≡ false }
{
    Arg::new(alloc, "raw")
        .long("raw")
        .action(ArgAction::SetTrue)
        .help("Read the file as the plain bytes of one session instead of a recording")
}

/// `--progress`.
fn progress<'a>(alloc: Global) -> Arg<'a>
    ensures rule { rule_of result ≡ progress_rule }
    ensures local { result.global ≡ false }
{
    Arg::new(alloc, "progress")
        .long("progress")
        .action(ArgAction::SetTrue)
        .help("Tell on standard error how far it is, at most once a second")
}

/// `--store FILE`.
fn store<'a>(alloc: Global, required: bool, help: &'a str) -> Arg<'a>
    ensures rule { rule_of result ≡ store_rule required }
    ensures local { result.global ≡ false }
{
    option(alloc, "store", "FILE", help).required(required)
}

/// `--cache PAGES`.
///
/// A page that `pgsub` makes has 1,024 bytes, and one that SQLite makes 4,096. A change needs some
/// ten pages, those on its ways through three trees: with fewer than 100 most would be read again
/// for each. No file has more pages than the greatest value.
///
/// SQLite documentation, Implementation Limits For SQLite, Maximum Number Of Pages In A Database
/// File.
fn cache<'a>(alloc: Global) -> Arg<'a>
    ensures rule { rule_of result ≡ cache_rule }
    ensures local { result.global ≡ false }
{
    option(alloc, "cache", "PAGES", CACHE)
        .value_parser(value_parser!(u32).range(100..=4294967294))
        .default_value("20000")
}

/// `--max-buffered BYTES`.
fn max_buffered<'a>(alloc: Global, help: &'a str) -> Arg<'a>
    ensures rule { rule_of result ≡ max_buffered_rule }
    ensures local { result.global ≡ false }
{
    option(alloc, "max-buffered", "BYTES", help).value_parser(value_parser!(u64))
}

/// `--max-frame BYTES`.
fn max_frame<'a>(alloc: Global) -> Arg<'a>
    ensures rule { rule_of result ≡ max_frame_rule }
    ensures local { result.global ≡ false }
{
    let help = "The longest payload of a frame that is accepted, at most 2147483643";
    option(alloc, "max-frame", "BYTES", help)
        .value_parser(value_parser!(u32).range(0..=2147483643))
        .default_value("16777216")
}

/// `--watch HOW`.
fn watch<'a>(alloc: Global) -> Arg<'a>
    ensures rule { rule_of result ≡ watch_rule }
    ensures local { result.global ≡ false }
{
    let help =
        "Watch the server for the rules of a well-formed one, and where it breaks one `tell` \
        standard error of it, or `stop` too, before that frame is taken";
    option(alloc, "watch", "HOW", help)
}

/// `--repeats FILE`.
fn repeats<'a>(alloc: Global) -> Arg<'a>
    ensures rule { rule_of result ≡ repeats_rule }
    ensures local { result.global ≡ false }
{
    let help =
        "Note each commit in this file, and where the server sends another one in its place later, \
        do as --watch says; it is made where it isn't there";
    option(alloc, "repeats", "FILE", help)
}

/// `--load`.
fn load<'a>(alloc: Global) -> Arg<'a>
    ensures rule { rule_of result ≡ load_rule }
    ensures local { result.global ≡ false }
{
    Arg::new(alloc, "load")
        .long("load")
        .action(ArgAction::SetTrue)
        .help("Before the first session, standard input has tables as COPY's text")
}

/// `--trust-store`.
fn trust<'a>(alloc: Global) -> Arg<'a>
    ensures rule { rule_of result ≡ trust_rule }
    ensures local { result.global ≡ false }
{
    let help = "Start without reading the rows of a file that an earlier run left, \
        and that nothing has changed since";
    Arg::new(alloc, "trust-store")
        .long("trust-store")
        .action(ArgAction::SetTrue)
        .help(help)
}

/// `--feed FOLDER`.
fn feed<'a>(alloc: Global) -> Arg<'a>
    ensures rule { rule_of result ≡ feed_rule }
    ensures local { result.global ≡ false }
{
    let help = "Keep a feed of each commit beside the store, in files of this folder; \
        it is made where it isn't there";
    option(alloc, "feed", "FOLDER", help)
}

/// `--feed-system TEXT` and the like.
fn feed_text<'a>(alloc: Global, name: &'a str, help: &'a str) -> Arg<'a>
    ensures rule { rule_of result ≡ feed_text_rule name.entry.now }
    ensures local { result.global ≡ false }
{
    option(alloc, name, "TEXT", help)
}

/// `--feed-segment-bytes BYTES`.
fn feed_bytes<'a>(alloc: Global) -> Arg<'a>
    ensures rule { rule_of result ≡ feed_bytes_rule }
    ensures local { result.global ≡ false }
{
    let help =
        "A file of the feed ends before the commit that would make it longer [default: 67108864]";
    option(alloc, "feed-segment-bytes", "BYTES", help).value_parser(value_parser!(u64))
}

/// `--feed-segment-seconds SECONDS`.
fn feed_seconds<'a>(alloc: Global) -> Arg<'a>
    ensures rule { rule_of result ≡ feed_seconds_rule }
    ensures local { result.global ≡ false }
{
    let help = "And before one that was committed so many seconds after its first, \
        where this isn't 0 [default: 0]";
    let seconds = option(alloc, "feed-segment-seconds", "SECONDS", help);
    seconds.value_parser(value_parser!(u32).range(0..=4294967295))
}

/// `--messages BYTES`.
fn messages<'a>(alloc: Global) -> Arg<'a>
    ensures rule { rule_of result ≡ messages_rule }
    ensures local { result.global ≡ false }
{
    let help =
        "The feed tells the transactional messages too, of at most so many bytes in one transaction";
    option(alloc, "messages", "BYTES", help).value_parser(value_parser!(u64))
}

/// Adds the options of a feed.
fn with_feed<'a>(alloc: Global, command: Command<'a>) -> Result<Command<'a>, AllocError>
    ensures { (app : App) → IsCommand app command.entry →
        IfOk result (IsCommand (with_feed app)) }
{
    let system = "The system identifier of the server, as the feed tells it";
    let database = "The database that is followed, as the feed tells it";
    let slot = "The slot that is followed, as the feed tells it";
    command
        .arg(feed(alloc))?
        .arg(feed_text(alloc, "feed-system", system))?
        .arg(feed_text(alloc, "feed-database", database))?
        .arg(feed_text(alloc, "feed-slot", slot))?
        .arg(feed_bytes(alloc))?
        .arg(feed_seconds(alloc))?
        .arg(messages(alloc))
}

/// `--spool FILE`.
fn spool<'a>(alloc: Global) -> Arg<'a>
    ensures rule { rule_of result ≡ spool_rule }
    ensures local { result.global ≡ false }
{
    let help = "The changes of open transactions that memory doesn't hold go on in this file; \
        what it holds at the start is lost";
    option(alloc, "spool", "FILE", help)
}

/// `--spool-memory BYTES`.
fn spool_memory<'a>(alloc: Global) -> Arg<'a>
    ensures rule { rule_of result ≡ spool_memory_rule }
    ensures local { result.global ≡ false }
{
    let help = "So many bytes of them stay in memory; needs --spool [default: 67108864]";
    option(alloc, "spool-memory", "BYTES", help).value_parser(value_parser!(u64))
}

/// Adds the options of a spool in a file.
fn with_spool<'a>(alloc: Global, command: Command<'a>) -> Result<Command<'a>, AllocError>
    ensures { (app : App) → IsCommand app command.entry →
        IfOk result (IsCommand (with_spool app)) }
{
    command.arg(spool(alloc))?.arg(spool_memory(alloc))
}

/// Adds `--watch HOW` and `--repeats FILE`.
fn with_watch<'a>(alloc: Global, command: Command<'a>) -> Result<Command<'a>, AllocError>
    ensures { (app : App) → IsCommand app command.entry →
        IfOk result (IsCommand (with_watch app)) }
{
    command.arg(watch(alloc))?.arg(repeats(alloc))
}

/// Adds `--load` and `--trust-store`.
fn with_start<'a>(alloc: Global, command: Command<'a>) -> Result<Command<'a>, AllocError>
    ensures { (app : App) → IsCommand app command.entry →
        IfOk result (IsCommand (with_start app)) }
{
    command.arg(load(alloc))?.arg(trust(alloc))
}

/// Adds `--store FILE` and `--cache PAGES`.
fn with_store<'a>(
    alloc: Global,
    command: Command<'a>,
    required: bool,
    help: &'a str,
) -> Result<Command<'a>, AllocError>
    ensures { (app : App) → IsCommand app command.entry →
        IfOk result (IsCommand (with_rule (with_rule app (store_rule required)) cache_rule)) }
{
    command.arg(store(alloc, required, help))?.arg(cache(alloc))
}

/// Adds `--max-buffered BYTES`, of which the help says this, and `--max-frame BYTES`.
fn with_limits<'a>(
    alloc: Global,
    command: Command<'a>,
    help: &'a str,
) -> Result<Command<'a>, AllocError>
    ensures { (app : App) → IsCommand app command.entry →
        IfOk result (IsCommand (with_rule (with_rule app max_buffered_rule) max_frame_rule)) }
{
    command
        .arg(max_buffered(alloc, help))?
        .arg(max_frame(alloc))
}

/// Adds a subcommand, unless there was no memory for it.
fn with_subcommand<'a>(
    command: Command<'a>,
    made: Result<Command<'a>, AllocError>,
) -> Result<Command<'a>, AllocError>
    ensures { (app sub : App) → IsCommand app command.entry → IfOk made.entry (IsCommand sub) →
        IfOk result (IsCommand (with_subcommand app sub.top)) }
{
    let subcommand = made?;
    command.subcommand(subcommand)
}

/// A command without arguments.
fn named<'a>(alloc: Global, name: &'a str, about: &'a str) -> Command<'a>
    ensures { IsCommand (new_app name.entry.now) result }
{
    Command::new(alloc, name).about(about)
}

fn show_command<'a>(alloc: Global) -> Result<Command<'a>, AllocError>
    ensures { IfOk result (IsCommand show_app) }
{
    named(
        alloc,
        "show",
        "Print one line for each message of a recording",
    )
    .arg(proto(alloc))?
    .arg(word(alloc, "FILE", "The recording"))
}

fn apply_command<'a>(alloc: Global) -> Result<Command<'a>, AllocError>
    ensures { IfOk result (IsCommand apply_app) }
{
    let command = named(
        alloc,
        "apply",
        "Apply a recording, and print the rows and the position that it leads to",
    )
    .arg(proto(alloc))?
    .arg(raw(alloc))?
    .arg(progress(alloc))?;
    let command = with_store(alloc, command, false, STORE)?;
    let command = with_limits(alloc, command, BUFFERED)?;
    with_feed(alloc, command)?.arg(word(alloc, "FILE", "The recording"))
}

fn dump_command<'a>(alloc: Global) -> Result<Command<'a>, AllocError>
    ensures { IfOk result (IsCommand dump_app) }
{
    let command = named(
        alloc,
        "dump",
        "Print the rows and the position that a file holds",
    );
    let help = "The file in which `apply --store` or `follow` keeps them";
    with_store(alloc, command, true, help)
}

/// The command `follow` without arguments.
fn bare_follow<'a>(alloc: Global) -> Command<'a>
    ensures { IsCommand (new_app (codes "follow")) result }
{
    named(
        alloc,
        "follow",
        "Follow a server whose frames come on standard input, and write statuses to standard output",
    )
    .after_help(FOLLOW_STATUSES)
}

fn follow_command<'a>(alloc: Global) -> Result<Command<'a>, AllocError>
    ensures { IfOk result (IsCommand follow_app) }
{
    let command = bare_follow(alloc).arg(proto(alloc))?;
    let command = with_limits(alloc, command, BUFFERED_OR_SPOOLED)?;
    let command = with_store(alloc, command, true, STORE)?;
    let command = with_watch(alloc, command)?;
    let command = with_start(alloc, command)?;
    with_spool(alloc, with_feed(alloc, command)?)
}

/// The usage of `apply` with a feed.
const FED_APPLY: &str = "pgsub apply [OPTIONS] --store <FILE> --feed <FOLDER> <FILE>";

/// The usage of `follow` with a feed.
const FED_FOLLOW: &str = "pgsub follow [OPTIONS] --store <FILE> --feed <FOLDER>";

/// The usage of `follow` with a spool in a file.
const SPOOLED_FOLLOW: &str = "pgsub follow [OPTIONS] --store <FILE> --spool <FILE>";

/// The usage of `follow` with noted commits.
const WATCHED_FOLLOW: &str = "pgsub follow [OPTIONS] --store <FILE> --watch <HOW> --repeats <FILE>";

/// The usage of `follow`.
const FOLLOW: &str = "pgsub follow [OPTIONS] --store <FILE>";

/// The error of a word for `--watch` that isn't known.
pub(crate) fn unknown(alloc: Global, word: &str) -> Result<Error, AllocError>
    ensures { IfOk result (λ error. kind_of error ≡ ErrorKind.InvalidValue) }
{
    let message = format!(in alloc;
        "invalid value '{word}' for '--watch <HOW>'\n  [possible values: {WATCHINGS}]"
    )?;
    let mut command = Command::new(alloc, "pgsub").override_usage(FOLLOW);
    command.error(ErrorKind::InvalidValue, message.as_str())
}

/// The error of words that lack this one, with the usage of their subcommand, `apply` or `follow`.
pub(crate) fn missing(alloc: Global, name: &str, word: &str) -> Result<Error, AllocError>
    ensures { IfOk result (λ error. kind_of error ≡ ErrorKind.MissingRequiredArgument) }
{
    let message = format!(in alloc;
        "the following required arguments were not provided:\n  {word}"
    )?;
    let usage = if word == WATCH {
        WATCHED_FOLLOW
    } else if word == SPOOL {
        SPOOLED_FOLLOW
    } else if name == "apply" {
        FED_APPLY
    } else {
        FED_FOLLOW
    };
    let mut command = Command::new(alloc, "pgsub").override_usage(usage);
    command.error(ErrorKind::MissingRequiredArgument, message.as_str())
}

fn same_command<'a>(alloc: Global) -> Result<Command<'a>, AllocError>
    ensures { IfOk result (IsCommand same_app) }
{
    named(
        alloc,
        "same",
        "Compare the rows and the positions that two recordings lead to",
    )
    .arg(proto(alloc))?
    .arg(word(alloc, "LEFT", "One recording"))?
    .arg(word(alloc, "RIGHT", "The other recording"))
}

fn resume_command<'a>(alloc: Global) -> Result<Command<'a>, AllocError>
    ensures { IfOk result (IsCommand resume_app) }
{
    named(
        alloc,
        "resume",
        "Print the position that a recording leads to, and the LSN that may be confirmed to the server",
    )
    .arg(word(alloc, "FILE", "The recording"))
}

fn lsn_command<'a>(alloc: Global) -> Result<Command<'a>, AllocError>
    ensures { IfOk result (IsCommand lsn_app) }
{
    named(
        alloc,
        "lsn",
        "Print a log sequence number as a number and as text",
    )
    .arg(word(alloc, "TEXT", "The log sequence number, as 16/B374D848"))
}

/// The command `watch` without arguments.
fn bare_watch<'a>(alloc: Global) -> Command<'a>
    ensures { IsCommand (new_app (codes "watch")) result }
{
    named(
        alloc,
        "watch",
        "Print which rules of a well-formed server a recording keeps, and where it breaks one",
    )
    .after_help(WATCH_STATUSES)
}

fn watch_command<'a>(alloc: Global) -> Result<Command<'a>, AllocError>
    ensures { IfOk result (IsCommand watch_app) }
{
    bare_watch(alloc)
        .arg(proto(alloc))?
        .arg(word(alloc, "FILE", "The recording"))
}

/// The program without its subcommands.
fn bare<'a>(alloc: Global) -> Command<'a>
    ensures { IsCommand bare_app result }
{
    named(
        alloc,
        "pgsub",
        "The receiving end of PostgreSQL logical replication, for live sessions and recorded ones",
    )
    .version(VERSION)
    .subcommand_required(true)
}

/// The command line of the program.
pub(crate) fn program<'a>(alloc: Global) -> Result<Command<'a>, AllocError>
    ensures { IfOk result (IsCommand pgsub_app) }
{
    let program = with_subcommand(bare(alloc), show_command(alloc))?;
    let program = with_subcommand(program, apply_command(alloc))?;
    let program = with_subcommand(program, dump_command(alloc))?;
    let program = with_subcommand(program, follow_command(alloc))?;
    let program = with_subcommand(program, same_command(alloc))?;
    let program = with_subcommand(program, resume_command(alloc))?;
    let program = with_subcommand(program, lsn_command(alloc))?;
    with_subcommand(program, watch_command(alloc))
}
