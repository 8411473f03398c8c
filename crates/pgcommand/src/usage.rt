//! The words of the command line as the system has them, and what is told where they ask for no
//! task.

ghost use Rattle.std.specs.Prelude.{◌≡◌, ◌≢◌, ◌⊎◌, option_map, slice_get, string_bytes};
ghost use Rattle.clap.specs.Values.{kind_of};
ghost use Rattle.clap.specs.declared.error.kind.ErrorKind.TheVariants as kind;
ghost use Rattle.pgcommand.specs.Asked.{status_without_memory};

use clap::Error;
use std::alloc::AllocError;
use std::{env, io};

/// The status of a usage error.
pub const USAGE: u8 = 2;

/// The status of a fault of a file.
const FILE: u8 = 3;

/// The status where memory has run out.
pub const MEMORY: u8 = 1;

/// That of `follow` there.
pub const FOLLOW_MEMORY: u8 = 14;

/// The words of the command line, the program's name first. None where they aren't UTF-8. Which
/// words the system has, no clause can say.
pub fn words(rt: &HostRuntime) -> Result<Option<Vec<String>>, AllocError> {
    match env::args(rt) {
        Ok(words) => Ok(Some(words.collect(rt.alloc())?)),
        Err(error) if error.kind() == io::ErrorKind::OutOfMemory => Err(AllocError),
        Err(_) => Ok(None),
    }
}

/// Prints help, or the version with the commit and the kit that the program was built of, or tells
/// on standard error why the words ask for no task. Where standard error can't be written, the
/// status alone tells.
pub fn tell_usage(rt: &HostRuntime, error: &Error, commit: &str, kit: &str) -> u8
    ensures usage { kind_of error.now ≢ kind.DisplayHelp → kind_of error.now ≢ kind.DisplayVersion →
        result ≡ 2 }
    ensures asked { (kind_of error.now ≡ kind.DisplayHelp)
        ⊎ (kind_of error.now ≡ kind.DisplayVersion) → (result ≡ 0) ⊎ (result ≡ 3) }
{
    if error.use_stderr() {
        let _ = error.print(rt);
        return USAGE;
    }
    if error.print(rt).is_err() || tell_build(rt, error, commit, kit).is_err() {
        let _ = eprintln!(rt; "pgsub: cannot write");
        return FILE;
    }
    0
}

/// After the version, prints the sources and the toolchain that the program was built of.
fn tell_build(rt: &HostRuntime, error: &Error, commit: &str, kit: &str) -> io::Result<()> {
    match error.kind() {
        clap::error::ErrorKind::DisplayVersion => println!(rt; "commit {commit}, {kit}"),
        _ => Ok(()),
    }
}

/// The exit status where there is no memory for the task of a command line with this command.
fn memory_status(command: Option<&String>) -> u8
    ensures { result ≡ status_without_memory
        (option_map (λ word. string_bytes word.now) command.entry) }
{
    match command {
        Some(word) if word.as_str() == "follow" => FOLLOW_MEMORY,
        _ => MEMORY,
    }
}

/// Tells that there is no memory for the task that the words ask for. Returns the exit status.
pub fn tell_memory(rt: &HostRuntime, words: &[String]) -> u8
    ensures { result ≡ status_without_memory
        (option_map (λ word. string_bytes word) (slice_get words.now 1)) }
{
    let _ = eprintln!(rt; "pgsub: memory");
    memory_status(words.get(1))
}
