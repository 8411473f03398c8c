//! The file of a new store, an empty database with small pages.
//!
//! The SQL library makes a file with pages of 4,096 bytes, and writes each page that a commit
//! changes whole to the log. A commit of one row changes three, so smaller pages halve what it
//! costs. It keeps the size of a file that is there.

ghost use Rattle.std.specs.Io.KnownBytes.{Appends};
ghost use Rattle.std.specs.Prelude.{◌≡◌, ◌⊎◌, OnOk, IfErr};
ghost use Rattle.pgapply.specs.Stored.{IsOwnFault};
ghost use Rattle.pgsystem.specs.NewFile.{new_page};

use pgapply::StoreFault;
use std::alloc::AllocError;
use std::fs::{File, Metadata, OpenOptions};
use std::io::{Read, Write};
use std::os::unix::fs::{MetadataExt, OpenOptionsExt};
use std::path::Path;
use std::{fs, io};

/// The first bytes of an empty database with pages of 1,024 bytes and a write-ahead log: its
/// header, and that of a page without cells.
///
/// SQLite documentation, Database File Format, The Database Header, B-tree Pages.
const HEADERS: &[u8] = b"SQLite format 3\0\
    \x04\x00\x02\x02\x00\x40\x20\x20\x00\x00\x00\x00\x00\x00\x00\x01\
    \x00\x00\x00\x00\x00\x00\x00\x00\x00\x00\x00\x01\x00\x00\x00\x04\
    \x00\x00\x00\x00\x00\x00\x00\x00\x00\x00\x00\x01\x00\x00\x00\x00\
    \x00\x00\x00\x00\x00\x00\x00\x00\x00\x00\x00\x00\x00\x00\x00\x00\
    \x00\x00\x00\x00\x00\x00\x00\x00\x00\x00\x00\x00\x00\x00\x00\x00\
    \x00\x2e\x76\x88\x0d\x00\x00\x00\x00\x04\x00\x00";

/// The rest of the page.
const REST: &[u8] = &[0; 916];

/// The mode of the file: others than its owner read the copied rows only where he lets them.
const MODE: u32 = 0o600;

/// Writes the one page of such a database, which files have that hold nothing else (law
/// `pgruns::new_files_are_empty`).
fn write_page<W: Write>(out: &mut W) -> io::Result<()>
    ensures { OnOk result (Appends (W.contents out.old) (W.contents out.new) new_page) }
{
    out.write_all(HEADERS)?;
    out.write_all(REST)
}

/// Whether SQLite takes the path for memory or for a URI. The SQL library rejects it.
fn is_special(path: &str) -> bool {
    path == ":memory:" || path.starts_with("file:")
}

/// The path with a suffix.
fn beside(rt: &HostRuntime, path: &str, end: &str) -> Result<String, AllocError> {
    let mut name = String::from_str(rt.alloc(), path)?;
    name.push_str(end)?;
    Ok(name)
}

/// The log of the database at a path.
fn log_of(rt: &HostRuntime, path: &str) -> Result<String, AllocError> {
    beside(rt, path, "-wal")
}

/// The byte that a file has, if it has a single one.
fn single_byte(rt: &HostRuntime, path: &str) -> Option<u8> {
    if fs::metadata(rt, path).ok()?.len() != 1 {
        return None;
    }
    let mut byte = [0];
    File::open(rt, path).ok()?.read_exact(&mut byte).ok()?;
    Some(byte[0])
}

/// Whether the file at the path has a single byte that no run wrote. The SQL library would take it
/// for an empty one and make a store of it, as SQLite does. A byte of 0 with a log beside it is
/// what a run leaves that was killed while the library made the file.
fn has_foreign_byte(rt: &HostRuntime, path: &str) -> Result<bool, AllocError> {
    let log = log_of(rt, path)?;
    Ok(match single_byte(rt, path) {
        None => false,
        Some(0) => fs::metadata(rt, log.as_str()).is_err(),
        Some(1..) => true,
    })
}

/// Whether both are there, and of one file.
pub(crate) fn are_of_one(one: io::Result<Metadata>, two: io::Result<Metadata>) -> bool {
    match (one, two) {
        (Ok(one), Ok(two)) => one.ino() == two.ino() && one.dev() == two.dev(),
        _ => false,
    }
}

/// Whether two names are of one file, neither of them a link to the other.
fn are_one_file(rt: &HostRuntime, name: &str, other: &str) -> bool {
    are_of_one(
        fs::symlink_metadata(rt, name),
        fs::symlink_metadata(rt, other),
    )
}

/// Writes such a database to a new file, and to the disk.
fn write_new(file: &mut File) -> io::Result<()> {
    write_page(file)?;
    file.sync_all()
}

/// The options by which a file is made that only its owner reads, unless one is there.
fn making() -> OpenOptions {
    let mut options = OpenOptions::new();
    options.write(true).create_new(true).mode(MODE);
    options
}

/// Writes such a database at the one path, and gives it the other path as a second name, unless
/// another file has that. It keeps the first name only where its run is killed.
fn link_new(rt: &HostRuntime, part: &str, path: &str) {
    let Ok(mut file) = making().open(rt, part) else {
        // Another run has made it, and may be writing it.
        return;
    };
    if write_new(&mut file).is_ok() {
        let _ = fs::hard_link(rt, part, path);
    }
    let _ = fs::remove_file(rt, part);
}

/// Writes to the disk which files the folder of a path holds. Where that can't be done, a crash may
/// lose a file that is new.
fn sync_folder(rt: &HostRuntime, path: &str) {
    let folder = match Path::new(path).parent() {
        Some(folder) if !folder.as_str().is_empty() => folder,
        _ => Path::new("."),
    };
    if let Ok(folder) = File::open(rt, folder) {
        let _ = folder.sync_all();
    }
}

/// The name under which such a database is written, before it gets that of the store.
fn part_of(rt: &HostRuntime, path: &str) -> Result<String, AllocError> {
    beside(rt, path, ".pgsub-new")
}

/// Takes the first name of a file away that has that of a store too: its run was killed before it
/// could, and the SQL library opens no file with two.
fn leave_one_name(rt: &HostRuntime, path: &str) -> Result<(), AllocError> {
    let Ok(file) = fs::canonicalize(rt, path) else {
        return Ok(());
    };
    let part = part_of(rt, file.as_str())?;
    if are_one_file(rt, part.as_str(), file.as_str()) {
        let _ = fs::remove_file(rt, part.as_str());
    }
    Ok(())
}

/// Readies the file at a path, where one is, for the SQL library.
///
/// # Errors
///
/// `NotAStore` where the file has a single byte that no run wrote; `Memory`.
pub fn ready_file(rt: &HostRuntime, path: &str) -> Result<(), StoreFault>
    ensures { IfErr result (λ fault. IsOwnFault fault ⊎ (fault ≡ StoreFault.NotAStore)) }
{
    leave_one_name(rt, path)?;
    if has_foreign_byte(rt, path)? {
        return Err(StoreFault::NotAStore);
    }
    Ok(())
}

/// Makes such a database at the path, if neither it nor its log is there. It comes whole or not at
/// all, and never replaces a file that another process makes: the run alone that made a part writes
/// it, a part gets its second name once it is whole, and only then may another run take its first
/// name away. Where a part is left of a run that was killed while it wrote, or no file has two
/// names here, the SQL library makes it, in an empty file that only its owner reads, or tells why
/// it can't.
///
/// # Errors
///
/// Those of `ready_file`.
pub fn make_file(rt: &HostRuntime, path: &str) -> Result<(), StoreFault>
    ensures { IfErr result (λ fault. IsOwnFault fault ⊎ (fault ≡ StoreFault.NotAStore)) }
{
    if is_special(path) {
        return Ok(());
    }
    ready_file(rt, path)?;
    if fs::metadata(rt, path).is_ok() {
        return Ok(());
    }
    let (part, log) = (part_of(rt, path)?, log_of(rt, path)?);
    if fs::metadata(rt, log.as_str()).is_err() {
        link_new(rt, part.as_str(), path);
    }
    let _empty = making().open(rt, path);
    sync_folder(rt, path);
    Ok(())
}
