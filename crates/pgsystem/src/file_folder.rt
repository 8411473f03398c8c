//! The folder of a feed: each segment is a file, named by the LSN at which it begins.

ghost use Rattle.std.specs.Prelude.{◌≡◌, None, IfOk, IsTrue};

use pgfeed::{FeedFault, Folder};
use pgledger::Supposing;
use pglsn::Lsn;
use sqlite::{FileFrom, Unknown};
use sqlite_disk::Disk;
use sqlite_std_file::OpenError;
use std::alloc::{AllocError, Global};
use std::fs::{DirBuilder, File, OpenOptions};
use std::io::ErrorKind;
use std::os::unix::fs::{DirBuilderExt, OpenOptionsExt};
use std::path::Path;
use std::{fs, io};

/// The mode of the folder where it is made: others than its owner don't read the copied rows.
const FOLDER_MODE: u32 = 0o700;

/// The mode of the files.
const FILE_MODE: u32 = 0o600;

/// The name of a segment's file until it has its head. What a crash leaves under it goes at the
/// next start.
const NEW: &str = "segment.new";

/// The folder of a feed. A segment's file has the LSN at which it begins for its name, in 16
/// hexadecimal digits; other names are passed over, as those of readers. One process has the folder
/// at a time, and a file is locked as one of the SQL library.
#[derive(Drop)]
pub struct FileFolder<'r> {
    rt: &'r HostRuntime,
    path: &'r str,
    /// The folder once it was opened, locked.
    folder: Option<File>,
}

/// A fault of the system.
fn io_fault(error: io::Error) -> FeedFault {
    match error.kind() {
        ErrorKind::OutOfMemory => FeedFault::Memory,
        _ => FeedFault::Refused,
    }
}

/// That of opening the file of a segment.
fn open_fault(error: OpenError) -> FeedFault {
    match error {
        OpenError::Io(error) => io_fault(error),
        OpenError::OutOfMemory => FeedFault::Memory,
        OpenError::Busy | OpenError::HotJournal => FeedFault::Refused,
    }
}

/// The LSN that the name of a segment's file tells, None of another name.
fn base_of(name: &str) -> Option<Lsn> {
    let is_digit = |byte: &u8| byte.is_ascii_digit() || (b'A'..=b'F').contains(byte);
    if name.len() != 16 || !name.as_bytes().iter().all(is_digit) {
        return None;
    }
    match u64::from_str_radix(name, 16) {
        Ok(base) => Some(Lsn(base)),
        Err(_) => None,
    }
}

/// Writes to the disk which files a folder holds.
fn sync_names(folder: &Option<File>) -> Result<(), FeedFault> {
    match folder {
        Some(folder) => folder.sync_all().map_err(io_fault),
        None => Err(FeedFault::Refused),
    }
}

/// Makes a folder that isn't there, and writes to the disk that the one above has it.
fn make_folder(rt: &HostRuntime, path: &str) -> io::Result<()> {
    if fs::metadata(rt, path).is_ok() {
        return Ok(());
    }
    DirBuilder::new().mode(FOLDER_MODE).create(rt, path)?;
    let above = match Path::new(path).parent() {
        Some(above) if !above.as_str().is_empty() => above,
        _ => Path::new("."),
    };
    File::open(rt, above)?.sync_all()
}

/// Makes a file that isn't there, for its owner alone.
pub(crate) fn make_file(rt: &HostRuntime, path: &str) -> io::Result<()> {
    OpenOptions::new()
        .write(true)
        .create_new(true)
        .mode(FILE_MODE)
        .open(rt, path)?;
    Ok(())
}

/// The file at a path, locked. The log that the SQL library makes beside it goes again.
pub(crate) fn open_file(rt: &HostRuntime, path: &str) -> Result<FileFrom<Unknown>, FeedFault> {
    let log = format!(in rt.alloc(); "{path}-wal")?;
    let files = sqlite_std_file::open(rt, path, Unknown).map_err(open_fault)?;
    fs::remove_file(rt, log.as_str()).map_err(io_fault)?;
    Ok(files.db)
}

/// A file that was opened, of which no sync has failed.
fn usable<D: Disk + Drop>(file: D) -> Result<D, FeedFault>
    ensures { IfOk result (λ file. IsTrue (D.is_usable file)) }
{
    if file.may_be_used() {
        Ok(file)
    } else {
        Err(FeedFault::Refused)
    }
}

impl<'r> FileFolder<'r> {
    /// The folder at a path, which isn't touched yet.
    pub fn new(rt: &'r HostRuntime, path: &'r str) -> FileFolder<'r>
        ensures path { result.path.now ≡ path.now }
        ensures untouched { result.folder ≡ None }
    {
        FileFolder {
            rt,
            path,
            folder: None,
        }
    }

    /// Makes the folder if it isn't there, opens it and locks it.
    fn reach(&mut self) -> Result<(), FeedFault> {
        make_folder(self.rt, self.path).map_err(io_fault)?;
        let folder = File::open(self.rt, self.path).map_err(io_fault)?;
        if folder.try_lock().is_err() {
            return Err(FeedFault::Refused);
        }
        self.folder = Some(folder);
        Ok(())
    }

    /// The path of the segment's file that begins there.
    fn segment_path(&self, base: Lsn) -> Result<String, AllocError> {
        let (folder, number) = (self.path, base.0);
        format!(in self.rt.alloc(); "{folder}/{number:016X}")
    }

    /// The path of a segment's file that hasn't its name yet.
    fn new_path(&self) -> Result<String, AllocError> {
        let folder = self.path;
        format!(in self.rt.alloc(); "{folder}/{NEW}")
    }

    /// Removes what a crash has left of a segment that had no name yet.
    fn remove_left(&self) -> Result<(), FeedFault> {
        let path = self.new_path()?;
        match fs::remove_file(self.rt, path.as_str()) {
            Err(error) if error.kind() != ErrorKind::NotFound => Err(io_fault(error)),
            _ => Ok(()),
        }
    }

    /// The LSNs that the names in the folder tell, in any order.
    fn read_bases(&self, alloc: Global) -> io::Result<Vec<Lsn>> {
        let mut bases = Vec::new(alloc);
        for entry in fs::read_dir(self.rt, self.path)? {
            match entry {
                Ok(entry) => {
                    if let Some(base) = base_of(entry.file_name()) {
                        bases.push(base)?;
                    }
                }
                // a name that isn't UTF-8
                Err(error) if error.kind() == ErrorKind::InvalidFilename => {}
                Err(error) => return Err(error),
            }
        }
        Ok(bases)
    }
}

/// Of a feed in this folder no clause is said, as of its answers. So what is said of a run with one
/// is said of the store alone.
impl Supposing for FileFolder<'_> {
    ghost supposed = { ⊥ };
}

/// What files hold as they are opened is named by `Unknown`, which says nothing of one that isn't
/// empty. So no clause is said of this folder's answers: that they are true is trusted.
impl Folder for FileFolder<'_> {
    ghost use Rattle.std.specs.Prelude.{[]};

    type File = FileFrom<Unknown>;

    ghost is_true = { λ _. ⊥ };

    ghost places = { λ _. [] };

    ghost has = { λ _ _ _. ⊥ };

    fn bases(&mut self) -> Result<Vec<Lsn>, FeedFault> {
        self.reach()?;
        self.remove_left()?;
        let mut bases = self.read_bases(self.rt.alloc()).map_err(io_fault)?;
        bases.sort()?;
        Ok(bases)
    }

    fn open(&mut self, base: Lsn) -> Result<FileFrom<Unknown>, FeedFault> {
        let path = self.segment_path(base)?;
        usable(open_file(self.rt, path.as_str())?)
    }

    fn make(&mut self) -> Result<FileFrom<Unknown>, FeedFault> {
        self.remove_left()?;
        let path = self.new_path()?;
        make_file(self.rt, path.as_str()).map_err(io_fault)?;
        usable(open_file(self.rt, path.as_str())?)
    }

    fn name(&mut self, base: Lsn, _file: &FileFrom<Unknown>) -> Result<(), FeedFault> {
        let (new, path) = (self.new_path()?, self.segment_path(base)?);
        fs::rename(self.rt, new.as_str(), path.as_str()).map_err(io_fault)?;
        sync_names(&self.folder)
    }

    fn remove(&mut self, base: Lsn) -> Result<(), FeedFault> {
        let path = self.segment_path(base)?;
        fs::remove_file(self.rt, path.as_str()).map_err(io_fault)?;
        sync_names(&self.folder)
    }

    fn close(&mut self, _base: Lsn, _file: FileFrom<Unknown>) {}
}
