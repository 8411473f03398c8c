//! The files that a task names.

use pgcommand::Task;
use std::fs;
use std::fs::File;

/// The file with this path, None where it can't be opened.
pub fn opened(rt: &HostRuntime, path: &str) -> Option<File> {
    File::open(rt, path).ok()
}

/// The files that a task names, of which the first is the left one.
pub fn files_of(rt: &HostRuntime, task: &Task) -> (Option<File>, Option<File>) {
    match task {
        Task::Show { file, .. }
        | Task::Apply { file, .. }
        | Task::Resume { file }
        | Task::Watch { file, .. } => (opened(rt, file.as_str()), None),
        Task::Same { left, right, .. } => {
            let left = opened(rt, left.as_str());
            (left, opened(rt, right.as_str()))
        }
        Task::Dump { .. } | Task::Follow { .. } | Task::Lsn { .. } => (None, None),
    }
}

/// The number of bytes of a file, None where it isn't a plain one.
pub fn length_of(rt: &HostRuntime, path: &str) -> Option<u64> {
    match fs::metadata(rt, path) {
        Ok(about) if about.is_file() => Some(about.len()),
        _ => None,
    }
}
