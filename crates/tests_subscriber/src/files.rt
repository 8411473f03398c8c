//! A file in memory, of which reading may fail.

use std::io;
use std::io::{ErrorKind, Read};

/// A file: it gives at most so many bytes at a call, and after the last one an error or the end.
#[derive(Clone, Copy, Drop)]
pub(crate) struct File<'t> {
    pub(crate) rest: &'t [u8],
    pub(crate) at_once: usize,
    pub(crate) error: Option<ErrorKind>,
}

impl<'t> File<'t> {
    /// It gives all of these bytes, as many at a call as are asked for.
    pub(crate) fn of(rest: &'t [u8]) -> File<'t> {
        File {
            rest,
            at_once: usize::MAX,
            error: None,
        }
    }
}

impl<'t> Read for File<'t> {
    fn read(&mut self, buf: &mut [u8]) -> io::Result<usize> {
        match self.error {
            Some(error) if self.rest.is_empty() => Err(io::Error::from(error)),
            _ => {
                let count = buf.len().min(self.at_once);
                self.rest.read(&mut buf[..count])
            }
        }
    }
}
