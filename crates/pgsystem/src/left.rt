//! What a run leaves of the files of its store.

ghost use Rattle.std.specs.Prelude.{◌≡◌};

use pgapply::StoreFault;
use pgfeed::{Feed, Folder};
use sqlite::{Connection, FileFrom, FileStore, Files, Start};

/// The files of a store as it is closed, or the store of the trees whose log couldn't be copied
/// into its file.
pub type Closing<D> = Result<Files<D>, (StoreFault, FileStore<D>)>;

/// What a run leaves of the files at a path: those of its store. Where no store was opened, the
/// connection to files that hold none, or None where the files couldn't be opened.
pub type Filed<D> = Result<Closing<D>, Option<Connection<FileStore<D>>>>;

/// The exit status of a run that left this of the files. That ends here, and only here: a proof
/// over it asks for what holds of each of its parts.
pub fn status_of<F: Start>(status: u8, _left: Filed<FileFrom<F>>) -> u8
    ensures { result ≡ status }
{
    status
}

/// That of a run that kept a feed, or none, which ends here too.
pub fn fed_status<F: Start, D: Folder + Drop>(
    status: u8,
    left: Filed<FileFrom<F>>,
    _feed: Option<Feed<D>>,
) -> u8
    ensures { result ≡ status }
{
    status_of(status, left)
}
