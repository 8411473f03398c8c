//! What a stop at any moment leaves of the two files.

ghost use Rattle.std.specs.Prelude.{IsTrue};
ghost use Rattle.sqlite.specs.Held.{AreDatabases};
ghost use Rattle.sqlite_trees.specs.View.{IsClean};
ghost use Rattle.sqlite_store.specs.FileStore.{recovers, view};
ghost use Rattle.sqlite_wal.specs.Reads.{AreClean};
ghost use Rattle.pgmemory.specs.Stopped.{Leaves};

use sqlite::{FileStore, Files};
use sqlite_disk::Disk;

/// The two files as they are, without a word to the disks: what a stop at this moment leaves.
/// Whatever they may then hold is a database that the store could leave.
pub fn stop<D: Disk + Drop>(store: FileStore<D>) -> Files<D>
    requires numbered { IsClean (view store) → IsTrue (view store).is_numbered }
    requires sound { IsClean (view store) → AreDatabases (recovers store) }
    ensures left { Leaves D.Disk (recovers store) result }
    ensures clean { AreClean D.Disk result.log result.db → IsClean (view store) }
{
    store.close()
}
