//! What spools in memory alone are to a store beside which they are loaded.

ghost use Rattle.std.specs.Prelude.{◌≡◌, true};
ghost use Rattle.pgspooled.specs.Live.{is_honest_live};

use crate::live_spools::LiveSpools;
use sqlite_disk::Disk;

/// Spools in memory alone are honest, whatever was done to them. So loading them leaves a store as
/// it was, and what it serves, as `load_beside` says.
pub fn memory_is_honest<D: Disk + Drop>()
    ensures { (spools : LiveSpools D) (items : _) → spools ≡ LiveSpools.Memory items →
        is_honest_live spools ≡ true }
{}
