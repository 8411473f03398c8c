//! What holds of each connection over disks in memory, as the contract of a function that does
//! nothing.

ghost use Rattle.pgmemory.specs.Connected.{StaysClean};

/// Memory gives back what was written to it. So the disk of a connection over memory is clean in
/// every state, and what `sqlite` says of values under that premise holds without it.
pub fn memory_stays_clean()
    ensures { StaysClean }
{}
