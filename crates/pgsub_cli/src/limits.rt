//! The program's limits, of which a command line may name some: `Limits`.

ghost use Rattle.std.specs.Prelude.{◌≡◌, ◌≤◌, min};

pub use pgcommand::Limits;

/// The longest payload of a frame that `show` accepts, in bytes.
pub(crate) const MAX_FRAME: u32 = 16777216;

/// The longest recording that is accepted, in bytes.
pub(crate) const MAX_RECORDING: u32 = 67108864;

/// The client's clock of replies, in microseconds since 2000-01-01. The program sends none.
pub const CLOCK: i64 = 0;

/// The length in a frame's header counts its own four bytes too, and is at most 2147483647.
const LONGEST_FRAME: u32 = 2147483643;

/// The longest payload of a frame that is accepted within these limits.
pub(crate) fn max_frame(limits: Limits) -> u32
    ensures fits { result ≤ 2147483643 }
    ensures least { result ≡ min limits.max_frame 2147483643 }
{
    limits.max_frame.min(LONGEST_FRAME)
}
