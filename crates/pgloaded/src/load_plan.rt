//! What is loaded before a server is followed.

ghost use Rattle.std.specs.Prelude.{◌≡◌, ◌≤◌, min};

use pgload::Limits;

/// The length in a frame's header counts its own four bytes too, and is at most 2147483647.
const LONGEST_FRAME: u32 = 2147483643;

/// A load that is to come before the first session.
#[derive(Clone, Copy)]
pub struct LoadPlan {
    pub(crate) limits: Limits,
    pub(crate) max_frame: u32,
    ghost small: { max_frame ≤ 2147483643 },
}

impl LoadPlan {
    /// Rows are stored in batches of so many bytes. A payload has `max_frame` bytes at most, and
    /// so has a line of a table's text.
    pub fn new(batch: usize, max_frame: u32) -> LoadPlan
        ensures batch { result.limits.batch ≡ batch }
        ensures max_line { result.limits.max_line ≡ min max_frame 2147483643 }
        ensures max_frame { result.max_frame ≡ min max_frame 2147483643 }
    {
        let longest = max_frame.min(LONGEST_FRAME);
        LoadPlan {
            limits: Limits::new(batch, longest),
            max_frame: longest,
        }
    }
}
