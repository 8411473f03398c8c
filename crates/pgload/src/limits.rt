//! What bounds the memory of a load.

ghost use Rattle.std.specs.Prelude.{◌≡◌, ◌≤◌};

/// What bounds the memory of a load, beside the encoding of the longest row.
#[derive(Clone, Copy)]
pub struct Limits {
    batch: usize,
    max_line: u32,
    ghost small: { max_line ≤ 2147483647 },
}

impl Limits {
    /// So many bytes of rows wait at most, in the encoding of TupleData, and a line of a text has
    /// so many at most.
    pub fn new(batch: usize, max_line: u32) -> Limits
        requires { max_line ≤ 2147483647 }
        ensures batch { result.batch ≡ batch }
        ensures max_line { result.max_line ≡ max_line }
    {
        Limits { batch, max_line }
    }

    /// So many bytes of rows wait at most.
    pub fn batch(&self) -> usize
        ensures { result ≡ self.now.batch }
    {
        self.batch
    }

    /// A line has so many bytes at most.
    pub fn max_line(&self) -> u32
        ensures same { result ≡ self.now.max_line }
        ensures small { result ≤ 2147483647 }
    {
        self.max_line
    }
}
