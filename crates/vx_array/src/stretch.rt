// Rows one after another.
ghost use Rattle.std.specs.Prelude.{◌≡◌, ◌≤◌, ◌<◌, ◌+◌, ◌^◌};

/// So many rows from one on.
#[derive(Clone, Copy, Debug, Drop)]
pub struct Stretch {
    pub(crate) from: usize,
    pub(crate) len: usize,
    ghost fits: { from + len < 2 ^ 64 },
}

impl Stretch {
    /// So many rows from the first on.
    pub fn first(len: usize) -> Stretch
        ensures from { result.from ≡ 0 }
        ensures len { result.len ≡ len }
    {
        Stretch { from: 0, len }
    }

    /// The first of them.
    pub fn from(self) -> usize
        ensures { result ≡ self.from }
    {
        self.from
    }

    /// How many there are.
    pub fn len(self) -> usize
        ensures { result ≡ self.len }
    {
        self.len
    }

    /// The row behind the last one.
    pub fn end(self) -> usize
        ensures { result ≡ self.from + self.len }
    {
        self.from + self.len
    }

    /// So many of them from one on. Asks rows that are there.
    pub fn slice(self, from: usize, len: usize) -> Stretch
        requires { from + len ≤ self.len }
        ensures from { result.from ≡ self.from + from }
        ensures len { result.len ≡ len }
    {
        Stretch {
            from: self.from + from,
            len,
        }
    }
}
