//! Where a walk looks first.
ghost use Rattle.std.specs.Prelude.{◌≡◌, length};

/// Where an earlier look at a set found the next use in each of its runs. The next look begins there, and is faster where little
/// lies between. It finds the same, whatever this is.
#[derive(Clone, Copy, Debug)]
pub struct Near {
    pub(crate) indexes: [u16; 8],
}

impl Near {
    /// A value before any look.
    pub fn new() -> Near
        ensures { length result.indexes ≡ 8 }
    {
        Near { indexes: [0; 8] }
    }
}
