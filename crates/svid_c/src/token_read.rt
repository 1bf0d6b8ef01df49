ghost use Rattle.std.specs.Prelude.{◌≡◌};
ghost use Rattle.svid_check.specs.Said.{said_in};

use std::marker::Model;
use svid_check::Reading;

/// What the handle of a token holds.
///
/// In contracts it is what the token says.
#[derive(Drop)]
pub struct TokenRead {
    reading: Reading,
}

impl Model for TokenRead {
    ghost use Rattle.svid_check.specs.Said.{Said, said_in};

    ghost Value = { Said };

    ghost view = { λ read. said_in read.reading };
}

impl TokenRead {
    // What was read.
    pub(crate) fn of(reading: Reading) -> TokenRead
        ensures { result ≡ said_in reading }
    {
        TokenRead { reading }
    }

    // What was read.
    pub(crate) fn reading(&self) -> &Reading
        ensures { said_in result.now ≡ self.now }
    {
        &self.reading
    }
}
